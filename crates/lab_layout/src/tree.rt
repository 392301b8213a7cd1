// The switches as trees.
ghost use Rattle.std.specs.Prelude.{◌≡◌, ◌<◌, length};

use lab_base::{Items, Memory};
use lab_view::{Trunk, View};
use std::alloc::Global;

/// A switch in its tree.
#[derive(Drop)]
pub(crate) struct Branch {
    /// The trunk that leads towards the root.
    pub(crate) up: Option<usize>,
    pub(crate) depth: usize,
    pub(crate) children: Items<usize>,
}

/// The trees: by switch its branch, and the switches in an order in which each stands after its parent.
#[derive(Drop)]
pub(crate) struct Forest {
    pub(crate) branches: Vec<Branch>,
    pub(crate) order: Vec<usize>,
    pub(crate) roots: Vec<usize>,
    pub(crate) deepest: usize,
}

/// A trunk of a switch, with the switch at its other end.
#[derive(Clone, Copy)]
struct Near {
    trunk: usize,
    other: usize,
}

/// By switch whether it is met, and the round in which it goes.
#[derive(Drop)]
struct Walk {
    near: Vec<Items<Near>>,
    round: Vec<usize>,
    met: Vec<bool>,
}

fn add_near(near: &mut Vec<Items<Near>>, switch: usize, own: Near) -> Result<(), Memory> {
    if switch < near.len() {
        near[switch].push(own)?;
    }
    Ok(())
}

/// Notes a trunk at both its ends.
fn add_trunk(near: &mut Vec<Items<Near>>, trunk: usize, own: &Trunk) -> Result<(), Memory> {
    let other = own.second;
    add_near(near, own.first, Near { trunk, other })?;
    let other = own.first;
    add_near(near, own.second, Near { trunk, other })?;
    Ok(())
}

/// By switch its trunks, each with the switch at its other end.
fn near_of(alloc: Global, switches: usize, trunks: &[Trunk]) -> Result<Vec<Items<Near>>, Memory> {
    let mut near = Vec::new(alloc);
    for _switch in 0..switches {
        near.push(Items::new(alloc))?;
    }
    for (trunk, own) in trunks.iter().enumerate() {
        add_trunk(&mut near, trunk, own)?;
    }
    Ok(near)
}

/// The trunks of a switch.
fn near_at(near: &[Items<Near>], switch: usize) -> &[Near] {
    match near.get(switch) {
        Some(own) => own.as_slice(),
        None => &[],
    }
}

/// How many trunks a switch has.
fn degree(near: &[Items<Near>], switch: usize) -> usize {
    near_at(near, switch).len()
}

fn count_at(counts: &[usize], number: usize) -> usize {
    match counts.get(number) {
        Some(count) => *count,
        None => 0,
    }
}

fn set(counts: &mut [usize], number: usize, count: usize) {
    if number < counts.len() {
        counts[number] = count;
    }
}

/// Whether a switch goes in a round.
fn goes(left: &[usize], round: &[usize], switch: usize) -> bool {
    count_at(left, switch) <= 1 && count_at(round, switch) == 0
}

/// Appends a switch where it goes.
fn push_where(list: &mut Vec<usize>, goes: bool, switch: usize) -> Result<(), Memory> {
    if goes {
        list.push(switch)?;
    }
    Ok(())
}

/// The switches that go in a round: those of at most one trunk to a switch that is left.
fn going(alloc: Global, left: &[usize], round: &[usize]) -> Result<Vec<usize>, Memory> {
    let mut going = Vec::new(alloc);
    for switch in 0..left.len() {
        push_where(&mut going, goes(left, round, switch), switch)?;
    }
    Ok(going)
}

/// Takes a switch off the counts of its neighbours.
fn take_off(near: &[Items<Near>], left: &mut [usize], switch: usize) {
    for beside in near_at(near, switch) {
        let now = count_at(left, beside.other).saturating_sub(1);
        set(left, beside.other, now);
    }
}

/// Notes switches with the number of their round.
fn set_all(round: &mut [usize], switches: &[usize], number: usize) {
    for switch in switches {
        set(round, *switch, number);
    }
}

/// Takes switches off the counts of their neighbours.
fn take_all(near: &[Items<Near>], left: &mut [usize], switches: &[usize]) {
    for switch in switches {
        take_off(near, left, *switch);
    }
}

/// The round after so many.
fn next_round(
    alloc: Global,
    near: &[Items<Near>],
    left: &mut [usize],
    round: &mut [usize],
    before: usize,
) -> Result<(), Memory>
    requires { before < length near.now }
{
    let going = going(alloc, left, round)?;
    set_all(round, &going, before + 1);
    take_all(near, left, &going);
    Ok(())
}

/// All rounds, as many as there are switches.
fn all_rounds(
    alloc: Global,
    near: &[Items<Near>],
    left: &mut [usize],
    round: &mut [usize],
) -> Result<(), Memory> {
    for before in 0..near.len() {
        next_round(alloc, near, left, round, before)?;
    }
    Ok(())
}

/// By switch the round in which it goes when in each round all switches go that have at most one neighbour left. The last ones of
/// a tree are its middle.
fn rounds(alloc: Global, near: &[Items<Near>]) -> Result<Vec<usize>, Memory> {
    let mut left = Vec::new(alloc);
    let mut round = Vec::new(alloc);
    for own in near {
        left.push(own.len())?;
        round.push(0)?;
    }
    all_rounds(alloc, near, &mut left, &mut round)?;
    Ok(round)
}

impl Walk {
    /// Whether a switch is a better root than another: later in its rounds, with more trunks, earlier in the lab.
    fn is_better(&self, a: usize, b: usize) -> bool {
        let first = count_at(&self.round, a);
        let second = count_at(&self.round, b);
        first > second || (first == second && degree(&self.near, a) > degree(&self.near, b))
    }

    /// Notes that a switch is met, and tells whether it wasn't before.
    fn meet(&mut self, switch: usize) -> bool {
        if switch < self.met.len() && !self.met[switch] {
            self.met[switch] = true;
            true
        } else {
            false
        }
    }

    /// The best root among the switches that are joined with one; all of these are met then.
    fn root_of(&mut self, alloc: Global, from: usize) -> Result<usize, Memory> {
        let mut found = Vec::new(alloc);
        found.push(from)?;
        let mut root = from;
        for at in 0..self.near.len() {
            let Some(switch) = found.get(at) else {
                break;
            };
            let switch = *switch;
            if self.is_better(switch, root) {
                root = switch;
            }
            for number in 0..degree(&self.near, switch) {
                if let Some(beside) = self.beside(switch, number)
                    && self.meet(beside.other)
                {
                    found.push(beside.other)?;
                }
            }
        }
        Ok(root)
    }

    fn beside(&self, switch: usize, number: usize) -> Option<Near> {
        match near_at(&self.near, switch).get(number) {
            Some(beside) => Some(*beside),
            None => None,
        }
    }
}

impl Forest {
    fn depth(&self, switch: usize) -> usize {
        match self.branches.get(switch) {
            Some(branch) => branch.depth,
            None => 0,
        }
    }

    /// The trunk that leads from a switch towards its root.
    pub(crate) fn up(&self, switch: usize) -> Option<usize> {
        match self.branches.get(switch) {
            Some(branch) => branch.up,
            None => None,
        }
    }

    /// The switches that hang on a switch.
    pub(crate) fn children(&self, switch: usize) -> &[usize] {
        match self.branches.get(switch) {
            Some(branch) => branch.children.as_slice(),
            None => &[],
        }
    }

    /// The column of a switch: those without children stand in the last one.
    pub(crate) fn column(&self, switch: usize) -> usize {
        match self.branches.get(switch) {
            Some(branch) if !branch.children.is_empty() => branch.depth,
            _ => self.deepest,
        }
    }

    /// Notes the trunk that leads from a switch towards its root, and its depth.
    fn set_up(&mut self, switch: usize, trunk: usize, depth: usize)
        ensures len { length self.new.branches.items ≡ length self.old.branches.items }
    {
        if switch < self.branches.len() {
            let branch = &mut self.branches[switch];
            branch.up = Some(trunk);
            branch.depth = depth;
        }
    }

    /// Notes a switch that hangs on another.
    fn add_child(&mut self, switch: usize, child: usize) -> Result<(), Memory> {
        if switch < self.branches.len() {
            self.branches[switch].children.push(child)?;
        }
        Ok(())
    }

    /// Hangs a switch below another.
    fn hang_below(&mut self, switch: usize, beside: Near) -> Result<(), Memory> {
        let depth = self.depth(switch).saturating_add(1);
        self.set_up(beside.other, beside.trunk, depth);
        self.add_child(switch, beside.other)?;
        self.order.push(beside.other)?;
        if depth > self.deepest {
            self.deepest = depth;
        }
        Ok(())
    }

    /// Hangs all switches of a tree below its root.
    fn hang(&mut self, near: &[Items<Near>], root: usize) -> Result<(), Memory> {
        self.roots.push(root)?;
        let from = self.order.len();
        self.order.push(root)?;
        for at in from..near.len() {
            let Some(switch) = self.order.get(at) else {
                break;
            };
            let switch = *switch;
            let up = self.up(switch);
            let Some(own) = near.get(switch) else {
                break;
            };
            for beside in own.as_slice() {
                if up != Some(beside.trunk) {
                    self.hang_below(switch, *beside)?;
                }
            }
        }
        Ok(())
    }
}

fn bare(alloc: Global, switches: usize) -> Result<Forest, Memory> {
    let mut branches = Vec::new(alloc);
    for _switch in 0..switches {
        branches.push(Branch {
            up: None,
            depth: 0,
            children: Items::new(alloc),
        })?;
    }
    Ok(Forest {
        branches,
        order: Vec::new(alloc),
        roots: Vec::new(alloc),
        deepest: 0,
    })
}

/// The trees of a lab's switches, each hung from its middle.
pub(crate) fn forest_of(alloc: Global, view: &View) -> Result<Forest, Memory> {
    let switches = view.switches.len();
    let near = near_of(alloc, switches, view.trunks.as_slice())?;
    let round = rounds(alloc, &near)?;
    let mut met = Vec::new(alloc);
    for _ in 0..switches {
        met.push(false)?;
    }
    let mut walk = Walk { near, round, met };
    let mut forest = bare(alloc, switches)?;
    for switch in 0..switches {
        if walk.meet(switch) {
            let root = walk.root_of(alloc, switch)?;
            forest.hang(&walk.near, root)?;
        }
    }
    Ok(forest)
}
