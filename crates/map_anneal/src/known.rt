// Known moves and exchanges, followed from one map to the next.
ghost use Rattle.std.specs.Prelude.{◌≡◌, ◌<◌, ℕ, true, false, map, length, slice_index_or, IfOk, OnOk};
ghost use Rattle.lab_model.specs.Rules.{is_member, place_at};
ghost use Rattle.virt_topo.specs.Wirings.{virt_at};
ghost use Rattle.map_state.specs.Tables.{IsSearch};
ghost use Rattle.map_anneal.specs.Sought.{IsNodeMap};
ghost use Rattle.map_anneal.specs.Searches.{sought_of};
ghost use Rattle.map_anneal.specs.Untouched.{IsTouched, IsUntouched};
ghost use Rattle.map_anneal.specs.Noted.{IsKnown};
ghost use Rattle.map_anneal.specs.RuledOut.{ArePairs, AreRows};
ghost use Rattle.node_maps.specs.Marked.{marked_numbers, marked_of};

use crate::notes::Notes;
use crate::step::{is_marked, touched_classes, touched_nodes};
use cost_rule::StepRule;
use lab_base::{Items, Memory};
use map_state::Search;
use node_maps::{Marked, marked_numbers};
use std::alloc::Global;
use virt_topo::{Asks, Mapping, Wiring};

/// Whether the class of a virtual node is marked, if it asks for one.
fn is_class_marked(wiring: &Wiring, classes: &[bool], virt: usize) -> bool
    requires { virt < length wiring.now.nodes }
    ensures { result ≡ false → (c : ℕ) → is_member c (virt_at wiring.now virt).asks ≡ true → slice_index_or classes.now c true ≡ false }
{
    match wiring.nodes.as_slice()[virt].asks {
        Asks::Plain(_) => false,
        Asks::Class(class) => is_marked(classes, class),
    }
}

/// Whether the node of a virtual node is marked, or its class.
fn is_touched(
    wiring: &Wiring,
    nodes: &[bool],
    classes: &[bool],
    last: &Mapping,
    virt: usize,
) -> bool
    requires virt { virt < length wiring.now.nodes }
    requires last { length last.now.places ≡ length wiring.now.nodes }
    ensures node { result ≡ false → slice_index_or nodes.now (place_at last.now virt).0.0 true ≡ false }
    ensures class { result ≡ false → (c : ℕ) → is_member c (virt_at wiring.now virt).asks ≡ true → slice_index_or classes.now c true ≡ false }
{
    let own = last.places.as_slice()[virt].0;
    if is_marked(nodes, own.0) {
        return true;
    }
    is_class_marked(wiring, classes, virt)
}

/// Nodes and virtual nodes that a step touches, and the candidates on such nodes.
#[derive(Drop)]
pub(crate) struct Touched {
    nodes: Vec<bool>,
    virts: Vec<bool>,
    /// The numbers of the virtual nodes.
    numbers: Items<usize>,
    candidates: Marked,
}

/// By virtual node whether a step touches its node or its class.
fn touched_virts(
    alloc: Global,
    wiring: &Wiring,
    nodes: &[bool],
    last: &Mapping,
    next: &Mapping,
) -> Result<Vec<bool>, Memory>
    requires last { length last.now.places ≡ length wiring.now.nodes }
    requires next { length next.now.places ≡ length wiring.now.nodes }
    ensures one_each { IfOk result (λ virts. length virts.items ≡ length wiring.now.nodes) }
    ensures untouched { IfOk result (λ virts. (v : ℕ) → slice_index_or virts.items v true ≡ false → IsUntouched wiring.now last.now next.now nodes.now v) }
{
    let classes = touched_classes(alloc, wiring, last, next)?;
    let mut virts = vec![in alloc; true; wiring.nodes.len()]?;
    for virt in 0..wiring.nodes.len() {
        virts[virt] = is_touched(wiring, nodes, &classes, last, virt);
    }
    Ok(virts)
}

impl Touched {
    /// The nodes and virtual nodes that the step from one map to another touches.
    fn of(
        alloc: Global,
        search: &Search,
        _rule: &StepRule,
        last: &Mapping,
        next: &Mapping,
    ) -> Result<Touched, Memory>
        requires search { IsSearch search.now }
        requires last { IsNodeMap (sought_of search.now _rule.now.number) last.now }
        requires next { IsNodeMap (sought_of search.now _rule.now.number) next.now }
        ensures touched { IfOk result (IsTouched search.now.mapper.lab.now search.now.mapper.wiring.now last.now next.now) }
        ensures numbers { IfOk result (λ touched. touched.numbers ≡ marked_numbers touched.virts.items) }
        ensures candidates { IfOk result (λ touched. touched.candidates ≡ map (marked_of touched.nodes.items) search.now.candidates.now) }
    {
        let nodes = touched_nodes(alloc, search, _rule, last, next)?;
        let virts = touched_virts(alloc, search.mapper.wiring, &nodes, last, next)?;
        let numbers = marked_numbers(alloc, &virts)?;
        let candidates = search.candidates.marked(alloc, &nodes)?;
        Ok(Touched {
            nodes,
            virts,
            numbers,
            candidates,
        })
    }

    /// Whether a virtual node is touched.
    fn has(&self, virt: usize) -> bool
        ensures { result ≡ slice_index_or self.now.virts.items virt true }
    {
        match self.virts.get(virt) {
            Some(mark) => *mark,
            None => true,
        }
    }
}

/// Forgets the moves that a step may have changed.
fn follow_rows(
    rows: &mut Vec<Notes>,
    _search: &Search,
    _rule: &StepRule,
    _last: &Mapping,
    _next: &Mapping,
    touched: &Touched,
)
    requires search { IsSearch _search.now }
    requires last { IsNodeMap (sought_of _search.now _rule.now.number) _last.now }
    requires next { IsNodeMap (sought_of _search.now _rule.now.number) _next.now }
    requires touched { IsTouched _search.now.mapper.lab.now _search.now.mapper.wiring.now _last.now _next.now touched.now }
    requires candidates { touched.now.candidates ≡ map (marked_of touched.now.nodes.items) _search.now.candidates.now }
    requires rows { AreRows (sought_of _search.now _rule.now.number) _last.now rows.old.items }
    ensures { AreRows (sought_of _search.now _rule.now.number) _next.now rows.new.items }
{
    for virt in 0..rows.len() {
        let all = touched.has(virt);
        rows[virt].forget(all, touched.candidates.of(virt));
    }
}

/// Forgets the exchanges that a step may have changed.
fn follow_pairs(
    pairs: &mut Vec<Notes>,
    _search: &Search,
    _rule: &StepRule,
    _last: &Mapping,
    _next: &Mapping,
    touched: &Touched,
)
    requires search { IsSearch _search.now }
    requires last { IsNodeMap (sought_of _search.now _rule.now.number) _last.now }
    requires next { IsNodeMap (sought_of _search.now _rule.now.number) _next.now }
    requires touched { IsTouched _search.now.mapper.lab.now _search.now.mapper.wiring.now _last.now _next.now touched.now }
    requires numbers { touched.now.numbers ≡ marked_numbers touched.now.virts.items }
    requires pairs { ArePairs (sought_of _search.now _rule.now.number) _last.now pairs.old.items }
    ensures { ArePairs (sought_of _search.now _rule.now.number) _next.now pairs.new.items }
{
    for virt in 0..pairs.len() {
        let all = touched.has(virt);
        pairs[virt].forget(all, touched.numbers.as_slice());
    }
}

/// By virtual node what is known of its moves, and of its exchanges with later ones.
#[derive(Drop)]
pub(crate) struct Known {
    pub(crate) rows: Vec<Notes>,
    pub(crate) pairs: Vec<Notes>,
}

/// No move is known.
fn fresh_rows(
    alloc: Global,
    search: &Search,
    _rule: &StepRule,
    _start: &Mapping,
) -> Result<Vec<Notes>, Memory>
    requires { IsSearch search.now }
    ensures { IfOk result (λ rows. AreRows (sought_of search.now _rule.now.number) _start.now rows.items) }
{
    let mut rows = Vec::new(alloc);
    for virt in 0..search.candidates.len() {
        let row = Notes::of(alloc, search.candidates.count(virt))?;
        rows.push(row)?;
    }
    Ok(rows)
}

/// No exchange is known.
fn fresh_pairs(
    alloc: Global,
    search: &Search,
    _rule: &StepRule,
    _start: &Mapping,
) -> Result<Vec<Notes>, Memory>
    requires { IsSearch search.now }
    ensures { IfOk result (λ pairs. ArePairs (sought_of search.now _rule.now.number) _start.now pairs.items) }
{
    let count = search.candidates.len();
    let mut pairs = Vec::new(alloc);
    for _virt in 0..count {
        let fresh = Notes::of(alloc, count)?;
        pairs.push(fresh)?;
    }
    Ok(pairs)
}

impl Known {
    /// Nothing is known.
    pub(crate) fn of(
        alloc: Global,
        search: &Search,
        rule: &StepRule,
        start: &Mapping,
    ) -> Result<Known, Memory>
        requires { IsSearch search.now }
        ensures { IfOk result (λ known. IsKnown (sought_of search.now rule.now.number) start.now known) }
    {
        let rows = fresh_rows(alloc, search, rule, start)?;
        let pairs = fresh_pairs(alloc, search, rule, start)?;
        Ok(Known { rows, pairs })
    }

    /// Forgets what a step from one map to another may have changed.
    pub(crate) fn follow(
        &mut self,
        alloc: Global,
        search: &Search,
        rule: &StepRule,
        last: &Mapping,
        next: &Mapping,
    ) -> Result<(), Memory>
        requires search { IsSearch search.now }
        requires last { IsNodeMap (sought_of search.now rule.now.number) last.now }
        requires next { IsNodeMap (sought_of search.now rule.now.number) next.now }
        requires known { IsKnown (sought_of search.now rule.now.number) last.now self.old }
        ensures { OnOk result (IsKnown (sought_of search.now rule.now.number) next.now self.new) }
    {
        let touched = Touched::of(alloc, search, rule, last, next)?;
        follow_rows(&mut self.rows, search, rule, last, next, &touched);
        follow_pairs(&mut self.pairs, search, rule, last, next, &touched);
        Ok(())
    }
}
