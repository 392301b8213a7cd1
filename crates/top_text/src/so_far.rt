// The wiring of the lines read so far, and the tests with one more line.
ghost use Rattle.std.specs.Prelude.{◌≡◌, ◌≤◌, ◌<◌, ◌++◌, ◌∷◌, ◌||◌, ◌&&◌, ◌+◌, ◌==◌, []};
ghost use Rattle.std.specs.Prelude.{true, not, List, ℕ, Ok, IfSome, map, length, nat_lt, nat_le, slice_index_or};
ghost use Rattle.std.specs.List.{list_all, list_any};
ghost use Rattle.lab_base.specs.Names.{same_name};
ghost use Rattle.line_text.specs.Refusals.{Takes};
ghost use Rattle.virt_topo.specs.Repeats.{stands_again};
ghost use Rattle.virt_topo.specs.Ends.{end_nodes};
ghost use Rattle.virt_topo.specs.Soundness.{same_address, all_ends, limits_class, limits_node, limits_segment};
ghost use Rattle.virt_topo.specs.Topos.{asks_type};
ghost use Rattle.top_text.specs.Adding.{kept, start, with_class, asks_of, virt_named, virt_number, segment_at, segment_named, with_segment, with_pipe};
ghost use Rattle.top_text.specs.Tables.{IsReading, is_apart, same_end};

use crate::judge::Tests;
use crate::tables::{NONE, Tables};
use lab_base::{Items, Name};
use line_text::LineFault;
use std::alloc::Global;
use virt_topo::{
    Asks, Class, MAX_CLASSES, MAX_ENDS, MAX_SEGMENT_ENDS, MAX_SEGMENTS, MAX_TOPOLOGY_NODES, Pipe,
    Segment, VirtEnd, VirtNode, Wiring, limits_class, limits_node, limits_pipe, limits_segment,
    repeat_desire, repeat_node_of, repeat_type,
};

/// The wiring so far, with the tables of its names, addresses and ends.
#[derive(Drop)]
pub(crate) struct SoFar {
    pub(crate) wiring: Wiring,
    pub(crate) tables: Tables,
}

/// The owner of the segment of that number; no bytes where there is none.
fn owner_of(wiring: &Wiring, segment: u16) -> &[u8]
    ensures { result.now ≡ (segment_at wiring.now segment).owner }
{
    match wiring.segments.as_slice().get(segment as usize) {
        Some(segment) => segment.owner.bytes(),
        None => &[],
    }
}

/// Whether the segment of that number is multiplexed; false where there is none.
pub(crate) fn is_multiplexed(wiring: &Wiring, segment: usize) -> bool
    ensures { result ≡ (segment_at wiring.now segment).multiplexed }
{
    match wiring.segments.as_slice().get(segment) {
        Some(segment) => segment.multiplexed,
        None => false,
    }
}

fn asks_type(asks: &Asks, name: Name) -> bool
    ensures { result ≡ asks_type name asks.now }
{
    match asks {
        Asks::Plain(kind) => name == *kind,
        Asks::Class(_) => false,
    }
}

/// Whether a virtual node asks for a type of that name.
fn ask_type(nodes: &[VirtNode], name: Name) -> bool
    ensures { result ≡ list_any (λ v. asks_type name v.asks) nodes.now }
{
    nodes.iter().any(|node| asks_type(&node.asks, name))
}

/// Whether each end is on one of the first `count` virtual nodes.
fn knows_ends(count: usize, ends: &[VirtEnd]) -> bool
    ensures { result ≡ list_all (λ e. nat_lt e.node count) ends.now }
{
    ends.iter().all(|end| (end.node as usize) < count)
}

impl SoFar {
    pub(crate) fn new(alloc: Global) -> Self
        ensures wiring { result.wiring ≡ start }
        ensures reading { IsReading result }
    {
        SoFar {
            wiring: Wiring {
                classes: Items::new(alloc),
                nodes: Items::new(alloc),
                segments: Items::new(alloc),
                pipes: Items::new(alloc),
            },
            tables: Tables::new(alloc),
        }
    }

    pub(crate) fn into_wiring(self) -> Wiring
        ensures { result ≡ self.wiring }
    {
        let SoFar { wiring, tables } = self;
        drop(tables);
        wiring
    }

    pub(crate) fn asks_of(&self, name: Name) -> Asks
        requires { IsReading self.now }
        ensures { result ≡ asks_of self.now.wiring name }
    {
        match self.tables.class_named(name) {
            Some(class) => Asks::Class(class as u16),
            None => Asks::Plain(name),
        }
    }

    pub(crate) fn virt_named(&self, name: Name) -> Option<usize>
        requires { IsReading self.now }
        ensures { result ≡ virt_named self.now.wiring name }
    {
        self.tables.node_named(name)
    }

    pub(crate) fn segment_named(&self, name: Name) -> Option<usize>
        requires { IsReading self.now }
        ensures place { result ≡ segment_named self.now.wiring name }
        ensures within { IfSome result (λ s. s < length self.now.wiring.segments) }
    {
        self.tables.segment_named(name)
    }

    pub(crate) fn virt_number(&self, name: Name) -> u16
        requires { IsReading self.now }
        ensures { result ≡ virt_number self.now.wiring name }
    {
        match self.virt_named(name) {
            Some(virt) => virt as u16,
            None => NONE,
        }
    }

    fn class_repeats(&self, class: &Class) -> bool
        ensures { result ≡ (list_any (same_name class.now.name) self.now.tables.classes.keys
            || (stands_again same_name class.now.types || list_any (λ v. asks_type class.now.name v.asks) self.now.wiring.nodes)) }
    {
        self.tables.classes.contains(&class.name)
            || repeat_type(class.types.as_slice())
            || ask_type(self.wiring.nodes.as_slice(), class.name)
    }

    fn class_fits(&self, class: &Class) -> bool
        ensures { result ≡ (nat_lt (length self.now.wiring.classes) MAX_CLASSES && limits_class class.now) }
    {
        self.wiring.classes.len() < MAX_CLASSES && limits_class(class)
    }

    pub(crate) fn check_class(&self, class: &Class) -> Result<(), LineFault>
        requires { IsReading self.now }
        ensures { Takes result (with_class self.now.wiring class.now) (kept (with_class self.now.wiring class.now)) }
    {
        let tests = Tests {
            twice: self.class_repeats(class),
            known: true,
            same: false,
            bad_pipe: false,
            within: self.class_fits(class),
        };
        tests.judge()
    }

    fn node_repeats(&self, node: &VirtNode) -> bool
        ensures { result ≡ (list_any (same_name node.now.name) self.now.tables.nodes.keys || stands_again (λ a b. same_name a.0 b.0) node.now.desires) }
    {
        self.tables.nodes.contains(&node.name) || repeat_desire(node.desires.as_slice())
    }

    fn node_fits(&self, node: &VirtNode) -> bool
        ensures { result ≡ (nat_lt (length self.now.wiring.nodes) MAX_TOPOLOGY_NODES && limits_node node.now) }
    {
        self.wiring.nodes.len() < MAX_TOPOLOGY_NODES && limits_node(node)
    }

    /// Tests the wiring with one more virtual node, which asks for the type or class of some name.
    pub(crate) fn check_node(&self, node: &VirtNode) -> Result<(), LineFault>
        requires reading { IsReading self.now }
        requires asks { (name : List ℕ) × (node.now.asks ≡ asks_of self.now.wiring name) }
        ensures { let w = record self.now.wiring { nodes = self.now.wiring.nodes ++ node.now ∷ [] } in Takes result w (kept w) }
    {
        let tests = Tests {
            twice: self.node_repeats(node),
            known: true,
            same: false,
            bad_pipe: false,
            within: self.node_fits(node),
        };
        tests.judge()
    }

    fn segment_fits(&self, segment: &Segment) -> bool
        requires ends { self.now.tables.ends ≤ MAX_ENDS }
        requires few { length segment.now.ends ≤ MAX_SEGMENT_ENDS }
        ensures { result ≡ (nat_lt (length self.now.wiring.segments) MAX_SEGMENTS
            && (nat_le (self.now.tables.ends + length segment.now.ends) MAX_ENDS && limits_segment segment.now)) }
    {
        self.wiring.segments.len() < MAX_SEGMENTS
            && self.tables.ends + segment.ends.len() <= MAX_ENDS
            && limits_segment(segment)
    }

    fn segment_repeats(&self, segment: &Segment, again: bool) -> bool
        ensures { result ≡ (list_any (same_name segment.now.name) self.now.tables.segments.keys || again) }
    {
        self.tables.segments.contains(&segment.name) || again
    }

    /// Tests the wiring with one more segment. `again` tells whether an address of it was there, or is in it twice.
    pub(crate) fn check_segment(&self, segment: &Segment, again: bool) -> Result<(), LineFault>
        requires kept { kept self.now.wiring ≡ Ok self.now.wiring }
        requires names { self.now.tables.segments.keys ≡ map (λ s. s.name) self.now.wiring.segments }
        requires ends { self.now.tables.ends ≡ length (end_nodes self.now.wiring.segments) }
        requires again { again ≡ stands_again same_address (all_ends self.now.wiring.segments ++ segment.now.ends) }
        requires few { length segment.now.ends ≤ MAX_SEGMENT_ENDS }
        ensures { Takes result (with_segment self.now.wiring segment.now) (kept (with_segment self.now.wiring segment.now)) }
    {
        let tests = Tests {
            twice: self.segment_repeats(segment, again),
            known: knows_ends(self.wiring.nodes.len(), segment.ends.as_slice()),
            same: repeat_node_of(segment.ends.as_slice()),
            bad_pipe: false,
            within: self.segment_fits(segment),
        };
        tests.judge()
    }

    fn knows_pipe(&self, pipe: &Pipe) -> bool
        ensures { let on = slice_index_or self.now.tables.on_node.items pipe.now.node [] in let node = nat_lt pipe.now.node
            (length self.now.tables.on_node.items) in
            result ≡ ((node && nat_lt pipe.now.from (length on)) && (node && nat_lt pipe.now.to (length on))) }
    {
        self.tables.has_end(pipe.node, pipe.from) && self.tables.has_end(pipe.node, pipe.to)
    }

    /// Whether a pipe may not join ends of these two segments: they have two owners, or one of them is multiplexed.
    fn parts_segments(&self, from: u16, to: u16) -> bool
        ensures { let w = self.now.wiring in result
            ≡ (not (same_name (segment_at w from).owner (segment_at w to).owner) || ((segment_at w from).multiplexed || (segment_at w to).multiplexed)) }
    {
        owner_of(&self.wiring, from) != owner_of(&self.wiring, to)
            || is_multiplexed(&self.wiring, from as usize)
            || is_multiplexed(&self.wiring, to as usize)
    }

    fn joins_apart(&self, pipe: &Pipe) -> bool
        ensures { result ≡ is_apart self.now.wiring (slice_index_or self.now.tables.on_node.items pipe.now.node []) pipe.now }
    {
        let from = self.tables.segment(pipe.node, pipe.from);
        let to = self.tables.segment(pipe.node, pipe.to);
        pipe.from == pipe.to || self.parts_segments(from, to)
    }

    fn is_bad_pipe(&self, pipe: &Pipe) -> bool
        ensures { let piped = self.now.tables.piped.keys in
            result ≡ (is_apart self.now.wiring (slice_index_or self.now.tables.on_node.items pipe.now.node []) pipe.now
            || (list_any (same_end (pipe.now.node, pipe.now.from)) piped || list_any (same_end (pipe.now.node, pipe.now.to)) piped)) }
    {
        self.joins_apart(pipe) || self.tables.is_piped(pipe)
    }

    pub(crate) fn check_pipe(&self, pipe: &Pipe) -> Result<(), LineFault>
        requires { IsReading self.now }
        ensures { Takes result (with_pipe self.now.wiring pipe.now) (kept (with_pipe self.now.wiring pipe.now)) }
    {
        let tests = Tests {
            twice: false,
            known: self.knows_pipe(pipe),
            same: false,
            bad_pipe: self.is_bad_pipe(pipe),
            within: limits_pipe(pipe),
        };
        tests.judge()
    }
}
