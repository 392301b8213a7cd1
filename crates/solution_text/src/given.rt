// The places and plugs that the lines of a solution text give.
ghost use Rattle.std.specs.Prelude.{◌≡◌, ◌<◌, ◌^◌, is_some, slice_index_or, replicate, length, None, IfSome, IfOk};
ghost use Rattle.line_text.specs.Refusals.{Takes};
ghost use Rattle.lab_model.specs.Shapes.{has_name};
ghost use Rattle.solution_text.specs.Solutions.{all_given, is_given, place_given, plug_given, typed, placed_on, plugged_in, with_place, with_plug};

use lab_base::{IfaceId, Items, Kind, Memory, Name, NodeId};
use line_text::LineFault;
use phys_lab::Lab;
use std::alloc::Global;
use std::mem::replace;

/// By virtual node its place, and by end its plug, where a line gave it.
#[derive(Drop)]
pub(crate) struct Given {
    pub(crate) places: Items<Option<(NodeId, Name)>>,
    pub(crate) plugs: Items<Option<IfaceId>>,
}

/// A list of so many entries, none of which a line gave yet.
pub(crate) fn none_given<T: Drop>(alloc: Global, count: usize) -> Result<Items<Option<T>>, Memory>
    ensures { IfOk result (λ entries. entries ≡ replicate count None) }
{
    let mut entries = Items::new(alloc);
    for _entry in 0..count {
        entries.push(None)?;
    }
    Ok(entries)
}

/// The entries, where each one is given; else None.
pub(crate) fn all_given<T: Copy + Drop>(
    alloc: Global,
    entries: &[Option<T>],
) -> Result<Option<Items<T>>, Memory>
    ensures { IfOk result (λ given. given ≡ all_given entries.now) }
{
    let mut given = Items::new(alloc);
    for entry in entries {
        match entry {
            Some(entry) => given.push(*entry)?,
            None => return Ok(None),
        }
    }
    Ok(Some(given))
}

fn has_entry<T>(entries: &[Option<T>], number: Option<usize>) -> bool
    ensures { result ≡ is_given entries.now number }
{
    match number {
        Some(number) => is_entry(entries, number),
        None => false,
    }
}

fn is_entry<T>(entries: &[Option<T>], number: usize) -> bool
    ensures { result ≡ is_some (slice_index_or entries.now number None) }
{
    match entries.get(number) {
        Some(entry) => entry.is_some(),
        None => false,
    }
}

fn has_type(types: &[(Name, u16)], name: Name) -> bool
    ensures { result ≡ has_name types.now name }
{
    types.iter().any(|kind| kind.0 == name)
}

impl Given {
    fn set_place(&mut self, alloc: Global, virt: usize, place: (NodeId, Name))
        ensures { self.new ≡ place_given self.old virt place }
    {
        let mut places = replace(&mut self.places, Items::new(alloc)).into_vec();
        if virt < places.len() {
            places[virt] = Some(place);
        }
        self.places = Items::from_vec(places);
    }

    fn set_plug(&mut self, alloc: Global, end: usize, plug: IfaceId)
        ensures { self.new ≡ plug_given self.old end plug }
    {
        let mut plugs = replace(&mut self.plugs, Items::new(alloc)).into_vec();
        if end < plugs.len() {
            plugs[end] = Some(plug);
        }
        self.plugs = Items::from_vec(plugs);
    }

    fn place_typed(
        &mut self,
        alloc: Global,
        lab: &Lab,
        virt: usize,
        node: NodeId,
        kind: Name,
    ) -> Result<(), LineFault>
        requires { node.0 < length lab.now.nodes }
        ensures { Takes result self.new (typed lab.now self.old virt node kind) }
    {
        if !has_type(lab.nodes()[node.0 as usize].types.as_slice(), kind) {
            return Err(LineFault::Kind(Kind::Unknown));
        }
        self.set_place(alloc, virt, (node, kind));
        Ok(())
    }

    fn place_on(
        &mut self,
        alloc: Global,
        lab: &Lab,
        virt: Option<usize>,
        node: Option<usize>,
        kind: Name,
    ) -> Result<(), LineFault>
        requires { IfSome node (λ n. n < length lab.now.nodes) }
        ensures { Takes result self.new (placed_on lab.now self.old virt node kind) }
    {
        // for the prover: it tells what every lab keeps
        let _kept = lab.range();
        match (virt, node) {
            (Some(virt), Some(node)) => self.place_typed(
                alloc,
                lab,
                virt,
                NodeId(node as u16),
                kind,
            ),
            (Some(_), None) => Err(LineFault::Kind(Kind::Unknown)),
            (None, _) => Err(LineFault::Kind(Kind::Unknown)),
        }
    }

    /// Adds the place of a virtual node, which is on a node of the lab; `twice` where it has one.
    pub(crate) fn add_place(
        &mut self,
        alloc: Global,
        lab: &Lab,
        virt: Option<usize>,
        node: Option<usize>,
        kind: Name,
    ) -> Result<(), LineFault>
        requires { IfSome node (λ n. n < length lab.now.nodes) }
        ensures { Takes result self.new (with_place lab.now self.old virt node kind) }
    {
        if has_entry(self.places.as_slice(), virt) {
            return Err(LineFault::Kind(Kind::Twice));
        }
        self.place_on(alloc, lab, virt, node, kind)
    }

    fn plug_in(
        &mut self,
        alloc: Global,
        end: Option<usize>,
        iface: Option<usize>,
    ) -> Result<(), LineFault>
        requires { IfSome iface (λ i. i < 2 ^ 16) }
        ensures { Takes result self.new (plugged_in self.old end iface) }
    {
        match (end, iface) {
            (Some(end), Some(iface)) => {
                self.set_plug(alloc, end, IfaceId(iface as u16));
                Ok(())
            }
            (Some(_), None) => Err(LineFault::Kind(Kind::Unknown)),
            (None, _) => Err(LineFault::Kind(Kind::Unknown)),
        }
    }

    /// Adds the plug of an end; `twice` where it has one.
    pub(crate) fn add_plug(
        &mut self,
        alloc: Global,
        end: Option<usize>,
        iface: Option<usize>,
    ) -> Result<(), LineFault>
        requires { IfSome iface (λ i. i < 2 ^ 16) }
        ensures { Takes result self.new (with_plug self.old end iface) }
    {
        if has_entry(self.plugs.as_slice(), end) {
            return Err(LineFault::Kind(Kind::Twice));
        }
        self.plug_in(alloc, end, iface)
    }
}
