// Tables of a lab and a wiring, made before their maps are searched.
ghost use Rattle.std.specs.Prelude.{◌≡◌, IfOk};
ghost use Rattle.virt_topo.specs.Soundness.{IsSound};
ghost use Rattle.lab_model.specs.Shapes.{IsFreeOf};
ghost use Rattle.map_state.specs.Tables.{IsSearch};
ghost use Rattle.map_anneal.specs.Searches.{IsPrepared};

use lab_base::Memory;
use map_state::{Search, Table};
use node_maps::{Candidates, End, Mapper, NodeIfaces, Rooms, candidates, ends_of};
use phys_lab::{Free, Lab};
use std::alloc::Global;
use virt_topo::Wiring;

/// The tables of a wiring on the free rest of a lab, which searches use.
#[derive(Drop)]
pub struct Prepared {
    pub(crate) candidates: Candidates,
    /// The rooms of the candidates.
    pub(crate) rooms: Rooms,
    /// The ends of the wiring, in order.
    pub(crate) ends: Vec<End>,
    pub(crate) ifaces: NodeIfaces,
    pub(crate) table: Table,
}

impl Prepared {
    /// The tables of a wiring on the free rest of a lab.
    pub fn of(alloc: Global, lab: &Lab, free: &Free, wiring: &Wiring) -> Result<Prepared, Memory>
        requires free { IsFreeOf lab.now free.now }
        requires sound { IsSound wiring.now }
        ensures { IfOk result (IsPrepared lab.now free.now wiring.now) }
    {
        let candidates = candidates(alloc, lab, free, wiring)?;
        let rooms = candidates.rooms(alloc, lab)?;
        let ends = ends_of(alloc, wiring.segments.as_slice())?;
        let ifaces = NodeIfaces::of_lab(alloc, lab)?;
        let table = Table::of(alloc, lab, wiring, &ends)?;
        Ok(Prepared {
            candidates,
            rooms,
            ends,
            ifaces,
            table,
        })
    }

    /// The search of a wiring on the free rest of a lab.
    pub fn search<'a>(&'a self, lab: &'a Lab, free: &'a Free, wiring: &'a Wiring) -> Search<'a>
        requires free { IsFreeOf lab.now free.now }
        requires sound { IsSound wiring.now }
        requires prepared { IsPrepared lab.now free.now wiring.now self.now }
        ensures search { IsSearch result }
        ensures lab { result.mapper.lab.now ≡ lab.now }
        ensures left { result.mapper.free.now ≡ free.now }
        ensures wiring { result.mapper.wiring.now ≡ wiring.now }
    {
        let mapper = Mapper {
            lab,
            free,
            wiring,
            ends: &self.ends,
            ifaces: &self.ifaces,
        };
        Search {
            mapper,
            table: &self.table,
            candidates: &self.candidates,
            rooms: &self.rooms,
        }
    }
}
