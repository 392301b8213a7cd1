// The experiments of a lab over another lab.
ghost use Rattle.std.specs.Prelude.{◌≡◌, ◌++◌, ◌∷◌, [], Some, IfOk};
ghost use Rattle.journal_rec.specs.Packing.{ArePacked};
ghost use Rattle.journal_rec.specs.declared.record.Record.{Record as AnyRecord};
ghost use Rattle.lab_state.specs.Texts.{the_texts};
ghost use Rattle.lab_grow.specs.Carried.{AreAtRest};
ghost use Rattle.lab_grow.specs.Sides.{first_header, IsSideOver, IsGrowth};

use journal_rec::{Found, Packed, Record, encode};
use lab_base::{Items, Memory, Text};
use lab_look::{Looked, look};
use lab_state::LabState;
use phys_lab::Lab;
use ptop_text::print_ptop;
use std::alloc::Global;

/// A lab over another one.
#[derive(Drop)]
pub enum Grown {
    /// The bytes of side A of its journal, and the lab that they stand for.
    Lab(Text, LabState),
    /// Their records can't follow each other.
    Refused(Items<Found>),
}

/// The record of a lab alone.
fn packed_lab(alloc: Global, lab: &Lab) -> Result<Packed, Memory>
    ensures { IfOk result (λ packed. ArePacked packed (AnyRecord.Lab (the_texts.ptop lab.now) ∷ [])) }
{
    let ptop = print_ptop(alloc, lab)?;
    let encoded = encode(alloc, &Record::Lab { ptop })?;
    let mut packed = Packed::new(alloc)?;
    packed.add(&encoded)?;
    Ok(packed)
}

/// A side of epoch 1 with these records.
fn side_of(alloc: Global, first: &[u8], others: &[u8]) -> Result<Text, Memory>
    ensures { IfOk result (λ text. text ≡ first_header ++ (first.now ++ others.now)) }
{
    let mut text = Text::from_slice(alloc, b"\xa5LABJRNL1\x01\0\0\0\0\0\0\0")?;
    text.push_bytes(first)?;
    text.push_bytes(others)?;
    Ok(text)
}

/// A side with the packed records of a lab, and the new lab's record in the place of the old one's.
fn side_over(alloc: Global, state: &LabState, old: &Lab, new: &Lab) -> Result<Text, Memory>
    requires lab { state.now.state.lab ≡ Some old.now }
    ensures { IfOk result (IsSideOver old.now new.now state.now.state.experiments) }
{
    let first = packed_lab(alloc, new)?;
    let own = packed_lab(alloc, old)?;
    let packed = state.pack()?;
    let open = first.bytes().len() - 1;
    let others = own.bytes().len() - 1;
    side_of(alloc, &first.bytes()[..open], &packed.bytes()[others..])
}

/// The experiments of a lab over another one, as the side of a journal.
pub fn grow(alloc: Global, state: &LabState, old: &Lab, new: &Lab) -> Result<Grown, Memory>
    requires lab { state.now.state.lab ≡ Some old.now }
    requires rest { AreAtRest state.now.state.experiments }
    ensures { IfOk result (IsGrowth old.now new.now state.now.state) }
{
    // for the prover: they tell what every lab keeps
    let _kept = state.lab();
    let _range = new.range();
    let side = side_over(alloc, state, old, new)?;
    match look(alloc, side.bytes(), &[]) {
        Ok(Looked::Found(_, _, grown)) => Ok(Grown::Lab(side, grown)),
        Ok(Looked::Wrong(_, _, walked)) => Ok(Grown::Refused(walked.found)),
        Ok(Looked::New) => unreachable!(),
        Ok(Looked::Bad(_, _, _)) => unreachable!(),
        Err(Memory) => Err(Memory),
    }
}
