// The sides of a journal, record by record.
ghost use Rattle.std.specs.Prelude.{◌≡◌, IfOk};
ghost use Rattle.records_model.specs.Labs.{LabState as AnyState};
ghost use Rattle.lab_look.specs.Looks.{HasLab};
ghost use Rattle.lab_look.specs.Reports.{is_shut, IsShut, IsSideReport, IsStanding, IsReport};

use crate::beside::{Beside, stands_beside};
use crate::looked::{Looked, look};
use journal_disk::{FIRST, Head, head_of};
use journal_rec::Found;
use lab_base::{Items, Memory};
use lab_sides::{Walked, behind, bytes_of, is_cut, shut_head};
use plant::Side;
use std::alloc::Global;

/// A side, record by record.
#[derive(Drop)]
pub struct SideReport {
    /// How many bytes it has.
    pub bytes: u64,
    pub head: Head,
    /// Whether it ends within its header, whose gate is open.
    pub cut: bool,
    /// The whole records behind a closed header gate, where a header stands behind that gate.
    pub shut: Option<Items<Found>>,
}

/// Where the journal stands.
#[derive(Drop)]
pub enum Standing {
    /// On no side yet.
    New,
    /// On that side, with its records up to a closed gate, the whole records behind that gate, and what stands on the other side.
    On(Side, Walked, Items<Found>, Beside),
    /// It is none, since a side has a fault at a gate, or at 0 in its header; with the records before it.
    Bad(Side, u64, Items<Found>),
    /// It is none, since the record at that gate can't follow.
    Wrong(Side, u64, Walked),
}

/// Both sides, record by record.
#[derive(Drop)]
pub struct Report {
    pub a: SideReport,
    pub b: SideReport,
    pub standing: Standing,
}

/// Whether a header stands behind a closed header gate.
fn is_shut(bytes: &[u8]) -> bool
    ensures { result ≡ is_shut bytes.now }
{
    match shut_head(bytes) {
        Head::Headed(_) => match head_of(bytes) {
            Head::Blank => true,
            _ => false,
        },
        _ => false,
    }
}

fn shut_of(alloc: Global, bytes: &[u8]) -> Result<Option<Items<Found>>, Memory>
    ensures { IfOk result (IsShut bytes.now) }
{
    if is_shut(bytes) && bytes.len() > FIRST {
        let found = behind(alloc, bytes, FIRST)?;
        Ok(Some(found))
    } else {
        Ok(None)
    }
}

fn side_report(alloc: Global, bytes: &[u8]) -> Result<SideReport, Memory>
    ensures { IfOk result (IsSideReport bytes.now) }
{
    let shut = shut_of(alloc, bytes)?;
    Ok(SideReport {
        bytes: bytes.len() as u64,
        head: head_of(bytes),
        cut: is_cut(bytes),
        shut,
    })
}

/// A journal on that side, with what stands behind its closed gate and beside it.
fn standing_on(
    alloc: Global,
    a: &[u8],
    b: &[u8],
    side: Side,
    walked: Walked,
) -> Result<Standing, Memory>
    requires { (s : AnyState) × HasLab a.now b.now side walked s }
    ensures { IfOk result (IsStanding a.now b.now) }
{
    let bytes = bytes_of(side, a, b);
    let other = bytes_of(side, b, a);
    let beside = stands_beside(alloc, bytes, other, walked.found.as_slice())?;
    let later = behind(alloc, bytes, walked.gate as usize)?;
    Ok(Standing::On(side, walked, later, beside))
}

fn standing_of(alloc: Global, a: &[u8], b: &[u8]) -> Result<Standing, Memory>
    ensures { IfOk result (IsStanding a.now b.now) }
{
    match look(alloc, a, b) {
        Ok(Looked::New) => Ok(Standing::New),
        Ok(Looked::Bad(side, at, before)) => Ok(Standing::Bad(side, at, before)),
        Ok(Looked::Wrong(side, at, walked)) => Ok(Standing::Wrong(side, at, walked)),
        Ok(Looked::Found(side, walked, state)) => {
            drop(state);
            standing_on(alloc, a, b, side, walked)
        }
        Err(Memory) => Err(Memory),
    }
}

/// Both sides, record by record.
pub fn report_of(alloc: Global, a: &[u8], b: &[u8]) -> Result<Report, Memory>
    ensures { IfOk result (IsReport a.now b.now) }
{
    let first = side_report(alloc, a)?;
    let second = side_report(alloc, b)?;
    let standing = standing_of(alloc, a, b)?;
    Ok(Report {
        a: first,
        b: second,
        standing,
    })
}
