// Whether what two sides hold shows damage.
ghost use Rattle.std.specs.Prelude.{◌≡◌};
ghost use Rattle.lab_look.specs.Reports.{is_headed, has_some, has_more, is_lost, has_lost, is_side_damaged, is_standing_damaged, are_apart, is_damaged};

use crate::beside::{Beside, is_next};
use crate::report::{Report, SideReport, Standing};
use crate::tables::TablesSeen;
use journal_disk::Head;
use journal_rec::Found;
use lab_base::Items;

pub(crate) fn is_headed(head: Head) -> bool
    ensures { result ≡ is_headed head }
{
    match head {
        Head::Headed(_) => true,
        _ => false,
    }
}

fn has_some(found: &Option<Items<Found>>) -> bool
    ensures { result ≡ has_some found.now }
{
    match found {
        Some(found) => found.len() > 0,
        None => false,
    }
}

pub(crate) fn has_more(found: &Items<Found>) -> bool
    ensures { result ≡ has_more found.now }
{
    found.len() > 1
}

fn is_lost(beside: Beside) -> bool
    ensures { result ≡ is_lost beside }
{
    match beside {
        Beside::Lost => true,
        _ => false,
    }
}

pub(crate) fn has_lost(standing: &Standing) -> bool
    ensures { result ≡ has_lost standing.now }
{
    match standing {
        Standing::On(_, _, _, beside) => is_lost(*beside),
        _ => false,
    }
}

fn is_side_damaged(own: &SideReport, other: &SideReport) -> bool
    ensures { result ≡ is_side_damaged own.now other.now }
{
    own.cut || (has_some(&own.shut) && !is_headed(other.head))
}

fn is_standing_damaged(standing: &Standing, rows: bool) -> bool
    ensures { result ≡ is_standing_damaged rows standing.now }
{
    match standing {
        Standing::New => rows,
        Standing::On(_, _, found, beside) => has_more(found) || is_lost(*beside),
        Standing::Bad(_, _, _) | Standing::Wrong(_, _, _) => true,
    }
}

pub(crate) fn are_apart(first: Head, second: Head) -> bool
    ensures { result ≡ are_apart first second }
{
    is_headed(first) && is_headed(second) && !(is_next(first, second) || is_next(second, first))
}

/// Whether what both sides hold shows damage, or the tables have a line of another form.
pub fn is_damaged(report: &Report, tables: TablesSeen) -> bool
    ensures { result ≡ is_damaged tables report.now }
{
    is_side_damaged(&report.a, &report.b)
        || is_side_damaged(&report.b, &report.a)
        || are_apart(report.a.head, report.b.head)
        || is_standing_damaged(&report.standing, tables.rows)
        || tables.fault.is_some()
}
