// The records that commands append.
ghost use Rattle.std.specs.Prelude.{◌≡◌, ◌≤◌, length};
ghost use Rattle.journal_rec.specs.Payloads.{IsRecord};
ghost use Rattle.journal_rec.specs.declared.record.Record.TheVariants as records;
ghost use Rattle.journal_rec.specs.declared.record.Way.TheVariants as ways;
ghost use Rattle.records_model.specs.Labs.{create_in};

use journal_rec::{Record, Way};
use lab_base::{MAX_PAYLOAD_TEXT, Name, Text};

pub(crate) fn lab_record(ptop: Text) -> Record
    requires { length ptop ≤ MAX_PAYLOAD_TEXT }
    ensures entry { result ≡ records.Lab ptop }
    ensures is { IsRecord result }
{
    Record::Lab { ptop }
}

/// The record of a new experiment, of the second format or of the first.
pub(crate) fn create_record(exp: Name, top: Text, second: bool) -> Record
    requires { length top ≤ MAX_PAYLOAD_TEXT }
    ensures entry { result ≡ create_in second exp top }
    ensures is { IsRecord result }
{
    let _named = exp.bytes();
    if second {
        Record::Create2 { exp, top }
    } else {
        Record::Create { exp, top }
    }
}

pub(crate) fn delete_record(exp: Name) -> Record
    ensures entry { result ≡ records.Delete exp }
    ensures is { IsRecord result }
{
    let _named = exp.bytes();
    Record::Delete { exp }
}

/// The way of a swap-out.
pub(crate) fn way_out(exp: Name) -> Way
    ensures way { result ≡ ways.Out }
    ensures is { IsRecord (records.Begin exp result) }
{
    let _named = exp.bytes();
    Way::Out
}
