// The ways of swaps to a mapping, as their records have them.
ghost use Rattle.std.specs.Prelude.{◌≡◌, ◌≤◌, ◌<◌, ◌^◌, length};
ghost use Rattle.lab_base.specs.Lists.{Has};
ghost use Rattle.lab_base.specs.declared.ids.VlanId.{VlanId};
ghost use Rattle.journal_rec.specs.Payloads.{IsRecord};
ghost use Rattle.journal_rec.specs.declared.record.Record.TheVariants as records;
ghost use Rattle.journal_rec.specs.declared.record.Way.TheVariants as ways;
ghost use Rattle.records_model.specs.Labs.{change_in};

use journal_rec::Way;
use lab_base::{MAX_PAYLOAD_TEXT, Name, Tags, Text};

/// The way of a swap-in.
pub(crate) fn way_in(exp: Name, map: Text, tags: Tags) -> Way
    requires short { length map ≤ MAX_PAYLOAD_TEXT }
    requires few { length tags ≤ u16.MAX }
    requires ids { (tag : VlanId) → Has tags tag → tag.0 < 2 ^ 16 }
    ensures way { result ≡ ways.In map tags }
    ensures is { IsRecord (records.Begin exp result) }
{
    let _named = exp.bytes();
    Way::In { map, tags }
}

/// The way of a change, of the second format or of the first.
pub(crate) fn way_over(exp: Name, top: Text, map: Text, tags: Tags, second: bool) -> Way
    // the texts and the VLAN ids fit a record
    requires top { length top ≤ MAX_PAYLOAD_TEXT }
    requires map { length map ≤ MAX_PAYLOAD_TEXT }
    requires few { length tags ≤ u16.MAX }
    requires ids { (tag : VlanId) → Has tags tag → tag.0 < 2 ^ 16 }
    // the record is of that format
    ensures way { result ≡ change_in second top map tags }
    ensures is { IsRecord (records.Begin exp result) }
{
    let _named = exp.bytes();
    if second {
        Way::Change2 { top, map, tags }
    } else {
        Way::Change { top, map, tags }
    }
}
