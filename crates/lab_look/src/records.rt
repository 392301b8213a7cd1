// Records, a line each.
ghost use Rattle.std.specs.Prelude.{◌≡◌, ◌++◌, codes, OnOk};
ghost use Rattle.lab_look.specs.Records.{way_word, kind_words, record_line, record_lines, earlier_words, earlier_line, listed};

use journal_rec::{Found, Record, Way};
use lab_base::{Memory, Name, Text};

/// How many records are listed at most, where not all are wanted.
pub const LISTED: usize = 20;

fn way_word(way: &Way) -> &'static [u8]
    ensures { result.now ≡ way_word way.now }
{
    match way {
        Way::In { .. } => b" in",
        Way::Out => b" out",
        Way::Change { .. } | Way::Change2 { .. } => b" change",
    }
}

fn push_named(text: &mut Text, words: &[u8], name: &Name) -> Result<(), Memory>
    ensures { OnOk result (text.new ≡ text.old ++ words.now ++ name.now) }
{
    text.push_bytes(words)?;
    text.push_bytes(name.bytes())
}

fn push_begin(text: &mut Text, exp: &Name, way: &Way) -> Result<(), Memory>
    ensures { OnOk result (text.new ≡ text.old ++ codes " begin " ++ exp.now ++ way_word way.now) }
{
    push_named(text, b" begin ", exp)?;
    text.push_bytes(way_word(way))
}

fn push_kind(text: &mut Text, entry: &Record) -> Result<(), Memory>
    ensures { OnOk result (text.new ≡ text.old ++ kind_words entry.now) }
{
    match entry {
        Record::Lab { .. } => text.push_bytes(b" lab"),
        Record::Create { exp, .. } | Record::Create2 { exp, .. } => {
            push_named(text, b" create ", exp)
        }
        Record::Delete { exp } => push_named(text, b" delete ", exp),
        Record::Begin { exp, way } => push_begin(text, exp, way),
        Record::Commit { exp } => push_named(text, b" commit ", exp),
        Record::Abort { exp } => push_named(text, b" abort ", exp),
    }
}

/// `  1749 begin E in`.
fn push_record(text: &mut Text, found: &Found) -> Result<(), Memory>
    ensures { OnOk result (text.new ≡ text.old ++ record_line found.now) }
{
    text.push_bytes(b"  ")?;
    text.push_number(found.at)?;
    push_kind(text, &found.entry)?;
    text.push(b'\n')
}

fn push_records(text: &mut Text, found: &[Found]) -> Result<(), Memory>
    ensures { OnOk result (text.new ≡ text.old ++ record_lines found.now) }
{
    for own in found {
        push_record(text, own)?;
    }
    Ok(())
}

#[tactic(auto, unfolding(crate::specs::Records::earlier_words))]
fn earlier_words() -> &'static [u8]
    ensures { result.now ≡ earlier_words }
{
    b" records before these\n"
}

/// `  .. 15980 records before these`.
#[tactic(auto, unfolding(crate::specs::Records::earlier_line))]
fn push_earlier(text: &mut Text, count: u64) -> Result<(), Memory>
    ensures { OnOk result (text.new ≡ text.old ++ earlier_line count) }
{
    text.push_bytes(b"  .. ")?;
    text.push_number(count)?;
    text.push_bytes(earlier_words())
}

/// Lists all records, or the last ones.
pub(crate) fn push_listed(text: &mut Text, all: bool, found: &[Found]) -> Result<(), Memory>
    ensures { OnOk result (text.new ≡ text.old ++ listed all found.now) }
{
    if all || found.len() <= LISTED {
        push_records(text, found)
    } else {
        let before = found.len() - LISTED;
        push_earlier(text, before as u64)?;
        push_records(text, &found[before..])
    }
}
