ghost use Rattle.std.specs.Prelude.{◌≡◌, ◌++◌, true, OnOk, IfOk};
ghost use Rattle.line_text.specs.Printing.{line_text};
ghost use Rattle.plant_file.specs.Lines.{entry_fields};
ghost use Rattle.plant_file.specs.Printable.{is_printable};

use crate::boots::boot_word;
use crate::entry::Entry;
use lab_base::{Boot, Memory, Name, Text, VlanId};
use line_text::{push_both_rates, push_count, push_field, push_word};
use std::alloc::Global;

fn push_row(text: &mut Text, switch: &Name, port: u16, vlan: VlanId) -> Result<(), Memory>
    ensures text { OnOk result (text.new ≡ text.old ++ line_text (entry_fields (Entry.Row switch.now port vlan))) }
    ensures printable { OnOk result (is_printable (Entry.Row switch.now port vlan) ≡ true) }
{
    text.push_bytes(b"row")?;
    push_field(text, switch)?;
    push_count(text, u64::from(port))?;
    push_count(text, u64::from(vlan.0))?;
    text.push(b'\n')
}

fn push_bare(text: &mut Text, node: &Name, state: Boot) -> Result<(), Memory>
    ensures text { OnOk result (text.new ≡ text.old ++ line_text (entry_fields (Entry.Bare node.now state))) }
    ensures printable { OnOk result (is_printable (Entry.Bare node.now state) ≡ true) }
{
    text.push_bytes(b"node")?;
    push_field(text, node)?;
    push_word(text, boot_word(state))?;
    text.push(b'\n')
}

fn push_node(text: &mut Text, node: &Name, state: Boot, os: &Name) -> Result<(), Memory>
    ensures text { OnOk result (text.new ≡ text.old ++ line_text (entry_fields (Entry.Node node.now state os.now))) }
    ensures printable { OnOk result (is_printable (Entry.Node node.now state os.now) ≡ true) }
{
    text.push_bytes(b"node")?;
    push_field(text, node)?;
    push_word(text, boot_word(state))?;
    push_field(text, os)?;
    text.push(b'\n')
}

fn push_entry(text: &mut Text, entry: &Entry) -> Result<(), Memory>
    ensures text { OnOk result (text.new ≡ text.old ++ line_text (entry_fields entry.now)) }
    ensures printable { OnOk result (is_printable entry.now ≡ true) }
{
    match entry {
        Entry::Row { switch, port, vlan } => push_row(text, switch, *port, *vlan),
        Entry::Bare { node, state } => push_bare(text, node, *state),
        Entry::Node { node, state, os } => push_node(text, node, *state, os),
        Entry::Pipe {
            node,
            number,
            from,
            to,
            there,
            back,
        } => {
            text.push_bytes(b"pipe")?;
            push_field(text, node)?;
            push_count(text, u64::from(*number))?;
            push_field(text, from)?;
            push_field(text, to)?;
            push_both_rates(text, *there, *back)?;
            text.push(b'\n')
        }
    }
}

/// The line of an entry.
pub(crate) fn print_entry(alloc: Global, entry: &Entry) -> Result<Text, Memory>
    ensures text { IfOk result (λ text. text ≡ line_text (entry_fields entry.now)) }
    ensures printable { OnOk result (is_printable entry.now ≡ true) }
{
    let mut text = Text::new(alloc);
    push_entry(&mut text, entry)?;
    Ok(text)
}
