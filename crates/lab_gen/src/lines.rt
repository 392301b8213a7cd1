// Lines of the script.
ghost use Rattle.std.specs.Prelude.{◌≡◌, ◌+◌, ◌-◌, ◌≤◌, ◌^◌, ◌++◌, ◌∷◌, [], codes, map, decimal, OnOk};
ghost use Rattle.lab_gen.specs.Lines.{line_of};
ghost use Rattle.lab_gen.specs.Script.{interface_line, numbers, text_of, trunk_line, virtual_link_line};

use lab_base::{Memory, Text};

/// A kind of line, made from a number.
#[derive(Clone, Copy)]
pub(crate) enum Line {
    Switch,
    Node,
    /// The interface of that number, on a node.
    Interface { node: u16 },
    /// The trunk from the first switch to that one.
    Trunk,
    VirtualNode,
    /// The link from that virtual node to the next one.
    VirtualLink,
}

/// Adds a word and a number.
pub(crate) fn push_numbered(text: &mut Text, word: &[u8], number: u64) -> Result<(), Memory>
    ensures { OnOk result (text.new ≡ text.old ++ (word.now ++ decimal number)) }
{
    text.push_bytes(word)?;
    text.push_number(number)
}

fn push_interface(text: &mut Text, node: u16, number: u16) -> Result<(), Memory>
    ensures { OnOk result (text.new ≡ text.old ++ (interface_line node number ++ 10 ∷ [])) }
{
    let before = u64::from(node).saturating_sub(1);
    push_numbered(text, b"link p", u64::from(node))?;
    push_numbered(text, b".", u64::from(number))?;
    push_numbered(text, b" p", u64::from(node))?;
    push_numbered(text, b":eth", u64::from(number))?;
    push_numbered(text, b" s", before % 4 + 1)?;
    push_numbered(text, b":", 4 * (before / 4) + u64::from(number) + 1)?;
    text.push_bytes(b" 100000\n")
}

fn push_trunk(text: &mut Text, switch: u16) -> Result<(), Memory>
    ensures { OnOk result (text.new ≡ text.old ++ (trunk_line switch ++ 10 ∷ [])) }
{
    push_numbered(text, b"link t", u64::from(switch))?;
    push_numbered(text, b" s1:", 1000 + u64::from(switch))?;
    push_numbered(text, b" s", u64::from(switch))?;
    text.push_bytes(b":1000 1000000000\n")
}

fn push_virtual_link(text: &mut Text, node: u16) -> Result<(), Memory>
    ensures { OnOk result (text.new ≡ text.old ++ (virtual_link_line node ++ 10 ∷ [])) }
{
    push_numbered(text, b"link l", u64::from(node))?;
    push_numbered(text, b" l", u64::from(node))?;
    push_numbered(text, b" 10000 v", u64::from(node))?;
    push_numbered(text, b" v", u64::from(node) + 1)?;
    text.push(b'\n')
}

/// Adds a word, a number and the end of the line.
fn push_whole(text: &mut Text, word: &[u8], number: u16, end: &[u8]) -> Result<(), Memory>
    ensures { OnOk result (text.new ≡ text.old ++ (word.now ++ decimal number ++ end.now)) }
{
    push_numbered(text, word, u64::from(number))?;
    text.push_bytes(end)
}

/// Adds a word, two numbers and the end of the line.
pub(crate) fn push_command(
    text: &mut Text,
    word: &[u8],
    first: u16,
    second: u16,
) -> Result<(), Memory>
    ensures { OnOk result (text.new ≡ text.old ++ (word.now ++ decimal first ++ codes " " ++ decimal second ++ 10 ∷ [])) }
{
    push_numbered(text, word, u64::from(first))?;
    push_numbered(text, b" ", u64::from(second))?;
    text.push(b'\n')
}

fn push_line(text: &mut Text, line: Line, number: u16) -> Result<(), Memory>
    ensures { OnOk result (text.new ≡ text.old ++ (line_of line number ++ 10 ∷ [])) }
{
    match line {
        Line::Switch => push_whole(text, b"node s", number, b" switch\n"),
        Line::Node => push_whole(text, b"node p", number, b" pc:1\n"),
        Line::Interface { node } => push_interface(text, node, number),
        Line::Trunk => push_trunk(text, number),
        Line::VirtualNode => push_whole(text, b"node v", number, b" pc linux\n"),
        Line::VirtualLink => push_virtual_link(text, number),
    }
}

/// Adds the lines of so many numbers from the first one on.
pub(crate) fn push_lines(text: &mut Text, line: Line, first: u16, count: u16) -> Result<(), Memory>
    requires { first + count ≤ 2 ^ 16 - 1 }
    ensures { OnOk result (text.new ≡ text.old ++ text_of (map (line_of line) (numbers first count))) }
{
    for place in 0..count {
        push_line(text, line, first + place)?;
    }
    Ok(())
}
