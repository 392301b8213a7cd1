ghost use Rattle.std.specs.Prelude.{◌≡◌, ◌≢◌, ◌≤◌, ◌<◌, ◌+◌, ℕ, [], ◌∷◌, length, Err, None, Some, false, IfOk, IfSome, IfNone, OnOk, OnErr, IsErrOf};
ghost use Rattle.std.specs.Io.KnownBytes.{IsAtEnd};
ghost use Rattle.lab_base.specs.Counts.{Rose};
ghost use Rattle.lab_io.specs.Feeds.{NoFeed};
ghost use Rattle.lab_io.specs.Passed.{Passed, IsReady, stand_of};
ghost use Rattle.lab_io.specs.Taken.{fault_of, lines_of, taken_of, ended_of, pending_of, rest_of};
ghost use Rattle.script_text.specs.Blocks.{IsBlock, HasBlocks, NextHasBlocks, IsInRange};
ghost use Rattle.script_text.specs.Commands.{command_at, next_of};
ghost use Rattle.script_text.specs.Taking.{HoldsNoMore, HasLong, Skipped, Begun, Blocked, IsShort, IsCut, Completes, IsBadAt, IsHalf, IsBad, NoFurther, NoLonger, Reads, GoesOn, IsUnfinished};

use crate::Command;
use crate::heads::{Head, MAX_LINES, Said, said_in};
use lab_base::{Memory, Text};
use lab_io::{Line, LineFault, LineReader, MAX_LINE, MAX_SCRIPT, Source};
use std::alloc::Global;

/// The next part of a script.
#[derive(Drop)]
pub enum Next {
    Command(Command),
    /// The end: there is no further command.
    End,
}

/// The reason why there is no next command.
#[derive(Clone, Copy, Debug, PartialEq, Eq)]
pub enum ScriptFault {
    /// The line of this number is the first that is not in the grammar.
    /// It is no command, it is too long, or it is missing in a block.
    Bad { line: u64 },
    ReadFault,
    Memory,
}

impl From<Memory> for ScriptFault {
    ghost use Rattle.script_text.specs.declared.next.ScriptFault.TheVariants as faults;

    ghost from_gives = { λ _ e. e ≡ faults.Memory };

    fn from(_error: Memory) -> ScriptFault {
        ScriptFault::Memory
    }
}

/// Takes a line; None at the end.
fn take_line<S: Source>(lines: &mut LineReader, source: &mut S) -> Result<Option<Text>, ScriptFault>
    ensures some { IfOk result (λ line. IfSome line (λ text. Passed (stand_of lines.old (S.left source.old)) (stand_of lines.new (S.left source.new))
        (text ∷ []))) }
    ensures short { IfOk result (λ line. IfSome line (λ text. length text ≤ MAX_LINE)) }
    ensures more { IfOk result (λ line. IfSome line (λ text. taken_of lines.old < taken_of lines.new)) }
    ensures none { IsReady lines.old (S.left source.old)
        → IfOk result (λ line. IfNone line (Passed (stand_of lines.old (S.left source.old)) (stand_of lines.new (S.left source.new)) []
        × IsAtEnd (rest_of lines.new (S.left source.new)))) }
    ensures bad { fault_of lines.old ≡ None → (line : ℕ) → IsErrOf result (ScriptFault.Bad line)
        → (line ≡ lines_of lines.old + 1) × HasLong (stand_of lines.old (S.left source.old)) }
    ensures err { OnErr result (rest_of lines.new (S.left source.new) ≡ rest_of lines.old (S.left source.old)) }
    ensures read { fault_of lines.old ≡ None → IsErrOf result ScriptFault.ReadFault
        → Rose (S.faults source.old) (S.faults source.new) × NoFeed (pending_of lines.new) × (ended_of lines.old ≡ false) }
    ensures later { S.faults source.old ≤ S.faults source.new }
    ensures calm { result ≢ Err ScriptFault.ReadFault → S.faults source.new ≡ S.faults source.old }
    ensures ahead { HoldsNoMore lines.old lines.new }
    ensures within { taken_of lines.new ≤ MAX_SCRIPT }
    ensures ok { OnOk result (fault_of lines.new ≡ None) }
{
    match lines.next(source) {
        Ok(Line::Text(text)) => Ok(Some(text)),
        Ok(Line::End) => Ok(None),
        Err(LineFault::TooLong(line)) => Err(ScriptFault::Bad { line }),
        Err(LineFault::ReadFault) => Err(ScriptFault::ReadFault),
        Err(LineFault::Memory) => Err(ScriptFault::Memory),
    }
}

/// Takes lines up to the first that isn't skipped, which begins a command.
fn find_head<S: Source>(
    alloc: Global,
    lines: &mut LineReader,
    source: &mut S,
) -> Result<Option<Head>, ScriptFault>
    ensures some { IsReady lines.old (S.left source.old)
        → IfOk result (λ found. IfSome found (λ head. Begun (stand_of lines.old (S.left source.old)) (stand_of lines.new (S.left source.new)) head)) }
    ensures range { IfOk result (λ found. IfSome found IsInRange) }
    ensures more { IfOk result (λ found. IfSome found (λ head. taken_of lines.old < taken_of lines.new)) }
    ensures none { IsReady lines.old (S.left source.old)
        → IfOk result (λ found. IfNone found (Skipped (stand_of lines.old (S.left source.old)) (stand_of lines.new (S.left source.new))
        × IsAtEnd (rest_of lines.new (S.left source.new)))) }
    ensures bad { IsReady lines.old (S.left source.old) → (line : ℕ) → IsErrOf result (ScriptFault.Bad line)
        → IsBad (stand_of lines.old (S.left source.old)) line }
    ensures no_further { IsReady lines.old (S.left source.old)
        → OnErr result (NoFurther next_of (stand_of lines.old (S.left source.old)) (stand_of lines.new (S.left source.new))) }
    ensures read { fault_of lines.old ≡ None → IsErrOf result ScriptFault.ReadFault
        → Rose (S.faults source.old) (S.faults source.new) × NoFeed (pending_of lines.new) }
    ensures unfinished { IsReady lines.old (S.left source.old) → IsErrOf result ScriptFault.ReadFault
        → IsUnfinished (stand_of lines.old (S.left source.old)) (stand_of lines.new (S.left source.new)) }
    ensures later { S.faults source.old ≤ S.faults source.new }
    ensures calm { result ≢ Err ScriptFault.ReadFault → S.faults source.new ≡ S.faults source.old }
    ensures ahead { HoldsNoMore lines.old lines.new }
    ensures within { taken_of lines.new ≤ MAX_SCRIPT }
    ensures ok { OnOk result (fault_of lines.new ≡ None) }
{
    'lines: loop {
        match take_line(lines, source)? {
            None => return Ok(None),
            Some(text) => match said_in(alloc, &text)? {
                Said::Skipped => {}
                Said::Unknown => {
                    return Err(ScriptFault::Bad {
                        line: lines.lines(),
                    });
                }
                Said::Begins(head) => return Ok(Some(head)),
            },
        }
    }
}

/// Takes the lines of a block.
fn take_block<S: Source>(
    alloc: Global,
    lines: &mut LineReader,
    source: &mut S,
    count: u16,
) -> Result<Text, ScriptFault>
    ensures block { IsReady lines.old (S.left source.old)
        → IfOk result (λ text. Blocked (stand_of lines.old (S.left source.old)) (stand_of lines.new (S.left source.new)) count text) }
    ensures lines { count ≤ MAX_LINES → IfOk result (λ text. IsBlock count text) }
    ensures bad { IsReady lines.old (S.left source.old) → (line : ℕ) → IsErrOf result (ScriptFault.Bad line)
        → IsShort (stand_of lines.old (S.left source.old)) count line }
    ensures no_longer { IsReady lines.old (S.left source.old)
        → OnErr result (NoLonger (stand_of lines.old (S.left source.old)) (stand_of lines.new (S.left source.new)) count) }
    ensures read { fault_of lines.old ≡ None → IsErrOf result ScriptFault.ReadFault
        → Rose (S.faults source.old) (S.faults source.new) × NoFeed (pending_of lines.new) }
    ensures cut { IsReady lines.old (S.left source.old) → IsErrOf result ScriptFault.ReadFault
        → IsCut (stand_of lines.old (S.left source.old)) (stand_of lines.new (S.left source.new)) count }
    ensures later { S.faults source.old ≤ S.faults source.new }
    ensures calm { result ≢ Err ScriptFault.ReadFault → S.faults source.new ≡ S.faults source.old }
    ensures ahead { HoldsNoMore lines.old lines.new }
    ensures taken { OnOk result (taken_of lines.old ≤ taken_of lines.new) }
    ensures ok { fault_of lines.old ≡ None → OnOk result (fault_of lines.new ≡ None) }
{
    let mut block = Text::new(alloc);
    for _number in 0..count {
        match take_line(lines, source)? {
            None => {
                return Err(ScriptFault::Bad {
                    line: lines.lines() + 1,
                });
            }
            Some(line) => {
                block.push_bytes(line.bytes())?;
                block.push(b'\n')?;
            }
        }
    }
    Ok(block)
}

/// Takes as many blocks as the head of a command has.
fn with_blocks<S: Source>(
    alloc: Global,
    head: Head,
    lines: &mut LineReader,
    source: &mut S,
) -> Result<Command, ScriptFault>
    ensures command { IsReady lines.old (S.left source.old)
        → IfOk result (λ command. Completes (stand_of lines.old (S.left source.old)) (stand_of lines.new (S.left source.new)) head command) }
    ensures blocks { IsInRange head → IfOk result HasBlocks }
    ensures bad { IsReady lines.old (S.left source.old) → (line : ℕ) → IsErrOf result (ScriptFault.Bad line)
        → IsBadAt (stand_of lines.old (S.left source.old)) head line }
    ensures no_further { IsReady lines.old (S.left source.old)
        → OnErr result (NoFurther (command_at head) (stand_of lines.old (S.left source.old)) (stand_of lines.new (S.left source.new))) }
    ensures read { fault_of lines.old ≡ None → IsErrOf result ScriptFault.ReadFault
        → Rose (S.faults source.old) (S.faults source.new) × NoFeed (pending_of lines.new) }
    ensures unfinished { IsReady lines.old (S.left source.old) → IsErrOf result ScriptFault.ReadFault
        → IsHalf (stand_of lines.old (S.left source.old)) (stand_of lines.new (S.left source.new)) head }
    ensures later { S.faults source.old ≤ S.faults source.new }
    ensures calm { result ≢ Err ScriptFault.ReadFault → S.faults source.new ≡ S.faults source.old }
    ensures ahead { HoldsNoMore lines.old lines.new }
    ensures taken { OnOk result (taken_of lines.old ≤ taken_of lines.new) }
    ensures ok { fault_of lines.old ≡ None → OnOk result (fault_of lines.new ≡ None) }
{
    match head {
        Head::Whole(command) => Ok(command),
        Head::Block { what, lines: count } => {
            let text = take_block(alloc, lines, source, count)?;
            Ok(what.completed(count, text))
        }
        Head::Blocks {
            what,
            first,
            second,
        } => {
            let one = take_block(alloc, lines, source, first)?;
            let other = take_block(alloc, lines, source, second)?;
            Ok(what.completed(first, one, second, other))
        }
    }
}

/// Reads the next command of a script, with its blocks; its words are by the forms of `Command`.
///
/// It is for a reader that has met no fault: of one that has, it isn't said which answer comes.
/// After a fault no line was taken after the command that comes next, or after the one that `Bad` tells.
pub fn read_command<S: Source>(
    alloc: Global,
    lines: &mut LineReader,
    source: &mut S,
) -> Result<Next, ScriptFault>
    ensures next { IsReady lines.old (S.left source.old)
        → IfOk result (λ next. Reads (stand_of lines.old (S.left source.old)) next (stand_of lines.new (S.left source.new))) }
    ensures blocks { IfOk result NextHasBlocks }
    ensures more { IfOk result (λ next. GoesOn next (taken_of lines.old) (taken_of lines.new)) }
    ensures bad { IsReady lines.old (S.left source.old) → (line : ℕ) → IsErrOf result (ScriptFault.Bad line)
        → IsBad (stand_of lines.old (S.left source.old)) line }
    ensures no_further { IsReady lines.old (S.left source.old)
        → OnErr result (NoFurther next_of (stand_of lines.old (S.left source.old)) (stand_of lines.new (S.left source.new))) }
    ensures read { fault_of lines.old ≡ None → IsErrOf result ScriptFault.ReadFault
        → Rose (S.faults source.old) (S.faults source.new) × NoFeed (pending_of lines.new) }
    ensures unfinished { IsReady lines.old (S.left source.old) → IsErrOf result ScriptFault.ReadFault
        → IsUnfinished (stand_of lines.old (S.left source.old)) (stand_of lines.new (S.left source.new)) }
    ensures later { S.faults source.old ≤ S.faults source.new }
    ensures calm { result ≢ Err ScriptFault.ReadFault → S.faults source.new ≡ S.faults source.old }
    ensures ahead { HoldsNoMore lines.old lines.new }
    ensures ok { OnOk result (fault_of lines.new ≡ None) }
{
    match find_head(alloc, lines, source)? {
        None => Ok(Next::End),
        Some(head) => {
            let command = with_blocks(alloc, head, lines, source)?;
            Ok(Next::Command(command))
        }
    }
}
