//! The limits of a script.

ghost use Rattle.std.specs.Prelude.{◌≡◌, ◌+◌, ◌<◌, ◌≤◌, length, true, IfOk, IfErr, if◌then◌else◌};
ghost use Rattle.lab_base.specs.declared.fault.Kind.TheVariants as kinds;
ghost use Rattle.tcl_eval.specs.declared.halts.Halt.TheVariants as halts;
ghost use Rattle.tcl_eval.specs.Settings.{indexed_name};

use crate::halts::Halt;
use lab_base::{Kind, Memory, Text};
use std::alloc::Global;

/// The most commands and conditions that are evaluated.
pub const BUDGET: u32 = 20_000;

/// The most levels that are open at once.
pub const LEVELS: u32 = 32;

/// The most bytes of a value.
pub const MAX_VALUE: usize = 65_536;

/// A value that isn't too long; else the fault.
pub fn short(value: Text) -> Result<Text, Halt>
    ensures value { IfOk result (λ short. (short ≡ value) × (length value ≤ MAX_VALUE)) }
    ensures long { IfErr result (λ halt. (halt ≡ halts.Fault kinds.Long) × (MAX_VALUE < length value)) }
{
    if value.len() > MAX_VALUE {
        return Err(Halt::Fault(Kind::Long));
    }
    Ok(value)
}

/// The levels left inside one more level.
pub fn deeper(levels: u32) -> Result<u32, Halt>
    ensures deeper { IfOk result (λ less. less + 1 ≡ levels) }
    ensures deep { IfErr result (λ halt. (halt ≡ halts.Fault kinds.Deep) × (levels ≡ 0)) }
{
    if levels == 0 {
        return Err(Halt::Fault(Kind::Deep));
    }
    Ok(levels - 1)
}

/// The levels left inside an index. An index inside an index is one more level.
pub fn index_levels(levels: u32, in_index: bool) -> Result<u32, Halt>
    ensures deeper { IfOk result (λ less. less + (if in_index then 1 else 0) ≡ levels) }
    ensures deep { IfErr result (λ halt. (halt ≡ halts.Fault kinds.Deep) × (levels ≡ 0) × (in_index ≡ true)) }
{
    if in_index { deeper(levels) } else { Ok(levels) }
}

/// A variable's name with its index.
pub fn indexed_name(alloc: Global, name: &[u8], index: &[u8]) -> Result<Text, Memory>
    ensures name { IfOk result (λ text. text ≡ indexed_name name.now index.now) }
{
    let mut text = Text::from_slice(alloc, name)?;
    text.push(b'(')?;
    text.push_bytes(index)?;
    text.push(b')')?;
    Ok(text)
}
