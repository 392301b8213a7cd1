// Positions of a course in its commands.
ghost use Rattle.std.specs.Prelude.{◌≡◌, ◌<◌, ◌++◌, [], ◌∷◌, drop, length, None};
ghost use Rattle.swap_txn.specs.Views.{rest, left_of, count_of, IsAt, IsLeftFrom};

use crate::stage::Stage;
use lab_base::Name;
use plant::DeviceOp;
use swap_plan::Commands;

/// The first stage with a command after the listed ones.
fn from_boot(commands: &Commands) -> Stage
    ensures { IsLeftFrom commands.now [] result 0 }
{
    if commands.boot.len() > 0 {
        Stage::Boot
    } else {
        Stage::Done
    }
}

fn from_load(commands: &Commands) -> Stage
    ensures { IsLeftFrom commands.now commands.now.load result 0 }
{
    if commands.load.len() > 0 {
        Stage::Load
    } else {
        from_boot(commands)
    }
}

fn from_cable(commands: &Commands) -> Stage
    ensures { IsLeftFrom commands.now (commands.now.cable ++ commands.now.load) result 0 }
{
    if commands.cable.len() > 0 {
        Stage::Cable
    } else {
        from_load(commands)
    }
}

/// The first stage with a command.
pub(crate) fn from_clear(commands: &Commands) -> Stage
    ensures { IsLeftFrom commands.now (commands.now.clear ++ commands.now.cable ++ commands.now.load) result 0 }
{
    if commands.clear.len() > 0 {
        Stage::Clear
    } else {
        from_cable(commands)
    }
}

/// The number of commands that a stage lists.
fn count(commands: &Commands, stage: Stage) -> usize
    ensures { result ≡ count_of commands.now stage }
{
    match stage {
        Stage::Clear => commands.clear.len(),
        Stage::Cable => commands.cable.len(),
        Stage::Load => commands.load.len(),
        Stage::Boot | Stage::Done => 0,
    }
}

/// The first later stage with a command.
fn behind(commands: &Commands, stage: Stage) -> Stage
    requires { 0 < count_of commands.now stage }
    ensures { IsLeftFrom commands.now (rest commands.now stage (count_of commands.now stage)) result 0 }
{
    match stage {
        Stage::Clear => from_cable(commands),
        Stage::Cable => from_load(commands),
        Stage::Load => from_boot(commands),
        Stage::Boot | Stage::Done => unreachable!(),
    }
}

/// The listed command at a position.
pub(crate) fn listed(commands: &Commands, stage: Stage, at: usize) -> DeviceOp
    requires { at < count_of commands.now stage }
    ensures { rest commands.now stage at ≡ result ∷ drop 1 (rest commands.now stage at) }
{
    match stage {
        Stage::Clear => commands.clear.as_slice()[at],
        Stage::Cable => commands.cable.as_slice()[at],
        Stage::Load => commands.load.as_slice()[at],
        Stage::Boot | Stage::Done => unreachable!(),
    }
}

/// The position after a listed command.
pub(crate) fn after(commands: &Commands, stage: Stage, at: usize) -> (Stage, usize)
    requires { at < count_of commands.now stage }
    ensures { IsLeftFrom commands.now (drop 1 (rest commands.now stage at)) result.0 result.1 }
{
    let count = count(commands, stage);
    if at + 1 < count {
        (stage, at + 1)
    } else {
        (behind(commands, stage), 0)
    }
}

/// The node to boot at a position, and the position after it.
pub(crate) fn node_at(commands: &Commands, at: usize) -> (Name, usize)
    requires { at < length commands.now.boot }
    ensures { drop at commands.now.boot ≡ result.0 ∷ drop result.1 commands.now.boot }
{
    (commands.boot.as_slice()[at], at + 1)
}

/// The stage after the lists: booting, where a node is left to boot, and else the end.
pub(crate) fn from_node(commands: &Commands, at: usize) -> Stage
    ensures left { left_of commands.now result at None ≡ record { todo = []; boot = drop at commands.now.boot; watch = None } }
    ensures position { IsAt commands.now result at None }
{
    if at < commands.boot.len() {
        Stage::Boot
    } else {
        Stage::Done
    }
}
