//! Hosts of scripts.

ghost use Rattle.std.specs.Prelude.{ℕ, List, Result};
ghost use Rattle.lab_base.specs.declared.fault.Kind.{Kind};
ghost use Rattle.tcl_eval.specs.declared.hosts.Called.{Called};
ghost use Rattle.tcl_eval.specs.Calls.{AnswersBy, HearsBy};

use lab_base::{Kind, Text};

/// The answer of a host to a command.
#[derive(Drop)]
pub enum Called {
    /// The host knows no such command.
    NotMine,
    /// The result of the command.
    Value(Text),
    /// The script is to stop.
    Stop,
}

/// The reason why a host gives no answer.
#[derive(Clone, Copy, PartialEq, Eq, Debug, Drop)]
pub enum HostFault {
    Kind(Kind),
    Memory,
}

/// A host of scripts: it obeys the commands that aren't the interpreter's own, and hears of new values of variables.
/// It has objects, which are plain data, and each call is a function of them.
pub trait Host {
    /// The objects of the host, as plain data.
    type Objects;

    /// The present objects of the host.
    ghost objects: { Self → Self.Objects };

    /// The answer on a line to the words of a command, and the objects afterwards.
    ghost calls: { ℕ → Self.Objects → List (List ℕ) → Result Called Kind × Self.Objects };

    /// The answer to a variable's new value, and the objects afterwards.
    ghost hears: { Self.Objects → List ℕ → List ℕ → Result (Unit {0}) Kind × Self.Objects };

    /// Obeys a command that isn't the interpreter's own. `line` is that of the present command at the top level.
    fn call(&mut self, words: &[Text], line: u32) -> Result<Called, HostFault>
        ensures { AnswersBy (calls line) (objects self.old) words.now result (objects self.new) };

    /// Hears that `set` gave a variable a value.
    fn assigned(&mut self, name: &Text, value: &Text) -> Result<(), HostFault>
        ensures { HearsBy hears (objects self.old) name.now value.now result (objects self.new) };
}
