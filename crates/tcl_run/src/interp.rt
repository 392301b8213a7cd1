//! The interpreter.

ghost use Rattle.std.specs.Prelude.{◌≡◌, ◌<◌, length, IfErr};

use lab_base::{Memory, TEXT_LIMIT, Text, TextRefused};
use std::alloc::Global;
use std::marker::Model;
use tcl_eval::{BUDGET, Host, Machine, Ran};

/// An interpreter over a host.
#[derive(Drop)]
pub struct Interp<H> {
    machine: Machine<H>,
    failed: Option<TextRefused>,
}

impl<H> Model for Interp<H> {
    ghost use Rattle.tcl_run.specs.Seen.{Seen};

    ghost Value = { Seen H };

    ghost view = { λ interp. record
        { host = interp.machine.host; variables = interp.machine.variables.entries; left = interp.machine.left; failed = interp.failed } };
}

impl<H: Host> Interp<H> {
    ghost use Rattle.std.specs.Prelude.{◌≡◌, [], None, Some, Err, IfOk, OnOk, IfSome, option_map, nat_eq};
    ghost use Rattle.std.specs.Map.{lookup};
    ghost use Rattle.std.specs.Cmp.Lexicographic.{pointwise};
    ghost use Rattle.tcl_eval.specs.Runs.{HasRun};
    ghost use Rattle.tcl_eval.specs.State.{state};

    /// An interpreter without variables.
    pub fn new(alloc: Global, host: H) -> Result<Interp<H>, Memory>
        ensures { IfOk result (λ interp. interp ≡ record { host = host; variables = []; left = BUDGET; failed = None }) }
    {
        Ok(Interp {
            machine: Machine::new(alloc, host),
            failed: None,
        })
    }

    /// The host, with the objects that scripts left.
    pub fn into_host(self) -> H
        ensures { result ≡ self.host }
    {
        let Interp { machine, failed: _ } = self;
        machine.into_host()
    }

    /// The value of a variable, if it is set.
    pub fn value(&self, name: &Text) -> Option<&Text>
        ensures { option_map (λ value. value.now) result ≡ lookup (pointwise nat_eq name.now) self.now.variables }
    {
        self.machine.value(name)
    }

    /// Runs a text on top of those before. After a fault it answers that fault again.
    pub fn run(&mut self, text: &[u8]) -> Result<Ran, TextRefused>
        requires short { length text.now < TEXT_LIMIT }
        ensures runs { self.old.failed ≡ None → HasRun H.calls H.hears text.now (state self.old.variables (H.objects self.old.host) self.old.left)
            (state self.new.variables (H.objects self.new.host) self.new.left) result }
        ensures ok { OnOk result (self.new.failed ≡ None) }
        ensures again { IfSome self.old.failed (λ refused. result ≡ Err refused) }
        ensures unchanged { IfSome self.old.failed (λ _. self.new ≡ self.old) }
        ensures kept { IfErr result (λ refused. self.new.failed ≡ Some refused) }
    {
        if let Some(refused) = self.failed {
            return Err(refused);
        }
        let ran = self.machine.run_text(text);
        if let Err(refused) = ran {
            self.failed = Some(refused);
        }
        ran
    }
}
