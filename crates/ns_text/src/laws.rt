// Laws of the definitions.
ghost use Rattle.std.specs.Prelude.{List, ℕ, Ok};
ghost use Rattle.ns_text.specs.Wirings.{ScriptIsOne, ScriptOf, WiringIsOne, WiringOf};
ghost use Rattle.ns_text.specs.declared.read.Script.{Script as AnyScript};

/// An NS text has one wiring, or one fault.
pub fn wiring_is_one()
    ensures { WiringIsOne }
{}

/// An NS text has one wiring with its events, or one fault; and that wiring is the one that it has without them.
pub fn script_is_one()
    ensures one { ScriptIsOne }
    ensures wiring { (t : List ℕ) (script : AnyScript) → ScriptOf t (Ok script) → WiringOf t (Ok script.wiring) }
{}
