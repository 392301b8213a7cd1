// Laws of the definitions.
ghost use Rattle.std.specs.Prelude.{◌≡◌, ℕ, List, Ok, Result};
ghost use Rattle.tcl_words.specs.Spans.{AreRising, words_of};
ghost use Rattle.tcl_words.specs.Words.{CommandsOf};
ghost use Rattle.tcl_words.specs.declared.flaw.Flaw.{Flaw};
ghost use Rattle.tcl_words.specs.declared.word.Command.{Command};

/// A text is split in one way: it has one list of commands, or one first fault. The spans of its words rise.
pub fn splittings()
    ensures one { (text : List ℕ) (a b : Result (List Command) Flaw) → CommandsOf text 0 a → CommandsOf text 0 b → a ≡ b }
    ensures rising { (text : List ℕ) (commands : List Command) → CommandsOf text 0 (Ok commands) → AreRising 0 (words_of commands) }
{}
