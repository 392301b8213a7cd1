// Laws of a run over every plant.
ghost use Rattle.std.specs.Prelude.{◌≡◌, ◌⊎◌, ◌≤◌, ℕ, Bool, false, List, ◌∷◌, ◌++◌, length, Option, Some, None};
ghost use Rattle.lab_base.specs.Lists.{AllDiffer};
ghost use Rattle.script_text.specs.Drills.{drill_of};
ghost use Rattle.script_text.specs.declared.command.Command.TheVariants.{SwapinWith};
ghost use Rattle.script_text.specs.declared.reply.Reply.{Reply};
ghost use Rattle.lab_core.specs.Moments.{trace_in, with_more};
ghost use Rattle.lab_core.specs.Sessions.{Closed, open_at, Terms};
ghost use Rattle.lab_core.specs.Tells.{AllMove, Hinders, IsFeasibleFor, busy_of, is_of_drill, opens_of, taken_reply};
ghost use Rattle.lab_top.specs.Pieces.{AreOthers, Begun, NotOpened, OwnStep, StayOpen, session_after, traces_after};
ghost use Rattle.lab_top.specs.Ran.{Outside, Ran, after_in, from_in, held_in};
ghost use Rattle.lab_top.specs.declared.status.Status.{Status};
ghost use Rattle.lab_words.specs.Words.{Choices};

use swap_mgr::MAX_OPEN;

/// A run over every plant, one that tells nothing of its past too: between two openings the replies are those of an abstract lab.
/// The labs are those that the run hands on: a command that finds the session open goes from the lab that the one before it left. The length of the
/// journal goes with them: it is longer by the records that the one before it appended.
/// The own part of a command that is no drill is a lab step of an open session between its two labs, unless its opening broke off; and in the lab from
/// which it goes the experiment of each open swap moves.
/// Unless its opening broke off, a supplied solution is swapped in, or its swap begins where `open` stands before the command, exactly where it is
/// feasible in the lab from which the command goes; else the reply tells what hindered it. A command that is no drill has no reply of a drill.
/// Commands about other experiments, each of which leaves the session open, leave an experiment's open swap as it is. No more than sixteen swaps are
/// open, and no two of one name.
pub fn every_plant()
    ensures steps { (terms : Terms) (choices : Option Choices) (old new : Outside) (status : Status) (before after : List Begun) (b : Begun)
        → (r : Ran terms choices old new status (before ++ b ∷ after)) → drill_of b.piece.command ≡ None
        → NotOpened b.piece ⊎ (OwnStep terms (with_more (traces_after (trace_in old.plant.told) before) b.piece.opening) b.piece
        (held_in before after b r) (after_in before after b r) × AllMove (opens_of b.piece.from) (from_in before after b r)) }
    ensures solutions { (terms : Terms) (choices : Option Choices) (old new : Outside) (status : Status) (before after : List Begun) (b : Begun)
        (only_begin : Bool) (exp text : List ℕ) (lines : ℕ) (reply : Reply)
        → (r : Ran terms choices old new status (before ++ b ∷ after)) → b.piece.command ≡ SwapinWith only_begin exp lines text → b.piece.reply ≡ Some reply
        → NotOpened b.piece ⊎ ((reply ≡ taken_reply only_begin exp → IsFeasibleFor (from_in before after b r) exp text)
        × (IsFeasibleFor (from_in before after b r) exp text → (reply ≡ taken_reply only_begin exp) ⊎ Hinders reply)) }
    ensures undrilled { (terms : Terms) (choices : Option Choices) (old new : Outside) (status : Status) (before after : List Begun) (b : Begun)
        (reply : Reply)
        → Ran terms choices old new status (before ++ b ∷ after) → drill_of b.piece.command ≡ None → b.piece.reply ≡ Some reply → is_of_drill reply ≡ false }
    ensures swaps { (terms : Terms) (choices : Option Choices) (old new : Outside) (status : Status) (before middle after : List Begun) (name : List ℕ)
        → Ran terms choices old new status (before ++ (middle ++ after)) → StayOpen middle → AreOthers name middle
        → open_at name (opens_of (session_after Closed (before ++ middle))) ≡ open_at name (opens_of (session_after Closed before)) }
    ensures few { (terms : Terms) (choices : Option Choices) (old new : Outside) (status : Status) (before after : List Begun)
        → Ran terms choices old new status (before ++ after)
        → (length (opens_of (session_after Closed before)) ≤ MAX_OPEN) × AllDiffer (busy_of (session_after Closed before)) }
{}
