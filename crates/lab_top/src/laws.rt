// Laws of a run.
ghost use Rattle.std.specs.Prelude.{◌≡◌, ◌≢◌, ◌⊎◌, ◌↔◌, ◌≤◌, count_by, ℕ, Bool, false, true, List, [], ◌∷◌, ◌++◌, length, Option, Some, None};
ghost use Rattle.lab_base.specs.Counts.{Rose};
ghost use Rattle.lab_base.specs.Lists.{AllDiffer, Has};
ghost use Rattle.plant.specs.Disks.{ArePossible, disk};
ghost use Rattle.plant.specs.Told.{Told};
ghost use Rattle.plant.specs.Worlds.{world_of};
ghost use Rattle.plant.specs.declared.step.Side.{Side};
ghost use Rattle.plant.specs.declared.step.Side.TheVariants.{A, B};
ghost use Rattle.virt_topo.specs.declared.experiment.Experiment.{Experiment};
ghost use Rattle.records_model.specs.Labs.{LabState, lab_in};
ghost use Rattle.records_model.specs.Works.{IsSound};
ghost use Rattle.swap_turns.specs.Pieces.{has_command, has_miss, has_restart};
ghost use Rattle.lab_model.specs.Leavings.{SameFor};
ghost use Rattle.lab_model.specs.Sound.{is_moving};
ghost use Rattle.recovery.specs.Settle.{is_stuck};
ghost use Rattle.lab_state.specs.Texts.{the_texts};
ghost use Rattle.swap_turns.specs.Swaps.{Moves};
ghost use Rattle.script_text.specs.Commands.{Ending, IsScript};
ghost use Rattle.script_text.specs.declared.command.Command.{Command};
ghost use Rattle.script_text.specs.declared.command.Command.TheVariants.{Audit, Batch, Play, Recover, SwapinWith, Turn};
ghost use Rattle.script_text.specs.declared.reply.Reply.{Reply};
ghost use Rattle.script_text.specs.declared.reply.AuditLine.{AuditLine};
ghost use Rattle.script_text.specs.declared.reply.Reply.TheVariants.{Audit as Audited, In, More, Played, Recovered, Served as Lines, Unread as NotRead};
ghost use Rattle.script_text.specs.declared.reply.Served.{Served};
ghost use Rattle.script_text.specs.Drills.{drill_of};
ghost use Rattle.script_text.specs.Replies.{closes};
ghost use Rattle.lab_core.specs.Moments.{AllStandFor, IsLabAt, IsNoJournal, StandForLab};
ghost use Rattle.lab_core.specs.BatchLines.{BatchTells};
ghost use Rattle.lab_core.specs.PlayTells.{PlayTells};
ghost use Rattle.lab_core.specs.PlayWirings.{PlayWires};
ghost use Rattle.lab_core.specs.Recovery.{EndedIn, HasRecovered};
ghost use Rattle.recovery.specs.Due.{swaps_of};
ghost use Rattle.lab_core.specs.Sessions.{OpenSwap, Closed, open_at, Terms};
ghost use Rattle.lab_core.specs.Tells.{BeginsAt, IsAtRest, busy_of, IsFeasibleFor, IsInBy, Hinders, is_of_drill, is_stopped, IsThere, IsTurn, IsTurnOf, SendsOne, opens_of, taken_reply, TellsBroken};
ghost use Rattle.plant.specs.Events.{Event, Unread};
ghost use Rattle.lab_top.specs.Reports.{ChangesNothing, TellsDifference};
ghost use Rattle.lab_top.specs.Pieces.{Begun, Piece, TellsAll, AllHave, AllRestBut, AreAll, AreAllAs, AreOn, AreOthers, FirstLab, HasOpened, OpensTo, StayOpen, is_closed, is_early, session_after, steps_of, trace_after};
ghost use Rattle.lab_top.specs.Ran.{Outside, Ran};
ghost use Rattle.lab_words.specs.Words.{Choices};
ghost use Rattle.lab_top.specs.declared.status.Status.{Status};
ghost use Rattle.lab_top.specs.declared.status.Status.TheVariants.{Memory, JournalBad};

use journal_rec::MAX_JOURNAL;
use swap_mgr::MAX_OPEN;

/// A command that is no drill finds the session closed and the sides to be no journal, and no call of its opening fails or stops.
/// Then the run ends with `JournalBad` at that very place, or memory is wanting, whatever the trace was before.
pub fn bad_journals()
    ensures { (terms : Terms) (choices : Option Choices) (old new : Outside) (status : Status) (before after : List Begun) (b : Begun) (t : Told) (side : Side)
        (at : ℕ)
        → Ran terms choices old new status (before ++ b ∷ after) → old.plant.told ≡ Some t → drill_of b.piece.command ≡ None → b.piece.from ≡ Closed
        → has_miss b.piece.opening ≡ false → has_restart b.piece.opening ≡ false
        → IsNoJournal (disk A (trace_after t.trace before)).reads (disk B (trace_after t.trace before)).reads MAX_JOURNAL side at
        → (status ≡ Memory) ⊎ (status ≡ JournalBad side at) }
{}

/// A supplied solution is swapped in, or its swap begins where `open` stands before the command, exactly where it is feasible on the free rest of the
/// lab after the opening. Else the reply tells what hindered it.
/// A line of a reply to `batch` tells what is so, like any reply, if no later run of that batch is of the experiment; and so does the reply that ended a
/// `play`, and where none did, the experiment is in. Where such a reply closes the controller, its earlier lines hold too, in each image that
/// a later stop may leave.
/// Where the reply to a `play` doesn't close the controller, so many of the due events, in their order, led to the wiring that the experiment has in
/// every image that a stop may leave.
/// An experiment that doesn't move stays as it is, in every image that a later stop may leave, until a later command on it.
/// The reply is `stopped` exactly where the plant stopped, and a command that is no drill has no reply of a drill, both whatever the trace was
/// before. The empty trace is sound.
pub fn runs()
    ensures solutions { (terms : Terms) (choices : Option Choices) (old new : Outside) (status : Status) (before after : List Begun) (b : Begun) (t : Told)
        (only_begin : Bool) (exp text : List ℕ) (lines : ℕ) (reply : Reply)
        → Ran terms choices old new status (before ++ b ∷ after) → old.plant.told ≡ Some t → IsSound the_texts t.trace
        → b.piece.command ≡ SwapinWith only_begin exp lines text → b.piece.reply ≡ Some reply
        → TellsBroken reply ⊎ ((s : LabState) × FirstLab (is_early b.piece) (trace_after t.trace before) s × (mid : LabState)
        × BeginsAt b.piece.from s b.piece.opening mid
        × (reply ≡ taken_reply only_begin exp → IsFeasibleFor mid exp text)
        × (IsFeasibleFor mid exp text → (reply ≡ taken_reply only_begin exp) ⊎ Hinders reply)) }
    ensures kept { (terms : Terms) (choices : Option Choices) (old new : Outside) (status : Status) (before middle after : List Begun) (t : Told)
        (e : Experiment)
        → Ran terms choices old new status (before ++ (middle ++ after)) → old.plant.told ≡ Some t → IsSound the_texts t.trace → is_moving e ≡ false
        → AllHave (trace_after t.trace before) e → AreOthers e.name middle → AllHave (trace_after t.trace (before ++ middle)) e }
    ensures answered { (terms : Terms) (choices : Option Choices) (old new : Outside) (status : Status) (before middle after : List Begun) (b : Begun)
        (t : Told) (reply : Reply)
        → Ran terms choices old new status (before ++ b ∷ (middle ++ after)) → old.plant.told ≡ Some t → IsSound the_texts t.trace → b.piece.reply ≡ Some reply
        → TellsAll reply middle (trace_after t.trace (before ++ b ∷ middle)) }
    ensures lines { (terms : Terms) (choices : Option Choices) (old new : Outside) (status : Status) (before middle after : List Begun) (b : Begun) (t : Told)
        (moment lines : ℕ) (text : List ℕ) (served : Served)
        → Ran terms choices old new status (before ++ b ∷ (middle ++ after)) → old.plant.told ≡ Some t → IsSound the_texts t.trace
        → b.piece.command ≡ Batch moment lines text → b.piece.reply ≡ Some (Lines served) → closes (Lines served) ≡ false
        → BatchTells (λ is exp. AreOthers exp middle → AreAll is (trace_after t.trace (before ++ b ∷ middle)) exp) text served }
    ensures played { (terms : Terms) (choices : Option Choices) (old new : Outside) (status : Status) (before middle after : List Begun) (b : Begun) (t : Told)
        (exp name text last : List ℕ) (from until lines count : ℕ) (closing blaming : Bool)
        → Ran terms choices old new status (before ++ b ∷ (middle ++ after)) → old.plant.told ≡ Some t → IsSound the_texts t.trace
        → b.piece.command ≡ Play exp from until lines text → b.piece.reply ≡ Some (Played name count last closing blaming) → closing ≡ false
        → PlayTells (λ is exp. AreOthers exp middle → AreAll is (trace_after t.trace (before ++ b ∷ middle)) exp) exp (Played name count last closing blaming) }
    ensures wired { (terms : Terms) (choices : Option Choices) (old new : Outside) (status : Status) (before middle after : List Begun) (b : Begun) (t : Told)
        (exp name text last : List ℕ) (from until lines count : ℕ) (closing blaming : Bool)
        → Ran terms choices old new status (before ++ b ∷ (middle ++ after)) → old.plant.told ≡ Some t → IsSound the_texts t.trace
        → b.piece.command ≡ Play exp from until lines text → b.piece.reply ≡ Some (Played name count last closing blaming) → closing ≡ false
        → (s : LabState) × FirstLab (is_early b.piece) (trace_after t.trace before) s × (mid : LabState) × BeginsAt b.piece.from s b.piece.opening mid
        × PlayWires (AreAllAs exp (trace_after t.trace (before ++ b ∷ [])) middle) mid exp from until text (Played name count last closing blaming) }
    ensures lines_left { (terms : Terms) (choices : Option Choices) (old new : Outside) (status : Status) (before middle after : List Begun) (b : Begun)
        (t : Told) (moment lines : ℕ) (text : List ℕ) (served : Served)
        → Ran terms choices old new status (before ++ b ∷ (middle ++ after)) → old.plant.told ≡ Some t → IsSound the_texts t.trace
        → b.piece.command ≡ Batch moment lines text → b.piece.reply ≡ Some (Lines served)
        → (x y : List ℕ) → ArePossible (trace_after t.trace (before ++ b ∷ middle)) x y
        → (u : LabState) × StandForLab x y u × BatchTells (λ is exp. AreOthers exp middle → IsThere is u exp) text served }
    ensures played_left { (terms : Terms) (choices : Option Choices) (old new : Outside) (status : Status) (before middle after : List Begun) (b : Begun)
        (t : Told) (exp name text last : List ℕ) (from until lines count : ℕ) (closing blaming : Bool)
        → Ran terms choices old new status (before ++ b ∷ (middle ++ after)) → old.plant.told ≡ Some t → IsSound the_texts t.trace
        → b.piece.command ≡ Play exp from until lines text → b.piece.reply ≡ Some (Played name count last closing blaming)
        → (x y : List ℕ) → ArePossible (trace_after t.trace (before ++ b ∷ middle)) x y
        → (u : LabState) × StandForLab x y u
        × PlayTells (λ is own. AreOthers own middle → IsThere is u own) exp (Played name count last closing blaming) }
    ensures inside { (terms : Terms) (choices : Option Choices) (old new : Outside) (status : Status) (before after : List Begun) (b : Begun) (t : Told)
        (exp text : List ℕ) (lines : ℕ)
        → Ran terms choices old new status (before ++ b ∷ after) → old.plant.told ≡ Some t → IsSound the_texts t.trace
        → b.piece.command ≡ SwapinWith false exp lines text → b.piece.reply ≡ Some (In exp)
        → (s : LabState) × AllStandFor (trace_after t.trace (before ++ b ∷ [])) s × IsInBy s exp text }
    ensures stops { (terms : Terms) (choices : Option Choices) (old new : Outside) (status : Status) (before after : List Begun) (b : Begun) (t : Told)
        (reply : Reply)
        → Ran terms choices old new status (before ++ b ∷ after) → old.plant.told ≡ Some t → b.piece.reply ≡ Some reply
        → has_restart (steps_of b.piece) ≡ is_stopped reply }
    ensures undrilled { (terms : Terms) (choices : Option Choices) (old new : Outside) (status : Status) (before after : List Begun) (b : Begun) (t : Told)
        (reply : Reply)
        → Ran terms choices old new status (before ++ b ∷ after) → old.plant.told ≡ Some t → drill_of b.piece.command ≡ None → b.piece.reply ≡ Some reply
        → is_of_drill reply ≡ false }
    ensures blank { IsSound the_texts [] }
    ensures script { (bytes : List ℕ) (a b : List Command) (x y : Ending) → IsScript bytes a x → IsScript bytes b y → (a ≡ b) × (x ≡ y) }
{}

/// Recoveries, over every sound trace: after an opening in which none got stuck, and after a `recover` that tells so, no experiment moves but those
/// with an open swap. Where some got stuck, one whose own settling met no trouble is at rest still.
/// So it is in any image that a stop may leave. Besides what these claim, the devices have exactly what the experiments that are in want.
pub fn recoveries()
    ensures opened { (terms : Terms) (choices : Option Choices) (old new : Outside) (status : Status) (before after : List Begun) (b : Begun) (t : Told)
        → Ran terms choices old new status (before ++ b ∷ after) → old.plant.told ≡ Some t → IsSound the_texts t.trace → HasOpened b.piece
        → (s : LabState) × (mid : LabState) × (to : OpensTo (trace_after t.trace before) b.piece s mid)
        × (count_by is_stuck to.opens.outcomes ≡ 0 → AllRestBut [] (trace_after t.trace before ++ b.piece.opening)) }
    ensures each { (trace : List Event) (piece : Piece) (s mid : LabState) → IsLabAt trace s → (to : OpensTo trace piece s mid)
        → count_by is_stuck to.opens.outcomes ≡ 0 → AllRestBut [] (trace ++ piece.opening) }
    ensures beside { (trace : List Event) (piece : Piece) (s mid : LabState) (name : List ℕ) → (to : OpensTo trace piece s mid)
        → EndedIn (swaps_of [] s.experiments) to.opens.outcomes name
        → (a b : List ℕ) → ArePossible (trace ++ piece.opening) a b → (u : LabState) × StandForLab a b u × IsAtRest u name }
    ensures recovered { (terms : Terms) (choices : Option Choices) (old new : Outside) (status : Status) (before after : List Begun) (b : Begun) (t : Told)
        (done : ℕ)
        → Ran terms choices old new status (before ++ b ∷ after) → old.plant.told ≡ Some t → IsSound the_texts t.trace → b.piece.command ≡ Recover
        → b.piece.reply ≡ Some (Recovered done 0)
        → AllRestBut (busy_of b.piece.from) (trace_after t.trace (before ++ b ∷ [])) }
    ensures recovered_beside { (terms : Terms) (choices : Option Choices) (old new : Outside) (status : Status) (before after : List Begun) (b : Begun)
        (t : Told) (done stuck : ℕ)
        → Ran terms choices old new status (before ++ b ∷ after) → old.plant.told ≡ Some t → IsSound the_texts t.trace → b.piece.command ≡ Recover
        → b.piece.reply ≡ Some (Recovered done stuck)
        → (s : LabState) × FirstLab (is_early b.piece) (trace_after t.trace before) s × (mid : LabState) × BeginsAt b.piece.from s b.piece.opening mid
        × (last : LabState) × AllStandFor (trace_after t.trace (before ++ b ∷ [])) last
        × (settled : HasRecovered mid (busy_of b.piece.from) done stuck b.piece.own last)
        × ((name : List ℕ) → EndedIn (swaps_of (busy_of b.piece.from) mid.experiments) settled.outcomes name → IsAtRest last name) }
{}

/// Many swaps at once.
/// Commands about other experiments, each of which leaves the session open, leave an experiment's open swap as it is, over any trace. Where it has
/// one, over every sound trace the experiment stays as it is, in every image that a later stop may leave.
/// The experiment of each open swap moves, at each moment and over any trace. Where the swap begins with a supplied solution, and its end is answered
/// as in, the experiment is in by that solution.
/// A turn sends one device command, or appends one record, over any trace. One that is refused does neither. One that breaks off sends no more than
/// one, and nothing of the journal after it.
/// Where a turn of one, or all up to its end, find the session open, they leave the world of each other experiment as it was, however they end: each
/// row that it wants, and each node that it claims.
/// No more than sixteen swaps are open, and no two of one name. Each has the count of device faults at the mark of a command before, over every
/// plant.
pub fn turns()
    ensures swaps { (terms : Terms) (choices : Option Choices) (old new : Outside) (status : Status) (before middle after : List Begun) (t : Told)
        (name : List ℕ)
        → Ran terms choices old new status (before ++ (middle ++ after)) → old.plant.told ≡ Some t → StayOpen middle → AreOthers name middle
        → open_at name (opens_of (session_after Closed (before ++ middle))) ≡ open_at name (opens_of (session_after Closed before)) }
    ensures kept { (terms : Terms) (choices : Option Choices) (old new : Outside) (status : Status) (before middle after : List Begun) (t : Told)
        (e : Experiment) (swap : OpenSwap)
        → Ran terms choices old new status (before ++ (middle ++ after)) → old.plant.told ≡ Some t → IsSound the_texts t.trace
        → open_at e.name (opens_of (session_after Closed before)) ≡ Some swap
        → AllHave (trace_after t.trace before) e → StayOpen middle → AreOthers e.name middle → AllHave (trace_after t.trace (before ++ middle)) e }
    ensures moves { (terms : Terms) (choices : Option Choices) (old new : Outside) (status : Status) (before after : List Begun) (t : Told) (s : LabState)
        (swap : OpenSwap)
        → Ran terms choices old new status (before ++ after) → old.plant.told ≡ Some t → IsLabAt (trace_after t.trace before) s
        → Has (opens_of (session_after Closed before)) swap → Moves swap.running.swap s }
    ensures ended { (terms : Terms) (choices : Option Choices) (old new : Outside) (status : Status) (before middle after : List Begun) (b c : Begun)
        (t : Told) (exp text : List ℕ) (lines : ℕ)
        → Ran terms choices old new status ((before ++ b ∷ middle) ++ c ∷ after) → old.plant.told ≡ Some t → IsSound the_texts t.trace
        → b.piece.command ≡ SwapinWith true exp lines text → b.piece.reply ≡ Some (More exp) → AreOn exp middle → IsTurnOf exp c.piece.command
        → c.piece.reply ≡ Some (In exp)
        → (s : LabState) × AllStandFor (trace_after t.trace ((before ++ b ∷ middle) ++ c ∷ [])) s × IsInBy s exp text }
    ensures turned { (terms : Terms) (choices : Option Choices) (old new : Outside) (status : Status) (before after : List Begun) (b : Begun) (t : Told)
        (exp : List ℕ) (reply : Reply)
        → Ran terms choices old new status (before ++ b ∷ after) → old.plant.told ≡ Some t → b.piece.command ≡ Turn exp → b.piece.reply ≡ Some reply
        → closes reply ≡ false → is_stopped reply ≡ false
        → is_closed b.piece.from ≡ false → (b.piece.own ≡ []) ⊎ IsTurn b.piece.own }
    ensures at_most_one { (terms : Terms) (choices : Option Choices) (old new : Outside) (status : Status) (before after : List Begun) (b : Begun) (t : Told)
        (exp : List ℕ) (reply : Reply)
        → Ran terms choices old new status (before ++ b ∷ after) → old.plant.told ≡ Some t → b.piece.command ≡ Turn exp → b.piece.reply ≡ Some reply
        → (has_command b.piece.own ≡ false) ⊎ SendsOne b.piece.own }
    ensures world { (terms : Terms) (choices : Option Choices) (old new : Outside) (status : Status) (before after : List Begun) (b : Begun) (t : Told)
        (s : LabState) (exp : List ℕ) (e : Experiment) (reply : Reply)
        → Ran terms choices old new status (before ++ b ∷ after) → old.plant.told ≡ Some t → IsTurnOf exp b.piece.command → b.piece.reply ≡ Some reply
        → is_closed b.piece.from ≡ false
        → IsLabAt (trace_after t.trace before) s → Has s.experiments e → e.name ≢ exp
        → SameFor (lab_in s.lab) e (world_of (trace_after t.trace before)) (world_of (trace_after t.trace (before ++ b ∷ []))) }
    ensures few { (terms : Terms) (choices : Option Choices) (old new : Outside) (status : Status) (before after : List Begun) (t : Told)
        → Ran terms choices old new status (before ++ after) → old.plant.told ≡ Some t
        → (length (opens_of (session_after Closed before)) ≤ MAX_OPEN) × AllDiffer (busy_of (session_after Closed before)) }
    ensures marked { (terms : Terms) (choices : Option Choices) (old new : Outside) (status : Status) (before after : List Begun) (swap : OpenSwap)
        → Ran terms choices old new status (before ++ after) → Has (opens_of (session_after Closed before)) swap
        → (front : List Begun) × (b : Begun) × (rest : List Begun) × (before ≡ front ++ b ∷ rest) × (b.piece.faults.devices ≡ swap.devices) }
{}

/// Audits. Over any trace one that is answered `audit N` has no own steps. Its lines of switches are exactly those by which the devices differ from
/// the lab of that moment. So are its lines of nodes, where the trace leaves open the boot state of none that is compared.
/// Over every sound trace it tells that nothing differs, also beside open swaps, whose experiments move.
/// A command has the reply `unread NAME` exactly where a reading of that device failed in it, in its opening or after. Only an audit has such a
/// reply, and that reading is its one step. Whatever the plant tells, such a reply comes only where the count of device faults rose in that command.
/// The own steps of an audit change no side and no table, and none of them is a step of an experiment's course.
pub fn audits()
    ensures told { (terms : Terms) (choices : Option Choices) (old new : Outside) (status : Status) (before after : List Begun)
        (b : Begun) (t : Told) (lines : List AuditLine)
        → Ran terms choices old new status (before ++ b ∷ after) → old.plant.told ≡ Some t
        → b.piece.command ≡ Audit → b.piece.reply ≡ Some (Audited lines)
        → TellsDifference (trace_after t.trace (before ++ b ∷ [])) lines × (b.piece.own ≡ []) }
    ensures nothing { (terms : Terms) (choices : Option Choices) (old new : Outside) (status : Status) (before after : List Begun)
        (b : Begun) (t : Told) (lines : List AuditLine)
        → Ran terms choices old new status (before ++ b ∷ after) → old.plant.told ≡ Some t → IsSound the_texts t.trace
        → b.piece.command ≡ Audit → b.piece.reply ≡ Some (Audited lines) → lines ≡ [] }
    ensures unread { (terms : Terms) (choices : Option Choices) (old new : Outside) (status : Status) (before after : List Begun)
        (b : Begun) (t : Told) (reply : Reply) (name : List ℕ)
        → Ran terms choices old new status (before ++ b ∷ after) → old.plant.told ≡ Some t → b.piece.reply ≡ Some reply
        → Has (steps_of b.piece) (Unread name) ↔ (reply ≡ NotRead name) }
    ensures alone { (terms : Terms) (choices : Option Choices) (old new : Outside) (status : Status) (before after : List Begun)
        (b : Begun) (t : Told) (name : List ℕ)
        → Ran terms choices old new status (before ++ b ∷ after) → old.plant.told ≡ Some t → b.piece.reply ≡ Some (NotRead name)
        → (b.piece.command ≡ Audit) × (b.piece.own ≡ Unread name ∷ []) }
    ensures risen { (terms : Terms) (choices : Option Choices) (old new : Outside) (status : Status) (before after : List Begun)
        (b : Begun) (name : List ℕ)
        → Ran terms choices old new status (before ++ b ∷ after) → b.piece.reply ≡ Some (NotRead name)
        → Rose b.piece.faults.devices b.later.devices }
    ensures still { (terms : Terms) (choices : Option Choices) (old new : Outside) (status : Status) (before after : List Begun)
        (b : Begun) (t : Told) (reply : Reply)
        → Ran terms choices old new status (before ++ b ∷ after) → old.plant.told ≡ Some t
        → b.piece.command ≡ Audit → b.piece.reply ≡ Some reply → ChangesNothing (trace_after t.trace before) b.piece }
{}
