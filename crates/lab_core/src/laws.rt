// Laws of the definitions.
ghost use Rattle.std.specs.Prelude.{◌≡◌, ◌≢◌, ◌⊎◌, ◌↔◌, ◌≤◌, ℕ, Bool, false, true, is_some, count_by, List, [], ◌∷◌, ◌++◌, length, Option, Some, None, Ok, Err, Result};
ghost use Rattle.plant.specs.Disks.{ArePossible};
ghost use Rattle.plant.specs.Events.{Event, Unread};
ghost use Rattle.plant.specs.Worlds.{world_of};
ghost use Rattle.journal_rec.specs.declared.record.Record.TheVariants.{Begin};
ghost use Rattle.journal_rec.specs.declared.record.Way.{Way};
ghost use Rattle.cost_rule.specs.declared.rule.RuleNumber.{RuleNumber};
ghost use Rattle.records_model.specs.Labs.{HasText, LabState, Move, Sane, Says, find, lab_in};
ghost use Rattle.records_model.specs.Works.{IsSound};
ghost use Rattle.lab_state.specs.Texts.{the_texts};
ghost use Rattle.swap_turns.specs.Pieces.{has_command, has_miss, has_restart};
ghost use Rattle.script_text.specs.Drills.{drill_of};
ghost use Rattle.script_text.specs.Replies.{closes};
ghost use Rattle.script_text.specs.declared.command.Command.{Command};
ghost use Rattle.script_text.specs.declared.command.Command.TheVariants.{Audit, Batch, Play, Recover, SwapinWith};
ghost use Rattle.script_text.specs.declared.reply.Reply.{Reply};
ghost use Rattle.script_text.specs.declared.reply.Reply.TheVariants.{In, More, Played, Recovered, Served as ServedReply, Unread as NotRead};
ghost use Rattle.script_text.specs.declared.reply.Served.{Served};
ghost use Rattle.lab_core.specs.BatchLines.{BatchTells, there_in};
ghost use Rattle.lab_core.specs.PlayTells.{PlayTells};
ghost use Rattle.lab_core.specs.PlayWirings.{AreApplied, AreWiredBy, PlayWires, found_there};
ghost use Rattle.lab_core.specs.Recovery.{EndedIn, Opens};
ghost use Rattle.swap_turns.specs.Settling.{Settles};
ghost use Rattle.swap_turns.specs.Swaps.{Swap as Swapped};
ghost use Rattle.swap_turns.specs.Turning.{Outcome};
ghost use Rattle.recovery.specs.Due.{is_busy};
ghost use Rattle.recovery.specs.Settle.{is_stuck};
ghost use Rattle.lab_base.specs.Lists.{AllDiffer, Has};
ghost use Rattle.lab_model.specs.Leavings.{SameFor};
ghost use Rattle.lab_model.specs.Sound.{is_moving};
ghost use Rattle.virt_topo.specs.declared.experiment.Experiment.{Experiment};
ghost use Rattle.virt_topo.specs.declared.wiring.Wiring.{Wiring};
ghost use Rattle.virt_topo.specs.Soundness.{IsSound as IsSoundWiring};
ghost use Rattle.ns_events.specs.Changes.{KeepsLimits};
ghost use Rattle.ns_events.specs.declared.event.Event.{Event as LinkEvent};
ghost use Rattle.lab_core.specs.LabSteps.{LabStepBy};
ghost use Rattle.lab_core.specs.BatchList.{runs_in_turn};
ghost use Rattle.lab_core.specs.Commands.{LabStep, Serves, is_about};
ghost use Rattle.lab_core.specs.Lists.{Ground, Past};
ghost use Rattle.lab_core.specs.Promises.{AreKept, KeepsPromises, some_stuck};
ghost use Rattle.lab_judge.specs.Serving.{JudgedBatch, Serving};
ghost use Rattle.lab_tasks.specs.Tasks.{Task, Tell, Swap, BeginOnly, Turn, Finish};
ghost use Rattle.lab_judge.specs.Judge.{is_unjudged, Judged};
ghost use Rattle.lab_judge.specs.Searches.{is_searched};
ghost use Rattle.lab_core.specs.Moments.{StandForLab};
ghost use Rattle.lab_core.specs.Said.{IsAsSaid};
ghost use Rattle.lab_core.specs.Sessions.{OpenSwap, Session, Open, Terms, Setting, After, names_of, open_at};
ghost use Rattle.lab_core.specs.Tells.{AllMove, BeginsAt, GoesIn, Hinders, IsAtRest, IsFeasibleFor, IsInBy, IsNoSwap, IsOpened, IsTurn, IsTurnOf, TellsBroken, TellsEnd, TellsLab, SendsOne, busy_of, is_of_steps, is_stopped, opens_of, settles, taken_reply};

use lab_ahead::left_nodes;
use swap_mgr::MAX_OPEN;

/// A command without a search has one judgement, and a lab step is by one of its command's judgements.
/// One that refuses the command, or only tells something, has no steps of its own. One that begins no swap and settles none leads, where nothing
/// failed or stopped and a reply is told, to one reply and one lab. The reply to a swap tells where its experiment is.
/// Experiments of other names stay, whatever the reply. Where the command settles what moves, those that don't move stay, and those with an open
/// swap. A drill leaves all as it was. The plant stopped exactly where the reply is `stopped`.
/// The lines of a reply to `batch` are replies to the first runs of its text, in order, and where one tells that an experiment is, there it is after
/// the whole, if no later run is of it. The reply to `play` tells how many events were answered `in`, and the reply that ended it, if one did; then the
/// experiment is where that tells, and in still where that is a refusal; else it is in.
/// Where that reply doesn't close the controller, so many of the due events, in their order, led to the wiring that the experiment has after it.
/// Each wiring is the one that its event leaves, where the text is sound, the events keep the limits, and the wiring of before has a text.
/// A reply that is of no steps comes without any of the command's own: a refusal, and a reply that only tells something, of lists and audits too.
/// A reading of a device failed exactly where the reply is `unread` with its name. Only an audit is answered so, and that reading is its one step.
pub fn lab_steps()
    ensures judged_once { (rule : RuleNumber) (s : LabState) (busy : Bool) (count : ℕ) (command : Command) (a b : Result Task Reply)
        → is_searched command ≡ false → Judged rule s busy count command a → Judged rule s busy count command b → a ≡ b }
    ensures by_one { (terms : Terms) (at : Option (List Event)) (set : Setting) (s : LabState) (session : Session) (command : Command)
        (opening own : List Event)
        (after : After)
        → is_unjudged command ≡ false → LabStep terms at set s session command opening own after
        → (judgement : Result Task Reply) × LabStepBy judgement terms set s session command opening own after }
    ensures refused { (terms : Terms) (set : Setting) (s : LabState) (session : Session) (command : Command) (opening own : List Event) (after : After)
        (reply : Reply)
        → LabStepBy (Err reply) terms set s session command opening own after → own ≡ [] }
    ensures told { (terms : Terms) (set : Setting) (s : LabState) (session : Session) (command : Command) (opening own : List Event) (after : After)
        (reply : Reply)
        → LabStepBy (Ok (Tell reply)) terms set s session command opening own after → own ≡ [] }
    ensures once { (terms : Terms) (set : Setting) (s : LabState) (opens : List OpenSwap) (command : Command) (judgement : Result Task Reply)
        (own : List Event) (after later : After)
        (reply other : Reply)
        → IsNoSwap judgement → has_restart own ≡ false → has_miss own ≡ false → after.reply ≡ Some reply → later.reply ≡ Some other
        → LabStepBy judgement terms set s (Open opens) command [] own after → LabStepBy judgement terms set s (Open opens) command [] own later
        → (reply ≡ other) × (after.lab ≡ later.lab) }
    ensures swapped { (terms : Terms) (set : Setting) (s : LabState) (session : Session) (command : Command) (opening own : List Event) (after : After)
        (exp : List ℕ) (way : Way)
        (reply : Reply) → drill_of command ≡ None → after.reply ≡ Some reply → LabStepBy (Ok (Swap exp way)) terms set s session command opening own after
        → TellsBroken reply ⊎ ((mid : LabState) × BeginsAt session s opening mid
        × ((move : Move) → Says the_texts mid (Begin exp way) move → TellsLab mid exp move reply after.lab)) }
    ensures others { (terms : Terms) (at : Option (List Event)) (set : Setting) (s : LabState) (session : Session) (command : Command)
        (opening own : List Event)
        (after : After) (name : List ℕ)
        → is_some s.lab ≡ true → is_about command name ≡ false → (settles session command name ≡ true → IsAtRest s name)
        → LabStep terms at set s session command opening own after
        → find name after.lab.experiments ≡ find name s.experiments }
    ensures drills { (terms : Terms) (at : Option (List Event)) (set : Setting) (s : LabState) (session : Session) (command : Command)
        (opening own : List Event)
        (after : After)
        → is_some (drill_of command) ≡ true → LabStep terms at set s session command opening own after → (opening ≡ []) × (own ≡ []) × (after.lab ≡ s) }
    ensures stops { (terms : Terms) (at : Option (List Event)) (set : Setting) (s : LabState) (session : Session) (command : Command) (opening own : List Event)
        (after : After) (reply : Reply)
        → LabStep terms at set s session command opening own after → after.reply ≡ Some reply → has_restart (opening ++ own) ≡ is_stopped reply }
    ensures served { (terms : Terms) (at : Option (List Event)) (set : Setting) (s : LabState) (session : Session) (moment lines : ℕ) (text : List ℕ)
        (opening own : List Event) (after : After) (served : Served)
        → LabStep terms at set s session (Batch moment lines text) opening own after → after.reply ≡ Some (ServedReply served)
        → BatchTells (there_in after.lab) text served }
    ensures played { (terms : Terms) (at : Option (List Event)) (set : Setting) (s : LabState) (session : Session) (exp name : List ℕ)
        (from until lines count : ℕ)
        (text last : List ℕ) (closing blaming : Bool) (opening own : List Event) (after : After)
        → LabStep terms at set s session (Play exp from until lines text) opening own after → after.reply ≡ Some (Played name count last closing blaming)
        → PlayTells (there_in after.lab) exp (Played name count last closing blaming) }
    ensures wired { (terms : Terms) (at : Option (List Event)) (set : Setting) (s : LabState) (session : Session) (exp name : List ℕ)
        (from until lines count : ℕ)
        (text last : List ℕ) (closing blaming : Bool) (opening own : List Event) (after : After)
        → LabStep terms at set s session (Play exp from until lines text) opening own after → after.reply ≡ Some (Played name count last closing blaming)
        → closing ≡ false
        → (mid : LabState) × BeginsAt session s opening mid
        × PlayWires (found_there after.lab exp) mid exp from until text (Played name count last closing blaming) }
    ensures applied { (text before after : Wiring) (events : List LinkEvent)
        → IsSoundWiring text → ((event : LinkEvent) → Has events event → KeepsLimits event.what) → HasText the_texts before
        → AreWiredBy text events before after → AreApplied text events before after }
    ensures idle { (terms : Terms) (at : Option (List Event)) (set : Setting) (s : LabState) (session : Session) (command : Command) (opening own : List Event)
        (after : After) (reply : Reply)
        → LabStep terms at set s session command opening own after → after.reply ≡ Some reply → is_of_steps reply ≡ false → own ≡ [] }
    ensures unread { (terms : Terms) (at : Option (List Event)) (set : Setting) (s : LabState) (session : Session) (command : Command)
        (opening own : List Event)
        (after : After) (reply : Reply) (name : List ℕ)
        → LabStep terms at set s session command opening own after → after.reply ≡ Some reply
        → Has (opening ++ own) (Unread name) ↔ (reply ≡ NotRead name) }
    ensures alone { (terms : Terms) (at : Option (List Event)) (set : Setting) (s : LabState) (session : Session) (command : Command) (opening own : List Event)
        (after : After) (name : List ℕ)
        → LabStep terms at set s session command opening own after → after.reply ≡ Some (NotRead name) → (command ≡ Audit) × (own ≡ Unread name ∷ []) }
{}

/// Open swaps, over lab steps that leave the controller open.
/// Each of another name than the command's is open as it was, so `recover` leaves all. Their names differ where they did, and no more than sixteen
/// are open. One that `open` begins is one more, of which nothing was sent. The experiment of each open swap moves, where it did before the step.
/// A turn sends one device command, or appends one record. One that breaks off sends no more than one, and nothing of the journal after it. The
/// reply to a turn, or to all up to the end, tells where the experiment is.
/// Both leave the world of each other experiment as it was, over any trace and however they end: each row that it wants, and each node that it
/// claims.
pub fn open_swaps()
    ensures others { (terms : Terms) (at : Option (List Event)) (set : Setting) (s : LabState) (opens to : List OpenSwap) (command : Command)
        (opening own : List Event)
        (after : After) (name : List ℕ)
        → is_about command name ≡ false → LabStep terms at set s (Open opens) command opening own after → after.session ≡ Open to
        → open_at name to ≡ open_at name opens }
    ensures differ { (terms : Terms) (at : Option (List Event)) (set : Setting) (s : LabState) (session : Session) (to : List OpenSwap) (command : Command)
        (opening own : List Event) (after : After)
        → AllDiffer (busy_of session) → LabStep terms at set s session command opening own after → after.session ≡ Open to → AllDiffer (names_of to) }
    ensures few { (terms : Terms) (at : Option (List Event)) (set : Setting) (s : LabState) (session : Session) (to : List OpenSwap) (command : Command)
        (opening own : List Event) (after : After)
        → length (opens_of session) ≤ MAX_OPEN → LabStep terms at set s session command opening own after → after.session ≡ Open to → length to ≤ MAX_OPEN }
    ensures moves { (terms : Terms) (at : Option (List Event)) (set : Setting) (s : LabState) (session : Session) (to : List OpenSwap) (command : Command)
        (opening own : List Event) (after : After)
        → Sane s → AllDiffer (busy_of session) → AllMove (opens_of session) s → LabStep terms at set s session command opening own after
        → after.session ≡ Open to → AllMove to after.lab }
    ensures begun { (terms : Terms) (set : Setting) (s : LabState) (session : Session) (command : Command) (opening own : List Event) (after : After)
        (exp name : List ℕ) (way : Way)
        → LabStepBy (Ok (BeginOnly exp way)) terms set s session command opening own after → after.reply ≡ Some (More name)
        → (name ≡ exp) × ((to : List OpenSwap) × (after.session ≡ Open to) × IsOpened exp set.devices after.lab (opens_of session) to) }
    ensures turned { (terms : Terms) (set : Setting) (s : LabState) (opens : List OpenSwap) (command : Command) (opening own : List Event) (after : After)
        (exp : List ℕ) (reply : Reply)
        → drill_of command ≡ None → LabStepBy (Ok (Turn exp)) terms set s (Open opens) command opening own after → after.reply ≡ Some reply
        → closes reply ≡ false → is_stopped reply ≡ false
        → IsTurn own }
    ensures at_most_one { (terms : Terms) (set : Setting) (s : LabState) (opens : List OpenSwap) (command : Command) (opening own : List Event) (after : After)
        (exp : List ℕ)
        → LabStepBy (Ok (Turn exp)) terms set s (Open opens) command opening own after → (has_command own ≡ false) ⊎ SendsOne own }
    ensures turn_tells { (terms : Terms) (set : Setting) (s : LabState) (opens : List OpenSwap) (command : Command) (opening own : List Event) (after : After)
        (exp : List ℕ) (reply : Reply)
        → LabStepBy (Ok (Turn exp)) terms set s (Open opens) command opening own after → after.reply ≡ Some reply → TellsEnd s exp reply after.lab }
    ensures world { (terms : Terms) (at : Option (List Event)) (set : Setting) (s : LabState) (opens : List OpenSwap) (command : Command)
        (opening own : List Event)
        (after : After) (trace : List Event) (exp : List ℕ) (e : Experiment)
        → Sane s → IsTurnOf exp command → Has s.experiments e → e.name ≢ exp → LabStep terms at set s (Open opens) command opening own after
        → SameFor (lab_in s.lab) e (world_of trace) (world_of (trace ++ own)) }
    ensures finish_tells { (terms : Terms) (set : Setting) (s : LabState) (opens : List OpenSwap) (command : Command) (opening own : List Event)
        (after : After) (exp : List ℕ) (reply : Reply)
        → LabStepBy (Ok (Finish exp)) terms set s (Open opens) command opening own after → after.reply ≡ Some reply → TellsEnd s exp reply after.lab }
{}

/// Recoveries: after an opening in which none got stuck, and after a `recover` that tells so, no experiment moves but those with an open swap.
/// An experiment whose own settling met no trouble is at rest after both, also where another's did.
pub fn recoveries()
    ensures opened { (s mid : LabState) (opening : List Event) → Sane s → (is : Opens s opening mid) → count_by is_stuck is.outcomes ≡ 0
        → (e : Experiment) → Has mid.experiments e → is_moving e ≡ false }
    ensures beside { (s after : LabState) (swaps : List Swapped) (outcomes : List Outcome) (steps : List Event) (name : List ℕ)
        → Settles s swaps outcomes steps after → EndedIn swaps outcomes name → IsAtRest after name }
    ensures recovered { (terms : Terms) (at : Option (List Event)) (set : Setting) (s : LabState) (session : Session) (opening own : List Event) (after : After)
        (done : ℕ)
        → Sane s → LabStep terms at set s session Recover opening own after → after.reply ≡ Some (Recovered done 0)
        → (e : Experiment) → Has after.lab.experiments e → is_moving e ≡ true → is_busy (busy_of session) e.name ≡ true }
{}

/// Supplied solutions: an experiment is swapped in, or its swap begins where `open` stands before the command, only where the solution is feasible on
/// the rest that the others leave.
/// Where it is feasible it goes in, unless the reply tells what hindered it. An open swap of its own can't, since the experiment of one moves. One
/// that is answered as in is in by the mapping of that solution, at once or at the end of the swap that begins.
pub fn solutions()
    ensures only { (terms : Terms) (at : Option (List Event)) (set : Setting) (s : LabState) (session : Session) (only_begin : Bool) (exp text : List ℕ)
        (lines : ℕ)
        (opening own : List Event) (after : After)
        → LabStep terms at set s session (SwapinWith only_begin exp lines text) opening own after → after.reply ≡ Some (taken_reply only_begin exp)
        → (mid : LabState) × BeginsAt session s opening mid × IsFeasibleFor mid exp text }
    ensures unless { (terms : Terms) (at : Option (List Event)) (set : Setting) (s : LabState) (session : Session) (only_begin : Bool) (exp text : List ℕ)
        (lines : ℕ)
        (opening own : List Event) (after : After) (reply : Reply)
        → LabStep terms at set s session (SwapinWith only_begin exp lines text) opening own after → AllMove (opens_of session) s → after.reply ≡ Some reply
        → TellsBroken reply ⊎ ((mid : LabState) × BeginsAt session s opening mid
        × (IsFeasibleFor mid exp text → (reply ≡ taken_reply only_begin exp) ⊎ Hinders reply)) }
    ensures inside { (terms : Terms) (at : Option (List Event)) (set : Setting) (s : LabState) (session : Session) (exp text : List ℕ) (lines : ℕ)
        (opening own : List Event) (after : After)
        → LabStep terms at set s session (SwapinWith false exp lines text) opening own after → after.reply ≡ Some (In exp) → IsInBy after.lab exp text }
    ensures begins { (terms : Terms) (at : Option (List Event)) (set : Setting) (s : LabState) (session : Session) (to : List OpenSwap) (exp text : List ℕ)
        (lines : ℕ)
        (opening own : List Event) (after : After)
        → LabStep terms at set s session (SwapinWith true exp lines text) opening own after → after.reply ≡ Some (More exp) → after.session ≡ Open to
        → GoesIn to after.lab exp text }
    ensures ends { (terms : Terms) (at : Option (List Event)) (set : Setting) (s : LabState) (opens : List OpenSwap) (command : Command) (exp text : List ℕ)
        (opening own : List Event) (after : After)
        → AllMove opens s → GoesIn opens s exp text → IsTurnOf exp command → LabStep terms at set s (Open opens) command opening own after
        → after.reply ≡ Some (In exp) → IsInBy after.lab exp text }
{}

/// Over a sound trace the devices are as the lab of each image says.
/// Each row that an experiment wants which is in is there, and its nodes are as they are wanted. Of one that is out there is nothing.
pub fn labs_are_kept()
    ensures { (trace : List Event) (a b : List ℕ) (s : LabState) → IsSound the_texts trace → ArePossible trace a b → StandForLab a b s
        → IsAsSaid (world_of trace) s }
{}

/// A batch keeps its promises. After one that is served, with no experiment stuck by it, all promises fit at each moment of each of its runs that are
/// in, on what is left then: the nodes that no experiment claims, and those of its own runs that have ended.
/// So a later run of a batch breaks no promise that an earlier one was tested by. A mapping that a search finds is shaped for the lab and the wiring.
pub fn promises()
    ensures served { (rule : RuleNumber) (moment : ℕ) (text : List ℕ) (trace : Option (List Event)) (set : Setting) (s : LabState) (opens to : List OpenSwap)
        (own : List Event) (after : After) (served : Served)
        → Sane s → Serves rule moment text trace set opens s own after → after.reply ≡ Some (ServedReply served) → after.session ≡ Open to
        → KeepsPromises moment text served after.lab }
    ensures part { (rule : RuleNumber) (moment : ℕ) (text : List ℕ) (base : Ground) (trace : Option (List Event)) (s u : LabState) (opens to : List OpenSwap)
        (start at : Serving) (own : List Event)
        → Sane s → JudgedBatch s text (Ok start) → Past (runs_in_turn rule moment) base trace start s opens own at u to → some_stuck at.told ≡ false
        → AreKept u moment at.promises at.ends }
{
    left_nodes();
}
