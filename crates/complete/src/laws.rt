//! Laws of a run: completeness, the course of each open swap, commands that nothing disturbs, how many device commands are sent, how open swaps end, and
//! batches.
ghost use Rattle.std.specs.Prelude.{◌≡◌, ◌⊎◌, ◌≤◌, ◌+◌, ◌*◌, ℕ, Bool, true, false, is_some, List, [], ◌∷◌, ◌++◌, Option, Some, None};
ghost use Rattle.lab_base.specs.Lists.{Has};
ghost use Rattle.plant.specs.Events.{Event};
ghost use Rattle.plant.specs.Told.{Told};
ghost use Rattle.lab_model.specs.Courses.{Plan, Trouble};
ghost use Rattle.phys_lab.specs.Labs.{Lab};
ghost use Rattle.virt_topo.specs.declared.mapping.Mapped.{Mapped};
ghost use Rattle.records_model.specs.Labs.{LabState, lab_in};
ghost use Rattle.records_model.specs.Works.{IsSound};
ghost use Rattle.lab_state.specs.Texts.{the_texts};
ghost use Rattle.recovery.specs.Due.{swaps_of};
ghost use Rattle.swap_turns.specs.Courses.{IsCut};
ghost use Rattle.swap_turns.specs.Legs.{Forth};
ghost use Rattle.script_text.specs.Commands.{BadLine, IsScript};
ghost use Rattle.script_text.specs.Drills.{drill_of};
ghost use Rattle.script_text.specs.declared.command.Command.{Command};
ghost use Rattle.script_text.specs.declared.command.Command.TheVariants.{Batch, Finish, Recover, SwapinWith, Turn};
ghost use Rattle.script_text.specs.declared.reply.Reply.{Reply};
ghost use Rattle.script_text.specs.declared.reply.Reply.TheVariants.{In, More, Recovered, Served as ServedReply};
ghost use Rattle.script_text.specs.declared.reply.Served.{Served};
ghost use Rattle.cost_rule.specs.declared.rule.RuleNumber.{RuleNumber};
ghost use Rattle.lab_tasks.specs.Playing.{Playing};
ghost use Rattle.lab_judge.specs.Serving.{Serving};
ghost use Rattle.lab_core.specs.BatchList.{is_run_of, runs_in_turn};
ghost use Rattle.lab_core.specs.Commands.{LabStep, is_about};
ghost use Rattle.lab_core.specs.Lists.{DoesNext, Ground};
ghost use Rattle.lab_core.specs.PlayList.{events_in_turn};
ghost use Rattle.lab_core.specs.Moments.{AllStandFor, IsLabAt};
ghost use Rattle.lab_core.specs.Promises.{KeepsPromises};
ghost use Rattle.lab_core.specs.LabSteps.{done_reply};
ghost use Rattle.lab_core.specs.Sessions.{OpenSwap, After, Closed, Open, Session, Setting, Terms, open_at};
ghost use Rattle.lab_core.specs.Tells.{BeginsAt, IsFeasibleFor, busy_of, opens_of, taken_reply};
ghost use Rattle.lab_top.specs.declared.status.Status.{Status};
ghost use Rattle.lab_top.specs.declared.status.Status.TheVariants.{BadScript, Done, Memory, ReadFault, WriteFault};
ghost use Rattle.lab_top.specs.Pieces.{AllRestBut, AreOn, Begun, FirstLab, commands_of, is_closed, is_early, session_after, steps_of, trace_after};
ghost use Rattle.lab_top.specs.Ran.{AreAnswered, Outside, Ran, number_of};
ghost use Rattle.lab_words.specs.Words.{Choices};
ghost use Rattle.complete.specs.Booted.{GoesWell};
ghost use Rattle.complete.specs.Bounds.{commands_in, most_from, most_settled, nodes_in, pipes_in, rows_in};
ghost use Rattle.complete.specs.Complete.{AllGoesWell, AreStepsOf, IsComplete, IsUncut};
ghost use Rattle.complete.specs.Ends.{FailsOrShuts, MetTrouble, turns_of};
ghost use Rattle.complete.specs.Full.{full_if, settles_or_turns};
ghost use Rattle.complete.specs.OpenCourses.{IsCourse};
ghost use Rattle.complete.specs.Quiet.{IsUndisturbed, LacksRoom};
ghost use Rattle.complete.specs.Sends.{BeginsWithin, SendsWithin, SwapsWithin, TurnsOn, is_list};

use lab_core::promises;

/// Completeness, over every sound trace. Its premises: the words are accepted, the script is wholly in the grammar, neither end of the run failed,
/// and nothing goes wrong outside.
/// Then the run is done, or memory is wanting. Done, it has read the source to its end, answered each command and cut no course, and has written the
/// replies.
/// Where neither end of the run failed, a script with a bad line ends at that line, with all commands before it answered, or memory is wanting.
pub fn completeness()
    ensures done { (terms : Terms) (choices : Option Choices) (old new : Outside) (status : Status) (made : List Begun) (t : Told) (steps : List Event)
        → Ran terms choices old new status made → old.plant.told ≡ Some t → IsSound the_texts t.trace
        → AreStepsOf t new.plant.told steps → AllGoesWell choices old status steps
        → (status ≡ Memory) ⊎ ((status ≡ Done) × IsComplete choices old new t.trace made) }
    ensures bad { (terms : Terms) (choices : Option Choices) (old new : Outside) (status : Status) (made : List Begun) (t : Told) (bytes : List ℕ)
        (commands : List Command) (line : ℕ)
        → Ran terms choices old new status made → old.plant.told ≡ Some t → IsSound the_texts t.trace
        → is_some choices ≡ true → number_of choices ≡ None → old.left ≡ Some bytes → IsScript bytes commands (BadLine line)
        → (status ≡ ReadFault → ⊥) → (status ≡ WriteFault → ⊥)
        → (status ≡ Memory) ⊎ ((status ≡ BadScript line) × (commands_of made ≡ commands) × AreAnswered made) }
{}

/// The course of each open swap, at any moment of a run and over any trace, with trouble or without.
/// It is the experiment's own commands, all of them and no other, among the steps since its Begin became durable, or since its undo began.
pub fn courses()
    ensures { (terms : Terms) (choices : Option Choices) (old new : Outside) (status : Status) (before after : List Begun) (t : Told)
        (s : LabState) (o : OpenSwap)
        → Ran terms choices old new status (before ++ after) → old.plant.told ≡ Some t → IsLabAt (trace_after t.trace before) s
        → Has (opens_of (session_after Closed before)) o → IsCourse before s o.running }
{}

/// Only a failure of a device, or a node that doesn't come up, cuts a course. Where neither is among the steps, no course is cut.
pub fn cut_courses()
    ensures { (plan : Plan) (trouble : Trouble) (before course behind : List Event)
        → IsCut plan trouble course → GoesWell (before ++ (course ++ behind)) → ⊥ }
{}

/// A command that turns a swap or settles is never answered `full journal`: there is room for the records that end moves.
pub fn turns_have_room()
    ensures { (terms : Terms) (at : Option (List Event)) (set : Setting) (s : LabState) (session : Session) (command : Command)
        (opening own : List Event) (after : After)
        → settles_or_turns command ≡ true → LabStep terms at set s session command opening own after → full_if after.reply ≡ false }
{}

/// One command among whatever happened before it and after it, over every sound trace. Where nothing disturbs it, its reply tells of no course that was
/// cut, nor of a failure of the journal or a stop, and no course of its opening is cut.
/// After an opening in which nothing goes wrong no experiment moves, in every image that a later stop may leave, where its command is answered or did
/// something of its own. After a `recover` in which nothing goes wrong none is stuck, and only those with an open swap move.
/// So a command that failed harms no later one: a supplied solution in whose steps nothing goes wrong is taken exactly where it is feasible on the
/// free rest of the lab after the opening, unless there is no room for it.
pub fn quiet_commands()
    ensures whole { (terms : Terms) (choices : Option Choices) (old new : Outside) (status : Status) (before after : List Begun) (b : Begun) (t : Told)
        → Ran terms choices old new status (before ++ b ∷ after) → old.plant.told ≡ Some t → IsSound the_texts t.trace
        → IsUndisturbed b.piece → IsUncut (trace_after t.trace before) b.piece }
    ensures opened { (terms : Terms) (choices : Option Choices) (old new : Outside) (status : Status) (before after : List Begun) (b : Begun) (t : Told)
        → Ran terms choices old new status (before ++ b ∷ after) → old.plant.told ≡ Some t → IsSound the_texts t.trace
        → drill_of b.piece.command ≡ None → b.piece.from ≡ Closed → (is_some b.piece.reply ≡ true) ⊎ (b.piece.own ≡ [] → ⊥) → GoesWell b.piece.opening
        → AllRestBut [] (trace_after t.trace before ++ b.piece.opening) }
    ensures recovered { (terms : Terms) (choices : Option Choices) (old new : Outside) (status : Status) (before after : List Begun) (b : Begun) (t : Told)
        (number stuck : ℕ)
        → Ran terms choices old new status (before ++ b ∷ after) → old.plant.told ≡ Some t → IsSound the_texts t.trace
        → b.piece.command ≡ Recover → b.piece.reply ≡ Some (Recovered number stuck) → GoesWell (steps_of b.piece)
        → (stuck ≡ 0) × AllRestBut (busy_of b.piece.from) (trace_after t.trace (before ++ b ∷ [])) }
    ensures solutions { (terms : Terms) (choices : Option Choices) (old new : Outside) (status : Status) (before after : List Begun) (b : Begun) (t : Told)
        (only_begin : Bool) (exp text : List ℕ) (lines : ℕ) (reply : Reply)
        → Ran terms choices old new status (before ++ b ∷ after) → old.plant.told ≡ Some t → IsSound the_texts t.trace
        → b.piece.command ≡ SwapinWith only_begin exp lines text → b.piece.reply ≡ Some reply → GoesWell (steps_of b.piece)
        → (s : LabState) × FirstLab (is_early b.piece) (trace_after t.trace before) s × (mid : LabState) × BeginsAt b.piece.from s b.piece.opening mid
        × (reply ≡ taken_reply only_begin exp → IsFeasibleFor mid exp text)
        × (IsFeasibleFor mid exp text → (reply ≡ taken_reply only_begin exp) ⊎ LacksRoom reply) }
{}

/// How many device commands a command sends at most, over every sound trace, with trouble or without. Its opening sends no more than it takes to
/// settle all that move. One that begins a swap sends no more than that move and its undo have, by the rows that the two mappings want, their nodes,
/// and the pipes on these. One that turns an open swap, once or to its end, sends no more than that leg has left, with its undo. A turn that goes on
/// sends one of these. `recover` sends no more than it takes to settle all that move and have no open swap. No other command that is
/// no list sends any. A list sends no more than its swaps together, each of which is within the same.
pub fn few_commands()
    ensures opening { (terms : Terms) (choices : Option Choices) (old new : Outside) (status : Status) (before after : List Begun) (b : Begun) (t : Told)
        → Ran terms choices old new status (before ++ b ∷ after) → old.plant.told ≡ Some t → IsSound the_texts t.trace
        → (s : LabState) × FirstLab (is_early b.piece) (trace_after t.trace before) s
        × (commands_in b.piece.opening ≤ most_settled (lab_in s.lab) (swaps_of [] s.experiments)) }
    ensures own { (terms : Terms) (choices : Option Choices) (old new : Outside) (status : Status) (before after : List Begun) (b : Begun) (t : Told)
        → Ran terms choices old new status (before ++ b ∷ after) → old.plant.told ≡ Some t → IsSound the_texts t.trace
        → is_some b.piece.reply ≡ true → is_list b.piece.command ≡ false
        → (commands_in b.piece.own ≡ 0)
        ⊎ ((s : LabState) × FirstLab (is_early b.piece) (trace_after t.trace before) s × (mid : LabState) × BeginsAt b.piece.from s b.piece.opening mid
        × SendsWithin mid (opens_of b.piece.from) b.piece.command b.piece.own) }
    ensures turn { (terms : Terms) (choices : Option Choices) (old new : Outside) (status : Status) (before after : List Begun) (b : Begun) (t : Told)
        (exp : List ℕ) (to : List OpenSwap)
        → Ran terms choices old new status (before ++ b ∷ after) → old.plant.told ≡ Some t → IsSound the_texts t.trace
        → b.piece.command ≡ Turn exp → b.piece.reply ≡ Some (More exp) → b.piece.to ≡ Open to
        → (s : LabState) × FirstLab (is_early b.piece) (trace_after t.trace before) s × (mid : LabState) × BeginsAt b.piece.from s b.piece.opening mid
        × TurnsOn mid (opens_of b.piece.from) to exp b.piece.own }
    ensures lists { (terms : Terms) (choices : Option Choices) (old new : Outside) (status : Status) (before after : List Begun) (b : Begun) (t : Told)
        → Ran terms choices old new status (before ++ b ∷ after) → old.plant.told ≡ Some t → IsSound the_texts t.trace
        → is_some b.piece.reply ≡ true → is_list b.piece.command ≡ true
        → (most : ℕ) × SwapsWithin (is_about b.piece.command) b.piece.own most × (commands_in b.piece.own ≤ most) }
    ensures runs { (rule : RuleNumber) (moment : ℕ) (base : Ground) (trace : Option (List Event)) (front steps : List Event) (at : Serving) (s : LabState)
        (opens : List OpenSwap)
        (after : After)
        → DoesNext (runs_in_turn rule moment) base trace front at s opens steps after
        → (commands_in steps ≡ 0) ⊎ ((exp : List ℕ) × (is_run_of at.left exp ≡ true) × BeginsWithin s exp steps) }
    ensures events { (exp : List ℕ) (base : Ground) (trace : Option (List Event)) (front steps : List Event) (at : Playing) (s : LabState)
        (opens : List OpenSwap) (after : After)
        → DoesNext (events_in_turn exp) base trace front at s opens steps after → (commands_in steps ≡ 0) ⊎ BeginsWithin s exp steps }
    ensures swap_in { (lab : Lab) (name : List ℕ) (m : Mapped)
        → most_from lab (record { name = name; old = None; new = Some m }) Forth
        ≡ 2 * rows_in lab (Some m) + 67 * nodes_in lab (Some m) + pipes_in lab (Some m) }
    ensures swap_out { (lab : Lab) (name : List ℕ) (m : Mapped)
        → most_from lab (record { name = name; old = Some m; new = None }) Forth ≡ rows_in lab (Some m) + nodes_in lab (Some m) }
    ensures change { (lab : Lab) (name : List ℕ) (m n : Mapped)
        → most_from lab (record { name = name; old = Some m; new = Some n }) Forth
        ≡ 2 * (rows_in lab (Some m) + rows_in lab (Some n)) + 68 * nodes_in lab (Some m) + 67 * nodes_in lab (Some n)
        + (pipes_in lab (Some m) + pipes_in lab (Some n)) }
{}

/// How open swaps end, over any trace, with trouble or without, whatever other commands stand between.
/// Turning ends: while it is open, a swap is turned at most as often as its leg, with its undo, has device commands that were not sent before. So after
/// that many turns, the next one ends it. One `finish` does: after it the experiment has no open swap.
/// A swap on its way forth is answered as done by the command that ends it, unless a turn before it told trouble, or that command tells that it failed,
/// shuts the controller, or has no reply. So `open` with a solution that is feasible leads to `in E`, unless one of these comes between.
pub fn swaps_end()
    ensures few { (terms : Terms) (choices : Option Choices) (old new : Outside) (status : Status) (before middle after : List Begun) (t : Told)
        (s : LabState) (exp : List ℕ) (o : OpenSwap)
        → Ran terms choices old new status (before ++ (middle ++ after)) → old.plant.told ≡ Some t → IsLabAt (trace_after t.trace before) s
        → open_at exp (opens_of (session_after Closed before)) ≡ Some o → AreOn exp middle
        → commands_in o.running.course + turns_of exp middle ≤ most_from (lab_in s.lab) o.running.swap o.running.leg }
    ensures finished { (terms : Terms) (choices : Option Choices) (old new : Outside) (status : Status) (before after : List Begun) (b : Begun) (t : Told)
        (exp : List ℕ)
        → Ran terms choices old new status (before ++ b ∷ after) → old.plant.told ≡ Some t → b.piece.command ≡ Finish exp
        → open_at exp (opens_of b.piece.to) ≡ None }
    ensures forth { (terms : Terms) (choices : Option Choices) (old new : Outside) (status : Status) (before middle after : List Begun) (c : Begun)
        (t : Told) (exp : List ℕ) (o : OpenSwap)
        → Ran terms choices old new status (before ++ (middle ++ c ∷ after)) → old.plant.told ≡ Some t
        → open_at exp (opens_of (session_after Closed before)) ≡ Some o → o.running.leg ≡ Forth → AreOn exp middle
        → open_at exp (opens_of c.piece.to) ≡ None
        → (c.piece.reply ≡ Some (done_reply exp o.running.swap.new)) ⊎ (MetTrouble exp middle ⊎ FailsOrShuts exp c.piece.reply) }
    ensures solutions { (terms : Terms) (choices : Option Choices) (old new : Outside) (status : Status) (before middle after : List Begun) (b c : Begun)
        (t : Told) (exp text : List ℕ) (lines : ℕ)
        → Ran terms choices old new status (before ++ b ∷ (middle ++ c ∷ after)) → old.plant.told ≡ Some t
        → b.piece.command ≡ SwapinWith true exp lines text → b.piece.reply ≡ Some (More exp) → AreOn exp middle
        → open_at exp (opens_of c.piece.to) ≡ None
        → (c.piece.reply ≡ Some (In exp)) ⊎ (MetTrouble exp middle ⊎ FailsOrShuts exp c.piece.reply) }
{}

/// A batch that is served in a run, over every sound trace, and leaves the controller open: unless an experiment got stuck by it, all its promises fit
/// at each moment of each of its runs that are in, in every image that a later stop may leave.
pub fn batches()
    ensures { (terms : Terms) (choices : Option Choices) (old new : Outside) (status : Status) (before after : List Begun) (b : Begun) (t : Told)
        (moment lines : ℕ) (text : List ℕ) (served : Served)
        → Ran terms choices old new status (before ++ b ∷ after) → old.plant.told ≡ Some t → IsSound the_texts t.trace
        → b.piece.command ≡ Batch moment lines text → b.piece.reply ≡ Some (ServedReply served) → is_closed b.piece.to ≡ false
        → (u : LabState) × AllStandFor (trace_after t.trace (before ++ b ∷ [])) u × KeepsPromises moment text served u }
{
    promises();
}
