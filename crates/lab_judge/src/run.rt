// The judgement of a run of a batch.
ghost use Rattle.std.specs.Prelude.{ℕ, List, ◌≡◌, ◌<◌, ◌≤◌, ◌↔◌, None, Some, IfOk, IfSome, length, map};
ghost use Rattle.std.specs.List.{range_with_len};
ghost use Rattle.lab_base.specs.Lists.{listed};
ghost use Rattle.claims.specs.Held.{claim_nodes, owner_of};
ghost use Rattle.journal_rec.specs.Payloads.{IsRecord};
ghost use Rattle.journal_rec.specs.declared.record.Record.TheVariants as records;
ghost use Rattle.journal_rec.specs.declared.record.Way.{Way as AnyWay};
ghost use Rattle.lab_ahead.specs.Batches.{KeepsLimits};
ghost use Rattle.lab_ahead.specs.Moments.{FitsFor};
ghost use Rattle.lab_ahead.specs.Waits.{IsShortAt};
ghost use Rattle.records_model.specs.Labs.{LabState as AnyLabState};
ghost use Rattle.script_text.specs.declared.reply.Reply.TheVariants as replies;
ghost use Rattle.virt_topo.specs.Soundness.{IsSound};
ghost use Rattle.lab_tasks.specs.declared.task.Task.TheVariants as tasks;
ghost use Rattle.lab_tasks.specs.OpenNames.{has_open};
ghost use Rattle.lab_tasks.specs.JudgeSwap.{IsOutIn, Keeps};
ghost use Rattle.lab_tasks.specs.Mappings.{task_in};
ghost use Rattle.lab_judge.specs.JudgeRun.{CanServe, IsJudgedBatch, IsSwapTask, held_back, left_beside, space_in};
ghost use Rattle.lab_judge.specs.Serving.{IsTestedAs, JudgedPlace, JudgedRunAt, JudgedTest, claimers_of, span_of, wait_of as wait_reply};
ghost use Rattle.lab_tasks.specs.Tasks.{IsBegin, CanDo, IsJudged, IsRefusedBy, task_of};

use crate::search::{need_mapping, search};
use crate::space::Space;
use claims::{Claims, owners};
use cost_rule::StepRule;
use journal_rec::{Record, encode};
use lab_ahead::{Batch, End, Promise, Run, Span, Wait, first_wait, left_for, read_batch};
use lab_base::{Items, Memory, Name, NodeId, TEXT_LIMIT, TextRefused};
use lab_state::LabState;
use lab_tasks::{Case, NewSwap, Present, Refusal, Task, in_slot, need_idle_out, need_lab, swap_to};
use phys_lab::{Lab, MAX_LAB_NODES};
use script_text::Reply;
use std::alloc::Global;
use swap_plan::Ops;
use virt_topo::Mapping;

/// A batch in hand: its moment and promises, and the experiments that it swapped in, each with the end of its run.
#[derive(Drop)]
pub struct Queue {
    pub moment: u64,
    pub promises: Items<Promise>,
    pub ends: Items<End>,
}

fn bad_batch(refused: TextRefused) -> Refusal
    ensures { IsRefusedBy replies.BadBatch refused result }
{
    match refused {
        TextRefused::Text(fault) => Refusal::Refused(Reply::BadBatch { fault }),
        TextRefused::Memory => Refusal::Memory,
    }
}

/// Judges a batch by its text.
pub fn judge_batch(alloc: Global, state: &LabState, text: &[u8]) -> Result<Batch, Refusal>
    requires { length text.now < TEXT_LIMIT }
    ensures judged { IsJudgedBatch state.now.state text.now result }
    ensures limits { IfOk result KeepsLimits }
{
    let _lab = need_lab(state)?;
    match read_batch(alloc, text) {
        Ok(batch) => Ok(batch),
        Err(refused) => Err(bad_batch(refused)),
    }
}

/// The one experiment, or none.
fn at_most_one(alloc: Global, exp: Option<Name>) -> Result<Items<Name>, Memory>
    ensures { IfOk result (λ names. names ≡ listed exp) }
{
    let mut names = Items::new(alloc);
    match exp {
        Some(exp) => {
            names.push(exp)?;
            Ok(names)
        }
        None => Ok(names),
    }
}

/// The experiments that claim a node: its owner alone, if it has one.
fn claimers_at(alloc: Global, claims: &Claims, node: NodeId) -> Result<Items<Name>, Memory>
    requires { node.0 < claims.now.nodes }
    ensures { IfOk result (λ names. names ≡ listed (owner_of claim_nodes claims.now.entries node.0)) }
{
    at_most_one(alloc, claims.owner_of(node))
}

/// By node of a lab of so many its owner, if it has one.
fn owners_of(alloc: Global, claims: &Claims, nodes: usize) -> Result<Items<Items<Name>>, Memory>
    requires few { nodes ≤ MAX_LAB_NODES }
    requires of_lab { nodes ≤ claims.now.nodes }
    ensures { IfOk result (λ by_node. by_node ≡ map (λ n. listed (owner_of claim_nodes claims.now.entries n)) (range_with_len 0 nodes)) }
{
    let mut by_node = Items::new(alloc);
    for node in 0..nodes {
        let names = claimers_at(alloc, claims, NodeId(node as u16))?;
        by_node.push(names)?;
    }
    Ok(by_node)
}

/// By node of the lab the experiments that claim it.
fn claimers_of(alloc: Global, state: &LabState, lab: &Lab) -> Result<Items<Items<Name>>, Memory>
    requires { state.now.state.lab ≡ Some lab.now }
    ensures { IfOk result (λ by_node. by_node ≡ claimers_of (length lab.now.nodes) state.now.state.experiments) }
{
    // for the prover: they tell what every lab keeps, and that a node's owner alone claims it
    let _kept = state.lab();
    owners();
    match state.claims() {
        Some(claims) => owners_of(alloc, claims, lab.nodes().len()),
        None => unreachable!(),
    }
}

/// Tests a run in that mapping: its wait at the first moment of its span at which the promises don't fit, if there is one.
fn wait_of(
    alloc: Global,
    state: &LabState,
    lab: &Lab,
    mapping: &Mapping,
    queue: &Queue,
    run: &Run,
) -> Result<Option<Wait>, Memory>
    requires lab { state.now.state.lab ≡ Some lab.now }
    requires serves { CanServe queue.now run.now }
    ensures fits { IfOk result (λ wait. (wait ≡ None)
        ↔ FitsFor lab.now (left_beside lab.now state.now.state queue.now mapping.now) queue.now.promises queue.now.moment run.now.length) }
    ensures waits { IfOk result (λ wait. IfSome wait
        (IsShortAt lab.now (left_beside lab.now state.now.state queue.now mapping.now) queue.now.promises (span_of queue.now.moment run.now))) }
{
    // for the prover: it tells what every lab keeps
    let _kept = lab.range();
    let claimers = claimers_of(alloc, state, lab)?;
    let places = mapping.places.as_slice();
    let left = left_for(alloc, claimers.as_slice(), queue.ends.as_slice(), places)?;
    let span = Span {
        from: queue.moment,
        length: run.length,
    };
    first_wait(alloc, lab, left.as_slice(), queue.promises.as_slice(), span)
}

/// Whether the journal has space for a record.
fn has_space_for(alloc: Global, space: Space, entry: &Record) -> Result<bool, Memory>
    requires { IsRecord entry.now }
    ensures { IfOk result (λ has. has ≡ space_in space entry.now) }
{
    let encoded = encode(alloc, entry)?;
    Ok(space.has(encoded.size()))
}

/// The swap of a record Begin.
fn swap_of(begin: Record, ops: Ops) -> Task
    requires { IsBegin begin }
    ensures { (exp : List ℕ) (way : AnyWay) → begin ≡ records.Begin exp way → result ≡ tasks.Swap (record { exp = exp; way = way; ops = ops }) }
{
    let Record::Begin { exp, way } = begin else {
        unreachable!()
    };
    Task::Swap(NewSwap { exp, way, ops })
}

fn waiting(exp: Name, wait: Wait) -> Reply
    ensures { result ≡ wait_reply exp wait }
{
    let Wait {
        at,
        need,
        have,
        kinds,
    } = wait;
    Reply::Wait {
        exp,
        at,
        need,
        have,
        kinds,
    }
}

/// The reply `wait E ..`, unless the journal is full: then the swap's own refusal comes first.
fn hold_back(alloc: Global, space: Space, task: Task, wait: Wait) -> Result<Task, Memory>
    requires { IsSwapTask task }
    ensures task { IfOk result (λ held. task_of held ≡ held_back (λ entry. space_in space entry) task (Some wait)) }
    ensures can { (s : AnyLabState) → CanDo s task → IfOk result (CanDo s) }
{
    let Task::Swap(swap) = task else {
        unreachable!()
    };
    let NewSwap { exp, way, ops } = swap;
    let begin = Record::Begin { exp, way };
    let has_space = match has_space_for(alloc, space, &begin) {
        Ok(has_space) => has_space,
        Err(memory) => {
            drop(begin);
            drop(ops);
            drop(wait);
            return Err(memory);
        }
    };
    if has_space {
        drop(begin);
        drop(ops);
        return Ok(Task::Tell(waiting(exp, wait)));
    }
    drop(wait);
    Ok(swap_of(begin, ops))
}

/// The task of a swap, or the reply that it has to wait.
fn held_back(alloc: Global, space: Space, task: Task, wait: Option<Wait>) -> Result<Task, Memory>
    requires { IsSwapTask task }
    ensures task { IfOk result (λ held. task_of held ≡ held_back (λ entry. space_in space entry) task wait) }
    ensures can { (s : AnyLabState) → CanDo s task → IfOk result (CanDo s) }
{
    match wait {
        Some(wait) => hold_back(alloc, space, task, wait),
        None => Ok(task),
    }
}

/// Judges the swap of a run to the mapping that a search finds: it is tested.
fn judge_place(
    alloc: Global,
    case: &Case,
    mapping: &Mapping,
    space: Space,
    queue: &Queue,
    run: &Run,
) -> Result<Task, Refusal>
    requires out { IsOutIn case.now.state.now.state case.now.lab.now case.now.experiment.now }
    requires keeps { Keeps case.now.state.now.state case.now.lab.now case.now.experiment.now case.now.experiment.now.wiring mapping.now }
    requires serves { CanServe queue.now run.now }
    ensures judged { IsJudged (IsTestedAs (λ entry. space_in space entry) case.now.lab.now
        (left_beside case.now.lab.now case.now.state.now.state queue.now mapping.now)
        queue.now.promises (span_of queue.now.moment run.now)
        (task_in case.now.state.now.state case.now.lab.now case.now.experiment.now mapping.now)) result }
    ensures can { IfOk result (CanDo case.now.state.now.state) }
{
    let task = swap_to(alloc, case, mapping)?;
    let wait = match wait_of(alloc, case.state, case.lab, mapping, queue, run) {
        Ok(wait) => wait,
        Err(memory) => {
            drop(task);
            return Err(Refusal::from(memory));
        }
    };
    let task = held_back(alloc, space, task, wait)?;
    Ok(task)
}

/// Judges a run of an experiment that is out: what a search finds is tested.
fn judge_found(
    alloc: Global,
    case: &Case,
    space: Space,
    queue: &Queue,
    run: &Run,
    rule: &StepRule,
) -> Result<Task, Refusal>
    requires out { IsOutIn case.now.state.now.state case.now.lab.now case.now.experiment.now }
    requires sound { IsSound case.now.experiment.now.wiring }
    requires serves { CanServe queue.now run.now }
    ensures judged { IsJudged (JudgedPlace rule.now.number queue.now.moment queue.now.promises queue.now.ends run.now
        (λ entry. space_in space entry) case.now.state.now.state case.now.lab.now case.now.experiment.now) result }
    ensures can { IfOk result (CanDo case.now.state.now.state) }
{
    let found = search(alloc, case, &case.experiment.wiring, rule, run.seed)?;
    let mapping = need_mapping(case.experiment.name, found)?;
    judge_place(alloc, case, &mapping, space, queue, run)
}

/// Judges a run before its room among the open swaps is asked for.
fn judge_test(
    alloc: Global,
    present: &Present,
    space: Space,
    queue: &Queue,
    run: &Run,
    rule: &StepRule,
) -> Result<Task, Refusal>
    requires { CanServe queue.now run.now }
    ensures judged { IsJudged (JudgedTest rule.now.number queue.now.moment queue.now.promises queue.now.ends run.now
        (λ entry. space_in space entry) present.now.state.now.state (has_open present.now.swaps.now run.now.exp)) result }
    ensures can { IfOk result (CanDo present.now.state.now.state) }
{
    let (lab, experiment) = need_idle_out(present, run.exp)?;
    let case = Case {
        state: present.state,
        lab,
        experiment,
    };
    judge_found(alloc, &case, space, queue, run, rule)
}

/// Judges a run of a batch.
pub fn judge_run(
    alloc: Global,
    present: &Present,
    space: Space,
    queue: &Queue,
    run: &Run,
    rule: &StepRule,
) -> Result<Task, Refusal>
    requires { CanServe queue.now run.now }
    ensures judged { IsJudged (JudgedRunAt rule.now.number queue.now.moment queue.now.promises queue.now.ends run.now
        (λ entry. space_in space entry) present.now.state.now.state (has_open present.now.swaps.now run.now.exp) (length present.now.swaps.now)) result }
    ensures can { IfOk result (CanDo present.now.state.now.state) }
{
    let judged = judge_test(alloc, present, space, queue, run, rule);
    in_slot(present.swaps, false, judged)
}
