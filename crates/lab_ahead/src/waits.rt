// The first moment of a span at which needs don't fit.
ghost use Rattle.std.specs.Prelude.{◌≡◌, ◌<◌, ◌≤◌, ◌+◌, ◌^◌, ◌↔◌, List, None, length, map, All, IfOk, IfSome, if◌then◌else◌};
ghost use Rattle.lab_base.specs.Lists.{AllDiffer};
ghost use Rattle.phys_lab.specs.Labs.{Lab as AnyLab};
ghost use Rattle.phys_lab.specs.Keys.{has_name};
ghost use Rattle.lab_ahead.specs.declared.batch.Promise.{Promise as AnyPromise};
ghost use Rattle.lab_ahead.specs.declared.times.Left.{Left as AnyLeft};
ghost use Rattle.lab_ahead.specs.declared.waits.Span.{Span as AnySpan};
ghost use Rattle.lab_ahead.specs.declared.waits.Wait.{Wait as AnyWait};
ghost use Rattle.lab_ahead.specs.Givings.{IsShort, has_one, have_of, need_of};
ghost use Rattle.lab_ahead.specs.Moments.{FitsAt, FitsFor};
ghost use Rattle.lab_ahead.specs.Served.{KnowsTypes};
ghost use Rattle.lab_ahead.specs.Waits.{IsShortAt, TellsShort};

use crate::batch::Promise;
use crate::fitting::{Fit, Need, fits_by};
use crate::giving::has_type;
use crate::read::MAX_PROMISES;
use crate::served::Served;
use crate::times::{Left, left_at, moments, needs_at};
use lab_base::{Items, Memory, Name, NodeId};
use phys_lab::Lab;
use std::alloc::Global;

/// From `from` up to and without `from + length`.
#[derive(Clone, Copy, PartialEq, Eq)]
pub struct Span {
    pub from: u64,
    pub length: u64,
}

/// A moment at which needs don't fit, and types that show it: together `need` nodes of them are needed then, and `have`
/// are left.
#[derive(Drop)]
pub struct Wait {
    pub at: u64,
    pub need: u32,
    pub have: u32,
    pub kinds: Items<Name>,
}

fn has_name(kinds: &[Name], name: &Name) -> bool
    ensures { result ≡ has_name kinds.now name.now }
{
    kinds.iter().any(|kind| *name == *kind)
}

/// How many nodes a need counts, where its type is one of these.
fn count_of(need: &Need, kinds: &[Name]) -> u32
    ensures is { result ≡ (if has_name kinds.now need.now.kind then need.now.count else 0) }
    ensures small { result ≤ u16.MAX }
{
    if has_name(kinds, &need.kind) {
        u32::from(need.count)
    } else {
        0
    }
}

/// How many nodes are needed of these types together.
fn need_of(needs: &[Need], kinds: &[Name]) -> u32
    requires { length needs.now ≤ MAX_PROMISES }
    ensures { result ≡ need_of needs.now kinds.now }
{
    let mut sum = 0;
    for need in needs {
        sum += count_of(need, kinds);
    }
    sum
}

fn has_one(lab: &Lab, kinds: &[Name], node: NodeId) -> bool
    requires { node.0 < length lab.now.nodes }
    ensures { result ≡ has_one lab.now kinds.now node }
{
    for kind in kinds {
        if has_type(lab, kind, node) {
            return true;
        }
    }
    false
}

/// How many of the nodes have one of these types.
fn have_of(lab: &Lab, left: &[NodeId], kinds: &[Name]) -> usize
    requires { All (λ node. node.0 < length lab.now.nodes) left.now }
    ensures { result ≡ have_of lab.now left.now kinds.now }
{
    let mut count = 0;
    for node in left {
        if has_one(lab, kinds, *node) {
            count += 1;
        }
    }
    count
}

/// The wait at a moment at which these types are short.
fn wait_for(lab: &Lab, nodes: &[NodeId], needs: &[Need], kinds: Items<Name>, at: u64) -> Wait
    requires of_lab { All (λ node. node.0 < length lab.now.nodes) nodes.now }
    requires few { length needs.now ≤ MAX_PROMISES }
    requires short { IsShort lab.now nodes.now needs.now kinds }
    ensures at { result.at ≡ at }
    ensures kinds { result.kinds ≡ kinds }
    ensures need { result.need ≡ need_of needs.now kinds }
    ensures have { result.have ≡ have_of lab.now nodes.now kinds }
{
    let need = need_of(needs, kinds.as_slice());
    let count = have_of(lab, nodes, kinds.as_slice());
    let have = count as u32;
    Wait {
        at,
        need,
        have,
        kinds,
    }
}

/// Tests one moment.
fn wait_at(
    alloc: Global,
    served: &Served<'_>,
    left: &[Left],
    at: u64,
) -> Result<Option<Wait>, Memory>
    requires differ { AllDiffer (map (λ entry. entry.node) left.now) }
    requires of_lab { All (λ entry. entry.node.0 < length served.now.lab.now.nodes) left.now }
    requires few { length served.now.promises.now ≤ MAX_PROMISES }
    requires served { KnowsTypes served.now }
    ensures fits { IfOk result (λ wait. (wait ≡ None) ↔ FitsAt served.now.lab.now left.now served.now.promises.now at) }
    ensures waits { IfOk result (λ wait. IfSome wait (λ w. (w.at ≡ at) × TellsShort served.now.lab.now left.now served.now.promises.now w)) }
{
    let nodes = left_at(alloc, left, at)?;
    let needs = needs_at(alloc, served.promises, at)?;
    let table = served.rows_at(alloc, at, nodes.as_slice())?;
    match fits_by(alloc, table, nodes.as_slice(), needs.as_slice())? {
        Fit::Yes(_given) => Ok(None),
        Fit::No(kinds) => {
            let wait = wait_for(served.lab, nodes.as_slice(), needs.as_slice(), kinds, at);
            Ok(Some(wait))
        }
    }
}

/// Tests whether the needs fit at every moment of a span, from what is left from when on. Where they don't, the first moment
/// at which they don't, with types that show it; which such types it tells isn't fixed.
pub fn first_wait(
    alloc: Global,
    lab: &Lab,
    left: &[Left],
    promises: &[Promise],
    span: Span,
) -> Result<Option<Wait>, Memory>
    requires differ { AllDiffer (map (λ entry. entry.node) left.now) }
    requires of_lab { All (λ entry. entry.node.0 < length lab.now.nodes) left.now }
    requires few { length promises.now ≤ MAX_PROMISES }
    requires end { span.from + span.length < 2 ^ 64 }
    ensures fits { IfOk result (λ wait. (wait ≡ None) ↔ FitsFor lab.now left.now promises.now span.from span.length) }
    ensures waits { IfOk result (λ wait. IfSome wait (IsShortAt lab.now left.now promises.now span)) }
{
    let served = Served::new(alloc, lab, promises)?;
    let tested = moments(alloc, promises, span.from, span.length)?;
    for at in tested.as_slice() {
        if let Some(wait) = wait_at(alloc, &served, left, *at)? {
            return Ok(Some(wait));
        }
    }
    Ok(None)
}

/// Laws of waits. Two waits of one span are at one moment. There more nodes are needed than are left, and the needs don't fit.
pub fn waits_tell()
    ensures one { (lab : AnyLab) (left : List AnyLeft) (promises : List AnyPromise) (span : AnySpan) (w v : AnyWait)
        → IsShortAt lab left promises span w → IsShortAt lab left promises span v → w.at ≡ v.at }
    ensures above { (lab : AnyLab) (left : List AnyLeft) (promises : List AnyPromise) (w : AnyWait) → TellsShort lab left promises w → w.have < w.need }
    ensures never { (lab : AnyLab) (left : List AnyLeft) (promises : List AnyPromise) (w : AnyWait)
        → TellsShort lab left promises w → ¬ FitsAt lab left promises w.at }
{}
