// The moments of a run.
ghost use Rattle.std.specs.Prelude.{◌≡◌, ◌<◌, ◌≤◌, ◌+◌, ◌^◌, ◌↔◌, ℕ, List, IfOk, OnOk, ◌++◌};
ghost use Rattle.std.specs.Ordering.{nat_cmp};
ghost use Rattle.std.specs.List.Sorted.{IsStrictlySortedBy};
ghost use Rattle.lab_base.specs.Lists.{Has};
ghost use Rattle.phys_lab.specs.Labs.{Lab};
ghost use Rattle.lab_ahead.specs.declared.batch.Promise.{Promise};
ghost use Rattle.lab_ahead.specs.declared.times.Left.{Left};
ghost use Rattle.lab_ahead.specs.Moments.{FitsAt, FitsFor, IsTested, first_moment, holds_at, left_at, needs_at, starts_within};

use crate::batch::Promise;
use crate::fitting::Need;
use lab_base::{Items, Memory, NodeId};
use std::alloc::Global;

/// A node, and the moment from which on it is left.
#[derive(Clone, Copy, PartialEq, Eq)]
pub struct Left {
    pub node: NodeId,
    pub from: u64,
}

pub(crate) fn holds_at(promise: &Promise, at: u64) -> bool
    ensures { result ≡ holds_at at promise.now }
{
    promise.from <= at && at < promise.to
}

/// The needs at a moment: the promises that have begun and not ended, in their order.
pub fn needs_at(alloc: Global, promises: &[Promise], at: u64) -> Result<Items<Need>, Memory>
    ensures { IfOk result (λ needs. needs ≡ needs_at promises.now at) }
{
    let mut needs = Items::new(alloc);
    for promise in promises {
        if holds_at(promise, at) {
            needs.push(Need {
                kind: promise.kind,
                count: promise.count,
            })?;
        }
    }
    Ok(needs)
}

/// The nodes that are left at a moment, in their order.
pub fn left_at(alloc: Global, left: &[Left], at: u64) -> Result<Items<NodeId>, Memory>
    ensures { IfOk result (λ nodes. nodes ≡ left_at left.now at) }
{
    let mut nodes = Items::new(alloc);
    for entry in left {
        if entry.from <= at {
            nodes.push(entry.node)?;
        }
    }
    Ok(nodes)
}

/// The first moment of a run, if the run has a length.
fn first_moment(alloc: Global, now: u64, length: u64) -> Result<Vec<u64>, Memory>
    ensures { IfOk result (λ moments. moments.items ≡ first_moment now length) }
{
    let mut moments = Vec::new(alloc);
    if 0 < length {
        moments.push(now)?;
    }
    Ok(moments)
}

/// Adds the starts of promises from `now` up to and without `end`.
fn push_starts(
    moments: &mut Vec<u64>,
    promises: &[Promise],
    now: u64,
    end: u64,
) -> Result<(), Memory>
    ensures { OnOk result (moments.new.items ≡ moments.old.items ++ starts_within now end promises.now) }
{
    for promise in promises {
        if now <= promise.from && promise.from < end {
            moments.push(promise.from)?;
        }
    }
    Ok(())
}

/// The moments at which to test whether the needs fit, for a run from `now` up to and without `now + length`.
/// They are its first moment, and the starts of promises in it. No moment between them has to be tested.
pub fn moments(
    alloc: Global,
    promises: &[Promise],
    now: u64,
    length: u64,
) -> Result<Items<u64>, Memory>
    requires { now + length < 2 ^ 64 }
    ensures rising { IfOk result (IsStrictlySortedBy nat_cmp) }
    ensures exact { IfOk result (λ moments. (t : ℕ) → Has moments t ↔ ((t < now + length) × IsTested promises.now now t)) }
    ensures enough { IfOk result (λ moments. (lab : Lab) (left : List Left) → ((t : ℕ) → Has moments t → FitsAt lab left promises.now t)
        → FitsFor lab left promises.now now length) }
{
    let mut moments = first_moment(alloc, now, length)?;
    push_starts(&mut moments, promises, now, now + length)?;
    moments.sort()?;
    moments.dedup();
    Ok(Items::from_vec(moments))
}

/// For each moment of a run, a tested one is equal or earlier. Where the needs fit then, they fit at the later one too.
/// Between them promises only end, and nodes only come to be left. So the first moment without a fit is a tested one.
pub fn later_moments()
    ensures { (lab : Lab) (left : List Left) (promises : List Promise) (now t : ℕ) → now ≤ t
        → (s : ℕ) × (s ≤ t) × IsTested promises now s × (FitsAt lab left promises s → FitsAt lab left promises t) }
{}
