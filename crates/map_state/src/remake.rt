// Changes of ends made, and taken back.
ghost use Rattle.std.specs.Prelude.{◌≡◌, ◌<◌, ◌+◌, ◌∷◌, ◌++◌, true, [], None, length, slice_set, All, OnOk, IfSome};
ghost use Rattle.virt_topo.specs.Ends.{end_nodes};
ghost use Rattle.virt_topo.specs.Soundness.{keeps_limits};
ghost use Rattle.trunk_sums.specs.Between.{IsTable};
ghost use Rattle.trunk_sums.specs.Summed.{IsSummed};
ghost use Rattle.trunk_sums.specs.Remade.{remade, AreChanges};
ghost use Rattle.map_state.specs.Reverted.{reverted};

use lab_base::{IfaceId, Memory};
use phys_lab::Lab;
use trunk_sums::{Change, Crossings, Sums};
use virt_topo::Wiring;

/// Makes a change, in the sums too where they don't rest.
fn replug(
    lab: &Lab,
    wiring: &Wiring,
    crossings: &Crossings,
    sums: &mut Option<Sums>,
    plugs: &mut Vec<IfaceId>,
    change: Change,
)
    requires limits { keeps_limits wiring.now ≡ true }
    requires plugged { length plugs.old.items ≡ length (end_nodes wiring.now.segments) }
    requires in_lab { All (λ i. i.0 < length lab.now.ifaces) plugs.old.items }
    requires table { IsTable lab.now crossings.now }
    requires changes { AreChanges lab.now wiring.now (change ∷ []) }
    requires summed { IfSome sums.old (IsSummed lab.now wiring.now plugs.old.items) }
    ensures plugs { plugs.new.items ≡ slice_set plugs.old.items change.end change.to }
    ensures summed { IfSome sums.new (IsSummed lab.now wiring.now plugs.new.items) }
    ensures rest { sums.new ≡ None → sums.old ≡ None }
{
    match sums {
        Some(sums) => sums.make(lab, wiring, crossings, plugs, &[change]),
        None => plugs[change.end as usize] = change.to,
    }
}

/// Makes changes, one after another.
pub(crate) fn adopt(
    lab: &Lab,
    wiring: &Wiring,
    crossings: &Crossings,
    sums: &mut Option<Sums>,
    plugs: &mut Vec<IfaceId>,
    changes: &[Change],
)
    requires limits { keeps_limits wiring.now ≡ true }
    requires plugged { length plugs.old.items ≡ length (end_nodes wiring.now.segments) }
    requires in_lab { All (λ i. i.0 < length lab.now.ifaces) plugs.old.items }
    requires table { IsTable lab.now crossings.now }
    requires changes { AreChanges lab.now wiring.now changes.now }
    requires summed { IfSome sums.old (IsSummed lab.now wiring.now plugs.old.items) }
    ensures plugs { plugs.new.items ≡ remade plugs.old.items changes.now }
    ensures summed { IfSome sums.new (IsSummed lab.now wiring.now plugs.new.items) }
    ensures rest { sums.new ≡ None → sums.old ≡ None }
{
    for change in changes {
        replug(lab, wiring, crossings, sums, plugs, *change);
    }
}

/// Notes what takes a change back: its end goes to the interface that it had.
fn note_back(back: &mut Vec<Change>, change: &Change, plug: IfaceId) -> Result<(), Memory>
    ensures { OnOk result (back.new.items ≡ back.old.items ++ record { end = change.now.end; row = change.now.row; to = plug } ∷ []) }
{
    let last = back.len();
    // copied whole: a copy that is put together from its parts waits until they are stored
    back.push(*change)?;
    back[last].to = plug;
    Ok(())
}

/// Makes changes, one after another, and notes what takes them back.
pub(crate) fn remake(
    lab: &Lab,
    wiring: &Wiring,
    crossings: &Crossings,
    sums: &mut Option<Sums>,
    plugs: &mut Vec<IfaceId>,
    changes: &[Change],
    back: &mut Vec<Change>,
) -> Result<(), Memory>
    requires limits { keeps_limits wiring.now ≡ true }
    requires plugged { length plugs.old.items ≡ length (end_nodes wiring.now.segments) }
    requires in_lab { All (λ i. i.0 < length lab.now.ifaces) plugs.old.items }
    requires table { IsTable lab.now crossings.now }
    requires changes { AreChanges lab.now wiring.now changes.now }
    requires summed { IfSome sums.old (IsSummed lab.now wiring.now plugs.old.items) }
    requires none { back.old.items ≡ [] }
    ensures plugs { OnOk result (plugs.new.items ≡ remade plugs.old.items changes.now) }
    ensures summed { OnOk result (IfSome sums.new (IsSummed lab.now wiring.now plugs.new.items)) }
    ensures rest { OnOk result (sums.new ≡ None → sums.old ≡ None) }
    ensures plugged { OnOk result (length plugs.new.items ≡ length plugs.old.items) }
    ensures in_lab { OnOk result (All (λ i. i.0 < length lab.now.ifaces) plugs.new.items) }
    ensures back { OnOk result (reverted plugs.new.items back.new.items ≡ plugs.old.items) }
    ensures backward { OnOk result (AreChanges lab.now wiring.now back.new.items) }
{
    for change in changes {
        note_back(back, change, plugs[change.end as usize])?;
        replug(lab, wiring, crossings, sums, plugs, *change);
    }
    Ok(())
}

/// Takes the last change back.
fn revert_last(
    lab: &Lab,
    wiring: &Wiring,
    crossings: &Crossings,
    sums: &mut Option<Sums>,
    plugs: &mut Vec<IfaceId>,
    back: &mut Vec<Change>,
)
    requires limits { keeps_limits wiring.now ≡ true }
    requires plugged { length plugs.old.items ≡ length (end_nodes wiring.now.segments) }
    requires in_lab { All (λ i. i.0 < length lab.now.ifaces) plugs.old.items }
    requires table { IsTable lab.now crossings.now }
    requires backward { AreChanges lab.now wiring.now back.old.items }
    requires summed { IfSome sums.old (IsSummed lab.now wiring.now plugs.old.items) }
    requires some { 0 < length back.old.items }
    ensures plugs { reverted plugs.new.items back.new.items ≡ reverted plugs.old.items back.old.items }
    ensures plugged { length plugs.new.items ≡ length plugs.old.items }
    ensures in_lab { All (λ i. i.0 < length lab.now.ifaces) plugs.new.items }
    ensures backward { AreChanges lab.now wiring.now back.new.items }
    ensures summed { IfSome sums.new (IsSummed lab.now wiring.now plugs.new.items) }
    ensures rest { sums.new ≡ None → sums.old ≡ None }
    ensures fewer { length back.new.items + 1 ≡ length back.old.items }
{
    let Some(change) = back.pop() else {
        return;
    };
    replug(lab, wiring, crossings, sums, plugs, change);
}

/// Takes changes back, the last one first.
pub(crate) fn revert(
    lab: &Lab,
    wiring: &Wiring,
    crossings: &Crossings,
    sums: &mut Option<Sums>,
    plugs: &mut Vec<IfaceId>,
    back: &mut Vec<Change>,
)
    requires limits { keeps_limits wiring.now ≡ true }
    requires plugged { length plugs.old.items ≡ length (end_nodes wiring.now.segments) }
    requires in_lab { All (λ i. i.0 < length lab.now.ifaces) plugs.old.items }
    requires table { IsTable lab.now crossings.now }
    requires backward { AreChanges lab.now wiring.now back.old.items }
    requires summed { IfSome sums.old (IsSummed lab.now wiring.now plugs.old.items) }
    ensures plugs { plugs.new.items ≡ reverted plugs.old.items back.old.items }
    ensures plugged { length plugs.new.items ≡ length plugs.old.items }
    ensures in_lab { All (λ i. i.0 < length lab.now.ifaces) plugs.new.items }
    ensures summed { IfSome sums.new (IsSummed lab.now wiring.now plugs.new.items) }
    ensures rest { sums.new ≡ None → sums.old ≡ None }
    ensures none { back.new.items ≡ [] }
{
    for _number in 0..back.len() {
        revert_last(lab, wiring, crossings, sums, plugs, back);
    }
}
