// The trunks that part switches, by pair of switches.
ghost use Rattle.std.specs.Prelude.{◌≡◌, ◌<◌, ◌+◌, ◌*◌, ◌++◌, ℕ, [], length, map, IfOk, OnOk, slice_index_or};
ghost use Rattle.trunk_sums.specs.Between.{AreBetween, AreSides, IsTable, crossing_of, no_iface};
ghost use Rattle.trunk_sums.specs.Crossed.{AreCrossed};

use crate::crossing::Crossing;
use crate::gains::with_bit;
use lab_base::{IfaceId, Items, Memory, SwitchId, TrunkId};
use phys_lab::{Lab, MAX_SWITCHES};
use std::alloc::Global;

fn push_crossing(
    listed: &mut Items<Crossing>,
    trunk: u16,
    from: bool,
    to: bool,
) -> Result<(), Memory>
    ensures { OnOk result (listed.new ≡ listed.old ++ crossing_of from to trunk) }
{
    if from != to {
        listed.push(Crossing { trunk, onto: to })?;
    }
    Ok(())
}

/// The trunks that part two switches.
fn between(
    alloc: Global,
    lab: &Lab,
    from: SwitchId,
    to: SwitchId,
) -> Result<Items<Crossing>, Memory>
    requires from { from.0 < length lab.now.switches }
    requires to { to.0 < length lab.now.switches }
    ensures { IfOk result (λ cs. AreBetween lab.now from.0 to.0 (length lab.now.trunks) cs) }
{
    // for the prover: it tells what every lab keeps
    let _kept = lab.range();
    let mut listed = Items::new(alloc);
    for number in 0..lab.trunks().len() {
        let trunk = number as u16;
        let left = lab.side(TrunkId(trunk), from);
        let taken = lab.side(TrunkId(trunk), to);
        push_crossing(&mut listed, trunk, left, taken)?;
    }
    Ok(listed)
}

/// By pair of switches, the trunks between them. The pair a and b is at `MAX_SWITCHES * a + b`.
#[derive(Drop)]
pub struct Crossings {
    lists: Vec<Items<Crossing>>,
    /// By interface its switch.
    switches: Vec<SwitchId>,
    /// By switch the trunks on whose first side it is, a bit each.
    sides: Vec<u64>,
}

/// Adds the trunks between the switches of two numbers, where both numbers name one.
fn push_pair(
    alloc: Global,
    lists: &mut Vec<Items<Crossing>>,
    lab: &Lab,
    from: usize,
    to: usize,
) -> Result<(), Memory>
    ensures length { OnOk result (length lists.new.items ≡ length lists.old.items + 1) }
    ensures kept { OnOk result ((k : ℕ) → k < length lists.old.items → slice_index_or lists.new.items k [] ≡ slice_index_or lists.old.items k []) }
    ensures pair { OnOk result (from < length lab.now.switches → to < length lab.now.switches
        → AreBetween lab.now from to (length lab.now.trunks) (slice_index_or lists.new.items (length lists.old.items) [])) }
{
    // for the prover: it tells what every lab keeps
    let _kept = lab.range();
    let switches = lab.switches().len();
    if from < switches && to < switches {
        let list = between(alloc, lab, SwitchId(from as u16), SwitchId(to as u16))?;
        lists.push(list)?;
    } else {
        lists.push(Items::new(alloc))?;
    }
    Ok(())
}

/// By pair of switches, the trunks between them.
fn table_of(alloc: Global, lab: &Lab) -> Result<Vec<Items<Crossing>>, Memory>
    ensures { IfOk result (λ lists. (a b : ℕ) → a < length lab.now.switches → b < length lab.now.switches
        → AreBetween lab.now a b (length lab.now.trunks) (slice_index_or lists.items (MAX_SWITCHES * a + b) [])) }
{
    // for the prover: it tells what every lab keeps
    let _kept = lab.range();
    let mut lists = Vec::new(alloc);
    for number in 0..MAX_SWITCHES * lab.switches().len() {
        push_pair(
            alloc,
            &mut lists,
            lab,
            number / MAX_SWITCHES,
            number % MAX_SWITCHES,
        )?;
    }
    Ok(lists)
}

/// By interface its switch.
fn switches_of(alloc: Global, lab: &Lab) -> Result<Vec<SwitchId>, Memory>
    ensures { IfOk result (λ switches. switches.items ≡ map (λ i. i.switch) lab.now.ifaces) }
{
    let mut switches = Vec::new(alloc);
    for iface in lab.ifaces() {
        switches.push(iface.switch)?;
    }
    Ok(switches)
}

/// The trunks on whose first side a switch is, a bit each.
fn sides_at(lab: &Lab, switch: SwitchId) -> u64
    requires { switch.0 < length lab.now.switches }
    ensures { AreSides lab.now switch.0 (length lab.now.trunks) result }
{
    // for the prover: it tells what every lab keeps
    let _kept = lab.range();
    let mut sides = 0u64;
    for number in 0..lab.trunks().len() {
        let trunk = number as u16;
        sides = with_bit(sides, trunk, lab.side(TrunkId(trunk), switch));
    }
    sides
}

/// By switch the trunks on whose first side it is, a bit each.
fn sides_of(alloc: Global, lab: &Lab) -> Result<Vec<u64>, Memory>
    ensures one_each { IfOk result (λ sides. length sides.items ≡ length lab.now.switches) }
    ensures each { IfOk result (λ sides. (z : ℕ) → z < length lab.now.switches
        → AreSides lab.now z (length lab.now.trunks) (slice_index_or sides.items z 0)) }
{
    // for the prover: it tells what every lab keeps
    let _kept = lab.range();
    let mut sides = Vec::new(alloc);
    for number in 0..lab.switches().len() {
        sides.push(sides_at(lab, SwitchId(number as u16)))?;
    }
    Ok(sides)
}

impl Crossings {
    /// The crossings of a lab.
    pub fn of_lab(alloc: Global, lab: &Lab) -> Result<Crossings, Memory>
        ensures { IfOk result (IsTable lab.now) }
    {
        Ok(Crossings {
            lists: table_of(alloc, lab)?,
            switches: switches_of(alloc, lab)?,
            sides: sides_of(alloc, lab)?,
        })
    }

    /// The switch of an interface.
    #[inline(always)]
    fn switch_of(&self, lab: &Lab, plug: IfaceId) -> SwitchId
        requires table { IsTable lab.now self.now }
        requires plug { plug.0 < length lab.now.ifaces }
        ensures is { result.0 ≡ (slice_index_or lab.now.ifaces plug.0 no_iface).switch.0 }
        ensures within { result.0 < length lab.now.switches }
    {
        // for the prover: it tells that the switches of interfaces are of the lab
        let _linked = lab.ifaces();
        self.switches[plug.0 as usize]
    }

    /// The list at a place.
    #[inline(always)]
    fn of(&self, place: usize) -> &[Crossing]
        ensures { result.now ≡ slice_index_or self.now.lists.items place [] }
    {
        match self.lists.get(place) {
            Some(list) => list.as_slice(),
            None => &[],
        }
    }

    /// The trunks that a plug crosses on its way from one interface to another.
    #[inline(always)]
    pub fn between(&self, lab: &Lab, from: IfaceId, to: IfaceId) -> &[Crossing]
        requires table { IsTable lab.now self.now }
        requires from { from.0 < length lab.now.ifaces }
        requires to { to.0 < length lab.now.ifaces }
        ensures { AreCrossed lab.now from to result.now }
    {
        let one = self.switch_of(lab, from);
        let other = self.switch_of(lab, to);
        self.of(MAX_SWITCHES * one.0 as usize + other.0 as usize)
    }

    /// The trunks on whose first side an interface is, a bit each.
    #[inline(always)]
    pub(crate) fn sides(&self, lab: &Lab, plug: IfaceId) -> u64
        requires table { IsTable lab.now self.now }
        requires plug { plug.0 < length lab.now.ifaces }
        ensures { AreSides lab.now (slice_index_or lab.now.ifaces plug.0 no_iface).switch.0 (length lab.now.trunks) result }
    {
        self.sides[self.switch_of(lab, plug).0 as usize]
    }
}
