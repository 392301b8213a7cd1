// A session under its cost rule.
ghost use Rattle.std.specs.Prelude.{◌≡◌, ◌≢◌, ◌≤◌, List, Some, None, is_some, true};
ghost use Rattle.lab_base.specs.Counts.{Rose};
ghost use Rattle.virt_topo.specs.Soundness.{IsSound};
ghost use Rattle.lab_model.specs.Shapes.{IsShaped};
ghost use Rattle.cost_rule.specs.Cost.{cost};
ghost use Rattle.cost_rule.specs.Parts.{AreParts, cost_of_parts};
ghost use Rattle.lab_core.specs.Sessions.{terms_of};
ghost use Rattle.lab_top.specs.Pieces.{Begun};
ghost use Rattle.lab_top.specs.Ran.{Numbered, Ran};

use crate::commands::obey_script;
use crate::generated::run_generated;
use crate::status::Status;
use cost_rule::{CostFn, Parts, PartsFn, Rule, RuleNumber, StepFn, StepRule};
use lab_io::{Sink, Source};
use phys_lab::Lab;
use plant::Tables;
use rule_costs::{cost_of, parts_cost, step_cost};
use std::alloc::Global;
use virt_topo::{Mapping, Wiring};

/// Obeys a script under the cost rule of that number, which is made once. The script is that of a seed, if there is one, else the source's.
pub(crate) fn run_under<S: Source, K: Sink, P: Tables>(
    alloc: Global,
    number: RuleNumber,
    seed: Option<u64>,
    source: &mut S,
    sink: &mut K,
    plant: &mut P,
) -> Status
    ensures ran { (made : List Begun) × Ran (terms_of P.takes_drills number) (Some (Numbered seed))
        (record { left = S.left source.old; plant = P.seen plant.old; written = K.written sink.old })
        (record { left = S.left source.new; plant = P.seen plant.new; written = K.written sink.new }) result made }
    ensures unread { is_some seed ≡ true → source.new ≡ source.old }
    ensures read { result ≡ Status.ReadFault → Rose (S.faults source.old) (S.faults source.new) }
    ensures calm { result ≢ Status.ReadFault → S.faults source.new ≡ S.faults source.old }
    ensures read_later { S.faults source.old ≤ S.faults source.new }
    ensures write { result ≡ Status.WriteFault → Rose (K.faults sink.old) (K.faults sink.new) }
    ensures write_later { K.faults sink.old ≤ K.faults sink.new }
{
    let by_number = move |lab: &Lab, wiring: &Wiring, mapping: &Mapping| -> u64
        requires { IsSound wiring.now × IsShaped lab.now wiring.now mapping.now }
        ensures { result ≡ cost number lab.now wiring.now mapping.now }
    { cost_of(number, lab, wiring, mapping) };
    let by_step = move |lab: &Lab, wiring: &Wiring, from: &Mapping, to: &Mapping, told: u64| -> u64
        requires { IsSound wiring.now × IsShaped lab.now wiring.now from.now × IsShaped lab.now wiring.now to.now
            × (told ≡ cost number lab.now wiring.now from.now) }
        ensures { result ≡ cost number lab.now wiring.now to.now }
    { step_cost(number, lab, wiring, from, to, told) };
    let by_parts = move |parts: Parts| -> u64
        requires { AreParts parts }
        ensures { result ≡ cost_of_parts number parts }
    { parts_cost(number, parts) };
    let Ok(whole) = Box::new(alloc, by_number) else {
        return Status::Memory;
    };
    let Ok(step) = Box::new(alloc, by_step) else {
        return Status::Memory;
    };
    let Ok(parted) = Box::new(alloc, by_parts) else {
        return Status::Memory;
    };
    let whole: CostFn = whole;
    let step: StepFn = step;
    let parted: PartsFn = parted;
    let rule = StepRule::new(Rule::new(number, whole), step, parted);
    match seed {
        Some(seed) => run_generated(alloc, seed, &rule, sink, plant),
        None => obey_script(alloc, &rule, source, sink, plant),
    }
}
