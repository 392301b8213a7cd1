// Sums that rest, where the costs hang on no uses of trunks.
ghost use Rattle.std.specs.Prelude.{◌≡◌, None, IsTrue};
ghost use Rattle.cost_rule.specs.Parts.{AreParts, HangsOnNoUses};
ghost use Rattle.map_state.specs.States.{IsMapState};
ghost use Rattle.map_state.specs.Tables.{IsSearch};

use cost_rule::{Parts, StepRule};
use map_state::{MapState, Search};

/// Whether a rule answers for some parts with uses what it answers for them without.
fn costs_no_uses(rule: &StepRule, parts: Parts) -> bool
    requires { AreParts parts }
    ensures { IsTrue result → HangsOnNoUses rule.now.number }
{
    if parts.uses == 0 {
        return false;
    }
    let without = Parts {
        uses: 0,
        nodes: parts.nodes,
        soft: parts.soft,
    };
    rule.ask_parts(without) == rule.ask_parts(parts)
}

/// Lets the sums of a map rest, where no mapping can fill a trunk and the costs hang on no uses. The rule is asked twice for that: for the map's parts
/// without the uses, and with them. Where the map uses no trunk that tells nothing, and the sums are kept. The answer is whether the costs are known to
/// hang on no uses.
pub(crate) fn rest(search: &Search, rule: &StepRule, state: &mut MapState) -> bool
    requires search { IsSearch search.now }
    requires state { IsMapState search.now state.old }
    requires resting { state.old.sums ≡ None → HangsOnNoUses rule.now.number }
    ensures state { IsMapState search.now state.new }
    ensures mapping { state.new.mapping ≡ state.old.mapping }
    ensures back { state.new.back.items ≡ state.old.back.items }
    ensures resting { state.new.sums ≡ None → HangsOnNoUses rule.now.number }
    ensures ignored { IsTrue result → HangsOnNoUses rule.now.number }
{
    // for the prover: it tells what every lab keeps
    let _kept = search.mapper.lab.range();
    let Some(parts) = state.parts(search) else {
        return true;
    };
    if !costs_no_uses(rule, parts) {
        return false;
    }
    state.rest(search);
    true
}
