// Canonical texts: a text is one exactly where reading it gives a value whose canonical text it is.
ghost use Rattle.std.specs.Prelude.{◌≡◌, ◌<◌, length, IfOk};
ghost use Rattle.phys_lab.specs.Labs.{Lab as AnyLab};
ghost use Rattle.phys_lab.specs.Kept.{IsLab};
ghost use Rattle.virt_topo.specs.declared.wiring.Wiring.{Wiring as AnyWiring};
ghost use Rattle.virt_topo.specs.declared.mapping.Mapping.{Mapping as AnyMapping};
ghost use Rattle.lab_model.specs.Shapes.{IsShaped};
ghost use Rattle.records_model.specs.Labs.{HasText, SaysTop};
ghost use Rattle.lab_state.specs.Answers.{OnBad};
ghost use Rattle.lab_state.specs.Texts.{the_texts};

use crate::PrepareFault;
use lab_base::TEXT_LIMIT;
use phys_lab::Lab;
use ptop_text::{print_ptop, read_ptop};
use solution_text::{print_solution, read_solution};
use std::alloc::Global;
use top_text::{print_top, read_top};
use virt_topo::{Mapping, Wiring, has_multiplexed};

/// The lab whose canonical text this is.
pub(crate) fn lab_of(alloc: Global, text: &[u8]) -> Result<Lab, PrepareFault>
    requires { length text.now < TEXT_LIMIT }
    ensures ok { IfOk result (λ lab. IsLab lab × (text.now ≡ the_texts.ptop lab)) }
    ensures bad { OnBad result ((lab : AnyLab) → IsLab lab → text.now ≡ the_texts.ptop lab → ⊥) }
{
    let lab = read_ptop(alloc, text)?;
    // for the prover: it tells what every lab keeps
    let _kept = lab.range();
    let printed = match print_ptop(alloc, &lab) {
        Ok(printed) => printed,
        Err(memory) => {
            drop(lab);
            return Err(PrepareFault::from(memory));
        }
    };
    if printed.bytes() == text {
        Ok(lab)
    } else {
        drop(lab);
        Err(PrepareFault::Bad)
    }
}

/// The wiring whose canonical text this is.
pub(crate) fn wiring_of(alloc: Global, text: &[u8]) -> Result<Wiring, PrepareFault>
    requires { length text.now < TEXT_LIMIT }
    ensures ok { IfOk result (λ wiring. HasText the_texts wiring × (text.now ≡ the_texts.top wiring)) }
    ensures bad { OnBad result ((wiring : AnyWiring) → HasText the_texts wiring → text.now ≡ the_texts.top wiring → ⊥) }
{
    let wiring = read_top(alloc, text)?;
    let printed = match print_top(alloc, &wiring) {
        Ok(printed) => printed,
        Err(memory) => {
            drop(wiring);
            return Err(PrepareFault::from(memory));
        }
    };
    if printed.bytes() == text {
        Ok(wiring)
    } else {
        drop(wiring);
        Err(PrepareFault::Bad)
    }
}

/// The wiring whose canonical text this is, where a record of that format has such a wiring.
pub(crate) fn wiring_in(alloc: Global, text: &[u8], second: bool) -> Result<Wiring, PrepareFault>
    requires { length text.now < TEXT_LIMIT }
    ensures ok { IfOk result (λ wiring. SaysTop the_texts wiring text.now second) }
    ensures bad { OnBad result ((wiring : AnyWiring) → SaysTop the_texts wiring text.now second → ⊥) }
{
    let wiring = wiring_of(alloc, text)?;
    if has_multiplexed(&wiring) == second {
        Ok(wiring)
    } else {
        drop(wiring);
        Err(PrepareFault::Bad)
    }
}

/// The mapping whose canonical text this is, for a lab and a wiring.
pub(crate) fn mapping_of(
    alloc: Global,
    lab: &Lab,
    wiring: &Wiring,
    text: &[u8],
) -> Result<Mapping, PrepareFault>
    requires short { length text.now < TEXT_LIMIT }
    requires wiring { HasText the_texts wiring.now }
    ensures ok { IfOk result (λ mapping. IsShaped lab.now wiring.now mapping × (text.now ≡ the_texts.solution lab.now wiring.now mapping)) }
    ensures bad { OnBad result ((mapping : AnyMapping) → IsShaped lab.now wiring.now mapping → text.now ≡ the_texts.solution lab.now wiring.now mapping → ⊥) }
{
    // for the prover: it tells what every lab keeps
    let _kept = lab.range();
    let mapping = read_solution(alloc, text, lab, wiring)?;
    let printed = print_solution(alloc, lab, wiring, &mapping)?;
    if printed.bytes() == text {
        Ok(mapping)
    } else {
        Err(PrepareFault::Bad)
    }
}
