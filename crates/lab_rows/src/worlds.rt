//! Experiments of a lab, and the worlds that commands leave.
use crate::reading::{lab_of, wiring_of};
use crate::steps::steps_of;
use crate::texts::Texts;
use lab_base::{
    IfaceId, Items, Name, NodeId, Parts, Tags, Text, VlanId, fields_in, name_in, parted,
};
use line_text::field_at;
use phys_lab::Lab;
use plain_model::{Sent, all_fit, is_cabled, is_holding, is_isolated_after};
use row_words::{RowFault, at_bar, number, pair_of, push_answer};
use std::alloc::Global;
use virt_topo::{Experiment, Mapped, Mapping, Phase, Wiring};

/// Where a wiring stands.
#[derive(Drop)]
struct Placed {
    mapping: Mapping,
    tags: Tags,
}

/// Adds what a word says: an interface, a VLAN id, or the number of a node with the type that it is.
fn add(placed: &mut Placed, word: &[u8]) -> Result<(), RowFault> {
    let pair = pair_of(word)?;
    if pair.before == b"plug".as_slice() {
        placed.mapping.plugs.push(IfaceId(number(pair.behind)?))?;
    } else if pair.before == b"vlan".as_slice() {
        placed.tags.push(VlanId(number(pair.behind)?))?;
    } else {
        let place = (NodeId(number(pair.before)?), name_in(pair.behind)?);
        placed.mapping.places.push(place)?;
    }
    Ok(())
}

fn add_all(placed: &mut Placed, words: &[&[u8]]) -> Result<(), RowFault> {
    for word in words {
        add(placed, word)?;
    }
    Ok(())
}

/// How the plan of a text maps its wiring, whose name comes first.
fn placed_of(alloc: Global, plan: &[u8]) -> Result<Placed, RowFault> {
    let words = fields_in(alloc, plan)?;
    let mapping = Mapping {
        places: Items::new(alloc),
        plugs: Items::new(alloc),
    };
    let tags = Items::new(alloc);
    let mut placed = Placed { mapping, tags };
    match add_all(&mut placed, words.get(1..).unwrap_or(&[])) {
        Ok(()) => Ok(placed),
        Err(wrong) => {
            drop(placed);
            Err(wrong)
        }
    }
}

/// The wiring of a plan.
fn wiring_in(alloc: Global, texts: &Texts, plan: &[u8]) -> Result<Wiring, RowFault> {
    let words = fields_in(alloc, plan)?;
    wiring_of(alloc, texts, field_at(&words, 0))
}

/// The wiring of the plan of a name.
fn wiring_named(alloc: Global, texts: &Texts, name: &[u8]) -> Result<Wiring, RowFault> {
    wiring_in(alloc, texts, texts.of(name)?)
}

/// The wiring and the mapping of a plan.
fn mapped_of(alloc: Global, texts: &Texts, plan: &[u8]) -> Result<Mapped, RowFault> {
    let Placed { mapping, tags } = placed_of(alloc, plan)?;
    match wiring_in(alloc, texts, plan) {
        Ok(wiring) => Ok(Mapped {
            wiring,
            mapping,
            tags,
        }),
        Err(wrong) => {
            drop(mapping);
            drop(tags);
            Err(wrong)
        }
    }
}

/// The wiring and the mapping of the plan of a name, if there is a name.
fn side_of(alloc: Global, texts: &Texts, name: &[u8]) -> Result<Option<Mapped>, RowFault> {
    if name.is_empty() {
        return Ok(None);
    }
    Ok(Some(mapped_of(alloc, texts, texts.of(name)?)?))
}

/// A move between two plans, one of which may be none.
fn moving(alloc: Global, texts: &Texts, plans: Parts<'_>) -> Result<Phase, RowFault> {
    let old = side_of(alloc, texts, plans.before)?;
    match side_of(alloc, texts, plans.behind) {
        Ok(new) => Ok(Phase::Moving { old, new }),
        Err(wrong) => {
            drop(old);
            Err(wrong)
        }
    }
}

/// How an experiment stands by a plan, or between which two plans it moves.
fn phase_of(alloc: Global, texts: &Texts, plans: &[u8]) -> Result<Phase, RowFault> {
    if let Some(plans) = parted(plans, b'>') {
        return moving(alloc, texts, plans);
    }
    let Placed { mapping, tags } = placed_of(alloc, texts.of(plans)?)?;
    Ok(Phase::In { mapping, tags })
}

/// The name of the only plan or the old one, or else of the new one.
fn first_of(plans: &[u8]) -> &[u8] {
    match parted(plans, b'>') {
        Some(parts) => {
            if parts.before.is_empty() {
                parts.behind
            } else {
                parts.before
            }
        }
        None => plans,
    }
}

/// The experiment of a word: its name, and its plans.
fn experiment_of(alloc: Global, texts: &Texts, word: &[u8]) -> Result<Experiment, RowFault> {
    let pair = pair_of(word)?;
    let name = name_in(pair.before)?;
    let phase = phase_of(alloc, texts, pair.behind)?;
    match wiring_named(alloc, texts, first_of(pair.behind)) {
        Ok(wiring) => Ok(Experiment {
            name,
            wiring,
            phase,
        }),
        Err(wrong) => {
            drop(phase);
            Err(wrong)
        }
    }
}

fn push_experiments(
    listed: &mut Items<Experiment>,
    alloc: Global,
    texts: &Texts,
    words: &[&[u8]],
) -> Result<(), RowFault> {
    for word in words {
        listed.push(experiment_of(alloc, texts, word)?)?;
    }
    Ok(())
}

/// The experiments of words.
fn experiments_of(
    alloc: Global,
    texts: &Texts,
    words: &[&[u8]],
) -> Result<Items<Experiment>, RowFault> {
    let mut listed = Items::new(alloc);
    match push_experiments(&mut listed, alloc, texts, words) {
        Ok(()) => Ok(listed),
        Err(wrong) => {
            drop(listed);
            Err(wrong)
        }
    }
}

/// Whether the claims hold; and where each mapping suits the lab, whether the world is isolated, and whether it is cabled.
fn push_found(
    out: &mut Text,
    alloc: Global,
    lab: &Lab,
    experiments: &[Experiment],
    commands: &[Sent],
) -> Result<(), RowFault> {
    push_answer(out, is_holding(alloc, lab, experiments)?)?;
    if all_fit(alloc, lab, experiments)? {
        push_answer(out, is_isolated_after(alloc, lab, experiments, commands)?)?;
        push_answer(out, is_cabled(alloc, lab, experiments, commands)?)?;
    }
    Ok(())
}

/// Adds what is found of the lab of a name.
fn push_found_in(
    out: &mut Text,
    alloc: Global,
    texts: &Texts,
    name: &[u8],
    experiments: &[Experiment],
    commands: &[Sent],
) -> Result<(), RowFault> {
    let lab = lab_of(alloc, texts, name)?;
    let told = push_found(out, alloc, &lab, experiments, commands);
    drop(lab);
    told
}

/// Adds what is found of a lab with experiments after commands. The words are the lab's text and the experiments.
fn push_found_of(
    out: &mut Text,
    alloc: Global,
    texts: &Texts,
    words: &[&[u8]],
    commands: &[Sent],
) -> Result<(), RowFault> {
    let experiments = experiments_of(alloc, texts, words.get(1..).unwrap_or(&[]))?;
    let told = push_found_in(
        out,
        alloc,
        texts,
        field_at(words, 0),
        experiments.as_slice(),
        commands,
    );
    drop(experiments);
    told
}

/// Whether the world after the commands after the bar holds its claims, is isolated and is cabled.
pub fn add_output(
    out: &mut Text,
    alloc: Global,
    texts: &Texts,
    words: &[&[u8]],
) -> Result<(), RowFault> {
    let halves = at_bar(words);
    let commands = steps_of(alloc, texts, halves.behind)?;
    let told = push_found_of(out, alloc, texts, halves.before, commands.as_slice());
    drop(commands);
    told
}
