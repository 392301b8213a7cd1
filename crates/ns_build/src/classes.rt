//! The command that makes classes.

ghost use Rattle.std.specs.Prelude.{◌≡◌, ◌||◌, [], length, nat_le, nat_lt};
ghost use Rattle.std.specs.List.{list_any};
ghost use Rattle.lab_base.specs.Texts.{views};
ghost use Rattle.lab_base.specs.Names.{same_name};
ghost use Rattle.virt_topo.specs.Topos as topos;
ghost use Rattle.ns_build.specs.Networks as networks;
ghost use Rattle.ns_build.specs.Checks.{each};
ghost use Rattle.ns_build.specs.Settings as settings;
ghost use Rattle.ns_build.specs.Gives.{Gives};

use crate::checks::{counted, name_in, refuse, word_at};
use crate::network::Network;
use crate::refusal::Refusal;
use crate::task::Task;
use crate::words::elements_in;
use lab_base::{Items, Kind, Name, Text};
use std::alloc::Global;
use virt_topo::{Asks, Class, MAX_CLASSES, MAX_TYPES};

/// The weight of a class, in thousandths.
const WEIGHT: u32 = 500;

/// Whether a node asks for the type of this name.
fn asks_type(name: Name, asks: &Asks) -> bool
    ensures { result ≡ topos.asks_type name asks.now }
{
    match asks {
        Asks::Plain(kind) => name == *kind,
        Asks::Class(_) => false,
    }
}

/// Whether a type has this name.
fn has_name(name: Name, types: &[Name]) -> bool
    ensures { result ≡ list_any (same_name name) types.now }
{
    types.iter().any(|other| name == *other)
}

/// The types with one more.
#[tactic(auto, unfolding(crate::specs::Settings::with_type))]
fn with_type(mut types: Items<Name>, word: &[u8]) -> Result<Items<Name>, Refusal>
    ensures { Gives result (settings.with_type types word.now) }
{
    let name = name_in(word)?;
    refuse(Kind::Twice, has_name(name, types.as_slice()))?;
    types.push(name)?;
    Ok(types)
}

/// The types of a list, each another than those before.
fn joined_types(alloc: Global, elements: &[&[u8]]) -> Result<Items<Name>, Refusal>
    ensures { Gives result (each settings.with_type [] (views elements.now)) }
{
    let mut types = Items::new(alloc);
    for element in elements {
        types = with_type(types, element)?;
    }
    Ok(types)
}

impl Network {
    /// Whether a node asks for the type of this name.
    fn has_type(&self, name: Name) -> bool
        ensures { result ≡ list_any (λ v. topos.asks_type name v.asks) self.now.nodes }
    {
        self.nodes.iter().any(|node| asks_type(name, &node.asks))
    }

    /// Whether a class has this name.
    fn has_class(&self, name: Name) -> bool
        ensures { result ≡ list_any (λ c. same_name c.name name) self.now.classes }
    {
        self.classes.iter().any(|class| class.name == name)
    }

    /// Whether another class, of so many types, is one too many, or has too many types.
    fn has_no_room(&self, types: usize) -> bool
        ensures { result ≡ (nat_lt MAX_TYPES types || nat_le MAX_CLASSES (length self.now.classes)) }
    {
        types > MAX_TYPES || self.classes.len() >= MAX_CLASSES
    }

    /// Whether no class may have this name.
    fn refuses_class(&self, name: Name) -> bool
        ensures { result ≡ networks.refuses_class self.now name }
    {
        name.bytes() == b"pc".as_slice()
            || name.bytes() == b"delay".as_slice()
            || self.has_type(name)
            || self.has_class(name)
    }

    /// `tb-make-soft-vtype NAME LIST`
    #[tactic(auto, unfolding(crate::specs::Settings::judged_class))]
    pub(crate) fn judge_class(&self, alloc: Global, words: &[Text]) -> Result<Task, Refusal>
        ensures { Gives result (settings.judged_class self.now words.now) }
    {
        counted(3, words)?;
        let name = name_in(word_at(words, 1))?;
        refuse(Kind::Twice, self.refuses_class(name))?;
        let elements = elements_in(alloc, word_at(words, 2))?;
        let types = joined_types(alloc, &elements)?;
        refuse(Kind::Name, types.len() < 1)?;
        refuse(Kind::Limit, self.has_no_room(types.len()))?;
        Ok(Task::AddClass {
            class: Class {
                name,
                weight: WEIGHT,
                types,
            },
        })
    }
}
