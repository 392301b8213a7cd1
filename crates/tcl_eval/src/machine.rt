//! The machine of an interpreter, and the commands that evaluate nothing.

ghost use Rattle.std.specs.Prelude.{◌≡◌, ℕ, ◌≤◌, List, length, OnOk, IfOk};
ghost use Rattle.tcl_eval.specs.declared.commands.Own.TheVariants as owns;

use crate::halts::Halt;
use crate::hosts::{Called, Host, HostFault};
use crate::limits::BUDGET;
use crate::lists::{appended, listed, words_from};
use crate::numbers::{number_text, read_number};
use crate::operators::added;
use indexmap::IndexMap;
use lab_base::{Kind, Memory, Text};
use std::alloc::Global;

/// The machine of an interpreter: its host, its variables, and the rest of its budget.
#[derive(Drop)]
pub struct Machine<H> {
    pub alloc: Global,
    pub host: H,
    pub variables: IndexMap<Text, Text>,
    /// The number of commands and conditions that may still be evaluated.
    pub left: u32,
}

impl<H: Host> Machine<H> {
    ghost use Rattle.std.specs.Prelude.{◌≡◌, ◌≤◌, ◌∷◌, [], None, Some, Err, option_map, nat_eq};
    ghost use Rattle.std.specs.Map.{lookup};
    ghost use Rattle.std.specs.Cmp.Lexicographic.{pointwise};
    ghost use Rattle.tcl_eval.specs.Forms.{own};
    ghost use Rattle.tcl_eval.specs.Jobs.{Value, Call};
    ghost use Rattle.tcl_eval.specs.Settings.{step_of};
    ghost use Rattle.tcl_eval.specs.State.{state, read_of, old_or_empty, with_value};
    ghost use Rattle.tcl_eval.specs.Ends.{Ends, Gives};

    /// A machine without variables.
    pub fn new(alloc: Global, host: H) -> Machine<H>
        ensures host { result.host ≡ host }
        ensures variables { result.variables.entries ≡ [] }
        ensures left { result.left ≡ BUDGET }
    {
        Machine {
            alloc,
            host,
            variables: IndexMap::new(alloc),
            left: BUDGET,
        }
    }

    /// The host, with the objects that scripts left.
    pub fn into_host(self) -> H
        ensures { result ≡ self.host }
    {
        let Machine {
            alloc: _,
            host,
            variables: _,
            left: _,
        } = self;
        host
    }

    /// The value of a variable, if it is set.
    pub fn value(&self, name: &Text) -> Option<&Text>
        ensures { option_map (λ value. value.now) result ≡ lookup (pointwise nat_eq name.now) self.now.variables.entries }
    {
        self.variables.get(name)
    }

    /// The value of a variable that has to be set.
    pub(crate) fn read(&self, name: &Text) -> Result<Text, Halt>
        ensures { Gives (λ r. r ≡ read_of (state self.now.variables.entries (H.objects self.now.host) self.now.left) name.now) result }
    {
        match self.variables.get(name) {
            Some(value) => Ok(value.copy()?),
            None => Err(Halt::Fault(Kind::Variable)),
        }
    }

    /// The value of the variable of these bytes, which has to be set.
    pub(crate) fn named(&self, name: &[u8]) -> Result<Text, Halt>
        ensures { Gives (λ r. r ≡ read_of (state self.now.variables.entries (H.objects self.now.host) self.now.left) name.now) result }
    {
        let name = Text::from_slice(self.alloc, name)?;
        self.read(&name)
    }

    /// The value of a variable, or the empty text.
    fn read_or_empty(&self, name: &Text) -> Result<Text, Memory>
        ensures { IfOk result (λ value. value ≡ old_or_empty (state self.now.variables.entries (H.objects self.now.host) self.now.left) name.now) }
    {
        match self.variables.get(name) {
            Some(value) => value.copy(),
            None => Ok(Text::new(self.alloc)),
        }
    }

    /// Gives a variable a value.
    pub(crate) fn write(&mut self, name: &Text, value: &Text) -> Result<(), Memory>
        ensures written { OnOk result (state self.new.variables.entries (H.objects self.new.host) self.new.left
            ≡ with_value (state self.old.variables.entries (H.objects self.old.host) self.old.left) name.now value.now) }
        ensures left { self.new.left ≡ self.old.left }
    {
        self.variables.insert(name.copy()?, value.copy()?)?;
        Ok(())
    }

    /// Gives a variable a value, and tells the host.
    fn assign(&mut self, name: &Text, value: &Text) -> Result<Text, Halt>
        ensures evals { (line l : ℕ) (cmd : List ℕ) → own (cmd ∷ name.now ∷ value.now ∷ []) ≡ Some owns.Set
            → Ends (H.calls line) H.hears Value l (Call (cmd ∷ name.now ∷ value.now ∷ []))
            (state self.old.variables.entries (H.objects self.old.host) self.old.left)
            (state self.new.variables.entries (H.objects self.new.host) self.new.left) result }
        ensures left { self.new.left ≡ self.old.left }
    {
        self.write(name, value)?;
        match self.host.assigned(name, value) {
            Ok(()) => Ok(value.copy()?),
            Err(HostFault::Kind(kind)) => Err(Halt::Fault(kind)),
            Err(HostFault::Memory) => Err(Halt::Memory),
        }
    }

    /// `set V`, `set V W`
    pub(crate) fn run_set(&mut self, words: &[Text]) -> Result<Text, Halt>
        requires own { own words.now ≡ Some owns.Set }
        ensures evals { (line l : ℕ) → Ends (H.calls line) H.hears Value l (Call words.now)
            (state self.old.variables.entries (H.objects self.old.host) self.old.left)
            (state self.new.variables.entries (H.objects self.new.host) self.new.left) result }
        ensures left { self.new.left ≡ self.old.left }
    {
        if words.len() == 2 {
            self.read(&words[1])
        } else if words.len() == 3 {
            self.assign(&words[1], &words[2])
        } else {
            Err(Halt::Fault(Kind::Arity))
        }
    }

    /// Adds a number to a variable.
    fn add(&mut self, name: &Text, step: Result<i64, Kind>) -> Result<Text, Halt>
        ensures evals { (line l : ℕ) (cmd : List ℕ) (more : List (List ℕ)) → own (cmd ∷ name.now ∷ more) ≡ Some owns.Incr
            → length more ≤ 1 → step ≡ step_of more → Ends (H.calls line) H.hears Value l (Call (cmd ∷ name.now ∷ more))
            (state self.old.variables.entries (H.objects self.old.host) self.old.left)
            (state self.new.variables.entries (H.objects self.new.host) self.new.left) result }
        ensures left { self.new.left ≡ self.old.left }
    {
        let old = self.read(name)?;
        let new = added(read_number(old.bytes()), step)?;
        let new = number_text(self.alloc, new)?;
        self.write(name, &new)?;
        Ok(new)
    }

    /// `incr V`, `incr V N`
    pub(crate) fn run_incr(&mut self, words: &[Text]) -> Result<Text, Halt>
        requires own { own words.now ≡ Some owns.Incr }
        ensures evals { (line l : ℕ) → Ends (H.calls line) H.hears Value l (Call words.now)
            (state self.old.variables.entries (H.objects self.old.host) self.old.left)
            (state self.new.variables.entries (H.objects self.new.host) self.new.left) result }
        ensures left { self.new.left ≡ self.old.left }
    {
        if words.len() == 2 {
            self.add(&words[1], Ok(1))
        } else if words.len() == 3 {
            self.add(&words[1], read_number(words[2].bytes()))
        } else {
            Err(Halt::Fault(Kind::Arity))
        }
    }

    /// `append V W ..`
    pub(crate) fn run_append(&mut self, words: &[Text]) -> Result<Text, Halt>
        requires own { own words.now ≡ Some owns.Append }
        ensures evals { (line l : ℕ) → Ends (H.calls line) H.hears Value l (Call words.now)
            (state self.old.variables.entries (H.objects self.old.host) self.old.left)
            (state self.new.variables.entries (H.objects self.new.host) self.new.left) result }
        ensures left { self.new.left ≡ self.old.left }
    {
        if words.len() < 3 {
            return Err(Halt::Fault(Kind::Arity));
        }
        let name = &words[1];
        let old = self.read_or_empty(name)?;
        let value = appended(old, words_from(words, 2))?;
        self.write(name, &value)?;
        Ok(value)
    }

    /// `lappend V W ..`
    pub(crate) fn run_lappend(&mut self, words: &[Text]) -> Result<Text, Halt>
        requires own { own words.now ≡ Some owns.Lappend }
        ensures evals { (line l : ℕ) → Ends (H.calls line) H.hears Value l (Call words.now)
            (state self.old.variables.entries (H.objects self.old.host) self.old.left)
            (state self.new.variables.entries (H.objects self.new.host) self.new.left) result }
        ensures left { self.new.left ≡ self.old.left }
    {
        if words.len() < 3 {
            return Err(Halt::Fault(Kind::Arity));
        }
        let name = &words[1];
        let old = self.read_or_empty(name)?;
        let value = listed(old, words_from(words, 2))?;
        self.write(name, &value)?;
        Ok(value)
    }

    /// Has the host obey a command. `line` is that of the present command at the top level.
    pub(crate) fn run_host(&mut self, words: &[Text], line: u32) -> Result<Text, Halt>
        requires own { own words.now ≡ None }
        ensures evals { (l : ℕ) → Ends (H.calls line) H.hears Value l (Call words.now)
            (state self.old.variables.entries (H.objects self.old.host) self.old.left)
            (state self.new.variables.entries (H.objects self.new.host) self.new.left) result }
        ensures left { self.new.left ≡ self.old.left }
    {
        match self.host.call(words, line) {
            Ok(Called::Value(value)) => Ok(value),
            Ok(Called::NotMine) => Err(Halt::Fault(Kind::Command)),
            Ok(Called::Stop) => Err(Halt::Stop),
            Err(HostFault::Kind(kind)) => Err(Halt::Fault(kind)),
            Err(HostFault::Memory) => Err(Halt::Memory),
        }
    }
}
