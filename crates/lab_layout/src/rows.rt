// Which machines stand under which switch.
ghost use Rattle.std.specs.Prelude.{◌≡◌, ◌||◌, nat_lt, length, IfOk, OnOk};
ghost use Rattle.lab_view.specs.Views.{is_lone};
ghost use Rattle.lab_view.specs.Lines.{has_lone};

use lab_base::{Items, Memory};
use lab_view::{Machine, View, home_of};
use std::alloc::Global;

/// By switch its machines, and those without an interface.
#[derive(Drop)]
pub(crate) struct Rows {
    of: Vec<Items<usize>>,
    pub(crate) lone: Vec<usize>,
}

impl Rows {
    pub(crate) fn new(alloc: Global, view: &View) -> Result<Rows, Memory>
        ensures lone { IfOk result (λ rows. nat_lt 0 (length rows.lone.items) ≡ has_lone view.now) }
    {
        let mut of = Vec::new(alloc);
        for _switch in 0..view.switches.len() {
            of.push(Items::new(alloc))?;
        }
        let mut rows = Rows {
            of,
            lone: Vec::new(alloc),
        };
        for (number, machine) in view.machines.as_slice().iter().enumerate() {
            rows.add(number, machine)?;
        }
        Ok(rows)
    }

    fn add(&mut self, number: usize, machine: &Machine) -> Result<(), Memory>
        ensures lone { OnOk result (nat_lt 0 (length self.new.lone.items) ≡ (nat_lt 0 (length self.old.lone.items) || is_lone machine.now)) }
    {
        match home_of(machine) {
            Some(switch) => {
                if switch < self.of.len() {
                    self.of[switch].push(number)?;
                }
            }
            None => self.lone.push(number)?,
        }
        Ok(())
    }

    /// The machines of a switch.
    pub(crate) fn under(&self, switch: usize) -> &[usize] {
        match self.of.get(switch) {
            Some(row) => row.as_slice(),
            None => &[],
        }
    }
}
