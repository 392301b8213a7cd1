ghost use Rattle.std.specs.Prelude.{◌≡◌, ◌∷◌, ◌++◌, [], IfOk, OnOk};
ghost use Rattle.plant_file.specs.Entries.{is_keyed, state_or_off, os_or_none, state_in, os_in, without, entry_of_node, with_node, after, answer_of};

use crate::boots::moved;
use crate::entry::{Entry, Key};
use crate::tables::{Obeyed, Tables};
use lab_base::{Boot, Memory, Name};
use plant::{Answer, DeviceOp};
use std::alloc::Global;

fn entry_of_node(node: Name, state: Boot, os: Option<Name>) -> Entry
    ensures { result ≡ entry_of_node node state os }
{
    match os {
        Some(os) => Entry::Node { node, state, os },
        None => Entry::Bare { node, state },
    }
}

/// The boot state of a node that has this entry, or none.
fn state_or_off(entry: &Option<Entry>) -> Boot
    ensures { result ≡ state_or_off entry.now }
{
    match entry {
        Some(Entry::Bare { state, .. } | Entry::Node { state, .. }) => *state,
        _ => Boot::Off,
    }
}

/// The OS of a node that has this entry, or none.
fn os_or_none(entry: &Option<Entry>) -> Option<Name>
    ensures { result ≡ os_or_none entry.now }
{
    match entry {
        Some(Entry::Node { os, .. }) => Some(*os),
        _ => None,
    }
}

impl Tables {
    /// Puts an entry in the place of those of that key.
    fn set(&mut self, alloc: Global, key: &Key, entry: Entry) -> Result<(), Memory>
        ensures { OnOk result (self.new ≡ without (is_keyed key.now) self.old ++ entry ∷ []) }
    {
        self.take_out(key);
        self.put(alloc, entry)
    }

    pub(crate) fn state_of(&self, node: Name) -> Boot
        ensures { result ≡ state_in node self.now }
    {
        state_or_off(&self.find(&Key::Node { node }))
    }

    pub(crate) fn os_of(&self, node: Name) -> Option<Name>
        ensures { result ≡ os_in node self.now }
    {
        os_or_none(&self.find(&Key::Node { node }))
    }

    fn set_node(
        &mut self,
        alloc: Global,
        node: Name,
        state: Boot,
        os: Option<Name>,
    ) -> Result<(), Memory>
        ensures { OnOk result (self.new ≡ with_node node state os self.old) }
    {
        self.set(alloc, &Key::Node { node }, entry_of_node(node, state, os))
    }

    fn poll(&mut self, alloc: Global, node: Name) -> Result<Answer, Memory>
        ensures after { OnOk result (self.new ≡ after (DeviceOp.Poll node) self.old) }
        ensures answer { IfOk result (λ answer. answer ≡ answer_of (DeviceOp.Poll node) self.old) }
    {
        let found = self.find(&Key::Node { node });
        let state = moved(state_or_off(&found));
        self.set_node(alloc, node, state, os_or_none(&found))?;
        Ok(Answer::State(state))
    }

    /// Obeys a command, and answers it.
    fn change(&mut self, alloc: Global, op: &DeviceOp) -> Result<Answer, Memory>
        ensures after { OnOk result (self.new ≡ after op.now self.old) }
        ensures answer { IfOk result (λ answer. answer ≡ answer_of op.now self.old) }
    {
        match *op {
            DeviceOp::Join { switch, port, vlan } => {
                let key = Key::Row { switch, port, vlan };
                self.set(alloc, &key, Entry::Row { switch, port, vlan })?;
            }
            DeviceOp::Leave { switch, port, vlan } => {
                self.take_out(&Key::Row { switch, port, vlan });
            }
            DeviceOp::Shape {
                node,
                pipe: number,
                from,
                to,
                there,
                back,
            } => {
                let pipe = Entry::Pipe {
                    node,
                    number,
                    from,
                    to,
                    there,
                    back,
                };
                self.set(alloc, &Key::Pipe { node, number }, pipe)?;
            }
            DeviceOp::Load { node, os } => self.set_node(alloc, node, Boot::Off, Some(os))?,
            DeviceOp::Boot { node } => {
                let os = self.os_of(node);
                self.set_node(alloc, node, Boot::Booting, os)?;
            }
            DeviceOp::Poll { node } => return self.poll(alloc, node),
            DeviceOp::Wipe { node } => self.take_out(&Key::Of { node }),
        }
        Ok(Answer::Done)
    }

    /// Obeys a command.
    pub fn obey(self, alloc: Global, op: &DeviceOp) -> Result<Obeyed, Memory>
        ensures after { IfOk result (λ obeyed. obeyed.tables ≡ after op.now self) }
        ensures answer { IfOk result (λ obeyed. obeyed.answer ≡ answer_of op.now self) }
    {
        let mut tables = self;
        let answer = tables.change(alloc, op)?;
        Ok(Obeyed { tables, answer })
    }
}
