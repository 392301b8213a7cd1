ghost use Rattle.std.specs.Prelude.{◌≡◌};
ghost use Rattle.plant_file.specs.Entries.{is_row, is_node, is_pipe, is_of, is_keyed};
ghost use Rattle.plant_file.specs.Marks.{key_of};

use lab_base::{Boot, Name, Rates, VlanId};

/// An entry of the tables, a line each.
#[derive(Clone, Copy, PartialEq, Eq)]
pub enum Entry {
    /// The port of the switch is in the VLAN.
    Row {
        switch: Name,
        port: u16,
        vlan: VlanId,
    },
    /// The node has that boot state, and no OS.
    Bare {
        node: Name,
        state: Boot,
    },
    /// The node has that boot state, and that OS.
    Node {
        node: Name,
        state: Boot,
        os: Name,
    },
    /// The node's pipe of that number joins two of its interfaces.
    Pipe {
        node: Name,
        number: u16,
        from: Name,
        to: Name,
        there: Rates,
        back: Rates,
    },
}

/// The entries that a command is about.
#[derive(Clone, Copy)]
pub enum Key {
    /// The row of that port and that VLAN.
    Row {
        switch: Name,
        port: u16,
        vlan: VlanId,
    },
    /// The boot state of that node.
    Node {
        node: Name,
    },
    /// The node's pipe of that number.
    Pipe {
        node: Name,
        number: u16,
    },
    /// All that is said of that node.
    Of {
        node: Name,
    },
}

impl Entry {
    /// The key that it has and no other entry.
    pub(crate) fn key(&self) -> Key
        ensures { result ≡ key_of self.now }
    {
        match self {
            Entry::Row { switch, port, vlan } => Key::Row {
                switch: *switch,
                port: *port,
                vlan: *vlan,
            },
            Entry::Bare { node, .. } | Entry::Node { node, .. } => Key::Node { node: *node },
            Entry::Pipe { node, number, .. } => Key::Pipe {
                node: *node,
                number: *number,
            },
        }
    }

    /// Whether it has that key.
    pub(crate) fn is_keyed(&self, key: &Key) -> bool
        ensures { result ≡ is_keyed key.now self.now }
    {
        match key {
            Key::Row { switch, port, vlan } => self.is_row(switch, *port, *vlan),
            Key::Node { node } => self.is_node(node),
            Key::Pipe { node, number } => self.is_pipe(node, *number),
            Key::Of { node } => self.is_of(node),
        }
    }

    /// Whether it is that row.
    pub(crate) fn is_row(&self, switch: &Name, port: u16, vlan: VlanId) -> bool
        ensures { result ≡ is_row switch.now port vlan.0 self.now }
    {
        match self {
            Entry::Row {
                switch: own,
                port: at,
                vlan: id,
            } => *at == port && id.0 == vlan.0 && *own == *switch,
            Entry::Bare { .. } | Entry::Node { .. } | Entry::Pipe { .. } => false,
        }
    }

    /// Whether it has the boot state of that node.
    pub(crate) fn is_node(&self, name: &Name) -> bool
        ensures { result ≡ is_node name.now self.now }
    {
        match self {
            Entry::Bare { node, .. } | Entry::Node { node, .. } => *node == *name,
            Entry::Row { .. } | Entry::Pipe { .. } => false,
        }
    }

    /// Whether it is that node's pipe of that number.
    pub(crate) fn is_pipe(&self, name: &Name, at: u16) -> bool
        ensures { result ≡ is_pipe name.now at self.now }
    {
        match self {
            Entry::Pipe { node, number, .. } => *node == *name && *number == at,
            Entry::Row { .. } | Entry::Bare { .. } | Entry::Node { .. } => false,
        }
    }

    /// Whether it says something of that node.
    pub(crate) fn is_of(&self, name: &Name) -> bool
        ensures { result ≡ is_of name.now self.now }
    {
        match self {
            Entry::Bare { node, .. } | Entry::Node { node, .. } | Entry::Pipe { node, .. } => {
                *node == *name
            }
            Entry::Row { .. } => false,
        }
    }
}
