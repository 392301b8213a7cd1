use lab_base::{Name, Tags, Text};

/// The way of a move that begins.
#[derive(Drop)]
pub enum Way {
    /// Into the lab: a canonical solution text, and by segment its VLAN id.
    In { map: Text, tags: Tags },
    /// Out of the lab.
    Out,
    /// To another wiring or mapping: canonical top and solution texts, and by segment its VLAN id.
    Change { top: Text, map: Text, tags: Tags },
    /// A change, as `Change`, where the new wiring has a multiplexed segment.
    Change2 { top: Text, map: Text, tags: Tags },
}

/// A record: one move of the lab.
#[derive(Drop)]
pub enum Record {
    /// The lab, as canonical ptop text.
    Lab { ptop: Text },
    /// A new experiment, which is out, with its wiring as canonical top text.
    Create { exp: Name, top: Text },
    /// An experiment that is out is gone.
    Delete { exp: Name },
    /// A move begins.
    Begin { exp: Name, way: Way },
    /// A move is done.
    Commit { exp: Name },
    /// A move is undone.
    Abort { exp: Name },
    /// A new experiment, as `Create`, where its wiring has a multiplexed segment.
    Create2 { exp: Name, top: Text },
}

/// A record with the position of its gate.
#[derive(Drop)]
pub struct Found {
    pub at: u64,
    pub entry: Record,
}
