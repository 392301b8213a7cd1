use lab_base::{Items, Name, Rates};

/// A class of virtual nodes: its members may be of any of its types.
#[derive(Drop)]
pub struct Class {
    pub name: Name,
    /// The weight in thousandths, at most 1,000,000. From 1,000 on the members have one type.
    pub weight: u32,
    /// Its types, 1 to 8.
    pub types: Items<Name>,
}

/// The type or class that a virtual node asks for.
#[derive(Clone, Copy)]
pub enum Asks {
    /// A type.
    Plain(Name),
    /// The number of a class.
    Class(u16),
}

/// A virtual node.
#[derive(Drop)]
pub struct VirtNode {
    pub name: Name,
    pub asks: Asks,
    /// At most 8 features, each with a weight in thousandths. From 1,000 on the node must have the feature.
    pub desires: Items<(Name, u32)>,
    pub os: Name,
    /// The node of the lab that it has to be on, if one is set.
    pub fixed: Option<Name>,
}

/// An end of a segment.
#[derive(Clone, Copy)]
pub struct VirtEnd {
    /// The number of its virtual node.
    pub node: u16,
    /// An IPv4 address, whose last number is 1 to 254.
    pub address: Option<u32>,
}

/// A segment, which joins ends of different virtual nodes.
#[derive(Drop)]
pub struct Segment {
    pub name: Name,
    /// The link or LAN to which the segment belongs.
    pub owner: Name,
    /// The speed in kbps, 1 to 1,000,000,000.
    pub kbps: u64,
    /// Whether its ends may share interfaces with ends of other multiplexed segments.
    pub multiplexed: bool,
    /// Its ends, 2 to 256.
    pub ends: Items<VirtEnd>,
}

/// A pipe of a virtual node, between two of its ends, whose segments have one owner and are not multiplexed.
#[derive(Clone, Copy)]
pub struct Pipe {
    /// The number of its virtual node.
    pub node: u16,
    /// The number of earlier ends that the virtual node has before the pipe's first end.
    pub from: u16,
    /// The number of earlier ends that the virtual node has before the pipe's second end.
    pub to: u16,
    /// The rates from the first end to the second.
    pub there: Rates,
    /// The rates from the second end to the first.
    pub back: Rates,
}

/// A wiring: at most 64 classes, 1 to 256 virtual nodes, at most 512 segments with at most 4,096 ends in all, and pipes.
#[derive(Drop)]
pub struct Wiring {
    pub classes: Items<Class>,
    pub nodes: Items<VirtNode>,
    pub segments: Items<Segment>,
    pub pipes: Items<Pipe>,
}
