/// The reason why a wiring is not sound: the first that holds.
#[derive(Clone, Copy, Debug, PartialEq, Eq)]
pub enum WiringFault {
    /// A limit is passed, a class has no type, or a segment has fewer than 2 ends.
    Limit,
    /// A number of a virtual node, a class or an end names nothing.
    Unknown,
    /// A name, a type of a class, a desire of a node or an address is given twice. Or a class has the name of a virtual node's type.
    Twice,
    /// A segment has two ends on one virtual node.
    Same,
    /// The ends of a pipe are one, have two owners, are of a multiplexed segment, or are in an earlier pipe.
    Pipe,
    /// There is no virtual node.
    Empty,
}
