use lab_base::Items;

/// The rest of a lab: nodes, bandwidth and VLAN ids that experiments leave.
#[derive(Drop)]
pub struct Free {
    /// By node, whether no experiment claims it.
    pub nodes: Items<bool>,
    /// By trunk, the kbps that no experiment claims.
    pub left: Items<u64>,
    /// The number of VLAN ids that no experiment claims.
    pub vlans: u16,
}
