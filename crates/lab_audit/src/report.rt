use lab_base::Items;
use script_text::AuditLine;

/// In what the devices differ from what is wanted of them: the lines of switches, in the lab's order, each by port and then by VLAN id; then those of
/// nodes, in the lab's order.
///
/// A row lacks that an experiment that is in wants, and that isn't there. A row is strange that is there, and that no experiment wants. A node has a
/// line that isn't as the experiment wants it that has it, or isn't wiped though none has it.
pub type Report = Items<AuditLine>;
