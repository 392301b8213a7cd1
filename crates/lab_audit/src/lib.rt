//! In what the devices of a lab differ from what its experiments want of them.
#![tactic(auto)]

mod auditing;
mod fault;
mod gather;
mod holders;
mod laws;
mod lines;
mod node_lines;
mod nodes;
mod readings;
mod report;
mod switch_lines;
mod switches;
mod wanted;
mod wants;

pub use auditing::audit;
pub use fault::AuditFault;
pub use laws::cabled_labs_differ_in_nothing;
pub use report::Report;
