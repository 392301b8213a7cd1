//! The cost rules of mappings: the parts that they count, and a stored rule that answers a mapping's cost.
#![tactic(auto)]

mod costs;
mod parts;
mod rule;
mod soft;
mod step;

pub use costs::is_on;
pub use parts::{Parts, law_of_no_uses, law_of_parts, law_of_resting, parts_of};
pub use rule::{CostFn, Rule, RuleNumber};
pub use soft::{MAX_SOFT, class_soft, has_kind, is_member, node_soft, soft_at};
pub use step::{PartsFn, StepFn, StepRule};
