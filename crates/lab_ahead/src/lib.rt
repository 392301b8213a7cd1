//! Promises of nodes made in advance: batches as text, whether needs fit the nodes left, and the first moment of a run at which they don't.
#![tactic(auto)]

mod batch;
mod ends;
mod fitting;
mod giving;
mod lines;
mod read;
mod served;
mod times;
mod tree;
mod waits;

pub use batch::{Batch, Promise, Run};
pub use ends::{End, left_for, left_nodes};
pub use fitting::{Fit, Need, fits, short_types_never_fit};
pub use read::{MAX_PROMISES, read_batch};
pub use times::{Left, later_moments, left_at, moments, needs_at};
pub use waits::{Span, Wait, first_wait, waits_tell};
