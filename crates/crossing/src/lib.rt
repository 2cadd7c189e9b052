// A junction and the plans for it: what crosses, what has to be clear, whether a plan is good. Finding one is left to the layers above.
#![tactic(auto)]

mod asked;
mod judging;
mod junctions;
mod keeping;
mod laws;
mod reading;
mod refusals;

pub use judging::{Fault, Worth};
pub use junctions::{Junction, Stream};
pub use keeping::{apart, too_close};
pub use laws::{cleared, never_together, no_growing, turned};
pub use refusals::Refusal;
