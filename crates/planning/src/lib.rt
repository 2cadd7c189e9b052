// A best plan for a junction, or that there is none. Words are left to the layers above.
#![tactic(auto)]

mod entry;
mod finding;
mod laws;
mod laying;
mod tries;

pub use entry::{Done, plan};
pub use finding::best;
pub use laws::{best_or_none, nine_to_spare, too_much};
pub use tries::{Found, TooMany, try_all};
