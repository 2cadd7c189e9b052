// Greens on a cycle: seconds that go round, and in which of them a green is on. What crosses is left to the layers above.
#![tactic(auto)]

mod lights;
mod plans;
mod seconds;

pub use lights::Green;
pub use plans::{MOST_STREAMS, Plan};
pub use seconds::{Cycle, MOST_SECONDS};
