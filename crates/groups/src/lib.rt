// Groups of streams that all cross each other, and what they need of the cycle that they share. Which greens they get is left to the layers above.
#![tactic(auto)]

mod asking;
mod clearing;
mod crowds;
mod finding;
mod fullness;
mod growing;
mod joining;
mod laws;
mod meeting;
mod members;
mod needs;
mod spares;
mod walking;

pub use asking::asked;
pub use finding::overfull;
pub use laws::{shares, too_much};
pub use members::Group;
pub use spares::most_spare;
