// Starts for greens of given lengths: which keep all that crosses apart, or that there are none. Which lengths is left to the layers above.
#![tactic(auto)]

mod answers;
mod clashing;
mod crowding;
mod grouping;
mod knowing;
mod measuring;
mod moving;
mod narrowing;
mod pairs;
mod placed;
mod room;
mod searching;
mod settings;
mod shares;
mod sizes;
mod spacing;

pub use answers::Starts;
pub use placed::place;
pub use settings::Setting;
pub use sizes::MOST;
