// Words: junctions read from a text, and plans, rings and refusals printed. Files and arguments are left to the program above.
#![tactic(auto)]

mod answers;
mod drafts;
mod laws;
mod naming;
mod numbers;
mod printing;
mod readers;
mod reading;
mod refusing;
mod rings;
mod saying;
mod sections;
mod sentences;
mod taking;
mod wording;

pub use answers::{put_answer, put_none};
pub use laws::{names_are_words, read_back};
pub use readers::Reader;
pub use refusing::put_refusal;
pub use rings::put_rings;
pub use sections::Section;
