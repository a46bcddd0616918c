//! The answers of the program `gcu`: how a command ends, the last line of each answer, and how answers are
//! printed.
#![tactic(auto)]

mod lines;
mod outcomes;
mod printing;
mod statuses;
mod tree_text;

pub use lines::{line, numbered_line, quoted};
pub use outcomes::{Outcome, PointWhy};
pub use printing::{DONE_LINE, say, say_memory, show, show_text, tell};
pub use statuses::{Intent, status_text};
