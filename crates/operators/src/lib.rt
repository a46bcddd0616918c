//! Several operators at once, in memory: each line of a script in turn, on the stored configuration.
#![tactic(auto)]

mod aims;
mod commits;
mod laws;
mod lines;
mod operating;
mod replies;
mod turns;

pub use commits::moves_of;
pub use laws::{scripts_keep_worlds, scripts_run_worlds};
pub use operating::{Operated, operate};
