//! The work of a plan done step by step, so that a crash at any moment leaves the folder with the last
//! acknowledged configuration or the next one.
#![tactic(auto)]

mod acknowledging;
mod errors;
mod folds;
mod intents;
mod laws;
mod preparing;
mod ready;
mod ready_steps;
mod restarting;
mod running;
mod steps;

pub use errors::ApplyFault;
pub use intents::close;
pub use laws::{intent_is_kept, restarts_are_services};
pub use preparing::prepare;
pub use ready::{Ready, Restart};
pub use running::run;
