//! Commands one after the other on a host in memory, each run to its end or stopped at any of its calls.
#![tactic(auto)]

mod faulty;
mod laws;
mod lists;
mod noting;
mod running;
mod stops;

pub use laws::outputs_tell_one_work;
pub use lists::run_stops;
pub use running::run_stop;
pub use stops::{Ran, Stop};
