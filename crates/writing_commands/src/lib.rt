//! The commands that write: those of checkpoints, `abandon`, and every change that is done step by step.
#![tactic(auto)]

mod changing;
mod deleting;
mod giving_up;
mod last_lines;
mod migrating;
mod operate;
mod saving;

pub use changing::{change, end, plan_services};
pub use deleting::delete_checkpoint;
pub use giving_up::abandon;
pub use last_lines::{FaultLines, fault_lines};
pub use migrating::migrate_checkpoints;
pub use saving::save_checkpoint;
