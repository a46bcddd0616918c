//! The commands that only read: `check`, `check-plan`, `list-checkpoints`, `status`, `demo`, and changes as dry runs.
#![tactic(auto)]

mod checking;
mod demos;
mod dry_runs;
mod plan_checking;
mod point_listing;
mod statuses;

pub use checking::check;
pub use demos::demo;
pub use dry_runs::dry_run;
pub use plan_checking::check_plan;
pub use point_listing::list_checkpoints;
pub use statuses::status;
