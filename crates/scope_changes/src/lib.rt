//! The changes of several scopes done scope after scope, so that a crash at any moment leaves those before one
//! done, that one under way, and those after it as they were.
#![tactic(auto)]

mod changes;
mod faults;
mod laws;
mod one;
mod running;

pub use changes::ScopeChange;
pub use laws::{asics_keep_other_files, scopes_keep_points};
pub use running::run_scopes;
