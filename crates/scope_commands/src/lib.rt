//! `gcu apply-scopes`: the plans of several scopes, printed or done.
#![tactic(auto)]

mod applying;
mod change_scopes;
mod laws;
mod plan_scopes;

pub use applying::apply_scopes;
pub use laws::plans_of_scopes_are_one;
