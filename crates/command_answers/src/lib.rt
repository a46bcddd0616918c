//! What each command answers, prints and leaves, what the proofs of all commands share, the plan of a command that
//! plans, and the answer of one that changes nothing.
#![tactic(auto)]

mod queries;
mod solving;

pub use queries::answer_query;
pub use solving::{find_plan, plan_between, solve};
