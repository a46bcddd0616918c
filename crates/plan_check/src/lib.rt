//! Whether moves are a plan, with nothing of the planner.
#![tactic(auto)]

mod candidates;
mod errors;
mod follows;
mod generated;
mod here;
mod items;
mod laws;
mod listed;
mod places;
mod plans;
mod preceding;
mod required;
mod rules;
mod seeds;
mod steps;
mod validity;
mod wants;

pub use errors::CheckError;
pub use laws::{plan_faults_are_one, plans_are_accepted};
pub use plan_texts::{NoWhy, PlanError, plan_texts_are_one, read_plan};
pub use plans::check_plan;
