//! The search for the first plan over the listed moves.
#![tactic(auto)]

mod errors;
mod expanding;
mod first_plans;
mod hashed;
mod laws;
mod met_set;
mod planning;
mod rules;
mod searching;
mod stacks;
mod steps;

pub use errors::SearchError;
pub use first_plans::first_plan;
pub use laws::{
    budget_is_exact, first_ways_are_least, least_ways_are_first, lists_are_there,
    searches_have_one_answer,
};
pub use move_lists::listed;
pub use planning::search;
pub use steps::Steps;
