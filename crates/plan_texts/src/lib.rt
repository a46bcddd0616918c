//! Plans read back from their texts.
#![tactic(auto)]

mod causes;
mod counts;
mod elements;
mod ends;
mod errors;
mod items;
mod laws;
mod lines;
mod moves;
mod parts;
mod places;
mod reading;
mod steps;

pub use causes::NoWhy;
pub use errors::PlanError;
pub use laws::plan_texts_are_one;
pub use reading::read_plan;
