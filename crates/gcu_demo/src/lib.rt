//! Two configurations of any size between a few ports and hundreds, for a demonstration: a start, and a goal
//! towards which ports and VLANs change in four ways.
#![tactic(auto)]

mod entries;
mod making;
mod names;
mod rows;
mod tables;

pub use making::make;
