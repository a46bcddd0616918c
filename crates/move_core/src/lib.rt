//! Moves of a configuration, what each makes of it, and the rules file.
#![tactic(auto)]

mod boxes;
mod contexts;
mod errors;
mod items;
mod json_parts;
mod kit_lists;
mod kits;
mod laws;
mod listed_order;
mod moves;
mod operations;
mod plan_texts;
mod rank_orders;
mod rules_file;
mod settings;
mod steps;

pub use boxes::{MoveExt, MoveGen, MoveRule};
pub use contexts::Ctx;
pub use errors::{RulesError, RulesWhy};
pub use kit_lists::{kit_extenders, kit_generators, kit_rules};
pub use kits::{Boxes, Kit};
pub use laws::{
    flat_models_allow_the_same, listed_moves_are_defined, listed_moves_have_models,
    listed_order_is_total, move_is_its_operation,
};
pub use listed_order::{cmp_listed, cmp_moves};
pub use moves::{Generated, Move, Moves, Plan, Ranked};
pub use operations::operation_of;
pub use plan_texts::plan_text;
pub use rules_file::read_rules;
pub use settings::{CreateOnly, Required, Requiring, ServiceTie, Settings};
pub use steps::step;
