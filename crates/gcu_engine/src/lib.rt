//! What the program `gcu` does: its commands, their answers and what they print.
#![tactic(auto)]

mod laws;
mod run_command;
mod run_form;
mod scoped;

pub use conf_check::RuleName;
pub use conf_store::StoredWhy;
pub use gcu_output::{Outcome, PointWhy};
pub use laws::{
    folders_read_are_said, patches_read_are_said, right_answers_are_one, settings_read_are_said,
};
pub use run_command::run;
