//! The wants of a configuration, and whether it is valid by its models (RFC 7950, section 8).
#![tactic(auto)]

mod acceptance;
mod belongings;
mod checking;
mod children;
mod config_nodes;
mod equal_items;
mod faults;
mod first_wants;
mod laws;
mod leaves;
mod musts;
mod name_places;
mod node_numbers;
mod rows;
mod tree_nodes;
mod violations;
mod want_iter;
mod want_runs;

pub use acceptance::is_satisfied;
pub use belongings::belongings_are_one;
pub use checking::{check, check_entry};
pub use laws::{flat_models_say_the_same, flat_types_want_the_same, musts_have_one_truth};
pub use violations::{RuleName, Violation};
pub use want_iter::{Want, WantAt, WantIter, WantPlace};
pub use want_runs::{entry_wants, wants};
