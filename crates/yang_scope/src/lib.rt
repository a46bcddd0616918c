//! The names that modules of YANG give (RFC 7950, in a profile), the types that they stand for, and
//! the exact faults of both.
#![tactic(auto)]

mod bases;
mod faults;
mod identifiers;
mod key_leaves;
mod links;
mod meanings;
mod module_sets;
mod modules;
mod name_tables;
mod names;
mod node_lists;
mod nodes;
mod paths;
mod pieces;
mod type_faults;

pub use bases::{Base, is_built_in_type};
pub use faults::{Fault, note};
pub use identifiers::is_identifier;
pub use meanings::Meaning;
pub use modules::first_of;
pub use names::Names;
pub use node_lists::{ModelNode, NodeList};
pub use paths::{child_named, step_name};
pub use pieces::pieces as split_pieces;
pub use type_faults::{note_bad_patterns, note_unknown_type, note_wrong_paths};
