//! What is wrong with the statements of YANG texts (RFC 7950, in a profile): the least of all faults.
#![tactic(auto)]

mod all_faults;
mod defaults;
mod duplicates;
mod fields;
mod files;
mod forms;
mod keys;
mod kinds;
mod laws;
mod module_scopes;
mod name_sets;
mod own;
mod rows;
mod scopes;
mod sentences;
mod walks;

pub use all_faults::{note_file_faults, note_module_faults};
pub use fields::{first_argument, is_mandatory};
pub use keys::names_in;
pub use laws::tests_exist;
