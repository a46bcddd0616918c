//! Tables of examples: JSON files, each a list of rows that say what is asked and what is answered.
#![tactic(auto)]

mod errors;
mod hosts;
mod lines;
mod rows;
mod tables;
mod values;

pub use errors::Fail;
pub use hosts::{Pairs, faults_at, faults_from, file_text, host_with, push_pairs, push_pairs_at};
pub use lines::{line_of, push_word};
pub use rows::{
    byte_at, has, has_in, is_null, is_number, is_text, is_word, is_written, item_of, items_at,
    items_of, names_in, number_at, says, size_at, some_number, text_at, text_bytes, text_of,
    text_or, truth_at, value_at, value_bytes, written_at,
};
pub use tables::{Table, tell_all};
pub use values::{are_names, config_at, names_of};
