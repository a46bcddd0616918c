//! Configurations and JSON documents as values: how they are read, shaped, changed, compared and written.
#![tactic(auto)]

mod blocks;
mod changes;
mod comparisons;
mod configuration;
mod entries;
mod errors;
mod indexes;
mod joining;
mod laws;
mod list_holders;
mod parts;
mod paths;
mod places;
mod pointers;
mod reading;
mod sameness;
mod shaping;
mod sorted;
mod stops;
mod taking;
mod tree_copies;
mod tree_texts;
mod trees;
mod writing;

pub use configuration::{Config, Entry, Table, Value};
pub use errors::{ReadError, ShapeError};
pub use laws::compact_reads_back;
pub use parts::{Part, part_tree};
pub use paths::Path;
pub use pointers::pointer_of;
pub use reading::{json_value, read_tree, tree_of_value};
pub use shaping::{config_of, config_of_tree};
pub use taking::tree_of_config;
pub use trees::{Items, Members, Tree};
pub use writing::{file_bytes, tree_bytes, tree_of};
