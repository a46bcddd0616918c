//! The folder of a configuration: what its files stand for, and how files are written so that a crash at
//! any moment leaves them standing for something known.
#![tactic(auto)]

mod clearing;
mod errors;
mod folder_files;
mod folding;
mod intent_file;
mod keeping;
mod loaded;
mod loading;
mod putting;
mod putting_steps;
mod settling;
mod shapes;
mod step_files;
mod steps_read;
mod stored_files;
mod trees_found;

pub use errors::{LoadError, StoredWhy};
pub use folding::fold;
pub use intent_file::INTENT_FILE;
pub use loaded::Stored;
pub use loading::{count_steps, load, load_tree};
pub use putting::put_file;
pub use putting_steps::put_step;
pub use settling::remove_file;
pub use shapes::is_configuration;
pub use step_files::step_name;
pub use stored_files::read_config;
