//! Checkpoints of a folder: configurations under names, each in a file of its own; those of the old format put
//! anew, each told by a line.
#![tactic(auto)]

mod content;
mod deleting;
mod errors;
mod format;
mod laws;
mod listing;
mod loading;
mod migrating;
mod migration_run;
mod migration_steps;
mod migration_texts;
mod naming;
mod numbering;
mod reading;
mod rewrites;
mod rewriting;
mod saving;
mod tree_text;
mod writing;

pub use deleting::delete;
pub use errors::{MigrateFault, PointError};
pub use laws::{points_are_in_other_files, points_are_in_their_files};
pub use listing::names;
pub use loading::load;
pub use migrating::prepare_migration;
pub use migration_run::migrate;
pub use migration_texts::migration_lines;
pub use naming::is_good_name;
pub use numbering::{Numbered, numbers};
pub use rewrites::Migration;
pub use rewriting::put_one;
pub use saving::save;
