//! A switch of several ASICs: patches over all of them, and one folder seen as a folder for each.
#![tactic(auto)]

mod errors;
mod laws;
mod listing;
mod names;
mod scope;
mod scoped_host;
mod splitting;

pub use errors::SplitError;
pub use laws::{
    asics_have_files_of_their_own, images_are_seen, localhost_has_files_of_its_own,
    localhost_shows_the_folder,
};
pub use scope::Scope;
pub use scoped_host::ScopedHost;
pub use splitting::{Scoped, split};
