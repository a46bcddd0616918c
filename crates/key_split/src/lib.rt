//! The key of an entry as its parts, which bars separate, and back.
#![tactic(auto)]

mod key_views;
mod laws;

pub use key_views::{KeyView, join};
pub use laws::parts_are_one;
