//! The index of referrers: for each want of a configuration, the places that have it.
#![tactic(auto)]

mod differences;
mod entry_names;
mod groups;
mod indexes;
mod leaf_group;
mod place_maps;
mod places;
mod referring;
mod text_sets;

pub use indexes::RefIndex;
pub use places::Place;
