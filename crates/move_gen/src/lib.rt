//! The generators of moves, each a box of its kind.
#![tactic(auto)]

mod adding;
mod beside;
mod entries;
mod field_wants;
mod fields;
mod giving;
mod items;
mod keys;
mod seeds;
mod tables;
mod wanting_fields;

pub use fields::{FieldGen, field_moves};
pub use items::ItemGen;
pub use keys::KeyGen;
pub use seeds::SeedGen;
pub use tables::TableGen;
