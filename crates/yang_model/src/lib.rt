//! Models of YANG texts (RFC 7950, in a profile): the shapes of the entries of each table, or the
//! exact fault of the texts.
#![tactic(auto)]

mod belonging;
mod compiling;
mod errors;
mod fields;
mod laws;
mod models;
mod musts;
mod name_index;
mod shapes;
mod tables;

pub use compiling::compile;
pub use errors::ModelError;
pub use laws::{
    belongs_once, models_are_one, models_are_stored_flat, readers_are_one, readers_exist,
};
pub use models::Models;
pub use shapes::{FieldRule, KeyLeaf, MustRule, Shape};
