//! The types of YANG (RFC 7950, section 9, in a profile), and which texts each accepts.
#![tactic(auto)]

mod accepts;
mod addresses;
mod laws;
mod numbers;
mod types;

pub use accepts::accepts_plain;
pub use laws::{flat_types_accept_the_same, texts_are_decided};
pub use types::{Bounds, Builtin, Target, Ty, TyBox, Types};
