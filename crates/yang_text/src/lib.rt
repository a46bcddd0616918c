//! The statements of a YANG text (RFC 7950, section 6), or its first fault.
#![tactic(auto)]

mod building;
mod errors;
mod faults;
mod laws;
mod lexing;
mod reading;
mod statements;

pub use errors::{ModelWhy, TextError};
pub use laws::{faultless_is_spelled, one_spelling, read_is_spelled};
pub use reading::parse;
pub use statements::{Statement, Statements};
