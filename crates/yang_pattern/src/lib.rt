//! YANG patterns (RFC 7950, section 9.4.5, in a profile), and a matcher that is their language.
#![tactic(auto)]

mod classes;
mod counts;
mod errors;
mod faults;
mod fragments;
mod frames;
mod laws;
mod letters;
mod parts;
mod patterns;
mod read_tokens;
mod sets;
mod symbols;
mod tokens;
mod walks;

pub use errors::PatternError;
pub use laws::{matches_are_decided, patterns_are_decided};
pub use patterns::Pattern;
