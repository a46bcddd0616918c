//! The services that are restarted after a move.
#![tactic(auto)]

mod services;

pub use services::{Services, services_of};
