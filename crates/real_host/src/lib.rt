//! The working folder, standard output and `restarts.log` as a host, and the words of the command line.
#![tactic(auto)]

mod as_host;
mod command_line;
mod folder;
mod listing;
mod opening;
mod reading;
mod requests;
mod restarts;
mod scratch_names;
mod settling;
mod unsynced;

pub use as_host::RealHost;
pub use command_line::words;
pub use reading::{read_in_turns, read_input};
