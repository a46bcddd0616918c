//! What every crate of gcu stands on: texts, lists, and the host that a command works on.
#![tactic(auto)]

mod comparisons;
mod crash;
mod errors;
mod faults;
mod history;
mod host_calls;
mod images;
mod laws;
mod mem_as_host;
mod mem_host;
mod named_bytes;
mod pending;
mod sequences;
mod short_names;
mod texts;

pub use crash::Pick;
pub use errors::{Failed, HostError, Memory};
pub use faults::{FaultCounts, Faults};
pub use host_calls::{Host, Input};
pub use laws::crash_may_leave_all;
pub use mem_host::MemHost;
pub use sequences::Sequence;
pub use texts::{Names, Txt};
