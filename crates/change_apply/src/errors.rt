//! Why a change stops.
use thiserror::Error;

/// Why a change stopped, and how many of its steps were acknowledged before.
#[derive(Clone, Copy, Debug, PartialEq, Eq, Error)]
pub enum ApplyFault {
    /// The host has counted a disk fault.
    #[error("the disk failed")]
    Disk { step: usize },
    /// The host has counted a service fault at the restart of that service, by its position in the rules
    /// file, counted from 0.
    #[error("a service wasn't restarted")]
    Service { step: usize, service: usize },
    /// The host has counted a print fault. The acknowledgement of the next step may have been printed in
    /// part or whole.
    #[error("an acknowledgement wasn't printed")]
    Print { step: usize },
}
