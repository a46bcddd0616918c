//! Why a table can't be gone through.
use host_core::Memory;
use std::alloc::{AllocError, AllocFailed};
use std::io;
use thiserror::Error;

/// Why an example can't be asked.
#[derive(Clone, Copy, Debug, Error)]
pub enum Fail {
    #[error("out of memory")]
    Memory,
    /// The row lacks what is asked, or has it in another form.
    #[error("no such row")]
    Row,
    /// The file can't be read, or nothing can be printed.
    #[error("the system failed")]
    System,
}

impl From<Memory> for Fail {
    fn from(_: Memory) -> Fail {
        Fail::Memory
    }
}

impl From<AllocError> for Fail {
    fn from(_: AllocError) -> Fail {
        Fail::Memory
    }
}

impl<T: Drop> From<AllocFailed<T>> for Fail {
    fn from(_: AllocFailed<T>) -> Fail {
        Fail::Memory
    }
}

impl From<io::Error> for Fail {
    fn from(_: io::Error) -> Fail {
        Fail::System
    }
}
