//! The errors of this crate: want of memory, and calls of a host that fail.
ghost use Rattle.std.specs.Prelude.{◌≡◌};
ghost use Rattle.host_core.specs.declared.errors.HostError.TheVariants.{Memory as no_memory};

use std::alloc::{AllocError, AllocFailed};
use thiserror::Error;

/// There was no memory. Nothing else is wrong, and the same call may succeed later.
#[derive(Clone, Copy, Debug, PartialEq, Eq, Error)]
#[error("out of memory")]
pub struct Memory;

impl From<AllocError> for Memory {
    ghost from_gives = { λ _ m. m ≡ record {} };

    fn from(_: AllocError) -> Memory {
        Memory
    }
}

impl<T: Drop> From<AllocFailed<T>> for Memory {
    ghost from_gives = { λ _ m. m ≡ record {} };

    fn from(_: AllocFailed<T>) -> Memory {
        Memory
    }
}

/// A call of the host failed, and the host has counted the fault.
#[derive(Clone, Copy, Debug, PartialEq, Eq, Error)]
#[error("the host failed")]
pub struct Failed;

/// Why a call of the host that hands out bytes or names failed.
#[derive(Clone, Copy, Debug, PartialEq, Eq, Error)]
pub enum HostError {
    /// The host has counted a fault.
    #[error("the host failed")]
    Failed,
    /// There was no memory for what is handed out.
    #[error("out of memory")]
    Memory,
}

impl From<Memory> for HostError {
    ghost from_gives = { λ _ e. e ≡ no_memory };

    fn from(_: Memory) -> HostError {
        HostError::Memory
    }
}

impl From<AllocError> for HostError {
    ghost from_gives = { λ _ e. e ≡ no_memory };

    fn from(_: AllocError) -> HostError {
        HostError::Memory
    }
}

impl<T: Drop> From<AllocFailed<T>> for HostError {
    ghost from_gives = { λ _ e. e ≡ no_memory };

    fn from(_: AllocFailed<T>) -> HostError {
        HostError::Memory
    }
}
