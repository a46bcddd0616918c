//! What is wrong with a patch over several scopes.
ghost use Rattle.std.specs.Prelude.{◌≡◌};
ghost use Rattle.scopes.specs.declared.errors.SplitError.TheVariants.{Memory as no_memory};

use host_core::Memory;
use std::alloc::{AllocError, AllocFailed};
use thiserror::Error;

/// Why a patch isn't one over scopes.
#[derive(Clone, Copy, Debug, PartialEq, Eq, Error)]
pub enum SplitError {
    /// The first operation, counted from 0, whose `path` or `from` doesn't begin with a scope, or whose
    /// two begin with different ones.
    #[error("operation {index} has no scope")]
    BadScope { index: usize },
    #[error("out of memory")]
    Memory,
}

impl From<Memory> for SplitError {
    ghost from_gives = { λ _ e. e ≡ no_memory };

    fn from(_: Memory) -> SplitError {
        SplitError::Memory
    }
}

impl From<AllocError> for SplitError {
    ghost from_gives = { λ _ e. e ≡ no_memory };

    fn from(_: AllocError) -> SplitError {
        SplitError::Memory
    }
}

impl<T: Drop> From<AllocFailed<T>> for SplitError {
    ghost from_gives = { λ _ e. e ≡ no_memory };

    fn from(_: AllocFailed<T>) -> SplitError {
        SplitError::Memory
    }
}
