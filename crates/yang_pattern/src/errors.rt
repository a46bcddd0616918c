//! Why a text is no pattern.

ghost use Rattle.std.specs.Prelude.{◌≡◌};
ghost use Rattle.yang_pattern.specs.declared.errors.PatternError.TheVariants.{Memory};
ghost use Rattle.yang_pattern.specs.declared.errors.Failure.TheVariants.{NoMemory};

use std::alloc::{AllocError, AllocFailed};
use thiserror::Error;

/// Why `Pattern::read` gives no pattern.
#[derive(Debug, Drop, Error)]
pub enum PatternError {
    /// The text is no pattern. `at` is the first error's offset in bytes: where the character,
    /// escape, class or quantifier begins that can't stand there or has no end, or the text's length
    /// where a group has no end or the pattern is too large.
    #[error("not a pattern, at {at}")]
    Bad { at: usize },
    /// No memory was left.
    #[error("out of memory")]
    Memory,
}

impl From<AllocError> for PatternError {
    ghost from_gives = { λ _ e. e ≡ Memory };

    fn from(_e: AllocError) -> PatternError {
        PatternError::Memory
    }
}

/// Why a part of a text is not read, wherever it fails.
#[derive(Drop)]
pub enum Failure {
    /// The text is no pattern.
    NoPattern,
    /// No memory was left.
    NoMemory,
}

impl From<AllocError> for Failure {
    ghost from_gives = { λ _ e. e ≡ NoMemory };

    fn from(_e: AllocError) -> Failure {
        Failure::NoMemory
    }
}

impl<T: Drop> From<AllocFailed<T>> for Failure {
    ghost from_gives = { λ _ e. e ≡ NoMemory };

    fn from(_e: AllocFailed<T>) -> Failure {
        Failure::NoMemory
    }
}
