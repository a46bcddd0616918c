//! Why a text is no expression.

ghost use Rattle.xpath_part.specs.declared.errors.ExprError.TheVariants.{Memory as no_memory};

use host_core::Memory;
use std::alloc::{AllocError, AllocFailed};
use thiserror::Error;

/// Why `Expr::read` gives no expression.
#[derive(Clone, Copy, Debug, PartialEq, Eq, Error)]
pub enum ExprError {
    /// The text is no expression. `at` is a position in it or its length, and not behind the fault.
    #[error("not an expression, at {at}")]
    Bad { at: usize },
    /// No memory was left.
    #[error("out of memory")]
    Memory,
}

impl From<Memory> for ExprError {
    ghost use Rattle.std.specs.Prelude.{◌≡◌};

    ghost from_gives = { λ _ e. e ≡ no_memory };

    fn from(_e: Memory) -> ExprError {
        ExprError::Memory
    }
}

impl From<AllocError> for ExprError {
    ghost use Rattle.std.specs.Prelude.{◌≡◌};

    ghost from_gives = { λ _ e. e ≡ no_memory };

    fn from(_e: AllocError) -> ExprError {
        ExprError::Memory
    }
}

impl<T: Drop> From<AllocFailed<T>> for ExprError {
    ghost use Rattle.std.specs.Prelude.{◌≡◌};

    ghost from_gives = { λ _ e. e ≡ no_memory };

    fn from(_e: AllocFailed<T>) -> ExprError {
        ExprError::Memory
    }
}
