//! What may be wrong with models and their texts.

ghost use Rattle.std.specs.Prelude.{◌≡◌};
ghost use Rattle.yang_text.specs.Whys.{why_number};
ghost use Rattle.yang_text.specs.declared.errors.TextError.TheVariants.{Memory};

use host_core::Memory;
use std::alloc::{AllocError, AllocFailed};
use thiserror::Error;

/// Why models are refused, in the order in which faults on one line are answered. The first four come
/// from the text of a file.
#[derive(Clone, Copy, Debug, PartialEq, Eq)]
pub enum ModelWhy {
    /// A byte is part of no character.
    NotUtf8,
    /// An unterminated comment or quote, an invalid escape, a stray `*/`, or something that begins no token.
    BadToken,
    /// A brace or a semicolon is missing or too much, or the file ends before an argument does.
    Unbalanced,
    /// Blocks nest deeper than 32.
    TooDeep,
    /// A statement isn't allowed there.
    Unsupported,
    /// A statement is given more often than it may be.
    Repeated,
    /// A statement is missing.
    Missing,
    /// An argument is missing or of a wrong form.
    BadArgument,
    /// A name is given twice.
    Duplicate,
    /// A name names nothing.
    UnknownName,
    /// A type is defined by itself.
    Circle,
    /// A pattern isn't of the profile.
    BadPattern,
    /// An expression isn't of the profile.
    BadExpr,
    /// There are too many key leaves or models.
    TooMany,
}

impl ModelWhy {
    /// The place in the order of the names, from 0.
    pub fn number(self) -> u32
        ensures { result ≡ why_number self }
    {
        match self {
            ModelWhy::NotUtf8 => 0,
            ModelWhy::BadToken => 1,
            ModelWhy::Unbalanced => 2,
            ModelWhy::TooDeep => 3,
            ModelWhy::Unsupported => 4,
            ModelWhy::Repeated => 5,
            ModelWhy::Missing => 6,
            ModelWhy::BadArgument => 7,
            ModelWhy::Duplicate => 8,
            ModelWhy::UnknownName => 9,
            ModelWhy::Circle => 10,
            ModelWhy::BadPattern => 11,
            ModelWhy::BadExpr => 12,
            ModelWhy::TooMany => 13,
        }
    }
}

/// Why a text has no statements.
#[derive(Clone, Copy, Debug, Drop, Error)]
pub enum TextError {
    /// The fault of the lowest line, and of those the first by name. Lines are counted from 1.
    #[error("line {line} of the model: {why:?}")]
    Fault { line: u32, why: ModelWhy },
    /// No memory was left.
    #[error("out of memory")]
    Memory,
}

impl From<AllocError> for TextError {
    ghost from_gives = { λ _ e. e ≡ Memory };

    fn from(_e: AllocError) -> TextError {
        TextError::Memory
    }
}

impl<T: Drop> From<AllocFailed<T>> for TextError {
    ghost from_gives = { λ _ e. e ≡ Memory };

    fn from(_e: AllocFailed<T>) -> TextError {
        TextError::Memory
    }
}

impl From<Memory> for TextError {
    ghost from_gives = { λ _ e. e ≡ Memory };

    fn from(_e: Memory) -> TextError {
        TextError::Memory
    }
}
