//! What is wrong with a pointer, with a patch, and with an operation.
ghost use Rattle.std.specs.Prelude.{◌≡◌};
ghost use Rattle.patch_core.specs.declared.errors.PatchError.TheVariants.{Memory as PatchMemory};
ghost use Rattle.patch_core.specs.declared.errors.PointerError.TheVariants.{Memory as PointerMemory};
ghost use Rattle.patch_core.specs.declared.errors.ApplyError.TheVariants.{Memory as ApplyMemory};
ghost use Rattle.patch_core.specs.declared.errors.Stop.TheVariants.{Fails, Memory as StopMemory};

use host_core::Memory;
use std::alloc::AllocError;
use thiserror::Error;

/// Why a text is no pointer.
#[derive(Clone, Copy, Debug, PartialEq, Eq, Error)]
pub enum PointerError {
    /// It is neither empty nor begins with `/`, or a `~` is followed by neither `0` nor `1`.
    #[error("not a JSON pointer")]
    Malformed,
    #[error("out of memory")]
    Memory,
}

impl From<AllocError> for PointerError {
    ghost from_gives = { λ _ e. e ≡ PointerMemory };

    fn from(_error: AllocError) -> PointerError {
        PointerError::Memory
    }
}

impl From<Memory> for PointerError {
    ghost from_gives = { λ _ e. e ≡ PointerMemory };

    fn from(_error: Memory) -> PointerError {
        PointerError::Memory
    }
}

/// What is wrong with an element of a patch.
#[derive(Clone, Copy, Debug, PartialEq, Eq)]
pub enum PatchWhy {
    /// The document is no array.
    NotArray,
    /// The element is no object.
    NotObject,
    /// `op` is missing or no text.
    NoOp,
    /// `op` is none of add, remove, replace, move, copy and test.
    UnknownOp,
    /// `path` is missing or no text.
    NoPath,
    /// `path` is no pointer.
    BadPath,
    /// An add, replace or test has no `value`.
    NoValue,
    /// That `value` has a number, true, false or null anywhere.
    BadValue,
    /// A move or copy has no `from`, or it is no text.
    NoFrom,
    /// `from` is no pointer.
    BadFrom,
}

/// Why bytes are no patch.
#[derive(Clone, Copy, Debug, PartialEq, Eq, Error)]
pub enum PatchError {
    #[error("not a JSON text")]
    BadJson,
    /// The first element at fault, counted from 0, and its first fault. `NotArray` has the index 0.
    #[error("operation {index} is malformed")]
    BadPatch { index: usize, why: PatchWhy },
    #[error("out of memory")]
    Memory,
}

impl From<Memory> for PatchError {
    ghost from_gives = { λ _ e. e ≡ PatchMemory };

    fn from(_error: Memory) -> PatchError {
        PatchError::Memory
    }
}

/// Why an element is no operation.
#[derive(Clone, Copy)]
pub(crate) enum ElementError {
    /// Its first fault.
    Malformed(PatchWhy),
    Memory,
}

/// Why an operation fails.
#[derive(Clone, Copy, Debug, PartialEq, Eq)]
pub enum FailWhy {
    /// A token before the last names nothing, or the parent of the last is a text.
    NoParent,
    /// A token at a list is neither an index nor `-`, or an add has an index past the length.
    BadIndex,
    /// There is nothing to remove, replace, test, move or copy.
    NoTarget,
    /// The root can't be removed.
    RootRemove,
    /// A test found another document.
    TestFailed,
    /// A move would put a document into itself.
    IntoItself,
    /// The tree after the operation nests deeper than 127 or weighs more than 8,388,608.
    TooLarge,
}

/// Why a patch isn't applied.
#[derive(Clone, Copy, Debug, PartialEq, Eq, Error)]
pub enum ApplyError {
    /// The first operation that fails, counted from 0.
    #[error("operation {index} fails")]
    Failed { index: usize, why: FailWhy },
    #[error("out of memory")]
    Memory,
}

impl From<Memory> for ApplyError {
    ghost from_gives = { λ _ e. e ≡ ApplyMemory };

    fn from(_error: Memory) -> ApplyError {
        ApplyError::Memory
    }
}

/// Why one operation isn't done.
#[derive(Clone, Copy)]
pub(crate) enum Stop {
    Memory,
    Fails(FailWhy),
}

impl From<FailWhy> for Stop {
    ghost from_gives = { λ why stop. stop ≡ Fails why };

    fn from(why: FailWhy) -> Stop {
        Stop::Fails(why)
    }
}

impl From<Memory> for Stop {
    ghost from_gives = { λ _ stop. stop ≡ StopMemory };

    fn from(_memory: Memory) -> Stop {
        Stop::Memory
    }
}
