//! Why a call for checkpoints gives nothing, and why a migration stops.
ghost use Rattle.std.specs.Prelude.{◌≡◌};
ghost use Rattle.checkpoints.specs.declared.errors.PointError.TheVariants.{Disk as disk_failed, Memory as no_memory};

use host_core::{Failed, Memory};
use std::alloc::AllocError;
use thiserror::Error;

/// Why a checkpoint isn't saved, loaded, listed or deleted.
#[derive(Clone, Copy, Debug, PartialEq, Eq, Error)]
pub enum PointError {
    /// A name has 1 to 64 ASCII letters, digits, `_` and `-`.
    #[error("no name of a checkpoint")]
    BadName,
    /// There is a checkpoint of that name.
    #[error("there is such a checkpoint")]
    Exists,
    /// The greatest sequence number, 4,294,967,295, is taken.
    #[error("no number is left for a checkpoint")]
    Full,
    /// There is no checkpoint of that name.
    #[error("there is no such checkpoint")]
    Absent,
    /// Its file holds no configuration, in either format.
    #[error("the checkpoint holds no configuration")]
    NotConfig,
    /// The host has counted a disk fault.
    #[error("the disk failed")]
    Disk,
    /// There was no memory. Nothing was written.
    #[error("out of memory")]
    Memory,
}

impl From<Memory> for PointError {
    ghost from_gives = { λ _ e. e ≡ no_memory };

    fn from(_: Memory) -> PointError {
        PointError::Memory
    }
}

impl From<AllocError> for PointError {
    ghost from_gives = { λ _ e. e ≡ no_memory };

    fn from(_: AllocError) -> PointError {
        PointError::Memory
    }
}

impl From<Failed> for PointError {
    ghost from_gives = { λ _ e. e ≡ disk_failed };

    fn from(_: Failed) -> PointError {
        PointError::Disk
    }
}

/// Why a migration stopped, and how many lines were printed before.
#[derive(Clone, Copy, Debug, PartialEq, Eq, Error)]
pub enum MigrateFault {
    /// The host has counted a disk fault.
    #[error("the disk failed")]
    Disk { step: usize },
    /// The host has counted a print fault. The next line may have been printed in part or whole.
    #[error("a line wasn't printed")]
    Print { step: usize },
}
