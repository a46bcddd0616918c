//! Why a folder stands for no configuration, and why it isn't loaded.
ghost use Rattle.std.specs.Prelude.{◌≡◌};
ghost use Rattle.conf_store.specs.declared.errors.LoadError.TheVariants.{Memory as no_memory};

use host_core::Memory;
use thiserror::Error;

/// Why the files of a folder stand for no configuration.
#[derive(Clone, Copy, Debug, PartialEq, Eq)]
pub enum StoredWhy {
    /// There is neither `config_db.folded` nor `config_db.json`.
    NoFile,
    /// The file that is used is no JSON text.
    BadJson,
    /// It holds a number, true, false or null.
    BadKind,
    /// It isn't a map of tables of entries of fields.
    BadShape,
    /// The step file of that number is no patch, fails, or leaves no configuration.
    BadStep(u32),
}

/// Why a folder isn't loaded.
#[derive(Clone, Copy, Debug, PartialEq, Eq, Error)]
pub enum LoadError {
    /// It stands for no configuration.
    #[error("the folder stands for no configuration")]
    Bad(StoredWhy),
    /// The host has counted a disk fault.
    #[error("the disk failed")]
    Disk,
    #[error("out of memory")]
    Memory,
}

impl From<Memory> for LoadError {
    ghost from_gives = { λ _ e. e ≡ no_memory };

    fn from(_: Memory) -> LoadError {
        LoadError::Memory
    }
}
