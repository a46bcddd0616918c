//! Why files have no models.

ghost use Rattle.std.specs.Prelude.{◌≡◌};
ghost use Rattle.yang_model.specs.declared.errors.ModelError.TheVariants.{Memory};

use host_core::Memory;
use thiserror::Error;
use yang_text::ModelWhy;

/// Why files have no models.
#[derive(Clone, Copy, Debug, Drop, Error)]
pub enum ModelError {
    /// The fault of the lowest file, of its lowest line, and of those the first by name. Files are
    /// counted from 0, lines from 1.
    #[error("line {line} of file {file} of the models: {why:?}")]
    Fault { file: u32, line: u32, why: ModelWhy },
    /// No memory was left.
    #[error("out of memory")]
    Memory,
}

impl From<Memory> for ModelError {
    ghost from_gives = { λ _ e. e ≡ Memory };

    fn from(_e: Memory) -> ModelError {
        ModelError::Memory
    }
}
