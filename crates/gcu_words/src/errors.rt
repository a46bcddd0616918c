//! Why bytes are no script.
ghost use Rattle.std.specs.Prelude.{◌≡◌};
ghost use Rattle.gcu_words.specs.declared.errors.ScriptError.TheVariants.{Memory as no_memory};

use host_core::Memory;
use thiserror::Error;

/// Why bytes are no script of operators.
#[derive(Clone, Copy, Debug, PartialEq, Eq, Error)]
pub enum ScriptError {
    /// The first line, counted from 1, that has no form, has no line feed, or is the 257th.
    #[error("line {line} is none of a script")]
    BadScript { line: u32 },
    #[error("out of memory")]
    Memory,
}

impl From<Memory> for ScriptError {
    ghost from_gives = { λ _ e. e ≡ no_memory };

    fn from(_: Memory) -> ScriptError {
        ScriptError::Memory
    }
}
