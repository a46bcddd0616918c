//! Why a rules file isn't read.
ghost use Rattle.move_core.specs.declared.errors.RulesError.TheVariants.{Memory as wanting};

use host_core::Memory;
use thiserror::Error;

/// Why a JSON value is no rules file: the first that applies.
#[derive(Clone, Copy, Debug, PartialEq, Eq)]
pub enum RulesWhy {
    /// It is no object, or has a member that isn't one of the three.
    Top,
    /// `create_only` isn't a list of pairs of a table and a field.
    CreateOnly,
    /// `required` isn't a list of required values.
    Required,
    /// `services` isn't a list of services with distinct names.
    Services,
}

/// Why bytes are no rules file.
#[derive(Clone, Copy, Debug, PartialEq, Eq, Error)]
pub enum RulesError {
    #[error("not a JSON text")]
    BadJson,
    #[error("not a rules file")]
    Bad { why: RulesWhy },
    #[error("out of memory")]
    Memory,
}

impl From<Memory> for RulesError {
    ghost use Rattle.std.specs.Prelude.{◌≡◌};
    ghost use Rattle.move_core.specs.declared.errors.RulesError.TheVariants.{Memory as wanting};

    ghost from_gives = { λ _ e. e ≡ wanting };

    fn from(_error: Memory) -> RulesError {
        RulesError::Memory
    }
}
