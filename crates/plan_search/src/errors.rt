//! Why a search gives no plan.
ghost use Rattle.plan_search.specs.declared.errors.SearchError.TheVariants.{Memory as wanting};

use host_core::Memory;
use thiserror::Error;

/// Why there is no plan.
#[derive(Clone, Copy, Debug, PartialEq, Eq, Error)]
pub enum SearchError {
    /// No list of allowed moves leads from start to goal.
    #[error("no order of moves")]
    Unorderable,
    /// That many configurations other than goal were met.
    #[error("budget of {0} met")]
    Budget(u32),
    #[error("out of memory")]
    Memory,
}

impl From<Memory> for SearchError {
    ghost use Rattle.std.specs.Prelude.{◌≡◌};
    ghost use Rattle.plan_search.specs.declared.errors.SearchError.TheVariants.{Memory as wanting};

    ghost from_gives = { λ _ e. e ≡ wanting };

    fn from(_error: Memory) -> SearchError {
        SearchError::Memory
    }
}
