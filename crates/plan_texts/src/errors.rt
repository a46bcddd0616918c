//! Why bytes are no plan.
ghost use Rattle.std.specs.Prelude.{◌≡◌};
ghost use Rattle.plan_texts.specs.declared.errors.PlanError.TheVariants.{Memory as no_memory};

use host_core::Memory;
use thiserror::Error;

/// Why bytes are no text of a plan.
#[derive(Clone, Copy, Debug, PartialEq, Eq, Error)]
pub enum PlanError {
    /// The first line, counted from 1, that is missing, otherwise written, without its line feed, or too
    /// many.
    #[error("line {line} is none of a plan")]
    BadPlan { line: u32 },
    #[error("out of memory")]
    Memory,
}

impl From<Memory> for PlanError {
    ghost from_gives = { λ _ e. e ≡ no_memory };

    fn from(_: Memory) -> PlanError {
        PlanError::Memory
    }
}
