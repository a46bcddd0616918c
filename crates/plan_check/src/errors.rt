//! Why moves are no plan.
ghost use Rattle.std.specs.Prelude.{◌≡◌};
ghost use Rattle.plan_check.specs.declared.errors.CheckError.TheVariants.{Memory as no_memory};

use host_core::Memory;
use plan_texts::NoWhy;
use thiserror::Error;

/// Why moves are no plan.
#[derive(Clone, Copy, Debug, PartialEq, Eq, Error)]
pub enum CheckError {
    /// The first step at fault, counted from 1, and why; for `WrongEnd` how many steps there are.
    #[error("step {step} is none of a plan")]
    No { step: u32, why: NoWhy },
    #[error("out of memory")]
    Memory,
}

impl From<Memory> for CheckError {
    ghost from_gives = { λ _ e. e ≡ no_memory };

    fn from(_: Memory) -> CheckError {
        CheckError::Memory
    }
}
