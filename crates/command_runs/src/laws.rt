//! What holds of what commands print.
ghost use Rattle.std.specs.Prelude.{ℕ, List};
ghost use Rattle.command_runs.specs.OneWork.{HasOneNumber, PlansAreTold, WorkIsOne};

use patch_core::tokens_of_pointer;

/// An output tells one list of moves, those of a plan or those that operators commit, and one number of steps
/// that are acknowledged. The body does nothing of its own: the law is the contract.
pub fn outputs_tell_one_work()
    ensures number { (text : List ℕ) → HasOneNumber text }
    ensures plans { PlansAreTold }
    ensures work { WorkIsOne }
{
    tokens_of_pointer();
}
