//! What holds of plans.
ghost use Rattle.std.specs.Prelude.{◌≡◌, ℕ, List};
ghost use Rattle.conf_doc.specs.declared.configuration.Config.{Config};
ghost use Rattle.move_core.specs.Contexts.{rulebook};
ghost use Rattle.move_core.specs.Plans.{IsPlan};
ghost use Rattle.move_core.specs.declared.contexts.Ctx.{Ctx};
ghost use Rattle.move_core.specs.declared.moves.Move.{Move};
ghost use Rattle.plan_check.specs.Checks.{IsFirstFault};
ghost use Rattle.plan_texts.specs.declared.causes.NoWhy.{NoWhy as Cause};

use move_core::listed_moves_are_defined;

/// A plan has no fault: where a search gives a plan, the check of it is passed, unless memory is wanting.
pub fn plans_are_accepted()
    ensures { (ctx : Ctx) (start goal : Config) (ms : List Move) (step : ℕ) (why : Cause)
        → IsPlan (rulebook ctx) start goal ms
        → ¬ IsFirstFault (rulebook ctx) start goal ms step why }
{
    listed_moves_are_defined();
}

/// Moves have at most one first fault. The body does nothing: the law is the contract.
pub fn plan_faults_are_one()
    ensures { (ctx : Ctx) (start goal : Config) (ms : List Move) (step other : ℕ) (why also : Cause)
        → IsFirstFault (rulebook ctx) start goal ms step why
        → IsFirstFault (rulebook ctx) start goal ms other also
        → (step ≡ other) × (why ≡ also) }
{
    listed_moves_are_defined();
}
