//! What holds of the texts of plans.
ghost use Rattle.std.specs.Prelude.{◌≡◌, ℕ, List};
ghost use Rattle.move_core.specs.declared.moves.Move.{Move};
ghost use Rattle.plan_texts.specs.PlanTexts.{IsFirstFault, IsPlanText};

use patch_core::patch_reads_back;

/// Bytes are the text of one plan, or have one first fault. The body does nothing: the law is the contract.
pub fn plan_texts_are_one()
    ensures plan { (text : List ℕ) (ms ns : List Move)
        → IsPlanText text ms → IsPlanText text ns → ms ≡ ns }
    ensures good { (text : List ℕ) (ms : List Move) (line : ℕ)
        → IsPlanText text ms → ¬ IsFirstFault text line }
    ensures fault { (text : List ℕ) (line other : ℕ)
        → IsFirstFault text line → IsFirstFault text other → line ≡ other }
{
    patch_reads_back();
}
