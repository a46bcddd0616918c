//! The rule that each step leads to a valid configuration.
ghost use Rattle.std.specs.Prelude.{◌≡◌, ◌↔◌, IsTrue};
ghost use Rattle.conf_check.specs.Validity.{IsValid};

use conf_check::check;
use conf_doc::Config;
use move_core::{Ctx, Move, MoveRule};
use yang_model::Models;

/// Each move leads to a configuration that is valid by its models. It fits all models, and tests the whole
/// configuration each time.
#[derive(Drop)]
pub struct FullRule {}

impl FullRule {
    /// The rule, which keeps nothing.
    pub fn new() -> FullRule
        ensures { ⟦<FullRule as MoveRule>⟧.rule_kind result ≡ 1 }
    {
        FullRule {}
    }
}

impl MoveRule for FullRule {
    ghost rule_kind = { λ _. 1 };

    ghost fits = { λ _ _. Unit {0} };

    fn kind(&self) -> u32 {
        1
    }

    fn begin(&mut self, _ctx: &Ctx) {}

    fn allows(
        &mut self,
        ctx: &Ctx,
        _cur: &Config,
        next: &Config,
        _goal: &Config,
        _mv: &Move,
    ) -> bool {
        is_valid(&ctx.models, next)
    }
}

/// Whether a configuration breaks no rule of its models.
#[tactic(auto, using(crate::proofs::Validity::not_valid))]
fn is_valid(models: &Models, config: &Config) -> bool
    ensures { IsTrue result ↔ IsValid models.now config.now }
{
    match check(models, config) {
        Ok(()) => true,
        Err(_) => false,
    }
}
