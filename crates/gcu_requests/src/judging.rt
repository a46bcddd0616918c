//! Whether what is stored and the goal of a plan are valid, and where they aren't.
ghost use Rattle.std.specs.Prelude.{◌≡◌, IfErr, OnOk};
ghost use Rattle.conf_check.specs.Validity.{IsFirstViolation};
ghost use Rattle.move_core.specs.Contexts.{IsValidIn};
ghost use Rattle.gcu_inputs.specs.Preparing.{IsRightBy, RefusesAlways};
ghost use Rattle.gcu_requests.specs.Judging.{TellsFirst, answer_of};
ghost use Rattle.gcu_requests.specs.PlanAsked.{IsValidOr};

use crate::violation_fields::rule_numbered;
use crate::violation_places::place_of;
use conf_check::{RuleName, Violation, check};
use conf_doc::Config;
use gcu_output::Outcome;
use host_core::Txt;
use move_core::Ctx;
use std::alloc::Global;
use yang_model::Models;

/// Which configuration is judged.
#[derive(Clone, Copy)]
pub(crate) enum End {
    /// The one that is stored, or that a plan begins with.
    Start,
    /// The one that it leads to.
    Goal,
}

/// Ok where a configuration is valid.
pub(crate) fn judge(alloc: Global, end: End, ctx: &Ctx, config: &Config) -> Result<(), Outcome>
    ensures answer { IsRightBy (λ _. config.now) result
        (IsValidOr (answer_of end) ctx.now config.now) }
    ensures valid { OnOk result (IsValidIn ctx.now config.now) }
    ensures cause { IfErr result RefusesAlways }
{
    match check(&ctx.models, config) {
        Ok(()) => Ok(()),
        Err(violation) => Err(invalid(alloc, end, &ctx.models, config, &violation)),
    }
}

/// The refusal of a violation.
pub(crate) fn invalid(
    alloc: Global,
    end: End,
    models: &Models,
    config: &Config,
    violation: &Violation,
) -> Outcome
    requires { IsFirstViolation models.now config.now violation.now }
    ensures answer { TellsFirst end models.now config.now result }
    ensures cause { RefusesAlways result }
{
    match (
        place_of(alloc, models, config, violation),
        rule_numbered(violation.rule),
    ) {
        (Ok(place), Some(rule)) => answer(end, place, rule),
        _ => Outcome::Memory,
    }
}

/// The refusal with its place and its rule.
fn answer(end: End, place: Txt, rule: RuleName) -> Outcome
    ensures { result ≡ answer_of end place rule }
{
    match end {
        End::Start => Outcome::CurrentInvalid { place, rule },
        End::Goal => Outcome::TargetInvalid { place, rule },
    }
}
