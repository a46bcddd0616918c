//! How many entries the first rule checks, where it looks again only at what changed.
ghost use Rattle.move_core.specs.Contexts.{IsNamed};

use crate::ranks::moves_at;
use crate::situations::ctx_at;
use conf_doc::Config;
use example_rows::{Fail, config_at, has, items_at, number_at, truth_at};
use move_core::{Ctx, MoveRule};
use recheck::RecheckRule;
use serde_json::Value;
use std::alloc::Global;

/// A row names its `models`, has its `rules` where they aren't those of the inputs, and the configurations
/// that a rule is `asked` for, one after another. Each is the `config`, whether the rule says yes, which is
/// `valid`, and how many entries it has `checked` until then. The one of the `moves`, the lines of a plan, is told to
/// have led there. Where it `begins` there, the rule begins anew before.
pub fn is_recheck_as_said(alloc: Global, inputs: &Value, row: &Value) -> Result<bool, Fail> {
    let asked = items_at(row, "asked")?;
    let ctx = ctx_at(alloc, inputs, row)?;
    let mut rule = RecheckRule::new(alloc);
    rule.begin(&ctx);
    let answered = answers_all(alloc, &ctx, &mut rule, asked);
    drop(rule);
    drop(ctx);
    answered
}

/// Whether the rule answers of each configuration in turn what is said.
fn answers_all(
    alloc: Global,
    ctx: &Ctx,
    rule: &mut RecheckRule,
    asked: &[Value],
) -> Result<bool, Fail>
    requires named { IsNamed ctx.now }
    requires fits { ⟦<RecheckRule as MoveRule>⟧.fits rule.old ctx.now.models }
{
    match asked {
        [] => Ok(true),
        [first, rest @ ..] => {
            Ok(answers(alloc, ctx, rule, first)? && answers_all(alloc, ctx, rule, rest)?)
        }
    }
}

/// Whether the rule answers of a configuration what is said. It is told of configurations beside it, which it
/// doesn't look at.
fn answers(alloc: Global, ctx: &Ctx, rule: &mut RecheckRule, asked: &Value) -> Result<bool, Fail>
    requires named { IsNamed ctx.now }
    requires fits { ⟦<RecheckRule as MoveRule>⟧.fits rule.old ctx.now.models }
    ensures fits { ⟦<RecheckRule as MoveRule>⟧.fits rule.new ctx.now.models }
{
    let said = truth_at(asked, "valid")?;
    let count = number_at(asked, "checked")?;
    if has(asked, "begins") {
        rule.begin(ctx);
    }
    let config = config_at(alloc, asked, "config")?;
    let valid = allows(alloc, ctx, rule, &config, asked);
    drop(config);
    Ok(said == valid? && rule.checked() == count)
}

/// What the rule answers of a configuration, where the one move led to it.
fn allows(
    alloc: Global,
    ctx: &Ctx,
    rule: &mut RecheckRule,
    config: &Config,
    asked: &Value,
) -> Result<bool, Fail>
    requires named { IsNamed ctx.now }
    requires fits { ⟦<RecheckRule as MoveRule>⟧.fits rule.old ctx.now.models }
    ensures fits { ⟦<RecheckRule as MoveRule>⟧.fits rule.new ctx.now.models }
{
    let moves = moves_at(alloc, asked)?;
    let allowed = match moves.items() {
        [mv] => Ok(rule.allows(ctx, config, config, config, mv)),
        _ => Err(Fail::Row),
    };
    drop(moves);
    allowed
}
