//! Where moves are asked for: by what they are judged, and three valid configurations.
ghost use Rattle.std.specs.Prelude.{IfOk};
ghost use Rattle.move_core.specs.Contexts.{IsNamed, IsValidIn};
ghost use Rattle.move_core.specs.Named.{HasNames};
ghost use Rattle.move_examples.specs.Situations.{IsReady};

use crate::inputs::models_at;
use conf_check::check;
use conf_doc::Config;
use example_rows::{Fail, config_at, has, text_bytes};
use move_core::{Ctx, RulesError, Settings, read_rules};
use serde_json::Value;
use std::alloc::Global;

/// Where a plan began, where it stands, and where it leads to.
#[derive(Drop)]
pub struct Situation {
    pub ctx: Ctx,
    pub start: Config,
    pub cur: Config,
    pub goal: Config,
}

/// The situation of a row: it names its `models`, and has its `rules` where they aren't those of the
/// inputs, `start` where it isn't `cur`, `cur` and `goal`.
pub fn situation_at(alloc: Global, inputs: &Value, row: &Value) -> Result<Situation, Fail>
    ensures { IfOk result IsReady }
{
    let ctx = ctx_at(alloc, inputs, row)?;
    match configs_at(alloc, &ctx, row) {
        Ok((start, cur, goal)) => Ok(Situation {
            ctx,
            start,
            cur,
            goal,
        }),
        Err(fail) => {
            drop(ctx);
            Err(fail)
        }
    }
}

/// The three configurations of a row.
fn configs_at(alloc: Global, ctx: &Ctx, row: &Value) -> Result<(Config, Config, Config), Fail>
    ensures start { IfOk result (λ configs. IsValidIn ctx.now configs.0) }
    ensures cur { IfOk result (λ configs. IsValidIn ctx.now configs.1) }
    ensures goal { IfOk result (λ configs. IsValidIn ctx.now configs.2) }
{
    let cur = valid_at(alloc, ctx, row, "cur")?;
    match ends_at(alloc, ctx, row) {
        Ok((start, goal)) => Ok((start, cur, goal)),
        Err(fail) => {
            drop(cur);
            Err(fail)
        }
    }
}

/// Where the plan of a row began, and where it leads to.
fn ends_at(alloc: Global, ctx: &Ctx, row: &Value) -> Result<(Config, Config), Fail>
    ensures start { IfOk result (λ ends. IsValidIn ctx.now ends.0) }
    ensures goal { IfOk result (λ ends. IsValidIn ctx.now ends.1) }
{
    let goal = valid_at(alloc, ctx, row, "goal")?;
    match valid_at(alloc, ctx, row, start_name(row)) {
        Ok(start) => Ok((start, goal)),
        Err(fail) => {
            drop(goal);
            Err(fail)
        }
    }
}

fn start_name(row: &Value) -> &'static str {
    if has(row, "start") { "start" } else { "cur" }
}

/// The models that a row names, and its rules or those of the inputs.
pub fn ctx_at(alloc: Global, inputs: &Value, row: &Value) -> Result<Ctx, Fail>
    ensures { IfOk result IsNamed }
{
    let settings = rules_at(alloc, inputs, row)?;
    match models_at(alloc, inputs, row) {
        Ok(models) => Ok(Ctx { models, settings }),
        Err(fail) => {
            drop(settings);
            Err(fail)
        }
    }
}

/// The rules of a row, or those of the inputs.
fn rules_at(alloc: Global, inputs: &Value, row: &Value) -> Result<Settings, Fail>
    ensures { IfOk result HasNames }
{
    if has(row, "rules") {
        settings_at(alloc, row)
    } else {
        settings_at(alloc, inputs)
    }
}

fn settings_at(alloc: Global, row: &Value) -> Result<Settings, Fail>
    ensures { IfOk result HasNames }
{
    let bytes = text_bytes(alloc, row, "rules")?;
    match read_rules(alloc, &bytes) {
        Ok(settings) => Ok(settings),
        Err(RulesError::Memory) => Err(Fail::Memory),
        Err(_) => Err(Fail::Row),
    }
}

/// The configuration under a name, which is valid.
fn valid_at(alloc: Global, ctx: &Ctx, row: &Value, name: &str) -> Result<Config, Fail>
    ensures { IfOk result (IsValidIn ctx.now) }
{
    let config = config_at(alloc, row, name)?;
    match check(&ctx.models, &config) {
        Ok(()) => Ok(config),
        Err(_) => {
            drop(config);
            Err(Fail::Row)
        }
    }
}
