//! How many configurations a search expands, and how often it asks each box of a kit.
ghost use Rattle.std.specs.Prelude.{◌≡◌, ◌<◌, IfOk};
ghost use Rattle.move_core.specs.Contexts.{IsNamed, IsValidIn};
ghost use Rattle.move_examples.specs.Situations.{IsReady};

use crate::situations::Situation;
use conf_doc::Config;
use example_rows::{Fail, has, number_at};
use move_core::{Boxes, Ctx, Kit, Plan};
use plan_search::{SearchError, Steps, search};
use serde_json::Value;
use std::alloc::Global;
use std::marker::Brand;
use std::sync::ledger::{Blank, Ledger};

/// A budget that ends no search of the rows.
const AMPLE: u32 = 10_000;

/// A row has a situation, how many configurations a search from `cur` to `goal`, with the row's `budget` where
/// it has one, has `expanded`, and how often it has asked each of the `generators`, `extenders` and `rules`, in
/// the order of their numbers. Generators are asked at each configuration that is expanded, and again where the
/// search comes back to one, an extender of each move that it may extend, the rule of create-only fields of each
/// move that is tried, and each other rule where all have said yes that the search asks before it.
pub fn is_search_as_said(
    alloc: Global,
    kit: &mut Kit,
    situation: &Situation,
    row: &Value,
) -> Result<bool, Fail>
    requires kinds { ⟦<Kit as Boxes>⟧.HasKinds kit.old }
    requires ready { IsReady situation.now }
{
    let Situation { ctx, cur, goal, .. } = situation;
    let budget = budget_at(row)?;
    let (found, expanded) = find_plan(alloc, ctx, kit, cur, goal, budget);
    let starved = matches!(&found, Err(SearchError::Memory));
    drop(found);
    if starved {
        return Err(Fail::Memory);
    }
    Ok(expanded == number_at(row, "expanded")?)
}

/// The budget of a row, which is above 0, or one that ends no search.
fn budget_at(row: &Value) -> Result<u32, Fail>
    ensures { IfOk result (λ budget. 0 < budget) }
{
    if !has(row, "budget") {
        return Ok(AMPLE);
    }
    match u32::try_from(number_at(row, "budget")?) {
        Ok(budget) if budget > 0 => Ok(budget),
        _ => Err(Fail::Row),
    }
}

/// Searches for a plan, and tells how many configurations are expanded.
fn find_plan(
    alloc: Global,
    ctx: &Ctx,
    kit: &mut Kit,
    cur: &Config,
    goal: &Config,
    budget: u32,
) -> (Result<Plan, SearchError>, u64)
    requires kinds { ⟦<Kit as Boxes>⟧.HasKinds kit.old }
    requires named { IsNamed ctx.now }
    requires cur { IsValidIn ctx.now cur.now }
    requires goal { IsValidIn ctx.now goal.now }
    requires budget { 0 < budget }
    ensures kinds { ⟦<Kit as Boxes>⟧.HasKinds kit.new }
{
    count_steps::<Brand>(alloc, ctx, kit, cur, goal, budget, Blank::new(1))
}

/// The same, where the steps are counted in a ledger.
fn count_steps<L: Ledger>(
    alloc: Global,
    ctx: &Ctx,
    kit: &mut Kit,
    cur: &Config,
    goal: &Config,
    budget: u32,
    blank: Blank,
) -> (Result<Plan, SearchError>, u64)
    requires kinds { ⟦<Kit as Boxes>⟧.HasKinds kit.old }
    requires named { IsNamed ctx.now }
    requires cur { IsValidIn ctx.now cur.now }
    requires goal { IsValidIn ctx.now goal.now }
    requires budget { 0 < budget }
    requires name { blank.name ≡ L.name }
    requires parts { blank.parts ≡ L.parts }
    requires one { blank.parts ≡ 1 }
    ensures kinds { ⟦<Kit as Boxes>⟧.HasKinds kit.new }
{
    let (book, share) = blank.open::<L>();
    let mut steps = Steps::new(book, share);
    let found = search(alloc, ctx, kit, cur, goal, budget, &mut steps);
    (found, steps.count())
}
