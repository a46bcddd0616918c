//! The first plan from one configuration to another, searched for by a ledger of its own.
ghost use Rattle.std.specs.Prelude.{◌≡◌, ◌<◌};
ghost use Rattle.move_core.specs.Contexts.{IsNamed, IsValidIn, rulebook};
ghost use Rattle.plan_search.specs.Searches.{IsSearchAnswer};

use crate::planning::search;
use crate::{SearchError, Steps};
use conf_doc::Config;
use move_core::{Boxes, Ctx, Kit, Plan};
use std::alloc::Global;
use std::marker::Brand;
use std::sync::ledger::{Blank, Ledger};

/// Searches for a plan, and counts its steps in a ledger of its own. So many configurations may be met.
pub fn first_plan(
    alloc: Global,
    ctx: &Ctx,
    kit: &mut Kit,
    start: &Config,
    goal: &Config,
    budget: u32,
) -> Result<Plan, SearchError>
    requires kinds { ⟦<Kit as Boxes>⟧.HasKinds kit.old }
    requires named { IsNamed ctx.now }
    requires start { IsValidIn ctx.now start.now }
    requires goal { IsValidIn ctx.now goal.now }
    requires budget { 0 < budget }
    ensures kinds { ⟦<Kit as Boxes>⟧.HasKinds kit.new }
    ensures answer { IsSearchAnswer (rulebook ctx.now) start.now goal.now budget result }
{
    count_steps::<Brand>(alloc, ctx, kit, start, goal, budget, Blank::new(1))
}

/// The same with the ledger that a blank opens.
fn count_steps<L: Ledger>(
    alloc: Global,
    ctx: &Ctx,
    kit: &mut Kit,
    start: &Config,
    goal: &Config,
    budget: u32,
    blank: Blank,
) -> Result<Plan, SearchError>
    requires kinds { ⟦<Kit as Boxes>⟧.HasKinds kit.old }
    requires named { IsNamed ctx.now }
    requires start { IsValidIn ctx.now start.now }
    requires goal { IsValidIn ctx.now goal.now }
    requires budget { 0 < budget }
    requires name { blank.name ≡ L.name }
    requires parts { blank.parts ≡ L.parts }
    requires one { blank.parts ≡ 1 }
    ensures kinds { ⟦<Kit as Boxes>⟧.HasKinds kit.new }
    ensures answer { IsSearchAnswer (rulebook ctx.now) start.now goal.now budget result }
{
    let (book, share) = blank.open::<L>();
    let mut steps = Steps::new(book, share);
    search(alloc, ctx, kit, start, goal, budget, &mut steps)
}
