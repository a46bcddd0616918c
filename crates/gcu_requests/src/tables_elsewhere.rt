//! Tables without a model, which no move changes.
ghost use Rattle.std.specs.Prelude.{◌≡◌, ◌↔◌, IsTrue, MatchOption, option_copied};
ghost use Rattle.std.specs.Bool.{MatchBool};
ghost use Rattle.move_core.specs.Contexts.{AgreeElsewhere};
ghost use Rattle.gcu_requests.specs.GoalTables.{AgreeAt, DifferAt, IsFirstDifference};
ghost use Rattle.gcu_requests.specs.TableWalks.{AreAt, AreBelow, IsLesser};

use conf_doc::{Config, Table};
use move_core::Ctx;

/// The first table by name that has no model and differs between two configurations, or None where they
/// agree on all tables without a model.
pub(crate) fn difference_elsewhere<'c>(ctx: &Ctx, a: &'c Config, b: &'c Config) -> Option<&'c str>
    ensures { MatchOption result (AgreeElsewhere ctx.now a.now b.now)
        (λ t. IsFirstDifference ctx.now a.now b.now t.now) }
{
    lesser(first_difference(ctx, a, b), first_difference(ctx, b, a))
}

/// The first table of a configuration that has no model and differs from that of another one.
fn first_difference<'c>(ctx: &Ctx, of: &'c Config, other: &Config) -> Option<&'c str>
    ensures { MatchOption result
        (AreAt (AgreeAt ctx.now of.now other.now) of.now)
        (λ t. DifferAt ctx.now of.now other.now t.now
        × AreBelow (AgreeAt ctx.now of.now other.now) of.now t.now) }
{
    for i in 0..of.len() {
        let name = of.name_at(i);
        if !agree(ctx, of, other, name) {
            return Some(name);
        }
    }
    None
}

/// Whether the table of a name has a model, or is the same in both configurations.
fn agree(ctx: &Ctx, a: &Config, b: &Config, name: &str) -> bool
    ensures { MatchBool result
        (AgreeAt ctx.now a.now b.now name.now) (DifferAt ctx.now a.now b.now name.now) }
{
    ctx.models.modelled(name) || is_same(a.table(name), b.table(name))
}

/// Whether two tables are the same, or both absent.
fn is_same(a: Option<&Table>, b: Option<&Table>) -> bool
    ensures { IsTrue result ↔ (option_copied a.entry ≡ option_copied b.entry) }
{
    match (a, b) {
        (Some(a), Some(b)) => a.same(b),
        (None, None) => true,
        _ => false,
    }
}

/// The lesser one of two names, where there are two.
fn lesser<'c>(left: Option<&'c str>, right: Option<&'c str>) -> Option<&'c str>
    ensures { IsLesser (option_copied left.entry) (option_copied right.entry)
        (option_copied result) }
{
    match (left, right) {
        (Some(left), Some(right)) if right < left => Some(right),
        (None, right) => right,
        (left, _) => left,
    }
}
