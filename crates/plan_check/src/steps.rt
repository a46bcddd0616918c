//! One step of a plan: whether it is allowed where it stands, or the first cause against it.
ghost use Rattle.std.specs.Prelude.{◌≡◌, ◌↔◌, ◌<◌, ◌≤◌, length, IfOk, IsSomeAnd, IsTrue, MatchOption};
ghost use Rattle.conf_check.specs.Validity.{IsValid};
ghost use Rattle.conf_doc.specs.Changes.{Fits};
ghost use Rattle.conf_doc.specs.WellFormed.{IsConfig};
ghost use Rattle.move_core.specs.Contexts.{IsNamed, IsResult, rulebook};
ghost use Rattle.move_core.specs.Moves.{IsDefined, list_at};
ghost use Rattle.plan_check.specs.Verdicts.{IsFine, IsFirstBroken, IsVerdict};

use crate::NoWhy;
use crate::listed::is_listed;
use crate::places::{has_parent, has_place, list_at};
use crate::rules::{empties_none, has_no_dependency, keeps_create_only, keeps_required};
use crate::validity::leads_to_valid;
use conf_doc::{Config, Part, Path};
use host_core::Memory;
use move_core::{Ctx, Move, step};
use std::alloc::Global;

/// What is told of a step.
#[derive(Drop)]
pub(crate) enum Verdict {
    /// It is allowed, and leads to this configuration.
    Allowed(Config),
    /// The first cause against it.
    Refused(NoWhy),
}

/// Whether a part fits a place.
fn fits(place: &Path, part: &Part) -> bool
    ensures { IsTrue result ↔ Fits place.now part.now }
{
    match part {
        Part::Table(_) => place.len() == 1,
        Part::Entry(_) => place.len() == 2,
        Part::Value(_) => place.len() == 3,
    }
}

/// Whether a list of at least so many items stands at a place.
fn has_items(config: &Config, place: &Path, count: usize) -> bool
    ensures { IsTrue result
        ↔ IsSomeAnd (list_at config.now place.now) (λ items. count ≤ length items) }
{
    match list_at(config, place) {
        Some(items) => count <= items.len(),
        None => false,
    }
}

/// Whether a list of more items stands there.
fn has_more_items(config: &Config, place: &Path, count: usize) -> bool
    ensures { IsTrue result
        ↔ IsSomeAnd (list_at config.now place.now) (λ items. count < length items) }
{
    match list_at(config, place) {
        Some(items) => count < items.len(),
        None => false,
    }
}

/// Whether a move is defined at a configuration.
pub(crate) fn is_defined(cur: &Config, mv: &Move) -> bool
    ensures { IsTrue result ↔ IsDefined cur.now mv.now }
{
    match mv {
        Move::Add(path, part) => {
            fits(path, part) && has_parent(cur, path) && !has_place(cur, path)
        }
        Move::Remove(path) => has_place(cur, path),
        Move::Replace(path, part) => fits(path, part) && has_place(cur, path),
        Move::AddItem(path, index, _) => has_items(cur, path, *index),
        Move::RemoveItem(path, index) => has_more_items(cur, path, *index),
    }
}

/// What of the result is the first to be wrong: that it is the same, or the first rule that is broken.
fn first_broken(ctx: &Ctx, is_known: bool, cur: &Config, next: &Config, mv: &Move) -> Option<NoWhy>
    requires result { IsResult cur.now mv.now next.now }
    requires known { IsTrue is_known → IsValid ctx.now.models cur.now }
    ensures { MatchOption result (IsFine (rulebook ctx.now) cur.now next.now mv.now)
        (IsFirstBroken (rulebook ctx.now) cur.now next.now mv.now) }
{
    if next.same(cur) {
        return Some(NoWhy::Same);
    }
    if !leads_to_valid(&ctx.models, is_known, cur, next, mv) {
        return Some(NoWhy::Rule1);
    }
    if !has_no_dependency(ctx, cur, next, mv) {
        return Some(NoWhy::Rule2);
    }
    if !empties_none(cur, next) {
        return Some(NoWhy::Rule3);
    }
    if !keeps_create_only(&ctx.settings, cur, next) {
        return Some(NoWhy::Rule4);
    }
    if !keeps_required(&ctx.settings, cur, next) {
        return Some(NoWhy::Rule5);
    }
    None
}

/// What is told of a step at a configuration, of which it may be known that it is valid.
pub(crate) fn judge(
    alloc: Global,
    ctx: &Ctx,
    is_known: bool,
    cur: &Config,
    goal: &Config,
    mv: &Move,
) -> Result<Verdict, Memory>
    requires named { IsNamed ctx.now }
    requires known { IsTrue is_known → IsValid ctx.now.models cur.now }
    ensures verdict { IfOk result (IsVerdict (rulebook ctx.now) goal.now cur.now mv.now) }
    ensures formed { IsConfig cur.now }
{
    let _tables = cur.len();
    if !is_defined(cur, mv) {
        return Ok(Verdict::Refused(NoWhy::NotDefined));
    }
    if !is_listed(alloc, ctx, cur, goal, mv)? {
        return Ok(Verdict::Refused(NoWhy::NotListed));
    }
    let next = step(alloc, cur, mv)?;
    match first_broken(ctx, is_known, cur, &next, mv) {
        Some(why) => {
            drop(next);
            Ok(Verdict::Refused(why))
        }
        None => Ok(Verdict::Allowed(next)),
    }
}
