//! Whether a move follows another one.
ghost use Rattle.std.specs.Prelude.{◌≡◌, ◌↔◌, Some, IfOk, IsTrue};
ghost use Rattle.move_core.specs.Extensions.{IsDelete, IsUpper, as_in_goal, upper, upper_place};
ghost use Rattle.move_core.specs.Moves.{IsDefined, place};
ghost use Rattle.plan_check.specs.Beginnings.{Precedes};
ghost use Rattle.plan_check.specs.Broken.{HasBroken, HasOneBroken, IsBrokenAt, IsReferrerAt};
ghost use Rattle.plan_check.specs.Nearby.{AreWanted, KnowsGoal};

use crate::here::Here;
use crate::places::{has_part, has_place, is_entry_at, is_table_at, item_at};
use crate::preceding::Sought;
use crate::required::is_required;
use crate::wants::want_at;
use conf_check::{WantAt, is_satisfied};
use conf_doc::{Config, Path};
use host_core::Memory;
use move_core::{Move, step};
use std::alloc::Global;

/// Whether a place is one name longer than another.
fn is_below(place: &Path, above: &Path) -> bool
    ensures { IsTrue result ↔ (upper place.now ≡ Some above.now) }
{
    match place.len() {
        2 => is_table_at(above, place.name_at(0)),
        3 => is_entry_at(above, place.name_at(0), place.name_at(1)),
        _ => false,
    }
}

/// Whether a place is the one above what a move's operation names.
fn is_above(mv: &Move, above: &Path) -> bool
    ensures { IsTrue result ↔ (upper_place mv.now ≡ Some above.now) }
{
    match mv {
        Move::Add(place, _) => is_below(place, above),
        Move::Remove(place) => is_below(place, above),
        Move::Replace(place, _) => is_below(place, above),
        Move::AddItem(place, _, _) => place.same(above),
        Move::RemoveItem(place, _) => place.same(above),
    }
}

/// Whether a move makes its place as in goal.
pub(crate) fn is_as_in_goal(goal: &Config, mv: &Move) -> bool
    ensures { IsTrue result ↔ (mv.now ≡ as_in_goal goal.now (place mv.now)) }
{
    match mv {
        Move::Remove(place) => !has_place(goal, place),
        Move::Replace(place, part) => has_part(goal, place, part),
        _ => false,
    }
}

/// Whether the sought move makes the place above another one as in goal.
fn is_upper(sought: &Sought, mv: &Move) -> bool
    requires { KnowsGoal sought.now }
    ensures { let s = sought.now in
        IsTrue result ↔ IsUpper s.here.now.goal.now mv.now s.mv.now }
{
    if !is_above(mv, sought.mv.place()) {
        return false;
    }
    sought.is_goals
}

/// Whether the second removes what the first replaces.
fn is_delete(mv: &Move, more: &Move) -> bool
    ensures { IsTrue result ↔ IsDelete mv.now more.now }
{
    match (mv, more) {
        (Move::Replace(place, _), Move::Remove(other)) => place.same(other),
        _ => false,
    }
}

/// Whether a want stands there, in the item of that index where one is given, and is unsatisfied afterwards.
fn is_broken(here: &Here, next: &Config, place: &Path, item: Option<usize>, at: &WantAt) -> bool
    ensures { IsTrue result ↔ IsBrokenAt here.now next.now place.now item at.now }
{
    item_at(here.cur, place, at.item) == item && !is_satisfied(&here.ctx.models, next, &at.want)
}

/// Whether some of those wants is so.
fn has_one_broken(
    here: &Here,
    next: &Config,
    place: &Path,
    item: Option<usize>,
    wants: &[WantAt],
) -> bool
    ensures { IsTrue result ↔ HasOneBroken here.now next.now place.now item wants.now }
{
    for i in 0..wants.len() {
        if is_broken(here, next, place, item, want_at(wants, i)) {
            return true;
        }
    }
    false
}

/// Whether some want at the sought move's place is so.
fn has_broken(sought: &Sought, next: &Config, item: Option<usize>) -> bool
    requires { AreWanted sought.now }
    ensures { let s = sought.now in
        IsTrue result ↔ HasBroken s.here.now next.now (place s.mv.now) item }
{
    has_one_broken(sought.here, next, sought.mv.place(), item, sought.wants)
}

/// Whether the sought move removes what has such a want.
fn is_referrer(sought: &Sought, next: &Config) -> bool
    requires { AreWanted sought.now }
    ensures { let s = sought.now in
        IsTrue result ↔ IsReferrerAt s.here.now next.now s.mv.now }
{
    match sought.mv {
        Move::Remove(_) => has_broken(sought, next, None),
        Move::RemoveItem(_, i) => has_broken(sought, next, Some(*i)),
        _ => false,
    }
}

/// Whether the sought move follows another one: it makes the place above as in goal, removes what is replaced or
/// what refers to what goes, or gives a required value. Nothing refers from a table itself, or is required of it.
pub(crate) fn follows(alloc: Global, sought: &Sought, mv: &Move) -> Result<bool, Memory>
    requires defined { IsDefined sought.now.here.now.cur.now mv.now }
    requires wants { AreWanted sought.now }
    requires goals { KnowsGoal sought.now }
    ensures { let s = sought.now in
        IfOk result (λ b. IsTrue b ↔ Precedes s.here.now mv.now s.mv.now) }
{
    let here = sought.here;
    let more = sought.mv;
    if is_upper(sought, mv) {
        return Ok(true);
    }
    if is_delete(mv, more) {
        return Ok(true);
    }
    if more.place().len() < 2 {
        return Ok(false);
    }
    let next = step(alloc, here.cur, mv)?;
    if is_required(here, mv, &next, more) {
        return Ok(true);
    }
    Ok(is_referrer(sought, &next))
}
