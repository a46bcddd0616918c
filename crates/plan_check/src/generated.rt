//! Whether a move is generated: by what stands at its own place in cur and in goal.
ghost use Rattle.std.specs.Prelude.{◌≡◌, ◌↔◌, ◌<◌, length, IfOk, IsTrue};
ghost use Rattle.conf_doc.specs.declared.parts.Part.TheVariants as part;
ghost use Rattle.move_core.specs.Generated.{IsFieldMove, IsKeyRemove, IsTableMove};
ghost use Rattle.move_core.specs.declared.moves.Move.TheVariants.{Add};
ghost use Rattle.plan_check.specs.Beginnings.{Begins, IsTowards};
ghost use Rattle.plan_check.specs.NewEntries.{AddsNew, IsNew};

use crate::here::Here;
use crate::items::is_item_move;
use crate::places::{has_parent, has_part, has_place};
use crate::seeds::{Whole, is_alike};
use conf_doc::{Config, Entry, Part, Path, Table};
use host_core::Memory;
use move_core::Move;
use std::alloc::Global;

/// Whether a table is removed that goal lacks, or added as in goal that cur lacks.
fn is_table_move(cur: &Config, goal: &Config, mv: &Move) -> bool
    ensures { IsTrue result ↔ IsTableMove cur.now goal.now mv.now }
{
    match mv {
        Move::Remove(place) => place.len() == 1 && has_place(cur, place) && !has_place(goal, place),
        Move::Add(place, part) => {
            place.len() == 1 && !has_place(cur, place) && has_part(goal, place, part)
        }
        _ => false,
    }
}

/// Whether an entry is removed that goal lacks.
fn is_key_remove(cur: &Config, goal: &Config, mv: &Move) -> bool
    ensures { IsTrue result ↔ IsKeyRemove cur.now goal.now mv.now }
{
    match mv {
        Move::Remove(place) => place.len() == 2 && has_place(cur, place) && !has_place(goal, place),
        _ => false,
    }
}

/// Whether a field of an entry that both have is removed, added or replaced to goal's.
fn is_field_move(cur: &Config, goal: &Config, mv: &Move) -> bool
    ensures { IsTrue result ↔ IsFieldMove cur.now goal.now mv.now }
{
    let place = mv.place();
    if place.len() != 3 {
        return false;
    }
    match mv {
        Move::Remove(_) => has_parent(goal, place)
            && has_place(cur, place)
            && !has_place(goal, place),
        Move::Add(_, part) => {
            has_parent(cur, place) && !has_place(cur, place) && has_part(goal, place, part)
        }
        Move::Replace(_, part) => {
            has_place(cur, place) && has_part(goal, place, part) && !has_part(cur, place, part)
        }
        _ => false,
    }
}

/// Whether cur lacks an entry that goal has, and that is goal's or its seed.
fn is_new(alloc: Global, here: &Here, table: &str, key: &str, new: &Entry) -> Result<bool, Memory>
    requires table { 0 < length table.now }
    requires key { 0 < length key.now }
    ensures { IfOk result (λ b. IsTrue b ↔ IsNew here.now table.now key.now new.now) }
{
    if here.cur.has_entry(table, key) {
        return Ok(false);
    }
    match here.goal.entry(table, key) {
        Some(entry) => {
            let whole = Whole { table, key, entry };
            is_alike(alloc, here, &whole, new)
        }
        None => Ok(false),
    }
}

/// Whether such an entry is put in its table.
fn adds_in(alloc: Global, here: &Here, place: &Path, new: &Entry) -> Result<bool, Memory>
    ensures { let Adds = AddsNew here.now (Add place.now (part.Entry new.now)) in
        IfOk result (λ b. IsTrue b ↔ Adds) }
{
    if place.len() != 2 {
        return Ok(false);
    }
    let table = place.name_at(0);
    let key = place.name_at(1);
    match here.cur.table(table) {
        Some(_) => is_new(alloc, here, table, key, new),
        None => Ok(false),
    }
}

/// Whether a table that cur lacks comes with such an entry alone.
fn adds_alone(alloc: Global, here: &Here, place: &Path, table: &Table) -> Result<bool, Memory>
    ensures { let Adds = AddsNew here.now (Add place.now (part.Table table.now)) in
        IfOk result (λ b. IsTrue b ↔ Adds) }
{
    if place.len() != 1 {
        return Ok(false);
    }
    if table.len() != 1 {
        return Ok(false);
    }
    let name = place.name_at(0);
    let (key, new) = table.pair_at(0);
    match here.cur.table(name) {
        Some(_) => Ok(false),
        None => is_new(alloc, here, name, key, new),
    }
}

/// Whether an entry of goal's that cur lacks is added, or its seed.
fn adds_new(alloc: Global, here: &Here, mv: &Move) -> Result<bool, Memory>
    ensures { IfOk result (λ b. IsTrue b ↔ AddsNew here.now mv.now) }
{
    match mv {
        Move::Add(place, part) => match part {
            Part::Table(table) => adds_alone(alloc, here, place, table),
            Part::Entry(new) => adds_in(alloc, here, place, new),
            Part::Value(_) => Ok(false),
        },
        _ => Ok(false),
    }
}

/// Whether a move leads towards goal at its own place, and adds no entry.
fn is_towards(cur: &Config, goal: &Config, mv: &Move) -> bool
    ensures { IsTrue result ↔ IsTowards cur.now goal.now mv.now }
{
    is_table_move(cur, goal, mv)
        || is_key_remove(cur, goal, mv)
        || is_field_move(cur, goal, mv)
        || is_item_move(cur, goal, mv)
}

/// Whether a move is generated.
pub(crate) fn is_generated(alloc: Global, here: &Here, mv: &Move) -> Result<bool, Memory>
    ensures { IfOk result (λ b. IsTrue b ↔ Begins here.now mv.now) }
{
    if is_towards(here.cur, here.goal, mv) {
        return Ok(true);
    }
    adds_new(alloc, here, mv)
}
