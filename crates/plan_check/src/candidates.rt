//! The moves that may be listed at a place: it goes, becomes as in goal, or gets a required value, or an item of its
//! list comes or goes.
ghost use Rattle.std.specs.Prelude.{◌≡◌, ◌<◌, [], ◌∷◌, length, map, All, OnOk};
ghost use Rattle.move_core.specs.Contexts.{IsNamed};
ghost use Rattle.move_core.specs.Named.{HasRequiredNames};
ghost use Rattle.plan_check.specs.Candidates.{AddsItemAt, GivesRequired, GivesSome, IsFieldIn, IsFieldOf, IsGoalsAt, IsInEntry, IsPlainAt, IsPut, RemovesItemAt, Takes};

use crate::here::Here;
use crate::places::{is_name, list_at};
use conf_doc::{Config, Entry, Part, Path, Value};
use host_core::Memory;
use move_core::{Move, Required};
use std::alloc::Global;

/// Puts the moves that put a part at a place.
fn add_puts(alloc: Global, place: Path, part: Part, found: &mut Vec<Move>) -> Result<(), Memory>
    ensures { OnOk result (Takes (IsPut place part) found.old.items found.new.items) }
{
    let at = place.copy(alloc)?;
    let value = part.copy(alloc)?;
    found.push(Move::Replace(at, value))?;
    found.push(Move::Add(place, part))?;
    Ok(())
}

/// Puts those that make a place as in goal.
fn add_goals(alloc: Global, here: &Here, place: &Path, found: &mut Vec<Move>) -> Result<(), Memory>
    ensures { let Is = IsGoalsAt here.now place.now in
        OnOk result (Takes Is found.old.items found.new.items) }
{
    let goals = here.goal.copy_at(alloc, place)?;
    match goals {
        Some(part) => {
            let at = place.copy(alloc)?;
            add_puts(alloc, at, part, found)
        }
        None => Ok(()),
    }
}

/// Puts the removes of the items of cur's list at a place.
fn add_item_removes(
    alloc: Global,
    here: &Here,
    place: &Path,
    found: &mut Vec<Move>,
) -> Result<(), Memory>
    ensures { let Is = RemovesItemAt here.now place.now in
        OnOk result (Takes Is found.old.items found.new.items) }
{
    let Some(items) = list_at(here.cur, place) else {
        return Ok(());
    };
    for i in 0..items.len() {
        let at = place.copy(alloc)?;
        found.push(Move::RemoveItem(at, i))?;
    }
    Ok(())
}

/// Puts the adds of the items of goal's list at a place.
fn add_item_adds(
    alloc: Global,
    here: &Here,
    place: &Path,
    found: &mut Vec<Move>,
) -> Result<(), Memory>
    ensures { let Is = AddsItemAt here.now place.now in
        OnOk result (Takes Is found.old.items found.new.items) }
{
    let Some(items) = list_at(here.goal, place) else {
        return Ok(());
    };
    for i in 0..items.len() {
        let at = place.copy(alloc)?;
        let text = items.at(i).copy(alloc)?;
        found.push(Move::AddItem(at, i, text))?;
    }
    Ok(())
}

/// Puts all of those at a place.
pub(crate) fn add_at(
    alloc: Global,
    here: &Here,
    place: Path,
    found: &mut Vec<Move>,
) -> Result<(), Memory>
    ensures { OnOk result (Takes (IsPlainAt here.now place) found.old.items found.new.items) }
{
    add_goals(alloc, here, &place, found)?;
    add_item_removes(alloc, here, &place, found)?;
    add_item_adds(alloc, here, &place, found)?;
    found.push(Move::Remove(place))?;
    Ok(())
}

/// Puts those of the fields of an entry.
fn add_fields(
    alloc: Global,
    here: &Here,
    table: &str,
    key: &str,
    entry: &Entry,
    found: &mut Vec<Move>,
) -> Result<(), Memory>
    requires table { 0 < length table.now }
    requires key { 0 < length key.now }
    ensures { let Is = IsFieldIn here.now table.now key.now (map (λ f. f.0) entry.now) in
        OnOk result (Takes Is found.old.items found.new.items) }
{
    for i in 0..entry.len() {
        let field = entry.name_at(i);
        add_at(alloc, here, Path::new(alloc, &[table, key, field])?, found)?;
    }
    Ok(())
}

/// Puts those of the fields that a configuration has in an entry.
fn add_fields_of(
    alloc: Global,
    here: &Here,
    config: &Config,
    table: &str,
    key: &str,
    found: &mut Vec<Move>,
) -> Result<(), Memory>
    requires table { 0 < length table.now }
    requires key { 0 < length key.now }
    ensures { let Is = IsFieldOf here.now config.now table.now key.now in
        OnOk result (Takes Is found.old.items found.new.items) }
{
    match config.entry(table, key) {
        Some(entry) => add_fields(alloc, here, table, key, entry, found),
        None => Ok(()),
    }
}

/// Puts the moves that give a rule's field its required value, where that is in the table.
fn add_required(
    alloc: Global,
    rule: &Required,
    table: &str,
    key: &str,
    found: &mut Vec<Move>,
) -> Result<(), Memory>
    requires rule { HasRequiredNames rule.now }
    requires key { 0 < length key.now }
    ensures { let Is = GivesRequired table.now key.now rule.now in
        OnOk result (Takes Is found.old.items found.new.items) }
{
    if !is_name(rule.table.as_str(), table) {
        return Ok(());
    }
    let field = rule.field.as_str();
    let place = Path::new(alloc, &[table, key, field])?;
    let value = rule.value.copy(alloc)?;
    add_puts(alloc, place, Part::Value(Value::Text(value)), found)
}

/// The same of some rules.
fn add_all_required(
    alloc: Global,
    rules: &[Required],
    table: &str,
    key: &str,
    found: &mut Vec<Move>,
) -> Result<(), Memory>
    requires rules { All HasRequiredNames rules.now }
    requires key { 0 < length key.now }
    ensures { let Is = GivesSome table.now key.now rules.now in
        OnOk result (Takes Is found.old.items found.new.items) }
{
    for rule in rules {
        add_required(alloc, rule, table, key, found)?;
    }
    Ok(())
}

/// Puts those of an entry and of the fields that a configuration has in it.
pub(crate) fn add_entry(
    alloc: Global,
    here: &Here,
    config: &Config,
    table: &str,
    key: &str,
    found: &mut Vec<Move>,
) -> Result<(), Memory>
    requires named { IsNamed here.now.ctx.now }
    requires table { 0 < length table.now }
    requires key { 0 < length key.now }
    ensures { let Is = IsInEntry here.now config.now table.now key.now in
        OnOk result (Takes Is found.old.items found.new.items) }
{
    add_fields_of(alloc, here, config, table, key, found)?;
    add_at(alloc, here, Path::new(alloc, &[table, key])?, found)?;
    let rules = here.ctx.settings.required.items();
    add_all_required(alloc, rules, table, key, found)
}
