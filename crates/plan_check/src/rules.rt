//! The second to the fifth rule that a step is judged by, as the definitions say them, one after another.
ghost use Rattle.std.specs.Prelude.{◌≡◌, ◌↔◌, [], ◌∷◌, IsTrue, Some, slice_get};
ghost use Rattle.conf_check.specs.WantRuns.{IsWantAhead};
ghost use Rattle.conf_check.specs.Wants.{IsWantAt};
ghost use Rattle.conf_doc.specs.Pairs.{find};
ghost use Rattle.move_core.specs.Contexts.{names_of, rulebook};
ghost use Rattle.move_core.specs.Extensions.{HasRequired};
ghost use Rattle.move_core.specs.Moves.{Agree};
ghost use Rattle.move_core.specs.Rules.{EmptiesNoTable, HasNoDependency, IsAtOrBelow, KeepsCreateOnly, KeepsRequired};
ghost use Rattle.plan_check.specs.Keeping.{HasValueInBoth, KeepsField, KeepsFieldAt, KeepsKey, KeepsKeysOf, KeepsPlaces, KeepsRule, requiring_place};
ghost use Rattle.plan_check.specs.Touching.{IsInItem, IsTouched, Touches, WantsHold, names_at};

use crate::places::list_at;
use conf_check::{WantAt, WantIter, entry_wants, is_satisfied, wants};
use conf_doc::{Config, Path, Value};
use key_split::KeyView;
use move_core::{CreateOnly, Ctx, Move, Required, Requiring, Settings};
use yang_model::Models;

/// Whether the place of a want has a name at an index: its table, its key, and its field where it stands in one.
fn has_name(at: &WantAt, i: usize, name: &str) -> bool
    ensures { IsTrue result ↔ (slice_get (names_at at.now) i ≡ Some name.now) }
{
    match i {
        0 => at.table == name,
        1 => at.key == name,
        2 => match at.field {
            Some(field) => field == name,
            None => false,
        },
        _ => false,
    }
}

/// Whether a want stands at a place or below it.
fn is_below(at: &WantAt, place: &Path) -> bool
    ensures { IsTrue result ↔ IsAtOrBelow place.now (names_at at.now) }
{
    for i in 0..place.len() {
        if !has_name(at, i, place.name_at(i)) {
            return false;
        }
    }
    true
}

/// Whether a want stands in the item at an index of the list at a place.
fn is_in_item(config: &Config, at: &WantAt, place: &Path, index: usize) -> bool
    ensures { IsTrue result ↔ IsInItem config.now at.now place.now index }
{
    at.item == index && is_below(at, place) && list_at(config, place).is_some()
}

/// Whether a want stands in what a move changes, in the configuration after the move or in the one before it.
fn touches(mv: &Move, is_after: bool, config: &Config, at: &WantAt) -> bool
    ensures { IsTrue result ↔ Touches mv.now is_after config.now at.now }
{
    match mv {
        Move::AddItem(place, index, _) => is_after && is_in_item(config, at, place, *index),
        Move::RemoveItem(place, index) => !is_after && is_in_item(config, at, place, *index),
        _ => is_below(at, mv.place()),
    }
}

/// Wants of a configuration, all that stand at a place or below it among them: those of the entry that it names, or
/// all.
fn wants_round<'a>(models: &'a Models, config: &'a Config, place: &Path) -> WantIter<'a>
    ensures models { result.models.now ≡ models.now }
    ensures config { result.config.now ≡ config.now }
    ensures ahead { (n p w : _) → names_of config.now p ≡ Some n → IsAtOrBelow place.now n
        → IsWantAt models.now config.now p w → IsWantAhead result p w }
{
    if place.len() > 1 {
        entry_wants(models, config, place.name_at(0), place.name_at(1))
    } else {
        wants(models, config)
    }
}

/// Whether the wants of a configuration that a move touches are satisfied in the other one.
fn wants_hold(models: &Models, mv: &Move, is_after: bool, config: &Config, other: &Config) -> bool
    ensures { let Touched = IsTouched mv.now is_after in
        IsTrue result ↔ WantsHold models.now Touched config.now other.now }
{
    for at in wants_round(models, config, mv.place()) {
        if touches(mv, is_after, config, &at) && !is_satisfied(models, other, &at.want) {
            return false;
        }
    }
    true
}

/// Whether what the move brings has in cur all that it wants, and what it takes away has in next.
pub(crate) fn has_no_dependency(ctx: &Ctx, cur: &Config, next: &Config, mv: &Move) -> bool
    ensures { IsTrue result ↔ HasNoDependency (rulebook ctx.now) cur.now next.now mv.now }
{
    wants_hold(&ctx.models, mv, true, next, cur) && wants_hold(&ctx.models, mv, false, cur, next)
}

/// Whether a table stands there with no key.
fn has_no_key(config: &Config, table: &str) -> bool
    ensures { IsTrue result ↔ (find table.now config.now ≡ Some []) }
{
    match config.table(table) {
        Some(entries) => entries.len() == 0,
        None => false,
    }
}

/// Whether each table that has no key in next had none in cur.
pub(crate) fn empties_none(cur: &Config, next: &Config) -> bool
    ensures { IsTrue result ↔ EmptiesNoTable cur.now next.now }
{
    for i in 0..next.len() {
        let table = next.name_at(i);
        if has_no_key(next, table) && !has_no_key(cur, table) {
            return false;
        }
    }
    true
}

/// Whether a create-only field of an entry is the same in both, or absent in both, where the entry is in both.
fn keeps_field_at(rule: &CreateOnly, cur: &Config, next: &Config, key: &str) -> bool
    ensures { IsTrue result ↔ KeepsFieldAt cur.now next.now rule.now key.now }
{
    let table = rule.table.as_str();
    cur.agrees_at_field(next, table, key, rule.field.as_str())
        || !cur.has_entry(table, key)
        || !next.has_entry(table, key)
}

/// Whether a create-only field stays so in all entries of its table.
fn keeps_field(rule: &CreateOnly, cur: &Config, next: &Config) -> bool
    ensures { IsTrue result ↔ KeepsField cur.now next.now rule.now }
{
    let Some(entries) = next.table(rule.table.as_str()) else {
        return true;
    };
    for i in 0..entries.len() {
        if !keeps_field_at(rule, cur, next, entries.name_at(i)) {
            return false;
        }
    }
    true
}

/// Whether all create-only fields stay.
pub(crate) fn keeps_create_only(settings: &Settings, cur: &Config, next: &Config) -> bool
    ensures { IsTrue result ↔ KeepsCreateOnly settings.now cur.now next.now }
{
    let rules = settings.create_only.items();
    rules.iter().all(|rule| keeps_field(rule, cur, next))
}

/// Whether the field of a rule has the required value at a key; absent it counts as having the default.
pub(crate) fn has_required(rule: &Required, key: &str, config: &Config) -> bool
    ensures { IsTrue result ↔ HasRequired rule.now key.now config.now }
{
    let text = match config.value(rule.table.as_str(), key, rule.field.as_str()) {
        Some(Value::Text(text)) => text,
        Some(Value::List(_)) => return false,
        None => &rule.default,
    };
    text.as_str() == rule.value.as_str()
}

/// Whether the field has the required value before and after, where its entry is there before and after.
fn has_value_in_both(rule: &Required, key: &str, cur: &Config, next: &Config) -> bool
    ensures { IsTrue result ↔ HasValueInBoth rule.now cur.now next.now key.now }
{
    let table = rule.table.as_str();
    let is_in_both = cur.has_entry(table, key) && next.has_entry(table, key);
    !is_in_both || has_required(rule, key, cur) && has_required(rule, key, next)
}

/// Whether a requiring place at a key is the same before and after.
pub(crate) fn stays(requiring: &Requiring, key: &str, cur: &Config, next: &Config) -> bool
    ensures { IsTrue result ↔ Agree cur.now next.now (requiring_place requiring.now key.now) }
{
    let table = requiring.table.as_str();
    match &requiring.field {
        Some(field) => cur.agrees_at_field(next, table, key, field.as_str()),
        None => cur.agrees_at_entry(next, table, key),
    }
}

/// Whether a requiring place at a key stays, or what it requires has its value. Its key names no entry where it has
/// no part of the rule's number.
fn keeps_key(rule: &Required, requiring: &Requiring, key: &str, cur: &Config, next: &Config) -> bool
    ensures { let Keeps = KeepsKey rule.now cur.now next.now requiring.now in
        IsTrue result ↔ Keeps key.now }
{
    match KeyView::new(key).part(requiring.part as usize) {
        Some(part) => {
            stays(requiring, key, cur, next) || has_value_in_both(rule, part, cur, next)
        }
        None => true,
    }
}

/// The same of the keys that one of the two configurations has.
fn keeps_keys_of(
    config: &Config,
    rule: &Required,
    requiring: &Requiring,
    cur: &Config,
    next: &Config,
) -> bool
    ensures { let Keeps = KeepsKey rule.now cur.now next.now requiring.now in
        IsTrue result ↔ KeepsKeysOf config.now requiring.now.table Keeps }
{
    let Some(entries) = config.table(requiring.table.as_str()) else {
        return true;
    };
    for i in 0..entries.len() {
        if !keeps_key(rule, requiring, entries.name_at(i), cur, next) {
            return false;
        }
    }
    true
}

/// The same of all keys.
fn keeps_places(rule: &Required, requiring: &Requiring, cur: &Config, next: &Config) -> bool
    ensures { IsTrue result ↔ KeepsPlaces rule.now cur.now next.now requiring.now }
{
    keeps_keys_of(cur, rule, requiring, cur, next)
        && keeps_keys_of(next, rule, requiring, cur, next)
}

/// Whether a rule is kept by all places that require its value.
fn keeps_rule(rule: &Required, cur: &Config, next: &Config) -> bool
    ensures { IsTrue result ↔ KeepsRule cur.now next.now rule.now }
{
    let places = rule.requiring.items();
    places.iter().all(|at| keeps_places(rule, at, cur, next))
}

/// Whether all rules of required values are kept.
pub(crate) fn keeps_required(settings: &Settings, cur: &Config, next: &Config) -> bool
    ensures { IsTrue result ↔ KeepsRequired settings.now cur.now next.now }
{
    let rules = settings.required.items();
    rules.iter().all(|rule| keeps_rule(rule, cur, next))
}
