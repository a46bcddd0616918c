//! Whether a move gives a field its required value before another move changes what requires it.
ghost use Rattle.std.specs.Prelude.{◌≡◌, ◌↔◌, IsTrue, Some, map, slice_get};
ghost use Rattle.conf_check.specs.Acceptance.{keys_of};
ghost use Rattle.key_split.specs.Key.{key_parts};
ghost use Rattle.move_core.specs.Contexts.{IsResult, rulebook};
ghost use Rattle.move_core.specs.Extensions.{ChangesFor, IsRequired, put_value, required_part, rule_field};
ghost use Rattle.plan_check.specs.Requirements.{Differs, DiffersAmong, DiffersAt, IsRequiredBy, LacksValue};

use crate::here::Here;
use crate::places::{has_place, is_field_at, is_name};
use crate::rules::{has_required, stays};
use conf_doc::{Config, Part, Path, Table, Value};
use key_split::KeyView;
use move_core::{Move, Required, Requiring};

/// What a move makes of a configuration, and for which key of a rule it is asked.
#[derive(Clone, Copy, Drop)]
pub(crate) struct Change<'a> {
    pub(crate) cur: &'a Config,
    pub(crate) next: &'a Config,
    pub(crate) named: &'a str,
}

/// Whether a part is the required value.
fn is_required_part(rule: &Required, part: &Part) -> bool
    ensures { IsTrue result ↔ (part.now ≡ required_part rule.now) }
{
    match part {
        Part::Value(Value::Text(text)) => text.as_str() == rule.value.as_str(),
        _ => false,
    }
}

/// Whether a place is a rule's field at a key.
pub(crate) fn is_rule_field(rule: &Required, key: &str, place: &Path) -> bool
    ensures { IsTrue result ↔ (place.now ≡ rule_field rule.now key.now) }
{
    is_field_at(place, rule.table.as_str(), key, rule.field.as_str())
}

/// Whether a move puts the required value in a rule's field at a key.
fn puts_required(cur: &Config, rule: &Required, key: &str, mv: &Move) -> bool
    ensures { let at = rule_field rule.now key.now in
        IsTrue result ↔ (mv.now ≡ put_value cur.now at (required_part rule.now)) }
{
    let place = mv.place();
    if !is_rule_field(rule, key, place) {
        return false;
    }
    let there = has_place(cur, place);
    match mv {
        Move::Add(_, part) => !there && is_required_part(rule, part),
        Move::Replace(_, part) => there && is_required_part(rule, part),
        _ => false,
    }
}

/// Whether a key has a text as the part of a number.
pub(crate) fn has_key_part(key: &str, part: u32, text: &str) -> bool
    ensures { IsTrue result ↔ (slice_get (key_parts key.now) part ≡ Some text.now) }
{
    KeyView::new(key).part(part as usize) == Some(text)
}

/// Whether a requiring place changes at a key that has the asked one as its part.
fn differs_at(change: &Change, place: &Requiring, key: &str) -> bool
    ensures { IsTrue result ↔ DiffersAt change.now place.now key.now }
{
    if !has_key_part(key, place.part, change.named) {
        return false;
    }
    !stays(place, key, change.cur, change.next)
}

/// Whether it does at some key of a table.
fn differs_in(change: &Change, place: &Requiring, entries: &Table) -> bool
    ensures { IsTrue result ↔ DiffersAmong change.now place.now (map (λ e. e.0) entries.now) }
{
    for i in 0..entries.len() {
        if differs_at(change, place, entries.name_at(i)) {
            return true;
        }
    }
    false
}

/// Whether it does at some key that its table has in a configuration.
fn differs_among(change: &Change, place: &Requiring, config: &Config) -> bool
    ensures { let keys = keys_of place.now.table config.now in
        IsTrue result ↔ DiffersAmong change.now place.now keys }
{
    match config.table(place.table.as_str()) {
        Some(entries) => differs_in(change, place, entries),
        None => false,
    }
}

/// Whether a move changes it at such a key. Where the move's place names a key, all others are as before.
fn is_changed(change: &Change, mv: &Move, place: &Requiring) -> bool
    requires { IsResult change.now.cur.now mv.now change.now.next.now }
    ensures { IsTrue result ↔ Differs change.now place.now }
{
    if !is_name(mv.table(), place.table.as_str()) {
        return false;
    }
    let names = mv.place();
    if names.len() > 1 {
        return differs_at(change, place, names.name_at(1));
    }
    if differs_among(change, place, change.cur) {
        return true;
    }
    differs_among(change, place, change.next)
}

/// Whether a move changes a place that requires a rule's value.
fn changes_for(change: &Change, mv: &Move, rule: &Required) -> bool
    requires { IsResult change.now.cur.now mv.now change.now.next.now }
    ensures { let Changes = ChangesFor rule.now change.now.named.now in
        IsTrue result ↔ Changes change.now.cur.now change.now.next.now }
{
    for place in rule.requiring.items() {
        if is_changed(change, mv, place) {
            return true;
        }
    }
    false
}

/// Whether a rule's field is to have its value at a key of both configurations, and has another one.
fn lacks_value(here: &Here, next: &Config, rule: &Required, key: &str) -> bool
    ensures { IsTrue result ↔ LacksValue here.now next.now rule.now key.now }
{
    let table = rule.table.as_str();
    here.ctx.models.modelled(table)
        && here.cur.has_entry(table, key)
        && next.has_entry(table, key)
        && !has_required(rule, key, here.cur)
}

/// Whether the second move gives a rule's field the value that the first one requires.
fn is_required_by(here: &Here, mv: &Move, next: &Config, rule: &Required, more: &Move) -> bool
    requires { IsResult here.now.cur.now mv.now next.now }
    ensures { IsTrue result ↔ IsRequiredBy here.now next.now rule.now more.now }
{
    let place = more.place();
    if place.len() != 3 {
        return false;
    }
    let named = place.name_at(1);
    let cur = here.cur;
    if !puts_required(cur, rule, named, more) {
        return false;
    }
    if !lacks_value(here, next, rule, named) {
        return false;
    }
    changes_for(&Change { cur, next, named }, mv, rule)
}

/// Whether the second move gives a field the value that the first one requires.
pub(crate) fn is_required(here: &Here, mv: &Move, next: &Config, more: &Move) -> bool
    requires { IsResult here.now.cur.now mv.now next.now }
    ensures { let book = rulebook here.now.ctx.now in
        IsTrue result ↔ IsRequired book here.now.cur.now mv.now more.now }
{
    for rule in here.ctx.settings.required.items() {
        if is_required_by(here, mv, next, rule, more) {
            return true;
        }
    }
    false
}
