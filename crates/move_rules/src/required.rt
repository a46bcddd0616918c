//! The rule of values that are required while places change.
ghost use Rattle.std.specs.Prelude.{◌≡◌, ◌≢◌, ◌↔◌, map, IsTrue};
ghost use Rattle.conf_doc.specs.Changes.{part_at};
ghost use Rattle.conf_doc.specs.Pairs.{find};
ghost use Rattle.move_core.specs.Contexts.{IsResult};
ghost use Rattle.move_core.specs.Extensions.{HasRequired};
ghost use Rattle.move_core.specs.Rules.{KeepsRequired};
ghost use Rattle.move_rules.specs.Entries.{AreAll, AreKeys, HasRequiredInBoth, KeepsAllPlaces, KeepsPlace, KeepsPlaceIn, KeepsPlaces, requiring_place};

use conf_doc::{Config, Table, Value};
use key_split::KeyView;
use move_core::{Ctx, Move, MoveRule, Required, Requiring, Settings};

/// No move changes a requiring place while the field that it requires lacks its required value. It fits all
/// models.
#[derive(Drop)]
pub struct RequiredRule {}

impl RequiredRule {
    /// The rule, which keeps nothing.
    pub fn new() -> RequiredRule
        ensures { ⟦<RequiredRule as MoveRule>⟧.rule_kind result ≡ 5 }
    {
        RequiredRule {}
    }
}

impl MoveRule for RequiredRule {
    ghost rule_kind = { λ _. 5 };

    ghost fits = { λ _ _. Unit {0} };

    fn kind(&self) -> u32 {
        5
    }

    fn begin(&mut self, _ctx: &Ctx) {}

    fn allows(
        &mut self,
        ctx: &Ctx,
        cur: &Config,
        next: &Config,
        _goal: &Config,
        mv: &Move,
    ) -> bool {
        keeps_required(&ctx.settings, cur, next, mv)
    }
}

/// Whether a rule's field has the required value at a key. Absent it counts as having the default.
fn has_required(rule: &Required, key: &str, config: &Config) -> bool
    ensures { IsTrue result ↔ HasRequired rule.now key.now config.now }
{
    match config.value(rule.table.as_str(), key, rule.field.as_str()) {
        Some(Value::Text(text)) => text.as_str() == rule.value.as_str(),
        Some(Value::List(_)) => false,
        None => rule.default.as_str() == rule.value.as_str(),
    }
}

/// Whether it has the required value in both, where its entry is in both.
fn has_required_in_both(rule: &Required, key: &str, cur: &Config, next: &Config) -> bool
    ensures { IsTrue result ↔ HasRequiredInBoth rule.now key.now cur.now next.now }
{
    !cur.has_entry(rule.table.as_str(), key)
        || !next.has_entry(rule.table.as_str(), key)
        || (has_required(rule, key, cur) && has_required(rule, key, next))
}

/// Whether a requiring place at a key changes.
fn changes(requiring: &Requiring, key: &str, cur: &Config, next: &Config) -> bool
    ensures { let at = requiring_place requiring.now key.now in
        IsTrue result ↔ (part_at cur.now at ≢ part_at next.now at) }
{
    let table = requiring.table.as_str();
    match &requiring.field {
        Some(field) => !cur.agrees_at_field(next, table, key, field.as_str()),
        None => !cur.agrees_at_entry(next, table, key),
    }
}

/// Whether a requiring place at a key stays, or what it requires is there.
fn keeps_place(
    rule: &Required,
    requiring: &Requiring,
    key: &str,
    cur: &Config,
    next: &Config,
) -> bool
    ensures { IsTrue result ↔ KeepsPlace rule.now cur.now next.now key.now requiring.now }
{
    match KeyView::new(key).part(requiring.part as usize) {
        Some(part) => {
            !changes(requiring, key, cur, next) || has_required_in_both(rule, part, cur, next)
        }
        None => true,
    }
}

/// The same of a requiring place in a table.
fn keeps_place_in(
    table: &str,
    rule: &Required,
    requiring: &Requiring,
    key: &str,
    cur: &Config,
    next: &Config,
) -> bool
    ensures { let At = KeepsPlaceIn table.now rule.now cur.now next.now key.now in
        IsTrue result ↔ At requiring.now }
{
    requiring.table.as_str() != table || keeps_place(rule, requiring, key, cur, next)
}

/// The same of some requiring places of a rule.
fn keeps_each(
    table: &str,
    rule: &Required,
    places: &[Requiring],
    key: &str,
    cur: &Config,
    next: &Config,
) -> bool
    ensures { let Keeps = KeepsPlaceIn table.now rule.now cur.now next.now key.now in
        IsTrue result ↔ AreAll Keeps places.now }
{
    for requiring in places {
        if !keeps_place_in(table, rule, requiring, key, cur, next) {
            return false;
        }
    }
    true
}

/// The same of the requiring places of a rule.
fn keeps_places(table: &str, key: &str, cur: &Config, next: &Config, rule: &Required) -> bool
    ensures { IsTrue result ↔ KeepsPlaces table.now key.now cur.now next.now rule.now }
{
    keeps_each(table, rule, rule.requiring.items(), key, cur, next)
}

/// The same of those of all rules.
fn keeps_rules(rules: &[Required], table: &str, key: &str, cur: &Config, next: &Config) -> bool
    ensures { let Keeps = KeepsAllPlaces rules.now table.now cur.now next.now in
        IsTrue result ↔ Keeps key.now }
{
    for rule in rules {
        if !keeps_places(table, key, cur, next, rule) {
            return false;
        }
    }
    true
}

/// The same at all keys of a table.
fn keeps_keys(rules: &[Required], table: &str, entries: &Table, cur: &Config, next: &Config) -> bool
    ensures { let Keeps = KeepsAllPlaces rules.now table.now cur.now next.now in
        IsTrue result ↔ AreAll Keeps (map (λ e. e.0) entries.now) }
{
    for i in 0..entries.len() {
        if !keeps_rules(rules, table, entries.name_at(i), cur, next) {
            return false;
        }
    }
    true
}

/// The same at all keys of a table of one of the two configurations.
fn keeps_table(rules: &[Required], table: &str, of: &Config, cur: &Config, next: &Config) -> bool
    ensures { let Keeps = KeepsAllPlaces rules.now table.now cur.now next.now in
        IsTrue result ↔ AreKeys Keeps (find table.now of.now) }
{
    match of.table(table) {
        Some(entries) => keeps_keys(rules, table, entries, cur, next),
        None => true,
    }
}

/// Whether required values are there wherever requiring places change. Only places in the move's table are
/// looked at, and only at the move's key where its place names one: all others are as they were.
fn keeps_required(settings: &Settings, cur: &Config, next: &Config, mv: &Move) -> bool
    requires { IsResult cur.now mv.now next.now }
    ensures { IsTrue result ↔ KeepsRequired settings.now cur.now next.now }
{
    let rules = settings.required.items();
    let place = mv.place();
    let table = mv.table();
    if place.len() > 1 {
        keeps_rules(rules, table, place.name_at(1), cur, next)
    } else {
        keeps_table(rules, table, cur, cur, next) && keeps_table(rules, table, next, cur, next)
    }
}
