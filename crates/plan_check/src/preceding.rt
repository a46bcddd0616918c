//! The moves that may precede a move: of the places in cur and in goal on which it may depend.
ghost use Rattle.std.specs.Prelude.{◌≡◌, ◌↔◌, ◌<◌, length, map, option_copied, IfOk, IsTrue, OnOk};
ghost use Rattle.conf_check.specs.Acceptance.{keys_of};
ghost use Rattle.move_core.specs.Contexts.{IsNamed, item_at};
ghost use Rattle.conf_check.specs.Wants.{want_of};
ghost use Rattle.move_core.specs.Moves.{index, place};
ghost use Rattle.move_core.specs.declared.moves.Move.{Move as AnyMove};
ghost use Rattle.plan_check.specs.Backwards.{ArePreceding, Leads};
ghost use Rattle.plan_check.specs.Candidates.{Takes};
ghost use Rattle.plan_check.specs.Nearby.{AreWanted, HasRequiring, HasWanted, IsAtKey, IsAtTable, IsIn, IsInKeys, IsInTables, IsNear, IsRequiredIn, IsRequiringIn, IsWantedFor, IsWantedIn, MayHave};

use crate::candidates::{add_at, add_entry};
use crate::here::Here;
use crate::places::item_at;
use crate::required::{has_key_part, is_rule_field};
use crate::wants::want_at;
use conf_check::WantAt;
use conf_doc::{Config, Path, Table};
use host_core::Memory;
use move_core::{Move, Required, Requiring, listed_moves_are_defined};
use std::alloc::Global;

/// A move of which those are looked for that precede it, the wants at its place, and whether it makes that as in goal.
#[derive(Clone, Copy, Drop)]
pub(crate) struct Sought<'a> {
    pub(crate) here: &'a Here<'a>,
    pub(crate) mv: &'a Move,
    pub(crate) wants: &'a [WantAt<'a>],
    pub(crate) is_goals: bool,
}

/// Whether a key, where one is given, has a text as the part of a number.
fn may_have(key: Option<&str>, part: u32, text: &str) -> bool
    ensures { IsTrue result ↔ MayHave (option_copied key.entry) part text.now }
{
    match key {
        Some(key) => has_key_part(key, part, text),
        None => true,
    }
}

/// Whether a place is in a table, and at a key where one is given or above it.
fn is_near(place: &Path, table: &str, key: Option<&str>) -> bool
    ensures { IsTrue result ↔ IsNear place.now table.now (option_copied key.entry) }
{
    let names = place.len();
    if place.name_at(0) != table {
        return false;
    }
    match key {
        Some(key) => names < 2 || place.name_at(1) == key,
        None => true,
    }
}

/// Whether a want is for a table, and for a key where one is given.
fn is_wanted(at: &WantAt, table: &str, key: Option<&str>) -> bool
    ensures { let want = want_of at.now.want in
        IsTrue result ↔ IsWantedIn want table.now (option_copied key.entry) }
{
    at.want.table == table && may_have(key, at.want.part, at.want.text)
}

/// Whether a want is of what the sought move names: of its item, or of no item.
fn is_own(sought: &Sought, at: &WantAt) -> bool
    ensures { let s = sought.now in
        IsTrue result ↔ (item_at s.here.now.cur.now (place s.mv.now) at.now.item ≡ index s.mv.now) }
{
    item_at(sought.here.cur, sought.mv.place(), at.item) == sought.mv.index()
}

/// Whether such a want is for a table, and for a key where one is given.
fn is_wanted_for(sought: &Sought, at: &WantAt, table: &str, key: Option<&str>) -> bool
    ensures { IsTrue result ↔ IsWantedFor sought.now at.now table.now (option_copied key.entry) }
{
    is_wanted(at, table, key) && is_own(sought, at)
}

/// Whether a place that requires a rule's value for an entry is in a table, and at a key where one is given.
fn is_requiring(place: &Requiring, named: &str, table: &str, key: Option<&str>) -> bool
    ensures { IsTrue result
        ↔ IsRequiringIn place.now named.now table.now (option_copied key.entry) }
{
    place.table.as_str() == table && may_have(key, place.part, named)
}

/// Whether some place there requires what stands in a rule's field at a place.
fn is_required_in(rule: &Required, place: &Path, table: &str, key: Option<&str>) -> bool
    ensures { IsTrue result
        ↔ IsRequiredIn rule.now place.now table.now (option_copied key.entry) }
{
    if place.len() != 3 {
        return false;
    }
    let named = place.name_at(1);
    if !is_rule_field(rule, named, place) {
        return false;
    }
    for requiring in rule.requiring.items() {
        if is_requiring(requiring, named, table, key) {
            return true;
        }
    }
    false
}

/// Whether some rule has such a place for the sought move.
fn has_requiring(sought: &Sought, table: &str, key: Option<&str>) -> bool
    ensures { IsTrue result ↔ HasRequiring sought.now table.now (option_copied key.entry) }
{
    for rule in sought.here.ctx.settings.required.items() {
        if is_required_in(rule, sought.mv.place(), table, key) {
            return true;
        }
    }
    false
}

/// Whether some want of what the sought move names is for a table, and for a key where one is given.
fn has_wanted(sought: &Sought, table: &str, key: Option<&str>) -> bool
    ensures { IsTrue result ↔ HasWanted sought.now table.now (option_copied key.entry) }
{
    for i in 0..sought.wants.len() {
        if is_wanted_for(sought, want_at(sought.wants, i), table, key) {
            return true;
        }
    }
    false
}

/// Whether a move may precede the sought one whose place is in a table, and at a key where one is given.
fn may_precede(sought: &Sought, table: &str, key: Option<&str>) -> bool
    requires { AreWanted sought.now }
    ensures { (m : AnyMove) → Leads sought.now.here.now m sought.now.mv.now
        → IsIn (place m) table.now (option_copied key.entry) → IsTrue result }
{
    if is_near(sought.mv.place(), table, key) {
        return true;
    }
    if has_wanted(sought, table, key) {
        return true;
    }
    has_requiring(sought, table, key)
}

/// Puts those at a key of a table, and at the fields that a configuration has there.
fn add_key(
    alloc: Global,
    sought: &Sought,
    config: &Config,
    table: &str,
    key: &str,
    found: &mut Vec<Move>,
) -> Result<(), Memory>
    requires named { IsNamed sought.now.here.now.ctx.now }
    requires table { 0 < length table.now }
    requires key { 0 < length key.now }
    requires wants { AreWanted sought.now }
    ensures { let Is = IsAtKey sought.now config.now table.now key.now in
        OnOk result (Takes Is found.old.items found.new.items) }
{
    if !may_precede(sought, table, Some(key)) {
        return Ok(());
    }
    add_entry(alloc, sought.here, config, table, key, found)
}

/// Puts those at the keys of a table.
fn add_keys(
    alloc: Global,
    sought: &Sought,
    config: &Config,
    table: &str,
    entries: &Table,
    found: &mut Vec<Move>,
) -> Result<(), Memory>
    requires named { IsNamed sought.now.here.now.ctx.now }
    requires table { 0 < length table.now }
    requires wants { AreWanted sought.now }
    ensures { let Is = IsInKeys sought.now config.now table.now (map (λ e. e.0) entries.now) in
        OnOk result (Takes Is found.old.items found.new.items) }
{
    for i in 0..entries.len() {
        let key = entries.name_at(i);
        add_key(alloc, sought, config, table, key, found)?;
    }
    Ok(())
}

/// Puts those at the keys that a table has in a configuration.
fn add_keys_of(
    alloc: Global,
    sought: &Sought,
    config: &Config,
    table: &str,
    found: &mut Vec<Move>,
) -> Result<(), Memory>
    requires named { IsNamed sought.now.here.now.ctx.now }
    requires table { 0 < length table.now }
    requires wants { AreWanted sought.now }
    ensures { let Is = IsInKeys sought.now config.now table.now (keys_of table.now config.now) in
        OnOk result (Takes Is found.old.items found.new.items) }
{
    match config.table(table) {
        Some(entries) => add_keys(alloc, sought, config, table, entries, found),
        None => Ok(()),
    }
}

/// The same, by the one key that the sought move's place names, where only what is near it may lead to it.
fn add_near_keys(
    alloc: Global,
    sought: &Sought,
    config: &Config,
    table: &str,
    found: &mut Vec<Move>,
) -> Result<(), Memory>
    requires named { IsNamed sought.now.here.now.ctx.now }
    requires table { 0 < length table.now }
    requires wants { AreWanted sought.now }
    ensures { let Is = IsInKeys sought.now config.now table.now (keys_of table.now config.now) in
        OnOk result (Takes Is found.old.items found.new.items) }
{
    let place = sought.mv.place();
    if place.len() < 2 {
        return add_keys_of(alloc, sought, config, table, found);
    }
    if has_wanted(sought, table, None) {
        return add_keys_of(alloc, sought, config, table, found);
    }
    if has_requiring(sought, table, None) {
        return add_keys_of(alloc, sought, config, table, found);
    }
    add_key(alloc, sought, config, table, place.name_at(1), found)
}

/// Puts those in a table: of its keys first, since they tell more often where the move comes from.
fn add_table(
    alloc: Global,
    sought: &Sought,
    config: &Config,
    table: &str,
    found: &mut Vec<Move>,
) -> Result<(), Memory>
    requires named { IsNamed sought.now.here.now.ctx.now }
    requires table { 0 < length table.now }
    requires wants { AreWanted sought.now }
    ensures { let Is = IsAtTable sought.now config.now table.now in
        OnOk result (Takes Is found.old.items found.new.items) }
{
    if !may_precede(sought, table, None) {
        return Ok(());
    }
    add_near_keys(alloc, sought, config, table, found)?;
    add_at(alloc, sought.here, Path::new(alloc, &[table])?, found)
}

/// Puts those in the tables of a configuration.
fn add_tables(
    alloc: Global,
    sought: &Sought,
    config: &Config,
    found: &mut Vec<Move>,
) -> Result<(), Memory>
    requires named { IsNamed sought.now.here.now.ctx.now }
    requires wants { AreWanted sought.now }
    ensures { let Is = IsInTables sought.now config.now (map (λ t. t.0) config.now) in
        OnOk result (Takes Is found.old.items found.new.items) }
{
    for i in 0..config.len() {
        let table = config.name_at(i);
        add_table(alloc, sought, config, table, found)?;
    }
    Ok(())
}

/// The moves that may precede the sought one: all that stand in cur, then all that stand in goal.
pub(crate) fn preceding_moves(alloc: Global, sought: &Sought) -> Result<Vec<Move>, Memory>
    requires named { IsNamed sought.now.here.now.ctx.now }
    requires wants { AreWanted sought.now }
    ensures { let s = sought.now in
        IfOk result (λ v. ArePreceding s.here.now s.mv.now v.items) }
{
    listed_moves_are_defined();
    let here = sought.here;
    let _tables = here.cur.len();
    let mut found = Vec::new(alloc);
    add_tables(alloc, sought, here.cur, &mut found)?;
    add_tables(alloc, sought, here.goal, &mut found)?;
    Ok(found)
}
