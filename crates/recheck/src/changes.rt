//! A change of the configuration invalidates cached verdicts: those on entries that differ, those on entries with a
//! want that such an entry met, and those on entries with a must that reads a changed table.
ghost use Rattle.std.specs.Prelude.{◌≡◌, ◌↔◌, ◌⊎◌, ◌<◌, ℕ, List, length, None, Some, IsTrue, is_some, map, option_and_then, option_map, slice_get};
ghost use Rattle.std.specs.List.{All};
ghost use Rattle.conf_doc.specs.Pairs.{find};
ghost use Rattle.key_split.specs.Key.{key_parts};
ghost use Rattle.recheck.specs.Changes.{AreAmong, AreElsewhere, AreKeysHandled, AreUnread, AreUntouched, IsHandled, IsOnOne, IsTableHandled, IsTableHandledAt, MayWant, MayWantPart};
ghost use Rattle.recheck.specs.Turned.{IsTurned, IsTurnedByTable, MayTouch, Reads};
ghost use Rattle.recheck.specs.Entries.{AreWithin, entries_of};
ghost use Rattle.recheck.specs.Verdicts.{AreSound};
ghost use Rattle.recheck.specs.Within.{IsLeft};
ghost use Rattle.ref_index.specs.Agreements.{AgreeBut, entry_of};
ghost use Rattle.ref_index.specs.Referrers.{want_for, HasWant};

use crate::musts::{drop_readers, one_may_read};
use crate::verdicts::{Verdict, drop_at};
use conf_check::musts_have_one_truth;
use conf_doc::{Config, Entry, Table};
use key_split::KeyView;
use ref_index::{Place, RefIndex};
use yang_model::Models;

/// Drops the verdicts on the entries of some places.
fn drop_places(verdicts: &mut Vec<Verdict>, places: &[Place])
    ensures among { AreAmong verdicts.old.items verdicts.new.items }
    ensures dropped { All (λ p. AreElsewhere p verdicts.new.items) places.now }
    ensures left { IsLeft (IsOnOne places.now) verdicts.old.items verdicts.new.items }
{
    for place in places {
        drop_at(verdicts, place.table.as_str(), place.key.as_str());
    }
}

/// Drops the verdicts on entries that want a text as a part of a key of a shape of a table. The number of the
/// part is a place in the key.
fn drop_part(
    verdicts: &mut Vec<Verdict>,
    index: &RefIndex,
    table: &str,
    shape: u32,
    part: usize,
    text: &str,
)
    ensures among { AreAmong verdicts.old.items verdicts.new.items }
    ensures dropped { (p : _) →
        HasWant index.now.models index.now.config (want_for table.now shape part text.now) p
        → AreElsewhere p verdicts.new.items }
    ensures left { let config = index.now.config in
        IsLeft (MayWant index.now.models config table.now shape part text.now)
        verdicts.old.items verdicts.new.items }
{
    match u32::try_from(part) {
        Ok(part) => drop_places(verdicts, index.referrers(table, shape, part, text)),
        // no want has a number of this size
        Err(_) => verdicts.clear(),
    }
}

/// The same for a part of a key, where the key has it.
fn drop_part_of(
    verdicts: &mut Vec<Verdict>,
    index: &RefIndex,
    table: &str,
    shape: u32,
    key: &KeyView,
    part: usize,
)
    ensures among { AreAmong verdicts.old.items verdicts.new.items }
    ensures dropped { (text : List ℕ) (p : _) → slice_get (key_parts key.now) part ≡ Some text →
        HasWant index.now.models index.now.config (want_for table.now shape part text) p
        → AreElsewhere p verdicts.new.items }
    ensures left { let config = index.now.config in
        IsLeft (MayWantPart index.now.models config table.now shape key.now part)
        verdicts.old.items verdicts.new.items }
{
    if let Some(text) = key.part(part) {
        drop_part(verdicts, index, table, shape, part, text);
    }
}

/// Drops the verdicts on entries that want what an entry of a shape has as a part of its key.
fn drop_parts(verdicts: &mut Vec<Verdict>, index: &RefIndex, table: &str, shape: u32, key: &KeyView)
    ensures among { AreAmong verdicts.old.items verdicts.new.items }
    ensures dropped { (part : ℕ) (text : List ℕ) (p : _) →
        slice_get (key_parts key.now) part ≡ Some text →
        HasWant index.now.models index.now.config (want_for table.now shape part text) p
        → AreElsewhere p verdicts.new.items }
    ensures left { let config = index.now.config in
        IsLeft (λ v. (part : ℕ)
        × MayWantPart index.now.models config table.now shape key.now part v)
        verdicts.old.items verdicts.new.items }
{
    for i in 0..key.parts() {
        drop_part_of(verdicts, index, table, shape, key, i);
    }
}

/// Drops the verdicts that a change of an entry may turn: the one on it, and those on entries with a want
/// that it meets.
fn drop_touched(
    verdicts: &mut Vec<Verdict>,
    models: &Models,
    index: &RefIndex,
    table: &str,
    key: &str,
)
    requires { index.now.models ≡ models.now }
    ensures among { AreAmong verdicts.old.items verdicts.new.items }
    ensures dropped { AreUntouched models.now index.now.config table.now key.now
        verdicts.new.items }
    ensures left { IsLeft (MayTouch models.now index.now.config table.now key.now)
        verdicts.old.items verdicts.new.items }
{
    drop_at(verdicts, table, key);
    let view = KeyView::new(key);
    if let Some(shape) = models.list_of(table, &view) {
        drop_parts(verdicts, index, table, shape, &view);
    }
}

/// Whether there is an entry and it is the same.
fn is_entry(entry: Option<&Entry>, other: &Entry) -> bool
    ensures { IsTrue result ↔ (option_map (λ e. e.now) entry.entry ≡ Some other.now) }
{
    let Some(entry) = entry else {
        return false;
    };
    entry.same(other)
}

/// Whether there is a table and it is the same.
fn is_table(table: Option<&Table>, other: &Table) -> bool
    ensures { IsTrue result ↔ (option_map (λ t. t.now) table.entry ≡ Some other.now) }
{
    match table {
        Some(table) => table.same(other),
        None => false,
    }
}

/// Drops the verdicts that a change of an entry may turn, unless the other entry of its key is the same.
fn drop_unless_same(
    verdicts: &mut Vec<Verdict>,
    models: &Models,
    index: &RefIndex,
    other: Option<&Entry>,
    table: &str,
    key: &str,
    entry: &Entry,
)
    requires { index.now.models ≡ models.now }
    ensures among { AreAmong verdicts.old.items verdicts.new.items }
    ensures handled { (option_map (λ e. e.now) other.entry ≡ Some entry.now)
        ⊎ AreUntouched models.now index.now.config table.now key.now verdicts.new.items }
    ensures left { let config = index.now.config in
        IsLeft (λ v. (¬ (option_map (λ e. e.now) other.entry ≡ Some entry.now))
        × MayTouch models.now config table.now key.now v)
        verdicts.old.items verdicts.new.items }
{
    if is_entry(other, entry) {
        return;
    }
    drop_touched(verdicts, models, index, table, key);
}

/// The entry of a key, where there is a table.
fn entry_in<'a>(table: Option<&'a Table>, key: &str) -> Option<&'a Entry>
    ensures { option_map (λ e. e.now) result
        ≡ option_and_then (λ t. find key.now t.now) table.entry }
{
    match table {
        Some(table) => table.entry(key),
        None => None,
    }
}

/// Drops the verdicts that may turn where a table isn't the same in another configuration.
fn drop_keys(
    verdicts: &mut Vec<Verdict>,
    models: &Models,
    index: &RefIndex,
    next: &Config,
    table: usize,
)
    requires models { index.now.models ≡ models.now }
    requires within { table < length index.now.config }
    ensures among { AreAmong verdicts.old.items verdicts.new.items }
    ensures table { IsTableHandledAt models.now index.now.config next.now verdicts.new.items
        index.now.config table }
    ensures handled { let config = index.now.config in (n : ℕ) →
        AreKeysHandled models.now config next.now verdicts.new.items table n }
    ensures left { IsLeft (IsTurned models.now index.now.config next.now)
        verdicts.old.items verdicts.new.items }
{
    let name = index.config().name_at(table);
    let entries = index.config().part_at(table);
    let others = next.table(name);
    if is_table(others, entries) {
        return;
    }
    drop_readers(verdicts, models, name);
    for i in 0..entries.len() {
        let key = entries.name_at(i);
        let entry = entries.part_at(i);
        let other = entry_in(others, key);
        drop_unless_same(verdicts, models, index, other, name, key, entry);
    }
}

/// Drops the verdicts on entries with a must that reads a table, where a configuration lacks it.
fn drop_if_lacking(verdicts: &mut Vec<Verdict>, models: &Models, config: &Config, name: &str)
    ensures among { AreAmong verdicts.old.items verdicts.new.items }
    ensures dropped { find name.now config.now ≡ None
        → AreUnread models.now name.now verdicts.new.items }
    ensures left { IsLeft (λ v. (find name.now config.now ≡ None) × Reads models.now name.now v)
        verdicts.old.items verdicts.new.items }
{
    if config.table(name).is_some() {
        return;
    }
    drop_readers(verdicts, models, name);
}

/// Drops the verdicts on entries with a must that reads a table which another configuration has and the first
/// lacks.
fn drop_added(verdicts: &mut Vec<Verdict>, models: &Models, config: &Config, next: &Config)
    ensures among { AreAmong verdicts.old.items verdicts.new.items }
    ensures dropped { (u : ℕ) (name : List ℕ) → u < length next.now
        → slice_get (map (λ p. p.0) next.now) u ≡ Some name → find name config.now ≡ None
        → AreUnread models.now name verdicts.new.items }
    ensures left { IsLeft (IsTurnedByTable models.now config.now next.now)
        verdicts.old.items verdicts.new.items }
{
    for u in 0..next.len() {
        drop_if_lacking(verdicts, models, config, next.name_at(u));
    }
}

/// Drops the verdicts that may turn where a table isn't the same in another configuration, and no others. Those
/// that are left are true there where they were true.
pub(crate) fn drop_changed(
    verdicts: &mut Vec<Verdict>,
    models: &Models,
    index: &RefIndex,
    next: &Config,
)
    requires { index.now.models ≡ models.now }
    ensures among { AreAmong verdicts.old.items verdicts.new.items }
    ensures sound { AreSound models.now index.now.config verdicts.old.items
        → AreSound models.now next.now verdicts.new.items }
    ensures ordered { AreSound models.now index.now.config verdicts.old.items
        → AreWithin verdicts.old.items (entries_of models.now index.now.config)
        → AreWithin verdicts.new.items (entries_of models.now next.now) }
    ensures left { IsLeft (IsTurned models.now index.now.config next.now)
        verdicts.old.items verdicts.new.items }
{
    // a must has one truth where its entry and the tables that it reads are the same
    musts_have_one_truth();
    models.have_files();
    for table in 0..index.config().len() {
        drop_keys(verdicts, models, index, next, table);
    }
    let _ = next.len();
    drop_added(verdicts, models, index.config(), next);
}

/// Whether two configurations have the same table of a name, or both none.
fn is_same_table(config: &Config, next: &Config, name: &str) -> bool
    ensures { IsTrue result ↔ (find name.now config.now ≡ find name.now next.now) }
{
    match config.table(name) {
        Some(table) => is_table(next.table(name), table),
        None => next.table(name).is_none(),
    }
}

/// Drops the verdicts on entries with a must that reads a table, unless it is the same in both. The tables are compared only
/// where a verdict's entry may have such a must.
fn drop_readers_unless_same(
    verdicts: &mut Vec<Verdict>,
    models: &Models,
    config: &Config,
    next: &Config,
    name: &str,
)
    ensures among { AreAmong verdicts.old.items verdicts.new.items }
    ensures handled { IsTableHandled models.now config.now next.now verdicts.new.items name.now }
    ensures left { IsLeft (IsTurnedByTable models.now config.now next.now)
        verdicts.old.items verdicts.new.items }
{
    if !one_may_read(models, verdicts.as_slice(), name) {
        return;
    }
    if is_same_table(config, next, name) {
        return;
    }
    drop_readers(verdicts, models, name);
}

/// Drops the verdicts that a change of an entry may turn, where the index has it and it isn't the same.
fn drop_if_there(
    verdicts: &mut Vec<Verdict>,
    models: &Models,
    index: &RefIndex,
    next: &Config,
    table: &str,
    key: &str,
)
    requires { index.now.models ≡ models.now }
    ensures among { AreAmong verdicts.old.items verdicts.new.items }
    ensures handled { IsTrue (is_some (entry_of table.now key.now index.now.config))
        → IsHandled models.now index.now.config next.now verdicts.new.items table.now key.now }
    ensures left { IsLeft (IsTurned models.now index.now.config next.now)
        verdicts.old.items verdicts.new.items }
{
    let Some(entry) = index.config().entry(table, key) else {
        return;
    };
    drop_unless_same(
        verdicts,
        models,
        index,
        next.entry(table, key),
        table,
        key,
        entry,
    );
}

/// Drops the verdicts that may turn where another configuration agrees but for one entry, and no others. Those
/// that are left are true there where they were true.
pub(crate) fn drop_entry(
    verdicts: &mut Vec<Verdict>,
    models: &Models,
    index: &RefIndex,
    next: &Config,
    table: &str,
    key: &str,
)
    requires models { index.now.models ≡ models.now }
    requires agree { AgreeBut index.now.config next.now table.now key.now }
    ensures among { AreAmong verdicts.old.items verdicts.new.items }
    ensures sound { AreSound models.now index.now.config verdicts.old.items
        → AreSound models.now next.now verdicts.new.items }
    ensures ordered { AreSound models.now index.now.config verdicts.old.items
        → AreWithin verdicts.old.items (entries_of models.now index.now.config)
        → AreWithin verdicts.new.items (entries_of models.now next.now) }
    ensures left { IsLeft (IsTurned models.now index.now.config next.now)
        verdicts.old.items verdicts.new.items }
{
    // a must has one truth where its entry and the tables that it reads are the same
    musts_have_one_truth();
    models.have_files();
    let _ = index.config().len();
    let _ = next.len();
    drop_readers_unless_same(verdicts, models, index.config(), next, table);
    drop_if_there(verdicts, models, index, next, table, key);
}
