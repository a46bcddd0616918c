//! Names of entries: the keys that one of two configurations has and the other hasn't, and the entries that
//! differ or have a text that is a part of such a key.
ghost use Rattle.std.specs.Prelude.{ℕ, List, ◌≡◌, ◌↔◌, ◌<◌, ◌+◌, ◌^◌, [], length, map, slice_get, MatchOption, Some, IfOk, IfSome, IsTrue, OnOk};
ghost use Rattle.std.specs.List.{Contains};
ghost use Rattle.key_split.specs.Key.{key_parts};
ghost use Rattle.ref_index.specs.Agreements.{AgreeBut};
ghost use Rattle.ref_index.specs.Texts.{Has};
ghost use Rattle.ref_index.specs.declared.entry_names.EntryName.{EntryName};
ghost use Rattle.conf_doc.specs.WellFormed.{IsConfig, IsTable};
ghost use Rattle.yang_model.specs.ModelSets.{ModelSet};
ghost use Rattle.ref_index.specs.EntryNames.{AddsChanged, AddsChangedOf, AddsLone, AddsLoneOf, AddsReferring, AddsReferringOf, AreDifferences, HasKey, HoldsParts, IsApart, IsNamed, entries_of};

use crate::referring::table_refers;
use crate::text_sets::TextSet;
use conf_doc::{Config, Entry, Table};
use host_core::Memory;
use std::alloc::Global;
use yang_model::Models;

/// The table and the key of an entry.
#[derive(Clone, Copy, Drop)]
pub(crate) struct EntryName<'a> {
    pub(crate) table: &'a str,
    pub(crate) key: &'a str,
}

/// Whether two names are the same.
fn is_same_name(left: &str, right: &str) -> bool
    ensures { IsTrue result ↔ (left.now ≡ right.now) }
{
    left == right
}

/// Whether a key stands at an index of a table.
fn is_key_at(table: &Table, i: usize, key: &str) -> bool
    ensures at { IsTrue result ↔ slice_get (map (λ e. e.0) table.now) i ≡ Some key.now }
    ensures formed { IsTable table.now }
    ensures within { IsTrue result → i < length table.now }
    ensures small { IsTrue result → i + 1 < 2 ^ 64 }
{
    if i >= table.len() {
        return false;
    }
    is_same_name(table.name_at(i), key)
}

/// Where a key stands in a table. It is looked for at an index first.
fn index_from(table: &Table, first: usize, key: &str) -> Option<usize>
    ensures at { MatchOption result (¬ HasKey table.now key.now)
        (λ i. slice_get (map (λ e. e.0) table.now) i ≡ Some key.now) }
    ensures within { IfSome result (λ i. i < length table.now) }
    ensures small { IfSome result (λ i. i + 1 < 2 ^ 64) }
{
    if is_key_at(table, first, key) {
        return Some(first);
    }
    let i = table.first_from(key);
    if is_key_at(table, i, key) {
        return Some(i);
    }
    None
}

/// The table of a name, or the empty one where there is none.
fn table_or<'a>(config: &'a Config, name: &str, empty: &'a Table) -> &'a Table
    requires { empty.now ≡ [] }
    ensures table { result.now ≡ entries_of config.now name.now }
    ensures formed { IsConfig config.now }
{
    match config.table(name) {
        Some(table) => table,
        None => empty,
    }
}

/// Adds the keys of a table that another one hasn't.
fn add_lone_of<'a>(
    name: &'a str,
    left: &'a Table,
    right: &Table,
    found: &mut Vec<EntryName<'a>>,
) -> Result<(), Memory>
    ensures { OnOk result
        (AddsLoneOf name.now left.now right.now found.old.items found.new.items) }
{
    let mut next = 0;
    for k in 0..left.len() {
        let key = left.name_at(k);
        match index_from(right, next, key) {
            Some(i) => next = i + 1,
            None => found.push(EntryName { table: name, key })?,
        }
    }
    Ok(())
}

/// Adds the keys of the first configuration that the second hasn't.
fn add_lone<'a>(
    alloc: Global,
    first: &'a Config,
    second: &Config,
    found: &mut Vec<EntryName<'a>>,
) -> Result<(), Memory>
    ensures keys { OnOk result (AddsLone first.now second.now found.old.items found.new.items) }
    ensures formed { IsConfig first.now }
{
    let empty = Table::new(alloc);
    for t in 0..first.len() {
        let name = first.name_at(t);
        add_lone_of(
            name,
            first.part_at(t),
            table_or(second, name, &empty),
            found,
        )?;
    }
    Ok(())
}

/// Adds the parts of the key of the entry at an index.
fn add_parts_at(
    parts: &mut TextSet,
    alloc: Global,
    names: &[EntryName],
    i: usize,
) -> Result<(), Memory>
    requires { i < length names.now }
    ensures stay { OnOk result ((s : List ℕ) → Has parts.old s → Has parts.new s) }
    ensures all { (name : EntryName) → slice_get names.now i ≡ Some name →
        OnOk result ((s : List ℕ) → Contains (key_parts name.key.now) s → Has parts.new s) }
{
    let name = names[i];
    parts.add_parts(alloc, name.key)
}

/// The parts of the keys of some entries.
fn parts_of(alloc: Global, names: &[EntryName]) -> Result<TextSet, Memory>
    ensures { IfOk result (HoldsParts names.now) }
{
    let mut parts = TextSet::new(alloc);
    for i in 0..names.len() {
        add_parts_at(&mut parts, alloc, names, i)?;
    }
    Ok(parts)
}

/// Whether two entries of a key differ, or one of their texts is among some texts.
fn is_apart(key: &str, left: &Entry, right: &Entry, parts: &TextSet) -> bool
    ensures { IsApart parts.now key.now left.now right.now result }
{
    !left.same(right) || parts.has_one_of(key, left)
}

/// Adds the keys of a table at which another one has an entry that differs, or has one of those texts.
fn add_changed_of<'a>(
    name: &'a str,
    left: &'a Table,
    right: &Table,
    parts: &TextSet,
    found: &mut Vec<EntryName<'a>>,
) -> Result<(), Memory>
    ensures { OnOk result
        (AddsChangedOf parts.now name.now left.now right.now found.old.items found.new.items) }
{
    let mut next = 0;
    for k in 0..left.len() {
        let key = left.name_at(k);
        if let Some(i) = index_from(right, next, key) {
            next = i + 1;
            if is_apart(key, left.part_at(k), right.part_at(i), parts) {
                found.push(EntryName { table: name, key })?;
            }
        }
    }
    Ok(())
}

/// Adds the entries at which the second configuration has one that differs, or that have one of those texts.
fn add_changed<'a>(
    alloc: Global,
    first: &'a Config,
    second: &Config,
    parts: &TextSet,
    found: &mut Vec<EntryName<'a>>,
) -> Result<(), Memory>
    ensures { OnOk result
        (AddsChanged parts.now first.now second.now found.old.items found.new.items) }
{
    let empty = Table::new(alloc);
    for t in 0..first.len() {
        let name = first.name_at(t);
        let left = first.part_at(t);
        add_changed_of(name, left, table_or(second, name, &empty), parts, found)?;
    }
    Ok(())
}

/// The entries of which the wants may differ: those that one of two configurations has alone, those that
/// differ, and those that have a part of a key that one of them has alone. What a text is accepted as depends
/// on its type and on the keys of which it is a part.
pub(crate) fn differences<'a>(
    alloc: Global,
    first: &'a Config,
    second: &'a Config,
) -> Result<Vec<EntryName<'a>>, Memory>
    ensures { (models : ModelSet) →
        IfOk result (λ found. AreDifferences models first.now second.now found.items) }
{
    let mut found = Vec::new(alloc);
    add_lone(alloc, first, second, &mut found)?;
    add_lone(alloc, second, first, &mut found)?;
    let parts = parts_of(alloc, found.as_slice())?;
    add_changed(alloc, first, second, &parts, &mut found)?;
    Ok(found)
}

/// The name of one entry, alone.
fn one_name<'a>(alloc: Global, table: &'a str, key: &'a str) -> Result<Vec<EntryName<'a>>, Memory>
    ensures { IfOk result (λ found. IsNamed found.items table.now key.now) }
{
    let mut found = Vec::new(alloc);
    found.push(EntryName { table, key })?;
    Ok(found)
}

/// Adds the entries of a table at which another one has one that differs, or that have one of those texts, where
/// the table may refer to another one.
fn add_if_referring<'a>(
    models: &Models,
    to: &str,
    name: &'a str,
    left: &'a Table,
    right: &Table,
    parts: &TextSet,
    found: &mut Vec<EntryName<'a>>,
) -> Result<(), Memory>
    ensures { OnOk result (AddsReferringOf models.now to.now parts.now name.now
        left.now right.now found.old.items found.new.items) }
{
    if !table_refers(models, name, to) {
        return Ok(());
    }
    add_changed_of(name, left, right, parts, found)?;
    Ok(())
}

/// The same of each table. Where a key of that other one comes or goes no others have other wants.
fn add_referring<'a>(
    alloc: Global,
    models: &Models,
    to: &str,
    first: &'a Config,
    second: &Config,
    parts: &TextSet,
    found: &mut Vec<EntryName<'a>>,
) -> Result<(), Memory>
    ensures { OnOk result (AddsReferring models.now to.now parts.now
        first.now second.now found.old.items found.new.items) }
{
    let empty = Table::new(alloc);
    for t in 0..first.len() {
        let name = first.name_at(t);
        let left = first.part_at(t);
        let right = table_or(second, name, &empty);
        add_if_referring(models, to, name, left, right, parts, found)?;
    }
    Ok(())
}

/// The entries of which the wants may differ, where two configurations agree but for one entry: that one, and
/// where it comes or goes those that have a part of its key, of the tables that may refer to its table.
pub(crate) fn differences_but<'a>(
    alloc: Global,
    models: &Models,
    first: &'a Config,
    second: &'a Config,
    table: &'a str,
    key: &'a str,
) -> Result<Vec<EntryName<'a>>, Memory>
    requires { AgreeBut first.now second.now table.now key.now }
    ensures { IfOk result (λ found.
        AreDifferences models.now first.now second.now found.items) }
{
    let mut found = one_name(alloc, table, key)?;
    if first.entry(table, key).is_some() == second.entry(table, key).is_some() {
        return Ok(found);
    }
    let parts = parts_of(alloc, found.as_slice())?;
    add_referring(alloc, models, table, first, second, &parts, &mut found)?;
    Ok(found)
}
