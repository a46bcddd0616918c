//! The wants that one of two configurations has and the other hasn't.
ghost use Rattle.std.specs.Prelude.{◌≡◌, ◌↔◌, ◌<◌, ◌+◌, ◌^◌, length, slice_get, Some, IfOk, IfSome, IsTrue, MatchOption, OnOk, option_map};
ghost use Rattle.ref_index.specs.declared.entry_names.EntryName.{EntryName};
ghost use Rattle.conf_check.specs.Rows.{IsEntryAt};
ghost use Rattle.conf_check.specs.Wants.{want_of};
ghost use Rattle.ref_index.specs.EntryNames.{Adds, AddsLacking, AreDifferences, AreWantsOf, IsSameListed};
ghost use Rattle.ref_index.specs.PlaceMaps.{AreMissing};
ghost use Rattle.ref_index.specs.Referrers.{name_of, place_of};

use crate::entry_names::EntryName;
use conf_check::{WantAt, entry_wants};
use conf_doc::Config;
use host_core::Memory;
use std::alloc::Global;
use yang_model::Models;

/// The wants that go and those that come where one configuration takes the place of another.
#[derive(Drop)]
pub(crate) struct WantChanges<'a> {
    pub(crate) gone: Vec<WantAt<'a>>,
    pub(crate) come: Vec<WantAt<'a>>,
}

/// Whether two fields have one name, or there is none.
fn is_same_field(left: Option<&str>, right: Option<&str>) -> bool
    ensures { IsTrue result ↔ (option_map name_of left.entry ≡ option_map name_of right.entry) }
{
    match (left, right) {
        (Some(left), Some(right)) => left == right,
        (None, None) => true,
        _ => false,
    }
}

/// Whether two wants are the same, at the same place.
fn is_same(left: &WantAt, right: &WantAt) -> bool
    ensures { IsTrue result ↔ (place_of left.now ≡ place_of right.now)
        × (want_of left.now.want ≡ want_of right.now.want) }
{
    left.item == right.item
        && left.want.shape == right.want.shape
        && left.want.part == right.want.part
        && is_same_field(left.field, right.field)
        && left.want.text == right.want.text
        && left.want.table == right.want.table
        && left.key == right.key
        && left.table == right.table
}

/// Whether the same want stands at an index of a list.
fn is_same_at(listed: &[WantAt], i: usize, at: &WantAt) -> bool
    ensures same { IsTrue result → IsSameListed listed.now at.now }
    ensures within { IsTrue result → i < length listed.now }
    ensures small { IsTrue result → i + 1 < 2 ^ 64 }
{
    if i >= listed.len() {
        return false;
    }
    is_same(&listed[i], at)
}

/// The index of the same want in a list.
fn first_same(listed: &[WantAt], at: &WantAt) -> Option<usize>
    ensures same { MatchOption result (¬ IsSameListed listed.now at.now)
        (λ _. IsSameListed listed.now at.now) }
    ensures small { IfSome result (λ i. i + 1 < 2 ^ 64) }
{
    for i in 0..listed.len() {
        if is_same(&listed[i], at) {
            return Some(i);
        }
    }
    None
}

/// The same. It is looked for at an index first.
fn index_from(listed: &[WantAt], first: usize, at: &WantAt) -> Option<usize>
    ensures same { MatchOption result (¬ IsSameListed listed.now at.now)
        (λ _. IsSameListed listed.now at.now) }
    ensures small { IfSome result (λ i. i + 1 < 2 ^ 64) }
{
    if is_same_at(listed, first, at) {
        return Some(first);
    }
    first_same(listed, at)
}

/// The wants of an entry.
fn wants_of<'a>(
    alloc: Global,
    models: &'a Models,
    config: &'a Config,
    table: &str,
    key: &str,
) -> Result<Vec<WantAt<'a>>, Memory>
    ensures { IfOk result
        (λ found. AreWantsOf models.now config.now table.now key.now found.items) }
{
    let mut found = Vec::new(alloc);
    for at in entry_wants(models, config, table, key) {
        found.push(at)?;
    }
    Ok(found)
}

/// Adds the wants of a list that another one lacks.
fn add_lacking<'a>(
    listed: &[WantAt<'a>],
    others: &[WantAt],
    found: &mut Vec<WantAt<'a>>,
) -> Result<(), Memory>
    ensures { OnOk result (AddsLacking listed.now others.now found.old.items found.new.items) }
{
    let mut next = 0;
    for at in listed {
        match index_from(others, next, at) {
            Some(i) => next = i + 1,
            None => found.push(*at)?,
        }
    }
    Ok(())
}

/// Adds the wants of an entry that only one of two configurations has. What it wants in each is found once.
fn add_of_entry<'a>(
    alloc: Global,
    models: &'a Models,
    config: &'a Config,
    next: &'a Config,
    table: &str,
    key: &str,
    changes: &mut WantChanges<'a>,
) -> Result<(), Memory>
    ensures gone { let Of = IsEntryAt config.now table.now key.now in OnOk result
        (Adds models.now config.now next.now Of changes.old.gone.items changes.new.gone.items) }
    ensures come { let Of = IsEntryAt next.now table.now key.now in OnOk result
        (Adds models.now next.now config.now Of changes.old.come.items changes.new.come.items) }
{
    let before = wants_of(alloc, models, config, table, key)?;
    let after = wants_of(alloc, models, next, table, key)?;
    add_lacking(before.as_slice(), after.as_slice(), &mut changes.gone)?;
    add_lacking(after.as_slice(), before.as_slice(), &mut changes.come)?;
    Ok(())
}

/// The same of the entry of the name at an index.
fn add_at<'a>(
    alloc: Global,
    models: &'a Models,
    config: &'a Config,
    next: &'a Config,
    names: &[EntryName],
    i: usize,
    changes: &mut WantChanges<'a>,
) -> Result<(), Memory>
    requires { i < length names.now }
    ensures gone { (name : EntryName) → slice_get names.now i ≡ Some name →
        let Of = IsEntryAt config.now name.table.now name.key.now in OnOk result
        (Adds models.now config.now next.now Of changes.old.gone.items changes.new.gone.items) }
    ensures come { (name : EntryName) → slice_get names.now i ≡ Some name →
        let Of = IsEntryAt next.now name.table.now name.key.now in OnOk result
        (Adds models.now next.now config.now Of changes.old.come.items changes.new.come.items) }
{
    let name = names[i];
    add_of_entry(alloc, models, config, next, name.table, name.key, changes)
}

/// The wants, with their places, that only one of two configurations has. Only entries of those names are
/// looked at; of the others both have the same wants.
pub(crate) fn changed_wants<'a>(
    alloc: Global,
    models: &'a Models,
    config: &'a Config,
    next: &'a Config,
    names: &[EntryName],
) -> Result<WantChanges<'a>, Memory>
    requires { AreDifferences models.now config.now next.now names.now }
    ensures gone { IfOk result (λ c. AreMissing models.now config.now next.now c.gone.items) }
    ensures come { IfOk result (λ c. AreMissing models.now next.now config.now c.come.items) }
{
    let mut changes = WantChanges {
        gone: Vec::new(alloc),
        come: Vec::new(alloc),
    };
    for i in 0..names.len() {
        add_at(alloc, models, config, next, names, i, &mut changes)?;
    }
    Ok(changes)
}
