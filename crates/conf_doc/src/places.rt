//! What two configurations have at the names of an entry or of a field, and what one has at a place.
ghost use Rattle.std.specs.Prelude.{◌≡◌, ◌↔◌, [], ◌∷◌, IfOk, IsTrue, option_copied, option_map};
ghost use Rattle.conf_doc.specs.Changes.{entry_at, part_at, value_at, HasPlace};
ghost use Rattle.conf_doc.specs.declared.parts.Part.TheVariants as part;

use crate::{Config, Entry, Part, Path, Table, Value};
use host_core::Memory;
use std::alloc::Global;

/// Whether two values are the same, or both absent.
fn is_same_value(a: Option<&Value>, b: Option<&Value>) -> bool
    ensures { IsTrue result ↔ (option_copied a.entry ≡ option_copied b.entry) }
{
    match (a, b) {
        (Some(a), Some(b)) => a.same(b),
        (None, None) => true,
        _ => false,
    }
}

/// Whether two entries are the same, or both absent.
fn is_same_entry(a: Option<&Entry>, b: Option<&Entry>) -> bool
    ensures { IsTrue result ↔ (option_copied a.entry ≡ option_copied b.entry) }
{
    match (a, b) {
        (Some(a), Some(b)) => a.same(b),
        (None, None) => true,
        _ => false,
    }
}

/// A copy of a table, where there is one. What it holds is shared.
fn copy_table(alloc: Global, table: Option<&Table>) -> Result<Option<Part>, Memory>
    ensures { IfOk result (λ p. p ≡ option_map part.Table (option_copied table.entry)) }
{
    match table {
        Some(table) => Ok(Some(Part::Table(table.copy(alloc)?))),
        None => Ok(None),
    }
}

/// A copy of an entry, where there is one. What it holds is shared.
fn copy_entry(alloc: Global, entry: Option<&Entry>) -> Result<Option<Part>, Memory>
    ensures { IfOk result (λ p. p ≡ option_map part.Entry (option_copied entry.entry)) }
{
    match entry {
        Some(entry) => Ok(Some(Part::Entry(entry.copy(alloc)?))),
        None => Ok(None),
    }
}

/// A copy of a value, where there is one.
fn copy_value(alloc: Global, value: Option<&Value>) -> Result<Option<Part>, Memory>
    ensures { IfOk result (λ p. p ≡ option_map part.Value (option_copied value.entry)) }
{
    match value {
        Some(value) => Ok(Some(Part::Value(value.copy(alloc)?))),
        None => Ok(None),
    }
}

impl Config {
    /// Whether there is an entry of a table at a key.
    pub fn has_entry(&self, table: &str, key: &str) -> bool
        ensures { IsTrue result ↔ HasPlace self.now (table.now ∷ key.now ∷ []) }
    {
        self.entry(table, key).is_some()
    }

    /// Whether both configurations have the same entry of a table at a key, or both have none.
    pub fn agrees_at_entry(&self, other: &Config, table: &str, key: &str) -> bool
        ensures { let at = entry_at self.now table.now key.now in
            IsTrue result ↔ (at ≡ entry_at other.now table.now key.now) }
    {
        is_same_entry(self.entry(table, key), other.entry(table, key))
    }

    /// Whether both configurations have the same value of a field of an entry, or both have none.
    pub fn agrees_at_field(&self, other: &Config, table: &str, key: &str, field: &str) -> bool
        ensures { let at = value_at self.now table.now key.now field.now in
            IsTrue result ↔ (at ≡ value_at other.now table.now key.now field.now) }
    {
        is_same_value(
            self.value(table, key, field),
            other.value(table, key, field),
        )
    }

    /// A copy of what a place holds, which is shared, or None where it holds nothing.
    pub fn copy_at(&self, alloc: Global, place: &Path) -> Result<Option<Part>, Memory>
        ensures { IfOk result (λ p. p ≡ part_at self.now place.now) }
    {
        match place.len() {
            1 => copy_table(alloc, self.table(place.name_at(0))),
            2 => copy_entry(alloc, self.entry(place.name_at(0), place.name_at(1))),
            _ => copy_value(
                alloc,
                self.value(place.name_at(0), place.name_at(1), place.name_at(2)),
            ),
        }
    }
}
