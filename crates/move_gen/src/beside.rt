//! Entries of a table that is gone through beside another one, and fields of an entry: where both have the same names,
//! each is found next to the last.
ghost use Rattle.std.specs.Prelude.{◌≡◌, ◌≤◌, length, option_and_then, option_copied};
ghost use Rattle.conf_doc.specs.Pairs.{find};

use conf_doc::{Entry, Table, Value};

/// The first index from one on whose key isn't below that one.
fn first_not_below(table: &Table, key: &str, from: usize) -> usize
    ensures { result ≤ length table.now }
{
    for i in from..table.len() {
        if table.name_at(i) >= key {
            return i;
        }
    }
    table.len()
}

/// The entry of a key, looked for from an index on, and where to look for the key after that one.
fn look_near<'t>(table: &'t Table, key: &str, near: usize) -> (Option<&'t Entry>, usize)
    ensures { option_copied result.0 ≡ find key.now table.now }
{
    let at = first_not_below(table, key, near);
    match table.entry_near(key, at) {
        Some(entry) => (Some(entry), at.saturating_add(1)),
        None => (None, at),
    }
}

/// The same of a table that may be there.
pub(crate) fn look_beside<'t>(
    table: Option<&'t Table>,
    key: &str,
    near: usize,
) -> (Option<&'t Entry>, usize)
    ensures { option_copied result.0 ≡ option_and_then (find key.now) (option_copied table.entry) }
{
    match table {
        Some(table) => look_near(table, key, near),
        None => (None, 0),
    }
}

/// The value of a field, looked for first at an index.
pub(crate) fn field_near<'e>(entry: &'e Entry, field: &str, near: usize) -> Option<&'e Value>
    ensures { option_copied result ≡ find field.now entry.now }
{
    if near < entry.len() && entry.name_at(near) == field {
        Some(entry.part_at(near))
    } else {
        entry.field(field)
    }
}
