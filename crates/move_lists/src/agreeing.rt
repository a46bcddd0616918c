//! Whether two configurations agree at a place, and whether one has a part there.
ghost use Rattle.std.specs.Prelude.{◌≡◌, ◌↔◌, length, is_some, IsTrue, option_copied};
ghost use Rattle.conf_doc.specs.Changes.{part_at};
ghost use Rattle.move_core.specs.Moves.{Agree};

use conf_doc::{Config, Part, Path, Table};

/// Whether the same stands at a place in both, or nothing in either.
pub(crate) fn agree_at(a: &Config, b: &Config, place: &Path) -> bool
    ensures { IsTrue result ↔ Agree a.now b.now place.now }
{
    let names = place.len();
    let table = place.name_at(0);
    if names == 1 {
        return is_same_table(a.table(table), b.table(table));
    }
    let key = place.name_at(1);
    if names == 2 {
        return a.agrees_at_entry(b, table, key);
    }
    a.agrees_at_field(b, table, key, place.name_at(2))
}

/// Whether the same entry stands at a place of two names in both, or none in either, where it is known whether the
/// second has one.
pub(crate) fn agree_at_entry(a: &Config, b: &Config, place: &Path, is_in_second: bool) -> bool
    requires entry { length place.now ≡ 2 }
    requires known { is_in_second ≡ is_some (part_at b.now place.now) }
    ensures { IsTrue result ↔ Agree a.now b.now place.now }
{
    let table = place.name_at(0);
    let key = place.name_at(1);
    let Some(entry) = a.entry(table, key) else {
        return !is_in_second;
    };
    if !is_in_second {
        return false;
    }
    match b.entry(table, key) {
        Some(other) => entry.same(other),
        None => false,
    }
}

/// Whether a configuration has that part at a place of three names, or has nothing there where it is None.
pub(crate) fn has_value(config: &Config, place: &Path, part: Option<&Part>) -> bool
    requires { length place.now ≡ 3 }
    ensures { IsTrue result ↔ (part_at config.now place.now ≡ option_copied part.entry) }
{
    let value = config.value(place.name_at(0), place.name_at(1), place.name_at(2));
    match (value, part) {
        (Some(value), Some(Part::Value(new))) => value.same(new),
        (None, None) => true,
        _ => false,
    }
}

/// Whether two tables are the same, or both absent.
fn is_same_table(a: Option<&Table>, b: Option<&Table>) -> bool
    ensures { IsTrue result ↔ (option_copied a.entry ≡ option_copied b.entry) }
{
    match (a, b) {
        (Some(a), Some(b)) => a.same(b),
        (None, None) => true,
        _ => false,
    }
}
