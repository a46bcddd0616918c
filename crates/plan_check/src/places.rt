//! What a configuration has at a place.
ghost use Rattle.std.specs.Prelude.{◌≡◌, ◌↔◌, [], ◌∷◌, option_map, IsTrue, Some};
ghost use Rattle.conf_doc.specs.Changes.{HasParent, HasPlace, part_at};
ghost use Rattle.move_core.specs.Contexts.{item_at};
ghost use Rattle.move_core.specs.Moves.{list_at};

use conf_doc::{Config, Part, Path, Value};
use host_core::Names;

/// Whether something stands at a place.
pub(crate) fn has_place(config: &Config, place: &Path) -> bool
    ensures { IsTrue result ↔ HasPlace config.now place.now }
{
    match place.len() {
        1 => config.table(place.name_at(0)).is_some(),
        2 => config.entry(place.name_at(0), place.name_at(1)).is_some(),
        _ => config
            .value(place.name_at(0), place.name_at(1), place.name_at(2))
            .is_some(),
    }
}

/// Whether what stands one name above a place is there.
pub(crate) fn has_parent(config: &Config, place: &Path) -> bool
    ensures { IsTrue result ↔ HasParent config.now place.now }
{
    match place.len() {
        1 => true,
        2 => config.table(place.name_at(0)).is_some(),
        _ => config.entry(place.name_at(0), place.name_at(1)).is_some(),
    }
}

/// The items of the list at a place, where a list stands there.
pub(crate) fn list_at<'c>(config: &'c Config, place: &Path) -> Option<&'c Names>
    ensures { option_map (λ items. items.now) result ≡ list_at config.now place.now }
{
    if place.len() != 3 {
        return None;
    }
    match config.value(place.name_at(0), place.name_at(1), place.name_at(2)) {
        Some(Value::List(items)) => Some(items),
        _ => None,
    }
}

/// The index of a text, where it is an item of a list that stands at the place.
pub(crate) fn item_at(config: &Config, place: &Path, i: usize) -> Option<usize>
    ensures { result ≡ item_at config.now place.now i }
{
    match list_at(config, place) {
        Some(_) => Some(i),
        None => None,
    }
}

/// Whether a place has that part.
pub(crate) fn has_part(config: &Config, place: &Path, part: &Part) -> bool
    ensures { IsTrue result ↔ (part_at config.now place.now ≡ Some part.now) }
{
    match place.len() {
        1 => match (config.table(place.name_at(0)), part) {
            (Some(there), Part::Table(table)) => there.same(table),
            _ => false,
        },
        2 => match (config.entry(place.name_at(0), place.name_at(1)), part) {
            (Some(there), Part::Entry(entry)) => there.same(entry),
            _ => false,
        },
        _ => match (
            config.value(place.name_at(0), place.name_at(1), place.name_at(2)),
            part,
        ) {
            (Some(there), Part::Value(value)) => there.same(value),
            _ => false,
        },
    }
}

/// Whether two names are the same.
pub(crate) fn is_name(one: &str, other: &str) -> bool
    ensures { IsTrue result ↔ (one.now ≡ other.now) }
{
    one == other
}

/// Whether a place is that of a table.
pub(crate) fn is_table_at(place: &Path, table: &str) -> bool
    ensures { IsTrue result ↔ (place.now ≡ table.now ∷ []) }
{
    if place.len() != 1 {
        return false;
    }
    is_name(place.name_at(0), table)
}

/// Whether a place is that of an entry.
pub(crate) fn is_entry_at(place: &Path, table: &str, key: &str) -> bool
    ensures { IsTrue result ↔ (place.now ≡ table.now ∷ key.now ∷ []) }
{
    if place.len() != 2 {
        return false;
    }
    if !is_name(place.name_at(0), table) {
        return false;
    }
    is_name(place.name_at(1), key)
}

/// Whether a place is that of a field.
pub(crate) fn is_field_at(place: &Path, table: &str, key: &str, field: &str) -> bool
    ensures { IsTrue result ↔ (place.now ≡ table.now ∷ key.now ∷ field.now ∷ []) }
{
    if place.len() != 3 {
        return false;
    }
    if !is_name(place.name_at(0), table) {
        return false;
    }
    if !is_name(place.name_at(1), key) {
        return false;
    }
    is_name(place.name_at(2), field)
}
