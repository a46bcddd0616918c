//! Where names stand: of modules, of tables and entries, and of the leaves of a shape.
ghost use Rattle.std.specs.Prelude.{◌≡◌, ◌++◌, map};
ghost use Rattle.std.specs.List.{position};
ghost use Rattle.std.specs.Str.{bytes_eq};
ghost use Rattle.conf_check.specs.ConfigTree.{leaf_names};
ghost use Rattle.conf_check.specs.Rows.{IsPlaceOfEntry};
ghost use Rattle.yang_model.specs.Names.{place_of_name};

use conf_doc::{Config, Table};
use host_core::Txt;
use yang_model::{FieldRule, KeyLeaf, Shape};

/// The place of the first of a name.
pub(crate) fn place_of_name(name: &str, names: &[Txt]) -> Option<usize>
    ensures { result ≡ position (bytes_eq name.now) names.now }
{
    names.iter().position(|other| name == other.as_str())
}

/// The place of the table of a name in a configuration.
pub(crate) fn place_of_table(config: &Config, name: &str) -> Option<usize>
    ensures { result ≡ place_of_name name.now (map (λ t. t.0) config.now) }
{
    let i = config.first_from(name);
    if i < config.len() && config.name_at(i) == name {
        Some(i)
    } else {
        None
    }
}

/// The place of the entry of a key in a table.
fn place_in_table(table: &Table, key: &str) -> Option<usize>
    ensures { result ≡ place_of_name key.now (map (λ e. e.0) table.now) }
{
    let i = table.first_from(key);
    if i < table.len() && table.name_at(i) == key {
        Some(i)
    } else {
        None
    }
}

/// The places of the table of a name and of the entry of a key in it.
pub(crate) fn place_of_entry(config: &Config, table: &str, key: &str) -> Option<(usize, usize)>
    ensures { IsPlaceOfEntry config.now table.now key.now result }
{
    let at = place_of_table(config, table)?;
    let entry = place_in_table(config.part_at(at), key)?;
    Some((at, entry))
}

/// The place of a key leaf.
fn place_of_key(name: &str, keys: &[KeyLeaf]) -> Option<usize>
    ensures { result ≡ position (λ k. bytes_eq name.now k.name) keys.now }
{
    keys.iter().position(|leaf| name == leaf.name.as_str())
}

/// The place of a field.
fn place_of_field(name: &str, fields: &[FieldRule]) -> Option<usize>
    ensures { result ≡ position (λ f. bytes_eq name.now f.name) fields.now }
{
    fields.iter().position(|rule| name == rule.name.as_str())
}

/// The place of a name among key leaves and then fields.
fn place_among(name: &str, keys: &[KeyLeaf], fields: &[FieldRule]) -> Option<usize>
    ensures { result ≡ place_of_name name.now
        (map (λ k. k.name) keys.now ++ map (λ f. f.name) fields.now) }
{
    match place_of_key(name, keys) {
        Some(place) => Some(place),
        None => match place_of_field(name, fields) {
            Some(place) => Some(keys.len() + place),
            None => None,
        },
    }
}

/// The place of a name among the key leaves and then the fields of a shape.
pub(crate) fn place_of_leaf(name: &str, shape: &Shape) -> Option<usize>
    ensures { result ≡ place_of_name name.now (leaf_names shape.now) }
{
    place_among(name, shape.keys.items(), shape.fields.items())
}
