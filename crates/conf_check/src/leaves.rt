//! The entries that belong to a shape, and what they have of its leaves.
ghost use Rattle.std.specs.Prelude.{◌≡◌, ◌<◌, length, slice_get};
ghost use Rattle.std.specs.Option.{option_map_or};
ghost use Rattle.conf_doc.specs.Pairs.{find};
ghost use Rattle.key_split.specs.Key.{key_parts};
ghost use Rattle.conf_check.specs.ConfigTree.{absent, held_at, held_default, held_field};
ghost use Rattle.conf_check.specs.NodeTrees.{FindsShaped, field_held, held_of, row_of_entry};

use crate::rows::shape_of;
use conf_doc::{Config, Entry, Value};
use host_core::Names;
use key_split::KeyView;
use yang_model::{FieldRule, Models, Shape};

/// An entry with its shape.
#[derive(Clone, Copy, Drop)]
pub(crate) struct ShapedEntry<'a> {
    pub(crate) table: &'a str,
    pub(crate) key: &'a str,
    pub(crate) fields: &'a Entry,
    pub(crate) shape: &'a Shape,
}

/// What an entry has of a leaf or leaf-list of its shape.
#[derive(Clone, Copy, Drop)]
pub(crate) enum HeldText<'a> {
    Absent,
    One(&'a str),
    Items(&'a Names),
}

/// The entry at a place of a table, with its shape.
fn entry_in_table<'a>(
    models: &'a Models,
    config: &'a Config,
    table: usize,
    key: usize,
) -> Option<ShapedEntry<'a>>
    requires { table < length config.now }
    ensures { FindsShaped models.now config.now table key result }
{
    let entries = config.part_at(table);
    if key >= entries.len() {
        return None;
    }
    let table = config.name_at(table);
    let fields = entries.part_at(key);
    let key = entries.name_at(key);
    match shape_of(models, table, key) {
        Some(shape) => Some(ShapedEntry {
            table,
            key,
            fields,
            shape,
        }),
        None => None,
    }
}

/// The entry at a place, with its shape, where there is one that belongs to a shape.
pub(crate) fn shaped_entry<'a>(
    models: &'a Models,
    config: &'a Config,
    table: usize,
    key: usize,
) -> Option<ShapedEntry<'a>>
    ensures { FindsShaped models.now config.now table key result }
{
    if table < config.len() {
        entry_in_table(models, config, table, key)
    } else {
        None
    }
}

/// The part of a key.
fn held_part<'a>(key: &'a str, part: usize) -> HeldText<'a>
    ensures { held_of result ≡ held_default (slice_get (key_parts key.now) part) }
{
    match KeyView::new(key).part(part) {
        Some(text) => HeldText::One(text),
        None => HeldText::Absent,
    }
}

/// The default of a leaf that is absent.
fn held_default<'a>(rule: &'a FieldRule) -> HeldText<'a>
    ensures { held_of result ≡ held_default rule.now.default }
{
    match &rule.default {
        Some(text) => HeldText::One(text.as_str()),
        None => HeldText::Absent,
    }
}

/// What an entry has of a field by its rule.
fn held_field<'a>(rule: &'a FieldRule, fields: &'a Entry) -> HeldText<'a>
    ensures { held_of result ≡ field_held fields.now rule.now }
{
    match fields.field(rule.name.as_str()) {
        None => held_default(rule),
        Some(Value::Text(text)) => {
            if rule.list {
                HeldText::Absent
            } else {
                HeldText::One(text.as_str())
            }
        }
        Some(Value::List(texts)) => {
            if rule.list {
                HeldText::Items(texts)
            } else {
                HeldText::Absent
            }
        }
    }
}

/// What an entry has of the field at a place among those of its shape.
fn held_field_at<'a>(rules: &'a [FieldRule], fields: &'a Entry, place: usize) -> HeldText<'a>
    ensures { held_of result
        ≡ option_map_or (field_held fields.now) (slice_get rules.now place) absent }
{
    match rules.get(place) {
        Some(rule) => held_field(rule, fields),
        None => HeldText::Absent,
    }
}

/// What an entry has of the leaf at a place among the key leaves and then the fields of its shape.
pub(crate) fn held_at<'a>(entry: &ShapedEntry<'a>, leaf: usize) -> HeldText<'a>
    ensures { held_of result ≡ held_at (row_of_entry entry.now) entry.now.shape.now leaf }
{
    let shape = entry.shape;
    let keys = shape.keys.len();
    if leaf < keys {
        held_part(entry.key, leaf)
    } else {
        held_field_at(shape.fields.items(), entry.fields, leaf - keys)
    }
}
