//! The shapes of entries and the rules of their fields.
ghost use Rattle.std.specs.Prelude.{◌≡◌, option_copied};
ghost use Rattle.std.specs.List.{find};
ghost use Rattle.std.specs.Str.{bytes_eq};
ghost use Rattle.conf_check.specs.EntryShapes.{IsShapeAt, IsShapeFound};
ghost use Rattle.conf_check.specs.Rows.{is_key_leaf, rule_of};

use conf_doc::Config;
use key_split::KeyView;
use yang_model::{FieldRule, Models, Shape};

/// The shape that an entry of a table belongs to by its key.
pub(crate) fn shape_of<'a>(models: &'a Models, table: &str, key: &str) -> Option<&'a Shape>
    ensures { IsShapeFound models.now table.now key.now result }
{
    match models.list_of(table, &KeyView::new(key)) {
        Some(place) => models.shape_at(table, place),
        None => None,
    }
}

/// The shape that the entry at a place belongs to by its key. None where there is no entry.
pub(crate) fn shape_at_place<'a>(
    models: &'a Models,
    config: &Config,
    table: usize,
    key: usize,
) -> Option<&'a Shape>
    ensures { IsShapeAt models.now config.now table key result }
{
    if table >= config.len() {
        return None;
    }
    let entries = config.part_at(table);
    if key >= entries.len() {
        return None;
    }
    shape_of(models, config.name_at(table), entries.name_at(key))
}

/// Whether a name is that of a key leaf.
fn has_key_leaf(shape: &Shape, name: &str) -> bool
    ensures { result ≡ is_key_leaf name.now shape.now }
{
    shape
        .keys
        .items()
        .iter()
        .any(|leaf| name == leaf.name.as_str())
}

/// The first field of a name.
fn field_named<'a>(shape: &'a Shape, name: &str) -> Option<&'a FieldRule>
    ensures { option_copied result ≡ find (λ f. bytes_eq name.now f.name) shape.now.fields }
{
    shape
        .fields
        .items()
        .iter()
        .find(|rule| name == rule.name.as_str())
}

/// The leaf or leaf-list of a name that is no key leaf.
pub(crate) fn rule_of_field<'a>(shape: &'a Shape, name: &str) -> Option<&'a FieldRule>
    ensures { option_copied result ≡ rule_of name.now shape.now }
{
    if has_key_leaf(shape, name) {
        None
    } else {
        field_named(shape, name)
    }
}
