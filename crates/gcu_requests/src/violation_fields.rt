//! The field at which a rule is broken.
ghost use Rattle.std.specs.Prelude.{◌≡◌, ◌++◌, ℕ, List, OnOk, option_copied};
ghost use Rattle.conf_check.specs.Rows.{row_of};
ghost use Rattle.gcu_requests.specs.Places.{rule_from, field_name, rule_name, AddsField, IsTheShape};

use conf_check::RuleName;
use conf_doc::Entry;
use host_core::{Memory, Names, Txt};
use key_split::KeyView;
use std::alloc::Global;
use yang_model::{Models, Shape};

/// The rule of a number, from 1 to 8.
pub(crate) fn rule_numbered(number: u32) -> Option<RuleName>
    ensures { result ≡ rule_from number }
{
    match number {
        1 => Some(RuleName::KeyShape),
        2 => Some(RuleName::KeyReference),
        3 => Some(RuleName::UnknownField),
        4 => Some(RuleName::WrongKind),
        5 => Some(RuleName::BadValue),
        6 => Some(RuleName::DuplicateItem),
        7 => Some(RuleName::MissingField),
        8 => Some(RuleName::Must),
        _ => None,
    }
}

/// Adds the name of a field of an entry.
fn push_field_name(
    alloc: Global,
    names: &mut Names,
    fields: &Entry,
    field: usize,
) -> Result<(), Memory>
    ensures { (table : List ℕ) (key : List ℕ) → OnOk result
        (names.new ≡ names.old ++ field_name (row_of table key fields.now) field) }
{
    if field < fields.len() {
        names.push(Txt::new(alloc, fields.name_at(field))?)?;
    }
    Ok(())
}

/// Adds the name of a field of a shape.
fn push_rule_name(
    alloc: Global,
    names: &mut Names,
    shape: &Shape,
    field: usize,
) -> Result<(), Memory>
    ensures { OnOk result (names.new ≡ names.old ++ rule_name shape.now field) }
{
    match shape.fields.items().get(field) {
        Some(rule) => names.push(rule.name.copy(alloc)?),
        None => Ok(()),
    }
}

/// The shape that an entry of a table belongs to by its key.
fn shape_of<'a>(models: &'a Models, table: &str, key: &str) -> Option<&'a Shape>
    ensures { IsTheShape models.now table.now key.now (option_copied result) }
{
    match models.list_of(table, &KeyView::new(key)) {
        Some(place) => models.shape_at(table, place),
        None => None,
    }
}

/// Adds the name of the field at which a rule is broken at an entry, where it is broken at a field.
pub(crate) fn push_field(
    alloc: Global,
    names: &mut Names,
    models: &Models,
    table: &str,
    key: &str,
    fields: &Entry,
    rule: RuleName,
    field: usize,
) -> Result<(), Memory>
    ensures { OnOk result (AddsField models.now (row_of table.now key.now fields.now) rule field
        names.old names.new) }
{
    match rule {
        RuleName::KeyShape | RuleName::KeyReference | RuleName::Must => Ok(()),
        RuleName::UnknownField
        | RuleName::WrongKind
        | RuleName::BadValue
        | RuleName::DuplicateItem => { push_field_name(alloc, names, fields, field) }
        RuleName::MissingField => match shape_of(models, table, key) {
            Some(shape) => push_rule_name(alloc, names, shape, field),
            None => Ok(()),
        },
    }
}
