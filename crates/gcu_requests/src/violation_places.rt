//! The place of a violation.
ghost use Rattle.std.specs.Prelude.{◌≡◌, IfOk, OnOk};
ghost use Rattle.conf_check.specs.Validity.{Breach, IsBreach, violation_of};
ghost use Rattle.gcu_requests.specs.Places.{AddsNames, IsPlaceOf};

use crate::violation_fields::{push_field, rule_numbered};
use conf_check::Violation;
use conf_doc::{Config, pointer_of};
use host_core::{Memory, Names, Txt};
use std::alloc::Global;
use yang_model::Models;

/// The pointer (RFC 6901) to the entry or the field of a violation.
pub(crate) fn place_of(
    alloc: Global,
    models: &Models,
    config: &Config,
    violation: &Violation,
) -> Result<Txt, Memory>
    ensures { (b : Breach) → violation.now ≡ violation_of b → IsBreach models.now config.now b
        → IfOk result (IsPlaceOf models.now config.now b) }
{
    let mut names = Names::new(alloc);
    push_names(alloc, &mut names, models, config, violation)?;
    pointer_of(alloc, &names)
}

/// Adds the names of the table, the key and the field of a violation.
fn push_names(
    alloc: Global,
    names: &mut Names,
    models: &Models,
    config: &Config,
    violation: &Violation,
) -> Result<(), Memory>
    ensures { (b : Breach) → violation.now ≡ violation_of b → IsBreach models.now config.now b
        → OnOk result (AddsNames models.now config.now b names.old names.new) }
{
    if violation.table >= config.len() {
        return Ok(());
    }
    let table = config.name_at(violation.table);
    let entries = config.part_at(violation.table);
    if violation.key >= entries.len() {
        return Ok(());
    }
    let key = entries.name_at(violation.key);
    names.push(Txt::new(alloc, table)?)?;
    names.push(Txt::new(alloc, key)?)?;
    let fields = entries.part_at(violation.key);
    match rule_numbered(violation.rule) {
        Some(rule) => push_field(
            alloc,
            names,
            models,
            table,
            key,
            fields,
            rule,
            violation.field,
        ),
        None => Ok(()),
    }
}
