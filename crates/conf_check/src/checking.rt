//! Whether a configuration is valid by its models (RFC 7950, section 8.1).
ghost use Rattle.std.specs.Prelude.{◌≡◌, ◌<◌, length, true, is_some, slice_get, Some, MatchResult};
ghost use Rattle.conf_check.specs.Faults.{IsFirstBesideMusts, IsFirstFault, IsFirstHere, IsFirstOfTable, breach_at};
ghost use Rattle.conf_check.specs.NodeTrees.{HasModule, row_of_entry};
ghost use Rattle.conf_check.specs.Rows.{Row, row_at, IsModelledAt};
ghost use Rattle.conf_check.specs.Validity.{Breaks, BreaksShape, IsFirstViolation, IsFirstViolationAt, IsValid, IsValidAt, violation_of};

use crate::config_nodes::{ConfigNodes, nodes_of};
use crate::faults::{Fault, first_missing, first_of_fields, first_refused_part};
use crate::leaves::{ShapedEntry, shaped_entry};
use crate::musts::first_false_must;
use crate::name_places::place_of_entry;
use crate::violations::{RuleName, Violation};
use conf_doc::Config;
use yang_model::Models;

/// What an entry with a shape breaks first beside its musts.
fn first_beside_musts(models: &Models, config: &Config, entry: &ShapedEntry) -> Option<Fault>
    ensures { (table key : _) → let row = row_of_entry entry.now in
        let Broken = BreaksShape models.now config.now table key row entry.now.shape.now in
        IsFirstBesideMusts Broken result }
{
    let part = first_refused_part(models, config, entry.shape, entry.key);
    if let Some(field) = part {
        return Some(Fault {
            rule: RuleName::KeyReference,
            field,
        });
    }
    if let Some(fault) = first_of_fields(models, config, entry.shape, entry.fields) {
        return Some(fault);
    }
    match first_missing(entry.shape, entry.fields) {
        Some(field) => Some(Fault {
            rule: RuleName::MissingField,
            field,
        }),
        None => None,
    }
}

/// What an entry with a shape breaks first.
fn first_of_shape(
    nodes: &ConfigNodes,
    table: usize,
    key: usize,
    entry: &ShapedEntry,
) -> Option<Fault>
    requires { HasModule nodes.now table }
    ensures { let row = row_of_entry entry.now in
        let Broken = BreaksShape nodes.now.models.now nodes.now.config.now table key row in
        IsFirstFault (Broken entry.now.shape.now) result }
{
    if let Some(fault) = first_beside_musts(nodes.models, nodes.config, entry) {
        return Some(fault);
    }
    match first_false_must(nodes, entry.shape, table, key) {
        Some(field) => Some(Fault {
            rule: RuleName::Must,
            field,
        }),
        None => None,
    }
}

/// What the entry at a place breaks first.
fn first_of_entry(nodes: &ConfigNodes, table: usize, key: usize) -> Option<Fault>
    ensures { IsFirstHere nodes.now.models.now nodes.now.config.now table key result }
{
    match shaped_entry(nodes.models, nodes.config, table, key) {
        Some(entry) => first_of_shape(nodes, table, key, &entry),
        None => Some(Fault {
            rule: RuleName::KeyShape,
            field: 0,
        }),
    }
}

/// The same, where the configuration isn't known as nodes. They are made for musts alone.
fn first_at(models: &Models, config: &Config, table: usize, key: usize) -> Option<Fault>
    ensures { IsFirstHere models.now config.now table key result }
{
    match shaped_entry(models, config, table, key) {
        Some(entry) => {
            if entry.shape.musts.is_empty() {
                first_beside_musts(models, config, &entry)
            } else {
                first_of_shape(&nodes_of(models, config), table, key, &entry)
            }
        }
        None => Some(Fault {
            rule: RuleName::KeyShape,
            field: 0,
        }),
    }
}

/// What an entry breaks, as a violation at its place.
fn violation_at(table: usize, key: usize, fault: Fault) -> Violation
    ensures { result ≡ violation_of (breach_at table key fault) }
{
    Violation {
        table,
        key,
        field: fault.field,
        rule: fault.rule.number(),
    }
}

/// The first violation in a table that has a model, key by key.
fn first_of_keys(nodes: &ConfigNodes, table: usize) -> Option<Violation>
    requires within { table < length nodes.now.config.now }
    requires modelled { IsModelledAt nodes.now.models.now nodes.now.config.now table }
    ensures { IsFirstOfTable nodes.now.models.now nodes.now.config.now table result }
{
    for key in 0..nodes.config.part_at(table).len() {
        if let Some(fault) = first_of_entry(nodes, table, key) {
            return Some(violation_at(table, key, fault));
        }
    }
    None
}

/// The first violation in a table. One without a model has none.
fn first_of_table(nodes: &ConfigNodes, table: usize) -> Option<Violation>
    requires { table < length nodes.now.config.now }
    ensures { IsFirstOfTable nodes.now.models.now nodes.now.config.now table result }
{
    if nodes.models.modelled(nodes.config.name_at(table)) {
        first_of_keys(nodes, table)
    } else {
        None
    }
}

/// Ok where a configuration breaks no rule of its models, else the first violation: in the order of
/// tables, then of keys, then of the rules of an entry, where those of fields are tried field by field.
/// It takes no memory. Tables without a model aren't looked at.
pub fn check(models: &Models, config: &Config) -> Result<(), Violation>
    ensures { MatchResult result
        (λ _. IsValid models.now config.now) (IsFirstViolation models.now config.now) }
{
    let nodes = nodes_of(models, config);
    for table in 0..config.len() {
        if let Some(violation) = first_of_table(&nodes, table) {
            return Err(violation);
        }
    }
    Ok(())
}

/// The same for the entry of a key of a table alone: Ok where it breaks no rule, else the first that it
/// breaks. It takes no memory. An entry that isn't there breaks none, nor does one of a table without a
/// model.
pub fn check_entry(
    models: &Models,
    config: &Config,
    table: &str,
    key: &str,
) -> Result<(), Violation>
    ensures { MatchResult result
        (λ _. IsValidAt models.now config.now table.now key.now)
        (IsFirstViolationAt models.now config.now table.now key.now) }
{
    let place = place_of_entry(config, table, key);
    let Some((at_table, at_key)) = place else {
        return Ok(());
    };
    if !models.modelled(table) {
        return Ok(());
    }
    match first_at(models, config, at_table, at_key) {
        Some(fault) => Err(violation_at(at_table, at_key, fault)),
        None => Ok(()),
    }
}
