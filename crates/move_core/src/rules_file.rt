//! The rules file, `rules.json`.
ghost use Rattle.std.specs.Prelude.{◌≡◌, IfOk};
ghost use Rattle.host_core.specs.Answers.{Gives};
ghost use Rattle.serde_json.specs.View.{view};
ghost use Rattle.conf_doc.specs.Reading.{json};
ghost use Rattle.move_core.specs.Named.{HasNames};
ghost use Rattle.move_core.specs.RulesFile.{rules, rules_fault, settings, or_bad_json, or_fails, names_differ};
ghost use Rattle.move_core.specs.declared.errors.RulesWhy.TheVariants.{Services};

use crate::json_parts::{list_or_none, member, object};
use crate::{RulesError, RulesWhy, ServiceTie, Settings};
use conf_doc::{ReadError, json_value};
use host_core::Sequence;
use serde_json::Value;
use std::alloc::Global;
use std::collections::BTreeSet;

/// Reads a rules file. Of a member given twice the last counts.
pub fn read_rules(alloc: Global, bytes: &[u8]) -> Result<Settings, RulesError>
    ensures settings { Gives (λ s. s) rules_fault result (rules bytes.now) }
    ensures named { IfOk result HasNames }
{
    let value = read_json(alloc, bytes)?;
    settings_of(alloc, &value)
}

/// The JSON value of the bytes.
fn read_json(alloc: Global, bytes: &[u8]) -> Result<Value, RulesError>
    ensures { Gives view rules_fault result (or_bad_json (json bytes.now)) }
{
    match json_value(alloc, bytes) {
        Ok(value) => Ok(value),
        Err(ReadError::BadJson) => Err(RulesError::BadJson),
        Err(ReadError::BadKind { .. }) => Err(RulesError::BadJson),
        Err(ReadError::Memory) => Err(RulesError::Memory),
    }
}

/// The settings of the whole value.
fn settings_of(alloc: Global, value: &Value) -> Result<Settings, RulesError>
    ensures { Gives (λ s. s) rules_fault result (settings (view value.now)) }
{
    let members = object(
        value,
        RulesWhy::Top,
        &["create_only", "required", "services"],
    )?;
    let create_only = list_or_none(alloc, member(members, "create_only"), RulesWhy::CreateOnly)?;
    let required = list_or_none(alloc, member(members, "required"), RulesWhy::Required)?;
    let services = list_or_none(alloc, member(members, "services"), RulesWhy::Services)?;
    let services = distinct(alloc, services)?;
    Ok(Settings {
        create_only,
        required,
        services,
    })
}

/// The services, where no name occurs twice.
fn distinct(
    alloc: Global,
    services: Sequence<ServiceTie>,
) -> Result<Sequence<ServiceTie>, RulesError>
    ensures { Gives (λ s. s) rules_fault result (or_fails Services names_differ services) }
{
    let mut names = BTreeSet::new(alloc);
    let ties = services.items();
    let mut i = ties.len();
    while i > 0 {
        i -= 1;
        match names.insert(ties[i].name.as_str()) {
            Ok(true) => {}
            Ok(false) => {
                return Err(RulesError::Bad {
                    why: RulesWhy::Services,
                });
            }
            Err(_) => return Err(RulesError::Memory),
        }
    }
    drop(names);
    Ok(services)
}
