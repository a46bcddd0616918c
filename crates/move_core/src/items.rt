//! The items of the lists of a rules file.
ghost use Rattle.std.specs.Prelude.{◌≡◌, option_map, Some};
ghost use Rattle.host_core.specs.Answers.{Gives};
ghost use Rattle.std.specs.List.{list_all};
ghost use Rattle.serde_json.specs.View.{view, items_view};
ghost use Rattle.move_core.specs.RulesFile.{rules_fault, name, pair, part, optional_name, service_name, is_service_byte};
ghost use Rattle.move_core.specs.declared.errors.RulesWhy.TheVariants.{Services};

use crate::json_parts::{Item, list, member, name, object, text};
use crate::{CreateOnly, Required, Requiring, RulesError, RulesWhy, ServiceTie};
use host_core::Txt;
use serde_json::Value;
use std::alloc::Global;

impl Item for CreateOnly {
    ghost use Rattle.move_core.specs.RulesFile.{create_only};

    ghost reads = { create_only };

    fn read(alloc: Global, value: &Value) -> Result<CreateOnly, RulesError> {
        let why = RulesWhy::CreateOnly;
        let Value::Array(values) = value else {
            return Err(RulesError::Bad { why });
        };
        pair(alloc, values)
    }
}

/// A table and a field.
fn pair(alloc: Global, values: &[Value]) -> Result<CreateOnly, RulesError>
    ensures { Gives (λ c. c) rules_fault result (pair (items_view values.now)) }
{
    let why = RulesWhy::CreateOnly;
    if values.len() != 2 {
        return Err(RulesError::Bad { why });
    }
    let table = name(Some(&values[0]), why)?;
    let field = name(Some(&values[1]), why)?;
    Ok(CreateOnly {
        table: Txt::new(alloc, table)?,
        field: Txt::new(alloc, field)?,
    })
}

impl Item for Requiring {
    ghost use Rattle.move_core.specs.RulesFile.{requiring};

    ghost reads = { requiring };

    fn read(alloc: Global, value: &Value) -> Result<Requiring, RulesError> {
        let why = RulesWhy::Required;
        let members = object(value, why, &["table", "part", "field"])?;
        let table = name(member(members, "table"), why)?;
        let part = part(member(members, "part"))?;
        let field = optional_name(alloc, member(members, "field"))?;
        Ok(Requiring {
            table: Txt::new(alloc, table)?,
            part,
            field,
        })
    }
}

/// The number of a key part: one digit from 0 to 7.
fn part(value: Option<&Value>) -> Result<u32, RulesError>
    ensures { Gives (λ n. n) rules_fault result (part (option_map (λ v. view v.now) value.entry)) }
{
    let why = RulesWhy::Required;
    match text(value, why)?.as_bytes() {
        [digit @ b'0'..=b'7'] => Ok((*digit - b'0') as u32),
        _ => Err(RulesError::Bad { why }),
    }
}

/// A field's name, where it is there.
fn optional_name(alloc: Global, value: Option<&Value>) -> Result<Option<Txt>, RulesError>
    ensures { Gives (λ n. n) rules_fault result
        (optional_name (option_map (λ v. view v.now) value.entry)) }
{
    match value {
        None => Ok(None),
        Some(value) => {
            let field = name(Some(value), RulesWhy::Required)?;
            Ok(Some(Txt::new(alloc, field)?))
        }
    }
}

impl Item for Required {
    ghost use Rattle.move_core.specs.RulesFile.{required};

    ghost reads = { required };

    fn read(alloc: Global, value: &Value) -> Result<Required, RulesError> {
        let why = RulesWhy::Required;
        let names = ["table", "field", "value", "default", "requiring"];
        let members = object(value, why, &names)?;
        let table = name(member(members, "table"), why)?;
        let field = name(member(members, "field"), why)?;
        let value = text(member(members, "value"), why)?;
        let default = text(member(members, "default"), why)?;
        let requiring = list(alloc, member(members, "requiring"), why)?;
        Ok(Required {
            table: Txt::new(alloc, table)?,
            field: Txt::new(alloc, field)?,
            value: Txt::new(alloc, value)?,
            default: Txt::new(alloc, default)?,
            requiring,
        })
    }
}

impl Item for ServiceTie {
    ghost use Rattle.move_core.specs.RulesFile.{service};

    ghost reads = { service };

    fn read(alloc: Global, value: &Value) -> Result<ServiceTie, RulesError> {
        let why = RulesWhy::Services;
        let members = object(value, why, &["name", "tables"])?;
        let own = service_name(member(members, "name"))?;
        let tables = list(alloc, member(members, "tables"), why)?;
        Ok(ServiceTie {
            name: Txt::new(alloc, own)?,
            tables,
        })
    }
}

/// A service's name: ASCII letters, digits, underscores and dashes.
fn service_name(value: Option<&Value>) -> Result<&str, RulesError>
    ensures { Gives (λ s. s.now) rules_fault result
        (service_name (option_map (λ v. view v.now) value.entry)) }
{
    let own = name(value, RulesWhy::Services)?;
    if has_service_bytes(own) {
        Ok(own)
    } else {
        Err(RulesError::Bad {
            why: RulesWhy::Services,
        })
    }
}

fn has_service_bytes(own: &str) -> bool
    ensures { result ≡ list_all is_service_byte own.now }
{
    own.as_bytes().iter().all(|b| is_service_byte(*b))
}

fn is_service_byte(b: u8) -> bool
    ensures { result ≡ is_service_byte b }
{
    b.is_ascii_alphanumeric() || b == b'_' || b == b'-'
}

impl Item for Txt {
    ghost use Rattle.move_core.specs.RulesFile.{table_name};

    ghost reads = { table_name };

    fn read(alloc: Global, value: &Value) -> Result<Txt, RulesError> {
        let table = name(Some(value), RulesWhy::Services)?;
        Ok(Txt::new(alloc, table)?)
    }
}
