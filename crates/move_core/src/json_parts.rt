//! The parts of a rules file's JSON value: texts, names, lists and objects.
ghost use Rattle.std.specs.Prelude.{◌≡◌, Option, Result, option_map, map, string_bytes};
ghost use Rattle.std.specs.BTreeMap.{keys};
ghost use Rattle.std.specs.List.{list_all};
ghost use Rattle.move_core.specs.Naming.{is_one_of};
ghost use Rattle.host_core.specs.Answers.{Gives};
ghost use Rattle.serde_json.specs.Data.{Data};
ghost use Rattle.serde_json.specs.Find.{get_member};
ghost use Rattle.serde_json.specs.View.{view, items_view, members_view};
ghost use Rattle.move_core.specs.RulesFile.{rules_fault, text, name, items, list, list_or_none, has_only, object, or_fails};

use crate::{RulesError, RulesWhy};
use host_core::{Sequence, Txt};
use serde_json::{Map, Value};
use std::alloc::Global;

/// An item of a list of a rules file.
pub(crate) trait Item: Drop {
    ghost use Rattle.move_core.specs.declared.errors.RulesError.{RulesError as Refusal};

    ghost reads: { Data → Result Self Refusal };

    /// Reads one item.
    fn read(alloc: Global, value: &Value) -> Result<Self, RulesError>
        ensures { Gives (λ x. x) rules_fault result (reads (view value.now)) };
}

/// The value of a member.
pub(crate) fn member<'m>(members: &'m Map<String, Value>, name: &str) -> Option<&'m Value>
    ensures { option_map (λ v. view v.now) result
        ≡ get_member name.now (members_view members.now.entries) }
{
    members.get(name)
}

/// A text.
pub(crate) fn text(value: Option<&Value>, why: RulesWhy) -> Result<&str, RulesError>
    ensures { Gives (λ s. s.now) rules_fault result
        (text why (option_map (λ v. view v.now) value.entry)) }
{
    match value {
        Some(Value::String(text)) => Ok(text.as_str()),
        _ => Err(RulesError::Bad { why }),
    }
}

/// A text that isn't empty.
pub(crate) fn name(value: Option<&Value>, why: RulesWhy) -> Result<&str, RulesError>
    ensures { Gives (λ s. s.now) rules_fault result
        (name why (option_map (λ v. view v.now) value.entry)) }
{
    let text = text(value, why)?;
    if text.is_empty() {
        return Err(RulesError::Bad { why });
    }
    Ok(text)
}

/// A list.
pub(crate) fn list<T: Item>(
    alloc: Global,
    value: Option<&Value>,
    why: RulesWhy,
) -> Result<Sequence<T>, RulesError>
    ensures { Gives (λ s. s) rules_fault result
        (list why T.reads (option_map (λ v. view v.now) value.entry)) }
{
    match value {
        Some(Value::Array(values)) => items(alloc, values),
        _ => Err(RulesError::Bad { why }),
    }
}

/// The items of a list.
fn items<T: Item>(alloc: Global, values: &[Value]) -> Result<Sequence<T>, RulesError>
    ensures { Gives (λ s. s) rules_fault result (items T.reads (items_view values.now)) }
{
    let mut all = Sequence::new(alloc);
    for value in values {
        let item = T::read(alloc, value)?;
        all.push(item)?;
    }
    Ok(all)
}

/// A list, which is empty where its member is absent.
pub(crate) fn list_or_none<T: Item>(
    alloc: Global,
    value: Option<&Value>,
    why: RulesWhy,
) -> Result<Sequence<T>, RulesError>
    ensures { Gives (λ s. s) rules_fault result
        (list_or_none why T.reads (option_map (λ v. view v.now) value.entry)) }
{
    match value {
        None => Ok(Sequence::new(alloc)),
        Some(value) => list(alloc, Some(value), why),
    }
}

/// An object without members of other names.
pub(crate) fn object<'v>(
    value: &'v Value,
    why: RulesWhy,
    names: &[&str],
) -> Result<&'v Map<String, Value>, RulesError>
    ensures { Gives (λ m. members_view m.now.entries) rules_fault result
        (object why (map (λ n. n.now) names.now) (view value.now)) }
{
    match value {
        Value::Object(members) => only(members, why, names),
        _ => Err(RulesError::Bad { why }),
    }
}

/// The members, where each has one of these names.
fn only<'v>(
    members: &'v Map<String, Value>,
    why: RulesWhy,
    names: &[&str],
) -> Result<&'v Map<String, Value>, RulesError>
    ensures { Gives (λ m. members_view m.now.entries) rules_fault result
        (or_fails why (has_only (map (λ n. n.now) names.now)) (members_view members.now.entries)) }
{
    if has_only(members, names) {
        Ok(members)
    } else {
        Err(RulesError::Bad { why })
    }
}

/// Whether each member has one of these names.
fn has_only(members: &Map<String, Value>, names: &[&str]) -> bool
    ensures { result ≡ list_all (λ k. is_one_of names.now (string_bytes k)) (keys members.now) }
{
    members.keys().all(|name| is_among(names, name.as_str()))
}

/// Whether a name is one of these.
fn is_among(names: &[&str], name: &str) -> bool
    ensures { result ≡ is_one_of names.now name.now }
{
    names.iter().any(|n| name == *n)
}
