//! JSON texts as trees.
ghost use Rattle.std.specs.Prelude.{◌≡◌, IfOk, decimal};
ghost use Rattle.std.specs.List.Sorted.{IsStrictlySortedBy};
ghost use Rattle.std.specs.Map.{keys_of};
ghost use Rattle.std.specs.String.{string_cmp};
ghost use Rattle.host_core.specs.Answers.{Gives};
ghost use Rattle.serde_json.specs.View.{view, items_view, members_view};
ghost use Rattle.conf_doc.specs.Document.{items_of, members_of};
ghost use Rattle.conf_doc.specs.Reading.{below, document_of, items_from, json, json_answer, members_from, read_fault, reading, valued};
ghost use Rattle.conf_doc.specs.Trees.{document};
ghost use Rattle.conf_doc.specs.Stops.{located, stop_place};

use crate::stops::Stop;
use crate::{Items, Members, ReadError, Tree};
use host_core::{Memory, Txt};
use serde_json::{Map, Value};
use std::alloc::Global;

/// The JSON value of a text (RFC 8259), as serde_json reads it. `BadKind` doesn't come.
pub fn json_value(alloc: Global, bytes: &[u8]) -> Result<Value, ReadError>
    ensures { Gives view read_fault result (json_answer (json bytes.now)) }
{
    match Value::from_slice(alloc, bytes) {
        Ok(value) => Ok(value),
        Err(error) => {
            if error.is_memory() {
                Err(ReadError::Memory)
            } else {
                Err(ReadError::BadJson)
            }
        }
    }
}

/// Reads a JSON text (RFC 8259). Where a map repeats a name, the last member counts.
pub fn read_tree(alloc: Global, bytes: &[u8]) -> Result<Tree, ReadError>
    ensures { Gives document read_fault result (reading bytes.now) }
{
    match json_value(alloc, bytes) {
        Ok(value) => tree_of_value(alloc, value),
        Err(error) => Err(error),
    }
}

/// The tree of a JSON value, whose texts are taken over and not copied. `BadJson` doesn't come.
pub fn tree_of_value(alloc: Global, value: Value) -> Result<Tree, ReadError>
    ensures { Gives document read_fault result (valued (view value)) }
{
    match read_value(alloc, value) {
        Ok(tree) => Ok(tree),
        Err(Stop::At(place)) => Err(ReadError::BadKind { place }),
        Err(Stop::Memory) => Err(ReadError::Memory),
    }
}

#[cycle(reading)]
fn read_value(alloc: Global, value: Value) -> Result<Tree, Stop>
    ensures { Gives document stop_place result (located (document_of (view value))) }
{
    match value {
        Value::String(text) => Ok(Tree::Text(Txt::from(text))),
        Value::Array(values) => match read_items(alloc, values) {
            Ok(items) => Ok(Tree::List(items)),
            Err(stop) => Err(stop),
        },
        Value::Object(values) => match read_map(alloc, values) {
            Ok(members) => Ok(Tree::Map(members)),
            Err(stop) => Err(stop),
        },
        other => {
            drop(other);
            Err(Stop::here(alloc))
        }
    }
}

#[cycle(reading)]
fn read_items(alloc: Global, values: Vec<Value>) -> Result<Items, Stop>
    ensures { Gives items_of stop_place result (located (items_from 0 (items_view values.items))) }
{
    let mut items = Items::new(alloc);
    for value in values {
        let tree = read_item(alloc, items.len(), value)?;
        items.push(tree)?;
    }
    Ok(items)
}

#[cycle(reading)]
fn read_item(alloc: Global, i: usize, value: Value) -> Result<Tree, Stop>
    ensures { Gives document stop_place result
        (located (below (decimal i) (document_of (view value)))) }
{
    match read_value(alloc, value) {
        Ok(tree) => Ok(tree),
        Err(stop) => Err(stop.below_item(alloc, i)),
    }
}

/// The members of a map as a list. A walk over a map takes much of the stack, and none is open while the
/// values are read, which may be nested 127 deep.
#[inline(never)]
fn listed(alloc: Global, map: Map<String, Value>) -> Result<Vec<(String, Value)>, Memory>
    ensures members { IfOk result (λ v. v.items ≡ map.entries) }
    ensures rising { IfOk result (λ v. IsStrictlySortedBy string_cmp (keys_of v.items)) }
{
    let mut members = Vec::with_capacity(alloc, map.len())?;
    for member in map {
        members.push(member)?;
    }
    Ok(members)
}

#[cycle(reading)]
fn read_map(alloc: Global, values: Map<String, Value>) -> Result<Members, Stop>
    ensures { Gives members_of stop_place result
        (located (members_from (members_view values.entries))) }
{
    match listed(alloc, values) {
        Ok(values) => read_members(alloc, values),
        Err(Memory) => Err(Stop::Memory),
    }
}

#[cycle(reading)]
fn read_members(alloc: Global, values: Vec<(String, Value)>) -> Result<Members, Stop>
    requires { IsStrictlySortedBy string_cmp (keys_of values.items) }
    ensures { Gives members_of stop_place result
        (located (members_from (members_view values.items))) }
{
    let mut members = Vec::with_capacity(alloc, values.len())?;
    for (name, value) in values {
        let tree = read_member(alloc, name.as_str(), value)?;
        members.push((Txt::from(name), tree))?;
    }
    Ok(Members::from_sorted(members))
}

#[cycle(reading)]
fn read_member(alloc: Global, name: &str, value: Value) -> Result<Tree, Stop>
    ensures { Gives document stop_place result
        (located (below name.now (document_of (view value)))) }
{
    match read_value(alloc, value) {
        Ok(tree) => Ok(tree),
        Err(stop) => Err(stop.below(alloc, name)),
    }
}
