//! JSON texts as patches.
ghost use Rattle.std.specs.Prelude.{◌≡◌, map};
ghost use Rattle.host_core.specs.Answers.{Gives};
ghost use Rattle.serde_json.specs.View.{view, items_view};
ghost use Rattle.patch_core.specs.Operation.{operation_of, operations};
ghost use Rattle.conf_doc.specs.Reading.{json};
ghost use Rattle.serde_json.specs.Find.{as_array};
ghost use Rattle.patch_core.specs.Elements.{element};
ghost use Rattle.patch_core.specs.Reading.{at, operations_from, or_bad_json, or_no_array, patch, patch_fault};

use crate::elements::operation_of;
use crate::errors::{ElementError, PatchError, PatchWhy};
use crate::{Op, Patch};
use conf_doc::{ReadError, json_value};
use host_core::Sequence;
use serde_json::Value;
use std::alloc::Global;

/// Reads a patch document (RFC 6902, section 3). Members that an operation doesn't define are ignored,
/// and of a member given twice the last counts.
pub fn read_patch(alloc: Global, bytes: &[u8]) -> Result<Patch, PatchError>
    ensures { Gives operations patch_fault result (patch bytes.now) }
{
    let value = read_json(alloc, bytes)?;
    let elements = read_elements(value)?;
    let ops = read_operations(alloc, elements)?;
    Ok(Patch { ops })
}

/// The JSON value of the bytes.
fn read_json(alloc: Global, bytes: &[u8]) -> Result<Value, PatchError>
    ensures { Gives view patch_fault result (or_bad_json (json bytes.now)) }
{
    match json_value(alloc, bytes) {
        Ok(value) => Ok(value),
        Err(ReadError::BadJson) => Err(PatchError::BadJson),
        Err(ReadError::BadKind { .. }) => Err(PatchError::BadJson),
        Err(ReadError::Memory) => Err(PatchError::Memory),
    }
}

/// The elements of an array.
fn read_elements(value: Value) -> Result<Vec<Value>, PatchError>
    ensures { Gives (λ v. items_view v.items) patch_fault result
        (or_no_array (as_array (view value))) }
{
    match value {
        Value::Array(elements) => Ok(elements),
        _ => Err(PatchError::BadPatch {
            index: 0,
            why: PatchWhy::NotArray,
        }),
    }
}

/// The operations of the elements, in order.
fn read_operations(alloc: Global, elements: Vec<Value>) -> Result<Sequence<Op>, PatchError>
    ensures { Gives (map operation_of) patch_fault result
        (operations_from 0 (items_view elements.items)) }
{
    let mut ops = Sequence::new(alloc);
    for (index, element) in elements.into_iter().enumerate() {
        let op = read_operation(alloc, index, element)?;
        ops.push(op)?;
    }
    Ok(ops)
}

/// The operation of the element at an index.
fn read_operation(alloc: Global, index: usize, value: Value) -> Result<Op, PatchError>
    ensures { Gives operation_of patch_fault result (at index (element (view value))) }
{
    match operation_of(alloc, value) {
        Ok(op) => Ok(op),
        Err(ElementError::Malformed(why)) => Err(PatchError::BadPatch { index, why }),
        Err(ElementError::Memory) => Err(PatchError::Memory),
    }
}
