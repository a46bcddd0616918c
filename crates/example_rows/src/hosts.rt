//! Hosts in memory as rows tell them.
ghost use Rattle.std.specs.Prelude.{◌≡◌, IfOk};
ghost use Rattle.host_core.specs.State.{settled};

use crate::{Fail, has, items_at, some_number, value_bytes};
use host_core::{Faults, MemHost, Sequence, Txt};
use serde_json::Value;
use std::alloc::Global;

/// Names with the bytes of each.
pub type Pairs = Vec<(Txt, Vec<u8>)>;

/// A host with the `inputs` and the `files` of a row, each a name with its bytes, as far as they are there.
pub fn host_with(alloc: Global, row: &Value, faults: Faults) -> Result<MemHost, Fail>
    ensures { IfOk result (λ m. m.state.pending ≡ settled) }
{
    let mut inputs = Vec::new(alloc);
    let mut files = Vec::new(alloc);
    match push_both(alloc, row, &mut inputs, &mut files) {
        Ok(()) => Ok(MemHost::new(alloc, inputs, files, faults)?),
        Err(fail) => {
            drop(inputs);
            drop(files);
            drop(faults);
            Err(fail)
        }
    }
}

fn push_both(
    alloc: Global,
    row: &Value,
    inputs: &mut Pairs,
    files: &mut Pairs,
) -> Result<(), Fail> {
    push_pairs_at(alloc, row, "inputs", inputs)?;
    push_pairs_at(alloc, row, "files", files)
}

/// Adds each name of the object under a name, where there is one, with its bytes.
pub fn push_pairs_at(
    alloc: Global,
    row: &Value,
    name: &str,
    pairs: &mut Pairs,
) -> Result<(), Fail> {
    match row.get(name) {
        Some(named) => push_pairs(alloc, named, pairs),
        None => Ok(()),
    }
}

/// Adds each name of an object, with its bytes.
pub fn push_pairs(alloc: Global, named: &Value, pairs: &mut Pairs) -> Result<(), Fail> {
    for (name, value) in named.as_object().ok_or(Fail::Row)? {
        let bytes = file_text(alloc, value)?;
        pairs.push((Txt::new(alloc, name.as_str())?, bytes))?;
    }
    Ok(())
}

/// The bytes of a file: a text itself, of an object its file text, and of all else its compact text.
pub fn file_text(alloc: Global, said: &Value) -> Result<Vec<u8>, Fail> {
    if !said.is_object() {
        return value_bytes(alloc, said);
    }
    let mut text = said.to_vec_pretty(alloc)?;
    text.push(b'\n')?;
    Ok(text)
}

/// The faults of the calls whose numbers are in `fails`, and of all from the number `fails_from` on.
pub fn faults_at(alloc: Global, row: &Value) -> Result<Faults, Fail> {
    let mut at = Sequence::new(alloc);
    if has(row, "fails") {
        push_numbers(items_at(row, "fails")?, &mut at)?;
    }
    let from = some_number(row, "fails_from");
    Ok(Faults { at, from })
}

/// Faults of all calls from a number on, or of none.
pub fn faults_from(alloc: Global, from: Option<u64>) -> Faults {
    let at = Sequence::new(alloc);
    Faults { at, from }
}

fn push_numbers(said: &[Value], numbers: &mut Sequence<u64>) -> Result<(), Fail> {
    for number in said {
        numbers.push(number.as_u64().ok_or(Fail::Row)?)?;
    }
    Ok(())
}
