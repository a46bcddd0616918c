//! Folders as rows tell them.
use example_rows::{
    Fail, Pairs, faults_from, has, items_of, names_in, push_pairs, push_pairs_at, some_number,
    text_or, value_at, written_at,
};
use host_core::{MemHost, Txt};
use serde_json::Value;
use std::alloc::Global;

/// A host in memory with the folder of a case of a row, of which no call fails.
pub fn host_of(alloc: Global, folders: &Value, row: &Value, case: &Value) -> Result<MemHost, Fail> {
    let mut inputs = Vec::new(alloc);
    let mut files = Vec::new(alloc);
    match push_all(alloc, folders, row, case, &mut inputs, &mut files) {
        Ok(()) => Ok(MemHost::new(alloc, inputs, files, faults_from(alloc, None))?),
        Err(fail) => {
            drop(inputs);
            drop(files);
            Err(fail)
        }
    }
}

/// Adds the inputs and the files of a case, of its row and of the folder that is named. Of a name the first one counts.
fn push_all(
    alloc: Global,
    folders: &Value,
    row: &Value,
    case: &Value,
    inputs: &mut Pairs,
    files: &mut Pairs,
) -> Result<(), Fail> {
    push_own(alloc, case, inputs, files)?;
    push_own(alloc, row, inputs, files)?;
    let named = value_at(folders, text_or(row, "folder", "shipped"))?;
    push_pairs(alloc, named, inputs)
}

/// Adds what a row or a case has itself.
fn push_own(alloc: Global, row: &Value, inputs: &mut Pairs, files: &mut Pairs) -> Result<(), Fail> {
    push_pairs_at(alloc, row, "inputs", inputs)?;
    push_pairs_at(alloc, row, "files", inputs)?;
    push_pairs_at(alloc, row, "files", files)?;
    push_long_at(alloc, row, inputs)?;
    push_long_at(alloc, row, files)
}

/// Adds each name under `parts`, where there are any.
fn push_long_at(alloc: Global, row: &Value, pairs: &mut Pairs) -> Result<(), Fail> {
    if !has(row, "parts") {
        return Ok(());
    }
    let named = value_at(row, "parts")?;
    let names = names_in(alloc, named)?;
    for name in &names {
        let bytes = joined_parts(alloc, value_at(named, *name)?)?;
        pairs.push((Txt::new(alloc, *name)?, bytes))?;
    }
    Ok(())
}

/// The bytes of a list of parts, each a `text`, or bytes, so many `times`, or once.
fn joined_parts(alloc: Global, parts: &Value) -> Result<Vec<u8>, Fail> {
    let mut bytes = Vec::new(alloc);
    for part in items_of(parts)? {
        push_part(alloc, part, &mut bytes)?;
    }
    Ok(bytes)
}

fn push_part(alloc: Global, part: &Value, bytes: &mut Vec<u8>) -> Result<(), Fail> {
    let text = written_at(alloc, part, "text")?;
    for _ in 0..some_number(part, "times").unwrap_or(1) {
        bytes.extend_from_slice(&text)?;
    }
    Ok(())
}
