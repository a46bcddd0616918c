//! Moves as the texts of their operations, and lines that rows say.
use conf_doc::{Path, pointer_of};
use example_rows::{Fail, line_of, push_word};
use host_core::{Memory, Names, Txt};
use move_core::{Move, operation_of};
use patch_core::operation_bytes;
use serde_json::Value;
use std::alloc::Global;

/// Lines of bytes.
pub type Lines = Vec<Vec<u8>>;

/// The compact text of a move's operation.
pub fn move_text(alloc: Global, mv: &Move) -> Result<Vec<u8>, Memory> {
    let operation = operation_of(alloc, mv)?;
    let text = operation_bytes(alloc, &operation);
    drop(operation);
    text
}

/// A line of two words.
pub fn line_with(alloc: Global, word: &str, text: &[u8]) -> Result<Vec<u8>, Fail> {
    let mut line = word.as_bytes().to_vec(alloc)?;
    push_word(&mut line, text)?;
    Ok(line)
}

/// Whether the lines are those that are said, in any order. They are sorted then.
pub fn are_lines(alloc: Global, found: &mut Lines, said: &[Value]) -> Result<bool, Fail> {
    let mut lines = Vec::new(alloc);
    let same = match push_lines(alloc, said, &mut lines) {
        Ok(()) => are_same(found, &mut lines),
        Err(fail) => Err(fail),
    };
    drop(lines);
    same
}

/// Adds the lines that are said.
fn push_lines(alloc: Global, said: &[Value], lines: &mut Lines) -> Result<(), Fail> {
    for list in said {
        lines.push(line_of(alloc, list)?)?;
    }
    Ok(())
}

/// Whether two lists have the same lines. They are sorted then.
fn are_same(some: &mut Lines, others: &mut Lines) -> Result<bool, Fail> {
    some.sort()?;
    others.sort()?;
    Ok(*some == *others)
}

/// The pointer to a place.
pub fn place_text(alloc: Global, place: &Path) -> Result<Txt, Memory> {
    let mut names = Names::new(alloc);
    for i in 0..place.len() {
        names.push(Txt::new(alloc, place.name_at(i))?)?;
    }
    pointer_of(alloc, &names)
}
