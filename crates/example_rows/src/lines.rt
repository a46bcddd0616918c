//! Lines of words.
use crate::{Fail, items_of, value_bytes};
use serde_json::Value;
use std::alloc::Global;

/// A line of what a list has: its texts as they are, and the compact text of all else.
pub fn line_of(alloc: Global, list: &Value) -> Result<Vec<u8>, Fail> {
    let mut line = Vec::new(alloc);
    for word in items_of(list)? {
        push_word(&mut line, &value_bytes(alloc, word)?)?;
    }
    Ok(line)
}

/// Adds a word, behind a blank where it isn't the first.
pub fn push_word(line: &mut Vec<u8>, word: &[u8]) -> Result<(), Fail> {
    if !line.is_empty() {
        line.push(b' ')?;
    }
    line.extend_from_slice(word)?;
    Ok(())
}
