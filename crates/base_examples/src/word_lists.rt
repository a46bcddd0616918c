//! Words of command lines.
ghost use Rattle.std.specs.Io.{WritesAtMost};

use example_rows::{Fail, are_names, has, items_at, text_of};
use host_core::{Memory, Names};
use real_host::words;
use serde_json::Value;
use std::alloc::Global;
use std::env::{Env, FillError};
use std::io::ErrorKind;
use std::{env, io};

/// A row has the words of a `line`, with null for one that is no UTF-8, and the `words` that are found. One
/// without a line has no memory for it, and none are.
pub fn are_words_as_said(alloc: Global, row: &Value) -> Result<bool, Fail> {
    let found = if has(row, "line") {
        words_of(alloc, items_at(row, "line")?)
    } else {
        words(alloc, Err(io::Error::from(ErrorKind::OutOfMemory)))
    };
    let same = are_found(row, &found);
    drop(found);
    same
}

/// Whether these words are found, or none for want of memory.
fn are_found(row: &Value, found: &Result<Names, Memory>) -> Result<bool, Fail> {
    match found {
        Ok(words) => Ok(are_names(items_at(row, "words")?, words)),
        Err(Memory) => Ok(!has(row, "words")),
    }
}

fn words_of(alloc: Global, line: &[Value]) -> Result<Names, Memory> {
    words(alloc, env::args(&(CommandLine { line }, alloc)))
}

/// A command line of these words.
#[derive(Clone, Copy)]
struct CommandLine<'a> {
    line: &'a [Value],
}

impl Env for CommandLine<'_> {
    fn arg(&self, i: usize, buffer: &mut [u8]) -> Result<usize, FillError> {
        match self.line.get(i) {
            None => Err(FillError::NotPresent),
            Some(word) => fill(bytes_of(word), buffer),
        }
    }

    fn var(&self, _name: &str, _buffer: &mut [u8]) -> Result<usize, FillError> {
        Err(FillError::NotPresent)
    }

    fn var_at(&self, _i: usize, _buffer: &mut [u8]) -> Result<usize, FillError> {
        Err(FillError::NotPresent)
    }
}

fn bytes_of(word: &Value) -> &[u8] {
    match text_of(word) {
        Ok(text) => text.as_bytes(),
        Err(_) => b"\xff",
    }
}

fn fill(bytes: &[u8], buffer: &mut [u8]) -> Result<usize, FillError>
    ensures { WritesAtMost result buffer.new }
{
    if bytes.len() > buffer.len() {
        return Err(FillError::TooLong);
    }
    buffer[..bytes.len()].copy_from_slice(bytes);
    Ok(bytes.len())
}
