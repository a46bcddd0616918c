//! Files that come in parts.
ghost use Rattle.std.specs.Prelude.{◌≤◌, length};
ghost use Rattle.std.specs.Io.{ReadsAtMost};

use crate::answers::{bytes_told, failure_told, input_told};
use example_rows::{Fail, has, is_null, items_at, number_at, says, text_of};
use real_host::{read_in_turns, read_input};
use serde_json::Value;
use std::alloc::Global;
use std::io;
use std::io::{ErrorKind, Read};

/// A row has the `parts` of a file: a text that a read gives, null where a signal interrupts it, and false
/// where it fails. An input of at most `limit` bytes is the `answer`, or what is read in so many `turns`,
/// `most` bytes.
pub fn is_reading_as_said(alloc: Global, row: &Value) -> Result<bool, Fail> {
    let parts = items_at(row, "parts")?;
    let mut file = FileInParts { parts, next: 0 };
    let answer = reading_told(alloc, row, &mut file)?;
    Ok(says(row, "answer", answer.as_str()))
}

/// Reads the file as the row says, and tells what is read.
fn reading_told(alloc: Global, row: &Value, file: &mut FileInParts<'_>) -> Result<String, Fail> {
    if !has(row, "turns") {
        return input_told(alloc, read_input(alloc, file, number_at(row, "limit")?));
    }
    match read_in_turns(
        alloc,
        file,
        number_at(row, "most")?,
        number_at(row, "turns")?,
    ) {
        Ok(bytes) => bytes_told(alloc, &bytes),
        Err(error) => failure_told(alloc, error),
    }
}

/// A file whose reads end as its parts say.
#[derive(Clone, Copy)]
struct FileInParts<'a> {
    parts: &'a [Value],
    next: usize,
}

impl Read for FileInParts<'_> {
    fn read(&mut self, buffer: &mut [u8]) -> io::Result<usize> {
        let part = self.parts.get(self.next);
        self.next = self.next.saturating_add(1);
        match part {
            None => Ok(0),
            Some(part) => read_part(part, buffer),
        }
    }
}

fn read_part(part: &Value, buffer: &mut [u8]) -> io::Result<usize>
    ensures { ReadsAtMost result buffer.new }
{
    match text_of(part) {
        Ok(text) => Ok(copy(text.as_bytes(), buffer)),
        Err(_) if is_null(part) => Err(io::Error::from(ErrorKind::Interrupted)),
        Err(_) => Err(io::Error::from(ErrorKind::IsADirectory)),
    }
}

/// Copies bytes, as far as there is room, and tells how many these are.
fn copy(bytes: &[u8], buffer: &mut [u8]) -> usize
    ensures { result ≤ length buffer.new }
{
    let count = bytes.len().min(buffer.len());
    buffer[..count].copy_from_slice(&bytes[..count]);
    count
}
