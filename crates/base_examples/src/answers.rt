//! What the calls of a host answer, as the texts of rows.
use crate::hosts::answer_text;
use example_rows::Fail;
use host_core::{Failed, HostError, Input, Names};
use std::alloc::Global;

/// The text of what was read of an input.
pub fn input_told(alloc: Global, found: Result<Input, HostError>) -> Result<String, Fail> {
    match found {
        Ok(Input::Absent) => Ok(String::from_str(alloc, "Absent")?),
        Ok(Input::TooBig) => Ok(String::from_str(alloc, "TooBig")?),
        Ok(Input::Bytes(bytes)) => bytes_told(alloc, bytes.items()),
        Err(error) => failure_told(alloc, error),
    }
}

/// The text of the names that were listed.
pub fn names_told(alloc: Global, listed: Result<Names, HostError>) -> Result<String, Fail> {
    match listed {
        Ok(names) => {
            let line = names_line(alloc, &names);
            drop(names);
            line
        }
        Err(error) => failure_told(alloc, error),
    }
}

fn names_line(alloc: Global, names: &Names) -> Result<String, Fail> {
    let mut line = String::from_str(alloc, "names")?;
    for name in names.items() {
        line.push_str(" ")?;
        line.push_str(name.as_str())?;
    }
    Ok(line)
}

/// The text of what was read of a file.
pub fn file_told(alloc: Global, read: Result<Option<Vec<u8>>, HostError>) -> Result<String, Fail> {
    match read {
        Ok(None) => Ok(String::from_str(alloc, "None")?),
        Ok(Some(bytes)) => bytes_told(alloc, &bytes),
        Err(error) => failure_told(alloc, error),
    }
}

/// The text of bytes.
pub fn bytes_told(alloc: Global, bytes: &[u8]) -> Result<String, Fail> {
    match std::str::from_utf8(bytes) {
        Ok(text) => Ok(format!(in alloc; "bytes {text}")?),
        Err(_) => Err(Fail::Row),
    }
}

/// The text of what a call answers that may change something.
pub fn told(alloc: Global, answer: Result<(), Failed>) -> Result<String, Fail> {
    Ok(String::from_str(alloc, answer_text(answer))?)
}

/// The text of why a call failed.
pub fn failure_told(alloc: Global, error: HostError) -> Result<String, Fail> {
    let text = match error {
        HostError::Failed => "Failed",
        HostError::Memory => "Memory",
    };
    Ok(String::from_str(alloc, text)?)
}
