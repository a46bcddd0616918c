//! Hosts in memory as rows tell them.
ghost use Rattle.std.specs.Prelude.{◌≤◌, length, IfOk};

use example_rows::{Fail, text_bytes, text_or};
use host_core::{Failed, Host, HostError, MemHost, Names, Pick, Sequence};
use serde_json::Value;
use std::alloc::Global;

/// How many bytes a name may have.
pub const LONGEST_NAME: usize = 96;

/// A pick, whose bytes are the `torn` ones of the row.
pub fn pick_of(alloc: Global, row: &Value, name: &str) -> Result<Pick, Fail> {
    match name {
        "Gone" => Ok(Pick::Gone),
        "Bytes" => {
            let torn = text_bytes(alloc, row, "torn")?;
            Ok(Pick::Bytes(Sequence::from_vec(torn)))
        }
        "Before" => Ok(Pick::Before),
        _ => Ok(Pick::After),
    }
}

/// The name under a word, or `none`. It has at most so many bytes.
pub fn name_at<'a>(row: &'a Value, word: &str, most: usize) -> Result<&'a str, Fail>
    ensures { IfOk result (λ name. length name.now ≤ most) }
{
    let name = text_or(row, word, "none");
    if name.len() > most {
        return Err(Fail::Row);
    }
    Ok(name)
}

/// The word for what a call that may change something answers.
pub fn answer_text(answer: Result<(), Failed>) -> &'static str {
    match answer {
        Ok(()) => "Ok",
        Err(Failed) => "Failed",
    }
}

/// The names of a host's files.
pub fn files_of(alloc: Global, host: &mut MemHost) -> Result<Names, Fail> {
    match host.list(alloc) {
        Ok(names) => Ok(names),
        Err(HostError::Memory) => Err(Fail::Memory),
        Err(HostError::Failed) => Err(Fail::Row),
    }
}
