//! The lines that operators are told.
ghost use Rattle.std.specs.Prelude.{◌≡◌, ◌++◌, IfOk, OnOk};
ghost use Rattle.operators.specs.Replies.{applied, commits_line, counted, how_ended, moved, reply_line, said};

use host_core::{Memory, Txt};
use move_core::{Move, operation_of};
use patch_core::operation_bytes;
use sessions::Reply;
use std::alloc::Global;

/// Adds the line of a reply to the operator of that name.
#[tactic(auto, using(std::proofs::Common::append_assoc))]
pub(crate) fn write_reply(
    alloc: Global,
    name: &Txt,
    reply: &Reply,
    text: &mut Vec<u8>,
) -> Result<(), Memory>
    ensures { OnOk result (text.new.items ≡ text.old.items ++ reply_line name.now reply.now) }
{
    let told = said(alloc, reply)?;
    text.extend_from_slice(name.as_str().as_bytes())?;
    text.push(b' ')?;
    text.extend_from_slice(&told)?;
    text.push(b'\n')?;
    Ok(())
}

/// Adds the line of the number of commits.
pub(crate) fn write_commits(alloc: Global, count: usize, text: &mut Vec<u8>) -> Result<(), Memory>
    ensures { OnOk result (text.new.items ≡ text.old.items ++ commits_line count) }
{
    let line = format!(in alloc; "commits {count}\n")?;
    text.extend_from_slice(line.as_bytes())?;
    Ok(())
}

/// What a reply says.
fn said(alloc: Global, reply: &Reply) -> Result<Vec<u8>, Memory>
    ensures { IfOk result (λ b. b.items ≡ said reply.now) }
{
    match reply {
        Reply::Began { count } => counted(alloc, "began", *count),
        Reply::Exists => bytes_of(alloc, "exists"),
        Reply::Unknown => bytes_of(alloc, "unknown"),
        Reply::Refused { number } => counted(alloc, "refused", *number as usize),
        Reply::Moved { seen, now } => both_counted(alloc, *seen, *now),
        Reply::Idle => bytes_of(alloc, "idle"),
        Reply::Applied { mv } => applied(alloc, mv),
        Reply::Retargeted { count } => counted(alloc, "retargeted", *count),
        Reply::Ended { done } => bytes_of(alloc, ended(*done)),
    }
}

/// How a session has ended.
fn ended(done: bool) -> &'static str
    ensures { result.now ≡ how_ended done }
{
    if done { "ended done" } else { "ended open" }
}

/// The bytes of a text.
fn bytes_of(alloc: Global, text: &str) -> Result<Vec<u8>, Memory>
    ensures { IfOk result (λ b. b.items ≡ text.now) }
{
    let mut bytes = Vec::new(alloc);
    bytes.extend_from_slice(text.as_bytes())?;
    Ok(bytes)
}

/// A word, a space and a number.
fn counted(alloc: Global, word: &str, count: usize) -> Result<Vec<u8>, Memory>
    ensures { IfOk result (λ b. b.items ≡ counted word.now count) }
{
    let line = format!(in alloc; "{word} {count}")?;
    bytes_of(alloc, line.as_str())
}

/// How many commits were seen, and how many there are.
fn both_counted(alloc: Global, seen: usize, now: usize) -> Result<Vec<u8>, Memory>
    ensures { IfOk result (λ b. b.items ≡ moved seen now) }
{
    let line = format!(in alloc; "moved {seen} {now}")?;
    bytes_of(alloc, line.as_str())
}

/// The move that was committed.
fn applied(alloc: Global, mv: &Move) -> Result<Vec<u8>, Memory>
    ensures { IfOk result (λ b. b.items ≡ applied mv.now) }
{
    let mut bytes = bytes_of(alloc, "applied ")?;
    let operation = operation_of(alloc, mv)?;
    let operation = operation_bytes(alloc, &operation)?;
    bytes.extend_from_slice(&operation)?;
    Ok(bytes)
}
