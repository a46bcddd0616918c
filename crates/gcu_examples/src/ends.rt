//! What commands have printed, requested and left, against what a row says.
use command_runs::Ran;
use example_rows::{
    Fail, file_text, has, has_in, is_null, is_number, is_word, is_written, items_at, names_in,
    value_at,
};
use host_core::{Names, Sequence, Txt};
use serde_json::Value;
use std::alloc::Global;

/// The file of a write that isn't done yet, which no row shows.
const UNDONE: &str = "tmp.new";

/// Whether all commands are as their runs say. Behind them one more has found what the last one left.
pub fn are_as_said(
    alloc: Global,
    runs: &[Value],
    restarts: &Names,
    rans: &[Ran],
) -> Result<bool, Fail> {
    for (number, run) in runs.iter().enumerate() {
        let ran = rans.get(number).ok_or(Fail::Row)?;
        let next = rans.get(number.saturating_add(1)).ok_or(Fail::Row)?;
        if !is_as_said(alloc, run, ran, next.before.items())? {
            return Ok(false);
        }
    }
    are_restarted(runs, restarts)
}

/// Whether a command is as its run says, and leaves these files.
fn is_as_said(
    alloc: Global,
    run: &Value,
    ran: &Ran,
    left: &[(Txt, Sequence<u8>)],
) -> Result<bool, Fail> {
    let same_status = is_number(value_at(run, "status")?, u64::from(ran.status));
    let same_calls = !has(run, "calls") || is_number(value_at(run, "calls")?, ran.calls);
    let same_output = is_written(alloc, run, "output", ran.output.items())?;
    let same = same_status && same_calls && same_output && ran.starved == 0;
    Ok(same && are_left(alloc, run, ran.before.items(), left)?)
}

/// Whether files become others as a run says under `after`, and no others do.
fn are_left(
    alloc: Global,
    run: &Value,
    before: &[(Txt, Sequence<u8>)],
    left: &[(Txt, Sequence<u8>)],
) -> Result<bool, Fail> {
    let stay = are_kept(run, before, left) && are_kept(run, left, before);
    if !stay || !has(run, "after") {
        return Ok(stay);
    }
    let after = value_at(run, "after")?;
    let names = names_in(alloc, after)?;
    for name in &names {
        if !is_left(alloc, value_at(after, *name)?, find_file(left, *name))? {
            return Ok(false);
        }
    }
    Ok(true)
}

/// Whether the first files are among the second ones, as far as the run doesn't name them.
fn are_kept(run: &Value, some: &[(Txt, Sequence<u8>)], others: &[(Txt, Sequence<u8>)]) -> bool {
    for file in some {
        let name = file.0.as_str();
        let is_free = name == UNDONE || has_in(run, "after", name);
        if !is_free && find_file(others, name) != Some(file.1.items()) {
            return false;
        }
    }
    true
}

/// The bytes of the file of a name, where there is one.
fn find_file<'a>(files: &'a [(Txt, Sequence<u8>)], name: &str) -> Option<&'a [u8]> {
    for file in files {
        if file.0.as_str() == name {
            return Some(file.1.items());
        }
    }
    None
}

/// Whether the file that is left is the one that is said, null being none.
fn is_left(alloc: Global, said: &Value, found: Option<&[u8]>) -> Result<bool, Fail> {
    match found {
        Some(bytes) => is_file(alloc, said, bytes),
        None => Ok(is_null(said)),
    }
}

fn is_file(alloc: Global, said: &Value, bytes: &[u8]) -> Result<bool, Fail> {
    let text = file_text(alloc, said)?;
    Ok(!is_null(said) && text.as_slice() == bytes)
}

/// Whether the runs' restarts, one after the other, are those that were requested.
fn are_restarted(runs: &[Value], restarts: &Names) -> Result<bool, Fail> {
    let mut from: usize = 0;
    for run in runs {
        if has(run, "restarts") {
            let said = items_at(run, "restarts")?;
            if !are_from(said, restarts, from) {
                return Ok(false);
            }
            from = from.saturating_add(said.len());
        }
    }
    Ok(from == restarts.len())
}

/// Whether names stand in a list from a position on.
fn are_from(said: &[Value], names: &Names, from: usize) -> bool {
    for (number, word) in said.iter().enumerate() {
        match names.items().get(from.saturating_add(number)) {
            Some(name) if is_word(word, name.as_str()) => {}
            _ => return false,
        }
    }
    true
}
