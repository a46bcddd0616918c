//! Calls of the host in memory, done or failing, and what a crash leaves after them.
ghost use Rattle.std.specs.Prelude.{◌≡◌, ◌≤◌, length};
ghost use Rattle.host_core.specs.Names.{longest_file_name};
ghost use Rattle.host_core.specs.State.{settled};

use crate::answers::{file_told, input_told, names_told, told};
use crate::hosts::{LONGEST_NAME, files_of, name_at};
use crate::views::act_in_scope;
use example_rows::{
    Fail, are_names, has, is_text, items_at, names_in, number_at, says, text_at, text_bytes,
    value_at,
};
use host_core::{Failed, Host, MemHost};
use serde_json::Value;
use std::alloc::Global;

/// A row has `files` and `inputs`, each a name with its bytes. It `does` a call or two, with a `name`,
/// `bytes`, a name `to` go to or a `limit`; the calls whose numbers are in `fails` fail, and the last one
/// gives the `answer`. Then the files are those under `reads`, and after a crash those under each pick,
/// of which `Bytes` are the `torn` ones. What was printed is the `output`, and the `restarts` are those
/// that were requested. Where there is a `scope`, the call is one of the host that it shows, with a plain
/// `name`.
pub fn is_call_as_said(alloc: Global, row: &Value, host: &mut MemHost) -> Result<bool, Fail>
    requires { host.old.state.pending ≡ settled }
{
    let answered = is_answer(alloc, row, host)?;
    Ok(answered && has_come_out(alloc, row, "reads", host)?)
}

/// Makes the calls, and tells whether the last one answered as the row says.
fn is_answer(alloc: Global, row: &Value, host: &mut MemHost) -> Result<bool, Fail>
    requires { host.old.state.pending ≡ settled }
{
    let answer = if has(row, "scope") {
        act_in_scope(alloc, row, host)?
    } else {
        act(alloc, row, host)?
    };
    Ok(says(row, "answer", answer.as_str()))
}

/// Whether the output, the restarts and the files under a name are those of the row.
pub fn has_come_out(
    alloc: Global,
    row: &Value,
    name: &str,
    host: &mut MemHost,
) -> Result<bool, Fail> {
    let same_restarts = are_names(items_at(row, "restarts")?, host.restarts());
    let same_output = is_text(alloc, row, "output", host.output())?;
    Ok(same_restarts && same_output && has_files(alloc, row, name, host)?)
}

/// Whether a host has the files under a name, and no others.
fn has_files(alloc: Global, row: &Value, name: &str, host: &mut MemHost) -> Result<bool, Fail> {
    let said = value_at(row, name)?;
    let names = names_in(alloc, said)?;
    for name in &names {
        let same = match host.file(*name) {
            Some(bytes) => is_text(alloc, said, *name, bytes)?,
            None => false,
        };
        if !same {
            return Ok(false);
        }
    }
    Ok(files_of(alloc, host)?.len() == names.len())
}

/// Makes the calls, and tells what the last one answered.
fn act(alloc: Global, row: &Value, host: &mut MemHost) -> Result<String, Fail>
    requires { host.old.state.pending ≡ settled }
{
    let name = name_at(row, "name", LONGEST_NAME)?;
    match text_at(row, "does")? {
        "input" => input_told(alloc, host.input(alloc, name, number_at(row, "limit")?)),
        "list" => names_told(alloc, host.list(alloc)),
        "read" => file_told(alloc, host.read(alloc, name)),
        does => told(alloc, change(alloc, row, does, name, host)?),
    }
}

/// The calls that may change something.
fn change(
    alloc: Global,
    row: &Value,
    does: &str,
    name: &str,
    host: &mut MemHost,
) -> Result<Result<(), Failed>, Fail>
    requires short { length name.now ≤ longest_file_name }
    requires ready { host.old.state.pending ≡ settled }
{
    if does.starts_with("write") {
        return Ok(write(does, name, &text_bytes(alloc, row, "bytes")?, host));
    }
    if does.starts_with("rename") {
        return rename(does, name, name_at(row, "to", LONGEST_NAME)?, host);
    }
    if does.starts_with("remove") {
        return remove(does, name, host);
    }
    match does {
        "sync" => Ok(host.sync(name)),
        "settle" => Ok(host.settle()),
        "print" => Ok(host.print(&text_bytes(alloc, row, "bytes")?)),
        "restart" => Ok(host.restart(name)),
        _ => Err(Fail::Row),
    }
}

/// A write, and what comes behind it.
fn write(does: &str, name: &str, bytes: &[u8], host: &mut MemHost) -> Result<(), Failed>
    requires short { length name.now ≤ longest_file_name }
    requires ready { host.old.state.pending ≡ settled }
{
    let written = host.write(name, bytes);
    match does {
        "write, sync" => host.sync(name),
        "write, settle" => host.settle(),
        "write, print" => host.print(bytes),
        _ => written,
    }
}

/// Another name for a file that is there, and what comes behind it.
fn rename(does: &str, name: &str, to: &str, host: &mut MemHost) -> Result<Result<(), Failed>, Fail>
    requires short { length name.now ≤ longest_file_name }
    requires to { length to.now ≤ longest_file_name }
    requires ready { host.old.state.pending ≡ settled }
{
    if host.file(name).is_none() {
        return Err(Fail::Row);
    }
    let moved = host.rename(name, to);
    match does {
        "rename, settle" => Ok(host.settle()),
        "rename, restart" => Ok(host.restart(name)),
        _ => Ok(moved),
    }
}

/// The removal of a file that is there, and what comes behind it.
fn remove(does: &str, name: &str, host: &mut MemHost) -> Result<Result<(), Failed>, Fail>
    requires short { length name.now ≤ longest_file_name }
    requires ready { host.old.state.pending ≡ settled }
{
    if host.file(name).is_none() {
        return Err(Fail::Row);
    }
    let removed = host.remove(name);
    match does {
        "remove, settle" => Ok(host.settle()),
        _ => Ok(removed),
    }
}
