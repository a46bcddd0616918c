//! Calls of the host of the working folder.
ghost use Rattle.std.specs.Prelude.{◌≤◌, length};
ghost use Rattle.host_core.specs.Names.{longest_file_name};

use crate::answers::{file_told, input_told, names_told, told};
use crate::faults::Faults;
use crate::hosts::{LONGEST_NAME, name_at};
use crate::preparing::{enter, has_mode, leave, prepare};
use crate::system::System;
use example_rows::{Fail, items_at, number_at, says, text_at};
use host_core::{Failed, Host};
use real_host::RealHost;
use serde_json::Value;
use std::alloc::Global;
use std::env::Env;
use std::rt::Files;

/// What a call writes.
const BYTES: &[u8] = b"abcd";

/// The host of a row.
type Folder<'a, R> = RealHost<(System<'a, &'a R>, Global)>;

/// A row makes its `calls` one after another in a new folder. Each `does` something, as a call of the host
/// does, with a `name`, another one `to`, or a `limit`, and its answer is the `answer`. Or it puts something
/// into the folder, with no answer, or says what `fails` from then on. `unless written` ends the row where
/// the system lets the file be written: so it lets root.
pub fn are_real_calls_as_said<R: Files + Env + AllocGlobal>(
    rt: &R,
    alloc: Global,
    row: &Value,
) -> Result<bool, Fail> {
    enter(rt)?;
    let same = are_as_said(rt, alloc, row);
    leave(rt)?;
    same
}

/// Whether the calls of a row answer as it says.
fn are_as_said<R: Files>(rt: &R, alloc: Global, row: &Value) -> Result<bool, Fail> {
    let faults = Faults::of(row);
    let system = System {
        rt,
        faults: &faults,
    };
    let mut host = RealHost::new((system, alloc));
    let same = all_as_said(&mut host, rt, alloc, &faults, row);
    drop(host);
    same
}

/// Whether all calls of a row answer as it says.
fn all_as_said<R: Files>(
    host: &mut Folder<'_, R>,
    rt: &R,
    alloc: Global,
    faults: &Faults<'_>,
    row: &Value,
) -> Result<bool, Fail> {
    for call in items_at(row, "calls")? {
        match text_at(call, "does")? {
            "unless written" => {
                if host.write("tmp.new", BYTES).is_ok() {
                    return Ok(true);
                }
            }
            does => {
                if !is_as_said(host, rt, alloc, faults, does, call)? {
                    return Ok(false);
                }
            }
        }
    }
    Ok(true)
}

/// Whether a call answers as it says. What puts something into the folder answers nothing.
fn is_as_said<R: Files>(
    host: &mut Folder<'_, R>,
    rt: &R,
    alloc: Global,
    faults: &Faults<'_>,
    does: &str,
    call: &Value,
) -> Result<bool, Fail> {
    match does {
        "fail" => Ok(faults.set(call)),
        "count" => faults.are_as_said(call),
        "has mode" => has_mode(rt, call),
        "make folder" | "link" | "put" | "set mode" => prepare(rt, does, call),
        _ => {
            let answer = act(host, alloc, does, call)?;
            Ok(says(call, "answer", answer.as_str()))
        }
    }
}

/// Makes a call of the host, and tells what it answered.
fn act<R: Files>(
    host: &mut Folder<'_, R>,
    alloc: Global,
    does: &str,
    call: &Value,
) -> Result<String, Fail> {
    let name = name_at(call, "name", LONGEST_NAME)?;
    match does {
        "input" => input_told(alloc, host.input(alloc, name, number_at(call, "limit")?)),
        "list" => names_told(alloc, host.list(alloc)),
        "read" => file_told(alloc, host.read(alloc, name)),
        _ => told(
            alloc,
            change(host, does, name, name_at(call, "to", LONGEST_NAME)?),
        ),
    }
}

/// Makes a call that changes something.
fn change<R: Files>(
    host: &mut Folder<'_, R>,
    does: &str,
    name: &str,
    to: &str,
) -> Result<(), Failed>
    requires name { length name.now ≤ longest_file_name }
    requires to { length to.now ≤ longest_file_name }
{
    match does {
        "write" => host.write(name, BYTES),
        "sync" => host.sync(name),
        "rename" => host.rename(name, to),
        "remove" => host.remove(name),
        "settle" => host.settle(),
        "print" => host.print(BYTES),
        _ => host.restart(name),
    }
}
