//! What a call of a host in memory does, and what a crash leaves after it.
ghost use Rattle.std.specs.Prelude.{◌≡◌, IfOk};
ghost use Rattle.host_core.specs.State.{settled};

use crate::calls::{has_come_out, is_call_as_said};
use crate::hosts::pick_of;
use example_rows::{Fail, faults_at, host_with};
use host_core::MemHost;
use serde_json::Value;
use std::alloc::Global;

/// What a crash may be asked to leave.
const PICKS: [&str; 4] = ["Gone", "Bytes", "Before", "After"];

/// A row tells a host, what is done on it, and what a crash leaves with each pick: whether that is so.
pub fn does_as_said(alloc: Global, row: &Value) -> Result<bool, Fail> {
    let mut as_said = does_alone(alloc, row)?;
    for pick in PICKS {
        as_said = as_said && leaves(alloc, row, pick)?;
    }
    Ok(as_said)
}

/// The host of a row, before its call.
fn host_before(alloc: Global, row: &Value) -> Result<MemHost, Fail>
    ensures { IfOk result (λ m. m.state.pending ≡ settled) }
{
    let faults = faults_at(alloc, row)?;
    host_with(alloc, row, faults)
}

fn does_alone(alloc: Global, row: &Value) -> Result<bool, Fail> {
    let mut host = host_before(alloc, row)?;
    let does = is_call_as_said(alloc, row, &mut host);
    drop(host);
    does
}

/// Whether a crash with that pick after the call leaves what the row says.
fn leaves(alloc: Global, row: &Value, pick: &str) -> Result<bool, Fail> {
    let mut after = host_after(alloc, row, pick)?;
    let left = has_come_out(alloc, row, pick, &mut after);
    drop(after);
    left
}

/// The host of a row after its call and a crash with that pick.
fn host_after(alloc: Global, row: &Value, pick: &str) -> Result<MemHost, Fail> {
    let pick = pick_of(alloc, row, pick)?;
    let host = host_done(alloc, row)?;
    Ok(host.crash(alloc, &pick)?)
}

/// The host of a row after its call.
fn host_done(alloc: Global, row: &Value) -> Result<MemHost, Fail> {
    let mut host = host_before(alloc, row)?;
    match is_call_as_said(alloc, row, &mut host) {
        Ok(_) => Ok(host),
        Err(fail) => {
            drop(host);
            Err(fail)
        }
    }
}
