//! Calls of the folder as a scope shows it.
ghost use Rattle.std.specs.Prelude.{◌≡◌, ◌≤◌, length, IfSome};
ghost use Rattle.host_core.specs.Names.{longest_plain_name};
ghost use Rattle.host_core.specs.State.{settled};

use crate::answers::{file_told, names_told, told};
use crate::hosts::name_at;
use conf_store::put_file;
use example_rows::{Fail, text_at, text_bytes};
use host_core::{Failed, Host, HostError, MemHost};
use scopes::{Scope, ScopedHost};
use serde_json::Value;
use std::alloc::Global;

/// How many bytes a plain name may have.
const LONGEST_PLAIN_NAME: usize = 72;

/// Makes the call of the host that a scope shows, and tells what it answered.
pub(crate) fn act_in_scope(alloc: Global, row: &Value, host: &mut MemHost) -> Result<String, Fail>
    requires { host.old.state.pending ≡ settled }
{
    let scope = Scope::named(text_at(row, "scope")?).ok_or(Fail::Row)?;
    let mut view = ScopedHost::new(host, scope);
    act(alloc, row, &mut view)
}

/// Makes the call, and tells what it answered.
fn act<H: Host>(alloc: Global, row: &Value, host: &mut H) -> Result<String, Fail>
    requires longest { longest_plain_name ≤ H.longest_name }
    requires ready { IfSome (H.told host.old) (λ s. s.pending ≡ settled) }
{
    let name = name_at(row, "name", LONGEST_PLAIN_NAME)?;
    match text_at(row, "does")? {
        "list" => names_told(alloc, host.list(alloc)),
        "read" => file_told(alloc, host.read(alloc, name)),
        "put" => told(
            alloc,
            put_file(host, name, &text_bytes(alloc, row, "bytes")?),
        ),
        "remove" => told(alloc, remove(alloc, name, host)?),
        "print" => told(alloc, host.print(&text_bytes(alloc, row, "bytes")?)),
        "restart" => told(alloc, host.restart(name)),
        _ => Err(Fail::Row),
    }
}

/// The removal of a file that is there.
fn remove<H: Host>(alloc: Global, name: &str, host: &mut H) -> Result<Result<(), Failed>, Fail>
    requires short { length name.now ≤ H.longest_name }
    requires ready { IfSome (H.told host.old) (λ s. s.pending ≡ settled) }
{
    match host.read(alloc, name) {
        Ok(Some(_)) => Ok(host.remove(name)),
        Ok(None) => Err(Fail::Row),
        Err(HostError::Failed) => Ok(Err(Failed)),
        Err(HostError::Memory) => Err(Fail::Memory),
    }
}
