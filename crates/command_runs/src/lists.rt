//! Lists of commands, each on the host that the one before handed on.
ghost use Rattle.std.specs.Prelude.{List, IfOk};
ghost use Rattle.conf_doc.specs.declared.configuration.Config.{Config};
ghost use Rattle.command_runs.specs.Adding.{AddsRun};
ghost use Rattle.command_runs.specs.Histories.{AllLead, AllStandFor};
ghost use Rattle.command_runs.specs.Runs.{AreRun, AreUnscoped};

use crate::running::run_stop;
use crate::{Ran, Stop};
use host_core::{MemHost, Memory, crash_may_leave_all};
use move_core::{Boxes, Kit};
use std::alloc::Global;

/// Runs the commands one after the other, each on the host that the one before handed on. It gives the host
/// that the last one hands on, and what is noted of each. After `Memory` the host is gone.
pub fn run_stops(
    alloc: Global,
    stops: Vec<Stop>,
    kit: &mut Kit,
    host: MemHost,
) -> Result<(MemHost, Vec<Ran>), Memory>
    requires kinds { ⟦<Kit as Boxes>⟧.HasKinds kit.old }
    ensures kinds { ⟦<Kit as Boxes>⟧.HasKinds kit.new }
    // There is one note for each command, in order, and each command ran as is promised.
    ensures runs { IfOk result (λ r. AreRun stops.items host r.0 r.1.items) }
    // Each command finds files that stand for a configuration of the list that those before it lead to, and
    // so do those that are handed on, and all images of them. It is said of commands over the whole folder.
    ensures lead { IfOk result (λ r. AreUnscoped stops.items
        → (before : List Config) → AllStandFor before host.state
        → AllLead before r.1.items r.0.state) }
{
    crash_may_leave_all();
    let mut now = host;
    let mut rans = Vec::new(alloc);
    for stop in stops {
        now = run_next(alloc, stop, kit, now, &mut rans)?;
    }
    Ok((now, rans))
}

/// Runs one command more, and adds what is noted of it.
fn run_next(
    alloc: Global,
    stop: Stop,
    kit: &mut Kit,
    host: MemHost,
    rans: &mut Vec<Ran>,
) -> Result<MemHost, Memory>
    requires kinds { ⟦<Kit as Boxes>⟧.HasKinds kit.old }
    ensures kinds { ⟦<Kit as Boxes>⟧.HasKinds kit.new }
    ensures run { IfOk result (λ next. AddsRun stop host next rans.old.items rans.new.items) }
{
    let (next, ran) = run_stop(alloc, stop, kit, host)?;
    rans.push(ran)?;
    Ok(next)
}
