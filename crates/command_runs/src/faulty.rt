//! One command on a host with faults.
ghost use Rattle.host_core.specs.MemoryHost.{GoesOn, faulty_by};
ghost use Rattle.command_runs.specs.Runs.{IsPromised, IsPromisedInScope};

use gcu_engine::{Outcome, run};
use host_core::{Faults, MemHost, Names};
use move_core::{Boxes, Kit};
use std::alloc::Global;

/// Runs the command with these faults, and gives the host that it leaves.
pub(crate) fn run_with(
    alloc: Global,
    words: Names,
    faults: Faults,
    kit: &mut Kit,
    host: MemHost,
) -> (MemHost, Outcome)
    requires kinds { ⟦<Kit as Boxes>⟧.HasKinds kit.old }
    ensures kinds { ⟦<Kit as Boxes>⟧.HasKinds kit.new }
    ensures goes { GoesOn (faulty_by faults host) result.0 }
    ensures promised { IsPromised words
        host.state result.0.state host.counts result.0.counts result.1 }
    ensures scoped { IsPromisedInScope words (faulty_by faults host) result.0 result.1 }
{
    let mut host = host.with_faults(faults);
    let outcome = run(alloc, words.items(), kit, &mut host);
    (host, outcome)
}
