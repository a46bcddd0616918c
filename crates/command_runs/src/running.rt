//! One command that is run to its end or stopped, and lists of them.
ghost use Rattle.std.specs.Prelude.{List, IfOk};
ghost use Rattle.conf_doc.specs.declared.configuration.Config.{Config};
ghost use Rattle.gcu_words.specs.ScopeForm.{IsUnscoped};
ghost use Rattle.command_runs.specs.Histories.{AllStandFor, Leads};
ghost use Rattle.command_runs.specs.Runs.{IsRun};

use crate::faulty::run_with;
use crate::noting::{hand_on, note_files, note_run};
use crate::{Ran, Stop};
use host_core::{MemHost, Memory, crash_may_leave_all};
use move_core::{Boxes, Kit};
use operators::scripts_keep_worlds;
use patch_core::tokens_of_pointer;
use std::alloc::Global;

/// Runs one command with its faults, and makes the crash that follows it. It gives the host that is handed
/// on, and what is noted of the command. After `Memory` the host is gone.
pub fn run_stop(
    alloc: Global,
    stop: Stop,
    kit: &mut Kit,
    host: MemHost,
) -> Result<(MemHost, Ran), Memory>
    requires kinds { ⟦<Kit as Boxes>⟧.HasKinds kit.old }
    ensures kinds { ⟦<Kit as Boxes>⟧.HasKinds kit.new }
    // What is promised of one command holds of its words, the inputs, the files that it found, its output,
    // its status and what is handed on; and a fault has a reason.
    ensures runs { IfOk result (λ r. IsRun stop host r.0 r.1) }
    // Where the files that it found and all images of them stand for configurations of a list, those that
    // are handed on stand for configurations of the list that it leads to. It is said of a command over the
    // whole folder.
    ensures leads { IfOk result (λ r. IsUnscoped stop.words
        → (before : List Config) → AllStandFor before host.state → Leads before r.1 r.0.state) }
{
    crash_may_leave_all();
    tokens_of_pointer();
    scripts_keep_worlds();
    let Stop {
        words,
        faults,
        pick,
    } = stop;
    let before = note_files(alloc, &host)?;
    let printed = host.output().len();
    let starved = host.starved();
    let (host, outcome) = run_with(alloc, words, faults, kit, host);
    let ran = note_run(alloc, outcome, &host, before, printed, starved)?;
    Ok((hand_on(alloc, pick, host)?, ran))
}
