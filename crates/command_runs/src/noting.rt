//! What is noted of a host and of a command that ran on it, and what is handed on.
ghost use Rattle.std.specs.Prelude.{◌≡◌, ◌≤◌, ◌<◌, ◌^◌, drop, length, IfOk, string_bytes};
ghost use Rattle.std.specs.FinMap.{entries};
ghost use Rattle.gcu_output.specs.Lines.{number};
ghost use Rattle.command_runs.specs.Noted.{rise};
ghost use Rattle.command_runs.specs.Runs.{handed_on};

use crate::Ran;
use crate::stops::Entries;
use gcu_engine::Outcome;
use host_core::{MemHost, Memory, Pick, Sequence, Txt};
use std::alloc::Global;

/// The files of a host as they read, each once, in the order of their names.
pub(crate) fn note_files(alloc: Global, host: &MemHost) -> Result<Entries, Memory>
    ensures { IfOk result (λ noted. noted ≡ entries host.now.state.files) }
{
    let mut noted = Sequence::new(alloc);
    for (name, bytes) in host.files() {
        noted.push(copy_file(alloc, name, bytes)?)?;
    }
    Ok(noted)
}

/// A name with its bytes.
fn copy_file(alloc: Global, name: &String, bytes: &Vec<u8>) -> Result<(Txt, Sequence<u8>), Memory>
    ensures { IfOk result (λ file. file ≡ (string_bytes name.now, bytes.now.items)) }
{
    let name = Txt::new(alloc, name.as_str())?;
    let bytes = bytes.to_vec(alloc)?;
    Ok((name, Sequence::from_vec(bytes)))
}

/// By how much a count rose, or 1 where it is at its last value.
pub(crate) fn rise_of(before: u64, after: u64) -> u64
    ensures { result ≡ rise before after }
{
    if after == u64::MAX {
        1
    } else {
        after.saturating_sub(before)
    }
}

/// What is noted of a command that ended so and left this host, which found these files, where so much was
/// printed and so often no memory was found.
pub(crate) fn note_run(
    alloc: Global,
    outcome: Outcome,
    host: &MemHost,
    before: Entries,
    printed: usize,
    starved: u64,
) -> Result<Ran, Memory>
    requires { printed ≤ length host.now.state.output }
    ensures status { IfOk result (λ ran. ran.status ≡ number outcome) }
    ensures before { IfOk result (λ ran. ran.before ≡ before) }
    ensures output { IfOk result (λ ran. ran.output ≡ drop printed host.now.state.output) }
    ensures calls { IfOk result (λ ran. ran.calls ≡ host.now.calls) }
    ensures starved { IfOk result (λ ran. ran.starved ≡ rise starved host.now.starved) }
    ensures fits { IfOk result (λ ran.
        (host.now.calls < 2 ^ 64) × (host.now.starved < 2 ^ 64)) }
{
    let output = host.output()[printed..].to_vec(alloc)?;
    Ok(Ran {
        status: outcome.status(),
        before,
        output: Sequence::from_vec(output),
        calls: host.calls(),
        starved: rise_of(starved, host.starved()),
    })
}

/// The host as it is, or after a crash at the picked image.
pub(crate) fn hand_on(alloc: Global, pick: Option<Pick>, host: MemHost) -> Result<MemHost, Memory>
    ensures { IfOk result (λ m. m ≡ handed_on pick host) }
{
    match pick {
        None => Ok(host),
        Some(pick) => host.crash(alloc, &pick),
    }
}
