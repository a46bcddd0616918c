//! The patch that an input holds.
ghost use Rattle.std.specs.Prelude.{IfErr};
ghost use Rattle.host_core.specs.Answers.{Gives};
ghost use Rattle.patch_core.specs.Operation.{operations};
ghost use Rattle.patch_core.specs.Reading.{patch as patch_of};
ghost use Rattle.gcu_inputs.specs.PatchAsked.{patch_asked, patch_in, patch_answer};
ghost use Rattle.gcu_inputs.specs.Preparing.{Finds, Refuses, RefusesAlways, refusal};
ghost use Rattle.gcu_inputs.specs.Reads.{ReadsInputs};

use gcu_output::Outcome;
use host_core::{Host, HostError, Input, Txt};
use patch_core::{Patch, PatchError, read_patch};
use std::alloc::Global;

/// How many bytes a patch may have.
const PATCH_LIMIT: u64 = 1_048_576;

/// The patch that an input holds.
pub fn input_patch<H: Host>(alloc: Global, path: &Txt, host: &mut H) -> Result<Patch, Outcome>
    ensures answer { Finds (H.told host.old) operations result (patch_asked path.now) }
    ensures reads { ReadsInputs H.told H.counts H.moment H.left_since H.goes_on host.old host.new }
    ensures cause { IfErr result (Refuses (H.counts host.old) (H.counts host.new)) }
{
    match host.input(alloc, path.as_str(), PATCH_LIMIT) {
        Ok(input) => patch_of_input(alloc, path, input),
        Err(HostError::Failed) => Err(Outcome::InputFault),
        Err(HostError::Memory) => Err(Outcome::Memory),
    }
}

/// The patch that was found at a path.
fn patch_of_input(alloc: Global, path: &Txt, input: Input) -> Result<Patch, Outcome>
    ensures answer { Gives operations refusal result (patch_in path.now input) }
    ensures cause { IfErr result RefusesAlways }
{
    match input {
        Input::Absent => Err(Outcome::NoInput {
            path: path.copy(alloc)?,
        }),
        Input::TooBig => Err(Outcome::TooBig {
            path: path.copy(alloc)?,
            limit: PATCH_LIMIT,
        }),
        Input::Bytes(bytes) => patch_of_bytes(alloc, path, bytes.items()),
    }
}

/// The patch that an input's bytes hold.
fn patch_of_bytes(alloc: Global, path: &Txt, bytes: &[u8]) -> Result<Patch, Outcome>
    ensures answer { Gives operations refusal result (patch_answer path.now (patch_of bytes.now)) }
    ensures cause { IfErr result RefusesAlways }
{
    match read_patch(alloc, bytes) {
        Ok(patch) => Ok(patch),
        Err(PatchError::BadJson) => Err(Outcome::BadJson {
            path: path.copy(alloc)?,
        }),
        Err(PatchError::BadPatch { index, why }) => Err(Outcome::BadPatch { index, why }),
        Err(PatchError::Memory) => Err(Outcome::Memory),
    }
}
