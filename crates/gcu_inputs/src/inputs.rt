//! The bytes of an input.
ghost use Rattle.std.specs.Prelude.{◌≤◌, IfOk, IfErr, length};
ghost use Rattle.host_core.specs.Answers.{Gives};
ghost use Rattle.gcu_inputs.specs.ModelFiles.{bytes_asked, bytes_in, IsWithin};
ghost use Rattle.gcu_inputs.specs.Preparing.{Finds, Refuses, RefusesAlways, refusal};
ghost use Rattle.gcu_inputs.specs.Reads.{ReadsInputs};

use gcu_output::Outcome;
use host_core::{Host, HostError, Input, Sequence, Txt};
use std::alloc::Global;

/// The bytes of the input at a path, of which there may be so many.
pub fn input_bytes<H: Host>(
    alloc: Global,
    path: &Txt,
    limit: u64,
    host: &mut H,
) -> Result<Sequence<u8>, Outcome>
    ensures answer { Finds (H.told host.old) (λ v. v) result (bytes_asked path.now limit) }
    ensures few { IfOk result (λ v. length v ≤ limit) }
    ensures reads { ReadsInputs H.told H.counts H.moment H.left_since H.goes_on host.old host.new }
    ensures cause { IfErr result (Refuses (H.counts host.old) (H.counts host.new)) }
{
    match host.input(alloc, path.as_str(), limit) {
        Ok(input) => bytes_of_input(alloc, path, limit, input),
        Err(HostError::Failed) => Err(Outcome::InputFault),
        Err(HostError::Memory) => Err(Outcome::Memory),
    }
}

/// What was found at a path. A host that doesn't keep to the limit is told so here.
fn bytes_of_input(
    alloc: Global,
    path: &Txt,
    limit: u64,
    input: Input,
) -> Result<Sequence<u8>, Outcome>
    ensures answer { IsWithin limit input
        → Gives (λ v. v) refusal result (bytes_in path.now limit input) }
    ensures few { IfOk result (λ v. length v ≤ limit) }
    ensures cause { IfErr result RefusesAlways }
{
    match input {
        Input::Absent => Err(Outcome::NoInput {
            path: path.copy(alloc)?,
        }),
        Input::Bytes(bytes) if bytes.len() as u64 <= limit => Ok(bytes),
        Input::TooBig | Input::Bytes(_) => Err(Outcome::TooBig {
            path: path.copy(alloc)?,
            limit,
        }),
    }
}
