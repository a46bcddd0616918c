//! `gcu status`: whether a change was stopped, and how far it is.
ghost use Rattle.std.specs.Prelude.{◌≡◌, ◌≤◌, IfErr, IfOk, IfSome, option_map};
ghost use Rattle.host_core.specs.Names.{longest_plain_name};
ghost use Rattle.conf_store.specs.Stored.{config_in};
ghost use Rattle.gcu_output.specs.declared.outcomes.Outcome.TheVariants.{Memory as no_memory};
ghost use Rattle.gcu_inputs.specs.Preparing.{Finds, Refuses};
ghost use Rattle.gcu_inputs.specs.Reads.{ReadsFiles};
ghost use Rattle.gcu_requests.specs.InterruptionAsked.{intent_holding, intent_of, status_asked};
ghost use Rattle.gcu_requests.specs.IntentView.{CountsIn, status_request};

use conf_store::{LoadError, count_steps, read_config};
use gcu_inputs::read_intent;
use gcu_output::{Intent, Outcome};
use host_core::Host;
use std::alloc::Global;

/// How far a change got that was stopped.
#[derive(Clone, Copy)]
pub struct Status {
    pub intent: Intent,
    /// How many of its step files are applied in the stored configuration.
    pub steps: u32,
}

/// Reads how far a change got that was stopped.
pub fn read_status<H: Host>(alloc: Global, host: &mut H) -> Result<Status, Outcome>
    requires { longest_plain_name ≤ H.longest_name }
    ensures answer { Finds (H.told host.old) status_request result status_asked }
    ensures reads { ReadsFiles H.told H.counts H.moment H.left_since H.goes_on host.old host.new }
    ensures cause { IfErr result (Refuses (H.counts host.old) (H.counts host.new)) }
{
    let steps = read_steps(alloc, host)?;
    let found = read_intent(alloc, host)?;
    let intent = intent_found(alloc, found)?;
    Ok(Status { intent, steps })
}

/// How many step files are applied in what the folder stands for.
fn read_steps<H: Host>(alloc: Global, host: &mut H) -> Result<u32, Outcome>
    requires { longest_plain_name ≤ H.longest_name }
    ensures answer { IfSome (H.told host.old) (λ s. CountsIn s result) }
    ensures reads { ReadsFiles H.told H.counts H.moment H.left_since H.goes_on host.old host.new }
    ensures cause { IfErr result (Refuses (H.counts host.old) (H.counts host.new)) }
{
    match count_steps(alloc, host) {
        Ok(count) => Ok(count),
        Err(LoadError::Bad(why)) => Err(Outcome::BadStored { why }),
        Err(LoadError::Disk) => Err(Outcome::DiskFault { step: 0 }),
        Err(LoadError::Memory) => Err(Outcome::Memory),
    }
}

/// What was found of the file.
fn intent_found(alloc: Global, found: Option<Vec<u8>>) -> Result<Intent, Outcome>
    ensures ok { IfOk result
        (λ intent. intent ≡ intent_of (option_map (λ v. v.items) found)) }
    ensures err { IfErr result (λ e. e ≡ no_memory) }
{
    match found {
        None => Ok(Intent::Absent),
        Some(bytes) => intent_in(alloc, &bytes),
    }
}

/// What the bytes of the file hold.
fn intent_in(alloc: Global, bytes: &[u8]) -> Result<Intent, Outcome>
    ensures ok { IfOk result (λ intent. intent ≡ intent_holding (config_in bytes.now)) }
    ensures err { IfErr result (λ e. e ≡ no_memory) }
{
    match read_config(alloc, bytes) {
        Ok(_) => Ok(Intent::Whole),
        Err(LoadError::Bad(_)) => Ok(Intent::Broken),
        Err(LoadError::Memory) => Err(Outcome::Memory),
        Err(LoadError::Disk) => unreachable!(),
    }
}
