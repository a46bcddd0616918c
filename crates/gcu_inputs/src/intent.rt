//! The file of a change under way: whether it is there, and the configuration that it holds.
ghost use Rattle.std.specs.Prelude.{◌≤◌, IfErr, IfOk, Ok, option_map};
ghost use Rattle.host_core.specs.Answers.{Gives};
ghost use Rattle.host_core.specs.Names.{longest_plain_name};
ghost use Rattle.conf_store.specs.Stored.{config_in};
ghost use Rattle.gcu_inputs.specs.IntentAsked.{held_answer, intended_answer, intent_asked, interrupted, uninterrupted};
ghost use Rattle.gcu_inputs.specs.Preparing.{Finds, Refuses, RefusesAlways, refusal};
ghost use Rattle.gcu_inputs.specs.Reads.{ReadsFiles};

use conf_doc::Config;
use conf_store::{INTENT_FILE, LoadError, read_config};
use gcu_output::Outcome;
use host_core::{Host, HostError};
use std::alloc::Global;

/// Refuses where a change was stopped before its end.
pub fn test_uninterrupted<H: Host>(alloc: Global, host: &mut H) -> Result<(), Outcome>
    requires { longest_plain_name ≤ H.longest_name }
    ensures answer { Finds (H.told host.old) (λ u. u) result uninterrupted }
    ensures reads { ReadsFiles H.told H.counts H.moment H.left_since H.goes_on host.old host.new }
    ensures cause { IfErr result (Refuses (H.counts host.old) (H.counts host.new)) }
{
    let found = read_intent(alloc, host)?;
    if found.is_some() {
        return Err(Outcome::Interrupted);
    }
    Ok(())
}

/// Refuses where no change was stopped before its end.
pub fn test_interrupted<H: Host>(alloc: Global, host: &mut H) -> Result<(), Outcome>
    requires { longest_plain_name ≤ H.longest_name }
    ensures answer { Finds (H.told host.old) (λ u. u) result interrupted }
    ensures reads { ReadsFiles H.told H.counts H.moment H.left_since H.goes_on host.old host.new }
    ensures cause { IfErr result (Refuses (H.counts host.old) (H.counts host.new)) }
{
    let found = read_intent(alloc, host)?;
    if found.is_none() {
        return Err(Outcome::NoIntent);
    }
    Ok(())
}

/// The file of a change that was stopped before its end. Refuses where none was.
pub fn read_interrupted<H: Host>(alloc: Global, host: &mut H) -> Result<Option<Vec<u8>>, Outcome>
    requires { longest_plain_name ≤ H.longest_name }
    ensures answer { Finds (H.told host.old) (λ _. tt) result interrupted }
    ensures held { IfOk result (λ found.
        Finds (H.told host.old) (option_map (λ v. v.items)) (Ok found) intent_asked) }
    ensures reads { ReadsFiles H.told H.counts H.moment H.left_since H.goes_on host.old host.new }
    ensures cause { IfErr result (Refuses (H.counts host.old) (H.counts host.new)) }
{
    let found = read_intent(alloc, host)?;
    if found.is_none() {
        return Err(Outcome::NoIntent);
    }
    Ok(found)
}

/// The goal of the change that was stopped, by what was found of the file.
pub fn goal_held(alloc: Global, found: Option<Vec<u8>>) -> Result<Config, Outcome>
    ensures answer { Gives (λ c. c) refusal result
        (intended_answer (option_map (λ v. v.items) found)) }
    ensures cause { IfErr result RefusesAlways }
{
    match found {
        None => Err(Outcome::NoIntent),
        Some(bytes) => goal_in(alloc, &bytes),
    }
}

/// The configuration that the bytes of the file hold.
fn goal_in(alloc: Global, bytes: &[u8]) -> Result<Config, Outcome>
    ensures answer { Gives (λ c. c) refusal result (held_answer (config_in bytes.now)) }
    ensures cause { IfErr result RefusesAlways }
{
    match read_config(alloc, bytes) {
        Ok(config) => Ok(config),
        Err(LoadError::Bad(_)) => Err(Outcome::BadIntent),
        Err(LoadError::Memory) => Err(Outcome::Memory),
        Err(LoadError::Disk) => unreachable!(),
    }
}

/// The bytes of the file, or None where it isn't there.
pub fn read_intent<H: Host>(alloc: Global, host: &mut H) -> Result<Option<Vec<u8>>, Outcome>
    requires { longest_plain_name ≤ H.longest_name }
    ensures answer { Finds (H.told host.old) (option_map (λ v. v.items)) result intent_asked }
    ensures reads { ReadsFiles H.told H.counts H.moment H.left_since H.goes_on host.old host.new }
    ensures cause { IfErr result (Refuses (H.counts host.old) (H.counts host.new)) }
{
    match host.read(alloc, INTENT_FILE) {
        Ok(found) => Ok(found),
        Err(HostError::Failed) => Err(Outcome::DiskFault { step: 0 }),
        Err(HostError::Memory) => Err(Outcome::Memory),
    }
}
