//! `gcu checkpoint NAME`: one checkpoint more.
ghost use Rattle.std.specs.Prelude.{◌≡◌, ◌≤◌, true, IfErr, IfSome, OnOk};
ghost use Rattle.host_core.specs.Counts.{DiskMayRise, NoneFell};
ghost use Rattle.host_core.specs.Crashes.{LeavesOnly};
ghost use Rattle.host_core.specs.Names.{longest_plain_name};
ghost use Rattle.conf_store.specs.Changes.{AreLeft, IsSettled, Settles};
ghost use Rattle.conf_store.specs.Reads.{OnlyReads};
ghost use Rattle.checkpoints.specs.Answers.{IsInTheWay};
ghost use Rattle.checkpoints.specs.Changes.{IsSaved, IsSavedOrNot};
ghost use Rattle.checkpoints.specs.Names.{is_good_name as is_name};
ghost use Rattle.gcu_output.specs.Printing.{outcome_of};
ghost use Rattle.gcu_output.specs.declared.outcomes.Outcome.TheVariants.{Usage as usage};
ghost use Rattle.gcu_inputs.specs.Preparing.{Finds, Refuses};
ghost use Rattle.gcu_requests.specs.Asked.{absent_asked, save_asked};
ghost use Rattle.gcu_requests.specs.Request.{save_checkpoint as saving_of};
ghost use Rattle.command_answers.specs.Answers.{HasCause, IsRefusal};
ghost use Rattle.command_answers.specs.Commands.{AnswersTo, CompleteTo, IsReady, LeavesRefused, LeftTo, LeftUnwritten, UnlessDiskFault};
ghost use Rattle.writing_commands.specs.Doing.{IsKeptOrSettled, SettlesWriting};

use checkpoints::{PointError, is_good_name, save};
use conf_doc::Config;
use gcu_output::{Outcome, tell};
use gcu_requests::judge_stored;
use host_core::{Host, Txt};
use std::alloc::Global;

/// Saves the stored configuration, where it is valid, as a checkpoint that isn't there yet. Once it is saved
/// no memory is asked for.
pub fn save_checkpoint<H: Host>(alloc: Global, name: &Txt, host: &mut H) -> Outcome
    requires { longest_plain_name ≤ H.longest_name }
    ensures answers { AnswersTo (save_asked name.now)
        (H.told host.old) (H.told host.new) (H.counts host.old) (H.counts host.new) result }
    ensures cause { HasCause (H.counts host.old) (H.counts host.new) result }
    ensures counts { NoneFell (H.counts host.old) (H.counts host.new) }
    ensures crash { LeavesOnly H.moment H.left_since host.old host.new
        (LeftTo (save_asked name.now) (H.told host.old)) }
    // After a refusal, want of memory too, nothing was written before.
    ensures early { IsRefusal result → LeavesOnly H.moment H.left_since host.old host.new
        (LeftUnwritten (H.told host.old)) }
    // What is pending is settled before anything is written.
    ensures settles { SettlesWriting H.moment H.left_since host.old host.new (H.told host.old)
        (LeftTo (save_asked name.now)) }
    ensures goes { H.goes_on host.old host.new }
    ensures form { result ≡ usage → ⊥ }
    ensures complete { CompleteTo (save_asked name.now)
        (H.told host.old) (H.counts host.old) (H.counts host.new) result }
{
    let done = add_checkpoint(alloc, name, host);
    tell(alloc, done, host)
}

/// Settles what is pending, judges the stored configuration, and saves it.
fn add_checkpoint<H: Host>(alloc: Global, name: &Txt, host: &mut H) -> Result<(), Outcome>
    requires { longest_plain_name ≤ H.longest_name }
    ensures left { IsReady (save_asked name.now)
        (H.told host.old) (H.told host.new) (outcome_of result) }
    ensures counts { NoneFell (H.counts host.old) (H.counts host.new) }
    ensures cause { IfErr result (Refuses (H.counts host.old) (H.counts host.new)) }
    ensures crash { LeavesOnly H.moment H.left_since host.old host.new
        (LeftTo (save_asked name.now) (H.told host.old)) }
    ensures early { IfErr result (UnlessDiskFault (LeavesOnly
        H.moment H.left_since host.old host.new (LeftUnwritten (H.told host.old)))) }
    ensures settles { IsKeptOrSettled H.moment H.left_since host.old host.new
        (H.told host.old) (H.told host.new) (save_asked name.now) (outcome_of result) }
    ensures goes { H.goes_on host.old host.new }
{
    if !is_good_name(name.as_str()) {
        let name = name.copy(alloc)?;
        return Err(Outcome::BadName { name });
    }
    match host.settle() {
        Ok(()) => {
            let config = judge_stored(alloc, host)?;
            save_config(alloc, name, &config, host)
        }
        Err(_) => Err(Outcome::DiskFault { step: 0 }),
    }
}

/// Saves a configuration, with nothing pending.
fn save_config<H: Host>(
    alloc: Global,
    name: &Txt,
    config: &Config,
    host: &mut H,
) -> Result<(), Outcome>
    requires longest { longest_plain_name ≤ H.longest_name }
    requires ready { IfSome (H.told host.old) IsSettled }
    requires named { is_name name.now ≡ true }
    ensures answer { Finds (H.told host.old) (λ _. saving_of name.now config.now) result
        (absent_asked name.now config.now) }
    ensures ok { OnOk result
        (Settles (IsSaved name.now config.now) (H.told host.old) (H.told host.new)) }
    ensures err { IfErr result
        (LeavesRefused (IsSavedOrNot name.now config.now) (H.told host.old) (H.told host.new)) }
    ensures only_reads { IfSome (H.told host.old) (λ s. IsInTheWay name.now s.files
        → OnlyReads H.told H.counts H.moment H.left_since H.goes_on host.old host.new) }
    ensures early { IfErr result (UnlessDiskFault (OnlyReads
        H.told H.counts H.moment H.left_since H.goes_on host.old host.new)) }
    ensures any_moment { IfSome (H.told host.old)
        (λ s. LeavesOnly H.moment H.left_since host.old host.new
        (AreLeft (IsSavedOrNot name.now config.now) s)) }
    ensures later { H.moment host.old ≤ H.moment host.new }
    ensures counts { DiskMayRise (H.counts host.old) (H.counts host.new) }
    ensures cause { IfErr result (Refuses (H.counts host.old) (H.counts host.new)) }
    ensures goes { H.goes_on host.old host.new }
{
    match save(alloc, host, name.as_str(), config) {
        Ok(()) => Ok(()),
        Err(PointError::Exists) => {
            let name = name.copy(alloc)?;
            Err(Outcome::CheckpointExists { name })
        }
        Err(PointError::Full) => Err(Outcome::SequenceFull),
        Err(PointError::Disk) => Err(Outcome::DiskFault { step: 0 }),
        Err(PointError::Memory) => Err(Outcome::Memory),
        Err(_) => unreachable!(),
    }
}
