//! `gcu delete-checkpoint NAME`: one checkpoint less.
ghost use Rattle.std.specs.Prelude.{◌≡◌, ◌≤◌, true, IfErr, IfSome, None, OnOk};
ghost use Rattle.std.specs.FinMap.{get};
ghost use Rattle.host_core.specs.Counts.{DiskMayRise, NoneFell};
ghost use Rattle.host_core.specs.Crashes.{LeavesOnly};
ghost use Rattle.host_core.specs.Names.{longest_plain_name};
ghost use Rattle.conf_store.specs.Changes.{AreLeft, IsSettled, Settles};
ghost use Rattle.conf_store.specs.Reads.{OnlyReads};
ghost use Rattle.checkpoints.specs.Changes.{IsDeleted, IsDeletedOrNot};
ghost use Rattle.checkpoints.specs.Names.{is_good_name as is_name};
ghost use Rattle.checkpoints.specs.Points.{points};
ghost use Rattle.gcu_output.specs.Printing.{outcome_of};
ghost use Rattle.gcu_output.specs.declared.outcomes.Outcome.TheVariants.{Usage as usage};
ghost use Rattle.gcu_inputs.specs.Preparing.{Finds, Refuses};
ghost use Rattle.gcu_requests.specs.Asked.{delete_asked, there_asked};
ghost use Rattle.gcu_requests.specs.Request.{delete_checkpoint as deletion_of};
ghost use Rattle.command_answers.specs.Answers.{HasCause, IsRefusal};
ghost use Rattle.command_answers.specs.Commands.{AnswersTo, CompleteTo, IsReady, LeavesRefused, LeftTo, LeftUnwritten, UnlessDiskFault};
ghost use Rattle.writing_commands.specs.Doing.{IsKeptOrSettled, SettlesWriting};

use checkpoints::{PointError, delete, is_good_name};
use gcu_inputs::test_uninterrupted;
use gcu_output::{Outcome, PointWhy, tell};
use host_core::{Host, Txt};
use std::alloc::Global;

/// Deletes a checkpoint, whatever it holds. Once it is deleted no memory is asked for.
pub fn delete_checkpoint<H: Host>(alloc: Global, name: &Txt, host: &mut H) -> Outcome
    requires { longest_plain_name ≤ H.longest_name }
    ensures answers { AnswersTo (delete_asked name.now)
        (H.told host.old) (H.told host.new) (H.counts host.old) (H.counts host.new) result }
    ensures cause { HasCause (H.counts host.old) (H.counts host.new) result }
    ensures counts { NoneFell (H.counts host.old) (H.counts host.new) }
    ensures crash { LeavesOnly H.moment H.left_since host.old host.new
        (LeftTo (delete_asked name.now) (H.told host.old)) }
    // After a refusal, want of memory too, nothing was written before.
    ensures early { IsRefusal result → LeavesOnly H.moment H.left_since host.old host.new
        (LeftUnwritten (H.told host.old)) }
    // What is pending is settled before anything is written.
    ensures settles { SettlesWriting H.moment H.left_since host.old host.new (H.told host.old)
        (LeftTo (delete_asked name.now)) }
    ensures goes { H.goes_on host.old host.new }
    ensures form { result ≡ usage → ⊥ }
    ensures complete { CompleteTo (delete_asked name.now)
        (H.told host.old) (H.counts host.old) (H.counts host.new) result }
{
    let done = remove_checkpoint(alloc, name, host);
    tell(alloc, done, host)
}

/// Settles what is pending, and deletes the checkpoint, where no change was stopped before its end.
fn remove_checkpoint<H: Host>(alloc: Global, name: &Txt, host: &mut H) -> Result<(), Outcome>
    requires { longest_plain_name ≤ H.longest_name }
    ensures left { IsReady (delete_asked name.now)
        (H.told host.old) (H.told host.new) (outcome_of result) }
    ensures counts { DiskMayRise (H.counts host.old) (H.counts host.new) }
    ensures cause { IfErr result (Refuses (H.counts host.old) (H.counts host.new)) }
    ensures crash { LeavesOnly H.moment H.left_since host.old host.new
        (LeftTo (delete_asked name.now) (H.told host.old)) }
    ensures early { IfErr result (UnlessDiskFault (LeavesOnly
        H.moment H.left_since host.old host.new (LeftUnwritten (H.told host.old)))) }
    ensures settles { IsKeptOrSettled H.moment H.left_since host.old host.new
        (H.told host.old) (H.told host.new) (delete_asked name.now) (outcome_of result) }
    ensures goes { H.goes_on host.old host.new }
{
    if !is_good_name(name.as_str()) {
        let name = name.copy(alloc)?;
        return Err(Outcome::BadName { name });
    }
    match host.settle() {
        Ok(()) => {
            test_uninterrupted(alloc, host)?;
            delete_settled(alloc, name, host)
        }
        Err(_) => Err(Outcome::DiskFault { step: 0 }),
    }
}

/// Deletes the checkpoint, with nothing pending.
fn delete_settled<H: Host>(alloc: Global, name: &Txt, host: &mut H) -> Result<(), Outcome>
    requires longest { longest_plain_name ≤ H.longest_name }
    requires ready { IfSome (H.told host.old) IsSettled }
    requires named { is_name name.now ≡ true }
    ensures answer { Finds (H.told host.old) (λ _. deletion_of name.now) result
        (there_asked name.now) }
    ensures ok { OnOk result (Settles (IsDeleted name.now) (H.told host.old) (H.told host.new)) }
    ensures err { IfErr result
        (LeavesRefused (IsDeletedOrNot name.now) (H.told host.old) (H.told host.new)) }
    ensures only_reads { IfSome (H.told host.old) (λ s. get (points s.files) name.now ≡ None
        → OnlyReads H.told H.counts H.moment H.left_since H.goes_on host.old host.new) }
    ensures early { IfErr result (UnlessDiskFault (OnlyReads
        H.told H.counts H.moment H.left_since H.goes_on host.old host.new)) }
    ensures any_moment { IfSome (H.told host.old)
        (λ s. LeavesOnly H.moment H.left_since host.old host.new
        (AreLeft (IsDeletedOrNot name.now) s)) }
    ensures later { H.moment host.old ≤ H.moment host.new }
    ensures counts { DiskMayRise (H.counts host.old) (H.counts host.new) }
    ensures cause { IfErr result (Refuses (H.counts host.old) (H.counts host.new)) }
    ensures goes { H.goes_on host.old host.new }
{
    match delete(alloc, host, name.as_str()) {
        Ok(()) => Ok(()),
        Err(PointError::Absent) => {
            let name = name.copy(alloc)?;
            Err(Outcome::NoCheckpoint {
                name,
                why: PointWhy::Absent,
            })
        }
        Err(PointError::Disk) => Err(Outcome::DiskFault { step: 0 }),
        Err(PointError::Memory) => Err(Outcome::Memory),
        Err(_) => unreachable!(),
    }
}
