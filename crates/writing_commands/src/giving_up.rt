//! `gcu abandon`: a change that was stopped is given up.
ghost use Rattle.std.specs.Prelude.{◌≡◌, ◌≤◌, IfErr, IfSome, OnOk};
ghost use Rattle.host_core.specs.Counts.{DiskMayRise, NoneFell};
ghost use Rattle.host_core.specs.Crashes.{LeavesOnly};
ghost use Rattle.host_core.specs.Names.{longest_plain_name};
ghost use Rattle.host_core.specs.State.{CanMove};
ghost use Rattle.conf_store.specs.Changes.{AreLeft, Settles};
ghost use Rattle.conf_store.specs.Files.{intent_file};
ghost use Rattle.change_apply.specs.Intents.{IsClosed, IsClosedOrNot};
ghost use Rattle.gcu_output.specs.Printing.{outcome_of};
ghost use Rattle.gcu_output.specs.declared.outcomes.Outcome.TheVariants.{DiskFault as disk_fault, Usage as usage};
ghost use Rattle.gcu_inputs.specs.Preparing.{Refuses};
ghost use Rattle.gcu_requests.specs.InterruptionAsked.{abandon_asked};
ghost use Rattle.command_answers.specs.Answers.{HasCause, IsRefusal};
ghost use Rattle.command_answers.specs.Commands.{AnswersTo, CompleteTo, IsReady, LeavesRefused, LeftTo, LeftUnwritten, UnlessDiskFault};
ghost use Rattle.writing_commands.specs.Doing.{IsKeptOrSettled, SettlesWriting};

use change_apply::close;
use gcu_inputs::test_interrupted;
use gcu_output::{Outcome, tell};
use host_core::Host;
use std::alloc::Global;

/// Removes `intent`. What the folder stands for stays as it is.
pub fn abandon<H: Host>(alloc: Global, host: &mut H) -> Outcome
    requires { longest_plain_name ≤ H.longest_name }
    ensures answers { AnswersTo abandon_asked
        (H.told host.old) (H.told host.new) (H.counts host.old) (H.counts host.new) result }
    ensures cause { HasCause (H.counts host.old) (H.counts host.new) result }
    ensures counts { NoneFell (H.counts host.old) (H.counts host.new) }
    ensures crash { LeavesOnly H.moment H.left_since host.old host.new
        (LeftTo abandon_asked (H.told host.old)) }
    // After a refusal, want of memory too, nothing was written before.
    ensures early { IsRefusal result → LeavesOnly H.moment H.left_since host.old host.new
        (LeftUnwritten (H.told host.old)) }
    // What is pending is settled before anything is written.
    ensures settles { SettlesWriting H.moment H.left_since host.old host.new (H.told host.old)
        (LeftTo abandon_asked) }
    ensures goes { H.goes_on host.old host.new }
    ensures form { result ≡ usage → ⊥ }
    ensures complete { CompleteTo abandon_asked
        (H.told host.old) (H.counts host.old) (H.counts host.new) result }
{
    let done = give_up(alloc, host);
    tell(alloc, done, host)
}

/// Settles what is pending, and removes `intent` where it is there.
fn give_up<H: Host>(alloc: Global, host: &mut H) -> Result<(), Outcome>
    requires { longest_plain_name ≤ H.longest_name }
    ensures left { IsReady abandon_asked
        (H.told host.old) (H.told host.new) (outcome_of result) }
    ensures counts { DiskMayRise (H.counts host.old) (H.counts host.new) }
    ensures cause { IfErr result (Refuses (H.counts host.old) (H.counts host.new)) }
    ensures crash { LeavesOnly H.moment H.left_since host.old host.new
        (LeftTo abandon_asked (H.told host.old)) }
    ensures early { IfErr result (UnlessDiskFault (LeavesOnly
        H.moment H.left_since host.old host.new (LeftUnwritten (H.told host.old)))) }
    ensures settles { IsKeptOrSettled H.moment H.left_since host.old host.new
        (H.told host.old) (H.told host.new) abandon_asked (outcome_of result) }
    ensures goes { H.goes_on host.old host.new }
{
    match host.settle() {
        Ok(()) => {
            test_interrupted(alloc, host)?;
            remove_intent(host)
        }
        Err(_) => Err(Outcome::DiskFault { step: 0 }),
    }
}

/// Removes `intent`, with nothing pending.
fn remove_intent<H: Host>(host: &mut H) -> Result<(), Outcome>
    requires longest { longest_plain_name ≤ H.longest_name }
    requires ready { IfSome (H.told host.old) (CanMove intent_file) }
    ensures ok { OnOk result (Settles IsClosed (H.told host.old) (H.told host.new)) }
    ensures err { IfErr result
        (LeavesRefused IsClosedOrNot (H.told host.old) (H.told host.new)) }
    ensures fault { IfErr result (λ e. e ≡ disk_fault 0) }
    ensures any_moment { IfSome (H.told host.old)
        (λ s. LeavesOnly H.moment H.left_since host.old host.new (AreLeft IsClosedOrNot s)) }
    ensures later { H.moment host.old ≤ H.moment host.new }
    ensures counts { DiskMayRise (H.counts host.old) (H.counts host.new) }
    ensures cause { IfErr result (Refuses (H.counts host.old) (H.counts host.new)) }
    ensures goes { H.goes_on host.old host.new }
{
    match close(host) {
        Ok(()) => Ok(()),
        Err(_) => Err(Outcome::DiskFault { step: 0 }),
    }
}
