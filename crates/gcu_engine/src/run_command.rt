//! The whole of the program: one command, its answer and its output.
ghost use Rattle.std.specs.Prelude.{◌≡◌, ◌⊎◌, ◌≤◌, IfSome};
ghost use Rattle.host_core.specs.Counts.{NoneFell, NoneRose};
ghost use Rattle.host_core.specs.Crashes.{LeavesOnly};
ghost use Rattle.host_core.specs.Names.{longest_scoped_name};
ghost use Rattle.gcu_output.specs.declared.outcomes.Outcome.TheVariants.{Usage as usage};
ghost use Rattle.gcu_words.specs.ScopeForm.{IsNoCommand, IsUnscoped};
ghost use Rattle.gcu_requests.specs.Asked.{asked};
ghost use Rattle.command_answers.specs.Answers.{Answers, Complete, HasCause, TellsUsage};
ghost use Rattle.command_answers.specs.Crashes.{LeftMeanwhile};
ghost use Rattle.gcu_engine.specs.Headline.{IsHeadline};
ghost use Rattle.gcu_engine.specs.Intending.{KeepsIntent};
ghost use Rattle.gcu_engine.specs.Resuming.{IsStoppedIn, Resumes};
ghost use Rattle.gcu_engine.specs.Scoped.{RunsScoped};
ghost use Rattle.gcu_engine.specs.Settling.{SettlesTasks, SettlesWrites};

use crate::Outcome;
use crate::run_form::run_form;
use crate::scoped::run_scoped;
use gcu_words::{read_form, read_scope_form, read_scopes_form};
use host_core::{Host, Txt};
use move_core::{Boxes, Kit};
use scope_commands::apply_scopes;
use std::alloc::Global;

/// Does the command that the words are, and prints its answer. `preview PATCH` prints the stored
/// configuration as the patch would leave it, `check` says whether it is valid, `apply-patch PATCH` prints a
/// plan for the patch and does it, `replace FILE` one for the configuration in a file and `rollback NAME` one
/// for that of a checkpoint, and each of the three with `--dry-run` only prints it. `status` says whether a
/// change was stopped, `resume` finishes it, and `abandon` gives it up, and each of the three with `--scope`
/// does so over the files of one ASIC. `apply-scopes PATCH` prints a plan for each ASIC that the patch names
/// and then does these, and with `--dry-run` only prints them. `checkpoint NAME` saves the stored
/// configuration under a name, `list-checkpoints` prints the names of all checkpoints, `delete-checkpoint NAME`
/// deletes one, and `migrate-checkpoints` puts those of the old format anew. `demo SEED N` plans between two generated
/// configurations with `N` ports, and counts the steps. `check-plan PATCH PLAN` says whether the moves in an
/// input are a plan for the patch, and where they aren't. `sessions SCRIPT` prints what several operators are
/// told by a script, and does what they commit, or only prints it.
pub fn run<H: Host>(alloc: Global, words: &[Txt], kit: &mut Kit, host: &mut H) -> Outcome
    requires longest { longest_scoped_name ≤ H.longest_name }
    requires kinds { ⟦<Kit as Boxes>⟧.HasKinds kit.old }
    ensures kinds { ⟦<Kit as Boxes>⟧.HasKinds kit.new }
    // Of words that name no scope the answer is the first refusal, or what the command asks for, and nothing
    // changes but the output, a checkpoint that is saved or deleted, those that are put anew, `intent` that is
    // given up, and the steps of a plan, or what operators commit, where that is done.
    ensures answers { IsUnscoped words.now → Answers words.now
        (H.told host.old) (H.told host.new) (H.counts host.old) (H.counts host.new) result }
    // A fault is answered only where its count rose.
    ensures cause { HasCause (H.counts host.old) (H.counts host.new) result }
    ensures counts { NoneFell (H.counts host.old) (H.counts host.new) }
    // A crash at a moment of it leaves the folder as it was, or with the checkpoint that is saved, without the
    // one that is deleted or without `intent`, with a front of some output. Of a migration it leaves all
    // checkpoints and numbers, and of a change that is done the last acknowledged configuration or the next one.
    ensures crash { IsUnscoped words.now → LeavesOnly H.moment H.left_since host.old host.new
        (LeftMeanwhile words.now (H.told host.old)) }
    // What is printed of a plan is right, a crash leaves what is acknowledged or the next and whole
    // checkpoints, and a finished change stores its target.
    ensures headline { IsUnscoped words.now → IfSome (H.told host.old)
        (λ s. IsHeadline words.now s (H.told host.new) result
        (H.left_since host.new (H.moment host.old))) }
    // While a change is done `intent` holds its goal, unless nothing is written yet or all is.
    ensures intent { IsUnscoped words.now → IfSome (H.told host.old)
        (λ s. KeepsIntent words.now s (H.left_since host.new (H.moment host.old))) }
    // Where something is pending, a change settles it first: what a crash leaves that it couldn't have left before
    // is as with nothing pending.
    ensures settles { IsUnscoped words.now → IfSome (H.told host.old)
        (λ s. SettlesTasks words.now s (H.left_since host.old (H.moment host.old))
        (H.left_since host.new (H.moment host.old))) }
    // So do the commands that change checkpoints, and `abandon`.
    ensures settles_writes { IsUnscoped words.now → IfSome (H.told host.old)
        (λ s. SettlesWrites words.now s (H.left_since host.old (H.moment host.old))
        (H.left_since host.new (H.moment host.old))) }
    // What the host's calls keep is kept.
    ensures goes { H.goes_on host.old host.new }
    // The words alone tell whether they are a command.
    ensures usage { result ≡ usage → IsNoCommand words.now }
    ensures only_usage { IsNoCommand words.now → TellsUsage result }
    // Where nothing fails, memory alone may be wanting.
    ensures complete { IsUnscoped words.now → IfSome (H.told host.old)
        (λ s. NoneRose (H.counts host.old) (H.counts host.new)
        → Complete (asked words.now s) result) }
    // A change that was stopped is finished by `resume`, where nothing fails and memory and budget last.
    ensures resumes { IsUnscoped words.now → IfSome (H.told host.old)
        (λ s. NoneRose (H.counts host.old) (H.counts host.new)
        → IsStoppedIn s → Resumes words.now result) }
    // Of words that name a scope all this holds of the folder as the scope shows it, once what was pending is
    // settled and from the beginning where nothing was, and every file outside stays as it is. Of a change of several scopes the plans are printed, and
    // then done scope after scope but for a dry run.
    ensures scoped { IsUnscoped words.now ⊎ RunsScoped H.told H.counts H.moment H.left_since
        words.now host.old host.new result }
{
    match read_scope_form(words) {
        Some(scoped) => run_scoped(alloc, scoped, kit, host),
        None => match read_scopes_form(words) {
            Some(change) => apply_scopes(alloc, change, kit, host),
            None => run_form(alloc, read_form(words), kit, host),
        },
    }
}
