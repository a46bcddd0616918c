//! One command over a folder, its answer and its output.
ghost use Rattle.std.specs.Prelude.{◌≡◌, ◌≤◌, ℕ, List, IfSome, None};
ghost use Rattle.host_core.specs.Counts.{NoneFell, NoneRose, PrintMayRise};
ghost use Rattle.host_core.specs.Crashes.{Elapses, LeavesOnly};
ghost use Rattle.host_core.specs.Names.{longest_plain_name};
ghost use Rattle.gcu_output.specs.Lines.{last_line};
ghost use Rattle.gcu_output.specs.Printing.{IsSaid, LeftInText};
ghost use Rattle.gcu_output.specs.declared.outcomes.Outcome.TheVariants.{Usage as usage};
ghost use Rattle.gcu_words.specs.Form.{form};
ghost use Rattle.gcu_words.specs.FormView.{form_view};
ghost use Rattle.gcu_requests.specs.Asked.{asked};
ghost use Rattle.command_answers.specs.Answers.{Answers, Complete, HasCause, IsRefusal, TellsUsage};
ghost use Rattle.command_answers.specs.Commands.{LeftUnwritten};
ghost use Rattle.command_answers.specs.Crashes.{LeftMeanwhile};
ghost use Rattle.gcu_engine.specs.Resuming.{IsStoppedIn, Resumes};
ghost use Rattle.gcu_engine.specs.Settling.{SettlesTasks, SettlesWrites};

use crate::Outcome;
use gcu_output::{say, show};
use gcu_requests::{asked_has_one_answer, preview};
use gcu_words::Form;
use host_core::Host;
use move_core::{Boxes, Kit, listed_moves_have_models};
use reading_commands::{check, check_plan, demo, dry_run, list_checkpoints, status};
use std::alloc::Global;
use writing_commands::{abandon, change, delete_checkpoint, migrate_checkpoints, save_checkpoint};

/// Does a command, and prints its answer. Its clauses are those of `run`, for all words that are this command:
/// the folder is that of the host, be it the whole one or what a scope shows of it.
pub(crate) fn run_form<H: Host>(
    alloc: Global,
    command: Form<'_>,
    kit: &mut Kit,
    host: &mut H,
) -> Outcome
    requires longest { longest_plain_name ≤ H.longest_name }
    requires kinds { ⟦<Kit as Boxes>⟧.HasKinds kit.old }
    ensures kinds { ⟦<Kit as Boxes>⟧.HasKinds kit.new }
    ensures answers { (words : List (List ℕ)) → form words ≡ form_view command.entry
        → Answers words
        (H.told host.old) (H.told host.new) (H.counts host.old) (H.counts host.new) result }
    ensures cause { HasCause (H.counts host.old) (H.counts host.new) result }
    ensures counts { NoneFell (H.counts host.old) (H.counts host.new) }
    ensures crash { (words : List (List ℕ)) → form words ≡ form_view command.entry
        → LeavesOnly H.moment H.left_since host.old host.new
        (LeftMeanwhile words (H.told host.old)) }
    ensures early { (words : List (List ℕ)) → form words ≡ form_view command.entry
        → IsRefusal result → LeavesOnly H.moment H.left_since host.old host.new
        (LeftUnwritten (H.told host.old)) }
    ensures settles { (words : List (List ℕ)) → form words ≡ form_view command.entry
        → IfSome (H.told host.old)
        (λ s. SettlesTasks words s (H.left_since host.old (H.moment host.old))
        (H.left_since host.new (H.moment host.old))) }
    ensures settles_writes { (words : List (List ℕ)) → form words ≡ form_view command.entry
        → IfSome (H.told host.old)
        (λ s. SettlesWrites words s (H.left_since host.old (H.moment host.old))
        (H.left_since host.new (H.moment host.old))) }
    ensures goes { H.goes_on host.old host.new }
    ensures usage { result ≡ usage → form_view command.entry ≡ None }
    ensures only_usage { form_view command.entry ≡ None → TellsUsage result }
    ensures complete { (words : List (List ℕ)) → form words ≡ form_view command.entry
        → IfSome (H.told host.old)
        (λ s. NoneRose (H.counts host.old) (H.counts host.new)
        → Complete (asked words s) result) }
    ensures resumes { (words : List (List ℕ)) → form words ≡ form_view command.entry
        → IfSome (H.told host.old)
        (λ s. NoneRose (H.counts host.old) (H.counts host.new)
        → IsStoppedIn s → Resumes words result) }
{
    asked_has_one_answer();
    listed_moves_have_models();
    match command {
        Form::Unknown => refuse_words(alloc, host),
        Form::Preview { patch } => match preview(alloc, patch, host) {
            Ok(tree) => show(alloc, &tree, host),
            Err(outcome) => say(alloc, outcome, host),
        },
        Form::Check => check(alloc, host),
        Form::ListCheckpoints => list_checkpoints(alloc, host),
        Form::MigrateCheckpoints => migrate_checkpoints(alloc, host),
        Form::SaveCheckpoint { name } => save_checkpoint(alloc, name, host),
        Form::DeleteCheckpoint { name } => delete_checkpoint(alloc, name, host),
        Form::Plan { task, options } => dry_run(alloc, task, options.budget, kit, host),
        Form::Change { task, options } => change(alloc, task, options.budget, kit, host),
        Form::Status => status(alloc, host),
        Form::Abandon => abandon(alloc, host),
        Form::Demo { size } => demo(alloc, size, kit, host),
        Form::CheckPlan { patch, plan } => check_plan(alloc, patch, plan, host),
    }
}

/// Refuses words that are no command.
fn refuse_words<H: Host>(alloc: Global, host: &mut H) -> Outcome
    ensures said { IsSaid usage (last_line usage)
        (H.told host.old) (H.told host.new) (H.counts host.old) (H.counts host.new) result }
    ensures counts { PrintMayRise (H.counts host.old) (H.counts host.new) }
    ensures time { Elapses H.moment H.left_since host.old host.new
        (LeftInText (last_line usage) (H.told host.old)) }
    ensures goes { H.goes_on host.old host.new }
{
    say(alloc, Outcome::Usage, host)
}
