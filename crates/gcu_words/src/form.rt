//! Which words are a command.
ghost use Rattle.std.specs.Prelude.{◌≡◌, ◌∷◌, [], Some};
ghost use Rattle.gcu_words.specs.Targets.{resumed as resume_target};
ghost use Rattle.gcu_words.specs.Views.{options_view};
ghost use Rattle.gcu_words.specs.Form.{change as change_of, form, form_of_check, form_of_demo, form_of_interruption, form_of_more, form_of_one, form_of_plan, form_of_resume, form_of_two, planned};
ghost use Rattle.gcu_words.specs.FormView.{form_view, task_view, HasItsOptions};
ghost use Rattle.gcu_words.specs.Tasks.{reach};

use crate::reading::{read_budget_option, read_options};
use crate::sizes::read_demo;
use crate::targets::is_positional;
use crate::tasks::{Task, read_task};
use crate::{DEFAULT_BUDGET, Demo, Options, Source, Target};
use host_core::Txt;

/// A command with its words.
#[derive(Drop)]
pub enum Form<'a> {
    /// The words are no command.
    Unknown,
    /// Prints the stored configuration as the patch of this input would leave it.
    Preview { patch: &'a Txt },
    /// Says whether the stored configuration is valid.
    Check,
    /// Prints the names of all checkpoints.
    ListCheckpoints,
    /// Rewrites the files of the old format.
    MigrateCheckpoints,
    /// Saves the stored configuration as the checkpoint of this name.
    SaveCheckpoint { name: &'a Txt },
    /// Deletes the checkpoint of this name.
    DeleteCheckpoint { name: &'a Txt },
    /// Prints what a task would do.
    Plan { task: Task<'a>, options: Options },
    /// Does a task.
    Change { task: Task<'a>, options: Options },
    /// Says whether a change was stopped, and how far it is.
    Status,
    /// Gives up a change that was stopped.
    Abandon,
    /// Counts the steps of a plan between generated configurations.
    Demo { size: Demo },
    /// Says whether an input holds a plan for the patch of another one.
    CheckPlan { patch: &'a Txt, plan: &'a Txt },
}

/// The command that the words are.
pub fn read_form(words: &[Txt]) -> Form<'_>
    ensures form { form_view result ≡ form words.now }
    ensures options { HasItsOptions result }
{
    match words {
        [command] => form_of_one(command),
        [command, word] => form_of_two(command, word),
        [command, word, more @ ..] => form_of_more(command, word, more),
        [] => Form::Unknown,
    }
}

/// The command that a word is.
pub(crate) fn form_of_one(command: &Txt) -> Form<'_>
    ensures form { form_view result ≡ form_of_one command.now }
    ensures options { HasItsOptions result }
{
    if command.as_str() == "check" {
        return Form::Check;
    }
    if command.as_str() == "list-checkpoints" {
        return Form::ListCheckpoints;
    }
    if command.as_str() == "migrate-checkpoints" {
        return Form::MigrateCheckpoints;
    }
    form_of_interruption(command)
}

/// The command that a word is which has to do with a change that was stopped.
fn form_of_interruption(command: &Txt) -> Form<'_>
    ensures form { form_view result ≡ form_of_interruption command.now }
    ensures options { HasItsOptions result }
{
    if command.as_str() == "status" {
        return Form::Status;
    }
    if command.as_str() == "resume" {
        let options = Options {
            dry_run: false,
            budget: DEFAULT_BUDGET,
        };
        return resumed(command, options);
    }
    if command.as_str() == "abandon" {
        return Form::Abandon;
    }
    Form::Unknown
}

/// A change that was stopped is to be finished, and not only printed.
pub(crate) fn resumed(command: &Txt, options: Options) -> Form<'_>
    ensures form { form_view result ≡ Some (change_of (reach resume_target) options.budget) }
    ensures options { HasItsOptions result }
{
    let target = Target {
        source: Source::Intent,
        word: command,
    };
    let options = Options {
        dry_run: false,
        budget: options.budget,
    };
    let task = Task::Reach { target };
    Form::Change { task, options }
}

/// The same with the options that words are.
fn form_of_resume<'a>(command: &'a Txt, word: &Txt, words: &[Txt]) -> Form<'a>
    ensures form { form_view result ≡ form_of_resume (word.now ∷ words.now) }
    ensures options { HasItsOptions result }
{
    match words {
        [digits] => match read_budget_option(word, digits) {
            Some(options) => resumed(command, options),
            None => Form::Unknown,
        },
        _ => Form::Unknown,
    }
}

/// The command that two words are.
fn form_of_two<'a>(command: &'a Txt, word: &'a Txt) -> Form<'a>
    ensures form { form_view result ≡ form_of_two command.now word.now }
    ensures options { HasItsOptions result }
{
    let name = command.as_str();
    if name == "preview" && is_positional(word) {
        return Form::Preview { patch: word };
    }
    if name == "checkpoint" && is_positional(word) {
        return Form::SaveCheckpoint { name: word };
    }
    if name == "delete-checkpoint" && is_positional(word) {
        return Form::DeleteCheckpoint { name: word };
    }
    form_of_plan(command, word, &[])
}

/// The command that a word, a second one and more are.
fn form_of_more<'a>(command: &'a Txt, word: &'a Txt, words: &'a [Txt]) -> Form<'a>
    ensures form { form_view result ≡ form_of_more command.now word.now words.now }
    ensures options { HasItsOptions result }
{
    if command.as_str() == "demo" {
        return form_of_demo(word, words);
    }
    if command.as_str() == "resume" {
        return form_of_resume(command, word, words);
    }
    if command.as_str() == "check-plan" {
        return form_of_check(word, words);
    }
    form_of_plan(command, word, words)
}

/// The demonstration that a seed and a number of ports are.
fn form_of_demo<'a>(seed: &Txt, words: &[Txt]) -> Form<'a>
    ensures form { form_view result ≡ form_of_demo seed.now words.now }
    ensures options { HasItsOptions result }
{
    match words {
        [ports] => match read_demo(seed, ports) {
            Some(size) => Form::Demo { size },
            None => Form::Unknown,
        },
        _ => Form::Unknown,
    }
}

/// The check of a plan that the path of a patch and that of the plan are.
fn form_of_check<'a>(patch: &'a Txt, words: &'a [Txt]) -> Form<'a>
    ensures form { form_view result ≡ form_of_check patch.now words.now }
    ensures options { HasItsOptions result }
{
    match words {
        [plan] => check_of_two(patch, plan),
        _ => Form::Unknown,
    }
}

/// The check of a plan, where both words are paths.
fn check_of_two<'a>(patch: &'a Txt, plan: &'a Txt) -> Form<'a>
    ensures form { form_view result ≡ form_of_check patch.now (plan.now ∷ []) }
    ensures options { HasItsOptions result }
{
    if is_positional(patch) && is_positional(plan) {
        return Form::CheckPlan { patch, plan };
    }
    Form::Unknown
}

/// The command that a word, a second one and options are.
fn form_of_plan<'a>(command: &Txt, word: &'a Txt, words: &[Txt]) -> Form<'a>
    ensures form { form_view result ≡ form_of_plan command.now word.now words.now }
    ensures options { HasItsOptions result }
{
    match (read_task(command, word), read_options(words)) {
        (Some(task), Some(options)) => planned(task, options),
        _ => Form::Unknown,
    }
}

/// What a task would do is only printed, or it is done.
fn planned(task: Task<'_>, options: Options) -> Form<'_>
    ensures form { form_view result ≡ Some (planned (task_view task.entry) (options_view options)) }
    ensures options { HasItsOptions result }
{
    if options.dry_run {
        return Form::Plan { task, options };
    }
    Form::Change { task, options }
}
