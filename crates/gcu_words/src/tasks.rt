//! What a command does step by step.
ghost use Rattle.std.specs.Prelude.{◌≡◌, option_map};
ghost use Rattle.gcu_words.specs.FormView.{task_view};
ghost use Rattle.gcu_words.specs.Tasks.{task_of};

use crate::Target;
use crate::targets::{is_positional, read_target};
use host_core::Txt;

/// What a command does step by step.
#[derive(Clone, Copy)]
pub enum Task<'a> {
    /// A plan for the target.
    Reach { target: Target<'a> },
    /// What several operators do by the script of this input.
    RunScript { script: &'a Txt },
}

/// The task of a command and its word, where it is a command that has one.
pub(crate) fn read_task<'a>(command: &Txt, word: &'a Txt) -> Option<Task<'a>>
    ensures { option_map task_view result ≡ task_of command.now word.now }
{
    if command.as_str() == "sessions" && is_positional(word) {
        return Some(Task::RunScript { script: word });
    }
    match read_target(command, word) {
        Some(target) => Some(Task::Reach { target }),
        None => None,
    }
}
