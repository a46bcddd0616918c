//! Where the goal of a plan comes from.
ghost use Rattle.std.specs.Prelude.{◌≡◌, option_map};
ghost use Rattle.gcu_words.specs.Targets.{target_of};
ghost use Rattle.gcu_words.specs.Views.{target_view};
ghost use Rattle.gcu_words.specs.Words.{is_positional as is_not_option};

use host_core::Txt;

/// What a goal is made of.
#[derive(Clone, Copy)]
pub enum Source {
    /// A patch, of the stored configuration: the word is the path of its input.
    Patch,
    /// The configuration of an input: the word is its path.
    File,
    /// A checkpoint: the word is its name.
    Checkpoint,
    /// The goal of a change that was stopped: the word is the command's own and tells nothing more.
    Intent,
}

/// Where the goal of a plan comes from, with the word that tells it.
#[derive(Clone, Copy)]
pub struct Target<'a> {
    pub source: Source,
    pub word: &'a Txt,
}

/// The target of a command and its word, where it is a command that plans.
pub(crate) fn read_target<'a>(command: &Txt, word: &'a Txt) -> Option<Target<'a>>
    ensures { option_map target_view result ≡ target_of command.now word.now }
{
    if !is_positional(word) {
        return None;
    }
    let command = command.as_str();
    if command == "apply-patch" {
        let source = Source::Patch;
        return Some(Target { source, word });
    }
    if command == "replace" {
        let source = Source::File;
        return Some(Target { source, word });
    }
    if command == "rollback" {
        let source = Source::Checkpoint;
        return Some(Target { source, word });
    }
    None
}

/// Whether a word is no option.
pub(crate) fn is_positional(word: &Txt) -> bool
    ensures { result ≡ is_not_option word.now }
{
    !word.as_str().starts_with("--")
}
