//! Which words are a change of several scopes.
ghost use Rattle.std.specs.Prelude.{◌≡◌, ◌∷◌, option_map};
ghost use Rattle.gcu_words.specs.Options.{options as options_of};
ghost use Rattle.gcu_words.specs.ScopesForm.{scopes_form as scopes_of, scopes_given, scopes_view};

use crate::Options;
use crate::reading::read_options;
use crate::targets::is_positional;
use host_core::Txt;

/// A change of several scopes.
#[derive(Drop)]
pub struct ScopesForm<'a> {
    /// The input of the patch.
    pub patch: &'a Txt,
    pub options: Options,
}

/// The change of several scopes that the words are, where they are one.
pub fn read_scopes_form(words: &[Txt]) -> Option<ScopesForm<'_>>
    ensures { option_map scopes_view result ≡ scopes_of words.now }
{
    match words {
        [command, patch, more @ ..] => form_of_scopes(command, patch, more),
        _ => None,
    }
}

/// The same of a command, a path and options.
fn form_of_scopes<'a>(command: &Txt, patch: &'a Txt, words: &[Txt]) -> Option<ScopesForm<'a>>
    ensures { option_map scopes_view result ≡ scopes_of (command.now ∷ patch.now ∷ words.now) }
{
    if command.as_str() == "apply-scopes" && is_positional(patch) {
        return with_options(patch, words);
    }
    None
}

/// The same of a path and options.
fn with_options<'a>(patch: &'a Txt, words: &[Txt]) -> Option<ScopesForm<'a>>
    ensures { option_map scopes_view result ≡ scopes_given patch.now (options_of words.now) }
{
    let options = read_options(words)?;
    Some(ScopesForm { patch, options })
}
