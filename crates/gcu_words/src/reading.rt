//! Which words are options: each at most once, in either order.
ghost use Rattle.std.specs.Prelude.{◌≡◌, ◌∷◌, [], option_map};
ghost use Rattle.gcu_words.specs.Options.{budget_word, dry_run_word, options, with_budget};
ghost use Rattle.gcu_words.specs.Views.{options_view};
ghost use Rattle.gcu_words.specs.Words.{is_word};

use crate::Options;
use crate::budgets::read_budget;
use host_core::Txt;

/// How many configurations a search may meet where no budget is given.
pub const DEFAULT_BUDGET: u32 = 2_000;

/// The options that words are, or None where they are none.
pub(crate) fn read_options(words: &[Txt]) -> Option<Options>
    ensures { option_map options_view result ≡ options words.now }
{
    match words {
        [] => Some(Options {
            dry_run: false,
            budget: DEFAULT_BUDGET,
        }),
        [a] => options_of_one(a),
        [a, b] => read_budget_option(a, b),
        [a, b, c] => options_of_three(a, b, c),
        _ => None,
    }
}

/// The options that a word is.
fn options_of_one(a: &Txt) -> Option<Options>
    ensures { option_map options_view result ≡ options (a.now ∷ []) }
{
    if is_dry_run(a) {
        return Some(Options {
            dry_run: true,
            budget: DEFAULT_BUDGET,
        });
    }
    None
}

/// The options that two words are: they can only be `--budget` and a number.
pub(crate) fn read_budget_option(a: &Txt, b: &Txt) -> Option<Options>
    ensures { option_map options_view result ≡ options (a.now ∷ b.now ∷ []) }
{
    if is_budget(a) {
        return with_budget(false, b);
    }
    None
}

/// The options that three words are.
fn options_of_three(a: &Txt, b: &Txt, c: &Txt) -> Option<Options>
    ensures { option_map options_view result ≡ options (a.now ∷ b.now ∷ c.now ∷ []) }
{
    if is_dry_run(a) && is_budget(b) {
        return with_budget(true, c);
    }
    if is_budget(a) && is_dry_run(c) {
        return with_budget(true, b);
    }
    None
}

fn is_dry_run(word: &Txt) -> bool
    ensures { result ≡ is_word word.now dry_run_word }
{
    word.as_str() == "--dry-run"
}

fn is_budget(word: &Txt) -> bool
    ensures { result ≡ is_word word.now budget_word }
{
    word.as_str() == "--budget"
}

/// Options with the budget in a word.
fn with_budget(dry_run: bool, word: &Txt) -> Option<Options>
    ensures { option_map options_view result ≡ with_budget dry_run word.now }
{
    match read_budget(word.as_str().as_bytes()) {
        Some(budget) => Some(Options { dry_run, budget }),
        None => None,
    }
}
