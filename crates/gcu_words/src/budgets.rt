//! The budget of a search, as a word.
ghost use Rattle.std.specs.Prelude.{◌≡◌, ◌<◌, ◌≤◌, IfSome};
ghost use Rattle.gcu_words.specs.Options.{budget_in, most_budget};

use crate::digits::number_within;

/// The greatest budget.
const MOST_BUDGET: u16 = 20_000;

/// The budget that digits write: it has no leading zero.
pub(crate) fn read_budget(digits: &[u8]) -> Option<u32>
    ensures budget { result ≡ budget_in digits.now }
    ensures some { IfSome result (λ n. 0 < n) }
    ensures most { IfSome result (λ n. n ≤ most_budget) }
{
    if digits.is_empty() || digits[0] == b'0' {
        return None;
    }
    number_within(digits, MOST_BUDGET)
}
