//! The first line of a plan.
ghost use Rattle.std.specs.Prelude.{◌≡◌, ◌≢◌, ◌<◌, ◌^◌, ℕ, IfOk, MatchOption};
ghost use Rattle.plan_texts.specs.Lines.{count_words};

use host_core::Memory;
use std::alloc::Global;
use std::str;

/// What stands before the count.
const PLAN: &str = "plan ";

/// The count that a line tells: `plan`, a space and a number without leading zeros.
pub(crate) fn read_count(alloc: Global, line: &[u8]) -> Result<Option<u32>, Memory>
    ensures { IfOk result (λ count.
        MatchOption count ((n : ℕ) → n < 2 ^ 32 → line.now ≢ count_words n)
        (λ n. (n < 2 ^ 32) × (line.now ≡ count_words n))) }
{
    match str::from_utf8(line) {
        Ok(text) => count_in(alloc, text),
        Err(_) => Ok(None),
    }
}

/// The same of a text.
fn count_in(alloc: Global, text: &str) -> Result<Option<u32>, Memory>
    ensures { IfOk result (λ count.
        MatchOption count ((n : ℕ) → n < 2 ^ 32 → text.now ≢ count_words n)
        (λ n. (n < 2 ^ 32) × (text.now ≡ count_words n))) }
{
    let Some(digits) = text.strip_prefix(PLAN) else {
        return Ok(None);
    };
    match digits.parse::<u32>() {
        Ok(count) => count_if_so(alloc, count, text),
        Err(_) => Ok(None),
    }
}

/// The count, where its line is that text.
fn count_if_so(alloc: Global, count: u32, text: &str) -> Result<Option<u32>, Memory>
    ensures { IfOk result (λ found.
        MatchOption found (text.now ≢ count_words count)
        (λ n. (n ≡ count) × (text.now ≡ count_words count))) }
{
    let line = format!(in alloc; "plan {count}")?;
    if line.as_str() == text {
        Ok(Some(count))
    } else {
        Ok(None)
    }
}
