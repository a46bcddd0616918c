//! What is told of a folder: what the file `intent` is, and how many step files are applied.
ghost use Rattle.std.specs.Prelude.{◌≡◌, IfOk, string_bytes};
ghost use Rattle.gcu_output.specs.Statuses.{intent_word as word_of_intent, status_lines as lines_of_status, status_text as text_of_status};

use host_core::Memory;
use std::alloc::{AllocError, Global};

/// What the file `intent` is.
#[derive(Clone, Copy, Debug, PartialEq, Eq)]
pub enum Intent {
    /// It isn't there.
    Absent,
    /// It holds a configuration.
    Whole,
    /// It holds none.
    Broken,
}

/// What `intent` is, and how many step files are applied, a line each.
pub fn status_text(alloc: Global, intent: Intent, steps: u32) -> Result<Vec<u8>, Memory>
    ensures { IfOk result (λ b. b.items ≡ text_of_status intent steps) }
{
    let lines = status_lines(alloc, intent_word(intent), steps)?;
    Ok(lines.into_bytes())
}

/// The same with that word.
#[tactic(auto, using(std::proofs::Common::append_assoc))]
fn status_lines(alloc: Global, word: &str, steps: u32) -> Result<String, AllocError>
    ensures { IfOk result (λ s. string_bytes s ≡ lines_of_status word.now steps) }
{
    format!(in alloc; "intent {word}\nsteps {steps}\n")
}

fn intent_word(intent: Intent) -> &'static str
    ensures { result.now ≡ word_of_intent intent }
{
    match intent {
        Intent::Absent => "none",
        Intent::Whole => "whole",
        Intent::Broken => "broken",
    }
}
