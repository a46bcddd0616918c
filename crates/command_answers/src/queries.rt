//! How a command is answered that changes nothing.
ghost use Rattle.command_answers.specs.Frames.{TellsFound};

use gcu_output::{Outcome, say, show_text};
use host_core::Host;
use std::alloc::Global;

/// Prints what a command has found and the last line of Done, or that of what is refused, and answers it.
pub fn answer_query<H: Host>(
    alloc: Global,
    found: Result<Vec<u8>, Outcome>,
    host: &mut H,
) -> Outcome
    ensures { TellsFound H.Host found host.old host.new result }
{
    match found {
        Ok(text) => show_text(text, host),
        Err(outcome) => say(alloc, outcome, host),
    }
}
