//! `gcu status`: whether a change was stopped, and how far it got.
ghost use Rattle.std.specs.Prelude.{◌≤◌};
ghost use Rattle.host_core.specs.Names.{longest_plain_name};
ghost use Rattle.gcu_requests.specs.InterruptionAsked.{status_asked};
ghost use Rattle.command_answers.specs.Frames.{Does, FindsText};

use command_answers::answer_query;
use gcu_output::{Outcome, status_text};
use gcu_requests::read_status;
use host_core::Host;
use std::alloc::Global;

/// Prints what `intent` is, and how many step files are applied in what the folder stands for.
pub fn status<H: Host>(alloc: Global, host: &mut H) -> Outcome
    requires { longest_plain_name ≤ H.longest_name }
    ensures { Does H.Host status_asked host.old host.new result }
{
    let found = find_status(alloc, host);
    answer_query(alloc, found, host)
}

/// Both, a line each.
fn find_status<H: Host>(alloc: Global, host: &mut H) -> Result<Vec<u8>, Outcome>
    requires { longest_plain_name ≤ H.longest_name }
    ensures { FindsText H.Host status_asked host.old host.new result }
{
    let status = read_status(alloc, host)?;
    let text = status_text(alloc, status.intent, status.steps)?;
    Ok(text)
}
