//! `gcu check`: whether the stored configuration is valid by its models.
ghost use Rattle.std.specs.Prelude.{◌≤◌};
ghost use Rattle.host_core.specs.Names.{longest_plain_name};
ghost use Rattle.gcu_requests.specs.Checking.{check_asked};
ghost use Rattle.command_answers.specs.Frames.{Does, FindsText};

use command_answers::answer_query;
use gcu_output::Outcome;
use gcu_requests::judge_stored;
use host_core::Host;
use std::alloc::Global;

/// Says whether the stored configuration is valid, or where it isn't.
pub fn check<H: Host>(alloc: Global, host: &mut H) -> Outcome
    requires { longest_plain_name ≤ H.longest_name }
    ensures { Does H.Host check_asked host.old host.new result }
{
    let found = judge_folder(alloc, host);
    answer_query(alloc, found, host)
}

/// No text, where the stored configuration is valid.
fn judge_folder<H: Host>(alloc: Global, host: &mut H) -> Result<Vec<u8>, Outcome>
    requires { longest_plain_name ≤ H.longest_name }
    ensures { FindsText H.Host check_asked host.old host.new result }
{
    judge_stored(alloc, host)?;
    Ok(Vec::new(alloc))
}
