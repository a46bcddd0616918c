//! Whether the stored configuration is valid by its models, and where it isn't.
ghost use Rattle.std.specs.Prelude.{◌≤◌, IfErr, IfOk, Ok};
ghost use Rattle.host_core.specs.Names.{longest_plain_name};
ghost use Rattle.gcu_inputs.specs.Preparing.{Finds, IsRightBy, Refuses, RefusesAlways};
ghost use Rattle.gcu_inputs.specs.Reads.{OnlyReads};
ghost use Rattle.gcu_inputs.specs.StoredAsked.{stored_asked};
ghost use Rattle.gcu_requests.specs.Checking.{IsJudged, check_asked, judging_asked};
ghost use Rattle.gcu_requests.specs.Request.{check as check_of};

use crate::judging::{End, invalid};
use conf_check::check as check_config;
use conf_doc::Config;
use gcu_inputs::{input_models, read_config, test_uninterrupted};
use gcu_output::Outcome;
use host_core::Host;
use std::alloc::Global;
use yang_model::Models;

/// The stored configuration, where it is valid and no change was stopped before its end.
pub fn judge_stored<H: Host>(alloc: Global, host: &mut H) -> Result<Config, Outcome>
    requires { longest_plain_name ≤ H.longest_name }
    ensures answer { Finds (H.told host.old) (λ _. check_of) result check_asked }
    ensures stored { IfOk result (λ c. Finds (H.told host.old) (λ _. c) (Ok c) stored_asked) }
    ensures reads { OnlyReads H.told H.counts H.moment H.left_since H.goes_on host.old host.new }
    ensures cause { IfErr result (Refuses (H.counts host.old) (H.counts host.new)) }
{
    test_uninterrupted(alloc, host)?;
    judge_folder(alloc, host)
}

/// The same, where no change was stopped before its end.
fn judge_folder<H: Host>(alloc: Global, host: &mut H) -> Result<Config, Outcome>
    requires { longest_plain_name ≤ H.longest_name }
    ensures answer { Finds (H.told host.old) (λ _. check_of) result judging_asked }
    ensures stored { IfOk result (λ c. Finds (H.told host.old) (λ _. c) (Ok c) stored_asked) }
    ensures reads { OnlyReads H.told H.counts H.moment H.left_since H.goes_on host.old host.new }
    ensures cause { IfErr result (Refuses (H.counts host.old) (H.counts host.new)) }
{
    let models = input_models(alloc, host)?;
    let config = read_config(alloc, host)?;
    judge(alloc, &models, &config)?;
    Ok(config)
}

/// Ok where a configuration is valid.
fn judge(alloc: Global, models: &Models, config: &Config) -> Result<(), Outcome>
    ensures answer { IsRightBy (λ _. check_of) result (IsJudged models.now config.now) }
    ensures cause { IfErr result RefusesAlways }
{
    match check_config(models, config) {
        Ok(()) => Ok(()),
        Err(violation) => Err(invalid(alloc, End::Start, models, config, &violation)),
    }
}
