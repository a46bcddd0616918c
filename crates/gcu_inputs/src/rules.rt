//! By what the moves of a plan are judged: the models, and the rules file.
ghost use Rattle.std.specs.Prelude.{IfErr, IfOk};
ghost use Rattle.host_core.specs.Answers.{Gives};
ghost use Rattle.move_core.specs.Contexts.{IsNamed};
ghost use Rattle.move_core.specs.Named.{HasNames};
ghost use Rattle.move_core.specs.RulesFile.{rules};
ghost use Rattle.gcu_inputs.specs.Preparing.{Finds, Refuses, RefusesAlways, refusal};
ghost use Rattle.gcu_inputs.specs.Reads.{ReadsInputs};
ghost use Rattle.gcu_inputs.specs.RulesAsked.{ctx_asked, rules_answer, settings_asked};

use crate::inputs::input_bytes;
use crate::models::input_models;
use gcu_output::Outcome;
use host_core::{Host, Txt};
use move_core::{Ctx, RulesError, Settings, read_rules};
use std::alloc::Global;

/// How many bytes the rules file may have.
const RULES_LIMIT: u64 = 1_048_576;

/// The models that `models.list` names, and the settings in `rules.json`.
pub fn input_ctx<H: Host>(alloc: Global, host: &mut H) -> Result<Ctx, Outcome>
    ensures answer { Finds (H.told host.old) (λ ctx. ctx) result ctx_asked }
    ensures named { IfOk result IsNamed }
    ensures reads { ReadsInputs H.told H.counts H.moment H.left_since H.goes_on host.old host.new }
    ensures cause { IfErr result (Refuses (H.counts host.old) (H.counts host.new)) }
{
    let models = input_models(alloc, host)?;
    let settings = input_settings(alloc, host)?;
    Ok(Ctx { models, settings })
}

/// The settings in `rules.json`.
fn input_settings<H: Host>(alloc: Global, host: &mut H) -> Result<Settings, Outcome>
    ensures answer { Finds (H.told host.old) (λ settings. settings) result settings_asked }
    ensures named { IfOk result HasNames }
    ensures reads { ReadsInputs H.told H.counts H.moment H.left_since H.goes_on host.old host.new }
    ensures cause { IfErr result (Refuses (H.counts host.old) (H.counts host.new)) }
{
    let path = Txt::new(alloc, "rules.json")?;
    let bytes = input_bytes(alloc, &path, RULES_LIMIT, host)?;
    settings_in(alloc, &path, bytes.items())
}

/// The settings in the rules file that was found at a path.
fn settings_in(alloc: Global, path: &Txt, bytes: &[u8]) -> Result<Settings, Outcome>
    ensures answer { Gives (λ settings. settings) refusal result
        (rules_answer path.now (rules bytes.now)) }
    ensures named { IfOk result HasNames }
    ensures cause { IfErr result RefusesAlways }
{
    match read_rules(alloc, bytes) {
        Ok(settings) => Ok(settings),
        Err(RulesError::BadJson) => Err(Outcome::BadJson {
            path: path.copy(alloc)?,
        }),
        Err(RulesError::Bad { why }) => Err(Outcome::BadRules { why }),
        Err(RulesError::Memory) => Err(Outcome::Memory),
    }
}
