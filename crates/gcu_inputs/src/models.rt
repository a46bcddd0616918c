//! The models of the folder's configuration.
ghost use Rattle.std.specs.Prelude.{◌≤◌, IfErr, length};
ghost use Rattle.gcu_inputs.specs.ModelList.{most_files};
ghost use Rattle.gcu_inputs.specs.ModelFiles.{AreModels, AreSmall, models_asked};
ghost use Rattle.gcu_inputs.specs.Preparing.{Finds, IsRightBy, Refuses, RefusesAlways};
ghost use Rattle.gcu_inputs.specs.Reads.{ReadsInputs};

use crate::model_files::{Texts, input_texts};
use gcu_output::Outcome;
use host_core::Host;
use std::alloc::Global;
use yang_model::{ModelError, Models, compile};

/// The models that `models.list` and the files which it names have.
pub fn input_models<H: Host>(alloc: Global, host: &mut H) -> Result<Models, Outcome>
    ensures answer { Finds (H.told host.old) (λ models. models) result models_asked }
    ensures reads { ReadsInputs H.told H.counts H.moment H.left_since H.goes_on host.old host.new }
    ensures cause { IfErr result (Refuses (H.counts host.old) (H.counts host.new)) }
{
    let texts = input_texts(alloc, host)?;
    models_of(alloc, &texts)
}

/// The models of some texts.
fn models_of(alloc: Global, texts: &Texts) -> Result<Models, Outcome>
    requires few { length texts.now ≤ most_files }
    requires small { AreSmall texts.now }
    ensures answer { IsRightBy (λ models. models) result (AreModels texts.now) }
    ensures cause { IfErr result RefusesAlways }
{
    match compile(alloc, texts.items()) {
        Ok(models) => Ok(models),
        Err(ModelError::Fault { file, line, why }) => {
            let (path, _) = texts.at(file as usize);
            Err(Outcome::BadModels {
                file: path.copy(alloc)?,
                line,
                why,
            })
        }
        Err(ModelError::Memory) => Err(Outcome::Memory),
    }
}
