//! The goal of `gcu apply-patch PATCH`: what the patch makes of the start.
ghost use Rattle.std.specs.Prelude.{IfErr};
ghost use Rattle.host_core.specs.Answers.{Gives};
ghost use Rattle.conf_doc.specs.Shaping.{shaping};
ghost use Rattle.conf_doc.specs.Trees.{document};
ghost use Rattle.patch_core.specs.Operation.{operations};
ghost use Rattle.gcu_words.specs.Targets.{patched};
ghost use Rattle.gcu_inputs.specs.PatchAsked.{target, target_shape};
ghost use Rattle.gcu_inputs.specs.Preparing.{Finds, Refuses, RefusesAlways, refusal};
ghost use Rattle.gcu_inputs.specs.Reads.{ReadsInputs};
ghost use Rattle.gcu_requests.specs.PlanAsked.{made_asked};

use conf_doc::{Config, ShapeError, Tree, config_of_tree, tree_of};
use gcu_inputs::input_patch;
use gcu_output::Outcome;
use host_core::{Host, Txt};
use patch_core::{ApplyError, Patch, apply_owned};
use std::alloc::Global;

/// What the patch in an input makes of the start.
pub(crate) fn patch_goal<H: Host>(
    alloc: Global,
    path: &Txt,
    start: &Config,
    host: &mut H,
) -> Result<Config, Outcome>
    ensures answer { Finds (H.told host.old) (λ c. c) result
        (made_asked (patched path.now) start.now) }
    ensures reads { ReadsInputs H.told H.counts H.moment H.left_since H.goes_on host.old host.new }
    ensures cause { IfErr result (Refuses (H.counts host.old) (H.counts host.new)) }
{
    let patch = input_patch(alloc, path, host)?;
    patch_start(alloc, &patch, start)
}

/// The configuration after the patch.
pub(crate) fn patch_start(alloc: Global, patch: &Patch, start: &Config) -> Result<Config, Outcome>
    ensures answer { Gives (λ c. c) refusal result (target (operations patch.now) start.now) }
    ensures cause { IfErr result RefusesAlways }
{
    let tree = tree_of(alloc, start)?;
    match apply_owned(alloc, patch, tree) {
        Ok(tree) => shaped(alloc, tree),
        Err(ApplyError::Failed { index, why }) => Err(Outcome::PatchFailed { index, why }),
        Err(ApplyError::Memory) => Err(Outcome::Memory),
    }
}

/// The configuration of a tree.
fn shaped(alloc: Global, tree: Tree) -> Result<Config, Outcome>
    ensures answer { Gives (λ c. c) refusal result (target_shape (shaping (document tree))) }
    ensures cause { IfErr result RefusesAlways }
{
    match config_of_tree(alloc, tree) {
        Ok(config) => Ok(config),
        Err(ShapeError::Shape { place }) => Err(Outcome::TargetShape { place }),
        Err(ShapeError::Memory) => Err(Outcome::Memory),
    }
}
