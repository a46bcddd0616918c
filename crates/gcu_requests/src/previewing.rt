//! `gcu preview PATCH`: what the patch would make of the stored configuration.
ghost use Rattle.std.specs.Prelude.{◌≤◌, IfErr};
ghost use Rattle.host_core.specs.Answers.{Gives};
ghost use Rattle.host_core.specs.Names.{longest_plain_name};
ghost use Rattle.conf_doc.specs.Trees.{document};
ghost use Rattle.patch_core.specs.Operation.{operations};
ghost use Rattle.gcu_inputs.specs.Preparing.{Finds, Refuses, RefusesAlways, refusal};
ghost use Rattle.gcu_inputs.specs.Reads.{OnlyReads};
ghost use Rattle.gcu_requests.specs.Trees.{document_shape, patched_document, preview_document, target_document};

use crate::stored_tree::read_stored;
use conf_doc::{ShapeError, Tree, config_of_tree};
use conf_store::is_configuration;
use gcu_inputs::{input_patch, test_uninterrupted};
use gcu_output::Outcome;
use host_core::{Host, Txt};
use patch_core::{ApplyError, Patch, apply_owned};
use std::alloc::Global;

/// The tree of the configuration that the patch would leave.
pub fn preview<H: Host>(alloc: Global, path: &Txt, host: &mut H) -> Result<Tree, Outcome>
    requires { longest_plain_name ≤ H.longest_name }
    ensures answer { Finds (H.told host.old) document result (preview_document path.now) }
    ensures reads { OnlyReads H.told H.counts H.moment H.left_since H.goes_on host.old host.new }
    ensures cause { IfErr result (Refuses (H.counts host.old) (H.counts host.new)) }
{
    test_uninterrupted(alloc, host)?;
    patch_stored(alloc, path, host)
}

/// The same, where no change was stopped before its end.
fn patch_stored<H: Host>(alloc: Global, path: &Txt, host: &mut H) -> Result<Tree, Outcome>
    requires { longest_plain_name ≤ H.longest_name }
    ensures answer { Finds (H.told host.old) document result (patched_document path.now) }
    ensures reads { OnlyReads H.told H.counts H.moment H.left_since H.goes_on host.old host.new }
    ensures cause { IfErr result (Refuses (H.counts host.old) (H.counts host.new)) }
{
    let start = read_stored(alloc, host)?;
    let patch = input_patch(alloc, path, host)?;
    patched_tree(alloc, &patch, start)
}

/// The tree of the configuration after the patch.
fn patched_tree(alloc: Global, patch: &Patch, start: Tree) -> Result<Tree, Outcome>
    ensures answer { Gives document refusal result
        (target_document (operations patch.now) (document start)) }
    ensures cause { IfErr result RefusesAlways }
{
    match apply_owned(alloc, patch, start) {
        Ok(tree) => test_target(alloc, tree),
        Err(ApplyError::Failed { index, why }) => Err(Outcome::PatchFailed { index, why }),
        Err(ApplyError::Memory) => Err(Outcome::Memory),
    }
}

/// The tree, where it is a configuration's. Where it isn't, its first fault is looked for.
fn test_target(alloc: Global, tree: Tree) -> Result<Tree, Outcome>
    ensures answer { Gives document refusal result (document_shape (document tree)) }
    ensures cause { IfErr result RefusesAlways }
{
    if is_configuration(&tree) {
        return Ok(tree);
    }
    match config_of_tree(alloc, tree) {
        Ok(_) => unreachable!(),
        Err(ShapeError::Shape { place }) => Err(Outcome::TargetShape { place }),
        Err(ShapeError::Memory) => Err(Outcome::Memory),
    }
}
