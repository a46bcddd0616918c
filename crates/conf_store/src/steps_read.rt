//! The step files read and applied in their order, to one tree that each of them changes.
ghost use Rattle.std.specs.Prelude.{◌≡◌, ◌≤◌, true, IfOk, IfSome, IsErrOf};
ghost use Rattle.std.specs.List.{list_all};
ghost use Rattle.host_core.specs.Answers.{Gives};
ghost use Rattle.host_core.specs.Counts.{Rose};
ghost use Rattle.host_core.specs.Names.{longest_plain_name};
ghost use Rattle.conf_doc.specs.Trees.{document};
ghost use Rattle.patch_core.specs.Operation.{operations};
ghost use Rattle.patch_core.specs.Reading.{patch};
ghost use Rattle.conf_store.specs.Applied.{steps_there};
ghost use Rattle.conf_store.specs.Files.{last_step};
ghost use Rattle.conf_store.specs.Reads.{FoundIn, OnlyReads, load_fault};
ghost use Rattle.conf_store.specs.Shapes.{is_config, keeps_shape};
ghost use Rattle.conf_store.specs.Stored.{or_why};
ghost use Rattle.conf_store.specs.Walk.{document_after, document_after_all, document_after_file, shaped, stepped_tree};
ghost use Rattle.conf_store.specs.declared.errors.LoadError.TheVariants.{Disk as disk_failed};
ghost use Rattle.conf_store.specs.declared.errors.StoredWhy.TheVariants.{BadStep as bad_step};

use crate::folder_files::read_step_file;
use crate::keeping::keep_shape;
use crate::stored_files::test_shape;
use crate::{LoadError, StoredWhy};
use conf_doc::Tree;
use host_core::Host;
use patch_core::{ApplyError, Patch, PatchError, apply_plain_owned, read_patch};
use std::alloc::Global;

/// How many numbers of steps there are.
const LAST_STEP: u32 = 999_999;

/// The tree of a configuration after all steps, up to the first number without a file, and how many steps
/// these are.
pub(crate) fn apply_steps<H: Host>(
    alloc: Global,
    host: &mut H,
    start: Tree,
) -> Result<(Tree, u32), LoadError>
    requires longest { longest_plain_name ≤ H.longest_name }
    requires shaped { is_config (document start) ≡ true }
    ensures found { FoundIn (H.told host.old) stepped_tree
        (λ files. document_after_all files (document start)) result }
    ensures counted { IfOk result (λ f. IfSome (H.told host.old)
        (λ s. f.1 ≡ steps_there last_step 1 s.files)) }
    ensures shaped { IfOk result (λ f. is_config (document f.0) ≡ true) }
    ensures reads { OnlyReads H.told H.counts H.moment H.left_since H.goes_on host.old host.new }
    ensures cause { IsErrOf result disk_failed
        → Rose (H.counts host.old).disk (H.counts host.new).disk }
{
    let mut tree = start;
    for n in 1..LAST_STEP + 1 {
        match read_step_file(alloc, host, n)? {
            None => return Ok((tree, n - 1)),
            Some(bytes) => tree = apply_step(alloc, n, &bytes, tree)?,
        }
    }
    Ok((tree, LAST_STEP))
}

/// The tree after the step of a number, whose file has these bytes.
fn apply_step(alloc: Global, n: u32, bytes: &[u8], tree: Tree) -> Result<Tree, LoadError>
    requires { is_config (document tree) ≡ true }
    ensures left { Gives document load_fault result
        (document_after_file n bytes.now (document tree)) }
    ensures shaped { IfOk result (λ t. is_config (document t) ≡ true) }
    ensures cause { IsErrOf result disk_failed → ⊥ }
{
    let patch = read_step(alloc, n, bytes)?;
    perform_step(alloc, n, &patch, tree)
}

/// The patch that a step file's bytes hold.
fn read_step(alloc: Global, n: u32, bytes: &[u8]) -> Result<Patch, LoadError>
    ensures read { Gives operations load_fault result (or_why (bad_step n) (patch bytes.now)) }
    ensures cause { IsErrOf result disk_failed → ⊥ }
{
    match read_patch(alloc, bytes) {
        Ok(patch) => Ok(patch),
        Err(PatchError::BadJson) => Err(LoadError::Bad(StoredWhy::BadStep(n))),
        Err(PatchError::BadPatch { .. }) => Err(LoadError::Bad(StoredWhy::BadStep(n))),
        Err(PatchError::Memory) => Err(LoadError::Memory),
    }
}

/// The tree after a step's patch.
fn perform_step(alloc: Global, n: u32, patch: &Patch, tree: Tree) -> Result<Tree, LoadError>
    requires { is_config (document tree) ≡ true }
    ensures left { Gives document load_fault result
        (document_after n (operations patch.now) (document tree)) }
    ensures shaped { IfOk result (λ t. is_config (document t) ≡ true) }
    ensures cause { IsErrOf result disk_failed → ⊥ }
{
    match apply_plain_owned(alloc, patch, tree) {
        Ok(tree) => test_step(n, patch, tree),
        Err(ApplyError::Failed { .. }) => Err(LoadError::Bad(StoredWhy::BadStep(n))),
        Err(ApplyError::Memory) => Err(LoadError::Memory),
    }
}

/// The tree that a patch left, where it is a configuration's. The whole tree is looked at only where the patch
/// doesn't tell by itself that it leaves a configuration one.
fn test_step(n: u32, patch: &Patch, left: Tree) -> Result<Tree, LoadError>
    requires { list_all keeps_shape (operations patch.now) ≡ true
        → is_config (document left) ≡ true }
    ensures document { Gives document load_fault result (shaped (bad_step n) (document left)) }
    ensures shaped { IfOk result (λ t. is_config (document t) ≡ true) }
    ensures cause { IsErrOf result disk_failed → ⊥ }
{
    if keep_shape(patch) {
        return Ok(left);
    }
    test_shape(StoredWhy::BadStep(n), left)
}
