//! The tree that the files of the folder stand for, found with no configuration built.
ghost use Rattle.std.specs.Prelude.{◌≡◌, ◌≤◌, true, IfOk, IfSome, IsErrOf};
ghost use Rattle.host_core.specs.Counts.{Rose};
ghost use Rattle.host_core.specs.Names.{longest_plain_name};
ghost use Rattle.conf_doc.specs.Trees.{document};
ghost use Rattle.conf_store.specs.Applied.{applied, steps_there};
ghost use Rattle.conf_store.specs.Files.{last_step};
ghost use Rattle.conf_store.specs.Reads.{FoundIn, OnlyReads};
ghost use Rattle.conf_store.specs.Shapes.{is_config};
ghost use Rattle.conf_store.specs.Walk.{document_found, document_stepped, stepped_tree, tree_found};
ghost use Rattle.conf_store.specs.declared.errors.LoadError.TheVariants.{Disk as disk_failed};

use crate::folder_files::read_file;
use crate::folding::{CONFIG_FILE, FOLDED_FILE};
use crate::steps_read::apply_steps;
use crate::stored_files::read_shaped;
use crate::{LoadError, StoredWhy};
use conf_doc::Tree;
use host_core::Host;
use std::alloc::Global;

/// The tree of the stored configuration, whether the folded file holds it, and how many step files are
/// applied in it.
pub(crate) fn find_tree<H: Host>(
    alloc: Global,
    host: &mut H,
) -> Result<(Tree, bool, u32), LoadError>
    requires { longest_plain_name ≤ H.longest_name }
    ensures found { FoundIn (H.told host.old) tree_found document_found result }
    ensures counted { IfOk result (λ f. IfSome (H.told host.old) (λ s. f.2 ≡ applied s.files)) }
    ensures shaped { IfOk result (λ f. is_config (document f.0) ≡ true) }
    ensures reads { OnlyReads H.told H.counts H.moment H.left_since H.goes_on host.old host.new }
    ensures cause { IsErrOf result disk_failed
        → Rose (H.counts host.old).disk (H.counts host.new).disk }
{
    match read_file(alloc, host, FOLDED_FILE)? {
        Some(bytes) => {
            let tree = read_shaped(alloc, &bytes)?;
            Ok((tree, true, 0))
        }
        None => {
            let (tree, steps) = find_unfolded(alloc, host)?;
            Ok((tree, false, steps))
        }
    }
}

/// The tree of the one file and the steps, and how many steps these are.
fn find_unfolded<H: Host>(alloc: Global, host: &mut H) -> Result<(Tree, u32), LoadError>
    requires { longest_plain_name ≤ H.longest_name }
    ensures found { FoundIn (H.told host.old) stepped_tree document_stepped result }
    ensures counted { IfOk result (λ f. IfSome (H.told host.old)
        (λ s. f.1 ≡ steps_there last_step 1 s.files)) }
    ensures shaped { IfOk result (λ f. is_config (document f.0) ≡ true) }
    ensures reads { OnlyReads H.told H.counts H.moment H.left_since H.goes_on host.old host.new }
    ensures cause { IsErrOf result disk_failed
        → Rose (H.counts host.old).disk (H.counts host.new).disk }
{
    match read_file(alloc, host, CONFIG_FILE)? {
        None => Err(LoadError::Bad(StoredWhy::NoFile)),
        Some(bytes) => {
            let start = read_shaped(alloc, &bytes)?;
            apply_steps(alloc, host, start)
        }
    }
}
