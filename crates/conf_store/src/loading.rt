//! The folder loaded: what it stands for, and the files that a fold takes away.
ghost use Rattle.std.specs.Prelude.{◌≡◌, ◌≤◌, IfOk, IfSome, IsErrOf};
ghost use Rattle.std.specs.List.{AllPass};
ghost use Rattle.host_core.specs.Counts.{Rose, DiskMayRise};
ghost use Rattle.host_core.specs.Crashes.{Elapses, MayLeaveNow};
ghost use Rattle.host_core.specs.Names.{longest_plain_name};
ghost use Rattle.conf_doc.specs.WellFormed.{IsConfig};
ghost use Rattle.conf_store.specs.Files.{is_step_name};
ghost use Rattle.conf_store.specs.Loads.{CountsSteps, Loads, LoadsTree};
ghost use Rattle.conf_store.specs.declared.errors.LoadError.TheVariants.{Disk as disk_failed};

use crate::folder_files::list_steps;
use crate::stored_files::shape_config;
use crate::trees_found::find_tree;
use crate::{LoadError, Stored};
use conf_doc::Tree;
use host_core::Host;
use std::alloc::Global;

/// The configuration that the folder stands for, and the files that a fold takes away. `Disk` comes only
/// where the disk count rose. The steps change one tree: each costs its own file and the places on its way.
pub fn load<H: Host>(alloc: Global, host: &mut H) -> Result<Stored, LoadError>
    requires { longest_plain_name ≤ H.longest_name }
    // It is the stored configuration with its step files, or `Bad` with why the folder stands for none.
    ensures loads { IfSome (H.told host.old) (λ s. Loads s.files result) }
    ensures names { IfOk result (λ what. AllPass is_step_name what.steps) }
    ensures formed { IfOk result (λ what. IsConfig what.config) }
    ensures told { H.told host.new ≡ H.told host.old }
    ensures counts { DiskMayRise (H.counts host.old) (H.counts host.new) }
    ensures cause { IsErrOf result disk_failed
        → Rose (H.counts host.old).disk (H.counts host.new).disk }
    // A crash leaves at each moment what it would have left before.
    ensures time { Elapses H.moment H.left_since host.old host.new (MayLeaveNow (H.told host.old)) }
    ensures goes { H.goes_on host.old host.new }
{
    let (tree, folded, _count) = find_tree(alloc, host)?;
    let config = shape_config(alloc, tree)?;
    let steps = list_steps(alloc, host)?;
    Ok(Stored {
        config,
        steps,
        folded,
    })
}

/// The tree of the configuration that the folder stands for: `load` without building a configuration and
/// without a look at the other files. `Disk` comes only where the disk count rose.
pub fn load_tree<H: Host>(alloc: Global, host: &mut H) -> Result<Tree, LoadError>
    requires { longest_plain_name ≤ H.longest_name }
    // It is the tree of the stored configuration, or `Bad` with why the folder stands for none.
    ensures loads { IfSome (H.told host.old) (λ s. LoadsTree s.files result) }
    ensures told { H.told host.new ≡ H.told host.old }
    ensures counts { DiskMayRise (H.counts host.old) (H.counts host.new) }
    ensures cause { IsErrOf result disk_failed
        → Rose (H.counts host.old).disk (H.counts host.new).disk }
    // A crash leaves at each moment what it would have left before.
    ensures time { Elapses H.moment H.left_since host.old host.new (MayLeaveNow (H.told host.old)) }
    ensures goes { H.goes_on host.old host.new }
{
    let (tree, _folded, _count) = find_tree(alloc, host)?;
    Ok(tree)
}

/// How many step files are applied in what the folder stands for; none where `config_db.folded` is there.
/// `Disk` comes only where the disk count rose.
pub fn count_steps<H: Host>(alloc: Global, host: &mut H) -> Result<u32, LoadError>
    requires { longest_plain_name ≤ H.longest_name }
    // It is that number, or `Bad` with why the folder stands for no configuration.
    ensures loads { IfSome (H.told host.old) (λ s. CountsSteps s.files result) }
    ensures told { H.told host.new ≡ H.told host.old }
    ensures counts { DiskMayRise (H.counts host.old) (H.counts host.new) }
    ensures cause { IsErrOf result disk_failed
        → Rose (H.counts host.old).disk (H.counts host.new).disk }
    // A crash leaves at each moment what it would have left before.
    ensures time { Elapses H.moment H.left_since host.old host.new (MayLeaveNow (H.told host.old)) }
    ensures goes { H.goes_on host.old host.new }
{
    let (_tree, _folded, count) = find_tree(alloc, host)?;
    Ok(count)
}
