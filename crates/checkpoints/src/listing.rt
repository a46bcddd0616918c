//! The names of all checkpoints.
ghost use Rattle.std.specs.Prelude.{◌≡◌, true, All, IfErr, IfOk, IfSome, IsErrOf, OnOk, if◌then◌else◌};
ghost use Rattle.std.specs.BTreeSet.{insert_key};
ghost use Rattle.host_core.specs.Counts.{Rose};
ghost use Rattle.host_core.specs.Names.{name_cmp};
ghost use Rattle.conf_store.specs.Reads.{OnlyReads};
ghost use Rattle.checkpoints.specs.Answers.{IsOfListing, Lists};
ghost use Rattle.checkpoints.specs.Names.{is_good_name, is_point_file, point_name as name_in};
ghost use Rattle.checkpoints.specs.Reads.{names_in};
ghost use Rattle.checkpoints.specs.declared.errors.PointError.TheVariants.{Disk as disk_failed};

use crate::PointError;
use crate::naming::point_name;
use host_core::{Host, HostError, Memory, Names, Txt};
use std::alloc::Global;
use std::collections::BTreeSet;

/// The names of all checkpoints, whatever they hold, in the order of their bytes. `Disk` comes only where
/// the disk count rose.
pub fn names<H: Host>(alloc: Global, host: &mut H) -> Result<Names, PointError>
    ensures answer { IfSome (H.told host.old) (λ s. Lists s.files result) }
    ensures good { IfOk result (All (λ n. is_good_name n ≡ true)) }
    ensures errors { IfErr result IsOfListing }
    ensures reads { OnlyReads H.told H.counts H.moment H.left_since H.goes_on host.old host.new }
    ensures cause { IsErrOf result disk_failed
        → Rose (H.counts host.old).disk (H.counts host.new).disk }
{
    match host.list(alloc) {
        Ok(files) => Ok(list_names(alloc, gather_names(alloc, files.items())?)?),
        Err(HostError::Failed) => Err(PointError::Disk),
        Err(HostError::Memory) => Err(PointError::Memory),
    }
}

/// The names of the checkpoints in files. Files are in another order than their names without the ending.
fn gather_names(alloc: Global, files: &[Txt]) -> Result<BTreeSet<Txt>, Memory>
    ensures { IfOk result (λ names. names.keys ≡ names_in files.now) }
{
    let mut names = BTreeSet::new(alloc);
    let mut i = files.len();
    while i > 0 {
        i -= 1;
        gather_name(alloc, &mut names, files[i].as_str())?;
    }
    Ok(names)
}

/// Adds the name of the checkpoint in a file, if one is there.
fn gather_name(alloc: Global, names: &mut BTreeSet<Txt>, file: &str) -> Result<(), Memory>
    ensures { OnOk result (names.new.keys ≡
        (if is_point_file file.now then insert_key name_cmp names.old.keys (name_in file.now)
        else names.old.keys)) }
{
    if let Some(name) = point_name(file) {
        let name = Txt::new(alloc, name)?;
        names.insert(name)?;
    }
    Ok(())
}

/// The names as a list.
fn list_names(alloc: Global, names: BTreeSet<Txt>) -> Result<Names, Memory>
    ensures { IfOk result (λ all. all ≡ names.keys) }
{
    let mut all = Names::new(alloc);
    for name in names {
        all.push(name)?;
    }
    Ok(all)
}
