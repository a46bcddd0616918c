//! What a settle syncs: the files that may have been written and not synced, and then the folder.
ghost use Rattle.std.specs.Prelude.{OnOk, OnErr, filter};
ghost use Rattle.real_host.specs.Calls.{AreDone, AnyFails};
ghost use Rattle.real_host.specs.Names.{is_scratch_name};
ghost use Rattle.real_host.specs.Unsynced.{AreSynced, FailsToSync};

use crate::folder::{FOLDER, again, done, open_folder};
use crate::listing::listed_names;
use crate::opening::open_left;
use crate::scratch_names::is_scratch;
use crate::unsynced::Unsynced;
use host_core::{Failed, Names, Sequence, Txt};
use std::fs::{File, OpenFile};
use std::rt::Files;

/// Syncs each file that may have been written and not synced, and then the folder.
pub(crate) fn settle_files<R: Files + AllocGlobal + Clone + Drop>(
    rt: &R,
    unsynced: &Unsynced,
) -> Result<(), Failed> {
    each_unsynced(unsynced, || all_names(rt), |name| sync_left(rt, name))?;
    match File::open(rt, FOLDER) {
        Ok(folder) => done(folder.sync_all()),
        Err(_) => Err(Failed),
    }
}

/// Makes a call for each file that may have been written and not synced, until one fails. The folder is
/// listed only where these are not known.
fn each_unsynced<
    L: FnOnce() -> Result<Names, Failed> + Drop,
    F: FnMut(&str) -> Result<(), Failed> + Drop,
>(unsynced: &Unsynced, list: L, mut call: F) -> Result<(), Failed>
    requires list { L.IsAlwaysCallable list }
    requires call { F.IsAlwaysCallable call }
    ensures done { OnOk result (AreSynced F.FnMut L.post unsynced.now list call) }
    ensures failed { OnErr result (FailsToSync F.FnMut L.post unsynced.now list call) }
{
    match unsynced {
        Unsynced::Unlisted => each_scratch(list()?.items(), call),
        Unsynced::Only(file) => call(file.as_str()),
        Unsynced::Nothing => Ok(()),
    }
}

/// Makes a call for each file of the names that may have been written and not synced, until one fails.
fn each_scratch<F: FnMut(&str) -> Result<(), Failed>>(
    names: &[Txt],
    mut call: F,
) -> Result<(), Failed>
    requires { F.IsAlwaysCallable call }
    ensures done { OnOk result (AreDone F.FnMut call (filter is_scratch_name names.now)) }
    ensures failed { OnErr result (AnyFails F.FnMut call (filter is_scratch_name names.now)) }
{
    for name in names {
        if is_scratch(name.as_str()) {
            call(name.as_str())?;
        }
    }
    Ok(())
}

/// The names in the folder that are UTF-8.
fn all_names<R: Files + AllocGlobal + Clone + Drop>(rt: &R) -> Result<Names, Failed> {
    let Ok(entries) = open_folder(rt) else {
        return Err(Failed);
    };
    match listed_names(rt.alloc(), entries) {
        Ok(names) => Ok(Sequence::from_vec(names)),
        Err(_) => Err(Failed),
    }
}

/// Syncs the file of a name that may have been written and not synced, where it is one.
fn sync_left<R: Files>(rt: &R, name: &str) -> Result<(), Failed> {
    let about = again(|| rt.symlink_metadata(name));
    match open_left(name, &about, || File::open(rt, name))? {
        Some(file) => done(file.sync_all()),
        None => Ok(()),
    }
}
