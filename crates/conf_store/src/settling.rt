//! Changes of the folder's names that last once they are done.
ghost use Rattle.std.specs.Prelude.{◌≡◌, ◌≤◌, length, None, IfSome, OnOk, OnErr};
ghost use Rattle.host_core.specs.Counts.{Rose, DiskMayRise};
ghost use Rattle.host_core.specs.Crashes.{LeavesOnly};
ghost use Rattle.host_core.specs.State.{CanMove, rename, with_file};
ghost use Rattle.conf_store.specs.Changes.{AreLeft, Changes, Settles};
ghost use Rattle.conf_store.specs.Clearing.{IsDone, IsDoneOrNot};

use host_core::{Failed, Host};

/// Removes a file of the folder and settles that: a crash at any moment leaves the files from before or those
/// without it, and all else as it was. Nothing may be pending, and the file is there. `Failed` comes only where
/// the disk count rose.
pub fn remove_file<H: Host>(host: &mut H, name: &str) -> Result<(), Failed>
    requires name { length name.now ≤ H.longest_name }
    requires ready { IfSome (H.told host.old) (CanMove name.now) }
    ensures ok { OnOk result
        (Settles (IsDone (with_file name.now None)) (H.told host.old) (H.told host.new)) }
    ensures err { OnErr result
        (Changes (IsDoneOrNot (with_file name.now None)) (H.told host.old) (H.told host.new)) }
    ensures any_moment { IfSome (H.told host.old)
        (λ s. LeavesOnly H.moment H.left_since host.old host.new
        (AreLeft (IsDoneOrNot (with_file name.now None)) s)) }
    ensures later { H.moment host.old ≤ H.moment host.new }
    ensures counts { DiskMayRise (H.counts host.old) (H.counts host.new) }
    ensures cause { OnErr result (Rose (H.counts host.old).disk (H.counts host.new).disk) }
    ensures goes { H.goes_on host.old host.new }
{
    host.remove(name)?;
    host.settle()?;
    Ok(())
}

/// Gives a file another name and settles that.
pub(crate) fn rename_file<H: Host>(host: &mut H, from: &str, to: &str) -> Result<(), Failed>
    requires from { length from.now ≤ H.longest_name }
    requires to { length to.now ≤ H.longest_name }
    requires ready { IfSome (H.told host.old) (CanMove from.now) }
    ensures ok { OnOk result
        (Settles (IsDone (rename from.now to.now)) (H.told host.old) (H.told host.new)) }
    ensures err { OnErr result
        (Changes (IsDoneOrNot (rename from.now to.now)) (H.told host.old) (H.told host.new)) }
    ensures any_moment { IfSome (H.told host.old)
        (λ s. LeavesOnly H.moment H.left_since host.old host.new
        (AreLeft (IsDoneOrNot (rename from.now to.now)) s)) }
    ensures later { H.moment host.old ≤ H.moment host.new }
    ensures counts { DiskMayRise (H.counts host.old) (H.counts host.new) }
    ensures cause { OnErr result (Rose (H.counts host.old).disk (H.counts host.new).disk) }
    ensures goes { H.goes_on host.old host.new }
{
    host.rename(from, to)?;
    host.settle()?;
    Ok(())
}
