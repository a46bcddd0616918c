//! A checkpoint deleted.
ghost use Rattle.std.specs.Prelude.{◌≡◌, ◌≤◌, IfErr, IfSome, IsErrOf, None, OnOk};
ghost use Rattle.std.specs.FinMap.{get};
ghost use Rattle.host_core.specs.Counts.{DiskMayRise, Rose};
ghost use Rattle.host_core.specs.Crashes.{LeavesOnly};
ghost use Rattle.host_core.specs.Names.{longest_plain_name};
ghost use Rattle.conf_store.specs.Changes.{AreLeft, IsSettled, Settles};
ghost use Rattle.conf_store.specs.Reads.{OnlyReads};
ghost use Rattle.checkpoints.specs.Answers.{Deletes, IsOfDeleting, Named};
ghost use Rattle.checkpoints.specs.Changes.{IsDeleted, IsDeletedOrNot, LeavesOf, UnlessDisk};
ghost use Rattle.checkpoints.specs.Points.{points};
ghost use Rattle.checkpoints.specs.declared.errors.PointError.TheVariants.{Disk as disk_failed};

use crate::PointError;
use crate::reading::read_point;
use host_core::Host;
use std::alloc::Global;

/// Deletes the checkpoint of a name, whatever its file holds. A crash at any moment leaves the checkpoints
/// from before or all but that one, and all other files as they were. `Disk` comes only where the disk count
/// rose. Nothing may be pending.
pub fn delete<H: Host>(alloc: Global, host: &mut H, name: &str) -> Result<(), PointError>
    requires longest { longest_plain_name ≤ H.longest_name }
    requires ready { IfSome (H.told host.old) IsSettled }
    // It is deleted where the name is good and there is a checkpoint of it.
    ensures named { Named name.now result }
    ensures answer { IfSome (H.told host.old) (λ s. Deletes name.now s.files result) }
    ensures errors { IfErr result IsOfDeleting }
    ensures ok { OnOk result (Settles (IsDeleted name.now) (H.told host.old) (H.told host.new)) }
    // After a fault of the disk the checkpoint is there or not, and after another error nothing is changed.
    ensures err { IfErr result
        (LeavesOf (IsDeletedOrNot name.now) (H.told host.old) (H.told host.new)) }
    // Where there is no such checkpoint the folder is only read, whatever the answer.
    ensures only_reads { IfSome (H.told host.old) (λ s. get (points s.files) name.now ≡ None
        → OnlyReads H.told H.counts H.moment H.left_since H.goes_on host.old host.new) }
    // After another error than a fault of the disk, want of memory too, the folder was only read.
    ensures early { IfErr result (UnlessDisk (OnlyReads
        H.told H.counts H.moment H.left_since H.goes_on host.old host.new)) }
    ensures any_moment { IfSome (H.told host.old)
        (λ s. LeavesOnly H.moment H.left_since host.old host.new
        (AreLeft (IsDeletedOrNot name.now) s)) }
    ensures later { H.moment host.old ≤ H.moment host.new }
    ensures counts { DiskMayRise (H.counts host.old) (H.counts host.new) }
    ensures cause { IsErrOf result disk_failed
        → Rose (H.counts host.old).disk (H.counts host.new).disk }
    ensures goes { H.goes_on host.old host.new }
{
    let (file, found) = read_point(alloc, host, name)?;
    if found.is_none() {
        return Err(PointError::Absent);
    }
    host.remove(file.as_str())?;
    host.settle()?;
    Ok(())
}
