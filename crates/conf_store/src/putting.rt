//! One file written whole: a crash leaves the file from before or the new one.
ghost use Rattle.std.specs.Prelude.{◌≡◌, ◌≤◌, length, option_map, IfSome, OnOk, OnErr};
ghost use Rattle.host_core.specs.Counts.{Rose, DiskMayRise};
ghost use Rattle.host_core.specs.Crashes.{LeavesOnly};
ghost use Rattle.host_core.specs.Names.{longest_plain_name};
ghost use Rattle.conf_store.specs.Changes.{AreLeft, Changes, IsSettled};
ghost use Rattle.conf_store.specs.Puts.{IsPutOrNot, after_put};

use host_core::{Failed, Host};

const SCRATCH: &str = "tmp.new";

/// Writes a file of the folder, whole: a crash at any moment leaves the files from before or those with
/// the new file, and all else as it was. The bytes first lie in `tmp.new`, which nothing reads. `Failed`
/// comes only where the disk count rose.
pub fn put_file<H: Host>(host: &mut H, name: &str, bytes: &[u8]) -> Result<(), Failed>
    requires longest { longest_plain_name ≤ H.longest_name }
    requires name { length name.now ≤ H.longest_name }
    requires ready { IfSome (H.told host.old) IsSettled }
    ensures ok { OnOk result
        (H.told host.new ≡ option_map (after_put name.now bytes.now) (H.told host.old)) }
    // After `Failed` the files, as they read and as a crash leaves them, are with the new file or without.
    ensures err { OnErr result
        (Changes (IsPutOrNot name.now bytes.now) (H.told host.old) (H.told host.new)) }
    // So they are at each moment.
    ensures any_moment { IfSome (H.told host.old)
        (λ s. LeavesOnly H.moment H.left_since host.old host.new
        (AreLeft (IsPutOrNot name.now bytes.now) s)) }
    ensures later { H.moment host.old ≤ H.moment host.new }
    ensures counts { DiskMayRise (H.counts host.old) (H.counts host.new) }
    ensures cause { OnErr result (Rose (H.counts host.old).disk (H.counts host.new).disk) }
    ensures goes { H.goes_on host.old host.new }
{
    host.write(SCRATCH, bytes)?;
    host.sync(SCRATCH)?;
    host.rename(SCRATCH, name)?;
    host.settle()?;
    Ok(())
}
