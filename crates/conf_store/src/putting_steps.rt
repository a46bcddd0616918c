//! One step put as a file of its own.
ghost use Rattle.std.specs.Prelude.{◌≡◌, ◌≤◌, true, IfSome, OnOk, OnErr};
ghost use Rattle.host_core.specs.Counts.{Rose, DiskMayRise};
ghost use Rattle.host_core.specs.Crashes.{LeavesOnly};
ghost use Rattle.host_core.specs.Names.{longest_plain_name};
ghost use Rattle.conf_store.specs.Changes.{AreLeft, Changes, IsSettled, Settles};
ghost use Rattle.conf_store.specs.Files.{is_step_name};
ghost use Rattle.conf_store.specs.Steps.{CanStep, IsStepPut, IsStepPutOrNot};

use crate::put_file;
use host_core::{Failed, Host};

/// Puts the next step file, so that the folder stands for the configuration after the step. A crash at any
/// moment leaves files that stand for the configuration before the step or after it. `Failed` comes only
/// where the disk count rose.
pub fn put_step<H: Host>(host: &mut H, name: &str, bytes: &[u8]) -> Result<(), Failed>
    requires longest { longest_plain_name ≤ H.longest_name }
    requires named { is_step_name name.now ≡ true }
    requires ready { IfSome (H.told host.old) IsSettled }
    requires next { IfSome (H.told host.old) (λ s. CanStep name.now bytes.now s.files) }
    ensures ok { OnOk result
        (Settles (IsStepPut name.now bytes.now) (H.told host.old) (H.told host.new)) }
    // After `Failed` the files, as they read and as a crash leaves them, are with the step or without.
    ensures err { OnErr result
        (Changes (IsStepPutOrNot name.now bytes.now) (H.told host.old) (H.told host.new)) }
    // So they are at each moment.
    ensures any_moment { IfSome (H.told host.old)
        (λ s. LeavesOnly H.moment H.left_since host.old host.new
        (AreLeft (IsStepPutOrNot name.now bytes.now) s)) }
    ensures later { H.moment host.old ≤ H.moment host.new }
    ensures counts { DiskMayRise (H.counts host.old) (H.counts host.new) }
    ensures cause { OnErr result (Rose (H.counts host.old).disk (H.counts host.new).disk) }
    ensures goes { H.goes_on host.old host.new }
{
    put_file(host, name, bytes)?;
    Ok(())
}
