//! The steps of a folder folded into its one file, so that a crash at any moment leaves files that stand for
//! the same configuration.
ghost use Rattle.std.specs.Prelude.{◌≡◌, ◌≤◌, Ok, IfSome, OnOk, OnErr};
ghost use Rattle.std.specs.List.{AllPass};
ghost use Rattle.host_core.specs.Counts.{Rose, DiskMayRise};
ghost use Rattle.host_core.specs.Crashes.{LeavesOnly};
ghost use Rattle.host_core.specs.Names.{longest_plain_name};
ghost use Rattle.conf_store.specs.Changes.{AreLeft, Changes, IsSettled, Settles};
ghost use Rattle.conf_store.specs.Files.{is_step_name};
ghost use Rattle.conf_store.specs.Folds.{IsBegun, IsFolded, KeepsStored, StandsFor};
ghost use Rattle.conf_store.specs.Stored.{config_in};

use crate::clearing::remove_steps;
use crate::settling::rename_file;
use crate::{Stored, put_file};
use host_core::{Failed, Host};

pub(crate) const CONFIG_FILE: &str = "config_db.json";

pub(crate) const FOLDED_FILE: &str = "config_db.folded";

/// Folds the stored configuration into `config_db.json` and takes the step files away. Its bytes first go
/// to `config_db.folded`, unless that is there already. A crash at any moment leaves files that stand for
/// the same configuration. `Failed` comes only where the disk count rose.
pub fn fold<H: Host>(host: &mut H, bytes: &[u8], stored: &Stored) -> Result<(), Failed>
    requires longest { longest_plain_name ≤ H.longest_name }
    requires ready { IfSome (H.told host.old) IsSettled }
    requires stands { IfSome (H.told host.old) (λ s. StandsFor stored.now s.files) }
    requires names { AllPass is_step_name stored.now.steps }
    requires bytes { config_in bytes.now ≡ Ok stored.now.config }
    ensures ok { OnOk result (Settles (IsFolded bytes.now) (H.told host.old) (H.told host.new)) }
    // After `Failed` the files, as they read and as a crash leaves them, stand for the same.
    ensures err { OnErr result (Changes KeepsStored (H.told host.old) (H.told host.new)) }
    // So they do at each moment.
    ensures any_moment { IfSome (H.told host.old)
        (λ s. LeavesOnly H.moment H.left_since host.old host.new (AreLeft KeepsStored s)) }
    ensures later { H.moment host.old ≤ H.moment host.new }
    ensures counts { DiskMayRise (H.counts host.old) (H.counts host.new) }
    ensures cause { OnErr result (Rose (H.counts host.old).disk (H.counts host.new).disk) }
    ensures goes { H.goes_on host.old host.new }
{
    begin_fold(host, bytes, stored)?;
    remove_steps(host, stored.steps.items())?;
    rename_file(host, FOLDED_FILE, CONFIG_FILE)?;
    Ok(())
}

/// Puts the folded file, unless it is there.
fn begin_fold<H: Host>(host: &mut H, bytes: &[u8], stored: &Stored) -> Result<(), Failed>
    requires longest { longest_plain_name ≤ H.longest_name }
    requires ready { IfSome (H.told host.old) IsSettled }
    requires stands { IfSome (H.told host.old) (λ s. StandsFor stored.now s.files) }
    requires bytes { config_in bytes.now ≡ Ok stored.now.config }
    ensures ok { OnOk result (Settles (IsBegun bytes.now) (H.told host.old) (H.told host.new)) }
    ensures err { OnErr result (Changes KeepsStored (H.told host.old) (H.told host.new)) }
    ensures any_moment { IfSome (H.told host.old)
        (λ s. LeavesOnly H.moment H.left_since host.old host.new (AreLeft KeepsStored s)) }
    ensures later { H.moment host.old ≤ H.moment host.new }
    ensures counts { DiskMayRise (H.counts host.old) (H.counts host.new) }
    ensures cause { OnErr result (Rose (H.counts host.old).disk (H.counts host.new).disk) }
    ensures goes { H.goes_on host.old host.new }
{
    let there = stored.folded;
    if there {
        return Ok(());
    }
    put_file(host, FOLDED_FILE, bytes)?;
    Ok(())
}
