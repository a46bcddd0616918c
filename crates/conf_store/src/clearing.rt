//! The step files taken away.
ghost use Rattle.std.specs.Prelude.{◌≡◌, ◌≤◌, [], IfSome, OnOk, OnErr};
ghost use Rattle.std.specs.List.{AllPass};
ghost use Rattle.host_core.specs.Counts.{Rose, DiskMayRise};
ghost use Rattle.host_core.specs.Crashes.{LeavesOnly};
ghost use Rattle.host_core.specs.Names.{longest_plain_name};
ghost use Rattle.conf_store.specs.Changes.{AreLeft, Changes, IsSettled, Settles};
ghost use Rattle.conf_store.specs.Clearing.{IsClearing, KeepsRest};
ghost use Rattle.conf_store.specs.Files.{is_step_name, step_names};

use crate::settling::remove_file;
use host_core::{Failed, Host, Txt};

/// Removes the step files, each settled before the next.
pub(crate) fn remove_steps<H: Host>(host: &mut H, steps: &[Txt]) -> Result<(), Failed>
    requires longest { longest_plain_name ≤ H.longest_name }
    requires ready { IfSome (H.told host.old) IsSettled }
    requires steps { IfSome (H.told host.old) (λ s. step_names s.files ≡ steps.now) }
    requires names { AllPass is_step_name steps.now }
    ensures ok { OnOk result (Settles (IsClearing []) (H.told host.old) (H.told host.new)) }
    ensures err { OnErr result (Changes KeepsRest (H.told host.old) (H.told host.new)) }
    ensures any_moment { IfSome (H.told host.old)
        (λ s. LeavesOnly H.moment H.left_since host.old host.new (AreLeft KeepsRest s)) }
    ensures later { H.moment host.old ≤ H.moment host.new }
    ensures counts { DiskMayRise (H.counts host.old) (H.counts host.new) }
    ensures cause { OnErr result (Rose (H.counts host.old).disk (H.counts host.new).disk) }
    ensures goes { H.goes_on host.old host.new }
{
    for name in steps {
        remove_file(host, name.as_str())?;
    }
    Ok(())
}
