//! A migration done: each file put anew, and told by a line.
ghost use Rattle.std.specs.Prelude.{◌≡◌, ◌≤◌, All, IfErr, IfSome, OnOk};
ghost use Rattle.host_core.specs.Crashes.{LeavesOnly};
ghost use Rattle.host_core.specs.Names.{longest_plain_name};
ghost use Rattle.conf_store.specs.Changes.{IsSettled};
ghost use Rattle.checkpoints.specs.Migrations.{IsDue};
ghost use Rattle.checkpoints.specs.MigrationCrashes.{IsLeft};
ghost use Rattle.checkpoints.specs.MigrationEnds.{Finishes, HasCause, MayRise, Stops};
ghost use Rattle.checkpoints.specs.MigrationLines.{lines_of};

use crate::migration_steps::do_steps;
use crate::{MigrateFault, Migration};
use host_core::{Host, Names};

/// Does a migration: checkpoint by checkpoint its file is put anew, and then its line is printed. Nothing may be
/// pending, and the folder is as it was when the migration was prepared. No memory is taken.
pub fn migrate<H: Host>(
    host: &mut H,
    migration: &Migration,
    lines: &Names,
) -> Result<(), MigrateFault>
    requires longest { longest_plain_name ≤ H.longest_name }
    requires lines { lines.now ≡ lines_of migration.now }
    requires clean { IfSome (H.told host.old) IsSettled }
    requires due { IfSome (H.told host.old) (λ s. All (λ n. IsDue n s.files) migration.now) }
    ensures ok { OnOk result (Finishes migration.now (H.told host.old) (H.told host.new)) }
    ensures err { IfErr result
        (λ fault. Stops migration.now fault (H.told host.old) (H.told host.new)) }
    // At each moment a crash leaves all checkpoints and numbers as they were, and what is told is done.
    ensures any_moment { IfSome (H.told host.old)
        (λ s. LeavesOnly H.moment H.left_since host.old host.new (IsLeft migration.now s)) }
    ensures later { H.moment host.old ≤ H.moment host.new }
    ensures counts { MayRise (H.counts host.old) (H.counts host.new) }
    ensures cause { IfErr result (HasCause (H.counts host.old) (H.counts host.new)) }
    ensures goes { H.goes_on host.old host.new }
{
    do_steps(host, migration, lines)
}
