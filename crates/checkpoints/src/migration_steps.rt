//! The checkpoints of a migration, one after the other.
ghost use Rattle.std.specs.Prelude.{◌≡◌, ◌<◌, ◌≤◌, suc, IfErr, OnOk, length};
ghost use Rattle.host_core.specs.Names.{longest_plain_name};
ghost use Rattle.checkpoints.specs.MigrationEnds.{HasCause, MayRise, Stops};
ghost use Rattle.checkpoints.specs.MigrationLines.{lines_of};
ghost use Rattle.checkpoints.specs.MigrationStages.{AtPut, AtStep, HasStage, Leads, LeavesAt};

use crate::{MigrateFault, Migration, put_one};
use host_core::{Host, Names};

/// Does all of them.
pub(crate) fn do_steps<H: Host>(
    host: &mut H,
    migration: &Migration,
    lines: &Names,
) -> Result<(), MigrateFault>
    requires longest { longest_plain_name ≤ H.longest_name }
    requires lines { lines.now ≡ lines_of migration.now }
    requires stage { HasStage (AtStep migration.now 0) (H.told host.old) }
    ensures ok { OnOk result (Leads (AtStep migration.now 0)
        (AtStep migration.now (length migration.now)) (H.told host.old) (H.told host.new)) }
    ensures err { IfErr result (λ fault. Leads (AtStep migration.now 0)
        (Stops migration.now fault) (H.told host.old) (H.told host.new)) }
    ensures any_moment { LeavesAt H.moment H.left_since H.told migration.now
        (AtStep migration.now 0) host.old host.new }
    ensures later { H.moment host.old ≤ H.moment host.new }
    ensures counts { MayRise (H.counts host.old) (H.counts host.new) }
    ensures cause { IfErr result (HasCause (H.counts host.old) (H.counts host.new)) }
    ensures goes { H.goes_on host.old host.new }
{
    for k in 0..migration.len() {
        do_step(host, migration, lines, k)?;
    }
    Ok(())
}

/// Puts the file of the one behind the first `k`, and prints its line.
fn do_step<H: Host>(
    host: &mut H,
    migration: &Migration,
    lines: &Names,
    k: usize,
) -> Result<(), MigrateFault>
    requires longest { longest_plain_name ≤ H.longest_name }
    requires lines { lines.now ≡ lines_of migration.now }
    requires within { k < length migration.now }
    requires stage { HasStage (AtStep migration.now k) (H.told host.old) }
    ensures ok { OnOk result (Leads (AtStep migration.now k)
        (AtStep migration.now (suc k)) (H.told host.old) (H.told host.new)) }
    ensures err { IfErr result (λ fault. Leads (AtStep migration.now k)
        (Stops migration.now fault) (H.told host.old) (H.told host.new)) }
    ensures any_moment { LeavesAt H.moment H.left_since H.told migration.now
        (AtStep migration.now k) host.old host.new }
    ensures later { H.moment host.old ≤ H.moment host.new }
    ensures counts { MayRise (H.counts host.old) (H.counts host.new) }
    ensures cause { IfErr result (HasCause (H.counts host.old) (H.counts host.new)) }
    ensures goes { H.goes_on host.old host.new }
{
    put_next(host, migration, k)?;
    tell_next(host, migration, lines, k)
}

/// Puts the file of the one behind the first `k`.
fn put_next<H: Host>(host: &mut H, migration: &Migration, k: usize) -> Result<(), MigrateFault>
    requires longest { longest_plain_name ≤ H.longest_name }
    requires within { k < length migration.now }
    requires stage { HasStage (AtStep migration.now k) (H.told host.old) }
    ensures ok { OnOk result (Leads (AtStep migration.now k)
        (AtPut migration.now k) (H.told host.old) (H.told host.new)) }
    ensures err { IfErr result (λ fault. Leads (AtStep migration.now k)
        (Stops migration.now fault) (H.told host.old) (H.told host.new)) }
    ensures any_moment { LeavesAt H.moment H.left_since H.told migration.now
        (AtStep migration.now k) host.old host.new }
    ensures later { H.moment host.old ≤ H.moment host.new }
    ensures counts { MayRise (H.counts host.old) (H.counts host.new) }
    ensures cause { IfErr result (HasCause (H.counts host.old) (H.counts host.new)) }
    ensures goes { H.goes_on host.old host.new }
{
    match put_one(host, migration, k) {
        Ok(()) => Ok(()),
        Err(_) => Err(MigrateFault::Disk { step: k }),
    }
}

/// Prints the line of the one behind the first `k`.
fn tell_next<H: Host>(
    host: &mut H,
    migration: &Migration,
    lines: &Names,
    k: usize,
) -> Result<(), MigrateFault>
    requires lines { lines.now ≡ lines_of migration.now }
    requires within { k < length migration.now }
    requires stage { HasStage (AtPut migration.now k) (H.told host.old) }
    ensures ok { OnOk result (Leads (AtPut migration.now k)
        (AtStep migration.now (suc k)) (H.told host.old) (H.told host.new)) }
    ensures err { IfErr result (λ fault. Leads (AtPut migration.now k)
        (Stops migration.now fault) (H.told host.old) (H.told host.new)) }
    ensures any_moment { LeavesAt H.moment H.left_since H.told migration.now
        (AtPut migration.now k) host.old host.new }
    ensures later { H.moment host.old ≤ H.moment host.new }
    ensures counts { MayRise (H.counts host.old) (H.counts host.new) }
    ensures cause { IfErr result (HasCause (H.counts host.old) (H.counts host.new)) }
    ensures goes { H.goes_on host.old host.new }
{
    match host.print(lines.at(k).as_str().as_bytes()) {
        Ok(()) => Ok(()),
        Err(_) => Err(MigrateFault::Print { step: k }),
    }
}
