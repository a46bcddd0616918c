//! `gcu migrate-checkpoints`: the files of the old format put anew in format 2.
ghost use Rattle.std.specs.Prelude.{◌≡◌, ◌≤◌, All, IfErr, IfOk, IfSome, Ok, option_map};
ghost use Rattle.host_core.specs.Counts.{NoneFell};
ghost use Rattle.host_core.specs.Crashes.{LeavesOnly};
ghost use Rattle.host_core.specs.Names.{longest_plain_name};
ghost use Rattle.host_core.specs.State.{settled, with_pending};
ghost use Rattle.conf_store.specs.Changes.{IsSettled};
ghost use Rattle.checkpoints.specs.Migrations.{IsDue};
ghost use Rattle.gcu_output.specs.declared.outcomes.Outcome.TheVariants.{Usage as usage};
ghost use Rattle.gcu_inputs.specs.Preparing.{Finds, Refuses};
ghost use Rattle.gcu_inputs.specs.Reads.{ReadsFiles};
ghost use Rattle.gcu_requests.specs.Asked.{migrate_asked, migration_asked, old_asked};
ghost use Rattle.gcu_requests.specs.Request.{migrate_checkpoints as migration_of};
ghost use Rattle.command_answers.specs.Answers.{HasCause, IsRefusal};
ghost use Rattle.command_answers.specs.Commands.{AnswersTo, CompleteTo, IsReady, LeftTo, LeftToMigration, LeftUnwritten};
ghost use Rattle.writing_commands.specs.FaultLines.{line_at};
ghost use Rattle.command_answers.specs.Migrating.{LeftMigrating};
ghost use Rattle.writing_commands.specs.Doing.{IsKeptOrSettled, LeavesSettled, SettlesWriting};
ghost use Rattle.writing_commands.specs.MigrationEnds.{EndsMigration, HasLines};

use crate::changing::end;
use crate::last_lines::disk_lines;
use checkpoints::{
    MigrateFault, Migration, PointError, migrate, migration_lines, prepare_migration,
};
use gcu_inputs::test_uninterrupted;
use gcu_output::{DONE_LINE, Outcome, tell};
use host_core::{Host, Memory, Names};
use std::alloc::Global;

/// A migration with every byte that it writes and prints.
#[derive(Drop)]
pub(crate) struct ReadyMigration {
    migration: Migration,
    /// The line of each checkpoint.
    told: Names,
    /// The last lines of a disk fault, by how many lines are printed before.
    faults: Names,
}

/// Puts the file of each checkpoint of the old format anew, in the order of the names, and prints a line for
/// each. Once all is ready no memory is asked for.
pub fn migrate_checkpoints<H: Host>(alloc: Global, host: &mut H) -> Outcome
    requires { longest_plain_name ≤ H.longest_name }
    ensures answers { AnswersTo migrate_asked
        (H.told host.old) (H.told host.new) (H.counts host.old) (H.counts host.new) result }
    ensures cause { HasCause (H.counts host.old) (H.counts host.new) result }
    ensures counts { NoneFell (H.counts host.old) (H.counts host.new) }
    ensures crash { LeavesOnly H.moment H.left_since host.old host.new
        (LeftToMigration migrate_asked (H.told host.old)) }
    // After a refusal, want of memory too, nothing was written before.
    ensures early { IsRefusal result → LeavesOnly H.moment H.left_since host.old host.new
        (LeftUnwritten (H.told host.old)) }
    // What is pending is settled before anything is written.
    ensures settles { SettlesWriting H.moment H.left_since host.old host.new (H.told host.old)
        (LeftToMigration migrate_asked) }
    ensures goes { H.goes_on host.old host.new }
    ensures form { result ≡ usage → ⊥ }
    ensures complete { CompleteTo migrate_asked
        (H.told host.old) (H.counts host.old) (H.counts host.new) result }
{
    match make_ready(alloc, host) {
        Ok(ready) => do_migration(&ready, host),
        Err(refusal) => tell(alloc, Err(refusal), host),
    }
}

/// Settles what is pending, and makes every byte of the migration.
fn make_ready<H: Host>(alloc: Global, host: &mut H) -> Result<ReadyMigration, Outcome>
    requires { longest_plain_name ≤ H.longest_name }
    ensures ready { IfOk result (λ r. IfSome (H.told host.old)
        (λ s. (migrate_asked s).Gives (Ok (migration_of r.migration)))) }
    ensures due { IfOk result (λ r. IfSome (H.told host.new)
        (λ s. All (λ n. IsDue n s.files) r.migration)) }
    ensures lines { IfOk result HasLines }
    ensures told { IfOk result (λ _.
        H.told host.new ≡ option_map (with_pending settled) (H.told host.old)) }
    ensures left { IfErr result (IsReady migrate_asked (H.told host.old) (H.told host.new)) }
    ensures counts { NoneFell (H.counts host.old) (H.counts host.new) }
    ensures cause { IfErr result (Refuses (H.counts host.old) (H.counts host.new)) }
    ensures crash { LeavesOnly H.moment H.left_since host.old host.new
        (LeftTo migrate_asked (H.told host.old)) }
    ensures early { LeavesOnly H.moment H.left_since host.old host.new
        (LeftUnwritten (H.told host.old)) }
    ensures settles { IfErr result (IsKeptOrSettled H.moment H.left_since host.old host.new
        (H.told host.old) (H.told host.new) migrate_asked) }
    ensures settled { IfOk result (λ _. LeavesSettled
        H.moment H.left_since host.old host.new (H.told host.old) (LeftTo migrate_asked)) }
    ensures goes { H.goes_on host.old host.new }
{
    match host.settle() {
        Ok(()) => ready_settled(alloc, host),
        Err(_) => Err(Outcome::DiskFault { step: 0 }),
    }
}

/// Makes every byte of the migration, with nothing pending, where no change was stopped before its end.
fn ready_settled<H: Host>(alloc: Global, host: &mut H) -> Result<ReadyMigration, Outcome>
    requires { longest_plain_name ≤ H.longest_name }
    ensures answer { Finds (H.told host.old) (λ r. migration_of r.migration) result
        migration_asked }
    ensures due { IfOk result (λ r. IfSome (H.told host.old)
        (λ s. All (λ n. IsDue n s.files) r.migration)) }
    ensures lines { IfOk result HasLines }
    ensures reads { ReadsFiles H.told H.counts H.moment H.left_since H.goes_on host.old host.new }
    ensures cause { IfErr result (Refuses (H.counts host.old) (H.counts host.new)) }
{
    test_uninterrupted(alloc, host)?;
    prepare_lines(alloc, host)
}

/// Makes every byte of the migration, whether a change was stopped or not.
fn prepare_lines<H: Host>(alloc: Global, host: &mut H) -> Result<ReadyMigration, Outcome>
    requires { longest_plain_name ≤ H.longest_name }
    ensures answer { Finds (H.told host.old) (λ r. migration_of r.migration) result old_asked }
    ensures due { IfOk result (λ r. IfSome (H.told host.old)
        (λ s. All (λ n. IsDue n s.files) r.migration)) }
    ensures lines { IfOk result HasLines }
    ensures reads { ReadsFiles H.told H.counts H.moment H.left_since H.goes_on host.old host.new }
    ensures cause { IfErr result (Refuses (H.counts host.old) (H.counts host.new)) }
{
    let migration = find_migration(alloc, host)?;
    let ready = with_lines(alloc, migration)?;
    Ok(ready)
}

/// The checkpoints of the old format, with their new texts.
fn find_migration<H: Host>(alloc: Global, host: &mut H) -> Result<Migration, Outcome>
    requires { longest_plain_name ≤ H.longest_name }
    ensures answer { Finds (H.told host.old) migration_of result old_asked }
    ensures due { IfOk result (λ m. IfSome (H.told host.old) (λ s. All (λ n. IsDue n s.files) m)) }
    ensures reads { ReadsFiles H.told H.counts H.moment H.left_since H.goes_on host.old host.new }
    ensures cause { IfErr result (Refuses (H.counts host.old) (H.counts host.new)) }
{
    match prepare_migration(alloc, host) {
        Ok(migration) => Ok(migration),
        Err(PointError::Disk) => Err(Outcome::DiskFault { step: 0 }),
        Err(PointError::Memory) => Err(Outcome::Memory),
        Err(_) => unreachable!(),
    }
}

/// A migration with all that it prints but the line of Done.
fn with_lines(alloc: Global, migration: Migration) -> Result<ReadyMigration, Memory>
    ensures same { IfOk result (λ r. r.migration ≡ migration) }
    ensures lines { IfOk result HasLines }
{
    let told = migration_lines(alloc, &migration)?;
    let faults = disk_lines(alloc, migration.len())?;
    Ok(ReadyMigration {
        migration,
        told,
        faults,
    })
}

/// Does a migration whose lines are ready, and prints the last one.
fn do_migration<H: Host>(ready: &ReadyMigration, host: &mut H) -> Outcome
    requires longest { longest_plain_name ≤ H.longest_name }
    requires clean { IfSome (H.told host.old) IsSettled }
    requires due { IfSome (H.told host.old) (λ s. All (λ n. IsDue n s.files) ready.now.migration) }
    requires lines { HasLines ready.now }
    ensures answers { EndsMigration ready.now.migration
        (H.told host.old) (H.told host.new) (H.counts host.old) (H.counts host.new) result }
    ensures cause { HasCause (H.counts host.old) (H.counts host.new) result }
    ensures counts { NoneFell (H.counts host.old) (H.counts host.new) }
    ensures any_moment { IfSome (H.told host.old) (λ s.
        LeavesOnly H.moment H.left_since host.old host.new (LeftMigrating ready.now.migration s)) }
    ensures later { H.moment host.old ≤ H.moment host.new }
    ensures goes { H.goes_on host.old host.new }
    ensures works { IsRefusal result → ⊥ }
    ensures form { result ≡ usage → ⊥ }
{
    match migrate(host, &ready.migration, &ready.told) {
        Ok(()) => end(Outcome::Done, DONE_LINE, ready.migration.len(), host),
        Err(MigrateFault::Disk { step }) => {
            let line = ready.fault_line(step);
            end(Outcome::DiskFault { step }, line, step, host)
        }
        Err(MigrateFault::Print { step }) => Outcome::PrintFault { step },
    }
}

impl ReadyMigration {
    /// The last line of a disk fault behind so many lines.
    fn fault_line(&self, step: usize) -> &[u8]
        ensures { result.now ≡ line_at self.now.faults step }
    {
        if step >= self.faults.len() {
            return "".as_bytes();
        }
        self.faults.at(step).as_str().as_bytes()
    }
}
