//! The lines of a migration.
ghost use Rattle.std.specs.Prelude.{◌≡◌, IfOk};
ghost use Rattle.checkpoints.specs.MigrationLines.{lines_of, migrated_line as line_of};

use crate::Migration;
use host_core::{Memory, Names, Txt};
use std::alloc::Global;

/// The lines that tell of the checkpoints of a migration, in their order: all that it prints but its last line.
pub fn migration_lines(alloc: Global, migration: &Migration) -> Result<Names, Memory>
    ensures { IfOk result (λ lines. lines ≡ lines_of migration.now) }
{
    let mut lines = Names::new(alloc);
    for i in 0..migration.len() {
        let line = migrated_line(alloc, migration.name_at(i))?;
        lines.push(line)?;
    }
    Ok(lines)
}

/// The line of a checkpoint.
fn migrated_line(alloc: Global, name: &str) -> Result<Txt, Memory>
    ensures { IfOk result (λ line. line ≡ line_of name.now) }
{
    let line = format!(in alloc; "migrated {name}\n")?;
    Ok(Txt::from(line))
}
