//! A table of rows, filled from its last row on.
ghost use Rattle.std.specs.Prelude.{◌≡◌, ◌≤◌, IfOk};
ghost use Rattle.gcu_demo.specs.Demo.{most_ports, table_of};
ghost use Rattle.gcu_demo.specs.RowsOf.{AreRows, row};

use crate::rows::{Rows, put_row};
use conf_doc::Table;
use host_core::Memory;
use std::alloc::Global;

/// The table of so many rows.
pub(crate) fn fill_table(alloc: Global, rows: Rows, count: u32) -> Result<Table, Memory>
    requires number { count ≤ most_ports }
    requires within { AreRows rows }
    ensures { IfOk result (λ t. t ≡ table_of (row rows) count) }
{
    let mut table = Table::new(alloc);
    let mut i = count;
    while i > 0 {
        i -= 1;
        table = put_row(alloc, rows, i, &table)?;
    }
    Ok(table)
}
