//! Whether a move takes a key away.
ghost use Rattle.std.specs.Prelude.{◌↔◌, map, IsTrue};
ghost use Rattle.move_core.specs.Contexts.{IsResult};
ghost use Rattle.move_core.specs.Moves.{place};
ghost use Rattle.move_core.specs.Services.{table_of};
ghost use Rattle.move_extend.specs.KeptKeys.{HasKeys, KeepsAlways, KeepsKey, KeepsKeys};

use conf_doc::{Config, Table};
use move_core::Move;

/// Whether a move keeps each key of any configuration: it changes a field, or puts an entry.
pub(crate) fn keeps_always(mv: &Move) -> bool
    ensures { IsTrue result → KeepsAlways mv.now }
{
    match mv.new_part() {
        Some(_) => mv.place().len() > 1,
        None => mv.place().len() > 2,
    }
}

/// Whether an entry is in next where it is in cur.
fn keeps_key(cur: &Config, next: &Config, table: &str, key: &str) -> bool
    ensures { IsTrue result ↔ KeepsKey cur.now next.now table.now key.now }
{
    !cur.has_entry(table, key) || next.has_entry(table, key)
}

/// Whether next has each key of a table.
fn has_keys(next: &Config, table: &str, entries: &Table) -> bool
    ensures { IsTrue result → HasKeys next.now table.now (map (λ e. e.0) entries.now) }
{
    for i in 0..entries.len() {
        if !next.has_entry(table, entries.name_at(i)) {
            return false;
        }
    }
    true
}

/// Whether next has each key that a table has in cur.
fn keeps_table(cur: &Config, next: &Config, table: &str) -> bool
    ensures { IsTrue result → KeepsKeys cur.now next.now table.now }
{
    match cur.table(table) {
        Some(entries) => has_keys(next, table, entries),
        None => true,
    }
}

/// Whether a move keeps each key of its table. Only its own key is looked at, where its place names one.
pub(crate) fn keeps_keys(cur: &Config, next: &Config, mv: &Move) -> bool
    requires { IsResult cur.now mv.now next.now }
    ensures { IsTrue result → KeepsKeys cur.now next.now (table_of (place mv.now)) }
{
    let place = mv.place();
    if place.len() > 1 {
        keeps_key(cur, next, mv.table(), place.name_at(1))
    } else {
        keeps_table(cur, next, mv.table())
    }
}
