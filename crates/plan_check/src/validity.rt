//! The first rule: whether a step leads to a valid configuration. Behind a valid one a step within an entry of a table
//! that no must reads is judged by that entry alone: the others are as they were, and find all keys that they found.
ghost use Rattle.std.specs.Prelude.{◌↔◌, IsTrue};
ghost use Rattle.std.specs.Bool.{OnFalse};
ghost use Rattle.std.specs.List.{Contains};
ghost use Rattle.conf_check.specs.Validity.{IsValid, IsValidAt};
ghost use Rattle.move_core.specs.Contexts.{IsResult};
ghost use Rattle.move_core.specs.Moves.{place};
ghost use Rattle.move_core.specs.Services.{table_of};
ghost use Rattle.plan_check.specs.OneEntry.{HasReader, IsUnread, IsUnreadBy, KeepsKeys};

use conf_check::{belongings_are_one, check, check_entry, musts_have_one_truth};
use conf_doc::Config;
use move_core::Move;
use yang_model::{Models, MustRule, Shape};

/// Whether a configuration is valid by its models.
fn is_valid(models: &Models, config: &Config) -> bool
    ensures { IsTrue result ↔ IsValid models.now config.now }
{
    check(models, config).is_ok()
}

/// Whether an entry is, where it is there.
fn is_valid_at(models: &Models, config: &Config, table: &str, key: &str) -> bool
    ensures { IsTrue result ↔ IsValidAt models.now config.now table.now key.now }
{
    check_entry(models, config, table, key).is_ok()
}

/// Whether a must reads a table.
fn reads(must: &MustRule, table: &str) -> bool
    ensures { IsTrue result ↔ Contains must.now.reads table.now }
{
    must.reads.items().iter().any(|name| name.as_str() == table)
}

/// Whether a must of a shape does.
fn has_reader(shape: &Shape, table: &str) -> bool
    ensures { IsTrue result ↔ HasReader table.now shape.now }
{
    shape.musts.items().iter().any(|must| reads(must, table))
}

/// Whether a must of some shape of a table of that name may read another table.
fn may_read(models: &Models, name: &str, table: &str) -> bool
    ensures { OnFalse result (IsUnreadBy models.now table.now name.now) }
{
    for place in 0..u32::MAX {
        let Some(shape) = models.shape_at(name, place) else {
            return false;
        };
        if has_reader(shape, table) {
            return true;
        }
    }
    true
}

/// Whether no must of the tables of a configuration reads a table.
fn is_unread(models: &Models, config: &Config, table: &str) -> bool
    ensures { IsTrue result → IsUnread models.now config.now table.now }
{
    for i in 0..config.len() {
        if may_read(models, config.name_at(i), table) {
            return false;
        }
    }
    true
}

/// Whether a move stands within an entry, and takes no key away.
fn keeps_keys(mv: &Move) -> bool
    ensures { IsTrue result → KeepsKeys mv.now }
{
    let names = mv.place().len();
    names > 2 || names > 1 && mv.new_part().is_some()
}

/// Whether a step leads to a valid configuration, by its entry alone.
fn is_valid_there(models: &Models, cur: &Config, next: &Config, mv: &Move) -> bool
    requires result { IsResult cur.now mv.now next.now }
    requires valid { IsValid models.now cur.now }
    requires keeps { KeepsKeys mv.now }
    requires unread { IsUnread models.now next.now (table_of (place mv.now)) }
    ensures { IsTrue result ↔ IsValid models.now next.now }
{
    let _before = cur.len();
    let _after = next.len();
    belongings_are_one(models, cur);
    belongings_are_one(models, next);
    musts_have_one_truth();
    models.have_files();
    let place = mv.place();
    is_valid_at(models, next, place.name_at(0), place.name_at(1))
}

/// Whether a step leads to a valid configuration, where it may be known that the one before it is.
pub(crate) fn leads_to_valid(
    models: &Models,
    is_known: bool,
    cur: &Config,
    next: &Config,
    mv: &Move,
) -> bool
    requires result { IsResult cur.now mv.now next.now }
    requires known { IsTrue is_known → IsValid models.now cur.now }
    ensures { IsTrue result ↔ IsValid models.now next.now }
{
    if is_known && keeps_keys(mv) && is_unread(models, next, mv.table()) {
        return is_valid_there(models, cur, next, mv);
    }
    is_valid(models, next)
}
