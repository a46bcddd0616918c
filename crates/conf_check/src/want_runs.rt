//! The wants of a configuration, and those of one entry.
ghost use Rattle.std.specs.Prelude.{◌≡◌, ◌↔◌};
ghost use Rattle.conf_check.specs.Rows.{IsEntryAt};
ghost use Rattle.conf_check.specs.WantRuns.{IsWantAhead};
ghost use Rattle.conf_check.specs.Wants.{IsWantAt};

use crate::first_wants::start_of_entry;
use crate::name_places::place_of_entry;
use crate::want_iter::WantIter;
use conf_doc::Config;
use yang_model::Models;

/// The wants of a configuration, in the order of tables, keys, parts of the key, fields and items. They
/// are borrows: no memory is taken.
pub fn wants<'a>(models: &'a Models, config: &'a Config) -> WantIter<'a>
    ensures models { result.models.now ≡ models.now }
    ensures config { result.config.now ≡ config.now }
    ensures ahead { (p w : _) →
        IsWantAt models.now config.now p w → IsWantAhead result p w }
{
    WantIter::of_configuration(models, config)
}

/// The wants of the entry of a key of a table, in the order of parts of the key, fields and items. An
/// entry that isn't there has none, and one of a table without a model has none. They are borrows: no
/// memory is taken.
pub fn entry_wants<'a>(
    models: &'a Models,
    config: &'a Config,
    table: &str,
    key: &str,
) -> WantIter<'a>
    ensures models { result.models.now ≡ models.now }
    ensures config { result.config.now ≡ config.now }
    ensures ahead { (p w : _) → IsWantAhead result p w
        ↔ (IsEntryAt config.now table.now key.now p.table p.key
        × IsWantAt models.now config.now p w) }
{
    let from = match place_of_entry(config, table, key) {
        Some((table, key)) => start_of_entry(table, key),
        None => start_of_entry(config.len(), 0),
    };
    WantIter::of_entry(models, config, from)
}
