//! Whether a change of one entry may turn no other: no must reads its table, and where its key goes no want can
//! dangle, since no entry wants a part of it.
ghost use Rattle.std.specs.Prelude.{◌≡◌, ◌⊎◌, ℕ, IsTrue, is_some};
ghost use Rattle.std.specs.Bool.{OnFalse};
ghost use Rattle.std.specs.List.{All};
ghost use Rattle.recheck.specs.Changes.{AreAmong, IsOnGone, IsPartUnwanted, IsTextUnwanted};
ghost use Rattle.recheck.specs.SoleEntries.{IsUnread, IsUnwanted, StandsAlone};
ghost use Rattle.recheck.specs.Turned.{IsOn};
ghost use Rattle.recheck.specs.Within.{IsLeft};
ghost use Rattle.ref_index.specs.Agreements.{entry_of};

use crate::musts::may_read;
use crate::verdicts::{Verdict, drop_at};
use conf_doc::Config;
use key_split::KeyView;
use ref_index::RefIndex;
use yang_model::Models;

/// Whether a configuration has an entry of a table at a key.
pub(crate) fn has_entry(config: &Config, table: &str, key: &str) -> bool
    ensures { result ≡ is_some (entry_of table.now key.now config.now) }
{
    config.entry(table, key).is_some()
}

/// Whether no shape of the tables of a configuration has a must that reads a table.
fn is_unread(models: &Models, config: &Config, table: &str) -> bool
    ensures { IsTrue result → IsUnread models.now config.now table.now }
{
    for t in 0..config.len() {
        if may_read(models, config.name_at(t), table) {
            return false;
        }
    }
    true
}

/// Whether some entry wants a text as a part of a key of a shape of a table, or the part has a number that no want has.
fn is_part_wanted(index: &RefIndex, table: &str, shape: u32, part: usize, text: &str) -> bool
    ensures { OnFalse result
        (IsTextUnwanted index.now.models index.now.config table.now shape part text.now) }
{
    match u32::try_from(part) {
        Ok(part) => !index.referrers(table, shape, part, text).is_empty(),
        Err(_) => true,
    }
}

/// The same of a part of a key, where the key has it.
fn is_part_of_wanted(index: &RefIndex, table: &str, shape: u32, key: &KeyView, part: usize) -> bool
    ensures { OnFalse result
        (IsPartUnwanted index.now.models index.now.config table.now shape key.now part) }
{
    match key.part(part) {
        Some(text) => is_part_wanted(index, table, shape, part, text),
        None => false,
    }
}

/// The same of any part of a key.
fn is_some_part_wanted(index: &RefIndex, table: &str, shape: u32, key: &KeyView) -> bool
    ensures { OnFalse result ((part : ℕ) →
        IsPartUnwanted index.now.models index.now.config table.now shape key.now part) }
{
    for part in 0..key.parts() {
        if is_part_of_wanted(index, table, shape, key, part) {
            return true;
        }
    }
    false
}

/// Whether some entry may want what an entry of that key has as a part of it.
fn is_wanted(models: &Models, index: &RefIndex, table: &str, key: &str) -> bool
    requires { index.now.models ≡ models.now }
    ensures { OnFalse result (IsUnwanted models.now index.now.config table.now key.now) }
{
    let view = KeyView::new(key);
    match models.list_of(table, &view) {
        Some(shape) => is_some_part_wanted(index, table, shape, &view),
        None => false,
    }
}

/// Whether the change of an entry from the configuration of the index to the next one may turn no other entry.
pub(crate) fn stands_alone(
    models: &Models,
    index: &RefIndex,
    next: &Config,
    table: &str,
    key: &str,
) -> bool
    requires { index.now.models ≡ models.now }
    ensures { IsTrue result
        → StandsAlone models.now index.now.config next.now table.now key.now }
{
    if !models.modelled(table) {
        return false;
    }
    if !is_unread(models, index.config(), table) {
        return false;
    }
    if has_entry(next, table, key) {
        return true;
    }
    !is_wanted(models, index, table, key)
}

/// Drops the verdict on an entry that is gone in the next configuration.
pub(crate) fn drop_if_gone(verdicts: &mut Vec<Verdict>, next: &Config, table: &str, key: &str)
    ensures among { AreAmong verdicts.old.items verdicts.new.items }
    ensures there { IsTrue (is_some (entry_of table.now key.now next.now))
        ⊎ All (λ v. ¬ IsOn table.now key.now v) verdicts.new.items }
    ensures left { IsLeft (IsOnGone next.now table.now key.now)
        verdicts.old.items verdicts.new.items }
{
    if has_entry(next, table, key) {
        return;
    }
    drop_at(verdicts, table, key);
}
