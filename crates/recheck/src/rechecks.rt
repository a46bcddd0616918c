//! The entries of a configuration gone through in order, and those without a verdict checked.
ghost use Rattle.std.specs.Prelude.{◌≡◌, ◌↔◌, ◌<◌, ◌≤◌, ℕ, List, [], ◌∷◌, length, IfOk, IsTrue, Some, is_some, slice_get, OnOk};
ghost use Rattle.conf_doc.specs.declared.configuration.Table.{Table};
ghost use Rattle.conf_check.specs.Validity.{IsValid, IsValidAt};
ghost use Rattle.recheck.specs.Entries.{entries_in, entries_of, entries_with_model};
ghost use Rattle.recheck.specs.Rechecks.{AreLooked, AreWalked, IsTableValid};
ghost use Rattle.recheck.specs.Verdicts.{AreSound};
ghost use Rattle.ref_index.specs.Agreements.{entry_of};

use crate::walks::Walk;
use conf_check::check_entry;
use conf_doc::Config;
use host_core::Memory;
use yang_model::Models;

/// Whether an entry breaks no rule.
pub(crate) fn is_valid_at(models: &Models, config: &Config, table: &str, key: &str) -> bool
    ensures { IsTrue result ↔ IsValidAt models.now config.now table.now key.now }
{
    match check_entry(models, config, table, key) {
        Ok(()) => true,
        Err(_) => false,
    }
}

/// Both of two answers.
fn both(first: bool, second: bool) -> bool
    ensures { IsTrue result ↔ (IsTrue first × IsTrue second) }
{
    first && second
}

/// Whether an entry breaks no rule: it has a verdict, or it is checked and counted, and gets one if it breaks
/// none.
fn check_at(
    walk: &mut Walk,
    checked: &mut u64,
    models: &Models,
    config: &Config,
    table: &str,
    key: &str,
) -> Result<bool, Memory>
    requires there { IsTrue (is_some (entry_of table.now key.now config.now)) }
    requires sound { AreSound models.now config.now walk.old.verdicts.items }
    ensures valid { IfOk result
        (λ b. IsTrue b ↔ IsValidAt models.now config.now table.now key.now) }
    ensures sound { AreSound models.now config.now walk.new.verdicts.items }
    ensures rises { checked.old ≤ checked.new }
    ensures walked { let before = walk.old.verdicts.items in let after = walk.new.verdicts.items in
        IfOk result (AreWalked ((table.now, key.now) ∷ []) before walk.old.behind
        after walk.new.behind checked.old checked.new) }
    ensures looked { OnOk result
        (AreLooked models.now config.now ((table.now, key.now) ∷ [])
        walk.old.verdicts.items walk.new.verdicts.items) }
{
    if walk.passes(table, key) {
        return Ok(true);
    }
    *checked = checked.saturating_add(1);
    if !is_valid_at(models, config, table, key) {
        return Ok(false);
    }
    walk.note(table, key)?;
    Ok(true)
}

/// Whether no entry of a table breaks a rule.
fn check_keys(
    walk: &mut Walk,
    checked: &mut u64,
    models: &Models,
    config: &Config,
    table: usize,
) -> Result<bool, Memory>
    requires within { table < length config.now }
    requires sound { AreSound models.now config.now walk.old.verdicts.items }
    ensures valid { IfOk result (λ b. IsTrue b ↔ IsTableValid models.now config.now table) }
    ensures sound { AreSound models.now config.now walk.new.verdicts.items }
    ensures rises { checked.old ≤ checked.new }
    ensures walked { let before = walk.old.verdicts.items in let after = walk.new.verdicts.items in
        (p : List ℕ × Table) → slice_get config.now table ≡ Some p →
        IfOk result (AreWalked (entries_in p) before walk.old.behind
        after walk.new.behind checked.old checked.new) }
    ensures looked { (p : List ℕ × Table) → slice_get config.now table ≡ Some p →
        OnOk result
        (AreLooked models.now config.now (entries_in p)
        walk.old.verdicts.items walk.new.verdicts.items) }
{
    let name = config.name_at(table);
    let entries = config.part_at(table);
    let mut valid = true;
    for i in 0..entries.len() {
        let holds = check_at(walk, checked, models, config, name, entries.name_at(i))?;
        valid = both(valid, holds);
    }
    Ok(valid)
}

/// The same, where the table has a model. In one without a model nothing is looked at.
fn check_table(
    walk: &mut Walk,
    checked: &mut u64,
    models: &Models,
    config: &Config,
    table: usize,
) -> Result<bool, Memory>
    requires within { table < length config.now }
    requires sound { AreSound models.now config.now walk.old.verdicts.items }
    ensures valid { IfOk result (λ b. IsTrue b ↔ IsTableValid models.now config.now table) }
    ensures sound { AreSound models.now config.now walk.new.verdicts.items }
    ensures rises { checked.old ≤ checked.new }
    ensures walked { let before = walk.old.verdicts.items in let after = walk.new.verdicts.items in
        (p : List ℕ × Table) → slice_get config.now table ≡ Some p →
        IfOk result (AreWalked (entries_with_model models.now p) before walk.old.behind
        after walk.new.behind checked.old checked.new) }
    ensures looked { (p : List ℕ × Table) → slice_get config.now table ≡ Some p →
        OnOk result
        (AreLooked models.now config.now (entries_with_model models.now p)
        walk.old.verdicts.items walk.new.verdicts.items) }
{
    if models.modelled(config.name_at(table)) {
        check_keys(walk, checked, models, config, table)
    } else {
        Ok(true)
    }
}

/// Whether a configuration breaks no rule. Entries without a verdict are checked, and those that break none get one.
pub(crate) fn check_rest(
    walk: &mut Walk,
    checked: &mut u64,
    models: &Models,
    config: &Config,
) -> Result<bool, Memory>
    requires sound { AreSound models.now config.now walk.old.verdicts.items }
    ensures valid { IfOk result (λ b. IsTrue b ↔ IsValid models.now config.now) }
    ensures sound { AreSound models.now config.now walk.new.verdicts.items }
    ensures rises { checked.old ≤ checked.new }
    ensures walked { let before = walk.old.verdicts.items in let after = walk.new.verdicts.items in
        IfOk result (AreWalked (entries_of models.now config.now) before walk.old.behind
        after walk.new.behind checked.old checked.new) }
    ensures looked { OnOk result
        (AreLooked models.now config.now (entries_of models.now config.now)
        walk.old.verdicts.items walk.new.verdicts.items) }
{
    let mut valid = true;
    for table in 0..config.len() {
        let holds = check_table(walk, checked, models, config, table)?;
        valid = both(valid, holds);
    }
    Ok(valid)
}
