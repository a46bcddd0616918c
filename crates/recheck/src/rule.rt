//! The rule that each step leads to a valid configuration, with what it keeps between calls.
ghost use Rattle.std.specs.Prelude.{◌≡◌, ◌↔◌, ◌≤◌, ◌+◌, ℕ, if◌then◌else◌, IfOk, IfSome, IsTrue, Some, is_some, min};
ghost use Rattle.conf_check.specs.Validity.{IsValid};
ghost use Rattle.move_core.specs.Contexts.{rulebook};
ghost use Rattle.move_core.specs.Rules.{Passes};
ghost use Rattle.recheck.specs.Counts.{AreCounted, AreLeft, AreStillKept, IsCount, IsOneCounted, IsRaised, IsTold, number_of};
ghost use Rattle.recheck.specs.Entries.{greatest};
ghost use Rattle.recheck.specs.SoleEntries.{IsSole};
ghost use Rattle.ref_index.specs.Agreements.{entry_of};

use crate::alone::has_entry;
use crate::kept::Kept;
use crate::losses::first_loser;
use crate::rechecks::{check_rest, is_valid_at};
use crate::walks::Walk;
use conf_check::check;
use conf_doc::Config;
use host_core::Memory;
use move_core::{Ctx, Move, MoveRule};
use std::alloc::Global;
use yang_model::Models;

/// Each move leads to a configuration that is valid by its models. It keeps an index of the configuration
/// that it judged last and verdicts on entries of it, and checks what has none. Where an entry lost what it
/// wants it says no at once, and all that it keeps stays. Where memory is refused it keeps nothing, and tests
/// the whole configuration.
#[derive(Drop)]
pub struct RecheckRule {
    alloc: Global,
    checked: u64,
    kept: Option<Kept>,
}

/// How many entries a configuration has, or the greatest number.
fn count_entries(config: &Config) -> u64
    ensures { result ≡ min (number_of config.now) greatest }
{
    let mut count: u64 = 0;
    for i in 0..config.len() {
        count = count.saturating_add(config.part_at(i).len() as u64);
    }
    count
}

/// Whether a configuration breaks no rule of its models.
fn is_valid(models: &Models, config: &Config) -> bool
    ensures { IsTrue result ↔ IsValid models.now config.now }
{
    match check(models, config) {
        Ok(()) => true,
        Err(_) => false,
    }
}

/// What is kept, moved to the configuration after a move or made for it.
fn keep(
    alloc: Global,
    kept: Option<Kept>,
    models: &Models,
    config: &Config,
    mv: &Move,
) -> Result<Kept, Memory>
    requires { IfSome kept (λ k. k.index.models ≡ models.now) }
    ensures index { IfOk result
        (λ k. k.index ≡ record { models = models.now; config = config.now }) }
    ensures left { IfOk result (λ k. AreLeft models.now kept config.now k.verdicts.items) }
{
    match kept {
        Some(kept) => kept.follow(alloc, models, config, mv),
        None => Kept::build(alloc, models, config),
    }
}

/// Whether the configuration after a move is valid, by what is kept of another one, and what is kept then. The entries
/// without a verdict that is left are checked.
fn recheck_rest(
    alloc: Global,
    checked: &mut u64,
    kept: Option<Kept>,
    models: &Models,
    config: &Config,
    mv: &Move,
) -> Result<(bool, Kept), Memory>
    requires { IfSome kept (λ k. k.index.models ≡ models.now) }
    ensures valid { IfOk result (λ r. IsTrue r.0 ↔ IsValid models.now config.now) }
    ensures models { IfOk result (λ r. r.1.index.models ≡ models.now) }
    ensures rises { checked.old ≤ checked.new }
    ensures counts { IfOk result (λ r. IsRaised checked.old checked.new
        (λ count. AreCounted models.now kept config.now mv.now r.1 count r.0)) }
    ensures still { IfOk result
        (λ r. AreStillKept models.now kept config.now r.1.verdicts.items) }
{
    let Kept {
        index,
        verdicts,
        valid: _,
    } = keep(alloc, kept, models, config, mv)?;
    let mut walk = Walk::new(alloc, verdicts);
    let valid = check_rest(&mut walk, checked, models, config)?;
    let verdicts = walk.into_verdicts();
    Ok((
        valid,
        Kept {
            index,
            verdicts,
            valid,
        },
    ))
}

/// 1 where a configuration has an entry, else 0.
fn count_of(config: &Config, table: &str, key: &str) -> u64
    ensures { result ≡ (if is_some (entry_of table.now key.now config.now) then 1 else 0) }
{
    if has_entry(config, table, key) { 1 } else { 0 }
}

/// The same where it rests on one entry, which alone is checked, where it is there. If it breaks a rule, all that was
/// kept is kept.
fn recheck_entry(
    alloc: Global,
    checked: &mut u64,
    kept: Kept,
    models: &Models,
    config: &Config,
    table: &str,
    key: &str,
) -> Result<(bool, Kept), Memory>
    requires models { kept.index.models ≡ models.now }
    requires valid { IsTrue kept.valid }
    requires sole { IsSole models.now kept.index.config config.now table.now key.now }
    ensures valid { IfOk result (λ r. IsTrue r.0 ↔ IsValid models.now config.now) }
    ensures models { IfOk result (λ r. r.1.index.models ≡ models.now) }
    ensures rises { checked.old ≤ checked.new }
    ensures counts { IfOk result (λ r. IsRaised checked.old checked.new
        (λ count. IsOneCounted kept config.now table.now key.now r.1 count r.0)) }
    ensures still { IfOk result
        (λ r. AreStillKept models.now (Some kept) config.now r.1.verdicts.items) }
{
    *checked = checked.saturating_add(count_of(config, table, key));
    if !kept.allows(models, config, table, key) {
        return Ok((false, kept));
    }
    let kept = kept.move_beside(alloc, models, config, table, key)?;
    Ok((true, kept))
}

/// Whether the configuration after a move is valid, by what is kept of another one, and what is kept then.
fn recheck_kept(
    alloc: Global,
    checked: &mut u64,
    kept: Kept,
    models: &Models,
    config: &Config,
    mv: &Move,
) -> Result<(bool, Kept), Memory>
    requires { kept.index.models ≡ models.now }
    ensures valid { IfOk result (λ r. IsTrue r.0 ↔ IsValid models.now config.now) }
    ensures models { IfOk result (λ r. r.1.index.models ≡ models.now) }
    ensures rises { checked.old ≤ checked.new }
    ensures counts { IfOk result (λ r. IsRaised checked.old checked.new
        (λ count. AreCounted models.now (Some kept) config.now mv.now r.1 count r.0)) }
    ensures still { IfOk result
        (λ r. AreStillKept models.now (Some kept) config.now r.1.verdicts.items) }
{
    match kept.sole_entry(models, config, mv) {
        Some((table, key)) => recheck_entry(alloc, checked, kept, models, config, table, key),
        None => recheck_rest(alloc, checked, Some(kept), models, config, mv),
    }
}

/// The same where nothing may be kept.
fn recheck(
    alloc: Global,
    checked: &mut u64,
    kept: Option<Kept>,
    models: &Models,
    config: &Config,
    mv: &Move,
) -> Result<(bool, Kept), Memory>
    requires { IfSome kept (λ k. k.index.models ≡ models.now) }
    ensures valid { IfOk result (λ r. IsTrue r.0 ↔ IsValid models.now config.now) }
    ensures models { IfOk result (λ r. r.1.index.models ≡ models.now) }
    ensures rises { checked.old ≤ checked.new }
    ensures counts { IfOk result (λ r. IsRaised checked.old checked.new
        (λ count. AreCounted models.now kept config.now mv.now r.1 count r.0)) }
    ensures still { IfOk result
        (λ r. AreStillKept models.now kept config.now r.1.verdicts.items) }
{
    match kept {
        Some(kept) => recheck_kept(alloc, checked, kept, models, config, mv),
        None => recheck_rest(alloc, checked, None, models, config, mv),
    }
}

/// Whether an entry that a move took what it wants from tells that the configuration after it is invalid. Where
/// none tells it, the configuration may be invalid all the same.
fn is_told_invalid(kept: &Option<Kept>, models: &Models, next: &Config, mv: &Move) -> bool
    requires { IfSome kept.now (λ k. k.index.models ≡ models.now) }
    ensures invalid { IsTrue result → ¬ IsValid models.now next.now }
    ensures told { IsTrue result → IsTold models.now kept.now next.now mv.now }
{
    let Some(kept) = kept else {
        return false;
    };
    let Some(place) = first_loser(&kept.index, models, next, mv) else {
        return false;
    };
    !is_valid_at(models, next, place.table.as_str(), place.key.as_str())
}

impl RecheckRule {
    /// The rule, which keeps nothing yet and has checked nothing. It takes no memory.
    pub fn new(alloc: Global) -> RecheckRule
        ensures kind { ⟦<RecheckRule as MoveRule>⟧.rule_kind result ≡ 1 }
        ensures checked { result.checked ≡ 0 }
    {
        RecheckRule {
            alloc,
            checked: 0,
            kept: None,
        }
    }

    /// How many entries it has checked for violations since it was made, each once a call. It stays at the
    /// greatest number.
    pub fn checked(&self) -> u64
        ensures { result ≡ self.now.checked }
    {
        self.checked
    }
}

impl MoveRule for RecheckRule {
    ghost rule_kind = { λ _. 1 };

    ghost fits = { λ rule models. IfSome rule.kept (λ k. k.index.models ≡ models) };

    fn kind(&self) -> u32 {
        1
    }

    fn begin(&mut self, ctx: &Ctx)
        ensures fits { ⟦<RecheckRule as MoveRule>⟧.fits self.new ctx.now.models }
        ensures kind { ⟦<RecheckRule as MoveRule>⟧.rule_kind self.new
            ≡ ⟦<RecheckRule as MoveRule>⟧.rule_kind self.old }
        ensures checked { self.new.checked ≡ self.old.checked }
    {
        self.kept = None;
    }

    fn allows(&mut self, ctx: &Ctx, _cur: &Config, next: &Config, _goal: &Config, mv: &Move) -> bool
        requires { ⟦<RecheckRule as MoveRule>⟧.fits self.old ctx.now.models }
        ensures allows { IsTrue result
            ↔ Passes (rulebook ctx.now) 1 _cur.now next.now mv.now }
        ensures fits { ⟦<RecheckRule as MoveRule>⟧.fits self.new ctx.now.models }
        ensures kind { ⟦<RecheckRule as MoveRule>⟧.rule_kind self.new
            ≡ ⟦<RecheckRule as MoveRule>⟧.rule_kind self.old }
        ensures checked { self.old.checked ≤ self.new.checked }
        ensures most { self.new.checked ≤ self.old.checked + number_of next.now }
        ensures counts { IsRaised self.old.checked self.new.checked
            (IsCount ctx.now.models self.old.kept self.new.kept next.now mv.now result) }
        ensures still { IfSome self.new.kept
            (λ k. AreStillKept ctx.now.models self.old.kept next.now k.verdicts.items) }
    {
        if is_told_invalid(&self.kept, &ctx.models, next, mv) {
            self.checked = self.checked.saturating_add(1);
            return false;
        }
        let kept = self.kept.take();
        let mut checked = self.checked;
        match recheck(self.alloc, &mut checked, kept, &ctx.models, next, mv) {
            Ok((valid, kept)) => {
                self.checked = checked;
                self.kept = Some(kept);
                valid
            }
            Err(Memory) => {
                self.checked = self.checked.saturating_add(count_entries(next));
                is_valid(&ctx.models, next)
            }
        }
    }
}
