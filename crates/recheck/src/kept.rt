//! What is kept between calls: an index of referrers with its configuration, and verdicts on entries of it.
ghost use Rattle.std.specs.Prelude.{◌≡◌, ◌↔◌, ◌≤◌, [], length, IfOk, IfSome, IsTrue};
ghost use Rattle.conf_check.specs.Validity.{IsValid};
ghost use Rattle.recheck.specs.SoleEntries.{IsKeptValid, IsSole, IsSoleEntry};
ghost use Rattle.recheck.specs.Turned.{IsTurned};
ghost use Rattle.recheck.specs.Entries.{AreOrdered};
ghost use Rattle.recheck.specs.Verdicts.{AreKept};
ghost use Rattle.recheck.specs.Within.{IsLeft};
ghost use Rattle.ref_index.specs.Agreements.{AgreeBut};
ghost use Rattle.std.proofs.Props.{props};

use crate::agreements::agree_but;
use crate::alone::{drop_if_gone, stands_alone};
use crate::changes::{drop_changed, drop_entry};
use crate::rechecks::is_valid_at;
use crate::verdicts::Verdict;
use conf_check::musts_have_one_truth;
use conf_doc::Config;
use host_core::Memory;
use move_core::Move;
use ref_index::RefIndex;
use std::alloc::Global;
use yang_model::Models;

/// An index of referrers, verdicts that are true in its configuration by its models, and whether that is known to be
/// valid as a whole.
#[derive(Drop)]
pub(crate) struct Kept {
    pub(crate) index: RefIndex,
    pub(crate) verdicts: Vec<Verdict>,
    pub(crate) valid: bool,
    pub(crate) ghost sound: { AreKept index verdicts.items } by { Prim.hlevel props },
    pub(crate) ghost ordered: { AreOrdered index verdicts.items } by { Prim.hlevel props },
    pub(crate) ghost few: { length verdicts.items ≤ 4096 },
    pub(crate) ghost whole: { IsKeptValid index valid } by { Prim.hlevel props },
}

impl Kept {
    /// The index of a configuration, with no verdict.
    pub(crate) fn build(alloc: Global, models: &Models, config: &Config) -> Result<Kept, Memory>
        ensures index { IfOk result
            (λ k. k.index ≡ record { models = models.now; config = config.now }) }
        ensures none { IfOk result (λ k. k.verdicts.items ≡ []) }
    {
        Ok(Kept {
            index: RefIndex::build(alloc, models, config)?,
            verdicts: Vec::new(alloc),
            valid: false,
        })
    }

    /// The index moved to another configuration, with the verdicts that stay true there.
    fn move_to(self, alloc: Global, models: &Models, next: &Config) -> Result<Kept, Memory>
        requires { self.index.models ≡ models.now }
        ensures index { IfOk result
            (λ k. k.index ≡ record { models = models.now; config = next.now }) }
        ensures left { IfOk result (λ k. IsLeft (IsTurned models.now self.index.config next.now)
            self.verdicts.items k.verdicts.items) }
    {
        let Kept {
            mut index,
            mut verdicts,
            valid: _,
        } = self;
        drop_changed(&mut verdicts, models, &index, next);
        index.move_to(alloc, models, next)?;
        Ok(Kept {
            index,
            verdicts,
            valid: false,
        })
    }

    /// The same where both configurations agree but for one entry.
    fn move_by(
        self,
        alloc: Global,
        models: &Models,
        next: &Config,
        table: &str,
        key: &str,
    ) -> Result<Kept, Memory>
        requires models { self.index.models ≡ models.now }
        requires agree { AgreeBut self.index.config next.now table.now key.now }
        ensures index { IfOk result
            (λ k. k.index ≡ record { models = models.now; config = next.now }) }
        ensures left { IfOk result (λ k. IsLeft (IsTurned models.now self.index.config next.now)
            self.verdicts.items k.verdicts.items) }
    {
        let Kept {
            mut index,
            mut verdicts,
            valid: _,
        } = self;
        drop_entry(&mut verdicts, models, &index, next, table, key);
        index.move_by(alloc, models, next, table, key)?;
        Ok(Kept {
            index,
            verdicts,
            valid: false,
        })
    }

    /// The entry of a move, where the configuration of the index is valid, agrees with the next one but for that entry,
    /// and has no other that its change may turn. Then the next one is valid where that entry is.
    pub(crate) fn sole_entry<'m>(
        &self,
        models: &Models,
        next: &Config,
        mv: &'m Move,
    ) -> Option<(&'m str, &'m str)>
        requires { self.now.index.models ≡ models.now }
        ensures { IfSome result (λ e. IsTrue self.now.valid
            × IsSoleEntry models.now self.now.index.config next.now mv.now e.0.now e.1.now) }
    {
        let place = mv.place();
        if !self.valid {
            return None;
        }
        if place.len() < 2 {
            return None;
        }
        let table = place.name_at(0);
        let key = place.name_at(1);
        if !stands_alone(models, &self.index, next, table, key) {
            return None;
        }
        if !agree_but(self.index.config(), next, table, key) {
            return None;
        }
        Some((table, key))
    }

    /// Whether the next configuration is valid, where that rests on one entry alone.
    pub(crate) fn allows(&self, models: &Models, next: &Config, table: &str, key: &str) -> bool
        requires models { self.now.index.models ≡ models.now }
        requires valid { IsTrue self.now.valid }
        requires sole { IsSole models.now self.now.index.config next.now table.now key.now }
        ensures { IsTrue result ↔ IsValid models.now next.now }
    {
        // a must has one truth where its entry and the tables that it reads are the same
        musts_have_one_truth();
        models.have_files();
        let _ = self.index.config().len();
        let _ = next.len();
        is_valid_at(models, next, table, key)
    }

    /// The index moved to a configuration that is valid and agrees with its own but for one entry. The verdicts stay
    /// true there, but that on the entry where it is gone.
    pub(crate) fn move_beside(
        self,
        alloc: Global,
        models: &Models,
        next: &Config,
        table: &str,
        key: &str,
    ) -> Result<Kept, Memory>
        requires models { self.index.models ≡ models.now }
        requires agree { AgreeBut self.index.config next.now table.now key.now }
        requires valid { IsValid models.now next.now }
        ensures index { IfOk result
            (λ k. k.index ≡ record { models = models.now; config = next.now }) }
        ensures valid { IfOk result (λ k. IsTrue k.valid) }
        ensures left { IfOk result (λ k. IsLeft (IsTurned models.now self.index.config next.now)
            self.verdicts.items k.verdicts.items) }
    {
        let Kept {
            mut index,
            mut verdicts,
            valid: _,
        } = self;
        let _ = index.config().len();
        let _ = next.len();
        drop_if_gone(&mut verdicts, next, table, key);
        index.move_by(alloc, models, next, table, key)?;
        Ok(Kept {
            index,
            verdicts,
            valid: true,
        })
    }

    /// The index moved to the configuration after a move, with the verdicts that stay true there. Where only
    /// the move's entry differs from the configuration of the index, only that entry is looked at.
    pub(crate) fn follow(
        self,
        alloc: Global,
        models: &Models,
        next: &Config,
        mv: &Move,
    ) -> Result<Kept, Memory>
        requires { self.index.models ≡ models.now }
        ensures index { IfOk result
            (λ k. k.index ≡ record { models = models.now; config = next.now }) }
        ensures left { IfOk result (λ k. IsLeft (IsTurned models.now self.index.config next.now)
            self.verdicts.items k.verdicts.items) }
    {
        let place = mv.place();
        if place.len() < 2 {
            return self.move_to(alloc, models, next);
        }
        let table = place.name_at(0);
        let key = place.name_at(1);
        if !agree_but(self.index.config(), next, table, key) {
            return self.move_to(alloc, models, next);
        }
        self.move_by(alloc, models, next, table, key)
    }
}
