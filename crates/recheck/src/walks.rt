//! Verdicts in the order of the entries that they are on, gone through beside the entries.
ghost use Rattle.std.specs.Prelude.{◌≡◌, ◌≤◌, ◌+◌, if◌then◌else◌, length, OnOk};
ghost use Rattle.std.specs.Bool.{OnFalse, OnTrue};
ghost use Rattle.recheck.specs.Rechecks.{IsNext, IsNotedAt, IsNoted};
ghost use Rattle.recheck.specs.Verdicts.{HasVerdict};

use crate::verdicts::{MOST_VERDICTS, Verdict, is_on};
use host_core::{Memory, Txt};
use std::alloc::Global;

/// Verdicts, and how many of them are behind.
#[derive(Drop)]
pub(crate) struct Walk {
    alloc: Global,
    pub(crate) verdicts: Vec<Verdict>,
    pub(crate) behind: usize,
    pub(crate) ghost within: { behind ≤ length verdicts.items },
    pub(crate) ghost few: { length verdicts.items ≤ 4096 },
}

impl Walk {
    /// The verdicts before the first entry.
    pub(crate) fn new(alloc: Global, verdicts: Vec<Verdict>) -> Walk
        requires { length verdicts.items ≤ 4096 }
        ensures verdicts { result.verdicts.items ≡ verdicts.items }
        ensures behind { result.behind ≡ 0 }
    {
        Walk {
            alloc,
            verdicts,
            behind: 0,
        }
    }

    /// The verdicts.
    pub(crate) fn into_verdicts(self) -> Vec<Verdict>
        ensures verdicts { result.items ≡ self.verdicts.items }
        ensures few { length result.items ≤ 4096 }
    {
        let Walk {
            alloc: _,
            verdicts,
            behind: _,
        } = self;
        verdicts
    }

    /// Whether the next verdict is on that entry. It is then behind.
    pub(crate) fn passes(&mut self, table: &str, key: &str) -> bool
        ensures verdicts { self.new.verdicts.items ≡ self.old.verdicts.items }
        ensures found { OnTrue result (HasVerdict table.now key.now self.old.verdicts.items) }
        ensures next { OnTrue result
            (IsNext self.old.verdicts.items self.old.behind table.now key.now) }
        ensures other { OnFalse result
            (¬ IsNext self.old.verdicts.items self.old.behind table.now key.now) }
        ensures behind { self.new.behind
            ≡ (if result then self.old.behind + 1 else self.old.behind) }
    {
        if self.behind >= self.verdicts.len() {
            return false;
        }
        if !is_on(&self.verdicts[self.behind], table, key) {
            return false;
        }
        self.behind += 1;
        true
    }

    /// Adds a verdict on that entry before the next one, unless there are as many as are kept.
    pub(crate) fn note(&mut self, table: &str, key: &str) -> Result<(), Memory>
        ensures noted { IsNoted table.now key.now self.old.verdicts.items self.new.verdicts.items }
        ensures at { OnOk result (IsNotedAt table.now key.now
            self.old.verdicts.items self.old.behind self.new.verdicts.items self.new.behind) }
    {
        if self.verdicts.len() >= MOST_VERDICTS {
            return Ok(());
        }
        let verdict = Verdict {
            table: Txt::new(self.alloc, table)?,
            key: Txt::new(self.alloc, key)?,
        };
        self.verdicts.insert(self.behind, verdict)?;
        self.behind += 1;
        Ok(())
    }
}
