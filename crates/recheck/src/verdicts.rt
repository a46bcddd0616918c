//! Verdicts: entries that are known to break no rule.
ghost use Rattle.std.specs.Prelude.{◌≡◌, ◌≤◌, filter, length};
ghost use Rattle.recheck.specs.Verdicts.{is_elsewhere, is_on};

use host_core::Txt;

/// How many verdicts are kept at most.
pub(crate) const MOST_VERDICTS: usize = 4096;

/// The entry at a key of a table breaks no rule.
#[derive(Drop)]
pub(crate) struct Verdict {
    pub(crate) table: Txt,
    pub(crate) key: Txt,
}

/// Whether a verdict is on the entry at a key of a table.
pub(crate) fn is_on(verdict: &Verdict, table: &str, key: &str) -> bool
    ensures { result ≡ is_on table.now key.now verdict.now }
{
    verdict.key.as_str() == key && verdict.table.as_str() == table
}

/// Drops the verdicts on the entry at a key of a table.
pub(crate) fn drop_at(verdicts: &mut Vec<Verdict>, table: &str, key: &str)
    ensures rest { verdicts.new.items
        ≡ filter (is_elsewhere table.now key.now) verdicts.old.items }
    ensures shorter { length verdicts.new.items ≤ length verdicts.old.items }
{
    verdicts.retain(|verdict| !is_on(verdict, table, key));
}
