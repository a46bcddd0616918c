//! Which entries have a must that reads a table.
ghost use Rattle.std.specs.Prelude.{◌≡◌, ◌<◌, ◌+◌, ℕ, length, None, IsTrue, MatchOption};
ghost use Rattle.std.specs.Bool.{OnFalse};
ghost use Rattle.std.specs.List.{list_any};
ghost use Rattle.conf_check.specs.Rows.{IsShapeOf};
ghost use Rattle.yang_model.specs.Belongs.{Belongs};
ghost use Rattle.yang_model.specs.ModelSets.{shapes_of};
ghost use Rattle.recheck.specs.Changes.{AreAmong, AreNoReaders, AreUnread, HaveNoReaders, IsOfLast, is_reader};
ghost use Rattle.recheck.specs.Turned.{Reads};
ghost use Rattle.recheck.specs.Within.{IsLeft};

use crate::verdicts::Verdict;
use key_split::KeyView;
use yang_model::{Models, MustRule, Shape};

/// The shape that an entry of a table belongs to by its key.
fn shape_of<'a>(models: &'a Models, table: &str, key: &str) -> Option<&'a Shape>
    ensures { MatchOption result
        (Belongs (shapes_of table.now models.now) key.now None)
        (λ shape. IsShapeOf models.now table.now key.now shape.now) }
{
    match models.list_of(table, &KeyView::new(key)) {
        Some(place) => models.shape_at(table, place),
        None => None,
    }
}

/// Whether a must reads a table.
fn is_reader(must: &MustRule, table: &str) -> bool
    ensures { result ≡ is_reader table.now must.now }
{
    must.reads.items().iter().any(|name| name.as_str() == table)
}

/// Whether a must of a shape reads a table.
fn has_reader(shape: &Shape, table: &str) -> bool
    ensures { result ≡ list_any (is_reader table.now) shape.now.musts }
{
    shape
        .musts
        .items()
        .iter()
        .any(|must| is_reader(must, table))
}

/// Whether a shape of a table of that name has a must that reads another table. It looks at no key.
pub(crate) fn may_read(models: &Models, name: &str, table: &str) -> bool
    ensures { OnFalse result ((n : ℕ) → AreNoReaders models.now name.now table.now n) }
{
    for place in 0..u32::MAX {
        let Some(shape) = models.shape_at(name, place) else {
            return false;
        };
        if has_reader(shape, table) {
            return true;
        }
    }
    true
}

/// Whether no must of a verdict's entry reads a table.
fn ignores(models: &Models, verdict: &Verdict, table: &str) -> bool
    ensures ignores { IsTrue result → ¬ Reads models.now table.now verdict.now }
    ensures reads { OnFalse result (Reads models.now table.now verdict.now) }
{
    let name = verdict.table.as_str();
    let key = verdict.key.as_str();
    if !may_read(models, name, table) {
        return true;
    }
    match shape_of(models, name, key) {
        Some(shape) => !has_reader(shape, table),
        None => true,
    }
}

/// Whether a verdict is on an entry of the same table as the one before it.
fn is_of_last(verdicts: &[Verdict], i: usize) -> bool
    requires { i < length verdicts.now }
    ensures { IsTrue result → IsOfLast verdicts.now i }
{
    i > 0 && verdicts[i - 1].table.as_str() == verdicts[i].table.as_str()
}

/// Whether a shape of a verdict's table has a must that reads a table, where that of the one before hasn't.
fn may_read_at(models: &Models, verdicts: &[Verdict], i: usize, table: &str) -> bool
    requires within { i < length verdicts.now }
    requires before { HaveNoReaders models.now table.now verdicts.now i }
    ensures { OnFalse result (HaveNoReaders models.now table.now verdicts.now (i + 1)) }
{
    if is_of_last(verdicts, i) {
        return false;
    }
    may_read(models, verdicts[i].table.as_str(), table)
}

/// The same of any verdict. Those of one table stand together, so its shapes are looked at once.
pub(crate) fn one_may_read(models: &Models, verdicts: &[Verdict], table: &str) -> bool
    ensures { OnFalse result (AreUnread models.now table.now verdicts.now) }
{
    for i in 0..verdicts.len() {
        if may_read_at(models, verdicts, i, table) {
            return true;
        }
    }
    false
}

/// Drops the verdicts on entries with a must that reads a table.
pub(crate) fn drop_readers(verdicts: &mut Vec<Verdict>, models: &Models, table: &str)
    ensures among { AreAmong verdicts.old.items verdicts.new.items }
    ensures dropped { AreUnread models.now table.now verdicts.new.items }
    ensures left { IsLeft (Reads models.now table.now) verdicts.old.items verdicts.new.items }
{
    if !one_may_read(models, verdicts.as_slice(), table) {
        return;
    }
    verdicts.retain(|verdict| ignores(models, verdict, table));
}
