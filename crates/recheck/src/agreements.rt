//! Two configurations compared: whether they have the same but for one entry. They are gone through side by side.
ghost use Rattle.std.specs.Prelude.{◌≡◌, ◌↔◌, ◌<◌, ◌≤◌, ◌+◌, ℕ, length, map, Some, IsTrue, slice_get};
ghost use Rattle.recheck.specs.Agreements.{AgreeAt, AreSameBut, AreSameFrom};
ghost use Rattle.ref_index.specs.Agreements.{AgreeBut};

use conf_doc::{Config, Table};

/// Whether two names are the same.
fn is_same_name(left: &str, right: &str) -> bool
    ensures { IsTrue result ↔ (left.now ≡ right.now) }
{
    left == right
}

/// The place behind the entry at a place of a table, where it has that key, else the place itself.
fn entry_after(table: &Table, at: usize, key: &str) -> usize
    requires { at ≤ length table.now }
    ensures within { result ≤ length table.now }
    ensures passed { (i : ℕ) → at ≤ i → i < result
        → slice_get (map (λ p. p.0) table.now) i ≡ Some key.now }
{
    if at >= table.len() {
        return at;
    }
    if !is_same_name(table.name_at(at), key) {
        return at;
    }
    at + 1
}

/// Whether some entries of a table from a place on are those of another one from a place on.
fn are_same(first: &Table, i: usize, second: &Table, j: usize, count: usize) -> bool
    requires first { i + count ≤ length first.now }
    requires second { j + count ≤ length second.now }
    ensures { IsTrue result → AreSameFrom first.now i second.now j count }
{
    first.count_same(i, second, j) >= count
}

/// Whether two tables have the same entries but for that of a key.
fn entries_agree(first: &Table, second: &Table, key: &str) -> bool
    ensures { IsTrue result → AreSameBut key.now first.now second.now }
{
    let ones = first.len();
    let others = second.len();
    let start = first.first_from(key);
    if start > ones || start > others {
        return false;
    }
    let left = entry_after(first, start, key);
    let right = entry_after(second, start, key);
    let count = ones - left;
    if others - right != count {
        return false;
    }
    if !are_same(first, 0, second, 0, start) {
        return false;
    }
    are_same(first, left, second, right, count)
}

/// Whether two configurations have a table of the same name at a place, and have the same there, but for the
/// entry at that key of the table of that name.
fn tables_agree(first: &Config, second: &Config, i: usize, table: &str, key: &str) -> bool
    requires first { i < length first.now }
    requires second { i < length second.now }
    ensures { IsTrue result → AgreeAt first.now second.now table.now key.now i }
{
    let name = first.name_at(i);
    let one = first.part_at(i);
    let other = second.part_at(i);
    if !is_same_name(name, second.name_at(i)) {
        return false;
    }
    if is_same_name(name, table) {
        return entries_agree(one, other, key);
    }
    one.same(other)
}

/// Whether two configurations have the same tables but for one entry. It takes no memory.
pub(crate) fn agree_but(first: &Config, second: &Config, table: &str, key: &str) -> bool
    ensures { IsTrue result → AgreeBut first.now second.now table.now key.now }
{
    let count = first.len();
    if second.len() != count {
        return false;
    }
    for i in 0..count {
        if !tables_agree(first, second, i, table, key) {
            return false;
        }
    }
    true
}
