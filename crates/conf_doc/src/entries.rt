//! The entries of a table: a sorted list, and blocks of it by which two tables are compared.
ghost use Rattle.std.specs.Prelude.{◌≡◌, ◌↔◌, ◌<◌, ◌≤◌, [], Option, if◌then◌else◌, length, is_some, IfOk, IfSome, IsTrue, refl};
ghost use Rattle.std.specs.Cmp.{partial_order_from_agreeing_total};
ghost use Rattle.std.specs.Ordering.{as_partial_cmp};
ghost use Rattle.conf_doc.specs.Blocks.{AreApart, AreSame, IsBlock, IsEdited, keys_of};
ghost use Rattle.conf_doc.specs.ListHolders.{HaveNoList};
ghost use Rattle.conf_doc.specs.Order.{pairs_cmp, pairs_eq, pairs_fed};
ghost use Rattle.conf_doc.specs.OrderLaws.{pairs_alike, pairs_equiv, pairs_per, pairs_tied, pairs_total};
ghost use Rattle.conf_doc.specs.Pairs.{set_part};
ghost use Rattle.conf_doc.specs.Runs.{IsRun};
ghost use Rattle.conf_doc.specs.contracts.configuration.EntryEq.TheImpl.Laws as full_eq;
ghost use Rattle.conf_doc.specs.contracts.configuration.EntryHash.TheImpl.Laws as hashing;
ghost use Rattle.conf_doc.specs.contracts.configuration.EntryOrd.TheImpl.Laws as order;
ghost use Rattle.conf_doc.specs.contracts.configuration.EntryPartialEq.TheImpl.Laws as partial_eq;

use crate::Entry;
use crate::blocks::{Block, Edit, PlacedBlock, fill, find_blocks, move_blocks};
use crate::list_holders::{hold_no_list, still_hold_no_list};
use crate::sameness::same_pair;
use crate::sorted::Sorted;
use host_core::Memory;
use std::alloc::Global;
use std::cmp::Ordering;
use std::hash::{Hash, Hasher};
use std::marker::Model;

/// Contracts see the list of pairs of a key and an entry.
#[derive(Drop)]
pub struct Entries {
    list: Sorted<Entry>,
    blocks: Vec<PlacedBlock>,
    /// Whether it is known that no entry holds a list.
    holds_no_list: bool,
}

impl Model for Entries {
    ghost use Rattle.std.specs.Prelude.{List, ℕ, IsTrue};
    ghost use Rattle.conf_doc.specs.Blocks.{AreBlocks};
    ghost use Rattle.conf_doc.specs.ListHolders.{HaveNoList};
    ghost use Rattle.conf_doc.specs.declared.configuration.Entry.{Entry as EntryValue};

    ghost Value = { List (List ℕ × EntryValue) };

    ghost view = { λ e. e.list };

    ghost invariant = { λ e. AreBlocks e.list e.blocks.items
        × (IsTrue e.holds_no_list → HaveNoList e.list) };
}

/// One for true.
fn count_of(is: bool) -> usize
    ensures { result ≡ if is then 1 else 0 }
{
    if is { 1 } else { 0 }
}

/// What setting or leaving out the part of a name changes.
fn edit_of<X>(list: &Sorted<X>, name: &str, comes: bool) -> Edit
    ensures { (part : Option _) → is_some part ≡ comes →
        IsEdited result.at result.gone result.come list.now (set_part name.now part list.now) }
{
    let _ = list.len();
    let come = count_of(comes);
    match list.index_of(name) {
        Ok(at) => Edit { at, gone: 1, come },
        Err(at) => Edit { at, gone: 0, come },
    }
}

impl Entries {
    /// No entries, which take no memory.
    pub(crate) fn new(alloc: Global) -> Entries
        ensures { result ≡ [] }
    {
        Entries {
            list: Sorted::new(alloc),
            blocks: Vec::new(alloc),
            holds_no_list: true,
        }
    }

    /// The entries of a list, with blocks where there is memory.
    pub(crate) fn of(alloc: Global, list: Sorted<Entry>) -> Entries
        ensures { result ≡ list }
    {
        let mut blocks = Vec::new(alloc);
        let len = list.len();
        fill(alloc, &list, 0, len, &mut blocks);
        let holds_no_list = hold_no_list(&list);
        Entries {
            list,
            blocks,
            holds_no_list,
        }
    }

    /// The list of the entries.
    pub(crate) fn list(&self) -> &Sorted<Entry>
        ensures { result.now ≡ self.now }
    {
        &self.list
    }

    /// The list of the entries, with no copy.
    pub(crate) fn into_list(self) -> Sorted<Entry>
        ensures { result ≡ self }
    {
        let Entries { list, blocks, .. } = self;
        drop(blocks);
        list
    }

    /// The same entries.
    pub(crate) fn copy(&self, alloc: Global) -> Result<Entries, Memory>
        ensures { IfOk result (λ e. e ≡ self.now) }
    {
        let list = self.list.copy(alloc)?;
        let edit = Edit {
            at: 0,
            gone: 0,
            come: 0,
        };
        let blocks = move_blocks(alloc, &self.list, &self.blocks, edit, &list);
        Ok(Entries {
            list,
            blocks,
            holds_no_list: self.holds_no_list,
        })
    }

    /// The same entries, those that others have too shared with them.
    pub(crate) fn sharing(&self, alloc: Global, others: &Entries) -> Result<Entries, Memory>
        ensures { IfOk result (λ e. e ≡ self.now) }
    {
        let list = self.list.sharing(alloc, &others.list)?;
        let blocks = find_blocks(alloc, &list, &others.list, &others.blocks);
        Ok(Entries {
            list,
            blocks,
            holds_no_list: self.holds_no_list,
        })
    }

    /// Whether it is known that no entry holds a list.
    pub(crate) fn holds_no_list(&self) -> bool
        ensures { IsTrue result → HaveNoList self.now }
    {
        self.holds_no_list
    }

    /// The entries with one under that key, or for None without one.
    pub(crate) fn set(
        &self,
        alloc: Global,
        key: &str,
        entry: Option<Entry>,
    ) -> Result<Entries, Memory>
        requires { 0 < length key.now }
        ensures { IfOk result (λ e. e ≡ set_part key.now entry self.now) }
    {
        let edit = edit_of(&self.list, key, entry.is_some());
        let holds_no_list = still_hold_no_list(self.holds_no_list, &entry);
        let list = self.list.set(alloc, key, entry)?;
        let blocks = move_blocks(alloc, &self.list, &self.blocks, edit, &list);
        Ok(Entries {
            list,
            blocks,
            holds_no_list,
        })
    }

    /// The block that begins at an index.
    fn block_at(&self, i: usize) -> Option<&Block>
        ensures { IfSome result (λ b. IsBlock self.now i b.now) }
    {
        let at = match self
            .blocks
            .binary_search_by(|placed| -> Ordering { placed.start.cmp(&i) })
        {
            Ok(at) => at,
            Err(_) => return None,
        };
        let placed = &self.blocks[at];
        if placed.start != i {
            return None;
        }
        Some(placed.block.as_ref())
    }

    /// How many entries are the same in both, each from an index on, by the blocks that begin there.
    fn count_in_blocks(&self, i: usize, other: &Entries, j: usize) -> usize
        requires first { i ≤ length self.now }
        requires second { j ≤ length other.now }
        ensures { AreSame self.now i other.now j result }
    {
        match (self.block_at(i), other.block_at(j)) {
            (Some(left), Some(right)) => { if left.is_same(right) { left.count } else { 0 } }
            _ => 0,
        }
    }

    /// The same of keys.
    fn count_keys_in_blocks(&self, i: usize, other: &Entries, j: usize) -> usize
        requires first { i ≤ length self.now }
        requires second { j ≤ length other.now }
        ensures { AreSame (keys_of self.now) i (keys_of other.now) j result }
    {
        match (self.block_at(i), other.block_at(j)) {
            (Some(left), Some(right)) => {
                if left.has_same_keys(right) {
                    left.count
                } else {
                    0
                }
            }
            _ => 0,
        }
    }

    /// How many entries stand from an index on before the next block begins, and one at least. It steers only
    /// where a block is looked for.
    fn room_at(&self, i: usize) -> usize
        ensures { 0 < result }
    {
        let at = match self
            .blocks
            .binary_search_by(|placed| -> Ordering { placed.start.cmp(&i) })
        {
            Ok(at) => at.saturating_add(1),
            Err(at) => at,
        };
        let end = match self.blocks.get(at) {
            Some(placed) => placed.start,
            None => self.list.len(),
        };
        end.saturating_sub(i).max(1)
    }

    /// Whether there is an entry at each index, and it is the same in both.
    fn is_same_at(&self, i: usize, other: &Entries, j: usize) -> bool
        ensures same { IsTrue result → AreSame self.now i other.now j 1 }
        ensures apart { ¬ IsTrue result → AreApart self.now i other.now j }
    {
        if i >= self.list.len() || j >= other.list.len() {
            return false;
        }
        same_pair(self.list.pair_at(i), other.list.pair_at(j))
    }

    /// How many entries are the same in both, each from an index on where the first are, compared one by one, and so
    /// many at most.
    fn count_singly(&self, i: usize, other: &Entries, j: usize, most: usize) -> usize
        requires some { 0 < most }
        requires first { AreSame self.now i other.now j 1 }
        ensures same { AreSame self.now i other.now j result }
        ensures some { 0 < result }
    {
        let _ = self.list.len();
        let _ = other.list.len();
        for k in 1..most {
            if !self.is_same_at(i + k, other, j + k) {
                return k;
            }
        }
        most
    }

    /// How many entries are the same in both, each from an index on: of two blocks, or of those before the next
    /// block, or none where there is no such entry. The first are compared before a block is looked for.
    fn count_next(&self, i: usize, other: &Entries, j: usize) -> usize
        requires first { i ≤ length self.now }
        requires second { j ≤ length other.now }
        ensures same { AreSame self.now i other.now j result }
        ensures none { result ≡ 0 → AreApart self.now i other.now j }
    {
        if !self.is_same_at(i, other, j) {
            return 0;
        }
        let many = self.count_in_blocks(i, other, j);
        if many > 0 {
            return many;
        }
        self.count_singly(i, other, j, self.room_at(i))
    }

    /// How many entries, with their keys, are the same in both, each from an index on.
    pub(crate) fn count_same(&self, i: usize, other: &Entries, j: usize) -> usize
        requires first { i ≤ length self.now }
        requires second { j ≤ length other.now }
        ensures { IsRun self.now i other.now j result }
    {
        let _ = self.list.len();
        let _ = other.list.len();
        let mut count = 0;
        let mut next = self.count_next(i, other, j);
        while next > 0 {
            count += next;
            next = self.count_next(i + count, other, j + count);
        }
        count
    }

    /// Whether there is a key at each index, and it is the same in both.
    fn is_same_key_at(&self, i: usize, other: &Entries, j: usize) -> bool
        ensures same { IsTrue result → AreSame (keys_of self.now) i (keys_of other.now) j 1 }
        ensures apart { ¬ IsTrue result → AreApart (keys_of self.now) i (keys_of other.now) j }
    {
        if i >= self.list.len() || j >= other.list.len() {
            return false;
        }
        self.list.name_at(i) == other.list.name_at(j)
    }

    /// How many keys are the same in both, each from an index on where the first are, compared one by one, and so many
    /// at most.
    fn count_keys_singly(&self, i: usize, other: &Entries, j: usize, most: usize) -> usize
        requires some { 0 < most }
        requires first { AreSame (keys_of self.now) i (keys_of other.now) j 1 }
        ensures same { AreSame (keys_of self.now) i (keys_of other.now) j result }
        ensures some { 0 < result }
    {
        let _ = self.list.len();
        let _ = other.list.len();
        for k in 1..most {
            if !self.is_same_key_at(i + k, other, j + k) {
                return k;
            }
        }
        most
    }

    /// How many keys are the same in both, each from an index on, as entries are counted.
    fn count_next_keys(&self, i: usize, other: &Entries, j: usize) -> usize
        requires first { i ≤ length self.now }
        requires second { j ≤ length other.now }
        ensures same { AreSame (keys_of self.now) i (keys_of other.now) j result }
        ensures none { result ≡ 0 → AreApart (keys_of self.now) i (keys_of other.now) j }
    {
        if !self.is_same_key_at(i, other, j) {
            return 0;
        }
        let many = self.count_keys_in_blocks(i, other, j);
        if many > 0 {
            return many;
        }
        self.count_keys_singly(i, other, j, self.room_at(i))
    }

    /// How many keys are the same in both, each from an index on.
    pub(crate) fn count_same_keys(&self, i: usize, other: &Entries, j: usize) -> usize
        requires first { i ≤ length self.now }
        requires second { j ≤ length other.now }
        ensures { IsRun (keys_of self.now) i (keys_of other.now) j result }
    {
        let _ = self.list.len();
        let _ = other.list.len();
        let mut count = 0;
        let mut next = self.count_next_keys(i, other, j);
        while next > 0 {
            count += next;
            next = self.count_next_keys(i + count, other, j + count);
        }
        count
    }

    /// Whether the entries are the same.
    pub(crate) fn same(&self, other: &Entries) -> bool
        ensures { IsTrue result ↔ (self.now ≡ other.now) }
    {
        let len = self.list.len();
        if other.list.len() != len {
            return false;
        }
        self.count_same(0, other, 0) == len
    }
}

impl PartialEq for Entries {
    ghost eq = { pairs_eq ⟦<Entry as PartialEq>⟧.eq };

    ghost laws = { pairs_per partial_eq.laws-law };

    fn eq(&self, other: &Entries) -> bool {
        self.list == other.list
    }
}

impl Eq for Entries {
    ghost laws = { pairs_equiv full_eq.laws-law };
}

impl PartialOrd for Entries {
    ghost partial_cmp = { as_partial_cmp (pairs_cmp ⟦<Entry as Ord>⟧.cmp) };

    ghost laws = { partial_order_from_agreeing_total (pairs_cmp ⟦<Entry as Ord>⟧.cmp)
        (pairs_total order.total-law) (λ x y. refl)
        (pairs_tied ⟦<Entry as Ord>⟧.cmp order.matches_eq-law) };

    fn partial_cmp(&self, other: &Entries) -> Option<Ordering> {
        Some(self.cmp(other))
    }
}

impl Ord for Entries {
    ghost cmp = { pairs_cmp ⟦<Entry as Ord>⟧.cmp };

    ghost total = { pairs_total order.total-law };

    ghost matches_partial_cmp = { λ x y. refl };

    ghost matches_eq = { pairs_tied ⟦<Entry as Ord>⟧.cmp order.matches_eq-law };

    fn cmp(&self, other: &Entries) -> Ordering {
        self.list.cmp(&other.list)
    }
}

impl Hash for Entries {
    ghost hash_input = { pairs_fed ⟦<Entry as Hash>⟧.hash_input };

    ghost respects_eq = { (pairs_alike (record { fed = hashing.respects_eq-law })).fed };

    fn hash<H: Hasher>(&self, state: &mut H) {
        self.list.hash(state);
    }
}
