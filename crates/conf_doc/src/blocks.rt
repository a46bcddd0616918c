//! Blocks of a table: texts of entries that stand beside one another, which tables share. Where no memory is left for
//! a block there is none, and its entries are compared one by one.
ghost use Rattle.std.specs.Prelude.{◌≡◌, ◌<◌, ◌≤◌, ◌+◌, length, IfSome, IsTrue};
ghost use Rattle.conf_doc.specs.Blocks.{AreBlocks, AreSame, IsBlock, IsEdited};

use crate::Entry;
use crate::joining::{join_entries, join_keys};
use crate::sameness::same_pair;
use crate::sorted::Sorted;
use host_core::Txt;
use std::alloc::Global;
use std::rc::Rc;

/// How many entries a block has that is made among others.
const USUAL: usize = 64;

/// How many entries a block has at most when it is made.
const MOST: usize = 96;

/// How many entries a block has at least. Fewer are soon compared one by one.
const LEAST: usize = 16;

/// How many entries a table with blocks has at least. A smaller one is compared entry by entry: at each change a block
/// costs more than it saves.
const FEWEST: usize = 512;

/// How many entries a block has, the text of their keys, and theirs.
#[derive(Drop)]
pub(crate) struct Block {
    pub(crate) count: usize,
    pub(crate) keys: Txt,
    pub(crate) text: Txt,
}

/// A block, and the index of its first entry in a table.
#[derive(Drop)]
pub(crate) struct PlacedBlock {
    pub(crate) start: usize,
    pub(crate) block: Rc<Block>,
}

/// A change of a list at an index: how many items are gone there, and how many have come.
#[derive(Clone, Copy, Drop)]
pub(crate) struct Edit {
    pub(crate) at: usize,
    pub(crate) gone: usize,
    pub(crate) come: usize,
}

impl Block {
    /// Whether two blocks have the same entries. Those of two tables are told by their texts.
    pub(crate) fn is_same(&self, other: &Block) -> bool
        ensures count { IsTrue result → self.now.count ≡ other.now.count }
        ensures text { IsTrue result → self.now.text ≡ other.now.text }
    {
        self.count == other.count && self.text.as_str() == other.text.as_str()
    }

    /// Whether two blocks have the same keys.
    pub(crate) fn has_same_keys(&self, other: &Block) -> bool
        ensures count { IsTrue result → self.now.count ≡ other.now.count }
        ensures keys { IsTrue result → self.now.keys ≡ other.now.keys }
    {
        self.count == other.count && self.keys.as_str() == other.keys.as_str()
    }
}

/// Adds a block at its place, where there is memory.
fn push_placed(blocks: &mut Vec<PlacedBlock>, start: usize, block: Rc<Block>, list: &Sorted<Entry>)
    requires blocks { AreBlocks list.now blocks.old.items }
    requires block { IsBlock list.now start block.value }
    ensures { AreBlocks list.now blocks.new.items }
{
    let _ = list;
    match blocks.push(PlacedBlock { start, block }) {
        Ok(()) => {}
        Err(refused) => drop(refused),
    }
}

/// Makes the block of some entries of a list and adds it, where there is memory.
fn push_new(
    alloc: Global,
    list: &Sorted<Entry>,
    start: usize,
    count: usize,
    blocks: &mut Vec<PlacedBlock>,
)
    requires within { start + count ≤ length list.now }
    requires blocks { AreBlocks list.now blocks.old.items }
    ensures { AreBlocks list.now blocks.new.items }
{
    let Ok(keys) = join_keys(alloc, list, start, count) else {
        return;
    };
    let Ok(text) = join_entries(alloc, list, start, count) else {
        return;
    };
    match Rc::new(alloc, Block { count, keys, text }) {
        Ok(block) => push_placed(blocks, start, block, list),
        Err(refused) => drop(refused),
    }
}

/// How many of the next entries make a block, where so many are left.
fn next_count(left: usize) -> usize
    ensures within { result ≤ left }
    ensures some { 0 < left → 0 < result }
{
    if left <= MOST { left } else { USUAL }
}

/// Makes the blocks of a list from an index to another one.
pub(crate) fn fill(
    alloc: Global,
    list: &Sorted<Entry>,
    from: usize,
    to: usize,
    blocks: &mut Vec<PlacedBlock>,
)
    requires { AreBlocks list.now blocks.old.items }
    ensures { AreBlocks list.now blocks.new.items }
{
    if list.len() < FEWEST {
        return;
    }
    let end = to.min(list.len());
    let mut start = from;
    while start < end && end - start >= LEAST {
        let count = next_count(end - start);
        push_new(alloc, list, start, count, blocks);
        start += count;
    }
}

/// Where a block stands after an edit of its list, or None where the edit changes it.
fn moved_start(
    before: &Sorted<Entry>,
    placed: &PlacedBlock,
    edit: Edit,
    after: &Sorted<Entry>,
) -> Option<usize>
    requires block { IsBlock before.now placed.now.start placed.now.block.value }
    requires edited { IsEdited edit.at edit.gone edit.come before.now after.now }
    ensures { IfSome result (λ start. IsBlock after.now start placed.now.block.value) }
{
    let _ = before.len();
    let _ = after.len();
    let Edit { at, gone, come } = edit;
    let start = placed.start;
    let count = placed.block.as_ref().count;
    if start <= at {
        if count <= at - start {
            return Some(start);
        }
    }
    if start < at {
        return None;
    }
    if start - at < gone {
        return None;
    }
    Some(at + come + (start - at - gone))
}

/// Adds a block where it stands after an edit, unless the edit changes it.
fn push_moved(
    before: &Sorted<Entry>,
    placed: &PlacedBlock,
    edit: Edit,
    after: &Sorted<Entry>,
    blocks: &mut Vec<PlacedBlock>,
)
    requires block { IsBlock before.now placed.now.start placed.now.block.value }
    requires edited { IsEdited edit.at edit.gone edit.come before.now after.now }
    requires blocks { AreBlocks after.now blocks.old.items }
    ensures { AreBlocks after.now blocks.new.items }
{
    let Some(start) = moved_start(before, placed, edit, after) else {
        return;
    };
    if let Ok(block) = placed.block.clone() {
        push_placed(blocks, start, block, after);
    }
}

/// Adds some blocks of a list where they stand after an edit.
fn push_all_moved(
    before: &Sorted<Entry>,
    old: &[PlacedBlock],
    edit: Edit,
    after: &Sorted<Entry>,
    blocks: &mut Vec<PlacedBlock>,
)
    requires old { AreBlocks before.now old.now }
    requires edited { IsEdited edit.at edit.gone edit.come before.now after.now }
    requires blocks { AreBlocks after.now blocks.old.items }
    ensures { AreBlocks after.now blocks.new.items }
{
    for placed in old {
        push_moved(before, placed, edit, after, blocks);
    }
}

/// The index of the first block that doesn't end in front of an edit. It steers only which blocks are made anew.
fn first_hit(old: &[PlacedBlock], edit: Edit) -> usize
    ensures { result ≤ length old.now }
{
    for i in 0..old.len() {
        let placed = &old[i];
        if placed.start.saturating_add(placed.block.as_ref().count) > edit.at {
            return i;
        }
    }
    old.len()
}

/// The index of the first block from one on that begins behind an edit. It steers only which blocks are made anew.
fn first_behind(old: &[PlacedBlock], from: usize, edit: Edit) -> usize
    requires { from ≤ length old.now }
    ensures { result ≤ length old.now }
{
    for i in from..old.len() {
        if old[i].start >= edit.at.saturating_add(edit.gone) {
            return i;
        }
    }
    old.len()
}

/// Where the last block ends.
fn end_of(blocks: &[PlacedBlock]) -> usize {
    match blocks.last() {
        Some(placed) => placed.start.saturating_add(placed.block.as_ref().count),
        None => 0,
    }
}

/// Where the first of some blocks begins after an edit, or the end of the list.
fn begin_of(before: &Sorted<Entry>, old: &[PlacedBlock], edit: Edit, after: &Sorted<Entry>) -> usize
    requires old { AreBlocks before.now old.now }
    requires edited { IsEdited edit.at edit.gone edit.come before.now after.now }
{
    match old.first() {
        Some(placed) => moved_start(before, placed, edit, after).unwrap_or(after.len()),
        None => after.len(),
    }
}

/// Whether so many entries are the same in both, each from an index on.
fn are_same(list: &Sorted<Entry>, i: usize, other: &Sorted<Entry>, j: usize, count: usize) -> bool
    requires first { i + count ≤ length list.now }
    requires second { j + count ≤ length other.now }
    ensures { IsTrue result → AreSame list.now i other.now j count }
{
    let _ = list.len();
    let _ = other.len();
    for k in 0..count {
        if !same_pair(list.pair_at(i + k), other.pair_at(j + k)) {
            return false;
        }
    }
    true
}

/// Where a list has the entries of another one's block, or None where they don't stand beside one another there.
fn place_of(list: &Sorted<Entry>, other: &Sorted<Entry>, placed: &PlacedBlock) -> Option<usize>
    requires block { IsBlock other.now placed.now.start placed.now.block.value }
    ensures { IfSome result (λ start. IsBlock list.now start placed.now.block.value) }
{
    let count = placed.block.as_ref().count;
    if count == 0 || placed.start >= other.len() {
        return None;
    }
    let Ok(start) = list.index_of(other.name_at(placed.start)) else {
        return None;
    };
    if start > list.len() || count > list.len() - start {
        return None;
    }
    if are_same(list, start, other, placed.start, count) {
        Some(start)
    } else {
        None
    }
}

/// Adds another list's block where it stands in a list too, behind blocks of what is before it.
fn push_found(
    alloc: Global,
    list: &Sorted<Entry>,
    other: &Sorted<Entry>,
    placed: &PlacedBlock,
    blocks: &mut Vec<PlacedBlock>,
)
    requires block { IsBlock other.now placed.now.start placed.now.block.value }
    requires blocks { AreBlocks list.now blocks.old.items }
    ensures { AreBlocks list.now blocks.new.items }
{
    let Some(start) = place_of(list, other, placed) else {
        return;
    };
    if let Ok(block) = placed.block.clone() {
        fill(alloc, list, end_of(blocks), start, blocks);
        push_placed(blocks, start, block, list);
    }
}

/// The blocks of a list: those of another one that stand in it too are shared, and what stands between them is made.
pub(crate) fn find_blocks(
    alloc: Global,
    list: &Sorted<Entry>,
    other: &Sorted<Entry>,
    old: &[PlacedBlock],
) -> Vec<PlacedBlock>
    requires { AreBlocks other.now old.now }
    ensures { AreBlocks list.now result.items }
{
    let mut blocks = Vec::new(alloc);
    for placed in old {
        push_found(alloc, list, other, placed, &mut blocks);
    }
    let from = end_of(&blocks);
    fill(alloc, list, from, list.len(), &mut blocks);
    blocks
}

/// The blocks of a list after an edit: those in front of it and behind it are shared, and what stands between them
/// is made anew.
pub(crate) fn move_blocks(
    alloc: Global,
    before: &Sorted<Entry>,
    old: &[PlacedBlock],
    edit: Edit,
    after: &Sorted<Entry>,
) -> Vec<PlacedBlock>
    requires old { AreBlocks before.now old.now }
    requires edited { IsEdited edit.at edit.gone edit.come before.now after.now }
    ensures { AreBlocks after.now result.items }
{
    let mut blocks = Vec::new(alloc);
    let hit = first_hit(old, edit);
    let behind = first_behind(old, hit, edit);
    push_all_moved(before, &old[..hit], edit, after, &mut blocks);
    let from = end_of(&blocks);
    let to = begin_of(before, &old[behind..], edit, after);
    fill(alloc, after, from, to, &mut blocks);
    push_all_moved(before, &old[behind..], edit, after, &mut blocks);
    blocks
}
