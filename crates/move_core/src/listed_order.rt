//! The order of the list of moves.
ghost use Rattle.std.specs.Prelude.{◌≡◌, ◌<◌, ◌≤◌};
ghost use Rattle.std.specs.Option.{option_cmp};
ghost use Rattle.std.specs.Ordering.{nat_cmp};
ghost use Rattle.host_core.specs.Names.{name_cmp};
ghost use Rattle.conf_doc.specs.PartOrder.{part_cmp};
ghost use Rattle.move_core.specs.ListedOrder.{action, listed_cmp, move_cmp, new_cmp, path_cmp, place_cmp, rank_cmp};
ghost use Rattle.move_core.specs.Moves.{index, new_part, new_text};

use crate::{Move, Ranked};
use conf_doc::Path;
use std::cmp::Ordering;

/// Compares two listed moves: by rank, then Remove before Replace before Add, then by the path name by name, an item's
/// index as a number, and last by the value. Takes no memory.
pub fn cmp_listed(a: &Ranked, b: &Ranked) -> Ordering
    ensures { result ≡ listed_cmp a.now b.now }
{
    match cmp_ranks(a, b) {
        Ordering::Equal => cmp_moves(&a.mv, &b.mv),
        unequal => unequal,
    }
}

/// By tier, then by number of extensions, then by class.
fn cmp_ranks(a: &Ranked, b: &Ranked) -> Ordering
    ensures { result ≡ rank_cmp a.now b.now }
{
    match a.tier.cmp(&b.tier) {
        Ordering::Equal => {}
        unequal => return unequal,
    }
    match a.depth.cmp(&b.depth) {
        Ordering::Equal => a.class.cmp(&b.class),
        unequal => unequal,
    }
}

/// Compares two moves of one rank: Remove before Replace before Add, then by the path name by name, an item's index as a
/// number, and last by the value. Takes no memory.
pub fn cmp_moves(a: &Move, b: &Move) -> Ordering
    ensures { result ≡ move_cmp a.now b.now }
{
    match action(a).cmp(&action(b)) {
        Ordering::Equal => {}
        unequal => return unequal,
    }
    match cmp_places(a, b) {
        Ordering::Equal => cmp_new(a, b),
        unequal => unequal,
    }
}

/// By the names, then by the index: a field is before the items of its list.
fn cmp_places(a: &Move, b: &Move) -> Ordering
    ensures { result ≡ place_cmp a.now b.now }
{
    match cmp_paths(a.place(), b.place()) {
        Ordering::Equal => cmp_indexes(a, b),
        unequal => unequal,
    }
}

/// No index before any, else as numbers.
fn cmp_indexes(a: &Move, b: &Move) -> Ordering
    ensures { result ≡ option_cmp nat_cmp (index a.now) (index b.now) }
{
    match (a.index(), b.index()) {
        (None, None) => Ordering::Equal,
        (None, Some(_)) => Ordering::Less,
        (Some(_), None) => Ordering::Greater,
        (Some(left), Some(right)) => left.cmp(&right),
    }
}

/// By the part, or of an item by the text.
fn cmp_new(a: &Move, b: &Move) -> Ordering
    ensures { result ≡ new_cmp a.now b.now }
{
    match cmp_new_parts(a, b) {
        Ordering::Equal => cmp_new_texts(a, b),
        unequal => unequal,
    }
}

/// The place of a move's action among Remove, Replace, Add.
fn action(mv: &Move) -> u8
    ensures { result ≡ action mv.now }
{
    match mv {
        Move::Remove(_) => 0,
        Move::Replace(..) => 1,
        Move::Add(..) => 2,
        Move::AddItem(..) => 2,
        Move::RemoveItem(..) => 0,
    }
}

/// Nothing before something, else by the parts.
fn cmp_new_parts(a: &Move, b: &Move) -> Ordering
    ensures { result ≡ option_cmp part_cmp (new_part a.now) (new_part b.now) }
{
    match (a.new_part(), b.new_part()) {
        (None, None) => Ordering::Equal,
        (None, Some(_)) => Ordering::Less,
        (Some(_), None) => Ordering::Greater,
        (Some(left), Some(right)) => left.compare(right),
    }
}

/// Nothing before something, else by the bytes of the texts.
fn cmp_new_texts(a: &Move, b: &Move) -> Ordering
    ensures { result ≡ option_cmp name_cmp (new_text a.now) (new_text b.now) }
{
    match (a.new_text(), b.new_text()) {
        (None, None) => Ordering::Equal,
        (None, Some(_)) => Ordering::Less,
        (Some(_), None) => Ordering::Greater,
        (Some(left), Some(right)) => left.cmp(right),
    }
}

/// Name by name.
fn cmp_paths(a: &Path, b: &Path) -> Ordering
    ensures { result ≡ path_cmp a.now b.now }
{
    let common = shorter(a.len(), b.len());
    for i in 0..common {
        match a.name_at(i).cmp(b.name_at(i)) {
            Ordering::Equal => {}
            unequal => return unequal,
        }
    }
    a.len().cmp(&b.len())
}

/// The smaller length.
fn shorter(a: usize, b: usize) -> usize
    ensures left { result ≤ a }
    ensures right { result ≤ b }
    ensures one { result < a → b ≤ result }
{
    if a < b { a } else { b }
}
