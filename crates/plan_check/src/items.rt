//! Whether a move of an item leads towards goal's list.
ghost use Rattle.std.specs.Prelude.{◌≡◌, ◌↔◌, option_map, slice_get, take, IsTrue, MatchOption};
ghost use Rattle.std.specs.List.{Contains};
ghost use Rattle.move_core.specs.Generated.{IsFirstDifference, IsItemAdded, IsItemMove, IsItemRemoved, ListsDiffer};
ghost use Rattle.plan_check.specs.Beginnings.{DifferThere};

use crate::places::list_at;
use conf_doc::{Config, Path};
use host_core::Txt;
use move_core::Move;

/// Whether a text is among those of a list.
fn has_text(items: &[Txt], text: &str) -> bool
    ensures { IsTrue result ↔ Contains items.now text.now }
{
    items.iter().any(|item| item.as_str() == text)
}

/// The text at an index of a list.
fn text_at(items: &[Txt], i: usize) -> Option<&str>
    ensures { option_map (λ text. text.now) result ≡ slice_get items.now i }
{
    match items.get(i) {
        Some(item) => Some(item.as_str()),
        None => None,
    }
}

/// Whether two lists have the same item at an index, or both end before it.
fn agree_at(old: &[Txt], new: &[Txt], i: usize) -> bool
    ensures { IsTrue result ↔ (slice_get old.now i ≡ slice_get new.now i) }
{
    text_at(old, i) == text_at(new, i)
}

/// Whether they have the same items before an index.
fn agree_before(old: &[Txt], new: &[Txt], end: usize) -> bool
    ensures { IsTrue result ↔ (take end old.now ≡ take end new.now) }
{
    for i in 0..end {
        if !agree_at(old, new, i) {
            return false;
        }
    }
    true
}

/// Whether they differ first at an index. One that lies behind both ends is refused at once.
fn differ_first(old: &[Txt], new: &[Txt], i: usize) -> bool
    ensures { IsTrue result ↔ IsFirstDifference old.now new.now i }
{
    if agree_at(old, new, i) {
        return false;
    }
    agree_before(old, new, i)
}

/// Whether goal's item at an index is that text, which cur's list lacks.
fn comes(old: &[Txt], new: &[Txt], i: usize, text: &str) -> bool
    ensures { IsTrue result ↔ IsItemAdded old.now new.now i text.now }
{
    if has_text(old, text) {
        return false;
    }
    text_at(new, i) == Some(text)
}

/// Whether goal lacks the item of cur's list at an index, or has one there that cur's list has elsewhere.
fn goes(old: &[Txt], new: &[Txt], i: usize) -> bool
    ensures { IsTrue result ↔ IsItemRemoved old.now new.now i }
{
    match (old.get(i), new.get(i)) {
        (Some(item), Some(other)) => {
            !has_text(new, item.as_str()) || has_text(old, other.as_str())
        }
        (Some(item), None) => !has_text(new, item.as_str()),
        _ => false,
    }
}

/// The lists of cur and of goal at a place, where they differ first at an index.
fn lists_at<'c>(
    cur: &'c Config,
    goal: &'c Config,
    place: &Path,
    i: usize,
) -> Option<(&'c [Txt], &'c [Txt])>
    ensures { MatchOption result (¬ ListsDiffer cur.now goal.now place.now i)
        (λ lists. DifferThere cur.now goal.now place.now i lists.0.now lists.1.now) }
{
    let Some(here) = list_at(cur, place) else {
        return None;
    };
    let Some(there) = list_at(goal, place) else {
        return None;
    };
    let old = here.items();
    let new = there.items();
    if !differ_first(old, new, i) {
        return None;
    }
    Some((old, new))
}

/// Whether that item of goal's list is to come at a place.
fn adds_item(cur: &Config, goal: &Config, place: &Path, i: usize, text: &str) -> bool
    ensures { IsTrue result ↔ ((lists : ListsDiffer cur.now goal.now place.now i)
        × IsItemAdded lists.old lists.new i text.now) }
{
    match lists_at(cur, goal, place, i) {
        Some((old, new)) => comes(old, new, i, text),
        None => false,
    }
}

/// Whether the item of cur's list at that index is to go.
fn removes_item(cur: &Config, goal: &Config, place: &Path, i: usize) -> bool
    ensures { IsTrue result ↔ ((lists : ListsDiffer cur.now goal.now place.now i)
        × IsItemRemoved lists.old lists.new i) }
{
    match lists_at(cur, goal, place, i) {
        Some((old, new)) => goes(old, new, i),
        None => false,
    }
}

/// Whether an item is added or removed where cur's list differs first from goal's.
pub(crate) fn is_item_move(cur: &Config, goal: &Config, mv: &Move) -> bool
    ensures { IsTrue result ↔ IsItemMove cur.now goal.now mv.now }
{
    match mv {
        Move::AddItem(place, i, text) => adds_item(cur, goal, place, *i, text.as_str()),
        Move::RemoveItem(place, i) => removes_item(cur, goal, place, *i),
        _ => false,
    }
}
