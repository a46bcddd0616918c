//! Whether two items of a leaf-list are equal. No memory is taken: a long list goes in groups, and a table
//! of slots tells which texts behind a group can't be in it.
ghost use Rattle.std.specs.Prelude.{◌≡◌, ◌↔◌, ◌<◌, ◌≤◌, IsTrue, All, Any, Contains, length, get_or, false, true};
ghost use Rattle.std.specs.declared.cmp.Ordering.TheVariants.{Less};
ghost use Rattle.conf_check.specs.EqualItems.{slot, slot_count, IsMarked, IsRising, order};
ghost use Rattle.conf_check.specs.Validity.{AreSomeEqual};

use host_core::Txt;
use std::cmp::Ordering;

/// How many items a group has.
const GROUP: usize = 128;

/// How many slots there are.
const SLOTS: usize = 16_384;

/// What a slot is multiplied by before a byte.
const FACTOR: usize = 31;

/// The slots of texts.
#[derive(Drop)]
struct Marks {
    taken: [bool; SLOTS],
}

/// The slot of a text.
fn slot_of(text: &str) -> usize
    ensures slot { result ≡ slot text.now }
    ensures within { result < slot_count }
{
    let mut slot = 0;
    for byte in text.as_bytes() {
        slot = (slot * FACTOR + *byte as usize) % SLOTS;
    }
    slot
}

impl Marks {
    /// Marks the slots of some texts.
    fn of(texts: &[Txt]) -> Marks
        ensures { All (IsMarked result.taken) texts.now }
    {
        let mut taken = [false; SLOTS];
        for text in texts {
            taken[slot_of(text.as_str())] = true;
        }
        Marks { taken }
    }

    /// Whether the slot of a text is marked.
    fn has(&self, text: &str) -> bool
        ensures { IsTrue result ↔ IsMarked self.now.taken text.now }
    {
        self.taken[slot_of(text)]
    }
}

/// Whether a text is among some texts.
fn is_among(text: &str, texts: &[Txt]) -> bool
    ensures { IsTrue result ↔ Contains texts.now text.now }
{
    texts.iter().any(|other| other.as_str() == text)
}

/// Whether a text and one behind it are equal, each compared with each.
fn has_equal_pair(texts: &[Txt]) -> bool
    ensures { IsTrue result ↔ AreSomeEqual texts.now }
{
    let mut rest = texts;
    while let Some((text, behind)) = rest.split_first() {
        if is_among(text.as_str(), behind) {
            return true;
        }
        rest = behind;
    }
    false
}

/// Whether one of the texts behind a group is in the group.
fn has_again(group: &[Txt], behind: &[Txt]) -> bool
    ensures { IsTrue result ↔ Any (Contains group.now) behind.now }
{
    if behind.is_empty() {
        return false;
    }
    let marks = Marks::of(group);
    for text in behind {
        if marks.has(text.as_str()) && is_among(text.as_str(), group) {
            return true;
        }
    }
    false
}

/// Whether each text comes before the next one, so that no two are equal.
fn is_rising(by_length: bool, texts: &[Txt]) -> bool
    ensures { IsTrue result → IsRising by_length texts.now }
{
    let mut rest = texts;
    while let Some((text, behind)) = rest.split_first() {
        if let Some(next) = behind.first() {
            if !comes_before(by_length, text.as_str(), next.as_str()) {
                return false;
            }
        }
        rest = behind;
    }
    true
}

/// Whether a text comes before another one: by its bytes, or first by its length.
fn comes_before(by_length: bool, text: &str, next: &str) -> bool
    ensures { IsTrue result → order by_length text.now next.now ≡ Less }
{
    if by_length && text.len() != next.len() {
        return text.len() < next.len();
    }
    text.cmp(next) == Ordering::Less
}

/// Whether a text and one behind it are equal.
pub(crate) fn has_equal(texts: &[Txt]) -> bool
    ensures { IsTrue result ↔ AreSomeEqual texts.now }
{
    if is_rising(true, texts) {
        return false;
    }
    if is_rising(false, texts) {
        return false;
    }
    has_equal_in_groups(texts)
}

/// The same of texts in any order, group by group.
fn has_equal_in_groups(texts: &[Txt]) -> bool
    ensures { IsTrue result ↔ AreSomeEqual texts.now }
{
    let mut rest = texts;
    while !rest.is_empty() {
        let (group, behind) = rest.split_at(rest.len().min(GROUP));
        if has_equal_pair(group) {
            return true;
        }
        if has_again(group, behind) {
            return true;
        }
        rest = behind;
    }
    false
}
