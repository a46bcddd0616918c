//! Whether an entry has a part of a key among its texts.
ghost use Rattle.std.specs.Prelude.{◌≡◌, ℕ, List, map, IfOk, IsTrue};
ghost use Rattle.std.specs.List.{Contains, list_any};
ghost use Rattle.std.specs.Str.{bytes_eq};
ghost use Rattle.key_split.specs.Key.{key_parts};
ghost use Rattle.move_extend.specs.KeyLengths.{HasFewParts, is_at_an_end};
ghost use Rattle.move_extend.specs.Mentions.{MayHave, MayMention, Mentions, texts_of_value};

use conf_doc::{Entry, Value};
use host_core::{Memory, Names};
use std::alloc::Global;

/// A table that loses keys: any of them, or only such as have one of some texts as a part.
#[derive(Clone, Copy, Drop)]
pub(crate) struct Gone<'a> {
    pub(crate) table: &'a str,
    pub(crate) is_whole: bool,
    pub(crate) parts: &'a [&'a str],
}

/// The parts of a key.
pub(crate) fn parts_of<'a>(alloc: Global, key: &'a str) -> Result<Vec<&'a str>, Memory>
    ensures { IfOk result (λ parts. map (λ p. p.now) parts.items ≡ key_parts key.now) }
{
    let parts = key.split('|').collect(alloc)?;
    Ok(parts)
}

/// Whether a text is among some texts.
fn is_among(texts: &[&str], text: &str) -> bool
    ensures { result ≡ list_any (λ t. bytes_eq t.now text.now) texts.now }
{
    texts.iter().any(|t| *t == text)
}

/// Whether a text may be a part of a key that a table loses.
pub(crate) fn may_have(gone: &Gone<'_>, text: &str) -> bool
    ensures { MayHave gone.now text.now → IsTrue result }
{
    if gone.is_whole {
        return true;
    }
    is_among(gone.parts, text)
}

/// Whether a part of the key is among some texts.
fn has_part(texts: &[&str], key: &str) -> bool
    ensures { (s : List ℕ) → Contains (map (λ t. t.now) texts.now) s
        → Contains (key_parts key.now) s → IsTrue result }
{
    for part in key.split('|') {
        if is_among(texts, part) {
            return true;
        }
    }
    false
}

/// Whether a text stands at the begin or at the end of a key.
fn is_at_an_end(key: &str, text: &str) -> bool
    ensures { result ≡ is_at_an_end key.now text.now }
{
    if key.starts_with(text) {
        return true;
    }
    key.ends_with(text)
}

/// Whether one of some texts stands at an end of a key.
fn has_end(texts: &[&str], key: &str) -> bool
    ensures { result ≡ list_any (λ t. is_at_an_end key.now t.now) texts.now }
{
    texts.iter().any(|text| is_at_an_end(key, text))
}

/// Whether a part of the key may be among some texts. One of two parts stands at an end of the key.
fn may_have_part(texts: &[&str], is_short: bool, key: &str) -> bool
    ensures { (IsTrue is_short → HasFewParts key.now) → (s : List ℕ)
        → Contains (map (λ t. t.now) texts.now) s
        → Contains (key_parts key.now) s → IsTrue result }
{
    if is_short {
        return has_end(texts, key);
    }
    has_part(texts, key)
}

/// Whether a value's text or one of its items is among some texts.
fn has_text(texts: &[&str], value: &Value) -> bool
    ensures { (s : List ℕ) → Contains (map (λ t. t.now) texts.now) s
        → Contains (texts_of_value value.now) s → IsTrue result }
{
    match value {
        Value::Text(text) => is_among(texts, text.as_str()),
        Value::List(items) => has_item(texts, items),
    }
}

/// Whether one of the items is among some texts.
fn has_item(texts: &[&str], items: &Names) -> bool
    ensures { (s : List ℕ) → Contains (map (λ t. t.now) texts.now) s
        → Contains items.now s → IsTrue result }
{
    for item in items.items() {
        if is_among(texts, item.as_str()) {
            return true;
        }
    }
    false
}

/// Whether an entry has one of some texts: as a part of its key, as a field or as an item of one. Of a key that has at
/// most two parts, where it belongs to a shape, only the ends are looked at.
fn mentions_one(texts: &[&str], is_short: bool, key: &str, fields: &Entry) -> bool
    ensures { (IsTrue is_short → HasFewParts key.now)
        → Mentions (map (λ t. t.now) texts.now) key.now fields.now → IsTrue result }
{
    if may_have_part(texts, is_short, key) {
        return true;
    }
    for i in 0..fields.len() {
        if has_text(texts, fields.part_at(i)) {
            return true;
        }
    }
    false
}

/// Whether an entry may have a text that is a part of a key that a table loses.
pub(crate) fn may_mention(gone: &Gone<'_>, is_short: bool, key: &str, fields: &Entry) -> bool
    ensures { (IsTrue is_short → HasFewParts key.now)
        → MayMention gone.now key.now fields.now → IsTrue result }
{
    if gone.is_whole {
        return true;
    }
    mentions_one(gone.parts, is_short, key, fields)
}
