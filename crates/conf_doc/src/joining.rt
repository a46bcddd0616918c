//! One text of some entries with their keys, in which no byte is lost, so that they can be compared by it.
ghost use Rattle.std.specs.Prelude.{◌≡◌, ◌≤◌, ◌+◌, [], ◌++◌, ◌∷◌, length, IfOk, OnOk, string_bytes};
ghost use Rattle.conf_doc.specs.Joined.{ArePlain, ArePlainFields, IsJoined, IsPlain, IsPlainValue, bare, end_mark, ended, item_mark, joined_entry, joined_field, joined_fields, joined_items, joined_value, segment};

use crate::sorted::Sorted;
use crate::{Entry, Value};
use host_core::{Memory, Names, Txt};
use std::alloc::Global;

/// How long the text of most entries is at most, in bytes.
const ROOM: usize = 128;

/// How long most keys are at most, in bytes.
const KEY_ROOM: usize = 24;

/// Adds a text and a zero byte. One that has a zero byte itself is refused as if there were no memory.
fn join_text(joined: &mut String, text: &str) -> Result<(), Memory>
    ensures joined { OnOk result (string_bytes joined.new
        ≡ string_bytes joined.old ++ ended text.now) }
    ensures plain { OnOk result (IsPlain text.now) }
{
    if text.as_bytes().contains(&0) {
        return Err(Memory);
    }
    joined.push_str(text)?;
    joined.push('\0')?;
    Ok(())
}

fn join_item(joined: &mut String, item: &Txt) -> Result<(), Memory>
    ensures joined { OnOk result (string_bytes joined.new
        ≡ string_bytes joined.old ++ item_mark ∷ ended item.now) }
    ensures plain { OnOk result (IsPlain item.now) }
{
    joined.push('I')?;
    join_text(joined, item.as_str())
}

fn join_items(joined: &mut String, items: &Names) -> Result<(), Memory>
    ensures joined { OnOk result (string_bytes joined.new
        ≡ string_bytes joined.old ++ joined_items items.now) }
    ensures plain { OnOk result (ArePlain items.now) }
{
    for item in items.items() {
        join_item(joined, item)?;
    }
    Ok(())
}

fn join_list(joined: &mut String, items: &Names) -> Result<(), Memory>
    ensures joined { OnOk result (string_bytes joined.new
        ≡ string_bytes joined.old ++ end_mark ∷ ended (joined_items items.now)) }
    ensures plain { OnOk result (ArePlain items.now) }
{
    joined.push('\0')?;
    join_items(joined, items)?;
    joined.push('\0')?;
    Ok(())
}

fn join_value(joined: &mut String, value: &Value) -> Result<(), Memory>
    ensures joined { OnOk result (string_bytes joined.new
        ≡ string_bytes joined.old ++ joined_value value.now) }
    ensures plain { OnOk result (IsPlainValue value.now) }
{
    match value {
        Value::Text(text) => {
            joined.push('T')?;
            join_text(joined, text.as_str())
        }
        Value::List(items) => join_list(joined, items),
    }
}

fn join_field(joined: &mut String, field: &(Txt, Value)) -> Result<(), Memory>
    ensures joined { OnOk result (string_bytes joined.new
        ≡ string_bytes joined.old ++ joined_field field.now) }
    ensures name { OnOk result (IsPlain field.now.0) }
    ensures value { OnOk result (IsPlainValue field.now.1) }
{
    joined.push('F')?;
    join_text(joined, field.0.as_str())?;
    join_value(joined, &field.1)
}

fn join_fields(joined: &mut String, fields: &Sorted<Value>) -> Result<(), Memory>
    ensures joined { OnOk result (string_bytes joined.new
        ≡ string_bytes joined.old ++ joined_fields fields.now) }
    ensures plain { OnOk result (ArePlainFields fields.now) }
{
    for i in 0..fields.len() {
        join_field(joined, fields.pair_at(i))?;
    }
    Ok(())
}

fn join_entry(joined: &mut String, entry: &(Txt, Entry)) -> Result<(), Memory>
    ensures joined { OnOk result (string_bytes joined.new
        ≡ string_bytes joined.old ++ joined_entry entry.now) }
    ensures key { OnOk result (IsPlain entry.now.0) }
    ensures fields { OnOk result (ArePlainFields entry.now.1) }
{
    join_text(joined, entry.0.as_str())?;
    join_fields(joined, &entry.1.fields)?;
    joined.push('\0')?;
    Ok(())
}

/// Adds the key of an entry as if that had no fields.
fn join_key(joined: &mut String, entry: &(Txt, Entry)) -> Result<(), Memory>
    ensures joined { OnOk result (string_bytes joined.new
        ≡ string_bytes joined.old ++ joined_entry (entry.now.0, [])) }
    ensures plain { OnOk result (IsPlain entry.now.0) }
{
    join_text(joined, entry.0.as_str())?;
    joined.push('\0')?;
    Ok(())
}

/// The text of so many keys from an index on, or an error where memory is refused or one of them has a zero byte.
pub(crate) fn join_keys(
    alloc: Global,
    list: &Sorted<Entry>,
    from: usize,
    count: usize,
) -> Result<Txt, Memory>
    requires { from + count ≤ length list.now }
    ensures { IfOk result (IsJoined (bare (segment from count list.now))) }
{
    let mut joined = String::with_capacity(alloc, count.saturating_mul(KEY_ROOM))?;
    prove!(list.len() >= from + count);
    for i in from..from + count {
        join_key(&mut joined, list.pair_at(i))?;
    }
    let text = Txt::new(alloc, joined.as_str())?;
    Ok(text)
}

/// The text of so many entries from an index on, or an error where memory is refused or one of them has
/// a zero byte.
pub(crate) fn join_entries(
    alloc: Global,
    list: &Sorted<Entry>,
    from: usize,
    count: usize,
) -> Result<Txt, Memory>
    requires { from + count ≤ length list.now }
    ensures { IfOk result (IsJoined (segment from count list.now)) }
{
    let mut joined = String::with_capacity(alloc, count.saturating_mul(ROOM))?;
    prove!(list.len() >= from + count);
    for i in from..from + count {
        join_entry(&mut joined, list.pair_at(i))?;
    }
    let text = Txt::new(alloc, joined.as_str())?;
    Ok(text)
}
