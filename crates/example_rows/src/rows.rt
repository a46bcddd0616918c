//! What a row has under a name.
use crate::Fail;
use serde_json::Value;
use std::alloc::Global;

/// Whether something stands under a name.
pub fn has(row: &Value, name: &str) -> bool {
    row.get(name).is_some()
}

/// Whether something stands under the second name of the object under the first one.
pub fn has_in(row: &Value, object: &str, name: &str) -> bool {
    match row.get(object) {
        Some(value) => has(value, name),
        None => false,
    }
}

/// What stands under a name.
pub fn value_at<'a>(row: &'a Value, name: &str) -> Result<&'a Value, Fail> {
    row.get(name).ok_or(Fail::Row)
}

/// The text under a name, or the other one where there is none.
pub fn text_or<'a>(row: &'a Value, name: &str, other: &'a str) -> &'a str {
    match text_at(row, name) {
        Ok(text) => text,
        Err(_) => other,
    }
}

/// The number under a name, where there is one.
pub fn some_number(row: &Value, name: &str) -> Option<u64> {
    match number_at(row, name) {
        Ok(number) => Some(number),
        Err(_) => None,
    }
}

/// The text that a value is.
pub fn text_of(value: &Value) -> Result<&str, Fail> {
    value.as_str().ok_or(Fail::Row)
}

/// What stands at a place of a list.
pub fn item_of(list: &Value, place: usize) -> Result<&Value, Fail> {
    list.get(place).ok_or(Fail::Row)
}

/// Whether a value is null.
pub fn is_null(value: &Value) -> bool {
    value.is_null()
}

/// Whether a value is that number.
pub fn is_number(value: &Value, number: u64) -> bool {
    value.as_u64() == Some(number)
}

/// The names that an object has.
pub fn names_in(alloc: Global, object: &Value) -> Result<Vec<&str>, Fail> {
    let mut names = Vec::new(alloc);
    for (name, _) in object.as_object().ok_or(Fail::Row)? {
        names.push(name.as_str())?;
    }
    Ok(names)
}

/// Whether a value is that text.
pub fn is_word(value: &Value, text: &str) -> bool {
    value.as_str() == Some(text)
}

/// The text under a name.
pub fn text_at<'a>(row: &'a Value, name: &str) -> Result<&'a str, Fail> {
    text_of(value_at(row, name)?)
}

/// Whether that is the text under a name.
pub fn says(row: &Value, name: &str, text: &str) -> bool {
    match row.get(name) {
        Some(value) => is_word(value, text),
        None => false,
    }
}

/// The list under a name.
pub fn items_at<'a>(row: &'a Value, name: &str) -> Result<&'a [Value], Fail> {
    items_of(value_at(row, name)?)
}

/// The items of a list.
pub fn items_of(list: &Value) -> Result<&[Value], Fail> {
    match list.as_array() {
        Some(items) => Ok(items.as_slice()),
        None => Err(Fail::Row),
    }
}

/// The number under a name.
pub fn number_at(row: &Value, name: &str) -> Result<u64, Fail> {
    value_at(row, name)?.as_u64().ok_or(Fail::Row)
}

/// The number under a name, as that of a size.
pub fn size_at(row: &Value, name: &str) -> Result<usize, Fail> {
    match usize::try_from(number_at(row, name)?) {
        Ok(size) => Ok(size),
        Err(_) => Err(Fail::Row),
    }
}

/// The number under a name, as that of a byte.
pub fn byte_at(row: &Value, name: &str) -> Result<u8, Fail> {
    byte_of(number_at(row, name)?)
}

fn byte_of(number: u64) -> Result<u8, Fail> {
    match u8::try_from(number) {
        Ok(byte) => Ok(byte),
        Err(_) => Err(Fail::Row),
    }
}

/// Whether what stands under a name is true.
pub fn truth_at(row: &Value, name: &str) -> Result<bool, Fail> {
    value_at(row, name)?.as_bool().ok_or(Fail::Row)
}

/// The bytes of the JSON text under a name.
pub fn text_bytes(alloc: Global, row: &Value, name: &str) -> Result<Vec<u8>, Fail> {
    value_bytes(alloc, value_at(row, name)?)
}

/// The bytes of a JSON text: a text itself, and of all else its compact text.
pub fn value_bytes(alloc: Global, value: &Value) -> Result<Vec<u8>, Fail> {
    match value {
        Value::String(text) => Ok(text.as_bytes().to_vec(alloc)?),
        other => Ok(other.to_vec(alloc)?),
    }
}

/// Whether those are the bytes of the JSON text under a name.
pub fn is_text(alloc: Global, row: &Value, name: &str, bytes: &[u8]) -> Result<bool, Fail> {
    let said = text_bytes(alloc, row, name)?;
    Ok(said.as_slice() == bytes)
}

/// What is written under a name: a text, or a list of bytes, as numbers, and of lines, each ended by a
/// line feed.
pub fn written_at(alloc: Global, row: &Value, name: &str) -> Result<Vec<u8>, Fail> {
    match value_at(row, name)? {
        Value::String(text) => Ok(text.as_bytes().to_vec(alloc)?),
        Value::Array(items) => joined(alloc, items.as_slice()),
        _ => Err(Fail::Row),
    }
}

/// The bytes and the lines of a list.
fn joined(alloc: Global, items: &[Value]) -> Result<Vec<u8>, Fail> {
    let mut bytes = Vec::new(alloc);
    for item in items {
        push_item(&mut bytes, item)?;
    }
    Ok(bytes)
}

fn push_item(bytes: &mut Vec<u8>, item: &Value) -> Result<(), Fail> {
    match item {
        Value::String(line) => {
            bytes.extend_from_slice(line.as_bytes())?;
            bytes.push(b'\n')?;
        }
        number => bytes.push(byte_of(number.as_u64().ok_or(Fail::Row)?)?)?,
    }
    Ok(())
}

/// Whether those bytes are what is written under a name.
pub fn is_written(alloc: Global, row: &Value, name: &str, bytes: &[u8]) -> Result<bool, Fail> {
    let said = written_at(alloc, row, name)?;
    Ok(said.as_slice() == bytes)
}
