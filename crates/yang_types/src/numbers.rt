//! Numbers and the bounds round them.

ghost use Rattle.std.specs.Prelude.{◌≡◌, ◌↔◌, IsTrue, ℕ, List, pos};
ghost use Rattle.yang_types.specs.Reading.{IsReading};
ghost use Rattle.yang_types.specs.Numbers.{IsWithin, IsWithinAny, IsNumberWithin, IsNumberWithinAny, IsPlainNumber};
ghost use Rattle.yang_types.specs.Accepts.{char_count};

use crate::types::Bounds;

/// The number that a text is, or None where it is none or none of 128 bits.
fn value_of(text: &str) -> Option<i128>
    ensures { IsReading text.now result }
{
    text.parse::<i128>().ok()
}

/// Whether a value stands within bounds.
fn is_within(value: i128, bounds: &Bounds) -> bool
    ensures { IsTrue result ↔ IsWithin value bounds.now }
{
    bounds.low <= value && value <= bounds.high
}

/// Whether a value stands within some part.
fn is_within_any(value: i128, parts: &[Bounds]) -> bool
    ensures { IsTrue result ↔ IsWithinAny value parts.now }
{
    parts.iter().any(|part| is_within(value, part))
}

/// Whether what a text was read as stands within bounds.
fn is_reading_within(reading: Option<i128>, bounds: &Bounds) -> bool
    ensures { (s : List ℕ) → IsReading s reading → (IsTrue result ↔ IsNumberWithin s bounds.now) }
{
    let Bounds { low, high } = *bounds;
    match reading {
        None => false,
        Some(value) => low <= value && value <= high,
    }
}

/// Whether a text is a number within bounds.
pub(crate) fn is_number_within(text: &str, bounds: &Bounds) -> bool
    ensures { IsTrue result ↔ IsNumberWithin text.now bounds.now }
{
    is_reading_within(value_of(text), bounds)
}

/// Whether a text is a number within some part.
pub(crate) fn is_number_within_any(text: &str, parts: &[Bounds]) -> bool
    ensures { IsTrue result ↔ IsNumberWithinAny text.now parts.now }
{
    let reading = value_of(text);
    parts.iter().any(|part| is_reading_within(reading, part))
}

/// Whether a text has a number of characters within some part.
pub(crate) fn has_length_within_any(text: &str, parts: &[Bounds]) -> bool
    ensures { IsTrue result ↔ IsWithinAny (pos (char_count text.now)) parts.now }
{
    is_within_any(text.chars().count() as i128, parts)
}

/// Whether a text is a number without sign and leading zeros, of at most `most`.
pub(crate) fn is_plain_number(text: &str, most: u8) -> bool
    ensures { IsTrue result ↔ IsPlainNumber most text.now }
{
    if text.starts_with('+') || (text.starts_with('0') && text.len() != 1) {
        return false;
    }
    match text.parse::<u8>() {
        Ok(number) => number <= most,
        Err(_) => false,
    }
}
