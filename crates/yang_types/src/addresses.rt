//! Addresses, prefixes and MAC addresses.

ghost use Rattle.std.specs.Prelude.{◌≡◌, ◌≤◌, ◌↔◌, ℕ, IsTrue, MatchOption, All};
ghost use Rattle.std.specs.Char.{IsAsciiHexdigit};
ghost use Rattle.yang_types.specs.Addresses.{IsIpv4Address, IsIpv6Address, IsIpv4Prefix, IsIpv6Prefix, IsIpv6Length, IsBuiltin};
ghost use Rattle.yang_types.specs.Parts.{IsPart, separator_of, ArePartsOf, IsCountOf};

use crate::numbers::is_plain_number;
use crate::types::Builtin;

/// A part of an address.
#[derive(Clone, Copy, Drop)]
enum Part {
    /// A number 0 to 255 without leading zeros.
    Octet,
    /// One to four hexadecimal digits.
    Group,
    /// Two hexadecimal digits.
    Pair,
}

/// The character between parts.
fn separator(part: Part) -> char
    ensures { result ≡ separator_of part }
{
    match part {
        Part::Octet => '.',
        Part::Group | Part::Pair => ':',
    }
}

/// Whether a text has hexadecimal digits alone.
fn are_hex_digits(text: &str) -> bool
    ensures { IsTrue result ↔ All IsAsciiHexdigit text.now }
{
    text.as_bytes().iter().all(|byte| byte.is_ascii_hexdigit())
}

/// Whether a text is a part.
fn is_part(part: Part, text: &str) -> bool
    ensures { IsTrue result ↔ IsPart part text.now }
{
    match part {
        Part::Octet => is_plain_number(text, 255),
        Part::Group => 1 <= text.len() && text.len() <= 4 && are_hex_digits(text),
        Part::Pair => text.len() == 2 && are_hex_digits(text),
    }
}

/// Of how many parts a text is joined, or None where it is no parts or more than `most`.
fn count_parts(part: Part, text: &str, most: usize) -> Option<usize>
    ensures { MatchOption result
        ((n : ℕ) → n ≤ most → ¬ (ArePartsOf part n text.now))
        (λ n. (n ≤ most) × IsCountOf part text.now n) }
{
    if text.is_empty() {
        return Some(0);
    }
    let mut count = 0;
    for piece in text.split(separator(part)) {
        if count == most || !is_part(part, piece) {
            return None;
        }
        count += 1;
    }
    Some(count)
}

/// Whether a text is joined of so many parts.
fn has_parts(part: Part, text: &str, count: usize) -> bool
    ensures { IsTrue result ↔ ArePartsOf part count text.now }
{
    match count_parts(part, text, count) {
        None => false,
        Some(found) => found == count,
    }
}

fn is_ipv4_address(text: &str) -> bool
    ensures { IsTrue result ↔ IsIpv4Address text.now }
{
    has_parts(Part::Octet, text, 4)
}

fn is_ipv6_address(text: &str) -> bool
    ensures { IsTrue result ↔ IsIpv6Address text.now }
{
    match text.split_once("::") {
        None => has_parts(Part::Group, text, 8),
        Some((left, right)) => match count_parts(Part::Group, left, 7) {
            None => false,
            Some(count) => count_parts(Part::Group, right, 7 - count).is_some(),
        },
    }
}

fn is_ipv6_length(text: &str) -> bool
    ensures { IsTrue result ↔ IsIpv6Length text.now }
{
    if text.starts_with('+') || text.len() > 3 {
        return false;
    }
    match text.parse::<u8>() {
        Ok(number) => text.len() <= 2 || (100 <= number && number <= 128),
        Err(_) => false,
    }
}

fn is_ipv4_prefix(text: &str) -> bool
    ensures { IsTrue result ↔ IsIpv4Prefix text.now }
{
    match text.split_once('/') {
        None => false,
        Some((address, length)) => is_ipv4_address(address) && is_plain_number(length, 32),
    }
}

fn is_ipv6_prefix(text: &str) -> bool
    ensures { IsTrue result ↔ IsIpv6Prefix text.now }
{
    match text.split_once('/') {
        None => false,
        Some((address, length)) => is_ipv6_address(address) && is_ipv6_length(length),
    }
}

/// Whether a text is of the grammar of a name.
pub(crate) fn is_builtin(builtin: Builtin, text: &str) -> bool
    ensures { IsTrue result ↔ IsBuiltin builtin text.now }
{
    match builtin {
        Builtin::Ipv4Address => is_ipv4_address(text),
        Builtin::Ipv6Address => is_ipv6_address(text),
        Builtin::IpAddress => is_ipv4_address(text) || is_ipv6_address(text),
        Builtin::Ipv4Prefix => is_ipv4_prefix(text),
        Builtin::Ipv6Prefix => is_ipv6_prefix(text),
        Builtin::IpPrefix => is_ipv4_prefix(text) || is_ipv6_prefix(text),
        Builtin::MacAddress => has_parts(Part::Pair, text, 6),
    }
}
