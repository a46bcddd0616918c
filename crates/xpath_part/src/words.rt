//! What a word stands for, once all its bytes are there.
ghost use Rattle.std.specs.Prelude.{◌≡◌};
ghost use Rattle.xpath_part.specs.Words.{text_of, number_of, name_token, prefixed_token, literal_token, number_token, is_name_start, is_name_byte, is_digit, is_blank};

use crate::symbols::Token;
use host_core::{Sequence, Txt};

/// The most digits that a number has.
const DIGITS: usize = 9;

/// The white space that may stand between tokens.
pub(crate) fn is_blank(byte: u8) -> bool
    ensures { result ≡ is_blank byte }
{
    byte == b' ' || byte == b'\t' || byte == b'\n' || byte == b'\r'
}

pub(crate) fn is_digit(byte: u8) -> bool
    ensures { result ≡ is_digit byte }
{
    b'0' <= byte && byte <= b'9'
}

/// What may begin a name.
pub(crate) fn is_name_start(byte: u8) -> bool
    ensures { result ≡ is_name_start byte }
{
    (b'a' <= byte && byte <= b'z') || (b'A' <= byte && byte <= b'Z') || byte == b'_'
}

/// What may go on in a name.
pub(crate) fn is_name_byte(byte: u8) -> bool
    ensures { result ≡ is_name_byte byte }
{
    is_name_start(byte) || is_digit(byte) || byte == b'-' || byte == b'.'
}

/// The text of a word, which is valid UTF-8 where it comes from a text. Takes no memory.
fn text_of(word: Sequence<u8>) -> Option<Txt>
    ensures { result ≡ text_of word }
{
    match String::from_utf8(word.into_vec()) {
        Ok(text) => Some(Txt::from(text)),
        Err(_) => None,
    }
}

/// A name without prefix.
pub(crate) fn name_token(name: Sequence<u8>) -> Option<Token>
    ensures { result ≡ name_token name }
{
    match text_of(name) {
        Some(name) => Some(Token::Name(None, name)),
        None => None,
    }
}

/// A name behind a prefix.
pub(crate) fn prefixed_token(prefix: Sequence<u8>, name: Sequence<u8>) -> Option<Token>
    ensures { result ≡ prefixed_token prefix name }
{
    match (text_of(prefix), text_of(name)) {
        (Some(prefix), Some(name)) => Some(Token::Name(Some(prefix), name)),
        _ => None,
    }
}

/// What stood between two quotes.
pub(crate) fn literal_token(word: Sequence<u8>) -> Option<Token>
    ensures { result ≡ literal_token word }
{
    match text_of(word) {
        Some(text) => Some(Token::Literal(text)),
        None => None,
    }
}

/// The number of at most nine decimal digits.
fn number_of(digits: &[u8]) -> Option<u32>
    ensures { result ≡ number_of digits.now }
{
    if digits.len() > DIGITS {
        return None;
    }
    let mut value = 0u32;
    for digit in digits {
        if !is_digit(*digit) {
            return None;
        }
        value = value * 10 + (*digit - b'0') as u32;
    }
    Some(value)
}

/// A number.
pub(crate) fn number_token(digits: Sequence<u8>) -> Option<Token>
    ensures { result ≡ number_token digits }
{
    match number_of(digits.items()) {
        Some(number) => Some(Token::Number(number)),
        None => None,
    }
}
