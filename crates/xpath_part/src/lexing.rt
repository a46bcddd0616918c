//! The tokens of a text. Words are the longest.
ghost use Rattle.std.specs.Prelude.{◌≡◌, [], ◌∷◌, ◌++◌, length, IfOk, IfErr, OnOk, Some, None};
ghost use Rattle.std.specs.Option.{option_to_list};
ghost use Rattle.xpath_part.specs.Errors.{IfBad, IsPlaceUpTo};
ghost use Rattle.xpath_part.specs.Lexing.{ends, whole, sign_of, begin, begin_longer, pair, grow, finish, settled, advance, Advances, lex};

use crate::symbols::{Sign, Token};
use crate::words::{
    is_blank, is_digit, is_name_byte, is_name_start, literal_token, name_token, number_token,
    prefixed_token,
};
use crate::{Cmp, ExprError};
use host_core::{Memory, Sequence};
use std::alloc::Global;

/// What has been read of a token that may go on.
#[derive(Drop)]
pub(crate) enum Mode {
    Between,
    Dot,
    Exclamation,
    Less,
    More,
    Name(Sequence<u8>),
    Colon(Sequence<u8>),
    Local(Sequence<u8>, Sequence<u8>),
    Literal(u8, Sequence<u8>),
    Number(Sequence<u8>),
}

/// What a byte does to a token that may go on.
#[derive(Drop)]
pub(crate) enum Growth {
    /// It goes on, or the next one may begin.
    Within(Mode),
    /// The byte is its last one.
    Whole(Token),
    /// It ended before the byte.
    Ends(Option<Token>),
    /// There is no such token.
    Bad,
}

/// A word of one byte.
fn word(alloc: Global, byte: u8) -> Result<Sequence<u8>, Memory>
    ensures { IfOk result (λ w. w ≡ byte ∷ []) }
{
    let mut word = Sequence::new(alloc);
    word.push(byte)?;
    Ok(word)
}

/// A word with one more byte.
fn longer(word: Sequence<u8>, byte: u8) -> Result<Sequence<u8>, Memory>
    ensures { IfOk result (λ w. w ≡ word ++ byte ∷ []) }
{
    let mut word = word;
    word.push(byte)?;
    Ok(word)
}

/// A token that ended before the byte, or none.
fn ends(token: Option<Token>) -> Growth
    ensures { result ≡ ends token }
{
    match token {
        Some(token) => Growth::Ends(Some(token)),
        None => Growth::Bad,
    }
}

/// A token of which the byte is the last one, or none.
fn whole(token: Option<Token>) -> Growth
    ensures { result ≡ whole token }
{
    match token {
        Some(token) => Growth::Whole(token),
        None => Growth::Bad,
    }
}

/// The sign that a byte is by itself.
fn sign_of(byte: u8) -> Option<Sign>
    ensures { result ≡ sign_of byte }
{
    if byte == b'/' {
        Some(Sign::Slash)
    } else if byte == b'(' {
        Some(Sign::Open)
    } else if byte == b')' {
        Some(Sign::Close)
    } else if byte == b'[' {
        Some(Sign::OpenBracket)
    } else if byte == b']' {
        Some(Sign::CloseBracket)
    } else if byte == b'=' {
        Some(Sign::Compare(Cmp::Equal))
    } else {
        None
    }
}

/// The first byte of a token, or white space.
fn begin(alloc: Global, byte: u8) -> Result<Growth, Memory>
    ensures { IfOk result (λ g. g ≡ begin byte) }
{
    if is_blank(byte) {
        return Ok(Growth::Within(Mode::Between));
    }
    if let Some(sign) = sign_of(byte) {
        return Ok(Growth::Whole(Token::Sign(sign)));
    }
    begin_longer(alloc, byte)
}

/// The first byte of a token that may have several.
fn begin_longer(alloc: Global, byte: u8) -> Result<Growth, Memory>
    ensures { IfOk result (λ g. g ≡ begin_longer byte) }
{
    let mode = if byte == b'.' {
        Mode::Dot
    } else if byte == b'!' {
        Mode::Exclamation
    } else if byte == b'<' {
        Mode::Less
    } else if byte == b'>' {
        Mode::More
    } else if byte == b'\'' || byte == b'"' {
        Mode::Literal(byte, Sequence::new(alloc))
    } else if is_digit(byte) {
        Mode::Number(word(alloc, byte)?)
    } else if is_name_start(byte) {
        Mode::Name(word(alloc, byte)?)
    } else {
        return Ok(Growth::Bad);
    };
    Ok(Growth::Within(mode))
}

/// A byte behind a sign that another one may follow.
fn pair(byte: u8, second: u8, both: Sign, alone: Option<Sign>) -> Growth
    ensures { result ≡ pair byte second both alone }
{
    if byte == second {
        return Growth::Whole(Token::Sign(both));
    }
    match alone {
        Some(sign) => Growth::Ends(Some(Token::Sign(sign))),
        None => Growth::Bad,
    }
}

/// The next byte.
fn grow(alloc: Global, mode: Mode, byte: u8) -> Result<Growth, Memory>
    ensures { IfOk result (λ g. g ≡ grow mode byte) }
{
    Ok(match mode {
        Mode::Between => Growth::Ends(None),
        Mode::Dot => pair(byte, b'.', Sign::Up, Some(Sign::Stay)),
        Mode::Exclamation => pair(byte, b'=', Sign::Compare(Cmp::Differ), None),
        Mode::Less => pair(
            byte,
            b'=',
            Sign::Compare(Cmp::AtMost),
            Some(Sign::Compare(Cmp::Less)),
        ),
        Mode::More => pair(
            byte,
            b'=',
            Sign::Compare(Cmp::AtLeast),
            Some(Sign::Compare(Cmp::More)),
        ),
        Mode::Name(name) => {
            if is_name_byte(byte) {
                Growth::Within(Mode::Name(longer(name, byte)?))
            } else if byte == b':' {
                Growth::Within(Mode::Colon(name))
            } else {
                ends(name_token(name))
            }
        }
        Mode::Colon(prefix) => {
            if is_name_start(byte) {
                Growth::Within(Mode::Local(prefix, word(alloc, byte)?))
            } else {
                Growth::Bad
            }
        }
        Mode::Local(prefix, name) => {
            if is_name_byte(byte) {
                Growth::Within(Mode::Local(prefix, longer(name, byte)?))
            } else {
                ends(prefixed_token(prefix, name))
            }
        }
        Mode::Literal(quote, text) => {
            if byte == quote {
                whole(literal_token(text))
            } else {
                Growth::Within(Mode::Literal(quote, longer(text, byte)?))
            }
        }
        Mode::Number(digits) => {
            if is_digit(byte) {
                Growth::Within(Mode::Number(longer(digits, byte)?))
            } else {
                ends(number_token(digits))
            }
        }
    })
}

/// The token that is left at the end of the text, where what is left is one. At most one is appended.
fn finish(mode: Mode) -> Growth
    ensures { result ≡ finish mode }
{
    match mode {
        Mode::Between => Growth::Ends(None),
        Mode::Dot => Growth::Ends(Some(Token::Sign(Sign::Stay))),
        Mode::Less => Growth::Ends(Some(Token::Sign(Sign::Compare(Cmp::Less)))),
        Mode::More => Growth::Ends(Some(Token::Sign(Sign::Compare(Cmp::More)))),
        Mode::Name(name) => ends(name_token(name)),
        Mode::Local(prefix, name) => ends(prefixed_token(prefix, name)),
        Mode::Number(digits) => ends(number_token(digits)),
        Mode::Exclamation | Mode::Colon(_) | Mode::Literal(_, _) => Growth::Bad,
    }
}

/// Adds the token that has ended, where there is one, and gives what has been read of the next one.
fn settle(tokens: &mut Vec<Token>, growth: Growth, at: usize) -> Result<Mode, ExprError>
    ensures ok { IfOk result (Advances (settled growth) tokens.old.items tokens.new.items) }
    ensures bad { IfErr result (λ e. IfBad e (settled growth ≡ None)) }
    ensures place { IfErr result (IsPlaceUpTo at) }
{
    match growth {
        Growth::Within(mode) => Ok(mode),
        Growth::Whole(token) => {
            tokens.push(token)?;
            Ok(Mode::Between)
        }
        Growth::Ends(_) | Growth::Bad => Err(ExprError::Bad { at }),
    }
}

/// Adds the token that has ended before a byte, where there is one.
fn push_ended(tokens: &mut Vec<Token>, ended: Option<Token>) -> Result<(), Memory>
    ensures { OnOk result (tokens.new.items ≡ tokens.old.items ++ option_to_list ended) }
{
    match ended {
        Some(token) => {
            tokens.push(token)?;
            Ok(())
        }
        None => Ok(()),
    }
}

/// Adds the tokens that have ended with a byte, and gives what has been read of the next one.
fn advance(
    tokens: &mut Vec<Token>,
    alloc: Global,
    mode: Mode,
    byte: u8,
    at: usize,
) -> Result<Mode, ExprError>
    ensures ok { IfOk result (Advances (advance mode byte) tokens.old.items tokens.new.items) }
    ensures bad { IfErr result (λ e. IfBad e (advance mode byte ≡ None)) }
    ensures place { IfErr result (IsPlaceUpTo at) }
{
    match grow(alloc, mode, byte)? {
        Growth::Ends(ended) => {
            push_ended(tokens, ended)?;
            settle(tokens, begin(alloc, byte)?, at)
        }
        growth => settle(tokens, growth, at),
    }
}

/// The tokens of a text.
pub(crate) fn lex(alloc: Global, text: &str) -> Result<Vec<Token>, ExprError>
    ensures ok { IfOk result (λ ts. lex text.now ≡ Some ts.items) }
    ensures bad { IfErr result (λ e. IfBad e (lex text.now ≡ None)) }
    ensures place { IfErr result (IsPlaceUpTo (length text.now)) }
{
    let bytes = text.as_bytes();
    let mut tokens = Vec::new(alloc);
    let mut mode = Mode::Between;
    for at in 0..bytes.len() {
        mode = advance(&mut tokens, alloc, mode, bytes[at], at)?;
    }
    match finish(mode) {
        Growth::Ends(ended) => {
            push_ended(&mut tokens, ended)?;
            Ok(tokens)
        }
        other => {
            drop(other);
            Err(ExprError::Bad { at: bytes.len() })
        }
    }
}
