//! The tokens of a text: words, quoted texts and signs.
ghost use Rattle.std.specs.Prelude.{◌≡◌, ◌+◌, ◌^◌, ◌<◌, ◌≤◌, ◌++◌, length, drop, option_to_list, slice_index_or, All, IfOk, OnOk, IsUtf8};
ghost use Rattle.host_core.specs.Characters.{line_feed};
ghost use Rattle.yang_text.specs.Texts.{IsWithin, IsCut};
ghost use Rattle.yang_text.specs.Bytes.{is_blank, is_word_byte, is_comment_sign, is_escapable, ends_word};
ghost use Rattle.yang_text.specs.Lexing.{quiet, sign, word, outside, outside_signs, in_line, in_block, in_single, in_double, advance, open_fault, next_line, window, tokens};

use std::alloc::{AllocError, Global};

/// What a token is.
#[derive(Clone, Copy)]
pub enum Kind {
    /// An unquoted run.
    Word,
    /// What stands in single quotes.
    Single,
    /// What stands in double quotes, with its escapes.
    Double,
    Semicolon,
    Open,
    Close,
    /// An unterminated comment or quote, an invalid escape, or a stray `*/`.
    Bad,
}

/// A token, which is the bytes from `start` to before `end`, without quotes.
#[derive(Clone, Copy)]
pub struct Token {
    pub kind: Kind,
    /// The line where it begins, counted from 1.
    pub line: u32,
    pub start: usize,
    pub end: usize,
}

/// What the bytes so far have left open.
#[derive(Clone, Copy)]
pub enum Mode {
    Outside,
    Word { start: usize },
    /// A comment up to the end of the line.
    Line,
    /// Behind the slash of a comment in stars.
    Opens { line: u32 },
    Block { line: u32 },
    /// Before the second sign of `*/`.
    Skip,
    Single { line: u32, start: usize },
    Double { line: u32, start: usize },
    /// Behind a backslash.
    Escape { line: u32, start: usize },
}

/// A byte of the text with its place, and the two bytes after it. The text is as if line feeds followed it.
#[derive(Clone, Copy)]
pub struct Window {
    pub at: usize,
    pub line: u32,
    pub byte: u8,
    pub next: u8,
    pub later: u8,
}

/// What one byte brings.
#[derive(Clone, Copy)]
pub struct Step {
    pub mode: Mode,
    pub token: Option<Token>,
}

fn is_blank(b: u8) -> bool
    ensures { result ≡ is_blank b }
{
    b == b' ' || b == b'\t' || b == b'\r' || b == b'\n'
}

fn is_word_byte(b: u8) -> bool
    ensures { result ≡ is_word_byte b }
{
    !(is_blank(b) || b == b'"' || b == b'\'' || b == b';' || b == b'{' || b == b'}')
}

/// The two bytes are `//`, `/*` or `*/`.
fn is_comment_sign(b: u8, next: u8) -> bool
    ensures { result ≡ is_comment_sign b next }
{
    b == b'/' && (next == b'/' || next == b'*') || b == b'*' && next == b'/'
}

fn is_escapable(b: u8) -> bool
    ensures { result ≡ is_escapable b }
{
    b == b'n' || b == b't' || b == b'"' || b == b'\\'
}

fn ends_word(next: u8, later: u8) -> bool
    ensures { result ≡ ends_word next later }
{
    !is_word_byte(next) || is_comment_sign(next, later)
}

/// A byte of a word.
fn word(start: usize, w: Window) -> Step
    requires { w.at < 2 ^ 32 }
    ensures { result ≡ word start w }
{
    if ends_word(w.next, w.later) {
        Step {
            mode: Mode::Outside,
            token: Some(Token {
                kind: Kind::Word,
                line: w.line,
                start,
                end: w.at + 1,
            }),
        }
    } else {
        Step {
            mode: Mode::Word { start },
            token: None,
        }
    }
}

/// A token of one byte.
fn sign(kind: Kind, w: Window) -> Step
    requires { w.at < 2 ^ 32 }
    ensures { result ≡ sign kind w }
{
    Step {
        mode: Mode::Outside,
        token: Some(Token {
            kind,
            line: w.line,
            start: w.at,
            end: w.at + 1,
        }),
    }
}

fn quiet(mode: Mode) -> Step
    ensures { result ≡ quiet mode }
{
    Step { mode, token: None }
}

/// A byte outside words, comments and quotes.
fn outside(w: Window) -> Step
    requires { w.at < 2 ^ 32 }
    ensures { result ≡ outside w }
{
    if is_blank(w.byte) {
        quiet(Mode::Outside)
    } else if w.byte == b';' {
        sign(Kind::Semicolon, w)
    } else if w.byte == b'{' {
        sign(Kind::Open, w)
    } else if w.byte == b'}' {
        sign(Kind::Close, w)
    } else if w.byte == b'"' {
        quiet(Mode::Double {
            line: w.line,
            start: w.at + 1,
        })
    } else if w.byte == b'\'' {
        quiet(Mode::Single {
            line: w.line,
            start: w.at + 1,
        })
    } else {
        outside_signs(w)
    }
}

/// A byte that is none of the signs of one byte.
fn outside_signs(w: Window) -> Step
    requires { w.at < 2 ^ 32 }
    ensures { result ≡ outside_signs w }
{
    if w.byte == b'/' && w.next == b'/' {
        quiet(Mode::Line)
    } else if w.byte == b'/' && w.next == b'*' {
        quiet(Mode::Opens { line: w.line })
    } else if w.byte == b'*' && w.next == b'/' {
        Step {
            mode: Mode::Skip,
            token: Some(Token {
                kind: Kind::Bad,
                line: w.line,
                start: w.at,
                end: w.at + 1,
            }),
        }
    } else {
        word(w.at, w)
    }
}

/// A byte in double quotes.
fn in_double(line: u32, start: usize, w: Window) -> Step
    requires { w.at < 2 ^ 32 }
    ensures { result ≡ in_double line start w }
{
    if w.byte == b'"' {
        Step {
            mode: Mode::Outside,
            token: Some(Token {
                kind: Kind::Double,
                line,
                start,
                end: w.at,
            }),
        }
    } else if w.byte != b'\\' {
        quiet(Mode::Double { line, start })
    } else if is_escapable(w.next) {
        quiet(Mode::Escape { line, start })
    } else {
        Step {
            mode: Mode::Double { line, start },
            token: Some(Token {
                kind: Kind::Bad,
                line: w.line,
                start: w.at,
                end: w.at + 1,
            }),
        }
    }
}

/// A byte in single quotes.
fn in_single(line: u32, start: usize, w: Window) -> Step
    ensures { result ≡ in_single line start w }
{
    if w.byte == b'\'' {
        Step {
            mode: Mode::Outside,
            token: Some(Token {
                kind: Kind::Single,
                line,
                start,
                end: w.at,
            }),
        }
    } else {
        quiet(Mode::Single { line, start })
    }
}

/// A byte of a comment in stars.
fn in_block(line: u32, w: Window) -> Step
    ensures { result ≡ in_block line w }
{
    if w.byte == b'*' && w.next == b'/' {
        quiet(Mode::Skip)
    } else {
        quiet(Mode::Block { line })
    }
}

/// A byte of a comment up to the end of the line.
fn in_line(w: Window) -> Step
    ensures { result ≡ in_line w }
{
    if w.byte == b'\n' {
        quiet(Mode::Outside)
    } else {
        quiet(Mode::Line)
    }
}

fn advance(mode: Mode, w: Window) -> Step
    requires { w.at < 2 ^ 32 }
    ensures { result ≡ advance mode w }
{
    match mode {
        Mode::Outside => outside(w),
        Mode::Word { start } => word(start, w),
        Mode::Line => in_line(w),
        Mode::Opens { line } => quiet(Mode::Block { line }),
        Mode::Block { line } => in_block(line, w),
        Mode::Skip => quiet(Mode::Outside),
        Mode::Single { line, start } => in_single(line, start, w),
        Mode::Double { line, start } => in_double(line, start, w),
        Mode::Escape { line, start } => quiet(Mode::Double { line, start }),
    }
}

/// The fault of an unterminated comment or quote.
fn open_fault(mode: Mode, at: usize) -> Option<Token>
    ensures { result ≡ open_fault mode at }
{
    match mode {
        Mode::Outside | Mode::Word { .. } | Mode::Line | Mode::Skip => None,
        Mode::Opens { line }
        | Mode::Block { line }
        | Mode::Single { line, .. }
        | Mode::Double { line, .. }
        | Mode::Escape { line, .. } => Some(Token {
            kind: Kind::Bad,
            line,
            start: at,
            end: at,
        }),
    }
}

/// The byte at a position, or a line feed behind the text.
fn byte_at(bytes: &[u8], at: usize) -> u8
    ensures { result ≡ slice_index_or bytes.now at line_feed }
{
    match bytes.get(at) {
        Some(byte) => *byte,
        None => b'\n',
    }
}

fn window_at(bytes: &[u8], at: usize, line: u32) -> Window
    requires { at < 2 ^ 32 }
    ensures { result ≡ window at line (drop at bytes.now) }
{
    Window {
        at,
        line,
        byte: byte_at(bytes, at),
        next: byte_at(bytes, at + 1),
        later: byte_at(bytes, at + 2),
    }
}

fn next_line(line: u32, byte: u8) -> u32
    requires { line < 2 ^ 31 }
    ensures { result ≡ next_line line byte }
{
    if byte == b'\n' { line + 1 } else { line }
}

fn push_found(tokens: &mut Vec<Token>, found: Option<Token>) -> Result<(), AllocError>
    ensures { OnOk result (tokens.new.items ≡ tokens.old.items ++ option_to_list found) }
{
    match found {
        Some(token) => {
            tokens.push(token)?;
            Ok(())
        }
        None => Ok(()),
    }
}

/// The tokens of a text, in its order.
pub fn read_tokens(alloc: Global, bytes: &[u8]) -> Result<Vec<Token>, AllocError>
    requires { length bytes.now ≤ 2 ^ 20 }
    ensures tokens { IfOk result (λ found. found.items ≡ tokens bytes.now) }
    ensures within { IfOk result (λ found. All (IsWithin bytes.now) found.items) }
    ensures cut { IfOk result (λ found. IsUtf8 bytes.now → All (IsCut bytes.now) found.items) }
    ensures few { IfOk result (λ found. length found.items ≤ length bytes.now + 1) }
{
    let mut found = Vec::new(alloc);
    let mut mode = Mode::Outside;
    let mut line = 1;
    for at in 0..bytes.len() {
        let window = window_at(bytes, at, line);
        let step = advance(mode, window);
        push_found(&mut found, step.token)?;
        mode = step.mode;
        line = next_line(line, window.byte);
    }
    push_found(&mut found, open_fault(mode, bytes.len()))?;
    Ok(found)
}
