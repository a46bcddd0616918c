//! The faults of a list of tokens, and the one that is answered.
ghost use Rattle.std.specs.Prelude.{◌≡◌, ◌+◌, ◌^◌, ◌<◌, ◌≤◌, All, Some, fold, length, option_to_list};
ghost use Rattle.std.specs.List.{list_all};
ghost use Rattle.yang_text.specs.Bytes.{is_letter, is_name_byte, is_keyword};
ghost use Rattle.yang_text.specs.Errors.{text_fault};
ghost use Rattle.yang_text.specs.Faults.{lower, lower_of, word_class, class_of, opening, ending, behind_keyword, behind_quote, behind_plus, refusal, text_phase, phase_after, depth_after, fault_at, faults_from};
ghost use Rattle.yang_text.specs.Texts.{IsWithin};
ghost use Rattle.yang_text.specs.declared.faults.Phase.TheVariants.{Due};

use crate::errors::{ModelWhy, TextError};
use crate::lexing::{Kind, Token};

/// A fault of a text, and its line.
#[derive(Clone, Copy)]
pub struct Fault {
    pub line: u32,
    pub why: ModelWhy,
}

/// What a token may stand for.
#[derive(Clone, Copy)]
pub enum Class {
    /// A word that may be a keyword.
    Name,
    /// The word `+`.
    Plus,
    /// A longer word that begins with `+`.
    Sum,
    /// Any other word.
    Text,
    Quote,
    Semicolon,
    Open,
    Close,
    Bad,
}

/// What has been read of a statement.
#[derive(Clone, Copy)]
pub enum Phase {
    /// Nothing.
    Due,
    /// Its keyword.
    Named,
    /// An unquoted argument.
    Plain,
    /// A quoted argument or a part of one.
    Quoted,
    /// A quoted part and a plus sign.
    Joining,
}

impl Fault {
    /// The fault of the lower line, or on one line of the first name.
    fn lower(self, other: Fault) -> Fault
        ensures { result ≡ lower self other }
    {
        let first = self.why.number() <= other.why.number();
        if self.line < other.line || self.line == other.line && first {
            self
        } else {
            other
        }
    }

    /// The error that tells of it.
    pub fn tell(self) -> TextError
        ensures { text_fault result ≡ Some self }
    {
        TextError::Fault {
            line: self.line,
            why: self.why,
        }
    }
}

fn lower_of(best: Option<Fault>, fault: Fault) -> Option<Fault>
    ensures { result ≡ lower_of best fault }
{
    match best {
        None => Some(fault),
        Some(least) => Some(least.lower(fault)),
    }
}

fn is_letter(b: u8) -> bool
    ensures { result ≡ is_letter b }
{
    b >= b'A' && b <= b'Z' || b >= b'a' && b <= b'z' || b == b'_'
}

fn is_name_byte(b: u8) -> bool
    ensures { result ≡ is_name_byte b }
{
    is_letter(b) || b >= b'0' && b <= b'9' || b == b'-' || b == b'.' || b == b':'
}

fn are_name_bytes(bytes: &[u8]) -> bool
    ensures { result ≡ list_all is_name_byte bytes.now }
{
    bytes.iter().all(|b| is_name_byte(*b))
}

fn is_keyword(word: &[u8]) -> bool
    ensures { result ≡ is_keyword word.now }
{
    match word.split_first() {
        None => false,
        Some((first, rest)) => is_letter(*first) && are_name_bytes(rest),
    }
}

fn word_class(word: &[u8]) -> Class
    ensures { result ≡ word_class word.now }
{
    if is_keyword(word) {
        Class::Name
    } else if word.starts_with(b"+") {
        if word.len() == 1 {
            Class::Plus
        } else {
            Class::Sum
        }
    } else {
        Class::Text
    }
}

fn class_of(bytes: &[u8], token: Token) -> Class
    requires { IsWithin bytes.now token }
    ensures { result ≡ class_of bytes.now token }
{
    match token.kind {
        Kind::Word => word_class(&bytes[token.start..token.end]),
        Kind::Single | Kind::Double => Class::Quote,
        Kind::Semicolon => Class::Semicolon,
        Kind::Open => Class::Open,
        Kind::Close => Class::Close,
        Kind::Bad => Class::Bad,
    }
}

/// Where a keyword is due, or the end of a block.
fn opening(depth: usize, class: Class) -> Option<ModelWhy>
    ensures { result ≡ opening depth class }
{
    match class {
        Class::Name => None,
        Class::Plus | Class::Sum | Class::Text | Class::Quote | Class::Bad => {
            Some(ModelWhy::BadToken)
        }
        Class::Semicolon | Class::Open => Some(ModelWhy::Unbalanced),
        Class::Close => {
            if depth == 0 {
                Some(ModelWhy::Unbalanced)
            } else {
                None
            }
        }
    }
}

/// Where a semicolon or a block is due.
fn ending(depth: usize, class: Class) -> Option<ModelWhy>
    ensures { result ≡ ending depth class }
{
    match class {
        Class::Semicolon => None,
        Class::Open => {
            if depth < 32 {
                None
            } else {
                Some(ModelWhy::TooDeep)
            }
        }
        Class::Bad => Some(ModelWhy::BadToken),
        Class::Name | Class::Plus | Class::Sum | Class::Text | Class::Quote | Class::Close => {
            Some(ModelWhy::Unbalanced)
        }
    }
}

/// Behind a quoted part.
fn behind_quote(depth: usize, class: Class) -> Option<ModelWhy>
    ensures { result ≡ behind_quote depth class }
{
    match class {
        Class::Plus => None,
        Class::Sum => Some(ModelWhy::BadToken),
        _ => ending(depth, class),
    }
}

/// Behind a keyword.
fn behind_keyword(depth: usize, class: Class) -> Option<ModelWhy>
    ensures { result ≡ behind_keyword depth class }
{
    match class {
        Class::Name | Class::Plus | Class::Sum | Class::Text | Class::Quote => None,
        _ => ending(depth, class),
    }
}

/// Behind a joining plus sign.
fn behind_plus(class: Class) -> Option<ModelWhy>
    ensures { result ≡ behind_plus class }
{
    match class {
        Class::Quote => None,
        _ => Some(ModelWhy::BadToken),
    }
}

/// Why a token can't stand there.
fn refusal(phase: Phase, depth: usize, class: Class) -> Option<ModelWhy>
    ensures { result ≡ refusal phase depth class }
{
    match phase {
        Phase::Due => opening(depth, class),
        Phase::Named => behind_keyword(depth, class),
        Phase::Plain => ending(depth, class),
        Phase::Quoted => behind_quote(depth, class),
        Phase::Joining => behind_plus(class),
    }
}

/// The phase behind a word or a quoted text.
fn text_phase(phase: Phase, class: Class) -> Phase
    ensures { result ≡ text_phase phase class }
{
    match phase {
        Phase::Due => Phase::Named,
        Phase::Named => match class {
            Class::Quote => Phase::Quoted,
            _ => Phase::Plain,
        },
        Phase::Plain => Phase::Plain,
        Phase::Quoted => match class {
            Class::Plus => Phase::Joining,
            _ => Phase::Quoted,
        },
        Phase::Joining => Phase::Quoted,
    }
}

/// Reading goes on behind a fault: what can't stand there is left out, and a brace closes or opens a block.
fn phase_after(phase: Phase, class: Class) -> Phase
    ensures { result ≡ phase_after phase class }
{
    match class {
        Class::Semicolon | Class::Open | Class::Close => Phase::Due,
        Class::Bad => phase,
        _ => text_phase(phase, class),
    }
}

fn depth_after(depth: usize, class: Class) -> usize
    requires { depth < 2 ^ 32 }
    ensures { result ≡ depth_after depth class }
{
    match class {
        Class::Open => depth + 1,
        Class::Close => depth.saturating_sub(1),
        _ => depth,
    }
}

fn lower_why(best: Option<Fault>, line: u32, why: Option<ModelWhy>) -> Option<Fault>
    ensures { result ≡ fold lower_of best (option_to_list (fault_at line why)) }
{
    match why {
        None => best,
        Some(why) => lower_of(best, Fault { line, why }),
    }
}

/// The least fault of the tokens of a text, and of one found before.
pub fn least_fault(bytes: &[u8], tokens: &[Token], found: Option<Fault>) -> Option<Fault>
    requires within { All (IsWithin bytes.now) tokens.now }
    requires few { length tokens.now < 2 ^ 32 }
    ensures { result ≡ fold lower_of found (faults_from bytes.now Due 0 tokens.now) }
{
    let mut best = found;
    let mut phase = Phase::Due;
    let mut depth = 0;
    for token in tokens {
        let class = class_of(bytes, *token);
        best = lower_why(best, token.line, refusal(phase, depth, class));
        phase = phase_after(phase, class);
        depth = depth_after(depth, class);
    }
    best
}
