//! The tokens of a pattern, from its letters.

ghost use Rattle.std.specs.Prelude.{◌≡◌, ◌∷◌, ◌++◌, List, [], IfOk, IfErr, Some, None, true, false, option_map};
ghost use Rattle.yang_pattern.specs.declared.letters.Letter.{Letter};
ghost use Rattle.yang_pattern.specs.declared.tokens.Mode.TheVariants.{Outside};
ghost use Rattle.yang_pattern.specs.Lexing.{single, any, token_at, outside, in_class, in_count, advance, lex};
ghost use Rattle.yang_pattern.specs.Errors.{IfNoPattern};

use crate::classes::OpenClass;
use crate::counts::OpenCount;
use crate::errors::Failure;
use crate::letters::Letter;
use crate::symbols::{Quantifier, Symbol, Token};
use std::alloc::{AllocError, Global};

/// What the letters read so far have left open.
#[derive(Drop)]
pub enum Mode {
    Outside,
    Class(OpenClass),
    Count(OpenCount),
}

/// What one letter brings.
#[derive(Drop)]
pub struct Step {
    pub mode: Mode,
    pub token: Option<Token>,
}

/// The symbol of one character.
fn single(alloc: Global, c: char) -> Result<Symbol, AllocError>
    ensures { IfOk result (λ y. y ≡ single c) }
{
    let mut ranges = Vec::new(alloc);
    ranges.push((c as u32, c as u32))?;
    Symbol::new(false, ranges)
}

/// The symbol of `.`: all characters but line feed and carriage return.
fn any(alloc: Global) -> Result<Symbol, AllocError>
    ensures { IfOk result (λ y. y ≡ any) }
{
    let mut ranges = Vec::new(alloc);
    ranges.push(('\n' as u32, '\n' as u32))?;
    ranges.push(('\r' as u32, '\r' as u32))?;
    Symbol::new(true, ranges)
}

/// The token of a character without backslash that is a whole token.
fn token_at(alloc: Global, c: char) -> Result<Token, AllocError>
    ensures { IfOk result (λ token. token ≡ token_at c) }
{
    if c == '(' {
        Ok(Token::Open)
    } else if c == ')' {
        Ok(Token::Close)
    } else if c == '|' {
        Ok(Token::Bar)
    } else if c == '*' {
        Ok(Token::Times(Quantifier::AtLeast(0)))
    } else if c == '+' {
        Ok(Token::Times(Quantifier::OneOrMore))
    } else if c == '?' {
        Ok(Token::Times(Quantifier::Between { least: 0, more: 1 }))
    } else if c == '.' {
        Ok(Token::Symbol(any(alloc)?))
    } else {
        Ok(Token::Symbol(single(alloc, c)?))
    }
}

/// A letter outside classes and braces. None where it can't stand here.
fn outside(alloc: Global, letter: Letter) -> Result<Option<Step>, AllocError>
    ensures { IfOk result (λ found. found ≡ outside letter) }
{
    let c = letter.character;
    if letter.escaped {
        return Ok(Some(Step {
            mode: Mode::Outside,
            token: Some(Token::Symbol(single(alloc, c)?)),
        }));
    }
    if c == '[' {
        return Ok(Some(Step {
            mode: Mode::Class(OpenClass::new(alloc)),
            token: None,
        }));
    }
    if c == '{' {
        return Ok(Some(Step {
            mode: Mode::Count(OpenCount::new()),
            token: None,
        }));
    }
    if c == ']' || c == '}' {
        return Ok(None);
    }
    Ok(Some(Step {
        mode: Mode::Outside,
        token: Some(token_at(alloc, c)?),
    }))
}

/// A letter in a class. None where it can't stand here.
fn in_class(class: OpenClass, letter: Letter) -> Result<Option<Step>, AllocError>
    ensures { IfOk result (λ found. found ≡ in_class class letter) }
{
    if letter.character == ']' && !letter.escaped {
        return match class.close()? {
            None => Ok(None),
            Some(symbol) => Ok(Some(Step {
                mode: Mode::Outside,
                token: Some(Token::Symbol(symbol)),
            })),
        };
    }
    match class.with(letter)? {
        None => Ok(None),
        Some(class) => Ok(Some(Step {
            mode: Mode::Class(class),
            token: None,
        })),
    }
}

/// A letter in braces. None where it can't stand here.
fn in_count(count: OpenCount, letter: Letter) -> Option<Step>
    ensures { result ≡ in_count count letter }
{
    if letter.character == '}' && !letter.escaped {
        return match count.close() {
            None => None,
            Some(quantifier) => Some(Step {
                mode: Mode::Outside,
                token: Some(Token::Times(quantifier)),
            }),
        };
    }
    match count.with(letter) {
        None => None,
        Some(count) => Some(Step {
            mode: Mode::Count(count),
            token: None,
        }),
    }
}

/// One letter. None where it can't stand here.
pub fn advance(alloc: Global, mode: Mode, letter: Letter) -> Result<Option<Step>, AllocError>
    ensures { IfOk result (λ found. found ≡ advance mode letter) }
{
    match mode {
        Mode::Outside => outside(alloc, letter),
        Mode::Class(class) => in_class(class, letter),
        Mode::Count(count) => Ok(in_count(count, letter)),
    }
}

/// One letter more.
fn read_letter(
    tokens: &mut Vec<Token>,
    alloc: Global,
    mode: Mode,
    letter: Letter,
) -> Result<Mode, Failure>
    ensures ok { IfOk result (λ next. (ls : List Letter)
        → option_map (λ ts. tokens.new.items ++ ts) (lex next ls)
        ≡ option_map (λ ts. tokens.old.items ++ ts) (lex mode (letter ∷ ls))) }
    ensures bad { IfErr result
        (λ e. IfNoPattern e ((ls : List Letter) → lex mode (letter ∷ ls) ≡ None)) }
{
    match advance(alloc, mode, letter)? {
        None => Err(Failure::NoPattern),
        Some(step) => {
            let Step { mode, token } = step;
            if let Some(token) = token {
                tokens.push(token)?;
            }
            Ok(mode)
        }
    }
}

/// The tokens of the letters.
pub fn split_letters(alloc: Global, letters: &[Letter]) -> Result<Vec<Token>, Failure>
    ensures ok { IfOk result (λ tokens. lex Outside letters.now ≡ Some tokens.items) }
    ensures bad { IfErr result (λ e. IfNoPattern e (lex Outside letters.now ≡ None)) }
{
    let mut tokens = Vec::new(alloc);
    let mut mode = Mode::Outside;
    for letter in letters {
        mode = read_letter(&mut tokens, alloc, mode, *letter)?;
    }
    match mode {
        Mode::Outside => Ok(tokens),
        _ => Err(Failure::NoPattern),
    }
}
