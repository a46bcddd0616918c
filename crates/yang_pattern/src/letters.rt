//! The letters of a pattern's text: characters, and escapes that stand for one.

ghost use Rattle.std.specs.Prelude.{◌≡◌, ◌∷◌, ◌++◌, ℕ, List, option_map, IfOk, IfErr, Some, None, false, chars};
ghost use Rattle.yang_pattern.specs.Escapes.{is_escapable, escaped_character};
ghost use Rattle.yang_pattern.specs.Letters.{letters_from, letter_of};
ghost use Rattle.yang_pattern.specs.Errors.{IfNoPattern};

use crate::errors::Failure;
use std::alloc::Global;

/// One character of a text, and whether a backslash stood before it.
#[derive(Clone, Copy)]
pub struct Letter {
    pub character: char,
    pub escaped: bool,
}

/// What an escape stands for, by the character behind the backslash.
fn escaped_character(name: char) -> Option<char>
    ensures { result ≡ escaped_character name }
{
    if name == 'n' {
        Some('\n')
    } else if name == 'r' {
        Some('\r')
    } else if name == 't' {
        Some('\t')
    } else if is_escapable(name) {
        Some(name)
    } else {
        None
    }
}

fn is_escapable(name: char) -> bool
    ensures { result ≡ is_escapable name }
{
    name == '.'
        || name == '\\'
        || name == '?'
        || name == '*'
        || name == '+'
        || name == '{'
        || name == '}'
        || name == '('
        || name == ')'
        || name == '['
        || name == ']'
        || name == '|'
        || name == '-'
        || name == '^'
}

/// The letter of a character, which may stand behind a backslash.
pub fn letter_of(after_backslash: bool, c: char) -> Option<Letter>
    ensures { result ≡ letter_of after_backslash c }
{
    if after_backslash {
        match escaped_character(c) {
            Some(character) => Some(Letter {
                character,
                escaped: true,
            }),
            None => None,
        }
    } else {
        Some(Letter {
            character: c,
            escaped: false,
        })
    }
}

/// One character more of the text: whether the next one stands behind a backslash.
fn read_character(
    letters: &mut Vec<Letter>,
    after_backslash: bool,
    c: char,
) -> Result<bool, Failure>
    ensures ok { IfOk result (λ after. (cs : List ℕ)
        → option_map (λ ls. letters.new.items ++ ls) (letters_from after cs)
        ≡ option_map (λ ls. letters.old.items ++ ls) (letters_from after_backslash (c ∷ cs))) }
    ensures bad { IfErr result
        (λ e. IfNoPattern e ((cs : List ℕ) → letters_from after_backslash (c ∷ cs) ≡ None)) }
{
    if c == '\\' && !after_backslash {
        return Ok(true);
    }
    match letter_of(after_backslash, c) {
        Some(letter) => {
            letters.push(letter)?;
            Ok(false)
        }
        None => Err(Failure::NoPattern),
    }
}

/// The letters of the text. No pattern where a backslash begins no escape.
pub fn read_letters(alloc: Global, text: &str) -> Result<Vec<Letter>, Failure>
    ensures ok { IfOk result (λ letters. letters_from false (chars text.now) ≡ Some letters.items) }
    ensures bad { IfErr result (λ e. IfNoPattern e (letters_from false (chars text.now) ≡ None)) }
{
    let mut letters = Vec::new(alloc);
    let mut after_backslash = false;
    for c in text.chars() {
        after_backslash = read_character(&mut letters, after_backslash, c)?;
    }
    if after_backslash {
        return Err(Failure::NoPattern);
    }
    Ok(letters)
}
