//! A walk of a machine over a text: the set of places that come next moves over it once.

ghost use Rattle.std.specs.Prelude.{◌≡◌, ℕ, List, ◌↔◌, ◌∷◌, false, IsTrue, chars};

use crate::fragments::Fragment;
use crate::sets::Places;
use crate::symbols::Token;

/// Where a walk stands: the places that may read the next character, and whether the text may end.
#[derive(Clone, Copy)]
struct Reached {
    next: Places,
    ended: bool,
}

ghost use Rattle.yang_pattern.specs.PlaceSets.{contains};
ghost use Rattle.yang_pattern.specs.Machine.{machine_of, IsStep, Takes};
ghost use Rattle.yang_pattern.specs.Symbols.{reads_token};

/// Whether the symbol of a token accepts the character.
fn reads_token(tokens: &[Token], number: usize, c: char) -> bool
    ensures { result ≡ reads_token tokens.now number c }
{
    match tokens.get(number) {
        Some(Token::Symbol(symbol)) => symbol.accepts(c),
        _ => false,
    }
}

/// What comes next after the character is read from one of the places.
fn step(tokens: &[Token], fragment: &Fragment, next: &Places, c: char) -> Reached
    ensures { IsStep (reads_token tokens.now) fragment.now
        (contains next.now) c (contains result.next) result.ended }
{
    let mut reached = Reached {
        next: Places::new(),
        ended: false,
    };
    for (number, place) in fragment.places.iter().enumerate() {
        if next.contains(number) && reads_token(tokens, place.token, c) {
            reached.next.insert_all(&place.follow);
            reached.ended = reached.ended | place.last;
        }
    }
    reached
}

/// Whether the machine takes the whole text.
pub fn takes(tokens: &[Token], fragment: &Fragment, text: &str) -> bool
    ensures { IsTrue result
        ↔ Takes (machine_of (reads_token tokens.now) fragment.now) (chars text.now) }
{
    let mut reached = Reached {
        next: fragment.first,
        ended: fragment.empty,
    };
    for c in text.chars() {
        reached = step(tokens, fragment, &reached.next, c);
    }
    reached.ended
}
