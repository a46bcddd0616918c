//! YANG patterns.

ghost use Rattle.std.specs.Prelude.{◌≡◌, ◌↔◌, IfOk, OnOk, IfErr, IsTrue, chars};
ghost use Rattle.yang_pattern.specs.Language.{IsPattern, MatchesText, SpellsWithin};
ghost use Rattle.yang_pattern.specs.Pattern.{Branches};
ghost use Rattle.yang_pattern.specs.Errors.{IfBad, IfNoPattern, HasPlaceIn};

use crate::errors::{Failure, PatternError};
use crate::faults::find_fault;
use crate::fragments::Fragment;
use crate::letters::read_letters;
use crate::read_tokens::read_tokens;
use crate::symbols::Token;
use crate::tokens::split_letters;
use crate::walks::takes;
use std::alloc::Global;
use std::marker::Model;

/// A pattern of RFC 7950, section 9.4.5, in a profile: what a walk over a text needs.
///
/// A clause sees a pattern as its text.
#[derive(Drop)]
pub struct Pattern {
    text: String,
    tokens: Vec<Token>,
    whole: Fragment,
}

impl Model for Pattern {
    ghost use Rattle.std.specs.Prelude.{List, ℕ, string_bytes};

    ghost Value = { List ℕ };

    ghost use Rattle.yang_pattern.specs.Compiled.{IsCompiled};

    ghost view = { λ p. string_bytes p.text };

    ghost invariant = { IsCompiled };
}

impl Pattern {
    /// Reads a pattern: branches joined by `|`, of pieces, of atoms that are characters, escapes,
    /// `.`, classes and groups. Bad where the text is no pattern, or one whose size is above 1,024,
    /// or whose groups nest deeper than 32.
    pub fn read(alloc: Global, text: &str) -> Result<Pattern, PatternError>
        ensures text { IfOk result (λ pattern. pattern ≡ text.now) }
        ensures ok { OnOk result (IsPattern text.now) }
        ensures bad { IfErr result (λ e. IfBad e (¬ IsPattern text.now)) }
        ensures place { IfErr result (HasPlaceIn text.now) }
    {
        match Pattern::read_whole(alloc, text) {
            Ok(pattern) => Ok(pattern),
            Err(Failure::NoMemory) => Err(PatternError::Memory),
            Err(Failure::NoPattern) => {
                let at = find_fault(alloc, text)?;
                Err(PatternError::Bad { at })
            }
        }
    }

    /// The same, with no place of a fault.
    fn read_whole(alloc: Global, text: &str) -> Result<Pattern, Failure>
        ensures text { IfOk result (λ pattern. pattern ≡ text.now) }
        ensures ok { OnOk result (IsPattern text.now) }
        ensures bad { IfErr result (λ e. IfNoPattern e (¬ IsPattern text.now)) }
    {
        let letters = read_letters(alloc, text)?;
        let tokens = split_letters(alloc, &letters)?;
        let part = read_tokens(alloc, &tokens)?;
        match part.fragment {
            None => Err(Failure::NoPattern),
            Some(whole) => Ok(Pattern {
                text: String::from_str(alloc, text)?,
                tokens,
                whole,
            }),
        }
    }

    /// Whether the pattern matches the whole text. It takes no memory, and a time of at most the
    /// text's length times the pattern's size, where a look into a class halves its ranges.
    pub fn matches(&self, text: &str) -> bool
        ensures language { IsTrue result ↔ MatchesText self.now text.now }
        // the pattern's text spells no second pattern
        ensures once { (a b : Branches) → SpellsWithin (chars self.now) a
            → SpellsWithin (chars self.now) b → a ≡ b }
    {
        takes(&self.tokens, &self.whole, text)
    }
}
