//! JSON Pointer (RFC 6901).
ghost use Rattle.std.specs.Prelude.{◌≡◌, ◌∷◌, ◌<◌, ℕ, List, length, string_bytes, None, IfOk, IsErrOf};
ghost use Rattle.conf_doc.specs.Pointer.{IsPointer};
ghost use Rattle.host_core.specs.Answers.{Gives};
ghost use Rattle.host_core.specs.Characters.{tilde};
ghost use Rattle.patch_core.specs.Tokens.{token_of, tokens, tokens_of_parts, parts_of, or_malformed, pointer_fault};
ghost use Rattle.patch_core.specs.Escapes.{Escapes};
ghost use Rattle.patch_core.specs.declared.errors.PointerError.TheVariants.{Malformed};

use crate::errors::PointerError;
use host_core::{Names, Txt};
use std::alloc::Global;

/// A pointer: the tokens that lead from the root to a node, none of them for the root itself.
#[derive(Drop)]
pub struct Pointer {
    pub tokens: Names,
}

/// The tokens of a pointer's text (RFC 6901, sections 3 and 4).
pub fn read_pointer(alloc: Global, text: &str) -> Result<Pointer, PointerError>
    ensures read { IfOk result (λ p. IsPointer text.now p.tokens) }
    ensures malformed { IsErrOf result Malformed
        → (tokens : List (List ℕ)) → IsPointer text.now tokens → ⊥ }
    ensures decoded { Gives (λ p. p.tokens) pointer_fault result (or_malformed (tokens text.now)) }
{
    if text.is_empty() {
        return Ok(Pointer {
            tokens: Names::new(alloc),
        });
    }
    let Some(rest) = text.strip_prefix('/') else {
        return Err(PointerError::Malformed);
    };
    let tokens = tokens_of(alloc, rest)?;
    Ok(Pointer { tokens })
}

/// The tokens of a pointer's text behind its first `/`.
fn tokens_of(alloc: Global, text: &str) -> Result<Names, PointerError>
    ensures { Gives (λ ts. ts) pointer_fault result
        (or_malformed (tokens_of_parts (parts_of text.now))) }
{
    let mut tokens = Names::new(alloc);
    for part in text.split('/') {
        let token = token_of(alloc, part)?;
        tokens.push(token)?;
    }
    Ok(tokens)
}

/// The token that a text between slashes spells.
fn token_of(alloc: Global, part: &str) -> Result<Txt, PointerError>
    ensures { Gives (λ t. t) pointer_fault result (or_malformed (token_of part.now)) }
{
    let mut token = String::new(alloc);
    let mut rest = part;
    while let Some((plain, behind)) = rest.split_once('~') {
        token.push_str(plain)?;
        rest = push_character(&mut token, behind)?;
    }
    token.push_str(rest)?;
    Ok(Txt::from(token))
}

/// Adds the character that a `~` before a text spells, and gives what follows in that text.
fn push_character<'a>(token: &mut String, behind: &'a str) -> Result<&'a str, PointerError>
    ensures ok { IfOk result (λ after.
        Escapes behind.now after.now (string_bytes token.old) (string_bytes token.new)) }
    ensures shorter { IfOk result (λ after. length after.now < length behind.now) }
    ensures malformed { IsErrOf result Malformed → token_of (tilde ∷ behind.now) ≡ None }
{
    if let Some(after) = behind.strip_prefix('0') {
        token.push('~')?;
        Ok(after)
    } else if let Some(after) = behind.strip_prefix('1') {
        token.push('/')?;
        Ok(after)
    } else {
        Err(PointerError::Malformed)
    }
}
