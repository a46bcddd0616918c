//! The texts of pointers (RFC 6901).
ghost use Rattle.std.specs.Prelude.{◌≡◌, ◌∷◌, ◌++◌, IfOk, OnOk, encode_utf8, string_bytes};
ghost use Rattle.host_core.specs.Characters.{slash};
ghost use Rattle.conf_doc.specs.Pointer.{IsPointer, escaped};

use host_core::{Memory, Names, Txt};
use std::alloc::{AllocError, Global};

/// The text of the pointer with these tokens.
pub fn pointer_of(alloc: Global, tokens: &Names) -> Result<Txt, Memory>
    ensures { IfOk result (λ t. IsPointer t tokens.now) }
{
    let mut text = String::new(alloc);
    for token in tokens.items() {
        push_token(&mut text, token.as_str())?;
    }
    Ok(Txt::from(text))
}

/// Adds a token behind a `/`.
pub(crate) fn push_token(text: &mut String, token: &str) -> Result<(), AllocError>
    ensures { OnOk result (string_bytes text.new
        ≡ string_bytes text.old ++ slash ∷ escaped token.now) }
{
    text.push('/')?;
    push_escaped(text, token)
}

fn push_escaped(text: &mut String, token: &str) -> Result<(), AllocError>
    ensures { OnOk result (string_bytes text.new ≡ string_bytes text.old ++ escaped token.now) }
{
    for c in token.chars() {
        push_escaped_char(text, c)?;
    }
    Ok(())
}

fn push_escaped_char(text: &mut String, c: char) -> Result<(), AllocError>
    ensures { OnOk result (string_bytes text.new
        ≡ string_bytes text.old ++ escaped (encode_utf8 c)) }
{
    match c {
        '~' => text.push_str("~0"),
        '/' => text.push_str("~1"),
        _ => text.push(c),
    }
}
