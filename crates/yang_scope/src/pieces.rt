//! Texts cut at a character.
ghost use Rattle.std.specs.Prelude.{◌≡◌, ◌<◌, IfOk};
ghost use Rattle.yang_scope.specs.Pieces.{pieces, texts};

use host_core::Memory;
use std::alloc::Global;

/// The pieces of a text between the separators, which are ASCII characters.
pub fn pieces<'a>(alloc: Global, separator: char, text: &'a str) -> Result<Vec<&'a str>, Memory>
    requires { separator < 128 }
    ensures { IfOk result (λ found. texts found.items ≡ pieces separator text.now) }
{
    let found: Vec<&'a str> = text.split(separator).collect(alloc)?;
    Ok(found)
}
