//! One operation of a patch, read from its text.
ghost use Rattle.std.specs.Prelude.{◌≡◌, ◌≤◌, ◌∷◌, [], ◌++◌, option_map, IfOk, Some};
ghost use Rattle.conf_doc.specs.Document.{depth};
ghost use Rattle.conf_doc.specs.Sound.{IsSound};
ghost use Rattle.conf_doc.specs.Texts.{compact};
ghost use Rattle.patch_core.specs.Operation.{Operation, operation_of, operations};
ghost use Rattle.patch_core.specs.Writing.{operation_document};
ghost use Rattle.plan_texts.specs.Elements.{Reads, in_brackets, only};

use host_core::Memory;
use patch_core::{Op, Patch, PatchError, patch_reads_back, read_patch};
use std::alloc::Global;

/// The operation that a text is. Of a text that is no compact one of an operation nothing is said.
pub(crate) fn read_operation(alloc: Global, text: &[u8]) -> Result<Option<Op>, Memory>
    ensures { IfOk result (λ o. Reads text.now (option_map operation_of o)) }
{
    let document = in_brackets(alloc, text)?;
    patch_reads_back();
    match read_patch(alloc, &document) {
        Ok(patch) => Ok(only(patch)),
        Err(PatchError::BadJson) => Ok(None),
        Err(PatchError::BadPatch { .. }) => Ok(None),
        Err(PatchError::Memory) => Err(Memory),
    }
}

/// The text of a list of one item, and a line feed.
fn in_brackets(alloc: Global, text: &[u8]) -> Result<Vec<u8>, Memory>
    ensures { IfOk result (λ b. b.items ≡ in_brackets text.now) }
{
    let mut document = Vec::new(alloc);
    document.push(b'[')?;
    document.extend_from_slice(text)?;
    document.extend_from_slice(b"]\n")?;
    Ok(document)
}

/// The operation of a patch that has no other.
fn only(patch: Patch) -> Option<Op>
    ensures { option_map operation_of result ≡ only (operations patch) }
{
    let mut ops = patch.ops.into_vec();
    if ops.len() == 1 { ops.pop() } else { None }
}
