//! Operations as moves.
ghost use Rattle.std.specs.Prelude.{◌≡◌, ◌↔◌, IfOk, IsTrue};
ghost use Rattle.conf_doc.specs.Trees.{document};
ghost use Rattle.patch_core.specs.Operation.{operation_of as patch_operation, add, remove, replace};
ghost use Rattle.plan_texts.specs.Moves.{IsMoveIn, IsMoveOf, IsPlaceAndPart, move_text};

use crate::elements::read_operation;
use crate::items::{item_in, text_in};
use crate::parts::part_of;
use crate::places::path_of;
use conf_doc::{Part, Path, Tree};
use host_core::Memory;
use move_core::{Move, operation_of};
use patch_core::{Op, Pointer, operation_bytes};
use std::alloc::Global;

/// A place and a part that fits it, where a pointer and a tree are these.
fn place_and_part(
    alloc: Global,
    pointer: &Pointer,
    tree: Tree,
) -> Result<Option<(Path, Part)>, Memory>
    ensures { IfOk result (IsPlaceAndPart pointer.now.tokens (document tree)) }
{
    let Some(path) = path_of(alloc, pointer.tokens.items())? else {
        drop(tree);
        return Ok(None);
    };
    match part_of(alloc, path.len(), tree)? {
        Some(part) => Ok(Some((path, part))),
        None => Ok(None),
    }
}

/// The move that adds what a tree is at a pointer: an item of a list, or a part at a place.
fn read_add(alloc: Global, pointer: &Pointer, tree: Tree) -> Result<Option<Move>, Memory>
    ensures { IfOk result (IsMoveOf (add pointer.now.tokens (document tree))) }
{
    if let Some((path, index)) = item_in(alloc, pointer.tokens.items())? {
        return match text_in(tree) {
            Some(text) => Ok(Some(Move::AddItem(path, index, text))),
            None => Ok(None),
        };
    }
    match place_and_part(alloc, pointer, tree)? {
        Some((path, part)) => Ok(Some(Move::Add(path, part))),
        None => Ok(None),
    }
}

/// The move that removes what a pointer names: an item of a list, or a part at a place.
fn read_remove(alloc: Global, pointer: &Pointer) -> Result<Option<Move>, Memory>
    ensures { IfOk result (IsMoveOf (remove pointer.now.tokens)) }
{
    if let Some((path, index)) = item_in(alloc, pointer.tokens.items())? {
        return Ok(Some(Move::RemoveItem(path, index)));
    }
    match path_of(alloc, pointer.tokens.items())? {
        Some(path) => Ok(Some(Move::Remove(path))),
        None => Ok(None),
    }
}

/// The move that replaces what a pointer names by what a tree is: a part at a place.
fn read_replace(alloc: Global, pointer: &Pointer, tree: Tree) -> Result<Option<Move>, Memory>
    ensures { IfOk result (IsMoveOf (replace pointer.now.tokens (document tree))) }
{
    match place_and_part(alloc, pointer, tree)? {
        Some((path, part)) => Ok(Some(Move::Replace(path, part))),
        None => Ok(None),
    }
}

/// The move that an operation is, where it is one.
fn move_of(alloc: Global, op: Op) -> Result<Option<Move>, Memory>
    ensures { IfOk result (IsMoveOf (patch_operation op)) }
{
    match op {
        Op::Add(pointer, tree) => read_add(alloc, &pointer, tree),
        Op::Remove(pointer) => read_remove(alloc, &pointer),
        Op::Replace(pointer, tree) => read_replace(alloc, &pointer, tree),
        _ => Ok(None),
    }
}

/// The compact text of a move's operation.
fn text_of(alloc: Global, mv: &Move) -> Result<Vec<u8>, Memory>
    ensures { IfOk result (λ b. b.items ≡ move_text mv.now) }
{
    let operation = operation_of(alloc, mv)?;
    operation_bytes(alloc, &operation)
}

/// Whether two texts are the same.
fn is_same(text: &[u8], other: &[u8]) -> bool
    ensures { IsTrue result ↔ (text.now ≡ other.now) }
{
    text == other
}

/// The move whose text that is: it is written again, so that no other text is taken for it.
pub(crate) fn read_move(alloc: Global, text: &[u8]) -> Result<Option<Move>, Memory>
    ensures { IfOk result (IsMoveIn text.now) }
{
    let Some(op) = read_operation(alloc, text)? else {
        return Ok(None);
    };
    let Some(mv) = move_of(alloc, op)? else {
        return Ok(None);
    };
    let written = text_of(alloc, &mv)?;
    if is_same(&written, text) {
        Ok(Some(mv))
    } else {
        Ok(None)
    }
}
