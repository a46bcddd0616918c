//! Operations and patches as documents and texts (RFC 6902, sections 3 and 4).
//! What is given up goes whole to `drop`: one call to the prover, where a removal at an end has many steps.
ghost use Rattle.std.specs.Prelude.{◌≡◌, ◌≤◌, [], ◌∷◌, codes, IfOk, OnOk, Ok};
ghost use Rattle.conf_doc.specs.Document.{text};
ghost use Rattle.conf_doc.specs.Pairs.{put};
ghost use Rattle.conf_doc.specs.Texts.{compact};
ghost use Rattle.conf_doc.specs.Trees.{document};
ghost use Rattle.patch_core.specs.Operation.{operation_of};
ghost use Rattle.patch_core.specs.Reading.{patch};
ghost use Rattle.patch_core.specs.Writing.{from_document, most_value_levels, op_member, operation_document, patch_document, patch_file, path_member, pointer_document, value_depth, value_document};

use crate::{Op, Pointer};
use conf_doc::{Items, Members, Tree, pointer_of, tree_bytes};
use host_core::{Memory, Txt};
use std::alloc::Global;

/// The file of a patch of one operation: its compact text, and a line feed. It is read back as the patch
/// of that operation where the operation's value nests at most 125 levels deep: the patch and the
/// operation add one each, and texts are read up to 127.
pub fn step_bytes(alloc: Global, op: &Op) -> Result<Vec<u8>, Memory>
    ensures text { IfOk result (λ b. b.items ≡ patch_file (operation_of op.now ∷ [])) }
    ensures reads_back { IfOk result (λ b. value_depth (operation_of op.now) ≤ most_value_levels
        → patch b.items ≡ Ok (operation_of op.now ∷ [])) }
{
    let tree = patch_tree(alloc, op)?;
    let bytes = tree_bytes(alloc, &tree);
    drop(tree);
    let mut bytes = bytes?;
    bytes.push(b'\n')?;
    Ok(bytes)
}

/// The document of a patch of one operation.
fn patch_tree(alloc: Global, op: &Op) -> Result<Tree, Memory>
    ensures { IfOk result (λ t. document t ≡ patch_document (operation_of op.now ∷ [])) }
{
    let operation = operation_tree(alloc, op)?;
    let mut items = Items::new(alloc);
    match items.push(operation) {
        Ok(()) => Ok(Tree::List(items)),
        Err(error) => {
            drop(items);
            Err(error)
        }
    }
}

/// The compact text of an operation's document.
pub fn operation_bytes(alloc: Global, op: &Op) -> Result<Vec<u8>, Memory>
    ensures { IfOk result (λ b. b.items ≡ compact (operation_document (operation_of op.now))) }
{
    let tree = operation_tree(alloc, op)?;
    tree_bytes(alloc, &tree)
}

/// The document of an operation, as an element of a patch.
pub fn operation_tree(alloc: Global, op: &Op) -> Result<Tree, Memory>
    ensures { IfOk result (λ t. document t ≡ operation_document (operation_of op.now)) }
{
    match op {
        Op::Add(path, value) => with_value(alloc, "add", path, value),
        Op::Remove(path) => Ok(Tree::Map(named_members(alloc, "remove", path)?)),
        Op::Replace(path, value) => with_value(alloc, "replace", path, value),
        Op::Move { from, path } => with_from(alloc, "move", from, path),
        Op::Copy { from, path } => with_from(alloc, "copy", from, path),
        Op::Test(path, value) => with_value(alloc, "test", path, value),
    }
}

/// An operation with a value.
fn with_value(alloc: Global, name: &str, path: &Pointer, value: &Tree) -> Result<Tree, Memory>
    ensures { IfOk result (λ t.
        document t ≡ value_document name.now path.now.tokens (document value.now)) }
{
    let mut members = named_members(alloc, name, path)?;
    match add_value(alloc, &mut members, value) {
        Ok(()) => Ok(Tree::Map(members)),
        Err(error) => {
            drop(members);
            Err(error)
        }
    }
}

/// Sets the member `value` to a copy.
fn add_value(alloc: Global, members: &mut Members, value: &Tree) -> Result<(), Memory>
    ensures { OnOk result (members.new ≡ put (codes "value") (document value.now) members.old) }
{
    let value = value.copy(alloc)?;
    set_member(alloc, members, "value", value)
}

/// An operation with another pointer.
fn with_from(alloc: Global, name: &str, from: &Pointer, path: &Pointer) -> Result<Tree, Memory>
    ensures { IfOk result (λ t.
        document t ≡ from_document name.now from.now.tokens path.now.tokens) }
{
    let mut members = named_members(alloc, name, path)?;
    match add_pointer(alloc, &mut members, "from", from) {
        Ok(()) => Ok(Tree::Map(members)),
        Err(error) => {
            drop(members);
            Err(error)
        }
    }
}

/// The members that every operation has.
fn named_members(alloc: Global, name: &str, path: &Pointer) -> Result<Members, Memory>
    ensures { IfOk result (λ ms. ms ≡ op_member name.now ∷ path_member path.now.tokens ∷ []) }
{
    let mut members = Members::new(alloc);
    match name_members(alloc, &mut members, name, path) {
        Ok(()) => Ok(members),
        Err(error) => {
            drop(members);
            Err(error)
        }
    }
}

/// Sets the members that every operation has.
fn name_members(
    alloc: Global,
    members: &mut Members,
    name: &str,
    path: &Pointer,
) -> Result<(), Memory>
    ensures { OnOk result (members.new
        ≡ put (codes "path") (pointer_document path.now.tokens)
        (put (codes "op") (text name.now) members.old)) }
{
    let name = Tree::Text(Txt::new(alloc, name)?);
    set_member(alloc, members, "op", name)?;
    add_pointer(alloc, members, "path", path)
}

/// Sets a member to the text of a pointer.
fn add_pointer(
    alloc: Global,
    members: &mut Members,
    name: &str,
    path: &Pointer,
) -> Result<(), Memory>
    ensures { OnOk result
        (members.new ≡ put name.now (pointer_document path.now.tokens) members.old) }
{
    let path = pointer_tree(alloc, path)?;
    set_member(alloc, members, name, path)
}

/// Sets a member.
fn set_member(alloc: Global, members: &mut Members, name: &str, tree: Tree) -> Result<(), Memory>
    ensures { OnOk result (members.new ≡ put name.now (document tree) members.old) }
{
    let name = Txt::new(alloc, name)?;
    members.set(name, tree)
}

/// The text of a pointer.
fn pointer_tree(alloc: Global, path: &Pointer) -> Result<Tree, Memory>
    ensures { IfOk result (λ t. document t ≡ pointer_document path.now.tokens) }
{
    Ok(Tree::Text(pointer_of(alloc, &path.tokens)?))
}
