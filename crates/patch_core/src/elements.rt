//! One element of a patch document as an operation.
ghost use Rattle.std.specs.Prelude.{◌≡◌, codes, option_map};
ghost use Rattle.conf_doc.specs.Reading.{document_of, read_fault};
ghost use Rattle.conf_doc.specs.Trees.{document};
ghost use Rattle.host_core.specs.Answers.{Gives};
ghost use Rattle.serde_json.specs.Find.{get_member};
ghost use Rattle.serde_json.specs.View.{view, members_view};
ghost use Rattle.patch_core.specs.Operation.{operation_of};
ghost use Rattle.patch_core.specs.Elements.{element};
ghost use Rattle.patch_core.specs.MemberReading.{element_fault, kind, or_bad_value, read_element, read_from, read_members, read_path, read_rest, read_text, read_tokens, read_value};
ghost use Rattle.patch_core.specs.declared.errors.PatchWhy.TheVariants.{BadValue};

use crate::errors::{ElementError, PatchWhy, PointerError};
use crate::{Op, Pointer, read_pointer};
use conf_doc::{ReadError, Tree, tree_of_value};
use serde_json::{Map, Value};
use std::alloc::Global;

/// What `op` names.
#[derive(Clone, Copy)]
enum Kind {
    Add,
    Remove,
    Replace,
    Move,
    Copy,
    Test,
}

/// The operation that a value is.
pub(crate) fn operation_of(alloc: Global, value: Value) -> Result<Op, ElementError>
    ensures { Gives operation_of element_fault result (element (view value)) }
{
    read_element(alloc, value)
}

/// The same, as it is read from member to member.
fn read_element(alloc: Global, value: Value) -> Result<Op, ElementError>
    ensures { Gives operation_of element_fault result (read_element (view value)) }
{
    match value {
        Value::Object(mut members) => read_members(alloc, &mut members),
        _ => Err(ElementError::Malformed(PatchWhy::NotObject)),
    }
}

/// The operation that the members of an object tell. A member that it takes over isn't there any more.
fn read_members(alloc: Global, members: &mut Map<String, Value>) -> Result<Op, ElementError>
    ensures { Gives operation_of element_fault result
        (read_members (members_view members.old.entries)) }
{
    let name = read_text(members, "op", PatchWhy::NoOp)?;
    let kind = kind_of(name)?;
    let path = read_path(alloc, members)?;
    read_rest(alloc, kind, path, members)
}

/// The operation of a kind at a path. What it needs besides is read from the members.
fn read_rest(
    alloc: Global,
    kind: Kind,
    path: Pointer,
    members: &mut Map<String, Value>,
) -> Result<Op, ElementError>
    ensures { Gives operation_of element_fault result
        (read_rest kind path.tokens (members_view members.old.entries)) }
{
    match kind {
        Kind::Add => match read_value(alloc, members) {
            Ok(value) => Ok(Op::Add(path, value)),
            Err(error) => Err(give_up(path, error)),
        },
        Kind::Remove => Ok(Op::Remove(path)),
        Kind::Replace => match read_value(alloc, members) {
            Ok(value) => Ok(Op::Replace(path, value)),
            Err(error) => Err(give_up(path, error)),
        },
        Kind::Move => match read_from(alloc, members) {
            Ok(from) => Ok(Op::Move { from, path }),
            Err(error) => Err(give_up(path, error)),
        },
        Kind::Copy => match read_from(alloc, members) {
            Ok(from) => Ok(Op::Copy { from, path }),
            Err(error) => Err(give_up(path, error)),
        },
        Kind::Test => match read_value(alloc, members) {
            Ok(value) => Ok(Op::Test(path, value)),
            Err(error) => Err(give_up(path, error)),
        },
    }
}

/// Drops the path of an operation for an error behind it.
fn give_up(path: Pointer, error: ElementError) -> ElementError
    ensures { result ≡ error }
{
    drop(path);
    error
}

/// The kind that a name tells.
fn kind_of(name: &str) -> Result<Kind, ElementError>
    ensures { Gives (λ k. k) element_fault result (kind name.now) }
{
    match name {
        "add" => Ok(Kind::Add),
        "remove" => Ok(Kind::Remove),
        "replace" => Ok(Kind::Replace),
        "move" => Ok(Kind::Move),
        "copy" => Ok(Kind::Copy),
        "test" => Ok(Kind::Test),
        _ => Err(ElementError::Malformed(PatchWhy::UnknownOp)),
    }
}

/// The tree of the member `value`, which is taken over and not copied.
fn read_value(alloc: Global, members: &mut Map<String, Value>) -> Result<Tree, ElementError>
    ensures { Gives document element_fault result
        (read_value (members_view members.old.entries)) }
{
    let Some(value) = members.remove("value") else {
        return Err(ElementError::Malformed(PatchWhy::NoValue));
    };
    read_tree(alloc, value)
}

/// The tree of a value in an operation.
fn read_tree(alloc: Global, value: Value) -> Result<Tree, ElementError>
    ensures { Gives document element_fault result (or_bad_value (document_of (view value))) }
{
    match tree_of_value(alloc, value) {
        Ok(tree) => Ok(tree),
        Err(error) => Err(ElementError::of_value(error)),
    }
}

impl ElementError {
    /// The fault of a value that is no tree.
    fn of_value(error: ReadError) -> ElementError
        ensures { element_fault result ≡ option_map (λ _. BadValue) (read_fault error) }
    {
        match error {
            ReadError::BadJson | ReadError::BadKind { .. } => {
                ElementError::Malformed(PatchWhy::BadValue)
            }
            ReadError::Memory => ElementError::Memory,
        }
    }
}

/// The pointer in the member `path`.
fn read_path(alloc: Global, members: &Map<String, Value>) -> Result<Pointer, ElementError>
    ensures { Gives (λ p. p.tokens) element_fault result
        (read_path (members_view members.now.entries)) }
{
    read_tokens(alloc, members, "path", PatchWhy::NoPath, PatchWhy::BadPath)
}

/// The pointer in the member `from`.
fn read_from(alloc: Global, members: &Map<String, Value>) -> Result<Pointer, ElementError>
    ensures { Gives (λ p. p.tokens) element_fault result
        (read_from (members_view members.now.entries)) }
{
    read_tokens(alloc, members, "from", PatchWhy::NoFrom, PatchWhy::BadFrom)
}

/// The pointer in a member.
fn read_tokens(
    alloc: Global,
    members: &Map<String, Value>,
    name: &str,
    missing: PatchWhy,
    malformed: PatchWhy,
) -> Result<Pointer, ElementError>
    ensures { Gives (λ p. p.tokens) element_fault result
        (read_tokens missing malformed name.now (members_view members.now.entries)) }
{
    let text = read_text(members, name, missing)?;
    match read_pointer(alloc, text) {
        Ok(pointer) => Ok(pointer),
        Err(PointerError::Malformed) => Err(ElementError::Malformed(malformed)),
        Err(PointerError::Memory) => Err(ElementError::Memory),
    }
}

/// The text in a member.
fn read_text<'m>(
    members: &'m Map<String, Value>,
    name: &str,
    missing: PatchWhy,
) -> Result<&'m str, ElementError>
    ensures { Gives (λ s. s.now) element_fault result
        (read_text missing name.now (members_view members.now.entries)) }
{
    match member(members, name) {
        Some(Value::String(text)) => Ok(text.as_str()),
        _ => Err(ElementError::Malformed(missing)),
    }
}

/// The value of a member.
fn member<'m>(members: &'m Map<String, Value>, name: &str) -> Option<&'m Value>
    ensures { option_map (λ v. view v.now) result
        ≡ get_member name.now (members_view members.now.entries) }
{
    members.get(name)
}
