//! What the name of a type statement stands for, made of the types that it leads to.
ghost use Rattle.std.specs.Prelude.{◌≡◌, ◌++◌, map, option_and_then, IfOk};
ghost use Rattle.std.specs.List.{flat_map};
ghost use Rattle.yang_text.specs.Declarations.{block};
ghost use Rattle.yang_text.specs.Statements.{declaration};
ghost use Rattle.yang_types.specs.DataType.{members, plain, plain_members};
ghost use Rattle.yang_types.specs.DataTypes.{data_type};
ghost use Rattle.yang_values.specs.Targets.{target_of};
ghost use Rattle.yang_values.specs.TypeValues.{path_of, enum_name, only_type, nowhere, leafref_of, named_type};

use crate::statements::is_keyword;
use crate::targets::target_of;
use crate::walks::path_of;
use host_core::{Memory, Sequence, Txt};
use std::alloc::Global;
use yang_scope::{Base, Meaning, Names};
use yang_text::Statement;
use yang_types::{Target, Ty, TyBox, Types};

/// Adds the name of an enum, where a statement is one.
fn push_enum(alloc: Global, enums: &mut Sequence<Txt>, statement: &Statement) -> Result<(), Memory>
    ensures { IfOk result (λ _. enums.new ≡ enums.old ++ enum_name (declaration statement.now)) }
{
    if !is_keyword("enum", statement) {
        return Ok(());
    }
    match &statement.argument {
        Some(text) => enums.push(text.copy(alloc)?),
        None => Ok(()),
    }
}

/// The names of an enumeration.
fn enum_names(alloc: Global, statement: &Statement) -> Result<Sequence<Txt>, Memory>
    ensures { IfOk result
        (λ enums. enums ≡ flat_map enum_name (block (declaration statement.now))) }
{
    let mut enums = Sequence::new(alloc);
    for child in statement.block.items() {
        push_enum(alloc, &mut enums, child)?;
    }
    Ok(enums)
}

/// The only type of some.
pub(crate) fn only_type(types: Vec<Ty>) -> Ty
    ensures { data_type result ≡ only_type (map data_type types.items) }
{
    let mut types = types;
    if types.is_empty() {
        Ty::Text
    } else {
        types.remove(0)
    }
}

/// Adds types to others, in their order.
fn push_all(all: &mut Types, types: Vec<Ty>) -> Result<(), Memory>
    ensures { IfOk result (λ _. all.new ≡ all.old ++ map data_type types.items) }
{
    for ty in types {
        all.push(ty)?;
    }
    Ok(())
}

/// Adds what a type is as a member of a union.
fn push_members(all: &mut Types, ty: Ty) -> Result<(), Memory>
    ensures { IfOk result (λ _. all.new ≡ all.old ++ members (data_type ty)) }
{
    match ty.into_union() {
        Ok(types) => push_all(all, types.into_items()),
        Err(ty) => all.push(ty),
    }
}

/// The members of a union of some types.
fn members_of(alloc: Global, types: Vec<Ty>) -> Result<Types, Memory>
    ensures { IfOk result (λ all. all ≡ flat_map members (map data_type types.items)) }
{
    let mut all = Types::new(alloc);
    for ty in types {
        push_members(&mut all, ty)?;
    }
    Ok(all)
}

/// Adds what a type is as a member of a union that stands in a leafref.
fn push_plain(all: &mut Types, ty: Ty) -> Result<(), Memory>
    ensures { IfOk result (λ _. all.new ≡ all.old ++ plain_members (data_type ty)) }
{
    push_members(all, ty.into_inner())
}

/// The members of a union that stands in a leafref.
fn plain_members_of(alloc: Global, types: Vec<Ty>) -> Result<Types, Memory>
    ensures { IfOk result (λ all. all ≡ flat_map plain_members (map data_type types.items)) }
{
    let mut all = Types::new(alloc);
    for ty in types {
        push_plain(&mut all, ty)?;
    }
    Ok(all)
}

/// What a type accepts by itself, so that no leafref stands in a leafref, and no type within types is as
/// deep as leafrefs stand in a row.
fn plain_of(alloc: Global, ty: Ty) -> Result<Ty, Memory>
    ensures { IfOk result (λ by_itself. data_type by_itself ≡ plain (data_type ty)) }
{
    match ty.into_union() {
        Ok(types) => {
            let flat = plain_members_of(alloc, types.into_items())?;
            Ok(Ty::Union(flat))
        }
        Err(ty) => Ok(ty.into_inner()),
    }
}

/// The target of a leafref whose path leads to nothing.
fn nowhere(alloc: Global) -> Result<Target, Memory>
    ensures { IfOk result (λ target. target ≡ nowhere) }
{
    let table = Txt::new(alloc, "")?;
    Ok(Target {
        table,
        shape: 0,
        part: 0,
    })
}

fn leafref_of(alloc: Global, target: Option<Target>, types: Vec<Ty>) -> Result<Ty, Memory>
    ensures { IfOk result (λ ty. data_type ty ≡ leafref_of target (map data_type types.items)) }
{
    let target = match target {
        Some(target) => target,
        None => nowhere(alloc)?,
    };
    let by_itself = plain_of(alloc, only_type(types))?;
    let inner = TyBox::new(alloc, by_itself)?;
    Ok(Ty::Ref(target, inner))
}

/// What the path of a leafref leads to.
fn leaf_target(
    alloc: Global,
    names: &Names,
    statement: &Statement,
) -> Result<Option<Target>, Memory>
    ensures { IfOk result (λ target. target
        ≡ option_and_then (target_of names.now) (path_of (declaration statement.now))) }
{
    match path_of(statement) {
        Some(path) => target_of(alloc, names, path),
        None => Ok(None),
    }
}

/// What the name of a type statement stands for, by the types that it leads to.
pub(crate) fn named_type(
    alloc: Global,
    names: &Names,
    statement: &Statement,
    types: Vec<Ty>,
    meaning: Meaning,
) -> Result<Ty, Memory>
    ensures { IfOk result (λ ty. data_type ty
        ≡ named_type names.now (declaration statement.now) (map data_type types.items) meaning) }
{
    match meaning {
        Meaning::Nothing => Ok(Ty::Text),
        Meaning::Goes(..) => Ok(only_type(types)),
        Meaning::Ends(Base::Text) => Ok(Ty::Text),
        Meaning::Ends(Base::Number(bounds)) => Ok(Ty::Number(bounds)),
        Meaning::Ends(Base::Enumeration) => {
            let enums = enum_names(alloc, statement)?;
            Ok(Ty::OneOf(enums))
        }
        Meaning::Ends(Base::Truth) => Ok(Ty::Truth),
        Meaning::Ends(Base::Leafref) => {
            let target = leaf_target(alloc, names, statement)?;
            leafref_of(alloc, target, types)
        }
        Meaning::Ends(Base::Union) => {
            let members = members_of(alloc, types)?;
            Ok(Ty::Union(members))
        }
        Meaning::Ends(Base::Builtin(builtin)) => Ok(Ty::Builtin(builtin)),
    }
}
