//! Single-statement checks: sentences on a statement of one kind alone.
ghost use Rattle.std.specs.Prelude.{◌≡◌, map, OnOk};
ghost use Rattle.std.specs.List.{flat_map};
ghost use Rattle.yang_text.specs.Statements.{declaration};
ghost use Rattle.yang_scope.specs.Faults.{least_of};
ghost use Rattle.yang_faults.specs.Own.{is_same_name, misnamed, unknown_import, module_faults, list_faults, own_faults};

use crate::duplicates::note_prefixes;
use crate::fields::{note_fixed_fields, note_list_fields};
use crate::keys::note_keys;
use crate::kinds::Kind;
use crate::scopes::Scope;
use host_core::{Memory, Txt};
use std::alloc::Global;
use yang_scope::{Fault, note};
use yang_text::{ModelWhy, Statement};

/// Whether two names are the same, where both are there.
fn is_same_name(a: &Option<Txt>, b: &Option<Txt>) -> bool
    ensures { result ≡ is_same_name a.now b.now }
{
    match a {
        Some(a) => match b {
            Some(b) => a.as_str() == b.as_str(),
            None => true,
        },
        None => true,
    }
}

/// A container of a module that has another name than the module.
fn note_misnamed(least: &mut Option<Fault>, file: u32, name: &Option<Txt>, statement: &Statement)
    ensures { least.new ≡ least_of least.old (misnamed file name.now (declaration statement.now)) }
{
    if statement.keyword.as_str() == "container" && !is_same_name(&statement.argument, name) {
        note(least, file, statement.line, ModelWhy::BadArgument);
    }
}

/// The containers of a module that have another name.
fn note_all_misnamed(
    least: &mut Option<Fault>,
    file: u32,
    name: &Option<Txt>,
    statements: &[Statement],
)
    ensures { least.new ≡ least_of least.old
        (flat_map (misnamed file name.now) (map declaration statements.now)) }
{
    for statement in statements {
        note_misnamed(least, file, name, statement);
    }
}

/// An import of a module that is not there.
fn note_import<S: Scope>(least: &mut Option<Fault>, scope: &S, file: u32, statement: &Statement)
    ensures { least.new ≡ least_of least.old
        (unknown_import (S.knows scope.now) file (declaration statement.now)
        statement.now.argument) }
{
    if let Some(name) = &statement.argument {
        if !scope.knows_module(name.as_str()) {
            note(least, file, statement.line, ModelWhy::UnknownName);
        }
    }
}

/// The sentences on a list.
fn note_list(
    alloc: Global,
    least: &mut Option<Fault>,
    file: u32,
    statements: &[Statement],
) -> Result<(), Memory>
    ensures { OnOk result (least.new ≡ least_of least.old
        (list_faults file (map declaration statements.now))) }
{
    note_keys(alloc, least, file, statements)?;
    note_list_fields(alloc, least, file, statements)?;
    Ok(())
}

/// The sentences on a module.
fn note_module(
    alloc: Global,
    least: &mut Option<Fault>,
    file: u32,
    name: &Option<Txt>,
    statements: &[Statement],
) -> Result<(), Memory>
    ensures { OnOk result (least.new ≡ least_of least.old
        (module_faults file name.now (map declaration statements.now))) }
{
    note_all_misnamed(least, file, name, statements);
    note_prefixes(alloc, least, file, statements)?;
    Ok(())
}

/// The sentences on a statement of its kind alone.
pub(crate) fn note_own<S: Scope>(
    alloc: Global,
    least: &mut Option<Fault>,
    scope: &S,
    file: u32,
    kind: Kind,
    statement: &Statement,
) -> Result<(), Memory>
    ensures { OnOk result (least.new ≡ least_of least.old
        (own_faults (S.knows scope.now) file kind (declaration statement.now))) }
{
    let block = statement.block.items();
    match kind {
        Kind::Module => note_module(alloc, least, file, &statement.argument, block),
        Kind::Import => {
            note_import(least, scope, file, statement);
            Ok(())
        }
        Kind::TableList => note_list(alloc, least, file, block),
        Kind::FixedContainer => {
            note_fixed_fields(alloc, least, file, block);
            Ok(())
        }
        Kind::File
        | Kind::YangVersion
        | Kind::Word
        | Kind::Prefix
        | Kind::Revision
        | Kind::Typedef
        | Kind::ModuleContainer
        | Kind::TableContainer
        | Kind::Key
        | Kind::Leaf
        | Kind::LeafList
        | Kind::Mandatory
        | Kind::Must
        | Kind::Enum
        | Kind::Path
        | Kind::Bounds
        | Kind::Pattern
        | Kind::NamedType
        | Kind::TextType
        | Kind::NumberType
        | Kind::EnumerationType
        | Kind::LeafrefType
        | Kind::UnionType
        | Kind::PlainType
        | Kind::UnknownType => Ok(()),
    }
}
