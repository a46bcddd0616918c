//! The defaults of leaves that their types don't take.
ghost use Rattle.std.specs.Prelude.{◌≡◌, [], ◌∷◌, List, ℕ, map, OnOk};
ghost use Rattle.yang_text.specs.Declarations.{block};
ghost use Rattle.yang_text.specs.Statements.{declaration};
ghost use Rattle.yang_faults.specs.DefaultFaults.{bad_default_by, bad_default_in, bad_default_at, bad_defaults};
ghost use Rattle.yang_faults.specs.Fields.{key_names};
ghost use Rattle.yang_faults.specs.NameSets.{IsSetOf};
ghost use Rattle.yang_faults.specs.Tests.{Notes};

use crate::fields::{first_of, is_key_leaf, key_names};
use crate::module_scopes::ModuleScope;
use crate::name_sets::NameSet;
use host_core::Memory;
use std::alloc::Global;
use yang_scope::Fault;
use yang_text::Statement;
use yang_values::note_default;

/// A default, by the type statement beside it.
fn note_default_of(
    alloc: Global,
    least: &mut Option<Fault>,
    scope: &ModuleScope,
    default: &Statement,
    ty: &Statement,
) -> Result<(), Memory>
    ensures { OnOk result (Notes least.old least.new (λ tests.
        bad_default_by scope.now.names.now tests scope.now.file scope.now.number
        (Some (declaration default.now))
        (Some (declaration ty.now)))) }
{
    note_default(
        alloc,
        least,
        scope.endings,
        scope.file,
        scope.number,
        ty,
        default,
    )?;
    Ok(())
}

/// The default of a leaf with these statements, where it has one and a type.
fn note_default_in(
    alloc: Global,
    least: &mut Option<Fault>,
    scope: &ModuleScope,
    statements: &[Statement],
) -> Result<(), Memory>
    ensures { OnOk result (Notes least.old least.new (λ tests.
        bad_default_in scope.now.names.now tests scope.now.file scope.now.number
        (map declaration statements.now))) }
{
    match first_of("default", statements) {
        Some(default) => match first_of("type", statements) {
            Some(ty) => note_default_of(alloc, least, scope, default, ty),
            None => Ok(()),
        },
        None => Ok(()),
    }
}

/// The default of a leaf that the key doesn't name.
fn note_default_at(
    alloc: Global,
    least: &mut Option<Fault>,
    scope: &ModuleScope,
    keys: &NameSet,
    statement: &Statement,
) -> Result<(), Memory>
    ensures { OnOk result ((known : List (List ℕ)) → IsSetOf keys.now.names known
        → Notes least.old least.new (λ tests.
        bad_default_at scope.now.names.now tests scope.now.file scope.now.number
        known (declaration statement.now))) }
{
    if statement.keyword.as_str() == "leaf" && !is_key_leaf(keys, &statement.argument) {
        let block = statement.block.items();
        note_default_in(alloc, least, scope, block)?;
    }
    Ok(())
}

/// The defaults of the leaves that the key doesn't name.
fn note_defaults(
    alloc: Global,
    least: &mut Option<Fault>,
    scope: &ModuleScope,
    keys: &NameSet,
    statements: &[Statement],
) -> Result<(), Memory>
    ensures { OnOk result ((known : List (List ℕ)) → IsSetOf keys.now.names known
        → Notes least.old least.new (λ tests.
        bad_defaults scope.now.names.now tests scope.now.file scope.now.number
        known (map declaration statements.now))) }
{
    for statement in statements {
        note_default_at(alloc, least, scope, keys, statement)?;
    }
    Ok(())
}

/// The defaults of the fields of a list.
pub(crate) fn note_list_defaults(
    alloc: Global,
    least: &mut Option<Fault>,
    scope: &ModuleScope,
    list: &Statement,
) -> Result<(), Memory>
    ensures { OnOk result (Notes least.old least.new (λ tests.
        bad_defaults scope.now.names.now tests scope.now.file scope.now.number
        (key_names (block (declaration list.now)))
        (block (declaration list.now)))) }
{
    let statements = list.block.items();
    let keys = key_names(alloc, statements)?;
    note_defaults(alloc, least, scope, &keys, statements)?;
    Ok(())
}

/// The defaults of the fields of a fixed container.
pub(crate) fn note_fixed_defaults(
    alloc: Global,
    least: &mut Option<Fault>,
    scope: &ModuleScope,
    container: &Statement,
) -> Result<(), Memory>
    ensures { OnOk result (Notes least.old least.new (λ tests.
        bad_defaults scope.now.names.now tests scope.now.file scope.now.number
        [] (block (declaration container.now)))) }
{
    let statements = container.block.items();
    let keys = NameSet::new(alloc);
    note_defaults(alloc, least, scope, &keys, statements)?;
    Ok(())
}
