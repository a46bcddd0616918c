//! The key leaves and the fields of a list or a fixed container, from its statements.
ghost use Rattle.std.specs.Prelude.{◌≡◌, [], ◌∷◌, ◌++◌, map, option_map, IfOk, OnOk};
ghost use Rattle.std.specs.List.{flat_map, list_any};
ghost use Rattle.std.specs.Str.{bytes_eq};
ghost use Rattle.yang_text.specs.Declarations.{block};
ghost use Rattle.yang_text.specs.Statements.{declaration};
ghost use Rattle.yang_scope.specs.Pieces.{texts};
ghost use Rattle.yang_faults.specs.Fields.{is_key_leaf, key_names};
ghost use Rattle.yang_model.specs.Readers.{Gives};
ghost use Rattle.yang_model.specs.Leaves.{stored, name_of, leaf_type, key_type, key_leaf, field, field_at, shape_keys};
ghost use Rattle.yang_model.specs.ShapeCodes.{ty_of};

use crate::shapes::{FieldRule, KeyLeaf};
use host_core::{Memory, Sequence, Txt};
use std::alloc::Global;
use yang_faults::{first_argument, is_mandatory, names_in};
use yang_scope::{Names, child_named, first_of};
use yang_text::Statement;
use yang_types::Ty;
use yang_values::type_value;

/// The name that a statement gives, or none.
pub(crate) fn name_of(alloc: Global, statement: &Statement) -> Result<Txt, Memory>
    ensures { IfOk result (λ name. name ≡ name_of (declaration statement.now)) }
{
    match &statement.argument {
        Some(name) => name.copy(alloc),
        None => Txt::new(alloc, ""),
    }
}

/// The type that a type statement of a module says.
fn type_of(alloc: Global, names: &Names, number: usize, statement: &Statement) -> Result<Ty, Memory>
    ensures { IfOk result (λ ty. Gives ty (λ readers.
        ty_of (stored names.now readers number (declaration statement.now)))) }
{
    let ty = type_value(alloc, names, number, statement)?;
    Ok(ty)
}

/// The type of a leaf or a leaf-list.
fn leaf_type(alloc: Global, names: &Names, number: usize, leaf: &Statement) -> Result<Ty, Memory>
    ensures { IfOk result (λ ty. Gives ty (λ readers.
        leaf_type stored names.now readers number (declaration leaf.now))) }
{
    match first_of("type", leaf.block.items()) {
        Some(statement) => type_of(alloc, names, number, statement),
        None => Ok(Ty::Text),
    }
}

/// The type of a leaf of a list by its name.
fn key_type(
    alloc: Global,
    names: &Names,
    number: usize,
    list: &Statement,
    name: &str,
) -> Result<Ty, Memory>
    ensures { IfOk result (λ ty. Gives ty (λ readers.
        key_type stored names.now readers number (declaration list.now) name.now)) }
{
    match child_named("leaf", name, list) {
        Some(leaf) => leaf_type(alloc, names, number, leaf),
        None => Ok(Ty::Text),
    }
}

/// The leaf of a list that its key names.
fn key_leaf(
    alloc: Global,
    names: &Names,
    number: usize,
    list: &Statement,
    name: &str,
) -> Result<KeyLeaf, Memory>
    ensures { IfOk result (λ leaf. Gives leaf (λ readers.
        key_leaf stored names.now readers number (declaration list.now) name.now)) }
{
    let ty = key_type(alloc, names, number, list, name)?;
    Ok(KeyLeaf {
        name: Txt::new(alloc, name)?,
        ty,
    })
}

/// The key leaves of a list, in the order of its key.
pub(crate) fn key_leaves(
    alloc: Global,
    names: &Names,
    number: usize,
    list: &Statement,
    keys: &[&str],
) -> Result<Sequence<KeyLeaf>, Memory>
    ensures { IfOk result (λ leaves. Gives leaves (λ readers.
        map (key_leaf stored names.now readers number (declaration list.now)) (texts keys.now))) }
{
    let mut leaves = Sequence::new(alloc);
    for key in keys {
        leaves.push(key_leaf(alloc, names, number, list, key)?)?;
    }
    Ok(leaves)
}

/// A text that may be there, as one of its own.
fn copy_text(alloc: Global, text: Option<&str>) -> Result<Option<Txt>, Memory>
    ensures { IfOk result (λ copy. copy ≡ option_map (λ s. s.now) text.entry) }
{
    match text {
        Some(text) => Ok(Some(Txt::new(alloc, text)?)),
        None => Ok(None),
    }
}

/// A leaf or a leaf-list.
fn field(
    alloc: Global,
    names: &Names,
    number: usize,
    list: bool,
    leaf: &Statement,
) -> Result<FieldRule, Memory>
    ensures { IfOk result (λ rule. Gives rule (λ readers.
        field stored names.now readers number list (declaration leaf.now))) }
{
    let block = leaf.block.items();
    let name = name_of(alloc, leaf)?;
    let ty = leaf_type(alloc, names, number, leaf)?;
    let default = copy_text(alloc, first_argument("default", block))?;
    Ok(FieldRule {
        name,
        ty,
        list,
        mandatory: is_mandatory(block),
        default,
    })
}

/// Whether a name is among some names.
fn has_name(names: &[&str], name: &str) -> bool
    ensures { result ≡ list_any (λ n. bytes_eq name.now n.now) names.now }
{
    names.iter().any(|other| name == *other)
}

/// Whether the key gives a name.
#[tactic(auto, using(yang_scope::proofs::Blocks::any_mapped))]
fn is_key_leaf(keys: &[&str], name: &Option<Txt>) -> bool
    ensures { result ≡ is_key_leaf (texts keys.now) name.now }
{
    match name {
        Some(name) => has_name(keys, name.as_str()),
        None => false,
    }
}

/// Adds a statement of a list or a fixed container, where it is a field.
fn push_field(
    alloc: Global,
    fields: &mut Sequence<FieldRule>,
    names: &Names,
    number: usize,
    keys: &[&str],
    statement: &Statement,
) -> Result<(), Memory>
    ensures { OnOk result (Gives fields.new (λ readers. fields.old
        ++ field_at stored names.now readers number (texts keys.now) (declaration statement.now))) }
{
    let word = statement.keyword.as_str();
    if word == "leaf" {
        if is_key_leaf(keys, &statement.argument) {
            return Ok(());
        }
        fields.push(field(alloc, names, number, false, statement)?)
    } else if word == "leaf-list" {
        fields.push(field(alloc, names, number, true, statement)?)
    } else {
        Ok(())
    }
}

/// The fields of a list or a fixed container, in the order of the text.
pub(crate) fn fields(
    alloc: Global,
    names: &Names,
    number: usize,
    keys: &[&str],
    shape: &Statement,
) -> Result<Sequence<FieldRule>, Memory>
    ensures { IfOk result (λ rules. Gives rules (λ readers.
        flat_map (field_at stored names.now readers number (texts keys.now))
        (block (declaration shape.now)))) }
{
    let mut rules = Sequence::new(alloc);
    for statement in shape.block.items() {
        push_field(alloc, &mut rules, names, number, keys, statement)?;
    }
    Ok(rules)
}

/// The names that the key of a list gives.
fn key_names<'a>(alloc: Global, statements: &'a [Statement]) -> Result<Vec<&'a str>, Memory>
    ensures { IfOk result (λ names.
        texts names.items ≡ key_names (map declaration statements.now)) }
{
    match first_argument("key", statements) {
        Some(key) => names_in(alloc, key),
        None => Ok(Vec::new(alloc)),
    }
}

/// The names of the key leaves of a list; a fixed container has none.
pub(crate) fn shape_keys<'a>(alloc: Global, shape: &'a Statement) -> Result<Vec<&'a str>, Memory>
    ensures { IfOk result (λ keys. texts keys.items ≡ shape_keys (declaration shape.now)) }
{
    if shape.keyword.as_str() == "list" {
        let keys = key_names(alloc, shape.block.items())?;
        Ok(keys)
    } else {
        Ok(Vec::new(alloc))
    }
}
