//! The leaves of a list or a fixed container that are no key leaves.
ghost use Rattle.std.specs.Prelude.{◌≡◌, [], List, ℕ, map, option_map, option_copied, IfOk, OnOk};
ghost use Rattle.std.specs.List.{find, flat_map};
ghost use Rattle.std.specs.Str.{bytes_eq};
ghost use Rattle.yang_text.specs.Statements.{declaration};
ghost use Rattle.yang_scope.specs.Faults.{least_of};
ghost use Rattle.yang_faults.specs.Fields.{first_of, first_argument, key_names, is_key_leaf, is_mandatory, mandatory_default, field_faults};
ghost use Rattle.yang_faults.specs.Keys.{names_in};
ghost use Rattle.yang_faults.specs.NameSets.{IsSetOf};
ghost use Rattle.yang_scope.specs.Pieces.{texts};

use crate::keys::names_in;
use crate::name_sets::NameSet;
use host_core::{Memory, Txt};
use std::alloc::Global;
use yang_scope::{Fault, note};
use yang_text::{ModelWhy, Statement};

/// The first statement of a keyword, as a value.
fn first_statement<'a>(name: &str, statements: &'a [Statement]) -> Option<&'a Statement>
    ensures { option_copied result ≡ find (λ s. bytes_eq s.keyword name.now) statements.now }
{
    statements
        .iter()
        .find(|statement| statement.keyword.as_str() == name)
}

/// The first statement of a keyword.
pub(crate) fn first_of<'a>(name: &str, statements: &'a [Statement]) -> Option<&'a Statement>
    ensures { option_map (λ s. declaration s.now) result
        ≡ first_of name.now (map declaration statements.now) }
{
    first_statement(name, statements)
}

/// The argument of the first statement of a keyword.
pub fn first_argument<'a>(name: &str, statements: &'a [Statement]) -> Option<&'a str>
    ensures { option_map (λ s. s.now) result
        ≡ first_argument name.now (map declaration statements.now) }
{
    match first_of(name, statements) {
        Some(statement) => match &statement.argument {
            Some(text) => Some(text.as_str()),
            None => None,
        },
        None => None,
    }
}

/// The set of some names.
fn set_of(alloc: Global, names: &[&str]) -> Result<NameSet, Memory>
    ensures { IfOk result (λ set. IsSetOf set.names (texts names.now)) }
{
    let mut set = NameSet::new(alloc);
    for name in names {
        set.add(alloc, name)?;
    }
    Ok(set)
}

/// The set of the names in a key.
fn set_in(alloc: Global, key: &str) -> Result<NameSet, Memory>
    ensures { IfOk result (λ set. IsSetOf set.names (names_in key.now)) }
{
    let names = names_in(alloc, key)?;
    let set = set_of(alloc, names.as_slice())?;
    Ok(set)
}

/// The names that the key of a list gives.
pub(crate) fn key_names(alloc: Global, statements: &[Statement]) -> Result<NameSet, Memory>
    ensures { IfOk result (λ keys.
        IsSetOf keys.names (key_names (map declaration statements.now))) }
{
    match first_argument("key", statements) {
        Some(key) => set_in(alloc, key),
        None => Ok(NameSet::new(alloc)),
    }
}

/// Whether the key gives a name.
pub(crate) fn is_key_leaf(keys: &NameSet, name: &Option<Txt>) -> bool
    ensures { (known : List (List ℕ)) → IsSetOf keys.now.names known
        → result ≡ is_key_leaf known name.now }
{
    match name {
        Some(name) => keys.contains(name.as_str()),
        None => false,
    }
}

/// Whether a leaf with these statements is mandatory.
pub fn is_mandatory(statements: &[Statement]) -> bool
    ensures { result ≡ is_mandatory (map declaration statements.now) }
{
    match first_argument("mandatory", statements) {
        Some(text) => text == "true",
        None => false,
    }
}

/// The default of a mandatory leaf.
fn note_mandatory_default(least: &mut Option<Fault>, file: u32, statements: &[Statement])
    ensures { least.new ≡ least_of least.old
        (mandatory_default file (map declaration statements.now)) }
{
    if let Some(default) = first_of("default", statements) {
        if is_mandatory(statements) {
            note(least, file, default.line, ModelWhy::BadArgument);
        }
    }
}

/// What is wrong with a leaf that the key doesn't name.
fn note_field(least: &mut Option<Fault>, file: u32, keys: &NameSet, statement: &Statement)
    ensures { (known : List (List ℕ)) → IsSetOf keys.now.names known
        → least.new ≡ least_of least.old (field_faults file known (declaration statement.now)) }
{
    if statement.keyword.as_str() == "leaf" && !is_key_leaf(keys, &statement.argument) {
        note_mandatory_default(least, file, statement.block.items());
    }
}

/// What is wrong with the leaves that the key doesn't name.
fn note_fields(least: &mut Option<Fault>, file: u32, keys: &NameSet, statements: &[Statement])
    ensures { (known : List (List ℕ)) → IsSetOf keys.now.names known
        → least.new ≡ least_of least.old
        (flat_map (field_faults file known) (map declaration statements.now)) }
{
    for statement in statements {
        note_field(least, file, keys, statement);
    }
}

/// What is wrong with the fields of a list.
pub(crate) fn note_list_fields(
    alloc: Global,
    least: &mut Option<Fault>,
    file: u32,
    statements: &[Statement],
) -> Result<(), Memory>
    ensures { OnOk result (least.new ≡ least_of least.old
        (flat_map (field_faults file (key_names (map declaration statements.now)))
        (map declaration statements.now))) }
{
    let keys = key_names(alloc, statements)?;
    note_fields(least, file, &keys, statements);
    Ok(())
}

/// What is wrong with the fields of a fixed container.
pub(crate) fn note_fixed_fields(
    alloc: Global,
    least: &mut Option<Fault>,
    file: u32,
    statements: &[Statement],
)
    ensures { least.new ≡ least_of least.old
        (flat_map (field_faults file []) (map declaration statements.now)) }
{
    note_fields(least, file, &NameSet::new(alloc), statements);
}
