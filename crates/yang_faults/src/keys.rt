//! The key of a list.
ghost use Rattle.std.specs.Prelude.{◌≡◌, [], ◌∷◌, ◌++◌, List, ℕ, map, IfOk, OnOk};
ghost use Rattle.std.specs.List.{flat_map};
ghost use Rattle.yang_text.specs.Statements.{declaration};
ghost use Rattle.yang_scope.specs.Faults.{least_of};
ghost use Rattle.yang_faults.specs.Keys.{names_in, non_empty, wrong_number, named_twice, unknown_leaf, name_in_key, key_faults, key_statement_faults, leaf_name, keys_faults};
ghost use Rattle.yang_faults.specs.NameSets.{IsSetOf, NotesGiven};
ghost use Rattle.yang_scope.specs.Pieces.{texts};

use crate::duplicates::note_name;
use crate::name_sets::NameSet;
use host_core::Memory;
use std::alloc::Global;
use yang_scope::{Fault, note};
use yang_text::{ModelWhy, Statement};

/// The names in a key.
pub fn names_in<'a>(alloc: Global, key: &'a str) -> Result<Vec<&'a str>, Memory>
    ensures { IfOk result (λ names. texts names.items ≡ names_in key.now) }
{
    let mut names = Vec::new(alloc);
    for name in key.split(' ') {
        push_name(&mut names, name)?;
    }
    Ok(names)
}

/// Adds what stands between two spaces, where anything does.
fn push_name<'a>(names: &mut Vec<&'a str>, name: &'a str) -> Result<(), Memory>
    ensures { OnOk result
        (texts names.new.items ≡ texts names.old.items ++ non_empty (name.now ∷ [])) }
{
    if name.is_empty() {
        return Ok(());
    }
    names.push(name)?;
    Ok(())
}

/// No name, or more than eight.
fn note_number(least: &mut Option<Fault>, file: u32, line: u32, names: &[&str])
    ensures { least.new ≡ least_of least.old
        (wrong_number file line (texts names.now)) }
{
    if names.is_empty() {
        note(least, file, line, ModelWhy::BadArgument);
    } else if 8 < names.len() {
        note(least, file, line, ModelWhy::TooMany);
    }
}

/// A name, and the fault that it is where the key gave it before.
fn note_key_name(
    alloc: Global,
    least: &mut Option<Fault>,
    set: &mut NameSet,
    file: u32,
    line: u32,
    name: &str,
) -> Result<(), Memory>
    ensures { IfOk result (λ _. NotesGiven least.old least.new set.old set.new
        (name_in_key file line name.now ∷ [])) }
{
    let fault = Fault {
        file,
        line,
        why: ModelWhy::BadArgument,
    };
    note_name(alloc, least, set, fault, name)
}

/// The names that the key gave before.
fn note_named_twice(
    alloc: Global,
    least: &mut Option<Fault>,
    file: u32,
    line: u32,
    names: &[&str],
) -> Result<(), Memory>
    ensures { OnOk result (least.new ≡ least_of least.old
        (named_twice file line (texts names.now))) }
{
    let mut set = NameSet::new(alloc);
    for name in names {
        note_key_name(alloc, least, &mut set, file, line, name)?;
    }
    Ok(())
}

/// A name of no leaf.
fn note_unknown_leaf(least: &mut Option<Fault>, file: u32, line: u32, leaves: &NameSet, name: &str)
    ensures { (known : List (List ℕ)) → IsSetOf leaves.now.names known
        → least.new ≡ least_of least.old (unknown_leaf file line known name.now) }
{
    if !leaves.contains(name) {
        note(least, file, line, ModelWhy::UnknownName);
    }
}

/// The names of no leaf.
fn note_unknown(least: &mut Option<Fault>, file: u32, line: u32, leaves: &NameSet, names: &[&str])
    ensures { (known : List (List ℕ)) → IsSetOf leaves.now.names known
        → least.new ≡ least_of least.old
        (flat_map (unknown_leaf file line known) (texts names.now)) }
{
    for name in names {
        note_unknown_leaf(least, file, line, leaves, name);
    }
}

/// What is wrong with a key.
fn note_key(
    alloc: Global,
    least: &mut Option<Fault>,
    file: u32,
    line: u32,
    leaves: &NameSet,
    key: &str,
) -> Result<(), Memory>
    ensures { IfOk result (λ _. (known : List (List ℕ)) → IsSetOf leaves.now.names known
        → least.new ≡ least_of least.old (key_faults file line known (names_in key.now))) }
{
    let found = names_in(alloc, key)?;
    let names = found.as_slice();
    note_number(least, file, line, names);
    note_named_twice(alloc, least, file, line, names)?;
    note_unknown(least, file, line, leaves, names);
    Ok(())
}

/// What is wrong with a statement of a list that is a key.
fn note_key_statement(
    alloc: Global,
    least: &mut Option<Fault>,
    file: u32,
    leaves: &NameSet,
    statement: &Statement,
) -> Result<(), Memory>
    ensures { IfOk result (λ _. (known : List (List ℕ)) → IsSetOf leaves.now.names known
        → least.new ≡ least_of least.old
        (key_statement_faults file known (declaration statement.now))) }
{
    if statement.keyword.as_str() != "key" {
        return Ok(());
    }
    match &statement.argument {
        Some(key) => note_key(alloc, least, file, statement.line, leaves, key.as_str()),
        None => Ok(()),
    }
}

/// Adds the name of a leaf.
fn add_leaf(alloc: Global, leaves: &mut NameSet, statement: &Statement) -> Result<(), Memory>
    ensures { IfOk result (λ _. (known : List (List ℕ)) → IsSetOf leaves.old.names known
        → IsSetOf leaves.new.names (known ++ leaf_name (declaration statement.now))) }
{
    if statement.keyword.as_str() != "leaf" {
        return Ok(());
    }
    match &statement.argument {
        Some(name) => {
            leaves.add(alloc, name.as_str())?;
            Ok(())
        }
        None => Ok(()),
    }
}

/// The names of the leaves.
fn leaves_of(alloc: Global, statements: &[Statement]) -> Result<NameSet, Memory>
    ensures { IfOk result (λ leaves.
        IsSetOf leaves.names (flat_map leaf_name (map declaration statements.now))) }
{
    let mut leaves = NameSet::new(alloc);
    for statement in statements {
        add_leaf(alloc, &mut leaves, statement)?;
    }
    Ok(leaves)
}

/// What is wrong with the keys of a list.
pub(crate) fn note_keys(
    alloc: Global,
    least: &mut Option<Fault>,
    file: u32,
    statements: &[Statement],
) -> Result<(), Memory>
    ensures { OnOk result (least.new ≡ least_of least.old
        (keys_faults file (map declaration statements.now))) }
{
    let leaves = leaves_of(alloc, statements)?;
    for statement in statements {
        note_key_statement(alloc, least, file, &leaves, statement)?;
    }
    Ok(())
}
