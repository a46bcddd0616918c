//! What is wrong with the files as a whole, and with what stands outermost in them.
ghost use Rattle.std.specs.Prelude.{◌≡◌, ◌≤◌, map, length, IfOk, OnOk};
ghost use Rattle.std.specs.List.{flat_map};
ghost use Rattle.yang_scope.specs.Faults.{least_of};
ghost use Rattle.yang_text.specs.Statements.{declaration};
ghost use Rattle.yang_faults.specs.Files.{in_files, no_module, no_statements, file_faults, modules_given, modules_twice, tables_of_container, tables_of_module, tables_given, tables_twice};
ghost use Rattle.yang_faults.specs.NameSets.{NotesGiven};

use crate::duplicates::note_all_given;
use crate::kinds::Kind;
use crate::name_sets::NameSet;
use crate::rows::Need;
use crate::sentences::note_repeated_in;
use host_core::{Memory, Txt};
use std::alloc::Global;
use yang_scope::{Fault, note};
use yang_text::{ModelWhy, Statement, Statements};

static MODULE: Need = Need {
    keyword: "module",
    other: None,
};

static CONTAINER: Need = Need {
    keyword: "container",
    other: None,
};

/// The outermost statements that are no modules.
fn note_no_modules(least: &mut Option<Fault>, file: u32, statements: &[Statement])
    ensures { least.new ≡ least_of least.old
        (flat_map (no_module file) (map declaration statements.now)) }
{
    for statement in statements {
        if statement.keyword.as_str() != "module" {
            note(least, file, statement.line, ModelWhy::Unsupported);
        }
    }
}

/// A file without statements.
fn note_empty(least: &mut Option<Fault>, file: u32, statements: &[Statement])
    ensures { least.new ≡ least_of least.old (no_statements file (map declaration statements.now)) }
{
    if statements.is_empty() {
        note(least, file, 1, ModelWhy::Missing);
    }
}

/// What is wrong with a file's outermost statements.
fn note_file(least: &mut Option<Fault>, file: u32, statements: &[Statement])
    ensures { least.new ≡ least_of least.old (file_faults file (map declaration statements.now)) }
{
    note_empty(least, file, statements);
    note_repeated_in(least, file, Kind::File, statements);
    note_no_modules(least, file, statements);
}

/// What is wrong with the outermost statements of the files.
pub(crate) fn note_files(least: &mut Option<Fault>, files: &[(Txt, Statements)])
    requires { length files.now ≤ 256 }
    ensures { least.new ≡ least_of least.old (in_files file_faults 0 (map (λ f. f.1) files.now)) }
{
    for (i, file) in files.iter().enumerate() {
        note_file(least, i as u32, file.1.items());
    }
}

/// The modules of a name that was given before.
pub(crate) fn note_modules_twice(
    alloc: Global,
    least: &mut Option<Fault>,
    files: &[(Txt, Statements)],
) -> Result<(), Memory>
    requires { length files.now ≤ 256 }
    ensures { OnOk result (least.new ≡ least_of least.old
        (modules_twice (map (λ f. f.1) files.now))) }
{
    let mut set = NameSet::new(alloc);
    for (i, file) in files.iter().enumerate() {
        note_all_given(alloc, least, &mut set, i as u32, &MODULE, file.1.items())?;
    }
    Ok(())
}

/// The tables of a module's container.
fn note_container_tables(
    alloc: Global,
    least: &mut Option<Fault>,
    set: &mut NameSet,
    file: u32,
    statement: &Statement,
) -> Result<(), Memory>
    ensures { IfOk result (λ _. NotesGiven least.old least.new set.old set.new
        (tables_of_container file (declaration statement.now))) }
{
    if statement.keyword.as_str() != "container" {
        return Ok(());
    }
    let block = statement.block.items();
    note_all_given(alloc, least, set, file, &CONTAINER, block)?;
    Ok(())
}

/// The tables of a module.
fn note_module_tables(
    alloc: Global,
    least: &mut Option<Fault>,
    set: &mut NameSet,
    file: u32,
    statement: &Statement,
) -> Result<(), Memory>
    ensures { IfOk result (λ _. NotesGiven least.old least.new set.old set.new
        (tables_of_module file (declaration statement.now))) }
{
    if statement.keyword.as_str() != "module" {
        return Ok(());
    }
    for inner in statement.block.items() {
        note_container_tables(alloc, least, set, file, inner)?;
    }
    Ok(())
}

/// The tables of a file.
fn note_file_tables(
    alloc: Global,
    least: &mut Option<Fault>,
    set: &mut NameSet,
    file: u32,
    statements: &[Statement],
) -> Result<(), Memory>
    ensures { IfOk result (λ _. NotesGiven least.old least.new set.old set.new
        (tables_given file (map declaration statements.now))) }
{
    for statement in statements {
        note_module_tables(alloc, least, set, file, statement)?;
    }
    Ok(())
}

/// The tables of a name that was given before, in whatever module.
pub(crate) fn note_tables_twice(
    alloc: Global,
    least: &mut Option<Fault>,
    files: &[(Txt, Statements)],
) -> Result<(), Memory>
    requires { length files.now ≤ 256 }
    ensures { OnOk result (least.new ≡ least_of least.old
        (tables_twice (map (λ f. f.1) files.now))) }
{
    let mut set = NameSet::new(alloc);
    for (i, file) in files.iter().enumerate() {
        note_file_tables(alloc, least, &mut set, i as u32, file.1.items())?;
    }
    Ok(())
}
