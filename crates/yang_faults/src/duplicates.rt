//! Names that are given twice.
ghost use Rattle.std.specs.Prelude.{◌≡◌, ◌∷◌, [], map, IfOk, OnOk};
ghost use Rattle.std.specs.List.{flat_map};
ghost use Rattle.yang_text.specs.Statements.{declaration};
ghost use Rattle.yang_faults.specs.Duplicates.{given_by, duplicates, duplicates_in, prefixes_given, prefixes_twice};
ghost use Rattle.yang_faults.specs.Entries.{needed};
ghost use Rattle.yang_scope.specs.Faults.{least_of};
ghost use Rattle.yang_faults.specs.NameSets.{NotesGiven};

use crate::kinds::Kind;
use crate::name_sets::NameSet;
use crate::rows::{Need, givers};
use crate::sentences::meets;
use host_core::Memory;
use std::alloc::Global;
use yang_scope::{Fault, note};
use yang_text::{ModelWhy, Statement};

static PREFIX: Need = Need {
    keyword: "prefix",
    other: None,
};

/// A name, and the fault that it is where it was given already.
pub(crate) fn note_name(
    alloc: Global,
    least: &mut Option<Fault>,
    set: &mut NameSet,
    fault: Fault,
    name: &str,
) -> Result<(), Memory>
    ensures { IfOk result (λ _.
        NotesGiven least.old least.new set.old set.new ((name.now, fault) ∷ [])) }
{
    if !set.add(alloc, name)? {
        note(least, fault.file, fault.line, fault.why);
    }
    Ok(())
}

/// The name that a statement gives, where it gives one.
fn note_given(
    alloc: Global,
    least: &mut Option<Fault>,
    set: &mut NameSet,
    file: u32,
    need: &Need,
    statement: &Statement,
) -> Result<(), Memory>
    ensures { IfOk result (λ _. NotesGiven least.old least.new set.old set.new
        (given_by file (needed need.now) (declaration statement.now))) }
{
    if !meets(need, statement.keyword.as_str()) {
        return Ok(());
    }
    match &statement.argument {
        Some(name) => {
            let fault = Fault {
                file,
                line: statement.line,
                why: ModelWhy::Duplicate,
            };
            note_name(alloc, least, set, fault, name.as_str())
        }
        None => Ok(()),
    }
}

/// The names that statements of some keywords give.
pub(crate) fn note_all_given(
    alloc: Global,
    least: &mut Option<Fault>,
    set: &mut NameSet,
    file: u32,
    need: &Need,
    statements: &[Statement],
) -> Result<(), Memory>
    ensures { IfOk result (λ _. NotesGiven least.old least.new set.old set.new
        (flat_map (given_by file (needed need.now)) (map declaration statements.now))) }
{
    for statement in statements {
        note_given(alloc, least, set, file, need, statement)?;
    }
    Ok(())
}

/// The names that statements of some keywords give, each once.
fn note_duplicates(
    alloc: Global,
    least: &mut Option<Fault>,
    file: u32,
    need: &Need,
    statements: &[Statement],
) -> Result<(), Memory>
    ensures { OnOk result (least.new ≡ least_of least.old
        (duplicates file (map declaration statements.now) (needed need.now))) }
{
    let mut set = NameSet::new(alloc);
    note_all_given(alloc, least, &mut set, file, need, statements)?;
    Ok(())
}

/// The names in a statement of a kind, each once among those of its group.
pub(crate) fn note_duplicates_in(
    alloc: Global,
    least: &mut Option<Fault>,
    file: u32,
    kind: Kind,
    statements: &[Statement],
) -> Result<(), Memory>
    ensures { OnOk result (least.new ≡ least_of least.old
        (duplicates_in file kind (map declaration statements.now))) }
{
    for need in givers(kind) {
        note_duplicates(alloc, least, file, need, statements)?;
    }
    Ok(())
}

/// The prefixes that a statement of a module gives.
fn note_prefixes_of(
    alloc: Global,
    least: &mut Option<Fault>,
    set: &mut NameSet,
    file: u32,
    statement: &Statement,
) -> Result<(), Memory>
    ensures { IfOk result (λ _. NotesGiven least.old least.new set.old set.new
        (prefixes_given file (declaration statement.now))) }
{
    if statement.keyword.as_str() != "import" {
        return note_given(alloc, least, set, file, &PREFIX, statement);
    }
    let block = statement.block.items();
    note_all_given(alloc, least, set, file, &PREFIX, block)?;
    Ok(())
}

/// The prefixes of a module, its own and those of its imports, each once.
pub(crate) fn note_prefixes(
    alloc: Global,
    least: &mut Option<Fault>,
    file: u32,
    statements: &[Statement],
) -> Result<(), Memory>
    ensures { OnOk result (least.new ≡ least_of least.old
        (prefixes_twice file (map declaration statements.now))) }
{
    let mut set = NameSet::new(alloc);
    for statement in statements {
        note_prefixes_of(alloc, least, &mut set, file, statement)?;
    }
    Ok(())
}
