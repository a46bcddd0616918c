//! All faults of the statements of some files.
ghost use Rattle.std.specs.Prelude.{◌≡◌, ◌≤◌, map, length, slice_get, OnOk};
ghost use Rattle.yang_scope.specs.Faults.{least_of};
ghost use Rattle.yang_faults.specs.AllFaults.{faults_of_module, all_module_faults, all_file_faults};
ghost use Rattle.yang_faults.specs.Tests.{Notes};

use crate::files::{note_files, note_modules_twice, note_tables_twice};
use crate::kinds::Kind;
use crate::module_scopes::ModuleScope;
use crate::walks::note_statement;
use host_core::{Memory, Txt};
use std::alloc::Global;
use yang_scope::{Fault, Names};
use yang_text::Statements;
use yang_values::Endings;

/// What is wrong with what stands outermost in the files, and with the names of modules and tables.
/// There are at most 256 files.
pub fn note_file_faults(
    alloc: Global,
    least: &mut Option<Fault>,
    files: &[(Txt, Statements)],
) -> Result<(), Memory>
    requires { length files.now ≤ 256 }
    ensures { OnOk result (least.new ≡ least_of least.old
        (all_file_faults (map (λ f. f.1) files.now))) }
{
    note_files(least, files);
    note_modules_twice(alloc, least, files)?;
    note_tables_twice(alloc, least, files)?;
    Ok(())
}

/// What is wrong with a module and all that stands in it.
fn note_module(
    alloc: Global,
    least: &mut Option<Fault>,
    names: &Names,
    endings: &Endings,
    number: usize,
) -> Result<(), Memory>
    requires { endings.now ≡ names.now }
    ensures { OnOk result (Notes least.old least.new
        (faults_of_module names.now number (slice_get names.now number))) }
{
    match names.module_at(number) {
        Some((file, statement)) => {
            let scope = ModuleScope {
                names,
                endings,
                file,
                number,
            };
            note_statement(alloc, least, &scope, file, Kind::Module, statement)
        }
        None => Ok(()),
    }
}

/// What is wrong with the modules and all that stands in them.
pub fn note_module_faults(
    alloc: Global,
    least: &mut Option<Fault>,
    names: &Names,
) -> Result<(), Memory>
    ensures { OnOk result (Notes least.old least.new (all_module_faults names.now)) }
{
    let endings = Endings::new(alloc, names)?;
    for number in 0..names.len() {
        note_module(alloc, least, names, &endings, number)?;
    }
    Ok(())
}
