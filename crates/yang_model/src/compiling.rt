//! The models of some texts, or the exact fault of these.
ghost use Rattle.std.specs.Prelude.{◌≡◌, ◌≤◌, ◌<◌, All, None, length, map, IfOk, IfErr};
ghost use Rattle.yang_text.specs.Declarations.{total_weight};
ghost use Rattle.yang_scope.specs.Faults.{least_of};
ghost use Rattle.yang_scope.specs.Modules.{modules_of};
ghost use Rattle.yang_model.specs.Answers.{faults, AreModelsOf, IsLeastFaultOf, IfFault};
ghost use Rattle.yang_model.specs.Readers.{Gives};
ghost use Rattle.yang_model.specs.Sizes.{most_files, most_statements};

use crate::errors::ModelError;
use crate::laws::readers_exist;
use crate::models::Models;
use crate::tables::models_of;
use host_core::{Memory, Txt};
use std::alloc::Global;
use yang_faults::{note_file_faults, note_module_faults};
use yang_must::{ModelTree, note_musts};
use yang_scope::{Fault, Names};
use yang_text::Statements;

/// The least fault of the files, where there is one.
fn least_fault(
    alloc: Global,
    files: &[(Txt, Statements)],
    names: &Names,
    tree: &ModelTree,
) -> Result<Option<Fault>, Memory>
    requires few { length files.now ≤ most_files }
    requires named { names.now ≡ modules_of (map (λ f. f.1) files.now) }
    requires same { tree.now ≡ names.now }
    ensures { IfOk result (λ least. Gives least (λ readers.
        least_of None (faults readers (map (λ f. f.1) files.now)))) }
{
    let mut least = None;
    note_file_faults(alloc, &mut least, files)?;
    note_module_faults(alloc, &mut least, names)?;
    note_musts(alloc, &mut least, tree)?;
    Ok(least)
}

/// The models of some texts, whose names and nodes are found already.
fn compile_named(
    alloc: Global,
    files: &[(Txt, Statements)],
    names: &Names,
    tree: &ModelTree,
) -> Result<Models, ModelError>
    requires few { length files.now ≤ most_files }
    requires small { All (λ f. total_weight f.1 ≤ most_statements) files.now }
    requires named { names.now ≡ modules_of (map (λ f. f.1) files.now) }
    requires same { tree.now ≡ names.now }
    ensures models { IfOk result (AreModelsOf (map (λ f. f.1) files.now)) }
    ensures fault { IfErr result (λ e. IfFault e (IsLeastFaultOf (map (λ f. f.1) files.now))) }
    ensures file { IfErr result (λ e. IfFault e (λ f. f.file < length files.now)) }
{
    // so what is said of the least fault by all readers is said by some
    readers_exist();
    match least_fault(alloc, files, names, tree)? {
        Some(fault) => Err(ModelError::Fault {
            file: fault.file,
            line: fault.line,
            why: fault.why,
        }),
        None => Ok(models_of(alloc, names, tree)?),
    }
}

/// The models of some texts (RFC 7950, in a profile): for each table its shapes in the order of the
/// text. Where something is wrong with a text it is the fault of the lowest file, of its lowest line,
/// and of those the first by name. There are at most 256 files, each of at most 1,048,576 statements.
pub fn compile(alloc: Global, files: &[(Txt, Statements)]) -> Result<Models, ModelError>
    requires few { length files.now ≤ most_files }
    requires small { All (λ f. total_weight f.1 ≤ most_statements) files.now }
    ensures models { IfOk result (AreModelsOf (map (λ f. f.1) files.now)) }
    ensures fault { IfErr result (λ e. IfFault e (IsLeastFaultOf (map (λ f. f.1) files.now))) }
    ensures file { IfErr result (λ e. IfFault e (λ f. f.file < length files.now)) }
{
    let names = Names::new(alloc, files)?;
    match ModelTree::new(alloc, &names) {
        Ok(tree) => {
            let models = compile_named(alloc, files, &names, &tree);
            drop(tree);
            drop(names);
            models
        }
        Err(_) => {
            drop(names);
            Err(ModelError::Memory)
        }
    }
}
