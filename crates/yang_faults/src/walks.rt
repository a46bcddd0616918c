//! The walk over a statement and all that stands in it, for the faults of the table of statements.
ghost use Rattle.std.specs.Prelude.{◌≡◌, OnOk};
ghost use Rattle.yang_text.specs.Declarations.{block_of};
ghost use Rattle.yang_text.specs.Statements.{declaration};
ghost use Rattle.yang_scope.specs.Faults.{least_of};
ghost use Rattle.yang_faults.specs.Sentences.{bad_argument};
ghost use Rattle.yang_faults.specs.Own.{sentence_faults};
ghost use Rattle.yang_faults.specs.Tests.{Notes};
ghost use Rattle.yang_faults.specs.Walks.{statement_faults, block_faults, below_faults};

use crate::duplicates::note_duplicates_in;
use crate::forms::is_form;
use crate::kinds::Kind;
use crate::own::note_own;
use crate::rows::kind_below;
use crate::scopes::Scope;
use crate::sentences::{note_missing, note_repeated_in};
use host_core::Memory;
use std::alloc::Global;
use yang_scope::{Fault, note};
use yang_text::{ModelWhy, Statement, Statements};

/// An argument that is missing or not of its form.
fn note_argument(least: &mut Option<Fault>, file: u32, kind: Kind, statement: &Statement)
    ensures { least.new ≡ least_of least.old
        (bad_argument file kind statement.now.argument statement.now.line) }
{
    match &statement.argument {
        Some(text) if is_form(kind, text.as_str()) => {}
        _ => note(least, file, statement.line, ModelWhy::BadArgument),
    }
}

/// The sentences on a statement of a kind.
fn note_sentences<S: Scope>(
    alloc: Global,
    least: &mut Option<Fault>,
    scope: &S,
    file: u32,
    kind: Kind,
    statement: &Statement,
) -> Result<(), Memory>
    ensures { OnOk result (Notes least.old least.new (λ tests.
        sentence_faults (S.knows scope.now) (S.named scope.now tests) file kind
        (declaration statement.now))) }
{
    let block = statement.block.items();
    note_argument(least, file, kind, statement);
    note_repeated_in(least, file, kind, block);
    note_missing(least, file, kind, statement.line, block);
    note_duplicates_in(alloc, least, file, kind, block)?;
    note_own(alloc, least, scope, file, kind, statement)?;
    scope.note_named(alloc, least, kind, statement)?;
    Ok(())
}

/// All faults of a statement of a kind.
#[cycle(walk)]
pub(crate) fn note_statement<S: Scope>(
    alloc: Global,
    least: &mut Option<Fault>,
    scope: &S,
    file: u32,
    kind: Kind,
    statement: &Statement,
) -> Result<(), Memory>
    ensures { OnOk result (Notes least.old least.new (λ tests.
        statement_faults (S.knows scope.now) (S.settles scope.now) (S.named scope.now tests) file
        (declaration statement.now) kind)) }
{
    note_sentences(alloc, least, scope, file, kind, statement)?;
    note_block(alloc, least, scope, file, kind, &statement.block)?;
    Ok(())
}

/// All faults of the statements in one of a kind.
#[cycle(walk)]
fn note_block<S: Scope>(
    alloc: Global,
    least: &mut Option<Fault>,
    scope: &S,
    file: u32,
    kind: Kind,
    block: &Statements,
) -> Result<(), Memory>
    ensures { OnOk result (Notes least.old least.new (λ tests.
        block_faults (S.knows scope.now) (S.settles scope.now) (S.named scope.now tests) file
        (block_of block.now) kind)) }
{
    for statement in block.items() {
        note_below(alloc, least, scope, file, kind, statement)?;
    }
    Ok(())
}

/// All faults of a statement in one of a kind: Unsupported alone, where it may not stand there.
#[cycle(walk)]
fn note_below<S: Scope>(
    alloc: Global,
    least: &mut Option<Fault>,
    scope: &S,
    file: u32,
    kind: Kind,
    statement: &Statement,
) -> Result<(), Memory>
    ensures { OnOk result (Notes least.old least.new (λ tests.
        below_faults (S.knows scope.now) (S.settles scope.now) (S.named scope.now tests) file kind
        (declaration statement.now))) }
{
    match kind_below(kind, statement.keyword.as_str()) {
        None => {
            note(least, file, statement.line, ModelWhy::Unsupported);
            Ok(())
        }
        Some(below) => {
            let settled = scope.settle(below, statement);
            note_statement(alloc, least, scope, file, settled, statement)
        }
    }
}
