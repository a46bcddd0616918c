//! What is wrong with a statement by the table of statements.
ghost use Rattle.std.specs.Prelude.{◌≡◌, map};
ghost use Rattle.std.specs.List.{list_any};
ghost use Rattle.std.specs.Str.{bytes_eq};
ghost use Rattle.yang_text.specs.Statements.{declaration};
ghost use Rattle.yang_faults.specs.Entries.{needed};
ghost use Rattle.yang_scope.specs.Faults.{least_of};
ghost use Rattle.yang_faults.specs.Sentences.{repeated, repeated_in, missing_one, missing_in};

use crate::kinds::Kind;
use crate::rows::{Need, needs, row};
use yang_scope::{Fault, note};
use yang_text::{ModelWhy, Statement};

/// The later statements of a keyword.
fn note_repeated(least: &mut Option<Fault>, file: u32, name: &str, statements: &[Statement])
    ensures { least.new ≡ least_of least.old
        (repeated file name.now (map declaration statements.now)) }
{
    let mut seen = false;
    for statement in statements {
        if statement.keyword.as_str() == name {
            if seen {
                note(least, file, statement.line, ModelWhy::Repeated);
            }
            seen = true;
        }
    }
}

/// The later statements of the keywords that may stand there once at most.
pub(crate) fn note_repeated_in(
    least: &mut Option<Fault>,
    file: u32,
    kind: Kind,
    statements: &[Statement],
)
    ensures { least.new ≡ least_of least.old
        (repeated_in file kind (map declaration statements.now)) }
{
    for entry in row(kind) {
        if entry.single {
            note_repeated(least, file, entry.keyword, statements);
        }
    }
}

/// Whether a statement has one of the keywords of a need.
pub(crate) fn meets(need: &Need, keyword: &str) -> bool
    ensures { result ≡ list_any (bytes_eq keyword.now) (needed need.now) }
{
    if keyword == need.keyword {
        return true;
    }
    match need.other {
        Some(other) => keyword == other,
        None => false,
    }
}

/// Whether one of the statements has one of the keywords of a need.
fn is_met(need: &Need, statements: &[Statement]) -> bool
    ensures { result
        ≡ list_any (λ s. list_any (bytes_eq s.keyword) (needed need.now)) statements.now }
{
    for statement in statements {
        if meets(need, statement.keyword.as_str()) {
            return true;
        }
    }
    false
}

/// A need that no statement meets.
#[tactic(auto, using(crate::proofs::FaultLists::any_mapped))]
fn note_need(least: &mut Option<Fault>, file: u32, line: u32, need: &Need, statements: &[Statement])
    ensures { least.new ≡ least_of least.old
        (missing_one file line (map declaration statements.now) (needed need.now)) }
{
    if !is_met(need, statements) {
        note(least, file, line, ModelWhy::Missing);
    }
}

/// The statements that a statement has to hold and lacks.
pub(crate) fn note_missing(
    least: &mut Option<Fault>,
    file: u32,
    kind: Kind,
    line: u32,
    statements: &[Statement],
)
    ensures { least.new ≡ least_of least.old
        (missing_in file kind line (map declaration statements.now)) }
{
    for need in needs(kind) {
        note_need(least, file, line, need, statements);
    }
}
