//! What is wrong with a type statement.
ghost use Rattle.std.specs.Prelude.{◌≡◌, Bool, List, ℕ, map, IfOk, OnOk};
ghost use Rattle.std.specs.List.{flat_map};
ghost use Rattle.yang_text.specs.Statements.{declaration};
ghost use Rattle.yang_scope.specs.Faults.{least_of};
ghost use Rattle.yang_scope.specs.TypeFaults.{unknown_type, DecidesPatterns, bad_if_pattern, bad_patterns, wrong_path, wrong_if_path, wrong_paths};

use crate::faults::{Fault, note};
use crate::meanings::Meaning;
use crate::names::Names;
use crate::paths::is_path;
use host_core::Memory;
use std::alloc::Global;
use yang_pattern::{Pattern, PatternError};
use yang_text::{ModelWhy, Statement};

/// A name of a type that stands for nothing.
pub fn note_unknown_type(
    least: &mut Option<Fault>,
    names: &Names,
    file: u32,
    number: usize,
    statement: &Statement,
)
    ensures { least.new ≡ least_of least.old
        (unknown_type names.now file number (declaration statement.now)) }
{
    if statement.argument.is_none() {
        return;
    }
    match names.type_meaning(number, &statement.argument) {
        Meaning::Nothing => note(least, file, statement.line, ModelWhy::UnknownName),
        Meaning::Ends(_) | Meaning::Goes(..) => {}
    }
}

/// Whether a text is a pattern.
fn is_pattern(alloc: Global, text: &str) -> Result<bool, Memory>
    ensures { IfOk result (λ found. (is_pattern : List ℕ → Bool) → DecidesPatterns is_pattern
        → found ≡ is_pattern text.now) }
{
    match Pattern::read(alloc, text) {
        Ok(pattern) => {
            drop(pattern);
            Ok(true)
        }
        Err(PatternError::Bad { .. }) => Ok(false),
        Err(PatternError::Memory) => Err(Memory),
    }
}

/// A pattern of a type that is none.
fn note_if_pattern(
    alloc: Global,
    least: &mut Option<Fault>,
    file: u32,
    statement: &Statement,
) -> Result<(), Memory>
    ensures { IfOk result (λ _. (is_pattern : List ℕ → Bool) → DecidesPatterns is_pattern
        → least.new ≡ least_of least.old
        (bad_if_pattern is_pattern file (declaration statement.now))) }
{
    match (statement.keyword.as_str(), &statement.argument) {
        ("pattern", Some(text)) => match is_pattern(alloc, text.as_str()) {
            Ok(true) => Ok(()),
            Ok(false) => {
                note(least, file, statement.line, ModelWhy::BadPattern);
                Ok(())
            }
            Err(failed) => Err(failed),
        },
        _ => Ok(()),
    }
}

/// The patterns of a type that are none.
pub fn note_bad_patterns(
    alloc: Global,
    least: &mut Option<Fault>,
    file: u32,
    statement: &Statement,
) -> Result<(), Memory>
    ensures { IfOk result (λ _. (is_pattern : List ℕ → Bool) → DecidesPatterns is_pattern
        → least.new ≡ least_of least.old
        (bad_patterns is_pattern file (declaration statement.now))) }
{
    for child in statement.block.items() {
        note_if_pattern(alloc, least, file, child)?;
    }
    Ok(())
}

/// A path that is none, or that leads to no key leaf.
fn note_path(
    alloc: Global,
    least: &mut Option<Fault>,
    names: &Names,
    file: u32,
    number: usize,
    statement: &Statement,
    text: &str,
) -> Result<(), Memory>
    ensures { OnOk result (least.new ≡ least_of least.old
        (wrong_path names.now file number (declaration statement.now) text.now)) }
{
    if !is_path(alloc, text)? {
        note(least, file, statement.line, ModelWhy::BadArgument);
        return Ok(());
    }
    match names.path_end(alloc, number, text) {
        Ok(Some(_)) => Ok(()),
        Ok(None) => {
            note(least, file, statement.line, ModelWhy::UnknownName);
            Ok(())
        }
        Err(failed) => Err(failed),
    }
}

/// A statement that is a path, and what is wrong with it.
fn note_if_path(
    alloc: Global,
    least: &mut Option<Fault>,
    names: &Names,
    file: u32,
    number: usize,
    statement: &Statement,
) -> Result<(), Memory>
    ensures { OnOk result (least.new ≡ least_of least.old
        (wrong_if_path names.now file number (declaration statement.now))) }
{
    match (statement.keyword.as_str(), &statement.argument) {
        ("path", Some(text)) => {
            note_path(alloc, least, names, file, number, statement, text.as_str())
        }
        _ => Ok(()),
    }
}

/// The paths of a leafref, and what is wrong with them.
pub fn note_wrong_paths(
    alloc: Global,
    least: &mut Option<Fault>,
    names: &Names,
    file: u32,
    number: usize,
    statement: &Statement,
) -> Result<(), Memory>
    ensures { OnOk result (least.new ≡ least_of least.old
        (wrong_paths names.now file number (declaration statement.now))) }
{
    for child in statement.block.items() {
        note_if_path(alloc, least, names, file, number, child)?;
    }
    Ok(())
}
