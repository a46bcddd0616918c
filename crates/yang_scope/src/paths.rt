//! Paths of leafrefs, and the key leaves that they lead to.
ghost use Rattle.std.specs.Prelude.{◌≡◌, ◌&&◌, List, ℕ, length, map, option_map, option_copied, find, IfOk};
ghost use Rattle.std.specs.List.{list_all};
ghost use Rattle.yang_text.specs.Declarations.{Declaration};
ghost use Rattle.yang_text.specs.Statements.{declaration};
ghost use Rattle.yang_scope.specs.Paths.{is_step, step_name, are_steps, is_path, is_named, child_named, is_key_of};
ghost use Rattle.yang_scope.specs.Pieces.{texts};
ghost use Rattle.yang_scope.specs.Statements.{is_keyword};

use crate::bases::is_among;
use crate::identifiers::is_identifier;
use crate::modules::first_of;
use crate::pieces::pieces;
use host_core::Memory;
use std::alloc::Global;
use yang_text::Statement;

/// Whether a text is a step of a path: an identifier, with or without a prefix.
fn is_step(text: &str) -> bool
    ensures { result ≡ is_step text.now }
{
    match text.split_once(':') {
        Some((prefix, name)) => is_identifier(prefix) && is_identifier(name),
        None => is_identifier(text),
    }
}

/// The name in a step.
pub fn step_name(text: &str) -> &str
    ensures { result.now ≡ step_name text.now }
{
    match text.split_once(':') {
        Some((_, name)) => name,
        None => text,
    }
}

/// Whether all texts are steps.
fn all_steps(steps: &[&str]) -> bool
    ensures { result ≡ list_all (λ s. is_step s.now) steps.now }
{
    steps.iter().all(|step| is_step(step))
}

/// Whether the pieces of a text between slashes are those of a path of four steps.
#[tactic(auto, using(crate::proofs::Blocks::all_mapped))]
fn are_steps(pieces: &[&str]) -> bool
    ensures { result ≡ are_steps (texts pieces.now) }
{
    match pieces {
        [] => false,
        [first, steps @ ..] => first.is_empty() && steps.len() == 4 && all_steps(steps),
    }
}

/// Whether a text is a path: a slash, and four steps joined by slashes.
pub(crate) fn is_path(alloc: Global, text: &str) -> Result<bool, Memory>
    ensures { IfOk result (λ found. found ≡ is_path text.now) }
{
    Ok(are_steps(pieces(alloc, '/', text)?.as_slice()))
}

/// Whether a statement has a keyword and a name.
fn is_statement(word: &str, name: &str, statement: &Statement) -> bool
    ensures { result ≡ (is_keyword word.now (declaration statement.now)
        && is_named name.now (declaration statement.now)) }
{
    if statement.keyword.as_str() != word {
        return false;
    }
    match &statement.argument {
        Some(argument) => name == argument.as_str(),
        None => false,
    }
}

/// The first statement of a keyword and a name among some.
fn statement_named<'a>(word: &str, name: &str, statements: &'a [Statement]) -> Option<&'a Statement>
    ensures { option_copied result
        ≡ find (λ s. is_keyword word.now (declaration s) && is_named name.now (declaration s))
        statements.now }
{
    statements
        .iter()
        .find(|statement| is_statement(word, name, statement))
}

/// The first statement of a keyword and a name in another one.
pub fn child_named<'a>(word: &str, name: &str, statement: &'a Statement) -> Option<&'a Statement>
    ensures { option_map (λ s. declaration s.now) result
        ≡ child_named word.now name.now (declaration statement.now) }
{
    statement_named(word, name, statement.block.items())
}

/// Whether the key of a list has a name.
pub(crate) fn is_key_of(alloc: Global, list: &Statement, name: &str) -> Result<bool, Memory>
    ensures { IfOk result (λ found. found ≡ is_key_of (declaration list.now) name.now) }
{
    match first_of("key", list.block.items()) {
        Some(key) => match &key.argument {
            Some(names) => Ok(is_among(pieces(alloc, ' ', names.as_str())?.as_slice(), name)),
            None => Ok(false),
        },
        None => Ok(false),
    }
}
