//! Statements found in others.
ghost use Rattle.std.specs.Prelude.{◌≡◌, option_map};
ghost use Rattle.yang_text.specs.Statements.{declaration};
ghost use Rattle.yang_scope.specs.Meanings.{statement_at};
ghost use Rattle.yang_scope.specs.Statements.{is_keyword, first_child};
ghost use Rattle.yang_values.specs.Values.{typedef_type};

use yang_scope::{Names, first_of};
use yang_text::Statement;

/// Whether a statement has a keyword.
pub(crate) fn is_keyword(word: &str, statement: &Statement) -> bool
    ensures { result ≡ is_keyword word.now (declaration statement.now) }
{
    statement.keyword.as_str() == word
}

/// The first statement of a keyword in another one.
pub(crate) fn first_child<'a>(keyword: &str, statement: &'a Statement) -> Option<&'a Statement>
    ensures { option_map (λ s. declaration s.now) result
        ≡ first_child keyword.now (declaration statement.now) }
{
    first_of(keyword, statement.block.items())
}

/// The statement at a place of a module.
fn statement_at<'a>(names: &Names<'a>, number: usize, place: usize) -> Option<&'a Statement>
    ensures { option_map (λ s. declaration s.now) result ≡ statement_at names.now number place }
{
    match names.module_at(number) {
        Some((_, module)) => {
            if place < module.block.len() {
                Some(module.block.at(place))
            } else {
                None
            }
        }
        None => None,
    }
}

/// The type statement of the typedef at a place of a module.
pub(crate) fn typedef_type<'a>(
    names: &Names<'a>,
    number: usize,
    place: usize,
) -> Option<&'a Statement>
    ensures { option_map (λ s. declaration s.now) result ≡ typedef_type names.now number place }
{
    match statement_at(names, number, place) {
        Some(statement) => first_child("type", statement),
        None => None,
    }
}
