//! Statements compared by all that they are.
ghost use Rattle.std.specs.Prelude.{◌≡◌};
ghost use Rattle.yang_text.specs.Declarations.{block_of};
ghost use Rattle.yang_text.specs.Statements.{declaration};
ghost use Rattle.yang_values.specs.Sameness.{same_argument, same_declaration, same_block};

use host_core::Txt;
use yang_text::{Statement, Statements};

fn same_argument(one: &Option<Txt>, other: &Option<Txt>) -> bool
    ensures { result ≡ same_argument one.now other.now }
{
    match one {
        Some(text) => match other {
            Some(same) => text.as_str() == same.as_str(),
            None => false,
        },
        None => other.is_none(),
    }
}

/// Whether two statements are the same, with all that stands in them and their places in the text.
#[cycle(comparing)]
pub(crate) fn same_declaration(one: &Statement, other: &Statement) -> bool
    ensures { result ≡ same_declaration (declaration one.now) (declaration other.now) }
{
    if one.keyword.as_str() != other.keyword.as_str() {
        return false;
    }
    if !same_argument(&one.argument, &other.argument) {
        return false;
    }
    if one.line != other.line {
        return false;
    }
    if one.start != other.start {
        return false;
    }
    if one.end != other.end {
        return false;
    }
    same_block(&one.block, &other.block)
}

/// Whether two blocks have the same statements in order.
#[cycle(comparing)]
fn same_block(one: &Statements, other: &Statements) -> bool
    ensures { result ≡ same_block (block_of one.now) (block_of other.now) }
{
    let statements = one.items();
    let others = other.items();
    if statements.len() != others.len() {
        return false;
    }
    for (i, statement) in statements.iter().enumerate() {
        if !same_declaration(statement, &others[i]) {
            return false;
        }
    }
    true
}
