//! What a token that opens and closes nothing makes of what has been read.
ghost use Rattle.std.specs.Prelude.{◌≡◌, IfOk};
ghost use Rattle.xpath_part.specs.Following.{slash_behind, slash, is_past_name, with_step, up, stay, connective_of, connected, operator, named, word, literal_due, literal, relation_of, compared, comparison, number};
ghost use Rattle.xpath_part.specs.Expressions.{step_of};

use crate::phases::{
    Level, Named, Phase, Place, Role, Tested, Whole, end_name, join_or, settle, start, step_due,
    with_stride, with_test,
};
use crate::sought::Relation;
use crate::{Branch, Cmp, Expr, Operand, Origin, Step, Tests, Walk};
use host_core::{Memory, Txt};
use std::alloc::Global;

/// A word between two tests.
#[derive(Clone, Copy)]
pub(crate) enum Connective {
    Or,
    And,
}

/// A `/` behind an operand.
fn behind_operand(whole: Whole) -> Option<Phase>
    ensures { result ≡ slash_behind whole }
{
    let Whole {
        level,
        role,
        operand,
    } = whole;
    match operand {
        Operand::Walk(walk) => Some(Phase::Step(level, Place { role, walk })),
        other => {
            drop(level);
            drop(role);
            drop(other);
            None
        }
    }
}

/// A `/`.
pub(crate) fn slash(alloc: Global, phase: Phase) -> Result<Option<Phase>, Memory>
    ensures { IfOk result (λ p. p ≡ slash phase) }
{
    match end_name(phase)? {
        Phase::Due(level, role) => {
            let walk = start(alloc, Origin::Root);
            Ok(Some(Phase::Step(level, Place { role, walk })))
        }
        Phase::Whole(whole) => Ok(behind_operand(whole)),
        other => {
            drop(other);
            Ok(None)
        }
    }
}

/// Whether a counted path has had a name, behind which no `..` stands.
fn is_past_name(role: &Role) -> bool
    ensures { result ≡ is_past_name role.now }
{
    match role {
        Role::Left => false,
        Role::Right(_, _) => false,
        Role::Counted(past) => *past,
    }
}

/// A step that is no name.
fn with_step(level: Level, place: Place, step: Step) -> Result<Phase, Memory>
    ensures { IfOk result (λ p. p ≡ with_step level place (step_of step)) }
{
    let Place { role, walk } = place;
    match with_stride(walk, step) {
        Ok(walk) => Ok(Phase::Whole(Whole {
            level,
            role,
            operand: Operand::Walk(walk),
        })),
        Err(memory) => {
            drop(level);
            drop(role);
            Err(memory)
        }
    }
}

/// A `..`.
pub(crate) fn up(alloc: Global, phase: Phase) -> Result<Option<Phase>, Memory>
    ensures { IfOk result (λ p. p ≡ up phase) }
{
    match step_due(alloc, phase) {
        Some((level, place)) => {
            if is_past_name(&place.role) {
                drop(level);
                drop(place);
                return Ok(None);
            }
            Ok(Some(with_step(level, place, Step::Up)?))
        }
        None => Ok(None),
    }
}

/// A `.`.
pub(crate) fn stay(alloc: Global, phase: Phase) -> Result<Option<Phase>, Memory>
    ensures { IfOk result (λ p. p ≡ stay phase) }
{
    match step_due(alloc, phase) {
        Some((level, place)) => Ok(Some(with_step(level, place, Step::Stay)?)),
        None => Ok(None),
    }
}

/// The operator that a name is behind an operand.
fn connective_of(prefix: Option<Txt>, name: Txt) -> Option<Connective>
    ensures { result ≡ connective_of prefix name }
{
    match prefix {
        Some(_) => None,
        None => {
            if name.as_str() == "or" {
                Some(Connective::Or)
            } else if name.as_str() == "and" {
                Some(Connective::And)
            } else {
                None
            }
        }
    }
}

/// A test and an operator behind it.
fn connect(alloc: Global, connective: Connective, tested: Tested) -> Result<Phase, Memory>
    ensures { IfOk result (λ p. p ≡ connected connective tested) }
{
    let Tested { ors, ands } = tested;
    let level = match connective {
        Connective::Or => Level {
            ors: Some(join_or(alloc, ors, ands)?),
            ands: None,
        },
        Connective::And => Level {
            ors,
            ands: Some(ands),
        },
    };
    Ok(Phase::Due(level, Role::Left))
}

/// A name behind an operand.
fn operator(
    alloc: Global,
    phase: Phase,
    prefix: Option<Txt>,
    name: Txt,
) -> Result<Option<Phase>, Memory>
    ensures { IfOk result (λ p. p ≡ operator phase prefix name) }
{
    match connective_of(prefix, name) {
        Some(connective) => match settle(alloc, phase)? {
            Some(tested) => Ok(Some(connect(alloc, connective, tested)?)),
            None => Ok(None),
        },
        None => {
            drop(phase);
            Ok(None)
        }
    }
}

/// A name.
pub(crate) fn word(
    alloc: Global,
    phase: Phase,
    prefix: Option<Txt>,
    name: Txt,
) -> Result<Option<Phase>, Memory>
    ensures { IfOk result (λ p. p ≡ word phase prefix name) }
{
    match phase {
        Phase::Due(level, role) => {
            let place = Place {
                role,
                walk: start(alloc, Origin::Context),
            };
            Ok(Some(named(alloc, level, place, prefix, name)))
        }
        Phase::Step(level, place) => Ok(Some(named(alloc, level, place, prefix, name))),
        Phase::Name(level, open) => operator(alloc, Phase::Name(level, open), prefix, name),
        Phase::Whole(whole) => operator(alloc, Phase::Whole(whole), prefix, name),
        Phase::Tested(tested) => operator(alloc, Phase::Tested(tested), prefix, name),
        other => {
            drop(other);
            Ok(None)
        }
    }
}

/// A step that is a name.
fn named(alloc: Global, level: Level, place: Place, prefix: Option<Txt>, name: Txt) -> Phase
    ensures { result ≡ named level place prefix name }
{
    let tests = Tests::new(alloc);
    Phase::Name(
        level,
        Named {
            place,
            prefix,
            name,
            tests,
        },
    )
}

/// A literal where an operand is due.
fn literal_due(level: Level, role: Role, text: Txt) -> Option<Phase>
    ensures { result ≡ literal_due level role text }
{
    match role {
        Role::Left => Some(Phase::Whole(Whole {
            level,
            role: Role::Left,
            operand: Operand::Literal(text),
        })),
        Role::Right(relation, left) => Some(Phase::Whole(Whole {
            level,
            role: Role::Right(relation, left),
            operand: Operand::Literal(text),
        })),
        Role::Counted(_) => None,
    }
}

/// A literal.
pub(crate) fn literal(phase: Phase, text: Txt) -> Option<Phase>
    ensures { result ≡ literal phase text }
{
    match phase {
        Phase::Due(level, role) => literal_due(level, role, text),
        other => {
            drop(other);
            None
        }
    }
}

/// The relation of texts that a comparison is.
fn relation_of(cmp: Cmp) -> Option<Relation>
    ensures { result ≡ relation_of cmp }
{
    match cmp {
        Cmp::Equal => Some(Relation::Same),
        Cmp::Differ => Some(Relation::Different),
        Cmp::Less => None,
        Cmp::AtMost => None,
        Cmp::More => None,
        Cmp::AtLeast => None,
    }
}

/// A comparison behind an operand, which is its left side.
fn compare_operand(whole: Whole, cmp: Cmp) -> Option<Phase>
    ensures { result ≡ compared whole cmp }
{
    match (relation_of(cmp), whole) {
        (
            Some(relation),
            Whole {
                level,
                role: Role::Left,
                operand,
            },
        ) => Some(Phase::Due(level, Role::Right(relation, operand))),
        (_, other) => {
            drop(other);
            None
        }
    }
}

/// A comparison.
pub(crate) fn comparison(phase: Phase, cmp: Cmp) -> Result<Option<Phase>, Memory>
    ensures { IfOk result (λ p. p ≡ comparison phase cmp) }
{
    match end_name(phase)? {
        Phase::Whole(whole) => Ok(compare_operand(whole, cmp)),
        Phase::Comparison(level, walk) => Ok(Some(Phase::Number(level, walk, cmp))),
        other => {
            drop(other);
            Ok(None)
        }
    }
}

/// A number.
pub(crate) fn number(alloc: Global, phase: Phase, n: u32) -> Result<Option<Phase>, Memory>
    ensures { IfOk result (λ p. p ≡ number phase n) }
{
    match phase {
        Phase::Number(level, walk, cmp) => {
            let test = Branch::new(alloc, Expr::Count(walk, cmp, n))?;
            Ok(Some(Phase::Tested(with_test(alloc, level, test)?)))
        }
        other => {
            drop(other);
            Ok(None)
        }
    }
}
