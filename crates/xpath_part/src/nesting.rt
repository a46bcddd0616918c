//! What opens and closes a nesting of an expression.
ghost use Rattle.std.specs.Prelude.{◌≡◌, IfOk};
ghost use Rattle.xpath_part.specs.Nesting.{fresh, function_of, first_name, called, called_name, opened_group, opened, predicate_of, closed_value, closed_whole, closed, left_group, left_predicate, with_predicate};

use crate::phases::{Level, Named, Phase, Role, Whole, end_name, start, value_of, with_test};
use crate::{Branch, Expr, Operand, Origin};
use host_core::Memory;
use std::alloc::Global;

/// What a nesting is: parentheses, those of `not`, or a predicate of a step.
#[derive(Drop)]
pub(crate) enum Opening {
    Group,
    Negation,
    Predicate(Named),
}

/// A nesting that is open, and what stands before it.
#[derive(Drop)]
pub(crate) struct Frame {
    pub(crate) level: Level,
    pub(crate) opening: Opening,
}

/// What a parenthesis opens: a nesting, or what has no expression in it.
#[derive(Drop)]
pub(crate) enum Opened {
    Nested(Frame),
    Flat(Phase),
}

/// What a parenthesis closes: a nesting of an expression, or what has none in it.
#[derive(Drop)]
pub(crate) enum Closed {
    Value(Branch),
    Flat(Phase),
}

/// A name that is a function before a parenthesis.
#[derive(Clone, Copy)]
pub(crate) enum Function {
    Not,
    Count,
    Current,
}

/// Where a nesting begins.
pub(crate) fn fresh() -> Phase
    ensures { result ≡ fresh }
{
    Phase::Due(
        Level {
            ors: None,
            ands: None,
        },
        Role::Left,
    )
}

/// The function of a name.
fn function_of(name: &str) -> Option<Function>
    ensures { result ≡ function_of name.now }
{
    if name == "not" {
        Some(Function::Not)
    } else if name == "count" {
        Some(Function::Count)
    } else if name == "current" {
        Some(Function::Current)
    } else {
        None
    }
}

/// The function that a step is before a parenthesis: it is the first one of its path, and has neither
/// prefix nor predicates.
fn first_name(named: &Named) -> Option<Function>
    ensures { result ≡ first_name named.now }
{
    if !named.place.walk.steps.items().is_empty() || !named.tests.items().is_empty() {
        return None;
    }
    match (named.place.walk.origin, &named.prefix) {
        (Origin::Context, None) => function_of(named.name.as_str()),
        _ => None,
    }
}

/// A call of a function where an operand is due, and for `not` and `count` on the left.
fn call(level: Level, role: Role, function: Function) -> Option<Opened>
    ensures { result ≡ called function level role }
{
    match (function, role) {
        (Function::Current, role) => Some(Opened::Flat(Phase::Current(level, role))),
        (Function::Not, Role::Left) => Some(Opened::Nested(Frame {
            level,
            opening: Opening::Negation,
        })),
        (Function::Count, Role::Left) => Some(Opened::Flat(Phase::Due(
            level,
            Role::Counted(false),
        ))),
        (_, other) => {
            drop(level);
            drop(other);
            None
        }
    }
}

/// A parenthesis where an operand is due: a group of tests stands only on the left.
fn open_group(level: Level, role: Role) -> Option<Opened>
    ensures { result ≡ opened_group level role }
{
    match role {
        Role::Left => Some(Opened::Nested(Frame {
            level,
            opening: Opening::Group,
        })),
        other => {
            drop(level);
            drop(other);
            None
        }
    }
}

/// What the path of a step is for.
fn role_of(named: Named) -> Role
    ensures { result ≡ named.place.role }
{
    named.place.role
}

/// A name before a parenthesis.
fn call_named(level: Level, named: Named) -> Option<Opened>
    ensures { result ≡ called_name level named }
{
    match first_name(&named) {
        Some(function) => call(level, role_of(named), function),
        None => {
            drop(level);
            drop(named);
            None
        }
    }
}

/// A parenthesis that opens.
pub(crate) fn open(phase: Phase) -> Option<Opened>
    ensures { result ≡ opened phase }
{
    match phase {
        Phase::Due(level, role) => open_group(level, role),
        Phase::Name(level, named) => call_named(level, named),
        other => {
            drop(other);
            None
        }
    }
}

/// A bracket that opens.
pub(crate) fn open_predicate(phase: Phase) -> Option<Frame>
    ensures { result ≡ predicate_of phase }
{
    match phase {
        Phase::Name(level, named) => Some(Frame {
            level,
            opening: Opening::Predicate(named),
        }),
        other => {
            drop(other);
            None
        }
    }
}

/// The value of an expression, in parentheses that close.
fn close_value(alloc: Global, phase: Phase) -> Result<Option<Closed>, Memory>
    ensures { IfOk result (λ r. r ≡ closed_value phase) }
{
    match value_of(alloc, phase)? {
        Some(value) => Ok(Some(Closed::Value(value))),
        None => Ok(None),
    }
}

/// An operand before a parenthesis that closes: the path of `count`, or the end of an expression.
fn close_whole(alloc: Global, whole: Whole) -> Result<Option<Closed>, Memory>
    ensures { IfOk result (λ r. r ≡ closed_whole whole) }
{
    let Whole {
        level,
        role,
        operand,
    } = whole;
    match role {
        Role::Counted(_) => match operand {
            Operand::Walk(walk) => Ok(Some(Closed::Flat(Phase::Comparison(level, walk)))),
            Operand::Literal(_) => Ok(None),
        },
        Role::Left => close_value(
            alloc,
            Phase::Whole(Whole {
                level,
                role: Role::Left,
                operand,
            }),
        ),
        Role::Right(relation, left) => close_value(
            alloc,
            Phase::Whole(Whole {
                level,
                role: Role::Right(relation, left),
                operand,
            }),
        ),
    }
}

/// A parenthesis that closes.
pub(crate) fn close(alloc: Global, phase: Phase) -> Result<Option<Closed>, Memory>
    ensures { IfOk result (λ r. r ≡ closed phase) }
{
    match end_name(phase)? {
        Phase::Whole(whole) => close_whole(alloc, whole),
        Phase::Tested(tested) => close_value(alloc, Phase::Tested(tested)),
        Phase::Current(level, role) => Ok(Some(Closed::Flat(Phase::Whole(Whole {
            level,
            role,
            operand: Operand::Walk(start(alloc, Origin::Current)),
        })))),
        other => {
            drop(other);
            Ok(None)
        }
    }
}

/// The end of a nesting in parentheses.
pub(crate) fn leave_group(
    alloc: Global,
    frame: Frame,
    value: Branch,
) -> Result<Option<Phase>, Memory>
    ensures { IfOk result (λ p. p ≡ left_group frame value) }
{
    let Frame { level, opening } = frame;
    match opening {
        Opening::Group => Ok(Some(Phase::Tested(with_test(alloc, level, value)?))),
        Opening::Negation => {
            let test = Branch::new(alloc, Expr::Not(value))?;
            Ok(Some(Phase::Tested(with_test(alloc, level, test)?)))
        }
        Opening::Predicate(named) => {
            drop(level);
            drop(named);
            drop(value);
            Ok(None)
        }
    }
}

/// The end of a predicate.
pub(crate) fn leave_predicate(frame: Frame, value: Branch) -> Result<Option<Phase>, Memory>
    ensures { IfOk result (λ p. p ≡ left_predicate frame value) }
{
    let Frame { level, opening } = frame;
    match opening {
        Opening::Predicate(named) => Ok(Some(Phase::Name(level, with_predicate(named, value)?))),
        other => {
            drop(level);
            drop(other);
            drop(value);
            Ok(None)
        }
    }
}

/// A step with one predicate more.
fn with_predicate(named: Named, value: Branch) -> Result<Named, Memory>
    ensures { IfOk result (λ n. n ≡ with_predicate named value) }
{
    let mut named = named;
    match named.tests.push(value.into_expr()) {
        Ok(()) => Ok(named),
        Err(memory) => {
            drop(named);
            Err(memory)
        }
    }
}
