//! What has been read of an expression, between two of its tokens.
//!
//! What can't go on is given whole to `drop`. That is one call to the prover, where a removal at the end
//! of a block has an end for each part of each kind.
ghost use Rattle.std.specs.Prelude.{◌≡◌, IfOk};
ghost use Rattle.xpath_part.specs.Expressions.{step_of};
ghost use Rattle.xpath_part.specs.Phases.{joined_or, joined_and, with_test, behind_name, with_stride, with_name, ended, test_of, tested_of, settled, value_of, start_walk, step_due};

use crate::sought::Relation;
use crate::{Branch, Cmp, Expr, Operand, Origin, Step, Steps, Tests, Walk};
use host_core::{Memory, Txt};
use std::alloc::Global;

/// What stands before the test that is due: the operands of `or`, and those of `and` behind the last `or`.
#[derive(Drop)]
pub(crate) struct Level {
    pub(crate) ors: Option<Branch>,
    pub(crate) ands: Option<Branch>,
}

/// The same with the test.
#[derive(Drop)]
pub(crate) struct Tested {
    pub(crate) ors: Option<Branch>,
    pub(crate) ands: Branch,
}

/// What an operand is for: it stands alone or on the left of a comparison, on the right of one, or is
/// counted, and then it may have had a name.
#[derive(Drop)]
pub(crate) enum Role {
    Left,
    Right(Relation, Operand),
    Counted(bool),
}

/// A path in the making.
#[derive(Drop)]
pub(crate) struct Place {
    pub(crate) role: Role,
    pub(crate) walk: Walk,
}

/// A path in the making, and its last step, which predicates may follow.
#[derive(Drop)]
pub(crate) struct Named {
    pub(crate) place: Place,
    pub(crate) prefix: Option<Txt>,
    pub(crate) name: Txt,
    pub(crate) tests: Tests,
}

/// An operand that may be whole.
#[derive(Drop)]
pub(crate) struct Whole {
    pub(crate) level: Level,
    pub(crate) role: Role,
    pub(crate) operand: Operand,
}

/// What may come next.
#[derive(Drop)]
pub(crate) enum Phase {
    /// An operand, and on the left any test.
    Due(Level, Role),
    /// A step, behind a `/`.
    Step(Level, Place),
    /// Anything behind a name or a predicate.
    Name(Level, Named),
    /// Anything behind another step or a literal.
    Whole(Whole),
    /// The parenthesis that ends `current(`.
    Current(Level, Role),
    /// Anything behind a test.
    Tested(Tested),
    /// A comparison behind `count(..)`.
    Comparison(Level, Walk),
    /// The number behind that comparison.
    Number(Level, Walk, Cmp),
}

/// What `or` has on its left, with one operand more.
pub(crate) fn join_or(alloc: Global, ors: Option<Branch>, last: Branch) -> Result<Branch, Memory>
    ensures { IfOk result (λ b. b ≡ joined_or ors last) }
{
    match ors {
        Some(first) => Branch::new(alloc, Expr::Or(first, last)),
        None => Ok(last),
    }
}

/// What `and` has on its left, with one operand more.
fn join_and(alloc: Global, ands: Option<Branch>, last: Branch) -> Result<Branch, Memory>
    ensures { IfOk result (λ b. b ≡ joined_and ands last) }
{
    match ands {
        Some(first) => Branch::new(alloc, Expr::And(first, last)),
        None => Ok(last),
    }
}

/// The level with the test that was due.
pub(crate) fn with_test(alloc: Global, level: Level, test: Branch) -> Result<Tested, Memory>
    ensures { IfOk result (λ t. t ≡ with_test level test) }
{
    let Level { ors, ands } = level;
    let ands = join_and(alloc, ands, test)?;
    Ok(Tested { ors, ands })
}

/// A role behind a name.
fn behind_name(role: Role) -> Role
    ensures { result ≡ behind_name role }
{
    match role {
        Role::Left => Role::Left,
        Role::Right(relation, left) => Role::Right(relation, left),
        Role::Counted(_) => Role::Counted(true),
    }
}

/// A path with one step more.
pub(crate) fn with_stride(walk: Walk, step: Step) -> Result<Walk, Memory>
    ensures { IfOk result (λ w. w ≡ with_stride walk (step_of step)) }
{
    let Walk { origin, mut steps } = walk;
    steps.push(step)?;
    Ok(Walk { origin, steps })
}

/// The path with its last step.
fn with_name(level: Level, named: Named) -> Result<Whole, Memory>
    ensures { IfOk result (λ w. w ≡ with_name level named) }
{
    let Named {
        place,
        prefix,
        name,
        tests,
    } = named;
    let Place { role, walk } = place;
    let step = Step::Child {
        prefix,
        name,
        tests,
    };
    match with_stride(walk, step) {
        Ok(walk) => Ok(Whole {
            level,
            role: behind_name(role),
            operand: Operand::Walk(walk),
        }),
        Err(memory) => {
            drop(level);
            drop(role);
            Err(memory)
        }
    }
}

/// A name or predicate that no predicate follows.
pub(crate) fn end_name(phase: Phase) -> Result<Phase, Memory>
    ensures { IfOk result (λ p. p ≡ ended phase) }
{
    match phase {
        Phase::Name(level, named) => Ok(Phase::Whole(with_name(level, named)?)),
        Phase::Due(level, role) => Ok(Phase::Due(level, role)),
        Phase::Step(level, place) => Ok(Phase::Step(level, place)),
        Phase::Whole(whole) => Ok(Phase::Whole(whole)),
        Phase::Current(level, role) => Ok(Phase::Current(level, role)),
        Phase::Tested(tested) => Ok(Phase::Tested(tested)),
        Phase::Comparison(level, walk) => Ok(Phase::Comparison(level, walk)),
        Phase::Number(level, walk, cmp) => Ok(Phase::Number(level, walk, cmp)),
    }
}

/// The test that an operand ends.
fn test_of(alloc: Global, role: Role, operand: Operand) -> Result<Option<Branch>, Memory>
    ensures { IfOk result (λ t. t ≡ test_of role operand) }
{
    match role {
        Role::Left => Ok(Some(Branch::new(alloc, Expr::Alone(operand))?)),
        Role::Right(Relation::Same, left) => {
            Ok(Some(Branch::new(alloc, Expr::Equal(left, operand))?))
        }
        Role::Right(Relation::Different, left) => {
            Ok(Some(Branch::new(alloc, Expr::Differ(left, operand))?))
        }
        Role::Counted(_) => Ok(None),
    }
}

/// The same at its level.
fn tested_of(alloc: Global, whole: Whole) -> Result<Option<Tested>, Memory>
    ensures { IfOk result (λ t. t ≡ tested_of whole) }
{
    let Whole {
        level,
        role,
        operand,
    } = whole;
    match test_of(alloc, role, operand) {
        Ok(Some(test)) => Ok(Some(with_test(alloc, level, test)?)),
        Ok(None) => {
            drop(level);
            Ok(None)
        }
        Err(memory) => {
            drop(level);
            Err(memory)
        }
    }
}

/// A test that ends here.
pub(crate) fn settle(alloc: Global, phase: Phase) -> Result<Option<Tested>, Memory>
    ensures { IfOk result (λ t. t ≡ settled phase) }
{
    match phase {
        Phase::Name(level, named) => tested_of(alloc, with_name(level, named)?),
        Phase::Whole(whole) => tested_of(alloc, whole),
        Phase::Tested(tested) => Ok(Some(tested)),
        other => {
            drop(other);
            Ok(None)
        }
    }
}

/// A whole expression that ends here.
pub(crate) fn value_of(alloc: Global, phase: Phase) -> Result<Option<Branch>, Memory>
    ensures { IfOk result (λ e. e ≡ value_of phase) }
{
    match settle(alloc, phase)? {
        Some(tested) => {
            let Tested { ors, ands } = tested;
            Ok(Some(join_or(alloc, ors, ands)?))
        }
        None => Ok(None),
    }
}

/// No steps behind an origin.
pub(crate) fn start(alloc: Global, origin: Origin) -> Walk
    ensures { result ≡ start_walk origin }
{
    Walk {
        origin,
        steps: Steps::new(alloc),
    }
}

/// Where a step may stand here: its level and its path so far.
pub(crate) fn step_due(alloc: Global, phase: Phase) -> Option<(Level, Place)>
    ensures { result ≡ step_due phase }
{
    match phase {
        Phase::Due(level, role) => {
            let walk = start(alloc, Origin::Context);
            Some((level, Place { role, walk }))
        }
        Phase::Step(level, place) => Some((level, place)),
        other => {
            drop(other);
            None
        }
    }
}
