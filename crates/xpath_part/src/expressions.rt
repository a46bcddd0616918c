//! An expression and its parts.
ghost use Rattle.std.specs.Prelude.{◌≡◌, ◌<◌, [], ◌∷◌, ◌++◌, length, map, slice_get, Some, IfOk, OnOk, OnErr};
ghost use Rattle.xpath_part.specs.Expressions.{expression, step_of};

use crate::{Cmp, Origin};
use host_core::{Memory, Txt};
use std::alloc::Global;
use std::marker::Model;

/// An expression (XPath 1.0, section 3). `or` and `and` group to the left, and parentheses leave no
/// trace. Contracts see it as its `expression`.
#[cycle(expression)]
pub enum Expr {
    Or(Branch, Branch),
    And(Branch, Branch),
    Not(Branch),
    Alone(Operand),
    Equal(Operand, Operand),
    Differ(Operand, Operand),
    Count(Walk, Cmp, u32),
}

/// An expression within another one. Contracts see the expression.
#[derive(Drop)]
#[cycle(expression)]
pub struct Branch {
    expr: Box<Expr>,
}

/// What stands alone, or on a side of a comparison.
#[derive(Drop)]
#[cycle(expression)]
pub enum Operand {
    Walk(Walk),
    Literal(Txt),
}

/// A path (XPath 1.0, section 2).
#[derive(Drop)]
#[cycle(expression)]
pub struct Walk {
    pub origin: Origin,
    pub steps: Steps,
}

/// A step of a path: `..`, `.`, or a name with its predicates.
#[derive(Drop)]
#[cycle(expression)]
pub enum Step {
    Up,
    Stay,
    Child {
        prefix: Option<Txt>,
        name: Txt,
        tests: Tests,
    },
}

/// The steps of a path, in order. Contracts see the list of them.
#[derive(Drop)]
#[cycle(expression)]
pub struct Steps {
    steps: Vec<Step>,
}

/// The predicates of a step, in order. Contracts see the list of their expressions.
#[derive(Drop)]
#[cycle(expression)]
pub struct Tests {
    tests: Vec<Expr>,
}

/// `or` and `and` group to the left, so what is given up goes down there in a loop.
impl Drop for Expr {
    #[cycle(expression)]
    fn drop(mut self) {
        loop {
            match self {
                Expr::Or(left, right) => {
                    drop(right);
                    self = left.into_expr();
                }
                Expr::And(left, right) => {
                    drop(right);
                    self = left.into_expr();
                }
                Expr::Not(inner) => self = inner.into_expr(),
                Expr::Alone(operand) => {
                    drop(operand);
                    return;
                }
                Expr::Equal(left, right) => {
                    drop(left);
                    drop(right);
                    return;
                }
                Expr::Differ(left, right) => {
                    drop(left);
                    drop(right);
                    return;
                }
                Expr::Count(path, _, _) => {
                    drop(path);
                    return;
                }
            }
        }
    }
}

impl Model for Branch {
    ghost use Rattle.xpath_part.specs.Coding.{coded_expression};
    ghost use Rattle.xpath_part.specs.Expression.{Expression, weight};

    ghost Value = { Expression };

    ghost coded = { coded_expression };

    ghost use Rattle.xpath_part.specs.Expressions.{expression};

    ghost view = { λ a. expression a.expr.value };

    ghost size = { weight };

    ghost use Rattle.xpath_part.specs.Falls.{branch_falls};

    ghost size_decreases = { λ a h. branch_falls a.expr.value };
}

impl Model for Steps {
    ghost use Rattle.std.specs.Prelude.{List, map};
    ghost use Rattle.std.specs.Coded.{coded_list};
    ghost use Rattle.xpath_part.specs.Coding.{coded_stride};
    ghost use Rattle.xpath_part.specs.Expression.{Stride, strides_weight, strides_of};

    ghost Value = { List Stride };

    ghost coded = { coded_list coded_stride };

    ghost use Rattle.xpath_part.specs.Expressions.{step_of};

    ghost view = { λ a. map step_of a.steps.items };

    ghost size = { λ ss. strides_weight (strides_of ss) };

    ghost use Rattle.xpath_part.specs.Falls.{steps_fall};

    ghost size_decreases = { λ a h. steps_fall a.steps.items };
}

impl Model for Tests {
    ghost use Rattle.std.specs.Prelude.{List, map};
    ghost use Rattle.std.specs.Coded.{coded_list};
    ghost use Rattle.xpath_part.specs.Coding.{coded_expression};
    ghost use Rattle.xpath_part.specs.Expression.{Expression, predicates_weight, predicates_of};

    ghost Value = { List Expression };

    ghost coded = { coded_list coded_expression };

    ghost use Rattle.xpath_part.specs.Expressions.{expression};

    ghost view = { λ a. map expression a.tests.items };

    ghost size = { λ es. predicates_weight (predicates_of es) };

    ghost use Rattle.xpath_part.specs.Falls.{tests_fall};

    ghost size_decreases = { λ a h. tests_fall a.tests.items };
}

impl Branch {
    /// The expression in a box of its own.
    pub fn new(alloc: Global, expr: Expr) -> Result<Branch, Memory>
        ensures { IfOk result (λ b. b ≡ expression expr) }
    {
        match Box::new(alloc, expr) {
            Ok(expr) => Ok(Branch { expr }),
            Err(failed) => {
                drop(failed);
                Err(Memory)
            }
        }
    }

    /// The expression, out of its box.
    pub fn into_expr(self) -> Expr
        ensures { expression result ≡ self }
    {
        let Branch { expr } = self;
        Box::into_inner(expr)
    }

    /// The expression.
    pub fn expr(&self) -> &Expr
        ensures { expression result.now ≡ self.now }
    {
        &self.expr
    }
}

impl Steps {
    /// The list of a vector's steps, with no copy.
    pub fn from_vec(steps: Vec<Step>) -> Steps
        ensures { result ≡ map step_of steps.items }
    {
        Steps { steps }
    }

    /// The vector of the steps, with no copy.
    pub fn into_vec(self) -> Vec<Step>
        ensures { map step_of result.items ≡ self }
    {
        let Steps { steps } = self;
        steps
    }

    /// No steps, which take no memory.
    pub fn new(alloc: Global) -> Steps
        ensures { result ≡ [] }
    {
        Steps {
            steps: Vec::new(alloc),
        }
    }

    /// How many steps there are.
    pub fn len(&self) -> usize
        ensures { result ≡ length self.now }
    {
        self.steps.len()
    }

    /// The whole list.
    pub fn items(&self) -> &[Step]
        ensures { map step_of result.now ≡ self.now }
    {
        self.steps.as_slice()
    }

    /// The step at an index, counted from 0.
    pub fn at(&self, i: usize) -> &Step
        requires { i < length self.now }
        ensures { slice_get self.now i ≡ Some (step_of result.now) }
    {
        &self.steps[i]
    }

    /// Adds a step at the end. Without memory the list stays as it was.
    pub fn push(&mut self, step: Step) -> Result<(), Memory>
        ensures ok { OnOk result (self.new ≡ self.old ++ step_of step ∷ []) }
        ensures err { OnErr result (self.new ≡ self.old) }
    {
        match self.steps.push(step) {
            Ok(()) => Ok(()),
            Err(failed) => {
                drop(failed);
                Err(Memory)
            }
        }
    }
}

impl Tests {
    /// The list of a vector's expressions, with no copy.
    pub fn from_vec(tests: Vec<Expr>) -> Tests
        ensures { result ≡ map expression tests.items }
    {
        Tests { tests }
    }

    /// The vector of the expressions, with no copy.
    pub fn into_vec(self) -> Vec<Expr>
        ensures { map expression result.items ≡ self }
    {
        let Tests { tests } = self;
        tests
    }

    /// No predicates, which take no memory.
    pub fn new(alloc: Global) -> Tests
        ensures { result ≡ [] }
    {
        Tests {
            tests: Vec::new(alloc),
        }
    }

    /// How many predicates there are.
    pub fn len(&self) -> usize
        ensures { result ≡ length self.now }
    {
        self.tests.len()
    }

    /// The whole list.
    pub fn items(&self) -> &[Expr]
        ensures { map expression result.now ≡ self.now }
    {
        self.tests.as_slice()
    }

    /// The predicate at an index, counted from 0.
    pub fn at(&self, i: usize) -> &Expr
        requires { i < length self.now }
        ensures { slice_get self.now i ≡ Some (expression result.now) }
    {
        &self.tests[i]
    }

    /// Adds a predicate at the end. Without memory the list stays as it was.
    pub fn push(&mut self, test: Expr) -> Result<(), Memory>
        ensures ok { OnOk result (self.new ≡ self.old ++ expression test ∷ []) }
        ensures err { OnErr result (self.new ≡ self.old) }
    {
        match self.tests.push(test) {
            Ok(()) => Ok(()),
            Err(failed) => {
                drop(failed);
                Err(Memory)
            }
        }
    }
}
