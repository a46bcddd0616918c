//! Expressions that are read, with their tree, or refused.
use crate::pairs::open_all;
use example_rows::{Fail, has, is_null, is_number, is_word, item_of, items_of, text_at, value_at};
use serde_json::Value;
use std::alloc::Global;
use xpath_part::{Cmp, Expr, ExprError, Operand, Origin, Step, Walk};

/// A row has an `expression` and its `tree`, or one that is `bad`. In a tree a path is its origin and
/// its steps, a name with a prefix or null before it and its predicates behind it.
pub fn is_expression_as_said(alloc: Global, row: &Value) -> Result<bool, Fail> {
    match Expr::read(alloc, text_at(row, "expression")?) {
        Ok(expr) => {
            let said = is_said(alloc, row, &expr);
            drop(expr);
            said
        }
        Err(ExprError::Bad { .. }) => Ok(has(row, "bad")),
        Err(ExprError::Memory) => Err(Fail::Memory),
    }
}

/// The expressions that are yet to be compared, each beside what is said of it.
type Open<'a> = Vec<(&'a Expr, &'a Value)>;

/// Whether an expression has the tree of the row.
fn is_said(alloc: Global, row: &Value, expr: &Expr) -> Result<bool, Fail> {
    let said = value_at(row, "tree")?;
    let mut open = Vec::new(alloc);
    open.push((expr, said))?;
    for _ in 0..u64::MAX {
        let Some((expr, said)) = open.pop() else {
            return Ok(true);
        };
        if !is_node(&mut open, expr, said)? {
            return Ok(false);
        }
    }
    Ok(false)
}

/// Whether the outermost of an expression is as said. What it is made of is yet to be compared.
fn is_node<'a>(open: &mut Open<'a>, expr: &'a Expr, said: &'a Value) -> Result<bool, Fail> {
    let same = is_word(item_of(said, 0)?, name_of(expr));
    Ok(same && are_parts(open, expr, said)?)
}

fn name_of(expr: &Expr) -> &'static str {
    match expr {
        Expr::Or(_, _) => "or",
        Expr::And(_, _) => "and",
        Expr::Not(_) => "not",
        Expr::Alone(_) => "alone",
        Expr::Equal(_, _) => "=",
        Expr::Differ(_, _) => "!=",
        Expr::Count(_, _, _) => "count",
    }
}

/// Whether the parts of an expression are as said, as far as they aren't expressions, which are yet to be
/// compared.
fn are_parts<'a>(open: &mut Open<'a>, expr: &'a Expr, said: &'a Value) -> Result<bool, Fail> {
    match expr {
        Expr::Or(left, right) => open_two(open, left.expr(), right.expr(), said),
        Expr::And(left, right) => open_two(open, left.expr(), right.expr(), said),
        Expr::Not(inner) => open_at(open, inner.expr(), said, 1),
        Expr::Alone(operand) => is_operand_at(open, operand, said, 1),
        Expr::Equal(left, right) => are_operands(open, left, right, said),
        Expr::Differ(left, right) => are_operands(open, left, right, said),
        Expr::Count(walk, comparison, number) => is_count(open, walk, *comparison, *number, said),
    }
}

/// Puts an expression beside the part of what is said at a place.
fn open_at<'a>(
    open: &mut Open<'a>,
    expr: &'a Expr,
    said: &'a Value,
    place: usize,
) -> Result<bool, Fail> {
    open.push((expr, item_of(said, place)?))?;
    Ok(true)
}

/// Puts two expressions beside the first two parts of what is said.
fn open_two<'a>(
    open: &mut Open<'a>,
    left: &'a Expr,
    right: &'a Expr,
    said: &'a Value,
) -> Result<bool, Fail> {
    Ok(open_at(open, left, said, 1)? && open_at(open, right, said, 2)?)
}

/// Whether two operands are the first two parts of what is said.
fn are_operands<'a>(
    open: &mut Open<'a>,
    left: &'a Operand,
    right: &'a Operand,
    said: &'a Value,
) -> Result<bool, Fail> {
    Ok(is_operand_at(open, left, said, 1)? && is_operand_at(open, right, said, 2)?)
}

/// Whether an operand is the part of what is said at a place.
fn is_operand_at<'a>(
    open: &mut Open<'a>,
    operand: &'a Operand,
    said: &'a Value,
    place: usize,
) -> Result<bool, Fail> {
    is_operand(open, operand, item_of(said, place)?)
}

/// Whether a count of nodes is the first three parts of what is said.
fn is_count<'a>(
    open: &mut Open<'a>,
    walk: &'a Walk,
    comparison: Cmp,
    number: u32,
    said: &'a Value,
) -> Result<bool, Fail> {
    let sign = is_word(item_of(said, 2)?, sign_of(comparison));
    let same = is_number(item_of(said, 3)?, u64::from(number));
    Ok(sign && same && is_walk(open, walk, item_of(said, 1)?)?)
}

fn sign_of(comparison: Cmp) -> &'static str {
    match comparison {
        Cmp::Equal => "=",
        Cmp::Differ => "!=",
        Cmp::Less => "<",
        Cmp::AtMost => "<=",
        Cmp::More => ">",
        Cmp::AtLeast => ">=",
    }
}

fn is_operand<'a>(
    open: &mut Open<'a>,
    operand: &'a Operand,
    said: &'a Value,
) -> Result<bool, Fail> {
    match operand {
        Operand::Walk(walk) => is_walk(open, walk, said),
        Operand::Literal(text) => {
            let literal = is_word(item_of(said, 0)?, "literal");
            Ok(literal && is_word(item_of(said, 1)?, text.as_str()))
        }
    }
}

/// Whether a path is as said: `path`, its origin and its steps.
fn is_walk<'a>(open: &mut Open<'a>, walk: &'a Walk, said: &'a Value) -> Result<bool, Fail> {
    let [name, origin, steps @ ..] = items_of(said)? else {
        return Ok(false);
    };
    let path = is_word(name, "path") && is_word(origin, origin_of(walk.origin));
    let found = walk.steps.items();
    for (step, said) in found.iter().zip(steps) {
        if !is_step(open, step, said)? {
            return Ok(false);
        }
    }
    Ok(path && found.len() == steps.len())
}

fn origin_of(origin: Origin) -> &'static str {
    match origin {
        Origin::Root => "root",
        Origin::Context => "context",
        Origin::Current => "current",
    }
}

fn is_step<'a>(open: &mut Open<'a>, step: &'a Step, said: &'a Value) -> Result<bool, Fail> {
    match step {
        Step::Up => Ok(is_word(said, "..")),
        Step::Stay => Ok(is_word(said, ".")),
        Step::Child {
            prefix,
            name,
            tests,
        } => {
            let [said_prefix, said_name, said_tests @ ..] = items_of(said)? else {
                return Ok(false);
            };
            let same_prefix = match prefix {
                Some(prefix) => is_word(said_prefix, prefix.as_str()),
                None => is_null(said_prefix),
            };
            let same_name = is_word(said_name, name.as_str());
            let same_tests = open_all(open, tests.items(), said_tests)?;
            Ok(same_prefix && same_name && same_tests)
        }
    }
}
