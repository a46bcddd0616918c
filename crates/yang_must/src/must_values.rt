//! What a must is as a value.
ghost use Rattle.std.specs.Prelude.{◌≡◌, ◌↔◌, List, Option, ℕ, option_map, IfOk};
ghost use Rattle.yang_text.specs.Statements.{declaration};
ghost use Rattle.xpath_part.specs.Expression.{Expression};
ghost use Rattle.xpath_part.specs.Expressions.{expression};
ghost use Rattle.yang_must.specs.Findings.{Finds, IsFound};
ghost use Rattle.yang_must.specs.Musts.{ReadsExpressions, must_by, must_of};
ghost use Rattle.yang_must.specs.MustValues.{must_value};
ghost use Rattle.yang_must.specs.Routes.{routes};
ghost use Rattle.yang_must.specs.SpotRefs.{spot_at};

use crate::findings::Findings;
use crate::model_tree::ModelTree;
use crate::routes::Resolver;
use crate::spots::SpotRef;
use host_core::{Memory, Names};
use std::alloc::Global;
use xpath_part::{Expr, ExprError};
use yang_text::Statement;

/// A must as a value.
#[derive(Drop)]
pub struct MustValue {
    pub expr: Expr,
    /// The tables on whose containers a path of it stands, sorted, each once.
    pub reads: Names,
}

/// The expression that a text spells, where it spells one.
pub(crate) fn read_expression(alloc: Global, text: &str) -> Result<Option<Expr>, Memory>
    ensures { IfOk result (λ e. (read : List ℕ → Option Expression) → ReadsExpressions read
        → option_map expression e ≡ read text.now) }
{
    match Expr::read(alloc, text) {
        Ok(expr) => Ok(Some(expr)),
        Err(ExprError::Bad { .. }) => Ok(None),
        Err(ExprError::Memory) => Err(Memory),
    }
}

/// What is found in the expression of a must at a spot.
pub(crate) fn findings_in(
    alloc: Global,
    tree: &ModelTree,
    number: usize,
    spot: &SpotRef,
    expr: &Expr,
) -> Result<Findings, Memory>
    ensures { IfOk result (λ found. IsFound tree.now number found
        (routes tree.now number (spot_at spot.now) (expression expr.now) (spot_at spot.now))) }
{
    let mut findings = Findings::new(alloc);
    let resolver = Resolver {
        tree,
        number,
        current: spot,
    };
    match resolver.note_expression(alloc, &mut findings, spot, expr) {
        Ok(()) => Ok(findings),
        Err(memory) => {
            drop(findings);
            Err(memory)
        }
    }
}

/// The tables that an expression reads as a must at a spot, where all its paths are right.
fn reads_of(
    alloc: Global,
    tree: &ModelTree,
    number: usize,
    spot: &SpotRef,
    expr: &Expr,
) -> Result<Option<Names>, Memory>
    ensures { IfOk result (λ reads.
        option_map (λ names. record { expression = expression expr.now; reads = names }) reads
        ≡ must_by tree.now number (expression expr.now) (routes tree.now number (spot_at spot.now)
        (expression expr.now) (spot_at spot.now))) }
{
    let findings = findings_in(alloc, tree, number, spot, expr)?;
    if findings.unknown || findings.misplaced {
        drop(findings);
        return Ok(None);
    }
    let reads = findings.reads.in_order(alloc);
    drop(findings);
    Ok(Some(reads?))
}

/// What an expression is as a must at a spot.
fn value_of(
    alloc: Global,
    tree: &ModelTree,
    number: usize,
    spot: &SpotRef,
    expr: Expr,
) -> Result<Option<MustValue>, Memory>
    ensures { IfOk result (λ v. option_map must_value v ≡ must_by tree.now number (expression expr)
        (routes tree.now number (spot_at spot.now) (expression expr) (spot_at spot.now))) }
{
    match reads_of(alloc, tree, number, spot, &expr) {
        Ok(Some(reads)) => Ok(Some(MustValue { expr, reads })),
        Ok(None) => {
            drop(expr);
            Ok(None)
        }
        Err(memory) => {
            drop(expr);
            Err(memory)
        }
    }
}

/// What a must of a module is at a spot: that of its list or fixed container, or of its leaf. None where
/// it has no argument, or one with a fault.
pub fn must_of(
    alloc: Global,
    tree: &ModelTree,
    number: usize,
    spot: SpotRef,
    statement: &Statement,
) -> Result<Option<MustValue>, Memory>
    ensures { IfOk result (λ v. (read : List ℕ → Option Expression) → ReadsExpressions read
        → option_map must_value v
        ≡ must_of read tree.now number (spot_at spot.entry) (declaration statement.now)) }
{
    match &statement.argument {
        Some(text) => match read_expression(alloc, text.as_str())? {
            Some(expr) => value_of(alloc, tree, number, &spot, expr),
            None => Ok(None),
        },
        None => Ok(None),
    }
}
