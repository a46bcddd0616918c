//! What is wrong with the musts of the models.
ghost use Rattle.std.specs.Prelude.{◌≡◌, [], ◌∷◌, ◌++◌, List, Option, ℕ, option_map, IfOk, OnOk, if◌then◌else◌};
ghost use Rattle.std.specs.List.{flat_map};
ghost use Rattle.std.specs.Option.{option_map_or};
ghost use Rattle.yang_text.specs.Declarations.{block};
ghost use Rattle.yang_text.specs.Statements.{declaration};
ghost use Rattle.yang_text.specs.declared.errors.ModelWhy.TheVariants.{UnknownName, BadExpr};
ghost use Rattle.yang_scope.specs.Faults.{fault_at, least_of};
ghost use Rattle.xpath_part.specs.Expression.{Expression};
ghost use Rattle.xpath_part.specs.Expressions.{expression};
ghost use Rattle.yang_must.specs.Musts.{ReadsExpressions, route_faults, must_faults, if_must, if_leaf, in_shape_faults, shape_faults, table_faults, container_faults, all_must_faults};
ghost use Rattle.yang_must.specs.Routes.{routes};
ghost use Rattle.yang_must.specs.SpotRefs.{spot_at};

use crate::findings::Findings;
use crate::model_tree::ModelTree;
use crate::must_values::{findings_in, read_expression};
use crate::nodes::{ContainerNode, ShapeNode, TableNode};
use crate::spots::SpotRef;
use host_core::Memory;
use std::alloc::Global;
use xpath_part::Expr;
use yang_scope::{Fault, note};
use yang_text::{ModelWhy, Statement};

/// A fault at a statement, where it was found.
fn note_where(
    found: bool,
    least: &mut Option<Fault>,
    file: u32,
    statement: &Statement,
    why: ModelWhy,
)
    ensures { least.new ≡ least_of least.old
        (if found then fault_at file why (declaration statement.now) ∷ [] else []) }
{
    if found {
        note(least, file, statement.line, why);
    }
}

/// What was found in the paths of a must.
fn note_findings(least: &mut Option<Fault>, file: u32, statement: &Statement, findings: &Findings)
    ensures { least.new ≡ least_of least.old
        ((if findings.now.unknown
        then fault_at file UnknownName (declaration statement.now) ∷ [] else [])
        ++ (if findings.now.misplaced
        then fault_at file BadExpr (declaration statement.now) ∷ [] else [])) }
{
    note_where(
        findings.unknown,
        least,
        file,
        statement,
        ModelWhy::UnknownName,
    );
    note_where(
        findings.misplaced,
        least,
        file,
        statement,
        ModelWhy::BadExpr,
    );
}

/// What is wrong with the paths of the expression of a must.
fn note_routes(
    alloc: Global,
    least: &mut Option<Fault>,
    tree: &ModelTree,
    owner: &ContainerNode,
    spot: &SpotRef,
    statement: &Statement,
    expr: &Expr,
) -> Result<(), Memory>
    ensures { OnOk result (least.new ≡ least_of least.old
        (route_faults tree.now owner.now.file owner.now.number (declaration statement.now)
        (routes tree.now owner.now.number (spot_at spot.now) (expression expr.now)
        (spot_at spot.now)))) }
{
    let findings = findings_in(alloc, tree, owner.number(), spot, expr)?;
    note_findings(least, owner.file(), statement, &findings);
    drop(findings);
    Ok(())
}

/// What is wrong with a must whose argument is an expression, or is none.
fn note_read(
    alloc: Global,
    least: &mut Option<Fault>,
    tree: &ModelTree,
    owner: &ContainerNode,
    spot: &SpotRef,
    statement: &Statement,
    read: &Option<Expr>,
) -> Result<(), Memory>
    ensures { OnOk result (least.new ≡ least_of least.old
        (option_map_or (λ e. route_faults tree.now owner.now.file owner.now.number
        (declaration statement.now)
        (routes tree.now owner.now.number (spot_at spot.now) e (spot_at spot.now)))
        (option_map expression read.now)
        (fault_at owner.now.file BadExpr (declaration statement.now) ∷ []))) }
{
    match read {
        Some(expr) => note_routes(alloc, least, tree, owner, spot, statement, expr),
        None => {
            note(least, owner.file(), statement.line, ModelWhy::BadExpr);
            Ok(())
        }
    }
}

/// What is wrong with a must in a container of a module.
fn note_must(
    alloc: Global,
    least: &mut Option<Fault>,
    tree: &ModelTree,
    owner: &ContainerNode,
    spot: &SpotRef,
    statement: &Statement,
) -> Result<(), Memory>
    ensures { IfOk result (λ _. (read : List ℕ → Option Expression) → ReadsExpressions read
        → least.new ≡ least_of least.old
        (must_faults read tree.now owner.now.file owner.now.number (spot_at spot.now)
        (declaration statement.now))) }
{
    let Some(text) = &statement.argument else {
        return Ok(());
    };
    match read_expression(alloc, text.as_str()) {
        Ok(read) => {
            let noted = note_read(alloc, least, tree, owner, spot, statement, &read);
            drop(read);
            noted
        }
        Err(memory) => Err(memory),
    }
}

/// What is wrong with a statement that is a must.
fn note_if_must(
    alloc: Global,
    least: &mut Option<Fault>,
    tree: &ModelTree,
    owner: &ContainerNode,
    spot: &SpotRef,
    statement: &Statement,
) -> Result<(), Memory>
    ensures { IfOk result (λ _. (read : List ℕ → Option Expression) → ReadsExpressions read
        → least.new ≡ least_of least.old
        (if_must read tree.now owner.now (spot_at spot.now) (declaration statement.now))) }
{
    if statement.keyword.as_str() == "must" {
        note_must(alloc, least, tree, owner, spot, statement)
    } else {
        Ok(())
    }
}

/// What is wrong with the musts among the statements in one at a spot.
fn note_musts_in(
    alloc: Global,
    least: &mut Option<Fault>,
    tree: &ModelTree,
    owner: &ContainerNode,
    spot: &SpotRef,
    statement: &Statement,
) -> Result<(), Memory>
    ensures { IfOk result (λ _. (read : List ℕ → Option Expression) → ReadsExpressions read
        → least.new ≡ least_of least.old
        (flat_map (if_must read tree.now owner.now (spot_at spot.now))
        (block (declaration statement.now)))) }
{
    for inner in statement.block.items() {
        note_if_must(alloc, least, tree, owner, spot, inner)?;
    }
    Ok(())
}

/// What is wrong with the musts of a statement that is a leaf.
fn note_if_leaf(
    alloc: Global,
    least: &mut Option<Fault>,
    tree: &ModelTree,
    owner: &ContainerNode,
    spot: &SpotRef,
    statement: &Statement,
) -> Result<(), Memory>
    ensures { IfOk result (λ _. (read : List ℕ → Option Expression) → ReadsExpressions read
        → least.new ≡ least_of least.old
        (if_leaf read tree.now owner.now (spot_at spot.now) (declaration statement.now))) }
{
    if statement.keyword.as_str() == "leaf" {
        note_musts_in(alloc, least, tree, owner, spot, statement)
    } else {
        Ok(())
    }
}

/// What is wrong with a statement in a list or a fixed container that is a must or a leaf.
fn note_in_shape(
    alloc: Global,
    least: &mut Option<Fault>,
    tree: &ModelTree,
    owner: &ContainerNode,
    table: &TableNode,
    shape: &ShapeNode,
    statement: &Statement,
) -> Result<(), Memory>
    ensures { IfOk result (λ _. (read : List ℕ → Option Expression) → ReadsExpressions read
        → least.new ≡ least_of least.old
        (in_shape_faults read tree.now owner.now table.now shape.now (declaration statement.now))) }
{
    let spot = SpotRef::Shape(owner, table, shape);
    note_if_must(alloc, least, tree, owner, &spot, statement)?;
    let leaf = SpotRef::Leaf(owner, table, shape, statement);
    note_if_leaf(alloc, least, tree, owner, &leaf, statement)
}

/// What is wrong with the musts of a list or a fixed container.
fn note_shape(
    alloc: Global,
    least: &mut Option<Fault>,
    tree: &ModelTree,
    owner: &ContainerNode,
    table: &TableNode,
    shape: &ShapeNode,
) -> Result<(), Memory>
    ensures { IfOk result (λ _. (read : List ℕ → Option Expression) → ReadsExpressions read
        → least.new ≡ least_of least.old
        (shape_faults read tree.now owner.now table.now shape.now)) }
{
    for statement in shape.statement().block.items() {
        note_in_shape(alloc, least, tree, owner, table, shape, statement)?;
    }
    Ok(())
}

/// What is wrong with the musts of a table.
fn note_table(
    alloc: Global,
    least: &mut Option<Fault>,
    tree: &ModelTree,
    owner: &ContainerNode,
    table: &TableNode,
) -> Result<(), Memory>
    ensures { IfOk result (λ _. (read : List ℕ → Option Expression) → ReadsExpressions read
        → least.new ≡ least_of least.old (table_faults read tree.now owner.now table.now)) }
{
    for shape in table.shapes() {
        note_shape(alloc, least, tree, owner, table, shape)?;
    }
    Ok(())
}

/// What is wrong with the musts in a container of a module.
fn note_container(
    alloc: Global,
    least: &mut Option<Fault>,
    tree: &ModelTree,
    owner: &ContainerNode,
) -> Result<(), Memory>
    ensures { IfOk result (λ _. (read : List ℕ → Option Expression) → ReadsExpressions read
        → least.new ≡ least_of least.old (container_faults read tree.now owner.now)) }
{
    for table in owner.tables() {
        note_table(alloc, least, tree, owner, table)?;
    }
    Ok(())
}

/// Keeps the least of the fault so far and of what is wrong with the musts of the models.
pub fn note_musts(alloc: Global, least: &mut Option<Fault>, tree: &ModelTree) -> Result<(), Memory>
    ensures { IfOk result (λ _. (read : List ℕ → Option Expression) → ReadsExpressions read
        → least.new ≡ least_of least.old (all_must_faults read tree.now)) }
{
    for container in tree.containers() {
        note_container(alloc, least, tree, container)?;
    }
    Ok(())
}
