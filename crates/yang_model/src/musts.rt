//! The musts of a list or a fixed container, from its statements.
ghost use Rattle.std.specs.Prelude.{◌≡◌, ◌++◌, map, option_map, IfOk, OnOk};
ghost use Rattle.std.specs.List.{flat_map};
ghost use Rattle.std.specs.Option.{option_to_list};
ghost use Rattle.yang_text.specs.Declarations.{block};
ghost use Rattle.yang_text.specs.Statements.{declaration};
ghost use Rattle.yang_must.specs.Musts.{must_of};
ghost use Rattle.yang_must.specs.MustValues.{must_value};
ghost use Rattle.yang_must.specs.SpotRefs.{spot_at};
ghost use Rattle.yang_model.specs.Readers.{Gives};
ghost use Rattle.yang_model.specs.Shapes.{must_rule, must_at, leaf_musts, musts_at};

use crate::shapes::MustRule;
use host_core::{Memory, Sequence, Txt};
use std::alloc::Global;
use yang_must::{ContainerNode, ModelTree, MustValue, ShapeNode, SpotRef, TableNode, must_of};
use yang_text::Statement;

/// The name of a leaf, as a text of its own.
fn copy_name(alloc: Global, name: &Option<Txt>) -> Result<Option<Txt>, Memory>
    ensures { IfOk result (λ copy. copy ≡ name.now) }
{
    match name {
        Some(name) => Ok(Some(name.copy(alloc)?)),
        None => Ok(None),
    }
}

/// A must as the rule of the leaf of a name, or of the entry.
fn rule_of(alloc: Global, leaf: &Option<Txt>, must: MustValue) -> Result<MustRule, Memory>
    ensures { IfOk result (λ rule. rule ≡ must_rule leaf.now (must_value must)) }
{
    match copy_name(alloc, leaf) {
        Ok(leaf) => Ok(MustRule {
            leaf,
            expr: must.expr,
            reads: must.reads,
        }),
        Err(memory) => {
            drop(must);
            Err(memory)
        }
    }
}

/// A must of the leaf of a name, or of the entry, where nothing is wrong with it.
fn must_rule(
    alloc: Global,
    tree: &ModelTree,
    number: usize,
    leaf: &Option<Txt>,
    spot: &SpotRef,
    statement: &Statement,
) -> Result<Option<MustRule>, Memory>
    ensures { IfOk result (λ rule. Gives rule (λ readers. option_map (must_rule leaf.now)
        (must_of readers.read tree.now number (spot_at spot.now) (declaration statement.now)))) }
{
    match must_of(alloc, tree, number, *spot, statement) {
        Ok(Some(must)) => Ok(Some(rule_of(alloc, leaf, must)?)),
        Ok(None) => Ok(None),
        Err(memory) => Err(memory),
    }
}

/// Adds a must that may be there.
fn push_some(musts: &mut Sequence<MustRule>, must: Option<MustRule>) -> Result<(), Memory>
    ensures { OnOk result (musts.new ≡ musts.old ++ option_to_list must) }
{
    match must {
        Some(must) => musts.push(must),
        None => Ok(()),
    }
}

/// Adds a statement at a spot, where it is a must.
fn push_must(
    alloc: Global,
    musts: &mut Sequence<MustRule>,
    tree: &ModelTree,
    number: usize,
    leaf: &Option<Txt>,
    spot: &SpotRef,
    statement: &Statement,
) -> Result<(), Memory>
    ensures { OnOk result (Gives musts.new (λ readers. musts.old ++ must_at tree.now readers number
        leaf.now (spot_at spot.now) (declaration statement.now))) }
{
    if statement.keyword.as_str() == "must" {
        let must = must_rule(alloc, tree, number, leaf, spot, statement)?;
        push_some(musts, must)
    } else {
        Ok(())
    }
}

/// Adds the musts among some statements at a spot.
fn push_musts(
    alloc: Global,
    musts: &mut Sequence<MustRule>,
    tree: &ModelTree,
    number: usize,
    leaf: &Option<Txt>,
    spot: &SpotRef,
    statements: &[Statement],
) -> Result<(), Memory>
    ensures { OnOk result (Gives musts.new (λ readers. musts.old
        ++ flat_map (must_at tree.now readers number leaf.now (spot_at spot.now))
        (map declaration statements.now))) }
{
    for statement in statements {
        push_must(alloc, musts, tree, number, leaf, spot, statement)?;
    }
    Ok(())
}

/// Adds the musts of a leaf.
fn push_leaf_musts<'t, 'a>(
    alloc: Global,
    musts: &mut Sequence<MustRule>,
    tree: &ModelTree<'a>,
    container: &'t ContainerNode<'a>,
    table: &'t TableNode<'a>,
    shape: &'t ShapeNode<'a>,
    statement: &'a Statement,
) -> Result<(), Memory>
    ensures { OnOk result (Gives musts.new (λ readers. musts.old ++ leaf_musts tree.now readers
        container.now table.now shape.now (declaration statement.now))) }
{
    if statement.keyword.as_str() == "leaf" {
        let number = container.number();
        let spot = SpotRef::Leaf(container, table, shape, statement);
        let block = statement.block.items();
        push_musts(
            alloc,
            musts,
            tree,
            number,
            &statement.argument,
            &spot,
            block,
        )?;
    }
    Ok(())
}

/// Adds a statement of a list or a fixed container: a must, or the musts of a leaf.
fn push_musts_at<'t, 'a>(
    alloc: Global,
    musts: &mut Sequence<MustRule>,
    tree: &ModelTree<'a>,
    container: &'t ContainerNode<'a>,
    table: &'t TableNode<'a>,
    shape: &'t ShapeNode<'a>,
    statement: &'a Statement,
) -> Result<(), Memory>
    ensures { OnOk result (Gives musts.new (λ readers. musts.old ++ musts_at tree.now readers
        container.now table.now shape.now (declaration statement.now))) }
{
    let number = container.number();
    let spot = &SpotRef::Shape(container, table, shape);
    push_must(alloc, musts, tree, number, &None, spot, statement)?;
    push_leaf_musts(alloc, musts, tree, container, table, shape, statement)?;
    Ok(())
}

/// The musts of a list or a fixed container and of its leaves, in the order of the text.
pub(crate) fn musts<'t, 'a>(
    alloc: Global,
    tree: &ModelTree<'a>,
    container: &'t ContainerNode<'a>,
    table: &'t TableNode<'a>,
    shape: &'t ShapeNode<'a>,
) -> Result<Sequence<MustRule>, Memory>
    ensures { IfOk result (λ rules. Gives rules (λ readers.
        flat_map (musts_at tree.now readers container.now table.now shape.now) (block shape.now))) }
{
    let mut rules = Sequence::new(alloc);
    for statement in shape.statement().block.items() {
        push_musts_at(alloc, &mut rules, tree, container, table, shape, statement)?;
    }
    Ok(rules)
}
