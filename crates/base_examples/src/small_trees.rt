//! A small tree of nodes, made of a list of them, and expressions that are true or false at its nodes.
ghost use Rattle.std.specs.Prelude.{◌≡◌};
ghost use Rattle.base_examples.specs.SmallTrees.{children_of, is_family};

use example_rows::{Fail, has, items_of, number_at, text_at, text_or, truth_at};
use host_core::{Sequence, Txt};
use serde_json::Value;
use std::alloc::Global;
use xpath_part::{Expr, ExprError, Node, Nodes, holds};

/// The level of a node that is no leaf.
const ELEMENT: u8 = 1;

/// The level of a leaf.
const LEAF: u8 = 4;

/// The children that a node has under a name.
#[derive(Drop)]
pub struct Family {
    pub parent: Node,
    pub name: Txt,
    pub children: Sequence<Node>,
}

/// The nodes by their number, which stands in `table`: each one's parent and text. The root has the
/// number 0. Of two families of one node and name the first counts.
#[derive(Drop)]
pub struct SmallTree {
    pub nodes: Sequence<Node>,
    pub parents: Sequence<Node>,
    pub texts: Sequence<Txt>,
    pub families: Sequence<Family>,
}

/// A row has an `expression`, the number of the node that it is asked at, 0 for the root, and whether it
/// `holds` there.
pub fn is_truth_as_said(alloc: Global, nodes: &Value, row: &Value) -> Result<bool, Fail> {
    let tree = small_tree(alloc, items_of(nodes)?)?;
    let said = is_said_in(alloc, &tree, row);
    drop(tree);
    said
}

/// Whether an expression holds in a tree as a row says.
fn is_said_in(alloc: Global, tree: &SmallTree, row: &Value) -> Result<bool, Fail> {
    let said = truth_at(row, "holds")?;
    let at = tree.node(number_at(row, "at")?)?;
    match Expr::read(alloc, text_at(row, "expression")?) {
        Ok(expr) => {
            let found = holds(&expr, tree, at);
            drop(expr);
            Ok(found == said)
        }
        Err(ExprError::Bad { .. }) => Ok(false),
        Err(ExprError::Memory) => Err(Fail::Memory),
    }
}

/// The tree of nodes, each with a `name`, the number of its `parent` and, where it is a leaf, a `text`.
fn small_tree(alloc: Global, rows: &[Value]) -> Result<SmallTree, Fail> {
    let mut tree = SmallTree {
        nodes: Sequence::new(alloc),
        parents: Sequence::new(alloc),
        texts: Sequence::new(alloc),
        families: Sequence::new(alloc),
    };
    match push_all(alloc, rows, &mut tree) {
        Ok(()) => Ok(tree),
        Err(fail) => {
            drop(tree);
            Err(fail)
        }
    }
}

/// Adds the root, which is its own parent and has no text, and a node for each row.
fn push_all(alloc: Global, rows: &[Value], tree: &mut SmallTree) -> Result<(), Fail> {
    push_nodes(rows, &mut tree.nodes)?;
    tree.parents.push(node_of(0, 0))?;
    tree.texts.push(Txt::new(alloc, "")?)?;
    for row in rows {
        push_row(alloc, rows, row, tree)?;
    }
    Ok(())
}

/// Adds the root and the node of each row.
fn push_nodes(rows: &[Value], nodes: &mut Sequence<Node>) -> Result<(), Fail> {
    nodes.push(node_of(0, 0))?;
    for (i, row) in rows.iter().enumerate() {
        nodes.push(node_at(i, row))?;
    }
    Ok(())
}

/// Adds the parent, the text and the family of a row. The text is empty where the node is no leaf.
fn push_row(alloc: Global, rows: &[Value], row: &Value, tree: &mut SmallTree) -> Result<(), Fail> {
    let parent = tree.node(number_at(row, "parent")?)?;
    tree.parents.push(parent)?;
    let text = text_or(row, "text", "");
    tree.texts.push(Txt::new(alloc, text)?)?;
    tree.families.push(family_of(alloc, rows, row, parent)?)?;
    Ok(())
}

/// The node of a level and a number.
fn node_of(level: u8, table: usize) -> Node
    ensures { result ≡ record { level = level; table = table; key = 0; leaf = 0; item = 0 } }
{
    Node {
        level,
        table,
        key: 0,
        leaf: 0,
        item: 0,
    }
}

/// The node of the row at an index.
fn node_at(i: usize, row: &Value) -> Node {
    let level = if has(row, "text") { LEAF } else { ELEMENT };
    node_of(level, i.saturating_add(1))
}

/// The children with the parent and the name of a row.
fn family_of(alloc: Global, rows: &[Value], row: &Value, parent: Node) -> Result<Family, Fail> {
    let name = Txt::new(alloc, text_at(row, "name")?)?;
    let children = children_at(alloc, rows, row)?;
    Ok(Family {
        parent,
        name,
        children,
    })
}

/// The nodes of the rows that have the parent and the name of a row.
fn children_at(alloc: Global, rows: &[Value], row: &Value) -> Result<Sequence<Node>, Fail> {
    let number = number_at(row, "parent")?;
    let name = text_at(row, "name")?;
    let mut children = Sequence::new(alloc);
    for (i, other) in rows.iter().enumerate() {
        if number_at(other, "parent")? == number && text_at(other, "name")? == name {
            children.push(node_at(i, other))?;
        }
    }
    Ok(children)
}

/// The children of a node under a name.
fn children<'a>(families: &'a [Family], at: Node, name: &str) -> &'a [Node]
    ensures { result.now ≡ children_of families.now at name.now }
{
    match families {
        [] => &[],
        [first, rest @ ..] => {
            if is_family(first, at, name) {
                first.children.items()
            } else {
                children(rest, at, name)
            }
        }
    }
}

fn is_family(family: &Family, at: Node, name: &str) -> bool
    ensures { result ≡ is_family family.now at name.now }
{
    family.parent.level == at.level
        && family.parent.table == at.table
        && family.name.as_str() == name
}

impl SmallTree {
    /// The node of a number.
    pub fn node(&self, number: u64) -> Result<Node, Fail> {
        self.nodes
            .items()
            .get(number as usize)
            .copied()
            .ok_or(Fail::Row)
    }
}

impl Nodes for SmallTree {
    ghost use Rattle.base_examples.specs.SmallTrees.{tree_of};

    ghost tree = { tree_of };

    ghost is_node = { λ _ _. Unit {0} };

    fn root(&self) -> Node {
        node_of(0, 0)
    }

    fn parent(&self, at: Node) -> Node {
        match self.parents.items().get(at.table) {
            Some(parent) => *parent,
            None => node_of(0, 0),
        }
    }

    fn count(&self, at: Node, name: &str) -> usize {
        children(self.families.items(), at, name).len()
    }

    fn child(&self, at: Node, name: &str, i: usize) -> Node {
        children(self.families.items(), at, name)[i]
    }

    fn text(&self, at: Node) -> &str {
        match self.texts.items().get(at.table) {
            Some(text) => text.as_str(),
            None => "",
        }
    }
}
