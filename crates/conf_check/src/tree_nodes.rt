//! The nodes of a configuration as the tree that an expression is asked over.
ghost use Rattle.std.specs.Prelude.{◌≡◌, ◌≢◌, ◌+◌, ◌<◌, ◌^◌, length, slice_get, None, Some, IfSome};
ghost use Rattle.conf_check.specs.ConfigTree.{held_text, root_node};
ghost use Rattle.std.specs.Option.{option_map_or};
ghost use Rattle.conf_check.specs.NodeTrees.{IsNodeOf, held_of, module_of, tree_of};

use crate::children::{entry_named, first_leaf, module_named, next_entry, next_leaf, table_named};
use crate::config_nodes::ConfigNodes;
use crate::leaves::{HeldText, held_at, shaped_entry};
use crate::node_numbers::{
    ENTRY, MODULE, ROOT, TABLE, entry_node, module_node, root_node, table_node,
};
use xpath_part::{Node, Nodes};

/// The first child of a name.
fn first_child(nodes: &ConfigNodes, at: Node, name: &str) -> Option<Node>
    requires { IsNodeOf nodes.now at }
    ensures first { result ≡ slice_get ((tree_of nodes.now).children at name.now) 0 }
    ensures node { IfSome result (IsNodeOf nodes.now) }
    ensures fits { length ((tree_of nodes.now).children at name.now) < 2 ^ 64 }
{
    if at.level == ROOT {
        module_named(nodes, name)
    } else if at.level == MODULE {
        table_named(nodes, at.table, name)
    } else if at.level == TABLE {
        entry_named(nodes, at.table, name, 0)
    } else if at.level == ENTRY {
        first_leaf(nodes, at.table, at.key, name)
    } else {
        None
    }
}

/// The child of a name behind the one at a place.
fn next_child(nodes: &ConfigNodes, at: Node, name: &str, i: usize, child: Node) -> Option<Node>
    requires node { IsNodeOf nodes.now at }
    requires place { slice_get ((tree_of nodes.now).children at name.now) i ≡ Some child }
    ensures next { result ≡ slice_get ((tree_of nodes.now).children at name.now) (i + 1) }
    ensures node { IfSome result (IsNodeOf nodes.now) }
{
    if at.level == TABLE {
        next_entry(nodes, at.table, name, i, child)
    } else if at.level == ENTRY {
        next_leaf(nodes, at.table, at.key, name, i, child)
    } else {
        None
    }
}

/// How many children of a name a node has.
fn count_children(nodes: &ConfigNodes, at: Node, name: &str) -> usize
    requires { IsNodeOf nodes.now at }
    ensures { result ≡ length ((tree_of nodes.now).children at name.now) }
{
    let mut count = 0;
    let mut next = first_child(nodes, at, name);
    while let Some(child) = next {
        next = next_child(nodes, at, name, count, child);
        count += 1;
    }
    count
}

/// The child of a name at a place.
fn child_at(nodes: &ConfigNodes, at: Node, name: &str, i: usize) -> Node
    requires node { IsNodeOf nodes.now at }
    requires place { i < length ((tree_of nodes.now).children at name.now) }
    ensures child { slice_get ((tree_of nodes.now).children at name.now) i ≡ Some result }
    ensures node { IsNodeOf nodes.now result }
{
    let mut child = first_child(nodes, at, name).unwrap();
    for place in 0..i {
        child = next_child(nodes, at, name, place, child).unwrap();
    }
    child
}

/// The container of the module of the table at a place, or the root where there is none.
fn module_of_table(nodes: &ConfigNodes, table: usize) -> Node
    ensures { result ≡ option_map_or (λ n. n) (module_of nodes.now table) root_node }
{
    if table >= nodes.config.len() {
        return root_node();
    }
    match nodes.models.module_of(nodes.config.name_at(table)) {
        Some(module) => module_node(module as usize),
        None => root_node(),
    }
}

/// The parent of a node.
fn parent_of(nodes: &ConfigNodes, at: Node) -> Node
    requires node { IsNodeOf nodes.now at }
    requires below { at ≢ root_node }
    ensures parent { (tree_of nodes.now).parent at ≡ Some result }
    ensures node { IsNodeOf nodes.now result }
{
    if at.level <= MODULE {
        root_node()
    } else if at.level == TABLE {
        module_of_table(nodes, at.table)
    } else if at.level == ENTRY {
        table_node(at.table)
    } else {
        entry_node(at.table, at.key)
    }
}

/// The text of what is held, or of an item of it.
fn held_text<'a>(held: HeldText<'a>, item: usize) -> &'a str
    ensures { result.now ≡ held_text item (held_of held.entry) }
{
    match held {
        HeldText::Absent => "",
        HeldText::One(text) => text,
        HeldText::Items(texts) => match texts.items().get(item) {
            Some(text) => text.as_str(),
            None => "",
        },
    }
}

/// The text of a leaf or an item.
fn text_of<'a>(nodes: &ConfigNodes<'a>, at: Node) -> &'a str
    ensures { result.now ≡ (tree_of nodes.now).text at }
{
    match shaped_entry(nodes.models, nodes.config, at.table, at.key) {
        Some(entry) => held_text(held_at(&entry, at.leaf), at.item),
        None => "",
    }
}

impl<'a> Nodes for ConfigNodes<'a> {
    ghost use Rattle.conf_check.specs.NodeTrees.{IsNodeOf, tree_of};

    ghost tree = { tree_of };

    ghost is_node = { IsNodeOf };

    fn root(&self) -> Node {
        root_node()
    }

    fn parent(&self, at: Node) -> Node {
        parent_of(self, at)
    }

    fn count(&self, at: Node, name: &str) -> usize {
        count_children(self, at, name)
    }

    fn child(&self, at: Node, name: &str, i: usize) -> Node {
        child_at(self, at, name, i)
    }

    fn text(&self, at: Node) -> &str {
        text_of(self, at)
    }

    fn first(&self, at: Node, name: &str) -> Option<Node> {
        first_child(self, at, name)
    }

    fn next(&self, at: Node, name: &str, i: usize, child: Node) -> Option<Node> {
        next_child(self, at, name, i, child)
    }
}
