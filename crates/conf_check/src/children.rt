//! The children of the nodes of each level: the first of a name, and the next behind one.
ghost use Rattle.std.specs.Prelude.{◌≡◌, ◌+◌, ◌<◌, ◌^◌, [], length, slice_get, Some, IfSome};
ghost use Rattle.std.specs.Option.{option_to_list, option_map_or};
ghost use Rattle.conf_check.specs.ConfigTree.{entry_node};
ghost use Rattle.conf_check.specs.NodeTrees.{IsNodeOf, IsLeafOf, is_owner, is_named_at, keys_in, modules_of, tables_of, entries_of, entries_behind, leaves_of, leaf_nodes};

use crate::config_nodes::ConfigNodes;
use crate::leaves::{HeldText, held_at, shaped_entry};
use crate::name_places::{place_of_leaf, place_of_name, place_of_table};
use crate::node_numbers::{LEAF, entry_node, item_node, leaf_node, module_node, table_node};
use xpath_part::Node;

/// What an entry has of a leaf of its shape, with the place of the leaf.
#[derive(Clone, Copy, Drop)]
pub(crate) struct HeldLeaf<'a> {
    pub(crate) leaf: usize,
    pub(crate) held: HeldText<'a>,
}

/// The container of the module of a name, a child of the root.
pub(crate) fn module_named(nodes: &ConfigNodes, name: &str) -> Option<Node>
    ensures children { option_to_list result ≡ modules_of nodes.now name.now }
    ensures node { IfSome result (IsNodeOf nodes.now) }
{
    match place_of_name(name, nodes.models.modules().items()) {
        Some(place) => Some(module_node(place)),
        None => None,
    }
}

/// Whether a table is one of the module at a place.
fn is_owner(nodes: &ConfigNodes, owner: usize, name: &str) -> bool
    ensures { result ≡ is_owner owner name.now nodes.now.models.now }
{
    match nodes.models.module_of(name) {
        Some(place) => place as usize == owner,
        None => false,
    }
}

/// The container of the table of a name, a child of the container of its module.
pub(crate) fn table_named(nodes: &ConfigNodes, owner: usize, name: &str) -> Option<Node>
    ensures children { option_to_list result ≡ tables_of nodes.now owner name.now }
    ensures node { IfSome result (IsNodeOf nodes.now) }
{
    if !is_owner(nodes, owner, name) {
        return None;
    }
    match place_of_table(nodes.config, name) {
        Some(place) => Some(table_node(place)),
        None => None,
    }
}

/// How many keys the table at a place has.
fn count_keys(nodes: &ConfigNodes, table: usize) -> usize
    ensures { result ≡ keys_in nodes.now table }
{
    if table < nodes.config.len() {
        nodes.config.part_at(table).len()
    } else {
        0
    }
}

/// Whether the entry at a place belongs to a shape of that name.
fn is_named_at(nodes: &ConfigNodes, table: usize, key: usize, name: &str) -> bool
    ensures { result ≡ is_named_at nodes.now table key name.now }
{
    match shaped_entry(nodes.models, nodes.config, table, key) {
        Some(entry) => name == entry.shape.name.as_str(),
        None => false,
    }
}

/// The first entry of a table from a key on whose shape has the name.
pub(crate) fn entry_named(
    nodes: &ConfigNodes,
    table: usize,
    name: &str,
    from: usize,
) -> Option<Node>
    ensures first { result ≡ slice_get (entries_behind nodes.now table name.now from) 0 }
    ensures entry { IfSome result (λ n. n ≡ entry_node table n.key) }
    ensures fits { keys_in nodes.now table < 2 ^ 64 }
{
    for key in from..count_keys(nodes, table) {
        if is_named_at(nodes, table, key, name) {
            return Some(entry_node(table, key));
        }
    }
    None
}

/// The next entry of a table whose shape has the name, behind one.
pub(crate) fn next_entry(
    nodes: &ConfigNodes,
    table: usize,
    name: &str,
    i: usize,
    entry: Node,
) -> Option<Node>
    requires { slice_get (entries_of nodes.now table name.now) i ≡ Some entry }
    ensures next { result ≡ slice_get (entries_of nodes.now table name.now) (i + 1) }
    ensures entry { IfSome result (λ n. n ≡ entry_node table n.key) }
{
    if entry.key < count_keys(nodes, table) {
        entry_named(nodes, table, name, entry.key + 1)
    } else {
        None
    }
}

/// What the entry at a place has of the leaf of a name.
fn leaf_named<'a>(
    nodes: &ConfigNodes<'a>,
    table: usize,
    key: usize,
    name: &str,
) -> Option<HeldLeaf<'a>>
    ensures { option_map_or (leaf_nodes table key) result []
        ≡ leaves_of nodes.now table key name.now }
{
    let entry = shaped_entry(nodes.models, nodes.config, table, key)?;
    let leaf = place_of_leaf(name, entry.shape)?;
    Some(HeldLeaf {
        leaf,
        held: held_at(&entry, leaf),
    })
}

/// The node of a leaf, or of an item of a leaf-list.
fn node_of(table: usize, key: usize, leaf: HeldLeaf, i: usize) -> Option<Node>
    ensures node { result ≡ slice_get (leaf_nodes table key leaf.entry) i }
    ensures leaf { IfSome result (IsLeafOf table) }
    ensures fits { length (leaf_nodes table key leaf.entry) < 2 ^ 64 }
{
    match leaf.held {
        HeldText::Absent => None,
        HeldText::One(_) => {
            if i == 0 {
                Some(leaf_node(table, key, leaf.leaf))
            } else {
                None
            }
        }
        HeldText::Items(texts) => {
            if i < texts.len() {
                Some(item_node(table, key, leaf.leaf, i))
            } else {
                None
            }
        }
    }
}

/// The leaf of a name, or the first item of a leaf-list.
pub(crate) fn first_leaf(nodes: &ConfigNodes, table: usize, key: usize, name: &str) -> Option<Node>
    ensures first { result ≡ slice_get (leaves_of nodes.now table key name.now) 0 }
    ensures leaf { IfSome result (IsLeafOf table) }
    ensures fits { length (leaves_of nodes.now table key name.now) < 2 ^ 64 }
{
    match leaf_named(nodes, table, key, name) {
        Some(leaf) => node_of(table, key, leaf, 0),
        None => None,
    }
}

/// The next item of a leaf-list, behind the one at a place.
fn next_item(table: usize, key: usize, leaf: HeldLeaf, i: usize) -> Option<Node>
    ensures next { result ≡ slice_get (leaf_nodes table key leaf.entry) (i + 1) }
    ensures leaf { IfSome result (IsLeafOf table) }
{
    match leaf.held {
        HeldText::Absent => None,
        HeldText::One(_) => None,
        HeldText::Items(texts) => {
            if i < texts.len() {
                node_of(table, key, leaf, i + 1)
            } else {
                None
            }
        }
    }
}

/// The next item of a leaf-list, behind one. Behind a leaf there is none.
pub(crate) fn next_leaf(
    nodes: &ConfigNodes,
    table: usize,
    key: usize,
    name: &str,
    i: usize,
    leaf: Node,
) -> Option<Node>
    requires { slice_get (leaves_of nodes.now table key name.now) i ≡ Some leaf }
    ensures next { result ≡ slice_get (leaves_of nodes.now table key name.now) (i + 1) }
    ensures leaf { IfSome result (IsLeafOf table) }
{
    if leaf.level == LEAF {
        return None;
    }
    match leaf_named(nodes, table, key, name) {
        Some(leaf) => next_item(table, key, leaf, i),
        None => None,
    }
}
