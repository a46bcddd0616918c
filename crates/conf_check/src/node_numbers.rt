//! The numbers of nodes.
ghost use Rattle.std.specs.Prelude.{◌≡◌};
ghost use Rattle.conf_check.specs.ConfigTree.{root_node, module_node, table_node, entry_node, leaf_node, item_node};

use xpath_part::Node;

/// The level of the root.
pub(crate) const ROOT: u8 = 0;

/// The level of the container of a module.
pub(crate) const MODULE: u8 = 1;

/// The level of the container of a table.
pub(crate) const TABLE: u8 = 2;

/// The level of an entry.
pub(crate) const ENTRY: u8 = 3;

/// The level of a leaf.
pub(crate) const LEAF: u8 = 4;

/// The level of an item of a leaf-list.
pub(crate) const ITEM: u8 = 5;

/// The root.
pub(crate) fn root_node() -> Node
    ensures { result ≡ root_node }
{
    Node {
        level: ROOT,
        table: 0,
        key: 0,
        leaf: 0,
        item: 0,
    }
}

/// The container of a module, by its place among the modules.
pub(crate) fn module_node(place: usize) -> Node
    ensures { result ≡ module_node place }
{
    Node {
        level: MODULE,
        table: place,
        key: 0,
        leaf: 0,
        item: 0,
    }
}

/// The container of a table, by its place in the configuration.
pub(crate) fn table_node(table: usize) -> Node
    ensures { result ≡ table_node table }
{
    Node {
        level: TABLE,
        table,
        key: 0,
        leaf: 0,
        item: 0,
    }
}

/// An entry, by its place in the configuration.
pub(crate) fn entry_node(table: usize, key: usize) -> Node
    ensures { result ≡ entry_node table key }
{
    Node {
        level: ENTRY,
        table,
        key,
        leaf: 0,
        item: 0,
    }
}

/// A leaf of an entry, by its place among the leaves of the shape.
pub(crate) fn leaf_node(table: usize, key: usize, leaf: usize) -> Node
    ensures { result ≡ leaf_node table key leaf }
{
    Node {
        level: LEAF,
        table,
        key,
        leaf,
        item: 0,
    }
}

/// An item of a leaf-list of an entry.
pub(crate) fn item_node(table: usize, key: usize, leaf: usize, item: usize) -> Node
    ensures { result ≡ item_node table key leaf item }
{
    Node {
        level: ITEM,
        table,
        key,
        leaf,
        item,
    }
}
