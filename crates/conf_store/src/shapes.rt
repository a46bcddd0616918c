//! Whether trees are of a configuration's shape, told without memory.
ghost use Rattle.std.specs.Prelude.{◌≡◌, is_ok, map, true, Ok};
ghost use Rattle.std.specs.List.{list_all};
ghost use Rattle.host_core.specs.Answers.{map_ok};
ghost use Rattle.conf_doc.specs.Configuration.{tree as tree_of};
ghost use Rattle.conf_doc.specs.Shaping.{configuration};
ghost use Rattle.conf_doc.specs.Trees.{document};
ghost use Rattle.conf_store.specs.Shapes.{is_named, is_text};

use conf_doc::{Config, Entry, Items, Members, Table, Tree, Value};

/// Whether a tree is that of a configuration, which takes no memory to tell.
pub fn is_configuration(tree: &Tree) -> bool
    ensures tells { result ≡ is_ok (configuration (document tree.now)) }
    // Then it is the tree of what it is shaped as.
    ensures same { result ≡ true
        → map_ok tree_of (configuration (document tree.now)) ≡ Ok (document tree.now) }
{
    Config::is_shaped(tree)
}

/// What a tree may be the tree of.
pub(crate) trait Shaped {
    ghost use Rattle.std.specs.Prelude.{Bool};
    ghost use Rattle.conf_doc.specs.Document.{Document};

    ghost shape: { Document → Bool };

    /// Whether a tree is that of such a value.
    fn is_shaped(tree: &Tree) -> bool
        ensures { result ≡ shape (document tree.now) };
}

impl Shaped for Config {
    ghost use Rattle.conf_store.specs.Shapes.{is_config};

    ghost shape = { is_config };

    fn is_shaped(tree: &Tree) -> bool {
        match tree {
            Tree::Map(tables) => are_shaped::<Table>(tables),
            Tree::Text(_) | Tree::List(_) => false,
        }
    }
}

impl Shaped for Table {
    ghost use Rattle.conf_store.specs.Shapes.{is_table};

    ghost shape = { is_table };

    fn is_shaped(tree: &Tree) -> bool {
        match tree {
            Tree::Map(entries) => are_shaped::<Entry>(entries),
            Tree::Text(_) | Tree::List(_) => false,
        }
    }
}

impl Shaped for Entry {
    ghost use Rattle.conf_store.specs.Shapes.{is_entry};

    ghost shape = { is_entry };

    fn is_shaped(tree: &Tree) -> bool {
        match tree {
            Tree::Map(fields) => are_shaped::<Value>(fields),
            Tree::Text(_) | Tree::List(_) => false,
        }
    }
}

impl Shaped for Value {
    ghost use Rattle.conf_store.specs.Shapes.{is_value};

    ghost shape = { is_value };

    fn is_shaped(tree: &Tree) -> bool {
        match tree {
            Tree::Text(_) => true,
            Tree::List(items) => are_texts(items),
            Tree::Map(_) => false,
        }
    }
}

/// Whether no member's name is empty, and each names what is shaped so.
fn are_shaped<X: Shaped>(members: &Members) -> bool
    ensures { result ≡ list_all (is_named X.shape) members.now }
{
    for i in 0..members.len() {
        if !is_named::<X>(members.name_at(i), members.at(i)) {
            return false;
        }
    }
    true
}

/// Whether a name isn't empty, and the tree that it names is shaped so.
pub(crate) fn is_named<X: Shaped>(name: &str, tree: &Tree) -> bool
    ensures { result ≡ is_named X.shape (name.now, document tree.now) }
{
    !name.is_empty() && X::is_shaped(tree)
}

/// Whether each item is a text.
fn are_texts(items: &Items) -> bool
    ensures { result ≡ list_all is_text items.now }
{
    for i in 0..items.len() {
        if !is_text(items.at(i)) {
            return false;
        }
    }
    true
}

/// Whether a tree is a text.
pub(crate) fn is_text(tree: &Tree) -> bool
    ensures { result ≡ is_text (document tree.now) }
{
    match tree {
        Tree::Text(_) => true,
        Tree::List(_) | Tree::Map(_) => false,
    }
}
