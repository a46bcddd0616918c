//! The musts of an entry that are false.
ghost use Rattle.std.specs.Prelude.{◌≡◌, ◌↔◌, IsTrue, IfSome};
ghost use Rattle.conf_check.specs.Faults.{IsFirstNumber, IsFalseMust};
ghost use Rattle.conf_check.specs.NodeTrees.{HasModule, IsNodeOf, tree_of};
ghost use Rattle.conf_check.specs.ConfigTree.{entry_node};
ghost use Rattle.conf_check.specs.Validity.{IsFalse, context_of};

use crate::config_nodes::ConfigNodes;
use crate::node_numbers::entry_node;
use host_core::Txt;
use xpath_part::{Node, Nodes, holds};
use yang_model::{MustRule, Shape};

/// Where a must is tested: at the entry, or at its leaf where that is there, if by its default.
fn context_of(nodes: &ConfigNodes, entry: Node, leaf: &Option<Txt>) -> Option<Node>
    requires { IsNodeOf nodes.now entry }
    ensures context { result ≡ context_of (tree_of nodes.now) entry leaf.now }
    ensures node { IfSome result (IsNodeOf nodes.now) }
{
    match leaf {
        Some(leaf) => nodes.first(entry, leaf.as_str()),
        None => Some(entry),
    }
}

/// Whether a must of the entry at a place is false where it is tested.
fn is_false(nodes: &ConfigNodes, table: usize, key: usize, must: &MustRule) -> bool
    requires { HasModule nodes.now table }
    ensures { IsTrue result
        ↔ IsFalse nodes.now.models.now nodes.now.config.now table key must.now }
{
    match context_of(nodes, entry_node(table, key), &must.leaf) {
        Some(context) => !holds(&must.expr, nodes, context),
        None => false,
    }
}

/// The first must of the entry at a place that is false, by its number among those of its shape.
pub(crate) fn first_false_must(
    nodes: &ConfigNodes,
    shape: &Shape,
    table: usize,
    key: usize,
) -> Option<usize>
    requires { HasModule nodes.now table }
    ensures { let models = nodes.now.models.now in
        IsFirstNumber (IsFalseMust models nodes.now.config.now table key shape.now) result }
{
    for (i, must) in shape.musts.items().iter().enumerate() {
        if is_false(nodes, table, key, must) {
            return Some(i);
        }
    }
    None
}
