//! Key leaves, found by the four names of a path.
ghost use Rattle.std.specs.Prelude.{◌≡◌, ◌&&◌, List, [], ◌∷◌, ℕ, length, map, codes, option_map, option_and_then, IfOk};
ghost use Rattle.std.specs.List.{list_all};
ghost use Rattle.yang_text.specs.Statements.{declaration};
ghost use Rattle.yang_scope.specs.Modules.{Module};
ghost use Rattle.yang_scope.specs.Nodes.{containers_of, numbered_list, list_named};
ghost use Rattle.yang_scope.specs.Paths.{is_prefix_given, child_named, container_named, key_leaf_in, key_leaf_below, key_leaf, leaf_at_end};
ghost use Rattle.yang_scope.specs.Pieces.{texts};

use crate::module_sets::ModuleSet;
use crate::node_lists::NodeList;
use crate::nodes::{ContainerNode, ListNode};
use crate::paths::{is_key_of, step_name};
use host_core::Memory;
use std::alloc::Global;
use yang_text::Statement;

/// Whether a module gives the prefix of a step, where it has one.
fn is_prefix_given(set: &ModuleSet, number: usize, step: &str) -> bool
    ensures { result ≡ is_prefix_given set.now number step.now }
{
    match step.split_once(':') {
        Some((prefix, _)) => set.is_prefix(number, prefix),
        None => true,
    }
}

/// Whether a module gives the prefixes of four steps.
fn are_prefixes_given(set: &ModuleSet, number: usize, c: &str, t: &str, l: &str, k: &str) -> bool
    ensures { result ≡ list_all (is_prefix_given set.now number)
        (c.now ∷ t.now ∷ l.now ∷ k.now ∷ []) }
{
    is_prefix_given(set, number, c)
        && is_prefix_given(set, number, t)
        && is_prefix_given(set, number, l)
        && is_prefix_given(set, number, k)
}

/// A list of a table of a container, by their names.
fn list_below<'t, 'a>(
    table: &str,
    list: &str,
    container: &'t ContainerNode<'a>,
) -> Option<&'t ListNode<'a>>
    ensures { option_map (λ l. l.now) result ≡ option_and_then (numbered_list list.now)
        (child_named (codes "container") table.now container.now.1) }
{
    match container.table_named(table) {
        Some(table) => table.list_named(list),
        None => None,
    }
}

/// A list of a table of a container of the modules, by their names.
pub(crate) fn list_named<'t, 'a>(
    containers: &'t NodeList<ContainerNode<'a>>,
    container: &str,
    table: &str,
    list: &str,
) -> Option<&'t ListNode<'a>>
    ensures { (modules : List Module) → containers.now ≡ containers_of modules
        → option_map (λ l. l.now) result
        ≡ list_named modules container.now table.now list.now }
{
    match containers.named(container) {
        Some(container) => list_below(table, list, container),
        None => None,
    }
}

/// A leaf of a list that is a key leaf.
fn key_leaf_in<'a>(
    alloc: Global,
    name: &str,
    list: &ListNode<'a>,
) -> Result<Option<&'a Statement>, Memory>
    ensures { IfOk result (λ leaf. option_map (λ s. declaration s.now) leaf
        ≡ key_leaf_in name.now list.now.1) }
{
    if is_key_of(alloc, list.statement(), name)? {
        Ok(list.leaf_named(name))
    } else {
        Ok(None)
    }
}

/// A key leaf of a list of a table of a container.
fn key_leaf_below<'a>(
    alloc: Global,
    table: &str,
    list: &str,
    leaf: &str,
    container: &ContainerNode<'a>,
) -> Result<Option<&'a Statement>, Memory>
    ensures { IfOk result (λ found. option_map (λ s. declaration s.now) found
        ≡ key_leaf_below table.now list.now leaf.now container.now.1) }
{
    match list_below(table, list, container) {
        Some(list) => key_leaf_in(alloc, leaf, list),
        None => Ok(None),
    }
}

/// The key leaf of four names, with the number of its module.
fn key_leaf<'a>(
    alloc: Global,
    containers: &NodeList<ContainerNode<'a>>,
    container: &str,
    table: &str,
    list: &str,
    leaf: &str,
) -> Result<Option<(usize, &'a Statement)>, Memory>
    ensures { IfOk result (λ found. (modules : List Module)
        → containers.now ≡ containers_of modules
        → option_map (λ s. (s.0, declaration s.1.now)) found
        ≡ key_leaf modules container.now table.now list.now leaf.now) }
{
    match containers.named(container) {
        Some(found) => match key_leaf_below(alloc, table, list, leaf, found) {
            Ok(Some(leaf)) => Ok(Some((found.number(), leaf))),
            Ok(None) => Ok(None),
            Err(Memory) => Err(Memory),
        },
        None => Ok(None),
    }
}

/// The key leaf that four steps lead to.
fn leaf_of_steps<'a>(
    alloc: Global,
    set: &ModuleSet,
    containers: &NodeList<ContainerNode<'a>>,
    number: usize,
    c: &str,
    t: &str,
    l: &str,
    k: &str,
) -> Result<Option<(usize, &'a Statement)>, Memory>
    requires { containers.now ≡ containers_of set.now }
    ensures { IfOk result (λ found. option_map (λ s. (s.0, declaration s.1.now)) found
        ≡ leaf_at_end set.now number ([] ∷ c.now ∷ t.now ∷ l.now ∷ k.now ∷ [])) }
{
    if are_prefixes_given(set, number, c, t, l, k) {
        key_leaf(
            alloc,
            containers,
            step_name(c),
            step_name(t),
            step_name(l),
            step_name(k),
        )
    } else {
        Ok(None)
    }
}

/// The key leaf that the pieces of a path lead to.
pub(crate) fn leaf_at_end<'a>(
    alloc: Global,
    set: &ModuleSet,
    containers: &NodeList<ContainerNode<'a>>,
    number: usize,
    pieces: &[&str],
) -> Result<Option<(usize, &'a Statement)>, Memory>
    requires { containers.now ≡ containers_of set.now }
    ensures { IfOk result (λ found. option_map (λ s. (s.0, declaration s.1.now)) found
        ≡ leaf_at_end set.now number (texts pieces.now)) }
{
    match pieces {
        [_, c, t, l, k] => leaf_of_steps(alloc, set, containers, number, c, t, l, k),
        _ => Ok(None),
    }
}
