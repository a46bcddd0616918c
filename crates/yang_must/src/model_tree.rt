//! The tree of the models.
ghost use Rattle.std.specs.Prelude.{◌≡◌, [], ◌∷◌, ◌++◌, List, codes, find, filter, map, option_map, slice_get, IfOk, OnOk};
ghost use Rattle.std.specs.Option.{option_to_list};
ghost use Rattle.yang_text.specs.Declarations.{Declaration};
ghost use Rattle.yang_text.specs.Statements.{declaration};
ghost use Rattle.yang_scope.specs.Paths.{is_named, is_prefix};
ghost use Rattle.yang_scope.specs.Statements.{is_keyword, each_from};
ghost use Rattle.yang_must.specs.Spots.{container_at, containers_in, containers_of};

use crate::nodes::ContainerNode;
use crate::prefixes::ModulePrefixes;
use host_core::Memory;
use std::alloc::Global;
use std::marker::Model;
use yang_scope::{Names, NodeList};
use yang_text::Statement;

/// The nodes of the models, found by their names. Contracts see the list of the modules.
#[derive(Drop)]
pub struct ModelTree<'a> {
    modules: Vec<ModulePrefixes<'a>>,
    containers: NodeList<ContainerNode<'a>>,
}

impl<'a> Model for ModelTree<'a> {
    ghost use Rattle.std.specs.Prelude.{◌≡◌, List};
    ghost use Rattle.std.specs.Coded.{coded_list};
    ghost use Rattle.yang_scope.specs.Coding.{coded_module};
    ghost use Rattle.yang_scope.specs.Modules.{Module};
    ghost use Rattle.yang_must.specs.Spots.{containers_of};

    ghost Value = { List Module };

    ghost coded = { coded_list coded_module };

    ghost view = { λ t. t.modules.items };

    ghost invariant = { λ t. t.containers ≡ containers_of t.modules.items };
}

/// Adds the module of a number, where there is one.
fn push_module<'a>(
    alloc: Global,
    modules: &mut Vec<ModulePrefixes<'a>>,
    names: &Names<'a>,
    number: usize,
) -> Result<(), Memory>
    ensures { OnOk result (modules.new.items
        ≡ modules.old.items ++ option_to_list (slice_get names.now number)) }
{
    match names.module_at(number) {
        Some((file, statement)) => {
            let module = ModulePrefixes::new(alloc, file, statement)?;
            match modules.push(module) {
                Ok(()) => Ok(()),
                Err(failed) => {
                    drop(failed);
                    Err(Memory)
                }
            }
        }
        None => Ok(()),
    }
}

/// The modules of some names, with their prefixes.
fn all_modules<'a>(alloc: Global, names: &Names<'a>) -> Result<Vec<ModulePrefixes<'a>>, Memory>
    ensures { IfOk result (λ modules. modules.items ≡ names.now) }
{
    let mut modules = Vec::new(alloc);
    for number in 0..names.len() {
        push_module(alloc, &mut modules, names, number)?;
    }
    Ok(modules)
}

/// Some containers, and a statement of a module behind them where it is one.
fn with_container<'a>(
    alloc: Global,
    containers: NodeList<ContainerNode<'a>>,
    file: u32,
    number: usize,
    statement: &'a Statement,
) -> Result<NodeList<ContainerNode<'a>>, Memory>
    ensures { IfOk result (λ list. list ≡ containers.entry ++ map (container_at file number)
        (filter (is_keyword (codes "container")) (declaration statement.now ∷ []))) }
{
    if statement.keyword.as_str() != "container" {
        return Ok(containers);
    }
    match ContainerNode::new(alloc, file, number, statement) {
        Ok(container) => containers.with(alloc, container),
        Err(memory) => {
            drop(containers);
            Err(memory)
        }
    }
}

/// Some containers, and those of a module behind them.
fn with_containers<'a>(
    alloc: Global,
    containers: NodeList<ContainerNode<'a>>,
    number: usize,
    owner: &ModulePrefixes<'a>,
) -> Result<NodeList<ContainerNode<'a>>, Memory>
    ensures { IfOk result (λ list. list ≡ containers.entry ++ containers_in number owner.now) }
{
    let mut all = containers;
    for statement in owner.statement().block.items() {
        all = with_container(alloc, all, owner.file(), number, statement)?;
    }
    Ok(all)
}

/// The containers of all modules.
fn all_containers<'a>(
    alloc: Global,
    modules: &[ModulePrefixes<'a>],
) -> Result<NodeList<ContainerNode<'a>>, Memory>
    ensures { IfOk result (λ list. list ≡ containers_of modules.now) }
{
    let mut containers = NodeList::new(alloc);
    for (number, module) in modules.iter().enumerate() {
        containers = with_containers(alloc, containers, number, module)?;
    }
    Ok(containers)
}

impl<'a> ModelTree<'a> {
    /// The tree of the modules of some names.
    pub fn new(alloc: Global, names: &Names<'a>) -> Result<ModelTree<'a>, Memory>
        ensures { IfOk result (λ tree. tree ≡ names.now) }
    {
        let modules = all_modules(alloc, names)?;
        match all_containers(alloc, modules.as_slice()) {
            Ok(containers) => Ok(ModelTree {
                modules,
                containers,
            }),
            Err(memory) => {
                drop(modules);
                Err(memory)
            }
        }
    }

    /// The containers of all modules, in order.
    pub fn containers(&self) -> &[ContainerNode<'a>]
        ensures { result.now ≡ containers_of self.now }
    {
        self.containers.items()
    }

    /// The first container of a name.
    pub(crate) fn container_named(&self, name: &str) -> Option<&ContainerNode<'a>>
        ensures { option_map (λ c. c.now) result
            ≡ find (λ c. is_named name.now c.statement) (containers_of self.now) }
    {
        self.containers.named(name)
    }

    /// Whether a module gives a prefix.
    pub(crate) fn is_prefix(&self, number: usize, prefix: &str) -> bool
        ensures { result ≡ is_prefix self.now number prefix.now }
    {
        match self.modules.get(number) {
            Some(module) => module.gives(prefix),
            None => false,
        }
    }
}
