//! The names that the modules of the files give, for the models of the files.
ghost use Rattle.std.specs.Prelude.{◌≡◌, ◌<◌, ◌^◌, length, map, slice_get, option_map, IfOk};
ghost use Rattle.yang_scope.specs.Meanings.{base_of, type_meaning, is_module};
ghost use Rattle.yang_scope.specs.Modules.{modules_of};
ghost use Rattle.yang_scope.specs.Nodes.{list_named};
ghost use Rattle.yang_scope.specs.Paths.{container_named, path_end};

use crate::bases::Base;
use crate::key_leaves::{leaf_at_end, list_named};
use crate::links::{Links, all_links, link_behind};
use crate::meanings::Meaning;
use crate::module_sets::ModuleSet;
use crate::node_lists::NodeList;
use crate::nodes::{ContainerNode, all_containers};
use crate::pieces::pieces;
use host_core::{Memory, Txt};
use std::alloc::Global;
use std::marker::Model;
use yang_text::{Statement, Statements};

/// The names in the modules of the files. Contracts see the list of the modules.
#[derive(Drop)]
pub struct Names<'a> {
    set: ModuleSet<'a>,
    links: Links,
    containers: NodeList<ContainerNode<'a>>,
}

impl<'a> Model for Names<'a> {
    ghost use Rattle.std.specs.Prelude.{◌≡◌, List};
    ghost use Rattle.std.specs.Coded.{coded_list};
    ghost use Rattle.yang_scope.specs.Coding.{coded_module};
    ghost use Rattle.yang_scope.specs.Links.{IsBehind};
    ghost use Rattle.yang_scope.specs.Meanings.{most_typedefs};
    ghost use Rattle.yang_scope.specs.Modules.{Module};
    ghost use Rattle.yang_scope.specs.Nodes.{containers_of};

    ghost Value = { List Module };

    ghost coded = { coded_list coded_module };

    ghost view = { λ n. n.set };

    ghost invariant = { λ n. IsBehind n.set most_typedefs n.links
        × n.containers ≡ containers_of n.set };
}

impl<'a> Names<'a> {
    ghost use Rattle.yang_text.specs.Statements.{declaration};
    ghost use Rattle.yang_scope.specs.Modules.{Module};

    /// The names of the files, of which there are fewer than 2^32.
    pub fn new(alloc: Global, files: &'a [(Txt, Statements)]) -> Result<Names<'a>, Memory>
        requires { length files.now < 2 ^ 32 }
        ensures { IfOk result (λ names. names ≡ modules_of (map (λ f. f.1) files.now)) }
    {
        let set = ModuleSet::new(alloc, files)?;
        let links = all_links(alloc, &set)?;
        let containers = all_containers(alloc, set.items())?;
        Ok(Names {
            set,
            links,
            containers,
        })
    }

    /// How many modules there are.
    pub fn len(&self) -> usize
        ensures { result ≡ length self.now }
    {
        self.set.items().len()
    }

    /// The file of a module, and its statement. Modules are numbered from 0 in the order of the files.
    pub fn module_at(&self, number: usize) -> Option<(u32, &'a Statement)>
        ensures { option_map (λ m. record { file = m.0; statement = declaration m.1.now }) result
            ≡ slice_get self.now number }
    {
        match self.set.items().get(number) {
            Some(module) => Some((module.file(), module.statement())),
            None => None,
        }
    }

    /// Whether an import may name a module: one of the files, or one that is built in.
    pub fn is_module(&self, name: &str) -> bool
        ensures { result ≡ is_module self.now name.now }
    {
        self.set.is_module(name)
    }

    /// What the argument of a type statement stands for in a module.
    pub fn type_meaning(&self, number: usize, name: &Option<Txt>) -> Meaning
        ensures { result ≡ type_meaning self.now number name.now }
    {
        self.set.type_meaning(number, name)
    }

    /// The base of a type statement with this argument in a module. None where a name on the way stands
    /// for nothing, or the typedefs go round a circle.
    pub fn base_of(&self, number: usize, name: &Option<Txt>) -> Option<Base>
        ensures { result ≡ base_of self.now number name.now }
    {
        match link_behind(self.links.items(), self.set.type_meaning(number, name)) {
            Meaning::Ends(base) => Some(base),
            Meaning::Goes(..) | Meaning::Nothing => None,
        }
    }

    /// The container of a module, by its name, with the number of the module.
    pub fn container_named(&self, name: &str) -> Option<(usize, &'a Statement)>
        ensures { option_map (λ c. (c.0, declaration c.1.now)) result
            ≡ container_named self.now name.now }
    {
        match self.containers.named(name) {
            Some(container) => Some((container.number(), container.statement())),
            None => None,
        }
    }

    /// A list of a table of a container of a module, by their names, with the number of the list among
    /// the lists and fixed containers of its table.
    pub fn list_named(
        &self,
        container: &str,
        table: &str,
        list: &str,
    ) -> Option<(usize, &'a Statement)>
        ensures { option_map (λ l. (l.0, declaration l.1.now)) result
            ≡ list_named self.now container.now table.now list.now }
    {
        match list_named(&self.containers, container, table, list) {
            Some(list) => Some((list.number(), list.statement())),
            None => None,
        }
    }

    /// The key leaf that a path in a module leads to, with the number of its module.
    pub fn path_end(
        &self,
        alloc: Global,
        number: usize,
        path: &str,
    ) -> Result<Option<(usize, &'a Statement)>, Memory>
        ensures { IfOk result (λ found. option_map (λ s. (s.0, declaration s.1.now)) found
            ≡ path_end self.now number path.now) }
    {
        let steps = pieces(alloc, '/', path)?;
        leaf_at_end(alloc, &self.set, &self.containers, number, steps.as_slice())
    }
}
