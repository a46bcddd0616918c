//! The containers of the modules, with their tables, the lists of these and the leaves of those, each
//! found by its name without a walk.
ghost use Rattle.std.specs.Prelude.{◌≡◌, ◌+◌, [], ◌∷◌, ◌++◌, filter, option_map, find, map, length, codes, IfOk, if◌then◌else◌};
ghost use Rattle.yang_text.specs.Declarations.{Declaration};
ghost use Rattle.yang_text.specs.Statements.{declaration};
ghost use Rattle.yang_scope.specs.Nodes.{is_shape, list_in, lists_of, numbered_list, containers_in, containers_of};
ghost use Rattle.yang_scope.specs.Paths.{is_named, child_named};
ghost use Rattle.yang_scope.specs.Statements.{is_keyword, each_from};

use crate::modules::ModuleNames;
use crate::node_lists::{ModelNode, NodeList};
use host_core::Memory;
use std::alloc::Global;
use std::marker::Model;
use yang_text::Statement;

/// A leaf. Contracts see the statement.
#[derive(Drop)]
pub(crate) struct LeafNode<'a> {
    statement: &'a Statement,
}

impl<'a> Model for LeafNode<'a> {
    ghost use Rattle.yang_text.specs.Coding.{coded_declaration};
    ghost use Rattle.yang_text.specs.Declarations.{Declaration};
    ghost use Rattle.yang_text.specs.Statements.{declaration};

    ghost Value = { Declaration };

    ghost coded = { coded_declaration };

    ghost view = { λ l. declaration l.statement.now };
}

impl<'a> ModelNode for LeafNode<'a> {
    ghost declared = { λ d. d };

    fn node_statement(&self) -> &Statement {
        self.statement
    }
}

impl<'a> LeafNode<'a> {
    /// The statement.
    pub(crate) fn statement(&self) -> &'a Statement
        ensures { declaration result.now ≡ self.now }
    {
        self.statement
    }
}

/// A list of a table. Contracts see its number among the shapes of the table, and the statement.
#[derive(Drop)]
pub(crate) struct ListNode<'a> {
    number: usize,
    statement: &'a Statement,
    leaves: NodeList<LeafNode<'a>>,
}

impl<'a> Model for ListNode<'a> {
    ghost use Rattle.std.specs.Prelude.{◌≡◌, codes};
    ghost use Rattle.yang_text.specs.Statements.{declaration};
    ghost use Rattle.yang_scope.specs.Nodes.{coded_placed};
    ghost use Rattle.yang_scope.specs.Paths.{Placed};
    ghost use Rattle.yang_scope.specs.Statements.{children_of};

    ghost Value = { Placed };

    ghost coded = { coded_placed };

    ghost view = { λ l. (l.number, declaration l.statement.now) };

    ghost invariant = { λ l. l.leaves ≡ children_of (codes "leaf") (declaration l.statement.now) };
}

impl<'a> ModelNode for ListNode<'a> {
    ghost declared = { λ l. l.1 };

    fn node_statement(&self) -> &Statement {
        self.statement
    }
}

/// Some leaves, and a statement behind them where it is one.
fn with_leaf<'a>(
    alloc: Global,
    leaves: NodeList<LeafNode<'a>>,
    statement: &'a Statement,
) -> Result<NodeList<LeafNode<'a>>, Memory>
    ensures { IfOk result (λ list. list
        ≡ leaves.entry ++ filter (is_keyword (codes "leaf")) (declaration statement.now ∷ [])) }
{
    if statement.keyword.as_str() == "leaf" {
        leaves.with(alloc, LeafNode { statement })
    } else {
        Ok(leaves)
    }
}

/// The leaves among some statements.
fn leaves_in<'a>(
    alloc: Global,
    statements: &'a [Statement],
) -> Result<NodeList<LeafNode<'a>>, Memory>
    ensures { IfOk result (λ list. list
        ≡ filter (is_keyword (codes "leaf")) (map declaration statements.now)) }
{
    let mut leaves = NodeList::new(alloc);
    for statement in statements {
        leaves = with_leaf(alloc, leaves, statement)?;
    }
    Ok(leaves)
}

impl<'a> ListNode<'a> {
    /// A list, with its leaves.
    fn new(alloc: Global, number: usize, statement: &'a Statement) -> Result<ListNode<'a>, Memory>
        ensures { IfOk result (λ l. l ≡ (number, declaration statement.now)) }
    {
        let leaves = leaves_in(alloc, statement.block.items())?;
        Ok(ListNode {
            number,
            statement,
            leaves,
        })
    }

    /// The number of the list among the shapes of its table.
    pub(crate) fn number(&self) -> usize
        ensures { result ≡ self.now.0 }
    {
        self.number
    }

    /// The statement.
    pub(crate) fn statement(&self) -> &'a Statement
        ensures { declaration result.now ≡ self.now.1 }
    {
        self.statement
    }

    /// The first leaf of a name.
    pub(crate) fn leaf_named(&self, name: &str) -> Option<&'a Statement>
        ensures { option_map (λ s. declaration s.now) result
            ≡ child_named (codes "leaf") name.now self.now.1 }
    {
        match self.leaves.named(name) {
            Some(leaf) => Some(leaf.statement()),
            None => None,
        }
    }
}

/// A table's container. Contracts see the statement.
#[derive(Drop)]
pub(crate) struct TableNode<'a> {
    statement: &'a Statement,
    lists: NodeList<ListNode<'a>>,
}

impl<'a> Model for TableNode<'a> {
    ghost use Rattle.std.specs.Prelude.{◌≡◌};
    ghost use Rattle.yang_text.specs.Coding.{coded_declaration};
    ghost use Rattle.yang_text.specs.Declarations.{Declaration};
    ghost use Rattle.yang_text.specs.Statements.{declaration};
    ghost use Rattle.yang_scope.specs.Nodes.{lists_of};

    ghost Value = { Declaration };

    ghost coded = { coded_declaration };

    ghost view = { λ t. declaration t.statement.now };

    ghost invariant = { λ t. t.lists ≡ lists_of (declaration t.statement.now) };
}

impl<'a> ModelNode for TableNode<'a> {
    ghost declared = { λ d. d };

    fn node_statement(&self) -> &Statement {
        self.statement
    }
}

/// Whether a statement is a list or a fixed container.
fn is_shape(statement: &Statement) -> bool
    ensures { result ≡ is_shape (declaration statement.now) }
{
    match statement.keyword.as_str() {
        "list" | "container" => true,
        _ => false,
    }
}

/// Some lists, and a shape of a number behind them where it is one.
fn with_list<'a>(
    alloc: Global,
    lists: NodeList<ListNode<'a>>,
    number: usize,
    statement: &'a Statement,
) -> Result<NodeList<ListNode<'a>>, Memory>
    ensures { IfOk result (λ list. list
        ≡ lists.entry ++ list_in number (declaration statement.now)) }
{
    if statement.keyword.as_str() == "list" {
        lists.with(alloc, ListNode::new(alloc, number, statement)?)
    } else {
        Ok(lists)
    }
}

/// Adds a statement, where it is a shape.
fn push_if_shape<'a>(
    shapes: &mut Vec<&'a Statement>,
    statement: &'a Statement,
) -> Result<(), Memory>
    ensures { IfOk result (λ _. map (λ s. declaration s.now) shapes.new.items
        ≡ map (λ s. declaration s.now) shapes.old.items
        ++ filter is_shape (declaration statement.now ∷ [])) }
{
    if is_shape(statement) {
        shapes.push(statement)?;
    }
    Ok(())
}

/// The shapes among some statements.
fn shapes_in<'a>(alloc: Global, statements: &'a [Statement]) -> Result<Vec<&'a Statement>, Memory>
    ensures { IfOk result (λ shapes. map (λ s. declaration s.now) shapes.items
        ≡ filter is_shape (map declaration statements.now)) }
{
    let mut shapes = Vec::new(alloc);
    for statement in statements {
        push_if_shape(&mut shapes, statement)?;
    }
    Ok(shapes)
}

/// The lists among some shapes.
fn lists_among<'a>(
    alloc: Global,
    shapes: &[&'a Statement],
) -> Result<NodeList<ListNode<'a>>, Memory>
    ensures { IfOk result (λ list. list
        ≡ each_from list_in 0 (map (λ s. declaration s.now) shapes.now)) }
{
    let mut lists = NodeList::new(alloc);
    for (number, statement) in shapes.iter().enumerate() {
        lists = with_list(alloc, lists, number, statement)?;
    }
    Ok(lists)
}

impl<'a> TableNode<'a> {
    /// A table's container, with the lists in it.
    fn new(alloc: Global, statement: &'a Statement) -> Result<TableNode<'a>, Memory>
        ensures { IfOk result (λ t. t ≡ declaration statement.now) }
    {
        let shapes = shapes_in(alloc, statement.block.items())?;
        let lists = lists_among(alloc, shapes.as_slice())?;
        Ok(TableNode { statement, lists })
    }

    /// The first list of a name.
    pub(crate) fn list_named(&self, name: &str) -> Option<&ListNode<'a>>
        ensures { option_map (λ l. l.now) result ≡ numbered_list name.now self.now }
    {
        self.lists.named(name)
    }
}

/// A container of a module. Contracts see the module's number, and the statement.
#[derive(Drop)]
pub(crate) struct ContainerNode<'a> {
    number: usize,
    statement: &'a Statement,
    tables: NodeList<TableNode<'a>>,
}

impl<'a> Model for ContainerNode<'a> {
    ghost use Rattle.std.specs.Prelude.{◌≡◌, codes};
    ghost use Rattle.yang_text.specs.Statements.{declaration};
    ghost use Rattle.yang_scope.specs.Nodes.{coded_placed};
    ghost use Rattle.yang_scope.specs.Paths.{Placed};
    ghost use Rattle.yang_scope.specs.Statements.{children_of};

    ghost Value = { Placed };

    ghost coded = { coded_placed };

    ghost view = { λ c. (c.number, declaration c.statement.now) };

    ghost invariant = { λ c.
        c.tables ≡ children_of (codes "container") (declaration c.statement.now) };
}

impl<'a> ModelNode for ContainerNode<'a> {
    ghost declared = { λ c. c.1 };

    fn node_statement(&self) -> &Statement {
        self.statement
    }
}

/// Some tables, and a statement behind them where it is one.
fn with_table<'a>(
    alloc: Global,
    tables: NodeList<TableNode<'a>>,
    statement: &'a Statement,
) -> Result<NodeList<TableNode<'a>>, Memory>
    ensures { IfOk result (λ list. list ≡ tables.entry
        ++ filter (is_keyword (codes "container")) (declaration statement.now ∷ [])) }
{
    if statement.keyword.as_str() == "container" {
        tables.with(alloc, TableNode::new(alloc, statement)?)
    } else {
        Ok(tables)
    }
}

/// The tables among some statements.
fn tables_in<'a>(
    alloc: Global,
    statements: &'a [Statement],
) -> Result<NodeList<TableNode<'a>>, Memory>
    ensures { IfOk result (λ list. list
        ≡ filter (is_keyword (codes "container")) (map declaration statements.now)) }
{
    let mut tables = NodeList::new(alloc);
    for statement in statements {
        tables = with_table(alloc, tables, statement)?;
    }
    Ok(tables)
}

impl<'a> ContainerNode<'a> {
    /// A container of a module, with the tables in it.
    fn new(
        alloc: Global,
        number: usize,
        statement: &'a Statement,
    ) -> Result<ContainerNode<'a>, Memory>
        ensures { IfOk result (λ c. c ≡ (number, declaration statement.now)) }
    {
        let tables = tables_in(alloc, statement.block.items())?;
        Ok(ContainerNode {
            number,
            statement,
            tables,
        })
    }

    /// The number of its module.
    pub(crate) fn number(&self) -> usize
        ensures { result ≡ self.now.0 }
    {
        self.number
    }

    /// The statement.
    pub(crate) fn statement(&self) -> &'a Statement
        ensures { declaration result.now ≡ self.now.1 }
    {
        self.statement
    }

    /// The first table of a name.
    pub(crate) fn table_named(&self, name: &str) -> Option<&TableNode<'a>>
        ensures { option_map (λ t. t.now) result
            ≡ child_named (codes "container") name.now self.now.1 }
    {
        self.tables.named(name)
    }
}

/// Some containers, and a statement of a module behind them where it is one.
fn with_container<'a>(
    alloc: Global,
    containers: NodeList<ContainerNode<'a>>,
    number: usize,
    statement: &'a Statement,
) -> Result<NodeList<ContainerNode<'a>>, Memory>
    ensures { IfOk result (λ list. list ≡ containers.entry ++ map (λ d. (number, d))
        (filter (is_keyword (codes "container")) (declaration statement.now ∷ []))) }
{
    if statement.keyword.as_str() == "container" {
        containers.with(alloc, ContainerNode::new(alloc, number, statement)?)
    } else {
        Ok(containers)
    }
}

/// Some containers, and those of a module behind them.
fn with_containers<'a>(
    alloc: Global,
    containers: NodeList<ContainerNode<'a>>,
    number: usize,
    owner: &ModuleNames<'a>,
) -> Result<NodeList<ContainerNode<'a>>, Memory>
    ensures { IfOk result (λ list. list ≡ containers.entry ++ containers_in number owner.now) }
{
    let mut all = containers;
    for statement in owner.statement().block.items() {
        all = with_container(alloc, all, number, statement)?;
    }
    Ok(all)
}

/// The containers of all modules.
pub(crate) fn all_containers<'a>(
    alloc: Global,
    modules: &[ModuleNames<'a>],
) -> Result<NodeList<ContainerNode<'a>>, Memory>
    ensures { IfOk result (λ list. list ≡ containers_of modules.now) }
{
    let mut containers = NodeList::new(alloc);
    for (number, module) in modules.iter().enumerate() {
        containers = with_containers(alloc, containers, number, module)?;
    }
    Ok(containers)
}
