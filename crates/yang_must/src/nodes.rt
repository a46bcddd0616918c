//! The nodes of the models, each with those below it.
ghost use Rattle.std.specs.Prelude.{◌≡◌, ◌||◌, [], ◌∷◌, ◌++◌, filter, option_map, find, map, codes, IfOk, if◌then◌else◌};
ghost use Rattle.yang_text.specs.Declarations.{Declaration};
ghost use Rattle.yang_text.specs.Statements.{declaration};
ghost use Rattle.yang_scope.specs.Paths.{is_named};
ghost use Rattle.yang_scope.specs.Statements.{is_keyword};
ghost use Rattle.yang_scope.specs.Nodes.{is_shape};
ghost use Rattle.yang_must.specs.Spots.{is_leaf, leaves_of, shapes_of, tables_of};

use host_core::Memory;
use std::alloc::Global;
use std::marker::Model;
use yang_scope::{ModelNode, NodeList};
use yang_text::Statement;

/// A leaf or a leaf-list. Contracts see the statement.
#[derive(Drop)]
pub(crate) struct LeafNode<'a> {
    statement: &'a Statement,
}

impl<'a> Model for LeafNode<'a> {
    ghost use Rattle.yang_text.specs.Coding.{coded_declaration};
    ghost use Rattle.yang_text.specs.Declarations.{Declaration};
    ghost use Rattle.yang_text.specs.Statements.{declaration};

    ghost Value = { Declaration };

    ghost coded = { coded_declaration };

    ghost view = { λ l. declaration l.statement.now };
}

impl<'a> ModelNode for LeafNode<'a> {
    ghost declared = { λ d. d };

    fn node_statement(&self) -> &Statement {
        self.statement
    }
}

impl<'a> LeafNode<'a> {
    /// The statement.
    pub(crate) fn statement(&self) -> &'a Statement
        ensures { declaration result.now ≡ self.now }
    {
        self.statement
    }
}

/// A list or a fixed container. Contracts see the statement.
#[derive(Drop)]
pub struct ShapeNode<'a> {
    statement: &'a Statement,
    leaves: NodeList<LeafNode<'a>>,
}

impl<'a> Model for ShapeNode<'a> {
    ghost use Rattle.std.specs.Prelude.{◌≡◌};
    ghost use Rattle.yang_text.specs.Coding.{coded_declaration};
    ghost use Rattle.yang_text.specs.Declarations.{Declaration};
    ghost use Rattle.yang_text.specs.Statements.{declaration};
    ghost use Rattle.yang_must.specs.Spots.{leaves_of};

    ghost Value = { Declaration };

    ghost coded = { coded_declaration };

    ghost view = { λ s. declaration s.statement.now };

    ghost invariant = { λ s. s.leaves ≡ leaves_of (declaration s.statement.now) };
}

impl<'a> ModelNode for ShapeNode<'a> {
    ghost declared = { λ d. d };

    fn node_statement(&self) -> &Statement {
        self.statement
    }
}

/// Some leaves, and a statement behind them where it is one.
fn with_leaf<'a>(
    alloc: Global,
    leaves: NodeList<LeafNode<'a>>,
    statement: &'a Statement,
) -> Result<NodeList<LeafNode<'a>>, Memory>
    ensures { IfOk result (λ list.
        list ≡ leaves.entry ++ filter is_leaf (declaration statement.now ∷ [])) }
{
    match statement.keyword.as_str() {
        "leaf" | "leaf-list" => leaves.with(alloc, LeafNode { statement }),
        _ => Ok(leaves),
    }
}

/// The leaves and leaf-lists among some statements.
fn leaves_in<'a>(
    alloc: Global,
    statements: &'a [Statement],
) -> Result<NodeList<LeafNode<'a>>, Memory>
    ensures { IfOk result (λ list. list ≡ filter is_leaf (map declaration statements.now)) }
{
    let mut leaves = NodeList::new(alloc);
    for statement in statements {
        leaves = with_leaf(alloc, leaves, statement)?;
    }
    Ok(leaves)
}

impl<'a> ShapeNode<'a> {
    /// A list or a fixed container, with its leaves.
    fn new(alloc: Global, statement: &'a Statement) -> Result<ShapeNode<'a>, Memory>
        ensures { IfOk result (λ s. s ≡ declaration statement.now) }
    {
        let leaves = leaves_in(alloc, statement.block.items())?;
        Ok(ShapeNode { statement, leaves })
    }

    /// The statement.
    pub fn statement(&self) -> &'a Statement
        ensures { declaration result.now ≡ self.now }
    {
        self.statement
    }

    /// The first leaf or leaf-list of a name.
    pub(crate) fn leaf_named(&self, name: &str) -> Option<&LeafNode<'a>>
        ensures { option_map (λ l. l.now) result ≡ find (is_named name.now) (leaves_of self.now) }
    {
        self.leaves.named(name)
    }
}

/// A table's container. Contracts see the statement.
#[derive(Drop)]
pub struct TableNode<'a> {
    statement: &'a Statement,
    shapes: NodeList<ShapeNode<'a>>,
}

impl<'a> Model for TableNode<'a> {
    ghost use Rattle.std.specs.Prelude.{◌≡◌};
    ghost use Rattle.yang_text.specs.Coding.{coded_declaration};
    ghost use Rattle.yang_text.specs.Declarations.{Declaration};
    ghost use Rattle.yang_text.specs.Statements.{declaration};
    ghost use Rattle.yang_must.specs.Spots.{shapes_of};

    ghost Value = { Declaration };

    ghost coded = { coded_declaration };

    ghost view = { λ t. declaration t.statement.now };

    ghost invariant = { λ t. t.shapes ≡ shapes_of (declaration t.statement.now) };
}

impl<'a> ModelNode for TableNode<'a> {
    ghost declared = { λ d. d };

    fn node_statement(&self) -> &Statement {
        self.statement
    }
}

/// Some shapes, and a statement behind them where it is one.
fn with_shape<'a>(
    alloc: Global,
    shapes: NodeList<ShapeNode<'a>>,
    statement: &'a Statement,
) -> Result<NodeList<ShapeNode<'a>>, Memory>
    ensures { IfOk result (λ list.
        list ≡ shapes.entry ++ filter is_shape (declaration statement.now ∷ [])) }
{
    match statement.keyword.as_str() {
        "list" | "container" => shapes.with(alloc, ShapeNode::new(alloc, statement)?),
        _ => Ok(shapes),
    }
}

/// The lists and fixed containers among some statements.
fn shapes_in<'a>(
    alloc: Global,
    statements: &'a [Statement],
) -> Result<NodeList<ShapeNode<'a>>, Memory>
    ensures { IfOk result (λ list. list ≡ filter is_shape (map declaration statements.now)) }
{
    let mut shapes = NodeList::new(alloc);
    for statement in statements {
        shapes = with_shape(alloc, shapes, statement)?;
    }
    Ok(shapes)
}

impl<'a> TableNode<'a> {
    /// A table's container, with the lists and fixed containers in it.
    fn new(alloc: Global, statement: &'a Statement) -> Result<TableNode<'a>, Memory>
        ensures { IfOk result (λ t. t ≡ declaration statement.now) }
    {
        let shapes = shapes_in(alloc, statement.block.items())?;
        Ok(TableNode { statement, shapes })
    }

    /// The statement.
    pub fn statement(&self) -> &'a Statement
        ensures { declaration result.now ≡ self.now }
    {
        self.statement
    }

    /// The lists and fixed containers in it, in order.
    pub fn shapes(&self) -> &[ShapeNode<'a>]
        ensures { result.now ≡ shapes_of self.now }
    {
        self.shapes.items()
    }

    /// The first list or fixed container of a name.
    pub(crate) fn shape_named(&self, name: &str) -> Option<&ShapeNode<'a>>
        ensures { option_map (λ s. s.now) result ≡ find (is_named name.now) (shapes_of self.now) }
    {
        self.shapes.named(name)
    }
}

/// A container of a module. Contracts see the statement, with the module's file and number.
#[derive(Drop)]
pub struct ContainerNode<'a> {
    file: u32,
    number: usize,
    statement: &'a Statement,
    tables: NodeList<TableNode<'a>>,
}

impl<'a> Model for ContainerNode<'a> {
    ghost use Rattle.std.specs.Prelude.{◌≡◌};
    ghost use Rattle.yang_text.specs.Statements.{declaration};
    ghost use Rattle.yang_must.specs.NodeNames.{coded_container};
    ghost use Rattle.yang_must.specs.Spots.{ModelContainer, tables_of};

    ghost Value = { ModelContainer };

    ghost coded = { coded_container };

    ghost view = { λ c.
        record { file = c.file; number = c.number; statement = declaration c.statement.now } };

    ghost invariant = { λ c. c.tables ≡ tables_of (declaration c.statement.now) };
}

impl<'a> ModelNode for ContainerNode<'a> {
    ghost declared = { λ c. c.statement };

    fn node_statement(&self) -> &Statement {
        self.statement
    }
}

/// Some tables, and a statement behind them where it is one.
fn with_table<'a>(
    alloc: Global,
    tables: NodeList<TableNode<'a>>,
    statement: &'a Statement,
) -> Result<NodeList<TableNode<'a>>, Memory>
    ensures { IfOk result (λ list. list ≡ tables.entry
        ++ filter (is_keyword (codes "container")) (declaration statement.now ∷ [])) }
{
    if statement.keyword.as_str() == "container" {
        tables.with(alloc, TableNode::new(alloc, statement)?)
    } else {
        Ok(tables)
    }
}

/// The containers among some statements of one of a module.
fn tables_in<'a>(
    alloc: Global,
    statements: &'a [Statement],
) -> Result<NodeList<TableNode<'a>>, Memory>
    ensures { IfOk result (λ list. list
        ≡ filter (is_keyword (codes "container")) (map declaration statements.now)) }
{
    let mut tables = NodeList::new(alloc);
    for statement in statements {
        tables = with_table(alloc, tables, statement)?;
    }
    Ok(tables)
}

impl<'a> ContainerNode<'a> {
    /// A container of a module, with the tables in it.
    pub(crate) fn new(
        alloc: Global,
        file: u32,
        number: usize,
        statement: &'a Statement,
    ) -> Result<ContainerNode<'a>, Memory>
        ensures { IfOk result (λ c.
            c ≡ record { file = file; number = number; statement = declaration statement.now }) }
    {
        let tables = tables_in(alloc, statement.block.items())?;
        Ok(ContainerNode {
            file,
            number,
            statement,
            tables,
        })
    }

    /// The file of its module.
    pub fn file(&self) -> u32
        ensures { result ≡ self.now.file }
    {
        self.file
    }

    /// The number of its module.
    pub fn number(&self) -> usize
        ensures { result ≡ self.now.number }
    {
        self.number
    }

    /// The statement.
    pub fn statement(&self) -> &'a Statement
        ensures { declaration result.now ≡ self.now.statement }
    {
        self.statement
    }

    /// The containers of tables in it, in order.
    pub fn tables(&self) -> &[TableNode<'a>]
        ensures { result.now ≡ tables_of self.now.statement }
    {
        self.tables.items()
    }

    /// The first table of a name.
    pub(crate) fn table_named(&self, name: &str) -> Option<&TableNode<'a>>
        ensures { option_map (λ t. t.now) result
            ≡ find (is_named name.now) (tables_of self.now.statement) }
    {
        self.tables.named(name)
    }
}
