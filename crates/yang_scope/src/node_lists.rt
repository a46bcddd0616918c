//! Nodes of the models in order, found by their names without a walk.
ghost use Rattle.std.specs.Prelude.{◌≡◌, [], ◌∷◌, ◌++◌, find, option_copied, IfOk};
ghost use Rattle.yang_scope.specs.Paths.{is_named};

use crate::name_tables::NameTable;
use host_core::Memory;
use std::alloc::Global;
use std::marker::Model;
use yang_text::Statement;

/// A node of the models, which is a statement.
pub trait ModelNode: Drop {
    ghost use Rattle.std.specs.Prelude.{◌≡◌};
    ghost use Rattle.yang_text.specs.Declarations.{Declaration};
    ghost use Rattle.yang_text.specs.Statements.{declaration};

    /// The statement that a node is.
    ghost declared: { Self → Declaration };

    /// The statement.
    fn node_statement(&self) -> &Statement
        ensures { declaration result.now ≡ declared self.now };
}

/// Some nodes, whose statements have their arguments as names. Contracts see the list of the nodes.
#[derive(Drop)]
pub struct NodeList<N: ModelNode> {
    nodes: Vec<N>,
    names: NameTable,
}

impl<N: ModelNode> Model for NodeList<N> {
    ghost use Rattle.std.specs.Prelude.{List};
    ghost use Rattle.yang_scope.specs.NameTables.{IsTableOf};
    ghost use Rattle.yang_scope.specs.Statements.{each_from};
    ghost use Rattle.yang_scope.specs.Nodes.{node_entry};

    ghost Value = { List N };

    ghost view = { λ l. l.nodes.items };

    ghost invariant = { λ l. IsTableOf l.names.numbers
        (each_from (λ i n. node_entry i (N.declared n)) 0 l.nodes.items) };
}

impl<N: ModelNode> NodeList<N> {
    /// No nodes.
    pub fn new(alloc: Global) -> NodeList<N>
        ensures { result ≡ [] }
    {
        NodeList {
            nodes: Vec::new(alloc),
            names: NameTable::new(alloc),
        }
    }

    /// The nodes in order.
    pub fn items(&self) -> &[N]
        ensures { result.now ≡ self.now }
    {
        self.nodes.as_slice()
    }

    /// The first node of a name.
    pub fn named(&self, name: &str) -> Option<&N>
        ensures { option_copied result ≡ find (λ n. is_named name.now (N.declared n)) self.now }
    {
        match self.names.get(name) {
            Some(number) => self.nodes.get(number),
            None => None,
        }
    }

    /// The nodes, and one more behind them.
    pub fn with(self, alloc: Global, node: N) -> Result<NodeList<N>, Memory>
        ensures { IfOk result (λ list. list ≡ self ++ node ∷ []) }
    {
        let NodeList {
            mut nodes,
            mut names,
        } = self;
        names.push_some(alloc, &node.node_statement().argument, nodes.len())?;
        nodes.push(node)?;
        Ok(NodeList { nodes, names })
    }
}
