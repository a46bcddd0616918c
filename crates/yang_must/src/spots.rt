//! Spots of the models' tree, and the steps between them.
ghost use Rattle.std.specs.Prelude.{◌≡◌, option_map};
ghost use Rattle.std.specs.Option.{option_to_list};
ghost use Rattle.yang_must.specs.Routes.{is_known, spot_after, start_of, may_end_at, table_at};
ghost use Rattle.yang_must.specs.SpotRefs.{spot_at};
ghost use Rattle.yang_must.specs.Spots.{spot_named, parent_spot};
ghost use Rattle.xpath_part.specs.Expressions.{step_of};

use crate::aims::Aim;
use crate::model_tree::ModelTree;
use crate::nodes::{ContainerNode, ShapeNode, TableNode};
use host_core::Txt;
use xpath_part::{Origin, Step};
use yang_text::Statement;

/// A spot of the models' tree, with the nodes that lead to it.
#[derive(Clone, Copy)]
pub enum SpotRef<'t, 'a> {
    Root,
    /// A container of a module.
    Container(&'t ContainerNode<'a>),
    /// A container of a table.
    Table(&'t ContainerNode<'a>, &'t TableNode<'a>),
    /// A list or a fixed container.
    Shape(&'t ContainerNode<'a>, &'t TableNode<'a>, &'t ShapeNode<'a>),
    /// A leaf or a leaf-list.
    Leaf(&'t ContainerNode<'a>, &'t TableNode<'a>, &'t ShapeNode<'a>, &'a Statement),
}

impl<'t, 'a> SpotRef<'t, 'a> {
    /// The spot above this one.
    fn parent(self) -> Option<SpotRef<'t, 'a>>
        ensures { option_map spot_at result ≡ parent_spot (spot_at self.entry) }
    {
        match self {
            SpotRef::Root => None,
            SpotRef::Container(_) => Some(SpotRef::Root),
            SpotRef::Table(container, _) => Some(SpotRef::Container(container)),
            SpotRef::Shape(container, table, _) => Some(SpotRef::Table(container, table)),
            SpotRef::Leaf(container, table, shape, _) => {
                Some(SpotRef::Shape(container, table, shape))
            }
        }
    }

    /// The spot of a name below this one.
    fn named(self, tree: &'t ModelTree<'a>, name: &str) -> Option<SpotRef<'t, 'a>>
        ensures { option_map spot_at result ≡ spot_named tree.now name.now (spot_at self.entry) }
    {
        match self {
            SpotRef::Root => match tree.container_named(name) {
                Some(container) => Some(SpotRef::Container(container)),
                None => None,
            },
            SpotRef::Container(container) => match container.table_named(name) {
                Some(table) => Some(SpotRef::Table(container, table)),
                None => None,
            },
            SpotRef::Table(container, table) => match table.shape_named(name) {
                Some(shape) => Some(SpotRef::Shape(container, table, shape)),
                None => None,
            },
            SpotRef::Shape(container, table, shape) => match shape.leaf_named(name) {
                Some(leaf) => Some(SpotRef::Leaf(container, table, shape, leaf.statement())),
                None => None,
            },
            SpotRef::Leaf(..) => None,
        }
    }

    /// The spot that a step of an expression in a module leads to.
    pub(crate) fn after(
        self,
        tree: &'t ModelTree<'a>,
        number: usize,
        step: &Step,
    ) -> Option<SpotRef<'t, 'a>>
        ensures { option_map spot_at result
            ≡ spot_after tree.now number (step_of step.now) (spot_at self.entry) }
    {
        match step {
            Step::Up => self.parent(),
            Step::Stay => Some(self),
            Step::Child { prefix, name, .. } => {
                if is_known(tree, number, prefix) {
                    self.named(tree, name.as_str())
                } else {
                    None
                }
            }
        }
    }

    /// Where a path starts.
    pub(crate) fn start(self, origin: Origin, current: SpotRef<'t, 'a>) -> SpotRef<'t, 'a>
        ensures { spot_at result ≡ start_of (spot_at current.entry) origin (spot_at self.entry) }
    {
        match origin {
            Origin::Root => SpotRef::Root,
            Origin::Context => self,
            Origin::Current => current,
        }
    }

    /// Whether a path may end here.
    pub(crate) fn may_end(&self, aim: Aim) -> bool
        ensures { result ≡ may_end_at aim (spot_at self.now) }
    {
        match self {
            SpotRef::Leaf(..) => true,
            SpotRef::Shape(_, _, shape) => {
                aim == Aim::Nodes && shape.statement().keyword.as_str() == "list"
            }
            SpotRef::Root | SpotRef::Container(_) | SpotRef::Table(..) => false,
        }
    }

    /// The name of the table whose container this is.
    pub(crate) fn table(&self) -> Option<&'a Txt>
        ensures { option_to_list (option_map (λ t. t.now) result) ≡ table_at (spot_at self.now) }
    {
        match self {
            SpotRef::Table(_, table) => table.statement().argument.as_ref(),
            SpotRef::Root | SpotRef::Container(_) | SpotRef::Shape(..) | SpotRef::Leaf(..) => None,
        }
    }
}

/// Whether a prefix is the module's own or an import's.
fn is_known(tree: &ModelTree, number: usize, prefix: &Option<Txt>) -> bool
    ensures { result ≡ is_known tree.now number prefix.now }
{
    match prefix {
        Some(prefix) => tree.is_prefix(number, prefix.as_str()),
        None => true,
    }
}
