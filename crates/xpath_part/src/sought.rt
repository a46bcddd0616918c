//! What is sought among the nodes that a path selects.
ghost use Rattle.std.specs.Prelude.{◌≡◌};
ghost use Rattle.xpath_part.specs.Sought.{relates};

use crate::{Node, Operand};

/// How a text of one side of a comparison compares to one of the other.
#[derive(Clone, Copy)]
pub(crate) enum Relation {
    Same,
    Different,
}

/// What is sought: any node, one whose text a text stands in the relation to, or one whose text stands in
/// the relation to some text of an operand, whose context node is beside it.
#[derive(Clone, Copy)]
pub(crate) enum Sought<'a> {
    Any,
    Text(Relation, &'a str),
    Against(Relation, &'a Operand, Node),
}

impl Relation {
    pub(crate) fn relates(self, left: &str, right: &str) -> bool
        ensures { result ≡ relates self left.now right.now }
    {
        match self {
            Relation::Same => left == right,
            Relation::Different => left != right,
        }
    }
}
