//! The nodes that an expression speaks of.
ghost use Rattle.std.specs.Prelude.{◌≡◌, ◌≢◌, ◌+◌, ◌<◌, ◌^◌, length, slice_get, Some, None, IfSome, IsTrue};
ghost use Rattle.xpath_part.specs.Nodes.{NodeTree, has_text};

/// The level of a leaf.
pub const LEAF: u8 = 4;

/// The level of an item of a leaf-list.
pub const ITEM: u8 = 5;

/// A node. `level` is 4 for a leaf, 5 for an item of a leaf-list and below 4 for every other node. What
/// the other numbers mean is up to the tree.
#[derive(Clone, Copy, Debug, PartialEq, Eq)]
pub struct Node {
    pub level: u8,
    pub table: usize,
    pub key: usize,
    pub leaf: usize,
    pub item: usize,
}

/// A tree of nodes (XPath 1.0, section 5).
pub trait Nodes {
    ghost use Rattle.xpath_part.specs.declared.nodes.Node.{Node};

    /// The tree.
    ghost tree: { Self → NodeTree };

    /// Which values are nodes of it.
    ghost is_node: { Self → Node → Type 0 };

    /// The root.
    fn root(&self) -> Node
        ensures root { result ≡ (tree self.now).root }
        ensures top { (tree self.now).parent result ≡ None }
        ensures node { is_node self.now result };

    /// The parent of a node.
    fn parent(&self, at: Node) -> Node
        requires node { is_node self.now at }
        requires below { at ≢ (tree self.now).root }
        ensures parent { (tree self.now).parent at ≡ Some result }
        ensures node { is_node self.now result };

    /// How many children of that name a node has.
    fn count(&self, at: Node, name: &str) -> usize
        requires { is_node self.now at }
        ensures { result ≡ length ((tree self.now).children at name.now) };

    /// The child at a place among those of that name, counted from 0.
    fn child(&self, at: Node, name: &str, i: usize) -> Node
        requires node { is_node self.now at }
        requires place { i < length ((tree self.now).children at name.now) }
        ensures child { slice_get ((tree self.now).children at name.now) i ≡ Some result }
        ensures node { is_node self.now result };

    /// The text of a leaf or an item.
    fn text(&self, at: Node) -> &str
        requires node { is_node self.now at }
        requires has { IsTrue (has_text at) }
        ensures { result.now ≡ (tree self.now).text at };

    /// The first child of that name.
    fn first(&self, at: Node, name: &str) -> Option<Node>
        requires { is_node self.now at }
        ensures first { result ≡ slice_get ((tree self.now).children at name.now) 0 }
        ensures node { IfSome result (is_node self.now) }
        ensures fits { length ((tree self.now).children at name.now) < 2 ^ 64 }
    {
        if self.count(at, name) > 0 {
            Some(self.child(at, name, 0))
        } else {
            None
        }
    }

    /// The child of that name after the one at a place. A tree that finds it from that child writes this.
    fn next(&self, at: Node, name: &str, i: usize, child: Node) -> Option<Node>
        requires node { is_node self.now at }
        requires place { slice_get ((tree self.now).children at name.now) i ≡ Some child }
        ensures next { result ≡ slice_get ((tree self.now).children at name.now) (i + 1) }
        ensures node { IfSome result (is_node self.now) }
    {
        let count = self.count(at, name);
        if count - i > 1 {
            Some(self.child(at, name, i + 1))
        } else {
            None
        }
    }
}
