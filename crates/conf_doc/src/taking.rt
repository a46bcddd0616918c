//! Configurations turned into trees: names and texts are taken over, and copied only where another
//! configuration shares them.
ghost use Rattle.std.specs.Prelude.{◌≡◌, map, IfOk, Ok};
ghost use Rattle.conf_doc.specs.Configuration.{mapping, tree};
ghost use Rattle.conf_doc.specs.Document.{text};
ghost use Rattle.conf_doc.specs.Shaping.{shaping};
ghost use Rattle.conf_doc.specs.Trees.{document};

use crate::sorted::Sorted;
use crate::writing::{Written, member_of};
use crate::{Config, Entry, Items, Members, Table, Tree, Value};
use host_core::{Memory, Names, Txt};
use std::alloc::Global;
use std::rc::Rc;

/// The tree that a configuration is, which is given up for it: what no other configuration shares isn't
/// copied.
pub fn tree_of_config(alloc: Global, config: Config) -> Result<Tree, Memory>
    ensures tree { IfOk result (λ t. document t ≡ tree config) }
    ensures shapes_back { IfOk result (λ t. shaping (document t) ≡ Ok config) }
{
    let _ = config.len();
    let tree = config.into_tree(alloc)?;
    Ok(tree)
}

/// A part of a configuration that is given up for its tree.
trait Taken: Drop + Written {
    fn into_tree(self, alloc: Global) -> Result<Tree, Memory>
        ensures { IfOk result (λ t. document t ≡ Self.as_document self) };
}

impl Taken for Config {
    fn into_tree(self, alloc: Global) -> Result<Tree, Memory> {
        let Config { tables } = self;
        take_parts(alloc, tables)
    }
}

impl Taken for Table {
    fn into_tree(self, alloc: Global) -> Result<Tree, Memory> {
        let Table { entries } = self;
        take_parts(alloc, entries.into_list())
    }
}

impl Taken for Entry {
    fn into_tree(self, alloc: Global) -> Result<Tree, Memory> {
        let Entry { fields } = self;
        take_parts(alloc, fields)
    }
}

impl Taken for Value {
    fn into_tree(self, alloc: Global) -> Result<Tree, Memory> {
        match self {
            Value::Text(text) => Ok(Tree::Text(text)),
            Value::List(texts) => match take_texts(alloc, texts) {
                Ok(items) => Ok(Tree::List(items)),
                Err(_) => Err(Memory),
            },
        }
    }
}

fn take_parts<X: Taken>(alloc: Global, parts: Sorted<X>) -> Result<Tree, Memory>
    ensures { IfOk result (λ t. document t ≡ mapping X.as_document parts) }
{
    let mut members = Vec::with_capacity(alloc, parts.len())?;
    for pair in parts.into_pairs() {
        let member = take_pair(alloc, pair)?;
        members.push(member)?;
    }
    Ok(Tree::Map(Members::from_sorted(members)))
}

/// The member that a pair is, which is copied where it is shared.
fn take_pair<X: Taken>(alloc: Global, pair: Rc<(Txt, X)>) -> Result<(Txt, Tree), Memory>
    ensures name { IfOk result (λ m. m.0 ≡ pair.value.0) }
    ensures tree { IfOk result (λ m. document m.1 ≡ X.as_document pair.value.1) }
{
    match Rc::try_unwrap(pair) {
        Ok((name, part)) => {
            let tree = part.into_tree(alloc)?;
            Ok((name, tree))
        }
        Err(shared) => member_of(alloc, shared.as_ref()),
    }
}

fn take_texts(alloc: Global, texts: Names) -> Result<Items, Memory>
    ensures { IfOk result (λ items. items ≡ map text texts) }
{
    let mut items = Items::new(alloc);
    for text in texts.into_vec() {
        items.push(Tree::Text(text))?;
    }
    Ok(items)
}
