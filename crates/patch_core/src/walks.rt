//! Walks along the tokens of a pointer.
ghost use Rattle.std.specs.Prelude.{◌≡◌, ◌<◌, length, Some, Err, IfOk, IfErr};
ghost use Rattle.conf_doc.specs.Document.{list, object, items_of, members_of};
ghost use Rattle.conf_doc.specs.Trees.{document};
ghost use Rattle.host_core.specs.Answers.{Gives};
ghost use Rattle.patch_core.specs.Apply.{below, leads_into, target};
ghost use Rattle.patch_core.specs.Indexes.{index, list_token};

use crate::errors::FailWhy;
use crate::indexes::{Spot, spot_of};
use conf_doc::{Items, Members, Tree};
use host_core::Txt;

/// Whether the one path is a beginning of the other, which is longer.
pub(crate) fn leads_into(from: &[Txt], path: &[Txt]) -> bool
    ensures { result ≡ leads_into from.now path.now }
{
    for (i, token) in from.iter().enumerate() {
        if i >= path.len() || token.as_str() != path[i].as_str() {
            return false;
        }
    }
    from.len() < path.len()
}

/// The index of the item that a token names, or why it names none.
pub(crate) fn item_index(missing: FailWhy, token: &Txt, items: &Items) -> Result<usize, FailWhy>
    ensures named { IfOk result (λ i. (list_token token.now ≡ index i) × (i < length items.now)) }
    ensures missing { IfErr result (λ why.
        below missing token.now (list (items_of items.now)) ≡ Err why) }
{
    match spot_of(token, items.len()) {
        Spot::At(i) => Ok(i),
        Spot::End => Err(missing),
        Spot::Past => Err(missing),
        Spot::Dash => Err(missing),
        Spot::NoIndex => Err(FailWhy::BadIndex),
    }
}

/// The item that a token names.
fn item_below<'a>(missing: FailWhy, token: &Txt, items: &'a Items) -> Result<&'a Tree, FailWhy>
    ensures { Gives (λ t. document t.now) Some result
        (below missing token.now (list (items_of items.now))) }
{
    let i = item_index(missing, token, items)?;
    Ok(items.at(i))
}

/// The member that a token names.
fn member_below<'a>(
    missing: FailWhy,
    token: &Txt,
    members: &'a Members,
) -> Result<&'a Tree, FailWhy>
    ensures { Gives (λ t. document t.now) Some result
        (below missing token.now (object (members_of members.now))) }
{
    match members.find(token.as_str()) {
        Some(child) => Ok(child),
        None => Err(missing),
    }
}

/// What a token names in a node, or why not: `missing` where there is no such child.
pub(crate) fn below<'a>(missing: FailWhy, token: &Txt, tree: &'a Tree) -> Result<&'a Tree, FailWhy>
    ensures { Gives (λ t. document t.now) Some result
        (below missing token.now (document tree.now)) }
{
    match tree {
        Tree::Text(_) => Err(FailWhy::NoParent),
        Tree::List(items) => item_below(missing, token, items),
        Tree::Map(members) => member_below(missing, token, members),
    }
}

/// What tokens lead to.
pub(crate) fn target<'a>(tokens: &[Txt], tree: &'a Tree) -> Result<&'a Tree, FailWhy>
    ensures { Gives (λ t. document t.now) Some result (target tokens.now (document tree.now)) }
{
    match tokens {
        [] => Ok(tree),
        [token] => below(FailWhy::NoTarget, token, tree),
        [token, rest @ ..] => {
            let child = below(FailWhy::NoParent, token, tree)?;
            target(rest, child)
        }
    }
}
