//! The weight and the depth of trees, counted up to a limit.
ghost use Rattle.conf_doc.specs.Document.{depth, items_depth, items_of, items_weight, members_depth, members_of, members_weight, weight};
ghost use Rattle.conf_doc.specs.Trees.{document};
ghost use Rattle.patch_core.specs.Measures.{Leaves};

use conf_doc::{Items, Members, Tree};

/// What a tree leaves of a budget of weight, or None where it weighs more or nests deeper than the levels.
/// The count stops there.
#[cycle(weighing)]
pub(crate) fn left_after(tree: &Tree, budget: usize, levels: usize) -> Option<usize>
    ensures { Leaves result budget levels
        (weight (document tree.now)) (depth (document tree.now)) }
{
    match tree {
        Tree::Text(text) => budget.checked_sub(1)?.checked_sub(text.as_str().len()),
        Tree::List(items) => {
            left_after_items(items, budget.checked_sub(1)?, levels.checked_sub(1)?)
        }
        Tree::Map(members) => {
            left_after_members(members, budget.checked_sub(1)?, levels.checked_sub(1)?)
        }
    }
}

#[cycle(weighing)]
fn left_after_items(items: &Items, budget: usize, levels: usize) -> Option<usize>
    ensures { Leaves result budget levels
        (items_weight (items_of items.now)) (items_depth (items_of items.now)) }
{
    let mut left = budget;
    for i in 0..items.len() {
        left = left_after(items.at(i), left, levels)?;
    }
    Some(left)
}

#[cycle(weighing)]
fn left_after_members(members: &Members, budget: usize, levels: usize) -> Option<usize>
    ensures { Leaves result budget levels
        (members_weight (members_of members.now)) (members_depth (members_of members.now)) }
{
    let mut left = budget;
    for i in 0..members.len() {
        let rest = left.checked_sub(members.name_at(i).len())?;
        left = left_after(members.at(i), rest, levels)?;
    }
    Some(left)
}
