//! Edits of what a path leads to.
//! What is given up goes whole to `drop`: one call to the prover, where a removal at an end has many steps.
ghost use Rattle.std.specs.Prelude.{suc, [], ◌∷◌, length, IfOk, Some};
ghost use Rattle.conf_doc.specs.Trees.{document};
ghost use Rattle.host_core.specs.Answers.{Gives};
ghost use Rattle.patch_core.specs.Apply.{edit_parent, target};
ghost use Rattle.patch_core.specs.Edits.{HandsOut, after_edit, edit_below};
ghost use Rattle.patch_core.specs.Measures.{IsMeasured};
ghost use Rattle.patch_core.specs.Stops.{stop_fault};

use crate::errors::{FailWhy, Stop};
use crate::gaps::{close_gap, open_gap};
use crate::node_edits::{Change, Edit, edit_below};
use conf_doc::Tree;
use host_core::Txt;
use std::alloc::Global;

/// The tree after an edit of what a path leads to.
pub(crate) fn edit_at(alloc: Global, path: &[Txt], edit: Edit, tree: Tree) -> Result<Change, Stop>
    ensures left { Gives (λ c. document c.tree) stop_fault result
        (after_edit edit path.now (document tree)) }
    ensures taken { IfOk result (λ c. HandsOut edit c.out (target path.now (document tree))) }
    ensures measured { IfOk result (λ c. IsMeasured edit c (length path.now) (document tree)) }
{
    match path {
        [] => Ok(edit_root(edit, tree)?),
        [token, rest @ ..] => edit_along(alloc, token, rest, edit, tree),
    }
}

/// The same at the root.
fn edit_root(edit: Edit, tree: Tree) -> Result<Change, FailWhy>
    ensures left { Gives (λ c. document c.tree) Some result (after_edit edit [] (document tree)) }
    ensures taken { IfOk result (λ c. HandsOut edit c.out (target [] (document tree))) }
    ensures measured { IfOk result (λ c. IsMeasured edit c 0 (document tree)) }
{
    match edit {
        Edit::Add(value) => Ok(Change {
            tree: value,
            out: Some(tree),
            name_in: 0,
            name_out: 0,
        }),
        Edit::Remove => Err(FailWhy::RootRemove),
        Edit::Replace(value) => Ok(Change {
            tree: value,
            out: Some(tree),
            name_in: 0,
            name_out: 0,
        }),
    }
}

/// The same along a token and the rest of the tokens. It costs the nodes on the way there, and no copy.
fn edit_along(
    alloc: Global,
    token: &Txt,
    rest: &[Txt],
    edit: Edit,
    tree: Tree,
) -> Result<Change, Stop>
    ensures left { Gives (λ c. document c.tree) stop_fault result
        (edit_parent (edit_below edit) token.now rest.now (document tree)) }
    ensures taken { IfOk result (λ c.
        HandsOut edit c.out (target (token.now ∷ rest.now) (document tree))) }
    ensures measured { IfOk result (λ c.
        IsMeasured edit c (suc (length rest.now)) (document tree)) }
{
    match rest {
        [] => edit_below(alloc, token, edit, tree),
        [next, rest @ ..] => {
            let (gap, child) = match open_gap(alloc, token, tree) {
                Ok(opened) => opened,
                Err(why) => {
                    drop(edit);
                    return Err(Stop::Fails(why));
                }
            };
            match edit_along(alloc, next, rest, edit, child) {
                Ok(
                    Change {
                        tree,
                        out,
                        name_in,
                        name_out,
                    },
                ) => Ok(Change {
                    tree: close_gap(token, gap, tree),
                    out,
                    name_in,
                    name_out,
                }),
                Err(stop) => {
                    drop(gap);
                    Err(stop)
                }
            }
        }
    }
}
