//! Pointers and documents as items of lists.
ghost use Rattle.std.specs.Prelude.{IfOk};
ghost use Rattle.conf_doc.specs.Trees.{document};
ghost use Rattle.plan_texts.specs.Items.{IsIndexIn, IsItemIn, IsTextIn};

use crate::places::path_of;
use conf_doc::{Path, Tree};
use host_core::{Memory, Txt};
use std::alloc::Global;

/// How many names the place of a list has.
const NAMES: usize = 3;

/// The index that a token is. Of a token that is no index in decimal nothing is said.
fn index_in(token: &str) -> Option<usize>
    ensures { IsIndexIn token.now result }
{
    match token.parse::<usize>() {
        Ok(index) => Some(index),
        Err(_) => None,
    }
}

/// The place of a list and the index of an item in it, where tokens are these.
pub(crate) fn item_in(alloc: Global, tokens: &[Txt]) -> Result<Option<(Path, usize)>, Memory>
    ensures { IfOk result (IsItemIn tokens.now) }
{
    if tokens.len() != NAMES + 1 {
        return Ok(None);
    }
    let Some(index) = index_in(tokens[NAMES].as_str()) else {
        return Ok(None);
    };
    match path_of(alloc, &tokens[..NAMES])? {
        Some(path) => Ok(Some((path, index))),
        None => Ok(None),
    }
}

/// The text that a tree is.
pub(crate) fn text_in(tree: Tree) -> Option<Txt>
    ensures { IsTextIn (document tree) result }
{
    match tree {
        Tree::Text(text) => {
            let _text = text.as_str();
            Some(text)
        }
        other => {
            drop(other);
            None
        }
    }
}
