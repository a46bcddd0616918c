//! Moves as operations of a patch.
ghost use Rattle.std.specs.Prelude.{◌≡◌, ◌++◌, ◌∷◌, [], IfOk};
ghost use Rattle.conf_doc.specs.Document.{text};
ghost use Rattle.conf_doc.specs.Trees.{document};
ghost use Rattle.patch_core.specs.Operation.{operation_of as patch_operation};
ghost use Rattle.move_core.specs.Operations.{index_text, op};

use crate::Move;
use conf_doc::{Path, Tree, part_tree};
use host_core::{Memory, Names, Txt};
use patch_core::{Op, Pointer};
use std::alloc::Global;

/// The operation of a patch that a move is.
pub fn operation_of(alloc: Global, mv: &Move) -> Result<Op, Memory>
    ensures { IfOk result (λ o. patch_operation o ≡ op mv.now) }
{
    match mv {
        Move::Add(path, part) => {
            let path = pointer_to(alloc, path)?;
            let value = part_tree(alloc, part)?;
            Ok(Op::Add(path, value))
        }
        Move::Remove(path) => {
            let path = pointer_to(alloc, path)?;
            Ok(Op::Remove(path))
        }
        Move::Replace(path, part) => {
            let path = pointer_to(alloc, path)?;
            let value = part_tree(alloc, part)?;
            Ok(Op::Replace(path, value))
        }
        Move::AddItem(path, index, item) => {
            let path = pointer_to_item(alloc, path, *index)?;
            let value = item_tree(alloc, item)?;
            Ok(Op::Add(path, value))
        }
        Move::RemoveItem(path, index) => {
            let path = pointer_to_item(alloc, path, *index)?;
            Ok(Op::Remove(path))
        }
    }
}

/// The document of an item.
fn item_tree(alloc: Global, item: &Txt) -> Result<Tree, Memory>
    ensures { IfOk result (λ t. document t ≡ text item.now) }
{
    Ok(Tree::Text(item.copy(alloc)?))
}

/// The pointer whose tokens are the names of a field, and behind them the index of an item of its list.
fn pointer_to_item(alloc: Global, path: &Path, index: usize) -> Result<Pointer, Memory>
    ensures { IfOk result (λ p. p.tokens ≡ path.now ++ index_text index ∷ []) }
{
    let Pointer { mut tokens } = pointer_to(alloc, path)?;
    tokens.push(index_token(alloc, index)?)?;
    Ok(Pointer { tokens })
}

/// An index in decimal.
#[tactic(auto, using(crate::proofs::IndexTokens::written_index))]
fn index_token(alloc: Global, index: usize) -> Result<Txt, Memory>
    ensures { IfOk result (λ t. t ≡ index_text index) }
{
    let digits = format!(in alloc; "{index}")?;
    Txt::new(alloc, digits.as_str())
}

/// The pointer whose tokens are the names of a place.
#[tactic(auto, using(crate::proofs::ListOrders::take_one_more, std::proofs::lemmas::List::take_all))]
fn pointer_to(alloc: Global, path: &Path) -> Result<Pointer, Memory>
    ensures { IfOk result (λ p. p.tokens ≡ path.now) }
{
    let mut tokens = Names::new(alloc);
    for i in 0..path.len() {
        let name = Txt::new(alloc, path.name_at(i))?;
        tokens.push(name)?;
    }
    Ok(Pointer { tokens })
}
