//! The text of a plan.
ghost use Rattle.std.specs.Prelude.{◌≡◌, ◌++◌, OnOk, IfOk};
ghost use Rattle.conf_doc.specs.Texts.{compact};
ghost use Rattle.patch_core.specs.Writing.{operation_document};
ghost use Rattle.move_core.specs.Operations.{count_line, number_text, op, plan_line, plan_text};

use crate::operations::operation_of;
use crate::{Move, Plan};
use host_core::Memory;
use patch_core::operation_bytes;
use std::alloc::Global;

/// The text of a plan: how many steps it has, then for each step its number from 1 and the compact text
/// of its operation, a line each.
pub fn plan_text(alloc: Global, plan: &Plan) -> Result<Vec<u8>, Memory>
    ensures { IfOk result (λ b. b.items ≡ plan_text plan.now) }
{
    let mut text = Vec::new(alloc);
    write_count(alloc, plan.len(), &mut text)?;
    for (i, mv) in plan.items().iter().enumerate() {
        write_step(alloc, i + 1, mv, &mut text)?;
    }
    Ok(text)
}

/// The first line.
fn write_count(alloc: Global, count: usize, text: &mut Vec<u8>) -> Result<(), Memory>
    ensures { OnOk result (text.new.items ≡ text.old.items ++ count_line count) }
{
    let line = format!(in alloc; "plan {count}\n")?;
    text.extend_from_slice(line.as_bytes())?;
    Ok(())
}

/// The line of a step.
#[tactic(auto, using(std::proofs::Common::append_assoc))]
fn write_step(alloc: Global, number: usize, mv: &Move, text: &mut Vec<u8>) -> Result<(), Memory>
    ensures { OnOk result (text.new.items ≡ text.old.items ++ plan_line number mv.now) }
{
    let operation = operation_text(alloc, mv)?;
    write_number(alloc, number, text)?;
    text.extend_from_slice(operation.as_slice())?;
    text.push(b'\n')?;
    Ok(())
}

/// The compact text of a move's operation.
fn operation_text(alloc: Global, mv: &Move) -> Result<Vec<u8>, Memory>
    ensures { IfOk result (λ b. b.items ≡ compact (operation_document (op mv.now))) }
{
    let operation = operation_of(alloc, mv)?;
    operation_bytes(alloc, &operation)
}

/// A number and a space.
fn write_number(alloc: Global, number: usize, text: &mut Vec<u8>) -> Result<(), Memory>
    ensures { OnOk result (text.new.items ≡ text.old.items ++ number_text number) }
{
    let line = format!(in alloc; "{number} ")?;
    text.extend_from_slice(line.as_bytes())?;
    Ok(())
}
