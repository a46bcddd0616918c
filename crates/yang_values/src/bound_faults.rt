//! What is wrong with the lengths and ranges of types.
ghost use Rattle.std.specs.Prelude.{◌≡◌, OnOk};
ghost use Rattle.yang_text.specs.Declarations.{argument};
ghost use Rattle.yang_text.specs.Statements.{declaration};
ghost use Rattle.yang_scope.specs.Faults.{least_of};
ghost use Rattle.yang_scope.specs.Meanings.{base_of};
ghost use Rattle.yang_values.specs.BoundFaults.{bad_if_bounds, bad_bounds};
ghost use Rattle.yang_values.specs.Values.{restricted_values};

use crate::values::{is_restriction, parts_at};
use host_core::Memory;
use std::alloc::Global;
use yang_scope::{Fault, Names, note};
use yang_text::{ModelWhy, Statement};

/// A statement in a type statement, where it is a length or a range that isn't of its form.
fn note_if_bounds(
    alloc: Global,
    least: &mut Option<Fault>,
    names: &Names,
    file: u32,
    number: usize,
    statement: &Statement,
    child: &Statement,
) -> Result<(), Memory>
    ensures { OnOk result (let d = declaration statement.now in
        least.new ≡ least_of least.old
        (bad_if_bounds (base_of names.now number (argument d))
        (restricted_values names.now number d) file (declaration child.now))) }
{
    if !is_restriction(names.base_of(number, &statement.argument), child) {
        return Ok(());
    }
    match &child.argument {
        Some(text) => match parts_at(alloc, names, number, statement, text.as_str()) {
            Ok(Some(parts)) => {
                drop(parts);
                Ok(())
            }
            Ok(None) => {
                note(least, file, child.line, ModelWhy::BadArgument);
                Ok(())
            }
            Err(memory) => Err(memory),
        },
        None => Ok(()),
    }
}

/// The lengths and ranges of a type statement of a module that aren't of their form, or whose lower
/// bound is above the upper (RFC 7950, sections 9.2.4 and 9.4.4). At a string only lengths are looked
/// at, at a number only ranges, and at what has no base both.
pub fn note_bad_bounds(
    alloc: Global,
    least: &mut Option<Fault>,
    names: &Names,
    file: u32,
    number: usize,
    statement: &Statement,
) -> Result<(), Memory>
    ensures { OnOk result (least.new ≡ least_of least.old
        (bad_bounds names.now file number (declaration statement.now))) }
{
    for child in statement.block.items() {
        note_if_bounds(alloc, least, names, file, number, statement, child)?;
    }
    Ok(())
}
