//! The parts of lengths and ranges.
ghost use Rattle.std.specs.Prelude.{◌≡◌, ◌++◌, IfOk};
ghost use Rattle.std.specs.Option.{option_to_list};
ghost use Rattle.yang_scope.specs.Pieces.{texts};
ghost use Rattle.yang_values.specs.Parts.{lower, lowest, higher, highest, between, bound, part_of, part, all_given, parts, common_part, common_with, common};

use crate::numbers::bound_number;
use host_core::{Memory, Sequence};
use std::alloc::Global;
use yang_scope::split_pieces;
use yang_types::Bounds;

fn lower(so_far: Option<i128>, part: &Bounds) -> Option<i128>
    ensures { result ≡ lower so_far part.now }
{
    match so_far {
        Some(number) => Some(number.min(part.low)),
        None => Some(part.low),
    }
}

/// The least value within some parts.
fn lowest(parts: &[Bounds]) -> Option<i128>
    ensures { result ≡ lowest parts.now }
{
    let mut found = None;
    for part in parts {
        found = lower(found, part);
    }
    found
}

fn higher(so_far: Option<i128>, part: &Bounds) -> Option<i128>
    ensures { result ≡ higher so_far part.now }
{
    match so_far {
        Some(number) => Some(number.max(part.high)),
        None => Some(part.high),
    }
}

/// The greatest value within some parts.
fn highest(parts: &[Bounds]) -> Option<i128>
    ensures { result ≡ highest parts.now }
{
    let mut found = None;
    for part in parts {
        found = higher(found, part);
    }
    found
}

/// From one number to another, where that is not below it.
fn between(low: Option<i128>, high: Option<i128>) -> Option<Bounds>
    ensures { result ≡ between low high }
{
    match (low, high) {
        (Some(low), Some(high)) if low <= high => Some(Bounds { low, high }),
        _ => None,
    }
}

/// The number that a bound stands for, where the restricted type accepts these values.
fn bound(values: &[Bounds], text: &str) -> Option<i128>
    ensures { result ≡ bound values.now text.now }
{
    if text == "min" {
        lowest(values)
    } else if text == "max" {
        highest(values)
    } else {
        bound_number(text)
    }
}

/// The part that the pieces of a text between dots are.
fn part_of(values: &[Bounds], pieces: &[&str]) -> Option<Bounds>
    ensures { result ≡ part_of values.now (texts pieces.now) }
{
    match pieces {
        [only] => {
            let number = bound(values, only);
            between(number, number)
        }
        [low, nothing, high] => {
            if nothing.is_empty() {
                between(bound(values, low), bound(values, high))
            } else {
                None
            }
        }
        _ => None,
    }
}

/// The part that a text is.
fn part(alloc: Global, values: &[Bounds], text: &str) -> Result<Option<Bounds>, Memory>
    ensures { IfOk result (λ found. found ≡ part values.now text.now) }
{
    let pieces = split_pieces(alloc, '.', text)?;
    Ok(part_of(values, pieces.as_slice()))
}

/// The parts that some texts are, where each is one.
fn all_parts(
    alloc: Global,
    values: &[Bounds],
    pieces: &[&str],
) -> Result<Option<Sequence<Bounds>>, Memory>
    ensures { IfOk result (λ found. found ≡ all_given (part values.now) (texts pieces.now)) }
{
    let mut found = Sequence::new(alloc);
    for piece in pieces {
        match part(alloc, values, piece)? {
            Some(part) => found.push(part)?,
            None => return Ok(None),
        }
    }
    Ok(Some(found))
}

/// The parts of a length or a range, where the text is one, of a type that accepts these values.
pub(crate) fn parts(
    alloc: Global,
    values: &[Bounds],
    text: &str,
) -> Result<Option<Sequence<Bounds>>, Memory>
    ensures { IfOk result (λ found. found ≡ parts values.now text.now) }
{
    let pieces = split_pieces(alloc, '|', text)?;
    all_parts(alloc, values, pieces.as_slice())
}

/// What two parts have in common.
fn common_part(one: &Bounds, other: &Bounds) -> Option<Bounds>
    ensures { result ≡ common_part one.now other.now }
{
    between(Some(one.low.max(other.low)), Some(one.high.min(other.high)))
}

/// Adds a part, where there is one.
fn push_some(found: &mut Sequence<Bounds>, part: Option<Bounds>) -> Result<(), Memory>
    ensures { IfOk result (λ _. found.new ≡ found.old ++ option_to_list part) }
{
    match part {
        Some(part) => found.push(part),
        None => Ok(()),
    }
}

/// Adds what a part has in common with some others.
fn push_common(found: &mut Sequence<Bounds>, one: &Bounds, others: &[Bounds]) -> Result<(), Memory>
    ensures { IfOk result (λ _. found.new ≡ found.old ++ common_with others.now one.now) }
{
    for other in others {
        push_some(found, common_part(one, other))?;
    }
    Ok(())
}

/// What some parts have in common with others.
pub(crate) fn common(
    alloc: Global,
    parts: &[Bounds],
    others: &[Bounds],
) -> Result<Sequence<Bounds>, Memory>
    ensures { IfOk result (λ found. found ≡ common parts.now others.now) }
{
    let mut found = Sequence::new(alloc);
    for part in parts {
        push_common(&mut found, part, others)?;
    }
    Ok(found)
}
