//! What a leafref's path leads to, as a key part of a shape of a table.
ghost use Rattle.std.specs.Prelude.{◌≡◌, ◌+◌, ◌<◌, ◌^◌, ℕ, List, Option, cond, map, filter, option_map, option_and_then, IfOk};
ghost use Rattle.std.specs.Str.{bytes_eq};
ghost use Rattle.yang_text.specs.Statements.{declaration};
ghost use Rattle.yang_scope.specs.Paths.{container_named};
ghost use Rattle.yang_scope.specs.Pieces.{texts};
ghost use Rattle.yang_values.specs.Targets.{place_from, is_filled, part_of_key, part_in, target, target_in, target_below, target_of_pieces, target_of};

use crate::statements::first_child;
use host_core::{Memory, Txt};
use std::alloc::Global;
use yang_scope::{Names, split_pieces, step_name};
use yang_text::Statement;
use yang_types::Target;

/// The number of a name among those that are not empty.
fn place_in(name: &str, pieces: &[&str]) -> Option<usize>
    ensures { result ≡ place_from (bytes_eq name.now) 0 (filter is_filled (texts pieces.now)) }
{
    let mut before = 0;
    for piece in pieces {
        if piece.is_empty() {
            continue;
        }
        if name == *piece {
            return Some(before);
        }
        before += 1;
    }
    None
}

/// The number of a leaf among the names of the key of a list.
fn part_in(alloc: Global, name: &str, list: &Statement) -> Result<Option<usize>, Memory>
    ensures { IfOk result (λ found. found ≡ part_in name.now (declaration list.now)) }
{
    match first_child("key", list) {
        Some(key) => match &key.argument {
            Some(text) => {
                let pieces = split_pieces(alloc, ' ', text.as_str())?;
                Ok(place_in(name, pieces.as_slice()))
            }
            None => Ok(None),
        },
        None => Ok(None),
    }
}

/// A number as one of 32 bits; no memory holds so many statements that it is too great.
fn narrow(number: usize) -> Result<u32, Memory>
    ensures { IfOk result (λ same. same ≡ number) }
{
    match u32::try_from(number) {
        Ok(same) => Ok(same),
        Err(_) => Err(Memory),
    }
}

/// A key part of a shape of a table, where both are there.
fn target(
    alloc: Global,
    table: &str,
    shape: Option<usize>,
    part: Option<usize>,
) -> Result<Option<Target>, Memory>
    ensures { IfOk result (λ found. found ≡ target table.now shape part) }
{
    match (shape, part) {
        (Some(shape), Some(part)) => {
            let shape = narrow(shape)?;
            let part = narrow(part)?;
            let table = Txt::new(alloc, table)?;
            Ok(Some(Target { table, shape, part }))
        }
        _ => Ok(None),
    }
}

/// The key part of a table that a leaf of a list is, where that is there with its number.
fn target_in(
    alloc: Global,
    table: &str,
    leaf: &str,
    list: Option<(usize, &Statement)>,
) -> Result<Option<Target>, Memory>
    ensures { IfOk result (λ found. found ≡ target_in table.now leaf.now
        (option_map (λ l. (l.0, declaration l.1.now)) list.entry)) }
{
    match list {
        Some((number, list)) => {
            let part = part_in(alloc, leaf, list)?;
            target(alloc, table, Some(number), part)
        }
        None => Ok(None),
    }
}

/// The key part that the names of a container, a table, a list and a leaf lead to.
fn target_named(
    alloc: Global,
    names: &Names,
    container: &str,
    table: &str,
    list: &str,
    leaf: &str,
) -> Result<Option<Target>, Memory>
    ensures { IfOk result (λ found. found
        ≡ option_and_then (λ d. target_below table.now list.now leaf.now d.1)
        (container_named names.now container.now)) }
{
    let found = names.list_named(container, table, list);
    target_in(alloc, table, leaf, found)
}

/// The key part that the pieces of a path lead to.
fn target_of_pieces(alloc: Global, names: &Names, pieces: &[&str]) -> Result<Option<Target>, Memory>
    ensures { IfOk result (λ found. found ≡ target_of_pieces names.now (texts pieces.now)) }
{
    match pieces {
        [_, c, t, l, k] => {
            target_named(
                alloc,
                names,
                step_name(c),
                step_name(t),
                step_name(l),
                step_name(k),
            )
        }
        _ => Ok(None),
    }
}

/// The key part that a path leads to.
pub(crate) fn target_of(alloc: Global, names: &Names, path: &str) -> Result<Option<Target>, Memory>
    ensures { IfOk result (λ found. found ≡ target_of names.now path.now) }
{
    let pieces = split_pieces(alloc, '/', path)?;
    target_of_pieces(alloc, names, pieces.as_slice())
}
