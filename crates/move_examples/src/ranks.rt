//! Moves with the ranks that rows say, in the order of the list.
use crate::move_texts::move_text;
use example_rows::{Fail, byte_at, is_text, items_at, size_at, text_at, written_at};
use move_core::{Move, Plan, Ranked, cmp_listed};
use plan_texts::{PlanError, read_plan};
use serde_json::Value;
use std::alloc::Global;

/// How many bytes the text of a plan may have.
const MOST_BYTES: usize = 4_194_304;

/// A row has `moves` in order, as the lines of a plan, and the `list` of their ranks, each its `tier`, its number of
/// `extensions` and its `class`.
pub fn is_order_as_said(alloc: Global, row: &Value) -> Result<bool, Fail> {
    let said = items_at(row, "list")?;
    let moves = moves_at(alloc, row)?;
    let in_order = are_ranked(alloc, moves.items(), said);
    drop(moves);
    in_order
}

/// The moves of a row, which are the lines of a plan.
pub fn moves_at(alloc: Global, row: &Value) -> Result<Plan, Fail> {
    let text = written_at(alloc, row, "moves")?;
    if text.len() > MOST_BYTES {
        return Err(Fail::Row);
    }
    match read_plan(alloc, &text) {
        Ok(moves) => Ok(moves),
        Err(PlanError::BadPlan { .. }) => Err(Fail::Row),
        Err(PlanError::Memory) => Err(Fail::Memory),
    }
}

/// Whether moves are those of a list, and in order with the ranks there.
pub fn are_listed(alloc: Global, moves: &[Move], said: &[Value]) -> Result<bool, Fail> {
    for (mv, row) in moves.iter().zip(said) {
        if !is_move(alloc, mv, row)? {
            return Ok(false);
        }
    }
    are_ranked(alloc, moves, said)
}

/// Whether a move is that of a row.
fn is_move(alloc: Global, mv: &Move, row: &Value) -> Result<bool, Fail> {
    let text = move_text(alloc, mv)?;
    is_text(alloc, row, "move", &text)
}

/// Whether as many moves as ranks are said are in order with these.
fn are_ranked(alloc: Global, moves: &[Move], said: &[Value]) -> Result<bool, Fail> {
    let mut ranked = Vec::new(alloc);
    let pushed = push_ranked(alloc, moves, said, &mut ranked);
    let in_order = are_in_order(&ranked);
    drop(ranked);
    pushed?;
    Ok(in_order && moves.len() == said.len())
}

/// Adds the moves with the ranks that are said.
fn push_ranked(
    alloc: Global,
    moves: &[Move],
    said: &[Value],
    ranked: &mut Vec<Ranked>,
) -> Result<(), Fail> {
    for (mv, row) in moves.iter().zip(said) {
        ranked.push(ranked_copy(alloc, mv, row)?)?;
    }
    Ok(())
}

/// A copy of a move with the rank of a row.
fn ranked_copy(alloc: Global, mv: &Move, row: &Value) -> Result<Ranked, Fail> {
    let tier = byte_at(row, "tier")?;
    let depth = size_at(row, "extensions")?;
    let class = class_named(text_at(row, "class")?)?;
    let mv = mv.copy(alloc)?;
    Ok(Ranked {
        tier,
        depth,
        class,
        mv,
    })
}

/// Whether each two compare as their numbers do.
fn are_in_order(ranked: &[Ranked]) -> bool {
    for (i, one) in ranked.iter().enumerate() {
        if !stands_at(ranked, i, one) {
            return false;
        }
    }
    true
}

/// Whether a move compares with each one as its number does.
fn stands_at(ranked: &[Ranked], i: usize, one: &Ranked) -> bool {
    for (j, other) in ranked.iter().enumerate() {
        if cmp_listed(one, other) != i.cmp(&j) {
            return false;
        }
    }
    true
}

fn class_named(name: &str) -> Result<u8, Fail> {
    match name {
        "table" => Ok(0),
        "key" => Ok(1),
        "item" => Ok(2),
        "field" => Ok(3),
        "seed" => Ok(4),
        _ => Err(Fail::Row),
    }
}

/// The name of a class.
pub fn class_name(class: u8) -> &'static str {
    match class {
        0 => "table",
        1 => "key",
        2 => "item",
        3 => "field",
        _ => "seed",
    }
}
