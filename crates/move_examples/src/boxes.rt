//! What the boxes of a kit give and answer, and the list of moves.
ghost use Rattle.std.specs.Prelude.{◌<◌, All, IfOk};
ghost use Rattle.move_core.specs.Contexts.{IsResult};
ghost use Rattle.move_core.specs.Moves.{IsDefined};
ghost use Rattle.move_examples.specs.Situations.{IsReady};

use crate::move_texts::{Lines, are_lines, line_with, move_text, place_text};
use crate::ranks::{are_listed, class_name};
use crate::situations::Situation;
use conf_doc::Config;
use example_rows::{Fail, items_at, push_word};
use host_core::Memory;
use move_core::{Boxes as KitBoxes, Generated, Kit, Move, Moves, listed_moves_are_defined, step};
use move_lists::listed;
use serde_json::Value;
use std::alloc::Global;

/// The numbers of the kinds.
const KINDS: [&str; 5] = ["1", "2", "3", "4", "5"];

/// A row has a situation and the `list` there: each move has its `tier`, its number of `extensions`, its `class` and
/// the `move`. `boxes` has in any order what is `generated`, each the number of a generator, the class, the place and
/// the move; what each listed move is `extended` by, with the number of an extender and the move that it gives; which
/// rules it is `refused` by, each by its number; and whether its result is the `same` as before.
pub fn are_boxes_as_said(
    alloc: Global,
    kit: &mut Kit,
    situation: &Situation,
    row: &Value,
) -> Result<bool, Fail>
    requires kinds { ⟦<Kit as KitBoxes>⟧.HasKinds kit.old }
    requires ready { IsReady situation.now }
{
    let list = items_at(row, "list")?;
    let said = items_at(row, "boxes")?;
    let mut lines = Vec::new(alloc);
    let told = tell_all(alloc, situation, kit, list, &mut lines);
    let same = are_lines(alloc, &mut lines, said);
    drop(lines);
    Ok(told? && same?)
}

/// Adds what all boxes give and answer, and tells whether the list is what is said.
fn tell_all(
    alloc: Global,
    situation: &Situation,
    kit: &mut Kit,
    list: &[Value],
    lines: &mut Lines,
) -> Result<bool, Fail>
    requires kinds { ⟦<Kit as KitBoxes>⟧.HasKinds kit.old }
    requires ready { IsReady situation.now }
{
    generate_all(alloc, situation, kit, lines)?;
    let moves = listed_moves(alloc, situation, kit)?;
    let told = tell_moves(alloc, situation, kit, moves.items(), lines);
    let same = are_listed(alloc, moves.items(), list);
    drop(moves);
    told?;
    same
}

/// Adds the moves of all generators, a line each.
fn generate_all(
    alloc: Global,
    situation: &Situation,
    kit: &mut Kit,
    lines: &mut Lines,
) -> Result<(), Fail>
    requires kinds { ⟦<Kit as KitBoxes>⟧.HasKinds kit.old }
    requires ready { IsReady situation.now }
    ensures kinds { ⟦<Kit as KitBoxes>⟧.HasKinds kit.new }
{
    generate(alloc, situation, kit, 0, lines)?;
    generate(alloc, situation, kit, 1, lines)?;
    generate(alloc, situation, kit, 2, lines)?;
    generate(alloc, situation, kit, 3, lines)?;
    generate(alloc, situation, kit, 4, lines)
}

/// Adds the moves of the generator at an index.
fn generate(
    alloc: Global,
    situation: &Situation,
    kit: &mut Kit,
    i: usize,
    lines: &mut Lines,
) -> Result<(), Fail>
    requires kinds { ⟦<Kit as KitBoxes>⟧.HasKinds kit.old }
    requires ready { IsReady situation.now }
    requires at { i < 5 }
    ensures kinds { ⟦<Kit as KitBoxes>⟧.HasKinds kit.new }
{
    let Situation { ctx, cur, goal, .. } = situation;
    let mut out = Vec::new(alloc);
    let pushed = match kit.moves_at(alloc, i, ctx, cur, goal, &mut out) {
        Ok(()) => push_generated(alloc, KINDS[i], &out, lines),
        Err(Memory) => Err(Fail::Memory),
    };
    drop(out);
    pushed
}

/// Adds a line for each of the moves of a generator.
fn push_generated(
    alloc: Global,
    kind: &str,
    moves: &[Generated],
    lines: &mut Lines,
) -> Result<(), Fail> {
    for generated in moves {
        lines.push(generated_line(alloc, kind, generated)?)?;
    }
    Ok(())
}

fn generated_line(alloc: Global, kind: &str, generated: &Generated) -> Result<Vec<u8>, Fail> {
    let place = place_text(alloc, &generated.place)?;
    let class = class_name(generated.class);
    let mut line = line_with(alloc, "generated", kind.as_bytes())?;
    push_word(&mut line, class.as_bytes())?;
    push_word(&mut line, place.as_str().as_bytes())?;
    push_word(&mut line, &move_text(alloc, &generated.mv)?)?;
    Ok(line)
}

/// The list of moves, each of which is defined.
fn listed_moves(alloc: Global, situation: &Situation, kit: &mut Kit) -> Result<Moves, Fail>
    requires kinds { ⟦<Kit as KitBoxes>⟧.HasKinds kit.old }
    requires ready { IsReady situation.now }
    ensures kinds { ⟦<Kit as KitBoxes>⟧.HasKinds kit.new }
    ensures defined { IfOk result (All (IsDefined situation.now.cur)) }
{
    let Situation {
        ctx,
        start,
        cur,
        goal,
    } = situation;
    listed_moves_are_defined();
    let _tables = cur.len();
    Ok(listed(alloc, ctx, kit, start, cur, goal)?)
}

/// Adds what extenders give and rules answer of each move.
fn tell_moves(
    alloc: Global,
    situation: &Situation,
    kit: &mut Kit,
    moves: &[Move],
    lines: &mut Lines,
) -> Result<(), Fail>
    requires kinds { ⟦<Kit as KitBoxes>⟧.HasKinds kit.old }
    requires ready { IsReady situation.now }
    requires defined { All (IsDefined situation.now.cur) moves.now }
{
    match moves {
        [] => Ok(()),
        [mv, rest @ ..] => {
            tell_move(alloc, situation, kit, mv, lines)?;
            tell_moves(alloc, situation, kit, rest, lines)
        }
    }
}

/// Adds what extenders give and rules answer of a move.
fn tell_move(
    alloc: Global,
    situation: &Situation,
    kit: &mut Kit,
    mv: &Move,
    lines: &mut Lines,
) -> Result<(), Fail>
    requires kinds { ⟦<Kit as KitBoxes>⟧.HasKinds kit.old }
    requires ready { IsReady situation.now }
    requires defined { IsDefined situation.now.cur mv.now }
    ensures kinds { ⟦<Kit as KitBoxes>⟧.HasKinds kit.new }
{
    extend(alloc, situation, kit, 0, mv, lines)?;
    extend(alloc, situation, kit, 1, mv, lines)?;
    extend(alloc, situation, kit, 2, mv, lines)?;
    extend(alloc, situation, kit, 3, mv, lines)?;
    kit.begin(&situation.ctx);
    let next = step(alloc, &situation.cur, mv)?;
    let told = tell_next(alloc, situation, kit, &next, mv, lines);
    drop(next);
    told
}

/// Adds what the extender at an index gives.
fn extend(
    alloc: Global,
    situation: &Situation,
    kit: &mut Kit,
    i: usize,
    mv: &Move,
    lines: &mut Lines,
) -> Result<(), Fail>
    requires kinds { ⟦<Kit as KitBoxes>⟧.HasKinds kit.old }
    requires ready { IsReady situation.now }
    requires at { i < 4 }
    requires defined { IsDefined situation.now.cur mv.now }
    ensures kinds { ⟦<Kit as KitBoxes>⟧.HasKinds kit.new }
{
    let Situation { ctx, cur, goal, .. } = situation;
    let mut out = Vec::new(alloc);
    let pushed = match kit.extend_at(alloc, i, ctx, cur, goal, mv, &mut out) {
        Ok(()) => push_extensions(alloc, KINDS[i], mv, &out, lines),
        Err(Memory) => Err(Fail::Memory),
    };
    drop(out);
    pushed
}

/// Adds a line for each of the moves that an extender gives of a move.
fn push_extensions(
    alloc: Global,
    kind: &str,
    mv: &Move,
    moves: &[Move],
    lines: &mut Lines,
) -> Result<(), Fail> {
    let text = move_text(alloc, mv)?;
    for extension in moves {
        lines.push(extension_line(alloc, kind, &text, extension)?)?;
    }
    Ok(())
}

fn extension_line(
    alloc: Global,
    kind: &str,
    text: &[u8],
    extension: &Move,
) -> Result<Vec<u8>, Fail> {
    let mut line = line_with(alloc, "extended", text)?;
    push_word(&mut line, kind.as_bytes())?;
    push_word(&mut line, &move_text(alloc, extension)?)?;
    Ok(line)
}

/// Adds whether a move's result is the same as before, and which rules refuse it.
fn tell_next(
    alloc: Global,
    situation: &Situation,
    kit: &mut Kit,
    next: &Config,
    mv: &Move,
    lines: &mut Lines,
) -> Result<(), Fail>
    requires kinds { ⟦<Kit as KitBoxes>⟧.HasKinds kit.old }
    requires fits { ⟦<Kit as KitBoxes>⟧.IsFit kit.old situation.now.ctx.models }
    requires ready { IsReady situation.now }
    requires next { IsResult situation.now.cur mv.now next.now }
    ensures kinds { ⟦<Kit as KitBoxes>⟧.HasKinds kit.new }
{
    let text = move_text(alloc, mv)?;
    if next.same(&situation.cur) {
        lines.push(line_with(alloc, "same", &text)?)?;
    }
    judge_all(alloc, situation, kit, next, mv, &text, lines)
}

/// Adds which rules refuse a move with that text.
fn judge_all(
    alloc: Global,
    situation: &Situation,
    kit: &mut Kit,
    next: &Config,
    mv: &Move,
    text: &[u8],
    lines: &mut Lines,
) -> Result<(), Fail>
    requires kinds { ⟦<Kit as KitBoxes>⟧.HasKinds kit.old }
    requires fits { ⟦<Kit as KitBoxes>⟧.IsFit kit.old situation.now.ctx.models }
    requires ready { IsReady situation.now }
    requires next { IsResult situation.now.cur mv.now next.now }
    ensures kinds { ⟦<Kit as KitBoxes>⟧.HasKinds kit.new }
{
    judge(alloc, situation, kit, 0, next, mv, text, lines)?;
    judge(alloc, situation, kit, 1, next, mv, text, lines)?;
    judge(alloc, situation, kit, 2, next, mv, text, lines)?;
    judge(alloc, situation, kit, 3, next, mv, text, lines)?;
    judge(alloc, situation, kit, 4, next, mv, text, lines)
}

/// Adds the number of the rule at an index, where it says no.
fn judge(
    alloc: Global,
    situation: &Situation,
    kit: &mut Kit,
    i: usize,
    next: &Config,
    mv: &Move,
    text: &[u8],
    lines: &mut Lines,
) -> Result<(), Fail>
    requires kinds { ⟦<Kit as KitBoxes>⟧.HasKinds kit.old }
    requires fits { ⟦<Kit as KitBoxes>⟧.IsFit kit.old situation.now.ctx.models }
    requires ready { IsReady situation.now }
    requires at { i < 5 }
    requires next { IsResult situation.now.cur mv.now next.now }
    ensures kinds { ⟦<Kit as KitBoxes>⟧.HasKinds kit.new }
    ensures fits { ⟦<Kit as KitBoxes>⟧.IsFit kit.new situation.now.ctx.models }
{
    let Situation { ctx, cur, goal, .. } = situation;
    if !kit.allows_at(i, ctx, cur, next, goal, mv) {
        push_refusal(alloc, KINDS[i], text, lines)?;
    }
    Ok(())
}

/// Adds that a rule refuses a move with that text.
fn push_refusal(alloc: Global, kind: &str, text: &[u8], lines: &mut Lines) -> Result<(), Fail> {
    let mut line = line_with(alloc, "refused", text)?;
    push_word(&mut line, kind.as_bytes())?;
    lines.push(line)?;
    Ok(())
}
