//! Scripts.
ghost use Rattle.std.specs.Prelude.{◌≡◌, ◌≤◌, ◌∷◌, ◌++◌, IfOk, MatchOption, length, false};
ghost use Rattle.std.specs.List.{All};
ghost use Rattle.host_core.specs.Answers.{Gives};
ghost use Rattle.host_core.specs.Characters.{line_feed};
ghost use Rattle.gcu_words.specs.Scripts.{AreNamed, is_feed, most_lines, script};
ghost use Rattle.gcu_words.specs.ScriptFaults.{script_fault};

use crate::ScriptError;
use crate::script_lines::{Script, read_line};
use std::alloc::Global;

/// How many lines a script may have.
const MOST_LINES: u32 = 256;

/// Reads a script: one event a line, each line with its line feed. `BadScript` is told of the first line that has
/// no form, of the last one where it has no line feed, and of the 257th.
pub fn read_script(alloc: Global, bytes: &[u8]) -> Result<Script, ScriptError>
    ensures script { Gives (λ lines. lines) script_fault result (script bytes.now) }
    ensures few { IfOk result (λ lines. length lines ≤ most_lines) }
    ensures named { IfOk result AreNamed }
{
    read_lines(alloc, bytes)
}

/// Reads the lines of a script in turn.
fn read_lines(alloc: Global, bytes: &[u8]) -> Result<Script, ScriptError>
    ensures script { Gives (λ lines. lines) script_fault result (script bytes.now) }
    ensures few { IfOk result (λ lines. length lines ≤ most_lines) }
{
    let mut lines = Script::new(alloc);
    let mut rest = bytes;
    for number in 0..MOST_LINES {
        if rest.is_empty() {
            return Ok(lines);
        }
        let Some((bytes, after)) = split_line(rest) else {
            return Err(ScriptError::BadScript { line: number + 1 });
        };
        match read_line(alloc, bytes)? {
            Some(line) => lines.push(line)?,
            None => return Err(ScriptError::BadScript { line: number + 1 }),
        }
        rest = after;
    }
    if rest.is_empty() {
        return Ok(lines);
    }
    Err(ScriptError::BadScript {
        line: MOST_LINES + 1,
    })
}

/// The first line of a text without its line feed, and what follows it. A text without a line feed has no line.
fn split_line(text: &[u8]) -> Option<(&[u8], &[u8])>
    ensures { MatchOption result (All (λ b. is_feed b ≡ false) text.now)
        (λ x. All (λ b. is_feed b ≡ false) x.0.now × (text.now ≡ x.0.now ++ line_feed ∷ x.1.now)) }
{
    for i in 0..text.len() {
        if text[i] == b'\n' {
            return Some((&text[..i], &text[i + 1..]));
        }
    }
    None
}
