//! Reading the list of the files of models.
ghost use Rattle.std.specs.Prelude.{◌≡◌, ◌<◌, ◌≤◌, ◌^◌, [], length, map, IfOk};
ghost use Rattle.std.specs.Str.Lines.{lines};
ghost use Rattle.host_core.specs.Answers.{Gives};
ghost use Rattle.yang_text.specs.Errors.{text_fault};
ghost use Rattle.gcu_inputs.specs.ModelList.{most_files, named_from, paths_within, paths_of};

use host_core::{Memory, Names, Txt};
use std::alloc::Global;
use std::str;
use yang_text::{ModelWhy, TextError};

/// How many files a list may name.
const MOST_FILES: usize = 256;

/// The paths on some lines.
fn paths_on(alloc: Global, lines: &[&str]) -> Result<Names, TextError>
    requires few { length lines.now < 2 ^ 32 }
    ensures paths { Gives (λ names. names) text_fault result
        (paths_within (named_from 1 (map (λ l. l.now) lines.now))) }
    ensures few { IfOk result (λ names. length names ≤ most_files) }
{
    let mut paths = Names::new(alloc);
    for (i, line) in lines.iter().enumerate() {
        if line.is_empty() {
            continue;
        }
        if paths.len() == MOST_FILES {
            return Err(TextError::Fault {
                line: i as u32 + 1,
                why: ModelWhy::TooMany,
            });
        }
        paths.push(Txt::new(alloc, line)?)?;
    }
    Ok(paths)
}

/// The lines of a text.
fn lines_of<'a>(alloc: Global, text: &'a str) -> Result<Vec<&'a str>, Memory>
    ensures { IfOk result (λ found. map (λ l. l.now) found.items ≡ lines text.now) }
{
    let found: Vec<&'a str> = text.lines().collect(alloc)?;
    Ok(found)
}

/// The paths in a list of files: UTF-8 text with one path a line, which a line feed ends, or a carriage
/// return and a line feed. Empty lines are skipped, and the last line needs no end. `NotUtf8`, on line 1,
/// where the bytes aren't UTF-8; `TooMany`, on the line of the 257th path, where there are more than 256.
/// A list has at most 65,536 bytes.
pub fn read_list(alloc: Global, bytes: &[u8]) -> Result<Names, TextError>
    requires { length bytes.now ≤ 65536 }
    ensures paths { Gives (λ names. names) text_fault result (paths_of bytes.now) }
    ensures few { IfOk result (λ names. length names ≤ most_files) }
{
    match str::from_utf8(bytes) {
        Ok(text) => paths_on(alloc, &lines_of(alloc, text)?),
        Err(_) => Err(TextError::Fault {
            line: 1,
            why: ModelWhy::NotUtf8,
        }),
    }
}
