//! YANG texts: their statements, or their first fault.
use crate::pairs::open_all;
use example_rows::{Fail, is_null, is_number, is_word, items_at, items_of, written_at};
use serde_json::Value;
use std::alloc::Global;
use yang_text::{ModelWhy, Statement, TextError, parse};

/// How many bytes a text may have.
const MOST_BYTES: usize = 1_048_576;

/// A row has a `text` and its `statements`, each as its keyword, argument, line, first byte, end and
/// block, or the line and the name of the `fault`.
pub fn is_text_as_said(alloc: Global, row: &Value) -> Result<bool, Fail> {
    let bytes = written_at(alloc, row, "text")?;
    if bytes.len() > MOST_BYTES {
        return Err(Fail::Row);
    }
    match parse(alloc, &bytes) {
        Ok(statements) => {
            let as_said = are_said(alloc, row, statements.items());
            drop(statements);
            as_said
        }
        Err(TextError::Fault { line, why }) => is_fault(items_at(row, "fault")?, line, why),
        Err(TextError::Memory) => Err(Fail::Memory),
    }
}

fn is_fault(said: &[Value], line: u32, why: ModelWhy) -> Result<bool, Fail> {
    match said {
        [at, name] => Ok(is_number(at, u64::from(line)) && is_word(name, name_of(why))),
        _ => Err(Fail::Row),
    }
}

/// The name of a fault of a text.
fn name_of(why: ModelWhy) -> &'static str {
    match why {
        ModelWhy::NotUtf8 => "NotUtf8",
        ModelWhy::BadToken => "BadToken",
        ModelWhy::Unbalanced => "Unbalanced",
        ModelWhy::TooDeep => "TooDeep",
        _ => "of a model",
    }
}

/// Whether statements are those of the row, with all in their blocks.
fn are_said(alloc: Global, row: &Value, statements: &[Statement]) -> Result<bool, Fail> {
    let said = items_at(row, "statements")?;
    let mut open = Vec::new(alloc);
    let mut same = open_all(&mut open, statements, said)?;
    for _ in 0..u64::MAX {
        let Some((statement, said)) = open.pop() else {
            return Ok(same);
        };
        let [head @ .., block] = items_of(said)? else {
            return Err(Fail::Row);
        };
        let block = items_of(block)?;
        same = same
            && is_head(statement, head)
            && open_all(&mut open, statement.block.items(), block)?;
    }
    Ok(false)
}

/// Whether keyword, argument, line and span are as said.
fn is_head(statement: &Statement, said: &[Value]) -> bool {
    let [keyword, argument, line, start, end] = said else {
        return false;
    };
    let same_argument = match &statement.argument {
        Some(text) => is_word(argument, text.as_str()),
        None => is_null(argument),
    };
    let same_span = is_number(start, statement.start) && is_number(end, statement.end);
    let same_line = is_number(line, u64::from(statement.line));
    is_word(keyword, statement.keyword.as_str()) && same_argument && same_line && same_span
}
