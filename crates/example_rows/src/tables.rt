//! Going through a table.
use crate::{Fail, text_at};
use serde_json::Value;
use std::fs;
use std::rt::Files;

/// What the rows of a table ask.
pub trait Table<R> {
    /// Whether the answer is what the row says, with the inputs that all rows share.
    fn is_as_said(&self, rt: &R, inputs: &Value, row: &Value) -> Result<bool, Fail>;
}

/// Asks each row of each file, with the inputs that are the last row of another file. Prints of each what those rows
/// show that aren't as said, and then how many rows there are and how many aren't.
pub fn tell_all<R: Files + Print + AllocGlobal, T: Table<R>>(
    rt: &R,
    inputs: &str,
    tables: &[(&str, T)],
) -> Result<(), Fail> {
    let inputs = read_inputs(rt, inputs)?;
    let told = tell_each(rt, &inputs, tables);
    drop(inputs);
    told
}

/// The same with these inputs.
fn tell_each<R: Files + Print + AllocGlobal, T: Table<R>>(
    rt: &R,
    inputs: &Value,
    tables: &[(&str, T)],
) -> Result<(), Fail> {
    for table in tables {
        tell(rt, inputs, table.0, &table.1)?;
    }
    Ok(())
}

/// Asks each row of a file.
fn tell<R: Files + Print + AllocGlobal, T: Table<R>>(
    rt: &R,
    inputs: &Value,
    file: &str,
    table: &T,
) -> Result<(), Fail> {
    let rows = read_rows(rt, file)?;
    let told = tell_rows(rt, inputs, file, table, &rows);
    drop(rows);
    told
}

/// The same of these rows.
fn tell_rows<R: Print + AllocGlobal, T: Table<R>>(
    rt: &R,
    inputs: &Value,
    file: &str,
    table: &T,
    rows: &[Value],
) -> Result<(), Fail> {
    let mut wrong = 0u64;
    for row in rows {
        if !is_good(rt, inputs, table, row)? {
            let what = text_at(row, "what")?;
            println!(rt; "{file}: not as said: {what}")?;
            wrong = wrong.saturating_add(1);
        }
    }
    let count = rows.len();
    println!(rt; "{file}: {count} rows, {wrong} not as said")?;
    Ok(())
}

/// Whether a row is as said. A row that lacks something isn't.
fn is_good<R, T: Table<R>>(rt: &R, inputs: &Value, table: &T, row: &Value) -> Result<bool, Fail> {
    match table.is_as_said(rt, inputs, row) {
        Err(Fail::Row) => Ok(false),
        answer => answer,
    }
}

/// The rows of a file.
fn read_rows<R: Files + AllocGlobal>(rt: &R, file: &str) -> Result<Vec<Value>, Fail> {
    let bytes = fs::read(rt, file)?;
    match Value::from_slice(rt.alloc(), &bytes) {
        Ok(Value::Array(rows)) => Ok(rows),
        Ok(other) => {
            drop(other);
            Err(Fail::Row)
        }
        Err(error) => Err(why_unread(error)),
    }
}

/// The inputs that the rows of tables share: the last row of a file.
fn read_inputs<R: Files + AllocGlobal>(rt: &R, file: &str) -> Result<Value, Fail> {
    let mut rows = read_rows(rt, file)?;
    let last = rows.pop();
    drop(rows);
    last.ok_or(Fail::Row)
}

fn why_unread(error: serde_json::Error) -> Fail {
    let is_memory = error.is_memory();
    drop(error);
    if is_memory { Fail::Memory } else { Fail::Row }
}
