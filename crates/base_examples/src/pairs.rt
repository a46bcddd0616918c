//! What is found beside what is said of it.
use example_rows::Fail;
use serde_json::Value;

/// Puts each of what is found beside what is said of it. False where there are more or fewer.
pub fn open_all<'a, T>(
    open: &mut Vec<(&'a T, &'a Value)>,
    found: &'a [T],
    said: &'a [Value],
) -> Result<bool, Fail> {
    for pair in found.iter().zip(said) {
        open.push(pair)?;
    }
    Ok(found.len() == said.len())
}
