//! Values that rows have: configurations and names.
use crate::{Fail, is_word, text_bytes, text_of};
use conf_doc::{Config, ReadError, ShapeError, Tree, config_of_tree, read_tree};
use host_core::{Names, Sequence, Txt};
use serde_json::Value;
use std::alloc::Global;

/// The configuration of the JSON text under a name.
pub fn config_at(alloc: Global, row: &Value, name: &str) -> Result<Config, Fail> {
    let bytes = text_bytes(alloc, row, name)?;
    match read_tree(alloc, &bytes) {
        Ok(tree) => config_from(alloc, tree),
        Err(ReadError::Memory) => Err(Fail::Memory),
        Err(_) => Err(Fail::Row),
    }
}

/// The configuration of a tree.
fn config_from(alloc: Global, tree: Tree) -> Result<Config, Fail> {
    match config_of_tree(alloc, tree) {
        Ok(config) => Ok(config),
        Err(ShapeError::Memory) => Err(Fail::Memory),
        Err(ShapeError::Shape { .. }) => Err(Fail::Row),
    }
}

/// The names that a list has.
pub fn names_of(alloc: Global, said: &[Value]) -> Result<Names, Fail> {
    let mut names = Sequence::new(alloc);
    for name in said {
        push_name(alloc, name, &mut names)?;
    }
    Ok(names)
}

fn push_name(alloc: Global, name: &Value, names: &mut Names) -> Result<(), Fail> {
    names.push(Txt::new(alloc, text_of(name)?)?)?;
    Ok(())
}

/// Whether the names are those that are said.
pub fn are_names(said: &[Value], names: &Names) -> bool {
    for (word, name) in said.iter().zip(names.items()) {
        if !is_word(word, name.as_str()) {
            return false;
        }
    }
    said.len() == names.len()
}
