//! A set of texts, and whether an entry has one of them.
ghost use Rattle.std.specs.Prelude.{◌≡◌, ◌⊎◌, ℕ, List, IfOk, IsTrue, OnOk};
ghost use Rattle.std.specs.List.{Contains};
ghost use Rattle.std.specs.BTreeSet.{contains_text};
ghost use Rattle.key_split.specs.Key.{key_parts};
ghost use Rattle.ref_index.specs.Texts.{Has, HasNoneOf, HasText, texts_of_value};

use conf_doc::{Entry, Value};
use host_core::{Memory, Names};
use std::alloc::Global;
use std::collections::BTreeSet;

/// A set of texts.
#[derive(Drop)]
pub(crate) struct TextSet {
    texts: BTreeSet<String>,
}

impl TextSet {
    /// No texts, which take no memory.
    pub(crate) fn new(alloc: Global) -> TextSet {
        TextSet {
            texts: BTreeSet::new(alloc),
        }
    }

    /// Whether a text is there.
    fn has(&self, text: &str) -> bool
        ensures { result ≡ contains_text self.now.texts text.now }
    {
        self.texts.contains(text)
    }

    /// Adds a text.
    fn add(&mut self, alloc: Global, text: &str) -> Result<(), Memory>
        ensures { OnOk result
            ((s : List ℕ) → Has self.old s ⊎ (text.now ≡ s) → Has self.new s) }
    {
        let copy = String::from_str(alloc, text)?;
        self.texts.insert(copy)?;
        Ok(())
    }

    /// Adds the parts of a key.
    pub(crate) fn add_parts(&mut self, alloc: Global, key: &str) -> Result<(), Memory>
        ensures { OnOk result ((s : List ℕ) → Has self.old s
            ⊎ Contains (key_parts key.now) s → Has self.new s) }
    {
        for part in key.split('|') {
            self.add(alloc, part)?;
        }
        Ok(())
    }

    /// Whether a part of the key is there.
    fn has_part(&self, key: &str) -> bool
        ensures { (s : List ℕ) → Has self.now s
            → Contains (key_parts key.now) s → IsTrue result }
    {
        for part in key.split('|') {
            if self.has(part) {
                return true;
            }
        }
        false
    }

    /// Whether one of the items is there.
    fn has_item(&self, items: &Names) -> bool
        ensures { (s : List ℕ) → Has self.now s → Contains items.now s → IsTrue result }
    {
        for item in items.items() {
            if self.has(item.as_str()) {
                return true;
            }
        }
        false
    }

    /// Whether a value's text or one of its items is there.
    fn has_value(&self, value: &Value) -> bool
        ensures { (s : List ℕ) → Has self.now s
            → Contains (texts_of_value value.now) s → IsTrue result }
    {
        match value {
            Value::Text(text) => self.has(text.as_str()),
            Value::List(items) => self.has_item(items),
        }
    }

    /// Whether one of an entry's texts is there: a part of its key, a field or an item of one.
    pub(crate) fn has_one_of(&self, key: &str, fields: &Entry) -> bool
        ensures { (s : List ℕ) → Has self.now s
            → HasText key.now fields.now s → IsTrue result }
    {
        if self.has_part(key) {
            return true;
        }
        for i in 0..fields.len() {
            if self.has_value(fields.part_at(i)) {
                return true;
            }
        }
        false
    }
}
