//! A key seen as its parts, and the key of some parts.
ghost use Rattle.std.specs.Prelude.{◌≡◌, ◌<◌, length, map, option_map, slice_get, All, IfOk};
ghost use Rattle.key_split.specs.Key.{key_parts, HasNoBar, ArePartsOf};

use host_core::{Memory, Txt};
use std::alloc::Global;
use std::marker::Model;

/// The key of an entry, whose parts are slices of it. Contracts see it as the bytes of the key.
#[derive(Drop)]
pub struct KeyView<'a> {
    key: &'a str,
}

impl<'a> Model for KeyView<'a> {
    ghost use Rattle.std.specs.Prelude.{List, ℕ};

    ghost Value = { List ℕ };

    ghost view = { λ v. v.key.now };
}

impl<'a> KeyView<'a> {
    /// A view of a key. Every text is one, the empty text too.
    pub fn new(key: &'a str) -> KeyView<'a>
        ensures { result ≡ key.now }
    {
        KeyView { key }
    }

    /// The whole key.
    pub fn key(&self) -> &'a str
        ensures { result.now ≡ self.now }
    {
        self.key
    }

    /// How many parts there are: at least one. One walk over the key.
    pub fn parts(&self) -> usize
        ensures { result ≡ length (key_parts self.now) }
    {
        self.key.split('|').count()
    }

    /// The part at a place, counted from 0, or None from the number of parts on. One walk over the key.
    pub fn part(&self, i: usize) -> Option<&'a str>
        ensures { option_map (λ part. part.now) result ≡ slice_get (key_parts self.now) i }
    {
        self.key.split('|').nth(i)
    }
}

/// The key of these parts.
pub fn join(alloc: Global, parts: &[&str]) -> Result<Txt, Memory>
    requires some { 0 < length parts.now }
    requires plain { All (λ part. HasNoBar part.now) parts.now }
    ensures { IfOk result (λ key. ArePartsOf key (map (λ part. part.now) parts.now)) }
{
    match parts.join(alloc, "|") {
        Ok(key) => Ok(Txt::from(key)),
        Err(_) => Err(Memory),
    }
}
