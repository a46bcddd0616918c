//! Checkpoints of the old format with their files in format 2.
ghost use Rattle.std.specs.Prelude.{◌≡◌, ◌≤◌, ◌<◌, [], length, map, slice_get, OnErr, OnOk, Some};
ghost use Rattle.host_core.specs.Names.{longest_plain_name};
ghost use Rattle.checkpoints.specs.Names.{point_file as file_of};

use host_core::{Memory, Txt};
use std::alloc::Global;
use std::marker::Model;

/// The name of a checkpoint, that of its file, and the text that this gets.
#[derive(Drop)]
pub(crate) struct Rewrite {
    pub(crate) name: Txt,
    pub(crate) file: Txt,
    pub(crate) text: Vec<u8>,
    ghost named: { file ≡ file_of name },
    ghost short: { length file ≤ longest_plain_name },
}

/// All that is written where the checkpoints of the old format are put anew in format 2. Contracts see the
/// list of each one's name and the new text of its file, in the order of the names.
#[derive(Drop)]
pub struct Migration {
    rewrites: Vec<Rewrite>,
}

impl Model for Migration {
    ghost use Rattle.std.specs.Prelude.{List, ℕ, map};
    ghost use Rattle.std.specs.Coded.{coded×, coded_list, coded_ℕ};

    ghost Value = { List (List ℕ × List ℕ) };

    ghost use Rattle.checkpoints.specs.Rewrites.{rewrite_view};

    ghost view = { λ m. map rewrite_view m.rewrites.items };
}

impl Migration {
    ghost use Rattle.checkpoints.specs.Rewrites.{rewrite_view, with_found};

    /// Nothing to be written, which takes no memory.
    pub(crate) fn new(alloc: Global) -> Migration
        ensures { result ≡ [] }
    {
        Migration {
            rewrites: Vec::new(alloc),
        }
    }

    /// Adds one at the end, where there is one. Without memory the list stays as it was.
    pub(crate) fn add(&mut self, found: Option<Rewrite>) -> Result<(), Memory>
        ensures ok { OnOk result (self.new ≡ with_found self.old found) }
        ensures err { OnErr result (self.new ≡ self.old) }
    {
        match found {
            Some(rewrite) => Ok(self.rewrites.push(rewrite)?),
            None => Ok(()),
        }
    }

    /// How many checkpoints are put anew.
    pub fn len(&self) -> usize
        ensures { result ≡ length self.now }
    {
        self.rewrites.len()
    }

    /// The name of one, counted from 0 in the order of the names.
    pub fn name_at(&self, i: usize) -> &str
        requires { i < length self.now }
        ensures { slice_get (map (λ n. n.0) self.now) i ≡ Some result.now }
    {
        self.at(i).name.as_str()
    }

    /// The one at an index.
    pub(crate) fn at(&self, i: usize) -> &Rewrite
        requires { i < length self.now }
        ensures { slice_get self.now i ≡ Some (rewrite_view result.now) }
    {
        &self.rewrites[i]
    }
}
