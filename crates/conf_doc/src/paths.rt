//! Paths: the names of a place in a configuration. They stand behind one pointer, so that a copy of a path shares
//! them.
ghost use Rattle.std.specs.Prelude.{◌≡◌, ◌↔◌, ◌<◌, length, map, slice_get, Some, IfOk, IsTrue};
ghost use Rattle.conf_doc.specs.Paths.{IsPath};

use host_core::Memory;
use smallvec::SmallVec;
use std::alloc::Global;
use std::marker::Model;
use std::rc::Rc;

/// The place of a table, of an entry (table and key) or of a field (table, key and field's name). No
/// name is empty. Contracts see the list of the names.
#[derive(Drop)]
pub struct Path {
    names: Rc<SmallVec<String, 3>>,
}

impl Model for Path {
    ghost use Rattle.std.specs.Prelude.{List, ℕ, map, string_bytes};
    ghost use Rattle.conf_doc.specs.Paths.{IsPath};

    ghost Value = { List (List ℕ) };

    ghost view = { λ p. map string_bytes p.names.value.items };

    ghost invariant = { λ p. IsPath (map string_bytes p.names.value.items) };
}

impl Path {
    /// A path of one to three names.
    pub fn new(alloc: Global, names: &[&str]) -> Result<Path, Memory>
        requires { IsPath (map (λ n. n.now) names.now) }
        ensures { IfOk result (λ p. p ≡ map (λ n. n.now) names.now) }
    {
        let mut path = SmallVec::new(alloc);
        for name in names {
            let text = String::from_str(alloc, *name)?;
            path.push(text)?;
        }
        Ok(Path {
            names: Rc::new(alloc, path)?,
        })
    }

    /// How many names there are.
    pub fn len(&self) -> usize
        ensures len { result ≡ length self.now }
        ensures formed { IsPath self.now }
    {
        self.names.as_ref().len()
    }

    /// The name at an index, counted from 0.
    pub fn name_at(&self, i: usize) -> &str
        requires { i < length self.now }
        ensures name { slice_get self.now i ≡ Some result.now }
        ensures named { 0 < length result.now }
    {
        self.names.as_ref().as_slice()[i].as_str()
    }

    /// Whether the paths are the same.
    pub fn same(&self, other: &Path) -> bool
        ensures { IsTrue result ↔ (self.now ≡ other.now) }
    {
        self.names.as_ref().as_slice() == other.names.as_ref().as_slice()
    }

    /// The same path, with shared names.
    pub fn copy(&self, alloc: Global) -> Result<Path, Memory>
        ensures { IfOk result (λ p. p ≡ self.now) }
    {
        Ok(Path {
            names: self.names.clone()?,
        })
    }
}
