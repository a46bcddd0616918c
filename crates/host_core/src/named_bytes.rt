//! Byte strings by name, as inputs and as files.
ghost use Rattle.std.specs.Prelude.{◌≡◌, map, option_map, IsSome, IfOk, OnOk, OnErr, Some, None};
ghost use Rattle.std.specs.FinMap as finmap;
ghost use Rattle.host_core.specs.Entries.{named};
ghost use Rattle.host_core.specs.MemoryHost.{files_of};
ghost use Rattle.host_core.specs.State.{with_file};

use crate::texts::add_copy;
use crate::{Memory, Names, Sequence, Txt};
use std::alloc::Global;
use std::collections::BTreeMap;
use std::marker::Model;

/// Byte strings, each with its name.
#[derive(Drop)]
pub(crate) struct NamedBytes {
    entries: BTreeMap<String, Vec<u8>>,
}

impl Model for NamedBytes {
    ghost use Rattle.host_core.specs.State.{Files};
    ghost use Rattle.host_core.specs.Codes.{files_code};

    ghost Value = { Files };

    ghost coded = { files_code };

    ghost use Rattle.host_core.specs.Entries.{files_in};

    ghost view = { λ n. files_in n.entries.entries };
}

impl NamedBytes {
    /// None.
    pub(crate) fn new(alloc: Global) -> Self
        ensures { result ≡ finmap.empty }
    {
        NamedBytes {
            entries: BTreeMap::new(alloc),
        }
    }

    /// Those of a list. Of a name that is given twice the first one counts.
    pub(crate) fn of_pairs(alloc: Global, pairs: Vec<(Txt, Vec<u8>)>) -> Result<Self, Memory>
        ensures { IfOk result (λ n. n ≡ files_of pairs.items) }
    {
        let mut pairs = pairs;
        let mut all = NamedBytes::new(alloc);
        while let Some((name, bytes)) = pairs.pop() {
            let _ = all.put(name, bytes)?;
        }
        Ok(all)
    }

    /// The bytes at a name.
    pub(crate) fn get(&self, name: &str) -> Option<&[u8]>
        ensures { option_map (λ bytes. bytes.now) result ≡ finmap.get self.now name.now }
    {
        match self.entries.get(name) {
            None => None,
            Some(bytes) => Some(bytes.as_slice()),
        }
    }

    /// All of them.
    pub(crate) fn all(&self) -> &BTreeMap<String, Vec<u8>>
        ensures { map named result.now.entries ≡ finmap.entries self.now }
    {
        let _ = self.entries.len();
        &self.entries
    }

    /// Puts bytes at a name, and gives those that were there.
    pub(crate) fn put(&mut self, name: Txt, bytes: Vec<u8>) -> Result<Option<Vec<u8>>, Memory>
        ensures old { IfOk result (λ o. option_map (λ v. v.items) o ≡ finmap.get self.old name) }
        ensures ok { OnOk result (self.new ≡ with_file name (Some bytes.items) self.old) }
        ensures err { OnErr result (self.new ≡ self.old) }
    {
        Ok(self.entries.insert(name.into_string(), bytes)?)
    }

    /// Puts a copy of bytes at a name, and gives those that were there.
    pub(crate) fn put_copy(
        &mut self,
        alloc: Global,
        name: &str,
        bytes: &[u8],
    ) -> Result<Option<Vec<u8>>, Memory>
        ensures old { IfOk result
            (λ o. option_map (λ v. v.items) o ≡ finmap.get self.old name.now) }
        ensures ok { OnOk result (self.new ≡ with_file name.now (Some bytes.now) self.old) }
        ensures err { OnErr result (self.new ≡ self.old) }
    {
        let key = Txt::new(alloc, name)?;
        let bytes = bytes.to_vec(alloc)?;
        self.put(key, bytes)
    }

    /// Puts a copy of the bytes at the one name at the other, and gives those that were there.
    pub(crate) fn copy_to(
        &mut self,
        alloc: Global,
        from: &str,
        to: &str,
    ) -> Result<Option<Vec<u8>>, Memory>
        requires { IsSome (finmap.get self.old from.now) }
        ensures old { IfOk result (λ o. option_map (λ v. v.items) o ≡ finmap.get self.old to.now) }
        ensures ok { OnOk result
            (self.new ≡ with_file to.now (finmap.get self.old from.now) self.old) }
        ensures err { OnErr result (self.new ≡ self.old) }
    {
        let Some(bytes) = self.get(from) else {
            return Ok(None);
        };
        let bytes = bytes.to_vec(alloc)?;
        let key = Txt::new(alloc, to)?;
        self.put(key, bytes)
    }

    /// Takes the bytes at a name out.
    pub(crate) fn take(&mut self, name: &str) -> Option<Vec<u8>>
        ensures old { option_map (λ v. v.items) result ≡ finmap.get self.old name.now }
        ensures after { self.new ≡ with_file name.now None self.old }
    {
        let _ = self.entries.len();
        self.entries.remove(name)
    }

    /// Removes the bytes at a name, where there are some.
    pub(crate) fn discard(&mut self, name: &str)
        ensures { self.new ≡ with_file name.now None self.old }
    {
        let _ = self.take(name);
    }

    /// The names, in the order of their bytes.
    pub(crate) fn names(&self, alloc: Global) -> Result<Names, Memory>
        ensures { IfOk result (λ all. all ≡ finmap.keys self.now) }
    {
        let mut all = Sequence::new(alloc);
        for name in self.entries.keys() {
            add_copy(&mut all, alloc, name.as_str())?;
        }
        Ok(all)
    }
}
