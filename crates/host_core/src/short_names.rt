//! Names that take no memory.
ghost use Rattle.std.specs.Prelude.{◌≡◌, ◌≤◌, length};
ghost use Rattle.host_core.specs.Names.{longest_file_name};

use std::marker::Model;
use std::str;

/// How many bytes a name of a file may have.
const LONGEST_FILE_NAME: usize = 96;

/// A name of a file. Contracts see it as the list of its bytes.
#[derive(Drop)]
pub(crate) struct ShortName {
    bytes: [u8; LONGEST_FILE_NAME],
    len: usize,
}

impl Model for ShortName {
    ghost use Rattle.std.specs.Prelude.{List, ℕ, ◌≤◌, take, IsTrue};
    ghost use Rattle.std.specs.Str.{is_utf8};
    ghost use Rattle.host_core.specs.Names.{longest_file_name};

    ghost Value = { List ℕ };

    ghost view = { λ n. take n.len n.bytes };

    ghost invariant = { λ n. (n.len ≤ longest_file_name) × IsTrue (is_utf8 (take n.len n.bytes)) };
}

impl ShortName {
    /// A copy of a name.
    pub(crate) fn new(name: &str) -> Self
        requires { length name.now ≤ longest_file_name }
        ensures { result ≡ name.now }
    {
        let name = name.as_bytes();
        let mut bytes = [0; LONGEST_FILE_NAME];
        bytes[..name.len()].copy_from_slice(name);
        ShortName {
            bytes,
            len: name.len(),
        }
    }

    /// The name itself.
    pub(crate) fn as_str(&self) -> &str
        ensures { result.now ≡ self.now }
    {
        match str::from_utf8(&self.bytes[..self.len]) {
            Ok(name) => name,
            Err(_) => unreachable!(),
        }
    }

    /// The same name.
    pub(crate) fn copy(&self) -> Self
        ensures { result ≡ self.now }
    {
        ShortName {
            bytes: self.bytes,
            len: self.len,
        }
    }
}
