//! The files of the system, of which some calls fail.
use crate::faults::Faults;
use crate::files::FaultyFile;
use std::alloc::Allocator;
use std::fmt::Display;
use std::fs::{Metadata, OpenOptions};
use std::io;
use std::rt::Files;

/// A system with faults. It prints nothing, and doesn't do what no host asks of it: it copies no file, and makes and
/// removes no folder.
#[derive(Clone, Copy)]
pub struct System<'a, R> {
    pub rt: R,
    pub faults: &'a Faults<'a>,
}

impl<R: Files> Files for System<'_, R> {
    type File = FaultyFile<R::File>;

    type Dir = R::Dir;

    fn open_file(&self, how: &OpenOptions, path: &str) -> io::Result<FaultyFile<R::File>> {
        self.faults.check_opening(path)?;
        Ok(FaultyFile {
            file: self.rt.open_file(how, path)?,
            fault: self.faults.now(),
            written: false,
        })
    }

    fn open_dir(&self, path: &str) -> io::Result<R::Dir> {
        self.faults.check()?;
        self.faults.add_listing();
        self.rt.open_dir(path)
    }

    fn metadata(&self, path: &str) -> io::Result<Metadata> {
        self.faults.check()?;
        self.rt.metadata(path)
    }

    fn symlink_metadata(&self, path: &str) -> io::Result<Metadata> {
        self.faults.check()?;
        self.rt.symlink_metadata(path)
    }

    fn copy(&self, _from: &str, _to: &str) -> io::Result<u64> {
        Err(self.faults.error())
    }

    fn rename(&self, from: &str, to: &str) -> io::Result<()> {
        self.faults.check()?;
        self.rt.rename(from, to)
    }

    fn remove_file(&self, path: &str) -> io::Result<()> {
        self.faults.check()?;
        self.rt.remove_file(path)
    }

    fn create_dir(&self, _path: &str) -> io::Result<()> {
        Err(self.faults.error())
    }

    fn remove_dir(&self, _path: &str) -> io::Result<()> {
        Err(self.faults.error())
    }

    fn remove_dir_all<B: Allocator>(&self, _alloc: B, _path: &str) -> io::Result<()> {
        Err(self.faults.error())
    }
}

impl<R> Print for System<'_, R> {
    fn print<D: Display + Drop>(&self, _value: D) -> io::Result<()> {
        Err(self.faults.error())
    }

    fn println<D: Display + Drop>(&self, _value: D) -> io::Result<()> {
        Err(self.faults.error())
    }

    fn write_all(&self, _bytes: &[u8]) -> io::Result<()> {
        Err(self.faults.error())
    }
}
