//! Open files that may take half of a write.
use crate::faults::Fault;
use std::fs::{Metadata, OpenFile, Permissions};
use std::io;
use std::io::{ErrorKind, Read, Seek, SeekFrom, Write};

/// An open file of the system, and what of it fails.
#[derive(Drop)]
pub struct FaultyFile<F> {
    pub file: F,
    pub fault: Fault,
    /// Whether the first write was made.
    pub written: bool,
}

impl<F> FaultyFile<F> {
    fn takes_half(&self) -> bool {
        matches!(self.fault, Fault::Half | Fault::HalfUncut)
    }
}

impl<F: Read> Read for FaultyFile<F> {
    fn read(&mut self, buffer: &mut [u8]) -> io::Result<usize> {
        self.file.read(buffer)
    }
}

impl<F: Write> Write for FaultyFile<F> {
    fn write(&mut self, bytes: &[u8]) -> io::Result<usize> {
        if !self.takes_half() {
            return self.file.write(bytes);
        }
        if self.written {
            return Err(io::Error::from(ErrorKind::StorageFull));
        }
        self.written = true;
        self.file.write(&bytes[..bytes.len() / 2])
    }

    fn flush(&mut self) -> io::Result<()> {
        self.file.flush()
    }
}

impl<F: Seek> Seek for FaultyFile<F> {
    fn seek(&mut self, to: SeekFrom) -> io::Result<u64> {
        self.file.seek(to)
    }
}

impl<F: OpenFile> OpenFile for FaultyFile<F> {
    fn metadata(&self) -> io::Result<Metadata> {
        self.file.metadata()
    }

    fn set_len(&self, size: u64) -> io::Result<()> {
        if matches!(self.fault, Fault::HalfUncut) {
            return Err(io::Error::from(ErrorKind::PermissionDenied));
        }
        self.file.set_len(size)
    }

    fn sync_all(&self) -> io::Result<()> {
        self.file.sync_all()
    }

    fn sync_data(&self) -> io::Result<()> {
        self.file.sync_data()
    }

    fn set_permissions(&self, mode: Permissions) -> io::Result<()> {
        self.file.set_permissions(mode)
    }
}
