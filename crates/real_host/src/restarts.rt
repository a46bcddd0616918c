//! The log of restarts in the working folder.
ghost use Rattle.std.specs.Prelude.{None, ⊤};

use crate::folder::{again, done};
use crate::opening::open_file;
use crate::reading::read_once;
use crate::requests::{Log, append_line, restart_line};
use host_core::Failed;
use std::fs::{OpenFile, OpenOptions};
use std::io;
use std::io::{Read, Seek, SeekFrom, Write};
use std::rt::Files;

/// Where the requests of restarts are appended.
const RESTARTS_LOG: &str = "restarts.log";

/// Appends the request of a restart to the log.
pub(crate) fn log_restart<R: Files + AllocGlobal>(rt: &R, service: &str) -> Result<(), Failed> {
    let Ok(line) = restart_line(rt.alloc(), service) else {
        return Err(Failed);
    };
    match open_log(rt) {
        Ok(file) => append_line(&mut OpenLog { file }, line.as_bytes()),
        Err(_) => Err(Failed),
    }
}

/// The log, made where it is not there. What is no file is not opened.
fn open_log<R: Files>(rt: &R) -> io::Result<R::File> {
    let about = again(|| rt.metadata(RESTARTS_LOG));
    open_file(&about, || {
        OpenOptions::new()
            .read(true)
            .append(true)
            .create(true)
            .open(rt, RESTARTS_LOG)
    })
}

/// A log that is open to be read and appended to. It tells nothing.
#[derive(Drop)]
struct OpenLog<F> {
    file: F,
}

impl<F: Read + Write + Seek + OpenFile> Log for OpenLog<F> {
    ghost use Rattle.std.specs.Prelude.{None, ⊤};

    ghost told = { λ _. None };

    ghost cut_failed = { λ _. ⊤ };

    fn size(&mut self) -> Result<u64, Failed> {
        match self.file.metadata() {
            Ok(about) => Ok(about.len()),
            Err(_) => Err(Failed),
        }
    }

    fn last(&mut self) -> Result<Option<u8>, Failed> {
        if self.size()? == 0 {
            return Ok(None);
        }
        if self.file.seek(SeekFrom::End(-1)).is_err() {
            return Err(Failed);
        }
        next_byte(&mut self.file)
    }

    fn append(&mut self, bytes: &[u8]) -> Result<(), Failed> {
        done(self.file.write_all(bytes))
    }

    fn cut(&mut self, size: u64) -> Result<(), Failed> {
        done(self.file.set_len(size))
    }
}

/// The next byte of a file, where there is one.
fn next_byte<F: Read>(file: &mut F) -> Result<Option<u8>, Failed> {
    let mut byte = [0];
    match read_once(file, &mut byte) {
        Ok(0) => Ok(None),
        Ok(_) => Ok(Some(byte[0])),
        Err(_) => Err(Failed),
    }
}
