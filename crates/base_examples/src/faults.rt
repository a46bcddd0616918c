//! Which calls of the system fail.
use example_rows::{Fail, number_at, some_number, text_or};
use serde_json::Value;
use std::cell::Cell;
use std::io;
use std::io::ErrorKind;

/// What fails.
#[derive(Clone, Copy)]
pub enum Fault {
    /// Nothing but printing.
    Nothing,
    /// Every call.
    Every,
    /// The opening of one file.
    One,
    /// The writes behind the first one, which takes half of its bytes.
    Half,
    /// The same, and no file is cut.
    HalfUncut,
}

/// The faults of a row: `kind` is that of each error, `only` the one file, and so many calls are
/// interrupted before, each of which says so and is made again.
#[derive(Drop)]
pub struct Faults<'a> {
    only: &'a str,
    kind: ErrorKind,
    now: Cell<Fault>,
    interruptions: Cell<u64>,
    listings: Cell<u64>,
}

impl<'a> Faults<'a> {
    /// Those that a row begins with.
    pub fn of(row: &'a Value) -> Self {
        Faults {
            only: text_or(row, "only", ""),
            kind: kind_of(text_or(row, "kind", "PermissionDenied")),
            now: Cell::new(fault_of(text_or(row, "fails", ""))),
            interruptions: Cell::new(some_number(row, "interruptions").unwrap_or(0)),
            listings: Cell::new(0),
        }
    }

    /// What fails from now on. That is as said.
    pub fn set(&self, call: &Value) -> bool {
        self.now.set(fault_of(text_or(call, "fails", "")));
        true
    }

    /// What fails now.
    pub fn now(&self) -> Fault {
        self.now.get()
    }

    /// The next error.
    pub fn error(&self) -> io::Error {
        let left = self.interruptions.get();
        if left == 0 {
            return io::Error::from(self.kind);
        }
        self.interruptions.set(left - 1);
        io::Error::from(ErrorKind::Interrupted)
    }

    /// Fails where every call does.
    pub fn check(&self) -> io::Result<()> {
        if matches!(self.now.get(), Fault::Every) {
            return Err(self.error());
        }
        Ok(())
    }

    /// Fails where every call does, or the opening of that file.
    pub fn check_opening(&self, path: &str) -> io::Result<()> {
        if matches!(self.now.get(), Fault::One) && self.only == path {
            return Err(self.error());
        }
        self.check()
    }

    /// A folder is listed.
    pub fn add_listing(&self) {
        self.listings.set(self.listings.get().saturating_add(1));
    }

    /// Whether so many calls are still to be interrupted, and folders were listed.
    pub fn are_as_said(&self, call: &Value) -> Result<bool, Fail> {
        let left = number_at(call, "left")?;
        let listings = number_at(call, "listings")?;
        Ok(self.interruptions.get() == left && self.listings.get() == listings)
    }
}

fn fault_of(word: &str) -> Fault {
    match word {
        "every call" => Fault::Every,
        "one file" => Fault::One,
        "half" => Fault::Half,
        "half, uncut" => Fault::HalfUncut,
        _ => Fault::Nothing,
    }
}

fn kind_of(word: &str) -> ErrorKind {
    match word {
        "NotFound" => ErrorKind::NotFound,
        "NotADirectory" => ErrorKind::NotADirectory,
        "IsADirectory" => ErrorKind::IsADirectory,
        "StorageFull" => ErrorKind::StorageFull,
        "OutOfMemory" => ErrorKind::OutOfMemory,
        _ => ErrorKind::PermissionDenied,
    }
}
