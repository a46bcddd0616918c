//! How a file of the folder is opened and made, where something else may lie in its way.
ghost use Rattle.std.specs.Prelude.{◌≡◌, ◌↔◌, IsTrue, IsErrAnd, Ok, None};
ghost use Rattle.std.specs.IoError.{error_kind};
ghost use Rattle.real_host.specs.Openings.{IsOdd, IsForeign, IsLeftFile, MakesAnew};

use crate::folder::is_missing;
use crate::reading::is_kind;
use crate::scratch_names::is_own_scratch;
use host_core::Failed;
use std::fs::Metadata;
use std::io;
use std::io::ErrorKind;

/// Opens what stands at a path, but for what is no file: a pipe would be waited for.
pub(crate) fn open_file<T, O: FnOnce() -> io::Result<T> + Drop>(
    about: &io::Result<Metadata>,
    call: O,
) -> io::Result<T>
    requires { O.IsAlwaysCallable call }
    ensures odd { IsOdd about.now → IsErrAnd result (λ e. error_kind e ≡ ErrorKind.InvalidInput) }
    ensures plain { ¬ IsOdd about.now → O.post call result }
{
    if is_odd(about) {
        return Err(io::Error::from(ErrorKind::InvalidInput));
    }
    call()
}

/// Opens a file that an earlier command may have left. What is no file is none of them, nor what is gone,
/// nor what may not be opened, unless a command writes a file of that name.
pub(crate) fn open_left<T, O: FnOnce() -> io::Result<T> + Drop>(
    name: &str,
    about: &io::Result<Metadata>,
    call: O,
) -> Result<Option<T>, Failed>
    requires { O.IsAlwaysCallable call }
    ensures odd { IsOdd about.now → result ≡ Ok None }
    ensures plain { ¬ IsOdd about.now
        → ((opened : _) × O.post call opened × IsLeftFile name.now opened result) }
{
    if is_odd(about) {
        return Ok(None);
    }
    match call() {
        Ok(file) => Ok(Some(file)),
        Err(error) if is_foreign(name, &error) => Ok(None),
        Err(_) => Err(Failed),
    }
}

/// What making a file gives. Where something stands in its way, that is removed, and the file is made then.
pub(crate) fn make_anew<T, M: FnMut() -> io::Result<T>, D: FnOnce() -> io::Result<()> + Drop>(
    mut make: M,
    remove: D,
) -> io::Result<T>
    requires make { M.IsAlwaysCallable make }
    requires remove { D.IsAlwaysCallable remove }
    ensures { MakesAnew M.step D.post make remove result }
{
    match make() {
        Err(error) if is_kind(&error, ErrorKind::AlreadyExists) => {
            remove()?;
            make()
        }
        made => made,
    }
}

/// Whether something that is no file stands there.
fn is_odd(about: &io::Result<Metadata>) -> bool
    ensures { IsTrue result ↔ IsOdd about.now }
{
    match about {
        Ok(about) => !about.is_file(),
        Err(_) => false,
    }
}

/// Whether an error says that the file of a name is gone, or none that a command wrote.
fn is_foreign(name: &str, error: &io::Error) -> bool
    ensures { IsTrue result ↔ IsForeign name.now (error_kind error.now) }
{
    is_missing(error) || (is_kind(error, ErrorKind::PermissionDenied) && !is_own_scratch(name))
}
