//! The files of the working folder. A call that a signal interrupts is tried again: here where std does
//! not do so itself, which opens, writes and syncs again, and `reading.rt`, which reads again.

ghost use Rattle.std.specs.Prelude.{◌≡◌, ◌↔◌, IsTrue, IsErr, IfOk, IfErr, Ok, Err, Some, None, is_ok, IsSorted};
ghost use Rattle.std.specs.IoError.{error_kind};
ghost use Rattle.host_core.specs.Names.{name_cmp};
ghost use Rattle.host_core.specs.declared.errors.HostError.TheVariants.{Failed as call_failed};
ghost use Rattle.real_host.specs.Errors.{IsMissing};
ghost use Rattle.real_host.specs.Inputs.{IsWithin};
ghost use Rattle.real_host.specs.Names.{AreDots, IsPlainName};
ghost use Rattle.real_host.specs.Turns.{IsInterrupted, AnswersInTurns};

use crate::listing::sorted_names;
use crate::opening::{make_anew, open_file};
use crate::reading::{host_error, is_kind, read_input, read_whole};
use host_core::{Failed, HostError, Input, Names};
use std::alloc::Global;
use std::fs::{File, OpenFile, OpenOptions, Permissions, ReadDir};
use std::io::{ErrorKind, Write};
use std::rt::Files;
use std::{fs, io};

/// The folder itself.
pub(crate) const FOLDER: &str = ".";

/// How often a call is made at most that a signal interrupts.
const MOST_CALLS: u64 = u64::MAX;

/// What the input at a path holds. From the working folder on, what is no file is a fault.
pub(crate) fn input_bytes<R: Files>(
    rt: &R,
    alloc: Global,
    path: &str,
    limit: u64,
) -> Result<Input, HostError>
    ensures { IfOk result (IsWithin limit) }
{
    match open_input(rt, path)? {
        None => Ok(Input::Absent),
        Some(mut file) => read_input(alloc, &mut file, limit),
    }
}

/// The bytes of the file of a name, where there is one. What is no file is a fault.
pub(crate) fn file_bytes<R: Files>(
    rt: &R,
    alloc: Global,
    name: &str,
) -> Result<Option<Vec<u8>>, HostError>
    ensures { ¬ IsPlainName name.now → result ≡ Err call_failed }
{
    if !is_plain(name) {
        return Err(HostError::Failed);
    }
    match there(open_to_read(rt, name))? {
        None => Ok(None),
        Some(mut file) => Ok(Some(read_whole(alloc, &mut file)?)),
    }
}

/// The names in the folder that are UTF-8, in the order of their bytes.
pub(crate) fn file_names<R: Files + AllocGlobal + Clone + Drop>(
    rt: &R,
    alloc: Global,
) -> Result<Names, HostError>
    ensures { IfOk result (IsSorted name_cmp) }
{
    match open_folder(rt) {
        Ok(entries) => sorted_names(alloc, entries),
        Err(error) => Err(host_error(&error)),
    }
}

/// Writes a file whole. It is made anew: what stood at its name is removed, and no link is followed.
pub(crate) fn write_file<R: Files>(rt: &R, name: &str, bytes: &[u8]) -> Result<(), Failed>
    ensures { ¬ IsPlainName name.now → IsErr result }
{
    if !is_plain(name) {
        return Err(Failed);
    }
    match make_anew(|| new_file(rt, name), || again(|| rt.remove_file(name))) {
        Ok(mut file) => done(file.write_all(bytes)),
        Err(_) => Err(Failed),
    }
}

/// Syncs the bytes of a file.
pub(crate) fn sync_file<R: Files>(rt: &R, name: &str) -> Result<(), Failed>
    ensures { ¬ IsPlainName name.now → IsErr result }
{
    if !is_plain(name) {
        return Err(Failed);
    }
    match open_to_read(rt, name) {
        Ok(file) => done(file.sync_all()),
        Err(_) => Err(Failed),
    }
}

/// Gives a file another name, and the mode of the file that stood there, where the system lets it.
pub(crate) fn rename_file<R: Files>(rt: &R, from: &str, to: &str) -> Result<(), Failed>
    ensures from { ¬ IsPlainName from.now → IsErr result }
    ensures to { ¬ IsPlainName to.now → IsErr result }
{
    if !is_plain(from) || !is_plain(to) {
        return Err(Failed);
    }
    keep_mode(rt, from, to)?;
    done(again(|| rt.rename(from, to)))
}

/// Removes a file.
pub(crate) fn remove_file<R: Files>(rt: &R, name: &str) -> Result<(), Failed>
    ensures { ¬ IsPlainName name.now → IsErr result }
{
    if !is_plain(name) {
        return Err(Failed);
    }
    done(again(|| rt.remove_file(name)))
}

/// The input at a path, or None where there is none. One from the root on is opened as it is given, so
/// that standard input and the pipe of a shell are read too.
fn open_input<R: Files>(rt: &R, path: &str) -> Result<Option<R::File>, HostError>
    ensures { IfErr result (λ e. e ≡ call_failed) }
{
    if path.starts_with('/') {
        return there(File::open(rt, path));
    }
    there(open_to_read(rt, path))
}

/// The file at a path. What is no file is not opened.
fn open_to_read<R: Files>(rt: &R, path: &str) -> io::Result<R::File> {
    open_file(&again(|| rt.metadata(path)), || File::open(rt, path))
}

/// A new file of a name at which nothing stands.
fn new_file<R: Files>(rt: &R, name: &str) -> io::Result<R::File> {
    OpenOptions::new()
        .write(true)
        .create_new(true)
        .open(rt, name)
}

/// Gives a file the mode of the one whose name it is to take, where that is one of another mode and the
/// system lets it. It is synced with that mode.
fn keep_mode<R: Files>(rt: &R, from: &str, to: &str) -> Result<(), Failed> {
    match (file_mode(rt, to), file_mode(rt, from)) {
        (Some(mode), Some(own)) if mode != own => set_mode(rt, from, mode),
        _ => Ok(()),
    }
}

/// The mode of the file of a name, where there is one.
fn file_mode<R: Files>(rt: &R, name: &str) -> Option<Permissions> {
    match again(|| rt.symlink_metadata(name)) {
        Ok(about) if about.is_file() => Some(about.permissions()),
        _ => None,
    }
}

/// Gives a file a mode, where the system lets it, and syncs it then.
fn set_mode<R: Files>(rt: &R, name: &str, mode: Permissions) -> Result<(), Failed> {
    let Ok(file) = File::open(rt, name) else {
        return Ok(());
    };
    match file.set_permissions(mode) {
        Ok(()) => done(file.sync_all()),
        Err(_) => Ok(()),
    }
}

/// What was opened, or None where there is none.
fn there<T>(opened: io::Result<T>) -> Result<Option<T>, HostError>
    ensures found { IfOk opened (λ file. result ≡ Ok (Some file)) }
    ensures missing { IfErr opened (λ e. IsMissing (error_kind e) → result ≡ Ok None) }
    ensures failed { IfErr opened (λ e. ¬ IsMissing (error_kind e) → result ≡ Err call_failed) }
    ensures fault { IfErr result (λ e. e ≡ call_failed) }
{
    match opened {
        Ok(file) => Ok(Some(file)),
        Err(error) if is_missing(&error) => Ok(None),
        Err(_) => Err(HostError::Failed),
    }
}

/// The listing of the folder.
pub(crate) fn open_folder<R: Files + AllocGlobal + Clone + Drop>(rt: &R) -> io::Result<ReadDir<R>> {
    for _turn in 1..MOST_CALLS {
        let listing = fs::read_dir(rt, FOLDER);
        if !is_interrupted(&listing) {
            return listing;
        }
    }
    fs::read_dir(rt, FOLDER)
}

/// The answer of a call, made again as long as a signal interrupts it.
pub(crate) fn again<T: Drop, F: FnMut() -> io::Result<T>>(mut call: F) -> io::Result<T>
    requires { F.IsAlwaysCallable call }
    ensures { AnswersInTurns F.step MOST_CALLS call result }
{
    for _turn in 1..MOST_CALLS {
        let answer = call();
        if !is_interrupted(&answer) {
            return answer;
        }
    }
    call()
}

/// Whether a signal interrupted a call.
fn is_interrupted<T>(answer: &io::Result<T>) -> bool
    ensures { IsTrue result ↔ IsInterrupted answer.now }
{
    match answer {
        Ok(_) => false,
        Err(error) => is_kind(error, ErrorKind::Interrupted),
    }
}

/// Whether a call was done.
pub(crate) fn done(answer: io::Result<()>) -> Result<(), Failed>
    ensures { is_ok result ≡ is_ok answer }
{
    match answer {
        Ok(()) => Ok(()),
        Err(_) => Err(Failed),
    }
}

/// Whether a name is one of the folder, and no path.
fn is_plain(name: &str) -> bool
    ensures { IsTrue result ↔ IsPlainName name.now }
{
    !name.is_empty() && !are_dots(name) && !name.as_bytes().contains(&b'/')
}

/// Whether a name is that of the folder itself or of the one above.
fn are_dots(name: &str) -> bool
    ensures { IsTrue result ↔ AreDots name.now }
{
    name == "." || name == ".."
}

/// Whether an error says that there is no file at the path.
pub(crate) fn is_missing(error: &io::Error) -> bool
    ensures { IsTrue result ↔ IsMissing (error_kind error.now) }
{
    is_kind(error, ErrorKind::NotFound) || is_kind(error, ErrorKind::NotADirectory)
}
