//! The words of the command line.
ghost use Rattle.std.specs.Prelude.{◌≡◌, [], IfOk, IfErr, IsErr, OnErr, map, drop, string_bytes};
ghost use Rattle.std.specs.IoError.{error_kind};
ghost use Rattle.std.specs.Vec.Iter.{into_iter_items};
ghost use Rattle.std.specs.declared.io.ErrorKind.TheVariants.{OutOfMemory as no_memory};

use crate::reading::is_kind;
use host_core::{Memory, Names, Sequence, Txt};
use std::alloc::Global;
use std::env::Args;
use std::io;
use std::io::ErrorKind;

/// The words of a command line: those after the program's name, or none where they could not be read for
/// another reason than memory, as where one of them is no UTF-8.
pub fn words(alloc: Global, line: io::Result<Args>) -> Result<Names, Memory>
    ensures read { IfOk line
        (λ all. IfOk result (λ words. words ≡ map string_bytes (drop 1 (into_iter_items all)))) }
    ensures unread { OnErr line (IfOk result (λ words. words ≡ [])) }
    ensures starved { IfErr line (λ e. error_kind e ≡ no_memory → IsErr result) }
{
    match line {
        Ok(all) => after_the_first(alloc, all),
        Err(error) if is_kind(&error, ErrorKind::OutOfMemory) => Err(Memory),
        Err(_) => Ok(Sequence::new(alloc)),
    }
}

/// The words but the first one.
fn after_the_first(alloc: Global, mut all: Args) -> Result<Names, Memory>
    ensures { IfOk result (λ words. words ≡ map string_bytes (drop 1 (into_iter_items all))) }
{
    let _name = all.next();
    texts(alloc, all)
}

/// All words that are left.
fn texts(alloc: Global, all: Args) -> Result<Names, Memory>
    ensures { IfOk result (λ words. words ≡ map string_bytes (into_iter_items all)) }
{
    let mut words = Sequence::new(alloc);
    for word in all {
        words.push(Txt::from(word))?;
    }
    Ok(words)
}
