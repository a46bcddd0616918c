//! Reading the bytes of a file, up to a limit.
ghost use Rattle.std.specs.Prelude.{◌≡◌, ◌≢◌, ◌↔◌, IsTrue, ◌≤◌, ◌<◌, ◌*◌, ◌+◌, ◌++◌, ◌⊎◌, ℕ, List, true, false, length, take, IfOk, IfErr, IfSome, OnOk, Some, vec_len};
ghost use Rattle.std.specs.Io.{ReadsAtMost};
ghost use Rattle.std.specs.Io.KnownBytes.{Consumes, IsAtEnd};
ghost use Rattle.std.specs.IoError.{error_kind};
ghost use Rattle.host_core.specs.Inputs.{within};
ghost use Rattle.host_core.specs.declared.errors.HostError.TheVariants.{Failed as call_failed};
ghost use Rattle.host_core.specs.declared.host_calls.Input.TheVariants.{Absent};
ghost use Rattle.real_host.specs.Errors.{TellsError};
ghost use Rattle.real_host.specs.Inputs.{IsWithin};

use host_core::{HostError, Input, Sequence};
use std::alloc::Global;
use std::io;
use std::io::{ErrorKind, Read};

/// How many turns a file is read for. Each of them takes a byte at least.
const MOST_TURNS: u64 = 4_294_967_296;

/// How many bytes a turn takes at most.
const PIECE: usize = 65_536;

/// An input of at most `limit` bytes, of which one more is read.
pub fn read_input<F: Read>(alloc: Global, file: &mut F, limit: u64) -> Result<Input, HostError>
    ensures bytes { IfOk result (λ i. IfSome (F.remaining file.old)
        (λ bytes. i ≡ within limit (Some bytes))) }
    ensures limit { IfOk result (IsWithin limit) }
    ensures there { IfOk result (λ i. i ≢ Absent) }
{
    let bytes = read_up_to(alloc, file, limit.saturating_add(1))?;
    if bytes.len() as u64 > limit {
        return Ok(Input::TooBig);
    }
    Ok(Input::Bytes(Sequence::from_vec(bytes)))
}

/// All bytes of a file.
pub(crate) fn read_whole<F: Read>(alloc: Global, file: &mut F) -> Result<Vec<u8>, HostError>
    ensures bytes { IfOk result (λ v. IfSome (F.remaining file.old) (λ bytes. v.items ≡ bytes)) }
    ensures turns { IfOk result (λ v. vec_len v ≤ MOST_TURNS * PIECE) }
{
    let bytes = read_up_to(alloc, file, u64::MAX)?;
    Ok(bytes)
}

/// The first bytes of a file, `most` of them, or all where there are not so many. A file that goes on
/// after the last turn is a fault.
fn read_up_to<F: Read>(alloc: Global, file: &mut F, most: u64) -> Result<Vec<u8>, HostError>
    ensures bytes { IfOk result (λ v. IfSome (F.remaining file.old)
        (λ bytes. v.items ≡ take most bytes)) }
    ensures turns { IfOk result (λ v. vec_len v ≤ MOST_TURNS * PIECE) }
{
    read_in_turns(alloc, file, most, MOST_TURNS)
}

/// The first bytes of a file, `most` of them, or all where there are not so many, in at most so many turns.
/// Each of them takes a byte at least; a file that goes on after the last one is a fault.
pub fn read_in_turns<F: Read>(
    alloc: Global,
    file: &mut F,
    most: u64,
    turns: u64,
) -> Result<Vec<u8>, HostError>
    ensures bytes { IfOk result (λ v. IfSome (F.remaining file.old)
        (λ bytes. v.items ≡ take most bytes)) }
    ensures turns { IfOk result (λ v. vec_len v ≤ turns * PIECE) }
{
    let mut bytes = Vec::new(alloc);
    let mut piece = [0; PIECE];
    for _turn in 0..turns {
        if !read_more(file, &mut piece, &mut bytes, most)? {
            return Ok(bytes);
        }
    }
    Err(HostError::Failed)
}

/// Appends the next bytes of a file, by way of a piece, until there are `most`. Says whether it took any.
fn read_more<F: Read>(
    file: &mut F,
    piece: &mut [u8],
    bytes: &mut Vec<u8>,
    most: u64,
) -> Result<bool, HostError>
    requires room { vec_len bytes.old ≤ most }
    requires piece { 0 < length piece.old }
    ensures room { vec_len bytes.new ≤ most }
    ensures piece { vec_len bytes.new ≤ vec_len bytes.old + length piece.old }
    ensures taken { OnOk result ((taken : List ℕ) × (bytes.new.items ≡ bytes.old.items ++ taken)
        × Consumes (F.remaining file.old) (F.remaining file.new) taken) }
    ensures end { IfOk result (λ more. more ≡ false
        → (vec_len bytes.new ≡ most) ⊎ IsAtEnd (F.remaining file.new)) }
    ensures more { IfOk result (λ more. more ≡ true → vec_len bytes.old < vec_len bytes.new) }
{
    let room = (most - bytes.len() as u64).min(piece.len() as u64) as usize;
    if room == 0 {
        return Ok(false);
    }
    let count = read_once(file, &mut piece[..room])?;
    match bytes.extend_from_slice(&piece[..count]) {
        Ok(()) => Ok(count > 0),
        Err(_) => Err(HostError::Memory),
    }
}

/// One read, again where a signal interrupts it.
pub(crate) fn read_once<F: Read>(file: &mut F, piece: &mut [u8]) -> Result<usize, HostError>
    ensures bound { ReadsAtMost result piece.new }
    ensures taken { IfOk result
        (λ n. Consumes (F.remaining file.old) (F.remaining file.new) (take n piece.new)) }
    ensures end { IfOk result
        (λ n. n ≡ 0 → 0 < length piece.old → IsAtEnd (F.remaining file.new)) }
    ensures fault { IfErr result (λ e. e ≡ call_failed) }
{
    for _ in 0..u64::MAX {
        match file.read(piece) {
            Ok(count) => return Ok(count),
            Err(error) if is_kind(&error, ErrorKind::Interrupted) => {}
            Err(_) => return Err(HostError::Failed),
        }
    }
    Err(HostError::Failed)
}

/// What the host tells of an error.
pub(crate) fn host_error(error: &io::Error) -> HostError
    ensures { TellsError (error_kind error.now) result }
{
    if is_kind(error, ErrorKind::OutOfMemory) {
        HostError::Memory
    } else {
        HostError::Failed
    }
}

/// Whether an error is of a kind. Two kinds are compared here alone: there are 42 of them, and a proof
/// that compares them is long.
pub(crate) fn is_kind(error: &io::Error, kind: ErrorKind) -> bool
    ensures { IsTrue result ↔ (error_kind error.now ≡ kind) }
{
    error.kind() == kind
}
