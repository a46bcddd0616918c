//! How the request of a restart is appended to a log: it stands there as a line of its own, or the log is
//! as it was. Where it can't be cut back, what stands there of the line is ended before the next one.
ghost use Rattle.std.specs.Prelude.{◌≡◌, ◌⊎◌, ◌++◌, ℕ, List, length, take, Option, option_map, IfOk, IfErr, IfSome, OnOk, OnErr, None, string_bytes};
ghost use Rattle.std.specs.List.{last_or};
ghost use Rattle.host_core.specs.declared.errors.HostError.TheVariants.{Memory as no_memory};
ghost use Rattle.real_host.specs.Requests.{is_open_end as is_open, restart_request, with_line};

use host_core::{Failed, HostError};
use std::alloc::Global;

/// An open log. It may tell its bytes, and then the clauses below on them hold of it.
pub(crate) trait Log {
    /// Its bytes, where it tells them.
    ghost told: { Self → Option (List ℕ) };

    /// It could not be cut.
    ghost cut_failed: { Self → Type 0 };

    /// How many bytes it has.
    fn size(&mut self) -> Result<u64, Failed>
        ensures found { IfOk result (λ n. IfSome (told self.old) (λ bytes. n ≡ length bytes)) }
        ensures told { told self.new ≡ told self.old };

    /// Its last byte, where it has any.
    fn last(&mut self) -> Result<Option<u8>, Failed>
        ensures found { IfOk result
            (λ last. IfSome (told self.old) (λ bytes. last ≡ last_or None bytes)) }
        ensures told { told self.new ≡ told self.old };

    /// Appends bytes. After `Failed` a front of them may have been appended.
    fn append(&mut self, bytes: &[u8]) -> Result<(), Failed>
        ensures ok { OnOk result
            (told self.new ≡ option_map (λ all. all ++ bytes.now) (told self.old)) }
        ensures err { OnErr result ((front : List ℕ)
            × (told self.new ≡ option_map (λ all. all ++ front) (told self.old))) };

    /// Leaves of its bytes the first ones, so many.
    fn cut(&mut self, size: u64) -> Result<(), Failed>
        ensures ok { OnOk result (told self.new ≡ option_map (take size) (told self.old)) }
        ensures err { OnErr result (told self.new ≡ told self.old) }
        ensures cause { OnErr result (cut_failed self.new) };
}

/// Appends a line to a log, behind the end of an incomplete one. Where the log does not take it whole, it
/// is cut back to its length from before.
pub(crate) fn append_line<L: Log>(log: &mut L, line: &[u8]) -> Result<(), Failed>
    ensures ok { OnOk result
        (L.told log.new ≡ option_map (with_line line.now) (L.told log.old)) }
    ensures err { OnErr result
        ((L.told log.new ≡ L.told log.old) ⊎ L.cut_failed log.new) }
    ensures stays { OnErr result ((more : List ℕ)
        × (L.told log.new ≡ option_map (λ all. all ++ more) (L.told log.old))) }
{
    let size = log.size()?;
    if append_behind_lines(log, line).is_ok() {
        return Ok(());
    }
    log.cut(size)?;
    Err(Failed)
}

/// Appends a line to a log, behind the end of an incomplete one. After an error some bytes of it may stand
/// there.
fn append_behind_lines<L: Log>(log: &mut L, line: &[u8]) -> Result<(), Failed>
    ensures ok { OnOk result
        (L.told log.new ≡ option_map (with_line line.now) (L.told log.old)) }
    ensures err { OnErr result ((more : List ℕ)
        × (L.told log.new ≡ option_map (λ all. all ++ more) (L.told log.old))) }
{
    if is_open_end(log.last()?) {
        log.append(b"\n")?;
    }
    log.append(line)
}

/// Whether a file with that last byte ends in an incomplete line.
fn is_open_end(last: Option<u8>) -> bool
    ensures { result ≡ is_open last }
{
    match last {
        None => false,
        Some(byte) => byte != b'\n',
    }
}

/// The line that requests the restart of a service.
pub(crate) fn restart_line(alloc: Global, service: &str) -> Result<String, HostError>
    ensures line { IfOk result (λ line. string_bytes line ≡ restart_request service.now) }
    ensures starved { IfErr result (λ e. e ≡ no_memory) }
{
    let mut line = String::from_str(alloc, "restart ")?;
    line.push_str(service)?;
    line.push('\n')?;
    Ok(line)
}
