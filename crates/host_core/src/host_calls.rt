//! The host that a command works on: where its inputs come from, where its files lie, where it prints
//! and where it requests restarts.
ghost use Rattle.std.specs.Prelude.{◌≡◌, ◌≤◌, ℕ, List, length, Option, Some, None, option_map, IfOk, IfSome, OnOk, OnErr, IsErrOf};
ghost use Rattle.host_core.specs.Counts.{Counts, Rose, InputMayRise, DiskMayRise, PrintMayRise, ServiceMayRise};
ghost use Rattle.host_core.specs.Crashes.{Left, MayLeaveNow, MayLeaveInPrint, Elapses, Passes};
ghost use Rattle.host_core.specs.Inputs.{input_of};
ghost use Rattle.host_core.specs.State.{State, settled, dirty, file, names as names_of, CanWrite, CanMove, with_file, rename as with_name, after_write, with_pending, after_listing, ListsOrNot, printed, PrintsPart, after_restart};
ghost use Rattle.host_core.specs.declared.errors.HostError.TheVariants.{Failed as call_failed};

use crate::{Failed, HostError, Names, Sequence};
use std::alloc::Global;

/// What an input holds.
#[derive(Drop)]
pub enum Input {
    /// There is no such input.
    Absent,
    /// It has more bytes than the limit.
    TooBig,
    /// All its bytes.
    Bytes(Sequence<u8>),
}

/// What a command works on. A host may tell its state, and then the clauses below on inputs, files,
/// output, restarts and crashes hold of it. The four counts of faults never fall.
pub trait Host {
    /// The state, where the host tells it.
    ghost told: { Self → Option State };

    /// How many faults there were.
    ghost counts: { Self → Counts };

    /// How many bytes a name of a file may have.
    ghost longest_name: { ℕ };

    /// The moment, as a number that doesn't fall.
    ghost moment: { Self → ℕ };

    /// What a crash at some moment from that one on might have left, during a call or between two.
    ghost left_since: { Self → ℕ → Left → Type 0 };

    /// What ties a host to itself earlier, whatever calls there were in between.
    ghost goes_on: { Self → Self → Type 0 };

    /// Reads an input of at most `limit` bytes. `Failed` comes only where the input count rose.
    fn input(&mut self, alloc: Global, path: &str, limit: u64) -> Result<Input, HostError>
        ensures found { IfOk result (λ i. IfSome (told self.old)
            (λ s. i ≡ input_of s path.now limit)) }
        ensures told { told self.new ≡ told self.old }
        ensures counts { InputMayRise (counts self.old) (counts self.new) }
        ensures cause { IsErrOf result call_failed
            → Rose (counts self.old).input (counts self.new).input }
        ensures time { Elapses moment left_since self.old self.new (MayLeaveNow (told self.new)) }
        ensures goes { goes_on self.old self.new };

    /// The names of the files of the folder, in the order of their bytes. `Failed` comes only where the
    /// disk count rose.
    fn list(&mut self, alloc: Global) -> Result<Names, HostError>
        ensures found { IfOk result (λ all. IfSome (told self.old) (λ s. all ≡ names_of s)) }
        ensures told { told self.new ≡ told self.old }
        ensures counts { DiskMayRise (counts self.old) (counts self.new) }
        ensures cause { IsErrOf result call_failed
            → Rose (counts self.old).disk (counts self.new).disk }
        ensures time { Elapses moment left_since self.old self.new (MayLeaveNow (told self.new)) }
        ensures goes { goes_on self.old self.new };

    /// Reads a file of the folder, or None where there is no such file. `Failed` comes only where the
    /// disk count rose.
    fn read(&mut self, alloc: Global, name: &str) -> Result<Option<Vec<u8>>, HostError>
        requires { length name.now ≤ longest_name }
        ensures found { IfOk result (λ r. IfSome (told self.old)
            (λ s. option_map (λ v. v.items) r ≡ file s name.now)) }
        ensures told { told self.new ≡ told self.old }
        ensures counts { DiskMayRise (counts self.old) (counts self.new) }
        ensures cause { IsErrOf result call_failed
            → Rose (counts self.old).disk (counts self.new).disk }
        ensures time { Elapses moment left_since self.old self.new (MayLeaveNow (told self.new)) }
        ensures goes { goes_on self.old self.new };

    /// Writes a file of the folder, whole: it reads so, and until a `sync` a crash may leave any bytes of
    /// that name or no such file. After `Failed`, which comes only where the disk count rose, any bytes may
    /// stand there or none.
    fn write(&mut self, name: &str, bytes: &[u8]) -> Result<(), Failed>
        requires name { length name.now ≤ longest_name }
        requires ready { IfSome (told self.old) (CanWrite name.now) }
        ensures ok { OnOk result
            (told self.new ≡ option_map (after_write name.now (Some bytes.now)) (told self.old)) }
        ensures err { OnErr result ((content : Option (List ℕ))
            × (told self.new ≡ option_map (after_write name.now content) (told self.old))) }
        ensures counts { DiskMayRise (counts self.old) (counts self.new) }
        ensures cause { OnErr result (Rose (counts self.old).disk (counts self.new).disk) }
        ensures time { Elapses moment left_since self.old self.new (MayLeaveNow (told self.new)) }
        ensures goes { goes_on self.old self.new };

    /// Makes the bytes of a file last: a crash leaves them. `Failed` comes only where the disk count rose.
    fn sync(&mut self, name: &str) -> Result<(), Failed>
        requires name { length name.now ≤ longest_name }
        requires ready { IfSome (told self.old) (CanWrite name.now) }
        ensures ok { OnOk result
            (told self.new ≡ option_map (with_pending settled) (told self.old)) }
        ensures err { OnErr result
            (told self.new ≡ option_map (with_pending (dirty name.now)) (told self.old)) }
        ensures counts { DiskMayRise (counts self.old) (counts self.new) }
        ensures cause { OnErr result (Rose (counts self.old).disk (counts self.new).disk) }
        ensures time { Elapses moment left_since self.old self.new (MayLeaveNow (told self.new)) }
        ensures goes { goes_on self.old self.new };

    /// Gives a file another name, at which another file may stand. Until it is settled a crash may leave
    /// the files as they were. `Failed` comes only where the disk count rose.
    fn rename(&mut self, from: &str, to: &str) -> Result<(), Failed>
        requires from { length from.now ≤ longest_name }
        requires to { length to.now ≤ longest_name }
        requires ready { IfSome (told self.old) (CanMove from.now) }
        ensures ok { OnOk result
            (told self.new
            ≡ option_map (after_listing (with_name from.now to.now)) (told self.old)) }
        ensures err { OnErr result
            (ListsOrNot (with_name from.now to.now) (told self.old) (told self.new)) }
        ensures counts { DiskMayRise (counts self.old) (counts self.new) }
        ensures cause { OnErr result (Rose (counts self.old).disk (counts self.new).disk) }
        ensures time { Elapses moment left_since self.old self.new (MayLeaveNow (told self.new)) }
        ensures goes { goes_on self.old self.new };

    /// Removes a file. Until it is settled a crash may leave the files as they were. `Failed` comes only
    /// where the disk count rose.
    fn remove(&mut self, name: &str) -> Result<(), Failed>
        requires name { length name.now ≤ longest_name }
        requires ready { IfSome (told self.old) (CanMove name.now) }
        ensures ok { OnOk result
            (told self.new
            ≡ option_map (after_listing (with_file name.now None)) (told self.old)) }
        ensures err { OnErr result
            (ListsOrNot (with_file name.now None) (told self.old) (told self.new)) }
        ensures counts { DiskMayRise (counts self.old) (counts self.new) }
        ensures cause { OnErr result (Rose (counts self.old).disk (counts self.new).disk) }
        ensures time { Elapses moment left_since self.old self.new (MayLeaveNow (told self.new)) }
        ensures goes { goes_on self.old self.new };

    /// Makes the files last as they read. `Failed` comes only where the disk count rose.
    fn settle(&mut self) -> Result<(), Failed>
        ensures ok { OnOk result
            (told self.new ≡ option_map (with_pending settled) (told self.old)) }
        ensures err { OnErr result (told self.new ≡ told self.old) }
        ensures counts { DiskMayRise (counts self.old) (counts self.new) }
        ensures cause { OnErr result (Rose (counts self.old).disk (counts self.new).disk) }
        ensures time { Elapses moment left_since self.old self.new (MayLeaveNow (told self.new)) }
        ensures goes { goes_on self.old self.new };

    /// Appends bytes to the output. After `Failed`, which comes only where the print count rose, a front
    /// of them may have been appended.
    fn print(&mut self, bytes: &[u8]) -> Result<(), Failed>
        ensures ok { OnOk result (told self.new ≡ option_map (printed bytes.now) (told self.old)) }
        ensures err { OnErr result (PrintsPart bytes.now (told self.old) (told self.new)) }
        ensures counts { PrintMayRise (counts self.old) (counts self.new) }
        ensures cause { OnErr result (Rose (counts self.old).print (counts self.new).print) }
        ensures time { Elapses moment left_since self.old self.new
            (MayLeaveInPrint bytes.now (told self.old)) }
        // It may have stopped behind each byte.
        ensures fronts { OnOk result (Passes moment left_since self.old self.new
            (MayLeaveInPrint bytes.now (told self.old))) }
        ensures goes { goes_on self.old self.new };

    /// Requests the restart of a service. `Failed` comes only where the service count rose.
    fn restart(&mut self, service: &str) -> Result<(), Failed>
        ensures ok { OnOk result
            (told self.new ≡ option_map (after_restart service.now) (told self.old)) }
        ensures err { OnErr result (told self.new ≡ told self.old) }
        ensures counts { ServiceMayRise (counts self.old) (counts self.new) }
        ensures cause { OnErr result (Rose (counts self.old).service (counts self.new).service) }
        ensures time { Elapses moment left_since self.old self.new (MayLeaveNow (told self.new)) }
        ensures goes { goes_on self.old self.new };

    /// This moment is one of those since an earlier one.
    ghost counts_now: { (h : Self) (t : ℕ) (left : Left)
        → t ≤ moment h → MayLeaveNow (told h) left → left_since h t left };

    /// Since this moment there is no other.
    ghost only_now: { (h : Self) (left : Left)
        → left_since h (moment h) left → MayLeaveNow (told h) left };

    /// A host goes on from itself.
    ghost begins: { (h : Self) → goes_on h h };

    /// What goes on from a host that goes on goes on from the first.
    ghost continues: { (a b c : Self) → goes_on a b → goes_on b c → goes_on a c };
}
