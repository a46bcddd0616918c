//! The host that the program works on: the working folder, standard output and `restarts.log`.
ghost use Rattle.std.specs.Prelude.{◌≡◌, ◌≢◌, ◌≤◌, length, None, IfOk, IsErr, OnOk, OnErr, IsErrOf, IsSorted};
ghost use Rattle.host_core.specs.Counts.{Rose, Counts, InputMayRise, DiskMayRise, PrintMayRise, ServiceMayRise};
ghost use Rattle.host_core.specs.Faults.{no_faults, input_fault, disk_fault, print_fault, service_fault};
ghost use Rattle.host_core.specs.Names.{longest_file_name, name_cmp};
ghost use Rattle.host_core.specs.declared.errors.HostError.TheVariants.{Failed as call_failed};
ghost use Rattle.real_host.specs.Inputs.{IsWithin};
ghost use Rattle.real_host.specs.Names.{IsPlainName};
ghost use Rattle.real_host.specs.Unsynced.{IsOnly};

use crate::folder::{
    file_bytes, file_names, input_bytes, remove_file, rename_file, sync_file, write_file,
};
use crate::restarts::log_restart;
use crate::settling::settle_files;
use crate::unsynced::Unsynced;
use host_core::{Failed, FaultCounts, Host, HostError, Input, Names};
use std::alloc::Global;
use std::rt::Files;

/// The working folder and standard output of the process. Inputs are paths, from the working folder
/// on where they do not begin with a slash. It tells nothing of what they hold, nor of what a crash
/// leaves. Every call that fails counts one fault of its kind. Nobody else writes the folder meanwhile: it
/// looks once for what an earlier command left unsynced, and then knows what it wrote itself.
#[derive(Drop)]
pub struct RealHost<R> {
    rt: R,
    counts: FaultCounts,
    unsynced: Unsynced,
}

impl<R: Files + Print + AllocGlobal + Clone + Drop> RealHost<R> {
    /// The host of a runtime, with no faults so far.
    pub fn new(rt: R) -> Self
        ensures counts { result.counts ≡ no_faults }
        ensures runtime { result.rt ≡ rt }
        ensures unsynced { result.unsynced ≡ Unsynced.Unlisted }
    {
        RealHost {
            rt,
            counts: FaultCounts::new(),
            unsynced: Unsynced::Unlisted,
        }
    }

    /// Counts a fault of the disk where a call failed.
    fn count_disk(&mut self, done: Result<(), Failed>) -> Result<(), Failed>
        ensures answer { result ≡ done }
        ensures ok { OnOk result (self.new.counts ≡ self.old.counts) }
        ensures err { OnErr result (self.new.counts ≡ disk_fault self.old.counts) }
        ensures counts { DiskMayRise self.old.counts self.new.counts }
        ensures cause { OnErr result (Rose self.old.counts.disk self.new.counts.disk) }
        ensures unsynced { self.new.unsynced ≡ self.old.unsynced }
    {
        if done.is_err() {
            self.counts.add_disk();
        }
        done
    }
}

impl<R: Files + Print + AllocGlobal + Clone + Drop> Host for RealHost<R> {
    ghost use Rattle.std.specs.Prelude.{None};
    ghost use Rattle.host_core.specs.Names.{longest_file_name};

    ghost told = { λ _. None };

    ghost counts = { λ h. h.counts };

    ghost longest_name = { longest_file_name };

    ghost moment = { λ _. 0 };

    ghost left_since = { λ _ _ _. Unit {0} };

    ghost goes_on = { λ _ _. Unit {0} };

    ghost counts_now = { λ _ _ _ _ _. tt };

    ghost only_now = { λ _ _ _. tt };

    ghost begins = { λ _. tt };

    ghost continues = { λ _ _ _ _ _. tt };

    /// Fails where the system does so for another reason than that there is no such file, and where a
    /// path that does not begin with a slash leads to something that is no file, as a folder or a pipe.
    fn input(&mut self, alloc: Global, path: &str, limit: u64) -> Result<Input, HostError>
        ensures counts { InputMayRise self.old.counts self.new.counts }
        ensures cause { IsErrOf result call_failed
            → Rose self.old.counts.input self.new.counts.input }
        ensures failed { IsErrOf result call_failed
            → self.new.counts ≡ input_fault self.old.counts }
        ensures not_failed { ¬ IsErrOf result call_failed → self.new.counts ≡ self.old.counts }
        ensures limit { IfOk result (IsWithin limit) }
    {
        let answer = input_bytes(&self.rt, alloc, path, limit);
        if let Err(HostError::Failed) = &answer {
            self.counts.add_input();
        }
        answer
    }

    /// The names that are UTF-8. Fails where the system does so.
    fn list(&mut self, alloc: Global) -> Result<Names, HostError>
        ensures counts { DiskMayRise self.old.counts self.new.counts }
        ensures cause { IsErrOf result call_failed
            → Rose self.old.counts.disk self.new.counts.disk }
        ensures failed { IsErrOf result call_failed → self.new.counts ≡ disk_fault self.old.counts }
        ensures not_failed { ¬ IsErrOf result call_failed → self.new.counts ≡ self.old.counts }
        ensures sorted { IfOk result (IsSorted name_cmp) }
    {
        let answer = file_names(&self.rt, alloc);
        if let Err(HostError::Failed) = &answer {
            self.counts.add_disk();
        }
        answer
    }

    /// Fails where the system does so for another reason than that there is no such file, and at what is
    /// no file, as a folder or a pipe.
    fn read(&mut self, alloc: Global, name: &str) -> Result<Option<Vec<u8>>, HostError>
        requires { length name.now ≤ longest_file_name }
        ensures counts { DiskMayRise self.old.counts self.new.counts }
        ensures cause { IsErrOf result call_failed
            → Rose self.old.counts.disk self.new.counts.disk }
        ensures failed { IsErrOf result call_failed → self.new.counts ≡ disk_fault self.old.counts }
        ensures not_failed { ¬ IsErrOf result call_failed → self.new.counts ≡ self.old.counts }
        ensures refused { ¬ IsPlainName name.now → IsErrOf result call_failed }
    {
        let answer = file_bytes(&self.rt, alloc, name);
        if let Err(HostError::Failed) = &answer {
            self.counts.add_disk();
        }
        answer
    }

    /// What stood at the name is removed, and no link is followed. Fails where the system does so.
    fn write(&mut self, name: &str, bytes: &[u8]) -> Result<(), Failed>
        requires { length name.now ≤ longest_file_name }
        ensures counts { DiskMayRise self.old.counts self.new.counts }
        ensures cause { OnErr result (Rose self.old.counts.disk self.new.counts.disk) }
        ensures not_failed { OnOk result (self.new.counts ≡ self.old.counts) }
        ensures failed { OnErr result (self.new.counts ≡ disk_fault self.old.counts) }
        ensures refused { ¬ IsPlainName name.now → IsErr result }
        ensures unsynced { self.old.unsynced ≡ Unsynced.Nothing
            → IsOnly name.now self.new.unsynced }
        ensures unsynced_too { self.old.unsynced ≢ Unsynced.Nothing
            → self.new.unsynced ≡ Unsynced.Unlisted }
    {
        self.unsynced.add(name);
        let done = write_file(&self.rt, name, bytes);
        self.count_disk(done)
    }

    /// Fails where the system does so.
    fn sync(&mut self, name: &str) -> Result<(), Failed>
        requires { length name.now ≤ longest_file_name }
        ensures counts { DiskMayRise self.old.counts self.new.counts }
        ensures cause { OnErr result (Rose self.old.counts.disk self.new.counts.disk) }
        ensures not_failed { OnOk result (self.new.counts ≡ self.old.counts) }
        ensures failed { OnErr result (self.new.counts ≡ disk_fault self.old.counts) }
        ensures refused { ¬ IsPlainName name.now → IsErr result }
        ensures synced { OnOk result (IsOnly name.now self.old.unsynced
            → self.new.unsynced ≡ Unsynced.Nothing) }
        ensures others { ¬ IsOnly name.now self.old.unsynced
            → self.new.unsynced ≡ self.old.unsynced }
        ensures unsynced { OnErr result (self.new.unsynced ≡ self.old.unsynced) }
    {
        let done = sync_file(&self.rt, name);
        if done.is_ok() {
            self.unsynced.remove(name);
        }
        self.count_disk(done)
    }

    /// The file takes the mode of the one that had the name, where the system lets it. Fails where the
    /// system does so.
    fn rename(&mut self, from: &str, to: &str) -> Result<(), Failed>
        requires from { length from.now ≤ longest_file_name }
        requires to { length to.now ≤ longest_file_name }
        ensures counts { DiskMayRise self.old.counts self.new.counts }
        ensures cause { OnErr result (Rose self.old.counts.disk self.new.counts.disk) }
        ensures not_failed { OnOk result (self.new.counts ≡ self.old.counts) }
        ensures failed { OnErr result (self.new.counts ≡ disk_fault self.old.counts) }
        ensures refused_from { ¬ IsPlainName from.now → IsErr result }
        ensures refused_to { ¬ IsPlainName to.now → IsErr result }
    {
        let done = rename_file(&self.rt, from, to);
        self.count_disk(done)
    }

    /// Fails where the system does so.
    fn remove(&mut self, name: &str) -> Result<(), Failed>
        requires { length name.now ≤ longest_file_name }
        ensures counts { DiskMayRise self.old.counts self.new.counts }
        ensures cause { OnErr result (Rose self.old.counts.disk self.new.counts.disk) }
        ensures not_failed { OnOk result (self.new.counts ≡ self.old.counts) }
        ensures failed { OnErr result (self.new.counts ≡ disk_fault self.old.counts) }
        ensures refused { ¬ IsPlainName name.now → IsErr result }
    {
        let done = remove_file(&self.rt, name);
        self.count_disk(done)
    }

    /// Fails where the system does so. The first one lists the folder, and fails where there is no memory
    /// for its names.
    fn settle(&mut self) -> Result<(), Failed>
        ensures counts { DiskMayRise self.old.counts self.new.counts }
        ensures cause { OnErr result (Rose self.old.counts.disk self.new.counts.disk) }
        ensures not_failed { OnOk result (self.new.counts ≡ self.old.counts) }
        ensures failed { OnErr result (self.new.counts ≡ disk_fault self.old.counts) }
        ensures synced { OnOk result (self.new.unsynced ≡ Unsynced.Nothing) }
        ensures unsynced { OnErr result (self.new.unsynced ≡ self.old.unsynced) }
    {
        let done = settle_files(&self.rt, &self.unsynced);
        if done.is_ok() {
            self.unsynced = Unsynced::Nothing;
        }
        self.count_disk(done)
    }

    /// Fails where standard output does not take all the bytes.
    fn print(&mut self, bytes: &[u8]) -> Result<(), Failed>
        ensures counts { PrintMayRise self.old.counts self.new.counts }
        ensures cause { OnErr result (Rose self.old.counts.print self.new.counts.print) }
        ensures not_failed { OnOk result (self.new.counts ≡ self.old.counts) }
        ensures failed { OnErr result (self.new.counts ≡ print_fault self.old.counts) }
    {
        if self.rt.write_all(bytes).is_ok() {
            return Ok(());
        }
        self.counts.add_print();
        Err(Failed)
    }

    /// Fails where `restarts.log` does not take the line, and where there is no memory for it. The log is
    /// then as it was, or if it can't be cut back to that its last line is ended before the next one.
    fn restart(&mut self, service: &str) -> Result<(), Failed>
        ensures counts { ServiceMayRise self.old.counts self.new.counts }
        ensures cause { OnErr result (Rose self.old.counts.service self.new.counts.service) }
        ensures not_failed { OnOk result (self.new.counts ≡ self.old.counts) }
        ensures failed { OnErr result (self.new.counts ≡ service_fault self.old.counts) }
    {
        if log_restart(&self.rt, service).is_ok() {
            return Ok(());
        }
        self.counts.add_service();
        Err(Failed)
    }
}
