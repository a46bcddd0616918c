//! A host in memory as a host: what each call changes, and when it fails.
ghost use Rattle.std.specs.Prelude.{◌≡◌, ◌↔◌, ◌≤◌, [], length, option_map, List, ℕ, Option, IsTrue, IfOk, OnOk, OnErr, IsErrOf, Some, None};
ghost use Rattle.host_core.specs.Counts.{Rose, InputMayRise, DiskMayRise, PrintMayRise, ServiceMayRise};
ghost use Rattle.host_core.specs.Inputs.{input_of};
ghost use Rattle.host_core.specs.Names.{longest_file_name};
ghost use Rattle.host_core.specs.State.{file, names as names_of, settled, dirty, CanWrite, CanMove, with_file, rename as with_name, after_write, with_pending, after_listing, printed, PrintsPart, after_restart};
ghost use Rattle.host_core.specs.MemoryHost.{moment_of, left_of, called, moved_by, marked_by, input_failed, disk_failed, print_failed, service_failed, half, next_fails, failed_or_not, Ends, GoesOn};
ghost use Rattle.host_core.specs.declared.errors.HostError.TheVariants.{Failed as call_failed};

use crate::{Failed, Host, HostError, Input, MemHost, Names, Sequence};
use std::alloc::Global;

impl Host for MemHost {
    ghost use Rattle.std.specs.Prelude.{Some};
    ghost use Rattle.std.proofs.Common.{inl};
    ghost use Rattle.host_core.specs.Laws.{only_state, goes_itself, goes_further};
    ghost use Rattle.host_core.specs.MemoryHost.{moment_of, left_of, GoesOn};

    ghost told = { λ m. Some m.state };

    ghost counts = { λ m. m.counts };

    ghost longest_name = { longest_file_name };

    ghost moment = { moment_of };

    ghost left_since = { left_of };

    ghost goes_on = { GoesOn };

    ghost counts_now = { λ m t left le now. inl now };

    ghost only_now = { λ m left since. only_state m.state m.past left since };

    ghost begins = { goes_itself };

    ghost continues = { goes_further };

    /// Fails exactly where a fault has its number.
    fn input(&mut self, alloc: Global, path: &str, limit: u64) -> Result<Input, HostError>
        ensures found { IfOk result (λ i. i ≡ input_of self.old.state path.now limit) }
        ensures fails { IsErrOf result call_failed ↔ IsTrue (next_fails self.old) }
        ensures after { self.new ≡ called (failed_or_not input_failed self.old) }
        ensures counts { InputMayRise self.old.counts self.new.counts }
        ensures cause { IsErrOf result call_failed
            → Rose self.old.counts.input self.new.counts.input }
    {
        if self.next_call_fails() {
            self.counts.add_input();
            return Err(HostError::Failed);
        }
        match self.history.input(path) {
            None => Ok(Input::Absent),
            Some(bytes) if bytes.len() as u64 > limit => Ok(Input::TooBig),
            Some(bytes) => match bytes.to_vec(alloc) {
                Ok(copy) => Ok(Input::Bytes(Sequence::from_vec(copy))),
                Err(_) => Err(HostError::Memory),
            },
        }
    }

    /// Fails exactly where a fault has its number.
    fn list(&mut self, alloc: Global) -> Result<Names, HostError>
        ensures found { IfOk result (λ all. all ≡ names_of self.old.state) }
        ensures fails { IsErrOf result call_failed ↔ IsTrue (next_fails self.old) }
        ensures after { self.new ≡ called (failed_or_not disk_failed self.old) }
        ensures counts { DiskMayRise self.old.counts self.new.counts }
        ensures cause { IsErrOf result call_failed
            → Rose self.old.counts.disk self.new.counts.disk }
    {
        if self.next_call_fails() {
            self.counts.add_disk();
            return Err(HostError::Failed);
        }
        match self.history.names(alloc) {
            Ok(all) => Ok(all),
            Err(_) => Err(HostError::Memory),
        }
    }

    /// Fails exactly where a fault has its number.
    fn read(&mut self, alloc: Global, name: &str) -> Result<Option<Vec<u8>>, HostError>
        requires { length name.now ≤ longest_file_name }
        ensures found { IfOk result
            (λ r. option_map (λ v. v.items) r ≡ file self.old.state name.now) }
        ensures fails { IsErrOf result call_failed ↔ IsTrue (next_fails self.old) }
        ensures after { self.new ≡ called (failed_or_not disk_failed self.old) }
        ensures counts { DiskMayRise self.old.counts self.new.counts }
        ensures cause { IsErrOf result call_failed
            → Rose self.old.counts.disk self.new.counts.disk }
    {
        if self.next_call_fails() {
            self.counts.add_disk();
            return Err(HostError::Failed);
        }
        match self.history.file(name) {
            None => Ok(None),
            Some(bytes) => match bytes.to_vec(alloc) {
                Ok(copy) => Ok(Some(copy)),
                Err(_) => Err(HostError::Memory),
            },
        }
    }

    /// A failing call writes the first half of the bytes, and one without memory none.
    fn write(&mut self, name: &str, bytes: &[u8]) -> Result<(), Failed>
        requires name { length name.now ≤ longest_file_name }
        requires ready { CanWrite name.now self.old.state }
        ensures ends { Ends result self.old self.new
            (moved_by (after_write name.now (Some bytes.now)) [])
            (moved_by (after_write name.now (Some (half bytes.now))) [])
            (marked_by (with_pending (dirty name.now)))
            disk_failed }
        ensures counts { DiskMayRise self.old.counts self.new.counts }
        ensures cause { OnErr result (Rose self.old.counts.disk self.new.counts.disk) }
    {
        let fails = self.next_call_fails();
        let written = if fails {
            &bytes[..bytes.len() / 2]
        } else {
            bytes
        };
        if self.history.write(name, written).is_err() {
            self.history.soil(name);
            self.counts.add_disk();
            self.starve();
            return Err(Failed);
        }
        if fails {
            self.counts.add_disk();
            return Err(Failed);
        }
        Ok(())
    }

    /// One that fails leaves the bytes pending.
    fn sync(&mut self, name: &str) -> Result<(), Failed>
        requires name { length name.now ≤ longest_file_name }
        requires ready { CanWrite name.now self.old.state }
        ensures ends { Ends result self.old self.new
            (moved_by (with_pending settled) [])
            (marked_by (with_pending (dirty name.now)))
            (marked_by (with_pending (dirty name.now)))
            disk_failed }
        ensures counts { DiskMayRise self.old.counts self.new.counts }
        ensures cause { OnErr result (Rose self.old.counts.disk self.new.counts.disk) }
    {
        if self.next_call_fails() {
            self.history.soil(name);
            self.counts.add_disk();
            return Err(Failed);
        }
        if self.history.settle().is_err() {
            self.history.soil(name);
            self.counts.add_disk();
            self.starve();
            return Err(Failed);
        }
        Ok(())
    }

    /// One that fails isn't done.
    fn rename(&mut self, from: &str, to: &str) -> Result<(), Failed>
        requires { CanMove from.now self.old.state }
        ensures ends { Ends result self.old self.new
            (moved_by (after_listing (with_name from.now to.now)) [])
            (marked_by (after_listing (λ files. files)))
            (marked_by (after_listing (λ files. files)))
            disk_failed }
        ensures counts { DiskMayRise self.old.counts self.new.counts }
        ensures cause { OnErr result (Rose self.old.counts.disk self.new.counts.disk) }
    {
        if self.next_call_fails() {
            self.history.unsettle();
            self.counts.add_disk();
            return Err(Failed);
        }
        if self.history.rename(from, to).is_err() {
            self.history.unsettle();
            self.counts.add_disk();
            self.starve();
            return Err(Failed);
        }
        Ok(())
    }

    /// One that fails isn't done.
    fn remove(&mut self, name: &str) -> Result<(), Failed>
        requires { CanMove name.now self.old.state }
        ensures ends { Ends result self.old self.new
            (moved_by (after_listing (with_file name.now None)) [])
            (marked_by (after_listing (λ files. files)))
            (marked_by (after_listing (λ files. files)))
            disk_failed }
        ensures counts { DiskMayRise self.old.counts self.new.counts }
        ensures cause { OnErr result (Rose self.old.counts.disk self.new.counts.disk) }
    {
        if self.next_call_fails() {
            self.history.unsettle();
            self.counts.add_disk();
            return Err(Failed);
        }
        if self.history.remove(name).is_err() {
            self.history.unsettle();
            self.counts.add_disk();
            self.starve();
            return Err(Failed);
        }
        Ok(())
    }

    /// One that fails changes nothing.
    fn settle(&mut self) -> Result<(), Failed>
        ensures ends { Ends result self.old self.new
            (moved_by (with_pending settled) []) (λ m. m) (λ m. m) disk_failed }
        ensures counts { DiskMayRise self.old.counts self.new.counts }
        ensures cause { OnErr result (Rose self.old.counts.disk self.new.counts.disk) }
    {
        if self.next_call_fails() {
            self.counts.add_disk();
            return Err(Failed);
        }
        if self.history.settle().is_err() {
            self.counts.add_disk();
            self.starve();
            return Err(Failed);
        }
        Ok(())
    }

    /// A failing call prints the first half of the bytes, and one without memory nothing.
    fn print(&mut self, bytes: &[u8]) -> Result<(), Failed>
        ensures ends { Ends result self.old self.new
            (moved_by (printed bytes.now) bytes.now)
            (moved_by (printed (half bytes.now)) (half bytes.now))
            (λ m. m)
            print_failed }
        ensures counts { PrintMayRise self.old.counts self.new.counts }
        ensures cause { OnErr result (Rose self.old.counts.print self.new.counts.print) }
    {
        let fails = self.next_call_fails();
        let part = if fails {
            &bytes[..bytes.len() / 2]
        } else {
            bytes
        };
        if self.history.print(part).is_err() {
            self.counts.add_print();
            self.starve();
            return Err(Failed);
        }
        if fails {
            self.counts.add_print();
            return Err(Failed);
        }
        Ok(())
    }

    /// One that fails requests none.
    fn restart(&mut self, service: &str) -> Result<(), Failed>
        ensures ends { Ends result self.old self.new
            (moved_by (after_restart service.now) []) (λ m. m) (λ m. m) service_failed }
        ensures counts { ServiceMayRise self.old.counts self.new.counts }
        ensures cause { OnErr result (Rose self.old.counts.service self.new.counts.service) }
    {
        if self.next_call_fails() {
            self.counts.add_service();
            return Err(Failed);
        }
        if self.history.restart(service).is_err() {
            self.counts.add_service();
            self.starve();
            return Err(Failed);
        }
        Ok(())
    }
}
