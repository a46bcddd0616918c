//! Faults: which calls of a host in memory fail, and the counts of those that did.
ghost use Rattle.std.specs.Prelude.{◌≡◌};
ghost use Rattle.host_core.specs.Counts.{Rose, InputMayRise, DiskMayRise, PrintMayRise, ServiceMayRise};
ghost use Rattle.host_core.specs.Faults.{is_faulty, no_faults, input_fault, disk_fault, print_fault, service_fault};

use crate::Sequence;
use std::marker::Model;

/// Which calls of a host in memory fail. All calls of the host are numbered from 0.
#[derive(Drop)]
pub struct Faults {
    /// The numbers of calls that fail, in any order.
    pub at: Sequence<u64>,
    /// The number from which on every call fails.
    pub from: Option<u64>,
}

impl Faults {
    /// Whether the call of that number fails.
    pub fn contains(&self, number: u64) -> bool
        ensures { result ≡ is_faulty self.now number }
    {
        self.at.items().contains(&number) || self.from.is_some_and(|from| from <= number)
    }
}

/// How many faults of each kind a host has counted. A count stops at the greatest `u64`.
#[derive(Drop)]
pub struct FaultCounts {
    input: u64,
    disk: u64,
    print: u64,
    service: u64,
}

impl Model for FaultCounts {
    ghost use Rattle.host_core.specs.Counts.{Counts};

    ghost Value = { Counts };

    ghost view = { λ c. record {
      input = c.input;
      disk = c.disk;
      print = c.print;
      service = c.service;
    } };
}

impl FaultCounts {
    /// No faults so far.
    pub fn new() -> Self
        ensures { result ≡ no_faults }
    {
        FaultCounts {
            input: 0,
            disk: 0,
            print: 0,
            service: 0,
        }
    }

    /// Counts a fault of the input.
    pub fn add_input(&mut self)
        ensures after { self.new ≡ input_fault self.old }
        ensures counts { InputMayRise self.old self.new }
        ensures rose { Rose self.old.input self.new.input }
    {
        self.input = self.input.saturating_add(1);
    }

    /// Counts a fault of the disk.
    pub fn add_disk(&mut self)
        ensures after { self.new ≡ disk_fault self.old }
        ensures counts { DiskMayRise self.old self.new }
        ensures rose { Rose self.old.disk self.new.disk }
    {
        self.disk = self.disk.saturating_add(1);
    }

    /// Counts a fault of the output.
    pub fn add_print(&mut self)
        ensures after { self.new ≡ print_fault self.old }
        ensures counts { PrintMayRise self.old self.new }
        ensures rose { Rose self.old.print self.new.print }
    {
        self.print = self.print.saturating_add(1);
    }

    /// Counts a fault of a restart.
    pub fn add_service(&mut self)
        ensures after { self.new ≡ service_fault self.old }
        ensures counts { ServiceMayRise self.old self.new }
        ensures rose { Rose self.old.service self.new.service }
    {
        self.service = self.service.saturating_add(1);
    }
}
