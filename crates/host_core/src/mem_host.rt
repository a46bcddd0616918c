//! A host in memory, for tests. It tells everything, and fails where it is told to.
ghost use Rattle.std.specs.Prelude.{◌≡◌, ◌≤◌, map, option_map, IfOk};
ghost use Rattle.std.specs.FinMap.{entries};
ghost use Rattle.host_core.specs.Crashes.{Image};
ghost use Rattle.host_core.specs.Entries.{named};
ghost use Rattle.host_core.specs.Picks.{crashed};
ghost use Rattle.host_core.specs.State.{file};
ghost use Rattle.host_core.specs.MemoryHost.{files_of, fresh, faulty_by, called, starving, next_fails, IsPast};

use crate::history::History;
use crate::named_bytes::NamedBytes;
use crate::{FaultCounts, Faults, Memory, Names, Pick, Sequence, Txt};
use std::alloc::Global;
use std::collections::BTreeMap;
use std::marker::Model;

/// A host in memory. A call fails where `Faults` have its number. Calls that have no answer for want of
/// memory also fail where they find none; `starved` counts those.
#[derive(Drop)]
pub struct MemHost {
    pub(crate) history: History,
    pub(crate) counts: FaultCounts,
    faults: Faults,
    calls: u64,
    starved: u64,
}

impl Model for MemHost {
    ghost use Rattle.host_core.specs.MemoryHost.{MemoryHost};
    ghost use Rattle.host_core.specs.Codes.{memory_host_code};

    ghost Value = { MemoryHost };

    ghost coded = { memory_host_code };

    ghost view = { λ m. record {
      state = m.history.state;
      past = m.history.past;
      counts = m.counts;
      faults = m.faults;
      calls = m.calls;
      starved = m.starved;
    } };
}

impl MemHost {
    /// A host with these inputs and files, with no calls so far. Of a name that is given twice the first
    /// one counts.
    pub fn new(
        alloc: Global,
        inputs: Vec<(Txt, Vec<u8>)>,
        files: Vec<(Txt, Vec<u8>)>,
        faults: Faults,
    ) -> Result<MemHost, Memory>
        ensures { IfOk result
            (λ m. m ≡ fresh (files_of inputs.items) (files_of files.items) faults) }
    {
        let inputs = NamedBytes::of_pairs(alloc, inputs)?;
        let files = NamedBytes::of_pairs(alloc, files)?;
        Ok(MemHost {
            history: History::new(alloc, inputs, files, Vec::new(alloc), Sequence::new(alloc)),
            counts: FaultCounts::new(),
            faults,
            calls: 0,
            starved: 0,
        })
    }

    /// All that was printed.
    pub fn output(&self) -> &[u8]
        ensures { result.now ≡ self.now.state.output }
    {
        self.history.output()
    }

    /// The services whose restart was requested, the first one first.
    pub fn restarts(&self) -> &Names
        ensures { result.now ≡ self.now.state.restarts }
    {
        self.history.restarts()
    }

    /// The bytes of a file, or None where there is no such file.
    pub fn file(&self, name: &str) -> Option<&[u8]>
        ensures { option_map (λ bytes. bytes.now) result ≡ file self.now.state name.now }
    {
        self.history.file(name)
    }

    /// All files, each at its name.
    pub fn files(&self) -> &BTreeMap<String, Vec<u8>>
        ensures { map named result.now.entries ≡ entries self.now.state.files }
    {
        self.history.files()
    }

    /// How many calls there were, up to the greatest `u64`: the number of the next call.
    pub fn calls(&self) -> u64
        ensures { result ≡ self.now.calls }
    {
        self.calls
    }

    /// How often a call that has no answer for want of memory found none, up to the greatest `u64`.
    pub fn starved(&self) -> u64
        ensures { result ≡ self.now.starved }
    {
        self.starved
    }

    /// Numbers the call that begins, and says whether a fault has that number.
    pub(crate) fn next_call_fails(&mut self) -> bool
        ensures result { result ≡ next_fails self.old }
        ensures after { self.new ≡ called self.old }
        ensures later { self.old.calls ≤ self.new.calls }
        ensures past { IsPast self.old.calls self.new.calls }
    {
        let fails = self.faults.contains(self.calls);
        self.calls = self.calls.saturating_add(1);
        fails
    }

    /// Counts that a call found no memory.
    pub(crate) fn starve(&mut self)
        ensures after { self.new ≡ starving self.old }
        ensures later { self.old.starved ≤ self.new.starved }
        ensures past { IsPast self.old.starved self.new.starved }
    {
        self.starved = self.starved.saturating_add(1);
    }

    /// The same host with these faults, with no calls so far.
    pub fn with_faults(self, faults: Faults) -> MemHost
        ensures { result ≡ faulty_by faults self }
    {
        MemHost {
            faults,
            calls: 0,
            ..self
        }
    }

    /// The host after a crash now: it starts from the picked image, with nothing pending, with no faults
    /// and with no calls so far. It keeps its inputs, its output, the restarts and the counts.
    pub fn crash(self, alloc: Global, pick: &Pick) -> Result<MemHost, Memory>
        ensures after { IfOk result (λ m. m ≡ crashed pick.now self) }
        ensures image { IfOk result (λ m. Image self.state.pending self.state.files m.state.files) }
    {
        let MemHost {
            mut history,
            counts,
            faults: _,
            calls: _,
            starved,
        } = self;
        history.begin_again(alloc, pick)?;
        let faults = Faults {
            at: Sequence::new(alloc),
            from: None,
        };
        Ok(MemHost {
            history,
            counts,
            faults,
            calls: 0,
            starved,
        })
    }
}
