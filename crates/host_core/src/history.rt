//! What a host in memory tells: the state that it is in, and those that it was in.
ghost use Rattle.std.specs.Prelude.{◌≡◌, ◌≤◌, ◌<◌, [], ◌∷◌, length, map, option_map, IsSome, IfOk, OnOk, OnErr, Some, None};
ghost use Rattle.std.specs.FinMap.{get, entries};
ghost use Rattle.std.specs.VecDeque.{deque_len, deque_capacity};
ghost use Rattle.host_core.specs.Entries.{named};
ghost use Rattle.host_core.specs.Names.{longest_file_name};
ghost use Rattle.host_core.specs.Steps.{undone};
ghost use Rattle.host_core.specs.declared.pending.Pending.TheVariants.{Listing};
ghost use Rattle.host_core.specs.declared.pending.Step.TheVariants.{List as Lists};
ghost use Rattle.host_core.specs.State.{State, dirty, settled, file, names as names_of, with_file, rename as with_name, CanWrite, after_write, with_pending, after_listing, printed, after_restart};

use crate::images::pick_files;
use crate::named_bytes::NamedBytes;
use crate::pending::{Pending, Step, Undo};
use crate::short_names::ShortName;
use crate::texts::add_copy;
use crate::{Memory, Names, Pick, Txt};
use std::alloc::Global;
use std::collections::{BTreeMap, VecDeque};
use std::marker::Model;
use std::mem::replace;

/// The state of a host in memory, with the steps that led to it, the last one first.
#[derive(Drop)]
pub(crate) struct History {
    alloc: Global,
    inputs: NamedBytes,
    files: NamedBytes,
    pending: Pending,
    output: Vec<u8>,
    restarts: Names,
    steps: VecDeque<Step>,
}

impl Model for History {
    ghost use Rattle.host_core.specs.State.{State};
    ghost use Rattle.host_core.specs.Steps.{History as Told};
    ghost use Rattle.host_core.specs.Codes.{history_code};
    ghost use Rattle.host_core.specs.Steps.{pending_of, moments, is_tied};
    ghost use Rattle.std.specs.Prelude.{IsTrue};

    ghost Value = { Told };

    ghost coded = { history_code };

    ghost view = { λ h. let s : State = record {
      inputs = h.inputs;
      files = h.files;
      pending = pending_of h.pending h.files;
      output = h.output.items;
      restarts = h.restarts;
    } in record { state = s; past = moments h.steps.items s } };

    ghost invariant = { λ h. IsTrue (is_tied h.pending h.steps.items) };
}

/// Takes the step that changes the folder's names, for which there is room.
fn list(pending: &mut Pending, steps: &mut VecDeque<Step>, undo: Undo)
    requires { deque_len steps.old < deque_capacity steps.old }
    ensures pending { pending.new ≡ Listing undo }
    ensures steps { steps.new.items ≡ Lists ∷ steps.old.items }
{
    *pending = Pending::Listing(undo);
    steps.push_front_reserved(Step::List);
}

/// Removes the file of a name, and tells how the files were before.
fn remove_in(files: &mut NamedBytes, name: Txt) -> Undo
    ensures after { files.new ≡ with_file name None files.old }
    ensures undo { undone result files.new ≡ files.old }
{
    match files.take(name.as_str()) {
        None => Undo::Same,
        Some(bytes) => Undo::Removed { name, bytes },
    }
}

/// Gives a file another name, and tells how the files were before.
fn rename_in(alloc: Global, files: &mut NamedBytes, from: &str, to: &str) -> Result<Undo, Memory>
    requires { IsSome (get files.old from.now) }
    ensures ok { OnOk result (files.new ≡ with_name from.now to.now files.old) }
    ensures undo { IfOk result (λ u. undone u files.new ≡ files.old) }
    ensures err { OnErr result (files.new ≡ files.old) }
{
    if from == to {
        return Ok(Undo::Same);
    }
    let old = Txt::new(alloc, from)?;
    let new = Txt::new(alloc, to)?;
    let replaced = files.copy_to(alloc, from, to)?;
    files.discard(from);
    Ok(Undo::Renamed {
        from: old,
        to: new,
        replaced,
    })
}

impl History {
    ghost use Rattle.host_core.specs.Steps.{moved_to, beginning, with_state};
    ghost use Rattle.host_core.specs.Picks.{picked};

    /// The history that begins with these inputs, files, output and restarts, and nothing pending.
    pub(crate) fn new(
        alloc: Global,
        inputs: NamedBytes,
        files: NamedBytes,
        output: Vec<u8>,
        restarts: Names,
    ) -> Self
        ensures { result ≡ beginning inputs files output.items restarts }
    {
        History {
            alloc,
            inputs,
            files,
            pending: Pending::Settled,
            output,
            restarts,
            steps: VecDeque::new(alloc),
        }
    }

    /// The bytes of a file, where it is there.
    pub(crate) fn file(&self, name: &str) -> Option<&[u8]>
        ensures { option_map (λ bytes. bytes.now) result ≡ file self.now.state name.now }
    {
        self.files.get(name)
    }

    /// The bytes of an input, where it is there.
    pub(crate) fn input(&self, path: &str) -> Option<&[u8]>
        ensures { option_map (λ bytes. bytes.now) result ≡ get self.now.state.inputs path.now }
    {
        self.inputs.get(path)
    }

    /// The names of the files.
    pub(crate) fn names(&self, alloc: Global) -> Result<Names, Memory>
        ensures { IfOk result (λ all. all ≡ names_of self.now.state) }
    {
        self.files.names(alloc)
    }

    /// All files.
    pub(crate) fn files(&self) -> &BTreeMap<String, Vec<u8>>
        ensures { map named result.now.entries ≡ entries self.now.state.files }
    {
        self.files.all()
    }

    /// All that was printed.
    pub(crate) fn output(&self) -> &[u8]
        ensures { result.now ≡ self.now.state.output }
    {
        self.output.as_slice()
    }

    /// The services whose restart was requested.
    pub(crate) fn restarts(&self) -> &Names
        ensures { result.now ≡ self.now.state.restarts }
    {
        &self.restarts
    }

    /// Writes a file.
    pub(crate) fn write(&mut self, name: &str, bytes: &[u8]) -> Result<(), Memory>
        requires { length name.now ≤ longest_file_name }
        ensures ok { OnOk result
            (self.new ≡ moved_to (after_write name.now (Some bytes.now) self.old.state)
            [] self.old) }
        ensures err { OnErr result (self.new ≡ self.old) }
    {
        self.steps.reserve(1)?;
        let again = Txt::new(self.alloc, name)?;
        let content = self.files.put_copy(self.alloc, name, bytes)?;
        let pending = replace(&mut self.pending, Pending::Dirty(ShortName::new(name)));
        self.steps.push_front_reserved(Step::Write {
            pending,
            name: again,
            content,
        });
        Ok(())
    }

    /// Makes what is pending last.
    pub(crate) fn settle(&mut self) -> Result<(), Memory>
        ensures ok { OnOk result
            (self.new ≡ moved_to (with_pending settled self.old.state) [] self.old) }
        ensures err { OnErr result (self.new ≡ self.old) }
    {
        self.steps.reserve(1)?;
        let pending = replace(&mut self.pending, Pending::Settled);
        self.steps.push_front_reserved(Step::Settle { pending });
        Ok(())
    }

    /// Leaves the bytes of a file pending, and takes no step.
    pub(crate) fn soil(&mut self, name: &str)
        requires name { length name.now ≤ longest_file_name }
        requires ready { CanWrite name.now self.old.state }
        ensures { self.new ≡ with_state (with_pending (dirty name.now)) self.old }
    {
        self.pending = Pending::Dirty(ShortName::new(name));
    }

    /// Leaves the names pending as they are, and takes no step.
    pub(crate) fn unsettle(&mut self)
        requires { self.old.state.pending ≡ settled }
        ensures { self.new ≡ with_state (after_listing (λ files. files)) self.old }
    {
        self.pending = Pending::Listing(Undo::Same);
    }

    /// Removes a file.
    pub(crate) fn remove(&mut self, name: &str) -> Result<(), Memory>
        requires { self.old.state.pending ≡ settled }
        ensures ok { OnOk result
            (self.new ≡ moved_to (after_listing (with_file name.now None) self.old.state)
            [] self.old) }
        ensures err { OnErr result (self.new ≡ self.old) }
    {
        self.steps.reserve(1)?;
        let key = Txt::new(self.alloc, name)?;
        let undo = remove_in(&mut self.files, key);
        list(&mut self.pending, &mut self.steps, undo);
        Ok(())
    }

    /// Gives a file another name.
    pub(crate) fn rename(&mut self, from: &str, to: &str) -> Result<(), Memory>
        requires settled { self.old.state.pending ≡ settled }
        requires there { IsSome (file self.old.state from.now) }
        ensures ok { OnOk result
            (self.new ≡ moved_to (after_listing (with_name from.now to.now) self.old.state)
            [] self.old) }
        ensures err { OnErr result (self.new ≡ self.old) }
    {
        self.steps.reserve(1)?;
        let undo = rename_in(self.alloc, &mut self.files, from, to)?;
        list(&mut self.pending, &mut self.steps, undo);
        Ok(())
    }

    /// Appends to the output.
    pub(crate) fn print(&mut self, bytes: &[u8]) -> Result<(), Memory>
        ensures ok { OnOk result
            (self.new ≡ moved_to (printed bytes.now self.old.state) bytes.now self.old) }
        ensures err { OnErr result (self.new ≡ self.old) }
    {
        self.steps.reserve(1)?;
        let len = self.output.len();
        self.output.extend_from_slice(bytes)?;
        let pending = self.pending.copy_unless_listing();
        self.steps.push_front_reserved(Step::Print { pending, len });
        Ok(())
    }

    /// Requests a restart.
    pub(crate) fn restart(&mut self, service: &str) -> Result<(), Memory>
        ensures ok { OnOk result
            (self.new ≡ moved_to (after_restart service.now self.old.state) [] self.old) }
        ensures err { OnErr result (self.new ≡ self.old) }
    {
        self.steps.reserve(1)?;
        add_copy(&mut self.restarts, self.alloc, service)?;
        let pending = self.pending.copy_unless_listing();
        self.steps.push_front_reserved(Step::Restart { pending });
        Ok(())
    }

    /// Begins again with the picked image.
    pub(crate) fn begin_again(&mut self, alloc: Global, pick: &Pick) -> Result<(), Memory>
        ensures { OnOk result (self.new ≡ record {
          state = record self.old.state {
            files = picked pick.now self.old.state.pending self.old.state.files;
            pending = settled;
          };
          past = [];
        }) }
    {
        self.steps = VecDeque::new(alloc);
        let pending = replace(&mut self.pending, Pending::Settled);
        pick_files(alloc, pick, pending, &mut self.files)
    }
}
