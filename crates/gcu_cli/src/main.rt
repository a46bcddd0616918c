//! The program `gcu`: works on the switch configuration in the working folder.
#![tactic(auto)]

ghost use Rattle.std.specs.Prelude.{◌≡◌, [], IfOk, OnErr, map, drop, string_bytes};
ghost use Rattle.std.specs.Process.{exit_status};
ghost use Rattle.std.specs.Vec.Iter.{into_iter_items};
ghost use Rattle.gcu_output.specs.Lines.{number};
ghost use Rattle.gcu_cli.specs.Obeying.{IsOutcomeOf, outcome_in};

mod boxes;

use boxes::do_command;
use gcu_engine::Outcome;
use host_core::Memory;
use real_host::{RealHost, words};
use std::env::Args;
use std::process::ExitCode;
use std::{env, io};

fn main(rt: HostRuntime) -> ExitCode {
    let line = env::args(&rt);
    status_of(&obey(rt, line))
}

/// The exit status: the number of the outcome. Without memory for the words or the boxes nothing was done.
fn status_of(done: &Result<Outcome, Memory>) -> ExitCode
    ensures { exit_status result ≡ number (outcome_in done.now) }
{
    match done {
        Ok(outcome) => ExitCode::from(outcome.status()),
        Err(Memory) => ExitCode::from(Outcome::Memory.status()),
    }
}

/// Does the command of a command line. Its words are those after the program's name, or none where the command
/// line could not be read, as where one of them is no UTF-8.
fn obey(rt: HostRuntime, line: io::Result<Args>) -> Result<Outcome, Memory>
    ensures read { IfOk line (λ all. IfOk result
        (IsOutcomeOf (map string_bytes (drop 1 (into_iter_items all))))) }
    ensures unread { OnErr line (IfOk result (IsOutcomeOf [])) }
{
    let alloc = rt.alloc();
    let words = words(alloc, line)?;
    let mut host = RealHost::new(rt);
    do_command(alloc, words.items(), &mut host)
}
