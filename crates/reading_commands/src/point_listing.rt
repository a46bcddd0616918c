//! `gcu list-checkpoints`: the names of all checkpoints, with their numbers.
ghost use Rattle.std.specs.Prelude.{◌≡◌, ◌≤◌, ◌++◌, IfErr, IfOk, OnOk, map, string_bytes};
ghost use Rattle.host_core.specs.Names.{longest_plain_name};
ghost use Rattle.checkpoints.specs.Answers.{numbered_view};
ghost use Rattle.gcu_output.specs.Lines.{line_feed};
ghost use Rattle.gcu_inputs.specs.Preparing.{Finds, Refuses};
ghost use Rattle.gcu_inputs.specs.Reads.{ReadsFiles};
ghost use Rattle.gcu_requests.specs.Asked.{list_asked, numbers_asked};
ghost use Rattle.gcu_requests.specs.Request.{list_checkpoints as list_of};
ghost use Rattle.command_answers.specs.Frames.{Does, FindsText};
ghost use Rattle.command_answers.specs.PointLines.{named_number, point_lines};

use checkpoints::{Numbered, PointError, numbers};
use command_answers::answer_query;
use gcu_inputs::test_uninterrupted;
use gcu_output::Outcome;
use host_core::{Host, Memory, Sequence};
use std::alloc::{AllocError, Global};

/// Prints the names of all checkpoints, one a line, each with its sequence number or `broken`.
pub fn list_checkpoints<H: Host>(alloc: Global, host: &mut H) -> Outcome
    requires { longest_plain_name ≤ H.longest_name }
    ensures { Does H.Host list_asked host.old host.new result }
{
    let found = find_lines(alloc, host);
    answer_query(alloc, found, host)
}

/// Their lines.
fn find_lines<H: Host>(alloc: Global, host: &mut H) -> Result<Vec<u8>, Outcome>
    requires { longest_plain_name ≤ H.longest_name }
    ensures { FindsText H.Host list_asked host.old host.new result }
{
    let all = find_numbers(alloc, host)?;
    let text = numbers_text(alloc, all.items())?;
    Ok(text)
}

/// All checkpoints with their numbers, where no change was stopped before its end.
fn find_numbers<H: Host>(alloc: Global, host: &mut H) -> Result<Sequence<Numbered>, Outcome>
    requires { longest_plain_name ≤ H.longest_name }
    ensures answer { Finds (H.told host.old) (λ all. list_of (map numbered_view all)) result
        list_asked }
    ensures reads { ReadsFiles H.told H.counts H.moment H.left_since H.goes_on host.old host.new }
    ensures cause { IfErr result (Refuses (H.counts host.old) (H.counts host.new)) }
{
    test_uninterrupted(alloc, host)?;
    read_numbers(alloc, host)
}

/// All checkpoints with their numbers.
fn read_numbers<H: Host>(alloc: Global, host: &mut H) -> Result<Sequence<Numbered>, Outcome>
    requires { longest_plain_name ≤ H.longest_name }
    ensures answer { Finds (H.told host.old) (λ all. list_of (map numbered_view all)) result
        numbers_asked }
    ensures reads { ReadsFiles H.told H.counts H.moment H.left_since H.goes_on host.old host.new }
    ensures cause { IfErr result (Refuses (H.counts host.old) (H.counts host.new)) }
{
    match numbers(alloc, host) {
        Ok(all) => Ok(all),
        Err(PointError::Disk) => Err(Outcome::DiskFault { step: 0 }),
        Err(PointError::Memory) => Err(Outcome::Memory),
        Err(_) => unreachable!(),
    }
}

/// Checkpoints, one a line.
fn numbers_text(alloc: Global, all: &[Numbered]) -> Result<Vec<u8>, Memory>
    ensures { IfOk result (λ b. b.items ≡ point_lines (map numbered_view all.now)) }
{
    let mut text = Vec::new(alloc);
    for numbered in all {
        push_point(alloc, &mut text, numbered)?;
    }
    Ok(text)
}

/// Appends the line of a checkpoint.
#[tactic(auto, using(std::proofs::Common::append_assoc))]
fn push_point(alloc: Global, text: &mut Vec<u8>, numbered: &Numbered) -> Result<(), Memory>
    ensures { OnOk result (text.new.items
        ≡ text.old.items ++ named_number (numbered_view numbered.now) ++ line_feed) }
{
    let line = line_of(alloc, numbered)?;
    push_line(text, line.as_str())
}

/// The line of a checkpoint, without the line feed.
fn line_of(alloc: Global, numbered: &Numbered) -> Result<String, AllocError>
    ensures { IfOk result (λ t. string_bytes t ≡ named_number (numbered_view numbered.now)) }
{
    let name = numbered.name.as_str();
    match numbered.number {
        Some(number) => format!(in alloc; "{name} {number}"),
        None => format!(in alloc; "{name} broken"),
    }
}

/// Appends a line.
fn push_line(text: &mut Vec<u8>, line: &str) -> Result<(), Memory>
    ensures { OnOk result (text.new.items ≡ text.old.items ++ line.now ++ line_feed) }
{
    text.extend_from_slice(line.as_bytes())?;
    text.push(b'\n')?;
    Ok(())
}
