//! How an answer is printed.
ghost use Rattle.std.specs.Prelude.{◌≡◌, ◌++◌, IfErr, IfOk};
ghost use Rattle.host_core.specs.Counts.{PrintMayRise};
ghost use Rattle.host_core.specs.Crashes.{Elapses, MayLeaveInPrint};
ghost use Rattle.conf_doc.specs.Trees.{document};
ghost use Rattle.gcu_output.specs.Printing.{LeftInText, LeftInTold, IsBeforeAnyStep, IsTold, is_disk_fault as is_fault, may_have_written, outcome_of, IsPrinted, IsSaid, text_in_lines};
ghost use Rattle.gcu_output.specs.Lines.{last_line};
ghost use Rattle.gcu_output.specs.declared.outcomes.Outcome.TheVariants.{Done as done, Memory as no_memory};

use crate::Outcome;
use crate::lines::line;
use crate::tree_text::tree_text;
use conf_doc::Tree;
use host_core::{Host, Memory};
use std::alloc::Global;

/// The last line of Done.
pub const DONE_LINE: &[u8] = b"done\n";

/// Prints the last line of an outcome that isn't Done, and answers it.
pub fn say<H: Host>(alloc: Global, outcome: Outcome, host: &mut H) -> Outcome
    ensures said { IsSaid outcome (last_line outcome)
        (H.told host.old) (H.told host.new) (H.counts host.old) (H.counts host.new) result }
    ensures counts { PrintMayRise (H.counts host.old) (H.counts host.new) }
    ensures time { Elapses H.moment H.left_since host.old host.new
        (LeftInText (last_line outcome) (H.told host.old)) }
    ensures goes { H.goes_on host.old host.new }
{
    match line(alloc, &outcome) {
        Ok(text) => print(outcome, text.as_bytes(), host),
        Err(_) => say_memory(host),
    }
}

/// Prints the last line of a command that writes. Once something may have been written no memory is asked
/// for, which is so with Done and with a disk fault.
pub fn tell<H: Host>(alloc: Global, done: Result<(), Outcome>, host: &mut H) -> Outcome
    requires { IfErr done IsBeforeAnyStep }
    ensures told { IsTold (may_have_written (outcome_of done)) (outcome_of done)
        (H.told host.old) (H.told host.new) (H.counts host.old) (H.counts host.new) result }
    ensures counts { PrintMayRise (H.counts host.old) (H.counts host.new) }
    ensures time { Elapses H.moment H.left_since host.old host.new
        (LeftInTold (may_have_written (outcome_of done)) (outcome_of done) (H.told host.old)) }
    ensures goes { H.goes_on host.old host.new }
{
    match done {
        Ok(()) => print(Outcome::Done, DONE_LINE, host),
        Err(refusal) if is_disk_fault(&refusal) => {
            let fault = Outcome::DiskFault { step: 0 };
            print(fault, b"refused 4 disk fault after 0\n", host)
        }
        Err(refusal) => say(alloc, refusal, host),
    }
}

fn is_disk_fault(outcome: &Outcome) -> bool
    ensures { result ≡ is_fault outcome.now }
{
    match outcome {
        Outcome::DiskFault { .. } => true,
        _ => false,
    }
}

/// Prints the file text of a configuration's tree and the last line of Done.
pub fn show<H: Host>(alloc: Global, tree: &Tree, host: &mut H) -> Outcome
    ensures said { IsSaid done (text_in_lines (document tree.now) ++ last_line done)
        (H.told host.old) (H.told host.new) (H.counts host.old) (H.counts host.new) result }
    ensures counts { PrintMayRise (H.counts host.old) (H.counts host.new) }
    ensures time { Elapses H.moment H.left_since host.old host.new
        (LeftInText (text_in_lines (document tree.now) ++ last_line done) (H.told host.old)) }
    ensures goes { H.goes_on host.old host.new }
{
    match tree_text(alloc, tree) {
        Ok(text) => show_text(text, host),
        Err(Memory) => say_memory(host),
    }
}

/// Prints a text and the last line of Done.
pub fn show_text<H: Host>(text: Vec<u8>, host: &mut H) -> Outcome
    ensures said { IsSaid done (text.items ++ last_line done)
        (H.told host.old) (H.told host.new) (H.counts host.old) (H.counts host.new) result }
    ensures counts { PrintMayRise (H.counts host.old) (H.counts host.new) }
    ensures time { Elapses H.moment H.left_since host.old host.new
        (LeftInText (text.items ++ last_line done) (H.told host.old)) }
    ensures goes { H.goes_on host.old host.new }
{
    match with_done(text) {
        Ok(whole) => print(Outcome::Done, &whole, host),
        Err(Memory) => say_memory(host),
    }
}

/// Prints the last line of Memory, for which no memory is needed.
pub fn say_memory<H: Host>(host: &mut H) -> Outcome
    ensures printed { IsPrinted no_memory (last_line no_memory)
        (H.told host.old) (H.told host.new) (H.counts host.old) (H.counts host.new) result }
    ensures counts { PrintMayRise (H.counts host.old) (H.counts host.new) }
    ensures time { Elapses H.moment H.left_since host.old host.new
        (MayLeaveInPrint (last_line no_memory) (H.told host.old)) }
    ensures goes { H.goes_on host.old host.new }
{
    print(Outcome::Memory, b"refused 1 memory\n", host)
}

/// A text with the last line of Done behind it.
fn with_done(mut text: Vec<u8>) -> Result<Vec<u8>, Memory>
    ensures { IfOk result (λ b. b.items ≡ text.items ++ last_line done) }
{
    text.extend_from_slice(DONE_LINE)?;
    Ok(text)
}

/// Prints the whole output of an outcome in one call.
fn print<H: Host>(outcome: Outcome, text: &[u8], host: &mut H) -> Outcome
    ensures printed { IsPrinted outcome text.now
        (H.told host.old) (H.told host.new) (H.counts host.old) (H.counts host.new) result }
    ensures counts { PrintMayRise (H.counts host.old) (H.counts host.new) }
    ensures time { Elapses H.moment H.left_since host.old host.new
        (MayLeaveInPrint text.now (H.told host.old)) }
    ensures goes { H.goes_on host.old host.new }
{
    match host.print(text) {
        Ok(()) => outcome,
        Err(_) => Outcome::PrintFault { step: 0 },
    }
}
