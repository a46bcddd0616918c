//! The patches that a script of several operators names: each file is read once.
ghost use Rattle.std.specs.Prelude.{◌≡◌, IfErr, IfOk, IsSome, option_map};
ghost use Rattle.patch_core.specs.Operation.{operations};
ghost use Rattle.gcu_inputs.specs.Preparing.{Finds, Refuses};
ghost use Rattle.gcu_inputs.specs.Reads.{ReadsInputs};
ghost use Rattle.gcu_requests.specs.ReadScripts.{AreFound, GoesOn, IsFound, patched_all};
ghost use Rattle.gcu_requests.specs.SessionsAsked.{file_of, line_asked, patch_at, patches_asked, unread_asked};

use gcu_inputs::input_patch;
use gcu_output::Outcome;
use gcu_words::ScriptLine;
use host_core::{Host, Sequence, Txt};
use patch_core::Patch;
use std::alloc::Global;

/// Patches, each with its path.
pub type Patches = Sequence<(Txt, Patch)>;

/// The patch that was found at a path.
pub fn patch_at<'p>(path: &Txt, found: &'p [(Txt, Patch)]) -> Option<&'p Patch>
    ensures { option_map (λ p. operations p.now) result
        ≡ patch_at path.now (patched_all found.now) }
{
    match found {
        [] => None,
        [(name, patch), rest @ ..] => {
            if name.as_str() == path.as_str() {
                return Some(patch);
            }
            patch_at(path, rest)
        }
    }
}

/// The file that a line names.
fn file_of(line: &ScriptLine) -> Option<&Txt>
    ensures { option_map (λ p. p.now) result ≡ file_of line.now }
{
    match line {
        ScriptLine::Begin { file, .. } => Some(file),
        ScriptLine::Step { .. } => None,
        ScriptLine::Retarget { file, .. } => Some(file),
        ScriptLine::End { .. } => None,
    }
}

/// The patches of some lines in turn, behind those that were found before.
pub(crate) fn input_patches<H: Host>(
    alloc: Global,
    found: Patches,
    lines: &[ScriptLine],
    host: &mut H,
) -> Result<Patches, Outcome>
    ensures answer { Finds (H.told host.old) patched_all result
        (patches_asked (patched_all found) lines.now) }
    ensures found { IfOk result (λ all. AreFound (patched_all all) lines.now) }
    ensures goes_on { IfOk result (λ all. GoesOn (patched_all found) (patched_all all)) }
    ensures reads { ReadsInputs H.told H.counts H.moment H.left_since H.goes_on host.old host.new }
    ensures cause { IfErr result (Refuses (H.counts host.old) (H.counts host.new)) }
{
    match lines {
        [] => Ok(found),
        [line, rest @ ..] => {
            let more = input_of_line(alloc, found, line, host)?;
            input_patches(alloc, more, rest, host)
        }
    }
}

/// The patch of a line, behind those that were found before.
fn input_of_line<H: Host>(
    alloc: Global,
    found: Patches,
    line: &ScriptLine,
    host: &mut H,
) -> Result<Patches, Outcome>
    ensures answer { Finds (H.told host.old) patched_all result
        (line_asked (patched_all found) (file_of line.now)) }
    ensures found { IfOk result (λ all. IsFound (patched_all all) line.now) }
    ensures goes_on { IfOk result (λ all. GoesOn (patched_all found) (patched_all all)) }
    ensures reads { ReadsInputs H.told H.counts H.moment H.left_since H.goes_on host.old host.new }
    ensures cause { IfErr result (Refuses (H.counts host.old) (H.counts host.new)) }
{
    match file_of(line) {
        Some(path) => input_of_file(alloc, found, path, host),
        None => Ok(found),
    }
}

/// The patch in a file, which is read where it wasn't before.
fn input_of_file<H: Host>(
    alloc: Global,
    mut found: Patches,
    path: &Txt,
    host: &mut H,
) -> Result<Patches, Outcome>
    ensures answer { Finds (H.told host.old) patched_all result
        (unread_asked (patched_all found) path.now (patch_at path.now (patched_all found))) }
    ensures found { IfOk result (λ all. IsSome (patch_at path.now (patched_all all))) }
    ensures goes_on { IfOk result (λ all. GoesOn (patched_all found) (patched_all all)) }
    ensures reads { ReadsInputs H.told H.counts H.moment H.left_since H.goes_on host.old host.new }
    ensures cause { IfErr result (Refuses (H.counts host.old) (H.counts host.new)) }
{
    if patch_at(path, found.items()).is_some() {
        return Ok(found);
    }
    let patch = input_patch(alloc, path, host)?;
    found.push((path.copy(alloc)?, patch))?;
    Ok(found)
}
