//! The texts of the models that the list of files names.
ghost use Rattle.std.specs.Prelude.{◌≡◌, ◌≤◌, ◌+◌, IfErr, IfOk, length};
ghost use Rattle.host_core.specs.Answers.{Gives};
ghost use Rattle.gcu_inputs.specs.ModelList.{most_files, paths_of};
ghost use Rattle.yang_text.specs.Declarations.{total_weight};
ghost use Rattle.yang_text.specs.Reading.{reading};
ghost use Rattle.gcu_inputs.specs.ModelFiles.{paths_asked, files_asked, texts_in, texts_asked, text_answer, AreShort, AreSmall};
ghost use Rattle.gcu_inputs.specs.Preparing.{Finds, Refuses, RefusesAlways, refusal};
ghost use Rattle.gcu_inputs.specs.Reads.{ReadsInputs};

use crate::inputs::input_bytes;
use crate::model_list::read_list;
use gcu_output::Outcome;
use host_core::{Host, Names, Sequence, Txt};
use std::alloc::Global;
use yang_text::{Statements, TextError, parse};

/// How many bytes the list of files may have.
const LIST_LIMIT: u64 = 65_536;

/// How many bytes a file of models may have.
const MODEL_LIMIT: u64 = 1_048_576;

/// Files, each with its path.
type Files = Sequence<(Txt, Sequence<u8>)>;

/// Statements, each text with its path.
pub(crate) type Texts = Sequence<(Txt, Statements)>;

/// The statements of all files that `models.list` names.
pub(crate) fn input_texts<H: Host>(alloc: Global, host: &mut H) -> Result<Texts, Outcome>
    ensures answer { Finds (H.told host.old) (λ texts. texts) result texts_asked }
    ensures small { IfOk result AreSmall }
    ensures few { IfOk result (λ texts. length texts ≤ most_files) }
    ensures reads { ReadsInputs H.told H.counts H.moment H.left_since H.goes_on host.old host.new }
    ensures cause { IfErr result (Refuses (H.counts host.old) (H.counts host.new)) }
{
    let paths = input_paths(alloc, host)?;
    let files = input_files(alloc, Sequence::new(alloc), paths.items(), host)?;
    texts_of(alloc, Sequence::new(alloc), files.items())
}

/// The paths that `models.list` names.
fn input_paths<H: Host>(alloc: Global, host: &mut H) -> Result<Names, Outcome>
    ensures answer { Finds (H.told host.old) (λ paths. paths) result paths_asked }
    ensures few { IfOk result (λ paths. length paths ≤ most_files) }
    ensures reads { ReadsInputs H.told H.counts H.moment H.left_since H.goes_on host.old host.new }
    ensures cause { IfErr result (Refuses (H.counts host.old) (H.counts host.new)) }
{
    let path = Txt::new(alloc, "models.list")?;
    let bytes = input_bytes(alloc, &path, LIST_LIMIT, host)?;
    paths_in(alloc, &path, bytes.items())
}

/// The paths in the list that was found at a path.
fn paths_in(alloc: Global, path: &Txt, bytes: &[u8]) -> Result<Names, Outcome>
    requires { length bytes.now ≤ 65536 }
    ensures answer { Gives (λ paths. paths) refusal result
        (text_answer path.now (paths_of bytes.now)) }
    ensures few { IfOk result (λ paths. length paths ≤ most_files) }
    ensures cause { IfErr result RefusesAlways }
{
    match read_list(alloc, bytes) {
        Ok(paths) => Ok(paths),
        Err(TextError::Fault { line, why }) => Err(Outcome::BadModels {
            file: path.copy(alloc)?,
            line,
            why,
        }),
        Err(TextError::Memory) => Err(Outcome::Memory),
    }
}

/// The files at some paths in turn, behind those that were found before.
fn input_files<H: Host>(
    alloc: Global,
    mut found: Files,
    paths: &[Txt],
    host: &mut H,
) -> Result<Files, Outcome>
    requires { AreShort found }
    ensures answer { Finds (H.told host.old) (λ files. files) result
        (files_asked found paths.now) }
    ensures short { IfOk result AreShort }
    ensures many { IfOk result (λ files. length files ≡ length found + length paths.now) }
    ensures reads { ReadsInputs H.told H.counts H.moment H.left_since H.goes_on host.old host.new }
    ensures cause { IfErr result (Refuses (H.counts host.old) (H.counts host.new)) }
{
    match paths {
        [] => Ok(found),
        [path, rest @ ..] => {
            let bytes = input_bytes(alloc, path, MODEL_LIMIT, host)?;
            found.push((path.copy(alloc)?, bytes))?;
            input_files(alloc, found, rest, host)
        }
    }
}

/// The statements of some files in turn, behind those that were read before.
fn texts_of(alloc: Global, mut read: Texts, files: &[(Txt, Sequence<u8>)]) -> Result<Texts, Outcome>
    requires short { AreShort files.now }
    requires small { AreSmall read }
    ensures answer { Gives (λ texts. texts) refusal result (texts_in read files.now) }
    ensures small { IfOk result AreSmall }
    ensures many { IfOk result (λ texts. length texts ≡ length read + length files.now) }
    ensures cause { IfErr result RefusesAlways }
{
    match files {
        [] => Ok(read),
        [(path, bytes), rest @ ..] => {
            let statements = statements_of(alloc, path, bytes.items())?;
            read.push((path.copy(alloc)?, statements))?;
            texts_of(alloc, read, rest)
        }
    }
}

/// The statements of the text that was found at a path.
fn statements_of(alloc: Global, path: &Txt, bytes: &[u8]) -> Result<Statements, Outcome>
    requires { length bytes.now ≤ 1048576 }
    ensures answer { Gives (λ ds. ds) refusal result
        (text_answer path.now (reading bytes.now)) }
    ensures small { IfOk result (λ ds. total_weight ds ≤ 1048576) }
    ensures cause { IfErr result RefusesAlways }
{
    match parse(alloc, bytes) {
        Ok(statements) => Ok(statements),
        Err(TextError::Fault { line, why }) => Err(Outcome::BadModels {
            file: path.copy(alloc)?,
            line,
            why,
        }),
        Err(TextError::Memory) => Err(Outcome::Memory),
    }
}
