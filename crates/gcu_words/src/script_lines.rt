//! The lines of a script.
ghost use Rattle.std.specs.Prelude.{◌≡◌, IfOk, map};
ghost use Rattle.gcu_words.specs.Scripts.{line_of, line_of_three, line_of_two, line_of_words, words_of};

use checkpoints::is_good_name;
use host_core::{Memory, Sequence, Txt};
use std::alloc::Global;
use std::str;

/// What an operator asks. A file is the path of a patch.
#[derive(Drop)]
pub enum ScriptLine {
    /// Begins a session of that name, towards what the patch makes of the configuration.
    Begin { name: Txt, file: Txt },
    /// Commits the next move of the session's plan.
    Step { name: Txt },
    /// Gives the session another goal.
    Retarget { name: Txt, file: Txt },
    /// Ends the session.
    End { name: Txt },
}

/// The lines of a script in order.
pub type Script = Sequence<ScriptLine>;

/// The line that bytes without a line feed are.
pub(crate) fn read_line(alloc: Global, bytes: &[u8]) -> Result<Option<ScriptLine>, Memory>
    ensures { IfOk result (λ line. line ≡ line_of bytes.now) }
{
    match str::from_utf8(bytes) {
        Ok(text) => line_in(alloc, text),
        Err(_) => Ok(None),
    }
}

/// The same of a text.
fn line_in(alloc: Global, text: &str) -> Result<Option<ScriptLine>, Memory>
    ensures { IfOk result (λ line. line ≡ line_of_words (words_of text.now)) }
{
    let words = words_of(alloc, text)?;
    line_of_words(alloc, &words)
}

/// What stands between the spaces of a text.
fn words_of<'a>(alloc: Global, text: &'a str) -> Result<Vec<&'a str>, Memory>
    ensures { IfOk result (λ words. map (λ w. w.now) words.items ≡ words_of text.now) }
{
    let words: Vec<&'a str> = text.split(' ').collect(alloc)?;
    Ok(words)
}

/// The line that words are.
fn line_of_words(alloc: Global, words: &[&str]) -> Result<Option<ScriptLine>, Memory>
    ensures { IfOk result (λ line. line ≡ line_of_words (map (λ w. w.now) words.now)) }
{
    match words {
        [command, name] => line_of_two(alloc, command, name),
        [command, name, file] => line_of_three(alloc, command, name, file),
        _ => Ok(None),
    }
}

/// The line that two words are.
fn line_of_two(alloc: Global, command: &str, name: &str) -> Result<Option<ScriptLine>, Memory>
    ensures { IfOk result (λ line. line ≡ line_of_two command.now name.now) }
{
    if !is_good_name(name) {
        return Ok(None);
    }
    if command == "step" {
        let name = Txt::new(alloc, name)?;
        return Ok(Some(ScriptLine::Step { name }));
    }
    if command == "end" {
        let name = Txt::new(alloc, name)?;
        return Ok(Some(ScriptLine::End { name }));
    }
    Ok(None)
}

/// The line that three words are.
fn line_of_three(
    alloc: Global,
    command: &str,
    name: &str,
    file: &str,
) -> Result<Option<ScriptLine>, Memory>
    ensures { IfOk result (λ line. line ≡ line_of_three command.now name.now file.now) }
{
    if !is_good_name(name) || file.is_empty() {
        return Ok(None);
    }
    if command == "begin" {
        let name = Txt::new(alloc, name)?;
        let file = Txt::new(alloc, file)?;
        return Ok(Some(ScriptLine::Begin { name, file }));
    }
    if command == "retarget" {
        let name = Txt::new(alloc, name)?;
        let file = Txt::new(alloc, file)?;
        return Ok(Some(ScriptLine::Retarget { name, file }));
    }
    Ok(None)
}
