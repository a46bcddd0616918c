//! The statements of tokens that have no faults.
ghost use Rattle.std.specs.Prelude.{◌≡◌, ℕ, List, encode_utf8, ◌<◌, ◌≤◌, ◌^◌, ◌++◌, [], All, false, length, drop, string_bytes, slice_range, IfOk, OnOk, OnErr, Err};
ghost use Rattle.yang_text.specs.declared.errors.TextError.TheVariants.{Memory};
ghost use Rattle.host_core.specs.Answers.{Gives};
ghost use Rattle.yang_text.specs.Building.{join, joined_by, argument_of, statement_of, end_by, open_by, close_by, open_line, sign_by, next_start, nothing, build, finish, progress, built};
ghost use Rattle.yang_text.specs.Bytes.{escape_meaning};
ghost use Rattle.yang_text.specs.Errors.{text_fault};
ghost use Rattle.yang_text.specs.Statements.{declaration};
ghost use Rattle.yang_text.specs.Texts.{IsCut, bytes_of, content, unescape};

use crate::errors::{ModelWhy, TextError};
use crate::lexing::{Kind, Token};
use crate::statements::{Statement, Statements};
use host_core::Txt;
use std::alloc::{AllocError, Global};
use std::mem;

/// A statement whose block is open, and what stands before it in its own block.
#[derive(Drop)]
pub struct Level {
    pub before: Statements,
    pub statement: Statement,
}

/// What has been read of the innermost open block, and of those round it.
#[derive(Drop)]
pub struct Reader {
    pub current: Statements,
    pub outer: Vec<Level>,
}

/// What an escape stands for.
fn escape_meaning(c: char) -> char
    ensures { result ≡ escape_meaning c }
{
    if c == 'n' {
        '\n'
    } else if c == 't' {
        '\t'
    } else {
        c
    }
}

/// One character more of a text in double quotes: whether the next one stands behind a backslash.
fn push_character(out: &mut String, after_backslash: bool, c: char) -> Result<bool, AllocError>
    ensures { IfOk result (λ after. (bs : List ℕ) → string_bytes out.new ++ unescape after bs
        ≡ string_bytes out.old ++ unescape after_backslash (encode_utf8 c ++ bs)) }
{
    if after_backslash {
        out.push(escape_meaning(c))?;
        Ok(false)
    } else if c == '\\' {
        Ok(true)
    } else {
        out.push(c)?;
        Ok(false)
    }
}

/// Adds what a text in double quotes means.
fn push_unescaped(out: &mut String, text: &str) -> Result<(), AllocError>
    ensures { OnOk result (string_bytes out.new ≡ string_bytes out.old ++ unescape false text.now) }
{
    let mut after_backslash = false;
    for c in text.chars() {
        after_backslash = push_character(out, after_backslash, c)?;
    }
    Ok(())
}

/// Adds what a word or a quoted text stands for.
fn push_content(out: &mut String, text: &str, token: Token) -> Result<(), AllocError>
    requires { IsCut text.now token }
    ensures { OnOk result (string_bytes out.new ≡ string_bytes out.old ++ content text.now token) }
{
    let bytes = &text[token.start..token.end];
    match token.kind {
        Kind::Word | Kind::Single => out.push_str(bytes),
        Kind::Double => push_unescaped(out, bytes),
        Kind::Semicolon | Kind::Open | Kind::Close | Kind::Bad => Ok(()),
    }
}

/// Adds a part of an argument behind the first one. A plus sign adds nothing.
fn push_part(out: &mut String, text: &str, token: Token) -> Result<(), AllocError>
    requires { IsCut text.now token }
    ensures { OnOk result (string_bytes out.new
        ≡ string_bytes out.old ++ joined_by token.kind (content text.now token) []) }
{
    match token.kind {
        Kind::Single | Kind::Double => push_content(out, text, token),
        _ => Ok(()),
    }
}

fn push_parts(out: &mut String, text: &str, parts: &[Token]) -> Result<(), AllocError>
    requires { All (IsCut text.now) parts.now }
    ensures { OnOk result (string_bytes out.new ≡ string_bytes out.old ++ join text.now parts.now) }
{
    for part in parts {
        push_part(out, text, *part)?;
    }
    Ok(())
}

/// The argument of the tokens behind a keyword.
fn read_argument(alloc: Global, text: &str, parts: &[Token]) -> Result<Option<Txt>, AllocError>
    requires { All (IsCut text.now) parts.now }
    ensures { IfOk result (λ a. a ≡ argument_of text.now parts.now) }
{
    match parts.split_first() {
        None => Ok(None),
        Some((first, rest)) => {
            let mut argument = String::new(alloc);
            push_content(&mut argument, text, *first)?;
            push_parts(&mut argument, text, rest)?;
            Ok(Some(Txt::from(argument)))
        }
    }
}

/// The statement of a keyword and the tokens of its argument, without its block.
fn read_statement(
    alloc: Global,
    text: &str,
    name: Token,
    parts: &[Token],
) -> Result<Statement, AllocError>
    requires name { IsCut text.now name }
    requires parts { All (IsCut text.now) parts.now }
    ensures { IfOk result (λ s. declaration s ≡ statement_of text.now name parts.now []) }
{
    let argument = read_argument(alloc, text, parts)?;
    let keyword = String::from_str(alloc, &text[name.start..name.end])?;
    Ok(Statement {
        keyword: Txt::from(keyword),
        argument,
        line: name.line,
        start: name.start as u64,
        end: name.end as u64,
        block: Statements::new(alloc),
    })
}

impl Reader {
    fn new(alloc: Global) -> Reader
        ensures current { result.current ≡ [] }
        ensures outer { result.outer.items ≡ [] }
    {
        Reader {
            current: Statements::new(alloc),
            outer: Vec::new(alloc),
        }
    }

    /// A semicolon behind the tokens of a statement.
    fn end(&mut self, alloc: Global, text: &str, head: &[Token]) -> Result<(), TextError>
        requires { All (IsCut text.now) head.now }
        ensures ok { OnOk result (progress self.new []
            ≡ end_by text.now head.now (progress self.old [])) }
        ensures err { OnErr result (result ≡ Err Memory) }
    {
        match head.split_first() {
            None => Ok(()),
            Some((name, parts)) => {
                let statement = read_statement(alloc, text, *name, parts)?;
                self.current.push(statement)?;
                Ok(())
            }
        }
    }

    /// An open brace behind the tokens of a statement.
    fn open(&mut self, alloc: Global, text: &str, head: &[Token]) -> Result<(), TextError>
        requires { All (IsCut text.now) head.now }
        ensures ok { OnOk result (progress self.new []
            ≡ open_by text.now head.now (progress self.old [])) }
        ensures err { OnErr result (result ≡ Err Memory) }
    {
        match head.split_first() {
            None => Ok(()),
            Some((name, parts)) => {
                let statement = read_statement(alloc, text, *name, parts)?;
                let before = mem::replace(&mut self.current, Statements::new(alloc));
                self.outer.push(Level { before, statement })?;
                Ok(())
            }
        }
    }

    /// A closing brace, which closes nothing where no block is open.
    fn close(&mut self) -> Result<(), TextError>
        ensures ok { OnOk result (progress self.new []
            ≡ close_by (progress self.old []).outer (progress self.old [])) }
        ensures err { OnErr result (result ≡ Err Memory) }
    {
        match self.outer.pop() {
            None => Ok(()),
            Some(level) => {
                let Level {
                    before,
                    mut statement,
                } = level;
                statement.block = mem::replace(&mut self.current, before);
                self.current.push(statement)?;
                Ok(())
            }
        }
    }

    /// The sign behind the tokens of a statement. Any other token waits for one.
    fn read(
        &mut self,
        alloc: Global,
        text: &str,
        head: &[Token],
        kind: Kind,
    ) -> Result<(), TextError>
        requires { All (IsCut text.now) head.now }
        ensures ok { OnOk result (progress self.new []
            ≡ sign_by text.now kind head.now (progress self.old [])) }
        ensures err { OnErr result (result ≡ Err Memory) }
    {
        match kind {
            Kind::Semicolon => self.end(alloc, text, head),
            Kind::Open => self.open(alloc, text, head),
            Kind::Close => self.close(),
            _ => Ok(()),
        }
    }

    /// The line of the innermost statement that isn't ended.
    fn open_line(&self, head: &[Token]) -> Option<u32>
        ensures { result ≡ open_line head.now (progress self.now []).outer }
    {
        match head.first() {
            Some(name) => Some(name.line),
            None => match self.outer.last() {
                Some(level) => Some(level.statement.line),
                None => None,
            },
        }
    }

    /// The statements, where the last one is ended.
    fn finish(self, head: &[Token]) -> Result<Statements, TextError>
        ensures { Gives (λ ss. ss) text_fault result (finish (progress self head.now)) }
    {
        match self.open_line(head) {
            Some(line) => Err(TextError::Fault {
                line,
                why: ModelWhy::Unbalanced,
            }),
            None => Ok(self.current),
        }
    }
}

/// Where the tokens of a statement begin, behind the token at an index.
fn next_start(start: usize, i: usize, kind: Kind) -> usize
    requires { i < 2 ^ 32 }
    ensures { result ≡ next_start start i kind }
{
    match kind {
        Kind::Semicolon | Kind::Open | Kind::Close => i + 1,
        _ => start,
    }
}

/// What is read of all the tokens, and where those of a statement begin that no sign ends.
fn read_signs(alloc: Global, text: &str, tokens: &[Token]) -> Result<(Reader, usize), TextError>
    requires cut { All (IsCut text.now) tokens.now }
    requires few { length tokens.now < 2 ^ 32 }
    ensures ok { IfOk result (λ r.
        progress r.0 (drop r.1 tokens.now) ≡ build text.now nothing tokens.now) }
    ensures within { IfOk result (λ r. r.1 ≤ length tokens.now) }
    ensures err { OnErr result (result ≡ Err Memory) }
{
    let mut reader = Reader::new(alloc);
    let mut start = 0;
    for i in 0..tokens.len() {
        let kind = tokens[i].kind;
        reader.read(alloc, text, &tokens[start..i], kind)?;
        start = next_start(start, i, kind);
    }
    Ok((reader, start))
}

/// The statements of tokens that have no fault but one at the end of the text.
pub fn read_statements(alloc: Global, text: &str, tokens: &[Token]) -> Result<Statements, TextError>
    requires cut { All (IsCut text.now) tokens.now }
    requires few { length tokens.now < 2 ^ 32 }
    ensures { Gives (λ ss. ss) text_fault result (built text.now tokens.now) }
{
    if tokens.is_empty() {
        return Err(TextError::Fault {
            line: 1,
            why: ModelWhy::Unbalanced,
        });
    }
    let (reader, start) = read_signs(alloc, text, tokens)?;
    reader.finish(&tokens[start..])
}
