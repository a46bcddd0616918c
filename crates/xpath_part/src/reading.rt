//! An expression from its text.
ghost use Rattle.std.specs.Prelude.{◌≡◌, [], ◌∷◌, length, IfOk, IfErr, Some, None, option_map};
ghost use Rattle.xpath_part.specs.Errors.{IfBad, IsPlaceUpTo};
ghost use Rattle.xpath_part.specs.Expressions.{expression};
ghost use Rattle.xpath_part.specs.Grammar.{IsExpression, SpellsNothing};
ghost use Rattle.xpath_part.specs.Nesting.{fresh, predicate_of};
ghost use Rattle.xpath_part.specs.Reading.{reader_at, entered, popped, left, popped_bracket, left_bracket, read_sign, read, finish, parse, read_expression};

use crate::following::{comparison, literal, number, slash, stay, up, word};
use crate::lexing::lex;
use crate::nesting::{
    Closed, Frame, Opened, close, fresh, leave_group, leave_predicate, open, open_predicate,
};
use crate::phases::{Phase, value_of};
use crate::stacks::Stack;
use crate::symbols::{Sign, Token};
use crate::{Branch, Expr, ExprError};
use host_core::Memory;
use std::alloc::Global;

/// How many parentheses and brackets may be open at once.
const LEVELS: u8 = 32;

/// What has been read: the innermost nesting, those round it, and how many parentheses and brackets are
/// open.
#[derive(Drop)]
pub(crate) struct Reader {
    pub(crate) phase: Phase,
    pub(crate) frames: Stack<Frame>,
    pub(crate) depth: u8,
}

/// A token that opens and closes nothing.
fn at_level(phase: Option<Phase>, frames: Stack<Frame>, depth: u8) -> Option<Reader>
    ensures { result ≡ reader_at phase frames depth }
{
    match phase {
        Some(phase) => Some(Reader {
            phase,
            frames,
            depth,
        }),
        None => None,
    }
}

/// The innermost nesting, which has just opened.
fn nest(frame: Frame, frames: Stack<Frame>, depth: u8) -> Result<Option<Reader>, Memory>
    ensures { IfOk result (λ r. r ≡ reader_at (Some fresh) (frame ∷ frames) depth) }
{
    let mut frames = frames;
    frames.push(frame)?;
    Ok(at_level(Some(fresh()), frames, depth))
}

/// What a parenthesis or a bracket opens.
fn enter(opened: Option<Opened>, frames: Stack<Frame>, depth: u8) -> Result<Option<Reader>, Memory>
    ensures { IfOk result (λ r. r ≡ entered opened frames depth) }
{
    if depth >= LEVELS {
        drop(opened);
        return Ok(None);
    }
    match opened {
        Some(Opened::Nested(frame)) => nest(frame, frames, depth + 1),
        Some(Opened::Flat(phase)) => Ok(at_level(Some(phase), frames, depth + 1)),
        None => Ok(None),
    }
}

/// A nesting in parentheses that closes.
fn pop_group(
    alloc: Global,
    value: Branch,
    frames: Stack<Frame>,
    depth: u8,
) -> Result<Option<Reader>, Memory>
    ensures { IfOk result (λ r. r ≡ popped value frames depth) }
{
    let mut frames = frames;
    match frames.pop() {
        Some(frame) => {
            let phase = leave_group(alloc, frame, value)?;
            Ok(at_level(phase, frames, depth.saturating_sub(1)))
        }
        None => Ok(None),
    }
}

/// What a parenthesis closes.
fn leave(
    alloc: Global,
    closed: Option<Closed>,
    frames: Stack<Frame>,
    depth: u8,
) -> Result<Option<Reader>, Memory>
    ensures { IfOk result (λ r. r ≡ left closed frames depth) }
{
    match closed {
        Some(Closed::Value(value)) => pop_group(alloc, value, frames, depth),
        Some(Closed::Flat(phase)) => Ok(at_level(Some(phase), frames, depth.saturating_sub(1))),
        None => Ok(None),
    }
}

/// What a bracket closes.
fn leave_bracket(
    value: Option<Branch>,
    frames: Stack<Frame>,
    depth: u8,
) -> Result<Option<Reader>, Memory>
    ensures { IfOk result (λ r. r ≡ left_bracket value frames depth) }
{
    match value {
        Some(value) => pop_bracket(value, frames, depth),
        None => Ok(None),
    }
}

/// A predicate that closes.
fn pop_bracket(value: Branch, frames: Stack<Frame>, depth: u8) -> Result<Option<Reader>, Memory>
    ensures { IfOk result (λ r. r ≡ popped_bracket value frames depth) }
{
    let mut frames = frames;
    match frames.pop() {
        Some(frame) => {
            let phase = leave_predicate(frame, value)?;
            Ok(at_level(phase, frames, depth.saturating_sub(1)))
        }
        None => Ok(None),
    }
}

/// A bracket that opens, as a nesting.
fn open_bracket(phase: Phase) -> Option<Opened>
    ensures { result ≡ option_map (λ f. Opened.Nested f) (predicate_of phase) }
{
    match open_predicate(phase) {
        Some(frame) => Some(Opened::Nested(frame)),
        None => None,
    }
}

/// A sign.
fn read_sign(alloc: Global, reader: Reader, sign: Sign) -> Result<Option<Reader>, Memory>
    ensures { IfOk result (λ r. r ≡ read_sign sign reader) }
{
    let Reader {
        phase,
        frames,
        depth,
    } = reader;
    match sign {
        Sign::Slash => Ok(at_level(slash(alloc, phase)?, frames, depth)),
        Sign::Up => Ok(at_level(up(alloc, phase)?, frames, depth)),
        Sign::Stay => Ok(at_level(stay(alloc, phase)?, frames, depth)),
        Sign::Compare(cmp) => Ok(at_level(comparison(phase, cmp)?, frames, depth)),
        Sign::Open => enter(open(phase), frames, depth),
        Sign::OpenBracket => enter(open_bracket(phase), frames, depth),
        Sign::Close => leave(alloc, close(alloc, phase)?, frames, depth),
        Sign::CloseBracket => leave_bracket(value_of(alloc, phase)?, frames, depth),
    }
}

/// One token more. None where it can't stand here.
fn read(alloc: Global, reader: Reader, token: Token) -> Result<Option<Reader>, Memory>
    ensures { IfOk result (λ r. r ≡ read token reader) }
{
    match token {
        Token::Sign(sign) => read_sign(alloc, reader, sign),
        Token::Name(prefix, name) => {
            let Reader {
                phase,
                frames,
                depth,
            } = reader;
            Ok(at_level(word(alloc, phase, prefix, name)?, frames, depth))
        }
        Token::Literal(text) => {
            let Reader {
                phase,
                frames,
                depth,
            } = reader;
            Ok(at_level(literal(phase, text), frames, depth))
        }
        Token::Number(n) => {
            let Reader {
                phase,
                frames,
                depth,
            } = reader;
            Ok(at_level(number(alloc, phase, n)?, frames, depth))
        }
    }
}

/// The expression of the tokens, where no nesting is open.
fn finish(alloc: Global, reader: Reader) -> Result<Option<Branch>, Memory>
    ensures { IfOk result (λ e. e ≡ finish reader) }
{
    let Reader {
        phase,
        mut frames,
        depth: _,
    } = reader;
    match frames.pop() {
        Some(frame) => {
            drop(frame);
            drop(phase);
            Ok(None)
        }
        None => value_of(alloc, phase),
    }
}

/// The expression of tokens. `Bad` has the position given.
fn parse(alloc: Global, tokens: Stack<Token>, at: usize) -> Result<Branch, ExprError>
    ensures ok { IfOk result (λ e. parse tokens ≡ Some e) }
    ensures bad { IfErr result (λ e. IfBad e (parse tokens ≡ None)) }
    ensures place { IfErr result (IsPlaceUpTo at) }
{
    let mut tokens = tokens;
    let mut reader = Reader {
        phase: fresh(),
        frames: Stack::new(alloc),
        depth: 0,
    };
    while let Some(token) = tokens.pop() {
        match read(alloc, reader, token)? {
            Some(next) => reader = next,
            None => return Err(ExprError::Bad { at }),
        }
    }
    match finish(alloc, reader)? {
        Some(branch) => Ok(branch),
        None => Err(ExprError::Bad { at }),
    }
}

/// The same, said by the reader's function alone.
fn read_text(alloc: Global, text: &str) -> Result<Expr, ExprError>
    ensures ok { IfOk result (λ e. read_expression text.now ≡ Some (expression e)) }
    ensures bad { IfErr result (λ e. IfBad e (read_expression text.now ≡ None)) }
    ensures place { IfErr result (IsPlaceUpTo (length text.now)) }
{
    let tokens = Stack::from_vec(lex(alloc, text)?);
    let branch = parse(alloc, tokens, text.len())?;
    Ok(branch.into_expr())
}

impl Expr {
    /// The expression that a text spells. `Bad` stands at the byte behind which there is no token, or at
    /// the end of a text whose tokens spell no expression.
    pub fn read(alloc: Global, text: &str) -> Result<Expr, ExprError>
        ensures spelled { IfOk result (λ e. IsExpression text.now (expression e)) }
        ensures ok { IfOk result (λ e. read_expression text.now ≡ Some (expression e)) }
        ensures unspelled { IfErr result (λ e. IfBad e (SpellsNothing text.now)) }
        ensures bad { IfErr result (λ e. IfBad e (read_expression text.now ≡ None)) }
        ensures place { IfErr result (IsPlaceUpTo (length text.now)) }
    {
        read_text(alloc, text)
    }
}
