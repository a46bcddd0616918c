//! Reading a text.
ghost use Rattle.std.specs.Prelude.{◌≡◌, ◌^◌, ◌≤◌, [], IfOk, IfErr, IfSome, OnOk, length};
ghost use Rattle.host_core.specs.Answers.{Gives};
ghost use Rattle.yang_text.specs.Declarations.{total_weight};
ghost use Rattle.yang_text.specs.Errors.{text_fault};
ghost use Rattle.yang_text.specs.Faults.{IsLeast};
ghost use Rattle.yang_text.specs.Grammar.{Spells};
ghost use Rattle.yang_text.specs.Reading.{line_at, faults, reading};

use crate::building::read_statements;
use crate::errors::{ModelWhy, TextError};
use crate::faults::{Fault, least_fault};
use crate::lexing::{Token, read_tokens};
use crate::statements::Statements;
use std::alloc::Global;
use std::str;

/// The line of a position.
fn line_at(bytes: &[u8], at: usize) -> u32
    requires few { length bytes.now ≤ 2 ^ 20 }
    requires within { at ≤ length bytes.now }
    ensures { result ≡ line_at bytes.now at }
{
    bytes[..at].iter().filter(|b| **b == b'\n').count() as u32 + 1
}

/// What the text is read as.
fn read_text(alloc: Global, bytes: &[u8]) -> Result<Statements, TextError>
    requires { length bytes.now ≤ 1048576 }
    ensures { Gives (λ ss. ss) text_fault result (reading bytes.now) }
{
    let tokens = read_tokens(alloc, bytes)?;
    match str::from_utf8(bytes) {
        Ok(text) => match least_fault(bytes, &tokens, None) {
            Some(fault) => Err(fault.tell()),
            None => read_statements(alloc, text, &tokens),
        },
        Err(error) => {
            let first = Fault {
                line: line_at(bytes, error.valid_up_to()),
                why: ModelWhy::NotUtf8,
            };
            match least_fault(bytes, &tokens, Some(first)) {
                Some(fault) => Err(fault.tell()),
                None => Err(first.tell()),
            }
        }
    }
}

/// The statements of a text (RFC 7950, section 6), or its least fault: that of the lowest line, and on it
/// the first by name.
pub fn parse(alloc: Global, bytes: &[u8]) -> Result<Statements, TextError>
    requires { length bytes.now ≤ 1048576 }
    ensures spelled { IfOk result (λ ss. Spells bytes.now ss) }
    ensures few { IfOk result (λ ss. total_weight ss ≤ length bytes.now) }
    ensures faultless { OnOk result (faults bytes.now ≡ []) }
    ensures least { IfErr result (λ e. IfSome (text_fault e) (λ f. IsLeast f (faults bytes.now))) }
    ensures exact { Gives (λ ss. ss) text_fault result (reading bytes.now) }
{
    read_text(alloc, bytes)
}
