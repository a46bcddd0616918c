//! Reads the tokens of a pattern into its machine.

ghost use Rattle.std.specs.Prelude.{◌≡◌, ℕ, IfOk, IfErr, Some, None};
ghost use Rattle.yang_pattern.specs.Symbols.{reads_token};
ghost use Rattle.yang_pattern.specs.Pattern.{Branches};
ghost use Rattle.yang_pattern.specs.Parts.{IsPatternPart};
ghost use Rattle.yang_pattern.specs.Reading.{run, start};
ghost use Rattle.yang_pattern.specs.Errors.{IfNoPattern};

use crate::errors::Failure;
use crate::frames::Reader;
use crate::parts::Part;
use crate::symbols::Token;
use std::alloc::Global;

/// The whole pattern of the tokens.
pub fn read_tokens(alloc: Global, tokens: &[Token]) -> Result<Part, Failure>
    ensures ok { IfOk result (λ part. (bs : Branches) × (run tokens.now start ≡ Some bs)
        × IsPatternPart (reads_token tokens.now) part bs) }
    ensures bad { IfErr result (λ e. IfNoPattern e (run tokens.now start ≡ None)) }
{
    let mut reader = Reader::new(alloc);
    for (number, token) in tokens.iter().enumerate() {
        match reader.read(alloc, number, token)? {
            Some(next) => reader = next,
            None => return Err(Failure::NoPattern),
        }
    }
    match reader.finish()? {
        Some(part) => Ok(part),
        None => Err(Failure::NoPattern),
    }
}
