//! The names of step files.
ghost use Rattle.std.specs.Prelude.{◌≡◌, ◌+◌, ◌%◌, ◌++◌, ◌∷◌, [], string_bytes, IfOk, OnOk};
ghost use Rattle.std.specs.Char.{is_ascii_digit};
ghost use Rattle.std.specs.List.{list_all};
ghost use Rattle.host_core.specs.Characters.{decimal_base, digit_zero};
ghost use Rattle.conf_store.specs.Files.{is_step_name as is_name_of_step, last_digits, step_name as name_of_step};

use host_core::{Memory, Txt};
use std::alloc::Global;

/// How the name of a step file begins.
const BEGIN: &str = "step.";

/// How many digits the name of a step file has.
const DIGITS: u32 = 6;

/// The name of the step file of a number, counted from 1: `step.` and the number with six digits.
pub fn step_name(alloc: Global, n: u32) -> Result<Txt, Memory>
    ensures { IfOk result (λ t. t ≡ name_of_step n) }
{
    let mut text = String::from_str(alloc, BEGIN)?;
    push_digits(&mut text, DIGITS, n)?;
    Ok(Txt::from(text))
}

/// Whether a name is that of a step file: `step.` and six digits.
pub(crate) fn is_step_name(name: &str) -> bool
    ensures { result ≡ is_name_of_step name.now }
{
    name.starts_with(BEGIN)
        && name.len() == BEGIN.len() + DIGITS as usize
        && are_digits(&name.as_bytes()[BEGIN.len()..])
}

fn are_digits(bytes: &[u8]) -> bool
    ensures { result ≡ list_all is_ascii_digit bytes.now }
{
    bytes.iter().all(|b| b.is_ascii_digit())
}

/// Appends the last `k` digits of a number.
fn push_digits(text: &mut String, k: u32, n: u32) -> Result<(), Memory>
    ensures { OnOk result (string_bytes text.new ≡ string_bytes text.old ++ last_digits k n) }
{
    if k == 0 {
        return Ok(());
    }
    push_digits(text, k - 1, n / 10)?;
    push_digit(text, n)
}

/// Appends the last digit of a number.
fn push_digit(text: &mut String, n: u32) -> Result<(), Memory>
    ensures { OnOk result
        (string_bytes text.new ≡ string_bytes text.old ++ (digit_zero + n % decimal_base) ∷ []) }
{
    let code = b'0' + (n % 10) as u8;
    text.push(char::from(code))?;
    Ok(())
}
