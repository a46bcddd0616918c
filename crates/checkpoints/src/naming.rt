//! The names of checkpoints, and of their files.
ghost use Rattle.std.specs.Prelude.{◌≡◌, ◌≤◌, length, true, false, IfOk, MatchOption};
ghost use Rattle.std.specs.List.{list_all};
ghost use Rattle.host_core.specs.Names.{longest_plain_name};
ghost use Rattle.checkpoints.specs.Names.{is_good_name as is_name, is_name_character as is_character, is_point_file, point_file as file_of, point_name as name_in};

use host_core::{Memory, Txt};
use std::alloc::Global;

/// How many characters a name may have.
const LONGEST_NAME: usize = 64;

/// How the name of a checkpoint's file ends.
const POINT_END: &str = ".cp.json";

/// Whether a checkpoint may have that name: 1 to 64 ASCII letters, digits, `_` and `-`.
pub fn is_good_name(name: &str) -> bool
    ensures { result ≡ is_name name.now }
{
    let bytes = name.as_bytes();
    !bytes.is_empty() && bytes.len() <= LONGEST_NAME && are_name_characters(bytes)
}

fn are_name_characters(bytes: &[u8]) -> bool
    ensures { result ≡ list_all is_character bytes.now }
{
    bytes.iter().all(|b| is_name_character(*b))
}

fn is_name_character(byte: u8) -> bool
    ensures { result ≡ is_character byte }
{
    byte.is_ascii_alphanumeric() || byte == b'_' || byte == b'-'
}

/// The file of a checkpoint of that name.
pub(crate) fn point_file(alloc: Global, name: &str) -> Result<Txt, Memory>
    requires { is_name name.now ≡ true }
    ensures file { IfOk result (λ t. t ≡ file_of name.now) }
    ensures short { IfOk result (λ t. length t ≤ longest_plain_name) }
{
    let file = format!(in alloc; "{name}{POINT_END}")?;
    Ok(Txt::from(file))
}

/// The name of the checkpoint that a file holds, or None for another file.
pub(crate) fn point_name(file: &str) -> Option<&str>
    ensures { MatchOption result (is_point_file file.now ≡ false)
        (λ name. (is_point_file file.now ≡ true) × (name.now ≡ name_in file.now)) }
{
    match file.strip_suffix(POINT_END) {
        Some(name) if is_good_name(name) => Some(name),
        Some(_) => None,
        None => None,
    }
}
