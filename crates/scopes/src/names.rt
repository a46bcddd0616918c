//! Names of files and of scopes, which take no memory.
ghost use Rattle.std.specs.Prelude.{◌≡◌, ◌++◌, ◌+◌, ◌≤◌, length, decimal, MatchOption, None, Some};
ghost use Rattle.host_core.specs.Names.{longest_plain_name, longest_scoped_name};
ghost use Rattle.scopes.specs.Files.{asic_begin as begin_of, asic_config as config_of, file_name as file_of, plain_name as plain_of};

use crate::Scope;
use arrayvec::ArrayString;
use itoa::Buffer;

/// How many bytes a file's name may have in the folder.
const LONGEST_SCOPED_NAME: usize = 80;

/// The plain name of a configuration.
const CONFIG: &str = "config_db.json";

/// A name, in place.
pub(crate) type ShortText = ArrayString<LONGEST_SCOPED_NAME>;

/// The file of the folder that a scope knows by a plain name.
pub(crate) fn file_name(scope: Scope, plain: &str) -> ShortText
    requires { length plain.now ≤ longest_plain_name }
    ensures { result.bytes ≡ file_of scope plain.now }
{
    match scope {
        Scope::Localhost => {
            let mut name = ShortText::new();
            name.push_str(plain);
            name
        }
        Scope::Asic(number) => asic_file_name(number, plain),
    }
}

/// The file of an ASIC.
fn asic_file_name(number: u8, plain: &str) -> ShortText
    requires { length plain.now ≤ longest_plain_name }
    ensures { result.bytes ≡ file_of (Scope.Asic number) plain.now }
{
    if plain == CONFIG {
        return asic_config(number);
    }
    let mut name = asic_begin(number);
    name.push_str(plain);
    name
}

/// The plain name that a scope knows a file of the folder by, where it has that file.
pub(crate) fn plain_name(scope: Scope, name: &str) -> Option<&str>
    ensures { MatchOption result (plain_of scope name.now ≡ None)
        (λ plain. plain_of scope name.now ≡ Some plain.now) }
{
    match scope {
        Scope::Localhost => Some(name),
        Scope::Asic(number) => asic_plain_name(number, name),
    }
}

/// The plain name of a file of an ASIC, where it is one.
fn asic_plain_name(number: u8, name: &str) -> Option<&str>
    ensures { MatchOption result (plain_of (Scope.Asic number) name.now ≡ None)
        (λ plain. plain_of (Scope.Asic number) name.now ≡ Some plain.now) }
{
    if name == asic_config(number).as_str() {
        return Some(CONFIG);
    }
    let plain = name.strip_prefix(asic_begin(number).as_str())?;
    if plain == CONFIG { None } else { Some(plain) }
}

/// The configuration of an ASIC.
fn asic_config(number: u8) -> ShortText
    ensures { result.bytes ≡ config_of number }
{
    let mut name = ShortText::new();
    name.push_str("config_db");
    push_number(&mut name, number);
    name.push_str(".json");
    name
}

/// How the names of its other files begin.
fn asic_begin(number: u8) -> ShortText
    ensures begin { result.bytes ≡ begin_of number }
    ensures short { length result.bytes + longest_plain_name ≤ longest_scoped_name }
{
    let mut name = ShortText::new();
    name.push_str("asic");
    push_number(&mut name, number);
    name.push_str(".");
    name
}

/// Adds the digits of a number.
pub(crate) fn push_number(text: &mut ShortText, number: u8)
    requires { length text.old.bytes + 3 ≤ longest_scoped_name }
    ensures bytes { text.new.bytes ≡ text.old.bytes ++ decimal number }
    ensures short { length text.new.bytes ≤ length text.old.bytes + 3 }
{
    let mut digits = Buffer::new();
    text.push_str(digits.format(number));
}
