//! The types that are built in.
ghost use Rattle.std.specs.Prelude.{◌≡◌, Some};
ghost use Rattle.std.specs.List.{list_any};
ghost use Rattle.std.specs.Str.{bytes_eq};
ghost use Rattle.yang_scope.specs.Bases.{is_built_in_type, integers_named, base_named, inet_named, yang_named};

use yang_types::{Bounds, Builtin};

/// What a type is at the end of the typedefs that its name stands for.
#[derive(Clone, Copy)]
pub enum Base {
    Text,
    /// A number within the bounds of its type.
    Number(Bounds),
    Enumeration,
    Truth,
    Leafref,
    Union,
    /// A type of `ietf-inet-types` or `ietf-yang-types`.
    Builtin(Builtin),
}

/// Whether a text is among some texts.
pub(crate) fn is_among(texts: &[&str], text: &str) -> bool
    ensures { result ≡ list_any (λ t. bytes_eq t.now text.now) texts.now }
{
    texts.iter().any(|t| *t == text)
}

static BUILT_IN_TYPES: [&str; 19] = [
    "binary",
    "bits",
    "boolean",
    "decimal64",
    "empty",
    "enumeration",
    "identityref",
    "instance-identifier",
    "int8",
    "int16",
    "int32",
    "int64",
    "leafref",
    "string",
    "uint8",
    "uint16",
    "uint32",
    "uint64",
    "union",
];

/// Whether a text names a type that is built in (RFC 7950, section 9), in the profile or not.
pub fn is_built_in_type(text: &str) -> bool
    ensures { result ≡ is_built_in_type text.now }
{
    is_among(&BUILT_IN_TYPES, text)
}

fn within(low: i128, high: i128) -> Option<Bounds>
    ensures { result ≡ Some (record { low = low; high = high }) }
{
    Some(Bounds { low, high })
}

/// The bounds of the integer type of a name.
fn integers_named(name: &str) -> Option<Bounds>
    ensures { result ≡ integers_named name.now }
{
    match name {
        "int8" => within(-128, 127),
        "int16" => within(-32768, 32767),
        "int32" => within(-2147483648, 2147483647),
        "int64" => within(-9223372036854775808, 9223372036854775807),
        "uint8" => within(0, 255),
        "uint16" => within(0, 65535),
        "uint32" => within(0, 4294967295),
        "uint64" => within(0, 18446744073709551615),
        _ => None,
    }
}

/// The built-in type of a name, where it is in the profile.
pub(crate) fn base_named(name: &str) -> Option<Base>
    ensures { result ≡ base_named name.now }
{
    match name {
        "string" => Some(Base::Text),
        "enumeration" => Some(Base::Enumeration),
        "boolean" => Some(Base::Truth),
        "leafref" => Some(Base::Leafref),
        "union" => Some(Base::Union),
        _ => match integers_named(name) {
            Some(bounds) => Some(Base::Number(bounds)),
            None => None,
        },
    }
}

/// The type of a name of `ietf-inet-types`.
pub(crate) fn inet_named(name: &str) -> Option<Builtin>
    ensures { result ≡ inet_named name.now }
{
    match name {
        "ipv4-address" => Some(Builtin::Ipv4Address),
        "ipv6-address" => Some(Builtin::Ipv6Address),
        "ip-address" => Some(Builtin::IpAddress),
        "ipv4-prefix" => Some(Builtin::Ipv4Prefix),
        "ipv6-prefix" => Some(Builtin::Ipv6Prefix),
        "ip-prefix" => Some(Builtin::IpPrefix),
        _ => None,
    }
}

/// The type of a name of `ietf-yang-types`.
pub(crate) fn yang_named(name: &str) -> Option<Builtin>
    ensures { result ≡ yang_named name.now }
{
    match name {
        "mac-address" => Some(Builtin::MacAddress),
        _ => None,
    }
}
