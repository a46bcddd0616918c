//! The words behind the name of a demonstration: a seed, and how many ports there are.
ghost use Rattle.std.specs.Prelude.{◌≡◌, ◌≤◌, IfSome, option_map};
ghost use Rattle.gcu_demo.specs.Demo.{greatest_seed};
ghost use Rattle.gcu_words.specs.Demos.{IsSize, demo_of, ports_in, seed_in};
ghost use Rattle.gcu_words.specs.Views.{demo_view};

use crate::Demo;
use crate::digits::decimal_within;
use host_core::Txt;

/// The greatest seed.
const GREATEST_SEED: u16 = 65_535;

/// How many ports there are at most.
const MOST_PORTS: u16 = 256;

/// Ports come in groups of so many.
const GROUP: u32 = 8;

/// The demonstration that two words are, or None where they are none.
pub(crate) fn read_demo(seed: &Txt, ports: &Txt) -> Option<Demo>
    ensures { option_map demo_view result ≡ demo_of seed.now ports.now }
{
    match (
        read_seed(seed.as_str().as_bytes()),
        read_ports(ports.as_str().as_bytes()),
    ) {
        (Some(seed), Some(ports)) => Some(Demo { seed, ports }),
        _ => None,
    }
}

/// The seed that digits write.
fn read_seed(digits: &[u8]) -> Option<u32>
    ensures seed { result ≡ seed_in digits.now }
    ensures greatest { IfSome result (λ n. n ≤ greatest_seed) }
{
    decimal_within(digits, GREATEST_SEED)
}

/// How many ports digits write: a multiple of the group.
fn read_ports(digits: &[u8]) -> Option<u32>
    ensures ports { result ≡ ports_in digits.now }
    ensures size { IfSome result IsSize }
{
    let n = decimal_within(digits, MOST_PORTS)?;
    if n < GROUP || n % GROUP != 0 {
        return None;
    }
    Some(n)
}
