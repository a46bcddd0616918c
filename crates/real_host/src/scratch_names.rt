//! Names of files that a command may have written and not synced.
ghost use Rattle.std.specs.Prelude.{◌≡◌, ◌↔◌, IsTrue};
ghost use Rattle.real_host.specs.Names.{is_scratch_name, asic_scratch as asic_name, IsOwnScratch};

use arrayvec::ArrayString;
use itoa::Buffer;

/// The file that a command writes before it has its bytes synced, and how the names of such files end.
const SCRATCH: &str = "tmp.new";

/// How many numbers of ASICs there are.
const ASICS: u16 = 256;

/// How many bytes the name of a scratch file has at most that is made of a number of 16 bits.
const LONGEST_ASIC_SCRATCH: usize = 17;

/// Whether the file of a name may have been written and not synced.
pub(crate) fn is_scratch(name: &str) -> bool
    ensures { result ≡ is_scratch_name name.now }
{
    name.as_bytes().ends_with(SCRATCH.as_bytes())
}

/// Whether a command writes the file of that name before it has its bytes synced.
#[tactic(auto, using(crate::proofs::Numbers::none_at_first, crate::proofs::Numbers::none_of_more, crate::proofs::Numbers::none_of_all))]
pub(crate) fn is_own_scratch(name: &str) -> bool
    ensures { IsTrue result ↔ IsOwnScratch name.now }
{
    if name == SCRATCH {
        return true;
    }
    for number in 0..ASICS {
        if name == asic_scratch(number).as_str() {
            return true;
        }
    }
    false
}

/// The scratch file of an ASIC.
fn asic_scratch(number: u16) -> ArrayString<LONGEST_ASIC_SCRATCH>
    ensures { result.bytes ≡ asic_name number }
{
    let mut digits = Buffer::new();
    let mut name = ArrayString::new();
    name.push_str("asic");
    name.push_str(digits.format(number));
    name.push_str(".tmp.new");
    name
}
