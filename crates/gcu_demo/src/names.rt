//! The keys of the rows, and the numbers in them as texts.
ghost use Rattle.std.specs.Prelude.{◌≡◌, ◌+◌, ◌*◌, ◌≤◌, string_bytes, IfOk};
ghost use Rattle.gcu_demo.specs.Demo.{first_lane, four_lanes as lanes_of_four, greatest_seed, most_ports, port_name as name_of_port, two_lanes as lanes_of_two, vlan_id as id_of_vlan, vlan_name as name_of_vlan};

use std::alloc::{AllocError, Global};

/// How many lanes a port has at the start.
pub(crate) const LANES: u32 = 4;

/// Where the numbers of VLANs begin.
const FIRST_VLAN: u32 = 100;

/// The name of a port.
pub(crate) fn port_name(alloc: Global, i: u32) -> Result<String, AllocError>
    requires { i ≤ most_ports }
    ensures { IfOk result (λ s. string_bytes s ≡ name_of_port i) }
{
    let lane = LANES * i;
    format!(in alloc; "Ethernet{lane}")
}

/// A lane and the next one.
#[tactic(auto, using(std::proofs::Common::append_assoc))]
pub(crate) fn two_lanes(alloc: Global, lane: u32) -> Result<String, AllocError>
    requires { lane ≤ LANES * most_ports + 2 }
    ensures { IfOk result (λ s. string_bytes s ≡ lanes_of_two lane) }
{
    let next = lane + 1;
    format!(in alloc; "{lane},{next}")
}

/// A lane and the next three.
#[tactic(auto, using(std::proofs::Common::append_assoc))]
pub(crate) fn four_lanes(alloc: Global, lane: u32) -> Result<String, AllocError>
    requires { lane ≤ LANES * most_ports }
    ensures { IfOk result (λ s. string_bytes s ≡ lanes_of_four lane) }
{
    let lanes = two_lanes(alloc, lane)?;
    let others = two_lanes(alloc, lane + 2)?;
    format!(in alloc; "{lanes},{others}")
}

/// The number of a VLAN as a text.
pub(crate) fn vlan_id(alloc: Global, j: u32) -> Result<String, AllocError>
    requires { j ≤ most_ports }
    ensures { IfOk result (λ s. string_bytes s ≡ id_of_vlan j) }
{
    let number = FIRST_VLAN + j;
    format!(in alloc; "{number}")
}

/// The name of a VLAN.
pub(crate) fn vlan_name(alloc: Global, j: u32) -> Result<String, AllocError>
    requires { j ≤ most_ports }
    ensures { IfOk result (λ s. string_bytes s ≡ name_of_vlan j) }
{
    let number = vlan_id(alloc, j)?;
    format!(in alloc; "Vlan{number}")
}
