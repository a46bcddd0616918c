//! One row of a table: its key and its entry.
ghost use Rattle.std.specs.Prelude.{◌≡◌, ◌<◌, ◌≤◌, length, string_bytes, IfOk};
ghost use Rattle.conf_doc.specs.Pairs.{put};
ghost use Rattle.gcu_demo.specs.Demo.{greatest_seed, group, member, most_ports, vlan_of as number_of_vlan, vlans_with as vlans_of};
ghost use Rattle.gcu_demo.specs.RowsOf.{AreRows, AreWithin, row};

use crate::entries::{GROUP, described_vlan, goal_port, start_port, start_vlan, tagged_member};
use crate::names::{port_name, vlan_name};
use conf_doc::{Entry, Table};
use host_core::Memory;
use std::alloc::{AllocError, Global};

/// How many VLANs go with a group of ports.
const GROUP_VLANS: u32 = 5;

/// Which rows a table holds. They are numbered from 0.
#[derive(Clone, Copy)]
pub(crate) enum Rows {
    StartPorts,
    GoalPorts,
    StartVlans,
    /// With so many ports.
    GoalVlans { ports: u32 },
    Members { seed: u32, ports: u32 },
}

/// So many VLANs go with so many ports.
pub(crate) fn vlans_with(ports: u32) -> u32
    requires { ports ≤ most_ports }
    ensures count { result ≡ vlans_of ports }
    ensures few { result ≤ ports }
    ensures some { group ≤ ports → 0 < result }
{
    GROUP_VLANS * ports / GROUP
}

/// The table with the row of a number.
pub(crate) fn put_row(alloc: Global, rows: Rows, i: u32, table: &Table) -> Result<Table, Memory>
    requires number { i < most_ports }
    requires within { AreRows rows }
    ensures { IfOk result (λ t. t ≡ put (row rows i).0 (row rows i).1 table.now) }
{
    let key = row_key(alloc, rows, i)?;
    let entry = row_entry(alloc, rows, i)?;
    table.with(alloc, key.as_str(), &entry)
}

/// The key of a row.
fn row_key(alloc: Global, rows: Rows, i: u32) -> Result<String, AllocError>
    requires number { i < most_ports }
    requires within { AreRows rows }
    ensures key { IfOk result (λ s. string_bytes s ≡ (row rows i).0) }
    ensures named { IfOk result (λ s. 0 < length (string_bytes s)) }
{
    match rows {
        Rows::StartPorts | Rows::GoalPorts => port_name(alloc, i),
        Rows::StartVlans | Rows::GoalVlans { .. } => vlan_name(alloc, i),
        Rows::Members { seed, ports } => member_key(alloc, seed, ports, i),
    }
}

/// The key of the membership of a port.
#[tactic(auto, using(std::proofs::Common::append_assoc))]
fn member_key(alloc: Global, seed: u32, ports: u32, i: u32) -> Result<String, AllocError>
    requires number { i < most_ports }
    requires within { AreWithin seed ports }
    ensures { IfOk result (λ s. string_bytes s ≡ (member seed ports i).0) }
{
    let vlan = vlan_name(alloc, vlan_of(seed, ports, i))?;
    let port = port_name(alloc, i)?;
    format!(in alloc; "{vlan}|{port}")
}

/// The VLAN that a port is in.
fn vlan_of(seed: u32, ports: u32, i: u32) -> u32
    requires number { i < most_ports }
    requires within { AreWithin seed ports }
    ensures vlan { result ≡ number_of_vlan seed ports i }
    ensures number { result ≤ most_ports }
{
    (7 * i + seed) % vlans_with(ports)
}

/// The entry of a row.
fn row_entry(alloc: Global, rows: Rows, i: u32) -> Result<Entry, Memory>
    requires { i < most_ports }
    ensures { IfOk result (λ e. e ≡ (row rows i).1) }
{
    match rows {
        Rows::StartPorts => start_port(alloc, i),
        Rows::GoalPorts => goal_port(alloc, i),
        Rows::StartVlans => start_vlan(alloc, i),
        Rows::GoalVlans { ports } => goal_vlan(alloc, ports, i),
        Rows::Members { .. } => tagged_member(alloc),
    }
}

/// A VLAN at the goal.
fn goal_vlan(alloc: Global, ports: u32, j: u32) -> Result<Entry, Memory>
    requires { j < most_ports }
    ensures { IfOk result (λ e. e ≡ (row (Rows.GoalVlans ports) j).1) }
{
    if j < ports / 2 {
        described_vlan(alloc, j)
    } else {
        start_vlan(alloc, j)
    }
}
