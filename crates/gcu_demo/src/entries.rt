//! The entries of the rows.
ghost use Rattle.std.specs.Prelude.{◌≡◌, ◌∷◌, [], ◌<◌, ◌≤◌, codes, length, IfOk};
ghost use Rattle.conf_doc.specs.Pairs.{put};
ghost use Rattle.conf_doc.specs.declared.configuration.Value.TheVariants.{Text};
ghost use Rattle.gcu_demo.specs.Demo.{described_vlan as row_described, goal_port as row_at_goal, goal_speed as speed_at_goal, goal_status as status_at_goal, most_ports, port_with, start_port as row_at_start, start_vlan as row_of_vlan};

use crate::names::{LANES, four_lanes, two_lanes, vlan_id};
use conf_doc::{Entry, Value};
use host_core::{Memory, Txt};
use std::alloc::Global;

/// How many ports a group has.
pub(crate) const GROUP: u32 = 8;

/// A port at the start.
pub(crate) fn start_port(alloc: Global, i: u32) -> Result<Entry, Memory>
    requires { i < most_ports }
    ensures { IfOk result (λ e. e ≡ (row_at_start i).1) }
{
    let lanes = four_lanes(alloc, LANES * i)?;
    port(alloc, "up", lanes.as_str(), "100000")
}

/// A port at the goal.
pub(crate) fn goal_port(alloc: Global, i: u32) -> Result<Entry, Memory>
    requires { i < most_ports }
    ensures { IfOk result (λ e. e ≡ (row_at_goal i).1) }
{
    let lanes = if i % GROUP == 0 {
        two_lanes(alloc, LANES * i)?
    } else {
        four_lanes(alloc, LANES * i)?
    };
    port(alloc, goal_status(i), lanes.as_str(), goal_speed(i))
}

fn goal_status(i: u32) -> &'static str
    ensures { result.now ≡ status_at_goal i }
{
    match i % GROUP {
        2..=5 => "down",
        _ => "up",
    }
}

fn goal_speed(i: u32) -> &'static str
    ensures { result.now ≡ speed_at_goal i }
{
    if i % GROUP == 1 { "40000" } else { "100000" }
}

/// A VLAN with its number alone.
pub(crate) fn start_vlan(alloc: Global, j: u32) -> Result<Entry, Memory>
    requires { j ≤ most_ports }
    ensures { IfOk result (λ e. e ≡ (row_of_vlan j).1) }
{
    let number = vlan_id(alloc, j)?;
    with_text(alloc, &Entry::new(alloc), "vlanid", number.as_str())
}

/// A VLAN with a description.
pub(crate) fn described_vlan(alloc: Global, j: u32) -> Result<Entry, Memory>
    requires { j ≤ most_ports }
    ensures { IfOk result (λ e. e ≡ (row_described j).1) }
{
    let description = format!(in alloc; "vlan {j}")?;
    let entry = start_vlan(alloc, j)?;
    with_text(alloc, &entry, "description", description.as_str())
}

/// A tagged member of a VLAN.
pub(crate) fn tagged_member(alloc: Global) -> Result<Entry, Memory>
    ensures { IfOk result (λ e. e ≡ (codes "tagging_mode", Text (codes "tagged")) ∷ []) }
{
    with_text(alloc, &Entry::new(alloc), "tagging_mode", "tagged")
}

/// A port with that status, these lanes and that speed.
fn port(alloc: Global, status: &str, lanes: &str, speed: &str) -> Result<Entry, Memory>
    ensures { IfOk result (λ e. e ≡ port_with status.now lanes.now speed.now) }
{
    let entry = with_text(alloc, &Entry::new(alloc), "admin_status", status)?;
    let entry = with_text(alloc, &entry, "lanes", lanes)?;
    with_text(alloc, &entry, "speed", speed)
}

/// The entry with a text in a field.
fn with_text(alloc: Global, entry: &Entry, field: &str, text: &str) -> Result<Entry, Memory>
    requires { 0 < length field.now }
    ensures { IfOk result (λ e. e ≡ put field.now (Text text.now) entry.now) }
{
    let text = Txt::new(alloc, text)?;
    entry.with(alloc, field, &Value::Text(text))
}
