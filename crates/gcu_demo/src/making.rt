//! The start and the goal of a demonstration.
ghost use Rattle.std.specs.Prelude.{◌≡◌, ◌<◌, ◌≤◌, ◌%◌, IfOk, length};
ghost use Rattle.conf_doc.specs.Pairs.{put};
ghost use Rattle.conf_doc.specs.WellFormed.{IsConfig};
ghost use Rattle.gcu_demo.specs.Demo.{config_with, goal, greatest_seed, group, most_ports, start};
ghost use Rattle.gcu_demo.specs.RowsOf.{AreRows, AreWithin, row};

use crate::rows::{Rows, vlans_with};
use crate::tables::fill_table;
use conf_doc::{Config, Part, Path, Table};
use host_core::Memory;
use std::alloc::Global;

/// The configuration at the start and the one at the goal. The seed spreads the ports over the VLANs. There
/// are `n` ports, in groups of eight, from 8 to 256. Each table of `n` entries takes time in `n` times `n`.
pub fn make(alloc: Global, seed: u32, n: u32) -> Result<(Config, Config), Memory>
    requires seed { seed ≤ greatest_seed }
    requires some { group ≤ n }
    requires most { n ≤ most_ports }
    requires groups { n % group ≡ 0 }
    ensures pair { IfOk result (λ p. p ≡ (start seed n, goal seed n)) }
    ensures formed { IfOk result (λ p. IsConfig p.0 × IsConfig p.1) }
{
    let start = config_with(alloc, seed, n, Rows::StartPorts, Rows::StartVlans)?;
    let goal = config_with(
        alloc,
        seed,
        n,
        Rows::GoalPorts,
        Rows::GoalVlans { ports: n },
    )?;
    Ok((start, goal))
}

/// The configuration of these ports and VLANs, and of the members.
fn config_with(alloc: Global, seed: u32, n: u32, ports: Rows, vlans: Rows) -> Result<Config, Memory>
    requires within { AreWithin seed n }
    requires ports { AreRows ports }
    requires vlans { AreRows vlans }
    ensures config { IfOk result (λ c. c ≡ config_with seed n (row ports) (row vlans)) }
    ensures formed { IfOk result IsConfig }
{
    let config = with_table(
        alloc,
        &Config::new(alloc),
        "PORT",
        fill_table(alloc, ports, n)?,
    )?;
    let vlans = fill_table(alloc, vlans, vlans_with(n))?;
    let config = with_table(alloc, &config, "VLAN", vlans)?;
    let members = fill_table(alloc, Rows::Members { seed, ports: n }, n)?;
    with_table(alloc, &config, "VLAN_MEMBER", members)
}

/// The configuration with a table.
fn with_table(alloc: Global, config: &Config, name: &str, table: Table) -> Result<Config, Memory>
    requires { 0 < length name.now }
    ensures changed { IfOk result (λ c. c ≡ put name.now table config.now) }
    ensures formed { IfOk result IsConfig }
{
    let path = Path::new(alloc, &[name])?;
    config.with(alloc, &path, Some(&Part::Table(table)))
}
