//! Of what a demonstration is made.
ghost use Rattle.std.specs.Prelude.{◌≡◌, ◌≤◌, ◌%◌};
ghost use Rattle.gcu_demo.specs.Demo.{greatest_seed, group, most_ports};

/// A seed, and how many ports there are, in groups of eight.
#[derive(Clone, Copy)]
pub struct Demo {
    pub seed: u32,
    pub ports: u32,
    ghost greatest: { seed ≤ greatest_seed },
    ghost some: { group ≤ ports },
    ghost most: { ports ≤ most_ports },
    ghost groups: { ports % group ≡ 0 },
}
