//! `gcu demo SEED N`: how many steps a plan between two generated configurations has.
ghost use Rattle.std.specs.Prelude.{◌≡◌, ◌≤◌, ◌++◌, IfOk, OnOk, string_bytes};
ghost use Rattle.host_core.specs.Names.{longest_plain_name};
ghost use Rattle.gcu_demo.specs.Demo.{most_ports};
ghost use Rattle.gcu_output.specs.Lines.{line_feed};
ghost use Rattle.gcu_requests.specs.DemoAsked.{demo_asked};
ghost use Rattle.command_answers.specs.Frames.{Does, FindsText};
ghost use Rattle.command_answers.specs.Summary.{counted, summary};

use command_answers::{answer_query, find_plan};
use gcu_output::Outcome;
use gcu_requests::prepare_demo;
use gcu_words::Demo;
use host_core::{Host, Memory};
use move_core::{Boxes, Kit};
use std::alloc::{AllocError, Global};

/// Says of how many steps a plan is between the configurations of a demonstration. Of the folder only `intent`
/// is looked for, and no file is written.
pub fn demo<H: Host>(alloc: Global, size: Demo, kit: &mut Kit, host: &mut H) -> Outcome
    requires longest { longest_plain_name ≤ H.longest_name }
    requires kinds { ⟦<Kit as Boxes>⟧.HasKinds kit.old }
    ensures kinds { ⟦<Kit as Boxes>⟧.HasKinds kit.new }
    ensures does { Does H.Host (demo_asked size.seed size.ports) host.old host.new result }
{
    let found = find_summary(alloc, size, kit, host);
    answer_query(alloc, found, host)
}

/// How many there are of all.
fn find_summary<H: Host>(
    alloc: Global,
    size: Demo,
    kit: &mut Kit,
    host: &mut H,
) -> Result<Vec<u8>, Outcome>
    requires longest { longest_plain_name ≤ H.longest_name }
    requires kinds { ⟦<Kit as Boxes>⟧.HasKinds kit.old }
    ensures kinds { ⟦<Kit as Boxes>⟧.HasKinds kit.new }
    ensures finds { FindsText H.Host (demo_asked size.seed size.ports) host.old host.new result }
{
    let planning = prepare_demo(alloc, size, host)?;
    let plan = find_plan(alloc, kit, &planning)?;
    let text = summary_text(alloc, size.ports, plan.len())?;
    Ok(text)
}

/// The lines of all.
fn summary_text(alloc: Global, ports: u32, steps: usize) -> Result<Vec<u8>, Memory>
    requires { ports ≤ most_ports }
    ensures { IfOk result (λ b. b.items ≡ summary ports steps) }
{
    let lines = summary_lines(alloc, ports, steps)?;
    Ok(lines.into_bytes())
}

/// The same, as a text.
fn summary_lines(alloc: Global, ports: u32, steps: usize) -> Result<String, AllocError>
    requires { ports ≤ most_ports }
    ensures { IfOk result (λ s. string_bytes s ≡ summary ports steps) }
{
    let vlans = 5 * ports / 8;
    let changes = 5 * ports / 4;
    let mut text = String::new(alloc);
    push_count(alloc, &mut text, "ports", ports as usize)?;
    push_count(alloc, &mut text, "vlans", vlans as usize)?;
    push_count(alloc, &mut text, "changes", changes as usize)?;
    push_count(alloc, &mut text, "steps", steps)?;
    Ok(text)
}

/// Adds the line of a name and a number.
#[tactic(auto, using(std::proofs::Common::append_assoc))]
fn push_count(alloc: Global, text: &mut String, name: &str, count: usize) -> Result<(), AllocError>
    ensures { OnOk result
        (string_bytes text.new ≡ string_bytes text.old ++ counted name.now count ++ line_feed) }
{
    let line = format!(in alloc; "{name} {count}\n")?;
    text.push_str(line.as_str())
}
