//! The last lines of a change's faults. They are there before anything is written, as no memory is asked for
//! afterwards.
ghost use Rattle.std.specs.Prelude.{◌≡◌, ◌++◌, suc, [], All, IfOk, codes, decimal, map, option_map, string_bytes, unwrap_or};
ghost use Rattle.change_apply.specs.Change.{ArePositions, restarts_of};
ghost use Rattle.gcu_output.specs.Lines.{last_line, service_line as text_of_service, space};
ghost use Rattle.gcu_output.specs.declared.outcomes.Outcome.TheVariants.{DiskFault as disk_fault};
ghost use Rattle.writing_commands.specs.FaultLines.{AreFaultLines, AreServiceLines, disk_lines as lines_of_disk, found, line_at, lines_for, service_lines_at};

use gcu_output::{Outcome, line, numbered_line, quoted};
use host_core::{Memory, Names, Sequence, Txt};
use move_core::Settings;
use std::alloc::{AllocError, Global};
use svc_rules::Services;

/// The exit status of a service fault.
const SERVICE_STATUS: u8 = 6;

/// The line of a fault at the restart of a service.
#[derive(Drop)]
pub struct ServiceLine {
    /// The position of the service in the rules file, counted from 0.
    service: usize,
    line: Txt,
}

/// The lines, by how many steps are acknowledged.
#[derive(Drop)]
pub struct FaultLines {
    disk: Names,
    services: Sequence<Sequence<ServiceLine>>,
}

impl FaultLines {
    /// The line of a disk fault behind so many acknowledgements.
    pub fn disk_line(&self, step: usize) -> &[u8]
        ensures { result.now ≡ line_at self.now.disk step }
    {
        if step >= self.disk.len() {
            return "".as_bytes();
        }
        self.disk.at(step).as_str().as_bytes()
    }

    /// The line of a service fault behind so many acknowledgements.
    pub fn service_line(&self, step: usize, service: usize) -> &[u8]
        ensures { result.now
            ≡ unwrap_or (found service (service_lines_at self.now.services step)) [] }
    {
        if step >= self.services.len() {
            return "".as_bytes();
        }
        match find_line(self.services.at(step).items(), service) {
            Some(line) => line.as_str().as_bytes(),
            None => "".as_bytes(),
        }
    }
}

/// The line of that service.
fn find_line(lines: &[ServiceLine], service: usize) -> Option<&Txt>
    ensures { option_map (λ line. line.now) result ≡ found service lines.now }
{
    for line in lines {
        if line.service == service {
            return Some(&line.line);
        }
    }
    None
}

/// The lines of a change whose steps have these services.
pub fn fault_lines(
    alloc: Global,
    services: &[Services],
    settings: &Settings,
) -> Result<FaultLines, Memory>
    requires { All (ArePositions settings.now) services.now }
    ensures { IfOk result (AreFaultLines (map (restarts_of settings.now) services.now)) }
{
    let disk = disk_lines(alloc, services.len())?;
    let services = service_lines(alloc, services, settings)?;
    Ok(FaultLines { disk, services })
}

/// The lines of disk faults behind at most so many acknowledgements.
pub(crate) fn disk_lines(alloc: Global, steps: usize) -> Result<Names, Memory>
    ensures { IfOk result (λ lines. lines ≡ lines_of_disk (suc steps)) }
{
    let mut lines = Names::new(alloc);
    for step in 0..steps {
        lines.push(disk_line(alloc, step)?)?;
    }
    lines.push(disk_line(alloc, steps)?)?;
    Ok(lines)
}

/// The line of a disk fault.
fn disk_line(alloc: Global, step: usize) -> Result<Txt, Memory>
    ensures { IfOk result (λ text. text ≡ last_line (disk_fault step)) }
{
    let text = line(alloc, &Outcome::DiskFault { step })?;
    Ok(Txt::from(text))
}

/// The lines of the services of each step.
fn service_lines(
    alloc: Global,
    services: &[Services],
    settings: &Settings,
) -> Result<Sequence<Sequence<ServiceLine>>, Memory>
    requires { All (ArePositions settings.now) services.now }
    ensures { IfOk result (AreServiceLines (map (restarts_of settings.now) services.now)) }
{
    let mut lines = Sequence::new(alloc);
    for step in 0..services.len() {
        lines.push(step_lines(alloc, step, services[step].items(), settings)?)?;
    }
    Ok(lines)
}

/// The lines of the services of the step behind so many.
fn step_lines(
    alloc: Global,
    step: usize,
    services: &[usize],
    settings: &Settings,
) -> Result<Sequence<ServiceLine>, Memory>
    requires { ArePositions settings.now services.now }
    ensures { IfOk result (λ lines.
        lines ≡ lines_for step (restarts_of settings.now services.now)) }
{
    let mut lines = Sequence::new(alloc);
    for i in 0..services.len() {
        let service = services[i];
        let name = settings.services.at(service).name.as_str();
        let line = service_line(alloc, step, service, name)?;
        lines.push(ServiceLine { service, line })?;
    }
    Ok(lines)
}

/// The line of a service fault.
fn service_line(alloc: Global, step: usize, service: usize, name: &str) -> Result<Txt, Memory>
    ensures { IfOk result (λ text. text ≡ text_of_service step service name.now) }
{
    let name = quoted(alloc, name)?;
    let said = said_of_service(alloc, step, name.as_str())?;
    let line = numbered_line(alloc, SERVICE_STATUS, said.as_str())?;
    Ok(Txt::from(line))
}

/// What stands behind the number of a service fault.
#[tactic(auto, using(std::proofs::Common::append_assoc))]
fn said_of_service(alloc: Global, step: usize, name: &str) -> Result<String, AllocError>
    ensures { IfOk result (λ s. string_bytes s
        ≡ (codes "service fault after " ++ decimal step) ++ space ++ name.now) }
{
    format!(in alloc; "service fault after {step} {name}")
}
