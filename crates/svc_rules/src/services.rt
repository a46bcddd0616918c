//! The services that the rules file ties to the table of a move.
ghost use Rattle.std.specs.Prelude.{◌≡◌, IfOk};
ghost use Rattle.move_core.specs.Services.{is_tied, services_of, tied_from};

use host_core::{Memory, Sequence};
use move_core::{Move, ServiceTie, Settings};
use std::alloc::Global;

/// Services by their positions in the rules file, counted from 0, in its order.
pub type Services = Sequence<usize>;

/// The services that are tied to the table of a move: those whose tables hold the first name of its place.
pub fn services_of(alloc: Global, settings: &Settings, mv: &Move) -> Result<Services, Memory>
    ensures { IfOk result (λ s. s ≡ services_of settings.now mv.now) }
{
    tied_services(alloc, settings.services.items(), mv.table())
}

/// Whether the service is tied to the table.
fn is_tied(table: &str, tie: &ServiceTie) -> bool
    ensures { result ≡ is_tied table.now tie.now }
{
    tie.tables.items().iter().any(|name| name.as_str() == table)
}

/// The positions of the services that are tied to the table.
fn tied_services(alloc: Global, ties: &[ServiceTie], table: &str) -> Result<Services, Memory>
    ensures { IfOk result (λ s. s ≡ tied_from 0 table.now ties.now) }
{
    let mut services = Services::new(alloc);
    for i in 0..ties.len() {
        if is_tied(table, &ties[i]) {
            services.push(i)?;
        }
    }
    Ok(services)
}
