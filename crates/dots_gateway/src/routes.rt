//! For which domain a client speaks.

ghost use Rattle.std.specs.Prelude.{◌≡◌, ◌++◌, length, IfOk, OnOk, Some, None, if◌then◌else◌, ◌==◌};
ghost use Rattle.std.specs.List.{find};
ghost use Rattle.std.specs.Option.{option_map};
ghost use Rattle.dots_settings.specs.Settings.{IsKnown};
ghost use Rattle.dots_gateway.specs.Routes.{routes_of, route_of_role, route_with, domain_for};

use dots_lists::{Name, NoMemory};
use dots_settings::{Role, Settings};
use std::alloc::Global;

/// A client, and the name of its domain.
#[derive(Drop)]
pub struct Route {
    pub peer: u32,
    pub domain: Name,
}

/// Each client of the settings with the name of its domain.
pub fn routes_of(alloc: Global, settings: &Settings) -> Result<Vec<Route>, NoMemory>
    ensures { IfOk result (λ routes. routes.items ≡ routes_of settings.now) }
{
    let mut routes = Vec::new(alloc);
    for row in settings.peers() {
        push_route(alloc, &mut routes, settings, row.peer, row.role)?;
    }
    Ok(routes)
}

fn push_route(
    alloc: Global,
    routes: &mut Vec<Route>,
    settings: &Settings,
    peer: u32,
    role: Role,
) -> Result<(), NoMemory>
    requires { IsKnown (length settings.now.domains) role }
    ensures { OnOk result (routes.new.items ≡ routes.old.items ++ route_of_role settings.now peer role) }
{
    match role {
        Role::Client(domain) => push_named(alloc, routes, peer, settings.domain_name(domain)),
        Role::Stranger | Role::Gateway => Ok(()),
    }
}

fn push_named(
    alloc: Global,
    routes: &mut Vec<Route>,
    peer: u32,
    name: &[u8],
) -> Result<(), NoMemory>
    ensures { OnOk result (routes.new.items ≡ routes.old.items ++ route_with peer name.now) }
{
    let Some(domain) = Name::new(alloc, name)? else {
        return Ok(());
    };
    routes.push(Route { peer, domain })?;
    Ok(())
}

/// The domain of a client: none of a stranger, of another gateway and of the upstream.
pub fn domain_for(routes: &[Route], upstream: u32, peer: u32) -> Option<&Name>
    ensures { option_map (λ name. name.now) result ≡ domain_for routes.now upstream peer }
{
    if peer == upstream {
        return None;
    }
    match route_for(routes, peer) {
        Some(route) => Some(&route.domain),
        None => None,
    }
}

fn route_for(routes: &[Route], peer: u32) -> Option<&Route>
    ensures { option_map (λ route. route.now) result ≡ find (λ route. route.peer == peer) routes.now }
{
    routes.iter().find(|route| route.peer == peer)
}
