//! Whether a plan can be.

ghost use Rattle.std.specs.Prelude.{◌≡◌, ◌==◌, is_some, IfOk};
ghost use Rattle.std.specs.List.{list_all, list_any};
ghost use Rattle.dots_keys.specs.Operations.{is_client_name};
ghost use Rattle.dots_gateway.specs.Routes.{routes_of, domain_for};
ghost use Rattle.dots_gateway.specs.declared.routes.Route.{Route};
ghost use Rattle.dots_settings.specs.Settings.{is_gateway_role};
ghost use Rattle.dots_world.specs.Plans.{upstream_of};
ghost use Rattle.world_play.specs.Parties.{plan_of};
ghost use Rattle.world_play.specs.Plans.{is_client_role, has_domain, can_be};

use crate::plan::WorldPlan;
use dots_gateway::{Route, domain_for, routes_of};
use dots_lists::{NoMemory, is_name};
use dots_settings::Role;
use dots_world::PlanClient;
use std::alloc::Global;

/// Whether a plan can be, as far as each of its parties tells by itself.
pub fn can_be(alloc: Global, plan: &WorldPlan) -> Result<bool, NoMemory>
    ensures { IfOk result (λ can. can ≡ can_be (plan_of plan.now)) }
{
    let routes = routes_of(alloc, &plan.gateway_settings)?;
    Ok(
        is_gateway(plan.settings.domain_of(plan.gateway))
            && (are_client_names(routes.as_slice()) && have_domains(plan, routes.as_slice())),
    )
}

fn is_gateway(role: Role) -> bool
    ensures { result ≡ is_gateway_role role }
{
    match role {
        Role::Gateway => true,
        Role::Client(_) | Role::Stranger => false,
    }
}

fn is_client(role: Role) -> bool
    ensures { result ≡ is_client_role role }
{
    match role {
        Role::Client(_) => true,
        Role::Gateway | Role::Stranger => false,
    }
}

/// Whether no domain of a route has a slash in its name.
fn are_client_names(routes: &[Route]) -> bool
    ensures { result ≡ list_all (λ (route : Route). is_client_name route.domain) routes.now }
{
    routes
        .iter()
        .all(|route| is_client_name(route.domain.bytes()))
}

fn is_client_name(name: &[u8]) -> bool
    ensures { result ≡ is_client_name name.now }
{
    is_name(name) && !has_slash(name)
}

fn has_slash(name: &[u8]) -> bool
    ensures { result ≡ list_any (λ byte. byte == 47) name.now }
{
    name.iter().any(|byte| *byte == b'/')
}

fn have_domains(plan: &WorldPlan, routes: &[Route]) -> bool
    requires { routes.now ≡ routes_of plan.now.gateway_settings }
    ensures { result ≡ list_all (has_domain (plan_of plan.now)) plan.now.clients }
{
    plan.clients
        .items()
        .iter()
        .all(|client| has_domain(plan, routes, client))
}

/// Whether the client has a domain in the settings of whom it asks.
fn has_domain(plan: &WorldPlan, routes: &[Route], client: &PlanClient) -> bool
    requires { routes.now ≡ routes_of plan.now.gateway_settings }
    ensures { result ≡ has_domain (plan_of plan.now) client.now }
{
    if client.behind {
        return is_behind(plan, routes, client.peer);
    }
    is_client(plan.settings.domain_of(client.peer))
}

/// Whether the gateway has a domain for the peer.
fn is_behind(plan: &WorldPlan, routes: &[Route], peer: u32) -> bool
    requires { routes.now ≡ routes_of plan.now.gateway_settings }
    ensures { result ≡ is_some (domain_for (routes_of plan.now.gateway_settings) (upstream_of (plan_of plan.now)) peer) }
{
    let upstream = plan.gateway_settings.upstream().unwrap_or(0);
    domain_for(routes, upstream, peer).is_some()
}
