//! Where packets leave.

ghost use Rattle.std.specs.Prelude.{◌≡◌, map, option_map};
ghost use Rattle.pfs_addr_values.specs.Prefixes.{covers};
ghost use Rattle.pfs_eval.specs.Covering.{narrowest};
ghost use Rattle.pfs_eval.specs.RouteSteps.{has_more_bits, longer};
ghost use Rattle.pfs_eval.specs.Routing.{entry_of_route, interface_to};

use pfs_addr_values::{Addr, IfName};
use pfs_conf_values::Route;

/// The interface by which packets to an address leave: that of the route with the longest prefix that covers it. None where no route
/// does, or where it is by `lo0`: such packets are for the firewall itself. It goes through the routes once, and takes no memory.
/// (route(8))
pub fn interface_to(routes: &[Route], addr: Addr) -> Option<IfName>
    ensures { result ≡ interface_to routes.now addr }
{
    let route = narrowest(routes, addr)?;
    if route.interface.as_bytes() == b"lo0".as_slice() {
        return None;
    }
    Some(route.interface)
}

/// Of the routes that cover an address, the one with the longest prefix.
fn narrowest(routes: &[Route], addr: Addr) -> Option<Route>
    ensures { option_map entry_of_route result ≡ narrowest (map entry_of_route routes.now) addr }
{
    let mut found: Option<Route> = None;
    for route in routes {
        found = longer(found, route, addr);
    }
    found
}

/// A route, where it covers the address with more bits than the one that was found before it; else that one.
fn longer(found: Option<Route>, route: &Route, addr: Addr) -> Option<Route>
    ensures { result ≡ longer found route.now addr }
{
    let is_longer = has_more_bits(route, &found) && covers(route, addr);
    if is_longer { Some(*route) } else { found }
}

/// Whether a route has more bits than the one that was found before it, if there is one.
fn has_more_bits(route: &Route, found: &Option<Route>) -> bool
    ensures { result ≡ has_more_bits route.now found.now }
{
    match found {
        Some(found) => found.prefix.bits() < route.prefix.bits(),
        None => true,
    }
}

/// Whether a route covers an address.
fn covers(route: &Route, addr: Addr) -> bool
    ensures { result ≡ covers route.now.prefix addr }
{
    route.prefix.contains(addr)
}
