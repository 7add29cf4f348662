//! A route: what packets to some addresses leave by.

ghost use Rattle.std.specs.Prelude.{◌≡◌, IfOk};
ghost use Rattle.pfs_conf_tokens.specs.TokenResults.{Gives};
ghost use Rattle.pfs_conf_values.specs.Routes.{IsRoute};
ghost use Rattle.pfs_conf_settings.specs.RouteGrammar.{interface_named, is_no_interface};
ghost use Rattle.pfs_conf_settings.specs.Routes.{leaving_at, leaving_name_at, prefix_at, route_at};

use pfs_addr::parse_prefix;
use pfs_addr_values::{IfName, Prefix, parse_ifname};
use pfs_conf_tokens::{Cursor, Refusal, Why, skip_lines, take_value};
use pfs_conf_values::Route;

/// Reads a route: a prefix, and the name of an interface, which is any word that is a name of 1 to 15 bytes, but `any` and
/// `rdomain`. Inside of braces line ends between both are ignored. The bits of the prefix past its length are cleared.
///
/// It refuses what is no prefix with `Why::Host`, and what is no such name with `Why::Plain`, with the cursor at that token. It
/// takes no memory. (own)
pub fn read_route(cursor: &mut Cursor, inside: bool) -> Result<Route, Refusal>
    ensures value { Gives result cursor.new (route_at inside cursor.old) }
    ensures within { IfOk result IsRoute }
{
    route(cursor, inside)
}

#[tactic(auto, unfolding(crate::specs::Routes::route_at))]
fn route(cursor: &mut Cursor, inside: bool) -> Result<Route, Refusal>
    ensures { Gives result cursor.new (route_at inside cursor.old) }
{
    let prefix = prefix(cursor)?;
    let interface = leaving(cursor, inside)?;
    Ok(Route { prefix, interface })
}

#[tactic(auto, unfolding(crate::specs::Routes::prefix_at))]
fn prefix(cursor: &mut Cursor) -> Result<Prefix, Refusal>
    ensures { Gives result cursor.new (prefix_at cursor.old) }
{
    if !cursor.key().is_word() {
        return Err(Refusal::Stop(Why::Host));
    }
    let prefix = parse_prefix(cursor.text());
    take_value(cursor, Why::Host, prefix)
}

/// The interface, in braces after any line ends.
#[tactic(auto, unfolding(crate::specs::Routes::leaving_at))]
fn leaving(cursor: &mut Cursor, inside: bool) -> Result<IfName, Refusal>
    ensures { Gives result cursor.new (leaving_at inside cursor.old) }
{
    if inside {
        skip_lines(cursor);
    }
    interface(cursor)
}

#[tactic(auto, unfolding(crate::specs::Routes::leaving_name_at))]
fn interface(cursor: &mut Cursor) -> Result<IfName, Refusal>
    ensures { Gives result cursor.new (leaving_name_at cursor.old) }
{
    if !cursor.key().is_word() {
        return Err(Refusal::Stop(Why::Plain));
    }
    let name = parse_interface(cursor.text());
    take_value(cursor, Why::Plain, name)
}

fn parse_interface(text: &[u8]) -> Option<IfName>
    ensures { result ≡ interface_named text.now }
{
    if is_no_interface(text) {
        None
    } else {
        parse_ifname(text)
    }
}

fn is_no_interface(text: &[u8]) -> bool
    ensures { result ≡ is_no_interface text.now }
{
    text == b"any".as_slice() || text == b"rdomain".as_slice()
}
