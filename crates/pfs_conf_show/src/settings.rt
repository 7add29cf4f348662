//! The lines of `set limit`, `set timeout`, `set profile`, `set syncookies` and `set route`.

ghost use Rattle.std.specs.Prelude.{◌≡◌, ◌++◌, IfOk, OnOk, codes, false, map};
ghost use Rattle.pfs_conf_values.specs.Timeouts.{timeout_names};
ghost use Rattle.pfs_conf_show.specs.Pieces.{begun_after, going_on, separator, word_and_number};
ghost use Rattle.pfs_conf_show.specs.Settings.{adaptive_text, limit_texts, limits_text, profile_text, route_text, routes_list, routes_text, syncookies_text, timeout_text, timeout_word, timeouts_text};

use crate::pieces::{push_closing, push_prefix, push_separator, push_worded};
use pfs_addr_values::NoMemory;
use pfs_conf_values::{Config, LimitName, Profile, Route, Syncookies, TimeoutName};
use pfs_numbers::push_number;

/// The timeouts in the order in which they are shown, which is that of their places.
pub const TIMEOUT_NAMES: [TimeoutName; 16] = [
    TimeoutName::TcpFirst,
    TimeoutName::TcpOpening,
    TimeoutName::TcpEstablished,
    TimeoutName::TcpClosing,
    TimeoutName::TcpFinwait,
    TimeoutName::TcpClosed,
    TimeoutName::UdpFirst,
    TimeoutName::UdpSingle,
    TimeoutName::UdpMultiple,
    TimeoutName::OtherFirst,
    TimeoutName::OtherSingle,
    TimeoutName::OtherMultiple,
    TimeoutName::SrcTrack,
    TimeoutName::Interval,
    TimeoutName::AdaptiveStart,
    TimeoutName::AdaptiveEnd,
];

/// The word of a timeout.
pub fn timeout_word(name: TimeoutName) -> &'static [u8]
    ensures { result.now ≡ timeout_word name }
{
    match name {
        TimeoutName::TcpFirst => b"tcp.first",
        TimeoutName::TcpOpening => b"tcp.opening",
        TimeoutName::TcpEstablished => b"tcp.established",
        TimeoutName::TcpClosing => b"tcp.closing",
        TimeoutName::TcpFinwait => b"tcp.finwait",
        TimeoutName::TcpClosed => b"tcp.closed",
        TimeoutName::UdpFirst => b"udp.first",
        TimeoutName::UdpSingle => b"udp.single",
        TimeoutName::UdpMultiple => b"udp.multiple",
        TimeoutName::OtherFirst => b"other.first",
        TimeoutName::OtherSingle => b"other.single",
        TimeoutName::OtherMultiple => b"other.multiple",
        TimeoutName::SrcTrack => b"src.track",
        TimeoutName::Interval => b"interval",
        TimeoutName::AdaptiveStart => b"adaptive.start",
        TimeoutName::AdaptiveEnd => b"adaptive.end",
    }
}

/// Appends the line of `set limit`, with every limit.
pub fn push_limits(out: &mut Vec<u8>, config: &Config) -> Result<(), NoMemory>
    ensures { OnOk result (out.new.items ≡ out.old.items ++ limits_text config.now.limits) }
{
    out.extend_from_slice(b"set limit")?;
    push_limit_list(out, config)?;
    out.extend_from_slice(b" }\n")?;
    Ok(())
}

fn push_limit_list(out: &mut Vec<u8>, config: &Config) -> Result<(), NoMemory>
    ensures { OnOk result (out.new.items ≡ out.old.items ++ going_on (codes " { ") false (limit_texts config.now.limits)) }
{
    push_item(out, false, b"states", config.limit(LimitName::States))?;
    push_item(out, true, b"src-nodes", config.limit(LimitName::SrcNodes))?;
    push_item(out, true, b"tables", config.limit(LimitName::Tables))?;
    push_item(
        out,
        true,
        b"table-entries",
        config.limit(LimitName::TableEntries),
    )
}

/// Appends the line of `set timeout`, with every timeout.
pub fn push_timeouts(out: &mut Vec<u8>, config: &Config) -> Result<(), NoMemory>
    ensures { OnOk result (out.new.items ≡ out.old.items ++ timeouts_text config.now.timeouts) }
{
    out.extend_from_slice(b"set timeout")?;
    push_timeout_list(out, config)?;
    out.extend_from_slice(b" }\n")?;
    Ok(())
}

fn push_timeout_list(out: &mut Vec<u8>, config: &Config) -> Result<(), NoMemory>
    ensures { OnOk result (out.new.items ≡ out.old.items
        ++ going_on (codes " { ") false (map (timeout_text config.now.timeouts) timeout_names)) }
{
    let mut begun = false;
    for name in &TIMEOUT_NAMES {
        push_item(out, begun, timeout_word(*name), config.timeout(*name))?;
        begun = true;
    }
    Ok(())
}

/// Appends the line of `set profile`. Nothing for the profile that holds without one.
pub fn push_profile(out: &mut Vec<u8>, profile: Profile) -> Result<(), NoMemory>
    ensures { OnOk result (out.new.items ≡ out.old.items ++ profile_text profile) }
{
    match profile {
        Profile::Own => Ok(()),
        Profile::OpenBsd74 => {
            out.extend_from_slice(b"set profile openbsd-7.4\n")?;
            Ok(())
        }
    }
}

/// Appends the line of `set syncookies`. Nothing where pf sends none.
pub fn push_syncookies(out: &mut Vec<u8>, syncookies: Syncookies) -> Result<(), NoMemory>
    ensures { OnOk result (out.new.items ≡ out.old.items ++ syncookies_text syncookies) }
{
    match syncookies {
        Syncookies::Never => Ok(()),
        Syncookies::Always => {
            out.extend_from_slice(b"set syncookies always\n")?;
            Ok(())
        }
        Syncookies::Adaptive { start, end } => push_adaptive(out, start, end),
    }
}

fn push_adaptive(out: &mut Vec<u8>, start: u32, end: u32) -> Result<(), NoMemory>
    ensures { OnOk result (out.new.items ≡ out.old.items ++ adaptive_text start end) }
{
    out.extend_from_slice(b"set syncookies adaptive (start ")?;
    push_number(out, u64::from(start))?;
    out.extend_from_slice(b"%, end ")?;
    push_number(out, u64::from(end))?;
    out.extend_from_slice(b"%)\n")?;
    Ok(())
}

/// One route, or several in braces.
pub fn push_routes(out: &mut Vec<u8>, routes: &[Route]) -> Result<(), NoMemory>
    ensures { OnOk result (out.new.items ≡ out.old.items ++ routes_text routes.now) }
{
    match routes {
        [] => Ok(()),
        [route] => push_one_route(out, route),
        _ => push_several_routes(out, routes),
    }
}

fn push_one_route(out: &mut Vec<u8>, route: &Route) -> Result<(), NoMemory>
    ensures { OnOk result (out.new.items ≡ out.old.items ++ (codes "set route " ++ (route_text route.now ++ codes "\n"))) }
{
    out.extend_from_slice(b"set route ")?;
    push_route(out, route)?;
    out.extend_from_slice(b"\n")?;
    Ok(())
}

fn push_several_routes(out: &mut Vec<u8>, routes: &[Route]) -> Result<(), NoMemory>
    ensures { OnOk result (out.new.items ≡ out.old.items ++ (codes "set route" ++ (routes_list routes.now ++ codes "\n"))) }
{
    out.extend_from_slice(b"set route")?;
    let begun = push_route_list(out, routes)?;
    push_closing(out, b" }", begun)?;
    out.extend_from_slice(b"\n")?;
    Ok(())
}

/// The answer says whether there are any.
fn push_route_list(out: &mut Vec<u8>, routes: &[Route]) -> Result<bool, NoMemory>
    ensures text { OnOk result (out.new.items ≡ out.old.items ++ going_on (codes " { ") false (map route_text routes.now)) }
    ensures begun { IfOk result (λ b. b ≡ begun_after false (map route_text routes.now)) }
{
    let mut begun = false;
    for route in routes {
        push_separator(out, b" { ", begun)?;
        push_route(out, route)?;
        begun = true;
    }
    Ok(begun)
}

fn push_route(out: &mut Vec<u8>, route: &Route) -> Result<(), NoMemory>
    ensures { OnOk result (out.new.items ≡ out.old.items ++ route_text route.now) }
{
    push_prefix(out, route.prefix)?;
    out.extend_from_slice(b" ")?;
    out.extend_from_slice(route.interface.as_bytes())?;
    Ok(())
}

/// An item of a list in braces, which has begun or not.
fn push_item(out: &mut Vec<u8>, begun: bool, word: &[u8], n: u64) -> Result<(), NoMemory>
    ensures { OnOk result (out.new.items ≡ out.old.items ++ (separator (codes " { ") begun ++ word_and_number word.now n)) }
{
    push_separator(out, b" { ", begun)?;
    push_worded(out, word, n)
}
