//! What follows the word `set`.

ghost use Rattle.std.specs.Prelude.{◌≡◌, ◌≤◌, Some, IfOk};
ghost use Rattle.pfs_conf_tokens.specs.Reading.{closes_braces, act, number_at, until_all, next_of};
ghost use Rattle.pfs_conf_tokens.specs.TokenResults.{Gives};
ghost use Rattle.pfs_conf_settings.specs.DraftResults.{Draws};
ghost use Rattle.pfs_conf_settings.specs.AdditionResults.{Extends};
ghost use Rattle.pfs_conf_settings.specs.Routes.{routed_at};
ghost use Rattle.pfs_conf_settings.specs.Settings.{timeout_named, bounded_at, least_value, greatest_value, limit_statement, timeout_statement, limit_at, profile_at, time_at, setting_at, lined_setting_at, some_settings_at, settings_at};

use crate::drafts::Draft;
use crate::routes::read_route;
use pfs_addr_values::NoMemory;
use pfs_conf_tokens::{Cursor, Key, ReadError, Refusal, Why, number, skip_lines};
use pfs_conf_values::{LimitName, Profile, TimeoutName};

/// What a `set` statement sets.
#[derive(Debug, Clone, Copy, PartialEq, Eq)]
pub enum Setting {
    /// `set limit`
    Limit,
    /// `set timeout`
    Timeout,
    /// `set route`
    Route,
}

/// Reads what follows the word `set`, up to the line end, which stays, and sets it: a later value replaces an earlier one.
///
/// It refuses what continues no `set` statement, with the cursor at that token. `set` is followed by `profile` and
/// `openbsd-7.4`, or by `limit` or `timeout`, and then by one pair of a name and a number, or by `route`, and then by one pair of a
/// prefix and the name of an interface; or by a list of such pairs in braces, in which line ends are ignored. `frags`, `frag`,
/// `tcp.tsdiff`, `icmp.first` and `icmp.error` are read without effect. A route replaces the one with the same prefix, and stands
/// last. Where it refuses, what was read before the refused token may have been set. It takes memory for routes alone. (pf.conf(5),
/// OPTIONS, "set limit" and "set timeout")
#[tactic(auto, unfolding(crate::specs::Settings::settings_at))]
pub fn read_settings(cursor: &mut Cursor, draft: &mut Draft) -> Result<(), ReadError>
    ensures { Extends result cursor.new draft.new (settings_at draft.old cursor.old) }
{
    match cursor.key() {
        Key::Profile => {
            cursor.advance();
            profile(cursor, draft)?;
            Ok(())
        }
        Key::Limit => {
            cursor.advance();
            some_settings(cursor, draft, Setting::Limit)
        }
        Key::Timeout => {
            cursor.advance();
            some_settings(cursor, draft, Setting::Timeout)
        }
        Key::Route => {
            cursor.advance();
            some_settings(cursor, draft, Setting::Route)
        }
        _ => Err(ReadError::Refused(Refusal::Stop(Why::Setting))),
    }
}

/// The name of a profile.
#[tactic(auto, unfolding(crate::specs::Settings::profile_at))]
fn profile(cursor: &mut Cursor, draft: &mut Draft) -> Result<(), Refusal>
    ensures { Draws result cursor.new draft.new (profile_at draft.old cursor.old) }
{
    match cursor.key() {
        Key::OpenBsd74 => {
            cursor.advance();
            draft.set_profile(Profile::OpenBsd74);
            Ok(())
        }
        _ => Err(Refusal::Stop(Why::Plain)),
    }
}

/// One setting, or a list of them in braces.
#[tactic(auto, unfolding(crate::specs::Settings::some_settings_at))]
fn some_settings(cursor: &mut Cursor, draft: &mut Draft, setting: Setting) -> Result<(), ReadError>
    ensures { Extends result cursor.new draft.new (some_settings_at setting draft.old cursor.old) }
{
    match cursor.key() {
        Key::OpenBrace => {
            cursor.advance();
            lined_setting(cursor, draft, setting)?;
            more_settings(cursor, draft, setting)
        }
        _ => one_setting(cursor, draft, setting, false),
    }
}

fn more_settings(cursor: &mut Cursor, draft: &mut Draft, setting: Setting) -> Result<(), ReadError>
    ensures { Extends result cursor.new draft.new (until_all closes_braces (next_of (lined_setting_at setting)) draft.old cursor.old) }
{
    while !cursor.is_at_close_brace() {
        if let Err(error) = next_setting(cursor, draft, setting) {
            return Err(error);
        }
    }
    cursor.advance();
    Ok(())
}

fn next_setting(cursor: &mut Cursor, draft: &mut Draft, setting: Setting) -> Result<(), ReadError>
    ensures { Extends result cursor.new draft.new (next_of (lined_setting_at setting) draft.old cursor.old) }
{
    cursor.take(Key::Comma);
    lined_setting(cursor, draft, setting)
}

/// A setting among line ends.
#[tactic(auto, unfolding(crate::specs::Settings::lined_setting_at))]
fn lined_setting(cursor: &mut Cursor, draft: &mut Draft, setting: Setting) -> Result<(), ReadError>
    ensures { Extends result cursor.new draft.new (lined_setting_at setting draft.old cursor.old) }
{
    skip_lines(cursor);
    one_setting(cursor, draft, setting, true)?;
    skip_lines(cursor);
    Ok(())
}

/// A limit or a timeout: its name and its value. Or a route.
fn one_setting(
    cursor: &mut Cursor,
    draft: &mut Draft,
    setting: Setting,
    inside: bool,
) -> Result<(), ReadError>
    ensures { Extends result cursor.new draft.new (setting_at setting inside draft.old cursor.old) }
{
    match setting {
        Setting::Limit => {
            limit(cursor, draft, inside)?;
            Ok(())
        }
        Setting::Timeout => {
            time(cursor, draft, inside)?;
            Ok(())
        }
        Setting::Route => route(cursor, draft, inside),
    }
}

/// A limit: its name and its value.
#[tactic(auto, unfolding(crate::specs::Settings::limit_at))]
fn limit(cursor: &mut Cursor, draft: &mut Draft, inside: bool) -> Result<(), Refusal>
    ensures { Draws result cursor.new draft.new (limit_at inside draft.old cursor.old) }
{
    match cursor.key() {
        Key::States => set_limit(cursor, draft, inside, LimitName::States),
        Key::SrcNodes => set_limit(cursor, draft, inside, LimitName::SrcNodes),
        Key::Tables => set_limit(cursor, draft, inside, LimitName::Tables),
        Key::TableEntries => set_limit(cursor, draft, inside, LimitName::TableEntries),
        Key::Frags => {
            cursor.advance();
            value(cursor, inside, 1, 4_294_967_295)?;
            Ok(())
        }
        _ => Err(Refusal::Stop(Why::Plain)),
    }
}

fn set_limit(
    cursor: &mut Cursor,
    draft: &mut Draft,
    inside: bool,
    name: LimitName,
) -> Result<(), Refusal>
    ensures { Draws result cursor.new draft.new (act (limit_statement inside name draft.old) cursor.old) }
{
    cursor.advance();
    let value = value(cursor, inside, 1, 4_294_967_295)?;
    draft.set_limit(name, value);
    Ok(())
}

/// A timeout: its name and its value.
#[tactic(auto, unfolding(crate::specs::Settings::time_at))]
fn time(cursor: &mut Cursor, draft: &mut Draft, inside: bool) -> Result<(), Refusal>
    ensures { Draws result cursor.new draft.new (time_at inside draft.old cursor.old) }
{
    match cursor.key() {
        Key::Frag | Key::TcpTsdiff | Key::IcmpFirst | Key::IcmpError => {
            cursor.advance();
            value(cursor, inside, 0, 2_147_483_647)?;
            Ok(())
        }
        key => match timeout_of(key) {
            Some(name) => set_timeout(cursor, draft, inside, name),
            None => Err(Refusal::Stop(Why::Plain)),
        },
    }
}

fn set_timeout(
    cursor: &mut Cursor,
    draft: &mut Draft,
    inside: bool,
    name: TimeoutName,
) -> Result<(), Refusal>
    ensures { Draws result cursor.new draft.new (act (timeout_statement inside draft.old (Some name)) cursor.old) }
{
    cursor.advance();
    let value = value(cursor, inside, least(name), greatest(name))?;
    draft.set_timeout(name, value);
    Ok(())
}

/// A route: a prefix and the name of an interface.
#[tactic(auto, unfolding(crate::specs::Routes::routed_at))]
fn route(cursor: &mut Cursor, draft: &mut Draft, inside: bool) -> Result<(), ReadError>
    ensures { Extends result cursor.new draft.new (routed_at inside draft.old cursor.old) }
{
    let route = read_route(cursor, inside)?;
    match draft.set_route(route) {
        Ok(()) => Ok(()),
        Err(NoMemory) => Err(ReadError::Memory),
    }
}

/// A number, in braces after any line ends.
#[tactic(auto, unfolding(crate::specs::Settings::bounded_at))]
fn value(cursor: &mut Cursor, inside: bool, low: u32, high: u32) -> Result<u32, Refusal>
    ensures value { Gives result cursor.new (bounded_at inside low high cursor.old) }
    ensures least { IfOk result (λ n. low ≤ n) }
    ensures greatest { IfOk result (λ n. n ≤ high) }
{
    if inside {
        skip_lines(cursor);
    }
    number_up_to(cursor, low, high)
}

fn number_up_to(cursor: &mut Cursor, low: u32, high: u32) -> Result<u32, Refusal>
    ensures value { Gives result cursor.new (number_at low high cursor.old) }
    ensures least { IfOk result (λ n. low ≤ n) }
    ensures greatest { IfOk result (λ n. n ≤ high) }
{
    let value = number(cursor, u64::from(low), u64::from(high))?;
    Ok(value as u32)
}

/// The timeout that a key names, if it is one of those that are kept.
fn timeout_of(key: Key) -> Option<TimeoutName>
    ensures { result ≡ timeout_named key }
{
    match key {
        Key::TcpFirst => Some(TimeoutName::TcpFirst),
        Key::TcpOpening => Some(TimeoutName::TcpOpening),
        Key::TcpEstablished => Some(TimeoutName::TcpEstablished),
        Key::TcpClosing => Some(TimeoutName::TcpClosing),
        Key::TcpFinwait => Some(TimeoutName::TcpFinwait),
        Key::TcpClosed => Some(TimeoutName::TcpClosed),
        Key::UdpFirst => Some(TimeoutName::UdpFirst),
        Key::UdpSingle => Some(TimeoutName::UdpSingle),
        Key::UdpMultiple => Some(TimeoutName::UdpMultiple),
        Key::OtherFirst => Some(TimeoutName::OtherFirst),
        Key::OtherSingle => Some(TimeoutName::OtherSingle),
        Key::OtherMultiple => Some(TimeoutName::OtherMultiple),
        Key::SrcTrack => Some(TimeoutName::SrcTrack),
        Key::Interval => Some(TimeoutName::Interval),
        Key::AdaptiveStart => Some(TimeoutName::AdaptiveStart),
        Key::AdaptiveEnd => Some(TimeoutName::AdaptiveEnd),
        _ => None,
    }
}

/// The least value of a timeout: `interval` is at least 1 second.
fn least(name: TimeoutName) -> u32
    ensures { result ≡ least_value name }
{
    match name {
        TimeoutName::Interval => 1,
        _ => 0,
    }
}

/// The greatest value of a timeout, in seconds; the adaptive ones are numbers of states.
fn greatest(name: TimeoutName) -> u32
    ensures { result ≡ greatest_value name }
{
    match name {
        TimeoutName::AdaptiveStart | TimeoutName::AdaptiveEnd => 4_294_967_295,
        _ => 2_147_483_647,
    }
}
