//! State clauses written out by hand: what they say, where they are refused, and what their options mean.

use pfs_conf_options::{Options, OverloadText, StateClause, Track, state_clause};
use pfs_conf_tokens::{Cursor, Key, Refusal, Why};
use pfs_conf_values::{Overload, Rate, Scope, TableName, TableNo, TimeoutName};
use pfs_tests_cases::{holds, same};
use std::test::Fail;

/// The options of a clause that is read up to the end of its line.
fn read(text: &[u8]) -> Option<Options> {
    if text.len() > 1000 {
        return None;
    }
    let mut cursor = Cursor::new(text);
    match state_clause(&mut cursor) {
        Ok(clause) if cursor.is_at_line_end() => Some(clause.options()),
        _ => None,
    }
}

/// Why a clause is refused, and at which token.
fn refusal(text: &[u8]) -> Option<(Refusal, Key)> {
    if text.len() > 1000 {
        return None;
    }
    let mut cursor = Cursor::new(text);
    match state_clause(&mut cursor) {
        Ok(_) => None,
        Err(refusal) => Some((refusal, cursor.key())),
    }
}

fn scope(text: &[u8]) -> Option<Option<Scope>> {
    match read(text) {
        Some(options) => Some(options.scope()),
        None => None,
    }
}

#[test]
fn clauses_without_options(rt: HostRuntime) {
    let mut cursor = Cursor::new(b"no state (max 1)");
    same!(rt; state_clause(&mut cursor), Ok(StateClause::No));
    same!(rt; cursor.key(), Key::OpenParen);
    let mut cursor = Cursor::new(b"keep\tstate\nmax");
    same!(rt; state_clause(&mut cursor), Ok(StateClause::Keep(Options::new())));
    same!(rt; cursor.key(), Key::LineEnd);
    let mut cursor = Cursor::new(b"synproxy state keep");
    let proxied = Options {
        synproxy: true,
        ..Options::new()
    };
    same!(rt; state_clause(&mut cursor), Ok(StateClause::Keep(proxied)));
    same!(rt; cursor.key(), Key::Keep);
}

const EVERY: &[u8] = b"keep state (max 007, source-track global max-src-nodes 4294967295 , \
    max-src-states 1 max-src-conn 0000000002,max-src-conn-rate 4294967/2147483647 \
    overload <10.max_1-> flush global, sloppy floating,no-sync tcp.first 0 \
    other.multiple 2147483647 src.track 5 adaptive.start 4294967295)";

#[test]
fn each_maximum(rt: HostRuntime) -> Result<(), Fail> {
    let options = read(EVERY).ok_or("options")?;
    same!(rt; options.max, Some(7));
    same!(rt; options.track, Some(Track::Global));
    same!(rt; options.max_src_nodes, Some(4294967295));
    same!(rt; options.max_src_states, Some(1));
    same!(rt; options.max_src_conn, Some(2));
    let rate = Rate {
        limit: 4294967,
        seconds: 2147483647,
    };
    same!(rt; options.max_src_conn_rate, Some(rate));
    Ok(())
}

#[test]
fn each_other_option(rt: HostRuntime) -> Result<(), Fail> {
    let options = read(EVERY).ok_or("options")?;
    let overload = OverloadText {
        table: TableName::parse(b"10.max_1-").ok_or("a name")?,
        flush: Some(Scope::Global),
    };
    same!(rt; options.overload, Some(overload));
    holds!(rt; options.sloppy && options.floating && options.no_sync);
    Ok(())
}

const TIMEOUTS: &[(TimeoutName, Option<u32>)] = &[
    (TimeoutName::TcpFirst, Some(0)),
    (TimeoutName::TcpOpening, None),
    (TimeoutName::OtherMultiple, Some(2147483647)),
    (TimeoutName::SrcTrack, Some(5)),
    (TimeoutName::AdaptiveStart, Some(4294967295)),
    (TimeoutName::AdaptiveEnd, None),
];

#[test]
fn each_timeout(rt: HostRuntime) -> Result<(), Fail> {
    let options = read(EVERY).ok_or("options")?;
    for &(name, value) in TIMEOUTS {
        same!(rt; options.timeouts.get(name), value);
    }
    Ok(())
}

#[test]
fn words_that_may_lack(rt: HostRuntime) -> Result<(), Fail> {
    let bare = read(b"keep state (source-track, max 1)").ok_or("bare")?;
    same!(rt; bare.track, Some(Track::Bare));
    let rule = read(b"keep state (source-track rule)").ok_or("rule")?;
    same!(rt; rule.track, Some(Track::Rule));
    let none = read(b"keep state (overload <a>, max-src-conn 1)").ok_or("none")?;
    same!(rt; none.overload.and_then(|overload| overload.flush), None);
    let own = read(b"keep state (overload < a > flush max-src-conn 1)").ok_or("own")?;
    same!(rt; own.overload.and_then(|overload| overload.flush), Some(Scope::Rule));
    Ok(())
}

const REFUSED: &[(&[u8], Why, Key)] = &[
    (
        b"keep state (max 007, source-track global max-src-nodes 4294967295 , max-src-states 1\n",
        Why::Plain,
        Key::LineEnd,
    ),
    (b"all", Why::Plain, Key::All),
    (b"no keep", Why::Plain, Key::Keep),
    (b"keep", Why::Plain, Key::LineEnd),
    (b"synproxy keep state", Why::Plain, Key::Keep),
    (b"synproxy state (synproxy)", Why::Plain, Key::Synproxy),
    (b"keep state ()", Why::Plain, Key::CloseParen),
    (b"keep state (,max 1)", Why::Plain, Key::Comma),
    (b"keep state (max 1,)", Why::Plain, Key::CloseParen),
    (b"keep state (max 1,,sloppy)", Why::Plain, Key::Comma),
    (b"keep state (max 1\n)", Why::Plain, Key::LineEnd),
    (b"keep state (interval 5)", Why::Plain, Key::Interval),
    (b"keep state (frag 5)", Why::Plain, Key::Frag),
    (
        b"keep state (source-track rule global)",
        Why::Plain,
        Key::Global,
    ),
    (b"keep state (overload t)", Why::Plain, Key::Name),
    (b"keep state (overload <\"t\">)", Why::Plain, Key::Quoted),
    (b"keep state (overload <a/b>)", Why::Plain, Key::Name),
    (b"keep state (overload <t t>)", Why::Plain, Key::Name),
    (
        b"keep state (overload <t> flush flush)",
        Why::Plain,
        Key::Flush,
    ),
    (
        b"keep state (overload <a234567890b234567890c234567890d2>)",
        Why::Plain,
        Key::Name,
    ),
    (b"keep state (max 0)", Why::Number, Key::Number),
    (b"keep state (max 4294967296)", Why::Number, Key::Number),
    (b"keep state (max 00000000001)", Why::Number, Key::Number),
    (b"keep state (max max)", Why::Number, Key::Max),
    (
        b"keep state (max-src-conn-rate 3)",
        Why::Number,
        Key::Number,
    ),
    (
        b"keep state (max-src-conn-rate 0/1)",
        Why::Number,
        Key::Number,
    ),
    (
        b"keep state (max-src-conn-rate 1/0)",
        Why::Number,
        Key::Number,
    ),
    (
        b"keep state (max-src-conn-rate 4294968/1)",
        Why::Number,
        Key::Number,
    ),
    (
        b"keep state (max-src-conn-rate 1/2147483648)",
        Why::Number,
        Key::Number,
    ),
    (
        b"keep state (max-src-conn-rate 1/2/3)",
        Why::Number,
        Key::Number,
    ),
    (b"keep state (max-src-conn-rate /1)", Why::Number, Key::Name),
    (
        b"keep state (udp.single 2147483648)",
        Why::Number,
        Key::Number,
    ),
    (
        b"keep state (adaptive.end 4294967296)",
        Why::Number,
        Key::Number,
    ),
    (b"keep state (max 1, max 2)", Why::Again, Key::Max),
    (
        b"keep state (source-track source-track)",
        Why::Again,
        Key::SourceTrack,
    ),
    (
        b"keep state (sloppy floating sloppy)",
        Why::Again,
        Key::Sloppy,
    ),
    (
        b"keep state (udp.first 1 udp.first 1)",
        Why::Again,
        Key::UdpFirst,
    ),
];

#[test]
fn refused_at_the_token_that_does_not_fit(rt: HostRuntime) {
    for &(text, why, key) in REFUSED {
        same!(rt; refusal(text), Some((Refusal::Stop(why), key)));
    }
}

const SCOPES: &[(&[u8], Option<Scope>)] = &[
    (b"keep state (max 1)", None),
    (b"keep state (source-track)", Some(Scope::Global)),
    (b"keep state (max-src-states 1)", Some(Scope::Global)),
    (
        b"keep state (source-track rule max-src-states 1)",
        Some(Scope::Rule),
    ),
    (
        b"keep state (source-track max-src-nodes 1)",
        Some(Scope::Rule),
    ),
    (
        b"keep state (source-track global max-src-nodes 1)",
        Some(Scope::Global),
    ),
    (
        b"keep state (max-src-conn 1 max-src-states 1)",
        Some(Scope::Rule),
    ),
    (b"keep state (max-src-conn-rate 1/1)", Some(Scope::Rule)),
];

#[test]
fn scopes(rt: HostRuntime) {
    for &(text, wanted) in SCOPES {
        same!(rt; scope(text), Some(wanted));
    }
}

const PAIRS: &[(&[u8], bool)] = &[
    (b"keep state (adaptive.start 1)", true),
    (b"keep state (adaptive.end 1)", true),
    (b"keep state (adaptive.start 0 adaptive.end 1)", true),
    (b"keep state (adaptive.start 2 adaptive.end 2)", true),
    (b"keep state (adaptive.end 2 adaptive.start 1)", false),
    (b"no state", false),
];

#[test]
fn load_rules(rt: HostRuntime) -> Result<(), Fail> {
    let alone = read(b"keep state (overload <x> max 1)").ok_or("alone")?;
    holds!(rt; alone.has_overload_alone());
    let limited = read(b"keep state (overload <x> max-src-conn-rate 1/1)").ok_or("limited")?;
    holds!(rt; !limited.has_overload_alone());
    let shared = read(b"keep state (source-track global, max-src-conn 3)").ok_or("shared")?;
    holds!(rt; shared.has_global_connections());
    let kept = read(b"keep state (max-src-states 3, src.track 5)").ok_or("kept")?;
    holds!(rt; kept.has_global_retention() && !kept.has_global_connections());
    let untracked = read(b"keep state (src.track 5)").ok_or("untracked")?;
    holds!(rt; !untracked.has_global_retention());
    for &(text, is_broken) in PAIRS {
        same!(rt; read(text).map(|options| options.has_broken_pair()), Some(is_broken));
    }
    Ok(())
}

#[test]
fn options_of_a_configuration(rt: HostRuntime) -> Result<(), Fail> {
    let text = b"keep state (max-src-conn-rate 3/10, overload <worse> flush global, sloppy, max 9)";
    let read = read(text).ok_or("options")?;
    let options = read.resolved(Some(TableNo(1)));
    same!(rt; options.max, Some(9));
    holds!(rt; options.sloppy);
    same!(rt; options.scope, Some(Scope::Rule));
    let overload = Overload {
        table: TableNo(1),
        flush: Some(Scope::Global),
    };
    same!(rt; options.overload, Some(overload));
    same!(rt; read.resolved(None).overload, None);
    holds!(rt; !options.synproxy);
    Ok(())
}

#[test]
fn options_of_synproxy_state(rt: HostRuntime) -> Result<(), Fail> {
    let options = read(b"synproxy state (max-src-conn 9, sloppy)").ok_or("options")?;
    let resolved = options.resolved(None);
    holds!(rt; options.synproxy && resolved.synproxy && resolved.sloppy);
    same!(rt; resolved.max_src_conn, Some(9));
    Ok(())
}
