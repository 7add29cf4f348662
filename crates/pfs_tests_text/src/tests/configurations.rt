//! What a configuration says of its text: items, tables, limits, timeouts, and its canonical text.

use pfs_addr_values::{Addr, Prefix};
use pfs_conf::{
    Action, Config, FlagTest, Host, LimitName, RuleNo, Scope, TableNo, TimeoutName, load,
};
use pfs_conf_show::show;
use pfs_tests_cases::{holds, same};
use std::test::Fail;

const NESTED: &[u8] = b"set limit states 50
set timeout src.track 7
table <bad> { 10.1.2.3/8, !10.9.9.9 }
block quick from <bad>
anchor web {
pass keep state (max 9, source-track rule, max-src-conn-rate 3/10, overload <worse> flush global)
}
pass keep state (source-track global, max-src-states 2)
";

fn nested(rt: &impl AllocGlobal) -> Result<Config, Fail> {
    Ok(load(rt.alloc(), NESTED)?)
}

/// How many items, tables and entries there are.
fn counts(config: &Config) -> (u32, u32, u64) {
    (
        config.item_count(),
        config.table_count(),
        config.entry_count(),
    )
}

const ITEMS: &[(
    u32,
    Option<u8>,
    Option<bool>,
    Option<Option<u32>>,
    Option<Scope>,
)] = &[
    (0, Some(0), Some(true), None, None),
    (1, Some(0), None, None, None),
    (2, Some(1), Some(false), Some(Some(9)), Some(Scope::Rule)),
    (3, Some(0), Some(false), Some(None), Some(Scope::Global)),
    (4, None, None, None, None),
];

#[test]
fn items_are_numbered_in_order(rt: HostRuntime) -> Result<(), Fail> {
    let config = nested(&rt)?;
    same!(rt; config.item_count(), 4);
    for &(number, depth, quick, max, scope) in ITEMS {
        same!(rt; config.item(number).map(|item| item.depth), depth);
        let number = RuleNo(number);
        same!(rt; config.rule(number).map(|rule| rule.quick), quick);
        same!(rt; config.options(number).map(|options| options.max), max);
        same!(rt; config.scope(number), scope);
    }
    same!(rt; config.rule_timeout(RuleNo(2), TimeoutName::TcpFirst), None);
    Ok(())
}

#[test]
fn tables_are_copied_with_their_entries(rt: HostRuntime) -> Result<(), Fail> {
    let config = nested(&rt)?;
    let copy = config.copy()?;
    same!(rt; counts(&copy), (4, 2, 2));
    holds!(rt; copy.item(2) == config.item(2));
    let bad = copy.table(TableNo(0)).ok_or("no table")?;
    same!(rt; bad.name.as_bytes(), b"bad".as_slice());
    same!(rt; bad.entries.len(), 2);
    let nine = Prefix::host(Addr::V4([10, 9, 9, 9]));
    let ten = Addr::V4([10, 0, 0, 0]).prefix(8);
    for (place, entry) in [Some((ten, false)), Some((nine, true)), None]
        .into_iter()
        .enumerate()
    {
        same!(rt; bad.entries.at(place), entry);
    }
    holds!(rt; copy.table(TableNo(2)).is_none());
    Ok(())
}

#[test]
fn tables_are_found_by_their_names(rt: HostRuntime) -> Result<(), Fail> {
    let text = b"table <t> const { 10.1.2.3 }\nblock from <bad>\nblock to <t-1>\n";
    let config = load(rt.alloc(), text)?;
    for (name, number, is_const) in [
        (b"t".as_slice(), 0, true),
        (b"bad", 1, false),
        (b"t-1", 2, false),
    ] {
        same!(rt; config.table_named(name), Some(TableNo(number)));
        assert!(rt; number < config.table_count());
        same!(rt; config.is_const(TableNo(number)), is_const);
    }
    for name in [b"".as_slice(), b"T", b"ba", b"bad2"] {
        same!(rt; config.table_named(name), None);
    }
    Ok(())
}

/// As long as its score may matter, or for `src.track`
#[test]
fn a_source_node_is_retained(rt: HostRuntime) -> Result<(), Fail> {
    let config = nested(&rt)?;
    for (number, seconds) in [(RuleNo(2), 10), (RuleNo(3), 7)] {
        assert!(rt; config.scope(number).is_some());
        same!(rt; config.retention(number), seconds);
    }
    Ok(())
}

#[test]
fn timeouts_have_places(rt: HostRuntime) {
    for place in 0..16 {
        holds!(rt; TimeoutName::at(place).place() == place);
    }
}

#[test]
fn limits_are_set_or_have_their_defaults(rt: HostRuntime) -> Result<(), Fail> {
    let all =
        b"set limit {\n states\n 7 ,\n src-nodes 8 frags 1 tables 0009\n table-entries 4294967295\n }\n";
    for (text, wanted) in [
        (b"".as_slice(), [100_000, 10_000, 1_000, 200_000]),
        (NESTED, [50, 10_000, 1_000, 200_000]),
        (b"set limit states 7\n", [7, 10_000, 1_000, 200_000]),
        (all, [7, 8, 9, 4_294_967_295]),
    ] {
        let config = load(rt.alloc(), text)?;
        let limits = [
            config.limit(LimitName::States),
            config.limit(LimitName::SrcNodes),
            config.limit(LimitName::Tables),
            config.limit(LimitName::TableEntries),
        ];
        same!(rt; limits, wanted);
    }
    Ok(())
}

#[test]
fn timeouts_are_set_or_have_their_defaults(rt: HostRuntime) -> Result<(), Fail> {
    let twice =
        b"set timeout { interval 1, udp.first 0 tcp.closed 2147483647, frag 3, icmp.error 0 interval 2 }\n";
    let pair = b"set timeout { adaptive.start 0, adaptive.end 4294967295 }\n";
    for (text, name, seconds) in [
        (NESTED, TimeoutName::TcpEstablished, 86_400),
        (NESTED, TimeoutName::Interval, 10),
        (NESTED, TimeoutName::SrcTrack, 7),
        (NESTED, TimeoutName::AdaptiveStart, 30),
        (NESTED, TimeoutName::AdaptiveEnd, 60),
        (twice, TimeoutName::Interval, 2),
        (twice, TimeoutName::UdpFirst, 0),
        (twice, TimeoutName::TcpClosed, 2_147_483_647),
        (pair, TimeoutName::AdaptiveStart, 0),
        (pair, TimeoutName::AdaptiveEnd, 4_294_967_295),
    ] {
        let config = load(rt.alloc(), text)?;
        same!(rt; config.timeout(name), seconds, name);
    }
    Ok(())
}

#[test]
fn the_canonical_text_shows_all(rt: HostRuntime) -> Result<(), Fail> {
    for (text, wanted) in [
        (
            b"set limit states 50".as_slice(),
            b"set limit { states 50, src-nodes 10000, tables 1000, table-entries 200000 }\n\
            set timeout { tcp.first 120, tcp.opening 30, tcp.established 86400, tcp.closing 900, \
            tcp.finwait 45, tcp.closed 90, udp.first 60, udp.single 30, udp.multiple 60, \
            other.first 60, other.single 30, other.multiple 60, src.track 0, interval 10, \
            adaptive.start 30, adaptive.end 60 }\n"
                .as_slice(),
        ),
        (
            b"table <bad> const { 10.0.0.0/8 !10.9.9.9/32 }",
            b"adaptive.end 120000 }\ntable <bad> const { 10.0.0.0/8, !10.9.9.9 }\n",
        ),
        (
            b"table <bad> { 2001:DB8:0::ff/32 !1:0:0:2:0:0:0:3/128, 10.0.0.1 ::/0 }\n\
            pass inet6 from 2001:db8:0:0:1:0:0:1 to !<bad>\nanchor on em0 inet6 to fe80::1/10 {\n}",
            b"adaptive.end 120000 }\ntable <bad> { 2001:db8::/32, !1:0:0:2::3, 10.0.0.1, ::/0 }\n\
            pass inet6 from 2001:db8::1:0:0:1 to !<bad> flags S/SA keep state\n\
            anchor on em0 inet6 from any to fe80::/10 flags any {\n}\n",
        ),
    ] {
        let shown = show(rt.alloc(), &load(rt.alloc(), text)?)?;
        holds!(rt; shown.as_slice().ends_with(wanted));
    }
    Ok(())
}

const WEB_SERVER: &[u8] = b"# http for everyone, ssh for a few
set limit { states 20000, src-nodes 5000 }
set timeout { tcp.established 7200,
              udp.multiple 120 }
table <martians> const { 10.0.0.0/8, 127.0.0.0/8, \\
    192.168.0.0/16 }
table <office> persist {
    198.51.100.0/24
    !198.51.100.13      # the guests' router
}
table <bruteforce> persist

block drop log all
pass quick on lo0 all no state
block in quick on em0 inet from <martians> to any
block in log quick from <bruteforce>
pass out on em0 inet proto udp from any to any port domain keep state (max 2000)

anchor \"web\" in on em0 inet {
    pass proto tcp from any to any port www \\
        keep state (max 15000, max-src-nodes 4000, \\
            max-src-conn 80, max-src-conn-rate 200/10, overload <webflood> flush)
    pass proto tcp from any to any port = https:444 flags any
}

anchor \"ssh\" in on em0 proto tcp from any to any port ssh {
    pass quick from <office> keep state (sloppy)
    pass all keep state (max-src-conn 5 max-src-conn-rate 3/60 overload <bruteforce> flush global, src.track 300)
}
";

#[test]
fn a_web_server_has_its_items_and_tables(rt: HostRuntime) -> Result<(), Fail> {
    let config = load(rt.alloc(), WEB_SERVER)?;
    same!(rt; counts(&config), (11, 4, 5));
    let block = config.rule(RuleNo(2)).ok_or("a rule")?;
    holds!(rt; block.action == Action::Block && block.quick);
    let martians = Host::Table {
        table: TableNo(0),
        negated: false,
    };
    holds!(rt; block.filter.from.host == martians);
    let https = config.rule(RuleNo(7)).ok_or("a rule")?;
    holds!(rt; https.filter.flags == FlagTest::Any);
    Ok(())
}

/// What is set, what has its default, and what is resolved of it
#[test]
fn a_web_server_has_its_settings(rt: HostRuntime) -> Result<(), Fail> {
    let config = load(rt.alloc(), WEB_SERVER)?;
    for (name, value) in [(LimitName::States, 20_000), (LimitName::Tables, 1_000)] {
        same!(rt; config.limit(name), value);
    }
    for (name, value) in [
        (TimeoutName::TcpEstablished, 7_200),
        (TimeoutName::AdaptiveEnd, 24_000),
    ] {
        same!(rt; config.timeout(name), value);
    }
    Ok(())
}

#[test]
fn a_web_server_has_its_options(rt: HostRuntime) -> Result<(), Fail> {
    let config = load(rt.alloc(), WEB_SERVER)?;
    for (number, depth, scope, seconds) in [
        (4, 0, None, None),
        (6, 1, Some(Scope::Rule), None),
        (10, 1, Some(Scope::Rule), Some(300)),
    ] {
        same!(rt; config.item(number).map(|item| item.depth), Some(depth));
        same!(rt; config.scope(RuleNo(number)), scope);
        let seconds_told = config.rule_timeout(RuleNo(number), TimeoutName::SrcTrack);
        same!(rt; seconds_told, seconds);
    }
    let kept = config.options(RuleNo(6)).ok_or("options")?;
    let overload = kept.overload.ok_or("overload")?;
    same!(rt; (overload.table, overload.flush, kept.max), (TableNo(3), Some(Scope::Rule), Some(15_000)));
    Ok(())
}
