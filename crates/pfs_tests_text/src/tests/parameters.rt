//! Parameters of texts, by hand.

ghost use Rattle.std.specs.Prelude.{◌<◌, ◌^◌, length};

use pfs_addr::{parse_flags, parse_prefix};
use pfs_addr_values::{Dir, Flags, Proto, parse_ifname};
use pfs_conf_filters::{
    Head, Hosts, Marks, Parameters, Statement, Verb, read_flags, read_parameters, read_verb,
};
use pfs_conf_tokens::{Cursor, Key, Refusal, Why};
use pfs_conf_values::{Family, FlagTest, Host, Interface, Ports, Side, TableName};
use pfs_tests_cases::{holds, same};
use std::process::Abort;
use std::test::Fail;

const NO_MARKS: Marks = Marks {
    log: false,
    quick: false,
};

const NO_HEAD: Head = Head {
    dir: None,
    marks: NO_MARKS,
    on: None,
    family: None,
    proto: None,
};

const NO_HOSTS: Hosts = Hosts {
    all: false,
    from: None,
    to: None,
};

const ANY: Side<TableName> = Side {
    host: Host::Any,
    ports: None,
};

/// What is read of a rule's parameters, and the key of the token after them.
fn read(text: &[u8]) -> (Result<Parameters, Refusal>, Key)
    requires { length text.now < 2 ^ 63 }
{
    let mut cursor = Cursor::new(text);
    let read = read_parameters(&mut cursor, Statement::Rule);
    (read, cursor.key())
}

/// Reading stops at this token, where something else was wanted.
fn stops(rt: &impl Abort, text: &[u8], why: Why, at: &[u8]) {
    assert!(rt; text.len() < 1000);
    let mut cursor = Cursor::new(text);
    same!(*rt; read_parameters(&mut cursor, Statement::Rule), Err(Refusal::Stop(why)));
    same!(*rt; cursor.text(), at);
}

fn side(host: Host<TableName>, ports: Option<Ports>) -> Option<Side<TableName>> {
    Some(Side { host, ports })
}

#[test]
fn every_part(rt: HostRuntime) -> Result<(), Fail> {
    let bad = TableName::parse(b"bad").ok_or("a name")?;
    let ten = parse_prefix(b"10.0.0.0/8").ok_or("a prefix")?;
    let name = parse_ifname(b"em1").ok_or("a name")?;
    let text =
        b"in log (all, matches user to em0) quick on ! em1 inet proto 6 from ! <bad> port = ssh:443 to 10.1.2.3/8 port www flags";
    let wanted = Parameters {
        head: Head {
            dir: Some(Dir::In),
            marks: Marks {
                log: true,
                quick: true,
            },
            on: Some(Interface {
                name,
                negated: true,
            }),
            family: Some(Family::Inet),
            proto: Some(Proto::Tcp),
        },
        hosts: Hosts {
            all: false,
            from: side(
                Host::Table {
                    table: bad,
                    negated: true,
                },
                Some(Ports { low: 22, high: 443 }),
            ),
            to: side(
                Host::Prefix {
                    prefix: ten,
                    negated: false,
                },
                Some(Ports { low: 80, high: 80 }),
            ),
        },
    };
    same!(rt; read(text), (Ok(wanted), Key::Flags));
    Ok(())
}

#[test]
fn unusual_spellings(rt: HostRuntime) -> Result<(), Fail> {
    let nothing = Parameters {
        head: NO_HEAD,
        hosts: NO_HOSTS,
    };
    same!(rt; read(b""), (Ok(nothing), Key::End));

    let quick = parse_ifname(b"quick").ok_or("a name")?;
    let head = Head {
        dir: Some(Dir::Out),
        marks: Marks {
            log: true,
            quick: true,
        },
        on: Some(Interface {
            name: quick,
            negated: false,
        }),
        proto: Some(Proto::from_number(58)),
        ..NO_HEAD
    };
    let hosts = Hosts {
        all: true,
        ..NO_HOSTS
    };
    let wanted = (Ok(Parameters { head, hosts }), Key::Keep);
    same!(rt; read(b"out quick log on quick proto icmp6 all keep"), wanted);

    let head = Head {
        proto: Some(Proto::Udp),
        ..NO_HEAD
    };
    let hosts = Hosts {
        from: side(Host::Any, Some(Ports { low: 80, high: 80 })),
        to: side(
            Host::Any,
            Some(Ports {
                low: 0,
                high: 65535,
            }),
        ),
        ..NO_HOSTS
    };
    let wanted = (Ok(Parameters { head, hosts }), Key::LineEnd);
    same!(rt; read(b"proto 017 from port 80:http to any port 0:0065535"), wanted);
    Ok(())
}

#[test]
fn either_family(rt: HostRuntime) -> Result<(), Fail> {
    let group = parse_prefix(b"fe80::/10").ok_or("a prefix")?;
    let head = Head {
        family: Some(Family::Inet6),
        ..NO_HEAD
    };
    let hosts = Hosts {
        from: side(
            Host::Prefix {
                prefix: group,
                negated: true,
            },
            None,
        ),
        ..NO_HOSTS
    };
    let wanted = (Ok(Parameters { head, hosts }), Key::Inet);
    same!(rt; read(b"inet6 from !fe80:0::1/10 inet"), wanted);
    Ok(())
}

#[test]
fn an_anchor_has_no_log(rt: HostRuntime) {
    let mut cursor = Cursor::new(b"quick log");
    let marks = Marks {
        log: false,
        quick: true,
    };
    let wanted = Parameters {
        head: Head { marks, ..NO_HEAD },
        hosts: NO_HOSTS,
    };
    same!(rt; read_parameters(&mut cursor, Statement::Anchor), Ok(wanted));
    same!(rt; cursor.key(), Key::Log);
}

const STOPS: &[(&[u8], Why, &[u8])] = &[
    (b"on any", Why::Plain, b"any"),
    (b"on ! rdomain", Why::Plain, b"rdomain"),
    (b"on interface_of_16b", Why::Plain, b"interface_of_16b"),
    (b"on \"em0\"", Why::Plain, b"em0"),
    (b"log (all,)", Why::Plain, b")"),
    (b"log ()", Why::Plain, b")"),
    (b"log (to any)", Why::Plain, b"any"),
    (b"from <bad all", Why::Plain, b"all"),
    (b"from <> all", Why::Plain, b">"),
    (b"proto 256", Why::Service, b"256"),
    (b"proto { tcp udp }", Why::Service, b"{"),
    (b"from any port 65536", Why::Service, b"65536"),
    (b"from any port 80:70", Why::Service, b"80:70"),
    (b"from any port 1:2:3", Why::Service, b"1:2:3"),
    (b"from any port 1:", Why::Service, b"1:"),
    (b"from any port telnet", Why::Service, b"telnet"),
    (b"to port = = 80", Why::Service, b"="),
    (b"from 10/8", Why::Host, b"10/8"),
    (b"from ! any", Why::Host, b"any"),
    (b"from ! ! 10.0.0.1", Why::Host, b"!"),
    (b"from \"10.0.0.1\"", Why::Host, b"10.0.0.1"),
    (b"from any to em0", Why::Host, b"em0"),
    (b"inet6 from fe80::1%em0", Why::Host, b"fe80::1%em0"),
    (b"from", Why::Host, b""),
];

#[test]
fn parameters_stop_at_the_token_that_does_not_fit(rt: HostRuntime) {
    for &(text, why, at) in STOPS {
        stops(&rt, text, why, at);
    }
}

fn flags(text: &[u8]) -> Result<FlagTest, Refusal>
    requires { length text.now < 2 ^ 63 }
{
    read_flags(&mut Cursor::new(text))
}

fn exactly(set: Flags, among: Flags) -> Result<FlagTest, Refusal> {
    Ok(FlagTest::Exactly { set, among })
}

const NO_FLAGS: &[&[u8]] = &[
    b"flags",
    b"flags S/",
    b"flags S",
    b"flags s/SA",
    b"flags S/SA/S",
    b"flags \"S/SA\"",
];

#[test]
fn flag_tests(rt: HostRuntime) -> Result<(), Fail> {
    let none = parse_flags(b"").ok_or("flags")?;
    let syn = parse_flags(b"S").ok_or("flags")?;
    let both = parse_flags(b"SA").ok_or("flags")?;
    same!(rt; flags(b"flags any"), Ok(FlagTest::Any));
    same!(rt; flags(b"flags S/AS"), exactly(syn, both));
    same!(rt; flags(b"flags AS/S"), exactly(both, syn));
    same!(rt; flags(b"flags /SA"), exactly(none, both));
    for &text in NO_FLAGS {
        if text.len() < 100 {
            same!(rt; flags(text), Err(Refusal::Stop(Why::Plain)));
        }
    }
    Ok(())
}

#[test]
fn verbs(rt: HostRuntime) {
    let mut cursor = Cursor::new(b"pass block block return-icmp6 drop");
    same!(rt; read_verb(&mut cursor), Ok(Verb::Pass));
    same!(rt; read_verb(&mut cursor), Ok(Verb::Block { has_policy: false }));
    let blocks = Verb::Block { has_policy: true };
    same!(rt; read_verb(&mut cursor), Ok(blocks));
    holds!(rt; blocks.has(cursor.key()));
    holds!(rt; !Verb::Pass.has(cursor.key()));
    holds!(rt; !Verb::Match.has(cursor.key()));
    holds!(rt; !blocks.has(Key::Quick));
    same!(rt; read_verb(&mut cursor), Err(Refusal::Stop(Why::Statement)));
    same!(rt; cursor.key(), Key::Drop);
}

/// Whether a port is given without its protocol in this text, if it is read.
fn lacks_proto(text: &[u8]) -> Option<bool>
    requires { length text.now < 2 ^ 63 }
{
    let mut cursor = Cursor::new(text);
    match read_parameters(&mut cursor, Statement::Rule) {
        Ok(parameters) => Some(parameters.lack_proto()),
        Err(_) => None,
    }
}

#[test]
fn ports_want_a_protocol(rt: HostRuntime) {
    same!(rt; lacks_proto(b"to any port 80"), Some(true));
    same!(rt; lacks_proto(b"proto icmp from port 80"), Some(true));
    same!(rt; lacks_proto(b"proto tcp to any port 80"), Some(false));
    same!(rt; lacks_proto(b"proto 17 from port 80"), Some(false));
    same!(rt; lacks_proto(b"from any to any"), Some(false));
}

#[test]
fn repeated_parts(rt: HostRuntime) {
    let ssh = Ports { low: 22, high: 22 };
    let head = Head {
        dir: Some(Dir::In),
        proto: Some(Proto::Tcp),
        ..NO_HEAD
    };
    let hosts = Hosts {
        from: side(Host::Any, Some(ssh)),
        ..NO_HOSTS
    };
    let parameters = Parameters { head, hosts };
    for key in [Key::In, Key::Out, Key::Proto, Key::From, Key::Port] {
        holds!(rt; parameters.have(key));
    }
    for key in [
        Key::Log,
        Key::Quick,
        Key::On,
        Key::Inet,
        Key::All,
        Key::To,
        Key::Flags,
    ] {
        holds!(rt; !parameters.have(key));
    }
    same!(rt; hosts.source().ports, Some(ssh));
    same!(rt; hosts.destination(), ANY);
}
