//! Packets, the keys of their states, the meter, and the text of an error.

use pfs_addr_values::{
    Addr, Dir, Endpoint, Flags, FlowKey, IfName, Meter, NoMemory, Packet, Proto, parse_ifname,
};
use pfs_tests_cases::{holds, same};
use std::process::Abort;
use std::test::Fail;

const CLIENT: Endpoint = Endpoint {
    addr: Addr::V4([198, 51, 100, 1]),
    port: 1000,
};

const SERVER: Endpoint = Endpoint {
    addr: Addr::V4([192, 0, 2, 1]),
    port: 80,
};

fn interface(rt: &impl Abort) -> IfName {
    parse_ifname(b"em0").expect(rt, "a name")
}

fn tcp(rt: &impl Abort, dir: Dir, from: Endpoint, to: Endpoint, flags: Flags) -> Packet {
    Packet::new(dir, interface(rt), Proto::Tcp, from, to, flags)
}

#[test]
fn a_packet_has_what_it_is_made_of(rt: HostRuntime) {
    let syn = Flags {
        syn: true,
        ..Flags::default()
    };
    let packet = tcp(&rt, Dir::In, CLIENT, SERVER, syn);
    holds!(rt; packet.ifname() == interface(&rt));
    same!(rt; (packet.dir(), packet.proto(), packet.flags()), (Dir::In, Proto::Tcp, syn));
    same!(rt; (packet.source(), packet.destination()), (CLIENT, SERVER));
    same!(rt; (packet.src(), packet.sport()), (CLIENT.addr, 1000));
    same!(rt; (packet.dst(), packet.dport()), (SERVER.addr, 80));
}

#[test]
fn a_packet_and_its_answer_have_one_key(rt: HostRuntime) {
    let none = Flags::default();
    let key = FlowKey {
        proto: Proto::Tcp,
        a: CLIENT,
        b: SERVER,
    };
    for (packet, is_same) in [
        (tcp(&rt, Dir::In, CLIENT, SERVER, none), true),
        (tcp(&rt, Dir::Out, SERVER, CLIENT, none), true),
        (tcp(&rt, Dir::In, SERVER, CLIENT, none), false),
    ] {
        same!(rt; FlowKey::of(&packet) == key, is_same);
    }
}

#[test]
fn a_meter_counts(rt: HostRuntime) {
    let mut meter = Meter::new();
    same!(rt; meter.count(), 0);
    meter.tick();
    meter.tick();
    same!(rt; meter.count(), 2);
}

#[test]
fn want_of_memory_has_a_text(rt: HostRuntime) -> Result<(), Fail> {
    let text = format!(in rt.alloc(); "{}", NoMemory)?;
    same!(rt; text.as_str(), "no memory");
    Ok(())
}
