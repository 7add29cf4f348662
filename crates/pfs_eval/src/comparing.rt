//! What items ask of packets, and the one way to compare an item with a packet, which is counted as a visit.

ghost use Rattle.std.specs.Prelude.{◌≡◌, ◌+◌, ◌-◌, ◌<◌, ◌^◌, ◌↔◌, ◌≤◌, ◌/◌, IsTrue, MatchOption, false, true};
ghost use Rattle.pfs_addr_values.specs.Packets.{came_in_on};
ghost use Rattle.pfs_eval.specs.Asking.{came_to, is_same_tag, is_this_interface, received_on_holds, tagged_holds};
ghost use Rattle.pfs_eval.specs.Glances.{IsFilterKept, IsOnKept, IsWordOf, asks_flags, inet_holds, near_host};
ghost use Rattle.pfs_eval.specs.Matching.{common_flags, dir_holds, family_holds, filter_holds, filter_of, flags_hold, host_holds, interface_holds, ports_hold, prefix_holds, proto_holds, same_flags, turned_if};
ghost use Rattle.pfs_eval.specs.Tables.{table_answer};
ghost use Rattle.pfs_eval.specs.Parameters.{IsSame, failing_at, holds_at, same_test};

use crate::glances::{Glance, Near, NearKind, OnKind};
use crate::tables::Tables;
use pfs_addr_values::{Addr, Dir, Flags, IfName, Meter, Packet, Prefix, Proto, TagNo};
use pfs_conf_values::{
    Family, Filter, FlagTest, Host, Interface, ItemKind, Ports, TableNo, Tagged,
};

/// A parameter of an item, in the order in which they are compared. (pf.conf(5), PARAMETERS)
#[derive(Clone, Copy)]
pub enum Parameter {
    /// `on`.
    Interface,
    /// `in` or `out`.
    Direction,
    /// `inet` or `inet6`.
    Family,
    /// `proto`.
    Protocol,
    /// The host after `from`.
    SourceHost,
    /// The host after `to`.
    DestinationHost,
    /// The ports after `from`.
    SourcePort,
    /// The ports after `to`.
    DestinationPort,
    /// `flags`.
    Flags,
}

/// Visits an item: compares what it asks with a packet, where `glance` is what a visit reads of it, and `name` the word of the packet's
/// interface. The answer is the first parameter that does not hold of the packet, or `None` where each that is given holds.
/// (pf.conf(5), PARAMETERS)
pub fn failing(
    glance: &Glance,
    what: &ItemKind,
    name: u64,
    tables: &Tables,
    packet: &Packet,
    visits: &mut Meter,
) -> Option<Parameter>
    requires kept { IsFilterKept (filter_of what.now) glance.now }
    requires name { IsWordOf packet.now.ifname name }
    requires visits { visits.old < 2 ^ 64 - 1 }
    ensures answer { MatchOption result (filter_holds tables.now.entries packet.now (filter_of what.now) ≡ true) (λ k. holds_at tables.now.entries packet.now k (filter_of what.now) ≡ false) }
    ensures first { result ≡ failing_at tables.now.entries packet.now (filter_of what.now) }
    ensures visit { visits.new ≡ visits.old + 1 }
{
    visits.tick();
    first_failing(glance, what, name, tables, packet)
}

/// Whether two items ask the same at a parameter: it is written the same in both, negation included.
pub fn ask_same(one: &ItemKind, two: &ItemKind, parameter: Parameter) -> bool
    ensures { IsTrue result ↔ IsSame parameter (filter_of one.now) (filter_of two.now) }
{
    let (one, two) = (filter_of(one), filter_of(two));
    match parameter {
        Parameter::Interface => one.on == two.on,
        Parameter::Direction => one.dir == two.dir,
        Parameter::Family => one.family == two.family,
        Parameter::Protocol => one.proto == two.proto,
        Parameter::SourceHost => one.from.host == two.from.host,
        Parameter::DestinationHost => one.to.host == two.to.host,
        Parameter::SourcePort => one.from.ports == two.from.ports,
        Parameter::DestinationPort => one.to.ports == two.to.ports,
        Parameter::Flags => same_test(one.flags, two.flags),
    }
}

/// What this rule or anchor asks.
pub fn filter_of(what: &ItemKind) -> &Filter
    ensures { result.now ≡ filter_of what.now }
{
    match what {
        ItemKind::Rule(rule) => &rule.filter,
        ItemKind::Anchor(anchor) => &anchor.filter,
    }
}

/// The first parameter that does not hold.
#[tactic(auto, unfolding(crate::specs::Parameters::failing_at))]
fn first_failing(
    glance: &Glance,
    what: &ItemKind,
    name: u64,
    tables: &Tables,
    packet: &Packet,
) -> Option<Parameter>
    requires kept { IsFilterKept (filter_of what.now) glance.now }
    requires name { IsWordOf packet.now.ifname name }
    ensures first { result ≡ failing_at tables.now.entries packet.now (filter_of what.now) }
    ensures answer { MatchOption result (filter_holds tables.now.entries packet.now (filter_of what.now) ≡ true) (λ k. holds_at tables.now.entries packet.now k (filter_of what.now) ≡ false) }
{
    if !on_holds(glance, what, name, packet) {
        return Some(Parameter::Interface);
    }
    if !dir_holds(glance.dir, packet.dir()) {
        return Some(Parameter::Direction);
    }
    if !family_holds(glance.family, packet.src(), packet.dst()) {
        return Some(Parameter::Family);
    }
    if !proto_holds(glance.proto, packet.proto()) {
        return Some(Parameter::Protocol);
    }
    if !source_holds(glance, what, tables, packet) {
        return Some(Parameter::SourceHost);
    }
    if !destination_holds(glance, what, tables, packet) {
        return Some(Parameter::DestinationHost);
    }
    if !ports_hold(glance.source_ports, packet.sport()) {
        return Some(Parameter::SourcePort);
    }
    if !ports_hold(glance.destination_ports, packet.dport()) {
        return Some(Parameter::DestinationPort);
    }
    if !all_flags_hold(glance, what, packet) {
        return Some(Parameter::Flags);
    }
    None
}

/// Whether what a rule asks of how a packet came holds, where this is the tag that it asks for; an anchor asks nothing of it. It is asked
/// only where each parameter holds, and is none of them: nothing is skipped for it.
pub fn came_to(what: &ItemKind, asked: Option<TagNo>, packet: &Packet) -> bool
    ensures { result ≡ came_to asked packet.now what.now }
{
    match what {
        ItemKind::Rule(rule) => {
            tagged_holds(&rule.came.tagged, asked, packet.tag())
                && received_on_holds(&rule.came.received_on, packet)
        }
        ItemKind::Anchor(_) => true,
    }
}

/// A tag that no rule gives is that of no packet.
fn tagged_holds(tagged: &Option<Tagged>, asked: Option<TagNo>, tag: Option<TagNo>) -> bool
    ensures { result ≡ tagged_holds asked tagged.now tag }
{
    match tagged {
        None => true,
        Some(tagged) => turned(tagged.negated, is_same_tag(asked, tag)),
    }
}

fn is_same_tag(asked: Option<TagNo>, tag: Option<TagNo>) -> bool
    ensures { result ≡ is_same_tag asked tag }
{
    match (asked, tag) {
        (Some(asked), Some(tag)) => asked.0 == tag.0,
        _ => false,
    }
}

fn received_on_holds(wanted: &Option<Interface>, packet: &Packet) -> bool
    ensures { result ≡ received_on_holds wanted.now (came_in_on packet.now) }
{
    match wanted {
        None => true,
        Some(wanted) => turned(
            wanted.negated,
            is_this_interface(&wanted.name, packet.came_in_on()),
        ),
    }
}

fn is_this_interface(name: &IfName, ifname: Option<IfName>) -> bool
    ensures { result ≡ is_this_interface name.now ifname }
{
    match ifname {
        None => false,
        Some(ifname) => *name == ifname,
    }
}

fn dir_holds(wanted: Option<Dir>, dir: Dir) -> bool
    ensures { result ≡ dir_holds wanted dir }
{
    wanted.is_none_or(|wanted| wanted == dir)
}

/// Whether the interface that an item asks for is the packet's, where this is the word of its name.
#[inline(always)]
fn on_holds(glance: &Glance, what: &ItemKind, name: u64, packet: &Packet) -> bool
    requires kept { IsOnKept (filter_of what.now).on glance.now.on glance.now.word }
    requires name { IsWordOf packet.now.ifname name }
    ensures { result ≡ interface_holds (filter_of what.now).on packet.now.ifname }
{
    match glance.on {
        OnKind::Any => true,
        OnKind::This => glance.word == name,
        OnKind::Other => glance.word != name,
        OnKind::Far => interface_holds(&filter_of(what).on, packet),
    }
}

/// The packet is asked: its name is compared in place and not copied for each item.
fn interface_holds(on: &Option<Interface>, packet: &Packet) -> bool
    ensures { result ≡ interface_holds on.now packet.now.ifname }
{
    match on {
        None => true,
        Some(interface) => turned(interface.negated, packet.is_on(&interface.name)),
    }
}

fn family_holds(family: Option<Family>, source: Addr, destination: Addr) -> bool
    ensures { result ≡ family_holds family source destination }
{
    match family {
        None => true,
        Some(Family::Inet) => !source.is_ipv6() && !destination.is_ipv6(),
        Some(Family::Inet6) => source.is_ipv6() && destination.is_ipv6(),
    }
}

fn proto_holds(wanted: Option<Proto>, proto: Proto) -> bool
    ensures { result ≡ proto_holds wanted proto }
{
    wanted.is_none_or(|wanted| wanted == proto)
}

/// The host after `from`. The packet's address is taken from it only where the host is not `any`.
#[inline(always)]
fn source_holds(glance: &Glance, what: &ItemKind, tables: &Tables, packet: &Packet) -> bool
    requires { glance.now.source ≡ near_host (filter_of what.now).from.host }
    ensures { result ≡ host_holds tables.now.entries (filter_of what.now).from.host packet.now.source.addr }
{
    match glance.source.kind {
        NearKind::Any => true,
        NearKind::Inet => inet_holds(glance.source, packet.src()),
        NearKind::Table => table_holds(tables, glance.source, packet.src()),
        NearKind::Far => host_holds(tables, &filter_of(what).from.host, packet.src()),
    }
}

/// The host after `to`, as `source_holds` says.
#[inline(always)]
fn destination_holds(glance: &Glance, what: &ItemKind, tables: &Tables, packet: &Packet) -> bool
    requires { glance.now.destination ≡ near_host (filter_of what.now).to.host }
    ensures { result ≡ host_holds tables.now.entries (filter_of what.now).to.host packet.now.destination.addr }
{
    match glance.destination.kind {
        NearKind::Any => true,
        NearKind::Inet => inet_holds(glance.destination, packet.dst()),
        NearKind::Table => table_holds(tables, glance.destination, packet.dst()),
        NearKind::Far => host_holds(tables, &filter_of(what).to.host, packet.dst()),
    }
}

/// A prefix of IPv4 that is kept in few bytes.
#[inline(always)]
fn inet_holds(near: Near, addr: Addr) -> bool
    requires { near.hidden ≤ 32 }
    ensures { result ≡ inet_holds near addr }
{
    match addr {
        Addr::V4(bytes) => turned(
            near.negated,
            first_of(near.word, near.hidden) == first_of(u32::from_be_bytes(bytes), near.hidden),
        ),
        Addr::V6(_) => false,
    }
}

/// A number without its last bits.
fn first_of(number: u32, hidden: u8) -> u64
    requires { hidden ≤ 32 }
    ensures { result ≡ number / 2 ^ hidden }
{
    u64::from(number) >> hidden
}

/// A table that is kept in few bytes.
#[inline(always)]
fn table_holds(tables: &Tables, near: Near, addr: Addr) -> bool
    ensures { result ≡ turned_if near.negated (table_answer tables.now.entries near.word addr) }
{
    turned(near.negated, tables.matches(TableNo(near.word), addr))
}

/// Inlined: an address is compared in place and not copied for each host.
#[inline(always)]
fn host_holds(tables: &Tables, host: &Host<TableNo>, addr: Addr) -> bool
    ensures { result ≡ host_holds tables.now.entries host.now addr }
{
    match *host {
        Host::Any => true,
        Host::Prefix { prefix, negated } => prefix_holds(&prefix, negated, addr),
        Host::Table { table, negated } => turned(negated, tables.matches(table, addr)),
    }
}

/// A prefix, also one with a `!`, holds of addresses of its own family alone.
fn prefix_holds(prefix: &Prefix, negated: bool, addr: Addr) -> bool
    ensures { result ≡ prefix_holds prefix.now negated addr }
{
    prefix.addr().same_family(addr) && turned(negated, prefix.contains(addr))
}

fn ports_hold(ports: Option<Ports>, port: u16) -> bool
    ensures { result ≡ ports_hold ports port }
{
    match ports {
        None => true,
        Some(ports) => ports.low <= port && port <= ports.high,
    }
}

/// The flags, which are read in the item where it asks for some.
fn all_flags_hold(glance: &Glance, what: &ItemKind, packet: &Packet) -> bool
    requires { glance.now.asks_flags ≡ asks_flags (filter_of what.now).flags }
    ensures { result ≡ flags_hold (filter_of what.now).flags packet.now.proto packet.now.flags }
{
    !glance.asks_flags || flags_hold(filter_of(what).flags, packet.proto(), packet.flags())
}

fn flags_hold(test: FlagTest, proto: Proto, flags: Flags) -> bool
    ensures { result ≡ flags_hold test proto flags }
{
    match (test, proto) {
        (FlagTest::Exactly { set, among }, Proto::Tcp) => same_flags(
            common_flags(flags, among),
            set,
        ),
        _ => true,
    }
}

fn same_flags(flags: Flags, set: Flags) -> bool
    ensures { result ≡ same_flags flags set }
{
    flags == set
}

/// Whether two tests of flags are written the same.
fn same_test(one: FlagTest, two: FlagTest) -> bool
    ensures { result ≡ same_test one two }
{
    match one {
        FlagTest::Any => matches!(two, FlagTest::Any),
        FlagTest::Exactly { set: a, among: b } => match two {
            FlagTest::Any => false,
            FlagTest::Exactly { set: c, among: d } => same_flags(a, c) && same_flags(b, d),
        },
    }
}

/// The flags that are in both sets.
fn common_flags(flags: Flags, among: Flags) -> Flags
    ensures { result ≡ common_flags flags among }
{
    Flags {
        fin: flags.fin && among.fin,
        syn: flags.syn && among.syn,
        rst: flags.rst && among.rst,
        psh: flags.psh && among.psh,
        ack: flags.ack && among.ack,
        urg: flags.urg && among.urg,
        ece: flags.ece && among.ece,
        cwr: flags.cwr && among.cwr,
    }
}

/// A test's answer, negated where a `!` is before it.
fn turned(negated: bool, holds: bool) -> bool
    ensures { result ≡ turned_if negated holds }
{
    holds != negated
}
