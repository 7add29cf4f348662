//! What a visit reads of an item: a few words, one item's behind the other's, so that a walk over items that fail reads little.

ghost use Rattle.std.specs.Prelude.{◌≡◌, ◌==◌, ◌≤◌, IfOk, false, slice_index};
ghost use Rattle.std.specs.Int.{from_be_bytes, w32};
ghost use Rattle.pfs_addr_values.specs.declared.addresses.Addr.{Addr};
ghost use Rattle.pfs_eval.specs.Glances.{AreGlances, IsGlance, IsFilterKept, IsOnKept, IsWordOf, asks_flags, near_host, near_prefix, on_kind};
ghost use Rattle.pfs_eval.specs.Matching.{filter_of};

use crate::comparing::filter_of;
use crate::lines::Line;
use crate::skips::Skips;
use pfs_addr_values::{Addr, Dir, IfName, Prefix, Proto};
use pfs_conf_values::{Family, FlagTest, Host, Interface, Ports, TableNo};
use std::alloc::{AllocError, Global};
use std::mem::size_of;

/// How an interface is asked for.
#[derive(Clone, Copy)]
pub enum OnKind {
    /// None is.
    Any,
    /// The one whose name the word says.
    This,
    /// Any but that one.
    Other,
    /// One whose name is longer: the item has it.
    Far,
}

/// What kind of host is asked for.
#[derive(Clone, Copy)]
pub enum NearKind {
    /// `any`.
    Any,
    /// A prefix of IPv4.
    Inet,
    /// A table.
    Table,
    /// A prefix of IPv6: the item has it.
    Far,
}

/// A host that is asked for, in eight bytes.
#[derive(Clone, Copy)]
pub struct Near {
    /// What it is.
    pub kind: NearKind,
    /// Of a prefix, how many of its last bits don't count.
    pub hidden: u8,
    /// Whether a `!` is before it.
    pub negated: bool,
    /// The address of a prefix, or the number of a table.
    pub word: u32,
}

/// What a visit reads of an item. What does not fit is read in the item: an interface's name of more than seven bytes, a prefix of IPv6,
/// and the flags, which are asked of a packet of TCP where all else holds.
#[derive(Clone, Copy)]
pub struct Glance {
    /// The name of the interface, by its first seven bytes and its length.
    pub word: u64,
    /// The host after `from`.
    pub source: Near,
    /// The host after `to`.
    pub destination: Near,
    /// Where a walk goes on if one of the item's parameters fails.
    pub skips: Skips,
    /// The ports after `from`.
    pub source_ports: Option<Ports>,
    /// The ports after `to`.
    pub destination_ports: Option<Ports>,
    /// In or out.
    pub dir: Option<Dir>,
    /// The address family.
    pub family: Option<Family>,
    /// The protocol.
    pub proto: Option<Proto>,
    /// How the interface is asked for.
    pub on: OnKind,
    /// The number of anchors around the item.
    pub depth: u8,
    /// Whether the item asks for flags.
    pub asks_flags: bool,
}

// a line of a processor's cache
const _: () = prove!(size_of::<Glance>() == 64);

/// What a visit reads of each line.
pub fn glances(alloc: Global, lines: &[Line]) -> Result<Vec<Glance>, AllocError>
    ensures { IfOk result (λ v. AreGlances lines.now v.items) }
{
    let mut glances = Vec::with_capacity(alloc, lines.len())?;
    for place in 0..lines.len() {
        // not `push`, whose error would carry it
        glances.extend_from_slice(&[glance_of(&lines[place])])?;
    }
    Ok(glances)
}

/// What a visit reads of a line.
fn glance_of(line: &Line) -> Glance
    ensures { IsGlance line.now result }
{
    let filter = filter_of(&line.item.what);
    let (on, word) = kept_on(&filter.on);
    Glance {
        word,
        source: near_of(&filter.from.host),
        destination: near_of(&filter.to.host),
        skips: line.skips,
        source_ports: filter.from.ports,
        destination_ports: filter.to.ports,
        dir: filter.dir,
        family: filter.family,
        proto: filter.proto,
        on,
        depth: line.item.depth,
        asks_flags: asks_flags(filter.flags),
    }
}

/// What is kept of the interface that is asked for.
fn kept_on(on: &Option<Interface>) -> (OnKind, u64)
    ensures { IsOnKept on.now result.0 result.1 }
{
    match on {
        None => (OnKind::Any, 0),
        Some(interface) => (on_kind(interface), name_word(&interface.name)),
    }
}

fn on_kind(interface: &Interface) -> OnKind
    ensures { result ≡ on_kind interface.now }
{
    if interface.name.as_bytes().len() > 7 {
        OnKind::Far
    } else if interface.negated {
        OnKind::Other
    } else {
        OnKind::This
    }
}

/// The first seven bytes of a name, and its length.
pub fn name_word(name: &IfName) -> u64
    ensures { IsWordOf name.now result }
{
    let b = name.as_bytes();
    u64::from_le_bytes([
        at(b, 0),
        at(b, 1),
        at(b, 2),
        at(b, 3),
        at(b, 4),
        at(b, 5),
        at(b, 6),
        b.len().min(255) as u8,
    ])
}

/// The byte at a place, or 0.
fn at(bytes: &[u8], place: usize) -> u8
    ensures { result ≡ slice_index bytes.now place }
{
    match bytes.get(place) {
        Some(byte) => *byte,
        None => 0,
    }
}

/// What is kept of a host.
fn near_of(host: &Host<TableNo>) -> Near
    ensures { result ≡ near_host host.now }
{
    match host {
        Host::Any => Near {
            kind: NearKind::Any,
            hidden: 0,
            negated: false,
            word: 0,
        },
        Host::Prefix { prefix, negated } => near_prefix(prefix, *negated),
        Host::Table { table, negated } => Near {
            kind: NearKind::Table,
            hidden: 0,
            negated: *negated,
            word: table.0,
        },
    }
}

fn near_prefix(prefix: &Prefix, negated: bool) -> Near
    ensures { result ≡ near_prefix prefix.now.addr prefix.now.bits negated }
{
    match prefix.addr() {
        Addr::V4(bytes) => Near {
            kind: NearKind::Inet,
            hidden: 32 - prefix.bits(),
            negated,
            word: u32::from_be_bytes(bytes),
        },
        Addr::V6(_) => Near {
            kind: NearKind::Far,
            hidden: 0,
            negated,
            word: 0,
        },
    }
}

fn asks_flags(test: FlagTest) -> bool
    ensures { result ≡ asks_flags test }
{
    match test {
        FlagTest::Any => false,
        FlagTest::Exactly { .. } => true,
    }
}
