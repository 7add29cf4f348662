//! What a rule or an anchor asks of a packet.

ghost use Rattle.std.specs.Prelude.{◌≡◌};
ghost use Rattle.pfs_conf_values.specs.Translations.{family_of, family_of_host, is_other};

use pfs_addr_values::{Addr, Dir, Flags, IfName, Name, Prefix, Proto};

/// The number of a table, from 0: tables are numbered by the first place in the text that names them.
#[derive(Debug, Clone, Copy, PartialEq, Eq, Hash)]
pub struct TableNo(pub u32);

/// The name of a table: 1 to 31 bytes. (pf.conf(5), TABLES)
pub type TableName = Name<31>;

/// An address family. (pf.conf(5), PARAMETERS, "inet" and "inet6")
#[derive(Debug, Clone, Copy, PartialEq, Eq, Hash)]
pub enum Family {
    /// `inet`: IPv4.
    Inet,
    /// `inet6`: IPv6.
    Inet6,
}

impl Family {
    /// The family of an address.
    pub fn of(addr: Addr) -> Family
        ensures { result ≡ family_of addr }
    {
        match addr {
            Addr::V4(_) => Family::Inet,
            Addr::V6(_) => Family::Inet6,
        }
    }

    /// Whether a family is given, and is the other one.
    pub fn is_other(self, given: Option<Family>) -> bool
        ensures { result ≡ is_other self given }
    {
        match (self, given) {
            (Family::Inet, Some(Family::Inet6)) | (Family::Inet6, Some(Family::Inet)) => true,
            _ => false,
        }
    }
}

/// `on em0`, or `on ! em0`: the interface that a packet must, or must not, be on. (pf.conf(5), PARAMETERS, "on")
#[derive(Debug, Clone, Copy, PartialEq, Eq, Hash)]
pub struct Interface {
    /// The name that is written.
    pub name: IfName,
    /// Whether a `!` is before it.
    pub negated: bool,
}

/// A host of a rule. `T` names a table: `TableNo` in a configuration, `TableName` in a statement that is being read.
/// (pf.conf(5), PARAMETERS, "from .. to")
#[derive(Debug, Clone, Copy, PartialEq, Eq, Hash)]
pub enum Host<T> {
    /// `any`: every address.
    Any,
    /// The addresses that a prefix covers, or with `!` the others of its family.
    Prefix {
        /// The prefix.
        prefix: Prefix,
        /// Whether a `!` is before it.
        negated: bool,
    },
    /// The addresses for which a table answers yes, or with `!` the others.
    Table {
        /// The table.
        table: T,
        /// Whether a `!` is before it.
        negated: bool,
    },
}

impl<T> Host<T> {
    /// The family of a host that is a prefix, also with a `!`. Another host may have addresses of both.
    pub fn family(&self) -> Option<Family>
        ensures { result ≡ family_of_host self.now }
    {
        match self {
            Host::Prefix { prefix, .. } => Some(Family::of(prefix.addr())),
            Host::Any | Host::Table { .. } => None,
        }
    }
}

/// The ports from `low` to `high`, both included.
#[derive(Debug, Clone, Copy, PartialEq, Eq, Hash)]
pub struct Ports {
    /// The least port.
    pub low: u16,
    /// The greatest port, at least the least.
    pub high: u16,
}

/// A host with its ports, as written after `from` or `to`.
#[derive(Debug, Clone, Copy, PartialEq, Eq, Hash)]
pub struct Side<T> {
    /// The addresses.
    pub host: Host<T>,
    /// The ports, or every port.
    pub ports: Option<Ports>,
}

/// `flags a/b`, or `flags any`. It is tested on TCP packets alone. (pf.conf(5), PARAMETERS, "flags")
#[derive(Debug, Clone, Copy, PartialEq, Eq, Hash)]
pub enum FlagTest {
    /// Every set of flags.
    Any,
    /// Of the flags `among`, exactly those of `set`.
    Exactly {
        /// The flags that must be set.
        set: Flags,
        /// The flags that are looked at.
        among: Flags,
    },
}

/// The name of a tag: 1 to 63 bytes. (pf.conf(5), PARAMETERS, "tag")
pub type TagName = Name<63>;

/// `tagged NAME`, or `! tagged NAME`: the tag that a packet must, or must not, have. (pf.conf(5), PARAMETERS, "tagged")
#[derive(Debug, Clone, Copy, PartialEq, Eq, Hash)]
pub struct Tagged {
    /// The tag.
    pub name: TagName,
    /// Whether a `!` is before it.
    pub negated: bool,
}

/// What a rule asks of how a packet came: each part that is given has to hold. An anchor asks nothing of it.
#[derive(Debug, Clone, Copy, PartialEq, Eq, Hash)]
pub struct Came {
    /// The tag that rules before it, or those of the interface by which it came, gave it.
    pub tagged: Option<Tagged>,
    /// The interface on which it came in. (pf.conf(5), PARAMETERS, "received-on")
    pub received_on: Option<Interface>,
}

/// What is asked of a packet: each part that is given has to hold.
#[derive(Debug, Clone, Copy, PartialEq, Eq, Hash)]
pub struct Filter {
    /// In or out.
    pub dir: Option<Dir>,
    /// The interface.
    pub on: Option<Interface>,
    /// The address family.
    pub family: Option<Family>,
    /// The protocol.
    pub proto: Option<Proto>,
    /// Source address and port.
    pub from: Side<TableNo>,
    /// Destination address and port.
    pub to: Side<TableNo>,
    /// TCP flags.
    pub flags: FlagTest,
}
