//! What comes, and what the machine does with it.

use pfs_addr_values::Packet;
use pfs_conf_values::{RuleNo, TableNo};
use pfs_eval::{Added, Entered, TableEntry};
use pfs_store_contract::{FromTo, Limit};

/// What comes at a moment.
#[derive(Clone, Copy, Debug, PartialEq, Eq)]
pub enum Arrival {
    /// A packet.
    Packet(Packet),
    /// A record that no state is made of: ICMP or ICMPv6, of which a trace does not say enough.
    Skip,
    /// The administrator does something to a table. (pfctl(8), "-T")
    Table {
        /// The table: one that the text names, and not `const`.
        table: TableNo,
        /// What is done.
        command: Command,
    },
    /// The administrator takes out the states that go from hosts to hosts. (pfctl(8), "-k")
    Kill(FromTo),
    /// The administrator asks how much is held. (pfctl(8), "-si")
    HeldQuery,
}

/// What an administrator does to a table. (pfctl(8), "-T")
#[derive(Clone, Copy, Debug, PartialEq, Eq)]
pub enum Command {
    /// The entries leave that are so many seconds old: 0 to 4294967295. ("-T expire")
    Expire(u64),
    /// An entry is added. ("-T add")
    Add(TableEntry),
    /// That very entry is taken out. ("-T delete")
    Delete(TableEntry),
}

/// What comes, and when.
#[derive(Clone, Copy, Debug, PartialEq, Eq)]
pub struct Event {
    /// The moment, in whole seconds: 0 to 4294967295.
    pub time: u64,
    /// What comes.
    pub what: Arrival,
}

/// Which limits on connections a completed handshake exceeded. (pf.conf(5), STATEFUL TRACKING OPTIONS)
#[derive(Clone, Copy, Debug, PartialEq, Eq)]
pub enum Exceeded {
    /// `max-src-conn` alone.
    Connections,
    /// `max-src-conn-rate` alone.
    Rate,
    /// Both.
    Both,
}

/// What the machine did with an event. (pf.conf(5), STATEFUL FILTERING and STATEFUL TRACKING OPTIONS)
#[derive(Clone, Copy, Debug, PartialEq, Eq)]
pub enum Outcome {
    /// The packet is one of a held state of this rule.
    State(RuleNo),
    /// The rule passed the packet and made a state.
    New(RuleNo),
    /// The rule passed the packet and made a state, and pf answered it itself, so that it goes no further. ("synproxy state", or
    /// where the packet brought back a SYN cookie)
    Answered(RuleNo),
    /// The packet is one of a held state of this rule, and pf took it itself, so that it goes no further. ("synproxy state")
    Taken(RuleNo),
    /// The packet is one of a held state of this rule, whose maker's handshake with pf is complete. pf took it itself, and asks the
    /// other peer for a connection by a SYN of its own. ("synproxy state", and "set syncookies")
    Asking(RuleNo),
    /// The packet passed without a state, by this rule or by none.
    Pass(Option<RuleNo>),
    /// The packet asked for a connection, and pf answered it by a SYN cookie. Nothing is held of it but the cookie: neither states
    /// nor rules were looked at. ("set syncookies")
    Cookie,
    /// The packet brought back a SYN cookie, but no rule, or this one, passes a SYN of its key without a state. So it goes no
    /// further, since no other host knows of its connection. ("set syncookies")
    Stateless(Option<RuleNo>),
    /// The rule blocked the packet.
    Block(RuleNo),
    /// The rule's `nat-to` found no port whose key is free, so that the packet was dropped. (pf.conf(5), TRANSLATION)
    Lost(RuleNo),
    /// The rule passed the packet, and its state was refused for this limit.
    Drop(RuleNo, Limit),
    /// The rule passed the packet, and no limit was met, but another state has a key of its state, on the wire or inside.
    /// (pf of OpenBSD counts it as "state-insert")
    Conflict(RuleNo),
    /// The packet completed a handshake past a limit of the rule, and states were killed.
    Kill {
        /// The rule of the state.
        rule: RuleNo,
        /// The limits that were exceeded.
        exceeded: Exceeded,
        /// What became of the source in the rule's overload table; none where the rule has none.
        overload: Option<Added>,
        /// How many states were killed.
        killed: u64,
    },
    /// A record that no state is made of.
    Skip,
    /// So many entries left their table, since they were old.
    Expire(u64),
    /// What became of an entry that was to be added.
    Add(Entered),
    /// So many entries were taken out: the one that was named, or none.
    Delete(u64),
    /// So many states were taken out: those that go from hosts to hosts.
    Killed(u64),
    /// How much is held.
    HeldAnswer(Amounts),
}

/// What the machine did with a record: with its packet where it is asked first, and, if it goes on from there, where it leaves.
#[derive(Clone, Copy, Debug, PartialEq, Eq)]
pub struct Way {
    /// What was done first.
    pub first: Outcome,
    /// What was done where the packet leaves; none where the first was the end of its way, or where it is for the firewall itself.
    pub second: Option<Outcome>,
}

/// How much a machine holds.
#[derive(Clone, Copy, Debug, PartialEq, Eq)]
pub struct Amounts {
    /// The states.
    pub states: u64,
    /// The source nodes, those without states too.
    pub nodes: u64,
    /// The entries that all tables have.
    pub entries: u64,
}
