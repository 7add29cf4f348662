//! What a case is made of: rules, what comes, and what must come of it.

use pfs_addr_values::Addr;

/// What comes of a source.
#[derive(Debug, Clone, Copy)]
pub enum RowEvent {
    /// A UDP packet to this port of the server.
    Udp(u16),
    /// The first packet of a TCP handshake with port 80 of the server.
    Syn,
    /// The server's answer to it.
    SynAck,
    /// The third one.
    Ack,
    /// The end of what the source sends.
    Fin,
    /// A reset by the source.
    Reset,
    /// A whole handshake, whose state is one of this rule: the words are those for its third packet.
    Shake(u32),
    /// A record of no packet: ICMP.
    Ping,
    /// The entries of the first table, which is `<bad>`, leave that are so many seconds old.
    Expire(u64),
    /// An entry is added to the table of this name: `<bad>`, which is the first, or `<good>`, the second.
    Add(&'static str, &'static str),
    /// That very entry is taken out of such a table.
    Delete(&'static str, &'static str),
    /// The states are taken out that go from hosts of this prefix, to hosts of that one, or to any where it is empty.
    Kill(&'static str, &'static str),
    /// The administrator asks how much is held.
    Ask,
}

/// When, in seconds; what, of which source, from which of its ports; and what the report says of it, behind the number of its line.
pub type CaseRow = (u64, RowEvent, Addr, u16, &'static str);

/// Rules, what comes under them, and how many states, source nodes and entries are held in the end.
#[derive(Clone, Copy)]
pub struct Case {
    pub shows: &'static str,
    pub rules: &'static str,
    pub rows: &'static [CaseRow],
    pub end: (u64, u64, u64),
}
