//! Protocols by number.

ghost use Rattle.std.specs.Prelude.{◌≡◌};
ghost use Rattle.pfs_addr_values.specs.Protocols.{proto_of, number_of_proto, has_ports, is_icmp};

use std::marker::Model;

/// The number of a protocol that is neither TCP (6) nor UDP (17). Clauses see the number.
#[derive(Debug, Clone, Copy, PartialEq, Eq, Hash)]
pub struct OtherProto {
    number: u8,
}

impl Model for OtherProto {
    ghost use Rattle.std.specs.Prelude.{ℕ, ◌≢◌};

    ghost Value = { ℕ };

    ghost view = { λ p. p.number };

    ghost invariant = { λ p. (p.number ≢ 6) × (p.number ≢ 17) };

    ghost inverse = { λ n. record { number = n } };
}

/// A protocol over IP. Only TCP and UDP have ports. (RFC 791, section 3.1, "Protocol")
#[derive(Debug, Clone, Copy, PartialEq, Eq, Hash)]
pub enum Proto {
    /// Protocol 6.
    Tcp,
    /// Protocol 17.
    Udp,
    /// Every other protocol, by its number.
    Other(OtherProto),
}

impl Proto {
    /// The protocol of this number: 6 is `Tcp`, 17 is `Udp`, and any other is `Other`.
    pub fn from_number(number: u8) -> Proto
        ensures { result ≡ proto_of number }
    {
        match number {
            6 => Proto::Tcp,
            17 => Proto::Udp,
            _ => Proto::Other(OtherProto { number }),
        }
    }

    /// The number of the protocol.
    pub fn number(self) -> u8
        ensures { result ≡ number_of_proto self }
    {
        match self {
            Proto::Tcp => 6,
            Proto::Udp => 17,
            Proto::Other(other) => other.number,
        }
    }

    /// Whether packets of the protocol have ports: TCP and UDP do.
    pub fn has_ports(self) -> bool
        ensures { result ≡ has_ports self }
    {
        match self {
            Proto::Tcp | Proto::Udp => true,
            Proto::Other(_) => false,
        }
    }
    /// Whether the protocol is ICMP (1) or ICMPv6 (58).
    pub fn is_icmp(self) -> bool
        ensures { result ≡ is_icmp self }
    {
        matches!(self.number(), 1 | 58)
    }
}
