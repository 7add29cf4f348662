//! Which packets pf answers itself. (pf.conf(5), STATEFUL FILTERING, "synproxy state")

ghost use Rattle.std.specs.Prelude.{◌≡◌};
ghost use Rattle.pfs_store_contract.specs.Admission.{asks_in, is_answered};

use pfs_addr_values::{Dir, Packet, Proto};
use pfs_conf_values::{Config, RuleNo};

/// Whether pf answers a packet itself, in place of the server, where this rule lets it in and makes its state: at a rule with
/// `synproxy state` a SYN without ACK, of TCP, that comes in. It takes no memory.
/// (pf.conf(5), STATEFUL FILTERING, "synproxy state")
pub fn is_answered(config: &Config, rule: RuleNo, packet: &Packet) -> bool
    ensures { result ≡ is_answered config.now rule.0 packet.now }
{
    config.is_synproxy(rule) && asks_in(packet)
}

/// Whether a packet asks for a connection from outside: a SYN without ACK, of TCP, that comes in. It takes no memory.
/// (RFC 9293, section 3.5)
pub fn asks_in(packet: &Packet) -> bool
    ensures { result ≡ asks_in packet.now.dir packet.now.proto packet.now.flags }
{
    match (packet.dir(), packet.proto()) {
        (Dir::In, Proto::Tcp) => packet.flags().syn && !packet.flags().ack,
        _ => false,
    }
}
