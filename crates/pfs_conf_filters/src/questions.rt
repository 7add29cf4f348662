//! What is asked of parameters that have been read.

ghost use Rattle.std.specs.Prelude.{◌≡◌};
ghost use Rattle.pfs_conf_filters.specs.Sides.{source_of, destination_of, gives_ports, lacks_proto};
ghost use Rattle.pfs_conf_filters.specs.Grammar.{may_translate, statement_of, takes_state};
ghost use Rattle.pfs_conf_filters.specs.Repeats.{repeats, repeats_policy, repeats_translation, says_nat_ports, says_rdr_port};

use crate::phrases::{Hosts, Parameters, Statement, Verb};
use pfs_conf_tokens::Key;
use pfs_conf_values::{Host, NatPorts, NatTo, RdrTo, Side, TableName, Translation};

const ANY: Side<TableName> = Side {
    host: Host::Any,
    ports: None,
};

impl Hosts {
    /// The side after `from`: any host at any port where it is not given.
    pub fn source(&self) -> Side<TableName>
        ensures { result ≡ source_of self.now }
    {
        self.from.unwrap_or(ANY)
    }

    /// The side after `to`: any host at any port where it is not given.
    pub fn destination(&self) -> Side<TableName>
        ensures { result ≡ destination_of self.now }
    {
        self.to.unwrap_or(ANY)
    }

    fn give_ports(&self) -> bool
        ensures { result ≡ gives_ports self.now }
    {
        self.source().ports.is_some() || self.destination().ports.is_some()
    }
}

impl Parameters {
    /// Whether a port is given without `proto tcp` or `proto udp`, by name or by number, in the same statement: nothing
    /// is taken over from an anchor around it. (pf.conf(5), PARAMETERS, "port")
    pub fn lack_proto(&self) -> bool
        ensures { result ≡ lacks_proto self.now }
    {
        let has_ports = match self.head.proto {
            Some(proto) => proto.has_ports(),
            None => false,
        };
        self.hosts.give_ports() && !has_ports
    }

    /// Whether this word begins a part that these parameters have already. Where no statement continues with it, it is
    /// then reported as repeated. `in` and `out` begin one part, and so do `inet` and `inet6`; `port` repeats the ports
    /// of either side. (own to this profile)
    pub fn have(&self, key: Key) -> bool
        ensures { result ≡ repeats self.now key }
    {
        match key {
            Key::In | Key::Out => self.head.dir.is_some(),
            Key::Log => self.head.marks.log,
            Key::Quick => self.head.marks.quick,
            Key::On => self.head.on.is_some(),
            Key::Inet | Key::Inet6 => self.head.family.is_some(),
            Key::Proto => self.head.proto.is_some(),
            Key::All => self.hosts.all,
            Key::From => self.hosts.from.is_some(),
            Key::To => self.hosts.to.is_some(),
            Key::Port => self.hosts.give_ports(),
            _ => false,
        }
    }
}

impl Verb {
    /// What the parameters that follow belong to.
    pub fn statement(self) -> Statement
        ensures { result ≡ statement_of self }
    {
        match self {
            Verb::Pass | Verb::Block { .. } => Statement::Rule,
            Verb::Match => Statement::Match,
        }
    }

    /// Whether a state clause may follow: a `match` rule has none.
    pub fn takes_state(self) -> bool
        ensures { result ≡ takes_state self }
    {
        match self {
            Verb::Pass | Verb::Block { .. } => true,
            Verb::Match => false,
        }
    }

    /// Whether a translation may follow: a `block` rule has none.
    pub fn may_translate(self) -> bool
        ensures { result ≡ may_translate self }
    {
        match self {
            Verb::Pass | Verb::Match => true,
            Verb::Block { .. } => false,
        }
    }

    /// Whether this word says once more how packets are blocked: `drop` or one of `return`, `return-rst`, `return-icmp`
    /// and `return-icmp6` where one of them is given already. (own to this profile)
    pub fn has(self, key: Key) -> bool
        ensures { result ≡ repeats_policy self key }
    {
        match (self, key) {
            (
                Verb::Block { has_policy },
                Key::Drop | Key::Return | Key::ReturnRst | Key::ReturnIcmp | Key::ReturnIcmp6,
            ) => has_policy,
            _ => false,
        }
    }
}

/// Whether this word says once more to which ports a rule translates: `port` where `nat-to` or `rdr-to` has one, or `nat-to` has
/// `static-port`; and `static-port` where `nat-to` has it, or ports. (own to this profile)
pub fn repeats_translation(translation: &Translation, key: Key) -> bool
    ensures { result ≡ repeats_translation translation.now key }
{
    match key {
        Key::Port => says_nat_ports(translation.nat_to) || says_rdr_port(translation.rdr_to),
        Key::StaticPort => says_nat_ports(translation.nat_to),
        _ => false,
    }
}

fn says_nat_ports(nat_to: Option<NatTo>) -> bool
    ensures { result ≡ says_nat_ports nat_to }
{
    match nat_to {
        None => false,
        Some(nat_to) => match nat_to.ports {
            NatPorts::Usual => false,
            NatPorts::Given(_) | NatPorts::Static => true,
        },
    }
}

fn says_rdr_port(rdr_to: Option<RdrTo>) -> bool
    ensures { result ≡ says_rdr_port rdr_to }
{
    match rdr_to {
        None => false,
        Some(rdr_to) => rdr_to.port.is_some(),
    }
}
