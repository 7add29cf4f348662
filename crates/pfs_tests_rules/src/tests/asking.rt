//! The rules of a configuration, asked about packets.

use pfs_addr_values::{Meter, Packet};
use pfs_conf::{Config, RuleNo};
use pfs_eval::{CompiledRuleset, NoSides, Sides, Tables};
use std::alloc::Global;
use std::test::Fail;

/// What rules make of a packet.
#[derive(Drop)]
pub struct Decided {
    /// The rule that decides, if one does.
    pub rule: Option<RuleNo>,
    /// The packet as the rules leave it.
    pub packet: Packet,
    /// The rule that loses it, if one does.
    pub lost: Option<RuleNo>,
}

/// Rules, ready to be asked.
#[derive(Drop)]
pub struct Rules {
    tables: Tables,
    compiled: CompiledRuleset,
}

impl Rules {
    /// The rules of a configuration, with its tables.
    pub fn of(alloc: Global, config: &Config) -> Result<Rules, Fail> {
        Ok(Rules {
            tables: Tables::new(alloc, config)?,
            compiled: CompiledRuleset::new(alloc, config)?,
        })
    }

    /// What the rules make of a packet where no key is taken, and the number of visits.
    pub fn decide(&self, packet: &Packet) -> (Decided, u64) {
        self.decide_over(&NoSides, packet)
    }

    /// What the rules make of a packet over these keys, and the number of visits.
    pub fn decide_over<S: Sides>(&self, sides: &S, packet: &Packet) -> (Decided, u64) {
        let mut visits = Meter::new();
        let mut packet = *packet;
        let decision = self
            .compiled
            .decide(&self.tables, sides, &mut packet, &mut visits);
        let decided = Decided {
            rule: decision.rule,
            packet,
            lost: decision.lost,
        };
        (decided, visits.count())
    }

    /// The rule that decides on a packet, and the number of visits.
    pub fn ask(&self, packet: &Packet) -> (Option<RuleNo>, u64) {
        let (decision, visits) = self.decide(packet);
        (decision.rule, visits)
    }
}
