//! What every kind of store does: the changes of the states and source nodes that it holds.

ghost use Rattle.std.specs.Prelude.{◌≡◌, ◌+◌, ◌<◌, ◌≤◌, ◌^◌, Bool, false, true, None, Some, IfOk, IfSome, IsOk, IsSome, OnErr, OnOk, length, option_map};
ghost use Rattle.std.specs.Option.{option_and_then};
ghost use Rattle.pfs_addr_values.specs.Packets.{run_limit};
ghost use Rattle.pfs_conf_values.specs.Configs.{Conf, options_at};
ghost use Rattle.pfs_track.specs.StatePhases.{has_closed};
ghost use Rattle.pfs_store_contract.specs.Admission.{key_inside, limit_met, wire_key, world_after_admission};
ghost use Rattle.pfs_store_contract.specs.Calls.{IsAskedFree, IsFreeRefusal, answer_at, flushed_count, from_to_count, node_slice_of, onward_key, packet_limit, renewal_of, source_states, state_number, state_rule, state_slice_of, touch_of, world_asked, world_at, world_elsewhere, world_flushed, world_killed, world_touched};
ghost use Rattle.pfs_store_contract.specs.Counts.{half_open};
ghost use Rattle.pfs_store_contract.specs.Purging.{node_slice, state_slice};
ghost use Rattle.pfs_store_contract.specs.Seconds.{purged_of, seconds, world_after_purges};
ghost use Rattle.pfs_store_contract.specs.Worlds.{IsUpToNow, World, holds_number, state_inside, state_numbered, state_with};
ghost use Rattle.pfs_store_contract.specs.declared.records.StateHandle.{StateHandle};
ghost use Rattle.pfs_store_contract.specs.declared.records.State.{State};

use crate::kills::FromTo;
use crate::records::{Limit, Purged, Slice, StateHandle, StateNo, Touched};
use pfs_addr_values::{Addr, Dir, FlowKey, Meter, NoMemory, Packet};
use pfs_conf_values::RuleNo;

/// States and source nodes, however they are kept.
///
/// Clauses see what is held as one `World`, and each change as an equation of the world after it. Moments are in
/// seconds. A look is one reading of a state's record, and in the slices of source nodes one of a node's record. A kind of store that
/// counts looks ticks the meter at each; every other kind leaves the meter alone. Only `admit` takes memory.
pub trait Store {
    // what is held
    ghost world: { Self → World };

    // the configuration that it was made for
    ghost config: { Self → Conf };

    // whether this kind of store counts looks
    ghost counts: { Bool };

    // whether the state that was found is still reached by what was said of it
    ghost reaches: { Self → StateHandle → Bool };

    /// The state that has this key on the wire: its number, its rule, and by what it is reached. It looks at no record.
    fn find(&self, key: &FlowKey) -> Option<StateHandle>
        ensures number { option_map (λ f. f.number) result ≡ option_map state_number (state_with key.now (world self.now)) }
        ensures rule { option_map (λ f. f.rule) result ≡ option_map state_rule (state_with key.now (world self.now)) }
        ensures reached { IfSome result (λ f. reaches self.now f ≡ true) };

    /// The state that has this key inside. It looks at no record. (pf.conf(5), TRANSLATION)
    fn find_inside(&self, key: &FlowKey) -> Option<StateHandle>
        ensures number { option_map (λ f. f.number) result ≡ option_map state_number (state_inside key.now (world self.now)) }
        ensures rule { option_map (λ f. f.rule) result ≡ option_map state_rule (state_inside key.now (world self.now)) }
        ensures reached { IfSome result (λ f. reaches self.now f ≡ true) };

    /// The key with which packets of this direction go on, of the state that was found, where it is another than that with which they
    /// come. It looks at no record. (pf.conf(5), TRANSLATION)
    fn onward_key(&self, found: StateHandle, dir: Dir) -> Option<FlowKey>
        requires reached { reaches self.now found ≡ true }
        ensures { result ≡ option_and_then (onward_key dir) (state_numbered found.number.0 (world self.now)) };

    /// Whether a state of this number is held. It looks at no record.
    fn holds(&self, number: StateNo) -> bool
        ensures { result ≡ holds_number (world self.now).states number.0 };

    /// How many states are held.
    fn state_count(&self) -> u64
        ensures { result ≡ length (world self.now).states };

    /// How many states are half open: of TCP, the maker above CLOSED and below ESTABLISHED; not those whose handshakes pf leads. It
    /// looks at no record and takes no memory. (pf.conf(5), OPTIONS, "set syncookies")
    fn half_open_count(&self) -> u64
        ensures { result ≡ half_open (world self.now).states };

    /// How many source nodes are held, those without states too.
    fn node_count(&self) -> u64
        ensures { result ≡ length (world self.now).nodes };

    /// How many numbers were used: one for each state that was made, and one for each source node that a refusal left.
    fn made(&self) -> u64
        ensures { result ≡ (world self.now).made };

    /// Asks for a state of a source at a rule that keeps state, and makes none. It returns the first limit that the state would
    /// meet: `max`; for a source without a node `max-src-nodes` and the limit of source nodes; for one with a node `max-src-states`; the
    /// limit of states. Under the profile of OpenBSD 7.4 `max` is asked behind those of the source.
    ///
    /// What is held stays, but for one case: where `max` refuses under that profile, and the rule tracks sources and the source has no
    /// node in its scope, a node is made and stays, which may leave from `now` on. Memory is taken for that node alone; `NoMemory` where
    /// it was refused, and then nothing changes. Fewer than 2,000,000,000 numbers were used before. It looks at no record.
    /// (pf.conf(5), OPTIONS, "set limit", and STATEFUL TRACKING OPTIONS; the order of the limits is own, and likely OpenBSD's)
    fn meet_limit(
        &mut self,
        source: Addr,
        rule: RuleNo,
        now: u64,
    ) -> Result<Option<Limit>, NoMemory>
        requires keeps { IsSome (options_at (config self.old) rule.0) }
        requires room { (world self.old).made < run_limit }
        ensures answer { IfOk result (λ l. l ≡ limit_met (config self.old) (world self.old) rule.0 source) }
        ensures ok { OnOk result (world self.new
            ≡ world_asked (config self.old) (world self.old) source rule.0 now (limit_met (config self.old) (world self.old) rule.0 source)) }
        ensures err { OnErr result (world self.new ≡ world self.old) }
        ensures no_memory { IsAskedFree (config self.old) (world self.old) source rule.0
            (limit_met (config self.old) (world self.old) rule.0 source) → IsOk result }
        ensures config { config self.new ≡ config self.old };

    /// Makes a state for a packet, which goes on as another, at a rule that keeps state, whatever limits it meets: no state has its key on
    /// the wire, and none its key inside. The state keeps the tag with which the packet goes on. Where the rule has `synproxy state`, and
    /// the packet is a SYN without ACK of TCP that comes in, pf leads the handshakes of the state. Where the packet brings a `cookie` of
    /// pf, pf's handshake with its maker is complete, and never counts. It makes a source node with it where the rule tracks sources and
    /// the source, which is that of the packet as it comes, has none in its scope. It returns the number of the state.
    ///
    /// `NoMemory` where memory for a state or a node was refused; then what is held is unchanged. Fewer than 2,000,000,000 numbers
    /// were used before. It looks at no record. (pf.conf(5), STATEFUL FILTERING, STATEFUL TRACKING OPTIONS and TRANSLATION)
    fn make(
        &mut self,
        packet: &Packet,
        going: &Packet,
        rule: RuleNo,
        cookie: bool,
        now: u64,
    ) -> Result<StateNo, NoMemory>
        requires fresh { state_with (wire_key packet.now going.now) (world self.old) ≡ None }
        requires fresh_inside { state_inside (key_inside packet.now going.now) (world self.old) ≡ None }
        requires keeps { IsSome (options_at (config self.old) rule.0) }
        requires room { (world self.old).made < run_limit }
        ensures number { IfOk result (λ n. n.0 ≡ (world self.old).made + 1) }
        ensures ok { OnOk result (world self.new
            ≡ world_after_admission (config self.old) (world self.old) packet.now going.now rule.0 cookie now) }
        ensures err { OnErr result (world self.new ≡ world self.old) }
        ensures config { config self.new ≡ config self.old };

    /// Asks for a state for a packet as `meet_limit` does, and where no limit is met makes it as `make` does. It returns the number of the
    /// state, or the limit. Where a limit is met memory is taken for the node alone that the refusal leaves.
    #[tactic(auto, using(crate::proofs::AskingLaws::refused_free))]
    fn admit(
        &mut self,
        packet: &Packet,
        going: &Packet,
        rule: RuleNo,
        cookie: bool,
        now: u64,
    ) -> Result<Result<StateNo, Limit>, NoMemory>
        requires fresh { state_with (wire_key packet.now going.now) (world self.old) ≡ None }
        requires fresh_inside { state_inside (key_inside packet.now going.now) (world self.old) ≡ None }
        requires keeps { IsSome (options_at (config self.old) rule.0) }
        requires room { (world self.old).made < run_limit }
        ensures answer { IfOk result (λ a.
            a ≡ answer_at (world self.old) (packet_limit (config self.old) (world self.old) packet.now rule.0)) }
        ensures ok { IfOk result (λ a. world self.new
            ≡ world_at (config self.old) (world self.old) packet.now going.now rule.0 cookie now
            (packet_limit (config self.old) (world self.old) packet.now rule.0)) }
        ensures err { OnErr result (world self.new ≡ world self.old) }
        ensures no_memory { IsFreeRefusal (config self.old) (world self.old) packet.now rule.0
            (packet_limit (config self.old) (world self.old) packet.now rule.0) → IsOk result }
        ensures config { config self.new ≡ config self.old }
    {
        match self.meet_limit(packet.src(), rule, now)? {
            Some(limit) => Ok(Err(limit)),
            None => match self.make(packet, going, rule, cookie, now) {
                Ok(number) => Ok(Ok(number)),
                Err(refused) => Err(refused),
            },
        }
    }

    /// Takes a packet of the state that was found: the state's phase is renewed, and the moment of its last packet unless
    /// pf takes this one itself; and where the handshake completes at a rule that tracks sources and has `max-src-conn-rate`, the score of its source's
    /// node. No handshake that a score counts came after `now`. It looks at one record, and the state is still reached.
    /// (pf.conf(5), STATEFUL TRACKING OPTIONS; the table of phases and the score are own to this profile)
    fn touch(&mut self, found: StateHandle, packet: &Packet, now: u64, meter: &mut Meter) -> Touched
        requires held { holds_number (world self.old).states found.number.0 ≡ true }
        requires reached { reaches self.old found ≡ true }
        requires order { IsUpToNow now (world self.old) }
        requires meter { meter.old ≤ 2 ^ 63 }
        ensures answer { Some result
            ≡ option_map (touch_of (config self.old) (world self.old) packet.now now) (state_numbered found.number.0 (world self.old)) }
        ensures world { world self.new
            ≡ world_touched (config self.old) (world self.old) packet.now now (state_numbered found.number.0 (world self.old)) }
        ensures reached { reaches self.new found ≡ true }
        ensures looks { counts ≡ true → meter.new ≡ meter.old + 1 }
        ensures uncounted { counts ≡ false → meter.new ≡ meter.old }
        ensures most { meter.new ≤ meter.old + run_limit }
        ensures config { config self.new ≡ config self.old };

    /// Takes a packet as `touch` does. Where the handshake does not complete it need not look for the source's node: it tells no
    /// connections then, and the score 0 at moment 0. (own)
    fn renew(&mut self, found: StateHandle, packet: &Packet, now: u64, meter: &mut Meter) -> Touched
        requires held { holds_number (world self.old).states found.number.0 ≡ true }
        requires reached { reaches self.old found ≡ true }
        requires order { IsUpToNow now (world self.old) }
        requires meter { meter.old ≤ 2 ^ 63 }
        ensures answer { Some result
            ≡ option_map (renewal_of (config self.old) (world self.old) packet.now now) (state_numbered found.number.0 (world self.old)) }
        ensures world { world self.new
            ≡ world_touched (config self.old) (world self.old) packet.now now (state_numbered found.number.0 (world self.old)) }
        ensures reached { reaches self.new found ≡ true }
        ensures looks { counts ≡ true → meter.new ≡ meter.old + 1 }
        ensures uncounted { counts ≡ false → meter.new ≡ meter.old }
        ensures most { meter.new ≤ meter.old + run_limit }
        ensures config { config self.new ≡ config self.old }
    {
        self.touch(found, packet, now, meter).told_where_completed()
    }

    /// Whether both peers of the state that was found have closed their connection, or it was reset. It looks at one record.
    fn has_closed(&self, found: StateHandle, meter: &mut Meter) -> bool
        requires held { holds_number (world self.now).states found.number.0 ≡ true }
        requires reached { reaches self.now found ≡ true }
        requires meter { meter.old ≤ 2 ^ 63 }
        ensures answer { Some result ≡ option_map (λ (s : State). has_closed s.phase) (state_numbered found.number.0 (world self.now)) }
        ensures looks { counts ≡ true → meter.new ≡ meter.old + 1 }
        ensures uncounted { counts ≡ false → meter.new ≡ meter.old }
        ensures most { meter.new ≤ meter.old + run_limit };

    /// Takes out the state that was found. A node that loses its last state is kept for its retention from `now` on. It looks at
    /// one record.
    fn kill(&mut self, found: StateHandle, now: u64, meter: &mut Meter)
        requires reached { reaches self.old found ≡ true }
        requires moment { now ≤ 2 ^ 63 }
        requires meter { meter.old ≤ 2 ^ 63 }
        ensures world { world self.new ≡ world_killed (config self.old) (world self.old) found.number.0 now }
        ensures looks { counts ≡ true → meter.new ≡ meter.old + 1 }
        ensures uncounted { counts ≡ false → meter.new ≡ meter.old }
        ensures most { meter.new ≤ meter.old + run_limit }
        ensures config { config self.new ≡ config self.old };

    /// Takes out the states of a source, all of them or those of one rule, and returns how many they are: those that it made; under
    /// the profile of OpenBSD 7.4 those whose key has it at the end from which packets of this direction come. A node that
    /// loses its last state is kept for its retention from `now` on. It looks at each record that leaves, and at no more than one
    /// for each state of the source. (pf.conf(5), STATEFUL TRACKING OPTIONS, "flush")
    fn flush(
        &mut self,
        dir: Dir,
        source: Addr,
        rule: Option<RuleNo>,
        now: u64,
        meter: &mut Meter,
    ) -> u64
        requires moment { now ≤ 2 ^ 63 }
        requires meter { meter.old ≤ 2 ^ 63 }
        ensures answer { result ≡ flushed_count (config self.old).profile (world self.old) dir source rule }
        ensures world { world self.new ≡ world_flushed (config self.old) (world self.old) dir source rule now }
        ensures looks { counts ≡ true → meter.old + result ≤ meter.new }
        ensures few_looks { counts ≡ true → meter.new ≤ meter.old + source_states (config self.old).profile dir source (world self.old).states }
        ensures uncounted { counts ≡ false → meter.new ≡ meter.old }
        ensures most { meter.new ≤ meter.old + run_limit }
        ensures config { config self.new ≡ config self.old };

    /// Takes out the states that go from these hosts to those, as the packets say that made them, and returns how many they are. A
    /// node that loses its last state is kept for its retention from `now` on. It goes through all states: it looks at each record
    /// that leaves, and at no more than one for each state that is held. (pfctl(8), "-k")
    fn kill_from_to(&mut self, hosts: &FromTo, now: u64, meter: &mut Meter) -> u64
        requires moment { now ≤ 2 ^ 63 }
        requires meter { meter.old ≤ 2 ^ 63 }
        ensures answer { result ≡ from_to_count (world self.old) hosts.now }
        ensures world { world self.new ≡ world_elsewhere (config self.old) (world self.old) hosts.now now }
        ensures looks { counts ≡ true → meter.old + result ≤ meter.new }
        ensures few_looks { counts ≡ true → meter.new ≤ meter.old + length (world self.old).states }
        ensures uncounted { counts ≡ false → meter.new ≡ meter.old }
        ensures most { meter.new ≤ meter.old + run_limit }
        ensures config { config self.new ≡ config self.old };

    /// Examines the next states of the round, or the first of a new one: of L, the limit of states, and `interval` at most
    /// 1 + L / `interval`. Those leave that are expired at `now` under the counts before the call. A node that loses its last
    /// state is kept for its retention from `now` on. It looks at each record that it examines.
    /// (pf.conf(5), OPTIONS, "interval"; the rounds are own)
    fn purge_states(&mut self, now: u64, meter: &mut Meter) -> Slice
        requires moment { now ≤ 2 ^ 63 }
        requires meter { meter.old ≤ 2 ^ 63 }
        ensures answer { result ≡ state_slice_of (config self.old) (world self.old) now }
        ensures world { world self.new ≡ state_slice (config self.old) (world self.old) now }
        ensures looks { counts ≡ true → meter.new ≡ meter.old + result.examined }
        ensures uncounted { counts ≡ false → meter.new ≡ meter.old }
        ensures most { meter.new ≤ meter.old + run_limit }
        ensures config { config self.new ≡ config self.old };

    /// Examines the next source nodes of their round, or the first of a new one, at most so many as `purge_states` does by
    /// the limit of source nodes. Those leave that have no state, and whose retention is over at `now`. It looks at the record of
    /// each node that it examines, and at none of a state. (pf.conf(5), OPTIONS, "src.track"; the rounds are own)
    fn purge_nodes(&mut self, now: u64, meter: &mut Meter) -> Slice
        requires meter { meter.old ≤ 2 ^ 63 }
        ensures answer { result ≡ node_slice_of (config self.old) (world self.old) now }
        ensures world { world self.new ≡ node_slice (config self.old) (world self.old) now }
        ensures looks { counts ≡ true → meter.new ≡ meter.old + result.examined }
        ensures uncounted { counts ≡ false → meter.new ≡ meter.old }
        ensures most { meter.new ≤ meter.old + run_limit }
        ensures config { config self.new ≡ config self.old };

    /// Does the purges of the seconds after one moment, up to another: in each a slice of the states, as `purge_states` does it, then
    /// one of the source nodes, as `purge_nodes` does it. It returns how much the greatest slices examined. No memory is taken. A kind
    /// of store may pass over seconds in which nothing leaves: then it looks at no record, but its cost may grow with what is
    /// held. (pf.conf(5), OPTIONS, "interval"; the rounds are own)
    fn purge_seconds(&mut self, from: u64, to: u64) -> Purged
        requires order { from ≤ to }
        requires moment { to < 2 ^ 32 }
        ensures world { world self.new ≡ world_after_purges (config self.old) (world self.old) (seconds from to) }
        ensures answer { result ≡ purged_of counts (config self.old) (world self.old) (seconds from to) }
        ensures config { config self.new ≡ config self.old }
    {
        let mut second = from;
        let mut purged = Purged::none();
        while second < to {
            let mut looks = Meter::new();
            let states = self.purge_states(second + 1, &mut looks);
            let mut node_looks = Meter::new();
            let nodes = self.purge_nodes(second + 1, &mut node_looks);
            let done = Purged::of_slices(states, looks.count(), nodes, node_looks.count());
            purged = purged.greatest(done);
            second = done.second_after(second + 1, to);
        }
        purged
    }
}
