//! The keys of the indexes: of a state its key, of a source node its source in a scope. A hasher is fed with each in one piece of
//! whole words, which takes fewer steps than its fields one by one.

ghost use Rattle.std.specs.Prelude.{◌≡◌, [], ◌∷◌, fold};
ghost use Rattle.std.proofs.Common.{rules};
ghost use Rattle.std.specs.Cmp.Rules.{hashing};
ghost use Rattle.pfs_store_records.specs.Pieces.{four, sixteen, key_writes, last_of_key, narrow_piece, number_of_scope, place_writes, wide_piece, writes_between, writes_in};

use pfs_addr_values::{Addr, FlowKey};
use pfs_store_contract::NodeScope;
use std::hash::{Hash, Hasher};
use std::marker::Model;

/// A key, as the index of states has it. Clauses see the key.
#[derive(Debug, Clone, Copy, PartialEq, Eq)]
pub struct StateKey {
    /// The key.
    pub key: FlowKey,
}

impl Model for StateKey {
    ghost use Rattle.pfs_addr_values.specs.declared.packets.FlowKey.{FlowKey};

    ghost Value = { FlowKey };

    ghost view = { λ s. s.key };

    ghost inverse = { λ k. record { key = k } };
}

impl Hash for StateKey {
    ghost hash_input = { λ k. key_writes k };

    ghost respects_eq = { Prim.search (hashing, rules) };

    fn hash<H: Hasher>(&self, state: &mut H) {
        feed_key(self.key.a.addr, self.key.b.addr, &self.key, state);
    }
}

/// A source in a scope, as the index of source nodes has it. Clauses see the pair.
#[derive(Debug, Clone, Copy, PartialEq, Eq)]
pub struct NodeKey {
    /// The scope.
    pub scope: NodeScope,
    /// The source address.
    pub source: Addr,
}

impl Model for NodeKey {
    ghost use Rattle.pfs_addr_values.specs.declared.addresses.Addr.{Addr};
    ghost use Rattle.pfs_store_contract.specs.declared.records.NodeScope.{NodeScope};

    ghost Value = { NodeScope × Addr };

    ghost view = { λ t. (t.scope, t.source) };

    ghost inverse = { λ p. record { scope = p.0; source = p.1 } };
}

impl Hash for NodeKey {
    ghost hash_input = { λ p. place_writes p };

    ghost respects_eq = { Prim.search (hashing, rules) };

    fn hash<H: Hasher>(&self, state: &mut H) {
        feed_place(
            number_of_scope(self.scope).to_le_bytes(),
            self.source,
            state,
        );
    }
}

#[inline(always)]
fn feed_key<H: Hasher>(a: Addr, b: Addr, key: &FlowKey, state: &mut H)
    ensures { state.new ≡ fold H.write state.old (writes_between a b key.now) }
{
    match (a, b) {
        (Addr::V4(a), Addr::V4(b)) => state.write(&narrow_key(a, b, key)),
        (Addr::V6(a), Addr::V6(b)) => state.write(&wide_key(a, b, key)),
        _ => key.hash(state),
    }
}

#[inline(always)]
fn feed_place<H: Hasher>(scope: [u8; 4], source: Addr, state: &mut H)
    ensures { state.new ≡ fold H.write state.old (writes_in scope source) }
{
    match source {
        Addr::V4(a) => state.write(&narrow_place(a, scope)),
        Addr::V6(a) => state.write(&wide_place(a, scope)),
    }
}

#[inline(always)]
fn narrow_key(a: [u8; 4], b: [u8; 4], key: &FlowKey) -> [u8; 16]
    ensures { result ≡ narrow_piece a b (last_of_key key.now) }
{
    narrow_piece(a, b, last_of_key(key))
}

#[inline(always)]
fn wide_key(a: [u8; 16], b: [u8; 16], key: &FlowKey) -> [u8; 40]
    ensures { result ≡ wide_piece a b (last_of_key key.now) }
{
    wide_piece(a, b, last_of_key(key))
}

#[inline(always)]
fn last_of_key(key: &FlowKey) -> [u8; 8]
    ensures { result ≡ last_of_key key.now }
{
    let p = key.a.port.to_le_bytes();
    let q = key.b.port.to_le_bytes();
    [p[0], p[1], q[0], q[1], key.proto.number(), 0, 0, 0]
}

#[inline(always)]
fn narrow_piece(a: [u8; 4], b: [u8; 4], last: [u8; 8]) -> [u8; 16]
    ensures { result ≡ narrow_piece a b last }
{
    [
        a[0], a[1], a[2], a[3], b[0], b[1], b[2], b[3], last[0], last[1], last[2], last[3],
        last[4], last[5], last[6], last[7],
    ]
}

#[inline(always)]
fn wide_piece(a: [u8; 16], b: [u8; 16], last: [u8; 8]) -> [u8; 40]
    ensures { result ≡ wide_piece a b last }
{
    [
        a[0], a[1], a[2], a[3], a[4], a[5], a[6], a[7], a[8], a[9], a[10], a[11], a[12], a[13],
        a[14], a[15], b[0], b[1], b[2], b[3], b[4], b[5], b[6], b[7], b[8], b[9], b[10], b[11],
        b[12], b[13], b[14], b[15], last[0], last[1], last[2], last[3], last[4], last[5], last[6],
        last[7],
    ]
}

/// The rule of a scope; for that of all a number that no rule has.
#[inline(always)]
fn number_of_scope(scope: NodeScope) -> u32
    ensures { result ≡ number_of_scope scope }
{
    match scope {
        NodeScope::Rule(rule) => rule.0,
        NodeScope::Global => u32::MAX,
    }
}

#[inline(always)]
fn narrow_place(a: [u8; 4], scope: [u8; 4]) -> [u8; 8]
    ensures { result ≡ four a (four scope []) }
{
    [
        a[0], a[1], a[2], a[3], scope[0], scope[1], scope[2], scope[3],
    ]
}

#[inline(always)]
fn wide_place(a: [u8; 16], scope: [u8; 4]) -> [u8; 24]
    ensures { result ≡ sixteen a (four scope (0 ∷ 0 ∷ 0 ∷ 0 ∷ [])) }
{
    [
        a[0], a[1], a[2], a[3], a[4], a[5], a[6], a[7], a[8], a[9], a[10], a[11], a[12], a[13],
        a[14], a[15], scope[0], scope[1], scope[2], scope[3], 0, 0, 0, 0,
    ]
}
