//! The entries of one table: prefixes in the order in which they came, each with its mark.

ghost use Rattle.std.specs.Prelude.{◌≡◌, All, ◌<◌, ◌≤◌, ◌++◌, [], ◌∷◌, IfOk, IsOk, OnErr, OnOk, filter, length, map, nat_lt, not, false};
ghost use Rattle.pfs_addr_values.specs.Addresses.{width_of};
ghost use Rattle.pfs_addr_values.specs.Prefixes.{IsNetwork, network_of};
ghost use Rattle.pfs_eval.specs.Blooms.{AreKnown};
ghost use Rattle.pfs_eval.specs.Holdings.{AreEntriesKept};
ghost use Rattle.pfs_eval.specs.Entries.{AreDistinct, Entry, answer_of, entry_of_text, holds_host, holds_prefix, is_entry, mark_at, mark_of};
ghost use Rattle.pfs_eval.specs.Signs.{AreTrueWords, entry_sign};
ghost use Rattle.pfs_eval.specs.Tables.{is_old, old_count, young};

use crate::blooms::Bloom;
use crate::lengths::Lengths;
use crate::signs::Signs;
use indexmap::IndexMap;
use pfs_addr_values::{Addr, Prefix};
use pfs_conf_values::{Entries, RulesHasher};
use std::alloc::{AllocError, Global};
use std::marker::Model;

/// What a table keeps beside a prefix.
#[derive(Debug, Clone, Copy, PartialEq, Eq)]
pub struct Mark {
    /// Whether a `!` is before the prefix.
    pub negated: bool,
    /// The moment at which it was added, in seconds; none of one that the rules text says.
    pub moment: Option<u64>,
}

/// An entry as an administrator names it. (pfctl(8), "-T add" and "-T delete")
#[derive(Debug, Clone, Copy, PartialEq, Eq)]
pub struct TableEntry {
    /// The addresses that it covers.
    pub prefix: Prefix,
    /// Whether a `!` is before the prefix.
    pub negated: bool,
}

/// One table. Clauses see `HeldEntries`: its entries in order, and how many more fit without memory.
#[derive(Drop)]
pub struct Table {
    map: IndexMap<Prefix, Mark, RulesHasher>,
    /// The lengths that an entry has or had. Others are not looked up.
    lengths: Lengths,
    /// Which prefixes an entry may have. Others are not looked up.
    bloom: Bloom,
    /// The signs of most entries of IPv4. The others are looked up in the map.
    signs: Signs,
}

impl Model for Table {
    ghost use Rattle.std.specs.HashMap.{spare};
    ghost use Rattle.pfs_eval.specs.Holdings.{AreEntriesKept, HeldEntries};

    ghost Value = { HeldEntries };

    ghost view = { λ e. record { entries = e.map.entries; spare = spare e.map } };

    ghost invariant = { λ e. AreEntriesKept e.map.entries e.lengths e.bloom e.signs };
}

impl Table {
    /// No entries, which will be found by this hasher. It takes no memory.
    pub fn new(alloc: Global, hasher: RulesHasher) -> Table
        ensures { result.entries ≡ [] }
    {
        Table {
            map: IndexMap::with_hasher(alloc, hasher),
            lengths: Lengths::none(),
            bloom: Bloom::of_all(alloc),
            signs: Signs::none(alloc),
        }
    }

    /// No entries, with room for so many.
    fn with_room(alloc: Global, hasher: RulesHasher, count: usize) -> Result<Table, AllocError>
        ensures { IfOk result (λ t. t.entries ≡ []) }
    {
        let mut table = Table::new(alloc, hasher);
        table.grow(count)?;
        table.signs = Signs::with_capacity(alloc, count)?;
        Ok(table)
    }

    /// The entries that a rules text says for a table, in their order, found by this hasher.
    pub fn of(alloc: Global, hasher: RulesHasher, entries: &Entries) -> Result<Table, AllocError>
        ensures { IfOk result (λ t. t.entries ≡ map entry_of_text entries.now) }
    {
        let mut table = Table::with_room(alloc, hasher, entries.len())?;
        for place in 0..entries.len() {
            let (prefix, negated) = entries.at(place).unwrap();
            let mark = Mark {
                negated,
                moment: None,
            };
            table.add(prefix.addr(), prefix.bits(), mark)?;
        }
        Ok(table)
    }

    /// Whether the narrowest entry that covers the address is there and not negated. It asks for each length that an entry
    /// of the address's family has or had, from the longest on, until one is found. A look-up is made where the filter has
    /// that prefix: of those that are not there, it has about one in fifty (measured).
    pub fn matches(&self, addr: Addr) -> bool
        ensures { result ≡ answer_of self.now.entries addr }
    {
        answer(&self.map, &self.lengths, &self.bloom, &self.signs, addr)
    }

    /// Whether there is an entry for exactly this host, negated or not.
    pub fn holds(&self, host: Addr) -> bool
        ensures { result ≡ holds_host self.now.entries host }
    {
        mark_at(&self.map, &self.bloom, host, host.width()).is_some()
    }

    /// The mark of the entry with exactly this prefix, if there is one.
    pub fn mark(&self, prefix: &Prefix) -> Option<Mark>
        ensures { result ≡ mark_of self.now.entries prefix.now }
    {
        mark_at(&self.map, &self.bloom, prefix.addr(), prefix.bits())
    }

    /// Whether one more entry fits without memory.
    pub fn has_room(&self) -> bool
        ensures { result ≡ nat_lt 0 self.now.spare }
    {
        self.map.capacity() > self.map.len()
    }

    /// Takes memory for one more entry, if it does not fit already. As the table grows, so does its filter.
    pub fn reserve(&mut self) -> Result<(), AllocError>
        ensures entries { self.new.entries ≡ self.old.entries }
        ensures ok { OnOk result (0 < self.new.spare) }
        ensures no_memory { 0 < self.old.spare → IsOk result }
    {
        if self.has_room() {
            return Ok(());
        }
        self.grow(1)
    }

    /// Takes memory for so many more entries, and for a filter of as many as fit then.
    fn grow(&mut self, more: usize) -> Result<(), AllocError>
        ensures entries { self.new.entries ≡ self.old.entries }
        ensures ok { OnOk result (more ≤ self.new.spare) }
    {
        self.map.reserve(more)?;
        self.bloom = bloom_of(&self.map)?;
        self.grow_signs()
    }

    /// Takes memory for the signs of as many entries as fit, while these are few: those of a long list that grows are told in the room
    /// that they have, the latest first.
    fn grow_signs(&mut self) -> Result<(), AllocError>
        ensures entries { self.new.entries ≡ self.old.entries }
        ensures spare { self.new.spare ≡ self.old.spare }
    {
        if self.map.capacity() <= 4096 {
            self.signs = signs_of(&self.map)?;
        }
        Ok(())
    }

    /// Adds, at the end, the prefix of this address with so many bits. On an error nothing changes.
    pub fn add(&mut self, addr: Addr, bits: u8, mark: Mark) -> Result<(), AllocError>
        requires bits { bits ≤ width_of addr }
        requires absent { holds_prefix self.old.entries addr bits ≡ false }
        ensures ok { OnOk result (self.new.entries ≡ self.old.entries ++ (network_of addr bits, mark) ∷ []) }
        ensures err { OnErr result (self.new.entries ≡ self.old.entries) }
        ensures no_memory { 0 < self.old.spare → IsOk result }
        ensures distinct { AreDistinct self.old.entries → AreDistinct self.new.entries }
    {
        self.reserve()?;
        self.map.insert(addr.prefix(bits), mark)?;
        self.lengths.note(addr, addr.width() - bits);
        self.bloom.note(addr, bits);
        self.signs.tell(addr, bits, mark.negated);
        Ok(())
    }

    /// The entries leave that were added so many seconds ago or before that, where for those of the rules text `first`
    /// counts; the others keep their order. It returns how many left, goes through all entries once, and takes no memory.
    pub fn expire(&mut self, first: u64, now: u64, seconds: u64) -> u64
        ensures answer { result ≡ old_count first now seconds self.old.entries }
        ensures entries { self.new.entries ≡ young first now seconds self.old.entries }
        ensures room { self.old.spare ≤ self.new.spare }
    {
        let before = self.map.len();
        self.map.retain(
            |_prefix: &Prefix, mark: &mut Mark| -> bool
                ensures { (result ≡ not (is_old first now seconds mark.old)) × (mark.new ≡ mark.old) }
            { !is_old(*mark, first, now, seconds) },
        );
        tell_anew(&self.map, &mut self.signs);
        (before - self.map.len()) as u64
    }

    /// The very entry that is named leaves, if it is there; the others keep their order. It returns how many left: one, or
    /// none. It goes through all entries once, and takes no memory.
    pub fn delete(&mut self, entry: &TableEntry) -> u64
        ensures answer { result ≡ length (filter (is_entry entry.now) self.old.entries) }
        ensures entries { self.new.entries ≡ filter (λ (x : Entry). not (is_entry entry.now x)) self.old.entries }
        ensures room { self.old.spare ≤ self.new.spare }
    {
        let before = self.map.len();
        let named = *entry;
        self.map.retain(
            |prefix: &Prefix, mark: &mut Mark| -> bool
                ensures { (result ≡ not (is_entry named (prefix.now, mark.old))) × (mark.new ≡ mark.old) }
            { !is_entry(prefix, *mark, &named) },
        );
        tell_anew(&self.map, &mut self.signs);
        (before - self.map.len()) as u64
    }
}

/// Whether this prefix with this mark is the very entry that is named.
fn is_entry(prefix: &Prefix, mark: Mark, entry: &TableEntry) -> bool
    ensures { result ≡ is_entry entry.now (prefix.now, mark) }
{
    prefix.bits() == entry.prefix.bits()
        && prefix.contains(entry.prefix.addr())
        && mark.negated == entry.negated
}

/// Whether an entry was added so many seconds ago, or earlier.
fn is_old(mark: Mark, first: u64, now: u64, seconds: u64) -> bool
    ensures { result ≡ is_old first now seconds mark }
{
    seconds <= now && mark.moment.unwrap_or(first) <= now - seconds
}

/// The answer for an address: of its prefixes, from the longest on, the first that is an entry decides.
fn answer(
    map: &IndexMap<Prefix, Mark, RulesHasher>,
    lengths: &Lengths,
    bloom: &Bloom,
    signs: &Signs,
    addr: Addr,
) -> bool
    requires { AreEntriesKept map.now.entries lengths.now bloom.now signs.now }
    ensures { result ≡ answer_of map.now.entries addr }
{
    // A loop for each family: no turn asks again which it is.
    match addr {
        Addr::V4(bytes) => answer_by_lengths(map, lengths, bloom, signs, Addr::V4(bytes)),
        Addr::V6(bytes) => answer_by_lengths(map, lengths, bloom, signs, Addr::V6(bytes)),
    }
}

#[inline(always)]
fn answer_by_lengths(
    map: &IndexMap<Prefix, Mark, RulesHasher>,
    lengths: &Lengths,
    bloom: &Bloom,
    signs: &Signs,
    addr: Addr,
) -> bool
    requires { AreEntriesKept map.now.entries lengths.now bloom.now signs.now }
    ensures { result ≡ answer_of map.now.entries addr }
{
    let width = addr.width();
    let mut hidden = lengths.next(addr, 0);
    while hidden <= width {
        if let Some(negated) = entry_sign(map, bloom, signs, addr, width - hidden) {
            return !negated;
        }
        hidden = lengths.next(addr, hidden + 1);
    }
    false
}

/// The sign of the entry that is the prefix of this address with so many bits, if there is one.
#[inline(always)]
fn entry_sign(
    map: &IndexMap<Prefix, Mark, RulesHasher>,
    bloom: &Bloom,
    signs: &Signs,
    addr: Addr,
    bits: u8,
) -> Option<bool>
    requires bits { bits ≤ width_of addr }
    requires networks { All (λ (x : Entry). IsNetwork x.0) map.now.entries }
    requires known { AreKnown bloom.now map.now.entries }
    requires told { AreTrueWords signs.now map.now.entries }
    ensures { result ≡ entry_sign map.now.entries addr bits }
{
    if !bloom.may_have(addr, bits) {
        return None;
    }
    match signs.told(addr, bits) {
        Some(negated) => Some(negated),
        None => sign_in(map, addr, bits),
    }
}

/// The same, by the map alone.
#[inline(never)]
fn sign_in(map: &IndexMap<Prefix, Mark, RulesHasher>, addr: Addr, bits: u8) -> Option<bool>
    requires bits { bits ≤ width_of addr }
    requires networks { All (λ (x : Entry). IsNetwork x.0) map.now.entries }
    ensures { result ≡ entry_sign map.now.entries addr bits }
{
    match mark_in(map, addr, bits) {
        Some(mark) => Some(mark.negated),
        None => None,
    }
}

/// The mark of the entry that is the prefix of this address with so many bits, if there is one.
#[inline(always)]
fn mark_at(
    map: &IndexMap<Prefix, Mark, RulesHasher>,
    bloom: &Bloom,
    addr: Addr,
    bits: u8,
) -> Option<Mark>
    requires bits { bits ≤ width_of addr }
    requires networks { All (λ (x : Entry). IsNetwork x.0) map.now.entries }
    requires known { AreKnown bloom.now map.now.entries }
    ensures { result ≡ mark_at map.now.entries addr bits }
{
    if !bloom.may_have(addr, bits) {
        return None;
    }
    mark_in(map, addr, bits)
}

/// The same, by the map alone.
#[inline(always)]
fn mark_in(map: &IndexMap<Prefix, Mark, RulesHasher>, addr: Addr, bits: u8) -> Option<Mark>
    requires bits { bits ≤ width_of addr }
    requires networks { All (λ (x : Entry). IsNetwork x.0) map.now.entries }
    ensures { result ≡ mark_at map.now.entries addr bits }
{
    map.get(&addr.prefix(bits)).copied()
}

/// The filter of the prefixes of these entries, with room for as many as the map has.
fn bloom_of(map: &IndexMap<Prefix, Mark, RulesHasher>) -> Result<Bloom, AllocError>
    ensures { IfOk result (λ b. AreKnown b map.now.entries) }
{
    let mut bloom = Bloom::with_capacity(*map.allocator(), map.capacity())?;
    for place in 0..map.len() {
        let (prefix, _) = map.get_index(place).unwrap();
        bloom.note(prefix.addr(), prefix.bits());
    }
    Ok(bloom)
}

/// The signs of these entries, with room for as many as the map has.
fn signs_of(map: &IndexMap<Prefix, Mark, RulesHasher>) -> Result<Signs, AllocError>
    requires { All (λ (x : Entry). IsNetwork x.0) map.now.entries }
    ensures { IfOk result (λ s. AreTrueWords s map.now.entries) }
{
    let mut signs = Signs::with_capacity(*map.allocator(), map.capacity())?;
    tell_all(map, &mut signs);
    Ok(signs)
}

/// Tells the signs of these entries, and of no other.
fn tell_anew(map: &IndexMap<Prefix, Mark, RulesHasher>, signs: &mut Signs)
    requires { All (λ (x : Entry). IsNetwork x.0) map.now.entries }
    ensures { AreTrueWords signs.new map.now.entries }
{
    signs.clear();
    tell_all(map, signs);
}

/// Tells the sign of each entry.
fn tell_all(map: &IndexMap<Prefix, Mark, RulesHasher>, signs: &mut Signs)
    requires networks { All (λ (x : Entry). IsNetwork x.0) map.now.entries }
    requires told { AreTrueWords signs.old map.now.entries }
    ensures { AreTrueWords signs.new map.now.entries }
{
    for place in 0..map.len() {
        let (prefix, mark) = map.get_index(place).unwrap();
        signs.tell(prefix.addr(), prefix.bits(), mark.negated);
    }
}
