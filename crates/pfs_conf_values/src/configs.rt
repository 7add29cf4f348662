//! What a rules text says, and how it is read.

ghost use Rattle.std.specs.Prelude.{◌≡◌, ◌<◌, ◌≤◌, ◌-◌, ◌^◌, IfOk, IfSome, IsSome, length, min, position, slice_get};
ghost use Rattle.std.specs.List.{list_any};
ghost use Rattle.std.specs.Option.{option_copied};
ghost use Rattle.pfs_conf_values.specs.Configs.{conf_of, entries_in, entry_count_of, has_name, is_const_table, is_synproxy, limit_of, options_at, rate_seconds, retention_in, retention_of, rule_at, rule_in, rule_retention, rule_timeout_of, scope_of, src_track_or, table_named, tag_named, gives_in, timeout_of, tracks_fully, translates, translates_in};
ghost use Rattle.pfs_conf_values.specs.Hashing.{hasher_of};
ghost use Rattle.pfs_conf_values.specs.Invariants.{IsConfig, IsTable};
ghost use Rattle.pfs_conf_values.specs.LoadRules.{AreOptions, IsItem, IsRule};
ghost use Rattle.pfs_conf_values.specs.Profiles.{effective};
ghost use Rattle.pfs_conf_values.specs.Routes.{AreRoutes};
ghost use Rattle.pfs_conf_values.specs.Syncookies.{AreSyncookies};

use crate::actions::{Action, Rate, Scope, StateOptions};
use crate::filters::{TableNo, TagName};
use crate::hashing::RulesHasher;
use crate::items::{Item, ItemKind, Rule, RuleNo};
use crate::limits::{LimitName, Limits};
use crate::profiles::Profile;
use crate::routes::Route;
use crate::syncookies::Syncookies;
use crate::tables::{TableDef, copy_tables};
use crate::timeouts::{TimeoutName, Timeouts};
use pfs_addr_values::{NoMemory, TagNo};
use std::marker::Model;

/// What an accepted rules text says: its profile, SYN cookies, routes, limits, timeouts, tables and items, with defaults filled in.
///
/// Clauses see a `Conf`. Every one keeps `IsConfig`, the load rules: `keeps_load_rules` states them to a proof, as do
/// `limit`, `item_count` and `table_count`, and `item`, `rule`, `options` and `table` state what they give keeps of
/// them. No reader takes memory. Each takes constant time but for `table_named`, which goes through the tables.
#[derive(Debug, Drop)]
pub struct Config {
    profile: Profile,
    syncookies: Syncookies,
    routes: Vec<Route>,
    limits: Limits,
    timeouts: Timeouts,
    tables: Vec<TableDef>,
    entries: u64,
    items: Vec<Item>,
    translates: bool,
    hasher: RulesHasher,
}

impl Model for Config {
    ghost use Rattle.pfs_conf_values.specs.Configs.{Conf};
    ghost use Rattle.pfs_conf_values.specs.Invariants.{IsConfigKept};

    ghost Value = { Conf };

    ghost view = { λ c. record { profile = c.profile; syncookies = c.syncookies; routes = c.routes.items; limits = c.limits; timeouts = c.timeouts; tables = c.tables.items; items = c.items.items } };

    ghost invariant = { λ c. IsConfigKept c.entries c.translates c.hasher (record { profile = c.profile; syncookies = c.syncookies; routes = c.routes.items; limits = c.limits; timeouts = c.timeouts; tables = c.tables.items; items = c.items.items }) };
}

impl Config {
    /// The configuration of these parts, which keep the load rules. It counts the entries, looks whether a rule translates,
    /// feeds the hasher with all parts, and takes no memory.
    pub fn of_parts(
        profile: Profile,
        syncookies: Syncookies,
        routes: Vec<Route>,
        limits: Limits,
        timeouts: Timeouts,
        tables: Vec<TableDef>,
        items: Vec<Item>,
    ) -> Config
        requires { IsConfig (conf_of profile syncookies routes.items limits timeouts tables.items items.items) }
        ensures { result ≡ conf_of profile syncookies routes.items limits timeouts tables.items items.items }
    {
        let entries = count_entries(&tables);
        let translates = translate(&items);
        let hasher = RulesHasher::of_parts(
            profile, syncookies, &routes, &limits, &timeouts, &tables, &items,
        );
        Config {
            profile,
            syncookies,
            routes,
            limits,
            timeouts,
            tables,
            entries,
            items,
            translates,
            hasher,
        }
    }

    /// The configuration keeps the load rules: a fact for proofs, which computes nothing.
    pub fn keeps_load_rules(&self)
        ensures { IsConfig self.now }
    {
        let _ = &self.items;
    }

    /// Whose machine the text asks for.
    pub fn profile(&self) -> Profile
        ensures { result ≡ self.now.profile }
    {
        self.profile
    }

    /// Whether SYNs that come in are answered by cookies. `adaptive` has an end below its start, which is at most 100 percent; without
    /// the profile of OpenBSD 7.4 they never are. (pf.conf(5), OPTIONS, "set syncookies")
    pub fn syncookies(&self) -> Syncookies
        ensures value { result ≡ self.now.syncookies }
        ensures kept { AreSyncookies result }
    {
        self.syncookies
    }

    /// The routes, in the order in which they are shown: no two have the same prefix, and without the profile of OpenBSD 7.4 there
    /// is none. (own; as route(8) prints them)
    pub fn routes(&self) -> &[Route]
        ensures value { result.now ≡ self.now.routes }
        ensures kept { AreRoutes result.now }
    {
        &self.routes
    }

    /// Whether the states of TCP that a rule makes are tracked by OpenBSD's table of full states: under its profile, but for
    /// `sloppy`. (pf.conf(5), STATEFUL TRACKING OPTIONS, "sloppy")
    pub fn tracks_fully(&self, number: RuleNo) -> bool
        ensures { result ≡ tracks_fully self.now number.0 }
    {
        let sloppy = match self.options(number) {
            Some(options) => options.sloppy,
            None => false,
        };
        self.profile.is_openbsd() && !sloppy
    }

    /// Whether a rule has `synproxy state`: pf answers a SYN of TCP that comes in, in place of the server.
    /// (pf.conf(5), STATEFUL FILTERING, "synproxy state")
    pub fn is_synproxy(&self, number: RuleNo) -> bool
        ensures { result ≡ is_synproxy self.now number.0 }
    {
        match self.options(number) {
            Some(options) => options.synproxy,
            None => false,
        }
    }

    /// How many rules and anchors there are: at most 10,000.
    pub fn item_count(&self) -> u32
        ensures value { result ≡ length self.now.items }
        ensures sound { IsConfig self.now }
    {
        self.items.len() as u32
    }

    /// The rule or anchor of this number, if there is one. They are numbered from 0 in the order of the text; those
    /// inside an anchor follow it. It keeps the load rules.
    pub fn item(&self, number: u32) -> Option<&Item>
        ensures value { option_copied result ≡ slice_get self.now.items number }
        ensures kept { IfSome (option_copied result) (IsItem (length self.now.tables)) }
        ensures shallow { IfSome (option_copied result) (λ i. i.depth ≤ 16) }
    {
        self.items.get(number as usize)
    }

    /// The rule of this number, if that item is a rule. It keeps the load rules.
    pub fn rule(&self, number: RuleNo) -> Option<&Rule>
        ensures value { option_copied result ≡ rule_at self.now number.0 }
        ensures kept { IfSome (option_copied result) (IsRule (length self.now.tables)) }
    {
        match &self.item(number.0)?.what {
            ItemKind::Rule(rule) => Some(rule),
            ItemKind::Anchor(_) => None,
        }
    }

    /// The options of the rule of this number, if it keeps state. They keep the load rules.
    pub fn options(&self, number: RuleNo) -> Option<&StateOptions>
        ensures value { option_copied result ≡ options_at self.now number.0 }
        ensures kept { IfSome (option_copied result) (AreOptions (length self.now.tables)) }
    {
        match &self.rule(number)?.action {
            Action::Keep(options) => Some(options),
            Action::Match | Action::Block | Action::Pass => None,
        }
    }

    /// How many tables the text names: at most the limit on tables.
    pub fn table_count(&self) -> u32
        ensures value { result ≡ length self.now.tables }
        ensures sound { IsConfig self.now }
    {
        self.tables.len() as u32
    }

    /// The table of this number, if there is one: its name is one, and no two of its entries have the same prefix.
    pub fn table(&self, number: TableNo) -> Option<&TableDef>
        ensures value { option_copied result ≡ slice_get self.now.tables number.0 }
        ensures kept { IfSome (option_copied result) IsTable }
    {
        self.tables.get(number.0 as usize)
    }

    /// The number of the table of this name, if there is one: each that the text names, defined or not. It compares the
    /// name with those of the tables, one after another. (pf.conf(5), TABLES)
    pub fn table_named(&self, name: &[u8]) -> Option<TableNo>
        ensures value { result ≡ table_named self.now name.now }
        ensures known { IfSome result (λ t. t.0 < length self.now.tables) }
    {
        let place = place_named(&self.tables, name)?;
        Some(TableNo(place as u32))
    }

    /// The tag of this name, if a rule gives it. It compares the name with those that the rules give, one after another.
    /// (pf.conf(5), PARAMETERS, "tag")
    pub fn tag_named(&self, name: &TagName) -> Option<TagNo>
        ensures { result ≡ tag_named self.now.items name.now }
    {
        let place = tag_place(&self.items, name)?;
        Some(TagNo(place as u16))
    }

    /// Whether some rule translates: has `nat-to` or `rdr-to`. It looks at no rule. (pf.conf(5), TRANSLATION)
    pub fn translates(&self) -> bool
        ensures { result ≡ translates self.now }
    {
        self.translates
    }

    /// Whether the table of this number is `const`: then no source is added to it, and no entry leaves it.
    /// (pf.conf(5), TABLES, "const")
    pub fn is_const(&self, number: TableNo) -> bool
        requires { number.0 < length self.now.tables }
        ensures { result ≡ is_const_table (slice_get self.now.tables number.0) }
    {
        self.tables[number.0 as usize].is_const
    }

    /// How many entries all tables have together: at most the limit on entries.
    pub fn entry_count(&self) -> u64
        ensures value { result ≡ entry_count_of self.now }
        ensures sound { IsConfig self.now }
    {
        self.entries
    }

    /// The value of a limit.
    pub fn limit(&self, name: LimitName) -> u64
        ensures value { result ≡ limit_of self.now name }
        ensures sound { IsConfig self.now }
    {
        u64::from(self.limits.get(name))
    }

    /// The value of a timeout: seconds, but states for the two adaptive ones.
    pub fn timeout(&self, name: TimeoutName) -> u64
        ensures value { result ≡ timeout_of self.now name }
        ensures sound { IsConfig self.now }
    {
        self.timeouts.get(name)
    }

    /// The value that a rule gives for a timeout of its own states, if it keeps state and gives one that has effect: under the
    /// profile of OpenBSD 7.4 a value of 0 has none.
    pub fn rule_timeout(&self, number: RuleNo, name: TimeoutName) -> Option<u64>
        ensures { result ≡ rule_timeout_of self.now number.0 name }
    {
        let value = self.options(number)?.timeouts.get(name)?;
        if value == 0 && self.profile.is_openbsd() {
            return None;
        }
        Some(u64::from(value))
    }

    /// The scope of a rule's source nodes; none where it keeps no state or does not track sources.
    /// (pf.conf(5), STATEFUL TRACKING OPTIONS, "source-track")
    pub fn scope(&self, number: RuleNo) -> Option<Scope>
        ensures { result ≡ scope_of self.now number.0 }
    {
        self.options(number)?.scope
    }

    /// The seconds for which a source node of a rule that tracks sources is kept after its last state left. For a node
    /// of the rule alone: the greater of `src.track` (the rule's, or else the global one) and the seconds of its
    /// `max-src-conn-rate`; under the profile of OpenBSD 7.4 the greater of the two that the rule gives, and the global
    /// `src.track` where both are 0 or not given. For a node that rules share: the global `src.track`.
    pub fn retention(&self, number: RuleNo) -> u64
        requires { IsSome (scope_of self.now number.0) }
        ensures { result ≡ retention_of self.now number.0 }
    {
        let global = self.timeout(TimeoutName::SrcTrack);
        let Some(options) = self.options(number) else {
            return global;
        };
        retention_by(self.profile, options, global)
    }

    /// The hasher that was fed with all that the configuration says.
    pub fn hasher(&self) -> RulesHasher
        ensures { result.begun ≡ hasher_of self.now }
    {
        self.hasher
    }

    /// An equal configuration in memory of its own. It returns `NoMemory` where that memory is refused.
    pub fn copy(&self) -> Result<Config, NoMemory>
        ensures { IfOk result (λ c. c ≡ self.now) }
    {
        let alloc = *self.tables.allocator();
        let items = Vec::from_slice(alloc, &self.items)?;
        let tables = copy_tables(alloc, &self.tables)?;
        let routes = Vec::from_slice(alloc, &self.routes)?;
        Ok(Config {
            profile: self.profile,
            syncookies: self.syncookies,
            routes,
            limits: self.limits,
            timeouts: self.timeouts,
            tables,
            entries: self.entries,
            items,
            translates: self.translates,
            hasher: self.hasher,
        })
    }
}

/// How many entries these tables have together; 2^64 - 1 for as many or more.
pub fn count_entries(tables: &[TableDef]) -> u64
    ensures { result ≡ min (entries_in tables.now) (2 ^ 64 - 1) }
{
    let mut count: u64 = 0;
    for table in tables {
        count = count.saturating_add(table.entries.len() as u64);
    }
    count
}

/// The place of the first rule that gives this tag.
fn tag_place(items: &[Item], name: &TagName) -> Option<usize>
    ensures value { result ≡ position (λ (i : Item). gives_in name.now (rule_in i.what)) items.now }
    ensures within { IfSome result (λ place. place < length items.now) }
{
    items.iter().position(|item| gives(item, name))
}

/// Whether an item is a rule that gives this tag.
fn gives(item: &Item, name: &TagName) -> bool
    ensures { result ≡ gives_in name.now (rule_in item.now.what) }
{
    match &item.what {
        ItemKind::Rule(rule) => rule.tag.is_some_and(|tag| tag == *name),
        ItemKind::Anchor(_) => false,
    }
}

/// Whether some of these items is a rule that translates.
fn translate(items: &[Item]) -> bool
    ensures { result ≡ list_any (λ (i : Item). translates_in (rule_in i.what)) items.now }
{
    items.iter().any(|item| translates(item))
}

fn translates(item: &Item) -> bool
    ensures { result ≡ translates_in (rule_in item.now.what) }
{
    match &item.what {
        ItemKind::Rule(rule) => rule.translation.translates(),
        ItemKind::Anchor(_) => false,
    }
}

/// The place of the table of this name.
fn place_named(tables: &[TableDef], name: &[u8]) -> Option<usize>
    ensures value { result ≡ position (has_name name.now) tables.now }
    ensures within { IfSome result (λ place. place < length tables.now) }
{
    tables.iter().position(|table| has_name(table, name))
}

fn has_name(table: &TableDef, name: &[u8]) -> bool
    ensures { result ≡ has_name name.now table.now }
{
    table.name.as_bytes() == name
}

/// The retention of a source node of a rule with these options, where this is the global `src.track`.
fn retention_by(profile: Profile, options: &StateOptions, global: u64) -> u64
    ensures { result ≡ retention_in profile global options.now options.now.scope }
{
    match options.scope {
        Some(Scope::Rule) => rule_retention(profile, options, global),
        _ => global,
    }
}

/// The retention of a source node of a rule alone with these options, where this is the global `src.track`. It takes no memory.
/// (pf.conf(5), OPTIONS, "src.track"; own but under the profile of OpenBSD 7.4)
pub fn rule_retention(profile: Profile, options: &StateOptions, global: u64) -> u64
    ensures { result ≡ rule_retention profile global options.now }
{
    let rate = rate_seconds(options.max_src_conn_rate);
    match profile {
        Profile::Own => src_track_or(global, options).max(rate),
        Profile::OpenBsd74 => match src_track_or(0, options).max(rate) {
            0 => global,
            own => own,
        },
    }
}

/// The value that a rule gives for `src.track`, or else this one.
fn src_track_or(value: u64, options: &StateOptions) -> u64
    ensures { result ≡ src_track_or value options.now }
{
    match options.timeouts.get(TimeoutName::SrcTrack) {
        Some(seconds) => u64::from(seconds),
        None => value,
    }
}

fn rate_seconds(rate: Option<Rate>) -> u64
    ensures { result ≡ rate_seconds rate }
{
    rate.map_or(0, |rate| u64::from(rate.seconds))
}
