//! What the statements of a rules text say that have been read so far.

ghost use Rattle.std.specs.Prelude.{◌≡◌, ◌<◌, ◌≤◌, ◌+◌, ◌++◌, [], ◌∷◌, IfOk, IfSome, None, OnErr, OnOk, false, true, length, position};
ghost use Rattle.std.specs.Option.{option_map};
ghost use Rattle.pfs_addr_values.specs.Names.{is_name};
ghost use Rattle.pfs_conf_values.specs.Configs.{has_synproxy, is_const_table, marks_in, needs_profile, overloads_const, rule_in};
ghost use Rattle.pfs_conf_values.specs.Order.{depth_after, next_depth, repeats_by, repeats_name};
ghost use Rattle.pfs_conf_settings.specs.Drafts.{broken_pair, const_overload, empty_draft, conf_of_draft, has_broken_pair, has_other_prefix, has_too_many_entries, has_too_many_tables, has_unprofiled_cookies, has_unprofiled_routes, is_defined, number_of_table, routes_with, unprofiled, with_item, with_limit, with_name, with_profile, with_route, with_syncookies, with_table, with_timeout};
ghost use Rattle.pfs_conf_values.specs.LoadRules.{IsAnchor, IsCount, IsItem, IsRule, IsTimeout};
ghost use Rattle.pfs_conf_values.specs.Routes.{IsRoute};
ghost use Rattle.pfs_conf_values.specs.Settled.{settled_items};
ghost use Rattle.pfs_conf_values.specs.Syncookies.{AreSyncookies};
ghost use Rattle.pfs_conf_values.specs.Siblings.{has_sibling, is_anchor_named};
ghost use Rattle.pfs_conf_values.specs.Timeouts.{place_of};

use crate::named_tables::NamedTables;
use pfs_addr_values::NoMemory;
use pfs_conf_values::{
    Action, Anchor, AnchorName, Config, Item, ItemKind, LimitName, Limits, Profile, Route, Rule,
    RuleNo, RuleTimeouts, RulesHasher, Syncookies, TableDef, TableName, TableNo, TimeoutName,
    Timeouts, count_entries, settle_items,
};
use std::alloc::Global;
use std::marker::Model;

/// What the statements say that have been read so far. Each statement is put into it when its load rules have been
/// checked. The rules of the whole text are checked last, and then it is finished.
///
/// Clauses see a `Drafted`. A call returns `NoMemory` where memory for what a statement says is refused; the draft is
/// then as before.
#[derive(Debug, Drop)]
pub struct Draft {
    profile: Profile,
    syncookies: Syncookies,
    routes: Vec<Route>,
    limits: Limits,
    timeouts: RuleTimeouts,
    tables: NamedTables,
    items: Vec<Item>,
    hasher: RulesHasher,
}

impl Model for Draft {
    ghost use Rattle.pfs_conf_settings.specs.Drafts.{Drafted};
    ghost use Rattle.pfs_conf_settings.specs.Invariants.{IsDraft};

    ghost Value = { Drafted };

    ghost view = { λ d. record { profile = d.profile; syncookies = d.syncookies; routes = d.routes.items; limits = d.limits; timeouts = d.timeouts; tables = d.tables.tables; defined = d.tables.defined; items = d.items.items } };

    ghost invariant = { λ d. IsDraft (record { profile = d.profile; syncookies = d.syncookies; routes = d.routes.items; limits = d.limits; timeouts = d.timeouts; tables = d.tables.tables; defined = d.tables.defined; items = d.items.items }) };
}

impl Draft {
    /// The draft of a text of which nothing has been read: no profile, no SYN cookies, no routes, the default limits, no timeout
    /// set, no tables and items. Its hasher was fed with nothing; for a stranger's text use `with_hasher`. It takes no memory.
    pub fn new(alloc: Global) -> Draft
        ensures { result ≡ empty_draft }
    {
        Draft::with_hasher(alloc, RulesHasher::of_text(&[]))
    }

    /// The same draft, whose tables are found by this hasher. It takes no memory.
    #[tactic(auto, using(crate::proofs::RouteDrafts::AreRoutes_none))]
    pub fn with_hasher(alloc: Global, hasher: RulesHasher) -> Draft
        ensures { result ≡ empty_draft }
    {
        Draft {
            profile: Profile::Own,
            syncookies: Syncookies::Never,
            routes: Vec::new(alloc),
            limits: Limits::DEFAULT,
            timeouts: RuleTimeouts::new(),
            tables: NamedTables::new(alloc, hasher),
            items: Vec::new(alloc),
            hasher,
        }
    }

    /// The hasher that the draft was made with.
    pub fn hasher(&self) -> RulesHasher {
        self.hasher
    }

    /// Sets the profile. It takes effect at the end of the text, also on what is read before.
    pub fn set_profile(&mut self, profile: Profile)
        ensures { self.new ≡ with_profile profile self.old }
    {
        self.profile = profile;
    }

    /// Sets whether SYNs are answered by cookies. A later value replaces an earlier one. (pf.conf(5), OPTIONS, "set syncookies")
    pub fn set_syncookies(&mut self, syncookies: Syncookies)
        requires { AreSyncookies syncookies }
        ensures { self.new ≡ with_syncookies syncookies self.old }
    {
        self.syncookies = syncookies;
    }

    /// Sets a route, which takes memory. It replaces the one with the same prefix, and stands last. It takes time in proportion to
    /// the number of routes. (own; as route(8) changes one)
    pub fn set_route(&mut self, route: Route) -> Result<(), NoMemory>
        requires { IsRoute route }
        ensures ok { OnOk result (self.new ≡ with_route route self.old) }
        ensures err { OnErr result (self.new ≡ self.old) }
    {
        put_route(&mut self.routes, route)
    }

    /// Sets a limit, 1 to 4294967295. A later value replaces an earlier one. (pf.conf(5), OPTIONS, "set limit")
    pub fn set_limit(&mut self, name: LimitName, value: u32)
        requires { IsCount value }
        ensures { self.new ≡ with_limit name value self.old }
    {
        self.limits = self.limits.with(name, value);
    }

    /// Sets a timeout: 0 to 2147483647 seconds, `interval` from 1, the adaptive two 0 to 4294967295 states. A later value
    /// replaces an earlier one. (pf.conf(5), OPTIONS, "set timeout")
    pub fn set_timeout(&mut self, name: TimeoutName, value: u32)
        requires { IsTimeout (place_of name) value }
        ensures { self.new ≡ with_timeout name value self.old }
    {
        self.timeouts.set(name.place(), value);
    }

    /// The number of the table of this name: tables are numbered from 0 by the first place that names them. A new name
    /// takes memory for one more table; until it is defined it has no entries. (own to this profile)
    pub fn number_of(&mut self, name: TableName) -> Result<TableNo, NoMemory>
        requires { is_name 31 name ≡ true }
        ensures answer { IfOk result (λ t. t.0 ≡ number_of_table name self.old) }
        ensures within { IfOk result (λ t. t.0 < length self.new.tables) }
        ensures more { length self.old.tables ≤ length self.new.tables }
        ensures ok { OnOk result (self.new ≡ with_name name self.old) }
        ensures err { OnErr result (self.new ≡ self.old) }
    {
        self.tables.number_of(name)
    }

    /// Whether the table of this name is defined.
    pub fn is_defined(&self, name: &TableName) -> bool
        ensures { result ≡ is_defined name.now self.now }
    {
        self.tables.is_defined(name)
    }

    /// Defines a table, which takes memory where its name is new. A text defines each table once; a definition would replace
    /// an earlier one. (pf.conf(5), TABLES)
    pub fn define(&mut self, table: TableDef) -> Result<(), NoMemory>
        requires { is_name 31 table.name ≡ true }
        ensures more { length self.old.tables ≤ length self.new.tables }
        ensures ok { OnOk result (self.new ≡ with_table table self.old) }
        ensures err { OnErr result (self.new ≡ self.old) }
    {
        self.tables.define(table)
    }

    /// How many rules and anchors have been read.
    pub fn item_count(&self) -> u32
        ensures { result ≡ length self.now.items }
    {
        self.items.len() as u32
    }

    /// Whether the body in which the next item will be, of this depth, has an anchor of this name already.
    pub fn has_sibling(&self, depth: u8, name: &AnchorName) -> bool
        ensures { result ≡ has_sibling depth name.now self.now.items }
    {
        has_sibling(&self.items, depth, name)
    }

    /// Appends a rule to the items, inside so many anchors, which takes memory. At most 10,000 items are allowed.
    /// (pf.conf(5), PACKET FILTERING)
    pub fn push_rule(&mut self, depth: u8, rule: Rule) -> Result<(), NoMemory>
        requires few { length self.old.items < 10000 }
        requires order { depth ≤ depth_after 0 self.old.items }
        requires shallow { depth ≤ 16 }
        requires rule { IsRule (length self.old.tables) rule }
        ensures ok { OnOk result (self.new ≡ with_item (record { depth = depth; what = ItemKind.Rule rule }) self.old) }
        ensures depth { OnOk result (depth_after 0 self.new.items ≡ depth) }
        ensures err { OnErr result (self.new ≡ self.old) }
    {
        self.push(Item {
            depth,
            what: ItemKind::Rule(rule),
        })
    }

    /// Appends the head of an anchor to the items, inside so many other anchors, which takes memory. At most 10,000
    /// items are allowed. (pf.conf(5), ANCHORS)
    pub fn push_anchor(&mut self, depth: u8, anchor: Anchor) -> Result<(), NoMemory>
        requires few { length self.old.items < 10000 }
        requires order { depth ≤ depth_after 0 self.old.items }
        requires shallow { depth ≤ 15 }
        requires anchor { IsAnchor (length self.old.tables) anchor }
        requires name { repeats_by depth anchor.name self.old.items ≡ false }
        ensures ok { OnOk result (self.new ≡ with_item (record { depth = depth; what = ItemKind.Anchor anchor }) self.old) }
        ensures depth { OnOk result (depth_after 0 self.new.items ≡ depth + 1) }
        ensures err { OnErr result (self.new ≡ self.old) }
    {
        self.push(Item {
            depth,
            what: ItemKind::Anchor(anchor),
        })
    }

    fn push(&mut self, item: Item) -> Result<(), NoMemory>
        requires few { length self.old.items < 10000 }
        requires order { item.depth ≤ depth_after 0 self.old.items }
        requires item { IsItem (length self.old.tables) item }
        requires name { repeats_name item self.old.items ≡ false }
        ensures ok { OnOk result (self.new ≡ with_item item self.old) }
        ensures depth { OnOk result (depth_after 0 self.new.items ≡ next_depth item) }
        ensures err { OnErr result (self.new ≡ self.old) }
    {
        push_item(&mut self.items, item)
    }

    /// The first rule whose `overload` names a `const` table, if there is one.
    pub fn const_overload(&self) -> Option<RuleNo>
        ensures { option_map (λ n. n.0) result ≡ const_overload self.now }
    {
        let place = const_overload(self.tables.tables(), &self.items)?;
        Some(RuleNo(place as u32))
    }

    /// Whether SYN cookies are asked for, which need the profile of OpenBSD 7.4, in a text without it. (own to this profile)
    pub fn has_unprofiled_cookies(&self) -> bool
        ensures { result ≡ has_unprofiled_cookies self.now }
    {
        match self.profile {
            Profile::Own => self.syncookies.are_sent(),
            Profile::OpenBsd74 => false,
        }
    }

    /// Whether there are routes, which need the profile of OpenBSD 7.4, in a text without it. (own to this profile)
    pub fn has_unprofiled_routes(&self) -> bool
        ensures { result ≡ has_unprofiled_routes self.now }
    {
        match self.profile {
            Profile::Own => !self.routes.is_empty(),
            Profile::OpenBsd74 => false,
        }
    }

    /// The first rule that needs the profile of OpenBSD 7.4, in a text without it, if there is one: a `match` rule, or one with
    /// `synproxy state`, `tag`, `tagged` or `received-on`.
    /// (own to this profile)
    pub fn unprofiled(&self) -> Option<RuleNo>
        ensures { option_map (λ n. n.0) result ≡ unprofiled self.now }
    {
        let place = unprofiled(self.profile, &self.items)?;
        Some(RuleNo(place as u32))
    }

    /// Whether one global adaptive value is set without the other, or both such that they are not both 0 and the start is
    /// not below the end. (pf.conf(5), OPTIONS, "set timeout")
    pub fn has_broken_pair(&self) -> bool
        ensures { result ≡ has_broken_pair self.now }
    {
        let start = self.timeouts.get(TimeoutName::AdaptiveStart);
        let end = self.timeouts.get(TimeoutName::AdaptiveEnd);
        is_broken_pair(start, end)
    }

    /// Whether the text names more tables than the limit says.
    pub fn has_too_many_tables(&self) -> bool
        ensures { result ≡ has_too_many_tables self.now }
    {
        self.tables.tables().len() > self.limits.tables as usize
    }

    /// Whether the tables have more entries together than the limit says.
    pub fn has_too_many_entries(&self) -> bool
        ensures { result ≡ has_too_many_entries self.now }
    {
        count_entries(self.tables.tables()) > u64::from(self.limits.table_entries)
    }

    /// What a text says that ends here; what it does not set has its default, and its rules have what its profile gives them. It takes
    /// no memory.
    pub fn finish(self) -> Config
        requires pair { has_broken_pair self ≡ false }
        requires overloads { const_overload self ≡ None }
        requires tables { has_too_many_tables self ≡ false }
        requires cookies { has_unprofiled_cookies self ≡ false }
        requires routes { has_unprofiled_routes self ≡ false }
        requires profile { unprofiled self ≡ None }
        requires entries { has_too_many_entries self ≡ false }
        ensures { result ≡ conf_of_draft self }
    {
        let Draft {
            profile,
            syncookies,
            routes,
            limits,
            timeouts,
            tables,
            items,
            hasher: _,
        } = self;
        let tables = tables.into_tables();
        let timeouts = Timeouts::resolved(&timeouts, profile, limits.states);
        let items = settled(profile, items);
        Config::of_parts(profile, syncookies, routes, limits, timeouts, tables, items)
    }
}

/// Puts a route last, in place of the one with the same prefix.
fn put_route(routes: &mut Vec<Route>, route: Route) -> Result<(), NoMemory>
    ensures ok { OnOk result (routes.new.items ≡ routes_with route routes.old.items) }
    ensures err { OnErr result (routes.new.items ≡ routes.old.items) }
{
    routes.reserve(1)?;
    routes.retain(|held| has_other_prefix(held, route));
    routes.push_reserved(route);
    Ok(())
}

fn has_other_prefix(held: &Route, route: Route) -> bool
    ensures { result ≡ has_other_prefix route held.now }
{
    held.prefix != route.prefix
}

/// The items of a text that ends, as they are under its profile.
fn settled(profile: Profile, items: Vec<Item>) -> Vec<Item>
    ensures { result.items ≡ settled_items profile items.items }
{
    let mut items = items;
    settle_items(profile, &mut items);
    items
}

fn has_sibling(items: &[Item], depth: u8, name: &AnchorName) -> bool
    ensures { result ≡ has_sibling depth name.now items.now }
{
    items
        .iter()
        .rev()
        .take_while(|item| item.depth >= depth)
        .any(|item| is_anchor_named(item, depth, name))
}

fn is_anchor_named(item: &Item, depth: u8, name: &AnchorName) -> bool
    ensures { result ≡ is_anchor_named depth name.now item.now }
{
    match &item.what {
        ItemKind::Rule(_) => false,
        ItemKind::Anchor(anchor) => item.depth == depth && anchor.name == Some(*name),
    }
}

fn push_item(items: &mut Vec<Item>, item: Item) -> Result<(), NoMemory>
    ensures ok { OnOk result (items.new.items ≡ items.old.items ++ item ∷ []) }
    ensures err { OnErr result (items.new.items ≡ items.old.items) }
{
    items.extend_from_slice(&[item])?;
    Ok(())
}

fn const_overload(tables: &[TableDef], items: &[Item]) -> Option<usize>
    ensures value { result ≡ position (overloads_const tables.now) items.now }
    ensures within { IfSome result (λ n. n < length items.now) }
{
    items.iter().position(|item| overloads_const(tables, item))
}

fn overloads_const(tables: &[TableDef], item: &Item) -> bool
    ensures { result ≡ overloads_const tables.now item.now }
{
    let ItemKind::Rule(rule) = &item.what else {
        return false;
    };
    let Action::Keep(options) = &rule.action else {
        return false;
    };
    let Some(overload) = options.overload else {
        return false;
    };
    match tables.get(overload.table.0 as usize) {
        Some(table) => table.is_const,
        None => false,
    }
}

fn unprofiled(profile: Profile, items: &[Item]) -> Option<usize>
    ensures value { result ≡ position (needs_profile profile) items.now }
    ensures within { IfSome result (λ n. n < length items.now) }
{
    items.iter().position(|item| needs_profile(profile, item))
}

fn needs_profile(profile: Profile, item: &Item) -> bool
    ensures { result ≡ needs_profile profile item.now }
{
    match profile {
        Profile::Own => has_synproxy(item) || marks(item),
        Profile::OpenBsd74 => false,
    }
}

fn has_synproxy(item: &Item) -> bool
    ensures { result ≡ has_synproxy item.now }
{
    let ItemKind::Rule(rule) = &item.what else {
        return false;
    };
    match &rule.action {
        Action::Keep(options) => options.synproxy,
        Action::Match | Action::Block | Action::Pass => false,
    }
}

/// Whether an item is a `match` rule, or one that gives or asks for a tag, asks for the interface by which a packet came, or translates.
fn marks(item: &Item) -> bool
    ensures { result ≡ marks_in (rule_in item.now.what) }
{
    let ItemKind::Rule(rule) = &item.what else {
        return false;
    };
    matches!(rule.action, Action::Match)
        || rule.tag.is_some()
        || rule.came.tagged.is_some()
        || rule.came.received_on.is_some()
        || rule.translation.translates()
}

fn is_broken_pair(start: Option<u32>, end: Option<u32>) -> bool
    ensures { result ≡ broken_pair start end }
{
    match (start, end) {
        (None, None) => false,
        (Some(start), Some(end)) => (start != 0 || end != 0) && start >= end,
        _ => true,
    }
}
