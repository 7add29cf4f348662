//! The items of a compiled ruleset, and where a walk goes on from each.

ghost use Rattle.std.specs.Prelude.{◌≡◌, ◌+◌, ◌<◌, ◌≤◌, ℕ, [], IfOk, Some, drop, if◌then◌else◌, length, max, nat_le, slice_get, slice_index};
ghost use Rattle.std.specs.Option.{option_and_then};
ghost use Rattle.pfs_conf_values.specs.Configs.{tag_named};
ghost use Rattle.pfs_conf_values.specs.Invariants.{IsConfig};
ghost use Rattle.pfs_conf_values.specs.Depths.{is_rule};
ghost use Rattle.pfs_conf_values.specs.declared.filters.Tagged.{Tagged};
ghost use Rattle.pfs_eval.specs.Asking.{asked_tag, given_tag};
ghost use Rattle.pfs_eval.specs.Lines.{AreLines, AreLinesFrom, IsLine, back, next_place, stop_depth_of};
ghost use Rattle.pfs_eval.specs.Skips.{AreSkipsOf, body_length};
ghost use Rattle.pfs_eval.specs.Verdict.{can_decide, enclosing, is_quick};

use crate::skips::Skips;
use pfs_addr_values::TagNo;
use pfs_conf_values::{Action, Config, Item, ItemKind, TagName, Tagged};
use std::alloc::{AllocError, Global};

/// An item, and where a walk goes on from it. A walk reads it where the item matches, and else what `Glance` keeps of it.
#[derive(Clone, Copy)]
pub struct Line {
    /// Where a walk goes on if one of the item's parameters fails.
    pub skips: Skips,
    /// Where a walk goes on if the item is a rule that matches and decides: at the next item, or after the last one where it is quick, or
    /// a `match` rule, which decides only where it loses the packet.
    pub next: u32,
    /// If it is such a rule, the walk ends at the first item of lesser depth than this: one more than the depth of the innermost
    /// quick anchor around the item, or 0 if none is quick.
    pub stop_depth: u8,
    /// The tag that the item gives, if it is a rule that gives one.
    pub given: Option<TagNo>,
    /// The tag that the item asks for, if it is a rule that asks for one, and some rule gives it.
    pub asked: Option<TagNo>,
    /// The item.
    pub item: Item,
}

/// The lines of a configuration's items.
pub fn lines(alloc: Global, config: &Config) -> Result<Vec<Line>, AllocError>
    ensures { IfOk result (λ v. AreLines config.now.items v.items) }
{
    let mut lines = short_lines(alloc, config)?;
    lengthen(config, &mut lines);
    Ok(lines)
}

/// The lines of a configuration's items, each of which skips its own body alone.
fn short_lines(alloc: Global, config: &Config) -> Result<Vec<Line>, AllocError>
    ensures { IfOk result (λ v. AreLinesFrom (length config.now.items) config.now.items v.items) }
{
    let count = config.item_count();
    let mut lines = Vec::with_capacity(alloc, count as usize)?;
    let mut stop_depths = [0u8; 18];
    for place in 0..count {
        let item = item_at(config, place);
        let stop_depth = stop_depths[item.depth as usize];
        // not `push`, whose error would carry the line
        lines.extend_from_slice(&[short_line(config, place, item, stop_depth)])?;
        set_from(&mut stop_depths, item.depth + 1, inside(item, stop_depth));
    }
    Ok(lines)
}

/// The line of an item, which skips its own body alone.
fn short_line(config: &Config, place: u32, item: &Item, stop_depth: u8) -> Line
    requires place { place < length config.now.items }
    requires at { slice_get config.now.items place ≡ Some item.now }
    requires stop { stop_depth ≡ stop_depth_of (enclosing item.now.depth (back place [] config.now.items)) }
    ensures { IsLine config.now.items place item.now result }
{
    let next = next_place(config, place, &item.what);
    Line {
        skips: Skips::all_to(body_end(config, place + 1, item.depth)),
        next,
        stop_depth,
        given: given_tag(config, &item.what),
        asked: asked_tag(config, &item.what),
        item: *item,
    }
}

/// Lets each line skip as far as it may, from the last to the first.
fn lengthen(config: &Config, lines: &mut [Line])
    requires { AreLinesFrom (length config.now.items) config.now.items lines.old }
    ensures { AreLines config.now.items lines.new }
{
    for place in (0..config.item_count()).rev() {
        lines[place as usize].skips = skips_at(config, lines, place);
    }
}

/// The skips of the item at a place, from those of the items after it.
fn skips_at(config: &Config, lines: &[Line], place: u32) -> Skips
    requires place { place < length config.now.items }
    requires lines { AreLinesFrom (place + 1) config.now.items lines.now }
    ensures { AreSkipsOf config.now.items place result }
{
    let line = &lines[place as usize];
    let behind = body_end(config, place + 1, line.item.depth);
    match lines.get(behind as usize) {
        Some(next) => {
            if next.item.depth == line.item.depth {
                Skips::joined(&line.item.what, &next.item.what, behind, &next.skips)
            } else {
                Skips::all_to(behind)
            }
        }
        None => Skips::all_to(behind),
    }
}

/// The tag that a rule gives.
fn given_tag(config: &Config, what: &ItemKind) -> Option<TagNo>
    ensures { result ≡ given_tag config.now.items what.now }
{
    match what {
        ItemKind::Rule(rule) => tag_named(config, &rule.tag),
        ItemKind::Anchor(_) => None,
    }
}

/// The tag that a rule asks for.
fn asked_tag(config: &Config, what: &ItemKind) -> Option<TagNo>
    ensures { result ≡ asked_tag config.now.items what.now }
{
    match what {
        ItemKind::Rule(rule) => tag_asked(config, &rule.came.tagged),
        ItemKind::Anchor(_) => None,
    }
}

fn tag_named(config: &Config, name: &Option<TagName>) -> Option<TagNo>
    ensures { result ≡ option_and_then (tag_named config.now.items) name.now }
{
    match name {
        Some(name) => config.tag_named(name),
        None => None,
    }
}

fn tag_asked(config: &Config, tagged: &Option<Tagged>) -> Option<TagNo>
    ensures { result ≡ option_and_then (λ (t : Tagged). tag_named config.now.items t.name) tagged.now }
{
    match tagged {
        Some(tagged) => config.tag_named(&tagged.name),
        None => None,
    }
}

/// Where a walk goes on after a rule that decides: a quick one ends it, and a `match` rule, which lost the packet.
fn next_place(config: &Config, place: u32, what: &ItemKind) -> u32
    requires { place < length config.now.items }
    ensures { result ≡ next_place config.now.items place what.now }
{
    let count = config.item_count();
    if is_rule(what) && (is_quick(what) || !can_decide(what)) {
        count
    } else {
        place + 1
    }
}

/// The first place, from one on, whose item is not deeper than this, or the number of items.
fn body_end(config: &Config, from: u32, depth: u8) -> u16
    requires { from ≤ length config.now.items }
    ensures value { result ≡ from + body_length depth (drop from config.now.items) }
    ensures most { result ≤ length config.now.items }
{
    let count = config.item_count();
    for place in from..count {
        if item_at(config, place).depth <= depth {
            return place as u16;
        }
    }
    count as u16
}

/// The item at a place, which is one of the configuration's.
pub fn item_at(config: &Config, place: u32) -> &Item
    requires { place < length config.now.items }
    ensures item { slice_get config.now.items place ≡ Some result.now }
    ensures shallow { result.now.depth ≤ 16 }
{
    config.item(place).unwrap()
}

/// The stop depth of rules in an item's body, from that of the item.
fn inside(item: &Item, stop_depth: u8) -> u8
    requires { item.now.depth ≤ 16 }
    ensures { result ≡ (if is_quick item.now.what then max (item.now.depth + 1) stop_depth else stop_depth) }
{
    if is_quick(&item.what) {
        stop_depth.max(item.depth + 1)
    } else {
        stop_depth
    }
}

/// Whether this is a rule, and no anchor.
pub fn is_rule(what: &ItemKind) -> bool
    ensures { result ≡ is_rule what.now }
{
    matches!(what, ItemKind::Rule(_))
}

/// Whether this is a rule that can decide: no anchor, and no `match` rule.
pub fn can_decide(what: &ItemKind) -> bool
    ensures { result ≡ can_decide what.now }
{
    match what {
        ItemKind::Rule(rule) => !matches!(rule.action, Action::Match),
        ItemKind::Anchor(_) => false,
    }
}

/// Whether a rule or an anchor has `quick`.
pub fn is_quick(what: &ItemKind) -> bool
    ensures { result ≡ is_quick what.now }
{
    match what {
        ItemKind::Rule(rule) => rule.quick,
        ItemKind::Anchor(anchor) => anchor.quick,
    }
}

/// Writes a value at each place from one on.
fn set_from(stop_depths: &mut [u8; 18], from: u8, value: u8)
    ensures { (d : ℕ) → d < 18 → slice_index stop_depths.new d ≡ (if nat_le from d then value else slice_index stop_depths.old d) }
{
    for d in from as usize..18 {
        stop_depths[d] = value;
    }
}
