//! The lines of rules and anchors, and the whole text.

ghost use Rattle.std.specs.Prelude.{◌≡◌, ◌≤◌, ◌-◌, ◌++◌, IfOk, OnOk};
ghost use Rattle.pfs_conf_values.specs.Order.{next_depth};
ghost use Rattle.pfs_conf_show.specs.Texts.{anchor_text, braces_text, items_text, name_text, rule_text, text_of, verb_text, what_text};

use crate::extras::push_extras;
use crate::filters::push_parameters;
use crate::options::push_state;
use crate::settings::{push_limits, push_profile, push_routes, push_syncookies, push_timeouts};
use crate::tables::push_tables;
use crate::translations::push_translation;
use pfs_addr_values::NoMemory;
use pfs_conf_values::{Action, Anchor, AnchorName, Config, Item, ItemKind, Rule};
use std::alloc::Global;

/// The canonical text of a configuration: `set limit` with all limits, `set timeout` with all timeouts as resolved,
/// `set profile` if the text has it, `set syncookies` unless never, `set route` with all routes if there are any, a line for each
/// table by its number, and the items in order, each anchor closed by a line `}`. Under the profile rules are shown as it settled
/// them: with `sloppy`, and with the adaptive pair of their `max`. Every line ends with a line feed, words are one space apart, and
/// no line is indented. Equal configurations have equal texts, and a text of at most 1,048,576 bytes whose `adaptive.end` is at most 4294967295 reads as the same configuration again.
///
/// It takes memory for the text, and time in proportion to its length. `NoMemory` where memory for the text was
/// refused. (pf.conf(5), GRAMMAR, for the words; the form is own to this profile)
pub fn show(alloc: Global, config: &Config) -> Result<Vec<u8>, NoMemory>
    ensures { IfOk result (λ v. v.items ≡ text_of config.now) }
{
    let mut out = Vec::new(alloc);
    push_limits(&mut out, config)?;
    push_timeouts(&mut out, config)?;
    push_profile(&mut out, config.profile())?;
    push_syncookies(&mut out, config.syncookies())?;
    push_routes(&mut out, config.routes())?;
    push_tables(&mut out, config)?;
    push_items(&mut out, config)?;
    Ok(out)
}

fn push_items(out: &mut Vec<u8>, config: &Config) -> Result<(), NoMemory>
    ensures { OnOk result (out.new.items ≡ out.old.items ++ items_text config.now.tables 0 config.now.items) }
{
    let mut depth = 0;
    for number in 0..config.item_count() {
        if let Some(item) = config.item(number) {
            depth = push_item(out, config, depth, item)?;
        }
    }
    push_braces(out, depth)
}

/// Closes the anchors that the item is not in, and writes the item. `depth` anchors are open before it; the answer is
/// how many are open after it.
fn push_item(out: &mut Vec<u8>, config: &Config, depth: u8, item: &Item) -> Result<u8, NoMemory>
    requires { item.now.depth ≤ 16 }
    ensures text { OnOk result (out.new.items ≡ out.old.items
        ++ (braces_text (depth - item.now.depth) ++ what_text config.now.tables item.now.what)) }
    ensures depth { IfOk result (λ d. d ≡ next_depth item.now) }
{
    push_braces(out, depth.saturating_sub(item.depth))?;
    push_what(out, config, &item.what)?;
    match item.what {
        ItemKind::Rule(_) => Ok(item.depth),
        ItemKind::Anchor(_) => Ok(item.depth + 1),
    }
}

fn push_braces(out: &mut Vec<u8>, count: u8) -> Result<(), NoMemory>
    ensures { OnOk result (out.new.items ≡ out.old.items ++ braces_text count) }
{
    for _ in 0..count {
        out.extend_from_slice(b"}\n")?;
    }
    Ok(())
}

fn push_what(out: &mut Vec<u8>, config: &Config, what: &ItemKind) -> Result<(), NoMemory>
    ensures { OnOk result (out.new.items ≡ out.old.items ++ what_text config.now.tables what.now) }
{
    match what {
        ItemKind::Rule(rule) => push_rule(out, config, rule),
        ItemKind::Anchor(anchor) => push_anchor(out, config, anchor),
    }
}

fn push_rule(out: &mut Vec<u8>, config: &Config, rule: &Rule) -> Result<(), NoMemory>
    ensures { OnOk result (out.new.items ≡ out.old.items ++ rule_text config.now.tables rule.now) }
{
    push_verb(out, &rule.action)?;
    push_parameters(out, config, rule.quick, &rule.filter)?;
    push_extras(out, rule.tag, rule.came)?;
    push_translation(out, rule.translation)?;
    push_state(out, config, &rule.action)?;
    out.extend_from_slice(b"\n")?;
    Ok(())
}

fn push_verb(out: &mut Vec<u8>, action: &Action) -> Result<(), NoMemory>
    ensures { OnOk result (out.new.items ≡ out.old.items ++ verb_text action.now) }
{
    match action {
        Action::Match => out.extend_from_slice(b"match")?,
        Action::Block => out.extend_from_slice(b"block")?,
        Action::Pass | Action::Keep(_) => out.extend_from_slice(b"pass")?,
    }
    Ok(())
}

fn push_anchor(out: &mut Vec<u8>, config: &Config, anchor: &Anchor) -> Result<(), NoMemory>
    ensures { OnOk result (out.new.items ≡ out.old.items ++ anchor_text config.now.tables anchor.now) }
{
    out.extend_from_slice(b"anchor")?;
    push_anchor_name(out, anchor.name)?;
    push_parameters(out, config, anchor.quick, &anchor.filter)?;
    out.extend_from_slice(b" {\n")?;
    Ok(())
}

fn push_anchor_name(out: &mut Vec<u8>, name: Option<AnchorName>) -> Result<(), NoMemory>
    ensures { OnOk result (out.new.items ≡ out.old.items ++ name_text name) }
{
    if let Some(name) = name {
        out.extend_from_slice(b" \"")?;
        out.extend_from_slice(name.as_bytes())?;
        out.extend_from_slice(b"\"")?;
    }
    Ok(())
}
