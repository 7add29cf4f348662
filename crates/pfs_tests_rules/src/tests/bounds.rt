//! The most comparisons of items with a packet that an evaluation needs, counted over the items in their order.

use pfs_addr_values::Packet;
use pfs_conf::{Config, Filter, Item, ItemKind};

/// Whether what is asked of direction, interface, protocol and the port that a packet goes to holds. The rules that are counted
/// here ask nothing else.
fn holds(filter: &Filter, packet: &Packet) -> bool {
    is_so(filter.dir, packet.dir())
        && is_so(filter.proto, packet.proto())
        && match filter.on {
            Some(on) => packet.is_on(&on.name) != on.negated,
            None => true,
        }
        && match filter.to.ports {
            Some(ports) => ports.low <= packet.dport() && packet.dport() <= ports.high,
            None => true,
        }
}

fn is_so<T: PartialEq + Copy>(asked: Option<T>, told: T) -> bool {
    match asked {
        Some(asked) => asked == told,
        None => true,
    }
}

/// The most comparisons that a packet needs: one for each item outside of anchors, and one for each item directly in
/// an anchor that matches and is before the cut. No anchor comes after a quick one in the texts that are counted
/// here, so a quick rule alone cuts.
pub fn visit_bound(config: &Config, packet: &Packet) -> u64 {
    let mut bound = 0u64;
    // items that have fewer anchors than this around them are compared
    let mut open = 1u8;
    let mut is_cut = false;
    for number in 0..config.item_count() {
        if let Some(item) = config.item(number)
            && item.depth < open
        {
            bound = bound.saturating_add(1);
            is_cut = is_cut || is_quick_rule(item, packet);
            let opened = if !is_cut && is_open_anchor(item, packet) {
                2
            } else {
                1
            };
            open = item.depth.saturating_add(opened);
        }
    }
    bound
}

fn is_quick_rule(item: &Item, packet: &Packet) -> bool {
    match &item.what {
        ItemKind::Rule(rule) => rule.quick && holds(&rule.filter, packet),
        ItemKind::Anchor(_) => false,
    }
}

fn is_open_anchor(item: &Item, packet: &Packet) -> bool {
    match &item.what {
        ItemKind::Rule(_) => false,
        ItemKind::Anchor(anchor) => holds(&anchor.filter, packet),
    }
}
