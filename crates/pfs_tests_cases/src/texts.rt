//! Rules texts that more than one crate of tests begins with.

use crate::errors::{CaseError, grown};
use pfs_conf::{Config, load};
use std::alloc::Global;

/// The first line of a trace.
pub const HEADER: &str = "time,dir,if,proto,src,sport,dst,dport,flags\n";

/// No state is given a shorter life under load.
pub const UNSCALED: &str = "set timeout { adaptive.start 0, adaptive.end 0 }\n";

/// Anchors, of which the second one is quick.
pub const ANCHORED: &str = "block all
anchor \"a\" in {
pass quick proto udp to any port 53 no state
anchor out {
pass
}
pass proto tcp no state
}
anchor \"b\" quick proto tcp {
pass proto tcp to any port 22 no state
}
pass in proto udp no state
";

/// Every statement, and its canonical text.
pub const EVERYTHING: &[u8] = b"set limit states 50\n\
    table <bad> persist { 10.1.2.3/8, !10.9.9.9 }\n\
    block return in quick on ! em1 from <bad>\n\
    anchor \"web\" in on em0 proto tcp {\n\
    \x20 pass proto tcp to any port www keep state \\\n\
    \x20   (max-src-conn-rate 3/10, overload <worse> flush global, max 9)\n\
    }\n";

pub const SHOWN: &[u8] =
    b"set limit { states 50, src-nodes 10000, tables 1000, table-entries 200000 }\n\
    set timeout { tcp.first 120, tcp.opening 30, tcp.established 86400, tcp.closing 900, tcp.finwait 45, \
    tcp.closed 90, udp.first 60, udp.single 30, udp.multiple 60, other.first 60, other.single 30, \
    other.multiple 60, src.track 0, interval 10, adaptive.start 30, adaptive.end 60 }\n\
    table <bad> { 10.0.0.0/8, !10.9.9.9 }\n\
    table <worse>\n\
    block in quick on !em1 from <bad> to any flags any\n\
    anchor \"web\" in on em0 proto tcp all flags any {\n\
    pass proto tcp from any to any port 80 flags S/SA keep state (max 9, source-track rule, \
    max-src-conn-rate 3/10, overload <worse> flush global)\n\
    }\n";

/// The configuration of two texts, one after the other.
pub fn configured(alloc: Global, first: &str, rules: &str) -> Result<Config, CaseError> {
    let mut text = grown(Vec::from_slice(alloc, first.as_bytes()))?;
    grown(text.extend_from_slice(rules.as_bytes()))?;
    Ok(load(alloc, &text)?)
}
