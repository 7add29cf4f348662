//! Rules texts that more than one call begins with.

/// A node is kept for its retention.
pub const NODES: &[u8] = b"set timeout { adaptive.start 0, adaptive.end 0 }\n\
    set timeout { src.track 20, interval 1, udp.first 5 }\n\
    pass in proto udp all keep state (max-src-nodes 1)\n";

/// A source that has too many connections is put into a table, and its states are flushed.
pub const OVERLOAD: &[u8] = b"set timeout { adaptive.start 0, adaptive.end 0 }\n\
    block quick from <bad>\npass in proto udp all\n\
    pass in proto tcp to any port 80 keep state (max-src-conn 1, overload <bad> flush)\n";

/// The tables have no room for one.
pub const FULL: &[u8] = b"set timeout { adaptive.start 0, adaptive.end 0 }\n\
    set limit table-entries 1\ntable <bad> { 203.0.113.9 }\n\
    pass in proto tcp to any port 80 keep state (max-src-conn 1, overload <bad>)\n";
