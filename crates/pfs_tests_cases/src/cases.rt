//! The cases, by what they are about: limits on states, limits on connections, purges, old entries, and what an administrator adds,
//! takes out, kills and asks.

use crate::packets::{A1, A2};
use crate::rows::{Case, RowEvent};
use crate::texts::UNSCALED;
use pfs_addr_values::Addr;

const A3: Addr = Addr::V4([198, 51, 100, 3]);

const A4: Addr = Addr::V4([198, 51, 100, 4]);

const A5: Addr = Addr::V4([198, 51, 100, 5]);

const A6: Addr = Addr::V4([198, 51, 100, 6]);

const A7: Addr = Addr::V4([198, 51, 100, 7]);

const A8: Addr = Addr::V4([198, 51, 100, 8]);

const A9: Addr = Addr::V4([198, 51, 100, 9]);

/// The host that the rules put into the table.
const BAD: Addr = Addr::V4([203, 0, 113, 9]);

const UDP: RowEvent = RowEvent::Udp(53);

const OTHER: RowEvent = RowEvent::Udp(54);

const SHAKE: RowEvent = RowEvent::Shake(0);

const CONN: &str = "kill:max-src-conn @0 overload=none killed=1";

const RATE: &str = "kill:max-src-conn-rate @0 overload=none killed=1";

const BOTH: &str = "kill:max-src-conn+max-src-conn-rate @0 overload=none killed=1";

const ADDED: &str = "kill:max-src-conn @0 overload=added killed=1";

const HELD: &str = "kill:max-src-conn @0 overload=held killed=1";

const FULL: &str = "kill:max-src-conn @0 overload=full killed=1";

/// What is told where an entry was taken out, and where there was none.
pub const REMOVED: &str = "delete - removed=1";

pub const NOT_REMOVED: &str = "delete - removed=0";

const FLUSHED: &str = "kill:max-src-conn @1 overload=added killed=2";

/// How many scenarios there are.
pub const SCENARIO_COUNT: usize = 13;

/// The cases of a scenario, which events and replays are tried with, and a first line of rules for each of them; none past the last.
pub fn scenario(number: usize) -> Option<(&'static str, &'static [Case])> {
    match number {
        0 => Some((UNSCALED, ADMISSIONS)),
        1 => Some((UNSCALED, REFUSALS)),
        2 => Some((UNSCALED, CONNECTIONS)),
        3 => Some((UNSCALED, RATES)),
        4 => Some((UNSCALED, KEPT)),
        5 => Some((UNSCALED, OVERLOADS)),
        6 => Some((UNSCALED, LIVES)),
        7 => Some((UNSCALED, ROUNDS)),
        8 => Some((UNSCALED, EXPIRIES)),
        9 => Some((UNSCALED, ENTRIES)),
        10 => Some((UNSCALED, AMOUNTS)),
        11 => Some(("", SCALED)),
        12 => Some((UNSCALED, KILLS)),
        _ => None,
    }
}

// ---- limits on states and source nodes

pub const THIRD_STATE: Case = Case {
    shows: "the limit of all states",
    rules: "set limit states 2\npass in proto udp all",
    rows: &[
        (5, UDP, A1, 1000, "new @0"),
        (5, UDP, A2, 1000, "new @0"),
        (5, UDP, A3, 1000, "drop:states @0"),
    ],
    end: (2, 0, 0),
};

/// The limits on states and on source nodes.
const ADMISSIONS: &[Case] = &[
    THIRD_STATE,
    Case {
        shows: "max is asked before the limit of all states",
        rules: "set limit states 1\npass in proto udp all keep state (max 1)",
        rows: &[
            (5, UDP, A1, 1000, "new @0"),
            (5, UDP, A2, 1000, "drop:max @0"),
        ],
        end: (1, 0, 0),
    },
    Case {
        shows: "the maximum of a rule is asked first, and of that rule alone",
        rules: "set limit states 1\npass in proto udp to port 54\npass in proto udp to port 53 keep state (max 1)",
        rows: &[
            (5, UDP, A1, 1000, "new @1"),
            (5, UDP, A2, 1000, "drop:max @1"),
            (5, OTHER, A2, 1000, "drop:states @0"),
        ],
        end: (1, 0, 0),
    },
    Case {
        shows: "each source has its own states",
        rules: "pass in proto udp all keep state (max-src-states 2)",
        rows: &[
            (5, UDP, A1, 1, "new @0"),
            (5, UDP, A1, 2, "new @0"),
            (5, UDP, A1, 3, "drop:max-src-states @0"),
            (5, UDP, A2, 1, "new @0"),
        ],
        end: (3, 2, 0),
    },
    Case {
        shows: "a source has a maximum of states over all rules",
        rules: "pass in proto udp all keep state (source-track global, max-src-states 2)",
        rows: &[
            (5, UDP, A1, 1, "new @0"),
            (5, UDP, A1, 2, "new @0"),
            (5, UDP, A1, 3, "drop:max-src-states @0"),
            (5, UDP, A2, 1, "new @0"),
        ],
        end: (3, 2, 0),
    },
];

/// What a refusal leaves, and rules that share source nodes.
const REFUSALS: &[Case] = &[
    Case {
        shows: "a refusal for the limit of states makes no node",
        rules: "set limit { states 1, src-nodes 5 }\npass in proto udp all keep state (source-track rule)",
        rows: &[(5, UDP, A1, 1, "new @0"), (5, UDP, A2, 1, "drop:states @0")],
        end: (1, 1, 0),
    },
    Case {
        shows: "nor does one for the limit of nodes",
        rules: "set limit { states 9, src-nodes 1 }\npass in proto udp all keep state (source-track rule)",
        rows: &[
            (5, UDP, A1, 1, "new @0"),
            (5, UDP, A2, 1, "drop:src-nodes @0"),
        ],
        end: (1, 1, 0),
    },
    Case {
        shows: "and a source with a node is not refused for it",
        rules: "set limit { states 9, src-nodes 1 }\npass in proto udp all keep state (source-track rule)",
        rows: &[
            (5, UDP, A1, 1, "new @0"),
            (5, UDP, A2, 1, "drop:src-nodes @0"),
            (5, UDP, A1, 2, "new @0"),
        ],
        end: (2, 1, 0),
    },
    Case {
        shows: "rules share a node, and each has its own maximum",
        rules: "pass in proto udp to any port 53 keep state (source-track global, max-src-states 2)\n\
            pass in proto udp to any port 54 keep state (source-track global, max-src-states 5)",
        rows: &[
            (0, OTHER, A1, 1, "new @1"),
            (0, OTHER, A1, 2, "new @1"),
            (0, OTHER, A1, 3, "new @1"),
            (0, OTHER, A1, 4, "new @1"),
            (0, OTHER, A1, 5, "new @1"),
            (0, OTHER, A1, 6, "drop:max-src-states @1"),
            (0, UDP, A1, 7, "drop:max-src-states @0"),
        ],
        end: (5, 1, 0),
    },
    Case {
        shows: "in whichever order the rules are written",
        rules: "pass in proto udp to any port 54 keep state (source-track global, max-src-states 5)\n\
            pass in proto udp to any port 53 keep state (source-track global, max-src-states 2)",
        rows: &[
            (0, OTHER, A1, 1, "new @0"),
            (0, OTHER, A1, 2, "new @0"),
            (0, OTHER, A1, 3, "new @0"),
            (0, OTHER, A1, 4, "new @0"),
            (0, OTHER, A1, 5, "new @0"),
            (0, OTHER, A1, 6, "drop:max-src-states @0"),
            (0, UDP, A1, 7, "drop:max-src-states @1"),
        ],
        end: (5, 1, 0),
    },
    Case {
        shows: "a dropped packet changes nothing held",
        rules: "set limit states 1\ntable <bad> { 198.51.100.2 }\n\
            pass in proto udp all keep state (source-track rule)",
        rows: &[
            (5, UDP, A1, 1, "new @0"),
            (5, UDP, A2, 1, "drop:states @0"),
            (5, UDP, A2, 2, "drop:states @0"),
            (5, UDP, A2, 3, "drop:states @0"),
            (5, UDP, A1, 1, "state @0"),
        ],
        end: (1, 1, 1),
    },
];

// ---- limits on connections, overload tables and flushes

pub const SECOND_CONNECTION: Case = Case {
    shows: "the second connection is killed",
    rules: "pass in proto tcp to any port 80 keep state (max-src-conn 1)",
    rows: &[(0, SHAKE, A1, 1000, "state @0"), (0, SHAKE, A1, 1001, CONN)],
    end: (1, 1, 0),
};

/// How many connections a source may have.
const CONNECTIONS: &[Case] = &[
    SECOND_CONNECTION,
    Case {
        shows: "both limits are told",
        rules: "pass in proto tcp to any port 80 keep state (max-src-conn 1, max-src-conn-rate 1/10)",
        rows: &[(0, SHAKE, A1, 1000, "state @0"), (0, SHAKE, A1, 1001, BOTH)],
        end: (1, 1, 0),
    },
];

const THREE_IN_TEN: &str = "pass in proto tcp to any port 80 keep state (max-src-conn-rate 3/10)";

/// How many it may make in a time.
const RATES: &[Case] = &[
    Case {
        shows: "four connections at once are past a rate of three",
        rules: THREE_IN_TEN,
        rows: &[
            (0, SHAKE, A1, 1, "state @0"),
            (0, SHAKE, A1, 2, "state @0"),
            (0, SHAKE, A1, 3, "state @0"),
            (0, SHAKE, A1, 4, RATE),
        ],
        end: (3, 1, 0),
    },
    Case {
        shows: "so are four in four seconds",
        rules: THREE_IN_TEN,
        rows: &[
            (0, SHAKE, A1, 1, "state @0"),
            (1, SHAKE, A1, 2, "state @0"),
            (2, SHAKE, A1, 3, "state @0"),
            (3, SHAKE, A1, 4, RATE),
        ],
        end: (3, 1, 0),
    },
    Case {
        shows: "a part of the score is left after nine seconds",
        rules: THREE_IN_TEN,
        rows: &[
            (0, SHAKE, A1, 1, "state @0"),
            (0, SHAKE, A1, 2, "state @0"),
            (0, SHAKE, A1, 3, "state @0"),
            (9, SHAKE, A1, 4, "state @0"),
            (9, SHAKE, A1, 5, "state @0"),
            (9, SHAKE, A1, 6, RATE),
        ],
        end: (5, 1, 0),
    },
    Case {
        shows: "nothing of the score is left after ten seconds",
        rules: THREE_IN_TEN,
        rows: &[
            (0, SHAKE, A1, 1, "state @0"),
            (0, SHAKE, A1, 2, "state @0"),
            (0, SHAKE, A1, 3, "state @0"),
            (10, SHAKE, A1, 4, "state @0"),
            (10, SHAKE, A1, 5, "state @0"),
            (10, SHAKE, A1, 6, "state @0"),
        ],
        end: (6, 1, 0),
    },
    Case {
        shows: "the score outlives the states",
        rules: "set timeout { tcp.closed 2, src.track 0, interval 1 }\n\
            pass in proto tcp to any port 80 keep state (max-src-conn-rate 3/10)",
        rows: &[
            (0, SHAKE, A1, 1, "state @0"),
            (0, SHAKE, A1, 2, "state @0"),
            (0, SHAKE, A1, 3, "state @0"),
            (0, RowEvent::Reset, A1, 1, "state @0"),
            (0, RowEvent::Reset, A1, 2, "state @0"),
            (0, RowEvent::Reset, A1, 3, "state @0"),
            (9, SHAKE, A1, 4, "state @0"),
            (9, SHAKE, A1, 5, "state @0"),
            (9, SHAKE, A1, 6, RATE),
        ],
        end: (2, 1, 0),
    },
];

const ONE_IN_FOUR: &str = "set timeout { tcp.closed 0, src.track 0, interval 1 }\n\
    pass in proto tcp to any port 80 keep state (max-src-conn-rate 1/4)";

/// How long its score keeps its source node.
const KEPT: &[Case] = &[
    Case {
        shows: "a node is kept as long as its score counts",
        rules: ONE_IN_FOUR,
        rows: &[
            (0, SHAKE, A1, 1, "state @0"),
            (0, RowEvent::Reset, A1, 1, "state @0"),
            (3, SHAKE, A1, 2, RATE),
        ],
        end: (0, 1, 0),
    },
    Case {
        shows: "the old node has no score after four seconds",
        rules: ONE_IN_FOUR,
        rows: &[
            (0, SHAKE, A1, 1, "state @0"),
            (0, RowEvent::Reset, A1, 1, "state @0"),
            (4, SHAKE, A1, 2, "state @0"),
        ],
        end: (1, 1, 0),
    },
    Case {
        shows: "nor has a new one",
        rules: ONE_IN_FOUR,
        rows: &[
            (0, SHAKE, A1, 1, "state @0"),
            (0, RowEvent::Reset, A1, 1, "state @0"),
            (5, SHAKE, A1, 2, "state @0"),
        ],
        end: (1, 1, 0),
    },
];

pub const FLUSH: Case = Case {
    shows: "overload blocks the next packet, and flush kills the states of the rule",
    rules: "block quick from <bad>\npass in proto udp all\n\
        pass in proto tcp to any port 80 keep state (max-src-conn 1, overload <bad> flush)",
    rows: &[
        (0, RowEvent::Udp(53), A1, 53000, "new @1"),
        (0, RowEvent::Shake(2), A1, 1000, "state @2"),
        (
            0,
            RowEvent::Shake(2),
            A1,
            1001,
            "kill:max-src-conn @2 overload=added killed=2",
        ),
        (0, RowEvent::Syn, A1, 1002, "block @0"),
    ],
    end: (1, 1, 1),
};

pub const FLUSH_GLOBAL: Case = Case {
    shows: "flush global kills the states of all rules",
    rules: "block quick from <bad>\npass in proto udp all\n\
        pass in proto tcp to any port 80 keep state (max-src-conn 1, overload <bad> flush global)",
    rows: &[
        (0, RowEvent::Udp(53), A1, 53000, "new @1"),
        (0, RowEvent::Shake(2), A1, 1000, "state @2"),
        (
            0,
            RowEvent::Shake(2),
            A1,
            1001,
            "kill:max-src-conn @2 overload=added killed=3",
        ),
        (0, RowEvent::Syn, A1, 1002, "block @0"),
    ],
    end: (0, 1, 1),
};

/// Sources that are put into overload tables.
const OVERLOADS: &[Case] = &[
    FLUSH,
    FLUSH_GLOBAL,
    Case {
        shows: "without flush the state alone is killed",
        rules: "block quick from <bad>\npass in proto udp all\n\
            pass in proto tcp to any port 80 keep state (max-src-conn 1, overload <bad>)",
        rows: &[
            (0, RowEvent::Udp(53), A1, 53000, "new @1"),
            (0, RowEvent::Shake(2), A1, 1000, "state @2"),
            (
                0,
                RowEvent::Shake(2),
                A1,
                1001,
                "kill:max-src-conn @2 overload=added killed=1",
            ),
            (0, RowEvent::Syn, A1, 1002, "block @0"),
        ],
        end: (2, 1, 1),
    },
    Case {
        shows: "the tables are full, and the state is killed",
        rules: "set limit table-entries 1\ntable <bad> { 203.0.113.9 }\n\
            pass in proto tcp to any port 80 keep state (max-src-conn 1, overload <bad>)",
        rows: &[(0, SHAKE, A1, 1000, "state @0"), (0, SHAKE, A1, 1001, FULL)],
        end: (1, 1, 1),
    },
    Case {
        shows: "a host that is an entry stays one in full tables",
        rules: "set limit table-entries 1\ntable <bad> { 203.0.113.9 }\n\
            pass in proto tcp to any port 80 keep state (max-src-conn 1, overload <bad>)",
        rows: &[
            (0, SHAKE, BAD, 1000, "state @0"),
            (0, SHAKE, BAD, 1001, HELD),
        ],
        end: (1, 1, 1),
    },
    Case {
        shows: "a source is added once, and others keep their connections",
        rules: "set limit table-entries 2\ntable <bad> { 203.0.113.9 }\n\
            pass in proto tcp to any port 80 keep state (max-src-conn 1, overload <bad>)",
        rows: &[
            (0, SHAKE, A1, 1000, "state @0"),
            (0, SHAKE, A1, 1001, ADDED),
            (0, SHAKE, A1, 1002, HELD),
            (0, SHAKE, A2, 1000, "state @0"),
        ],
        end: (2, 2, 2),
    },
];

// ---- states and source nodes that leave with time

pub const RETENTION: Case = Case {
    shows: "a node without states is kept for its retention",
    rules: "set timeout { src.track 20, interval 1, udp.first 5 }\n\
        pass in proto udp all keep state (max-src-nodes 1)",
    rows: &[
        (0, UDP, A1, 1, "new @0"),
        (10, UDP, A2, 1, "drop:max-src-nodes @0"),
        (30, UDP, A2, 1, "new @0"),
    ],
    end: (1, 1, 0),
};

const CLOSING: &str = "set timeout interval 1\npass in proto tcp to any port 80";

const SINGLE: &str = "set timeout { udp.single 2, interval 1 }\npass in proto udp all";

/// How long states and source nodes live.
const LIVES: &[Case] = &[
    RETENTION,
    Case {
        shows: "one half of a closed connection was seen, and the state lives",
        rules: CLOSING,
        rows: &[
            (0, RowEvent::Syn, A1, 1, "new @0"),
            (0, RowEvent::Ack, A1, 1, "state @0"),
            (0, RowEvent::Fin, A1, 1, "state @0"),
            (44, RowEvent::Ping, A1, 0, "skip -"),
        ],
        end: (1, 0, 0),
    },
    Case {
        shows: "for 45 seconds",
        rules: CLOSING,
        rows: &[
            (0, RowEvent::Syn, A1, 1, "new @0"),
            (0, RowEvent::Ack, A1, 1, "state @0"),
            (0, RowEvent::Fin, A1, 1, "state @0"),
            (45, RowEvent::Ping, A1, 0, "skip -"),
        ],
        end: (0, 0, 0),
    },
    Case {
        shows: "a packet renews its state",
        rules: SINGLE,
        rows: &[
            (0, UDP, A1, 1, "new @0"),
            (1, UDP, A1, 1, "state @0"),
            (2, RowEvent::Ping, A1, 0, "skip -"),
        ],
        end: (1, 0, 0),
    },
    Case {
        shows: "for the time that its phase gives",
        rules: SINGLE,
        rows: &[
            (0, UDP, A1, 1, "new @0"),
            (1, UDP, A1, 1, "state @0"),
            (3, RowEvent::Ping, A1, 0, "skip -"),
        ],
        end: (0, 0, 0),
    },
    Case {
        shows: "an expired state that was not purged is renewed",
        rules: "set timeout udp.first 0\npass in proto udp all",
        rows: &[(0, UDP, A1, 1, "new @0"), (0, UDP, A1, 1, "state @0")],
        end: (1, 0, 0),
    },
];

/// Six states may be held, and a slice examines two.
pub const FLOOD: Case = Case {
    shows: "a flood does not keep an expired state from the purge",
    rules: "set limit states 6\nset timeout { interval 5, tcp.first 4, udp.first 1 }\npass",
    rows: &[
        (0, RowEvent::Syn, A1, 1, "new @0"),
        (0, UDP, A2, 1, "new @0"),
        (0, UDP, A2, 2, "new @0"),
        (1, UDP, A2, 3, "new @0"),
        (1, UDP, A2, 4, "new @0"),
        (2, UDP, A2, 5, "new @0"),
        (2, UDP, A2, 6, "new @0"),
        (3, UDP, A2, 7, "new @0"),
        (3, UDP, A2, 8, "new @0"),
        (4, UDP, A2, 9, "new @0"),
        (4, UDP, A2, 10, "new @0"),
        (5, UDP, A2, 11, "new @0"),
        (5, UDP, A2, 12, "drop:states @0"),
        (6, RowEvent::Ping, A1, 0, "skip -"),
    ],
    end: (4, 0, 0),
};

/// Purges in rounds.
const ROUNDS: &[Case] = &[
    FLOOD,
    // four nodes may be held, and a slice examines three
    Case {
        shows: "a slice of the nodes does not go on into the next round",
        rules: "set limit { states 100, src-nodes 4 }\nset timeout { interval 2, udp.first 0, src.track 0 }\n\
            pass in proto udp all keep state (source-track rule)",
        rows: &[
            (0, UDP, A1, 1, "new @0"),
            (0, UDP, A2, 1, "new @0"),
            (0, UDP, A3, 1, "new @0"),
            (0, UDP, A4, 1, "new @0"),
            (0, UDP, A5, 1, "drop:src-nodes @0"),
            (1, UDP, A5, 1, "new @0"),
            (1, UDP, A6, 1, "new @0"),
            (1, UDP, A7, 1, "new @0"),
            (1, UDP, A8, 1, "drop:src-nodes @0"),
            (2, UDP, A8, 1, "new @0"),
            (2, UDP, A9, 1, "drop:src-nodes @0"),
        ],
        end: (1, 4, 0),
    },
];

const EIGHT_OF_TEN: &str = "set limit states 10\nset timeout interval 1\npass in proto udp all";

/// Lives that load shortens, by the adaptive timeouts as they are.
const SCALED: &[Case] = &[
    Case {
        shows: "eight states of twelve live for two thirds",
        rules: EIGHT_OF_TEN,
        rows: &[
            (0, UDP, A1, 1, "new @0"),
            (0, UDP, A1, 2, "new @0"),
            (0, UDP, A1, 3, "new @0"),
            (0, UDP, A1, 4, "new @0"),
            (0, UDP, A1, 5, "new @0"),
            (0, UDP, A1, 6, "new @0"),
            (0, UDP, A1, 7, "new @0"),
            (0, UDP, A1, 8, "new @0"),
            (39, RowEvent::Ping, A1, 0, "skip -"),
        ],
        end: (8, 0, 0),
    },
    Case {
        shows: "and leave together, by the count at the start of the slice",
        rules: EIGHT_OF_TEN,
        rows: &[
            (0, UDP, A1, 1, "new @0"),
            (0, UDP, A1, 2, "new @0"),
            (0, UDP, A1, 3, "new @0"),
            (0, UDP, A1, 4, "new @0"),
            (0, UDP, A1, 5, "new @0"),
            (0, UDP, A1, 6, "new @0"),
            (0, UDP, A1, 7, "new @0"),
            (0, UDP, A1, 8, "new @0"),
            (40, RowEvent::Ping, A1, 0, "skip -"),
        ],
        end: (0, 0, 0),
    },
];

// ---- records that take old entries out of a table

/// Entries leave by their age: of the rules from the first event on, of a source from its packet on.
const EXPIRIES: &[Case] = &[
    Case {
        shows: "an entry of the rules counts from the first record, an added one from its packet, and a held one is not renewed",
        rules: "table <bad> { 203.0.113.9 }\n\
            pass in proto tcp to any port 80 keep state (max-src-conn 1, overload <bad>)",
        rows: &[
            (100, RowEvent::Ping, A1, 0, "skip -"),
            (104, SHAKE, A1, 1000, "state @0"),
            (104, SHAKE, A1, 1001, ADDED),
            (106, SHAKE, A1, 1002, HELD),
            (108, RowEvent::Expire(5), A1, 0, "expire - removed=1"),
            (109, RowEvent::Expire(5), A1, 0, "expire - removed=1"),
        ],
        end: (1, 1, 0),
    },
    Case {
        shows: "so it is where the rule is not the first",
        rules: "table <bad> { 203.0.113.9 }\npass in proto udp to any port 53\n\
            pass in proto tcp to any port 80 keep state (max-src-conn 1, overload <bad>)",
        rows: &[
            (100, RowEvent::Ping, A1, 0, "skip -"),
            (104, RowEvent::Shake(1), A1, 1000, "state @1"),
            (
                104,
                RowEvent::Shake(1),
                A1,
                1001,
                "kill:max-src-conn @1 overload=added killed=1",
            ),
            (
                106,
                RowEvent::Shake(1),
                A1,
                1002,
                "kill:max-src-conn @1 overload=held killed=1",
            ),
            (108, RowEvent::Expire(5), A1, 0, "expire - removed=1"),
            (109, RowEvent::Expire(5), A1, 0, "expire - removed=1"),
        ],
        end: (1, 1, 0),
    },
    Case {
        shows: "an entry of the rules is as old as the run, and not older",
        rules: "table <bad> { 203.0.113.9 }",
        rows: &[
            (100, RowEvent::Ping, A1, 0, "skip -"),
            (100, RowEvent::Expire(5), A1, 0, "expire - removed=0"),
        ],
        end: (0, 0, 1),
    },
    Case {
        shows: "as the first record it takes out at once what the rules say, with seconds 0",
        rules: "table <bad> { 203.0.113.9, !203.0.113.0/24 }",
        rows: &[(100, RowEvent::Expire(0), A1, 0, "expire - removed=2")],
        end: (0, 0, 0),
    },
    Case {
        shows: "a table that is named and not defined is a table, and the last moment may be the greatest",
        rules: "block from <bad>",
        rows: &[(
            4294967295,
            RowEvent::Expire(4294967295),
            A1,
            0,
            "expire - removed=0",
        )],
        end: (0, 0, 0),
    },
    Case {
        shows: "a limit on entries that was met is free again, and other tables stay as they are",
        rules: "set limit table-entries 2\ntable <bad> { 203.0.113.9 }\ntable <good> { 203.0.113.7 }\n\
            pass in proto tcp to any port 80 keep state (max-src-conn 1, overload <bad>)",
        rows: &[
            (0, SHAKE, A1, 1000, "state @0"),
            (0, SHAKE, A1, 1001, FULL),
            (5, RowEvent::Expire(5), A1, 0, "expire - removed=1"),
            (5, SHAKE, A1, 1002, ADDED),
            (5, SHAKE, A2, 1000, "state @0"),
            (5, SHAKE, A2, 1001, FULL),
            (9, RowEvent::Expire(5), A1, 0, "expire - removed=0"),
            (10, RowEvent::Expire(5), A1, 0, "expire - removed=1"),
        ],
        end: (2, 2, 1),
    },
    Case {
        shows: "a source whose entry left is no longer blocked, and is blocked again",
        rules: "block in quick from <bad>\n\
            pass in proto tcp to any port 80 keep state (max-src-conn 1, overload <bad> flush)",
        rows: &[
            (0, RowEvent::Shake(1), A1, 1000, "state @1"),
            (0, RowEvent::Shake(1), A1, 1001, FLUSHED),
            (1, RowEvent::Syn, A1, 1002, "block @0"),
            (60, RowEvent::Expire(60), A1, 0, "expire - removed=1"),
            (60, RowEvent::Shake(1), A1, 1003, "state @1"),
            (60, RowEvent::Shake(1), A1, 1004, FLUSHED),
            (61, RowEvent::Syn, A1, 1005, "block @0"),
        ],
        end: (0, 0, 1),
    },
];

// ---- records of an administrator: entries that are added and taken out, and how much is held

const TABLED: &str = "table <bad>\nblock in quick from <bad>\npass in all no state";

/// Entries are added and taken out one by one, and the narrowest that covers an address decides.
const ENTRIES: &[Case] = &[
    Case {
        shows: "an entry blocks at once, a narrower one of the other sign passes, and that very entry is taken out",
        rules: TABLED,
        rows: &[
            (5, UDP, A1, 1000, "pass @1"),
            (
                6,
                RowEvent::Add("bad", "198.51.100.0/24"),
                A1,
                0,
                "add - added",
            ),
            (6, UDP, A1, 1000, "block @0"),
            (
                6,
                RowEvent::Add("bad", "!198.51.100.1"),
                A1,
                0,
                "add - added",
            ),
            (6, UDP, A1, 1000, "pass @1"),
            (
                7,
                RowEvent::Add("bad", "198.51.100.1"),
                A1,
                0,
                "add - conflict",
            ),
            (
                7,
                RowEvent::Add("bad", "198.51.100.77/24"),
                A1,
                0,
                "add - held",
            ),
            (
                8,
                RowEvent::Delete("bad", "198.51.100.1"),
                A1,
                0,
                NOT_REMOVED,
            ),
            (8, RowEvent::Delete("bad", "!198.51.100.1"), A1, 0, REMOVED),
            (8, UDP, A1, 1000, "block @0"),
            (9, RowEvent::Ask, A1, 0, "held - states=0 nodes=0 entries=1"),
        ],
        end: (0, 0, 1),
    },
    Case {
        shows: "the limit is on the entries of all tables, and one that is taken out leaves its place",
        rules: "set limit table-entries 1\ntable <bad>\nblock in quick from <bad>\npass in all no state\n\
            table <good> { 203.0.113.9 }",
        rows: &[
            (5, RowEvent::Add("bad", "198.51.100.1"), A1, 0, "add - full"),
            (5, RowEvent::Delete("good", "203.0.113.9"), A1, 0, REMOVED),
            (
                5,
                RowEvent::Add("bad", "198.51.100.1"),
                A1,
                0,
                "add - added",
            ),
            (5, RowEvent::Add("good", "203.0.113.9"), A1, 0, "add - full"),
        ],
        end: (0, 0, 1),
    },
    Case {
        shows: "in full tables an entry that is held is told as such, with either sign",
        rules: "set limit table-entries 1\ntable <bad> { !198.51.100.1 }",
        rows: &[
            (
                5,
                RowEvent::Add("bad", "!198.51.100.1"),
                A1,
                0,
                "add - held",
            ),
            (
                5,
                RowEvent::Add("bad", "198.51.100.1"),
                A1,
                0,
                "add - conflict",
            ),
            (
                5,
                RowEvent::Add("bad", "198.51.100.0/31"),
                A1,
                0,
                "add - full",
            ),
        ],
        end: (0, 0, 1),
    },
    Case {
        shows: "an entry that is held is not renewed",
        rules: TABLED,
        rows: &[
            (
                6,
                RowEvent::Add("bad", "198.51.100.1"),
                A1,
                0,
                "add - added",
            ),
            (7, RowEvent::Add("bad", "198.51.100.1"), A1, 0, "add - held"),
            (15, RowEvent::Expire(10), A1, 0, "expire - removed=0"),
            (16, RowEvent::Expire(10), A1, 0, "expire - removed=1"),
        ],
        end: (0, 0, 0),
    },
    Case {
        shows: "nor by one of the other sign; one that was taken out is new when it is added again",
        rules: TABLED,
        rows: &[
            (
                6,
                RowEvent::Add("bad", "!198.51.100.1"),
                A1,
                0,
                "add - added",
            ),
            (
                7,
                RowEvent::Add("bad", "198.51.100.1"),
                A1,
                0,
                "add - conflict",
            ),
            (
                7,
                RowEvent::Add("bad", "198.51.100.0/24"),
                A1,
                0,
                "add - added",
            ),
            (
                8,
                RowEvent::Delete("bad", "198.51.100.0/24"),
                A1,
                0,
                REMOVED,
            ),
            (
                9,
                RowEvent::Add("bad", "198.51.100.0/24"),
                A1,
                0,
                "add - added",
            ),
            (18, RowEvent::Expire(10), A1, 0, "expire - removed=1"),
            (
                18,
                RowEvent::Ask,
                A1,
                0,
                "held - states=0 nodes=0 entries=1",
            ),
            (19, RowEvent::Expire(10), A1, 0, "expire - removed=1"),
        ],
        end: (0, 0, 0),
    },
    Case {
        shows: "an entry of the rules is held, and leaves by its prefix and sign alone",
        rules: "table <bad> { 198.51.100.0/24, !198.51.100.1 }\nblock in quick from <bad>\npass in all no state",
        rows: &[
            (
                5,
                RowEvent::Add("bad", "198.51.100.0/24"),
                A1,
                0,
                "add - held",
            ),
            (
                5,
                RowEvent::Add("bad", "198.51.100.0"),
                A1,
                0,
                "add - added",
            ),
            (
                5,
                RowEvent::Delete("bad", "198.51.100.0/25"),
                A1,
                0,
                NOT_REMOVED,
            ),
            (
                5,
                RowEvent::Delete("bad", "198.51.100.1/24"),
                A1,
                0,
                REMOVED,
            ),
            (5, UDP, A2, 1000, "pass @1"),
            (5, RowEvent::Delete("bad", "!198.51.100.1"), A1, 0, REMOVED),
            (
                5,
                RowEvent::Delete("bad", "!198.51.100.1"),
                A1,
                0,
                NOT_REMOVED,
            ),
        ],
        end: (0, 0, 1),
    },
    Case {
        shows: "of three prefixes of an address the narrowest that is left decides",
        rules: TABLED,
        rows: &[
            (0, RowEvent::Add("bad", "0.0.0.0/0"), A1, 0, "add - added"),
            (0, UDP, A1, 1000, "block @0"),
            (
                0,
                RowEvent::Add("bad", "!198.51.100.0/24"),
                A1,
                0,
                "add - added",
            ),
            (0, UDP, A1, 1000, "pass @1"),
            (
                0,
                RowEvent::Add("bad", "198.51.100.1/32"),
                A1,
                0,
                "add - added",
            ),
            (0, UDP, A1, 1000, "block @0"),
            (0, UDP, A2, 1000, "pass @1"),
            (0, RowEvent::Delete("bad", "198.51.100.1"), A1, 0, REMOVED),
            (0, UDP, A1, 1000, "pass @1"),
            (
                0,
                RowEvent::Delete("bad", "!198.51.100.0/24"),
                A1,
                0,
                REMOVED,
            ),
            (0, UDP, A1, 1000, "block @0"),
            (0, RowEvent::Delete("bad", "0.0.0.0/0"), A1, 0, REMOVED),
            (0, UDP, A1, 1000, "pass @1"),
        ],
        end: (0, 0, 0),
    },
    Case {
        shows: "entries of IPv6, by any text of their prefix",
        rules: TABLED,
        rows: &[
            (
                6,
                RowEvent::Add("bad", "2001:DB8::/32"),
                A1,
                0,
                "add - added",
            ),
            (
                6,
                RowEvent::Add("bad", "!2001:db8::1"),
                A1,
                0,
                "add - added",
            ),
            (
                6,
                RowEvent::Add("bad", "2001:db8::1"),
                A1,
                0,
                "add - conflict",
            ),
            (
                6,
                RowEvent::Add("bad", "32.1.13.184/32"),
                A1,
                0,
                "add - added",
            ),
            (
                6,
                RowEvent::Delete("bad", "2001:db8:0:1::/32"),
                A1,
                0,
                REMOVED,
            ),
        ],
        end: (0, 0, 2),
    },
    Case {
        shows: "a source whose host is an entry, negated, is held when it is overloaded",
        rules: "table <bad> { 203.0.113.9 }\n\
            pass in proto tcp to any port 80 keep state (max-src-conn 1, overload <bad>)",
        rows: &[
            (
                100,
                RowEvent::Add("bad", "!198.51.100.1"),
                A1,
                0,
                "add - added",
            ),
            (104, SHAKE, A1, 1000, "state @0"),
            (104, SHAKE, A1, 1001, HELD),
        ],
        end: (1, 1, 2),
    },
    Case {
        shows: "a source that was overloaded is an entry that can be taken out",
        rules: "block in quick from <bad>\n\
            pass in proto tcp to any port 80 keep state (max-src-conn 1, overload <bad> flush)",
        rows: &[
            (0, RowEvent::Shake(1), A1, 1000, "state @1"),
            (0, RowEvent::Shake(1), A1, 1001, FLUSHED),
            (1, RowEvent::Add("bad", "198.51.100.1"), A1, 0, "add - held"),
            (1, RowEvent::Delete("bad", "198.51.100.1"), A1, 0, REMOVED),
            (1, RowEvent::Syn, A1, 1002, "new @1"),
        ],
        end: (1, 1, 0),
    },
];

const A1_TO_ANY: RowEvent = RowEvent::Kill("198.51.100.1", "");

const BOTH_WAYS: &str = "pass in proto udp\npass out flags any";

/// States that the administrator takes out.
const KILLS: &[Case] = &[
    Case {
        shows: "the states of a source leave, and no others",
        rules: BOTH_WAYS,
        rows: &[
            (0, UDP, A1, 1, "new @0"),
            (0, UDP, A1, 2, "new @0"),
            (0, UDP, A2, 1, "new @0"),
            (
                0,
                RowEvent::Kill("2001:db8::/32", ""),
                A1,
                0,
                "kill - killed=0",
            ),
            (0, A1_TO_ANY, A1, 0, "kill - killed=2"),
            (0, A1_TO_ANY, A1, 0, "kill - killed=0"),
            (0, UDP, A1, 1, "new @0"),
            (0, RowEvent::Ask, A1, 0, "held - states=2 nodes=0 entries=0"),
        ],
        end: (2, 0, 0),
    },
    Case {
        shows: "source and destination are those of the packet that made the state, whichever way it went",
        rules: BOTH_WAYS,
        rows: &[
            (0, UDP, A1, 1, "new @0"),
            (0, RowEvent::SynAck, A2, 1000, "new @1"),
            (
                0,
                RowEvent::Kill("198.51.100.0/24", "198.51.100.2"),
                A1,
                0,
                "kill - killed=0",
            ),
            (
                0,
                RowEvent::Kill("192.0.2.0/24", "192.0.2.0/24"),
                A1,
                0,
                "kill - killed=0",
            ),
            (
                0,
                RowEvent::Kill("192.0.2.0/24", "198.51.100.0/24"),
                A1,
                0,
                "kill - killed=1",
            ),
            (
                0,
                RowEvent::Kill("0.0.0.0/0", "192.0.2.1"),
                A1,
                0,
                "kill - killed=1",
            ),
        ],
        end: (0, 0, 0),
    },
    Case {
        shows: "a state that was taken out counts for no limit",
        rules: "pass in proto udp keep state (max-src-states 1)",
        rows: &[
            (0, UDP, A1, 1, "new @0"),
            (0, UDP, A1, 2, "drop:max-src-states @0"),
            (0, A1_TO_ANY, A1, 0, "kill - killed=1"),
            (0, UDP, A1, 2, "new @0"),
        ],
        end: (1, 1, 0),
    },
    Case {
        shows: "a source node that loses its last state is kept for its retention from then on",
        rules: "set timeout { src.track 20, interval 1, udp.first 5 }\n\
            pass in proto udp all keep state (max-src-nodes 1)",
        rows: &[
            (0, UDP, A1, 1, "new @0"),
            (3, A1_TO_ANY, A1, 0, "kill - killed=1"),
            (22, UDP, A2, 1, "drop:max-src-nodes @0"),
            (23, UDP, A2, 1, "new @0"),
        ],
        end: (1, 1, 0),
    },
];

/// How much is held when the administrator asks.
const AMOUNTS: &[Case] = &[
    Case {
        shows: "purges due are done before what is held is counted",
        rules: "set timeout { udp.first 2, interval 1 }\npass in proto udp all",
        rows: &[
            (5, UDP, A1, 1000, "new @0"),
            (5, RowEvent::Ask, A1, 0, "held - states=1 nodes=0 entries=0"),
            (7, RowEvent::Ask, A1, 0, "held - states=0 nodes=0 entries=0"),
        ],
        end: (0, 0, 0),
    },
    Case {
        shows: "source nodes count without states too, and the entries of all tables",
        rules: "set timeout { src.track 20, interval 1, udp.first 5 }\n\
            table <bad> { 203.0.113.9, !203.0.113.0/24 }\ntable <good> { 203.0.113.7 }\n\
            pass in proto udp all keep state (source-track rule)",
        rows: &[
            (0, RowEvent::Ask, A1, 0, "held - states=0 nodes=0 entries=3"),
            (0, UDP, A1, 1, "new @0"),
            (0, UDP, A1, 2, "new @0"),
            (0, UDP, A2, 1, "new @0"),
            (0, RowEvent::Ask, A1, 0, "held - states=3 nodes=2 entries=3"),
            (
                10,
                RowEvent::Ask,
                A1,
                0,
                "held - states=0 nodes=2 entries=3",
            ),
            (10, RowEvent::Delete("good", "203.0.113.7"), A1, 0, REMOVED),
            (
                30,
                RowEvent::Ask,
                A1,
                0,
                "held - states=0 nodes=0 entries=2",
            ),
        ],
        end: (0, 0, 2),
    },
    Case {
        shows: "the entries of the rules count as added when it is asked, if that comes first",
        rules: "table <bad> { 203.0.113.9 }",
        rows: &[
            (
                100,
                RowEvent::Ask,
                A1,
                0,
                "held - states=0 nodes=0 entries=1",
            ),
            (104, RowEvent::Expire(5), A1, 0, "expire - removed=0"),
            (105, RowEvent::Expire(5), A1, 0, "expire - removed=1"),
        ],
        end: (0, 0, 0),
    },
];
