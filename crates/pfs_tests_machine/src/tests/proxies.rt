//! What the machine tells of connections whose handshakes pf leads: which packets pf takes itself, and at which it asks the server.

use super::engines::tell_each;
use super::profiled::PROFILED;
use pfs_tests_cases::{A1, Case, RowEvent};
use std::test::Fail;

const CASES: &[Case] = &[
    Case {
        shows: "pf asks the server from the ACK on that completes the maker's handshake, at the maker's packets",
        rules: "pass in proto tcp to any port 80 synproxy state",
        rows: &[
            (0, RowEvent::Syn, A1, 1000, "proxy:new @0"),
            (0, RowEvent::Syn, A1, 1000, "proxy @0"),
            (1, RowEvent::SynAck, A1, 1000, "proxy @0"),
            (1, RowEvent::Reset, A1, 1000, "proxy @0"),
            (2, RowEvent::Ack, A1, 1000, "proxy:asks @0"),
            (3, RowEvent::Ack, A1, 1000, "proxy:asks @0"),
            (3, RowEvent::Syn, A1, 1000, "proxy:asks @0"),
            (4, RowEvent::Fin, A1, 1000, "proxy:asks @0"),
            (5, RowEvent::SynAck, A1, 1000, "proxy @0"),
            (5, RowEvent::Ack, A1, 1000, "state @0"),
        ],
        end: (1, 0, 0),
    },
    Case {
        shows: "pf asks no server for a connection that exceeds a limit",
        rules: "pass in proto tcp to any port 80 synproxy state (max-src-conn 1)",
        rows: &[
            (0, RowEvent::Syn, A1, 1000, "proxy:new @0"),
            (0, RowEvent::Ack, A1, 1000, "proxy:asks @0"),
            (1, RowEvent::Syn, A1, 1001, "proxy:new @0"),
            (
                1,
                RowEvent::Ack,
                A1,
                1001,
                "kill:max-src-conn @0 overload=none killed=1",
            ),
        ],
        end: (1, 1, 0),
    },
    Case {
        shows: "pf asks the server at the maker's packets behind the ACK of a SYN cookie",
        rules: "set syncookies always\npass in proto tcp to any port 80 keep state",
        rows: &[
            (0, RowEvent::Syn, A1, 1000, "cookie -"),
            (0, RowEvent::Ack, A1, 1000, "proxy:new @0"),
            (1, RowEvent::Ack, A1, 1000, "proxy:asks @0"),
            (2, RowEvent::SynAck, A1, 1000, "proxy @0"),
            (2, RowEvent::Ack, A1, 1000, "state @0"),
        ],
        end: (1, 0, 0),
    },
];

#[test]
fn pf_asks_the_server_once_the_maker_is_known(rt: HostRuntime) -> Result<(), Fail> {
    tell_each(&rt, PROFILED, CASES)
}
