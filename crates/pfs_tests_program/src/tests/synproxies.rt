//! Replays of rules with `synproxy state`, under the profile of OpenBSD 7.4.

use super::profiles::{ProfileRow, tell_each};
use std::test::Fail;

const SYNPROXIES: &[ProfileRow] = &[
    // a connection
    ProfileRow {
        rules: b"set timeout { adaptive.start 0, adaptive.end 0 }\n\
            set profile openbsd-7.4\n\
            pass in proto tcp to any port 80 synproxy state\n\
            pass out all\n",
        records: b"0,in,em0,tcp,198.51.100.1,1,192.0.2.1,80,S\n\
            0,in,em0,tcp,198.51.100.1,1,192.0.2.1,80,A\n\
            0,out,em0,tcp,192.0.2.1,80,198.51.100.1,1,SA\n\
            1,in,em0,tcp,198.51.100.1,1,192.0.2.1,80,A\n\
            1,out,em0,tcp,192.0.2.1,80,198.51.100.1,1,A\n\
            1,held,,,,,,,\n",
        report: b"1 proxy @0\n\
            2 proxy @0\n\
            3 proxy @0\n\
            4 state @0\n\
            5 state @0\n\
            6 held - states=1 nodes=0 entries=0\n\
            end rows=6 states=1 nodes=0 entries=0\n",
    },
    // forged SYN packets are held for tcp.first from their SYN on
    ProfileRow {
        rules: b"set timeout { adaptive.start 0, adaptive.end 0 }\n\
            set profile openbsd-7.4\n\
            set timeout interval 1\n\
            pass in proto tcp to any port 80 synproxy state\n\
            pass out all\n",
        records: b"0,in,em0,tcp,198.51.100.1,1,192.0.2.1,80,S\n\
            60,in,em0,tcp,198.51.100.1,1,192.0.2.1,80,S\n\
            60,out,em0,tcp,192.0.2.1,80,198.51.100.1,1,SA\n\
            119,held,,,,,,,\n\
            121,held,,,,,,,\n",
        report: b"1 proxy @0\n\
            2 proxy @0\n\
            3 proxy @0\n\
            4 held - states=1 nodes=0 entries=0\n\
            5 held - states=0 nodes=0 entries=0\n\
            end rows=5 states=0 nodes=0 entries=0\n",
    },
    // a packet out, and one with ACK, make an ordinary state
    ProfileRow {
        rules: b"set timeout { adaptive.start 0, adaptive.end 0 }\n\
            set profile openbsd-7.4\n\
            pass proto tcp all flags any synproxy state\n",
        records: b"0,out,em0,tcp,192.0.2.1,99,198.51.100.1,80,S\n\
            0,in,em0,tcp,198.51.100.2,1,192.0.2.1,80,A\n",
        report: b"1 new @0\n\
            2 new @0\n\
            end rows=2 states=2 nodes=0 entries=0\n",
    },
    // limits on states are asked at the SYN, those on connections at the ACK
    ProfileRow {
        rules: b"set timeout { adaptive.start 0, adaptive.end 0 }\n\
            set profile openbsd-7.4\n\
            table <bad>\n\
            pass in proto tcp to any port 80 synproxy state (max 2, max-src-conn 1, overload <bad> flush)\n",
        records: b"0,in,em0,tcp,198.51.100.1,1,192.0.2.1,80,S\n\
            0,in,em0,tcp,198.51.100.1,2,192.0.2.1,80,S\n\
            0,in,em0,tcp,198.51.100.1,3,192.0.2.1,80,S\n\
            0,in,em0,tcp,198.51.100.1,1,192.0.2.1,80,A\n\
            0,in,em0,tcp,198.51.100.1,2,192.0.2.1,80,A\n\
            0,in,em0,tcp,198.51.100.1,3,192.0.2.1,80,S\n",
        report: b"1 proxy @0\n\
            2 proxy @0\n\
            3 drop:max @0\n\
            4 proxy @0\n\
            5 kill:max-src-conn @0 overload=added killed=2\n\
            6 proxy @0\n\
            end rows=6 states=1 nodes=1 entries=1\n",
    },
    // what is neither SYN nor ACK
    ProfileRow {
        rules: b"set timeout { adaptive.start 0, adaptive.end 0 }\n\
            set profile openbsd-7.4\n\
            pass in proto tcp to any port 80 synproxy state\n\
            pass out all\n",
        records: b"0,in,em0,tcp,198.51.100.1,1,192.0.2.1,80,S\n\
            0,in,em0,tcp,198.51.100.1,1,192.0.2.1,80,R\n\
            0,in,em0,tcp,198.51.100.1,1,192.0.2.1,80,FA\n\
            0,in,em0,tcp,198.51.100.1,1,192.0.2.1,80,A\n\
            0,in,em0,tcp,198.51.100.1,1,192.0.2.1,80,R\n\
            0,out,em0,tcp,192.0.2.1,80,198.51.100.1,1,PA\n\
            0,held,,,,,,,\n",
        report: b"1 proxy @0\n\
            2 proxy @0\n\
            3 proxy @0\n\
            4 proxy @0\n\
            5 proxy @0\n\
            6 state @0\n\
            7 held - states=1 nodes=0 entries=0\n\
            end rows=7 states=1 nodes=0 entries=0\n",
    },
    // a datagram makes an ordinary state
    ProfileRow {
        rules: b"set timeout { adaptive.start 0, adaptive.end 0 }\n\
            set profile openbsd-7.4\n\
            pass in proto udp to any port 53 synproxy state\n",
        records: b"0,in,em0,udp,198.51.100.1,1,192.0.2.1,53,\n\
            0,in,em0,udp,198.51.100.1,1,192.0.2.1,53,\n",
        report: b"1 new @0\n\
            2 state @0\n\
            end rows=2 states=1 nodes=0 entries=0\n",
    },
    // the server's SYN with ACK changes neither the timeout nor the last moment, the next packet both
    ProfileRow {
        rules: b"set timeout { adaptive.start 0, adaptive.end 0 }\n\
            set profile openbsd-7.4\n\
            set timeout interval 1\n\
            set timeout tcp.first 10\n\
            pass in proto tcp to any port 80 synproxy state\n\
            pass out all\n",
        records: b"0,in,em0,tcp,198.51.100.1,1,192.0.2.1,80,S\n\
            5,in,em0,tcp,198.51.100.1,1,192.0.2.1,80,A\n\
            8,out,em0,tcp,192.0.2.1,80,198.51.100.1,1,SA\n\
            9,held,,,,,,,\n\
            11,held,,,,,,,\n",
        report: b"1 proxy @0\n\
            2 proxy @0\n\
            3 proxy @0\n\
            4 held - states=1 nodes=0 entries=0\n\
            5 held - states=0 nodes=0 entries=0\n\
            end rows=5 states=0 nodes=0 entries=0\n",
    },
    // a connection that both peers use stays for tcp.established
    ProfileRow {
        rules: b"set timeout { adaptive.start 0, adaptive.end 0 }\n\
            set profile openbsd-7.4\n\
            set timeout interval 1\n\
            set timeout tcp.first 10\n\
            pass in proto tcp to any port 80 synproxy state\n\
            pass out all\n",
        records: b"0,in,em0,tcp,198.51.100.1,1,192.0.2.1,80,S\n\
            5,in,em0,tcp,198.51.100.1,1,192.0.2.1,80,A\n\
            8,out,em0,tcp,192.0.2.1,80,198.51.100.1,1,SA\n\
            9,in,em0,tcp,198.51.100.1,1,192.0.2.1,80,A\n\
            86408,held,,,,,,,\n\
            86410,held,,,,,,,\n",
        report: b"1 proxy @0\n\
            2 proxy @0\n\
            3 proxy @0\n\
            4 state @0\n\
            5 held - states=1 nodes=0 entries=0\n\
            6 held - states=0 nodes=0 entries=0\n\
            end rows=6 states=0 nodes=0 entries=0\n",
    },
    // a connection counts once, at the maker's ACK
    ProfileRow {
        rules: b"set timeout { adaptive.start 0, adaptive.end 0 }\n\
            set profile openbsd-7.4\n\
            table <bad>\n\
            pass in proto tcp to any port 80 synproxy state (max-src-conn-rate 1/10, overload <bad>)\n",
        records: b"0,in,em0,tcp,198.51.100.1,1,192.0.2.1,80,S\n\
            0,in,em0,tcp,198.51.100.1,1,192.0.2.1,80,A\n\
            0,in,em0,tcp,198.51.100.1,1,192.0.2.1,80,A\n\
            0,out,em0,tcp,192.0.2.1,80,198.51.100.1,1,SA\n\
            0,in,em0,tcp,198.51.100.1,1,192.0.2.1,80,A\n\
            0,in,em0,tcp,198.51.100.1,2,192.0.2.1,80,S\n\
            0,in,em0,tcp,198.51.100.1,2,192.0.2.1,80,A\n",
        report: b"1 proxy @0\n\
            2 proxy @0\n\
            3 proxy @0\n\
            4 proxy @0\n\
            5 state @0\n\
            6 proxy @0\n\
            7 kill:max-src-conn-rate @0 overload=added killed=1\n\
            end rows=7 states=1 nodes=1 entries=1\n",
    },
    // a rule with sloppy tracks so once both handshakes are done
    ProfileRow {
        rules: b"set timeout { adaptive.start 0, adaptive.end 0 }\n\
            set profile openbsd-7.4\n\
            set timeout interval 1\n\
            pass in proto tcp to any port 80 synproxy state (sloppy)\n\
            pass out all\n",
        records: b"0,in,em0,tcp,198.51.100.1,1,192.0.2.1,80,S\n\
            0,in,em0,tcp,198.51.100.1,1,192.0.2.1,80,A\n\
            0,out,em0,tcp,192.0.2.1,80,198.51.100.1,1,SA\n\
            0,in,em0,tcp,198.51.100.1,1,192.0.2.1,80,FA\n\
            0,in,em0,tcp,198.51.100.1,1,192.0.2.1,80,A\n\
            44,held,,,,,,,\n\
            46,held,,,,,,,\n",
        report: b"1 proxy @0\n\
            2 proxy @0\n\
            3 proxy @0\n\
            4 state @0\n\
            5 state @0\n\
            6 held - states=1 nodes=0 entries=0\n\
            7 held - states=0 nodes=0 entries=0\n\
            end rows=7 states=0 nodes=0 entries=0\n",
    },
];

#[test]
fn handshakes_that_pf_leads(rt: HostRuntime) -> Result<(), Fail> {
    tell_each(&rt, SYNPROXIES)
}
