//! Replays under `set syncookies`, under the profile of OpenBSD 7.4.

use super::profiles::{ProfileRow, tell_each};
use std::test::Fail;

/// Each SYN from outside gets a cookie.
const ALWAYS: &[ProfileRow] = &[
    // a connection
    ProfileRow {
        rules: b"set timeout { adaptive.start 0, adaptive.end 0 }\n\
            set profile openbsd-7.4\n\
            set syncookies always\n\
            pass in proto tcp to any port 80 keep state\n\
            pass out all\n",
        records: b"0,in,em0,tcp,198.51.100.1,1,192.0.2.1,80,S\n\
            0,held,,,,,,,\n\
            0,in,em0,tcp,198.51.100.1,1,192.0.2.1,80,A\n\
            0,out,em0,tcp,192.0.2.1,80,198.51.100.1,1,SA\n\
            1,in,em0,tcp,198.51.100.1,1,192.0.2.1,80,A\n\
            1,held,,,,,,,\n",
        report: b"1 cookie -\n\
            2 held - states=0 nodes=0 entries=0\n\
            3 proxy @0\n\
            4 proxy @0\n\
            5 state @0\n\
            6 held - states=1 nodes=0 entries=0\n\
            end rows=6 states=1 nodes=0 entries=0\n",
    },
    // what was not answered by one is asked of the rules
    ProfileRow {
        rules: b"set timeout { adaptive.start 0, adaptive.end 0 }\n\
            set profile openbsd-7.4\n\
            set syncookies always\n\
            pass in proto tcp to any port 80 keep state\n\
            pass out all\n",
        records: b"0,in,em0,tcp,198.51.100.1,1,192.0.2.1,80,A\n\
            0,in,em0,tcp,198.51.100.1,1,192.0.2.1,80,S\n\
            0,in,em0,tcp,198.51.100.1,1,192.0.2.1,80,A\n\
            0,in,em0,tcp,198.51.100.1,1,192.0.2.1,80,A\n",
        report: b"1 pass -\n\
            2 cookie -\n\
            3 proxy @0\n\
            4 proxy @0\n\
            end rows=4 states=1 nodes=0 entries=0\n",
    },
    // also to who is blocked
    ProfileRow {
        rules: b"set timeout { adaptive.start 0, adaptive.end 0 }\n\
            set profile openbsd-7.4\n\
            set syncookies always\n\
            block all\n",
        records: b"0,in,em0,tcp,198.51.100.1,1,192.0.2.1,80,S\n\
            0,in,em0,tcp,198.51.100.1,1,192.0.2.1,80,A\n\
            0,in,em0,tcp,198.51.100.1,1,192.0.2.1,80,A\n",
        report: b"1 cookie -\n\
            2 block @0\n\
            3 block @0\n\
            end rows=3 states=0 nodes=0 entries=0\n",
    },
    // a rule without state drops
    ProfileRow {
        rules: b"set timeout { adaptive.start 0, adaptive.end 0 }\n\
            set profile openbsd-7.4\n\
            set syncookies always\n\
            pass no state\n",
        records: b"0,in,em0,tcp,198.51.100.1,1,192.0.2.1,80,S\n\
            0,in,em0,tcp,198.51.100.1,1,192.0.2.1,80,A\n",
        report: b"1 cookie -\n\
            2 drop:cookie @0\n\
            end rows=2 states=0 nodes=0 entries=0\n",
    },
    // no rule at all
    ProfileRow {
        rules: b"set timeout { adaptive.start 0, adaptive.end 0 }\n\
            set profile openbsd-7.4\n\
            set syncookies always\n",
        records: b"0,in,em0,tcp,198.51.100.1,1,192.0.2.1,80,S\n\
            0,in,em0,tcp,198.51.100.1,1,192.0.2.1,80,A\n",
        report: b"1 cookie -\n\
            2 drop:cookie -\n\
            end rows=2 states=0 nodes=0 entries=0\n",
    },
    // good for two secrets
    ProfileRow {
        rules: b"set timeout { adaptive.start 0, adaptive.end 0 }\n\
            set profile openbsd-7.4\n\
            set syncookies always\n\
            pass in proto tcp to any port 80 keep state\n\
            pass out all\n",
        records: b"0,in,em0,tcp,198.51.100.1,1,192.0.2.1,80,S\n\
            16,in,em0,tcp,198.51.100.1,2,192.0.2.1,80,S\n\
            16,in,em0,tcp,198.51.100.1,1,192.0.2.1,80,A\n\
            31,in,em0,tcp,198.51.100.1,2,192.0.2.1,80,A\n\
            31,in,em0,tcp,198.51.100.1,3,192.0.2.1,80,S\n\
            61,in,em0,tcp,198.51.100.1,3,192.0.2.1,80,A\n",
        report: b"1 cookie -\n\
            2 cookie -\n\
            3 proxy @0\n\
            4 proxy @0\n\
            5 cookie -\n\
            6 pass -\n\
            end rows=6 states=2 nodes=0 entries=0\n",
    },
    // a connection by cookie does not count
    ProfileRow {
        rules: b"set timeout { adaptive.start 0, adaptive.end 0 }\n\
            set profile openbsd-7.4\n\
            set syncookies always\n\
            pass in proto tcp to any port 80 keep state (max-src-conn 1)\n",
        records: b"0,in,em0,tcp,198.51.100.1,0,192.0.2.1,80,S\n\
            0,in,em0,tcp,198.51.100.1,0,192.0.2.1,80,A\n\
            0,out,em0,tcp,192.0.2.1,80,198.51.100.1,0,SA\n\
            0,in,em0,tcp,198.51.100.1,0,192.0.2.1,80,A\n\
            0,in,em0,tcp,198.51.100.1,1,192.0.2.1,80,S\n\
            0,in,em0,tcp,198.51.100.1,1,192.0.2.1,80,A\n\
            0,out,em0,tcp,192.0.2.1,80,198.51.100.1,1,SA\n\
            0,in,em0,tcp,198.51.100.1,1,192.0.2.1,80,A\n\
            0,in,em0,tcp,198.51.100.1,2,192.0.2.1,80,S\n\
            0,in,em0,tcp,198.51.100.1,2,192.0.2.1,80,A\n\
            0,out,em0,tcp,192.0.2.1,80,198.51.100.1,2,SA\n\
            0,in,em0,tcp,198.51.100.1,2,192.0.2.1,80,A\n",
        report: b"1 cookie -\n\
            2 proxy @0\n\
            3 proxy @0\n\
            4 state @0\n\
            5 cookie -\n\
            6 proxy @0\n\
            7 proxy @0\n\
            8 state @0\n\
            9 cookie -\n\
            10 proxy @0\n\
            11 proxy @0\n\
            12 state @0\n\
            end rows=12 states=3 nodes=1 entries=0\n",
    },
    // a packet out, one with ACK, and one of another protocol get none
    ProfileRow {
        rules: b"set timeout { adaptive.start 0, adaptive.end 0 }\n\
            set profile openbsd-7.4\n\
            set syncookies always\n\
            pass all flags any keep state\n",
        records: b"0,out,em0,tcp,192.0.2.1,99,198.51.100.1,80,S\n\
            0,in,em0,tcp,198.51.100.2,1,192.0.2.1,80,SA\n\
            0,in,em0,udp,198.51.100.1,1,192.0.2.1,53,\n",
        report: b"1 new @0\n\
            2 new @0\n\
            3 new @0\n\
            end rows=3 states=3 nodes=0 entries=0\n",
    },
    // also where a state has its key
    ProfileRow {
        rules: b"set timeout { adaptive.start 0, adaptive.end 0 }\n\
            set profile openbsd-7.4\n\
            set syncookies always\n\
            pass in proto tcp to any port 80 keep state\n\
            pass out all\n",
        records: b"0,in,em0,tcp,198.51.100.1,1,192.0.2.1,80,S\n\
            0,in,em0,tcp,198.51.100.1,1,192.0.2.1,80,A\n\
            0,in,em0,tcp,198.51.100.1,1,192.0.2.1,80,S\n\
            0,in,em0,tcp,198.51.100.1,1,192.0.2.1,80,A\n",
        report: b"1 cookie -\n\
            2 proxy @0\n\
            3 cookie -\n\
            4 proxy @0\n\
            end rows=4 states=1 nodes=0 entries=0\n",
    },
    // an ACK with SYN or RST brings none, one with FIN does
    ProfileRow {
        rules: b"set timeout { adaptive.start 0, adaptive.end 0 }\n\
            set profile openbsd-7.4\n\
            set syncookies always\n\
            pass in proto tcp to any port 80 keep state\n\
            pass out all\n",
        records: b"0,in,em0,tcp,198.51.100.1,1,192.0.2.1,80,S\n\
            0,in,em0,tcp,198.51.100.1,1,192.0.2.1,80,RA\n\
            0,in,em0,tcp,198.51.100.1,1,192.0.2.1,80,SA\n\
            0,in,em0,tcp,198.51.100.1,1,192.0.2.1,80,FA\n",
        report: b"1 cookie -\n\
            2 pass -\n\
            3 pass -\n\
            4 proxy @0\n\
            end rows=4 states=1 nodes=0 entries=0\n",
    },
    // it is taken also where a limit refuses the state
    ProfileRow {
        rules: b"set timeout { adaptive.start 0, adaptive.end 0 }\n\
            set profile openbsd-7.4\n\
            set syncookies always\n\
            pass in proto tcp to any port 80 keep state (max 1)\n",
        records: b"0,in,em0,tcp,198.51.100.1,1,192.0.2.1,80,S\n\
            0,in,em0,tcp,198.51.100.1,2,192.0.2.1,80,S\n\
            0,in,em0,tcp,198.51.100.1,1,192.0.2.1,80,A\n\
            0,in,em0,tcp,198.51.100.1,2,192.0.2.1,80,A\n\
            0,in,em0,tcp,198.51.100.1,2,192.0.2.1,80,A\n",
        report: b"1 cookie -\n\
            2 cookie -\n\
            3 proxy @0\n\
            4 drop:max @0\n\
            5 pass -\n\
            end rows=5 states=1 nodes=0 entries=0\n",
    },
    // the state stays for tcp.first from the ACK on
    ProfileRow {
        rules: b"set timeout { adaptive.start 0, adaptive.end 0 }\n\
            set profile openbsd-7.4\n\
            set syncookies always\n\
            set timeout { interval 1, tcp.first 10 }\n\
            pass in proto tcp to any port 80 keep state\n\
            pass out all\n",
        records: b"0,in,em0,tcp,198.51.100.1,1,192.0.2.1,80,S\n\
            5,in,em0,tcp,198.51.100.1,1,192.0.2.1,80,A\n\
            9,in,em0,tcp,198.51.100.1,1,192.0.2.1,80,A\n\
            14,held,,,,,,,\n\
            15,held,,,,,,,\n",
        report: b"1 cookie -\n\
            2 proxy @0\n\
            3 proxy @0\n\
            4 held - states=1 nodes=0 entries=0\n\
            5 held - states=0 nodes=0 entries=0\n\
            end rows=5 states=0 nodes=0 entries=0\n",
    },
    // the secret turns 15 seconds after the first one
    ProfileRow {
        rules: b"set timeout { adaptive.start 0, adaptive.end 0 }\n\
            set profile openbsd-7.4\n\
            set syncookies always\n\
            pass in proto tcp to any port 80 keep state\n\
            pass out all\n",
        records: b"0,held,,,,,,,\n\
            7,in,em0,tcp,198.51.100.1,1,192.0.2.1,80,S\n\
            21,in,em0,tcp,198.51.100.1,2,192.0.2.1,80,S\n\
            36,in,em0,tcp,198.51.100.1,1,192.0.2.1,80,A\n\
            37,in,em0,tcp,198.51.100.1,2,192.0.2.1,80,A\n",
        report: b"1 held - states=0 nodes=0 entries=0\n\
            2 cookie -\n\
            3 cookie -\n\
            4 proxy @0\n\
            5 pass -\n\
            end rows=5 states=1 nodes=0 entries=0\n",
    },
    // a later one of its key replaces it
    ProfileRow {
        rules: b"set timeout { adaptive.start 0, adaptive.end 0 }\n\
            set profile openbsd-7.4\n\
            set syncookies always\n\
            pass in proto tcp to any port 80 keep state\n\
            pass out all\n",
        records: b"0,in,em0,tcp,198.51.100.1,1,192.0.2.1,80,S\n\
            16,in,em0,tcp,198.51.100.1,1,192.0.2.1,80,S\n\
            31,in,em0,tcp,198.51.100.1,1,192.0.2.1,80,A\n",
        report: b"1 cookie -\n\
            2 cookie -\n\
            3 proxy @0\n\
            end rows=3 states=1 nodes=0 entries=0\n",
    },
    // a connection by cookie does not count for a rate
    ProfileRow {
        rules: b"set timeout { adaptive.start 0, adaptive.end 0 }\n\
            set profile openbsd-7.4\n\
            set syncookies always\n\
            pass in proto tcp to any port 80 keep state (max-src-conn-rate 1/10)\n",
        records: b"0,in,em0,tcp,198.51.100.1,0,192.0.2.1,80,S\n\
            0,in,em0,tcp,198.51.100.1,0,192.0.2.1,80,A\n\
            0,out,em0,tcp,192.0.2.1,80,198.51.100.1,0,SA\n\
            0,in,em0,tcp,198.51.100.1,0,192.0.2.1,80,A\n\
            0,in,em0,tcp,198.51.100.1,1,192.0.2.1,80,S\n\
            0,in,em0,tcp,198.51.100.1,1,192.0.2.1,80,A\n\
            0,out,em0,tcp,192.0.2.1,80,198.51.100.1,1,SA\n\
            0,in,em0,tcp,198.51.100.1,1,192.0.2.1,80,A\n\
            0,in,em0,tcp,198.51.100.1,2,192.0.2.1,80,S\n\
            0,in,em0,tcp,198.51.100.1,2,192.0.2.1,80,A\n\
            0,out,em0,tcp,192.0.2.1,80,198.51.100.1,2,SA\n\
            0,in,em0,tcp,198.51.100.1,2,192.0.2.1,80,A\n",
        report: b"1 cookie -\n\
            2 proxy @0\n\
            3 proxy @0\n\
            4 state @0\n\
            5 cookie -\n\
            6 proxy @0\n\
            7 proxy @0\n\
            8 state @0\n\
            9 cookie -\n\
            10 proxy @0\n\
            11 proxy @0\n\
            12 state @0\n\
            end rows=12 states=3 nodes=1 entries=0\n",
    },
];

/// Those that come while many states are half open get one, or none ever does.
const ADAPTIVE: &[ProfileRow] = &[
    // adaptive begins above its start
    ProfileRow {
        rules: b"set timeout { adaptive.start 0, adaptive.end 0 }\n\
            set profile openbsd-7.4\n\
            set limit states 100\n\
            set syncookies adaptive (start 5%, end 3%)\n\
            pass in proto tcp to any port 80 keep state\n\
            pass out all\n",
        records: b"0,in,em0,tcp,198.51.100.1,0,192.0.2.1,80,S\n\
            0,in,em0,tcp,198.51.100.1,1,192.0.2.1,80,S\n\
            0,in,em0,tcp,198.51.100.1,2,192.0.2.1,80,S\n\
            0,in,em0,tcp,198.51.100.1,3,192.0.2.1,80,S\n\
            0,in,em0,tcp,198.51.100.1,4,192.0.2.1,80,S\n\
            0,in,em0,tcp,198.51.100.1,5,192.0.2.1,80,S\n\
            0,in,em0,tcp,198.51.100.1,6,192.0.2.1,80,S\n\
            0,in,em0,tcp,198.51.100.1,7,192.0.2.1,80,S\n",
        report: b"1 new @0\n\
            2 new @0\n\
            3 new @0\n\
            4 new @0\n\
            5 new @0\n\
            6 new @0\n\
            7 cookie -\n\
            8 cookie -\n\
            end rows=8 states=6 nodes=0 entries=0\n",
    },
    // a SYN that is answered is not half open
    ProfileRow {
        rules: b"set timeout { adaptive.start 0, adaptive.end 0 }\n\
            set profile openbsd-7.4\n\
            set limit states 100\n\
            set syncookies adaptive (start 5%, end 3%)\n\
            pass in proto tcp to any port 80 keep state\n\
            pass out all\n",
        records: b"0,in,em0,tcp,198.51.100.1,0,192.0.2.1,80,S\n\
            0,out,em0,tcp,192.0.2.1,80,198.51.100.1,0,SA\n\
            0,in,em0,tcp,198.51.100.1,1,192.0.2.1,80,S\n\
            0,out,em0,tcp,192.0.2.1,80,198.51.100.1,1,SA\n\
            0,in,em0,tcp,198.51.100.1,2,192.0.2.1,80,S\n\
            0,out,em0,tcp,192.0.2.1,80,198.51.100.1,2,SA\n\
            0,in,em0,tcp,198.51.100.1,3,192.0.2.1,80,S\n\
            0,out,em0,tcp,192.0.2.1,80,198.51.100.1,3,SA\n\
            0,in,em0,tcp,198.51.100.1,4,192.0.2.1,80,S\n\
            0,out,em0,tcp,192.0.2.1,80,198.51.100.1,4,SA\n\
            0,in,em0,tcp,198.51.100.1,5,192.0.2.1,80,S\n\
            0,out,em0,tcp,192.0.2.1,80,198.51.100.1,5,SA\n\
            0,in,em0,tcp,198.51.100.1,6,192.0.2.1,80,S\n\
            0,out,em0,tcp,192.0.2.1,80,198.51.100.1,6,SA\n\
            0,in,em0,tcp,198.51.100.1,7,192.0.2.1,80,S\n\
            0,out,em0,tcp,192.0.2.1,80,198.51.100.1,7,SA\n",
        report: b"1 new @0\n\
            2 state @0\n\
            3 new @0\n\
            4 state @0\n\
            5 new @0\n\
            6 state @0\n\
            7 new @0\n\
            8 state @0\n\
            9 new @0\n\
            10 state @0\n\
            11 new @0\n\
            12 state @0\n\
            13 new @0\n\
            14 state @0\n\
            15 new @0\n\
            16 state @0\n\
            end rows=16 states=8 nodes=0 entries=0\n",
    },
    // adaptive ends at a turn of the secret
    ProfileRow {
        rules: b"set timeout { adaptive.start 0, adaptive.end 0 }\n\
            set profile openbsd-7.4\n\
            set limit states 100\n\
            set syncookies adaptive (start 5%, end 3%)\n\
            pass in proto tcp to any port 80 keep state\n\
            pass out all\n",
        records: b"0,in,em0,tcp,198.51.100.1,0,192.0.2.1,80,S\n\
            0,in,em0,tcp,198.51.100.1,1,192.0.2.1,80,S\n\
            0,in,em0,tcp,198.51.100.1,2,192.0.2.1,80,S\n\
            0,in,em0,tcp,198.51.100.1,3,192.0.2.1,80,S\n\
            0,in,em0,tcp,198.51.100.1,4,192.0.2.1,80,S\n\
            0,in,em0,tcp,198.51.100.1,5,192.0.2.1,80,S\n\
            0,in,em0,tcp,198.51.100.1,6,192.0.2.1,80,S\n\
            1,out,em0,tcp,192.0.2.1,80,198.51.100.1,0,SA\n\
            1,out,em0,tcp,192.0.2.1,80,198.51.100.1,1,SA\n\
            1,out,em0,tcp,192.0.2.1,80,198.51.100.1,2,SA\n\
            1,out,em0,tcp,192.0.2.1,80,198.51.100.1,3,SA\n\
            1,out,em0,tcp,192.0.2.1,80,198.51.100.1,4,SA\n\
            1,out,em0,tcp,192.0.2.1,80,198.51.100.1,5,SA\n\
            14,in,em0,tcp,198.51.100.2,1,192.0.2.1,80,S\n\
            15,in,em0,tcp,198.51.100.2,2,192.0.2.1,80,S\n\
            16,in,em0,tcp,198.51.100.2,3,192.0.2.1,80,S\n",
        report: b"1 new @0\n\
            2 new @0\n\
            3 new @0\n\
            4 new @0\n\
            5 new @0\n\
            6 new @0\n\
            7 cookie -\n\
            8 state @0\n\
            9 state @0\n\
            10 state @0\n\
            11 state @0\n\
            12 state @0\n\
            13 state @0\n\
            14 cookie -\n\
            15 new @0\n\
            16 new @0\n\
            end rows=16 states=8 nodes=0 entries=0\n",
    },
    // a key counts once; what is out stays good while they are off
    ProfileRow {
        rules: b"set timeout { adaptive.start 0, adaptive.end 0 }\n\
            set profile openbsd-7.4\n\
            set limit states 100\n\
            set syncookies adaptive (start 5%, end 3%)\n\
            pass in proto tcp to any port 80 keep state\n\
            pass out all\n",
        records: b"0,in,em0,tcp,198.51.100.1,0,192.0.2.1,80,S\n\
            0,in,em0,tcp,198.51.100.1,1,192.0.2.1,80,S\n\
            0,in,em0,tcp,198.51.100.1,2,192.0.2.1,80,S\n\
            0,in,em0,tcp,198.51.100.1,3,192.0.2.1,80,S\n\
            0,in,em0,tcp,198.51.100.1,4,192.0.2.1,80,S\n\
            0,in,em0,tcp,198.51.100.1,5,192.0.2.1,80,S\n\
            0,in,em0,tcp,198.51.100.1,6,192.0.2.1,80,S\n\
            0,in,em0,tcp,198.51.100.1,6,192.0.2.1,80,S\n\
            0,in,em0,tcp,198.51.100.1,6,192.0.2.1,80,S\n\
            0,in,em0,tcp,198.51.100.1,6,192.0.2.1,80,S\n\
            1,out,em0,tcp,192.0.2.1,80,198.51.100.1,0,SA\n\
            1,out,em0,tcp,192.0.2.1,80,198.51.100.1,1,SA\n\
            1,out,em0,tcp,192.0.2.1,80,198.51.100.1,2,SA\n\
            1,out,em0,tcp,192.0.2.1,80,198.51.100.1,3,SA\n\
            1,out,em0,tcp,192.0.2.1,80,198.51.100.1,4,SA\n\
            1,out,em0,tcp,192.0.2.1,80,198.51.100.1,5,SA\n\
            15,in,em0,tcp,198.51.100.2,1,192.0.2.1,80,S\n\
            16,in,em0,tcp,198.51.100.1,6,192.0.2.1,80,A\n",
        report: b"1 new @0\n\
            2 new @0\n\
            3 new @0\n\
            4 new @0\n\
            5 new @0\n\
            6 new @0\n\
            7 cookie -\n\
            8 cookie -\n\
            9 cookie -\n\
            10 cookie -\n\
            11 state @0\n\
            12 state @0\n\
            13 state @0\n\
            14 state @0\n\
            15 state @0\n\
            16 state @0\n\
            17 new @0\n\
            18 proxy @0\n\
            end rows=18 states=8 nodes=0 entries=0\n",
    },
    // a state by cookie is not half open
    ProfileRow {
        rules: b"set timeout { adaptive.start 0, adaptive.end 0 }\n\
            set profile openbsd-7.4\n\
            set limit states 100\n\
            set syncookies adaptive (start 5%, end 3%)\n\
            pass in proto tcp to any port 80 keep state\n\
            pass out all\n",
        records: b"0,in,em0,tcp,198.51.100.1,0,192.0.2.1,80,S\n\
            0,in,em0,tcp,198.51.100.1,1,192.0.2.1,80,S\n\
            0,in,em0,tcp,198.51.100.1,2,192.0.2.1,80,S\n\
            0,in,em0,tcp,198.51.100.1,3,192.0.2.1,80,S\n\
            0,in,em0,tcp,198.51.100.1,4,192.0.2.1,80,S\n\
            0,in,em0,tcp,198.51.100.1,5,192.0.2.1,80,S\n\
            0,in,em0,tcp,198.51.100.1,6,192.0.2.1,80,S\n\
            0,in,em0,tcp,198.51.100.1,6,192.0.2.1,80,A\n\
            1,out,em0,tcp,192.0.2.1,80,198.51.100.1,0,SA\n\
            1,out,em0,tcp,192.0.2.1,80,198.51.100.1,1,SA\n\
            1,out,em0,tcp,192.0.2.1,80,198.51.100.1,2,SA\n\
            1,out,em0,tcp,192.0.2.1,80,198.51.100.1,3,SA\n\
            15,held,,,,,,,\n\
            15,in,em0,tcp,198.51.100.2,1,192.0.2.1,80,S\n",
        report: b"1 new @0\n\
            2 new @0\n\
            3 new @0\n\
            4 new @0\n\
            5 new @0\n\
            6 new @0\n\
            7 cookie -\n\
            8 proxy @0\n\
            9 state @0\n\
            10 state @0\n\
            11 state @0\n\
            12 state @0\n\
            13 held - states=7 nodes=0 entries=0\n\
            14 new @0\n\
            end rows=14 states=8 nodes=0 entries=0\n",
    },
    // never
    ProfileRow {
        rules: b"set timeout { adaptive.start 0, adaptive.end 0 }\n\
            set profile openbsd-7.4\n\
            set syncookies never\n\
            pass in proto tcp to any port 80 keep state\n\
            pass out all\n",
        records: b"0,in,em0,tcp,198.51.100.1,1,192.0.2.1,80,S\n",
        report: b"1 new @0\n\
            end rows=1 states=1 nodes=0 entries=0\n",
    },
];

#[test]
fn cookies_always(rt: HostRuntime) -> Result<(), Fail> {
    tell_each(&rt, ALWAYS)
}

#[test]
fn cookies_while_many_states_are_half_open(rt: HostRuntime) -> Result<(), Fail> {
    tell_each(&rt, ADAPTIVE)
}
