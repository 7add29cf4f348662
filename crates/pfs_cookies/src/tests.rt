//! Worked runs of cookies that are given, taken and turned.

use crate::cookies::Cookies;
use pfs_addr_values::{Addr, Endpoint, FlowKey, Proto};
use pfs_conf_values::RulesHasher;
use std::test::Fail;

#[derive(Clone, Copy)]
enum CookieAct {
    Give,
    Take,
    Turn,
}

/// What is done, to which key, what a take answers, how many are out then, and whether the key has one
const ROWS: &[(CookieAct, u16, bool, u64, bool)] = &[
    (CookieAct::Take, 1, false, 0, false),
    (CookieAct::Turn, 1, false, 0, false),
    (CookieAct::Give, 1, false, 1, true),
    (CookieAct::Give, 1, false, 1, true),
    (CookieAct::Give, 2, false, 2, true),
    (CookieAct::Take, 1, true, 1, false),
    (CookieAct::Take, 1, false, 1, false),
    (CookieAct::Give, 3, false, 2, true),
    // Both stay for one turn. A key that gets another is under the secret in use, and stays for the next.
    (CookieAct::Turn, 3, false, 2, true),
    (CookieAct::Give, 2, false, 2, true),
    (CookieAct::Give, 4, false, 3, true),
    (CookieAct::Turn, 3, false, 2, false),
    (CookieAct::Take, 2, true, 1, false),
    (CookieAct::Turn, 4, false, 0, false),
    (CookieAct::Give, 4, false, 1, true),
    (CookieAct::Turn, 4, false, 1, true),
    (CookieAct::Turn, 4, false, 0, false),
];

/// A connection by the port of its client; every other one is over IPv6
fn key(port: u16) -> FlowKey {
    let server = if port % 2 == 0 {
        Addr::V4([192, 0, 2, 1])
    } else {
        Addr::V6([0x20, 1, 0xd, 0xb8, 0, 0, 0, 0, 0, 0, 0, 0, 0, 0, 0, 1])
    };
    FlowKey {
        proto: Proto::Tcp,
        a: Endpoint { addr: server, port },
        b: Endpoint {
            addr: server,
            port: 443,
        },
    }
}

#[test]
fn a_key_has_one_cookie_for_two_turns(rt: HostRuntime) -> Result<(), Fail> {
    let mut cookies = Cookies::new(rt.alloc(), RulesHasher::of_text(b"pass in"));
    for &(act, port, had, out, has) in ROWS {
        let key = key(port);
        match act {
            CookieAct::Give => cookies.give(&key)?,
            CookieAct::Take => assert!(rt; cookies.take(&key) == had),
            CookieAct::Turn => cookies.turn(),
        }
        assert!(rt; cookies.out() == out);
        assert!(rt; cookies.has(&key) == has);
    }
    Ok(())
}

#[test]
fn many_cookies_are_taken_one_by_one(rt: HostRuntime) -> Result<(), Fail> {
    let mut cookies = Cookies::new(rt.alloc(), RulesHasher::of_text(b"pass in"));
    for port in 0..1000 {
        cookies.give(&key(port))?;
    }
    cookies.turn();
    for port in 500..1500 {
        cookies.give(&key(port))?;
    }
    assert!(rt; cookies.out() == 1500);
    for port in 0..2000 {
        assert!(rt; cookies.take(&key(port)) == (port < 1500));
    }
    assert!(rt; cookies.out() == 0);
    Ok(())
}
