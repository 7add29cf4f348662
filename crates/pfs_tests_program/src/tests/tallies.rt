//! The tally of a replay: how much work its records were.

use pfs_cli::{Job, ReplayFault, Tally, perform, replay, replay_joined, write_report_over};
use pfs_conf::load;
use pfs_store::{IndexStore, PlainStore};
use pfs_streams::{Feed, Sink};
use pfs_tests_cases::same;
use std::alloc::AllocGlobal;
use std::process::Abort;
use std::test::Fail;

const RULES: &[u8] = b"block in\npass in proto udp to any port 53 keep state (max-src-states 9)\n";

const TRACE: &[u8] = b"time,dir,if,proto,src,sport,dst,dport,flags\n\
    5,in,em0,udp,198.51.100.1,1000,192.0.2.1,53,\n\
    5,in,em0,udp,198.51.100.1,1000,192.0.2.1,53,\n\
    7,in,em0,udp,198.51.100.1,1001,192.0.2.1,53,\n";

/// Two new states, each behind two rules, a packet of one, and two seconds.
const WHOLE: Tally = Tally {
    visits: 4,
    slices: 4,
    most_visits: 2,
    most_looks: 1,
    most_states: 1,
    most_nodes: 1,
};

/// The first new state and its packet.
const FIRST: Tally = Tally {
    visits: 2,
    slices: 0,
    most_visits: 2,
    most_looks: 1,
    most_states: 0,
    most_nodes: 0,
};

/// The tally of a replay of this trace, which held another before.
fn tally_of(
    rt: &(impl Abort + AllocGlobal),
    rules: &[u8],
    trace: &[u8],
    outcome: Result<(), ReplayFault>,
) -> Tally {
    let mut tally = WHOLE;
    let mut out = Sink::new(Vec::new(rt.alloc()));
    let told = replay(
        rt.alloc(),
        &mut Feed::new(rules, 9),
        &mut Feed::new(trace, 9),
        &mut tally,
        &mut out,
    );
    same!(rt; told, outcome);
    tally
}

/// Faulty records, and those behind them, have no work. Before the first record there is none.
#[test]
fn records_are_tallied(rt: HostRuntime) -> Result<(), Fail> {
    let mut faulty = Vec::from_slice(rt.alloc(), &TRACE[..TRACE.len() - 1])?;
    same!(rt; tally_of(&rt, RULES, TRACE, Ok(())), WHOLE);
    faulty.extend_from_slice(b",\n")?;
    let outcome = Err(ReplayFault::Columns(3));
    same!(rt; tally_of(&rt, RULES, faulty.as_slice(), outcome), FIRST);
    let outcome = Err(ReplayFault::Columns(0));
    same!(rt; tally_of(&rt, RULES, b"", outcome), Tally::none());
    Ok(())
}

/// Before a packet gets a SYN cookie neither rules nor states are looked at; the ACK that brings it back is compared with both rules.
#[test]
fn cookies_are_tallied(rt: HostRuntime) {
    let rules = b"set profile openbsd-7.4\n\
        set syncookies always\n\
        block in\n\
        pass in proto tcp to any port 80\n";
    let trace = b"time,dir,if,proto,src,sport,dst,dport,flags\n\
        5,in,em0,tcp,198.51.100.1,1000,192.0.2.1,80,S\n\
        5,in,em0,tcp,198.51.100.1,1000,192.0.2.1,80,A\n\
        7,in,em0,tcp,198.51.100.2,1000,192.0.2.1,80,S\n";
    let wanted = Tally {
        visits: 2,
        most_looks: 0,
        most_nodes: 0,
        ..WHOLE
    };
    same!(rt; tally_of(&rt, rules, trace, Ok(())), wanted);
}

#[test]
fn joined_texts_are_tallied(rt: HostRuntime) -> Result<(), Fail> {
    let mut text = Vec::from_slice(rt.alloc(), RULES)?;
    text.extend_from_slice(b"%%\n")?;
    text.extend_from_slice(TRACE)?;
    let mut tally = FIRST;
    let mut out = Sink::new(Vec::new(rt.alloc()));
    let mut input = Feed::new(text.as_slice(), 9);
    let told = replay_joined(rt.alloc(), &mut input, &mut tally, &mut out);
    same!(rt; (told, tally), (Ok(()), WHOLE));
    Ok(())
}

/// A job without a replay tallies nothing.
#[test]
fn jobs_are_tallied(rt: HostRuntime) {
    for (job, wanted) in &[
        (Job::Check("r"), Tally::none()),
        (Job::Show("r"), Tally::none()),
        (Job::Replay("r", "t"), WHOLE),
    ] {
        let mut tally = FIRST;
        let mut out = Sink::new(Vec::new(rt.alloc()));
        let told = perform(
            rt.alloc(),
            job,
            &mut Feed::new(RULES, 9),
            &mut Feed::new(TRACE, 9),
            &mut tally,
            &mut out,
        );
        same!(rt; (told, tally), (Ok(()), *wanted));
    }
}

/// Over each kind of store the work is the same, but that plain lists count no looks.
#[test]
fn stores_are_tallied(rt: HostRuntime) -> Result<(), Fail> {
    let alloc = rt.alloc();
    let mut tally = FIRST;
    let config = load(alloc, RULES)?;
    let store = IndexStore::new(alloc, &config)?;
    let mut out = Sink::new(Vec::new(alloc));
    let told = write_report_over(alloc, config, store, TRACE, &mut tally, &mut out);
    same!(rt; (told, tally), (Ok(()), WHOLE));
    let config = load(alloc, RULES)?;
    let store = PlainStore::new(alloc, &config)?;
    let mut out = Sink::new(Vec::new(alloc));
    let told = write_report_over(alloc, config, store, TRACE, &mut tally, &mut out);
    let wanted = Tally {
        most_looks: 0,
        ..WHOLE
    };
    same!(rt; (told, tally), (Ok(()), wanted));
    Ok(())
}
