//! Which words ask for which job.

use pfs_cli::{Job, job, request};
use pfs_tests_cases::{holds, same};
use std::test::Fail;

#[test]
fn words_ask_for_jobs(rt: HostRuntime) -> Result<(), Fail> {
    let words = ["pfsrc"];
    match job(rt.alloc(), words.as_slice())? {
        Job::Joined => {}
        other => panic!(rt; "{other:?}"),
    }
    let words = ["pfsrc", "check", "pf.conf"];
    match job(rt.alloc(), words.as_slice())? {
        Job::Check(rules) => same!(rt; rules, "pf.conf"),
        other => panic!(rt; "{other:?}"),
    }
    let words = ["pfsrc", "show", "-"];
    match job(rt.alloc(), words.as_slice())? {
        Job::Show(rules) => same!(rt; rules, "-"),
        other => panic!(rt; "{other:?}"),
    }
    let words = ["pfsrc", "replay", "r", "t"];
    match job(rt.alloc(), words.as_slice())? {
        Job::Replay(rules, trace) => {
            same!(rt; rules, "r");
            same!(rt; trace, "t");
        }
        other => panic!(rt; "{other:?}"),
    }
    Ok(())
}

#[test]
fn words_ask_for_lines_as_they_happen(rt: HostRuntime) -> Result<(), Fail> {
    let rows: &[(&[&str], bool)] = &[
        (&["pfsrc"], false),
        (&["pfsrc", "--line-buffered"], true),
        (&["pfsrc", "check", "r"], false),
        (&["pfsrc", "replay", "r", "t"], false),
        (&["pfsrc", "replay", "--line-buffered", "r", "t"], true),
        (&["pfsrc", "replay", "r", "--line-buffered", "-"], true),
        (&["pfsrc", "replay", "-", "t", "--line-buffered"], true),
    ];
    for (words, by_lines) in rows {
        same!(rt; request(rt.alloc(), words)?.by_lines, *by_lines);
    }
    Ok(())
}

#[test]
fn a_dash_is_standard_input(rt: HostRuntime) -> Result<(), Fail> {
    same!(rt; Job::Check("-").files(), (None, None));
    same!(rt; Job::Show("./-").files(), (Some("./-"), None));
    same!(rt; Job::Replay("-", "t").files(), (None, Some("t")));
    same!(rt; Job::Replay("r", "-").files(), (Some("r"), None));
    same!(rt; Job::Joined.files(), (None, None));
    Ok(())
}

#[test]
fn other_words_are_refused(rt: HostRuntime) -> Result<(), Fail> {
    let wrong = ["pfsrc", "check"];
    holds!(rt; job(rt.alloc(), wrong.as_slice()).is_err());
    let wrong = ["pfsrc", "check", "a", "b"];
    holds!(rt; job(rt.alloc(), wrong.as_slice()).is_err());
    let wrong = ["pfsrc", "replay", "a"];
    holds!(rt; job(rt.alloc(), wrong.as_slice()).is_err());
    let wrong = ["pfsrc", "reply", "a", "b"];
    holds!(rt; job(rt.alloc(), wrong.as_slice()).is_err());
    let wrong = ["pfsrc", "replay", "-", "-"];
    holds!(rt; job(rt.alloc(), wrong.as_slice()).is_err());
    let wrong = ["pfsrc", "check", "--line-buffered", "a"];
    holds!(rt; job(rt.alloc(), wrong.as_slice()).is_err());
    let wrong = ["pfsrc", "--line-buffered", "replay", "a", "b"];
    holds!(rt; job(rt.alloc(), wrong.as_slice()).is_err());
    Ok(())
}

#[test]
fn help_is_no_mistake(rt: HostRuntime) -> Result<(), Fail> {
    let words = ["pfsrc", "--help"];
    match job(rt.alloc(), words.as_slice()) {
        Err(help) => same!(rt; help.exit_code(), 0),
        Ok(other) => panic!(rt; "{other:?}"),
    }
    let words = ["pfsrc", "replay", "--help"];
    match job(rt.alloc(), words.as_slice()) {
        Err(help) => same!(rt; help.exit_code(), 0),
        Ok(other) => panic!(rt; "{other:?}"),
    }
    let words = ["pfsrc", "reply"];
    match job(rt.alloc(), words.as_slice()) {
        Err(mistake) => same!(rt; mistake.exit_code(), 2),
        Ok(other) => panic!(rt; "{other:?}"),
    }
    Ok(())
}
