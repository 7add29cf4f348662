//! Where what follows `set` or a table's name is refused, and the parts of a table.

ghost use Rattle.std.specs.Prelude.{◌<◌, length};

use pfs_conf_settings::{Draft, Parts, read_parts, read_settings};
use pfs_conf_tokens::{Cursor, Key, ReadError, Refusal, Why};
use pfs_tests_cases::{holds, same};
use std::alloc::Global;
use std::process::Abort;
use std::test::Fail;

fn parts(rt: &impl Abort, alloc: Global, text: &str) -> Option<Parts> {
    assert!(rt; text.len() < 1000);
    let mut cursor = Cursor::new(text.as_bytes());
    let read = read_parts(alloc, &mut cursor).ok()?;
    holds!(*rt; cursor.key() == Key::LineEnd, text);
    Some(read)
}

/// What is read, by whether the table persists, is constant and has counters, and how many entries are given
const READ: &[(&str, bool, bool, bool, Option<usize>)] = &[
    (
        "persist { 10.1.2.3/8,\n! 10.9.9.9 10.255.0.0/8 } const\n",
        true,
        true,
        false,
        Some(2),
    ),
    ("\n", false, false, false, None),
    ("{\n}", false, false, false, Some(0)),
];

fn count(parts: &Parts) -> Option<usize> {
    match &parts.entries {
        Some(entries) => Some(entries.len()),
        None => None,
    }
}

#[test]
fn tables_have_parts(rt: HostRuntime) -> Result<(), Fail> {
    for &(text, persist, is_const, counters, entries) in READ {
        let read = parts(&rt, rt.alloc(), text).ok_or("parts")?;
        holds!(rt; read.persist == persist && read.is_const == is_const);
        holds!(rt; read.counters == counters && count(&read) == entries);
    }
    Ok(())
}

/// What a text is read as.
#[derive(Clone, Copy)]
enum Of {
    /// What follows `set`
    Settings,
    /// What follows a table's name
    Table,
}

/// Why a text is refused, and at which line; nothing where it is not, or memory was refused.
fn refusal(alloc: Global, of: Of, text: &[u8]) -> Option<(Why, u64)>
    requires { length text.now < 1000 }
{
    let mut cursor = Cursor::new(text);
    let why = match of {
        Of::Settings => match read_settings(&mut cursor, &mut Draft::new(alloc)) {
            Err(ReadError::Refused(Refusal::Stop(why))) => Some(why),
            _ => None,
        },
        Of::Table => match read_parts(alloc, &mut cursor) {
            Err(ReadError::Refused(Refusal::Stop(why))) => Some(why),
            _ => None,
        },
    };
    Some((why?, cursor.line()))
}

const REFUSED: &[(Of, &str, Why, u64)] = &[
    (Of::Settings, "skip on lo\n", Why::Setting, 1),
    (Of::Settings, "limit anchors 5\n", Why::Plain, 1),
    (Of::Settings, "profile openbsd-7.5\n", Why::Plain, 1),
    (Of::Settings, "profile\nopenbsd-7.4\n", Why::Plain, 1),
    (Of::Settings, "limit states 0\n", Why::Number, 1),
    (Of::Settings, "limit states 4294967296\n", Why::Number, 1),
    (Of::Settings, "limit states\n5\n", Why::Number, 1),
    (Of::Settings, "limit { states 5, }\n", Why::Plain, 1),
    (Of::Settings, "limit {\n}\n", Why::Plain, 2),
    (Of::Settings, "timeout interval 0\n", Why::Number, 1),
    (
        Of::Settings,
        "timeout udp.first 2147483648\n",
        Why::Number,
        1,
    ),
    (
        Of::Settings,
        "timeout { udp.first 1\nstates 5 }\n",
        Why::Plain,
        2,
    ),
    (Of::Settings, "route\n", Why::Host, 1),
    (Of::Settings, "route any em0\n", Why::Host, 1),
    (Of::Settings, "route 10.0.0.0/8\nem0\n", Why::Plain, 1),
    (Of::Settings, "route 10.0.0.0/8 any\n", Why::Plain, 1),
    (
        Of::Settings,
        "route {\n10.0.0.0/8\nem0,\n10.0.0.1 }\n",
        Why::Plain,
        4,
    ),
    (Of::Settings, "route { }\n", Why::Host, 1),
    (Of::Table, "const const\n", Why::Again, 1),
    (Of::Table, "{ } { }\n", Why::Again, 1),
    (Of::Table, "{ 10.0.0.1\n!10.0.0.1 }\n", Why::Again, 2),
    (Of::Table, "{ 10/8 }\n", Why::Host, 1),
    (Of::Table, "{ self }\n", Why::Host, 1),
    (Of::Table, "{ 10.0.0.1, }\n", Why::Host, 1),
    (Of::Table, "file \"/etc/t\"\n", Why::Plain, 1),
];

#[test]
fn others_are_refused(rt: HostRuntime) {
    for &(of, text, why, line) in REFUSED {
        assert!(rt; text.len() < 1000);
        same!(rt; refusal(rt.alloc(), of, text.as_bytes()), Some((why, line)), text);
    }
}
