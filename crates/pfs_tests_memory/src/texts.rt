//! Addresses as text, and rules texts with their configurations.

use crate::rules_texts::{FULL, NODES, OVERLOAD};
use crate::telling::{Teller, TellingStop, begin, end, plain, refused};
use pfs_addr::push_addr;
use pfs_addr_values::Addr;
use pfs_conf::{Config, Kind, LoadFault, load, show};
use pfs_tests_cases::{EVERYTHING, SHOWN};

/// A rules text, and how many items, tables and entries it has.
type TextRow = (&'static [u8], u64, u64, u64);

const TEXTS: &[TextRow] = &[
    (EVERYTHING, 3, 2, 2),
    (NODES, 1, 0, 0),
    (OVERLOAD, 3, 1, 0),
    (FULL, 1, 1, 1),
];

const HOSTS: &[([u8; 4], &[u8])] = &[
    ([198, 51, 100, 1], b"at 198.51.100.1"),
    ([0, 0, 0, 0], b"at 198.51.100.10.0.0.0"),
    (
        [255, 255, 255, 255],
        b"at 198.51.100.10.0.0.0255.255.255.255",
    ),
];

/// Addresses are appended to a text that holds something already.
pub fn tell_addresses(teller: &Teller) -> Result<(), TellingStop> {
    let mut out = Vec::from_slice(teller.alloc(), b"at ")?;
    for row in HOSTS {
        if !append(teller, &mut out, row)? {
            append(teller, &mut out, row)?;
        }
    }
    Ok(())
}

fn append(teller: &Teller, out: &mut Vec<u8>, row: &([u8; 4], &[u8])) -> Result<bool, TellingStop> {
    let (bytes, wanted) = *row;
    let before = out.len();
    begin(teller, "push_addr")?;
    let answer = push_addr(out, Addr::V4(bytes));
    end(teller)?;
    match answer {
        Ok(()) => plain(teller, out.as_slice() == wanted),
        Err(_) => refused(
            teller,
            out.len() == before && wanted.starts_with(out.as_slice()),
        ),
    }
}

/// Rules texts are loaded, shown and copied.
pub fn tell_texts(teller: &Teller) -> Result<(), TellingStop> {
    for row in TEXTS {
        if !load_one(teller, row)? {
            load_one(teller, row)?;
        }
    }
    let config = load(teller.alloc(), EVERYTHING)?;
    if !show_one(teller, &config)? {
        show_one(teller, &config)?;
    }
    if !copy_one(teller, &config)? {
        copy_one(teller, &config)?;
    }
    Ok(())
}

fn load_one(teller: &Teller, row: &TextRow) -> Result<bool, TellingStop> {
    let (text, items, tables, entries) = *row;
    begin(teller, "load")?;
    let answer = load(teller.alloc(), text);
    end(teller)?;
    match answer {
        Ok(config) => plain(teller, counts(&config) == (items, tables, entries)),
        Err(fault) => refused(teller, is_memory(&fault)),
    }
}

fn counts(config: &Config) -> (u64, u64, u64) {
    (
        u64::from(config.item_count()),
        u64::from(config.table_count()),
        config.entry_count(),
    )
}

fn is_memory(fault: &LoadFault) -> bool {
    fault.line == 0 && fault.kind == Kind::Memory
}

fn show_one(teller: &Teller, config: &Config) -> Result<bool, TellingStop> {
    begin(teller, "show")?;
    let answer = show(teller.alloc(), config);
    end(teller)?;
    match answer {
        Ok(text) => plain(teller, text.as_slice() == SHOWN),
        Err(_) => refused(teller, true),
    }
}

fn copy_one(teller: &Teller, config: &Config) -> Result<bool, TellingStop> {
    begin(teller, "copy")?;
    let answer = config.copy();
    end(teller)?;
    let Ok(copy) = answer else {
        return refused(teller, true);
    };
    let text = show(teller.alloc(), &copy)?;
    plain(teller, text.as_slice() == SHOWN)
}
