//! Makes each call that may run out of memory, and looks whether the answer is the plain one, or refused with all still there that must
//! be. Without words, standard output has a line for each call that deviates, and last how many there were. A word chooses a part of
//! the calls: then it has a line before each call, one after it, and what came of it, so that one sees in which memory was refused.

#![tactic(auto)]

mod engines;
mod kinds;
mod programs;
mod rules_texts;
mod stores;
mod tables;
mod telling;
mod texts;

use crate::telling::{Teller, TellingStop, code_of, is_chosen};
use pfs_store::{IndexStore, PlainStore};
use std::env;
use std::process::ExitCode;

fn main(rt: HostRuntime) -> ExitCode {
    code_of(tell_all(&rt))
}

/// The parts of the calls, each with its word.
const PARTS: [&str; 9] = [
    "addresses",
    "texts",
    "tables",
    "plain-store",
    "index-store",
    "plain-engine",
    "index-engine",
    "replays",
    "jobs",
];

/// What the words name, or everything, and then that it is whole.
fn tell_all(rt: &HostRuntime) -> Result<(), TellingStop> {
    let words: Vec<String> = env::args(rt)?.collect(rt.alloc())?;
    let chosen = match words.get(1) {
        Some(word) => word.as_str(),
        None => "",
    };
    let teller = Teller::new(rt, !chosen.is_empty());
    for part in PARTS {
        if is_chosen(chosen, part) {
            tell(&teller, part)?;
        }
    }
    teller.sum()
}

fn tell(teller: &Teller, part: &str) -> Result<(), TellingStop> {
    match part {
        "addresses" => texts::tell_addresses(teller),
        "texts" => texts::tell_texts(teller),
        "tables" => tables::tell_tables(teller),
        "plain-store" => stores::tell::<PlainStore>(teller),
        "index-store" => stores::tell::<IndexStore>(teller),
        "plain-engine" => engines::tell::<PlainStore>(teller),
        "index-engine" => engines::tell::<IndexStore>(teller),
        "replays" => programs::tell_replays(teller),
        _ => programs::tell_jobs(teller),
    }
}
