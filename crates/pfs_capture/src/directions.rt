//! By what the directions of records were found.

ghost use Rattle.std.specs.Prelude.{◌≡◌, ◌+◌, ◌≤◌, Some};
ghost use Rattle.pfs_capture.specs.Accounts.{AreFew, directions_text, directions_with, no_directions, records_told};

use crate::sorting::{Evidence, Heading};
use std::fmt;

/// How many records have their direction by each kind of evidence, and for how many of them the networks say the other way.
#[derive(Clone, Copy)]
pub struct Directions {
    /// Those of a log of pflog(4).
    pub log: u64,
    /// Those of a Linux cooked capture, by its header.
    pub cooked: u64,
    /// Those whose Ethernet frame is from or to an address of the interface.
    pub mac: u64,
    /// Those of which only the networks of their addresses tell it.
    pub networks: u64,
    /// Those whose header says one way, and the networks of their addresses the other.
    pub contradicted: u64,
}

impl Directions {
    /// Those of no record.
    pub fn new() -> Directions
        ensures { result ≡ no_directions }
    {
        Directions {
            log: 0,
            cooked: 0,
            mac: 0,
            networks: 0,
            contradicted: 0,
        }
    }

    /// Counts that of one record more.
    pub fn count(&mut self, heading: Heading)
        requires { AreFew self.old }
        ensures is { self.new ≡ directions_with self.old heading }
        ensures sum { records_told self.new ≡ records_told self.old + 1 }
        ensures few { self.new.contradicted ≤ self.old.contradicted + 1 }
    {
        match heading.by {
            Evidence::Log => self.log += 1,
            Evidence::Cooked => self.cooked += 1,
            Evidence::Mac => self.mac += 1,
            Evidence::Networks => self.networks += 1,
        }
        self.contradicted += u64::from(heading.is_contradicted);
    }
}

impl fmt::Display for Directions {
    ghost output = { λ d. Some (directions_text d) };

    fn fmt<W: fmt::Write>(&self, f: &mut fmt::Formatter<W>) -> fmt::Result {
        write!(
            f,
            "directions: by pflog {}, by a cooked header {}, by --mac {}, by networks {}; networks contradict {}",
            self.log, self.cooked, self.mac, self.networks, self.contradicted
        )
    }
}
