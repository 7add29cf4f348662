//! How far the reading of a text has come.

ghost use Rattle.std.specs.Prelude.{◌≡◌, ◌++◌, ◌∷◌, [], OnOk, slice_index_or};
ghost use Rattle.pfs_conf.specs.Statements.{nothing};

use pfs_addr_values::NoMemory;
use pfs_conf_settings::Draft;
use pfs_conf_values::RulesHasher;
use std::alloc::Global;
use std::marker::Model;

/// The lines of the statements that gave the items, by the items' places.
#[derive(Debug, Drop)]
pub struct Lines {
    lines: Vec<u64>,
}

impl Model for Lines {
    ghost use Rattle.std.specs.Prelude.{ℕ, List};

    ghost Value = { List ℕ };

    ghost view = { λ l. l.lines.items };
}

impl Lines {
    /// Appends the line of one more item.
    pub fn push(&mut self, line: u64) -> Result<(), NoMemory>
        ensures { OnOk result (self.new ≡ self.old ++ line ∷ []) }
    {
        self.lines.push(line)?;
        Ok(())
    }

    /// The line of an item; 0 where there is none.
    pub fn at(&self, place: u32) -> u64
        ensures { result ≡ slice_index_or self.now place 0 }
    {
        match self.lines.get(place as usize) {
            Some(line) => *line,
            None => 0,
        }
    }
}

/// What the statements say that have been read so far, and how many anchors are around the next one.
#[derive(Debug, Drop)]
pub struct Progress {
    /// What they say.
    pub draft: Draft,
    /// How many anchors are open.
    pub depth: u8,
    /// The lines of the items.
    pub lines: Lines,
}

impl Progress {
    /// Nothing is read of the text that this hasher was fed with.
    pub fn new(alloc: Global, hasher: RulesHasher) -> Progress
        ensures { result ≡ nothing }
    {
        Progress {
            draft: Draft::with_hasher(alloc, hasher),
            depth: 0,
            lines: Lines {
                lines: Vec::new(alloc),
            },
        }
    }
}
