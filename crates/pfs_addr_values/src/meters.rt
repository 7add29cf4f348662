//! The meter that counts work: rules visited, and records looked at.

ghost use Rattle.std.specs.Prelude.{◌≡◌, ◌+◌, ◌-◌, ◌<◌, ◌^◌};

use std::marker::Model;

/// A count of work done, in visits of rules or looks at records. Clauses see the number. (own to this profile)
#[derive(Debug, Drop)]
pub struct Meter {
    count: u64,
}

impl Model for Meter {
    ghost use Rattle.std.specs.Prelude.{ℕ};

    ghost Value = { ℕ };

    ghost view = { λ m. m.count };
}

impl Meter {
    /// A meter at 0.
    pub fn new() -> Meter
        ensures { result ≡ 0 }
    {
        Meter { count: 0 }
    }

    /// How often it ticked since it was made.
    pub fn count(&self) -> u64
        ensures { result ≡ self.now }
    {
        self.count
    }

    /// One more. The count is below the greatest `u64`.
    pub fn tick(&mut self)
        requires { self.old < 2 ^ 64 - 1 }
        ensures { self.new ≡ self.old + 1 }
    {
        self.count += 1;
    }
}
