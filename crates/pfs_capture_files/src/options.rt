//! The options of a block.

ghost use Rattle.std.specs.Prelude.{◌≡◌, ◌+◌, ◌≤◌, IfSome, length};
ghost use Rattle.pfs_capture_files.specs.Options.{FitsIn, LiesWithin, find_option, option_step, takes_size};

use crate::orders::{Order, read_u16};

/// What is looked for: an option of this code, whose value has so many bytes.
#[derive(Clone, Copy)]
pub struct OptionWanted {
    /// The code.
    pub code: u16,
    /// The fewest bytes.
    pub least: usize,
    /// The most.
    pub most: usize,
}

/// Where a value is.
#[derive(Clone, Copy)]
pub struct ValueSpan {
    /// Where it begins.
    pub at: usize,
    /// How many bytes it has.
    pub size: usize,
}

/// Where a look through options goes from one.
#[derive(Clone, Copy)]
pub enum Look {
    /// On to the next, which begins here.
    On(usize),
    /// Nowhere: this one is looked for, and its value is here.
    Here(ValueSpan),
    /// Nowhere: there is none more.
    Nowhere,
}

impl OptionWanted {
    /// Whether a value of so many bytes is wanted.
    fn takes(self, size: usize) -> bool
        ensures { result ≡ takes_size self size }
    {
        self.least <= size && size <= self.most
    }
}

/// Where the value is of the first option that is wanted, of those that begin at this place.
pub fn find_option(
    order: Order,
    body: &[u8],
    wanted: OptionWanted,
    first: usize,
) -> Option<ValueSpan>
    ensures is { result ≡ find_option (length body.now) order body.now wanted first }
    ensures within { IfSome result (λ place. LiesWithin (length body.now) wanted.least place) }
{
    let mut at = first;
    for _turn in 0..body.len() {
        match option_step(order, body, wanted, at) {
            Look::On(next) => at = next,
            Look::Here(place) => return Some(place),
            Look::Nowhere => return None,
        }
    }
    None
}

/// Where the look goes from the option that begins here.
fn option_step(order: Order, body: &[u8], wanted: OptionWanted, at: usize) -> Look
    ensures is { result ≡ option_step order body.now wanted at }
    ensures within { FitsIn (length body.now) wanted.least result }
{
    if body.len() < 4 || at > body.len() - 4 {
        return Look::Nowhere;
    }
    let code = read_u16(order, body, at);
    let size = usize::from(read_u16(order, body, at + 2));
    if code == 0 {
        return Look::Nowhere;
    }
    if code == wanted.code && wanted.takes(size) && size <= body.len() - 4 - at {
        return Look::Here(ValueSpan { at: at + 4, size });
    }
    Look::On(at + 4 + (size + 3) / 4 * 4)
}
