//! The rules of a text that has a trace after them, up to the line between the two.

ghost use Rattle.std.specs.Prelude.{◌≡◌, Some, ◌<◌, ◌≤◌, ◌-◌, ◌^◌, ℕ, List, IfOk, OnOk, length, take};
ghost use Rattle.pfs_streams.specs.RulesKept.{KeepsEnough, rules_limit};
ghost use Rattle.pfs_streams.specs.Joined.{split_joined};
ghost use Rattle.pfs_streams.specs.Places.{IsPastSplit, ends_split, place_after, place_over, split_at, split_mark};

use crate::rules::RulesStop;
use pfs_conf_tokens::TEXT_LIMIT;
use std::alloc::Global;
use std::io::Read;

/// The most bytes that are kept of the rules: enough to show that they are too long when the
/// split line's two bytes are taken off.
const KEPT_LIMIT: usize = TEXT_LIMIT + 3;

/// Where in a line a reader is.
#[derive(Clone, Copy)]
enum LinePlace {
    /// At its start.
    Start,
    /// After one `%`, which is all so far.
    Percent,
    /// After `%%`, which is all so far.
    Percents,
    /// In a line that is not the split line.
    Inside,
}

impl LinePlace {
    /// Whether this byte ends the split line.
    fn splits(self, byte: u8) -> bool
        ensures { result ≡ ends_split self byte }
    {
        matches!((self, byte), (LinePlace::Percents, b'\n'))
    }

    /// The place after one byte more, which does not end the split line.
    fn after(self, byte: u8) -> LinePlace
        ensures { result ≡ place_after self byte }
    {
        match (self, byte) {
            (_, b'\n') => LinePlace::Start,
            (LinePlace::Start, b'%') => LinePlace::Percent,
            (LinePlace::Percent, b'%') => LinePlace::Percents,
            _ => LinePlace::Inside,
        }
    }

    /// The place after these bytes; none where the split line ends among them.
    #[tactic(auto, unfolding(crate::specs::Places::place_over))]
    fn over(self, bytes: &[u8]) -> Option<LinePlace>
        ensures { result ≡ place_over self bytes.now }
    {
        let mut place = self;
        for byte in bytes {
            if place.splits(*byte) {
                return None;
            }
            place = place.after(*byte);
        }
        Some(place)
    }
}

/// The bytes without those of a split line that ends here.
fn without_mark(kept: Vec<u8>, place: LinePlace) -> Vec<u8>
    requires { length (split_mark place) ≤ length kept.items }
    ensures { result.items ≡ take (length kept.items - length (split_mark place)) kept.items }
{
    let mut kept = kept;
    if let LinePlace::Percents = place {
        kept.truncate(kept.len() - 2);
    }
    kept
}

/// Reads on after the rules that are kept, to the split line or the end, by chunks that are given up.
fn read_on<B: Read>(input: &mut B, place: LinePlace) -> Result<(), RulesStop>
    ensures past { OnOk result ((xs : List ℕ) → B.remaining input.old ≡ Some xs → length xs < 2 ^ 64 - 1 →
        IsPastSplit (split_at place xs) (B.remaining input.new)) }
{
    let mut place = place;
    let mut chunk = [0; 8192];
    'chunks: for _ in 0..u64::MAX {
        let n = match input.read(&mut chunk) {
            Ok(0) => return Ok(()),
            Ok(n) => n,
            Err(_) => return Err(RulesStop::Source),
        };
        match place.over(&chunk[..n]) {
            Some(after) => place = after,
            None => return Ok(()),
        }
    }
    Ok(())
}

/// Reads the rules of a joined text, and leaves `input` at the trace.
///
/// The rules are the bytes before the first line that is exactly `%%`, and the trace is what follows that line. Without
/// such a line the rules are all, and the trace is empty. Of rules that are too long a front is kept, and the rest is
/// read on: so memory is bounded. It returns `RulesStop::Source` where a read fails, `RulesStop::Memory` where memory
/// is refused; `input` may be anywhere then.
pub fn read_joined<B: Read>(alloc: Global, input: &mut B) -> Result<Vec<u8>, RulesStop>
    ensures rules { IfOk result (λ v. (xs : List ℕ) → B.remaining input.old ≡ Some xs → KeepsEnough v.items (split_joined xs).0) }
    ensures trace { IfOk result (λ v. (xs : List ℕ) → B.remaining input.old ≡ Some xs → length v.items ≤ rules_limit → B.remaining input.new ≡ Some (split_joined xs).1) }
    ensures past { OnOk result ((xs : List ℕ) → B.remaining input.old ≡ Some xs → length xs < 2 ^ 64 - 1 →
        IsPastSplit (split_joined xs) (B.remaining input.new)) }
{
    let mut kept = Vec::new(alloc);
    let mut place = LinePlace::Start;
    let mut byte = [0];
    'bytes: while kept.len() < KEPT_LIMIT {
        match input.read(&mut byte) {
            Ok(0) => return Ok(without_mark(kept, place)),
            Ok(_) => {}
            Err(_) => return Err(RulesStop::Source),
        }
        if place.splits(byte[0]) {
            return Ok(without_mark(kept, place));
        }
        if kept.push(byte[0]).is_err() {
            return Err(RulesStop::Memory);
        }
        place = place.after(byte[0]);
    }
    match read_on(input, place) {
        Ok(()) => Ok(kept),
        Err(stop) => Err(stop),
    }
}
