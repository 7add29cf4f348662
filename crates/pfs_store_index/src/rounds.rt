//! Rounds of the purge: the numbers of a range in turn, so many in each slice.

ghost use Rattle.std.specs.Prelude.{◌≡◌, ◌+◌, ◌-◌, ◌<◌, ◌≤◌, ◌==◌, [], drop, filter, length, slice_get};
ghost use Rattle.std.specs.List.{AllByRecursion};
ghost use Rattle.std.specs.Map.{keys_of};
ghost use Rattle.pfs_store_contract.specs.Purging.{round};
ghost use Rattle.pfs_store_index.specs.QuietPurges.{round_after_slices};
ghost use Rattle.pfs_store_records.specs.Records.{IsRising, between};

use pfs_store_records::{Places, Round};

/// A round that went on, and how many slices are still to be done.
#[derive(Clone, Copy)]
struct RoundLeft {
    round: Round,
    left: u64,
}

/// The least number above one, and up to another.
pub(crate) fn next_between(places: &Places, above: u64, most: u64) -> Option<u64>
    requires { above ≤ most }
    ensures { result ≡ slice_get (filter (between above most) (keys_of places.now.entries)) 0 }
{
    match places.between(above, most).next() {
        Some((number, _)) => Some(number),
        None => None,
    }
}

/// Whether no number is left to be examined in a round.
pub(crate) fn is_over(places: &Places, round: Round) -> bool
    requires order { round.cursor ≤ round.mark }
    ensures { result ≡ (length (filter (between round.cursor round.mark) (keys_of places.now.entries)) == 0) }
{
    match next_between(places, round.cursor, round.mark) {
        Some(_) => false,
        None => true,
    }
}

/// The round that is under way, or a new one of all numbers.
pub(crate) fn under_way(places: &Places, begun: Round, made: u64) -> Round
    requires numbered { AllByRecursion (λ n. (1 ≤ n) × (n ≤ made)) (keys_of places.now.entries) }
    requires order { begun.cursor ≤ begun.mark }
    requires mark { begun.mark ≤ made }
    ensures order { result.cursor ≤ result.mark }
    ensures mark { result.mark ≤ made }
    ensures waiting { filter (between result.cursor result.mark) (keys_of places.now.entries)
        ≡ round (keys_of places.now.entries) (filter (between begun.cursor begun.mark) (keys_of places.now.entries)) }
{
    if is_over(places, begun) {
        Round {
            cursor: 0,
            mark: made,
        }
    } else {
        begun
    }
}

/// The round after so many slices in which nothing leaves. It takes no memory.
pub(crate) fn turned(places: &Places, round: Round, share: u64, made: u64, slices: u64) -> Round
    requires rising { IsRising (keys_of places.now.entries) }
    requires numbered { AllByRecursion (λ n. (1 ≤ n) × (n ≤ made)) (keys_of places.now.entries) }
    requires order { round.cursor ≤ round.mark }
    requires mark { round.mark ≤ made }
    requires share { 1 ≤ share }
    ensures order { result.cursor ≤ result.mark }
    ensures mark { result.mark ≤ made }
    ensures waiting { filter (between result.cursor result.mark) (keys_of places.now.entries)
        ≡ round_after_slices share (keys_of places.now.entries) slices (filter (between round.cursor round.mark) (keys_of places.now.entries)) }
{
    let mut round = round;
    let mut left = slices;
    while left > 0 {
        let turn = go_on(places, round, share, made, left);
        round = turn.round;
        left = turn.left;
    }
    round
}

/// One slice; or all whole rounds, where one is over.
fn go_on(places: &Places, round: Round, share: u64, made: u64, left: u64) -> RoundLeft
    requires rising { IsRising (keys_of places.now.entries) }
    requires numbered { AllByRecursion (λ n. (1 ≤ n) × (n ≤ made)) (keys_of places.now.entries) }
    requires order { round.cursor ≤ round.mark }
    requires mark { round.mark ≤ made }
    requires share { 1 ≤ share }
    requires some { 0 < left }
    ensures order { result.round.cursor ≤ result.round.mark }
    ensures mark { result.round.mark ≤ made }
    ensures less { result.left < left }
    ensures waiting { round_after_slices share (keys_of places.now.entries) result.left (filter (between result.round.cursor result.round.mark) (keys_of places.now.entries))
        ≡ round_after_slices share (keys_of places.now.entries) left (filter (between round.cursor round.mark) (keys_of places.now.entries)) }
{
    if is_over(places, round) {
        let whole = whole_round(places, share);
        if whole <= left {
            RoundLeft {
                round,
                left: left % whole,
            }
        } else {
            let begun = Round {
                cursor: 0,
                mark: made,
            };
            RoundLeft {
                round: sliced(places, begun, share),
                left: left - 1,
            }
        }
    } else {
        RoundLeft {
            round: sliced(places, round, share),
            left: left - 1,
        }
    }
}

/// How many slices a whole round has; one where there is no number.
fn whole_round(places: &Places, share: u64) -> u64
    requires share { 1 ≤ share }
    ensures some { 1 ≤ result }
    ensures whole { round_after_slices share (keys_of places.now.entries) result [] ≡ [] }
{
    let numbers = places.len() as u64;
    1 + numbers.saturating_sub(1) / share
}

/// The round after a slice: the next numbers, so many at most, are passed by.
fn sliced(places: &Places, round: Round, share: u64) -> Round
    requires rising { IsRising (keys_of places.now.entries) }
    requires order { round.cursor ≤ round.mark }
    ensures order { result.cursor ≤ result.mark }
    ensures mark { result.mark ≡ round.mark }
    ensures waiting { filter (between result.cursor result.mark) (keys_of places.now.entries)
        ≡ drop share (filter (between round.cursor round.mark) (keys_of places.now.entries)) }
{
    Round {
        cursor: passed(places, round.cursor, round.mark, share),
        mark: round.mark,
    }
}

/// The last of the next numbers above one and up to another, so many at most.
fn passed(places: &Places, above: u64, most: u64, share: u64) -> u64
    requires rising { IsRising (keys_of places.now.entries) }
    requires range { above ≤ most }
    ensures from { above ≤ result }
    ensures to { result ≤ most }
    ensures rest { filter (between result most) (keys_of places.now.entries)
        ≡ drop share (filter (between above most) (keys_of places.now.entries)) }
{
    let mut rest = places.between(above, most);
    let mut passed = 0;
    let mut last = above;
    while passed < share {
        let Some((number, _)) = rest.next() else {
            return last;
        };
        last = number;
        passed += 1;
    }
    last
}
