//! Readers of a state clause and its options. Each reads a value at the cursor. The cursor is then after the value, or
//! at the token that no statement accepts there.

ghost use Rattle.std.specs.Prelude.{◌≡◌, ◌<◌, ◌≤◌, IfOk, IfSome, MatchBool, Ok, Err, Some};
ghost use Rattle.pfs_conf_tokens.specs.Reading.{Reader, closes_parens, act, chain, done, once, take, until_all, next_of, list_all, number_at};
ghost use Rattle.pfs_conf_tokens.specs.TokenResults.{Gives};
ghost use Rattle.pfs_conf_options.specs.Options.{rule_place, options_given, proxied};
ghost use Rattle.pfs_conf_options.specs.Bounds.{AreRead};
ghost use Rattle.pfs_conf_values.specs.Bounds.{greatest_timeout};
ghost use Rattle.pfs_conf_options.specs.Reading.{track_at, count_written, rate_of, rate_at, table_at, flush_at, overload_text_at, state_mark_at, timeout_at, connection_at, option_at, state_options_at, kept_at, state_at};

use crate::clauses::{Options, OverloadText, StateClause, Track};
use pfs_conf_tokens::{Cursor, Key, Refusal, Why, digits, number, split_at_byte, table_name};
use pfs_conf_values::{Rate, Scope, TableName};

/// Reads the state clause of a rule, at its `no`, `keep` or `synproxy`:
/// `no state`, or `keep state` or `synproxy state` with its options in parentheses, if any.
///
/// A `(` after `no state` is left where it is. It refuses an option that is given already with `Why::Again`, at its
/// word; what is no number, or no rate, within the option's range with `Why::Number`; and anything else that continues
/// no state clause with `Why::Plain`. It takes no memory. (pf.conf(5), STATEFUL FILTERING, STATEFUL TRACKING OPTIONS)
pub fn state_clause(cursor: &mut Cursor) -> Result<StateClause, Refusal>
    ensures value { Gives result cursor.new (state_at cursor.old) }
    ensures within { IfOk result (λ clause. AreRead (options_given clause)) }
{
    clause(cursor)
}

#[tactic(auto, unfolding(crate::specs::Reading::state_at))]
fn clause(cursor: &mut Cursor) -> Result<StateClause, Refusal>
    ensures { Gives result cursor.new (state_at cursor.old) }
{
    match cursor.key() {
        Key::No => {
            cursor.advance();
            cursor.expect(Key::State)?;
            Ok(StateClause::No)
        }
        Key::Keep => {
            cursor.advance();
            cursor.expect(Key::State)?;
            Ok(StateClause::Keep(kept(cursor)?))
        }
        Key::Synproxy => {
            cursor.advance();
            cursor.expect(Key::State)?;
            Ok(StateClause::Keep(proxied(kept(cursor)?)))
        }
        _ => Err(Refusal::Stop(Why::Plain)),
    }
}

/// The same options of `synproxy state`.
fn proxied(options: Options) -> Options
    ensures { result ≡ proxied options }
{
    Options {
        synproxy: true,
        ..options
    }
}

#[tactic(auto, unfolding(crate::specs::Reading::kept_at, crate::specs::Reading::state_options_at))]
fn kept(cursor: &mut Cursor) -> Result<Options, Refusal>
    ensures { Gives result cursor.new (kept_at cursor.old) }
{
    let none = Options::new();
    if cursor.take(Key::OpenParen) {
        options(cursor, none)
    } else {
        Ok(none)
    }
}

/// Options up to the closing parenthesis, added to those that are given already.
fn options(cursor: &mut Cursor, given: Options) -> Result<Options, Refusal>
    ensures { Gives result cursor.new (list_all closes_parens option_at given cursor.old) }
{
    let first = option(cursor, given)?;
    let mut options = first;
    while !cursor.is_at_close_paren() {
        options = next_option(cursor, options)?;
    }
    cursor.advance();
    Ok(options)
}

fn next_option(cursor: &mut Cursor, options: Options) -> Result<Options, Refusal>
    ensures { Gives result cursor.new (next_of option_at options cursor.old) }
{
    cursor.take(Key::Comma);
    option(cursor, options)
}

/// An option is added to those that are read already.
#[tactic(auto, unfolding(crate::specs::Reading::option_at, crate::specs::Reading::connection_at))]
fn option(cursor: &mut Cursor, options: Options) -> Result<Options, Refusal>
    ensures { Gives result cursor.new (option_at options cursor.old) }
{
    match cursor.key() {
        Key::Max => max(cursor, options),
        Key::SourceTrack => source_track(cursor, options),
        Key::MaxSrcNodes => max_src_nodes(cursor, options),
        Key::MaxSrcStates => max_src_states(cursor, options),
        _ => connection_option(cursor, options),
    }
}

fn max(cursor: &mut Cursor, options: Options) -> Result<Options, Refusal>
    ensures { Gives result cursor.new (act (once options.max (take (chain (number_at 1 4294967295) (λ n. done (record options { max = Some n }))))) cursor.old) }
{
    match value_once(cursor, options.max) {
        Ok(max) => Ok(Options {
            max: Some(max),
            ..options
        }),
        Err(refusal) => Err(refusal),
    }
}

fn source_track(cursor: &mut Cursor, options: Options) -> Result<Options, Refusal>
    ensures { Gives result cursor.new (act (once options.track (take (chain track_at (λ s. done (record options { track = Some s }))))) cursor.old) }
{
    match value_once(cursor, options.track) {
        Ok(track) => Ok(Options {
            track: Some(track),
            ..options
        }),
        Err(refusal) => Err(refusal),
    }
}

fn max_src_nodes(cursor: &mut Cursor, options: Options) -> Result<Options, Refusal>
    ensures { Gives result cursor.new (act (once options.max_src_nodes (take (chain (number_at 1 4294967295) (λ n. done (record options { max_src_nodes = Some n }))))) cursor.old) }
{
    match value_once(cursor, options.max_src_nodes) {
        Ok(nodes) => Ok(Options {
            max_src_nodes: Some(nodes),
            ..options
        }),
        Err(refusal) => Err(refusal),
    }
}

fn max_src_states(cursor: &mut Cursor, options: Options) -> Result<Options, Refusal>
    ensures { Gives result cursor.new (act (once options.max_src_states (take (chain (number_at 1 4294967295) (λ n. done (record options { max_src_states = Some n }))))) cursor.old) }
{
    match value_once(cursor, options.max_src_states) {
        Ok(states) => Ok(Options {
            max_src_states: Some(states),
            ..options
        }),
        Err(refusal) => Err(refusal),
    }
}

/// An option on the connections of a source.
#[tactic(auto, unfolding(crate::specs::Reading::connection_at, crate::specs::Reading::state_mark_at))]
fn connection_option(cursor: &mut Cursor, options: Options) -> Result<Options, Refusal>
    ensures { Gives result cursor.new (connection_at options cursor.old) }
{
    match cursor.key() {
        Key::MaxSrcConn => match value_once(cursor, options.max_src_conn) {
            Ok(connections) => Ok(with_connections(options, connections)),
            Err(refusal) => Err(refusal),
        },
        Key::MaxSrcConnRate => match value_once(cursor, options.max_src_conn_rate) {
            Ok(rate) => Ok(with_rate(options, rate)),
            Err(refusal) => Err(refusal),
        },
        Key::Overload => match value_once(cursor, options.overload) {
            Ok(overload) => Ok(with_overload(options, overload)),
            Err(refusal) => Err(refusal),
        },
        _ => mark(cursor, options),
    }
}

fn with_connections(options: Options, connections: u32) -> Options
    ensures { result ≡ record options { max_src_conn = Some connections } }
{
    Options {
        max_src_conn: Some(connections),
        ..options
    }
}

fn with_rate(options: Options, rate: Rate) -> Options
    ensures { result ≡ record options { max_src_conn_rate = Some rate } }
{
    Options {
        max_src_conn_rate: Some(rate),
        ..options
    }
}

fn with_overload(options: Options, overload: OverloadText) -> Options
    ensures { result ≡ record options { overload = Some overload } }
{
    Options {
        overload: Some(overload),
        ..options
    }
}

/// A word of its own, or a timeout.
#[tactic(auto, unfolding(crate::specs::Reading::state_mark_at, crate::specs::Reading::timeout_at))]
fn mark(cursor: &mut Cursor, options: Options) -> Result<Options, Refusal>
    ensures { Gives result cursor.new (state_mark_at options cursor.old) }
{
    match cursor.key() {
        Key::Sloppy => {
            only_once(options.sloppy)?;
            cursor.advance();
            Ok(Options {
                sloppy: true,
                ..options
            })
        }
        Key::Floating => {
            only_once(options.floating)?;
            cursor.advance();
            Ok(Options {
                floating: true,
                ..options
            })
        }
        Key::NoSync => {
            only_once(options.no_sync)?;
            cursor.advance();
            Ok(Options {
                no_sync: true,
                ..options
            })
        }
        _ => timeout(cursor, options),
    }
}

#[tactic(auto, unfolding(crate::specs::Reading::timeout_at))]
fn timeout(cursor: &mut Cursor, options: Options) -> Result<Options, Refusal>
    ensures { Gives result cursor.new (timeout_at options cursor.old) }
{
    let Some(place) = place_of_timeout(cursor.key()) else {
        return Err(Refusal::Stop(Why::Plain));
    };
    only_once(options.timeouts.at(place).is_some())?;
    cursor.advance();
    let value = number_within(cursor, 0, greatest_of(place))?;
    let mut timeouts = options.timeouts;
    timeouts.set(place, value);
    Ok(Options {
        timeouts,
        ..options
    })
}

/// The place of a timeout that a rule may have: of all but `interval`.
fn place_of_timeout(key: Key) -> Option<usize>
    ensures value { result ≡ rule_place key }
    ensures within { IfSome result (λ place. place < 16) }
{
    match key {
        Key::Interval => None,
        _ => key.timeout_place(),
    }
}

/// Seconds, or for the adaptive ones states.
fn greatest_of(place: usize) -> u32
    ensures { result ≡ greatest_timeout place }
{
    if place < 14 { 2_147_483_647 } else { u32::MAX }
}

fn only_once(is_given: bool) -> Result<(), Refusal>
    ensures { MatchBool is_given (result ≡ Err (Refusal.Stop Why.Again)) (result ≡ Ok tt) }
{
    if is_given {
        Err(Refusal::Stop(Why::Again))
    } else {
        Ok(())
    }
}

/// A value behind the word of an option.
trait OptionValue: Copy {
    // what reads it
    ghost reading: { Reader Self };

    /// Reads it at the cursor.
    fn read(cursor: &mut Cursor) -> Result<Self, Refusal>
        ensures { Gives result cursor.new (reading cursor.old) };
}

impl OptionValue for u32 {
    ghost reading = { number_at 1 4294967295 };

    fn read(cursor: &mut Cursor) -> Result<u32, Refusal> {
        number_within(cursor, 1, u32::MAX)
    }
}

impl OptionValue for Track {
    ghost reading = { track_at };

    fn read(cursor: &mut Cursor) -> Result<Track, Refusal> {
        track(cursor)
    }
}

impl OptionValue for Rate {
    ghost reading = { rate_at };

    fn read(cursor: &mut Cursor) -> Result<Rate, Refusal> {
        rate(cursor)
    }
}

impl OptionValue for OverloadText {
    ghost reading = { overload_text_at };

    fn read(cursor: &mut Cursor) -> Result<OverloadText, Refusal> {
        overload(cursor)
    }
}

/// Reads what follows the word of an option, at that word. The word is refused where the option is given already.
fn value_once<T: OptionValue>(cursor: &mut Cursor, given: Option<T>) -> Result<T, Refusal>
    ensures { Gives result cursor.new (act (once given (take T.reading)) cursor.old) }
{
    match given {
        Some(_) => Err(Refusal::Stop(Why::Again)),
        None => {
            cursor.advance();
            T::read(cursor)
        }
    }
}

fn number_within(cursor: &mut Cursor, low: u32, high: u32) -> Result<u32, Refusal>
    ensures { Gives result cursor.new (number_at low high cursor.old) }
{
    let value = number(cursor, u64::from(low), u64::from(high))?;
    Ok(value as u32)
}

#[tactic(auto, unfolding(crate::specs::Reading::track_at))]
fn track(cursor: &mut Cursor) -> Result<Track, Refusal>
    ensures { Gives result cursor.new (track_at cursor.old) }
{
    match cursor.key() {
        Key::Rule => {
            cursor.advance();
            Ok(Track::Rule)
        }
        Key::Global => {
            cursor.advance();
            Ok(Track::Global)
        }
        _ => Ok(Track::Bare),
    }
}

#[tactic(auto, unfolding(crate::specs::Reading::rate_at))]
fn rate(cursor: &mut Cursor) -> Result<Rate, Refusal>
    ensures { Gives result cursor.new (rate_at cursor.old) }
{
    match cursor.key() {
        Key::Number => match parse_rate(cursor.text()) {
            Some(rate) => {
                cursor.advance();
                Ok(rate)
            }
            None => Err(Refusal::Stop(Why::Number)),
        },
        _ => Err(Refusal::Stop(Why::Number)),
    }
}

#[tactic(auto, unfolding(crate::specs::Reading::rate_of))]
fn parse_rate(text: &[u8]) -> Option<Rate>
    ensures { result ≡ rate_of text.now }
{
    let (before, behind) = split_at_byte(text, b'/')?;
    let limit = parse_count(before, 4_294_967)?;
    let seconds = parse_count(behind, 2_147_483_647)?;
    Some(Rate { limit, seconds })
}

fn parse_count(text: &[u8], high: u32) -> Option<u32>
    ensures { result ≡ count_written high text.now }
{
    match digits(text) {
        Some(count) if 1 <= count && count <= u64::from(high) => Some(count as u32),
        _ => None,
    }
}

#[tactic(auto, unfolding(crate::specs::Reading::overload_text_at))]
fn overload(cursor: &mut Cursor) -> Result<OverloadText, Refusal>
    ensures { Gives result cursor.new (overload_text_at cursor.old) }
{
    let table = table(cursor)?;
    let flush = flush(cursor)?;
    Ok(OverloadText { table, flush })
}

#[tactic(auto, unfolding(crate::specs::Reading::flush_at))]
fn flush(cursor: &mut Cursor) -> Result<Option<Scope>, Refusal>
    ensures { Gives result cursor.new (flush_at cursor.old) }
{
    if !cursor.take(Key::Flush) {
        return Ok(None);
    }
    if cursor.take(Key::Global) {
        Ok(Some(Scope::Global))
    } else {
        Ok(Some(Scope::Rule))
    }
}

/// The name of a table in angle brackets.
#[tactic(auto, unfolding(crate::specs::Reading::table_at))]
fn table(cursor: &mut Cursor) -> Result<TableName, Refusal>
    ensures { Gives result cursor.new (table_at cursor.old) }
{
    cursor.expect(Key::OpenAngle)?;
    let name = table_name(cursor)?;
    cursor.expect(Key::CloseAngle)?;
    Ok(name)
}
