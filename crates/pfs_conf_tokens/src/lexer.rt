//! Tokens from bytes: the first token of a text, and what is left after it.

ghost use Rattle.std.specs.Prelude.{◌≡◌, ◌+◌, ◌<◌, ◌≤◌, ◌^◌, ◌∷◌, List, [], true, drop, length, IsTrue, MatchOption};
ghost use Rattle.pfs_conf_tokens.specs.Lexis.{mark_key, is_word_byte, is_space, goes_on, run_of, is_closed, piece, bytes_behind, tokens, in_front};
ghost use Rattle.pfs_conf_tokens.specs.Scanning.{tokens_of_scan};

use crate::keys::Key;
use crate::pieces::Token;
use crate::words::key_of;

/// The most bytes of a rules text. (own to this profile)
pub const TEXT_LIMIT: usize = 1_048_576;

/// What a run of bytes may be: a word, a comment, or the inside of a quoted string.
#[derive(Clone, Copy, Debug, PartialEq, Eq)]
pub enum Run {
    Word,
    Comment,
    Quote,
}

fn is_word_byte(b: u8) -> bool
    ensures { result ≡ is_word_byte b }
{
    match b {
        b']'..=b'z' | b'-'..=b';' | b'?'..=b'[' => true,
        b'$'..=b'\'' | b'*' | b'+' | b'|' | b'~' => true,
        _ => false,
    }
}

fn is_space(b: u8) -> bool
    ensures { result ≡ is_space b }
{
    b == b' ' || b == b'\t' || b == b'\r'
}

fn goes_on(run: Run, b: u8) -> bool
    ensures { result ≡ goes_on run b }
{
    match run {
        Run::Word => is_word_byte(b),
        Run::Comment => b != b'\n',
        Run::Quote => b != b'\n' && b != b'"',
    }
}

#[tactic(auto, unfolding(crate::specs::Lexis::run_of))]
fn run_of(run: Run, bytes: &[u8]) -> usize
    ensures value { result ≡ run_of run bytes.now }
    ensures within { result ≤ length bytes.now }
{
    let mut n = 0;
    for b in bytes {
        if !goes_on(run, *b) {
            return n;
        }
        n += 1;
    }
    n
}

fn mark_key(b: u8) -> Key
    ensures { result ≡ mark_key b }
{
    match b {
        b'{' => Key::OpenBrace,
        b'}' => Key::CloseBrace,
        b'(' => Key::OpenParen,
        b')' => Key::CloseParen,
        b'<' => Key::OpenAngle,
        b'>' => Key::CloseAngle,
        b',' => Key::Comma,
        b'!' => Key::Not,
        b'=' => Key::Equals,
        _ => Key::Bad,
    }
}

/// The token in front of a text, and what is after it.
#[derive(Drop)]
pub struct Scan<'a> {
    pub token: Token<'a>,
    /// The bytes after the token.
    pub rest: &'a [u8],
    /// The line that they begin on.
    pub line: u64,
    /// Whether that line has tokens.
    pub busy: bool,
    /// Whether the token is the end of the text.
    pub is_last: bool,
}

fn is_closed(bytes: &[u8]) -> bool
    ensures { result ≡ is_closed bytes.now }
{
    let n = run_of(Run::Quote, bytes);
    let (_, after) = bytes.split_at(n);
    match after {
        [b'"', ..] => true,
        _ => false,
    }
}

/// The token that begins with `b`, and how many of the bytes after `b` are part of it.
fn piece<'a>(line: u64, text: &'a [u8], b: u8, behind: &'a [u8]) -> (Token<'a>, usize)
    requires { text.now ≡ b ∷ behind.now }
    ensures token { result.0 ≡ piece line b behind.now }
    ensures taken { result.1 ≡ bytes_behind b behind.now }
    ensures within { result.1 ≤ length behind.now }
{
    if is_word_byte(b) {
        let n = run_of(Run::Word, behind);
        let (word, _) = text.split_at(n + 1);
        return (Token::new(line, key_of(word), word), n);
    }
    if b == b'"' && is_closed(behind) {
        let n = run_of(Run::Quote, behind);
        let (inside, _) = behind.split_at(n);
        return (Token::new(line, Key::Quoted, inside), n + 1);
    }
    let (mark, _) = text.split_at(1);
    (Token::new(line, mark_key(b), mark), 0)
}

fn split_front(bytes: &[u8]) -> Option<(u8, &[u8])>
    ensures { MatchOption result (bytes.now ≡ []) (λ x. bytes.now ≡ x.0 ∷ x.1.now) }
{
    match bytes {
        [first, rest @ ..] => Some((*first, rest)),
        [] => None,
    }
}

/// The token that begins with `b`, and what is left after it.
fn scan_piece<'a>(line: u64, text: &'a [u8], b: u8, behind: &'a [u8]) -> Scan<'a>
    requires { text.now ≡ b ∷ behind.now }
    ensures tokens { tokens_of_scan result ≡ piece line b behind.now ∷ tokens 0 true line (drop (bytes_behind b behind.now) behind.now) }
    ensures within { bytes_behind b behind.now ≤ length behind.now }
    ensures room { result.line + length result.rest.now ≤ line + length behind.now }
{
    let (token, n) = piece(line, text, b, behind);
    let (_, rest) = behind.split_at(n);
    Scan {
        token,
        rest,
        line,
        busy: true,
        is_last: false,
    }
}

/// The first token of the bytes, which begin on a line; `busy` says whether that line has tokens before them.
pub fn first_token<'a>(bytes: &'a [u8], line: u64, busy: bool) -> Scan<'a>
    requires { line + length bytes.now < 2 ^ 64 }
    ensures tokens { tokens_of_scan result ≡ tokens 0 busy line bytes.now }
    ensures room { result.line + length result.rest.now ≤ line + length bytes.now }
{
    let mut rest = bytes;
    let mut line = line;
    while let Some((b, after)) = split_front(rest) {
        if is_space(b) {
            rest = after;
        } else if b == b'\n' {
            return Scan {
                token: Token::new(line, Key::LineEnd, &[]),
                rest: after,
                line: line + 1,
                busy: false,
                is_last: false,
            };
        } else if b == b'#' {
            let (_, behind) = after.split_at(run_of(Run::Comment, after));
            rest = behind;
        } else if b == b'\\' && is_line_feed(after) {
            let (_, behind) = after.split_at(1);
            rest = behind;
            line += 1;
        } else {
            return scan_piece(line, rest, b, after);
        }
    }
    let key = if busy { Key::LineEnd } else { Key::End };
    Scan {
        token: Token::new(line, key, &[]),
        rest,
        line,
        busy: false,
        is_last: !busy,
    }
}

fn is_line_feed(bytes: &[u8]) -> bool
    ensures value { result ≡ in_front 10 bytes.now }
    ensures room { IsTrue result → 0 < length bytes.now }
{
    match bytes {
        [b'\n', ..] => true,
        _ => false,
    }
}
