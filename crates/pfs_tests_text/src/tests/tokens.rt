//! Tokens, numbers and parts of texts, written out by hand.

use pfs_conf_tokens::{
    Cursor, Key, ReadError, Refusal, Why, digits, key_of, number, skip_lines, split_at_byte,
};
use pfs_tests_cases::{holds, same};
use std::alloc::AllocError;
use std::test::Fail;

#[test]
fn tokens_and_lines_of_a_text(rt: HostRuntime) {
    // A comment's backslash joins no lines; a backslash before a line feed does, and the line is that of the token.
    let mut cursor = Cursor::new(b"pass \"a b\" # c \\\n\\\n\tin<t>, max 007");
    let wanted = [
        (Key::Pass, 1),
        (Key::Quoted, 1),
        (Key::LineEnd, 1),
        (Key::In, 3),
        (Key::OpenAngle, 3),
        (Key::Name, 3),
        (Key::CloseAngle, 3),
        (Key::Comma, 3),
        (Key::Max, 3),
        (Key::Number, 3),
        (Key::LineEnd, 3),
        (Key::End, 3),
    ];
    for (key, line) in wanted {
        same!(rt; cursor.key(), key);
        same!(rt; cursor.line(), line);
        cursor.advance();
    }
    holds!(rt; cursor.is_at_end());
    same!(rt; cursor.line(), 0);
}

#[test]
fn ends_of_texts(rt: HostRuntime) {
    // A line without tokens is not ended by the end of the text, and a continued line is one.
    let mut empty = Cursor::new(b" \t\r");
    holds!(rt; empty.is_at_end());
    holds!(rt; !empty.is_at_line_end());
    empty.advance();
    same!(rt; empty.text().len(), 0);
    let mut joined = Cursor::new(b"all\\\n");
    joined.advance();
    holds!(rt; joined.is_at_line_end());
    same!(rt; joined.line(), 2);
    joined.advance();
    holds!(rt; joined.is_at_end());
    let mut comment = Cursor::new(b"# all");
    holds!(rt; comment.is_at_end());
    same!(rt; comment.take(Key::All), false);
}

#[test]
fn what_nothing_accepts(rt: HostRuntime) {
    for text in [
        b"\"open\n\"".as_slice(),
        b"\"a\\\nb\"",
        b"\\ \n",
        b"\xef\xbb\xbfpass",
        b"\x7f",
        b"\x00",
    ] {
        same!(rt; Cursor::new(text).key(), Key::Bad);
    }
    let mut quoted = Cursor::new(b"\"we#b {\"}");
    same!(rt; quoted.text(), b"we#b {".as_slice());
    quoted.advance();
    holds!(rt; quoted.is_at_close_brace());
}

#[test]
fn marks_part_words(rt: HostRuntime) {
    let mut cursor = Cursor::new(b"!a=b{c}(d)#e");
    let wanted = [
        Key::Not,
        Key::Name,
        Key::Equals,
        Key::Name,
        Key::OpenBrace,
        Key::Name,
        Key::CloseBrace,
        Key::OpenParen,
        Key::Name,
        Key::CloseParen,
        Key::LineEnd,
    ];
    for key in wanted {
        same!(rt; cursor.is_at_close_paren(), key == Key::CloseParen);
        same!(rt; cursor.expect(key), Ok(()));
    }
    same!(rt; cursor.expect(Key::LineEnd), Err(Refusal::Stop(Why::Plain)));
    holds!(rt; cursor.is_at_end());
}

const WORDS: &[(&[u8], Key)] = &[
    (b"max-src-conn-rate", Key::MaxSrcConnRate),
    (b"max-src-conn-rat", Key::Name),
    (b"Pass", Key::Name),
    (b"10.0.0.0/8", Key::Number),
    (b"$ext_if", Key::Name),
    (b"binat-to", Key::Foreign),
    (b"profile", Key::Profile),
    (b"openbsd-7.4", Key::OpenBsd74),
    (b"openbsd-7.5", Key::Name),
    (b"synproxy", Key::Synproxy),
    (b"syncookies", Key::Syncookies),
    (b"never", Key::Never),
    (b"always", Key::Always),
    (b"adaptive", Key::Adaptive),
    (b"start", Key::Start),
    (b"end", Key::EndWord),
    (b"route", Key::Route),
    (b"routes", Key::Name),
    (b"25%", Key::Number),
    (b"modulate", Key::Foreign),
    (b"match", Key::Match),
    (b"matches", Key::Matches),
    (b"tag", Key::Tag),
    (b"tagged", Key::Tagged),
    (b"received-on", Key::ReceivedOn),
    (b"nat-to", Key::NatTo),
    (b"rdr-to", Key::RdrTo),
    (b"static-port", Key::StaticPort),
    (b"", Key::Name),
];

#[test]
fn words_have_keys(rt: HostRuntime) {
    for &(word, key) in WORDS {
        same!(rt; key_of(word), key);
    }
}

#[test]
fn keys_are_of_kinds(rt: HostRuntime) {
    for (key, is_word) in [(Key::Number, true), (Key::Pass, true), (Key::Quoted, false)] {
        same!(rt; key.is_word(), is_word);
    }
    for (key, is_unsupported) in [(Key::Rdomain, true), (Key::Inet6, false)] {
        same!(rt; key.is_unsupported(), is_unsupported);
    }
    for (word, place) in [(b"src.track".as_slice(), Some(12)), (b"tcp.tsdiff", None)] {
        same!(rt; key_of(word).timeout_place(), place);
    }
}

#[test]
fn numbers_of_words(rt: HostRuntime) {
    same!(rt; digits(b"0000000006"), Some(6));
    same!(rt; digits(b"9999999999"), Some(9999999999));
    same!(rt; digits(b"00000000006"), None);
    same!(rt; digits(b""), None);
    same!(rt; digits(b"6a"), None);
    let mut cursor = Cursor::new(b"0 7");
    same!(rt; number(&mut cursor, 1, 9), Err(Refusal::Stop(Why::Number)));
    same!(rt; number(&mut cursor, 0, 9), Ok(0));
    same!(rt; number(&mut cursor, 0, 6), Err(Refusal::Stop(Why::Number)));
    same!(rt; number(&mut cursor, 0, 7), Ok(7));
    same!(rt; number(&mut cursor, 0, 7), Err(Refusal::Stop(Why::Number)));
}

#[test]
fn parts_of_words(rt: HostRuntime) -> Result<(), Fail> {
    let (front, behind) = split_at_byte(b"80:http:", b':').ok_or("a colon")?;
    same!(rt; front, b"80".as_slice());
    same!(rt; behind, b"http:".as_slice());
    holds!(rt; split_at_byte(b"80", b':').is_none());
    Ok(())
}

#[test]
fn line_ends_are_skipped(rt: HostRuntime) {
    let mut cursor = Cursor::new(b"\n # a\n\n 1\n");
    skip_lines(&mut cursor);
    same!(rt; cursor.key(), Key::Number);
    skip_lines(&mut cursor);
    same!(rt; cursor.key(), Key::Number);
    holds!(rt; cursor.take(Key::Number));
    skip_lines(&mut cursor);
    holds!(rt; cursor.is_at_end());
}

#[test]
fn errors_are_told_apart(rt: HostRuntime) {
    let memory = ReadError::from(AllocError);
    let refused = ReadError::from(Refusal::Stop(Why::Host));
    holds!(rt; matches!(memory, ReadError::Memory));
    holds!(rt; matches!(refused, ReadError::Refused(Refusal::Stop(Why::Host))));
}
