//! A place in a rules text: the tokens from there on.

ghost use Rattle.std.specs.Prelude.{◌≡◌, ◌<◌, ◌^◌, length, MatchBool, OnOk, IfErr};
ghost use Rattle.pfs_conf_tokens.specs.Tokens.{head};
ghost use Rattle.pfs_conf_tokens.specs.Reading.{rest, ends_text, closes_braces, closes_parens};
ghost use Rattle.pfs_conf_tokens.specs.Keys.{ends_line};
ghost use Rattle.pfs_conf_tokens.specs.Lexis.{tokens_of};

use crate::keys::Key;
use crate::lexer::{Scan, first_token};
use crate::refusals::{Refusal, Why};
use std::marker::Model;

/// A place in a rules text. It reads the bytes as it goes, and takes no memory.
///
/// Clauses see the list of the tokens from there on, of which the last is the end of the text. After that one no token
/// is left, and the token in front is an end again.
#[derive(Drop)]
pub struct Cursor<'a> {
    scan: Scan<'a>,
    is_over: bool,
}

impl<'a> Model for Cursor<'a> {
    ghost use Rattle.std.specs.Prelude.{List, [], ◌+◌, ◌<◌, ◌^◌, length, if◌then◌else◌};
    ghost use Rattle.pfs_conf_tokens.specs.Tokens.{Tok};

    ghost Value = { List Tok };

    ghost use Rattle.pfs_conf_tokens.specs.Scanning.{tokens_of_scan};

    ghost view = { λ c. if c.is_over then [] else tokens_of_scan c.scan };

    ghost invariant = { λ c. c.scan.line + length c.scan.rest.now < 2 ^ 64 };
}

impl<'a> Cursor<'a> {
    /// At the first token of a text, which is shorter than 2^63 bytes.
    pub fn new(text: &'a [u8]) -> Self
        requires { length text.now < 2 ^ 63 }
        ensures { result ≡ tokens_of text.now }
    {
        Cursor {
            scan: first_token(text, 1, false),
            is_over: false,
        }
    }

    /// What the token in front is.
    pub fn key(&self) -> Key
        ensures { result ≡ (head self.now).key }
    {
        if self.is_over {
            Key::End
        } else {
            self.scan.token.key()
        }
    }

    /// The line of the token in front: 1 plus the line feeds before it. After the end it is 0.
    pub fn line(&self) -> u64
        ensures { result ≡ (head self.now).line }
    {
        if self.is_over {
            0
        } else {
            self.scan.token.line()
        }
    }

    /// The bytes of the token in front: of a quoted string those between the quotes, of an end none.
    pub fn text(&self) -> &'a [u8]
        ensures { result.now ≡ (head self.now).text }
    {
        if self.is_over {
            &[]
        } else {
            self.scan.token.text()
        }
    }

    /// Goes over the token in front.
    pub fn advance(&mut self)
        ensures { self.new ≡ rest self.old }
    {
        if self.scan.is_last {
            self.is_over = true;
        } else if !self.is_over {
            self.scan = first_token(self.scan.rest, self.scan.line, self.scan.busy);
        }
    }

    /// Goes over the token in front if it has this key, and says whether it did.
    pub fn take(&mut self, key: Key) -> bool
        ensures { MatchBool result (((head self.old).key ≡ key) × (self.new ≡ rest self.old))
            (((head self.old).key ≡ key → ⊥) × (self.new ≡ self.old)) }
    {
        if self.key() == key {
            self.advance();
            true
        } else {
            false
        }
    }

    /// Goes over the token in front, which must have this key; else the cursor stays, and reading stops there.
    pub fn expect(&mut self, key: Key) -> Result<(), Refusal>
        ensures ok { OnOk result (((head self.old).key ≡ key) × (self.new ≡ rest self.old)) }
        ensures err { IfErr result (λ e. ((head self.old).key ≡ key → ⊥) × (self.new ≡ self.old) × (e ≡ Refusal.Stop Why.Plain)) }
    {
        if self.take(key) {
            Ok(())
        } else {
            Err(Refusal::Stop(Why::Plain))
        }
    }

    /// Whether the line ends here.
    pub fn is_at_line_end(&self) -> bool
        ensures { result ≡ ends_line (head self.now).key }
    {
        self.key() == Key::LineEnd
    }

    /// Whether the text ends here.
    pub fn is_at_end(&self) -> bool
        ensures { result ≡ ends_text (head self.now).key }
    {
        self.key() == Key::End
    }

    /// Whether a closing brace is in front.
    pub fn is_at_close_brace(&self) -> bool
        ensures { result ≡ closes_braces (head self.now).key }
    {
        self.key() == Key::CloseBrace
    }

    /// Whether a closing parenthesis is in front.
    pub fn is_at_close_paren(&self) -> bool
        ensures { result ≡ closes_parens (head self.now).key }
    {
        self.key() == Key::CloseParen
    }
}
