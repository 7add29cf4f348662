//! A token of a rules text.

ghost use Rattle.std.specs.Prelude.{◌≡◌};

use crate::keys::Key;
use std::marker::Model;

/// A token, whose text is a part of the rules text.
#[derive(Debug, Drop)]
pub struct Token<'a> {
    line: u64,
    key: Key,
    text: &'a [u8],
}

impl<'a> Model for Token<'a> {
    ghost use Rattle.pfs_conf_tokens.specs.Tokens.{Tok};

    ghost Value = { Tok };

    ghost view = { λ t. record { line = t.line; key = t.key; text = t.text.now } };
}

impl<'a> Token<'a> {
    /// A token of this key on this line, with this text.
    pub fn new(line: u64, key: Key, text: &'a [u8]) -> Self
        ensures { result ≡ record { line = line; key = key; text = text.now } }
    {
        Token { line, key, text }
    }

    /// What the token is.
    pub fn key(&self) -> Key
        ensures { result ≡ self.now.key }
    {
        self.key
    }

    /// The line that it is on: 1 plus the line feeds before it.
    pub fn line(&self) -> u64
        ensures { result ≡ self.now.line }
    {
        self.line
    }

    /// Its bytes: of a quoted string those between the quotes, of an end none.
    pub fn text(&self) -> &'a [u8]
        ensures { result.now ≡ self.now.text }
    {
        self.text
    }
}
