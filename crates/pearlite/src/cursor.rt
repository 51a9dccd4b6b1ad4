//! A place in a source.
ghost use Rattle.std.specs.Prelude.{◌≡◌, ◌+◌, ◌≤◌, ◌<◌, ◌^◌, length};

use rs_tokens::Token;
use std::marker::Model;

/// A place among the tokens of a source, with so many levels open around it. It takes no memory.
#[derive(Drop)]
pub struct Cursor<'a> {
    bytes: &'a [u8],
    tokens: &'a [Token],
    place: u32,
    levels: u32,
}

impl<'a> Model for Cursor<'a> {
    ghost use Rattle.pearlite.specs.Cursor.{Standing, IsWithin};

    ghost Value = { Standing };

    ghost view = { λ cursor. record { bytes = cursor.bytes.now; tokens = cursor.tokens.now; place = cursor.place; levels = cursor.levels } };

    ghost invariant = { λ cursor. IsWithin cursor.bytes.now cursor.tokens.now cursor.place cursor.levels };
}

impl<'a> Cursor<'a> {
    /// The start of a source, with no level open around it.
    pub fn new(bytes: &'a [u8], tokens: &'a [Token]) -> Cursor<'a>
        requires { length bytes.now ≤ 2 ^ 20 }
        ensures { result ≡ record { bytes = bytes.now; tokens = tokens.now; place = 0; levels = 0 } }
    {
        Cursor::at(bytes, tokens, 0, 0)
    }

    /// The place behind so many tokens, with so many levels open around it.
    pub fn at(bytes: &'a [u8], tokens: &'a [Token], place: u32, levels: u32) -> Cursor<'a>
        requires few { length bytes.now ≤ 2 ^ 20 }
        requires place { place ≤ length tokens.now }
        requires deep { levels ≤ 64 }
        ensures { result ≡ record { bytes = bytes.now; tokens = tokens.now; place = place; levels = levels } }
    {
        Cursor {
            bytes,
            tokens,
            place,
            levels,
        }
    }

    /// How many tokens stand before the place.
    pub fn place(&self) -> u32
        ensures value { result ≡ self.now.place }
        ensures within { result ≤ length self.now.tokens }
    {
        self.place
    }

    /// The source.
    pub(crate) fn bytes(&self) -> &'a [u8]
        ensures value { result.now ≡ self.now.bytes }
        ensures few { length result.now ≤ 2 ^ 20 }
    {
        self.bytes
    }

    /// The tokens of the source.
    pub(crate) fn tokens(&self) -> &'a [Token]
        ensures { result.now ≡ self.now.tokens }
    {
        self.tokens
    }

    /// How many levels are open around the place.
    pub(crate) fn levels(&self) -> u32
        ensures value { result ≡ self.now.levels }
        ensures deep { result ≤ 64 }
    {
        self.levels
    }

    /// Goes on behind so many tokens.
    pub(crate) fn go_on(&mut self, count: usize)
        requires within { self.old.place + count ≤ length self.old.tokens }
        requires few { length self.old.tokens < 2 ^ 32 }
        ensures { self.new ≡ record self.old { place = self.old.place + count } }
    {
        self.place += count as u32;
    }
}
