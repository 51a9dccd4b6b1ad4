//! What a refused token is, by the forms that are open where the parser stops.
ghost use Rattle.std.specs.Prelude.{◌≡◌, ℕ, suc, reverse, slice_get};
ghost use Rattle.grammar_tables.specs.Answers.{symbols_of};
ghost use Rattle.grammar_tables.specs.Ebnf.{nonterminal};
ghost use Rattle.grammar_tables.specs.First.{is_in, kinds_of};
ghost use Rattle.source_grammar.specs.Classes.{classes};
ghost use Rattle.source_grammar.specs.LeftOut.{stop_at, kind_before, stated, is_symbol, has_ended, is_among, is_open, is_expected, in_term, in_impl, in_body, is_left_out_before, is_left_out_there, is_left_out_beside, is_left_out, offence_at};

use crate::classes::{BOUND_OPENING, LEFT_OUT_TOKEN, NAME, OTHER_ROOT};
use crate::kinds::{
    COLON, HASH, KW_AS, KW_ELSE, KW_IF, KW_SELF_TYPE, KW_TYPE, KW_USE, LIFETIME, NOT, OPEN_BRACKET,
    PATH_SEP, SEMICOLON, WORD_PEARLITE,
};
use crate::lines::{
    AFTER_NAME, AFTER_PATTERN, AFTER_TERM, IMPL_BODY, IMPL_ITEMS, LET_END, LET_VALUE, STATEMENTS,
    STATEMENTS_REST, WHERE_BOUNDS, WHOLE_TERM,
};
use crate::tables;
use grammar_tables::{Expected, Symbol};

/// What a refused token is.
#[derive(Clone, Copy)]
pub enum Offence {
    /// It begins nothing that Rust has there.
    Stray,
    /// It begins a construct of Rust that the language leaves out.
    LeftOut,
    /// The token before it does.
    LeftOutBefore,
}

/// Where the parser stops: the kinds of the refused token and of those around it, and what is open there.
#[derive(Clone, Copy)]
pub struct Stop<'a> {
    two_before: Option<u8>,
    before: Option<u8>,
    refused: Option<u8>,
    next: Option<u8>,
    /// The nonterminals that ended behind the token before, the latest last.
    ended: &'a [u16],
    /// The symbols that are expected, the next one last.
    expected: &'a [Expected],
}

/// The kind of the token at that position, if one stands there.
fn kind_at(kinds: &[u8], position: usize) -> Option<u8>
    ensures { result ≡ slice_get kinds.now position }
{
    if position < kinds.len() {
        Some(kinds[position])
    } else {
        None
    }
}

/// The kind of the token so many places before the position, if one stands there.
fn kind_before(distance: usize, kinds: &[u8], position: usize) -> Option<u8>
    ensures { result ≡ kind_before distance kinds.now position }
{
    if position < distance {
        None
    } else {
        kind_at(kinds, position - distance)
    }
}

/// The kind of the token behind the position, if one stands there.
fn kind_behind(kinds: &[u8], position: usize) -> Option<u8>
    ensures { result ≡ slice_get kinds.now (suc position) }
{
    if position < kinds.len() {
        kind_at(kinds, position + 1)
    } else {
        None
    }
}

/// Whether the token is one that the terminal stands for.
fn stands_for(terminal: u8, token: Option<u8>) -> bool
    ensures { result ≡ is_in token (kinds_of classes terminal) }
{
    match token {
        None => false,
        Some(kind) => tables().matches(terminal, kind),
    }
}

/// Whether the symbol is the nonterminal of that number.
fn is_line(line: u16, symbol: Symbol) -> bool
    ensures { result ≡ is_symbol line symbol }
{
    match symbol {
        Symbol::Terminal(_) => false,
        Symbol::Nonterminal(other) => other == line,
    }
}

/// Whether the nonterminal is among those that ended.
fn is_among_ended(line: u16, ended: &[u16]) -> bool
    ensures { result ≡ is_in (Some line) (reverse ended.now) }
{
    let mut found = false;
    for other in ended {
        found = line == *other || found;
    }
    found
}

/// Whether the nonterminal is among the symbols that are expected.
fn is_among_expected(line: u16, expected: &[Expected]) -> bool
    ensures { result ≡ is_among line (reverse (symbols_of expected.now)) }
{
    let mut found = false;
    for part in expected {
        found = is_line(line, part.symbol) || found;
    }
    found
}

impl Stop<'_> {
    /// Whether the nonterminal has ended behind the token before.
    fn has_ended(&self, line: u16) -> bool
        ensures { result ≡ has_ended (stated self.now) (nonterminal line) }
    {
        is_among_ended(line, self.ended)
    }

    /// Whether it is expected, or has ended.
    fn is_open(&self, line: u16) -> bool
        ensures { result ≡ is_open (stated self.now) (nonterminal line) }
    {
        self.has_ended(line) || is_among_expected(line, self.expected)
    }

    /// Whether it is expected next.
    fn is_expected(&self, line: u16) -> bool
        ensures { result ≡ is_expected (stated self.now) (nonterminal line) }
    {
        let count = self.expected.len();
        if count == 0 {
            false
        } else {
            is_line(line, self.expected[count - 1].symbol)
        }
    }

    fn in_term(&self) -> bool
        ensures { result ≡ in_term (stated self.now) }
    {
        self.is_open(WHOLE_TERM) || self.is_open(AFTER_TERM)
    }

    fn in_impl(&self) -> bool
        ensures { result ≡ in_impl (stated self.now) }
    {
        self.is_open(IMPL_BODY) || self.is_open(IMPL_ITEMS)
    }

    fn in_body(&self) -> bool
        ensures { result ≡ in_body (stated self.now) }
    {
        self.is_open(STATEMENTS) || self.is_open(STATEMENTS_REST) || self.is_open(LET_END)
    }

    /// Whether the token before the refused one begins a construct of Rust that the language leaves out.
    fn is_left_out_before(&self) -> bool
        ensures { result ≡ is_left_out_before (stated self.now) }
    {
        (stands_for(NOT, self.refused)
            && self.has_ended(AFTER_NAME)
            && !stands_for(WORD_PEARLITE, self.before))
            || (stands_for(KW_USE, self.before) && stands_for(OTHER_ROOT, self.refused))
            || (stands_for(PATH_SEP, self.before)
                && stands_for(KW_SELF_TYPE, self.two_before)
                && stands_for(NAME, self.refused))
    }

    /// Whether the refused token begins one, by the form that has just ended, or is next.
    fn is_left_out_there(&self) -> bool
        ensures { result ≡ is_left_out_there (stated self.now) }
    {
        (stands_for(KW_IF, self.refused) && self.has_ended(AFTER_PATTERN))
            || (stands_for(BOUND_OPENING, self.refused) && self.has_ended(WHERE_BOUNDS))
            || (stands_for(SEMICOLON, self.refused) && self.is_expected(LET_VALUE))
            || (stands_for(KW_ELSE, self.refused) && self.is_expected(LET_END))
    }

    /// Whether it does, by the tokens around.
    fn is_left_out_beside(&self) -> bool
        ensures { result ≡ is_left_out_beside (stated self.now) }
    {
        (stands_for(LIFETIME, self.refused)
            && stands_for(COLON, self.next)
            && self.in_body()
            && !self.in_term())
            || (stands_for(NAME, self.refused)
                && stands_for(OPEN_BRACKET, self.before)
                && stands_for(HASH, self.two_before))
            || (stands_for(KW_USE, self.refused) && stands_for(OTHER_ROOT, self.next))
    }

    /// Whether the refused token begins one.
    fn is_left_out(&self) -> bool
        ensures { result ≡ is_left_out (stated self.now) }
    {
        stands_for(LEFT_OUT_TOKEN, self.refused)
            || (stands_for(KW_TYPE, self.refused) && !self.in_term() && !self.in_impl())
            || (stands_for(KW_AS, self.refused) && self.in_term())
            || self.is_left_out_beside()
            || self.is_left_out_there()
    }
}

/// What the token at the position is, where the parser refuses it, with these nonterminals ended and these symbols
/// expected.
pub fn offence_at(kinds: &[u8], position: usize, ended: &[u16], expected: &[Expected]) -> Offence
    ensures { result ≡ offence_at (stop_at kinds.now position (reverse ended.now) (reverse (symbols_of expected.now))) }
{
    let stop = Stop {
        two_before: kind_before(2, kinds, position),
        before: kind_before(1, kinds, position),
        refused: kind_before(0, kinds, position),
        next: kind_behind(kinds, position),
        ended,
        expected,
    };
    if stop.is_left_out_before() {
        Offence::LeftOutBefore
    } else if stop.is_left_out() {
        Offence::LeftOut
    } else {
        Offence::Stray
    }
}
