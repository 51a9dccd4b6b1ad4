//! The lines of the grammar that code names, by the numbers of their nonterminals. Made by `python3 tools/grammar.py` of tools/source.ebnf.

pub const SOURCE: u16 = 0;

pub const WHERE_BOUNDS: u16 = 32;

pub const IMPL_BODY: u16 = 62;

pub const IMPL_ITEMS: u16 = 63;

pub const STATEMENTS: u16 = 102;

pub const STATEMENTS_REST: u16 = 104;

pub const LET_VALUE: u16 = 108;

pub const LET_END: u16 = 109;

pub const WHOLE_TERM: u16 = 184;

pub const AFTER_TERM: u16 = 241;

pub const AFTER_PATTERN: u16 = 242;

pub const AFTER_NAME: u16 = 243;
