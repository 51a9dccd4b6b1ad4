//! The classes of kinds that code names, by the numbers of their terminals. Made by `python3 tools/grammar.py` of tools/source.ebnf.

pub const NAME: u8 = 128;

pub const LEFT_OUT_TOKEN: u8 = 150;

pub const OTHER_ROOT: u8 = 151;

pub const BOUND_OPENING: u8 = 152;
