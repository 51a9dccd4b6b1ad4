//! `_` and the strict keywords, with their kinds, by their first bytes.
ghost use Rattle.std.specs.Prelude.{◌≡◌, map};
ghost use Rattle.rs_tokens.specs.Tables.{kind_in, row_of};

use crate::token::TokenKind;

pub const FROM_UNDERSCORE: [(&str, TokenKind); 1] = [("_", TokenKind::Underscore)];

pub const FROM_A: [(&str, TokenKind); 3] = [
    ("as", TokenKind::KwAs),
    ("async", TokenKind::KwAsync),
    ("await", TokenKind::KwAwait),
];

pub const FROM_B: [(&str, TokenKind); 1] = [("break", TokenKind::KwBreak)];

pub const FROM_C: [(&str, TokenKind); 3] = [
    ("const", TokenKind::KwConst),
    ("continue", TokenKind::KwContinue),
    ("crate", TokenKind::KwCrate),
];

pub const FROM_E: [(&str, TokenKind); 3] = [
    ("else", TokenKind::KwElse),
    ("enum", TokenKind::KwEnum),
    ("extern", TokenKind::KwExtern),
];

pub const FROM_F: [(&str, TokenKind); 3] = [
    ("false", TokenKind::KwFalse),
    ("fn", TokenKind::KwFn),
    ("for", TokenKind::KwFor),
];

pub const FROM_I: [(&str, TokenKind); 3] = [
    ("if", TokenKind::KwIf),
    ("impl", TokenKind::KwImpl),
    ("in", TokenKind::KwIn),
];

pub const FROM_L: [(&str, TokenKind); 2] = [("let", TokenKind::KwLet), ("loop", TokenKind::KwLoop)];

pub const FROM_M: [(&str, TokenKind); 4] = [
    ("match", TokenKind::KwMatch),
    ("mod", TokenKind::KwMod),
    ("move", TokenKind::KwMove),
    ("mut", TokenKind::KwMut),
];

pub const FROM_P: [(&str, TokenKind); 1] = [("pub", TokenKind::KwPub)];

pub const FROM_R: [(&str, TokenKind); 2] = [
    ("ref", TokenKind::KwRef),
    ("return", TokenKind::KwReturn),
];

pub const FROM_S: [(&str, TokenKind); 4] = [
    ("self", TokenKind::KwSelf),
    ("static", TokenKind::KwStatic),
    ("struct", TokenKind::KwStruct),
    ("super", TokenKind::KwSuper),
];

pub const FROM_UPPER_S: [(&str, TokenKind); 1] = [("Self", TokenKind::KwSelfType)];

pub const FROM_T: [(&str, TokenKind); 3] = [
    ("trait", TokenKind::KwTrait),
    ("true", TokenKind::KwTrue),
    ("type", TokenKind::KwType),
];

pub const FROM_U: [(&str, TokenKind); 2] = [
    ("unsafe", TokenKind::KwUnsafe),
    ("use", TokenKind::KwUse),
];

pub const FROM_W: [(&str, TokenKind); 2] = [
    ("where", TokenKind::KwWhere),
    ("while", TokenKind::KwWhile),
];

pub const FROM_D: [(&str, TokenKind); 1] = [("dyn", TokenKind::KwDyn)];

/// The kind in the first row with this text.
pub fn kind_in(table: &[(&str, TokenKind)], text: &[u8]) -> Option<TokenKind>
    ensures { result ≡ kind_in (map row_of table.now) text.now }
{
    for (word, kind) in table {
        if word.as_bytes() == text {
            return Some(*kind);
        }
    }
    None
}
