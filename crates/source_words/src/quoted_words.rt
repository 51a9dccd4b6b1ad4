//! The quoted words that are no keywords, by their first bytes, with their kinds. Made by `python3 tools/grammar.py` of tools/source.ebnf.

use source_grammar::kinds;

#[rattlefmt::skip]
pub const FROM_UPPER_F: [(&str, u8); 3] = [
    ("Fn", kinds::WORD_FN),
    ("FnMut", kinds::WORD_FN_MUT),
    ("FnOnce", kinds::WORD_FN_ONCE),
];

#[rattlefmt::skip]
pub const FROM_UPPER_M: [(&str, u8); 1] = [
    ("MutRef", kinds::WORD_MUT_REF),
];

#[rattlefmt::skip]
pub const FROM_UPPER_V: [(&str, u8); 1] = [
    ("ViewTy", kinds::WORD_VIEW_TY),
];

#[rattlefmt::skip]
pub const FROM_A: [(&str, u8); 1] = [
    ("allow", kinds::WORD_ALLOW),
];

#[rattlefmt::skip]
pub const FROM_B: [(&str, u8); 1] = [
    ("box", kinds::WORD_BOX),
];

#[rattlefmt::skip]
pub const FROM_C: [(&str, u8); 2] = [
    ("creusot_contracts", kinds::WORD_CREUSOT_CONTRACTS),
    ("char", kinds::WORD_CHAR),
];

#[rattlefmt::skip]
pub const FROM_D: [(&str, u8); 2] = [
    ("derive", kinds::WORD_DERIVE),
    ("doc", kinds::WORD_DOC),
];

#[rattlefmt::skip]
pub const FROM_E: [(&str, u8); 2] = [
    ("ensures", kinds::WORD_ENSURES),
    ("exists", kinds::WORD_EXISTS),
];

#[rattlefmt::skip]
pub const FROM_F: [(&str, u8); 3] = [
    ("forall", kinds::WORD_FORALL),
    ("f32", kinds::WORD_F32),
    ("f64", kinds::WORD_F64),
];

#[rattlefmt::skip]
pub const FROM_I: [(&str, u8); 3] = [
    ("invariant", kinds::WORD_INVARIANT),
    ("inline", kinds::WORD_INLINE),
    ("i128", kinds::WORD_I128),
];

#[rattlefmt::skip]
pub const FROM_L: [(&str, u8); 2] = [
    ("logic", kinds::WORD_LOGIC),
    ("law", kinds::WORD_LAW),
];

#[rattlefmt::skip]
pub const FROM_M: [(&str, u8); 1] = [
    ("must_use", kinds::WORD_MUST_USE),
];

#[rattlefmt::skip]
pub const FROM_P: [(&str, u8); 7] = [
    ("pearlite", kinds::WORD_PEARLITE),
    ("panic", kinds::WORD_PANIC),
    ("proof_assert", kinds::WORD_PROOF_ASSERT),
    ("precondition", kinds::WORD_PRECONDITION),
    ("postcondition", kinds::WORD_POSTCONDITION),
    ("postcondition_mut", kinds::WORD_POSTCONDITION_MUT),
    ("postcondition_once", kinds::WORD_POSTCONDITION_ONCE),
];

#[rattlefmt::skip]
pub const FROM_R: [(&str, u8); 2] = [
    ("requires", kinds::WORD_REQUIRES),
    ("result", kinds::WORD_RESULT),
];

#[rattlefmt::skip]
pub const FROM_S: [(&str, u8); 3] = [
    ("std", kinds::WORD_STD),
    ("snapshot", kinds::WORD_SNAPSHOT),
    ("str", kinds::WORD_STR),
];

#[rattlefmt::skip]
pub const FROM_U: [(&str, u8); 3] = [
    ("unreachable", kinds::WORD_UNREACHABLE),
    ("u128", kinds::WORD_U128),
    ("union", kinds::WORD_UNION),
];

#[rattlefmt::skip]
pub const FROM_V: [(&str, u8); 1] = [
    ("variant", kinds::WORD_VARIANT),
];

#[rattlefmt::skip]
pub const FROM_Y: [(&str, u8); 1] = [
    ("yield", kinds::WORD_YIELD),
];
