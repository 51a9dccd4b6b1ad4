//! Fronts of texts that are terms.
use source_grammar::{SyntaxFault, parse_term};
use source_words::{kinds_of_words, words_of};
use std::alloc::Global;
use std::process::Abort;
use text_core::{Code, Names};

/// So many words of the front of the text are a term at that level, or the word of that number is refused with this code.
fn is_front(alloc: Global, text: &[u8], levels: u8, words: usize, refusal: Option<Code>) -> bool {
    if text.len() > 1 << 20 || levels > 64 {
        return false;
    }
    let mut names = Names::new(alloc);
    let Ok(all) = words_of(alloc, text, &mut names) else {
        return false;
    };
    let Ok(kinds) = kinds_of_words(alloc, all.as_slice()) else {
        return false;
    };
    match parse_term(alloc, kinds.as_slice(), levels) {
        Ok(front) => refusal.is_none() && front.length == words,
        Err(SyntaxFault::Stray(position)) => refusal == Some(Code::E03) && position == words,
        Err(SyntaxFault::LeftOut(position)) => refusal == Some(Code::E20) && position == words,
        Err(SyntaxFault::TooDeep(position)) => refusal == Some(Code::E04) && position == words,
        Err(SyntaxFault::NoMemory) => false,
    }
}

/// A text, the levels around it, the words of its front or before the refused one, and the code.
type Row = (&'static [u8], u8, usize, Option<Code>);

const FRONTS: [Row; 17] = [
    (b"a + b ) c", 0, 3, None),
    (b"a < b < c", 0, 3, None),
    (b"a as u8", 0, 1, None),
    (b"a", 64, 1, None),
    (b"( a ) . b + ( c , d ) ;", 63, 11, None),
    (b"a type", 0, 1, None),
    (b"a + )", 0, 2, Some(Code::E03)),
    (b"a +", 0, 2, Some(Code::E03)),
    (b"", 0, 0, Some(Code::E03)),
    (b"a + type", 0, 2, Some(Code::E03)),
    (b"( a as u8", 0, 2, Some(Code::E20)),
    (b"( a if", 0, 2, Some(Code::E03)),
    (b"match x { y if", 0, 4, Some(Code::E20)),
    (b"( ( a ) )", 63, 1, Some(Code::E04)),
    (b"( a )", 64, 0, Some(Code::E04)),
    (
        b"(((((((((((((((((((((((((((((((((((((((((((((((((((((((((((((((((",
        0,
        64,
        Some(Code::E04),
    ),
    (
        b"((((((((((((((((((((((((((((((((((((((((((((((((((((((((((((((((",
        0,
        64,
        Some(Code::E03),
    ),
];

#[test]
fn a_front_ends_where_no_word_goes_on(rt: HostRuntime) {
    for (text, levels, words, refusal) in FRONTS {
        assert!(rt; is_front(rt.alloc(), text, levels, words, refusal));
    }
}
