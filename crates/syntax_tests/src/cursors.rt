use pearlite::{Cursor, parse_term};
use source_trees::PtermNode;
use source_words::tokens_of;
use std::alloc::Global;
use std::process::Abort;
use text_core::{Code, Names, PassError};

/// Where the cursor stands behind a term, or behind a refusal with its code and the start of its span.
#[derive(Clone, Copy, PartialEq, Eq)]
enum Answer {
    Term(u32),
    Refused(u32, Code, u32),
    Other,
}

/// What is read from that place of the text on, with so many levels open around it.
fn read_at(alloc: Global, text: &[u8], place: u32, levels: u32) -> Answer {
    if text.len() > 1 << 20 || levels > 64 {
        return Answer::Other;
    }
    let tokens = match tokens_of(alloc, text) {
        Ok(tokens) => tokens,
        Err(_) => return Answer::Other,
    };
    if place as usize > tokens.len() {
        return Answer::Other;
    }
    let mut names = Names::new(alloc);
    let mut cursor = Cursor::at(text, tokens.as_slice(), place, levels);
    match parse_term(alloc, &mut cursor, &mut names) {
        Ok(_) => Answer::Term(cursor.place()),
        Err(PassError::Source(error)) => {
            Answer::Refused(cursor.place(), error.code, error.span.start)
        }
        Err(_) => Answer::Other,
    }
}

const CURSORS: [(&[u8], u32, u32, Answer); 16] = [
    (b"a + b ) c", 0, 0, Answer::Term(3)),
    (b"requires ( x . f > 1 ) ]", 2, 1, Answer::Term(7)),
    (b"a < b < c", 0, 0, Answer::Term(3)),
    (b"a < b < c", 2, 0, Answer::Term(5)),
    (b"a < b < c", 4, 0, Answer::Term(5)),
    (b"a as u8", 0, 0, Answer::Term(1)),
    (b"( a )", 1, 64, Answer::Term(2)),
    (b"( a )", 0, 63, Answer::Term(3)),
    (b"( a )", 0, 64, Answer::Refused(0, Code::E04, 0)),
    (b"; ( a )", 1, 64, Answer::Refused(1, Code::E04, 2)),
    (b"; a + )", 1, 0, Answer::Refused(3, Code::E03, 6)),
    (b"; a +", 1, 0, Answer::Refused(3, Code::E03, 5)),
    (b"a", 1, 0, Answer::Refused(1, Code::E03, 1)),
    (b"; ( a as u8 )", 1, 0, Answer::Refused(3, Code::E20, 6)),
    (b"; match x { y if", 1, 0, Answer::Refused(5, Code::E20, 14)),
    (b"; a + type", 1, 0, Answer::Refused(3, Code::E03, 6)),
];

#[test]
fn a_cursor_stands_behind_a_term_or_at_the_refused_word(rt: HostRuntime) {
    let alloc = rt.alloc();
    for (text, place, levels, expected) in &CURSORS {
        assert!(rt; read_at(alloc, *text, *place, *levels) == *expected);
    }
}

/// The front of the text is a term, and from the word behind it on there is a path.
fn has_two_terms(alloc: Global, text: &[u8]) -> bool {
    if text.len() > 1 << 20 {
        return false;
    }
    let tokens = match tokens_of(alloc, text) {
        Ok(tokens) => tokens,
        Err(_) => return false,
    };
    let mut names = Names::new(alloc);
    let mut cursor = Cursor::new(text, tokens.as_slice());
    match parse_term(alloc, &mut cursor, &mut names) {
        Ok(first) => {
            let behind = cursor.place();
            match parse_term(alloc, &mut cursor, &mut names) {
                Ok(second) => match (&*first.node, &*second.node) {
                    (PtermNode::Int(5, None), PtermNode::Path(_)) => {
                        behind == 1 && cursor.place() == 2
                    }
                    _ => false,
                },
                Err(_) => false,
            }
        }
        Err(_) => false,
    }
}

#[test]
fn a_cursor_reads_one_term_behind_another(rt: HostRuntime) {
    assert!(rt; has_two_terms(rt.alloc(), b"5 a ;"));
}
