use pearlite::{Cursor, parse_term};
use source_grammar::kinds::{IDENTIFIER, INTEGER, LIFETIME, STATIC_LIFETIME, WORD_FORALL};
use source_kinds::{ArithOp, IntKind};
use source_trees::{BinaryTerm, Pterm, PtermNode, TypeArgument, TypeNode, UnaryTerm};
use source_words::{Word, tokens_of, words_of};
use std::alloc::Global;
use std::process::Abort;
use std::test::Fail;
use text_core::{Items, Names};

/// A letter for the form at the top of a term.
fn letter(term: &Pterm) -> u8 {
    match &*term.node {
        PtermNode::Int(_, _) => b'i',
        PtermNode::Truth(_) => b't',
        PtermNode::Answer(_) => b'r',
        PtermNode::Receiver => b's',
        PtermNode::Path(_) => b'p',
        PtermNode::Unary(op, _) => match op {
            UnaryTerm::Neg => b'n',
            UnaryTerm::Not => b'!',
            UnaryTerm::Current => b'c',
            UnaryTerm::Final => b'^',
            UnaryTerm::View => b'@',
        },
        PtermNode::Binary(op, _, _) => match op {
            BinaryTerm::Implies => b'>',
            BinaryTerm::Or => b'|',
            BinaryTerm::And => b'&',
            BinaryTerm::Compare(_) => b'=',
            BinaryTerm::Calculate(ArithOp::Add) => b'+',
            BinaryTerm::Calculate(ArithOp::Sub) => b'-',
            BinaryTerm::Calculate(_) => b'*',
        },
        PtermNode::MutRef(_, _) => b'm',
        PtermNode::Field(_, _) => b'.',
        PtermNode::Part(_, _) => b'0',
        PtermNode::Method(_, _, _) => b'(',
        PtermNode::Call(_, _) => b'f',
        PtermNode::Literal(_, _) => b'{',
        PtermNode::Tuple(_) => b',',
        PtermNode::If(_, _, _) => b'?',
        PtermNode::Match(_, _) => b'M',
        PtermNode::Quantified(_, _, _) => b'Q',
        PtermNode::Predicate(_, _) => b'P',
    }
}

/// The letters of a term and of its first two operands; a space where it has none.
fn letters(term: &Pterm) -> (u8, u8, u8) {
    match &*term.node {
        PtermNode::Unary(_, one)
        | PtermNode::Field(one, _)
        | PtermNode::Part(one, _)
        | PtermNode::Method(one, _, _)
        | PtermNode::Match(one, _)
        | PtermNode::Quantified(_, _, one) => (letter(term), letter(one), b' '),
        PtermNode::Binary(_, one, other)
        | PtermNode::MutRef(one, other)
        | PtermNode::If(one, other, _) => (letter(term), letter(one), letter(other)),
        _ => (letter(term), b' ', b' '),
    }
}

/// The words of the text, and their names.
fn worded(alloc: Global, text: &[u8]) -> Option<(Items<Word>, Names)> {
    if text.len() > 1 << 20 {
        return None;
    }
    let mut names = Names::new(alloc);
    match words_of(alloc, text, &mut names) {
        Ok(words) => Some((words, names)),
        Err(_) => None,
    }
}

/// The term with which the text begins, and the number of its words.
fn read(alloc: Global, text: &[u8]) -> Option<(Pterm, u32)> {
    if text.len() > 1 << 20 {
        return None;
    }
    let tokens = match tokens_of(alloc, text) {
        Ok(tokens) => tokens,
        Err(_) => return None,
    };
    let mut names = Names::new(alloc);
    let mut cursor = Cursor::new(text, tokens.as_slice());
    match parse_term(alloc, &mut cursor, &mut names) {
        Ok(term) => Some((term, cursor.place())),
        Err(_) => None,
    }
}

/// The text begins with a term of these letters, which has so many words.
fn is_term(alloc: Global, text: &[u8], forms: (u8, u8, u8), count: u32) -> bool {
    match read(alloc, text) {
        Some((term, taken)) => {
            let found = letters(&term);
            found.0 == forms.0 && found.1 == forms.1 && found.2 == forms.2 && taken == count
        }
        None => false,
    }
}

/// The word of this number in the text.
fn word_of_number(alloc: Global, text: &[u8], number: usize) -> Option<Word> {
    let (words, _) = worded(alloc, text)?;
    match words.as_slice().get(number) {
        Some(word) => Some(*word),
        None => None,
    }
}

/// The words of these numbers in the text have one name.
fn have_one_name(alloc: Global, text: &[u8], one: usize, other: usize) -> bool {
    match (
        word_of_number(alloc, text, one),
        word_of_number(alloc, text, other),
    ) {
        (Some(one), Some(other)) => one.name == other.name,
        _ => false,
    }
}

/// The word of this number in the text is of this kind, stands there, and has this number and type.
fn is_word(
    alloc: Global,
    text: &[u8],
    number: usize,
    kind: u8,
    span: (u32, u32),
    value: (i128, Option<IntKind>),
) -> bool {
    match word_of_number(alloc, text, number) {
        Some(word) => {
            word.kind == kind
                && word.span.start == span.0
                && word.span.end == span.1
                && word.value == value.0
                && word.suffix == value.1
        }
        None => false,
    }
}

const TERMS: [(&[u8], (u8, u8, u8), u32); 34] = [
    (b"a + b * c", (b'+', b'p', b'*'), 5),
    (b"-a * b", (b'*', b'n', b'p'), 4),
    (b"a ==> b ==> c", (b'>', b'p', b'>'), 5),
    (b"a - b - c", (b'-', b'-', b'p'), 5),
    (b"a || b && c", (b'|', b'p', b'&'), 5),
    (b"a && b || c", (b'|', b'&', b'p'), 5),
    (b"a < b + 1", (b'=', b'p', b'+'), 5),
    (b"(a < b) == c", (b'=', b'=', b'p'), 7),
    (b"-5", (b'i', b' ', b' '), 2),
    (b"-(5)", (b'i', b' ', b' '), 4),
    (b"--5", (b'n', b'i', b' '), 3),
    (b"!x@", (b'!', b'@', b' '), 3),
    (b"*x@", (b'c', b'@', b' '), 3),
    (b"^*x", (b'^', b'c', b' '), 3),
    (b"x.f.0", (b'0', b'.', b' '), 5),
    (b"x.f(y).g", (b'.', b'(', b' '), 8),
    (b"x.f()", (b'(', b'p', b' '), 5),
    (b"f(x, y,)@", (b'@', b'f', b' '), 8),
    (b"a::b::<T>(x)", (b'f', b' ', b' '), 10),
    (b"Vec::<T>::new", (b'p', b' ', b' '), 7),
    (b"<T as A>::f(self)", (b'f', b' ', b' '), 10),
    (b"S { f: a, g: b }", (b'{', b' ', b' '), 10),
    (b"(a)", (b'p', b' ', b' '), 3),
    (b"(a,)", (b',', b' ', b' '), 4),
    (b"()", (b',', b' ', b' '), 2),
    (b"if a { result } else { self }", (b'?', b'p', b'r'), 9),
    (
        b"match x { A(_, mut y) => 1, B { z, .. } => 2 }",
        (b'M', b'p', b' '),
        22,
    ),
    (b"forall<i: Int> 0 <= i ==> i < n", (b'Q', b'>', b' '), 13),
    (b"exists<r: &'a mut (T, u8)> true", (b'Q', b't', b' '), 14),
    (b"MutRef(a, *b)", (b'm', b'p', b'c'), 7),
    (b"postcondition_mut(f, (x,), r)", (b'P', b' ', b' '), 11),
    (b"a) + b", (b'p', b' ', b' '), 1),
    (b"a as u8", (b'p', b' ', b' '), 1),
    (b"a < b < c", (b'=', b'p', b'p'), 3),
];

#[test]
fn terms_group_as_the_grammar_says(rt: HostRuntime) {
    let alloc = rt.alloc();
    for (text, forms, count) in &TERMS {
        assert!(rt; is_term(alloc, *text, *forms, *count));
    }
}

const WORDS: [(usize, u8, (u32, u32), (i128, Option<IntKind>)); 4] = [
    (0, WORD_FORALL, (0, 6), (0, None)),
    (2, IDENTIFIER, (7, 8), (0, None)),
    (4, IDENTIFIER, (10, 12), (0, None)),
    (8, INTEGER, (19, 26), (31, Some(IntKind::U8))),
];

#[test]
fn words_have_kinds_and_numbers(rt: HostRuntime) {
    let alloc = rt.alloc();
    let text = b"forall<x: u8> x == 0x1_Fu8 // y".as_slice();
    for (number, kind, span, value) in &WORDS {
        assert!(rt; is_word(alloc, text, *number, *kind, *span, *value));
    }
    assert!(rt; word_of_number(alloc, text, 9).is_none());
}

#[test]
fn lifetimes_have_kinds_and_names(rt: HostRuntime) {
    let alloc = rt.alloc();
    let text = b"'a 'static 'a 'b".as_slice();
    assert!(rt; is_word(alloc, text, 0, LIFETIME, (0, 2), (0, None)));
    assert!(rt; is_word(alloc, text, 1, STATIC_LIFETIME, (3, 10), (0, None)));
    assert!(rt; have_one_name(alloc, text, 0, 2));
    assert!(rt; !have_one_name(alloc, text, 0, 3));
}

#[test]
fn words_of_one_text_have_one_name(rt: HostRuntime) {
    let alloc = rt.alloc();
    assert!(rt; have_one_name(alloc, b"x y x", 0, 2));
    assert!(rt; !have_one_name(alloc, b"x y x", 0, 1));
    assert!(rt; !have_one_name(alloc, b"x", 0, 1));
}

/// A letter for an argument of a type.
fn argument_letter(argument: &TypeArgument) -> u8 {
    match argument {
        TypeArgument::Lifetime(_) => b'l',
        TypeArgument::Type(_) => b't',
    }
}

/// The text is a quantifier whose first variable has a type with arguments of these letters.
fn has_arguments(alloc: Global, text: &[u8], letters: &[u8]) -> bool {
    let term = match read(alloc, text) {
        Some((term, _)) => term,
        None => return false,
    };
    let binders = match &*term.node {
        PtermNode::Quantified(_, binders, _) => binders,
        _ => return false,
    };
    match binders.first() {
        Some(binder) => match &*binder.ty.node {
            TypeNode::Named(_, arguments) => {
                arguments.len() == letters.len()
                    && arguments
                        .iter()
                        .zip(letters)
                        .all(|(argument, letter)| argument_letter(argument) == *letter)
            }
            _ => false,
        },
        None => false,
    }
}

const ARGUMENTS: [(&[u8], &[u8]); 5] = [
    (b"forall<x: S> true", b""),
    (b"forall<x: S<'a>> true", b"l"),
    (b"forall<x: S<u8, (T, U)>> true", b"tt"),
    (b"forall<x: S<'a, T, 'b>> true", b"ltl"),
    (b"forall<x: S<T, 'a, 'b, U,>> true", b"tllt"),
];

#[test]
fn arguments_of_types_stand_in_their_order(rt: HostRuntime) {
    let alloc = rt.alloc();
    for (text, letters) in &ARGUMENTS {
        assert!(rt; has_arguments(alloc, *text, *letters));
    }
}
