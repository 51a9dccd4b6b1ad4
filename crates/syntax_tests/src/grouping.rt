//! How operators group: a text is read as the same text with all parentheses.
use pearlite::{Cursor, parse_term};
use rs_syntax::parse;
use source_trees::{
    BinaryTerm, Body, Expr, ExprNode, Item, ItemNode, Path, PathNode, Pterm, PtermNode,
};
use source_words::tokens_of;
use std::alloc::Global;
use std::process::Abort;
use text_core::{Code, Items, Names, PassError};

/// Each operator of terms with each of the next level.
const NEIGHBOURS_IN_TERMS: [(&[u8], &[u8]); 52] = [
    (b"a ==> b || c", b"(a ==> (b || c))"),
    (b"a || b ==> c", b"((a || b) ==> c)"),
    (b"a || b && c", b"(a || (b && c))"),
    (b"a && b || c", b"((a && b) || c)"),
    (b"a && b == c", b"(a && (b == c))"),
    (b"a == b && c", b"((a == b) && c)"),
    (b"a && b != c", b"(a && (b != c))"),
    (b"a != b && c", b"((a != b) && c)"),
    (b"a && b < c", b"(a && (b < c))"),
    (b"a < b && c", b"((a < b) && c)"),
    (b"a && b <= c", b"(a && (b <= c))"),
    (b"a <= b && c", b"((a <= b) && c)"),
    (b"a && b > c", b"(a && (b > c))"),
    (b"a > b && c", b"((a > b) && c)"),
    (b"a && b >= c", b"(a && (b >= c))"),
    (b"a >= b && c", b"((a >= b) && c)"),
    (b"a == b + c", b"(a == (b + c))"),
    (b"a + b == c", b"((a + b) == c)"),
    (b"a == b - c", b"(a == (b - c))"),
    (b"a - b == c", b"((a - b) == c)"),
    (b"a != b + c", b"(a != (b + c))"),
    (b"a + b != c", b"((a + b) != c)"),
    (b"a != b - c", b"(a != (b - c))"),
    (b"a - b != c", b"((a - b) != c)"),
    (b"a < b + c", b"(a < (b + c))"),
    (b"a + b < c", b"((a + b) < c)"),
    (b"a < b - c", b"(a < (b - c))"),
    (b"a - b < c", b"((a - b) < c)"),
    (b"a <= b + c", b"(a <= (b + c))"),
    (b"a + b <= c", b"((a + b) <= c)"),
    (b"a <= b - c", b"(a <= (b - c))"),
    (b"a - b <= c", b"((a - b) <= c)"),
    (b"a > b + c", b"(a > (b + c))"),
    (b"a + b > c", b"((a + b) > c)"),
    (b"a > b - c", b"(a > (b - c))"),
    (b"a - b > c", b"((a - b) > c)"),
    (b"a >= b + c", b"(a >= (b + c))"),
    (b"a + b >= c", b"((a + b) >= c)"),
    (b"a >= b - c", b"(a >= (b - c))"),
    (b"a - b >= c", b"((a - b) >= c)"),
    (b"a + b * c", b"(a + (b * c))"),
    (b"a * b + c", b"((a * b) + c)"),
    (b"a + b / c", b"(a + (b / c))"),
    (b"a / b + c", b"((a / b) + c)"),
    (b"a + b % c", b"(a + (b % c))"),
    (b"a % b + c", b"((a % b) + c)"),
    (b"a - b * c", b"(a - (b * c))"),
    (b"a * b - c", b"((a * b) - c)"),
    (b"a - b / c", b"(a - (b / c))"),
    (b"a / b - c", b"((a / b) - c)"),
    (b"a - b % c", b"(a - (b % c))"),
    (b"a % b - c", b"((a % b) - c)"),
];

/// Operators of one level, and of several, in a row.
const CHAINS_IN_TERMS: [(&[u8], &[u8]); 10] = [
    (b"a ==> b ==> c", b"(a ==> (b ==> c))"),
    (b"a ==> b ==> c ==> d", b"(a ==> (b ==> (c ==> d)))"),
    (b"a || b || c", b"((a || b) || c)"),
    (b"a && b && c", b"((a && b) && c)"),
    (b"a + b - c + d", b"(((a + b) - c) + d)"),
    (b"a - b - c", b"((a - b) - c)"),
    (b"a * b / c % d", b"(((a * b) / c) % d)"),
    (b"a % b * c", b"((a % b) * c)"),
    (
        b"a && b ==> c || d ==> e",
        b"((a && b) ==> ((c || d) ==> e))",
    ),
    (b"a + b * c - d", b"((a + (b * c)) - d)"),
];

/// Prefixes, what stands behind an operand, and operators.
const PREFIXES_IN_TERMS: [(&[u8], &[u8]); 20] = [
    (b"-a * b", b"((-a) * b)"),
    (b"-a + b", b"((-a) + b)"),
    (b"a - -b", b"(a - (-b))"),
    (b"!a && b", b"((!a) && b)"),
    (b"*a == ^b", b"((*a) == (^b))"),
    (b"!!a", b"(!(!a))"),
    (b"-a.f", b"(-(a.f))"),
    (b"-a.0", b"(-(a.0))"),
    (b"!a.f()", b"(!(a.f()))"),
    (b"!f(a)", b"(!(f(a)))"),
    (b"-a@", b"(-(a@))"),
    (b"*a@", b"(*(a@))"),
    (b"(*a)@", b"((*a)@)"),
    (b"(-a).f", b"((-a).f)"),
    (b"a@ + b@", b"((a@) + (b@))"),
    (b"a.f@ * b", b"(((a.f)@) * b)"),
    (b"a.f.g@", b"(((a.f).g)@)"),
    (b"-a@ * b@ + c@", b"(((-(a@)) * (b@)) + (c@))"),
    (b"-5 + a", b"((-5) + a)"),
    (b"a - 5", b"(a - 5)"),
];

/// Each operator of expressions with each of the next level.
const NEIGHBOURS_IN_EXPRESSIONS: [(&[u8], &[u8]); 50] = [
    (b"fn f() { a || b && c }", b"fn f() { (a || (b && c)) }"),
    (b"fn f() { a && b || c }", b"fn f() { ((a && b) || c) }"),
    (b"fn f() { a && b == c }", b"fn f() { (a && (b == c)) }"),
    (b"fn f() { a == b && c }", b"fn f() { ((a == b) && c) }"),
    (b"fn f() { a && b != c }", b"fn f() { (a && (b != c)) }"),
    (b"fn f() { a != b && c }", b"fn f() { ((a != b) && c) }"),
    (b"fn f() { a && b < c }", b"fn f() { (a && (b < c)) }"),
    (b"fn f() { a < b && c }", b"fn f() { ((a < b) && c) }"),
    (b"fn f() { a && b <= c }", b"fn f() { (a && (b <= c)) }"),
    (b"fn f() { a <= b && c }", b"fn f() { ((a <= b) && c) }"),
    (b"fn f() { a && b > c }", b"fn f() { (a && (b > c)) }"),
    (b"fn f() { a > b && c }", b"fn f() { ((a > b) && c) }"),
    (b"fn f() { a && b >= c }", b"fn f() { (a && (b >= c)) }"),
    (b"fn f() { a >= b && c }", b"fn f() { ((a >= b) && c) }"),
    (b"fn f() { a == b + c }", b"fn f() { (a == (b + c)) }"),
    (b"fn f() { a + b == c }", b"fn f() { ((a + b) == c) }"),
    (b"fn f() { a == b - c }", b"fn f() { (a == (b - c)) }"),
    (b"fn f() { a - b == c }", b"fn f() { ((a - b) == c) }"),
    (b"fn f() { a != b + c }", b"fn f() { (a != (b + c)) }"),
    (b"fn f() { a + b != c }", b"fn f() { ((a + b) != c) }"),
    (b"fn f() { a != b - c }", b"fn f() { (a != (b - c)) }"),
    (b"fn f() { a - b != c }", b"fn f() { ((a - b) != c) }"),
    (b"fn f() { a < b + c }", b"fn f() { (a < (b + c)) }"),
    (b"fn f() { a + b < c }", b"fn f() { ((a + b) < c) }"),
    (b"fn f() { a < b - c }", b"fn f() { (a < (b - c)) }"),
    (b"fn f() { a - b < c }", b"fn f() { ((a - b) < c) }"),
    (b"fn f() { a <= b + c }", b"fn f() { (a <= (b + c)) }"),
    (b"fn f() { a + b <= c }", b"fn f() { ((a + b) <= c) }"),
    (b"fn f() { a <= b - c }", b"fn f() { (a <= (b - c)) }"),
    (b"fn f() { a - b <= c }", b"fn f() { ((a - b) <= c) }"),
    (b"fn f() { a > b + c }", b"fn f() { (a > (b + c)) }"),
    (b"fn f() { a + b > c }", b"fn f() { ((a + b) > c) }"),
    (b"fn f() { a > b - c }", b"fn f() { (a > (b - c)) }"),
    (b"fn f() { a - b > c }", b"fn f() { ((a - b) > c) }"),
    (b"fn f() { a >= b + c }", b"fn f() { (a >= (b + c)) }"),
    (b"fn f() { a + b >= c }", b"fn f() { ((a + b) >= c) }"),
    (b"fn f() { a >= b - c }", b"fn f() { (a >= (b - c)) }"),
    (b"fn f() { a - b >= c }", b"fn f() { ((a - b) >= c) }"),
    (b"fn f() { a + b * c }", b"fn f() { (a + (b * c)) }"),
    (b"fn f() { a * b + c }", b"fn f() { ((a * b) + c) }"),
    (b"fn f() { a + b / c }", b"fn f() { (a + (b / c)) }"),
    (b"fn f() { a / b + c }", b"fn f() { ((a / b) + c) }"),
    (b"fn f() { a + b % c }", b"fn f() { (a + (b % c)) }"),
    (b"fn f() { a % b + c }", b"fn f() { ((a % b) + c) }"),
    (b"fn f() { a - b * c }", b"fn f() { (a - (b * c)) }"),
    (b"fn f() { a * b - c }", b"fn f() { ((a * b) - c) }"),
    (b"fn f() { a - b / c }", b"fn f() { (a - (b / c)) }"),
    (b"fn f() { a / b - c }", b"fn f() { ((a / b) - c) }"),
    (b"fn f() { a - b % c }", b"fn f() { (a - (b % c)) }"),
    (b"fn f() { a % b - c }", b"fn f() { ((a % b) - c) }"),
];

/// Operators of one level, and of several, in a row.
const CHAINS_IN_EXPRESSIONS: [(&[u8], &[u8]); 12] = [
    (b"fn f() { a || b || c }", b"fn f() { ((a || b) || c) }"),
    (b"fn f() { a && b && c }", b"fn f() { ((a && b) && c) }"),
    (
        b"fn f() { a + b - c + d }",
        b"fn f() { (((a + b) - c) + d) }",
    ),
    (b"fn f() { a - b - c }", b"fn f() { ((a - b) - c) }"),
    (
        b"fn f() { a * b / c % d }",
        b"fn f() { (((a * b) / c) % d) }",
    ),
    (b"fn f() { a % b * c }", b"fn f() { ((a % b) * c) }"),
    (
        b"fn f() { a + b * c - d }",
        b"fn f() { ((a + (b * c)) - d) }",
    ),
    (b"fn f() { a = b = c }", b"fn f() { (a = (b = c)) }"),
    (b"fn f() { a = b || c }", b"fn f() { (a = (b || c)) }"),
    (b"fn f() { a += b + c }", b"fn f() { (a += (b + c)) }"),
    (b"fn f() { a -= b = c }", b"fn f() { (a -= (b = c)) }"),
    (b"fn f() { a += b += c }", b"fn f() { (a += (b += c)) }"),
];

/// Prefixes, casts, what stands behind an operand, and operators.
const PREFIXES_IN_EXPRESSIONS: [(&[u8], &[u8]); 24] = [
    (b"fn f() { -a * b }", b"fn f() { ((-a) * b) }"),
    (b"fn f() { -a + b }", b"fn f() { ((-a) + b) }"),
    (b"fn f() { a - -b }", b"fn f() { (a - (-b)) }"),
    (b"fn f() { !a && b }", b"fn f() { ((!a) && b) }"),
    (b"fn f() { *a == *b }", b"fn f() { ((*a) == (*b)) }"),
    (b"fn f() { &a == &mut b }", b"fn f() { ((&a) == (&mut b)) }"),
    (b"fn f() { -a.f }", b"fn f() { (-(a.f)) }"),
    (b"fn f() { -a.0 }", b"fn f() { (-(a.0)) }"),
    (b"fn f() { !a.f() }", b"fn f() { (!(a.f())) }"),
    (b"fn f() { !f(a) }", b"fn f() { (!(f(a))) }"),
    (b"fn f() { *a.f(b) }", b"fn f() { (*(a.f(b))) }"),
    (b"fn f() { (*a).f }", b"fn f() { ((*a).f) }"),
    (b"fn f() { &a.f }", b"fn f() { (&(a.f)) }"),
    (b"fn f() { a as u8 * b }", b"fn f() { ((a as u8) * b) }"),
    (b"fn f() { a * b as u8 }", b"fn f() { (a * (b as u8)) }"),
    (
        b"fn f() { a as u8 as u16 }",
        b"fn f() { ((a as u8) as u16) }",
    ),
    (b"fn f() { -a as u8 }", b"fn f() { ((-a) as u8) }"),
    (b"fn f() { !a as u8 + b }", b"fn f() { (((!a) as u8) + b) }"),
    (b"fn f() { a.f as u8 }", b"fn f() { ((a.f) as u8) }"),
    (b"fn f() { a as u8 < b }", b"fn f() { ((a as u8) < b) }"),
    (
        b"fn f() { a + b as u8 == c }",
        b"fn f() { ((a + (b as u8)) == c) }",
    ),
    (b"fn f() { *a as u8 - b }", b"fn f() { (((*a) as u8) - b) }"),
    (b"fn f() { -5 + a }", b"fn f() { ((-5) + a) }"),
    (b"fn f() { a - 5 }", b"fn f() { (a - 5) }"),
];

/// The front of the text that is a term has so many words.
const FRONTS: [(&[u8], u32); 8] = [
    (b"a < b < c", 3),
    (b"a == b == c", 3),
    (b"a <= b > c", 3),
    (b"a != b == c", 3),
    (b"a < b && c >= d < e", 7),
    (b"a + b >= c + d == e", 7),
    (b"a .. b", 1),
    (b"a as u8", 1),
];

/// Functions that are refused, with the place of the refused word.
const REFUSED: [(&[u8], Code, u32); 10] = [
    (b"fn f() { a < b < c }", Code::E03, 15),
    (b"fn f() { a == b == c }", Code::E03, 16),
    (b"fn f() { a <= b > c }", Code::E03, 16),
    (b"fn f() { a != b == c }", Code::E03, 16),
    (b"fn f() { a < b && c >= d < e }", Code::E03, 25),
    (b"fn f() { a .. b }", Code::E20, 11),
    (b"fn f() { a ..= b }", Code::E20, 11),
    (b"fn f() { a & b }", Code::E20, 11),
    (b"fn f() { a | b }", Code::E20, 11),
    (b"fn f() { a ^ b }", Code::E20, 11),
];

/// The paths are one name each, and the same.
fn same_path(one: &Path, other: &Path) -> bool {
    match (&one.node, &other.node) {
        (PathNode::Names(one, _, _), PathNode::Names(other, _, _)) => one.name == other.name,
        _ => false,
    }
}

fn same_operator_of_terms(one: BinaryTerm, other: BinaryTerm) -> bool {
    match (one, other) {
        (BinaryTerm::Implies, BinaryTerm::Implies)
        | (BinaryTerm::Or, BinaryTerm::Or)
        | (BinaryTerm::And, BinaryTerm::And) => true,
        (BinaryTerm::Compare(one), BinaryTerm::Compare(other)) => one == other,
        (BinaryTerm::Calculate(one), BinaryTerm::Calculate(other)) => one == other,
        _ => false,
    }
}

/// The terms have the same operators at the same places over the same names and numbers; arguments are not looked at.
fn same_term(one: &Pterm, other: &Pterm) -> bool {
    match (&*one.node, &*other.node) {
        (PtermNode::Int(one, _), PtermNode::Int(other, _)) => *one == *other,
        (PtermNode::Path(one), PtermNode::Path(other)) => same_path(one, other),
        (PtermNode::Call(one, _), PtermNode::Call(other, _)) => same_path(one, other),
        (PtermNode::Unary(one, operand), PtermNode::Unary(other, second)) => {
            *one as u8 == *other as u8 && same_term(operand, second)
        }
        (PtermNode::Binary(one, left, right), PtermNode::Binary(other, second, third)) => {
            same_operator_of_terms(*one, *other)
                && same_term(left, second)
                && same_term(right, third)
        }
        (PtermNode::Field(one, field), PtermNode::Field(other, second)) => {
            field.name == second.name && same_term(one, other)
        }
        (PtermNode::Part(one, part), PtermNode::Part(other, second)) => {
            part.value == second.value && same_term(one, other)
        }
        (PtermNode::Method(one, name, _), PtermNode::Method(other, second, _)) => {
            name.name == second.name && same_term(one, other)
        }
        _ => false,
    }
}

/// The term with which the text begins, and the number of its words.
fn term_in(alloc: Global, text: &[u8]) -> Option<(Pterm, u32)> {
    if text.len() > 1 << 20 {
        return None;
    }
    let tokens = match tokens_of(alloc, text) {
        Ok(tokens) => tokens,
        Err(_) => return None,
    };
    let mut names = Names::new(alloc);
    let mut cursor = Cursor::new(text, tokens.as_slice());
    match parse_term(alloc, &mut cursor, &mut names) {
        Ok(term) => Some((term, cursor.place())),
        Err(_) => None,
    }
}

/// Both texts begin with the same term.
fn are_one_term(alloc: Global, text: &[u8], grouped: &[u8]) -> bool {
    match (term_in(alloc, text), term_in(alloc, grouped)) {
        (Some((one, _)), Some((other, _))) => same_term(&one, &other),
        _ => false,
    }
}

/// The front of the text that is a term has so many words.
fn has_front(alloc: Global, text: &[u8], count: u32) -> bool {
    match term_in(alloc, text) {
        Some((_, taken)) => taken == count,
        None => false,
    }
}

/// The expressions have the same operators at the same places over the same names and numbers; arguments and types are not
/// looked at.
fn same_expr(one: &Expr, other: &Expr) -> bool {
    match (&*one.node, &*other.node) {
        (ExprNode::Int(one, _), ExprNode::Int(other, _)) => *one == *other,
        (ExprNode::Path(one), ExprNode::Path(other)) => same_path(one, other),
        (ExprNode::Unary(one, _, operand), ExprNode::Unary(other, _, second)) => {
            *one as u8 == *other as u8 && same_expr(operand, second)
        }
        (ExprNode::Borrow(one, operand), ExprNode::Borrow(other, second)) => {
            *one == *other && same_expr(operand, second)
        }
        (ExprNode::Cast(one, _), ExprNode::Cast(other, _))
        | (ExprNode::Call(one, _), ExprNode::Call(other, _)) => same_expr(one, other),
        (ExprNode::Field(one, field, _), ExprNode::Field(other, second, _))
        | (ExprNode::Method(one, field, _, _), ExprNode::Method(other, second, _, _)) => {
            field.name == second.name && same_expr(one, other)
        }
        (ExprNode::Part(one, part), ExprNode::Part(other, second)) => {
            part.value == second.value && same_expr(one, other)
        }
        (ExprNode::Assign(one, value), ExprNode::Assign(other, second)) => {
            same_expr(one, other) && same_expr(value, second)
        }
        (ExprNode::Lazy(op, left, right), ExprNode::Lazy(second, one, other)) => {
            *op == *second && same_expr(left, one) && same_expr(right, other)
        }
        (ExprNode::Binary(op, _, left, right), ExprNode::Binary(second, _, one, other))
        | (ExprNode::Update(op, _, left, right), ExprNode::Update(second, _, one, other)) => {
            *op as u8 == *second as u8 && same_expr(left, one) && same_expr(right, other)
        }
        _ => false,
    }
}

/// The value of the block of the one function that the items are.
fn value_of(items: &[Item]) -> Option<&Expr> {
    match items {
        [only] => match &only.node {
            ItemNode::Function(function) => match &function.body {
                Body::Block(block) => match &*block.node {
                    ExprNode::BlockWith(_, value) => Some(value),
                    _ => None,
                },
                _ => None,
            },
            _ => None,
        },
        _ => None,
    }
}

/// The items of the text, or its error.
fn items_in(alloc: Global, text: &[u8]) -> Result<Items<Item>, PassError> {
    if text.len() > 1 << 20 {
        return Err(PassError::NoMemory);
    }
    let mut names = Names::new(alloc);
    parse(alloc, text, &mut names)
}

/// Both texts are a function, and their values are the same expression.
fn are_one_expr(alloc: Global, text: &[u8], grouped: &[u8]) -> bool {
    match (items_in(alloc, text), items_in(alloc, grouped)) {
        (Ok(one), Ok(other)) => match (value_of(one.as_slice()), value_of(other.as_slice())) {
            (Some(one), Some(other)) => same_expr(one, other),
            _ => false,
        },
        _ => false,
    }
}

/// The text is refused by this code at this place.
fn is_refused(alloc: Global, text: &[u8], code: Code, place: u32) -> bool {
    match items_in(alloc, text) {
        Err(PassError::Source(error)) => error.code == code && error.span.start == place,
        _ => false,
    }
}

/// Each row is a term and the same with all parentheses.
fn terms_are_grouped(rt: &impl Abort, alloc: Global, rows: &[(&[u8], &[u8])]) {
    for (text, grouped) in rows {
        assert!(rt; are_one_term(alloc, text, grouped));
    }
}

/// Each row is a function and the same with all parentheses.
fn exprs_are_grouped(rt: &impl Abort, alloc: Global, rows: &[(&[u8], &[u8])]) {
    for (text, grouped) in rows {
        assert!(rt; are_one_expr(alloc, text, grouped));
    }
}

#[test]
fn operators_of_terms_group_by_precedence(rt: HostRuntime) {
    terms_are_grouped(&rt, rt.alloc(), &NEIGHBOURS_IN_TERMS);
}

#[test]
fn operators_of_terms_group_in_chains(rt: HostRuntime) {
    terms_are_grouped(&rt, rt.alloc(), &CHAINS_IN_TERMS);
}

#[test]
fn prefixes_of_terms_group_behind_suffixes(rt: HostRuntime) {
    terms_are_grouped(&rt, rt.alloc(), &PREFIXES_IN_TERMS);
}

#[test]
fn operators_of_expressions_group_by_precedence(rt: HostRuntime) {
    exprs_are_grouped(&rt, rt.alloc(), &NEIGHBOURS_IN_EXPRESSIONS);
}

#[test]
fn operators_of_expressions_group_in_chains(rt: HostRuntime) {
    exprs_are_grouped(&rt, rt.alloc(), &CHAINS_IN_EXPRESSIONS);
}

#[test]
fn prefixes_and_casts_group_behind_suffixes(rt: HostRuntime) {
    exprs_are_grouped(&rt, rt.alloc(), &PREFIXES_IN_EXPRESSIONS);
}

#[test]
fn a_term_ends_before_a_second_comparison(rt: HostRuntime) {
    for (text, count) in &FRONTS {
        assert!(rt; has_front(rt.alloc(), *text, *count));
    }
}

#[test]
fn comparisons_in_a_row_and_ranges_are_refused(rt: HostRuntime) {
    for (text, code, place) in &REFUSED {
        assert!(rt; is_refused(rt.alloc(), *text, *code, *place));
    }
}

#[test]
fn other_groupings_are_told_apart(rt: HostRuntime) {
    let alloc = rt.alloc();
    assert!(rt; !are_one_term(alloc, b"a - b - c", b"a - (b - c)"));
    assert!(rt; !are_one_term(alloc, b"a ==> b ==> c", b"(a ==> b) ==> c"));
    assert!(rt; !are_one_term(alloc, b"a + b", b"a - b"));
    assert!(rt; !are_one_expr(alloc, b"fn f() { a - b - c }", b"fn f() { a - (b - c) }"));
    assert!(rt; !are_one_expr(alloc, b"fn f() { a < b }", b"fn f() { a <= b }"));
    assert!(rt; !are_one_expr(alloc, b"fn f() { -a.f }", b"fn f() { (-a).f }"));
}
