//! Terms of short texts, an operator standing before its parts.
use logic_term::{AdtId, CompoundTy, Ctor, Term, Ty, TyNode};
use source_kinds::{ArithOp, IntKind};
use std::alloc::Global;
use text_core::{Name, NoMemory};

/// The names `x`, `y`, `z` and `w`.
pub const X: Name = Name(5);

pub const Y: Name = Name(7);

pub const Z: Name = Name(3);

pub const W: Name = Name(9);

fn variable(letter: u8) -> Option<Name> {
    Some(match letter {
        b'x' => X,
        b'y' => Y,
        b'z' => Z,
        b'w' => W,
        _ => return None,
    })
}

/// A digit; `t`, `c` and `e` for 10, 100 and 101, `m` for -2, `L` and `H` for the bounds of `i32`, and `M` for the largest of 128 bits.
fn number(letter: u8) -> Option<i128> {
    Some(match letter {
        b'0'..=b'9' => i128::from(letter - b'0'),
        b't' => 10,
        b'c' => 100,
        b'e' => 101,
        b'm' => -2,
        b'L' => -2147483648,
        b'H' => 2147483647,
        b'M' => i128::MAX,
        _ => return None,
    })
}

/// Variant `number` of the declared type 0, of these parts.
fn variant(alloc: Global, number: u32, parts: Vec<Term>) -> Result<Term, NoMemory> {
    Term::made(alloc, Ctor::Variant(AdtId(0), number), parts)
}

/// What stands alone: a name, a number, `i` for 5 as an `i32`, `T` and `F`, `u` for `()`, and without parts `n` for variant 2, `N` for variant 0
/// of the declared type 1, and `o` for that of type 2.
fn leaf(alloc: Global, letter: u8) -> Result<Option<Term>, NoMemory> {
    if let Some(name) = variable(letter) {
        return Ok(Some(Term::var(alloc, name)?));
    }
    if let Some(number) = number(letter) {
        return Ok(Some(Term::integer(alloc, number)?));
    }
    match letter {
        b'i' => Ok(Some(Term::lit(alloc, 5, Ty::int(IntKind::I32))?)),
        b'T' => Ok(Some(Term::truth(alloc, true)?)),
        b'F' => Ok(Some(Term::truth(alloc, false)?)),
        b'u' => Ok(Some(Term::unit(alloc)?)),
        b'n' => Ok(Some(variant(alloc, 2, Vec::new(alloc))?)),
        b'N' => Ok(Some(Term::made(alloc, Ctor::Variant(AdtId(1), 0), Vec::new(alloc))?)),
        b'o' => Ok(Some(Term::made(alloc, Ctor::Variant(AdtId(2), 0), Vec::new(alloc))?)),
        _ => Ok(None),
    }
}

/// The pairs of two integers.
fn pairs(alloc: Global) -> Result<Ty, NoMemory> {
    let mut parts = Vec::with_capacity(alloc, 2)?;
    parts.push(Ty::math_int())?;
    parts.push(Ty::math_int())?;
    Ok(Ty {
        node: TyNode::Tuple(parts),
    })
}

/// The values of the declared type at `i32`.
fn values(alloc: Global, number: u32) -> Result<Ty, NoMemory> {
    let mut types = Vec::with_capacity(alloc, 1)?;
    types.push(Ty::int(IntKind::I32))?;
    Ty::compound(
        alloc,
        CompoundTy::Adt(AdtId(number), Vec::new(alloc), types),
    )
}

/// `X` and `Y`: for each `i32`; `B`: for each truth value `x`; `P`: for each pair `x` of integers; `Z` and `W`: for each integer; `O`, `S` and
/// `U`: for each value `y` of the declared types 0, 1 and 2. `G`: for some `i32`, which is `x`; `E`: for some integer, which is `z`.
fn quantified(alloc: Global, letter: u8, body: Term) -> Result<Term, NoMemory> {
    match letter {
        b'X' => Term::forall(alloc, X, Ty::int(IntKind::I32), body),
        b'Y' => Term::forall(alloc, Y, Ty::int(IntKind::I32), body),
        b'B' => Term::forall(alloc, X, Ty::bool(), body),
        b'P' => Term::forall(alloc, X, pairs(alloc)?, body),
        b'O' => Term::forall(alloc, Y, values(alloc, 0)?, body),
        b'S' => Term::forall(alloc, Y, values(alloc, 1)?, body),
        b'U' => Term::forall(alloc, Y, values(alloc, 2)?, body),
        b'G' => Term::exists(alloc, X, Ty::int(IntKind::I32), body),
        b'E' => Term::exists(alloc, Z, Ty::math_int(), body),
        b'Z' => Term::forall(alloc, Z, Ty::math_int(), body),
        b'W' => Term::forall(alloc, W, Ty::math_int(), body),
        _ => Err(NoMemory),
    }
}

/// Variant `number` of one part.
fn of_one(alloc: Global, number: u32, t: Term) -> Result<Term, NoMemory> {
    let mut parts = Vec::with_capacity(alloc, 1)?;
    parts.push(t)?;
    variant(alloc, number, parts)
}

/// `@` for the model, `_` for the negative, `!`, `f` and `g` for parts 0 and 1, `a` and `b` for variants 0 and 1 of one part, and quantifiers.
fn unary(alloc: Global, letter: u8, t: Term) -> Result<Term, NoMemory> {
    match letter {
        b'@' => Term::model(alloc, t),
        b'_' => Term::negative(alloc, t),
        b'!' => Term::not(alloc, t),
        b'f' => Term::field(alloc, t, 0),
        b'g' => Term::field(alloc, t, 1),
        b'a' => of_one(alloc, 0, t),
        b'b' => of_one(alloc, 1, t),
        _ => quantified(alloc, letter, t),
    }
}

fn arithmetic(letter: u8) -> Option<ArithOp> {
    Some(match letter {
        b'+' => ArithOp::Add,
        b'-' => ArithOp::Sub,
        b'*' => ArithOp::Mul,
        b'/' => ArithOp::Div,
        b'%' => ArithOp::Rem,
        _ => return None,
    })
}

/// The tuple of both.
fn pair(alloc: Global, a: Term, b: Term) -> Result<Term, NoMemory> {
    let mut parts = Vec::with_capacity(alloc, 2)?;
    parts.push(a)?;
    parts.push(b)?;
    Term::made(alloc, Ctor::Tuple, parts)
}

/// Variant 1 of the declared type 1, of both.
fn link(alloc: Global, a: Term, b: Term) -> Result<Term, NoMemory> {
    let mut parts = Vec::with_capacity(alloc, 2)?;
    parts.push(a)?;
    parts.push(b)?;
    Term::made(alloc, Ctor::Variant(AdtId(1), 1), parts)
}

/// The operators of arithmetic, `<`, `l` for at most, `=`, `&`, `|`, `>` for an implication, `p` for a tuple of two, and `C` for variant 1 of
/// the declared type 1.
fn binary(alloc: Global, letter: u8, a: Term, b: Term) -> Result<Term, NoMemory> {
    if let Some(op) = arithmetic(letter) {
        return Term::calculate(alloc, op, a, b);
    }
    match letter {
        b'<' => Term::less(alloc, a, b),
        b'l' => Term::at_most(alloc, a, b),
        b'=' => Term::equal(alloc, a, b),
        b'&' => Term::and(alloc, a, b),
        b'|' => Term::or(alloc, a, b),
        b'>' => Term::implies(alloc, a, b),
        b'p' => pair(alloc, a, b),
        b'C' => link(alloc, a, b),
        _ => Err(NoMemory),
    }
}

fn is_binary(letter: u8) -> bool {
    matches!(
        letter,
        b'+' | b'-' | b'*' | b'/' | b'%' | b'<' | b'l' | b'=' | b'&' | b'|' | b'>' | b'p' | b'C'
    )
}

/// The term that begins with the letter, its parts on top, the first one topmost; `?` is an `if`.
fn made(alloc: Global, letter: u8, stack: &mut Vec<Term>) -> Result<Term, NoMemory> {
    if let Some(t) = leaf(alloc, letter)? {
        return Ok(t);
    }
    let a = stack.pop().ok_or(NoMemory)?;
    if letter != b'?' && !is_binary(letter) {
        return unary(alloc, letter, a);
    }
    let b = stack.pop().ok_or(NoMemory)?;
    if letter == b'?' {
        let c = stack.pop().ok_or(NoMemory)?;
        return Term::choice(alloc, a, b, c);
    }
    binary(alloc, letter, a, b)
}

/// The term of the text.
pub fn term(alloc: Global, text: &[u8]) -> Result<Term, NoMemory> {
    let mut stack = Vec::with_capacity(alloc, text.len())?;
    for i in 0..text.len() {
        let t = made(alloc, text[text.len() - 1 - i], &mut stack)?;
        stack.push(t)?;
    }
    stack.pop().ok_or(NoMemory)
}
