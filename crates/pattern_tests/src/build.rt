use logic_term::{
    AdtDecl, AdtId, BindingKind, CompoundTy, Ctor, FieldDecl, PatNode, Region, Ty, TyNode, TyUnary,
    TypedPat, VariantDecl, VariantKind,
};
use source_kinds::IntKind;
use std::alloc::Global;
use text_core::{Items, Name, NoMemory, Span};

/// `enum Option<T> { None, Some(T) }`
const OPTION: AdtId = AdtId(0);

/// `struct Pair<A, B>(A, B)`
const PAIR: AdtId = AdtId(1);

/// `enum Only<T> { Only(T) }`
const ONLY: AdtId = AdtId(2);

/// `enum List { Nil, Cons(u8, Box<List>) }`
const LIST: AdtId = AdtId(3);

const NOWHERE: Span = Span { start: 0, end: 0 };

fn variant(alloc: Global, types: Vec<Ty>) -> Result<VariantDecl, NoMemory> {
    let mut types = types;
    let mut fields = Items::new(alloc);
    for i in 0..types.len() {
        let _ = i;
        let ty = types.pop().ok_or(NoMemory)?;
        fields.push(FieldDecl {
            name: Name(0),
            ty,
            span: NOWHERE,
        })?;
    }
    Ok(VariantDecl {
        name: Name(0),
        kind: VariantKind::Numbered,
        fields,
    })
}

/// The variants by the types of their fields, each as `types` reads them.
fn declared(alloc: Global, is_struct: bool, variants: &[&[u8]]) -> Result<AdtDecl, NoMemory> {
    let mut made = Items::new(alloc);
    for i in 0..variants.len() {
        made.push(variant(alloc, types(alloc, variants[i])?)?)?;
    }
    Ok(AdtDecl {
        name: Name(0),
        regions: 0,
        params: 2,
        variants: made,
        is_struct,
        copy: false,
        span: NOWHERE,
    })
}

/// The declared types of the tests.
pub fn decls(alloc: Global) -> Result<Vec<AdtDecl>, NoMemory> {
    let mut all = Vec::with_capacity(alloc, 4)?;
    all.push(declared(alloc, false, &[b"", b"0"])?)?;
    all.push(declared(alloc, true, &[b"01"])?)?;
    all.push(declared(alloc, false, &[b"0"])?)?;
    all.push(declared(alloc, false, &[b"", b"u*l"])?)?;
    Ok(all)
}

// ---- types

fn plain(node: TyNode) -> Ty {
    Ty { node }
}

fn unary(alloc: Global, op: TyUnary, stack: &mut Vec<Ty>) -> Result<Ty, NoMemory> {
    let inner = stack.pop().ok_or(NoMemory)?;
    Ty::compound(alloc, CompoundTy::Unary(op, inner))
}

/// So many of the types on top, the topmost first.
fn top_types(alloc: Global, count: u32, stack: &mut Vec<Ty>) -> Result<Vec<Ty>, NoMemory> {
    let mut parts = Vec::new(alloc);
    for i in 0..count {
        let _ = i;
        parts.push(stack.pop().ok_or(NoMemory)?)?;
    }
    Ok(parts)
}

fn adt(alloc: Global, id: AdtId, count: u32, stack: &mut Vec<Ty>) -> Result<Ty, NoMemory> {
    let parts = top_types(alloc, count, stack)?;
    Ty::compound(alloc, CompoundTy::Adt(id, Vec::new(alloc), parts))
}

fn type_of(alloc: Global, letter: u8, stack: &mut Vec<Ty>) -> Result<Ty, NoMemory> {
    match letter {
        b'b' => Ok(Ty::bool()),
        b'u' => Ok(Ty::int(IntKind::U8)),
        b'z' => Ok(Ty::math_int()),
        b'0' => Ok(plain(TyNode::Param(0))),
        b'1' => Ok(plain(TyNode::Param(1))),
        b't' => Ok(plain(TyNode::Tuple(top_types(alloc, 2, stack)?))),
        b'o' => adt(alloc, OPTION, 1, stack),
        b'p' => adt(alloc, PAIR, 2, stack),
        b'y' => adt(alloc, ONLY, 1, stack),
        b'l' => adt(alloc, LIST, 0, stack),
        b'*' => unary(alloc, TyUnary::Boxed, stack),
        b'&' => unary(alloc, TyUnary::Shared(Region(0)), stack),
        b'!' => unary(alloc, TyUnary::Unique(Region(0)), stack),
        _ => Err(NoMemory),
    }
}

/// The types of the text, the last one first: `b` for `bool`, `u` for `u8`, `z` for `Int`, `0` and `1` for parameters, `tAB`
/// for `(A, B)`, `oA` for `Option<A>`, `pAB` for `Pair<A, B>`, `yA` for `Only<A>`, `l` for `List`, `*A` for `Box<A>`, `&A`, and `!A`
/// for `&mut A`.
pub fn types(alloc: Global, text: &[u8]) -> Result<Vec<Ty>, NoMemory> {
    let mut stack = Vec::new(alloc);
    for i in 0..text.len() {
        let made = type_of(alloc, text[text.len() - 1 - i], &mut stack)?;
        stack.push(made)?;
    }
    Ok(stack)
}

// ---- patterns

/// No call of the tests looks at the types of patterns.
fn pat(alloc: Global, node: PatNode) -> Result<TypedPat, NoMemory> {
    let node = Box::new(alloc, node)?;
    let ty = Ty::unit(alloc);
    Ok(TypedPat { ty, node })
}

fn made(
    alloc: Global,
    ctor: Ctor,
    count: u32,
    stack: &mut Vec<TypedPat>,
) -> Result<TypedPat, NoMemory> {
    let mut parts = Vec::new(alloc);
    for i in 0..count {
        let _ = i;
        parts.push(stack.pop().ok_or(NoMemory)?)?;
    }
    pat(alloc, PatNode::Made(ctor, parts))
}

fn pattern(
    alloc: Global,
    kind: Option<IntKind>,
    letter: u8,
    stack: &mut Vec<TypedPat>,
) -> Result<TypedPat, NoMemory> {
    match letter {
        b'_' => pat(alloc, PatNode::Wild),
        b'T' => pat(alloc, PatNode::Truth(true)),
        b'F' => pat(alloc, PatNode::Truth(false)),
        b't' => made(alloc, Ctor::Tuple, 2, stack),
        b'n' => made(alloc, Ctor::Variant(OPTION, 0), 0, stack),
        b's' => made(alloc, Ctor::Variant(OPTION, 1), 1, stack),
        b'p' => made(alloc, Ctor::Variant(PAIR, 0), 2, stack),
        b'y' => made(alloc, Ctor::Variant(ONLY, 0), 1, stack),
        b'e' => made(alloc, Ctor::Variant(LIST, 0), 0, stack),
        b'c' => made(alloc, Ctor::Variant(LIST, 1), 2, stack),
        _ => leaf(alloc, kind, letter),
    }
}

fn leaf(alloc: Global, kind: Option<IntKind>, letter: u8) -> Result<TypedPat, NoMemory> {
    if letter >= b'0' && letter <= b'9' {
        return literal(alloc, kind, (letter - b'0') as i128);
    }
    pat(
        alloc,
        PatNode::Bound(Name(letter as u64), BindingKind::Value),
    )
}

/// The integer as a pattern.
pub fn literal(alloc: Global, kind: Option<IntKind>, z: i128) -> Result<TypedPat, NoMemory> {
    pat(alloc, PatNode::Literal(kind, z))
}

/// The patterns of the text: `_`, `T` and `F` for the truth values, a digit for the integer of that kind, `tPQ` for `(P, Q)`,
/// `n` and `sP` for the variants of `Option`, `pPQ` for `Pair(P, Q)`, `yP` for `Only(P)`, `e` and `cPQ` for the variants of
/// `List`; another letter is a name.
pub fn patterns(
    alloc: Global,
    kind: Option<IntKind>,
    text: &[u8],
) -> Result<Vec<TypedPat>, NoMemory> {
    let mut stack = Vec::new(alloc);
    for i in 0..text.len() {
        let made = pattern(alloc, kind, text[text.len() - 1 - i], &mut stack)?;
        stack.push(made)?;
    }
    let mut all = Vec::new(alloc);
    for i in 0..stack.len() {
        let _ = i;
        all.push(stack.pop().ok_or(NoMemory)?)?;
    }
    Ok(all)
}
