use logic_term::{
    AdtDecl, AdtId, CompoundTy, FieldDecl, Region, Ty, TyNode, TyUnary, VariantDecl, VariantKind,
};
use rs_types::AdtTable;
use source_kinds::IntKind;
use std::alloc::Global;
use text_core::{Items, Name, NoMemory, PassError, Span};

fn unary(alloc: Global, op: TyUnary, stack: &mut Vec<Ty>) -> Result<Ty, NoMemory> {
    let inner = stack.pop().ok_or(NoMemory)?;
    Ty::compound(alloc, CompoundTy::Unary(op, inner))
}

/// So many of the types on top, the topmost first.
fn top(alloc: Global, count: usize, stack: &mut Vec<Ty>) -> Result<Vec<Ty>, NoMemory> {
    let mut parts = Vec::with_capacity(alloc, count)?;
    for _ in 0..count {
        parts.push(stack.pop().ok_or(NoMemory)?)?;
    }
    Ok(parts)
}

fn declared(alloc: Global, id: u32, count: usize, stack: &mut Vec<Ty>) -> Result<Ty, NoMemory> {
    let parts = top(alloc, count, stack)?;
    Ty::compound(alloc, CompoundTy::Adt(AdtId(id), Vec::new(alloc), parts))
}

fn type_of(alloc: Global, letter: u8, stack: &mut Vec<Ty>) -> Result<Ty, NoMemory> {
    match letter {
        b'u' => Ok(Ty::int(IntKind::U8)),
        b'o' => Ok(Ty { node: TyNode::Bool }),
        b'z' => Ok(Ty {
            node: TyNode::MathInt,
        }),
        b'0'..=b'9' => Ok(Ty {
            node: TyNode::Param(u32::from(letter - b'0')),
        }),
        b't' => Ok(Ty {
            node: TyNode::Tuple(top(alloc, 2, stack)?),
        }),
        b'*' => unary(alloc, TyUnary::Boxed, stack),
        b'&' => unary(alloc, TyUnary::Shared(Region(0)), stack),
        b'~' => unary(alloc, TyUnary::Unique(Region(0)), stack),
        b's' => unary(alloc, TyUnary::Snapshot, stack),
        b'A'..=b'Z' => declared(alloc, u32::from(letter - b'A'), 1, stack),
        b'a'..=b'e' => declared(alloc, u32::from(letter - b'a'), 0, stack),
        _ => Err(NoMemory),
    }
}

/// The types of the text, the last one first: `u` for `u8`, `o` for `bool`, `z` for `Int`, a digit for a type parameter, `tXY` for `(X, Y)`, `*X` for
/// `Box<X>`, `&X`, `~X` for `&mut X`, `sX` for `Snapshot<X>`, a capital letter for the declared type of its place at one type, and `a` to `e` for one
/// without types.
pub fn types(alloc: Global, text: &[u8]) -> Result<Vec<Ty>, NoMemory> {
    let mut stack = Vec::with_capacity(alloc, text.len())?;
    for i in 0..text.len() {
        let made = type_of(alloc, text[text.len() - 1 - i], &mut stack)?;
        stack.push(made)?;
    }
    Ok(stack)
}

fn variant(alloc: Global, text: &[u8]) -> Result<VariantDecl, NoMemory> {
    let mut types = types(alloc, text)?;
    let mut fields = Items::new(alloc);
    let mut start: u32 = 1000;
    for _ in 0..types.len() {
        let ty = types.pop().ok_or(NoMemory)?;
        fields.push(FieldDecl {
            name: Name(0),
            ty,
            span: Span { start, end: start },
        })?;
        start = start.checked_add(1).ok_or(NoMemory)?;
    }
    Ok(VariantDecl {
        name: Name(0),
        kind: VariantKind::Numbered,
        fields,
    })
}

/// A declared type with these variants, each by the types of its fields; its name's span begins at the name's number, and those of a variant's
/// fields at 1000 and so on.
pub fn decl(alloc: Global, name: u32, variants: &[&[u8]]) -> Result<AdtDecl, NoMemory> {
    let mut made = Items::new(alloc);
    for i in 0..variants.len() {
        made.push(variant(alloc, variants[i])?)?;
    }
    Ok(AdtDecl {
        name: Name(u64::from(name)),
        regions: 0,
        params: 1,
        variants: made,
        is_struct: variants.len() == 1,
        copy: false,
        span: Span {
            start: name,
            end: name,
        },
    })
}

/// The table of these declared types, their names being 100 and so on.
pub fn table(alloc: Global, decls: &[&[&[u8]]]) -> Result<AdtTable, PassError> {
    let mut table = AdtTable::new(alloc);
    let mut name: u32 = 100;
    for i in 0..decls.len() {
        table.add(decl(alloc, name, decls[i])?)?;
        name = name.checked_add(1).ok_or(NoMemory)?;
    }
    Ok(table)
}
