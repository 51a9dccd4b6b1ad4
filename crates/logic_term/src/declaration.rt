use crate::ty::Ty;
use text_core::{Items, Name, Span};

/// A field of a variant. The fields of a tuple struct or a tuple variant are named by their numbers.
#[derive(Drop)]
pub struct FieldDecl {
    pub name: Name,
    pub ty: Ty,
    /// That of its written type.
    pub span: Span,
}

/// How the fields of a variant are written (Rust Reference, "Structs", "Enumerations").
#[derive(Clone, Copy)]
pub enum VariantKind {
    /// `A { .. }`
    Named,
    /// `A(..)`
    Numbered,
    /// `A`
    Unit,
}

/// A variant of a declared type.
#[derive(Drop)]
pub struct VariantDecl {
    pub name: Name,
    pub kind: VariantKind,
    /// In source order.
    pub fields: Items<FieldDecl>,
}

/// A declared type: a struct has one variant, of its own name.
#[derive(Drop)]
pub struct AdtDecl {
    pub name: Name,
    /// How many lifetimes it takes.
    pub regions: u32,
    /// How many types it takes.
    pub params: u32,
    pub variants: Items<VariantDecl>,
    pub is_struct: bool,
    /// Whether its values may be copied.
    pub copy: bool,
    /// That of the name.
    pub span: Span,
}
