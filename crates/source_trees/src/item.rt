use crate::attribute::Attribute;
use crate::expr::Expr;
use crate::generics::{Condition, GenericParam};
use crate::param::Param;
use crate::path::Segment;
use crate::pterm::Pterm;
use crate::types::TypeTree;
use text_core::{Items, Span};

/// Who may name an item.
#[derive(Clone, Copy)]
pub enum Visibility {
    /// No `pub`.
    Private,
    /// `pub`
    Public,
    /// `pub(crate)`
    Crate,
}

/// What a function does.
#[derive(Drop)]
pub enum Body {
    /// A block.
    Block(Expr),
    /// A term in braces, also one in `pearlite!{ }`.
    Term(Pterm),
    /// `;`
    Missing,
}

/// A function.
#[derive(Drop)]
pub struct Function {
    pub name: Segment,
    /// From `<` to `>`, where they stand.
    pub generics_span: Option<Span>,
    pub generics: Items<GenericParam>,
    pub params: Items<Param>,
    /// `None` where no `->` stands: then the answer is unit.
    pub answer: Option<TypeTree>,
    /// From `where` to the last condition, where it stands.
    pub conditions_span: Option<Span>,
    pub conditions: Items<Condition>,
    pub body: Body,
}

/// A field of a struct or of a variant.
#[derive(Drop)]
pub struct Field {
    pub span: Span,
    /// Whether `pub` stands before it.
    pub public: bool,
    /// `None` where fields have no names.
    pub name: Option<Segment>,
    pub ty: TypeTree,
}

/// The fields of a struct.
#[derive(Drop)]
pub enum Fields {
    /// `;`
    Unit,
    /// `(S, T);`
    Tuple(Items<Field>),
    /// `{ f: S }`
    Named(Items<Field>),
}

#[derive(Drop)]
pub struct Struct {
    pub name: Segment,
    pub generics: Items<GenericParam>,
    pub fields: Fields,
}

/// The fields of a variant.
#[derive(Drop)]
pub enum VariantFields {
    Unit,
    /// `(S, T)`
    Tuple(Items<TypeTree>),
    /// `{ f: S }`
    Named(Items<Field>),
}

#[derive(Drop)]
pub struct Variant {
    pub span: Span,
    pub name: Segment,
    pub fields: VariantFields,
}

#[derive(Drop)]
pub struct Enum {
    pub name: Segment,
    pub generics: Items<GenericParam>,
    pub variants: Items<Variant>,
}

/// A function of a trait or an impl.
#[derive(Drop)]
pub struct Method {
    /// From its first attribute to its end.
    pub span: Span,
    pub attributes: Items<Attribute>,
    pub visibility: Visibility,
    pub function: Function,
}

#[derive(Drop)]
pub struct Trait {
    pub name: Segment,
    pub methods: Items<Method>,
}

/// What stands in the braces of an impl.
#[derive(Drop)]
pub enum ImplItem {
    /// `type ViewTy = T;`, and where it stands: `ViewTy` and the type.
    ViewType(Span, Segment, TypeTree),
    Method(Method),
}

#[derive(Drop)]
pub struct Impl {
    pub generics: Items<GenericParam>,
    /// `None` where the impl is of no trait.
    pub of: Option<Segment>,
    pub target: TypeTree,
    pub conditions: Items<Condition>,
    pub items: Items<ImplItem>,
}

/// What an item is.
#[derive(Drop)]
pub enum ItemNode {
    Function(Function),
    Struct(Struct),
    Enum(Enum),
    Trait(Trait),
    Impl(Impl),
    /// `use` of `creusot_contracts` or `std`.
    Use,
    /// `extern crate creusot_contracts;`
    ExternCrate,
}

/// An item with its attributes.
#[derive(Drop)]
pub struct Item {
    /// From its first attribute to its end.
    pub span: Span,
    pub attributes: Items<Attribute>,
    pub visibility: Visibility,
    /// From its first token behind attributes and visibility to its end.
    pub own: Span,
    pub node: ItemNode,
}
