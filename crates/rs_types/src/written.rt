//! Where a written type stands: what is in scope there, and what a name or a lifetime that is left out is.
use crate::table::AdtTable;
use logic_term::{AdtId, Region, Ty};
use source_kinds::IntKind;
use text_core::{Items, Name};

/// What a lifetime is that a type leaves out.
#[derive(Clone, Copy)]
pub enum Elision {
    /// None may be left out, as in the field of a declared type: E08 at the type.
    Refused,
    /// Each is one of its own, as in a signature; the next has this number.
    Numbered(u32),
    /// All are region 0, as in the body of a function.
    Erased,
    /// All are this one, as in the answer of a function with one lifetime in its parameters.
    Given(Region),
}

/// What the name of a type stands for.
#[derive(Clone, Copy)]
pub enum TypeName {
    /// A type parameter, by its number within the item.
    Parameter(u32),
    Declared(AdtId),
    Int(IntKind),
    Bool,
    /// The unbounded integers of terms.
    MathInt,
    Box,
}

/// The arguments of a type, in the order in which they are written.
#[derive(Drop)]
pub struct ArgumentList {
    pub regions: Items<Region>,
    pub types: Items<Ty>,
}

/// What is in scope where a type is written.
#[derive(Clone, Copy)]
pub struct TypeScope<'a> {
    pub declared: &'a AdtTable,
    /// The lifetimes of the item, by number.
    pub lifetimes: &'a [Name],
    /// The type parameters of the item, by number.
    pub parameters: &'a [Name],
    /// What `Self` is.
    pub self_ty: &'a Option<Ty>,
    /// Whether `Int` is a type here: it is one in terms alone.
    pub has_int: bool,
}
