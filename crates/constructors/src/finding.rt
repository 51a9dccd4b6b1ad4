//! What makes a value by a name or by a path.
ghost use Rattle.std.specs.Prelude.{◌≡◌, ◌==◌, ◌&&◌, IfOk, slice_get};
ghost use Rattle.std.specs.Option.{option_map};
ghost use Rattle.rs_types.specs.Table.{number_of};
ghost use Rattle.constructors.specs.Answers.{AnswersAs};
ghost use Rattle.constructors.specs.Constructors.{constructor_by, constructor_named, constructor_of, if_before_items, if_enum, if_struct, in_type_at, is_before_items, prelude_at, same_kind, struct_by, variant_at, variant_from, variant_named};

use crate::refusal::{unbuilt, unknown_name};
use logic_term::{AdtDecl, AdtId, FieldDecl, VariantDecl, VariantKind};
use rs_types::AdtTable;
use source_trees::{Path, PathNode, Segment};
use text_core::name::OPTION;
use text_core::{Name, NoMemory, PassError, Span};

/// A struct or a variant, with how many lifetimes and types its declared type takes.
#[derive(Clone, Copy)]
pub struct Constructor<'a> {
    pub id: AdtId,
    pub variant: u32,
    pub regions: u32,
    pub params: u32,
    pub kind: VariantKind,
    pub fields: &'a [FieldDecl],
}

// ---- by a name alone

/// The variant of this number.
fn variant_at(id: AdtId, decl: &AdtDecl, number: u32) -> Option<Constructor<'_>>
    ensures { option_map constructor_by result ≡ variant_at id.0 decl.now number (slice_get decl.now.variants number) }
{
    match decl.variants.as_slice().get(number as usize) {
        Some(variant) => Some(Constructor {
            id,
            variant: number,
            regions: decl.regions,
            params: decl.params,
            kind: variant.kind,
            fields: variant.fields.as_slice(),
        }),
        None => None,
    }
}

fn if_struct(id: AdtId, decl: &AdtDecl) -> Option<Constructor<'_>>
    ensures { option_map constructor_by result ≡ if_struct id.0 decl.now }
{
    if decl.is_struct {
        variant_at(id, decl, 0)
    } else {
        None
    }
}

/// The struct of the name.
#[tactic(auto, using(crate::proofs::Numbers::found_number))]
fn struct_named(types: &AdtTable, name: Name) -> Option<Constructor<'_>>
    ensures { option_map constructor_by result ≡ struct_by types.now (number_of name.0 types.now) }
{
    match types.find(name) {
        Some(id) => match types.decls().get(id.0 as usize) {
            Some(decl) => if_struct(id, decl),
            None => None,
        },
        None => None,
    }
}

/// The number of the variant of the name.
fn variant_among(variants: &[VariantDecl], name: Name) -> Result<Option<u32>, NoMemory>
    ensures { IfOk result (λ o. o ≡ variant_from 0 name variants.now) }
{
    let mut number = 0;
    for variant in variants {
        if variant.name.0 == name.0 {
            return Ok(Some(number));
        }
        number = u32::checked_add(number, 1).ok_or(NoMemory)?;
    }
    Ok(None)
}

/// The variant of the name.
fn variant_named(id: AdtId, decl: &AdtDecl, name: Name) -> Result<Option<Constructor<'_>>, NoMemory>
    ensures { IfOk result (λ o. option_map constructor_by o ≡ variant_named id.0 decl.now name) }
{
    match variant_among(decl.variants.as_slice(), name)? {
        Some(number) => Ok(variant_at(id, decl, number)),
        None => Ok(None),
    }
}

/// Whether it is the `Option` that stands before the items.
fn is_before_items(decl: &AdtDecl) -> bool
    ensures { result ≡ is_before_items decl.now }
{
    decl.name.0 == OPTION.0 && decl.span.end == 0
}

/// `None` or `Some`.
fn prelude_named(decls: &[AdtDecl], name: Name) -> Result<Option<Constructor<'_>>, NoMemory>
    ensures { IfOk result (λ o. option_map constructor_by o ≡ prelude_at name (slice_get decls.now 0)) }
{
    match decls.get(0) {
        Some(decl) if is_before_items(decl) => variant_named(AdtId(0), decl, name),
        _ => Ok(None),
    }
}

/// The struct of the name, else `None` or `Some` of the `Option` that stands before the items, if the source declares no type of that name. Want of memory is `NoMemory` (Rust
/// Reference, "Paths", "The Rust Standard Library prelude").
#[tactic(auto, unfolding(crate::specs::Constructors::constructor_named))]
pub fn constructor_named(types: &AdtTable, name: Name) -> Result<Option<Constructor<'_>>, NoMemory>
    ensures { IfOk result (λ o. option_map constructor_by o ≡ constructor_named types.now name) }
{
    match struct_named(types, name) {
        Some(constructor) => Ok(Some(constructor)),
        None => prelude_named(types.decls(), name),
    }
}

// ---- by the name of an enum and that of a variant

fn if_enum(id: AdtId, decl: &AdtDecl, name: Name) -> Result<Option<Constructor<'_>>, NoMemory>
    ensures { IfOk result (λ o. option_map constructor_by o ≡ if_enum id.0 decl.now name) }
{
    if decl.is_struct {
        Ok(None)
    } else {
        variant_named(id, decl, name)
    }
}

/// The variant of the second name, of the enum of the first.
#[tactic(auto, using(crate::proofs::Numbers::found_number))]
fn in_type(types: &AdtTable, first: Segment, second: Segment) -> Result<Constructor<'_>, PassError>
    ensures { AnswersAs result (in_type_at types.now first second (number_of first.name.0 types.now)) constructor_by }
{
    let Some(id) = types.find(first.name) else {
        return Err(unknown_name(first.span));
    };
    let Some(decl) = types.decls().get(id.0 as usize) else {
        return Err(unknown_name(first.span));
    };
    match if_enum(id, decl, second.name)? {
        Some(constructor) => Ok(constructor),
        None => Err(unknown_name(second.span)),
    }
}

/// What the path makes a value by: of one name the struct, `None` or `Some`, of two the variant of the enum. E05 at the name that is not
/// known, and E20 at the span, which is that of the whole expression or pattern, for a path of another form.
#[tactic(auto, unfolding(crate::specs::Constructors::constructor_of))]
pub fn constructor_of<'a>(
    types: &'a AdtTable,
    span: Span,
    path: &Path,
) -> Result<Constructor<'a>, PassError>
    ensures { AnswersAs result (constructor_of types.now span path.now.node) constructor_by }
{
    let PathNode::Names(first, others, arguments) = &path.node else {
        return Err(unbuilt(span));
    };
    if !arguments.is_empty() || others.len() > 1 {
        return Err(unbuilt(span));
    }
    if let Some(second) = others.as_slice().get(0) {
        return in_type(types, *first, *second);
    }
    match constructor_named(types, first.name)? {
        Some(constructor) => Ok(constructor),
        None => Err(unknown_name(first.span)),
    }
}

// ---- how its fields are written

/// Whether fields that are written in the one way are written in the other.
pub fn same_kind(one: VariantKind, other: VariantKind) -> bool
    ensures { result ≡ same_kind one other }
{
    matches!(
        (one, other),
        (VariantKind::Named, VariantKind::Named)
            | (VariantKind::Numbered, VariantKind::Numbered)
            | (VariantKind::Unit, VariantKind::Unit)
    )
}
