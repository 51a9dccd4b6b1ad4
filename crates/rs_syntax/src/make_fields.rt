//! What the lines of fields, variants, structs and enums make.
ghost use Rattle.std.specs.Prelude.{◌≡◌, reverse, IfOk};
ghost use Rattle.rs_syntax.specs.declared.part.Value.TheVariants as V;
ghost use Rattle.rs_syntax.specs.MakeFields.{field_name, field_made, tuple_field_made, variant_fields, variant_made};
ghost use Rattle.rs_syntax.specs.MakeFields.{struct_with, struct_with_value, struct_fields, struct_made, enum_with, enum_with_value, enum_made};

use crate::gathering::{Gather, all_of, first_of, gather_all};
use crate::part::{Part, Value, segment_at, span_from};
use crate::places::segment_behind;
use pearlite::{Value as Shape, is_at, is_before};
use source_grammar::kinds;
use source_trees::{
    Enum, Field, Fields, GenericParam, ItemNode, Segment, Struct, TypeTree, Variant, VariantFields,
};
use source_words::Word;
use std::alloc::Global;
use text_core::{Boxed, Items, NoMemory};

/// The name of a field, which stands behind its `pub`.
fn field_name(words: &[Word], from: usize) -> Segment
    ensures { result ≡ field_name words.now from }
{
    if is_at(words, kinds::KW_PUB, from) {
        segment_behind(words, from, 1)
    } else {
        segment_at(words, from)
    }
}

/// `pub f: S`
#[tactic(auto, unfolding(crate::specs::MakeFields::field_made))]
pub(crate) fn field(
    alloc: Global,
    words: &[Word],
    from: usize,
    to: usize,
    parts: &mut Vec<Part>,
) -> Result<Value, NoMemory>
    ensures { IfOk result (λ v. v ≡ field_made words.now from to (reverse parts.old.items)) }
{
    match first_of::<TypeTree>(parts) {
        Some(ty) => {
            let field = Field {
                span: span_from(words, from, to),
                public: is_at(words, kinds::KW_PUB, from),
                name: Some(field_name(words, from)),
                ty,
            };
            Ok(Value::Field(Boxed::new(alloc, field)?))
        }
        None => Ok(Value::Shape(Shape::Passed)),
    }
}

/// `pub S`
#[tactic(auto, unfolding(crate::specs::MakeFields::tuple_field_made))]
pub(crate) fn tuple_field(
    alloc: Global,
    words: &[Word],
    from: usize,
    to: usize,
    parts: &mut Vec<Part>,
) -> Result<Value, NoMemory>
    ensures { IfOk result (λ v. v ≡ tuple_field_made words.now from to (reverse parts.old.items)) }
{
    match first_of::<TypeTree>(parts) {
        Some(ty) => {
            let field = Field {
                span: span_from(words, from, to),
                public: is_at(words, kinds::KW_PUB, from),
                name: None,
                ty,
            };
            Ok(Value::Field(Boxed::new(alloc, field)?))
        }
        None => Ok(Value::Shape(Shape::Passed)),
    }
}

/// The fields of a variant, by its last token.
#[tactic(auto, unfolding(crate::specs::MakeFields::variant_fields))]
fn variant_fields(
    alloc: Global,
    words: &[Word],
    to: usize,
    parts: &mut Vec<Part>,
) -> Result<VariantFields, NoMemory>
    ensures { IfOk result (λ fields. fields ≡ variant_fields words.now to (reverse parts.old.items)) }
{
    if is_before(words, kinds::CLOSE_PAREN, to, 1) {
        return Ok(VariantFields::Tuple(all_of::<TypeTree>(alloc, parts)?));
    }
    if is_before(words, kinds::CLOSE_BRACE, to, 1) {
        return Ok(VariantFields::Named(all_of::<Field>(alloc, parts)?));
    }
    Ok(VariantFields::Unit)
}

/// `V`, `V(S)` or `V { f: S }`
#[tactic(auto, unfolding(crate::specs::MakeFields::variant_made))]
pub(crate) fn variant(
    alloc: Global,
    words: &[Word],
    from: usize,
    to: usize,
    parts: &mut Vec<Part>,
) -> Result<Value, NoMemory>
    ensures { IfOk result (λ v. v ≡ variant_made words.now from to (reverse parts.old.items)) }
{
    let fields = variant_fields(alloc, words, to, parts)?;
    let variant = Variant {
        span: span_from(words, from, to),
        name: segment_at(words, from),
        fields,
    };
    Ok(Value::Variant(Boxed::new(alloc, variant)?))
}

/// An item without attributes and visibility.
pub(crate) fn node_value(alloc: Global, node: ItemNode) -> Result<Value, NoMemory>
    ensures { IfOk result (λ v. v ≡ V.ItemNode node) }
{
    Ok(Value::ItemNode(Boxed::new(alloc, node)?))
}

/// The parts of a struct.
#[derive(Drop)]
pub(crate) struct StructParts {
    pub generics: Items<GenericParam>,
    pub fields: Items<Field>,
}

impl StructParts {
    pub(crate) fn set_generics(&mut self, generics: Items<GenericParam>)
        ensures { self.new ≡ record self.old { generics = generics } }
    {
        self.generics = generics;
    }
}

impl Gather for StructParts {
    ghost with = { struct_with };

    fn add(&mut self, words: &[Word], part: Part) -> Result<(), NoMemory> {
        part.value.add_to_struct(self)
    }
}

/// The fields of a struct, by its last two tokens.
fn struct_fields(words: &[Word], to: usize, fields: Items<Field>) -> Fields
    ensures { result ≡ struct_fields words.now to fields }
{
    if is_before(words, kinds::CLOSE_BRACE, to, 1) {
        Fields::Named(fields)
    } else if is_before(words, kinds::CLOSE_PAREN, to, 2) {
        Fields::Tuple(fields)
    } else {
        Fields::Unit
    }
}

/// `struct S { f: T }`, `struct S(T);` or `struct S;`
#[tactic(auto, unfolding(crate::specs::MakeFields::struct_made))]
pub(crate) fn struct_item(
    alloc: Global,
    words: &[Word],
    from: usize,
    to: usize,
    parts: &mut Vec<Part>,
) -> Result<Value, NoMemory>
    ensures { IfOk result (λ v. v ≡ struct_made words.now from to (reverse parts.old.items)) }
{
    let bare = StructParts {
        generics: Items::new(alloc),
        fields: Items::new(alloc),
    };
    let StructParts { generics, fields } = gather_all(words, parts, bare)?;
    let item = Struct {
        name: segment_behind(words, from, 1),
        generics,
        fields: struct_fields(words, to, fields),
    };
    node_value(alloc, ItemNode::Struct(item))
}

pub(crate) fn set_enum_generics(so_far: &mut Enum, generics: Items<GenericParam>)
    ensures { so_far.new ≡ record so_far.old { generics = generics } }
{
    so_far.generics = generics;
}

impl Gather for Enum {
    ghost with = { enum_with };

    fn add(&mut self, words: &[Word], part: Part) -> Result<(), NoMemory> {
        part.value.add_to_enum(self)
    }
}

/// `enum E { V, W(S) }`
#[tactic(auto, unfolding(crate::specs::MakeFields::enum_made))]
pub(crate) fn enum_item(
    alloc: Global,
    words: &[Word],
    from: usize,
    parts: &mut Vec<Part>,
) -> Result<Value, NoMemory>
    ensures { IfOk result (λ v. v ≡ enum_made words.now from (reverse parts.old.items)) }
{
    let bare = Enum {
        name: segment_behind(words, from, 1),
        generics: Items::new(alloc),
        variants: Items::new(alloc),
    };
    let item = gather_all(words, parts, bare)?;
    node_value(alloc, ItemNode::Enum(item))
}
