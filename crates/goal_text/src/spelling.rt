//! What terms and sorts are spelled by.
ghost use Rattle.std.specs.Prelude.{◌≡◌, ◌++◌, OnOk, Some, slice_get};
ghost use Rattle.std.specs.Option.{option_copied};
ghost use Rattle.goal_text.specs.Spelling.{adt_text, variant_name_text, variant_text, path_by, path_text, fields_at, is_numbered, begins_with_digit, label_text, first_field, other_fields, name_text, opening_text, closing_text};
ghost use Rattle.goal_text.specs.SpellingView.{spelling_of};

use crate::piece::push_text;
use logic_term::{AdtDecl, AdtId, FieldDecl, VariantDecl};
use text_core::{Name, Names, NoMemory};

/// The declared types of a program, by their numbers, and its names.
#[derive(Clone, Copy)]
pub struct Spelling<'a> {
    pub adts: &'a [AdtDecl],
    pub names: &'a Names,
}

/// The text of the name, where it stands for one.
fn push_name(out: &mut Vec<u8>, spelling: &Spelling<'_>, name: Name) -> Result<(), NoMemory>
    ensures { OnOk result (out.new.items ≡ out.old.items ++ name_text (spelling_of spelling.now) name) }
{
    match spelling.names.text(name) {
        Some(text) => push_text(out, text.as_bytes()),
        None => Ok(()),
    }
}

/// The name of the declared type, where there is one.
pub(crate) fn push_adt(
    out: &mut Vec<u8>,
    spelling: &Spelling<'_>,
    adt: AdtId,
) -> Result<(), NoMemory>
    ensures { OnOk result (out.new.items ≡ out.old.items ++ adt_text (spelling_of spelling.now) adt.0) }
{
    match spelling.adts.get(adt.0 as usize) {
        Some(declared) => push_name(out, spelling, declared.name),
        None => Ok(()),
    }
}

fn push_variant_name(
    out: &mut Vec<u8>,
    spelling: &Spelling<'_>,
    variant: Option<&VariantDecl>,
) -> Result<(), NoMemory>
    ensures { OnOk result (out.new.items ≡ out.old.items ++ variant_name_text (spelling_of spelling.now) (option_copied variant.entry)) }
{
    match variant {
        Some(variant) => push_name(out, spelling, variant.name),
        None => Ok(()),
    }
}

/// `::Variant`, but of a struct nothing.
fn push_variant(
    out: &mut Vec<u8>,
    spelling: &Spelling<'_>,
    is_struct: bool,
    variant: Option<&VariantDecl>,
) -> Result<(), NoMemory>
    ensures { OnOk result (out.new.items ≡ out.old.items ++ variant_text (spelling_of spelling.now) is_struct (option_copied variant.entry)) }
{
    if is_struct {
        return Ok(());
    }
    push_text(out, b"::")?;
    push_variant_name(out, spelling, variant)
}

fn push_declared_path(
    out: &mut Vec<u8>,
    spelling: &Spelling<'_>,
    declared: &AdtDecl,
    variant: u32,
) -> Result<(), NoMemory>
    ensures { OnOk result (out.new.items ≡ out.old.items ++ path_by (spelling_of spelling.now) (Some declared.now) variant) }
{
    push_name(out, spelling, declared.name)?;
    let variant = declared.variants.get(variant as usize);
    push_variant(out, spelling, declared.is_struct, variant)
}

/// `Type` of a struct, and `Type::Variant` of a variant.
pub(crate) fn push_path(
    out: &mut Vec<u8>,
    spelling: &Spelling<'_>,
    adt: AdtId,
    variant: u32,
) -> Result<(), NoMemory>
    ensures { OnOk result (out.new.items ≡ out.old.items ++ path_text (spelling_of spelling.now) adt.0 variant) }
{
    match spelling.adts.get(adt.0 as usize) {
        Some(declared) => push_declared_path(out, spelling, declared, variant),
        None => Ok(()),
    }
}

/// The fields of the variant.
pub(crate) fn fields_at<'a>(spelling: &Spelling<'a>, adt: AdtId, variant: u32) -> &'a [FieldDecl]
    ensures { result.now ≡ fields_at (spelling_of spelling.now) adt.0 variant }
{
    let Some(declared) = spelling.adts.get(adt.0 as usize) else {
        return &[];
    };
    match declared.variants.get(variant as usize) {
        Some(variant) => variant.fields.as_slice(),
        None => &[],
    }
}

fn begins_with_digit(text: &[u8]) -> bool
    ensures { result ≡ begins_with_digit text.now }
{
    match text.first() {
        Some(first) => first.is_ascii_digit(),
        None => false,
    }
}

/// Whether the fields are named by their numbers.
pub(crate) fn is_numbered(spelling: &Spelling<'_>, fields: &[FieldDecl]) -> bool
    ensures { result ≡ is_numbered (spelling_of spelling.now) fields.now }
{
    let Some(field) = fields.first() else {
        return true;
    };
    match spelling.names.text(field.name) {
        Some(text) => begins_with_digit(text.as_bytes()),
        None => false,
    }
}

/// `f: ` of the field, unless the fields are named by their numbers.
pub(crate) fn push_label(
    out: &mut Vec<u8>,
    spelling: &Spelling<'_>,
    numbered: bool,
    field: Option<&FieldDecl>,
) -> Result<(), NoMemory>
    ensures { OnOk result (out.new.items ≡ out.old.items ++ label_text (spelling_of spelling.now) numbered (option_copied field.entry)) }
{
    if numbered {
        return Ok(());
    }
    match field {
        Some(field) => {
            push_name(out, spelling, field.name)?;
            push_text(out, b": ")
        }
        None => Ok(()),
    }
}

/// The first field.
pub(crate) fn first_field(fields: &[FieldDecl]) -> Option<&FieldDecl>
    ensures { option_copied result ≡ first_field fields.now }
{
    fields.first()
}

/// The field at this place, from 0.
pub(crate) fn field_at(fields: &[FieldDecl], at: usize) -> Option<&FieldDecl>
    ensures { option_copied result ≡ slice_get fields.now at }
{
    fields.get(at)
}

/// The fields after the first.
pub(crate) fn other_fields(fields: &[FieldDecl]) -> &[FieldDecl]
    ensures { result.now ≡ other_fields fields.now }
{
    match fields.split_first() {
        Some((_, others)) => others,
        None => fields,
    }
}

/// What stands before the values of fields.
pub(crate) fn opening_bytes(numbered: bool) -> &'static [u8]
    ensures { result.now ≡ opening_text numbered }
{
    if numbered { b"(" } else { b" { " }
}

/// What stands behind them.
pub(crate) fn closing_bytes(numbered: bool) -> &'static [u8]
    ensures { result.now ≡ closing_text numbered }
{
    if numbered { b")" } else { b" }" }
}
