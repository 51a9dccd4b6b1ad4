//! What has to hold of the items, one thing after another.
ghost use Rattle.std.specs.Prelude.{◌≡◌, ◌++◌, ◌∷◌, [], IfOk, OnOk};
ghost use Rattle.rs_types.specs.Meant.{scope_of};
ghost use Rattle.rs_types.specs.declared.checks.Check.TheVariants.{Plain};
ghost use Rattle.rs_types.specs.declared.written.Elision.TheVariants.{Refused, Numbered};
ghost use Rattle.declared_types.specs.Answers.{unbuilt};
ghost use Rattle.declared_types.specs.DeclaredTypes.{heads};
ghost use Rattle.constructors.specs.FunctionScope.{function_scope};
ghost use Rattle.declared_types.specs.Declaring.{check_of, field_checks, fields_checks, parts_checks, struct_fields_checks, variant_fields_checks, variant_checks, variants_checks, standing, param_checks, param_name, in_answer, answer_checks, signature_checks, function_checks, struct_checks, enum_checks, node_checks, item_checks, checks};

use crate::double::{double_in, double_of, head_refusal, named, type_name, value_name};
use crate::fields::{first_number, names_of, next_number, span_of};
use crate::lists::push_some;
use logic_term::Region;
use rs_types::{AdtTable, Check, Elision, TypeScope, meant};
use source_trees::{
    Enum, Field, Fields, Function, Item, ItemNode, Param, ParamNode, Struct, TypeTree, Variant,
    VariantFields,
};
use std::alloc::Global;
use text_core::{Code, Name, NoMemory, PassError, SourceError, Span};

fn unbuilt(span: Span) -> Check
    ensures { result ≡ Plain (Some (unbuilt span)) }
{
    Check::Plain(Some(SourceError {
        code: Code::E20,
        span,
        other: None,
    }))
}

/// A type that is written: what it is refused for, else that it is flat; and what a lifetime that is left out is from there on.
fn check_of(
    alloc: Global,
    scope: &TypeScope<'_>,
    elision: Elision,
    written: &TypeTree,
) -> Result<(Check, Elision), NoMemory>
    ensures { IfOk result (λ c. c ≡ check_of (scope_of scope.now) elision written.now) }
{
    match meant(alloc, scope, elision, written) {
        Ok((ty, next)) => Ok((Check::Flat(span_of(written), ty), next)),
        Err(PassError::Source(error)) => Ok((Check::Plain(Some(error)), elision)),
        Err(_) => Err(NoMemory),
    }
}

// ---- fields

/// The type of a field.
fn add_type(
    alloc: Global,
    scope: &TypeScope<'_>,
    written: &TypeTree,
    checks: &mut Vec<Check>,
) -> Result<(), NoMemory>
    ensures { OnOk result (checks.new.items ≡ checks.old.items ++ (check_of (scope_of scope.now) Refused written.now).0 ∷ []) }
{
    let (check, _) = check_of(alloc, scope, Elision::Refused, written)?;
    checks.push(check)?;
    Ok(())
}

fn add_field(
    alloc: Global,
    scope: &TypeScope<'_>,
    seen: &[Name],
    field: &Field,
    checks: &mut Vec<Check>,
) -> Result<(), NoMemory>
    ensures { OnOk result (checks.new.items ≡ checks.old.items ++ field_checks (scope_of scope.now) seen.now field.now) }
{
    checks.push(Check::Plain(double_of(seen, field.name)))?;
    add_type(alloc, scope, &field.ty, checks)
}

fn add_fields(
    alloc: Global,
    scope: &TypeScope<'_>,
    fields: &[Field],
    checks: &mut Vec<Check>,
) -> Result<(), NoMemory>
    ensures { OnOk result (checks.new.items ≡ checks.old.items ++ fields_checks (scope_of scope.now) [] fields.now) }
{
    let mut seen = Vec::new(alloc);
    for field in fields {
        add_field(alloc, scope, seen.as_slice(), field, checks)?;
        push_some(&mut seen, named(field.name))?;
    }
    Ok(())
}

/// Fields without names.
fn add_parts(
    alloc: Global,
    scope: &TypeScope<'_>,
    types: &[TypeTree],
    checks: &mut Vec<Check>,
) -> Result<(), NoMemory>
    ensures { OnOk result (checks.new.items ≡ checks.old.items ++ parts_checks (scope_of scope.now) types.now) }
{
    for i in 0..types.len() {
        add_type(alloc, scope, &types[i], checks)?;
    }
    Ok(())
}

fn add_struct_fields(
    alloc: Global,
    scope: &TypeScope<'_>,
    fields: &Fields,
    checks: &mut Vec<Check>,
) -> Result<(), NoMemory>
    ensures { OnOk result (checks.new.items ≡ checks.old.items ++ struct_fields_checks (scope_of scope.now) fields.now) }
{
    match fields {
        Fields::Unit => Ok(()),
        Fields::Tuple(fields) => add_fields(alloc, scope, fields.as_slice(), checks),
        Fields::Named(fields) => add_fields(alloc, scope, fields.as_slice(), checks),
    }
}

fn add_variant_fields(
    alloc: Global,
    scope: &TypeScope<'_>,
    fields: &VariantFields,
    checks: &mut Vec<Check>,
) -> Result<(), NoMemory>
    ensures { OnOk result (checks.new.items ≡ checks.old.items ++ variant_fields_checks (scope_of scope.now) fields.now) }
{
    match fields {
        VariantFields::Unit => Ok(()),
        VariantFields::Tuple(types) => add_parts(alloc, scope, types.as_slice(), checks),
        VariantFields::Named(fields) => add_fields(alloc, scope, fields.as_slice(), checks),
    }
}

fn add_variant(
    alloc: Global,
    scope: &TypeScope<'_>,
    seen: &[Name],
    variant: &Variant,
    checks: &mut Vec<Check>,
) -> Result<(), NoMemory>
    ensures { OnOk result (checks.new.items ≡ checks.old.items ++ variant_checks (scope_of scope.now) seen.now variant.now) }
{
    checks.push(Check::Plain(double_in(seen, variant.name)))?;
    add_variant_fields(alloc, scope, &variant.fields, checks)
}

fn add_variants(
    alloc: Global,
    scope: &TypeScope<'_>,
    variants: &[Variant],
    checks: &mut Vec<Check>,
) -> Result<(), NoMemory>
    ensures { OnOk result (checks.new.items ≡ checks.old.items ++ variants_checks (scope_of scope.now) [] variants.now) }
{
    let mut seen = Vec::new(alloc);
    for variant in variants {
        add_variant(alloc, scope, seen.as_slice(), variant, checks)?;
        seen.push(variant.name.name)?;
    }
    Ok(())
}

// ---- functions

/// A part that may not stand.
fn standing(place: Option<Span>) -> Option<SourceError>
    ensures { result ≡ standing place }
{
    match place {
        None => None,
        Some(span) => Some(SourceError {
            code: Code::E20,
            span,
            other: None,
        }),
    }
}

/// A parameter; the answer is what a lifetime that is left out is behind it.
fn add_param(
    alloc: Global,
    scope: &TypeScope<'_>,
    seen: &[Name],
    elision: Elision,
    param: &Param,
    checks: &mut Vec<Check>,
) -> Result<Elision, NoMemory>
    ensures checks { OnOk result (checks.new.items ≡ checks.old.items ++ (param_checks (scope_of scope.now) seen.now elision param.now).0) }
    ensures next { IfOk result (λ m. m ≡ (param_checks (scope_of scope.now) seen.now elision param.now).1) }
{
    match &param.node {
        ParamNode::Named(_, name, written) => {
            checks.push(Check::Plain(double_in(seen, *name)))?;
            let (check, next) = check_of(alloc, scope, elision, written)?;
            checks.push(check)?;
            Ok(next)
        }
        ParamNode::Receiver(_) | ParamNode::Borrowed(_, _) => {
            checks.push(unbuilt(param.span))?;
            Ok(elision)
        }
    }
}

fn param_name(param: &Param) -> Option<Name>
    ensures { result ≡ param_name param.now.node }
{
    match &param.node {
        ParamNode::Named(_, name, _) => Some(name.name),
        ParamNode::Receiver(_) | ParamNode::Borrowed(_, _) => None,
    }
}

/// In an answer a lifetime that is left out is the only one of the parameters.
fn in_answer(elision: Elision) -> Elision
    ensures { result ≡ in_answer elision }
{
    match elision {
        Elision::Numbered(1) => Elision::Given(Region(0)),
        Elision::Numbered(_) => Elision::Refused,
        Elision::Refused | Elision::Erased | Elision::Given(_) => elision,
    }
}

fn add_answer(
    alloc: Global,
    scope: &TypeScope<'_>,
    elision: Elision,
    answer: &Option<TypeTree>,
    checks: &mut Vec<Check>,
) -> Result<(), NoMemory>
    ensures { OnOk result (checks.new.items ≡ checks.old.items ++ answer_checks (scope_of scope.now) elision answer.now) }
{
    match answer {
        None => Ok(()),
        Some(written) => {
            let (check, _) = check_of(alloc, scope, in_answer(elision), written)?;
            checks.push(check)?;
            Ok(())
        }
    }
}

/// The parameters, and then the answer.
fn add_signature(
    alloc: Global,
    scope: &TypeScope<'_>,
    f: &Function,
    checks: &mut Vec<Check>,
) -> Result<(), NoMemory>
    ensures { OnOk result (checks.new.items ≡ checks.old.items ++ signature_checks (scope_of scope.now) f.now.answer [] (Numbered 0) f.now.params) }
{
    let params = f.params.as_slice();
    let mut seen = Vec::new(alloc);
    let mut elision = Elision::Numbered(0);
    for param in params {
        elision = add_param(alloc, scope, seen.as_slice(), elision, param, checks)?;
        push_some(&mut seen, param_name(param))?;
    }
    add_answer(alloc, scope, elision, &f.answer, checks)
}

fn add_function(
    alloc: Global,
    heads: &AdtTable,
    f: &Function,
    checks: &mut Vec<Check>,
) -> Result<(), NoMemory>
    ensures { OnOk result (checks.new.items ≡ checks.old.items ++ function_checks heads.now f.now) }
{
    let self_ty = None;
    let scope = TypeScope {
        declared: heads,
        lifetimes: &[],
        parameters: &[],
        self_ty: &self_ty,
        has_int: false,
    };
    checks.push(Check::Plain(standing(f.generics_span)))?;
    add_signature(alloc, &scope, f, checks)?;
    checks.push(Check::Plain(standing(f.conditions_span)))?;
    Ok(())
}

// ---- items

fn add_struct(
    alloc: Global,
    heads: &AdtTable,
    number: u32,
    it: &Struct,
    checks: &mut Vec<Check>,
) -> Result<(), NoMemory>
    ensures { OnOk result (checks.new.items ≡ checks.old.items ++ struct_checks heads.now number it.now) }
{
    let names = names_of(alloc, number, it.generics.as_slice())?;
    let scope = TypeScope {
        declared: heads,
        lifetimes: names.lifetimes.as_slice(),
        parameters: names.parameters.as_slice(),
        self_ty: &names.self_ty,
        has_int: false,
    };
    add_struct_fields(alloc, &scope, &it.fields, checks)?;
    checks.push(Check::Finite(number, it.name.span))?;
    Ok(())
}

fn add_enum(
    alloc: Global,
    heads: &AdtTable,
    number: u32,
    it: &Enum,
    checks: &mut Vec<Check>,
) -> Result<(), NoMemory>
    ensures { OnOk result (checks.new.items ≡ checks.old.items ++ enum_checks heads.now number it.now) }
{
    let names = names_of(alloc, number, it.generics.as_slice())?;
    let scope = TypeScope {
        declared: heads,
        lifetimes: names.lifetimes.as_slice(),
        parameters: names.parameters.as_slice(),
        self_ty: &names.self_ty,
        has_int: false,
    };
    add_variants(alloc, &scope, it.variants.as_slice(), checks)?;
    checks.push(Check::Finite(number, it.name.span))?;
    Ok(())
}

fn add_node(
    alloc: Global,
    heads: &AdtTable,
    number: u32,
    item: &Item,
    checks: &mut Vec<Check>,
) -> Result<(), NoMemory>
    ensures { OnOk result (checks.new.items ≡ checks.old.items ++ node_checks heads.now number item.now.own item.now.node) }
{
    match &item.node {
        ItemNode::Function(f) => add_function(alloc, heads, f, checks),
        ItemNode::Struct(it) => add_struct(alloc, heads, number, it, checks),
        ItemNode::Enum(it) => add_enum(alloc, heads, number, it, checks),
        ItemNode::Trait(_) | ItemNode::Impl(_) => {
            checks.push(unbuilt(item.own))?;
            Ok(())
        }
        ItemNode::Use | ItemNode::ExternCrate => Ok(()),
    }
}

fn add_item(
    alloc: Global,
    heads: &AdtTable,
    number: u32,
    types: &[Name],
    values: &[Name],
    item: &Item,
    checks: &mut Vec<Check>,
) -> Result<(), NoMemory>
    ensures { OnOk result (checks.new.items ≡ checks.old.items ++ item_checks heads.now number types.now values.now item.now) }
{
    let refused = head_refusal(alloc, types, values, item)?;
    checks.push(Check::Plain(refused))?;
    add_node(alloc, heads, number, item, checks)
}

/// What has to hold of the items, the heads of all declared types being known.
#[tactic(auto, unfolding(crate::specs::Declaring::checks))]
pub(crate) fn checks(
    alloc: Global,
    known: &AdtTable,
    items: &[Item],
) -> Result<Vec<Check>, NoMemory>
    requires { known.now ≡ heads items.now }
    ensures { IfOk result (λ v. v.items ≡ checks items.now) }
{
    let mut made = Vec::new(alloc);
    let mut types = Vec::new(alloc);
    let mut values = Vec::new(alloc);
    let mut number = first_number(alloc, items)?;
    for item in items {
        add_item(
            alloc,
            known,
            number,
            types.as_slice(),
            values.as_slice(),
            item,
            &mut made,
        )?;
        push_some(&mut types, named(type_name(item)))?;
        push_some(&mut values, named(value_name(item)))?;
        number = next_number(number, item)?;
    }
    Ok(made)
}
