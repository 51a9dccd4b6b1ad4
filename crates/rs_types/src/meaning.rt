//! The type that a written type means.
ghost use Rattle.std.specs.Prelude.{◌≡◌, None, IfOk, slice_get};
ghost use Rattle.source_trees.specs.TypeTreeView.{types_of, type_arguments_of};
ghost use Rattle.text_core.specs.declared.fault.PassError.TheVariants as errors;
ghost use Rattle.rs_types.specs.Meant.{words, scope_of, Answers, place_among, if_known, type_named, lifetime_named, elided, all_elided, lifetime_or, alone, in_box, regions_for, declared_at, named_at, self_or, name_or, referring};
ghost use Rattle.rs_types.specs.Meant.{meant, meant_all, meant_arguments};

use crate::written::{ArgumentList, Elision, TypeName, TypeScope};
use logic_term::{AdtDecl, AdtId, CompoundTy, Region, Ty, TyNode, TyUnary};
use source_kinds::IntKind;
use source_trees::{Segment, TypeArgument, TypeNode, TypeTree};
use std::alloc::Global;
use text_core::{Code, Items, Name, NoMemory, PassError, SourceError, Span};

// ---- refusals

fn refused(code: Code, span: Span) -> PassError
    ensures { result ≡ errors.Source (record { code = code; span = span; other = None }) }
{
    PassError::Source(SourceError {
        code,
        span,
        other: None,
    })
}

// ---- names

/// The place of the name among the others, the first one.
#[tactic(auto, using(crate::proofs::PartByPart::place_on, crate::proofs::PartByPart::place_end))]
fn place_among(name: Name, names: &[Name]) -> Result<Option<u32>, NoMemory>
    ensures { IfOk result (λ place. place ≡ place_among name names.now) }
{
    for i in 0..names.len() {
        if names[i].0 == name.0 {
            let place = u32::try_from(i).map_err(|_| NoMemory)?;
            return Ok(Some(place));
        }
    }
    Ok(None)
}

/// The words of types, in the order of their names.
const WORDS: [TypeName; 13] = [
    TypeName::Int(IntKind::I8),
    TypeName::Int(IntKind::I16),
    TypeName::Int(IntKind::I32),
    TypeName::Int(IntKind::I64),
    TypeName::Int(IntKind::Isize),
    TypeName::Int(IntKind::U8),
    TypeName::Int(IntKind::U16),
    TypeName::Int(IntKind::U32),
    TypeName::Int(IntKind::U64),
    TypeName::Int(IntKind::Usize),
    TypeName::Bool,
    TypeName::MathInt,
    TypeName::Box,
];

fn word_at(words: &[TypeName], place: usize) -> Option<TypeName>
    ensures { result ≡ slice_get words.now place }
{
    words.get(place).copied()
}

/// The word of types that has this name.
pub fn word_of(name: Name) -> Option<TypeName>
    ensures { result ≡ slice_get words name.0 }
{
    word_at(&WORDS, name.0 as usize)
}

/// The word, but for `Int` where it is no type.
fn if_known(has_int: bool, word: Option<TypeName>) -> Option<TypeName>
    ensures { result ≡ if_known has_int word }
{
    match word {
        Some(TypeName::MathInt) if !has_int => None,
        _ => word,
    }
}

/// What the name of a type stands for: a type parameter, else a declared type, else a word.
#[tactic(auto, unfolding(crate::specs::Meant::type_named))]
fn type_named(scope: &TypeScope<'_>, name: Name) -> Result<Option<TypeName>, NoMemory>
    ensures { IfOk result (λ what. what ≡ type_named (scope_of scope.now) name) }
{
    if let Some(number) = place_among(name, scope.parameters)? {
        return Ok(Some(TypeName::Parameter(number)));
    }
    match scope.declared.find(name) {
        Some(id) => Ok(Some(TypeName::Declared(id))),
        None => Ok(if_known(scope.has_int, word_of(name))),
    }
}

// ---- lifetimes

/// The lifetime that is written.
#[tactic(auto, unfolding(crate::specs::Meant::lifetime_named))]
fn lifetime_named(scope: &TypeScope<'_>, lifetime: Segment) -> Result<Region, PassError>
    ensures { Answers result (lifetime_named (scope_of scope.now) lifetime) }
{
    match place_among(lifetime.name, scope.lifetimes)? {
        Some(number) => Ok(Region(number)),
        None => Err(refused(Code::E05, lifetime.span)),
    }
}

/// The lifetime that a type leaves out.
fn elided(elision: Elision, span: Span) -> Result<(Region, Elision), PassError>
    ensures { Answers result (elided elision span) }
{
    match elision {
        Elision::Refused => Err(refused(Code::E08, span)),
        Elision::Numbered(number) => {
            let next = number.checked_add(1).ok_or(NoMemory)?;
            Ok((Region(number), Elision::Numbered(next)))
        }
        Elision::Erased => Ok((Region(0), Elision::Erased)),
        Elision::Given(region) => Ok((region, Elision::Given(region))),
    }
}

/// So many lifetimes that a type leaves out.
#[tactic(auto, using(crate::proofs::PartByPart::first_elided, crate::proofs::PartByPart::one_elided, crate::proofs::PartByPart::elision_refused))]
fn all_elided(
    alloc: Global,
    count: u32,
    elision: Elision,
    span: Span,
) -> Result<(Items<Region>, Elision), PassError>
    ensures { Answers result (all_elided count elision span) }
{
    let mut regions = Items::new(alloc);
    let mut now = elision;
    let mut left = count;
    while left > 0 {
        let (region, next) = elided(now, span)?;
        regions.push(region)?;
        now = next;
        left -= 1;
    }
    Ok((regions, now))
}

/// The lifetime of a reference.
fn lifetime_or(
    scope: &TypeScope<'_>,
    elision: Elision,
    span: Span,
    lifetime: Option<Segment>,
) -> Result<(Region, Elision), PassError>
    ensures { Answers result (lifetime_or (scope_of scope.now) elision span lifetime) }
{
    match lifetime {
        None => elided(elision, span),
        Some(lifetime) => Ok((lifetime_named(scope, lifetime)?, elision)),
    }
}

// ---- names at arguments

/// A type that takes no arguments.
fn alone(span: Span, ty: Ty, given: &ArgumentList) -> Result<Ty, PassError>
    ensures { Answers result (alone span ty given.now) }
{
    if given.regions.len() == 0 && given.types.len() == 0 {
        return Ok(ty);
    }
    Err(refused(Code::E07, span))
}

/// `Box` at its arguments.
fn in_box(alloc: Global, span: Span, types: Items<Ty>) -> Result<Ty, PassError>
    ensures { Answers result (in_box span types) }
{
    let mut types = types;
    if types.len() != 1 {
        return Err(refused(Code::E07, span));
    }
    match types.pop() {
        Some(ty) => Ok(Ty::compound(alloc, CompoundTy::Unary(TyUnary::Boxed, ty))?),
        None => Err(refused(Code::E07, span)),
    }
}

/// The lifetimes of a declared type, which may all be left out.
fn regions_for(
    alloc: Global,
    decl: &AdtDecl,
    elision: Elision,
    span: Span,
    regions: Items<Region>,
) -> Result<(Items<Region>, Elision), PassError>
    ensures { Answers result (regions_for decl.now elision span regions) }
{
    if regions.len() == 0 {
        return all_elided(alloc, decl.regions, elision, span);
    }
    if regions.len() == decl.regions as usize {
        return Ok((regions, elision));
    }
    Err(refused(Code::E07, span))
}

/// A declared type at its arguments: E07 at the type where their numbers are not those that it takes.
fn declared_at(
    alloc: Global,
    scope: &TypeScope<'_>,
    id: AdtId,
    elision: Elision,
    span: Span,
    given: ArgumentList,
) -> Result<(Ty, Elision), PassError>
    ensures { Answers result (declared_at id (slice_get scope.now.declared.now id.0) elision span given) }
{
    let Some(decl) = scope.declared.decls().get(id.0 as usize) else {
        return Err(refused(Code::E07, span));
    };
    let ArgumentList { regions, types } = given;
    if types.len() != decl.params as usize {
        return Err(refused(Code::E07, span));
    }
    let (regions, next) = regions_for(alloc, decl, elision, span, regions)?;
    let parts = CompoundTy::Adt(id, regions.into_vec(), types.into_vec());
    Ok((Ty::compound(alloc, parts)?, next))
}

/// What the name stands for, at the arguments.
#[tactic(auto, unfolding(crate::specs::Meant::named_at))]
fn named_at(
    alloc: Global,
    scope: &TypeScope<'_>,
    span: Span,
    elision: Elision,
    what: TypeName,
    given: ArgumentList,
) -> Result<(Ty, Elision), PassError>
    ensures { Answers result (named_at (scope_of scope.now) span elision what given) }
{
    let ty = match what {
        TypeName::Declared(id) => return declared_at(alloc, scope, id, elision, span, given),
        TypeName::Box if given.regions.len() == 0 => in_box(alloc, span, given.types)?,
        TypeName::Box => return Err(refused(Code::E07, span)),
        TypeName::Parameter(number) => {
            let node = TyNode::Param(number);
            alone(span, Ty { node }, &given)?
        }
        TypeName::Int(kind) => alone(span, Ty::int(kind), &given)?,
        TypeName::Bool => alone(span, Ty::bool(), &given)?,
        TypeName::MathInt => alone(span, Ty::math_int(), &given)?,
    };
    Ok((ty, elision))
}

// ---- written types

/// The types, from the left.
#[cycle(meant)]
#[tactic(auto, using(crate::proofs::PartByPart::first_meant, crate::proofs::PartByPart::one_meant, crate::proofs::PartByPart::part_refused, crate::proofs::PartByPart::none_left))]
fn meant_all(
    alloc: Global,
    scope: &TypeScope<'_>,
    elision: Elision,
    written: &[TypeTree],
) -> Result<(Items<Ty>, Elision), PassError>
    ensures { Answers result (meant_all (scope_of scope.now) elision (types_of written.now)) }
{
    let mut types = Items::new(alloc);
    let mut now = elision;
    for i in 0..written.len() {
        let (ty, next) = meant(alloc, scope, now, &written[i])?;
        types.push(ty)?;
        now = next;
    }
    Ok((types, now))
}

/// The arguments, from the left.
#[cycle(meant)]
#[tactic(auto, using(crate::proofs::PartByPart::first_argument, crate::proofs::PartByPart::one_region, crate::proofs::PartByPart::region_refused, crate::proofs::PartByPart::one_type, crate::proofs::PartByPart::type_refused, crate::proofs::PartByPart::no_argument_left))]
fn meant_arguments(
    alloc: Global,
    scope: &TypeScope<'_>,
    elision: Elision,
    written: &[TypeArgument],
) -> Result<(ArgumentList, Elision), PassError>
    ensures { Answers result (meant_arguments (scope_of scope.now) elision (type_arguments_of written.now)) }
{
    let mut regions = Items::new(alloc);
    let mut types = Items::new(alloc);
    let mut now = elision;
    for i in 0..written.len() {
        match &written[i] {
            TypeArgument::Lifetime(lifetime) => regions.push(lifetime_named(scope, *lifetime)?)?,
            TypeArgument::Type(argument) => {
                let (ty, next) = meant(alloc, scope, now, argument)?;
                types.push(ty)?;
                now = next;
            }
        }
    }
    Ok((ArgumentList { regions, types }, now))
}

/// A reference to what is meant.
fn referring(alloc: Global, writes: bool, region: Region, ty: Ty) -> Result<Ty, NoMemory>
    ensures { IfOk result (λ t. t ≡ referring writes region ty) }
{
    let kind = if writes {
        TyUnary::Unique(region)
    } else {
        TyUnary::Shared(region)
    };
    Ty::compound(alloc, CompoundTy::Unary(kind, ty))
}

/// What `Self` is.
fn self_or(
    alloc: Global,
    span: Span,
    elision: Elision,
    ty: &Option<Ty>,
) -> Result<(Ty, Elision), PassError>
    ensures { Answers result (self_or span elision ty.now) }
{
    match ty {
        None => Err(refused(Code::E05, span)),
        Some(ty) => Ok((ty.copy(alloc)?, elision)),
    }
}

/// What the name of a type stands for; E05 at it where it stands for nothing.
fn name_or(scope: &TypeScope<'_>, name: Segment) -> Result<TypeName, PassError>
    ensures { Answers result (name_or name.span (type_named (scope_of scope.now) name.name)) }
{
    match type_named(scope, name.name)? {
        Some(what) => Ok(what),
        None => Err(refused(Code::E05, name.span)),
    }
}

/// The type that a written type means where it stands, and what a lifetime that is left out is from there on.
///
/// # Errors
///
/// `Source` with the first part that is refused, parts from the left before the whole: E05 at a name or a lifetime that is not in scope, E07 at
/// a type whose arguments are not as many as it takes, E08 at a type that leaves out a lifetime where none may be; `NoMemory`, also where a
/// number would pass 32 bits; never `Limit`.
#[cycle(meant)]
pub fn meant(
    alloc: Global,
    scope: &TypeScope<'_>,
    elision: Elision,
    written: &TypeTree,
) -> Result<(Ty, Elision), PassError>
    ensures { Answers result (meant (scope_of scope.now) elision written.now) }
{
    let span = written.span;
    match &*written.node {
        TypeNode::Named(name, arguments) => {
            let what = name_or(scope, *name)?;
            let (given, next) = meant_arguments(alloc, scope, elision, arguments)?;
            named_at(alloc, scope, span, next, what, given)
        }
        TypeNode::Tuple(parts) => {
            let (types, next) = meant_all(alloc, scope, elision, parts)?;
            let node = TyNode::Tuple(types.into_vec());
            Ok((Ty { node }, next))
        }
        TypeNode::Reference(lifetime, writes, target) => {
            let (region, inside) = lifetime_or(scope, elision, span, *lifetime)?;
            let (ty, next) = meant(alloc, scope, inside, target)?;
            Ok((referring(alloc, *writes, region, ty)?, next))
        }
        TypeNode::SelfType => self_or(alloc, span, elision, scope.self_ty),
        TypeNode::SelfView => Err(refused(Code::E05, span)),
    }
}
