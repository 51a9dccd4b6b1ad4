//! Lowering of functions.
ghost use Rattle.std.specs.Prelude.{◌≡◌, ◌+◌, ◌≤◌, ◌<◌, ◌^◌, ◌∷◌, None, length, map, OnOk, IfOk, IfErr, slice_get};
ghost use Rattle.text_core.specs.Names.{text_of};
ghost use Rattle.std.specs.Option.{option_copied};
ghost use Rattle.type_check.specs.FirstBad.{bad_in};
ghost use Rattle.type_check.specs.WellTyped.{FunctionFits, signatures};
ghost use Rattle.mir_build.specs.Lowering.{called, calls_of, counted, whole, local_name, types_of_call, LowersTo};
ghost use Rattle.mir_build.specs.Numbered.{body_text, labels};
ghost use Rattle.mir_build.specs.Reach.{reach};
ghost use Rattle.mir_build.specs.Built.{written, around};
ghost use Rattle.mir_build.specs.Whole.{built, body_of, FailsFor};
ghost use Rattle.mir_build.specs.declared.stop.Stop.TheVariants.{Blocks};

use crate::around::{Around, local_name};
use crate::block_end::BlockEnd;
use crate::builder::{BodyText, Builder, MOST_BLOCKS, whole};
use crate::expression::{lower_into, lower_rest};
use crate::operand::value_span;
use crate::stop::Stop;
use logic_term::{Label, Ty};
use mir_ir::{
    Block, Body, Callee, FnId, Initialised, Place, Signature as CallSignature, Terminator,
    TerminatorKind,
};
use rs_types::CopyTypes;
use std::alloc::Global;
use text_core::{Items, Limit, LimitKind, Name, Names, NoMemory, PassError, Text};
use type_check::{Signature, TypedExpr, TypedFunction, TypedNode};

/// The places of the parameters. Want of memory is answered too where a number would pass 32 bits.
fn parameter_places(alloc: Global, params: &[Ty]) -> Result<Vec<Place>, NoMemory>
    ensures places { IfOk result (λ v. v.items ≡ map whole (counted 1 params.now)) }
    ensures count { IfOk result (λ v. length v.items ≡ length params.now) }
{
    let mut all = Vec::new(alloc);
    let mut local: u32 = 1;
    for _ty in params {
        all.push(whole(alloc, local))?;
        local = local.checked_add(1).ok_or(NoMemory)?;
    }
    Ok(all)
}

/// The names of so many locals. Want of memory is answered too where a number would pass 32 bits.
fn local_names(alloc: Global, locals: &[Ty]) -> Result<Items<Name>, NoMemory>
    ensures named { IfOk result (λ v. v ≡ map local_name (counted 0 locals.now)) }
    ensures few { OnOk result (length locals.now < 2 ^ 32) }
{
    let mut all = Items::new(alloc);
    let mut local: u32 = 0;
    for _ty in locals {
        all.push(local_name(local))?;
        local = local.checked_add(1).ok_or(NoMemory)?;
    }
    Ok(all)
}

/// The types of the answer and the parameters.
fn first_locals(alloc: Global, signature: &Signature) -> Result<Items<Ty>, NoMemory>
    ensures { IfOk result (λ v. v ≡ signature.now.answer ∷ signature.now.params) }
{
    let mut all = Items::new(alloc);
    all.push(signature.answer.copy(alloc)?)?;
    for ty in signature.params.as_slice() {
        all.push(ty.copy(alloc)?)?;
    }
    Ok(all)
}

/// Writes the value of a body to local 0. Its outermost block ends no binding.
fn lower_outermost(
    alloc: Global,
    b: &mut Builder,
    c: &mut Around<'_>,
    e: &TypedExpr,
) -> Result<(), Stop>
    requires scope { reach e.now ≤ length c.old.scope.items }
    requires good { bad_in e.now ≡ None }
    ensures text { OnOk result (b.new.text ≡ written (body_text e.now (around c.old) b.old.labels (length b.old.text.locals)) b.old.text) }
    ensures labels { OnOk result (b.new.labels ≡ b.old.labels + labels e.now) }
    ensures limit { IfErr result (λ stop. stop ≡ Blocks → 4096 < b.old.labels + labels e.now) }
    ensures most { OnOk result (b.old.labels ≤ 4096 → b.new.labels ≤ 4096) }
{
    match &*e.node {
        TypedNode::Block(ss) => lower_rest(alloc, b, c, true, e.span, ss, BlockEnd::Unit, 0),
        TypedNode::BlockWith(ss, last) => {
            lower_rest(alloc, b, c, true, e.span, ss, BlockEnd::Value(last), 0)
        }
        TypedNode::BlockLeaving(ss, last) => {
            lower_rest(alloc, b, c, true, e.span, ss, BlockEnd::Leaves(last), 0)
        }
        _ => lower_into(alloc, b, c, e, 0),
    }
}

/// The text of a function's body.
fn lower_text(alloc: Global, types: &CopyTypes, f: &TypedFunction) -> Result<BodyText, Stop>
    requires scope { reach f.now.body ≤ length f.now.signature.params }
    requires good { bad_in f.now.body ≡ None }
    ensures text { IfOk result (λ x. x ≡ built types.now f.now) }
    ensures few { OnOk result (1 + labels f.now.body ≤ 4096) }
    ensures limit { IfErr result (λ stop. stop ≡ Blocks → 4096 < 1 + labels f.now.body) }
{
    let locals = first_locals(alloc, &f.signature)?;
    let scope = parameter_places(alloc, f.signature.params.as_slice())?;
    let mut c = Around {
        types,
        scope,
        loops: Vec::new(alloc),
    };
    let mut b = Builder {
        text: BodyText::start(alloc, Label(0), locals),
        labels: 1,
    };
    lower_outermost(alloc, &mut b, &mut c, &f.body)?;
    let Builder { text, labels: _ } = b;
    Ok(text)
}

/// The types of the function of the number; `None` where there is none.
fn signature_at(functions: &[TypedFunction], number: u32) -> Option<&Signature>
    ensures { option_copied result ≡ slice_get (signatures functions.now) number }
{
    Some(&functions.get(number as usize)?.signature)
}

/// The types, as calls look them up.
fn types_of_call(alloc: Global, signature: &Signature) -> Result<CallSignature, NoMemory>
    ensures { IfOk result (λ s. s ≡ types_of_call signature.now) }
{
    let mut params = Items::new(alloc);
    for ty in signature.params.as_slice() {
        params.push(ty.copy(alloc)?)?;
    }
    Ok(CallSignature {
        params,
        result: signature.answer.copy(alloc)?,
        outlives: Items::new(alloc),
    })
}

/// The types of the function that a block's end calls; `None` where it calls none.
fn called(
    alloc: Global,
    functions: &[TypedFunction],
    end: &TerminatorKind,
) -> Result<Option<CallSignature>, NoMemory>
    ensures { IfOk result (λ s. s ≡ called (signatures functions.now) end.now) }
{
    let TerminatorKind::Call(_, Callee::Function(FnId::Body(number)), _, _, _) = end else {
        return Ok(None);
    };
    match signature_at(functions, *number) {
        None => Ok(None),
        Some(signature) => Ok(Some(types_of_call(alloc, signature)?)),
    }
}

/// The calls of blocks, with the types of what they call.
fn calls_of(
    alloc: Global,
    functions: &[TypedFunction],
    blocks: &[(Label, Block)],
) -> Result<Items<(Label, CallSignature)>, NoMemory>
    ensures { IfOk result (λ v. v ≡ calls_of (signatures functions.now) blocks.now) }
{
    let mut all = Items::new(alloc);
    for block in blocks {
        if let Some(signature) = called(alloc, functions, &block.1.end.kind)? {
            all.push((block.0, signature))?;
        }
    }
    Ok(all)
}

/// The body of what is built, and what may be gone in it. Want of memory is answered too where a number would pass 32 bits.
fn finish(
    alloc: Global,
    functions: &[TypedFunction],
    id: u32,
    owner: Text,
    f: &TypedFunction,
    text: BodyText,
) -> Result<(Body, Initialised), NoMemory>
    ensures body { IfOk result (λ r. r.0 ≡ body_of (signatures functions.now) id owner f.now text) }
    ensures gone { IfOk result (λ r. r.1 ≡ record { gone = text.gone }) }
    ensures few { OnOk result (length text.locals < 2 ^ 32) }
{
    let end = Terminator {
        span: value_span(&f.body),
        kind: TerminatorKind::Return,
    };
    let mut text = text;
    text.leave(end)?;
    let BodyText {
        blocks,
        front: _,
        locals,
        gone,
    } = text;
    let Ok(params) = u32::try_from(f.signature.params.len()) else {
        return Err(NoMemory);
    };
    let names = local_names(alloc, locals.as_slice())?;
    let calls = calls_of(alloc, functions, blocks.as_slice())?;
    let body = Body {
        id,
        owner,
        types: Items::new(alloc),
        params,
        locals,
        names,
        outlives: Items::new(alloc),
        calls,
        entry: Label(0),
        blocks,
        span: f.span,
        types_at: Items::from_slice(alloc, f.types_at.as_slice())?,
    };
    Ok((body, Initialised { gone }))
}

fn refused(stop: Stop) -> PassError
    ensures { FailsFor (stop ≡ Blocks) result }
{
    match stop {
        Stop::NoMemory => PassError::NoMemory,
        Stop::Blocks => PassError::Limit(Limit {
            kind: LimitKind::Blocks,
            counted: MOST_BLOCKS as u64 + 1,
            bound: MOST_BLOCKS as u64,
        }),
    }
}

/// The body of the function of the number, and what may be gone in it. Want of memory is answered too where the function's name has
/// no text.
pub(crate) fn lower_function(
    alloc: Global,
    names: &Names,
    functions: &[TypedFunction],
    types: &CopyTypes,
    id: u32,
    f: &TypedFunction,
) -> Result<(Body, Initialised), PassError>
    requires scope { reach f.now.body ≤ length f.now.signature.params }
    requires good { bad_in f.now.body ≡ None }
    ensures named { IfOk result (λ r. text_of names.now f.now.name ≡ Some r.0.owner) }
    ensures lowered { IfOk result (λ r. FunctionFits types.now (signatures functions.now) f.now → LowersTo types.now (signatures functions.now) r.0.owner f.now r.0 r.1) }
    ensures numbered { IfOk result (λ r. r.0.id ≡ id) }
    ensures few { IfOk result (λ r. length r.0.blocks ≤ 4096) }
    ensures limit { IfErr result (FailsFor (4096 < 1 + labels f.now.body)) }
{
    let Some(owner) = names.text(f.name) else {
        return Err(PassError::NoMemory);
    };
    let owner = Text::from_bytes(alloc, owner.as_bytes())?;
    match lower_text(alloc, types, f) {
        Err(stop) => Err(refused(stop)),
        Ok(text) => Ok(finish(alloc, functions, id, owner, f, text)?),
    }
}
