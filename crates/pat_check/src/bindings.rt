ghost use Rattle.std.specs.Prelude.{◌≡◌, ◌∷◌, [], ◌++◌, IfOk};
ghost use Rattle.logic_term.specs.Matches.{bindings, bindings_from};
ghost use Rattle.logic_term.specs.PatternView.{pats_of};
ghost use Rattle.pat_check.specs.Tasks.{under};

use crate::finding::{counted, variant_number};
use logic_term::{Binding, PatNode, PatPath, PatStep, TypedPat};
use std::alloc::Global;
use text_core::{Items, NoMemory};

/// The path with one more step behind it.
fn extended(alloc: Global, path: &[PatStep], last: PatStep) -> Result<PatPath, NoMemory>
    ensures { IfOk result (λ p. p ≡ path.now ++ last ∷ []) }
{
    let mut all = Vec::from_slice(alloc, path)?;
    all.push(last)?;
    Ok(Items::from_vec(all))
}

/// Adds what the pattern binds, which stands at that place.
#[cycle(bindings)]
#[tactic(auto, using(crate::proofs::Binds::under_one))]
fn push_bindings(
    alloc: Global,
    pat: &TypedPat,
    path: &[PatStep],
    out: &mut Vec<Binding>,
) -> Result<(), NoMemory>
    ensures { IfOk result (λ done. out.new.items ≡ out.old.items ++ under path.now (bindings pat.now)) }
{
    match &*pat.node {
        PatNode::Bound(name, _) => {
            let path = Items::from_slice(alloc, path)?;
            out.push(Binding { name: *name, path })?;
            Ok(())
        }
        PatNode::Made(ctor, parts) => {
            push_all_bindings(alloc, variant_number(*ctor), parts, path, out)
        }
        PatNode::Wild => Ok(()),
        PatNode::Literal(_, _) => Ok(()),
        PatNode::Truth(_) => Ok(()),
    }
}

/// Adds what the parts bind of what stands at that place, and is of that variant.
#[cycle(bindings)]
#[tactic(auto, using(logic_term::specs::PatternFalls::each_smaller))]
fn push_all_bindings(
    alloc: Global,
    variant: u32,
    parts: &[TypedPat],
    path: &[PatStep],
    out: &mut Vec<Binding>,
) -> Result<(), NoMemory>
    ensures { IfOk result (λ done. out.new.items ≡ out.old.items ++ under path.now (bindings_from variant 0 (pats_of parts.now))) }
{
    for i in 0..parts.len() {
        let field = counted(i)?;
        let path = extended(alloc, path, PatStep { variant, field })?;
        push_bindings(alloc, &parts[i], path.as_slice(), out)?;
    }
    Ok(())
}

/// What the pattern binds, from left to right.
#[tactic(auto, using(crate::proofs::Binds::under_none))]
pub fn bindings(alloc: Global, pat: &TypedPat) -> Result<Items<Binding>, NoMemory>
    ensures { IfOk result (λ bs. bs ≡ bindings pat.now) }
{
    let mut out = Vec::new(alloc);
    push_bindings(alloc, pat, &[], &mut out)?;
    Ok(Items::from_vec(out))
}
