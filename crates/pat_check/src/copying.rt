ghost use Rattle.std.specs.Prelude.{◌≡◌, IfOk};

use logic_term::{PatNode, TypedPat};
use std::alloc::Global;
use text_core::NoMemory;

/// A copy of the pattern.
#[cycle(copied)]
pub fn copied(alloc: Global, pattern: &TypedPat) -> Result<TypedPat, NoMemory>
    ensures { IfOk result (λ p. p ≡ pattern.now) }
{
    let ty = pattern.ty.copy(alloc)?;
    let node = match &*pattern.node {
        PatNode::Wild => PatNode::Wild,
        PatNode::Bound(name, kind) => PatNode::Bound(*name, *kind),
        PatNode::Literal(kind, z) => PatNode::Literal(*kind, *z),
        PatNode::Truth(b) => PatNode::Truth(*b),
        PatNode::Made(ctor, parts) => PatNode::Made(*ctor, copied_all(alloc, parts)?),
    };
    let node = Box::new(alloc, node)?;
    Ok(TypedPat { ty, node })
}

#[cycle(copied)]
#[tactic(auto, using(logic_term::specs::PatternFalls::each_smaller))]
fn copied_all(alloc: Global, parts: &[TypedPat]) -> Result<Vec<TypedPat>, NoMemory>
    ensures { IfOk result (λ v. v.items ≡ parts.now) }
{
    let mut all = Vec::with_capacity(alloc, parts.len())?;
    for i in 0..parts.len() {
        all.push(copied(alloc, &parts[i])?)?;
    }
    Ok(all)
}
