use logic_term::{Binding, Ctor, PatStep};
use pat_check::{Decision, DecisionNode, PatValue, PatValueNode};
use std::alloc::Global;
use text_core::NoMemory;

fn push_ctor(alloc: Global, out: &mut String, ctor: Ctor) -> Result<(), NoMemory> {
    match ctor {
        Ctor::Tuple => Ok(()),
        Ctor::Variant(adt, variant) => {
            let text = format!(in alloc; "{}.{}", adt.0, variant)?;
            Ok(out.push_str(text.as_str())?)
        }
        Ctor::Closure(_) => Ok(out.push_str("closure")?),
    }
}

/// Writes the value: `_` where it is open, and what is made of parts as `ADT.VARIANT(PARTS)`.
#[cycle(value)]
pub fn push_value(alloc: Global, out: &mut String, value: &PatValue) -> Result<(), NoMemory> {
    match &*value.node {
        PatValueNode::Any => Ok(out.push_str("_")?),
        PatValueNode::Int(z) => {
            let text = format!(in alloc; "{z}")?;
            Ok(out.push_str(text.as_str())?)
        }
        PatValueNode::Bool(b) => Ok(out.push_str(if *b { "true" } else { "false" })?),
        PatValueNode::Made(ctor, parts) => {
            push_ctor(alloc, out, *ctor)?;
            push_values(alloc, out, parts)
        }
    }
}

#[cycle(value)]
#[tactic(auto, using(pat_check::specs::PatValueFalls::each_smaller))]
fn push_values(alloc: Global, out: &mut String, values: &[PatValue]) -> Result<(), NoMemory> {
    out.push_str("(")?;
    for i in 0..values.len() {
        if i > 0 {
            out.push_str(", ")?;
        }
        push_value(alloc, out, &values[i])?;
    }
    Ok(out.push_str(")")?)
}

/// Writes the place as `VARIANT.FIELD` for each level.
fn push_path(alloc: Global, out: &mut String, path: &[PatStep]) -> Result<(), NoMemory> {
    for i in 0..path.len() {
        let step = path[i];
        let text = format!(in alloc; "/{}.{}", step.variant, step.field)?;
        out.push_str(text.as_str())?;
    }
    Ok(())
}

fn push_binding(alloc: Global, out: &mut String, binding: &Binding) -> Result<(), NoMemory> {
    let text = format!(in alloc; " {}=", binding.name.0)?;
    out.push_str(text.as_str())?;
    push_path(alloc, out, binding.path.as_slice())
}

fn push_leaf(
    alloc: Global,
    out: &mut String,
    arm: u32,
    bindings: &[Binding],
) -> Result<(), NoMemory> {
    let text = format!(in alloc; "{arm}")?;
    out.push_str(text.as_str())?;
    for i in 0..bindings.len() {
        push_binding(alloc, out, &bindings[i])?;
    }
    Ok(())
}

/// Writes the tree: a leaf as its arm and its bindings, a test in brackets with its place, and its branches behind it.
#[cycle(tree)]
pub fn push_tree(alloc: Global, out: &mut String, tree: &Decision) -> Result<(), NoMemory> {
    match &*tree.node {
        DecisionNode::Leaf(arm, bindings) => push_leaf(alloc, out, *arm, bindings.as_slice()),
        DecisionNode::Switch(path, branches) => {
            out.push_str("[switch ")?;
            push_path(alloc, out, path.as_slice())?;
            push_trees(alloc, out, branches)
        }
        DecisionNode::Truth(path, on_true, on_false) => {
            out.push_str("[if ")?;
            push_path(alloc, out, path.as_slice())?;
            push_both(alloc, out, on_true, on_false)
        }
        DecisionNode::Literal(path, z, equal, others) => {
            let text = format!(in alloc; "[{z} ")?;
            out.push_str(text.as_str())?;
            push_path(alloc, out, path.as_slice())?;
            push_both(alloc, out, equal, others)
        }
    }
}

#[cycle(tree)]
#[tactic(auto, using(pat_check::specs::DecisionFalls::each_smaller))]
fn push_trees(alloc: Global, out: &mut String, trees: &[Decision]) -> Result<(), NoMemory> {
    for i in 0..trees.len() {
        out.push_str(": ")?;
        push_tree(alloc, out, &trees[i])?;
    }
    Ok(out.push_str("]")?)
}

#[cycle(tree)]
fn push_both(
    alloc: Global,
    out: &mut String,
    first: &Decision,
    second: &Decision,
) -> Result<(), NoMemory> {
    out.push_str(": ")?;
    push_tree(alloc, out, first)?;
    out.push_str(": ")?;
    push_tree(alloc, out, second)?;
    Ok(out.push_str("]")?)
}
