use crate::texts::{push_tree, push_value};
use crate::typing::are_patterns;
use logic_term::{AdtDecl, Ty, TypedPat};
use pat_check::{missing, tree};
use std::alloc::Global;
use text_core::NoMemory;

/// The missing value as a text, `none` where nothing is missing; `no patterns` where the arms are none of the type.
pub fn missing_text(
    alloc: Global,
    decls: &[AdtDecl],
    arms: &[TypedPat],
    t: &Ty,
) -> Result<String, NoMemory> {
    let mut out = String::new(alloc);
    if !are_patterns(alloc, decls, arms, t)? {
        out.push_str("no patterns")?;
        return Ok(out);
    }
    match missing(alloc, arms, t, decls)? {
        None => out.push_str("none")?,
        Some(value) => push_value(alloc, &mut out, &value)?,
    }
    Ok(out)
}

/// The tree as a text; `missing` where a value is missing, and `no patterns` where the arms are none of the type.
pub fn tree_text(
    alloc: Global,
    decls: &[AdtDecl],
    arms: &[TypedPat],
    t: &Ty,
) -> Result<String, NoMemory> {
    let mut out = String::new(alloc);
    if !are_patterns(alloc, decls, arms, t)? {
        out.push_str("no patterns")?;
        return Ok(out);
    }
    match missing(alloc, arms, t, decls)? {
        Some(_) => out.push_str("missing")?,
        None => {
            let tree = tree(alloc, arms, t, decls)?;
            push_tree(alloc, &mut out, &tree)?;
        }
    }
    Ok(out)
}
