ghost use Rattle.std.specs.Prelude.{◌≡◌, ◌∷◌, [], ◌++◌, IfOk, reverse, length, slice_get};
ghost use Rattle.pat_check.specs.DecisionView.{decisions_of};
ghost use Rattle.pat_check.specs.Tasks.{Joins};
ghost use Rattle.pat_check.specs.Tree.{IsNode, is_struct, node_of_adt};
ghost use Rattle.pat_check.specs.declared.test.Test.TheVariants as by;

use crate::decision::{Decision, DecisionNode};
use crate::test::Test;
use logic_term::{AdtDecl, AdtId, Ctor, PatPath};
use source_kinds::IntKind;
use std::alloc::Global;
use text_core::NoMemory;

/// Whether the type is declared as a struct.
fn is_struct(decls: &[AdtDecl], adt: AdtId) -> bool
    ensures { result ≡ is_struct decls.now adt }
{
    match decls.get(adt.0 as usize) {
        None => false,
        Some(decl) => decl.is_struct,
    }
}

/// The tree, where it is the only one. A test has as many trees as it has branches, so nothing else comes here.
fn only(trees: Vec<Decision>) -> Result<Decision, NoMemory>
    ensures { IfOk result (λ d. trees.items ≡ d ∷ []) }
{
    let mut trees = trees;
    if trees.len() != 1 {
        return Err(NoMemory);
    }
    trees.pop().ok_or(NoMemory)
}

/// Both trees, where there are two, and nothing else comes here.
fn both(trees: Vec<Decision>) -> Result<(Decision, Decision), NoMemory>
    ensures { IfOk result (λ d. trees.items ≡ d.0 ∷ d.1 ∷ []) }
{
    let mut trees = trees;
    if trees.len() != 2 {
        return Err(NoMemory);
    }
    let second = trees.pop().ok_or(NoMemory)?;
    let first = trees.pop().ok_or(NoMemory)?;
    Ok((first, second))
}

/// A struct is not tested, an enum by its variant.
fn adt_node(
    alloc: Global,
    decls: &[AdtDecl],
    path: PatPath,
    adt: AdtId,
    trees: Vec<Decision>,
) -> Result<Decision, NoMemory>
    ensures { IfOk result (λ d. d ≡ node_of_adt (is_struct decls.now adt) path trees.items) }
{
    if is_struct(decls, adt) && trees.len() == 1 {
        only(trees)
    } else {
        Decision::of(alloc, DecisionNode::Switch(path, trees))
    }
}

fn truth_node(alloc: Global, path: PatPath, trees: Vec<Decision>) -> Result<Decision, NoMemory>
    ensures { IfOk result (λ d. IsNode [] path by.Truth trees.items d) }
{
    let (on_true, on_false) = both(trees)?;
    Decision::of(alloc, DecisionNode::Truth(path, on_true, on_false))
}

/// Where all other integers are excluded, there is no test.
fn integer_node(
    alloc: Global,
    path: PatPath,
    kind: Option<IntKind>,
    z: i128,
    trees: Vec<Decision>,
) -> Result<Decision, NoMemory>
    ensures { IfOk result (λ d. IsNode [] path (by.Number kind z) trees.items d) }
{
    if trees.len() == 1 {
        return only(trees);
    }
    let (equal, others) = both(trees)?;
    Decision::of(alloc, DecisionNode::Literal(path, z, equal, others))
}

/// The tree of the test at that place, of the trees of its branches.
fn node(
    alloc: Global,
    decls: &[AdtDecl],
    path: PatPath,
    test: Test,
    trees: Vec<Decision>,
) -> Result<Decision, NoMemory>
    ensures { IfOk result (λ d. IsNode decls.now path test trees.items d) }
{
    match test {
        Test::Made(ctor, _) => match ctor {
            Ctor::Tuple => only(trees),
            Ctor::Variant(adt, _) => adt_node(alloc, decls, path, adt, trees),
            // No pattern of a type is one of closures.
            Ctor::Closure(_) => Err(NoMemory),
        },
        Test::Number(kind, z) => integer_node(alloc, path, kind, z, trees),
        Test::Truth => truth_node(alloc, path, trees),
    }
}

/// Takes so many trees off, the one on top first.
fn taken(alloc: Global, made: &mut Vec<Decision>, count: usize) -> Result<Vec<Decision>, NoMemory>
    ensures items { IfOk result (λ v. made.old.items ≡ made.new.items ++ reverse v.items) }
    ensures count { IfOk result (λ v. length v.items ≡ count) }
{
    let mut trees = Vec::with_capacity(alloc, count)?;
    for i in 0..count {
        let _ = i;
        trees.push(made.pop().ok_or(NoMemory)?)?;
    }
    Ok(trees)
}

/// Takes off the trees of the branches of the test, and puts on the tree of the test.
pub fn join(
    alloc: Global,
    decls: &[AdtDecl],
    path: PatPath,
    test: Test,
    count: usize,
    made: &mut Vec<Decision>,
) -> Result<(), NoMemory>
    ensures { IfOk result (λ done. Joins decls.now path test count made.old.items made.new.items) }
{
    let trees = taken(alloc, made, count)?;
    let tree = node(alloc, decls, path, test, trees)?;
    made.push(tree)?;
    Ok(())
}
