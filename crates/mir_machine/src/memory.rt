ghost use Rattle.std.specs.Prelude.{◌≡◌, ◌≢◌, ◌∷◌, [], Err, IfOk, slice_get};
ghost use Rattle.mir_machine.specs.Halt.{Comes};
ghost use Rattle.mir_machine.specs.Memory.{child, tree_in, put_in, frame_at, tree_at, put_at, down, onward, spot_of};
ghost use Rattle.mir_ir.specs.declared.place.Proj.TheVariants.{Deref};
ghost use Rattle.mir_machine.specs.Places.{tree_in_list, put_in_list, put_in_frame, in_variant};
ghost use Rattle.mir_machine.specs.Taken.{statement_of};
ghost use Rattle.mir_machine.specs.Try.{need};
ghost use Rattle.mir_machine.specs.TreeView.{pointer_of};

use crate::frame::{Frame, State};
use crate::halt::Halt;
use crate::spot::Spot;
use crate::tree::{PointerTree, Tree, TreeNode};
use logic_term::Ctor;
use mir_ir::{Place, Proj};
use std::alloc::Global;
use std::mem;
use text_core::{Items, NoMemory};

/// Tree n of a list.
pub fn nth(trees: &[Tree], n: u32) -> Result<&Tree, Halt>
    ensures tree { Comes result (need (slice_get trees.now n)) (λ t. t.now) }
    ensures memory { result ≢ Err Halt.NoMemory }
{
    trees.get(n as usize).ok_or(Halt::Stuck)
}

/// Child n of a tree.
fn child(tree: &Tree, n: u32) -> Result<&Tree, Halt>
    ensures child { Comes result (child tree.now n) (λ t. t.now) }
    ensures memory { result ≢ Err Halt.NoMemory }
{
    match &tree.node {
        TreeNode::Made(_, parts) => nth(parts, n),
        TreeNode::Pointer(pointer) => child_of_pointer(pointer, n),
        _ => Err(Halt::Stuck),
    }
}

fn child_of_pointer(pointer: &PointerTree, n: u32) -> Result<&Tree, Halt>
    ensures child { Comes result (child (pointer_of pointer.now) n) (λ t. t.now) }
    ensures memory { result ≢ Err Halt.NoMemory }
{
    match pointer {
        PointerTree::Boxed(inner) if n == 0 => Ok(inner),
        _ => Err(Halt::Stuck),
    }
}

/// The tree at the end of a path of child numbers.
fn tree_in<'a>(tree: &'a Tree, path: &[u32]) -> Result<&'a Tree, Halt>
    ensures tree { Comes result (tree_in path.now tree.now) (λ t. t.now) }
    ensures memory { result ≢ Err Halt.NoMemory }
{
    let mut here = tree;
    for n in path {
        here = child(here, *n)?;
    }
    Ok(here)
}

/// Puts the tree at the end of a path of child numbers, and answers the one that stood there.
#[cycle(put)]
fn put_in(here: &mut Tree, path: &[u32], tree: Tree) -> Result<Tree, Halt>
    ensures old { Comes result (tree_in path.now here.old) (λ t. t) }
    ensures new { Comes result (put_in path.now tree here.old) (λ _. here.new) }
    ensures memory { result ≢ Err Halt.NoMemory }
{
    let Some((n, rest)) = path.split_first() else {
        return Ok(mem::replace(here, tree));
    };
    match &mut here.node {
        TreeNode::Made(_, parts) => put_in_list(parts, *n, rest, tree),
        TreeNode::Pointer(pointer) => put_in_pointer(pointer, *n, rest, tree),
        _ => Err(Halt::Stuck),
    }
}

/// Puts the tree at the end of a path from tree n of the list, and answers the one that stood there.
#[cycle(put)]
fn put_in_list(trees: &mut Vec<Tree>, n: u32, path: &[u32], tree: Tree) -> Result<Tree, Halt>
    ensures old { Comes result (tree_in_list trees.old.items n path.now) (λ t. t) }
    ensures new { Comes result (put_in_list trees.old.items n path.now tree) (λ _. trees.new.items) }
    ensures memory { result ≢ Err Halt.NoMemory }
{
    let at = n as usize;
    if at >= trees.len() {
        return Err(Halt::Stuck);
    }
    put_in(&mut trees[at], path, tree)
}

#[cycle(put)]
fn put_in_pointer(pointer: &mut PointerTree, n: u32, path: &[u32], tree: Tree) -> Result<Tree, Halt>
    ensures old { Comes result (tree_in (n ∷ path.now) (pointer_of pointer.old)) (λ t. t) }
    ensures new { Comes result (put_in (n ∷ path.now) tree (pointer_of pointer.old)) (λ _. pointer_of pointer.new) }
    ensures memory { result ≢ Err Halt.NoMemory }
{
    match pointer {
        PointerTree::Boxed(inner) if n == 0 => put_in(inner, path, tree),
        _ => Err(Halt::Stuck),
    }
}

fn nth_frame(frames: &[Frame], n: u64) -> Result<&Frame, Halt>
    ensures frame { Comes result (need (slice_get frames.now n)) (λ f. f.now) }
    ensures memory { result ≢ Err Halt.NoMemory }
{
    frames.get(n as usize).ok_or(Halt::Stuck)
}

/// The frame of the number.
fn frame_at(state: &State, n: u64) -> Result<&Frame, Halt>
    ensures frame { Comes result (frame_at state.now n) (λ f. f.now) }
    ensures memory { result ≢ Err Halt.NoMemory }
{
    if n == state.behind.len() as u64 {
        return Ok(&state.running);
    }
    nth_frame(&state.behind, n)
}

/// The tree at the spot.
pub fn tree_at<'a>(state: &'a State, at: &Spot) -> Result<&'a Tree, Halt>
    ensures tree { Comes result (tree_at state.now at.now) (λ t. t.now) }
    ensures memory { result ≢ Err Halt.NoMemory }
{
    let frame = frame_at(state, at.frame)?;
    let local = nth(&frame.locals, at.local)?;
    tree_in(local, at.path.as_slice())
}

/// Puts the tree at the end of a path from a local of the frame, and answers the one that stood there.
fn put_in_frame(frame: &mut Frame, at: &Spot, tree: Tree) -> Result<Tree, Halt>
    ensures old { Comes result (tree_in_list frame.old.locals at.now.local at.now.path) (λ t. t) }
    ensures new { Comes result (put_in_frame frame.old at.now tree) (λ _. frame.new) }
    ensures stays { frame.new.statement ≡ frame.old.statement }
    ensures memory { result ≢ Err Halt.NoMemory }
{
    put_in_list(&mut frame.locals, at.local, at.path.as_slice(), tree)
}

/// Puts the tree at the spot, and answers the one that stood there.
pub fn put_at(state: &mut State, at: &Spot, tree: Tree) -> Result<Tree, Halt>
    ensures old { Comes result (tree_at state.old at.now) (λ t. t) }
    ensures new { Comes result (put_at state.old at.now tree) (λ _. state.new) }
    ensures stays { statement_of state.new ≡ statement_of state.old }
    ensures memory { result ≢ Err Halt.NoMemory }
{
    let count = state.behind.len();
    let number = at.frame as usize;
    if number == count {
        return put_in_frame(&mut state.running, at, tree);
    }
    if number > count {
        return Err(Halt::Stuck);
    }
    put_in_frame(&mut state.behind[number], at, tree)
}

/// Child n of the spot.
fn down(at: Spot, n: u32) -> Result<Spot, NoMemory>
    ensures { IfOk result (λ spot. spot ≡ down at n) }
{
    let Spot {
        frame,
        local,
        mut path,
    } = at;
    path.push(n)?;
    Ok(Spot { frame, local, path })
}

/// Where a place goes on from what points at the spot.
fn pointee(alloc: Global, pointer: &PointerTree, at: Spot) -> Result<Spot, Halt>
    ensures { Comes result (onward (pointer_of pointer.now) at Deref) (λ spot. spot) }
{
    match pointer {
        PointerTree::Boxed(_) => Ok(down(at, 0)?),
        PointerTree::Shared(to) => Ok(to.copy(alloc)?),
        PointerTree::Unique(to) => Ok(to.copy(alloc)?),
    }
}

/// The spot itself, where the variant is this one.
fn in_variant(ctor: Ctor, at: Spot, n: u32) -> Result<Spot, Halt>
    ensures { Comes result (in_variant ctor at n) (λ spot. spot) }
{
    match ctor {
        Ctor::Variant(_, variant) if variant == n => Ok(at),
        _ => Err(Halt::Stuck),
    }
}

/// Where the next part of a place is, from the tree at the spot.
fn onward(alloc: Global, tree: &Tree, at: Spot, part: Proj) -> Result<Spot, Halt>
    ensures { Comes result (onward tree.now at part) (λ spot. spot) }
{
    match (&tree.node, part) {
        (TreeNode::Made(_, _), Proj::Field(n)) => Ok(down(at, n)?),
        (TreeNode::Made(ctor, _), Proj::Variant(n)) => in_variant(*ctor, at, n),
        (TreeNode::Pointer(pointer), Proj::Deref) => pointee(alloc, pointer, at),
        _ => Err(Halt::Stuck),
    }
}

/// The spot of a place of the running frame.
pub fn spot_of(alloc: Global, state: &State, place: &Place) -> Result<Spot, Halt>
    ensures { Comes result (spot_of state.now place.now) (λ spot. spot) }
{
    let mut at = Spot {
        frame: state.behind.len() as u64,
        local: place.local,
        path: Items::new(alloc),
    };
    for part in place.path.as_slice() {
        let tree = tree_at(state, &at)?;
        at = onward(alloc, tree, at, *part)?;
    }
    Ok(at)
}
