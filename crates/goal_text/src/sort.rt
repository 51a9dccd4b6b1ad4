//! Sorts as text.
ghost use Rattle.std.specs.Prelude.{◌≡◌, ◌++◌, codes, flat_map, IfOk, OnOk};
ghost use Rattle.logic_term.specs.TyView.{compound_of, made_by, tys_of};
ghost use Rattle.goal_text.specs.SortText.{arguments_text, commas, sort_text, sort_texts, suffix};
ghost use Rattle.goal_text.specs.SpellingView.{spelling_of};

use crate::piece::{kind_bytes, push_numbered, push_text, tuple_end_bytes};
use crate::spelling::{Spelling, push_adt};
use logic_term::{CompoundTy, Sort, Ty, TyNode, TyUnary};
use std::alloc::Global;
use text_core::NoMemory;

/// What follows the digits of a literal of the sort.
pub(crate) fn suffix_bytes(sort: &Sort) -> &'static [u8]
    ensures { result.now ≡ suffix sort.now }
{
    match &sort.node {
        TyNode::Int(kind) => kind_bytes(*kind),
        _ => b"",
    }
}

/// The sort as text, as it stands in goals. Its one error is want of memory.
pub fn sort_bytes(alloc: Global, spelling: &Spelling<'_>, sort: &Sort) -> Result<Vec<u8>, NoMemory>
    ensures { IfOk result (λ text. text.items ≡ sort_text (spelling_of spelling.now) sort.now) }
{
    let mut out = Vec::new(alloc);
    push_sort(alloc, &mut out, spelling, sort)?;
    Ok(out)
}

#[cycle(push_sort)]
pub(crate) fn push_sort(
    alloc: Global,
    out: &mut Vec<u8>,
    spelling: &Spelling<'_>,
    sort: &Sort,
) -> Result<(), NoMemory>
    ensures { OnOk result (out.new.items ≡ out.old.items ++ sort_text (spelling_of spelling.now) sort.now) }
{
    match &sort.node {
        TyNode::Int(kind) => push_text(out, kind_bytes(*kind)),
        TyNode::Bool => push_text(out, b"bool"),
        TyNode::MathInt => push_text(out, b"Int"),
        TyNode::Tuple(parts) => {
            push_sorts(
                alloc,
                out,
                spelling,
                b"(",
                parts,
                tuple_end_bytes(parts.len()),
            )
        }
        TyNode::Param(number) => push_numbered(alloc, out, b"param", *number as u64),
        TyNode::Compound(parts) => push_compound(alloc, out, spelling, parts),
    }
}

#[cycle(push_sort)]
fn push_compound(
    alloc: Global,
    out: &mut Vec<u8>,
    spelling: &Spelling<'_>,
    sort: &CompoundTy,
) -> Result<(), NoMemory>
    ensures { OnOk result (out.new.items ≡ out.old.items ++ sort_text (spelling_of spelling.now) (compound_of sort.now)) }
{
    match sort {
        CompoundTy::Adt(adt, _, types) => {
            push_adt(out, spelling, *adt)?;
            push_arguments(alloc, out, spelling, types)
        }
        CompoundTy::Unary(op, t) => push_unary(alloc, out, spelling, *op, t),
        CompoundTy::Closure(number, types, captures, _) => {
            push_numbered(alloc, out, b"closure", *number as u64)?;
            push_sorts(alloc, out, spelling, b"<", types, b">")?;
            push_sorts(alloc, out, spelling, b"(", captures, b")")
        }
    }
}

/// `Box<A>`, `&A` and the like.
#[cycle(push_sort)]
fn push_unary(
    alloc: Global,
    out: &mut Vec<u8>,
    spelling: &Spelling<'_>,
    op: TyUnary,
    sort: &Sort,
) -> Result<(), NoMemory>
    ensures { OnOk result (out.new.items ≡ out.old.items ++ sort_text (spelling_of spelling.now) (made_by op sort.now)) }
{
    match op {
        TyUnary::Boxed => push_argument(alloc, out, spelling, b"Box<", sort),
        TyUnary::Shared(_) => {
            push_text(out, b"&")?;
            push_sort(alloc, out, spelling, sort)
        }
        TyUnary::Unique(_) => {
            push_text(out, b"&mut ")?;
            push_sort(alloc, out, spelling, sort)
        }
        TyUnary::View => push_argument(alloc, out, spelling, b"View<", sort),
        TyUnary::Snapshot => push_argument(alloc, out, spelling, b"Snapshot<", sort),
    }
}

/// `Word<A>`, where the word has the bracket.
#[cycle(push_sort)]
fn push_argument(
    alloc: Global,
    out: &mut Vec<u8>,
    spelling: &Spelling<'_>,
    word: &[u8],
    argument: &Sort,
) -> Result<(), NoMemory>
    ensures { OnOk result (out.new.items ≡ out.old.items ++ (word.now ++ sort_text (spelling_of spelling.now) argument.now ++ codes ">")) }
{
    push_text(out, word)?;
    push_sort(alloc, out, spelling, argument)?;
    push_text(out, b">")
}

/// `<A, B>`, where there is any.
#[cycle(push_sort)]
fn push_arguments(
    alloc: Global,
    out: &mut Vec<u8>,
    spelling: &Spelling<'_>,
    types: &[Ty],
) -> Result<(), NoMemory>
    ensures { OnOk result (out.new.items ≡ out.old.items ++ arguments_text (sort_texts (spelling_of spelling.now) (tys_of types.now))) }
{
    if types.is_empty() {
        return Ok(());
    }
    push_sorts(alloc, out, spelling, b"<", types, b">")
}

/// `A, B` between two words.
#[cycle(push_sort)]
fn push_sorts(
    alloc: Global,
    out: &mut Vec<u8>,
    spelling: &Spelling<'_>,
    before: &[u8],
    sorts: &[Ty],
    after: &[u8],
) -> Result<(), NoMemory>
    ensures { OnOk result (out.new.items ≡ out.old.items ++ (before.now ++ commas (sort_texts (spelling_of spelling.now) (tys_of sorts.now)) ++ after.now)) }
{
    push_text(out, before)?;
    push_listed_sorts(alloc, out, spelling, sorts)?;
    push_text(out, after)
}

/// `A, B`
#[cycle(push_sort)]
fn push_listed_sorts(
    alloc: Global,
    out: &mut Vec<u8>,
    spelling: &Spelling<'_>,
    sorts: &[Ty],
) -> Result<(), NoMemory>
    ensures { OnOk result (out.new.items ≡ out.old.items ++ commas (sort_texts (spelling_of spelling.now) (tys_of sorts.now))) }
{
    let Some((first, others)) = sorts.split_first() else {
        return Ok(());
    };
    push_sort(alloc, out, spelling, first)?;
    push_other_sorts(alloc, out, spelling, others)
}

/// The sorts after the first, each after a comma.
#[cycle(push_sort)]
#[tactic(auto, using(logic_term::specs::TyFalls::each_smaller))]
fn push_other_sorts(
    alloc: Global,
    out: &mut Vec<u8>,
    spelling: &Spelling<'_>,
    others: &[Ty],
) -> Result<(), NoMemory>
    ensures { OnOk result (out.new.items ≡ out.old.items ++ flat_map (λ t. codes ", " ++ sort_text (spelling_of spelling.now) t) others.now) }
{
    for i in 0..others.len() {
        push_text(out, b", ")?;
        push_sort(alloc, out, spelling, &others[i])?;
    }
    Ok(())
}
