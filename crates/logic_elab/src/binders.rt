//! What quantifiers bind. The code has the bound names around a term with the outermost first.
ghost use Rattle.std.specs.Prelude.{◌≡◌, ◌++◌, [], IfOk};
ghost use Rattle.logic_elab.specs.Answers.{Answers};
ghost use Rattle.logic_elab.specs.Binders.{apart, under_one, meant_under, inside, is_bound, symbol_after, symbols_of, bound_all};
ghost use Rattle.logic_term.specs.TermOperator.{quantifier};

use crate::refusal::double_name;
use crate::scope::Symbol;
use crate::written_sorts::written_sort;
use logic_term::{AdtDecl, Quantifier, Term};
use source_trees::Binder;
use std::alloc::Global;
use text_core::{Items, Name, NoMemory, PassError};

// ---- names under binders

/// What formulas speak of by another name.
fn apart(name: Name, symbol: Option<Symbol>) -> Option<Symbol>
    ensures { result ≡ apart name symbol }
{
    match symbol {
        None => None,
        Some(symbol) => {
            if symbol.name.0 == name.0 {
                None
            } else {
                Some(symbol)
            }
        }
    }
}

/// What the name means under the binder.
fn under_one(
    alloc: Global,
    name: Name,
    binder: &Symbol,
    around: Option<Symbol>,
) -> Result<Option<Symbol>, NoMemory>
    ensures { IfOk result (λ o. o ≡ under_one name binder.now around) }
{
    if name.0 == binder.name.0 {
        Ok(Some(binder.copy(alloc)?))
    } else {
        Ok(apart(binder.name, around))
    }
}

/// What the name means under these, by what it means outside of them.
#[tactic(auto, using(crate::proofs::Binding::from_outside))]
pub(crate) fn meant_under(
    alloc: Global,
    name: Name,
    bound: &[Symbol],
    outside: Option<Symbol>,
) -> Result<Option<Symbol>, NoMemory>
    ensures { IfOk result (λ o. o ≡ meant_under name (inside [] bound.now) outside) }
{
    let mut found = outside;
    for binder in bound {
        found = under_one(alloc, name, binder, found)?;
    }
    Ok(found)
}

/// Copies, at the end of others.
fn copy_into(alloc: Global, symbols: &[Symbol], copies: &mut Items<Symbol>) -> Result<(), NoMemory>
    ensures { IfOk result (λ _. copies.new ≡ copies.old ++ symbols.now) }
{
    for symbol in symbols {
        copies.push(symbol.copy(alloc)?)?;
    }
    Ok(())
}

/// All that is bound under the binders of a quantifier.
#[tactic(auto, using(crate::proofs::Binding::inside_both))]
pub(crate) fn symbols_inside(
    alloc: Global,
    bound: &[Symbol],
    binders: &[Symbol],
) -> Result<Items<Symbol>, NoMemory>
    ensures { IfOk result (λ all. inside [] all ≡ inside (inside [] bound.now) binders.now) }
{
    let mut all = Items::new(alloc);
    copy_into(alloc, bound, &mut all)?;
    copy_into(alloc, binders, &mut all)?;
    Ok(all)
}

// ---- binders

fn is_bound(name: Name, symbols: &[Symbol]) -> bool
    ensures { result ≡ is_bound name symbols.now }
{
    for symbol in symbols {
        if name.0 == symbol.name.0 {
            return true;
        }
    }
    false
}

/// The binder, after others of its quantifier, where these types are declared.
fn symbol_after(
    alloc: Global,
    declared: &[AdtDecl],
    before: &[Symbol],
    binder: &Binder,
) -> Result<Symbol, PassError>
    ensures { Answers result (symbol_after declared.now before.now binder.now) }
{
    let name = binder.name;
    if is_bound(name.name, before) {
        return Err(double_name(name.span));
    }
    let sort = written_sort(alloc, declared, &binder.ty)?;
    Ok(Symbol {
        name: name.name,
        sort,
    })
}

/// The binders of a quantifier, from the left.
pub(crate) fn symbols_of(
    alloc: Global,
    declared: &[AdtDecl],
    binders: &[Binder],
) -> Result<Items<Symbol>, PassError>
    ensures { Answers result (symbols_of declared.now binders.now) }
{
    let mut symbols = Items::new(alloc);
    for binder in binders {
        let symbol = symbol_after(alloc, declared, symbols.as_slice(), binder)?;
        symbols.push(symbol)?;
    }
    Ok(symbols)
}

/// The formula over values of these: for all of them, or for some.
#[tactic(auto, using(crate::proofs::Binding::bound_all_last))]
pub(crate) fn bound_all(
    alloc: Global,
    word: Quantifier,
    mut symbols: Items<Symbol>,
    body: Term,
) -> Result<Term, NoMemory>
    ensures { IfOk result (λ t. t ≡ bound_all (quantifier word) symbols body) }
{
    let mut formula = body;
    while let Some(symbol) = symbols.pop() {
        let Symbol { name, sort } = symbol;
        formula = Term::quantified(alloc, word, name, sort, formula)?;
    }
    Ok(formula)
}
