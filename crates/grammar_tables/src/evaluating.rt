//! The evaluator: it carries out the semantic actions of a leftmost derivation.
ghost use Rattle.std.specs.Prelude.{◌≡◌, ◌<◌, ◌≤◌, ℕ, ◌++◌, ◌∷◌, length, reverse, [], IfOk};
ghost use Rattle.grammar_tables.specs.declared.evaluating.Work.TheVariants.{Reduce};
ghost use Rattle.grammar_tables.specs.Tables.{body_at, grammar_in, lists_in};
ghost use Rattle.grammar_tables.specs.Trees.{SemanticActions, AreValues, option_list};
ghost use Rattle.grammar_tables.specs.Work.{visits, action_value, reduced};

use crate::symbol::Symbol;
use crate::tables::Tables;
use std::alloc::{AllocError, Global};

/// What semantic actions make of tokens and of nonterminals.
pub trait SemanticValue: Sized + Drop {
    /// What is at hand, such as the tokens.
    type Context;

    ghost actions: { Self.Context → SemanticActions Self };

    /// The value of the token at that position, where its terminal has one.
    fn leaf(context: &Self::Context, terminal: u8, position: usize) -> Option<Self>
        requires { position < usize.MAX }
        ensures { result ≡ (actions context.now).leaf terminal position };

    /// Whether the nonterminal by this alternative, with so many values of its parts, is made into nothing, so that they
    /// stand among the parts of the alternative around it.
    fn keeps(context: &Self::Context, nonterminal: u16, alternative: u8, count: usize) -> bool
        ensures { result ≡ (actions context.now).keeps nonterminal alternative count };

    /// The value of an alternative that ends before the token at `end`. Its parts are popped in their order. Err only for
    /// want of memory.
    fn action(
        context: &Self::Context,
        alloc: Global,
        expansion: Expansion,
        end: usize,
        parts: &mut Vec<Self>,
    ) -> Result<Self, AllocError>
        ensures { IfOk result (λ v. v ≡ action_value (actions context.now) expansion end (reverse parts.old.items)) };
}

/// A nonterminal that is replaced by the body of one of its alternatives.
#[derive(Clone, Copy)]
pub struct Expansion {
    pub nonterminal: u16,
    pub alternative: u8,
    /// The position of its first token.
    pub first_token: usize,
    /// The number of values that stand before those of its parts.
    pub first_value: usize,
}

impl Expansion {
    fn new(nonterminal: u16, alternative: u8, first_token: usize, first_value: usize) -> Self
        ensures { result ≡ record { nonterminal = nonterminal; alternative = alternative; first_token = first_token; first_value = first_value } }
    {
        Self {
            nonterminal,
            alternative,
            first_token,
            first_value,
        }
    }
}

/// What the evaluator has to do.
#[derive(Clone, Copy)]
pub enum Work {
    /// The part of the tree that the symbol derives is next.
    Visit(Symbol),
    /// All parts of the alternative have their values.
    Reduce(Expansion),
}

/// The symbols of a body, whose last one comes first, are to be visited.
fn push_visits(work: &mut Vec<Work>, symbols: &[Symbol]) -> Result<(), AllocError>
    ensures { IfOk result (λ _. work.new.items ≡ work.old.items ++ visits symbols.now) }
{
    for symbol in symbols {
        work.push(Work::Visit(*symbol))?;
    }
    Ok(())
}

/// The body of the alternative is to be visited, and then the alternative to be reduced.
fn expand(work: &mut Vec<Work>, tables: &Tables, expansion: Expansion) -> Result<(), AllocError>
    ensures { IfOk result (λ _. work.new.items ≡ (work.old.items ++ Reduce expansion ∷ []) ++ visits (body_at (lists_in tables.now) expansion.nonterminal expansion.alternative)) }
{
    work.push(Work::Reduce(expansion))?;
    push_visits(
        work,
        tables.body(expansion.nonterminal, expansion.alternative),
    )
}

/// Adds the value of a token, where it has one.
fn push_leaf<V: SemanticValue>(
    context: &V::Context,
    terminal: u8,
    position: usize,
    values: &mut Vec<V>,
) -> Result<(), AllocError>
    requires { position < usize.MAX }
    ensures { IfOk result (λ _. values.new.items ≡ values.old.items ++ option_list ((V.actions context.now).leaf terminal position)) }
{
    if let Some(value) = V::leaf(context, terminal, position) {
        values.push(value)?;
    }
    Ok(())
}

/// Moves the values from the first on, so that they are popped in their order.
fn take_parts<V: Drop>(
    values: &mut Vec<V>,
    first: usize,
    parts: &mut Vec<V>,
) -> Result<(), AllocError>
    requires { (first ≤ length values.old.items) × (parts.old.items ≡ []) }
    ensures { IfOk result (λ _. (values.old.items ≡ values.new.items ++ reverse parts.new.items) × (length values.new.items ≡ first)) }
{
    while values.len() > first {
        if let Some(value) = values.pop() {
            parts.push(value)?;
        }
    }
    Ok(())
}

/// Puts what the alternative is made into in the place of the values of its parts. `parts` is scratch space.
fn reduce<V: SemanticValue>(
    context: &V::Context,
    alloc: Global,
    expansion: Expansion,
    end: usize,
    values: &mut Vec<V>,
    parts: &mut Vec<V>,
) -> Result<(), AllocError>
    requires { (expansion.first_value ≤ length values.old.items) × (parts.old.items ≡ []) }
    ensures { IfOk result (λ _. (values.new.items ≡ reduced (V.actions context.now) expansion end values.old.items) × (parts.new.items ≡ [])) }
{
    let count = values.len() - expansion.first_value;
    if !V::keeps(context, expansion.nonterminal, expansion.alternative, count) {
        take_parts(values, expansion.first_value, parts)?;
        let value = V::action(context, alloc, expansion, end, parts)?;
        parts.clear();
        values.push(value)?;
    }
    Ok(())
}

/// The values of the tree of a derivation, which is the list of its alternatives as `parse` gives it, over so many tokens.
/// Err only for want of memory.
pub fn evaluate<V: SemanticValue>(
    context: &V::Context,
    alloc: Global,
    tables: &Tables,
    goal: u16,
    derivation: &[u8],
    count: usize,
) -> Result<Vec<V>, AllocError>
    ensures { IfOk result (λ vs. AreValues (grammar_in tables.now) (V.actions context.now) goal derivation.now count vs.items) }
{
    let mut values = Vec::new(alloc);
    let mut parts = Vec::new(alloc);
    let mut work = Vec::new(alloc);
    work.push(Work::Visit(Symbol::Nonterminal(goal)))?;
    let mut next = 0;
    let mut at = 0;
    while let Some(step) = work.pop() {
        match step {
            Work::Visit(symbol) => match symbol {
                Symbol::Terminal(terminal) => {
                    if at >= count {
                        return Ok(values);
                    }
                    push_leaf(context, terminal, at, &mut values)?;
                    at += 1;
                }
                Symbol::Nonterminal(nonterminal) => {
                    if next >= derivation.len() {
                        return Ok(values);
                    }
                    let expansion = Expansion::new(nonterminal, derivation[next], at, values.len());
                    expand(&mut work, tables, expansion)?;
                    next += 1;
                }
            },
            Work::Reduce(expansion) => {
                if expansion.first_value > values.len() {
                    return Ok(values);
                }
                reduce(context, alloc, expansion, at, &mut values, &mut parts)?;
            }
        }
    }
    Ok(values)
}
