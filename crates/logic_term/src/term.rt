ghost use Rattle.std.specs.Prelude.{◌≡◌, ◌↔◌, ◌<◌, ◌≤◌, ◌+◌, ◌∷◌, ◌++◌, false, length, IfOk, IsTrue, MatchOption};
ghost use Rattle.logic_term.specs.TermOperator.{quantifier};
ghost use Rattle.logic_term.specs.Term.{lit, bind, forall, and, implies, is_conjunction, is_implication, is_quantified};
ghost use Rattle.logic_term.specs.TermView.{term_of, term_of_form, terms_of};
ghost use Rattle.logic_term.specs.Pairs.{firsts, seconds, top};
ghost use Rattle.logic_term.specs.Walk.{parts, weight, weights};

use crate::kinds::{Ctor, Quantifier, TermBinary, TermUnary};
use crate::ty::Ty;
use std::alloc::Global;
use std::marker::Model;
use std::rc::Rc;
use text_core::{Name, NoMemory};

/// A type of terms: a type without boxes, shared references and regions.
pub type Sort = Ty;

/// A term, or a formula, which is a term of sort `bool`. Its parts are shared with the terms that were made of them. Contracts see
/// the tree of specs/Term.antt.
#[cycle(term)]
pub struct Term {
    node: Rc<TermNode>,
    alloc: Global,
}

/// What a term is made of, as it is kept.
#[cycle(term)]
#[derive(Drop)]
pub(crate) enum TermNode {
    Var(Name),
    /// An integer of a machine type, or of the unbounded integers.
    Lit(i128, Sort),
    Truth(bool),
    /// A value made of parts.
    Make(Ctor, Vec<Term>),
    Unary(TermUnary, Term),
    Binary(TermBinary, Term, Term),
    /// `if` with its condition and its sides.
    Choice(Term, Term, Term),
    Quantified(Quantifier, Name, Sort, Term),
}

/// What a term is at its top; its parts are lent.
#[derive(Clone, Copy)]
pub enum TermForm<'a> {
    Var(Name),
    /// An integer of a machine type, or of the unbounded integers.
    Lit(i128, &'a Sort),
    Truth(bool),
    /// A value made of parts.
    Make(Ctor, &'a [Term]),
    Unary(TermUnary, &'a Term),
    Binary(TermBinary, &'a Term, &'a Term),
    /// `if` with its condition and its sides.
    Choice(&'a Term, &'a Term, &'a Term),
    Quantified(Quantifier, Name, &'a Sort, &'a Term),
}

impl Model for Term {
    ghost use Rattle.logic_term.specs.Term.{Term as Tree};
    ghost use Rattle.logic_term.specs.TermCode.{coded_term};

    ghost Value = { Tree };

    ghost coded = { coded_term };

    ghost use Rattle.logic_term.specs.TermView.{term_of, term_size};

    ghost view = { λ t. term_of t.node.value };

    ghost size = { term_size };

    ghost use Rattle.logic_term.specs.TermFalls.{falls};

    ghost size_decreases = { λ a h. falls a.node.value };
}

// By a loop, so that a deep term does not run out of stack; only where memory is refused for its stack are parts dropped by calls.
impl Drop for Term {
    #[cycle(term)]
    #[tactic(auto, using(crate::proofs::Walking::weights_last))]
    fn drop(mut self) {
        let mut left = Vec::new(self.alloc);
        loop {
            let Term { node, alloc: _ } = self;
            move_out(node, &mut left);
            match left.pop() {
                Some(t) => self = t,
                None => {
                    left.destroy_empty();
                    return;
                }
            }
        }
    }
}

/// Moves the direct parts of a term to those that are still to be dropped, unless others share them.
#[cycle(term)]
fn move_out(node: Rc<TermNode>, left: &mut Vec<Term>)
    ensures { weights (terms_of left.new.items) < weight (term_of node.value) + weights (terms_of left.old.items) }
{
    if let Some(node) = Rc::into_inner(node) {
        move_parts(node, left);
    }
}

#[cycle(term)]
fn move_parts(node: TermNode, left: &mut Vec<Term>)
    ensures { weights (terms_of left.new.items) < weight (term_of node) + weights (terms_of left.old.items) }
{
    match node {
        TermNode::Var(_) | TermNode::Lit(_, _) | TermNode::Truth(_) => {}
        TermNode::Make(_, parts) => move_all(parts, left),
        TermNode::Unary(_, t) => move_one(t, left),
        TermNode::Binary(_, a, b) => {
            move_one(b, left);
            move_one(a, left);
        }
        TermNode::Choice(c, a, b) => {
            move_one(b, left);
            move_one(a, left);
            move_one(c, left);
        }
        TermNode::Quantified(_, _, _, t) => move_one(t, left),
    }
}

#[cycle(term)]
#[tactic(auto, using(crate::proofs::Walking::weights_last))]
fn move_all(mut parts: Vec<Term>, left: &mut Vec<Term>)
    ensures { weights (terms_of left.new.items) ≤ weights (terms_of parts.items) + weights (terms_of left.old.items) }
{
    while let Some(part) = parts.pop() {
        move_one(part, left);
    }
    parts.destroy_empty();
}

#[cycle(term)]
#[tactic(auto, using(crate::proofs::Walking::weights_last))]
fn move_one(t: Term, left: &mut Vec<Term>)
    ensures { weights (terms_of left.new.items) ≤ weight t + weights (terms_of left.old.items) }
{
    let _ = left.push(t);
}

impl Term {
    /// The term with this at its top.
    pub(crate) fn of(alloc: Global, node: TermNode) -> Result<Term, NoMemory>
        ensures { IfOk result (λ t. t ≡ term_of node) }
    {
        let node = Rc::new(alloc, node)?;
        Ok(Term { node, alloc })
    }

    /// What the term is made of.
    pub(crate) fn node(&self) -> &TermNode
        ensures { term_of result.now ≡ self.now }
    {
        &self.node
    }

    /// What the term is at its top.
    pub fn form(&self) -> TermForm<'_>
        ensures { term_of_form result ≡ self.now }
    {
        match &*self.node {
            TermNode::Var(name) => TermForm::Var(*name),
            TermNode::Lit(number, sort) => TermForm::Lit(*number, sort),
            TermNode::Truth(holds) => TermForm::Truth(*holds),
            TermNode::Make(ctor, parts) => TermForm::Make(*ctor, parts.as_slice()),
            TermNode::Unary(op, a) => TermForm::Unary(*op, a),
            TermNode::Binary(op, a, b) => TermForm::Binary(*op, a, b),
            TermNode::Choice(c, a, b) => TermForm::Choice(c, a, b),
            TermNode::Quantified(word, name, sort, body) => {
                TermForm::Quantified(*word, *name, sort, body)
            }
        }
    }

    /// The same term, shared: no part of it is copied. Want of memory is answered where it is shared too often to be counted.
    pub fn share(&self) -> Result<Term, NoMemory>
        ensures { IfOk result (λ t. t ≡ self.now) }
    {
        let node = self.node.clone()?;
        let alloc = self.alloc;
        Ok(Term { node, alloc })
    }

    pub fn is_implication(&self) -> bool
        ensures { result ≡ is_implication self.now }
    {
        matches!(&*self.node, TermNode::Binary(TermBinary::Implies, _, _))
    }

    pub fn is_conjunction(&self) -> bool
        ensures { result ≡ is_conjunction self.now }
    {
        matches!(&*self.node, TermNode::Binary(TermBinary::And, _, _))
    }

    /// Both sides of a conjunction.
    pub fn as_conjunction(&self) -> Option<(&Term, &Term)>
        ensures { MatchOption result (is_conjunction self.now ≡ false) (λ p. self.now ≡ and p.0.now p.1.now) }
    {
        match &*self.node {
            TermNode::Binary(TermBinary::And, a, b) => Some((a, b)),
            _ => None,
        }
    }

    /// The premise and the conclusion of an implication.
    pub fn as_implication(&self) -> Option<(&Term, &Term)>
        ensures { MatchOption result (is_implication self.now ≡ false) (λ p. self.now ≡ implies p.0.now p.1.now) }
    {
        match &*self.node {
            TermNode::Binary(TermBinary::Implies, a, b) => Some((a, b)),
            _ => None,
        }
    }

    /// The name, the sort and the body of a universal formula.
    pub fn as_forall(&self) -> Option<(Name, &Sort, &Term)>
        ensures { MatchOption result (is_quantified self.now ≡ false) (λ p. self.now ≡ forall p.0 p.1.now p.2.now) }
    {
        match &*self.node {
            TermNode::Quantified(Quantifier::Forall, name, sort, body) => {
                Some((*name, sort, body))
            }
            _ => None,
        }
    }

    /// Whether both are the same term, bound names and sorts included.
    pub fn same(&self, alloc: Global, other: &Term) -> Result<bool, NoMemory>
        ensures { IfOk result (λ b. IsTrue b ↔ (self.now ≡ other.now)) }
    {
        let mut left = Vec::new(alloc);
        left.push((self, other))?;
        while let Some((a, b)) = left.pop() {
            if !a.has_same_top(b) {
                return Ok(false);
            }
            a.push_pairs(b, &mut left)?;
        }
        Ok(true)
    }

    /// Whether both are the same but for their direct parts, of which they have as many.
    #[tactic(auto, using(crate::proofs::Pairs::count_terms))]
    fn has_same_top(&self, other: &Term) -> bool
        ensures { IsTrue result ↔ (top self.now ≡ top other.now) }
    {
        match (&*self.node, &*other.node) {
            (TermNode::Var(x), TermNode::Var(y)) => x.0 == y.0,
            (TermNode::Lit(m, s), TermNode::Lit(n, q)) => m == n && s.same(q),
            (TermNode::Truth(a), TermNode::Truth(b)) => a == b,
            (TermNode::Make(c, ts), TermNode::Make(d, us)) => c == d && ts.len() == us.len(),
            (TermNode::Unary(o, _), TermNode::Unary(p, _)) => o == p,
            (TermNode::Binary(o, _, _), TermNode::Binary(p, _, _)) => o == p,
            (TermNode::Choice(_, _, _), TermNode::Choice(_, _, _)) => true,
            (TermNode::Quantified(o, x, s, _), TermNode::Quantified(p, y, q, _)) => {
                o == p && x.0 == y.0 && s.same(q)
            }
            _ => false,
        }
    }

    /// Adds the pairs of the direct parts of both, where they are the same but for these.
    #[tactic(auto, using(crate::proofs::Pairs::count_terms, crate::proofs::Walking::listed_terms))]
    fn push_pairs<'a>(
        &'a self,
        other: &'a Term,
        left: &mut Vec<(&'a Term, &'a Term)>,
    ) -> Result<(), NoMemory>
        requires { top self.now ≡ top other.now }
        ensures firsts { IfOk result (λ _. firsts left.new.items ≡ parts self.now ++ firsts left.old.items) }
        ensures seconds { IfOk result (λ _. seconds left.new.items ≡ parts other.now ++ seconds left.old.items) }
    {
        match (&*self.node, &*other.node) {
            (TermNode::Make(_, ts), TermNode::Make(_, us)) => push_all_pairs(ts, us, left),
            (TermNode::Unary(_, a), TermNode::Unary(_, b)) => push_pair(a, b, left),
            (TermNode::Binary(_, a, b), TermNode::Binary(_, c, d)) => {
                push_pair(b, d, left)?;
                push_pair(a, c, left)
            }
            (TermNode::Choice(c, a, b), TermNode::Choice(d, e, f)) => {
                push_pair(b, f, left)?;
                push_pair(a, e, left)?;
                push_pair(c, d, left)
            }
            (TermNode::Quantified(_, _, _, a), TermNode::Quantified(_, _, _, b)) => {
                push_pair(a, b, left)
            }
            _ => Ok(()),
        }
    }
}

// ---- pairs that are still to be compared

fn push_pair<'a>(
    a: &'a Term,
    b: &'a Term,
    left: &mut Vec<(&'a Term, &'a Term)>,
) -> Result<(), NoMemory>
    ensures firsts { IfOk result (λ _. firsts left.new.items ≡ a.now ∷ firsts left.old.items) }
    ensures seconds { IfOk result (λ _. seconds left.new.items ≡ b.now ∷ seconds left.old.items) }
{
    left.push((a, b))?;
    Ok(())
}

/// The pairs of terms at the same places, the first last.
fn push_all_pairs<'a>(
    a: &'a [Term],
    b: &'a [Term],
    left: &mut Vec<(&'a Term, &'a Term)>,
) -> Result<(), NoMemory>
    requires { length a.now ≡ length b.now }
    ensures firsts { IfOk result (λ _. firsts left.new.items ≡ a.now ++ firsts left.old.items) }
    ensures seconds { IfOk result (λ _. seconds left.new.items ≡ b.now ++ seconds left.old.items) }
{
    for i in (0..a.len()).rev() {
        left.push((&a[i], &b[i]))?;
    }
    Ok(())
}

/// The quantified formula over a copy of the sort.
pub(crate) fn quantified(
    alloc: Global,
    word: Quantifier,
    name: Name,
    sort: &Sort,
    body: Term,
) -> Result<Term, NoMemory>
    ensures { IfOk result (λ t. t ≡ bind (quantifier word) name sort.now body) }
{
    let sort = sort.copy(alloc)?;
    Term::quantified(alloc, word, name, sort, body)
}
