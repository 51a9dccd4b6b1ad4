ghost use Rattle.std.specs.Prelude.{◌≡◌, IfOk};
ghost use Rattle.logic_term.specs.Ty.{math_int};
ghost use Rattle.logic_term.specs.TermView.{terms_of};
ghost use Rattle.logic_term.specs.TermOperator.{unary_operator, binary_operator, quantifier};
ghost use Rattle.logic_term.specs.Term.{apply, one, two, made, var, lit, truth, unit, model, negative, not, calculate, is_less, is_at_most, is_equal, and, or, implies, forall, exists, part, if_else, bind};

use crate::kinds::{Ctor, Quantifier, TermBinary, TermUnary};
use crate::term::{Sort, Term, TermNode};
use crate::ty::Ty;
use source_kinds::ArithOp;
use std::alloc::Global;
use text_core::{Name, NoMemory};

/// Terms of parts, which are moved into them.
impl Term {
    pub fn var(alloc: Global, name: Name) -> Result<Term, NoMemory>
        ensures { IfOk result (λ t. t ≡ var name) }
    {
        Term::of(alloc, TermNode::Var(name))
    }

    pub fn lit(alloc: Global, number: i128, sort: Sort) -> Result<Term, NoMemory>
        ensures { IfOk result (λ t. t ≡ lit number sort) }
    {
        Term::of(alloc, TermNode::Lit(number, sort))
    }

    /// An unbounded integer.
    pub fn integer(alloc: Global, number: i128) -> Result<Term, NoMemory>
        ensures { IfOk result (λ t. t ≡ lit number math_int) }
    {
        Term::lit(alloc, number, Ty::math_int())
    }

    pub fn truth(alloc: Global, holds: bool) -> Result<Term, NoMemory>
        ensures { IfOk result (λ t. t ≡ truth holds) }
    {
        Term::of(alloc, TermNode::Truth(holds))
    }

    /// A value made of parts.
    pub fn made(alloc: Global, ctor: Ctor, parts: Vec<Term>) -> Result<Term, NoMemory>
        ensures { IfOk result (λ t. t ≡ apply (made ctor) (terms_of parts.items)) }
    {
        Term::of(alloc, TermNode::Make(ctor, parts))
    }

    /// `()`, the tuple of no parts.
    pub fn unit(alloc: Global) -> Result<Term, NoMemory>
        ensures { IfOk result (λ t. t ≡ unit) }
    {
        Term::made(alloc, Ctor::Tuple, Vec::new(alloc))
    }

    /// The operator at the term.
    pub fn unary(alloc: Global, op: TermUnary, t: Term) -> Result<Term, NoMemory>
        ensures { IfOk result (λ m. m ≡ one (unary_operator op) t) }
    {
        Term::of(alloc, TermNode::Unary(op, t))
    }

    /// The operator at both terms.
    pub fn binary(alloc: Global, op: TermBinary, a: Term, b: Term) -> Result<Term, NoMemory>
        ensures { IfOk result (λ t. t ≡ two (binary_operator op) a b) }
    {
        Term::of(alloc, TermNode::Binary(op, a, b))
    }

    pub fn model(alloc: Global, t: Term) -> Result<Term, NoMemory>
        ensures { IfOk result (λ m. m ≡ model t) }
    {
        Term::unary(alloc, TermUnary::Model, t)
    }

    pub fn negative(alloc: Global, t: Term) -> Result<Term, NoMemory>
        ensures { IfOk result (λ m. m ≡ negative t) }
    {
        Term::unary(alloc, TermUnary::Negative, t)
    }

    pub fn not(alloc: Global, t: Term) -> Result<Term, NoMemory>
        ensures { IfOk result (λ m. m ≡ not t) }
    {
        Term::unary(alloc, TermUnary::Not, t)
    }

    pub fn calculate(alloc: Global, op: ArithOp, a: Term, b: Term) -> Result<Term, NoMemory>
        ensures { IfOk result (λ t. t ≡ calculate op a b) }
    {
        Term::binary(alloc, TermBinary::Arith(op), a, b)
    }

    pub fn less(alloc: Global, a: Term, b: Term) -> Result<Term, NoMemory>
        ensures { IfOk result (λ t. t ≡ is_less a b) }
    {
        Term::binary(alloc, TermBinary::Less, a, b)
    }

    pub fn at_most(alloc: Global, a: Term, b: Term) -> Result<Term, NoMemory>
        ensures { IfOk result (λ t. t ≡ is_at_most a b) }
    {
        Term::binary(alloc, TermBinary::AtMost, a, b)
    }

    pub fn equal(alloc: Global, a: Term, b: Term) -> Result<Term, NoMemory>
        ensures { IfOk result (λ t. t ≡ is_equal a b) }
    {
        Term::binary(alloc, TermBinary::Equal, a, b)
    }

    pub fn and(alloc: Global, a: Term, b: Term) -> Result<Term, NoMemory>
        ensures { IfOk result (λ t. t ≡ and a b) }
    {
        Term::binary(alloc, TermBinary::And, a, b)
    }

    pub fn or(alloc: Global, a: Term, b: Term) -> Result<Term, NoMemory>
        ensures { IfOk result (λ t. t ≡ or a b) }
    {
        Term::binary(alloc, TermBinary::Or, a, b)
    }

    pub fn implies(alloc: Global, a: Term, b: Term) -> Result<Term, NoMemory>
        ensures { IfOk result (λ t. t ≡ implies a b) }
    {
        Term::binary(alloc, TermBinary::Implies, a, b)
    }

    pub fn forall(alloc: Global, name: Name, sort: Sort, body: Term) -> Result<Term, NoMemory>
        ensures { IfOk result (λ t. t ≡ forall name sort body) }
    {
        Term::quantified(alloc, Quantifier::Forall, name, sort, body)
    }

    pub fn exists(alloc: Global, name: Name, sort: Sort, body: Term) -> Result<Term, NoMemory>
        ensures { IfOk result (λ t. t ≡ exists name sort body) }
    {
        Term::quantified(alloc, Quantifier::Exists, name, sort, body)
    }

    /// The formula over all values of the sort, or over some.
    pub fn quantified(
        alloc: Global,
        word: Quantifier,
        name: Name,
        sort: Sort,
        body: Term,
    ) -> Result<Term, NoMemory>
        ensures { IfOk result (λ t. t ≡ bind (quantifier word) name sort body) }
    {
        Term::of(alloc, TermNode::Quantified(word, name, sort, body))
    }

    /// The part of this number, from 0, of a tuple or a struct.
    pub fn field(alloc: Global, t: Term, number: u32) -> Result<Term, NoMemory>
        ensures { IfOk result (λ m. m ≡ part number t) }
    {
        Term::unary(alloc, TermUnary::Field(number), t)
    }

    /// The first side where the condition is true, else the second.
    pub fn choice(
        alloc: Global,
        condition: Term,
        first: Term,
        second: Term,
    ) -> Result<Term, NoMemory>
        ensures { IfOk result (λ t. t ≡ if_else condition first second) }
    {
        Term::of(alloc, TermNode::Choice(condition, first, second))
    }
}
