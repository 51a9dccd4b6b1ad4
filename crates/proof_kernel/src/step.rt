use logic_term::Label2;
use source_trees::Pterm;
use text_core::{Items, Name};

/// What a linear step takes a row from.
#[derive(Clone, Copy)]
pub enum Reference {
    /// The negation of the goal.
    Goal,
    /// A hypothesis.
    Hyp(Label2),
    /// An equality, the other way round.
    Back(Label2),
}

/// A row with its multiplier.
#[derive(Clone, Copy)]
pub struct Multiple {
    pub by: i128,
    pub of: Reference,
}

/// A rule by the form of the goal.
#[derive(Clone, Copy)]
pub enum GoalRule {
    /// An equation of a term with itself, up to bound names; closes.
    Refl,
    /// The goal is `true`; closes.
    Truth,
    /// The first side of a disjunction.
    Left,
    /// The second side of a disjunction.
    Right,
    /// A goal `!A`: the hypothesis A, and the goal `false`.
    Contra,
    /// By contradiction: the hypothesis `!G`, and the goal `false`.
    ByContradiction,
    /// An equation of two formulas: each implies the other.
    Iff,
    /// An equation of two integers: each is at most the other.
    Antisymmetry,
}

/// A rule by the form of one hypothesis.
#[derive(Clone, Copy)]
pub enum HypothesisRule {
    /// Takes it apart by its form.
    Cases,
    /// It is `false`; closes.
    Absurd,
    /// Forgets it.
    Drop,
    /// Puts it before the goal as a premise.
    Revert,
    /// `a@ == b@` of one machine type: adds `a == b`.
    Back,
    /// An equation of two values of one constructor: adds those of their parts.
    Inject,
    /// An equation of values of two constructors; closes.
    Differ,
}

/// A rule by the forms of two hypotheses.
#[derive(Clone, Copy)]
pub enum PairRule {
    /// `A ==> B`, and A: adds B.
    ModusPonens,
    /// A, and `!A`; closes.
    Contradiction,
    /// `a <= b` and `c <= d`: adds `0 <= (b - a) * (d - c)`.
    Product,
}

/// A rule by a term, which is elaborated at the first sequent.
#[derive(Clone, Copy)]
pub enum TermRule {
    /// A formula is shown, and is a hypothesis from there on.
    Cut,
    /// A formula is true, and then false.
    On,
    /// The two bounds of a machine integer.
    Range,
    /// A goal `exists`: its body at the term.
    Witness,
    /// A tuple or a struct is made of its parts.
    Eta,
}

/// Which side of an equation is replaced by the other.
#[derive(Clone, Copy)]
pub enum Direction {
    /// The first one.
    Forward,
    /// The second one.
    Backward,
}

/// What a step changes.
#[derive(Clone, Copy)]
pub enum Target {
    Goal,
    /// A hypothesis, which stays: what it becomes is a new one.
    Hyp(Label2),
}

/// Puts the equation, a hypothesis, into the target.
#[derive(Clone, Copy)]
pub struct Rewriting {
    pub direction: Direction,
    pub equation: Label2,
    pub target: Target,
}

/// A step of a proof. It acts on the first sequent and puts its premises in its place.
#[derive(Drop)]
pub enum Step {
    /// Takes off leading quantifiers, with these names, and leading premises.
    Intro(Items<Name>),
    /// The hypothesis is the goal.
    Hyp(Label2),
    /// A premise for each conjunct of the goal.
    Split,
    /// Linear arithmetic.
    Lin(Items<Multiple>),
    /// By the form of the goal.
    OnGoal(GoalRule),
    /// By the form of the hypothesis.
    OnHypothesis(HypothesisRule, Label2),
    /// By the forms of two hypotheses.
    OnTwo(PairRule, Label2, Label2),
    /// Puts an equation into the goal, or into a hypothesis.
    Rewrite(Rewriting),
    /// Decides, by the hypothesis, the conditions of each `if` in the goal, or in a hypothesis.
    Decide(Label2, Target),
    /// By a term.
    OnTerm(TermRule, Pterm),
    /// What the division of the first term by the second says.
    Divide(Pterm, Pterm),
    /// Terms for the names that the hypothesis is quantified over.
    Instantiate(Label2, Items<Pterm>),
    /// A hypothesis `exists`: a variable of this name, at which its body is true.
    Unpack(Label2, Name),
    /// The term by the variants of its enum, with names for the fields of each.
    ByVariants(Pterm, Items<Items<Name>>),
    /// Induction over a variable of an enum, with names for the fields of each variant.
    Induct(Name, Items<Items<Name>>),
}
