use crate::goal::Goal;
use crate::kinds::TraitId;
use crate::term::Term;
use crate::ty::{FnBound, Ty};
use text_core::{Items, Kind, Name, Span, Text};

/// What a type parameter must meet: traits, `Copy`, and how its values may be called.
#[derive(Drop)]
pub struct Bounds {
    pub traits: Items<TraitId>,
    pub copy: bool,
    pub call: Option<FnBound>,
}

/// Types for the type parameters of an item, in their order.
#[derive(Drop)]
pub struct Instance {
    pub types: Items<Ty>,
}

/// The contract of a function: `pre` are its `requires` and `post` its `ensures`, over the names of the parameters and
/// of the answer; `spans` are those of `pre`, `post` and `variants`, in this order.
#[derive(Drop)]
pub struct Contract {
    pub params: Items<Name>,
    pub answer: Name,
    pub pre: Items<Term>,
    pub post: Items<Term>,
    pub variants: Items<Term>,
    pub spans: Items<Span>,
}

/// A formula to be proved, with what it is for.
#[derive(Drop)]
pub struct Obligation {
    /// The function, lemma or law, as the report spells it.
    pub owner: Text,
    /// From 1, for each owner.
    pub number: u32,
    pub kind: Kind,
    pub span: Span,
    /// Where the item of a lemma or of an impl's law begins; `None` for all others.
    pub from: Option<u32>,
    /// The type parameters of the owner's item.
    pub params: Items<(Name, Bounds)>,
    /// Closed, of sort `bool`, in normal form.
    pub goal: Goal,
}
