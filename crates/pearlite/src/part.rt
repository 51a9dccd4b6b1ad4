//! What stands in a line: its tokens, and what the lines in it are made into.
ghost use Rattle.std.specs.Prelude.{◌≡◌};
ghost use Rattle.pearlite.specs.MakeTypes.{type_argument_by};
ghost use Rattle.pearlite.specs.Parts.{as_arm, as_binder, as_field_pattern, as_field_term, as_path, as_pattern, as_suffix, as_term, as_type, is_suffix, is_token};

use crate::tokens::lifetime_at;
use source_trees::{
    Binder, FieldPat, FieldTerm, Number, Pat, Path, Pterm, Segment, TermArm, TypeArgument, TypeTree,
};
use source_words::Word;
use text_core::{Boxed, Items};

/// What a token or a line is worth.
pub enum Value {
    Token,
    Type(TypeTree),
    Pattern(Pat),
    FieldPattern(FieldPat),
    Path(Boxed<Path>),
    Term(Pterm),
    FieldTerm(FieldTerm),
    Arm(TermArm),
    Binder(Binder),
    Suffix(TermSuffix),
    /// Nothing is made of it.
    Passed,
}

// By hand, so that whoever holds one drops it by a call (docs/architecture.md).
impl Drop for Value {
    fn drop(self) {
        match self {
            Value::Token
            | Value::Type(_)
            | Value::Pattern(_)
            | Value::FieldPattern(_)
            | Value::Path(_)
            | Value::Term(_)
            | Value::FieldTerm(_)
            | Value::Arm(_)
            | Value::Binder(_)
            | Value::Suffix(_)
            | Value::Passed => {}
        }
    }
}

/// A value that nothing needs; the one place where its parts are freed.
pub fn discard(value: Value) {
    drop(value);
}

impl Value {
    /// Whether it is that of a token.
    #[tactic(auto, unfolding(crate::specs::Parts::is_token))]
    pub fn is_token(&self) -> bool
        ensures { result ≡ is_token self.now }
    {
        matches!(self, Value::Token)
    }

    /// Whether it is what stands behind an operand.
    #[tactic(auto, unfolding(crate::specs::Parts::is_suffix))]
    pub fn is_suffix(&self) -> bool
        ensures { result ≡ is_suffix self.now }
    {
        matches!(self, Value::Suffix(_))
    }

    /// The type, where it is one.
    #[tactic(auto, unfolding(crate::specs::Parts::as_type))]
    pub fn into_type(self) -> Option<TypeTree>
        ensures { result ≡ as_type self }
    {
        match self {
            Value::Type(ty) => Some(ty),
            other => {
                discard(other);
                None
            }
        }
    }

    /// What it is among the arguments of a type, where it begins at that token.
    #[tactic(auto, unfolding(crate::specs::MakeTypes::type_argument_by))]
    pub fn into_type_argument(self, words: &[Word], from: usize) -> Option<TypeArgument>
        ensures { result ≡ type_argument_by words.now from self }
    {
        match self {
            Value::Token => match lifetime_at(words, from) {
                Some(lifetime) => Some(TypeArgument::Lifetime(lifetime)),
                None => None,
            },
            Value::Type(ty) => Some(TypeArgument::Type(ty)),
            other => {
                discard(other);
                None
            }
        }
    }

    /// The pattern, where it is one.
    #[tactic(auto, unfolding(crate::specs::Parts::as_pattern))]
    pub fn into_pattern(self) -> Option<Pat>
        ensures { result ≡ as_pattern self }
    {
        match self {
            Value::Pattern(pattern) => Some(pattern),
            other => {
                discard(other);
                None
            }
        }
    }

    /// The field of a pattern, where it is one.
    #[tactic(auto, unfolding(crate::specs::Parts::as_field_pattern))]
    pub fn into_field_pattern(self) -> Option<FieldPat>
        ensures { result ≡ as_field_pattern self }
    {
        match self {
            Value::FieldPattern(field) => Some(field),
            other => {
                discard(other);
                None
            }
        }
    }

    /// The path, where it is one.
    #[tactic(auto, unfolding(crate::specs::Parts::as_path))]
    pub fn into_path(self) -> Option<Path>
        ensures { result ≡ as_path self }
    {
        match self {
            Value::Path(path) => Some(path.into_inner()),
            other => {
                discard(other);
                None
            }
        }
    }

    /// The term, where it is one.
    #[tactic(auto, unfolding(crate::specs::Parts::as_term))]
    pub fn into_term(self) -> Option<Pterm>
        ensures { result ≡ as_term self }
    {
        match self {
            Value::Term(term) => Some(term),
            other => {
                discard(other);
                None
            }
        }
    }

    /// The field of a struct literal, where it is one.
    #[tactic(auto, unfolding(crate::specs::Parts::as_field_term))]
    pub fn into_field_term(self) -> Option<FieldTerm>
        ensures { result ≡ as_field_term self }
    {
        match self {
            Value::FieldTerm(field) => Some(field),
            other => {
                discard(other);
                None
            }
        }
    }

    /// The arm, where it is one.
    #[tactic(auto, unfolding(crate::specs::Parts::as_arm))]
    pub fn into_arm(self) -> Option<TermArm>
        ensures { result ≡ as_arm self }
    {
        match self {
            Value::Arm(arm) => Some(arm),
            other => {
                discard(other);
                None
            }
        }
    }

    /// The variable of a quantifier, where it is one.
    #[tactic(auto, unfolding(crate::specs::Parts::as_binder))]
    pub fn into_binder(self) -> Option<Binder>
        ensures { result ≡ as_binder self }
    {
        match self {
            Value::Binder(binder) => Some(binder),
            other => {
                discard(other);
                None
            }
        }
    }

    /// What stands behind an operand, where it is that.
    #[tactic(auto, unfolding(crate::specs::Parts::as_suffix))]
    pub fn into_suffix(self) -> Option<TermSuffix>
        ensures { result ≡ as_suffix self }
    {
        match self {
            Value::Suffix(suffix) => Some(suffix),
            other => {
                discard(other);
                None
            }
        }
    }
}

/// What stands behind an operand.
#[derive(Drop)]
pub enum TermSuffix {
    /// `@`
    View,
    /// `.f`
    Field(Segment),
    /// `.0`
    Part(Number),
    /// `.f(u, v)`
    Method(Segment, Items<Pterm>),
}

/// A part of a line: what it is worth, and its tokens, from the first to before the one behind the last.
#[derive(Drop)]
pub struct Part {
    pub value: Value,
    pub from: usize,
    pub to: usize,
}
