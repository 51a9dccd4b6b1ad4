//! Types, sorts and terms, what terms mean, substitution and the normal form.
#![tactic(auto)]

mod build;
mod canonical;
mod context;
mod declaration;
mod goal;
mod kinds;
mod laws;
mod obligation;
mod pattern;
mod placed;
mod subst;
mod term;
mod ty;

pub use canonical::is_one_of;
pub use context::{Context, Entry};
pub use declaration::{AdtDecl, FieldDecl, VariantDecl, VariantKind};
pub use goal::Goal;
pub use kinds::{
    AdtId, Ctor, FnKind, Label, Label2, LogicFn, Quantifier, Region, TermBinary, TermUnary,
    TraitId, TyUnary,
};
pub use laws::{
    bound_names_do_not_count, canonical_forms_keep_values, free_names_alone_count,
    normal_forms_keep_values, other_names_do_not_count, put_terms_count_as_values, sorts_are_kept,
    sorts_keep_values, truth_of_comparisons, truth_of_connectives, truth_of_quantifiers,
    values_are_single, values_are_sure, values_of_choices, values_of_made, values_of_parts,
};
pub use obligation::{Bounds, Contract, Instance, Obligation};
pub use pattern::{Binding, BindingKind, PatNode, PatPath, PatStep, TypedPat};
pub use placed::reduce;
pub use subst::{Renaming, Replacement};
pub use term::{Sort, Term, TermForm};
pub use ty::{CompoundTy, FnBound, Ty, TyNode, copy_types, same_types};
