//! Names and types as they are written, and what `let` and parameters declare.
ghost use Rattle.std.specs.Prelude.{◌≡◌};
ghost use Rattle.type_check.specs.Answers.{Answers};
ghost use Rattle.type_check.specs.Written.{name_alone, written_type, written_or_none, answer_ty, param_of, name_or, declared_by, step_of};

use crate::refusal::unbuilt;
use crate::scope::{Declared, Variable};
use crate::statements::Step;
use crate::types::is_built;
use logic_term::Ty;
use rs_types::{AdtTable, Elision, TypeScope, meant};
use source_trees::{Param, ParamNode, Pat, PatNode, Path, PathNode, Segment, StmtKind, TypeTree};
use std::alloc::Global;
use text_core::{PassError, Span};

// ---- names

/// The name that the path is alone.
#[tactic(auto, unfolding(crate::specs::Written::name_alone))]
pub(crate) fn name_alone(path: &Path) -> Option<Segment>
    ensures { result ≡ name_alone path.now.node }
{
    match &path.node {
        PathNode::Names(first, others, types) if others.is_empty() && types.is_empty() => {
            Some(*first)
        }
        _ => None,
    }
}

// ---- types

/// The type that is written in a function, its lifetimes all being one. E20 at it where it is none of those that are built.
#[tactic(auto, unfolding(crate::specs::Written::written_type), using(crate::proofs::WrittenTypes::refused_meaning))]
pub(crate) fn written_type(
    alloc: Global,
    types: &AdtTable,
    written: &TypeTree,
) -> Result<Ty, PassError>
    ensures { Answers result (written_type types.now written.now) }
{
    let self_ty = None;
    let scope = TypeScope {
        declared: types,
        lifetimes: &[],
        parameters: &[],
        self_ty: &self_ty,
        has_int: false,
    };
    let (ty, _) = meant(alloc, &scope, Elision::Erased, written)?;
    if is_built(types.decls(), &ty) {
        Ok(ty)
    } else {
        Err(unbuilt(written.span))
    }
}

/// The written type, if there is one.
fn written_or_none(
    alloc: Global,
    types: &AdtTable,
    written: &Option<TypeTree>,
) -> Result<Option<Ty>, PassError>
    ensures { Answers result (written_or_none types.now written.now) }
{
    match written {
        None => Ok(None),
        Some(written) => Ok(Some(written_type(alloc, types, written)?)),
    }
}

/// The type of an answer: unit where none is written.
pub(crate) fn answer_ty(
    alloc: Global,
    types: &AdtTable,
    written: &Option<TypeTree>,
) -> Result<Ty, PassError>
    ensures { Answers result (answer_ty types.now written.now) }
{
    match written {
        None => Ok(Ty::unit(alloc)),
        Some(written) => written_type(alloc, types, written),
    }
}

// ---- parameters

/// The variable that a parameter declares: a name with its type is built.
#[tactic(auto, unfolding(crate::specs::Written::param_of))]
pub(crate) fn param_of(
    alloc: Global,
    types: &AdtTable,
    param: &Param,
) -> Result<Variable, PassError>
    ensures { Answers result (param_of types.now param.now) }
{
    match &param.node {
        ParamNode::Named(mutable, name, written) => Ok(Variable {
            name: name.name,
            ty: written_type(alloc, types, written)?,
            mutable: *mutable,
        }),
        ParamNode::Receiver(_) | ParamNode::Borrowed(_, _) => Err(unbuilt(param.span)),
    }
}

// ---- statements

/// What is declared by this name.
fn name_or(span: Span, name: Option<Segment>) -> Result<Declared, PassError>
    ensures { Answers result (name_or span name) }
{
    match name {
        None => Err(unbuilt(span)),
        Some(name) => Ok(Declared {
            name: name.name,
            mutable: false,
        }),
    }
}

/// What the pattern of a `let` declares: a name is built.
#[tactic(auto, unfolding(crate::specs::Written::declared_by))]
fn declared_by(pattern: &Pat) -> Result<Declared, PassError>
    ensures { Answers result (declared_by pattern.now) }
{
    let span = pattern.span;
    match &*pattern.node {
        PatNode::Mutable(name) => Ok(Declared {
            name: name.name,
            mutable: true,
        }),
        PatNode::Path(path) => name_or(span, name_alone(path)),
        PatNode::Any
        | PatNode::Int(_, _)
        | PatNode::Truth(_)
        | PatNode::Tuple(_)
        | PatNode::Parts(_, _)
        | PatNode::Fields(_, _, _) => Err(unbuilt(span)),
    }
}

/// What a statement declares, and the type that is expected of its value.
#[tactic(auto, unfolding(crate::specs::Written::step_of))]
pub(crate) fn step_of(alloc: Global, types: &AdtTable, kind: &StmtKind) -> Result<Step, PassError>
    ensures { Answers result (step_of types.now kind.now) }
{
    match kind {
        StmtKind::Let(pattern, written) => {
            let declares = Some(declared_by(pattern)?);
            let expected = written_or_none(alloc, types, written)?;
            Ok(Step { declares, expected })
        }
        StmtKind::Run => Ok(Step {
            declares: None,
            expected: None,
        }),
        StmtKind::Blocklike => Ok(Step {
            declares: None,
            expected: Some(Ty::unit(alloc)),
        }),
    }
}
