//! Types and paths.
ghost use Rattle.std.specs.Prelude.{◌≡◌};
ghost use Rattle.source_trees.specs.TypeTreeView.{types_of, type_arguments_of};
ghost use Rattle.source_forms.specs.Forms.{is_among, in_each};
ghost use Rattle.source_forms.specs.TypeForms.{word_form, named_form, reference_form, unbuilt_type, unbuilt_types, unbuilt_arguments, unbuilt_argument, path_form, unbuilt_path};

use crate::form::Form;
use crate::place::here;
use source_trees::{Path, PathNode, TypeArgument, TypeNode, TypeTree};
use text_core::Name;
use text_core::name::{BOOL, INT};

/// The form of a name alone.
fn word_form(name: Name) -> Form
    ensures { result ≡ word_form name }
{
    if name.0 <= BOOL.0 {
        Form::MachineType
    } else if name.0 == INT.0 {
        Form::MathIntType
    } else {
        Form::NamedType
    }
}

/// The form of a name with these arguments.
fn named_form(name: Name, arguments: &[TypeArgument]) -> Form
    ensures { result ≡ named_form name (type_arguments_of arguments.now) }
{
    if arguments.is_empty() {
        word_form(name)
    } else {
        Form::NamedType
    }
}

fn reference_form(mutable: bool) -> Form
    ensures { result ≡ reference_form mutable }
{
    if mutable {
        Form::MutableReferenceType
    } else {
        Form::SharedReferenceType
    }
}

#[cycle(unbuilt_type)]
pub(crate) fn unbuilt_type(built: &[Form], ty: &TypeTree) -> Option<u64>
    ensures { result ≡ unbuilt_type (is_among built.now) ty.now }
{
    let span = ty.span;
    match &*ty.node {
        TypeNode::Named(name, arguments) => {
            let form = named_form(name.name, arguments);
            first_of!(here(built, form, span), unbuilt_arguments(built, arguments))
        }
        TypeNode::Tuple(types) => {
            first_of!(
                here(built, Form::TupleType, span),
                unbuilt_types(built, types)
            )
        }
        TypeNode::Reference(_, mutable, ty) => {
            first_of!(
                here(built, reference_form(*mutable), span),
                unbuilt_type(built, ty)
            )
        }
        TypeNode::SelfType => here(built, Form::SelfType, span),
        TypeNode::SelfView => here(built, Form::SelfViewType, span),
    }
}

#[cycle(unbuilt_type)]
#[tactic(auto, using(crate::proofs::Sizes::parts))]
pub(crate) fn unbuilt_types(built: &[Form], types: &[TypeTree]) -> Option<u64>
    ensures tree { result ≡ unbuilt_types (is_among built.now) (types_of types.now) }
    ensures list { result ≡ in_each (unbuilt_type (is_among built.now)) types.now }
{
    for ty in types {
        if let Some(start) = unbuilt_type(built, ty) {
            return Some(start);
        }
    }
    None
}

/// In the types among the arguments.
#[cycle(unbuilt_type)]
#[tactic(auto, using(crate::proofs::Sizes::parts))]
fn unbuilt_arguments(built: &[Form], arguments: &[TypeArgument]) -> Option<u64>
    ensures { result ≡ unbuilt_arguments (is_among built.now) (type_arguments_of arguments.now) }
{
    for argument in arguments {
        match unbuilt_argument(built, argument) {
            Some(start) => return Some(start),
            None => {}
        }
    }
    None
}

#[cycle(unbuilt_type)]
fn unbuilt_argument(built: &[Form], argument: &TypeArgument) -> Option<u64>
    ensures { result ≡ unbuilt_argument (is_among built.now) argument.now }
{
    match argument {
        TypeArgument::Lifetime(_) => None,
        TypeArgument::Type(ty) => unbuilt_type(built, ty),
    }
}

/// One form for a name alone, and one for any other path.
#[tactic(auto, unfolding(crate::specs::TypeForms::path_form))]
pub(crate) fn path_form(alone: Form, other: Form, path: &Path) -> Form
    ensures { result ≡ path_form alone other path.now.node }
{
    match &path.node {
        PathNode::Names(_, others, types) if others.is_empty() && types.is_empty() => alone,
        _ => other,
    }
}

/// In the types of a path.
#[tactic(auto, unfolding(crate::specs::TypeForms::unbuilt_path))]
pub(crate) fn unbuilt_path(built: &[Form], path: &Path) -> Option<u64>
    ensures { result ≡ unbuilt_path (is_among built.now) path.now.node }
{
    match &path.node {
        PathNode::Names(_, _, types) => unbuilt_types(built, types.as_slice()),
        PathNode::Member(_, types, _) => unbuilt_types(built, types.as_slice()),
        PathNode::Qualified(ty, _, _) => unbuilt_type(built, ty),
    }
}
