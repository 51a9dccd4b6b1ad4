//! What is called: functions, and what makes values of arguments.
ghost use Rattle.std.specs.Prelude.{◌≡◌, IfOk, length};
ghost use Rattle.type_check.specs.Answers.{Answers, AnswersAs};
ghost use Rattle.type_check.specs.Literals.{called_by as call_by, made_by};
ghost use Rattle.type_check.specs.TypedExprView.{exprs_of};
ghost use Rattle.type_check.specs.Typing.{called, called_by, callee_of, constructor_called, field_tys, params_of};
ghost use Rattle.type_check.specs.Setting.{setting_of};
ghost use Rattle.type_check.specs.Written.{name_alone};

use crate::heading::{Callee, find_function};
use crate::literals::literal_made;
use crate::making::{Maker, maker_of};
use crate::refusal::{mismatch, unbuilt, unknown_name};
use crate::scope::{Variable, find_variable};
use crate::setting::Setting;
use crate::typed::{TypedExpr, TypedNode};
use crate::types::are_built;
use crate::typing::fit;
use crate::written::name_alone;
use logic_term::{Ty, VariantKind, copy_types};
use rs_types::{AdtTable, applied};
use source_trees::{Expr, ExprNode, Path};
use std::alloc::Global;
use text_core::{NoMemory, PassError, Span};

/// What is called.
#[derive(Drop)]
pub(crate) enum Called<'a> {
    Function(Callee),
    Constructor(Maker<'a>),
}

/// The types of the fields, at those for the parameters.
fn field_tys(alloc: Global, maker: &Maker<'_>) -> Result<Vec<Ty>, NoMemory>
    ensures { IfOk result (λ v. v.items ≡ field_tys (made_by maker.now)) }
{
    let mut types = Vec::new(alloc);
    for field in maker.fields {
        types.push(applied(alloc, maker.arguments.as_slice(), &field.ty)?)?;
    }
    Ok(types)
}

/// What a path makes of arguments.
fn constructor_called<'a>(
    alloc: Global,
    types: &'a AdtTable,
    expected: &Option<Ty>,
    span: Span,
    path: &Path,
) -> Result<Called<'a>, PassError>
    ensures { AnswersAs result (constructor_called types.now expected.now span path.now.node) call_by }
{
    let maker = maker_of(alloc, types, VariantKind::Numbered, expected, span, path)?;
    let fields = field_tys(alloc, &maker)?;
    if are_built(types.decls(), fields.as_slice()) {
        Ok(Called::Constructor(maker))
    } else {
        Err(unbuilt(span))
    }
}

/// What a call by the path calls: a function, else what makes a value. A variable of the name hides both.
fn called_by<'a>(
    alloc: Global,
    setting: &Setting<'a>,
    scope: &[Variable],
    expected: &Option<Ty>,
    span: Span,
    path: &Path,
) -> Result<Called<'a>, PassError>
    ensures { AnswersAs result (called_by (setting_of setting.now) scope.now expected.now span path.now.node (name_alone path.now.node)) call_by }
{
    if let Some(name) = name_alone(path) {
        if find_variable(alloc, name.name, scope)?.is_some() {
            return Err(unknown_name(name.span));
        }
        if let Some(callee) = find_function(alloc, name.name, setting.headings)? {
            return Ok(Called::Function(callee));
        }
    }
    constructor_called(alloc, setting.types, expected, span, path)
}

/// What is called; the span is that of the call.
#[tactic(auto, unfolding(crate::specs::Typing::callee_of))]
pub(crate) fn callee_of<'a>(
    alloc: Global,
    setting: &Setting<'a>,
    scope: &[Variable],
    expected: &Option<Ty>,
    span: Span,
    f: &Expr,
) -> Result<Called<'a>, PassError>
    ensures { AnswersAs result (callee_of (setting_of setting.now) scope.now expected.now span f.now) call_by }
{
    match &*f.node {
        ExprNode::Path(path) => called_by(alloc, setting, scope, expected, span, path),
        _ => Err(unbuilt(span)),
    }
}

/// The types of its parameters.
pub(crate) fn params_of(alloc: Global, callee: &Called<'_>) -> Result<Vec<Ty>, NoMemory>
    ensures { IfOk result (λ v. v.items ≡ params_of (call_by callee.now)) }
{
    match callee {
        Called::Function(f) => copy_types(alloc, f.signature.params.as_slice()),
        Called::Constructor(maker) => field_tys(alloc, maker),
    }
}

/// The call with these arguments, as many as there are parameters.
#[tactic(auto, unfolding(crate::specs::Typing::called), using(crate::proofs::Arguments::how_many_are))]
pub(crate) fn with_arguments(
    alloc: Global,
    expected: &Option<Ty>,
    span: Span,
    callee: Called<'_>,
    params: usize,
    args: Vec<TypedExpr>,
) -> Result<TypedExpr, PassError>
    requires { params ≡ length (params_of (call_by callee)) }
    ensures { Answers result (called expected.now span (call_by callee.entry) (exprs_of args.items)) }
{
    if args.len() != params {
        return Err(mismatch(span));
    }
    match callee {
        Called::Function(f) => {
            let node = TypedNode::Call(f.place, args);
            fit(alloc, expected, span, f.signature.answer, span, node)
        }
        Called::Constructor(maker) => literal_made(alloc, expected, span, maker, args),
    }
}
