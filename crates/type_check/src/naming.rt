//! Paths that stand for values.
ghost use Rattle.std.specs.Prelude.{◌≡◌, IfOk};
ghost use Rattle.type_check.specs.Answers.{Answers};
ghost use Rattle.type_check.specs.Typing.{local_of, named};

use crate::literals::made_alone;
use crate::making::maker_of;
use crate::scope::{Found, Variable, find_variable};
use crate::typed::{TypedExpr, TypedNode};
use crate::typing::fit;
use crate::written::name_alone;
use logic_term::{Ty, VariantKind};
use rs_types::AdtTable;
use source_trees::{Path, Segment};
use std::alloc::Global;
use text_core::{NoMemory, PassError, Span};

/// The variable that the path is, if it is a name alone.
fn local_of(
    alloc: Global,
    name: Option<Segment>,
    scope: &[Variable],
) -> Result<Option<Found>, NoMemory>
    ensures { IfOk result (λ o. o ≡ local_of scope.now name) }
{
    match name {
        Some(name) => find_variable(alloc, name.name, scope),
        None => Ok(None),
    }
}

/// A path: a variable in scope, else what makes a value without fields.
#[tactic(auto, unfolding(crate::specs::Typing::named))]
pub(crate) fn named(
    alloc: Global,
    types: &AdtTable,
    scope: &[Variable],
    expected: &Option<Ty>,
    span: Span,
    path: &Path,
) -> Result<TypedExpr, PassError>
    ensures { Answers result (named types.now scope.now expected.now span path.now.node) }
{
    if let Some(found) = local_of(alloc, name_alone(path), scope)? {
        let Found { place, ty } = found;
        let node = TypedNode::Variable(place);
        return fit(alloc, expected, span, ty, span, node);
    }
    let maker = maker_of(alloc, types, VariantKind::Unit, expected, span, path)?;
    made_alone(alloc, expected, span, maker)
}
