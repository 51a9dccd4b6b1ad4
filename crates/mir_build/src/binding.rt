//! The ends of bindings.
ghost use Rattle.std.specs.Prelude.{◌≡◌, length, take, drop, OnOk};
ghost use Rattle.mir_build.specs.Lowering.{dies_in};
ghost use Rattle.mir_build.specs.Built.{written};
ghost use Rattle.mir_build.specs.Bindings.{all_die};

use crate::around::Around;
use crate::builder::Builder;
use text_core::{NoMemory, Span};

/// Ends the bindings of a block around which so many variables are in scope, the last one first. Those of the outermost block of a body
/// only go out of scope.
#[tactic(auto, using(crate::proofs::Runs::running))]
pub(crate) fn end_bindings(
    b: &mut Builder,
    c: &mut Around<'_>,
    outer: bool,
    span: Span,
    before: usize,
) -> Result<(), NoMemory>
    ensures text { OnOk result (b.new.text ≡ written (all_die outer span (drop before c.old.scope.items)) b.old.text) }
    ensures labels { OnOk result (b.new.labels ≡ b.old.labels) }
    ensures locals { OnOk result (length b.new.text.locals ≡ length b.old.text.locals) }
    ensures scope { OnOk result (c.new.scope.items ≡ take before c.old.scope.items) }
    ensures types { OnOk result (c.new.types ≡ c.old.types) }
    ensures loops { OnOk result (c.new.loops ≡ c.old.loops) }
{
    while c.scope.len() > before {
        let Some(place) = c.scope.pop() else {
            return Ok(());
        };
        end_binding(b, outer, span, place.local)?;
    }
    Ok(())
}

/// The binding of the local ends, but not one of the outermost block of a body.
fn end_binding(b: &mut Builder, outer: bool, span: Span, local: u32) -> Result<(), NoMemory>
    ensures text { OnOk result (b.new.text ≡ written (dies_in outer span local) b.old.text) }
    ensures labels { OnOk result (b.new.labels ≡ b.old.labels) }
    ensures locals { OnOk result (length b.new.text.locals ≡ length b.old.text.locals) }
{
    if outer {
        return Ok(());
    }
    b.kill(span, local)
}
