//! Goals from formulas.
ghost use Rattle.std.specs.Prelude.{◌≡◌, drop, IfOk};
ghost use Rattle.prophecy_logic.specs.Walk.{first_span, each_goal, all_at};

use logic_term::Term;
use prophecy_logic::Goal;
use std::alloc::Global;
use text_core::{Kind, NoMemory, Span};

fn goal_of(kind: Kind, span: Span, term: &Term) -> Result<Goal, NoMemory>
    ensures { IfOk result (λ g. g ≡ record { kind = kind; span = span; formula = term.now }) }
{
    let formula = term.share()?;
    Ok(Goal {
        kind,
        span,
        formula,
    })
}

/// The span of this number; where none is given, the empty one at the start of the source.
fn span_at(spans: &[Span], at: usize) -> Span
    ensures { result ≡ first_span (drop at spans.now) }
{
    match spans.get(at) {
        Some(span) => *span,
        None => Span { start: 0, end: 0 },
    }
}

/// One goal for each formula, with its span.
pub(crate) fn each_goal(
    alloc: Global,
    kind: Kind,
    terms: &[Term],
    spans: &[Span],
) -> Result<Vec<Goal>, NoMemory>
    ensures { IfOk result (λ v. v.items ≡ each_goal kind terms.now spans.now) }
{
    let mut goals = Vec::new(alloc);
    for i in 0..terms.len() {
        goals.push(goal_of(kind, span_at(spans, i), &terms[i])?)?;
    }
    Ok(goals)
}

/// One goal for each formula, all at one span.
pub(crate) fn all_at(
    alloc: Global,
    kind: Kind,
    span: Span,
    terms: &[Term],
) -> Result<Vec<Goal>, NoMemory>
    ensures { IfOk result (λ v. v.items ≡ all_at kind span terms.now) }
{
    let mut goals = Vec::new(alloc);
    for term in terms {
        goals.push(goal_of(kind, span, term)?)?;
    }
    Ok(goals)
}
