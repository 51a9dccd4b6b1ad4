//! The rule that takes an existential hypothesis apart.
ghost use Rattle.std.specs.Prelude.{◌≡◌, ◌↔◌, ◌∷◌, [], IfOk, IsTrue};
ghost use Rattle.proof_kernel.specs.Intro.{declaring};
ghost use Rattle.proof_kernel.specs.Rules.{Finds, IsNew, with_hyps};
ghost use Rattle.proof_kernel.specs.UnpackRule.{under_name, unpack_rule};

use crate::intro::is_new;
use crate::rules::{one_premise, with_hypothesis};
use crate::sequent::Sequent;
use logic_term::{Label2, Quantifier, Renaming, Sort, Term, TermForm};
use std::alloc::Global;
use text_core::{Name, NoMemory};

/// Whether the name is new in the sequent.
pub(crate) fn is_new_in(alloc: Global, name: Name, q: &Sequent) -> Result<bool, NoMemory>
    ensures { IfOk result (λ b. IsTrue b ↔ IsNew name q.now) }
{
    let above = q.above_free(alloc)?;
    is_new(alloc, name, q, above)
}

/// The formula at the name for its variable.
fn under_name(alloc: Global, from: Name, to: Name, t: &Term) -> Result<Term, NoMemory>
    ensures { IfOk result (λ u. u ≡ under_name from to t.now) }
{
    let mut names = Vec::with_capacity(alloc, 1)?;
    names.push(Renaming { from, to })?;
    t.renamed(alloc, &mut names)
}

/// The sequent with the name as a variable of the sort, and the formula at it for its variable.
fn with_some(
    alloc: Global,
    step: u32,
    q: &Sequent,
    name: Name,
    from: Name,
    sort: &Sort,
    body: &Term,
) -> Result<Sequent, NoMemory>
    ensures { IfOk result (λ p. p ≡ with_hyps step (declaring q.now name sort.now) (under_name from name body.now ∷ [])) }
{
    let hyp = under_name(alloc, from, name, body)?;
    let sort = sort.copy(alloc)?;
    let q = q.share()?;
    let q = q.declaring(alloc, name, sort)?;
    with_hypothesis(alloc, step, &q, hyp)
}

/// The premise of step `step`; `None` exactly where there is no such hypothesis, or it is not existential.
pub(crate) fn unpack_rule(
    alloc: Global,
    step: u32,
    label: Label2,
    name: Name,
    q: &Sequent,
) -> Result<Option<Vec<Sequent>>, NoMemory>
    ensures { IfOk result (λ o. Finds (unpack_rule step q.now label name) o) }
{
    let Some(h) = q.hypothesis(alloc, label)? else {
        return Ok(None);
    };
    match h.form() {
        TermForm::Quantified(Quantifier::Exists, from, sort, body) => {
            let premise = with_some(alloc, step, q, name, from, sort, body)?;
            Ok(Some(one_premise(alloc, premise)?))
        }
        _ => Ok(None),
    }
}
