//! A sequent: its variables, its hypotheses with their labels, and its goal.
use crate::formula::push_formula;
use crate::spelling::Spelled;
use logic_term::{Label2, Term};
use text_core::{Name, NoMemory};

/// After so many labels in a row that a step does not have it is asked for no more.
const GAP: u32 = 16;

/// `  x: S`, where it is a variable of the sequent.
fn push_variable(
    out: &mut String,
    spelled: &Spelled<'_>,
    name: Name,
    before: &str,
) -> Result<(), NoMemory> {
    let Some(sort) = spelled.sequent.sort_of(name) else {
        return Ok(());
    };
    let text = spelled.variable(name);
    let sort = spelled.sort(sort)?;
    writeln!(out, "{before}{text}: {sort}")?;
    Ok(())
}

fn push_hypothesis(
    out: &mut String,
    spelled: &Spelled<'_>,
    label: Label2,
    hyp: &Term,
    before: &str,
) -> Result<(), NoMemory> {
    write!(out, "{before}{}.{}: ", label.step, label.part)?;
    push_formula(out, spelled, &[], hyp)?;
    Ok(out.push('\n')?)
}

/// The hypotheses that the step added.
fn push_added(
    out: &mut String,
    spelled: &Spelled<'_>,
    step: u32,
    before: &str,
) -> Result<(), NoMemory> {
    let mut missing: u32 = 0;
    for part in 1..u32::MAX {
        let label = Label2 { step, part };
        match spelled.sequent.hypothesis(spelled.alloc, label)? {
            Some(hyp) => {
                push_hypothesis(out, spelled, label, &hyp, before)?;
                missing = 0;
            }
            None if missing >= GAP => return Ok(()),
            None => missing += 1,
        }
    }
    Ok(())
}

/// What the sequent says. The variables that are shown are those of these names, and the hypotheses those of steps before
/// the number. Each line begins with `before`.
pub(crate) fn push_sequent(
    out: &mut String,
    spelled: &Spelled<'_>,
    variables: &[Name],
    number: u32,
    before: &str,
) -> Result<(), NoMemory> {
    for name in variables {
        push_variable(out, spelled, *name, before)?;
    }
    for step in 1..number {
        push_added(out, spelled, step, before)?;
    }
    push_goal(out, spelled, before)
}

/// `|- GOAL`
fn push_goal(out: &mut String, spelled: &Spelled<'_>, before: &str) -> Result<(), NoMemory> {
    let goal = spelled.sequent.goal(spelled.alloc)?;
    write!(out, "{before}|- ")?;
    push_formula(out, spelled, &[], &goal)?;
    out.push('\n')?;
    Ok(())
}
