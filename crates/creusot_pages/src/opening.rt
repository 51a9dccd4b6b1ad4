//! An obligation behind an `intro`.
use crate::attempt::takes;
use crate::naming::{Words, leads, names_for};
use crate::sequent_page::push_sequent;
use crate::spelling::Spelled;
use goal_text::Spelling;
use logic_term::Obligation;
use proof_kernel::{Kernel, Step, Tables};
use std::alloc::Global;
use text_core::{Items, Name, Names, NoMemory};
use verify_core::Program;

/// The names that an `intro` gives to what leads a goal, with their table.
#[derive(Drop)]
pub(crate) struct Intro {
    pub(crate) names: Names,
    pub(crate) given: Vec<Name>,
    /// Whether anything leads the goal.
    pub(crate) any: bool,
}

impl Intro {
    /// An `intro` for the obligation.
    pub(crate) fn of(
        alloc: Global,
        words: &Words,
        obligation: &Obligation,
    ) -> Result<Intro, NoMemory> {
        let goal = obligation.goal.term(alloc)?;
        let (count, any) = leads(&goal);
        let mut names = Names::new(alloc);
        let owner = obligation.owner.bytes();
        let given = names_for(alloc, words, owner, count, &mut names)?;
        Ok(Intro { names, given, any })
    }
}

/// A kernel on the obligation, in which the `intro` is done, where anything leads the goal.
fn opened<'a>(
    alloc: Global,
    obligation: &'a Obligation,
    tables: &'a Tables,
    intro: &Intro,
) -> Result<Kernel<'a>, NoMemory> {
    let mut kernel = Kernel::new(alloc, obligation, tables)?;
    if intro.any {
        let step = Step::Intro(Items::from_slice(alloc, &intro.given)?);
        let _taken = takes(alloc, &mut kernel, &step)?;
    }
    Ok(kernel)
}

/// The sequent of the obligation behind the `intro`, each line behind `before`.
pub(crate) fn push_opened(
    alloc: Global,
    out: &mut String,
    obligation: &Obligation,
    program: &Program,
    intro: &Intro,
    before: &str,
) -> Result<(), NoMemory> {
    let kernel = opened(alloc, obligation, &program.tables, intro)?;
    match kernel.first() {
        Some(q) => {
            let spelled = Spelled {
                alloc,
                variables: &intro.names,
                declared: declared_by(program),
                sequent: q,
            };
            push_sequent(out, &spelled, &intro.given, 2, before)
        }
        None => Ok(()),
    }
}

/// What the program declares, with the texts of its names.
pub(crate) fn declared_by(program: &Program) -> Spelling<'_> {
    Spelling {
        adts: program.bodies.decls.as_slice(),
        names: &program.names,
    }
}
