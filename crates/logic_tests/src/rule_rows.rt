//! Proofs of one obligation as text, through the kernel. In the goals A is `z < 0`, B is `w < 0` and C is `z <= w`; an operator stands
//! before its parts, as in `written.rt`.
ghost use Rattle.std.specs.Prelude.{◌<◌, length};

use crate::steps::{apply, obligation};
use crate::written::term;
use logic_term::Obligation;
use proof_kernel::{Kernel, StepError, Tables};
use proof_text::{NumberedStep, ProofFile, read_proofs};
use std::alloc::Global;
use std::process::Abort;
use std::test::Fail;
use text_core::Names;

/// The file with these lines as the steps of its one proof.
pub(crate) fn file_of(alloc: Global, steps: &str) -> Result<ProofFile, Fail> {
    let text = format!(in alloc; "creusot-proofs 1\nproof 1 next\n{steps}end\n")?;
    if text.len() > 1000 {
        return Err("long".into());
    }
    let mut names = Names::new(alloc);
    Ok(read_proofs(alloc, text.as_bytes(), &mut names)?)
}

/// Whether no sequent is left when the steps are done.
pub(crate) fn closes(
    alloc: Global,
    obligation: &Obligation,
    tables: &Tables,
    steps: &[NumberedStep],
) -> Result<bool, StepError>
    requires { length steps.now < 90 }
{
    let mut kernel = Kernel::new(alloc, obligation, tables)?;
    for numbered in steps {
        apply(&mut kernel, alloc, &numbered.step)?;
    }
    Ok(kernel.closed())
}

/// What the steps of the text make of the goal of the text.
fn outcome(alloc: Global, goal: &str, steps: &str) -> Result<Result<bool, StepError>, Fail> {
    outcome_in(alloc, &Tables::new(alloc), goal, steps)
}

/// The same in a program of these tables.
pub(crate) fn outcome_in(
    alloc: Global,
    tables: &Tables,
    goal: &str,
    steps: &str,
) -> Result<Result<bool, StepError>, Fail> {
    let file = file_of(alloc, steps)?;
    let proof = file.proofs.get(0).ok_or("no proof")?;
    let steps = proof.steps.as_slice();
    if steps.len() >= 90 {
        return Err("many steps".into());
    }
    let obligation = obligation(alloc, term(alloc, goal.as_bytes())?)?;
    Ok(closes(alloc, &obligation, tables, steps))
}

/// The number of the step that no rule fits; 0 where there is none.
fn refused_at(alloc: Global, goal: &str, steps: &str) -> Result<u32, Fail> {
    match outcome(alloc, goal, steps)? {
        Err(StepError::RuleFails { step }) => Ok(step),
        _ => Ok(0),
    }
}

fn is_closed(alloc: Global, goal: &str, steps: &str) -> Result<bool, Fail> {
    match outcome(alloc, goal, steps)? {
        Ok(closed) => Ok(closed),
        Err(_) => Ok(false),
    }
}

/// Rules by the form of the goal, which close it.
const BY_GOAL: [(&str, &str); 17] = [
    ("ZW=zz", "intro z w\nrefl\n"),
    ("=X<@xcY<@yc", "refl\n"),
    ("T", "true\n"),
    ("ZW><z0|<z0<w0", "intro z w\nleft\nhyp 1.1\n"),
    ("ZW><w0|<z0<w0", "intro z w\nright\nhyp 1.1\n"),
    ("ZW><w0||<z0<w0lzw", "intro z w\nleft\nright\nhyp 1.1\n"),
    ("ZW>lzw||<z0<w0lzw", "intro z w\nright\nhyp 1.1\n"),
    ("ZW>!<z0!<z0", "intro z w\ncontra\nabsurd 2.1 1.1\n"),
    ("ZW>F!<z0", "intro z w\ncontra\nhyp 1.1\n"),
    ("ZW><z0<z0", "intro z w\nbyc\nabsurd 1.1 2.1\n"),
    ("ZW>!<z0!<z0", "intro z w\nbyc\nabsurd 1.1 2.1\n"),
    ("ZW>F<z0", "intro z w\nbyc\nhyp 1.1\n"),
    (
        "ZW=&<z0<w0&<w0<z0",
        "intro z w\niff\nintro\ncases 3.1\nsplit\nhyp 4.2\nhyp 4.1\nintro\ncases 8.1\nsplit\nhyp 9.2\nhyp 9.1\n",
    ),
    ("B>x=xT", "intro x\niff\nintro\ntrue\nintro\nhyp 1.1\n"),
    ("ZW>lzw>lwz=zw", "intro z w\nantisym\nhyp 1.1\nhyp 1.2\n"),
    ("ZW>lzw>lwz=wz", "intro z w\nantisym\nhyp 1.2\nhyp 1.1\n"),
    (
        "XY>l@x@y>l@y@x=@x@y",
        "intro x y\nantisym\nhyp 1.1\nhyp 1.2\n",
    ),
];

/// Goals of another form, or another goal behind the rule, with the step that is refused.
const NOT_BY_GOAL: [(&str, &str, u32); 20] = [
    ("ZW=zw", "intro z w\nrefl\n", 2),
    ("ZWlzz", "intro z w\nrefl\n", 2),
    ("ZW=zz", "refl\n", 1),
    ("F", "true\n", 1),
    ("ZW=zz", "intro z w\ntrue\n", 2),
    ("ZW><z0|<z0<w0", "intro z w\nright\nhyp 1.1\n", 3),
    ("ZW><w0|<z0<w0", "intro z w\nleft\nhyp 1.1\n", 3),
    ("ZW><z0&<z0<w0", "intro z w\nleft\n", 2),
    ("ZW><z0&<z0<w0", "intro z w\nright\n", 2),
    ("ZW><z0<z0", "intro z w\ncontra\n", 2),
    ("ZW>!<z0!<z0", "intro z w\ncontra\nhyp 1.1\n", 3),
    ("ZW>!<z0!<z0", "intro z w\ncontra\nabsurd 1.1 2.1\n", 3),
    ("ZW><z0<z0", "intro z w\nbyc\nhyp 1.1\n", 3),
    ("ZW><z0<z0", "intro z w\nbyc\nabsurd 2.1 1.1\n", 3),
    ("ZW>F<z0", "byc\nabsurd 1.1 1.1\n", 2),
    ("ZW=zw", "intro z w\niff\n", 2),
    ("ZW=<z0<w0", "intro z w\niff\nintro\nhyp 3.1\n", 4),
    ("ZW=<z0<w0", "intro z w\nantisym\n", 2),
    ("XY=xy", "intro x y\nantisym\n", 2),
    ("ZW>lzw>lwz=zw", "intro z w\nantisym\nhyp 1.2\n", 3),
];

/// Rules by the form of one hypothesis. Those that take it apart number what they add from 1 in each premise.
const BY_HYPOTHESIS: [(&str, &str); 28] = [
    ("ZW>&&<z0<w0lzw<z0", "intro z w\ncases 1.1\nhyp 2.1\n"),
    ("ZW>&&<z0<w0lzw<w0", "intro z w\ncases 1.1\nhyp 2.2\n"),
    ("ZW>&&<z0<w0lzwlzw", "intro z w\ncases 1.1\nhyp 2.3\n"),
    ("ZW>&<z0&<w0lzwlzw", "intro z w\ncases 1.1\nhyp 2.3\n"),
    ("ZW>&<z0<w0&<z0<w0", "intro z w\ncases 1.1\nhyp 1.1\n"),
    (
        "ZW>|<z0<w0|<w0<z0",
        "intro z w\ncases 1.1\nright\nhyp 2.1\nleft\nhyp 2.1\n",
    ),
    (
        "ZW>||<z0<z0<z0<z0",
        "intro z w\ncases 1.1\nhyp 2.1\nhyp 2.1\nhyp 2.1\n",
    ),
    (
        "ZW>|<z0|<z0<z0<z0",
        "intro z w\ncases 1.1\nhyp 2.1\nhyp 2.1\nhyp 2.1\n",
    ),
    (
        "ZW>><z0<w0|!<z0<w0",
        "intro z w\ncases 1.1\nleft\nhyp 2.1\nright\nhyp 2.1\n",
    ),
    ("ZW>!&<z0<w0|!<z0!<w0", "intro z w\ncases 1.1\nhyp 2.1\n"),
    ("ZW>!|<z0<w0&!<z0!<w0", "intro z w\ncases 1.1\nhyp 2.1\n"),
    ("ZW>!><z0<w0&<z0!<w0", "intro z w\ncases 1.1\nhyp 2.1\n"),
    ("ZW>!!<z0<z0", "intro z w\ncases 1.1\nhyp 2.1\n"),
    (
        "ZW>!&&<z0<w0lzw|!&<z0<w0!lzw",
        "intro z w\ncases 1.1\nhyp 2.1\n",
    ),
    ("ZW>F<z0", "intro z w\nabsurd 1.1\n"),
    ("ZW><z0><w0<w0", "intro z w\ndrop 1.1\nhyp 1.2\n"),
    ("ZW><z0<z0", "intro z w\nrevert 1.1\nintro\nhyp 3.1\n"),
    ("ZW><z0><w0<w0", "intro z w\nrevert 1.1\nintro\nhyp 1.2\n"),
    (
        "ZW><w0><z0<z0",
        "intro z w\nrevert 1.2\nrevert 1.1\nintro\nhyp 4.2\n",
    ),
    (
        "ZW>=<z0<w0|<z0!<w0",
        "intro z w\ncases 1.1\nleft\nhyp 2.1\nright\nhyp 2.2\n",
    ),
    (
        "ZW>=<z0<w0|<w0!<z0",
        "intro z w\ncases 1.1\nleft\nhyp 2.2\nright\nhyp 2.1\n",
    ),
    (
        "ZW>!=<z0<w0|<z0<w0",
        "intro z w\ncases 1.1\nleft\nhyp 2.1\nright\nhyp 2.2\n",
    ),
    (
        "ZW>!=<z0<w0|!<w0!<z0",
        "intro z w\ncases 1.1\nleft\nhyp 2.2\nright\nhyp 2.1\n",
    ),
    ("ZW>=azaw=zw", "intro z w\ninj 1.1\nhyp 2.1\n"),
    ("ZW>=pz0pw1=zw", "intro z w\ninj 1.1\nhyp 2.1\n"),
    ("ZW>=pz0pw1=01", "intro z w\ninj 1.1\nhyp 2.2\n"),
    ("ZW>=azbw<z0", "intro z w\ndiffer 1.1\n"),
    ("ZW>=nbw<z0", "intro z w\ndiffer 1.1\n"),
];

const NOT_BY_HYPOTHESIS: [(&str, &str, u32); 25] = [
    ("ZW><z0<z0", "intro z w\ncases 1.1\n", 2),
    ("ZW>!<z0!<z0", "intro z w\ncases 1.1\n", 2),
    ("ZW>=zw<z0", "intro z w\ncases 1.1\n", 2),
    ("ZW>T<z0", "intro z w\ncases 1.1\n", 2),
    ("ZW>&<z0<w0<z0", "intro z w\ncases 1.2\n", 2),
    ("ZW>&<z0<w0<z0", "intro z w\ncases 1.1\nhyp 2.2\n", 3),
    (
        "ZW>|<z0<w0<z0",
        "intro z w\ncases 1.1\nhyp 2.1\nhyp 2.1\n",
        4,
    ),
    ("ZW>><z0<w0<w0", "intro z w\ncases 1.1\nhyp 2.1\n", 3),
    ("ZW>T<z0", "intro z w\nabsurd 1.1\n", 2),
    ("ZW>!<z0<z0", "intro z w\nabsurd 1.1\n", 2),
    ("ZW><z0<z0", "intro z w\ndrop 1.2\n", 2),
    ("ZW><z0<z0", "intro z w\ndrop 1.1\nhyp 1.1\n", 3),
    ("ZW><z0<z0", "intro z w\nrevert 1.2\n", 2),
    ("ZW><z0<z0", "intro z w\nrevert 1.1\nhyp 1.1\n", 3),
    ("ZW><z0<z0", "intro z w\nrevert 1.1\nintro\nhyp 1.1\n", 4),
    ("ZW>!=zw<z0", "intro z w\ncases 1.1\n", 2),
    (
        "ZW>=<z0<w0<z0",
        "intro z w\ncases 1.1\nhyp 2.1\nhyp 2.1\n",
        4,
    ),
    ("ZW>=azbw<z0", "intro z w\ninj 1.1\n", 2),
    ("ZW>=azpzw<z0", "intro z w\ninj 1.1\n", 2),
    ("ZW>=pzwu<z0", "intro z w\ninj 1.1\n", 2),
    ("ZW>=zw<z0", "intro z w\ninj 1.1\n", 2),
    ("ZW>=pz0pw1=zw", "intro z w\ninj 1.1\nhyp 2.2\n", 3),
    ("ZW>=azaw<z0", "intro z w\ndiffer 1.1\n", 2),
    ("ZW>=pzwu<z0", "intro z w\ndiffer 1.1\n", 2),
    ("ZW>=zaw<z0", "intro z w\ndiffer 1.1\n", 2),
];

/// Rules by the forms of two hypotheses.
const BY_TWO: [(&str, &str); 8] = [
    ("ZW>><z0<w0><z0<w0", "intro z w\nmp 1.1 1.2\nhyp 2.1\n"),
    ("ZW><z0>><z0<w0<w0", "intro z w\nmp 1.2 1.1\nhyp 2.1\n"),
    ("ZW>>X<@xclzw>Y<@yclzw", "intro z w\nmp 1.1 1.2\nhyp 2.1\n"),
    ("ZW><z0>!<z0<w0", "intro z w\nabsurd 1.1 1.2\n"),
    ("ZW>X<@xc>!Y<@yc<w0", "intro z w\nabsurd 1.1 1.2\n"),
    ("ZW>lz1>lw2l0*-1z-2w", "intro z w\nmul 1.1 1.2\nhyp 2.1\n"),
    ("ZW>lz1>lw2l0*-2w-1z", "intro z w\nmul 1.2 1.1\nhyp 2.1\n"),
    ("ZW>l0zl0*-z0-z0", "intro z w\nmul 1.1 1.1\nhyp 2.1\n"),
];

const NOT_BY_TWO: [(&str, &str, u32); 11] = [
    ("ZW>><z0<w0><z0<w0", "intro z w\nmp 1.2 1.1\n", 2),
    ("ZW>><z0<w0><w0<z0", "intro z w\nmp 1.1 1.2\n", 2),
    ("ZW>><z0<w0><z0<w0", "intro z w\nmp 1.1 1.3\n", 2),
    ("ZW>><z0<w0><z0<z0", "intro z w\nmp 1.1 1.2\nhyp 2.1\n", 3),
    ("ZW><z0>!<z0<w0", "intro z w\nabsurd 1.2 1.1\n", 2),
    ("ZW><z0>!<w0<w0", "intro z w\nabsurd 1.1 1.2\n", 2),
    ("ZW>F>!F<w0", "intro z w\nabsurd 1.1 1.1\n", 2),
    ("ZW><z1>lw2l0*-1z-2w", "intro z w\nmul 1.1 1.2\n", 2),
    ("ZW>lz1><w2l0*-1z-2w", "intro z w\nmul 1.1 1.2\n", 2),
    ("ZW>lz1>=w2l0*-1z-2w", "intro z w\nmul 1.1 1.2\n", 2),
    (
        "ZW>lz1>lw2l0*-1z-2w",
        "intro z w\nmul 1.2 1.1\nhyp 2.1\n",
        3,
    ),
];

/// Rules that put an equation into the goal, or into a hypothesis.
const BY_EQUATION: [(&str, &str); 18] = [
    ("ZW>=zw><w0<z0", "intro z w\nrewrite 1.1\nhyp 1.2\n"),
    ("ZW>=zw><z0<w0", "intro z w\nrewrite < 1.1\nhyp 1.2\n"),
    ("ZW>=zw><z0<w0", "intro z w\nrewrite 1.1 in 1.2\nhyp 2.1\n"),
    (
        "ZW>=zw><w0<z0",
        "intro z w\nrewrite < 1.1 in 1.2\nhyp 2.1\n",
    ),
    // Every occurrence, and what is put is not looked into.
    ("ZW>=zw=*z+z1*w+w1", "intro z w\nrewrite 1.1\nrefl\n"),
    (
        "ZW>=z+z1><*+z1+z10<*zz0",
        "intro z w\nrewrite 1.1\nhyp 1.2\n",
    ),
    ("ZW>=+z1w><+w10<++z110", "intro z w\nrewrite 1.1\nhyp 1.2\n"),
    (
        "ZW>=z+z1=+z1++z11",
        "intro z w\nrewrite 1.1 in 1.1\nhyp 2.1\n",
    ),
    // No occurrence; and a hypothesis that stays.
    ("ZW>=zw><w0<w0", "intro z w\nrewrite 1.1\nhyp 1.2\n"),
    ("ZW>=zw><w0<w0", "intro z w\nrewrite 1.1 in 1.2\nhyp 2.1\n"),
    ("ZW>=zw><z0<z0", "intro z w\nrewrite 1.1 in 1.2\nhyp 1.2\n"),
    // The normal form.
    ("X>=xi=@x5", "intro x\nrewrite 1.1\nrefl\n"),
    ("X>=xi>=@x5=55", "intro x\nrewrite 1.1 in 1.2\nhyp 2.1\n"),
    // Under quantifiers: what is free alone, nothing captured, and up to bound names.
    ("ZW>=zw>X<@xwX<@xz", "intro z w\nrewrite 1.1\nhyp 1.2\n"),
    ("XZ>=z@x>Y<@y@xX<@xz", "intro x z\nrewrite 1.1\nhyp 1.2\n"),
    ("XZ>=@xz>Y<@y0X<@x0", "intro x z\nrewrite 1.1\nhyp 1.2\n"),
    (
        "XZ>=@xz>X<@xzY<@y@x",
        "intro x z\nrewrite < 1.1 in 1.2\nhyp 2.1\n",
    ),
    (
        "ZW>=X<@xc<z0>Y<@yc<z0",
        "intro z w\nrewrite 1.1 in 1.2\nhyp 2.1\n",
    ),
];

const NOT_BY_EQUATION: [(&str, &str, u32); 12] = [
    ("ZW>=zw><z0<w0", "intro z w\nrewrite 1.1\nhyp 1.2\n", 3),
    ("ZW>=zw><w0<z0", "intro z w\nrewrite < 1.1\nhyp 1.2\n", 3),
    (
        "ZW>=zw><z0<w0",
        "intro z w\nrewrite 1.1 in 1.2\nhyp 1.2\n",
        3,
    ),
    (
        "ZW>=zw><z0<w0",
        "intro z w\nrewrite 1.1 in 1.2\nhyp 2.2\n",
        3,
    ),
    ("ZW>=zw><z0<w0", "intro z w\nrewrite 1.2\n", 2),
    ("ZW>=zw><z0<w0", "intro z w\nrewrite 1.3\n", 2),
    ("ZW>=zw><z0<w0", "intro z w\nrewrite 1.1 in 1.3\n", 2),
    ("ZW>=zw><z0<w0", "intro z w\nrewrite < 1.3 in 1.1\n", 2),
    ("ZW>lzw><z0<w0", "intro z w\nrewrite 1.1\n", 2),
    ("ZW>!=zw><z0<w0", "intro z w\nrewrite 1.1\n", 2),
    (
        "XZ>=z@x>X<@x@xX<@xz",
        "intro x z\nrewrite 1.1\nhyp 1.2\n",
        3,
    ),
    ("XZ>=@xz>X<z0X<@x0", "intro x z\nrewrite 1.1\nhyp 1.2\n", 3),
];

fn expect_closed(rt: &impl Abort, alloc: Global, rows: &[(&str, &str)]) -> Result<(), Fail> {
    for (goal, steps) in rows {
        assert!(rt; is_closed(alloc, *goal, *steps)?, "{goal} by {steps}");
    }
    Ok(())
}

fn expect_refused(rt: &impl Abort, alloc: Global, rows: &[(&str, &str, u32)]) -> Result<(), Fail> {
    for (goal, steps, step) in rows {
        assert!(rt;
            refused_at(alloc, *goal, *steps)? == *step,
            "{goal} by {steps}"
        );
    }
    Ok(())
}

// ---- by a term, and back to machine integers

const BY_TERM: [(&str, &str); 26] = [
    ("ZW><z0<z0", "intro z w\ncut z < 0\nhyp 1.1\nhyp 2.1\n"),
    (
        "ZW><z0<z0",
        "intro z w\ncut !(z < 0) ==> w < z\nintro\nabsurd 1.1 3.1\nhyp 1.1\n",
    ),
    (
        "ZW>=zw><z0<w0",
        "intro z w\ncut w < 0\nrewrite < 1.1\nhyp 1.2\nhyp 2.1\n",
    ),
    (
        "XY>=@xc>=@ycT",
        "intro x y\ncut x@ + 0 == y@\nantisym\nlin 1:goal 1:1.1 1:-1.2\nlin 1:goal 1:-1.1 1:1.2\ntrue\n",
    ),
    (
        "Z|<z0!<z0",
        "intro z\non z < 0\nleft\nhyp 2.1\nright\nhyp 2.1\n",
    ),
    (
        "Z|<z0!<z0",
        "intro z\non z /* a comment */ < 0\nleft\nhyp 2.1\nright\nhyp 2.1\n",
    ),
    // What is bound is not the variable of that name.
    (
        "ZW><z0<z0",
        "intro z w\ncut forall<z: Int, w: bool> w ==> z <= z\nintro k b\nlin 1:goal\nhyp 1.1\n",
    ),
    ("XY>=@x@y=xy", "intro x y\nback 1.1\nhyp 2.1\n"),
    ("XY>=@x@y=yx", "intro x y\nback 1.1\nrewrite 2.1\nrefl\n"),
    // The bounds of a variable under another name, and of a literal, whose `@` is the number.
    ("XlL@x", "intro y\nrange y\nhyp 2.1\n"),
    ("Xl@xH", "intro y\nrange y\nhyp 2.2\n"),
    ("lL5", "range 5i32\nhyp 1.1\n"),
    ("l5H", "range 5i32\nhyp 1.2\n"),
    // What a division of z by w says, one hypothesis after the other.
    (
        "ZW>!=w0=z+*w/zw%zw",
        "intro z w\ndiv z ; w\nmp 2.1 1.1\nhyp 3.1\n",
    ),
    (
        "ZW>&l0z!=w0l0%zw",
        "intro z w\ndiv z ; w\nmp 2.2 1.1\nhyp 3.1\n",
    ),
    (
        "ZW>&lz0!=w0l%zw0",
        "intro z w\ndiv z ; w\nmp 2.3 1.1\nhyp 3.1\n",
    ),
    (
        "ZW><0w&<_w%zw<%zww",
        "intro z w\ndiv z ; w\nmp 2.4 1.1\nhyp 3.1\n",
    ),
    (
        "ZW><w0&<w%zw<%zw_w",
        "intro z w\ndiv z ; w\nmp 2.5 1.1\nhyp 3.1\n",
    ),
    (
        "X>!=20=@x+*2/@x2%@x2",
        "intro x\ndiv x@ ; 2\nmp 2.1 1.1\nhyp 3.1\n",
    ),
    // At a variable, a number and a literal; what is left quantified; and of two that bind one name the inner one.
    ("W>Z<z1<w1", "intro w\ninst 1.1 w\nhyp 2.1\n"),
    ("W>Z<z1<+w21", "intro w\ninst 1.1 w + 2\nhyp 2.1\n"),
    (">X<@x1<51", "intro\ninst 1.1 5i32\nhyp 2.1\n"),
    (">ZW<zw<12", "intro\ninst 1.1 1\ninst 2.1 2\nhyp 3.1\n"),
    (">ZZ<z1<21", "intro\ninst 1.1 1\ninst 2.1 2\nhyp 3.1\n"),
    // Two terms at once, for the outer name and the inner one.
    (">ZW<zw<12", "intro\ninst 1.1 1 ; 2\nhyp 2.1\n"),
    // The inner quantifier binds the name of the term, and does not capture it.
    ("Z>WZ<wzW<zw", "intro z\ninst 1.1 z\nhyp 2.1\n"),
];

const NOT_BY_TERM: [(&str, &str, u32); 29] = [
    // No formula, a name of no variable, other sorts.
    ("ZW><z0<z0", "intro z w\ncut z\n", 2),
    ("ZW><z0<z0", "intro z w\ncut q < 0\n", 2),
    ("XZ><z0<z0", "intro x z\ncut x < z\n", 2),
    ("ZW><z0<z0", "intro z w\non z + 1\n", 2),
    (
        "ZW><z0<z0",
        "intro z w\ncut (forall<k: Int> k <= z) ==> k < 0\n",
        2,
    ),
    // What is cut is to be shown first, and what is taken for true is no fact of the other case.
    ("ZW><z0<z0", "intro z w\ncut w < 0\nhyp 1.1\n", 3),
    ("ZW><z0<z0", "intro z w\non w < 0\nhyp 1.1\nhyp 2.1\n", 4),
    ("ZW>=zw=zw", "intro z w\nback 1.1\n", 2),
    ("XY><@x@yT", "intro x y\nback 1.1\n", 2),
    ("XY>=xyT", "intro x y\nback 1.1\n", 2),
    ("XZ>=@xzT", "intro x z\nback 1.1\n", 2),
    ("XY>=@x@yT", "intro x y\nback 1.2\n", 2),
    // No machine integers: an unbounded one, a formula; and a name of no variable.
    ("Zl0z", "intro z\nrange z\n", 2),
    ("Xl0@x", "intro x\nrange x@\n", 2),
    ("XT", "intro x\nrange x == x\n", 2),
    ("XT", "intro x\nrange q\n", 2),
    // No unbounded integers.
    ("XZT", "intro x z\ndiv x ; z\n", 2),
    ("XZT", "intro x z\ndiv z ; x\n", 2),
    ("ZWT", "intro z w\ndiv z ; w < z\n", 2),
    ("ZWT", "intro z w\ndiv q ; w\n", 2),
    // A division has no hypothesis more than five.
    ("ZW=zz", "intro z w\ndiv z ; w\nhyp 2.6\n", 3),
    // Another sort, a name of no variable, no quantifier, no hypothesis of the label, and another instance than the goal.
    ("X>Z<z1<@x1", "intro x\ninst 1.1 x\n", 2),
    ("W>Z<z1<w1", "intro w\ninst 1.1 q\n", 2),
    ("W>Z<z1<w1", "intro w\ninst 1.1 w < 1\n", 2),
    ("W><w1<w1", "intro w\ninst 1.1 w\n", 2),
    ("W>Z<z1<w1", "intro w\ninst 1.2 w\n", 2),
    (">ZZ<z1<21", "intro\ninst 1.1 2\ninst 2.1 1\nhyp 3.1\n", 4),
    (">ZW<zw<12", "intro\ninst 1.1 2 ; 1\nhyp 2.1\n", 3),
    // More terms than quantifiers.
    (">ZW<zw<12", "intro\ninst 1.1 1 ; 2 ; 3\n", 2),
];

#[test]
fn by_the_form_of_the_goal(rt: HostRuntime) -> Result<(), Fail> {
    expect_closed(&rt, rt.alloc(), &BY_GOAL)?;
    expect_refused(&rt, rt.alloc(), &NOT_BY_GOAL)
}

#[test]
fn by_the_form_of_a_hypothesis(rt: HostRuntime) -> Result<(), Fail> {
    expect_closed(&rt, rt.alloc(), &BY_HYPOTHESIS)?;
    expect_refused(&rt, rt.alloc(), &NOT_BY_HYPOTHESIS)
}

#[test]
fn by_the_forms_of_two_hypotheses(rt: HostRuntime) -> Result<(), Fail> {
    expect_closed(&rt, rt.alloc(), &BY_TWO)?;
    expect_refused(&rt, rt.alloc(), &NOT_BY_TWO)
}

#[test]
fn by_an_equation(rt: HostRuntime) -> Result<(), Fail> {
    expect_closed(&rt, rt.alloc(), &BY_EQUATION)?;
    expect_refused(&rt, rt.alloc(), &NOT_BY_EQUATION)
}

#[test]
fn by_a_term(rt: HostRuntime) -> Result<(), Fail> {
    expect_closed(&rt, rt.alloc(), &BY_TERM)?;
    expect_refused(&rt, rt.alloc(), &NOT_BY_TERM)
}

// ---- existential formulas, and `if`

/// An existential goal at a term; a hypothesis under a name; and what a denial of quantifiers says.
const BY_EXISTENCE: [(&str, &str); 9] = [
    ("WE=zw", "intro w\nexists w\nrefl\n"),
    ("WE<wz", "intro w\nexists w + 1\nlin 1:goal\n"),
    // In normal form; and no quantifier within captures the term.
    ("G=@x5", "exists 5i32\nrefl\n"),
    (
        "W>Z<wzEW<zw",
        "intro w\nexists w\nintro k\ninst 1.1 k\nhyp 4.1\n",
    ),
    (">E<z0E<z0", "intro\ncases 1.1 k\nexists k\nhyp 2.1\n"),
    ("W>E<zwE<zw", "intro w\ncases 1.1 k\nexists k\nhyp 2.1\n"),
    ("W>G<@xwE<zw", "intro w\ncases 1.1 k\nexists k@\nhyp 2.1\n"),
    ("W>!E<zwZ!<zw", "intro w\ncases 1.1\nhyp 2.1\n"),
    ("W>!Z<zwE!<zw", "intro w\ncases 1.1\nhyp 2.1\n"),
];

const NOT_BY_EXISTENCE: [(&str, &str, u32); 14] = [
    // Another sort, a name of no variable, another form, and another value.
    ("XE=zz", "intro x\nexists x\n", 2),
    ("WE=zw", "intro w\nexists q\n", 2),
    ("W=ww", "intro w\nexists w\n", 2),
    ("WZ=zz", "intro w\nexists w\n", 2),
    ("WE=zw", "intro w\nexists w + 1\nrefl\n", 3),
    // A name where there is nothing to be named, none where there is, and one that is there.
    ("ZW>|<z0<w0<z0", "intro z w\ncases 1.1 k\n", 2),
    ("W>!E<zwZ!<zw", "intro w\ncases 1.1 k\n", 2),
    (">E<z0E<z0", "intro\ncases 1.1\n", 2),
    ("W>E<z0E<z0", "intro w\ncases 1.1 w\n", 2),
    ("W>Z<z0<w0", "intro w\ncases 1.1 k\n", 2),
    ("W>E<z0E<z0", "intro w\ncases 1.2 k\n", 2),
    (">E<z0E<z0", "intro\ncases 1.1 k\nexists k\nhyp 2.2\n", 4),
    // What is denied of all is not denied of some.
    ("W>!E<zwE!<zw", "intro w\ncases 1.1\nhyp 2.1\n", 3),
    ("W>!Z<zwZ!<zw", "intro w\ncases 1.1\nhyp 2.1\n", 3),
];

/// `if` as a hypothesis, and in terms under a hypothesis that decides its condition.
const BY_CONDITION: [(&str, &str); 13] = [
    (
        "ZW>?<z0<w0lzw|&<z0<w0&!<z0lzw",
        "intro z w\ncases 1.1\nleft\nsplit\nhyp 2.1\nhyp 2.2\nright\nsplit\nhyp 2.1\nhyp 2.2\n",
    ),
    (
        "ZW>!?<z0<w0lzw|&<z0!<w0&!<z0!lzw",
        "intro z w\ncases 1.1\nleft\nsplit\nhyp 2.1\nhyp 2.2\nright\nsplit\nhyp 2.1\nhyp 2.2\n",
    ),
    ("ZW><z0=?<z0zwz", "intro z w\ncond 1.1\nrefl\n"),
    ("ZW>!<z0=?<z0zww", "intro z w\ncond 1.1\nrefl\n"),
    ("ZW>!<z0=?!<z0zwz", "intro z w\ncond 1.1\nrefl\n"),
    (
        "ZW><z0>?<z0<w0lzw<w0",
        "intro z w\ncond 1.1 in 1.2\nhyp 2.1\n",
    ),
    (
        "ZW><z0>?<z0<w0lzw?<z0<w0lzw",
        "intro z w\ncond 1.1 in 1.2\nhyp 1.2\n",
    ),
    // Each of them, within a side and under a quantifier too, and up to bound names.
    ("ZW><z0=?<z0?<z0zwwz", "intro z w\ncond 1.1\nrefl\n"),
    ("ZW><z0=+?<z0zw?<z0wz+zw", "intro z w\ncond 1.1\nrefl\n"),
    ("Z><z0W=?<z0zwz", "intro z\ncond 1.1\nintro w\nrefl\n"),
    ("ZW>X<@xc=?Y<@yczwz", "intro z w\ncond 1.1\nrefl\n"),
    // No occurrence.
    ("ZW><z0>=?<w0zw1=?<w0zw1", "intro z w\ncond 1.1\nhyp 1.2\n"),
    ("ZW><z0><w0<w0", "intro z w\ncond 1.1 in 1.2\nhyp 2.1\n"),
];

const NOT_BY_CONDITION: [(&str, &str, u32); 8] = [
    ("ZW><z0=?<z0zww", "intro z w\ncond 1.1\nrefl\n", 3),
    ("ZW>!<z0=?<z0zwz", "intro z w\ncond 1.1\nrefl\n", 3),
    ("ZW><z0=?!<z0zww", "intro z w\ncond 1.1\nrefl\n", 3),
    ("ZW><z0=?<z0zwz", "intro z w\ncond 1.2\n", 2),
    ("ZW><z0=?<z0zwz", "intro z w\ncond 1.1 in 1.2\n", 2),
    // What a quantifier binds is another.
    ("Z><z0Z=?<z0000", "intro z\ncond 1.1\nintro k\nrefl\n", 4),
    (
        "ZW>?<z0<w0lzw<w0",
        "intro z w\ncases 1.1\nhyp 2.2\nhyp 2.2\n",
        4,
    ),
    ("ZW>?<z0<w0lzwlzw", "intro z w\ncases 1.1\nhyp 2.2\n", 3),
];

/// A pair is made of its parts.
const BY_PARTS: [(&str, &str); 2] = [
    ("P=xpfxgx", "intro x\neta x\nhyp 2.1\n"),
    ("P><fx0<fpfxgx0", "intro x\neta x\nrewrite < 2.1\nhyp 1.1\n"),
];

const NOT_BY_PARTS: [(&str, &str, u32); 4] = [
    ("P=xpgxfx", "intro x\neta x\nhyp 2.1\n", 3),
    ("Z=zz", "intro z\neta z\n", 2),
    ("X=xx", "intro x\neta x\n", 2),
    ("P=xx", "intro x\neta y\n", 2),
];

#[test]
fn by_existence(rt: HostRuntime) -> Result<(), Fail> {
    expect_closed(&rt, rt.alloc(), &BY_EXISTENCE)?;
    expect_refused(&rt, rt.alloc(), &NOT_BY_EXISTENCE)
}

#[test]
fn by_a_condition(rt: HostRuntime) -> Result<(), Fail> {
    expect_closed(&rt, rt.alloc(), &BY_CONDITION)?;
    expect_refused(&rt, rt.alloc(), &NOT_BY_CONDITION)
}

#[test]
fn by_parts(rt: HostRuntime) -> Result<(), Fail> {
    expect_closed(&rt, rt.alloc(), &BY_PARTS)?;
    expect_refused(&rt, rt.alloc(), &NOT_BY_PARTS)
}

/// Steps that cite a label of no step above them.
const UNKNOWN: [&str; 16] = [
    "cases 2.1\n",
    "absurd 3.1\n",
    "drop 0.1\n",
    "revert 2.1\n",
    "mp 2.1 1.1\n",
    "mp 1.1 2.1\n",
    "absurd 1.1 0.1\n",
    "mul 9.1 1.1\n",
    "rewrite 2.1\n",
    "rewrite 1.1 in 2.1\n",
    "rewrite < 0.1\n",
    "rewrite < 1.1 in 0.1\n",
    "inst 2.1 z\n",
    "cases 2.1 k\n",
    "cond 2.1\n",
    "cond 1.1 in 0.1\n",
];

/// Whether this as the second step cites a step that is not above it.
fn is_unknown(alloc: Global, line: &str) -> Result<bool, Fail> {
    let steps = format!(in alloc; "intro z w\n{line}")?;
    let refused = outcome(alloc, "ZW><z0><w0<z0", &steps)?;
    Ok(matches!(refused, Err(StepError::UnknownStep { step: 2 })))
}

#[test]
fn labels_of_steps_above_alone(rt: HostRuntime) -> Result<(), Fail> {
    for line in &UNKNOWN {
        assert!(rt; is_unknown(rt.alloc(), *line)?, "{line}");
    }
    Ok(())
}

/// What a proof comes to, and at which step it is refused, if it is.
fn end_of(came: Result<bool, StepError>) -> (&'static str, u32) {
    match came {
        Ok(true) => ("closed", 0),
        Ok(false) => ("open", 0),
        Err(StepError::UnknownStep { step }) => ("unknown", step),
        Err(StepError::TooWide { step }) => ("too wide", step),
        Err(StepError::RuleFails { step }) => ("fails", step),
        Err(StepError::NoMemory) => ("no memory", 0),
    }
}

/// Goals for each `x` of `i32` where `x@` is below 100, with proofs and what they come to.
const PROOFS: [(&str, &str, &str, u32); 8] = [
    ("X><@xc<@xc", "intro y\nhyp 1.1\n", "closed", 0),
    // A split leaves two goals.
    ("X><@xc&<@xc<@xe", "intro x\nsplit\nhyp 1.1\n", "open", 0),
    (
        "X><@xc&<@xc<@xe",
        "intro x\nsplit\nhyp 1.1\nlin 1:goal 1:1.1\n",
        "closed",
        0,
    ),
    // The second of the two hypotheses that a range adds.
    ("X><@xcl@xH", "intro x\nrange x\nhyp 2.2\n", "closed", 0),
    ("X><@xc<@xe", "intro x\nlin 1:goal 1:1.1\n", "closed", 0),
    (
        "X><@xc<@xe",
        "intro x\nlin 170141183460469231731687303715884105727:goal 170141183460469231731687303715884105727:1.1\n",
        "too wide",
        2,
    ),
    ("X><@xc<@xe", "intro x\nsplit\n", "fails", 2),
    // A step that cites itself.
    ("X><@xc<@xc", "intro x\nhyp 2.1\n", "unknown", 2),
];

#[test]
fn short_proofs(rt: HostRuntime) -> Result<(), Fail> {
    for (goal, steps, word, step) in &PROOFS {
        let end = end_of(outcome(rt.alloc(), *goal, *steps)?);
        assert!(rt; end.0 == *word && end.1 == *step, "{goal} by {steps}");
    }
    Ok(())
}
