use logic_term::Label2;
use proof_kernel::{Multiple, Reference, Step};
use proof_text::{Proof, ProofFile, ProofTextError, read_proofs};
use std::alloc::Global;
use std::process::Abort;
use std::test::Fail;
use text_core::{Items, Name, Names};

const TWO: &str = "creusot-proofs 1
proof 1 inc
intro x
range x
split
lin 1:goal 1:2.1
lin 1:goal 1:1.1
end
proof 2 inc
intro x t
hyp 1.2
end
";

/// The first bad line; 0 where the bytes are read.
fn bad_line(alloc: Global, bytes: &[u8]) -> u32 {
    if bytes.len() > 1000 {
        return u32::MAX;
    }
    let mut names = Names::new(alloc);
    match read_proofs(alloc, bytes, &mut names) {
        Ok(_file) => 0,
        Err(ProofTextError::BadLine(line)) => line,
        Err(ProofTextError::NoMemory) => u32::MAX,
    }
}

fn lines_are(proof: &Proof, lines: &[u32]) -> bool {
    proof
        .steps
        .as_slice()
        .iter()
        .map(|step| step.line)
        .eq(lines.iter().copied())
}

fn is_once_the_goal(multiple: Multiple) -> bool {
    match multiple.of {
        Reference::Goal => multiple.by == 1,
        _ => false,
    }
}

fn is_once_the_hypothesis(multiple: Multiple, label: Label2) -> bool {
    match multiple.of {
        Reference::Hyp(of) => of == label && multiple.by == 1,
        _ => false,
    }
}

/// Whether the step takes once the goal and then once this hypothesis.
fn adds_to_goal(step: Option<&Step>, label: Label2) -> bool {
    let Some(Step::Lin(multiples)) = step else {
        return false;
    };
    match multiples.as_slice() {
        [goal, other] => is_once_the_goal(*goal) && is_once_the_hypothesis(*other, label),
        _ => false,
    }
}

fn names_are(step: Option<&Step>, want: &[Name]) -> bool {
    match step {
        Some(Step::Intro(names)) => names.as_slice() == want,
        _ => false,
    }
}

fn step_of(file: &ProofFile, proof: usize, at: usize) -> Option<&Step> {
    let proof = file.proofs.get(proof)?;
    let step = proof.steps.get(at)?;
    Some(&step.step)
}

/// Whether the proof is one of `inc`, with this number, and ends on this line.
fn is_of_inc(proof: &Proof, number: u32, end: u32) -> bool {
    proof.number == number && proof.end == end && proof.owner.bytes() == b"inc".as_slice()
}

fn is_hyp(step: Option<&Step>, label: Label2) -> bool {
    match step {
        Some(Step::Hyp(of)) => *of == label,
        _ => false,
    }
}

#[test]
fn two_proofs(rt: HostRuntime) -> Result<(), Fail> {
    let mut names = Names::new(rt.alloc());
    let file = read_proofs(rt.alloc(), TWO.as_bytes(), &mut names)?;
    assert!(rt; file.proofs.len() == 2);
    let first = file.proofs.get(0).ok_or("no proof")?;
    let second = file.proofs.get(1).ok_or("one proof")?;
    assert!(rt; is_of_inc(first, 1, 8));
    assert!(rt; is_of_inc(second, 2, 12));
    assert!(rt; lines_are(first, &[3, 4, 5, 6, 7]));
    assert!(rt; lines_are(second, &[10, 11]));
    Ok(())
}

#[test]
fn steps_of_two_proofs(rt: HostRuntime) -> Result<(), Fail> {
    let mut names = Names::new(rt.alloc());
    let file = read_proofs(rt.alloc(), TWO.as_bytes(), &mut names)?;
    assert!(rt; names_are(step_of(&file, 1, 0), &[Name(27), Name(28)]));
    assert!(rt; is_hyp(step_of(&file, 1, 1), Label2 { step: 1, part: 2 }));
    assert!(rt; adds_to_goal(step_of(&file, 0, 3), Label2 { step: 2, part: 1 }));
    Ok(())
}

const READ: [&str; 5] = [
    TWO,
    "creusot-proofs 1\n",
    "creusot-proofs 1\n# one\n\nproof 0 _a\n# two \u{e9}\nintro\n\nend\n#\n",
    "creusot-proofs 1\nproof 4294967295 x\nlin -0:goal 0:-0.0 -170141183460469231731687303715884105728:1.1 170141183460469231731687303715884105727:goal\nend\n",
    "creusot-proofs 1\nproof 1 x\nend\nproof 1 y\nend\nproof 2 x\nend\n",
];

/// The first bad line of each text is this one.
fn expect_bad(rt: &impl Abort, alloc: Global, texts: &[&str], line: u32) {
    for text in texts {
        assert!(rt; bad_line(alloc, text.as_bytes()) == line, "{text}");
    }
}

#[test]
fn what_is_read(rt: HostRuntime) {
    expect_bad(&rt, rt.alloc(), &READ, 0);
}

const BAD_LINES: [(&str, u32); 20] = [
    ("", 1),
    ("creusot-proofs 1", 1),
    ("creusot-proofs 2\n", 1),
    ("# no\ncreusot-proofs 1\n", 1),
    ("\ncreusot-proofs 1\n", 1),
    ("creusot-proofs 1\nproof 1 x\n", 3),
    ("creusot-proofs 1\nproof 1 x\nend", 3),
    ("creusot-proofs 1\n#", 2),
    ("creusot-proofs 1\nproof 01 x\nend\n", 2),
    ("creusot-proofs 1\nproof 4294967296 x\nend\n", 2),
    ("creusot-proofs 1\nproof 1 fn\nend\n", 2),
    ("creusot-proofs 1\nproof 1 1x\nend\n", 2),
    ("creusot-proofs 1\nproof 1 _\nend\n", 2),
    ("creusot-proofs 1\nproof 1  x\nend\n", 2),
    ("creusot-proofs 1\nproof 1 x \nend\n", 2),
    ("creusot-proofs 1\r\n", 1),
    ("creusot-proofs 1\nproof 1 x\nend\nproof 1 x\nend\n", 4),
    ("creusot-proofs 1\nproof 1 x\nproof 2 x\nend\n", 3),
    ("creusot-proofs 1\nend\n", 2),
    ("creusot-proofs 1\nsplit\n", 2),
];

#[test]
fn first_bad_lines(rt: HostRuntime) {
    for (text, want) in &BAD_LINES {
        assert!(rt; bad_line(rt.alloc(), text.as_bytes()) == *want, "{text}");
    }
}

const BAD_STEPS: [&str; 12] = [
    "creusot-proofs 1\nproof 1 x\nrange x\nrange x\nsplit\nlin 1 goal\nend\n",
    "creusot-proofs 1\nproof 1 x\nrange x\nrange x\nsplit\nlin 01:goal\nend\n",
    "creusot-proofs 1\nproof 1 x\nrange x\nrange x\nsplit\nlin +1:goal\nend\n",
    "creusot-proofs 1\nproof 1 x\nrange x\nrange x\nsplit\nlin -01:goal\nend\n",
    "creusot-proofs 1\nproof 1 x\nrange x\nrange x\nsplit\nlin 170141183460469231731687303715884105728:goal\nend\n",
    "creusot-proofs 1\nproof 1 x\nrange x\nrange x\nsplit\nlin\nend\n",
    "creusot-proofs 1\nproof 1 x\nrange x\nrange x\nsplit\nlin 1:1.01\nend\n",
    "creusot-proofs 1\nproof 1 x\nrange x\nrange x\nsplit\nhyp 1\nend\n",
    "creusot-proofs 1\nproof 1 x\nrange x\nrange x\nsplit\nhyp 1.2 1.3\nend\n",
    "creusot-proofs 1\nproof 1 x\nrange x\nrange x\nsplit\nsplit x\nend\n",
    "creusot-proofs 1\nproof 1 x\nrange x\nrange x\nsplit\nsolve\nend\n",
    "creusot-proofs 1\nproof 1 x\nrange x\nrange x\nsplit\nintro x\u{a0}y\nend\n",
];

#[test]
fn bad_steps(rt: HostRuntime) {
    expect_bad(&rt, rt.alloc(), &BAD_STEPS, 6);
}

const NAMES: [&str; 7] = [
    "x",
    "_1",
    "\u{e9}",
    "gr\u{fc}n_2",
    "\u{3b1}",
    "\u{65e5}\u{672c}",
    "x\u{301}",
];

const NO_NAMES: [&str; 10] = [
    "", "_", "1x", "fn", "Self", "dyn", "x-y", "\u{301}x", "\u{b2}", "\u{a0}x",
];

/// The first bad line of a file in which this is the name that the second step introduces.
fn bad_line_of_name(alloc: Global, name: &str) -> Result<u32, Fail> {
    let text = format!(in alloc; "creusot-proofs 1\nproof 1 x\nsplit\nintro y {name}\nend\n")?;
    Ok(bad_line(alloc, text.as_bytes()))
}

/// The first bad line of a file with one proof of this owner.
fn bad_line_of_owner(alloc: Global, owner: &str) -> Result<u32, Fail> {
    let text = format!(in alloc; "creusot-proofs 1\nproof 1 {owner}\nend\n")?;
    Ok(bad_line(alloc, text.as_bytes()))
}

/// With such a name the first bad line is `line`, and with such an owner `first`.
fn expect_names(
    rt: &impl Abort,
    alloc: Global,
    names: &[&str],
    line: u32,
    first: u32,
) -> Result<(), Fail> {
    for name in names {
        let lines = (
            bad_line_of_name(alloc, *name)?,
            bad_line_of_owner(alloc, *name)?,
        );
        assert!(rt; lines.0 == line && lines.1 == first, "{name}");
    }
    Ok(())
}

#[test]
fn names_are_identifiers(rt: HostRuntime) -> Result<(), Fail> {
    expect_names(&rt, rt.alloc(), &NAMES, 0, 0)?;
    expect_names(&rt, rt.alloc(), &NO_NAMES, 4, 2)
}

#[test]
fn a_name_has_at_most_255_bytes(rt: HostRuntime) -> Result<(), Fail> {
    let alloc = rt.alloc();
    let even = "\u{e9}".repeat(alloc, 127)?;
    let longest = format!(in alloc; "x{even}")?;
    let past = format!(in alloc; "xx{even}")?;
    expect_names(&rt, alloc, &[&even, &longest], 0, 0)?;
    expect_names(&rt, alloc, &[&past], 4, 2)
}

const LINES_OF_BYTES: [(&[u8], u32); 7] = [
    (b"creusot-proofs 1\n#\xff\nproof 1 x\n# \xc3\nend\n", 0),
    (b"creusot-proofs 1\xff\n", 1),
    (b"creusot-proofs 1\n\xff\n", 2),
    (b"creusot-proofs 1\nproof 1 x\xff\nend\n", 2),
    (b"creusot-proofs 1\nproof 1 x\nintro \xc3\nend\n", 3),
    (b"creusot-proofs 1\nproof 1 x\nrange \xed\xa0\x80\nend\n", 3),
    (
        b"creusot-proofs 1\nproof 1 x\n#\xa9\nintro x\xc3\n\xa9\nend\n",
        4,
    ),
];

#[test]
fn lines_but_comments_are_utf_8(rt: HostRuntime) {
    for (at, (bytes, want)) in LINES_OF_BYTES.iter().enumerate() {
        assert!(rt; bad_line(rt.alloc(), *bytes) == *want, "row {at}");
    }
}

/// Words of rules with another rest than theirs, and words of no step.
const BAD_RULES: [&str; 142] = [
    "refl 1.1",
    "true ",
    "left 1.1",
    "right x",
    "contra 1.1",
    "byc 1.1",
    "iff 1.1",
    "antisym 1.1",
    "cases",
    "cases 1",
    "cases 1.1 1.2",
    "cases 1.1 fn",
    "cases 1.1 n m",
    "cases 1.1  n",
    "cases n",
    "cases 1.01",
    "absurd",
    "absurd goal",
    "absurd 1.1 1.2 1.3",
    "absurd 1.1  1.2",
    "absurd 1.1 ",
    "drop",
    "drop 1.1 1.2",
    "revert",
    "revert 1.1 1.2",
    "mp",
    "mp 1.1",
    "mp 1.1 1.2 1.3",
    "mp 1.1 -1.2",
    "mul 1.1",
    "mul  1.1 1.2",
    "mul 1.1 1.2 ",
    "Refl",
    "antisymm",
    "modus 1.1 1.2",
    "rewrite",
    "rewrite goal",
    "rewrite 1.1 1.2",
    "rewrite 1.1 in",
    "rewrite 1.1 in goal",
    "rewrite 1.1  in 1.2",
    "rewrite 1.1 in 1.2 ",
    "rewrite in 1.1",
    "rewrite <1.1",
    "rewrite <",
    "rewrite < < 1.1",
    "rewrite > 1.1",
    "cut",
    "cut ",
    "cut z <",
    "cut z; w",
    "on",
    "on )",
    // One space, and nothing around the term.
    "cut  z@ < 0",
    "cut z@ < 0 ",
    "cut z@ < 0 // a comment",
    "cut /* a comment */ z@ < 0",
    "cut \tz@ < 0",
    "on  z",
    "range",
    "range ",
    "range  x",
    "range x ",
    "range x y",
    "range fn",
    "div",
    "div a",
    "div a;b",
    "div a ;b",
    "div a  ; b",
    "div a ;  b",
    "div a ; b ; c",
    "inst",
    "inst 1.1",
    "inst 1.1 ",
    "inst 1.1  x",
    "inst 1.1 x ",
    "inst x",
    "inst 1 x",
    "inst 1.1 x; y",
    "inst 1.1 x ;y",
    "inst 1.1 x;y",
    "inst 1.1 x  ; y",
    "inst 1.1 x ;  y",
    "inst 1.1 x ;",
    "inst 1.1 x ; ",
    "inst 1.1 ; y",
    "inst 1.1  ; y",
    "inst 1.1 x ; ; y",
    "inst 1.1 x ; y ;",
    "inst 1.1 x ; y z",
    "inst 1.1 x ; y ; z w",
    "inst x ; y",
    "back",
    "back 1.1 1.2",
    "cond",
    "cond x",
    "cond < 1.1",
    "cond 1.1 1.2",
    "cond 1.1 in",
    "exists",
    "exists  x",
    "eta ",
    // No names and bars with one space before each behind a colon with one space before it.
    "on x :a",
    "on x: a",
    "on x  : a",
    "on x : ",
    "on x : a ",
    "on x :  a",
    "on x : a  b",
    "on x : a|b",
    "on x : a || b",
    "on x : a, b",
    "on x : 1",
    "on x : fn",
    "on x : _",
    "on x : a : b",
    "on x ; a",
    "on : a",
    "on  : a",
    "on z < : a",
    "cut x : a",
    "exists x : a | b",
    "induct",
    "induct ",
    "induct x",
    "induct x ",
    "induct x:",
    "induct x: a",
    "induct x :a",
    "induct x : a ",
    "induct x : a  b",
    "induct  x : a",
    "induct x  : a",
    "induct x y : a",
    "induct : a",
    "induct  : a",
    "induct fn : a",
    "induct x@ : a",
    "induct (x) : a",
    "induct x : a : b",
    "induct x : 5",
];

const RULES: [&str; 50] = [
    "refl",
    "true",
    "left",
    "right",
    "contra",
    "byc",
    "iff",
    "antisym",
    "cases 1.1",
    "absurd 1.1",
    "drop 0.0",
    "revert 4294967295.4294967295",
    "mp 1.1 2.2",
    "absurd 1.1 1.2",
    "mul 1.1 1.1",
    "absurd 0.1",
    "mp 0.0 0.0",
    "rewrite 1.1",
    "rewrite 1.1 in 0.2",
    "rewrite < 1.1",
    "rewrite < 4294967295.0 in 1.1",
    "cut z@ < 0",
    "on !(a && b) || f(c).d",
    "on z /* a comment */ < 0",
    "range x",
    "range x + 1",
    "div a@ + 1 ; b",
    "inst 1.1 x",
    "inst 0.2 x@ + 1",
    "inst 1.1 x ; y",
    "inst 1.1 x@ + 1 ; f(y, z).a ; 5i32 ; x",
    "back 1.1",
    "cases 1.1 n",
    "cases 0.1 _1",
    "cond 1.1",
    "cond 1.1 in 0.2",
    "exists x@ + 1",
    "exists k",
    "eta x",
    "on x :",
    "on x : |",
    "on x : a b | c",
    "on x : | | a a",
    "on f(x).0 + 1 : a |",
    "on x::f(y) : a",
    "on (forall<v : i32> v == v)",
    "on (forall<v : i32> v == v) : a",
    "induct x :",
    "induct x : a b | c",
    "induct _1 : | x |",
];

const LISTS: &str = "creusot-proofs 1
proof 1 x
on x : a b | | c
on a :
induct y : | x z
end
";

/// The lists of names of a step by the variants of an enum.
fn lists_in(step: Option<&Step>) -> Option<&Items<Items<Name>>> {
    match step? {
        Step::ByVariants(_, lists) => Some(lists),
        Step::Induct(_, lists) => Some(lists),
        _ => None,
    }
}

/// How many lists the step has; 0 where it has none.
fn count_of_lists(step: Option<&Step>) -> usize {
    match lists_in(step) {
        Some(lists) => lists.len(),
        None => 0,
    }
}

/// Whether the list at this place of the step has these names.
fn list_is(step: Option<&Step>, at: usize, want: &[Name]) -> bool {
    let Some(lists) = lists_in(step) else {
        return false;
    };
    match lists.get(at) {
        Some(list) => list.as_slice() == want,
        None => false,
    }
}

fn is_induct(step: Option<&Step>, name: Name) -> bool {
    match step {
        Some(Step::Induct(of, _)) => *of == name,
        _ => false,
    }
}

#[test]
fn names_between_bars(rt: HostRuntime) -> Result<(), Fail> {
    let mut names = Names::new(rt.alloc());
    let file = read_proofs(rt.alloc(), LISTS.as_bytes(), &mut names)?;
    let first = step_of(&file, 0, 0);
    assert!(rt; count_of_lists(first) == 3);
    assert!(rt; list_is(first, 0, &[Name(28), Name(29)]));
    assert!(rt; list_is(first, 1, &[]));
    assert!(rt; list_is(first, 2, &[Name(30)]));
    let second = step_of(&file, 0, 1);
    assert!(rt; count_of_lists(second) == 1 && list_is(second, 0, &[]));
    let third = step_of(&file, 0, 2);
    assert!(rt; is_induct(third, Name(31)) && count_of_lists(third) == 2);
    assert!(rt; list_is(third, 0, &[]) && list_is(third, 1, &[Name(27), Name(32)]));
    Ok(())
}

/// The first bad line of a file in which this is the second step.
fn bad_line_of_step(alloc: Global, step: &str) -> Result<u32, Fail> {
    let text = format!(in alloc; "creusot-proofs 1\nproof 1 x\nsplit\n{step}\nend\n")?;
    Ok(bad_line(alloc, text.as_bytes()))
}

/// With each as the second step the first bad line is this one.
fn expect_steps(rt: &impl Abort, alloc: Global, steps: &[&str], line: u32) -> Result<(), Fail> {
    for step in steps {
        assert!(rt; bad_line_of_step(alloc, *step)? == line, "{step}");
    }
    Ok(())
}

#[test]
fn lines_of_rules(rt: HostRuntime) -> Result<(), Fail> {
    expect_steps(&rt, rt.alloc(), &BAD_RULES, 4)?;
    expect_steps(&rt, rt.alloc(), &RULES, 0)
}
