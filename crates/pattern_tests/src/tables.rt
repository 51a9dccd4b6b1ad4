use crate::answers::{missing_text, tree_text};
use crate::build::{decls, literal, patterns, types};
use logic_term::{Ty, TypedPat};
use source_kinds::IntKind;
use std::alloc::Global;
use std::test::Fail;
use text_core::NoMemory;

const BYTE: Option<IntKind> = Some(IntKind::U8);

fn only_type(alloc: Global, text: &[u8]) -> Result<Ty, NoMemory> {
    types(alloc, text)?.pop().ok_or(NoMemory)
}

/// What is missing beside the arms.
fn missing_of(
    alloc: Global,
    kind: Option<IntKind>,
    t: &[u8],
    arms: &[u8],
) -> Result<String, NoMemory> {
    let decls = decls(alloc)?;
    let t = only_type(alloc, t)?;
    let arms = patterns(alloc, kind, arms)?;
    missing_text(alloc, decls.as_slice(), arms.as_slice(), &t)
}

/// The type, the arms, and the value that is missing.
const MISSING: [(&[u8], &[u8], &[u8]); 13] = [
    (b"b", b"T", b"false"),
    (b"ou", b"s_n", b"none"),
    (b"ou", b"n", b"0.1(_)"),
    (b"ou", b"ns4", b"0.1(0)"),
    (b"u", b"012", b"3"),
    (b"u", b"01x", b"none"),
    (b"tbb", b"tT_t_F", b"(false, true)"),
    (b"!tbb", b"tT_t_F", b"(false, true)"),
    (b"yb", b"yT", b"2.0(false)"),
    (b"pobyb", b"ps__p_yT", b"1.0(0.0(), 2.0(false))"),
    (b"*l", b"ec0_", b"3.1(1, _)"),
    (b"*l", b"c_ec_c__", b"3.0()"),
    (b"0", b"x", b"none"),
];

#[test]
fn missing_values(rt: HostRuntime) -> Result<(), Fail> {
    for (t, arms, wanted) in MISSING {
        let text = missing_of(rt.alloc(), BYTE, t, arms)?;
        assert!(rt; text.as_bytes() == wanted, "it is {text}");
    }
    Ok(())
}

/// Only a wildcard or a name covers the unbounded integers, and integers of a machine type are no patterns of them.
const UNBOUNDED: [(Option<IntKind>, &[u8], &[u8]); 4] = [
    (None, b"012", b"3"),
    (None, b"21", b"0"),
    (None, b"0_", b"none"),
    (BYTE, b"0_", b"no patterns"),
];

#[test]
fn unbounded_integers(rt: HostRuntime) -> Result<(), Fail> {
    for (kind, arms, wanted) in UNBOUNDED {
        let text = missing_of(rt.alloc(), kind, b"z", arms)?;
        assert!(rt; text.as_bytes() == wanted, "it is {text}");
    }
    Ok(())
}

/// The tree of the arms.
fn tree_of(alloc: Global, t: &[u8], arms: &[u8]) -> Result<String, NoMemory> {
    let decls = decls(alloc)?;
    let t = only_type(alloc, t)?;
    let arms = patterns(alloc, BYTE, arms)?;
    tree_text(alloc, decls.as_slice(), arms.as_slice(), &t)
}

/// The type, the arms, and their tree: an enum of one variant is tested and a struct is not; equal stands first; the first row
/// is tested first, from outside in; boxes and references take no step. `x` has the number 120.
const TREES: [(&[u8], &[u8], &[u8]); 10] = [
    (b"ob", b"sxn", b"[switch : 1: 0 120=/1.0]"),
    (b"yb", b"yx", b"[switch : 0 120=/0.0]"),
    (b"pbb", b"pxT", b"missing"),
    (b"pbb", b"pxTx", b"[if /0.1: 0 120=/0.0: 1 120=]"),
    (b"u", b"97_", b"[9 : 0: [7 : 1: 2]]"),
    (b"u", b"_9", b"0"),
    (b"tbb", b"t_TtF__", b"[if /0.1: 0: [if /0.0: 2: 1]]"),
    (
        b"tobb",
        b"tsTxtx_",
        b"[switch /0.0: 1 120=/0.0: [if /0.0/1.0: 0 120=/0.1: 1 120=/0.0]]",
    ),
    (
        b"*l",
        b"c0cx__",
        b"[switch : 1: [0 /1.0: [switch /1.1: 1: 0 120=/1.1/1.0]: 1]]",
    ),
    (b"!ob", b"sTns_", b"[switch : 1: [if /1.0: 0: 2]]"),
];

#[test]
fn trees(rt: HostRuntime) -> Result<(), Fail> {
    for (t, arms, wanted) in TREES {
        let text = tree_of(rt.alloc(), t, arms)?;
        assert!(rt; text.as_bytes() == wanted, "it is {text}");
    }
    Ok(())
}

/// All integers of `u8` but the one.
fn bytes_without(alloc: Global, left_out: u32) -> Result<Vec<TypedPat>, NoMemory> {
    let mut arms = Vec::new(alloc);
    for i in 0..256u32 {
        if i != left_out {
            arms.push(literal(alloc, BYTE, i as i128)?)?;
        }
    }
    Ok(arms)
}

fn missing_byte(alloc: Global, left_out: u32) -> Result<String, NoMemory> {
    let arms = bytes_without(alloc, left_out)?;
    let t = Ty::int(IntKind::U8);
    missing_text(alloc, &[], arms.as_slice(), &t)
}

#[test]
fn all_bytes(rt: HostRuntime) -> Result<(), Fail> {
    for (left_out, wanted) in [(256, b"none".as_slice()), (77, b"77"), (255, b"255")] {
        let text = missing_byte(rt.alloc(), left_out)?;
        assert!(rt; text.as_bytes() == wanted, "it is {text}");
    }
    Ok(())
}

/// A test for each integer but the last.
fn chain(alloc: Global) -> Result<String, NoMemory> {
    let mut wanted = String::new(alloc);
    for i in 0..255u32 {
        let text = format!(in alloc; "[{i} : {i}: ")?;
        wanted.push_str(text.as_str())?;
    }
    wanted.push_str("255")?;
    for i in 0..255u32 {
        let _ = i;
        wanted.push_str("]")?;
    }
    Ok(wanted)
}

fn tree_of_bytes(alloc: Global) -> Result<String, NoMemory> {
    let arms = bytes_without(alloc, 256)?;
    let t = Ty::int(IntKind::U8);
    tree_text(alloc, &[], arms.as_slice(), &t)
}

#[test]
fn the_last_integer_is_not_tested(rt: HostRuntime) -> Result<(), Fail> {
    let text = tree_of_bytes(rt.alloc())?;
    assert!(rt; text.as_str() == chain(rt.alloc())?.as_str());
    Ok(())
}
