//! Which functions are verified: all that they may reach is proved.
ghost use Rattle.std.specs.Prelude.{◌≡◌, ◌≤◌, ◌<◌, List, Bool, Some, true, false, length, slice_get, slice_set};
ghost use Rattle.verify_core.specs.Flags.{calls_unset, end_calls_unset, Unsets, AreJustified, AreSettled, set_count};

use mir_ir::{Bodies, Body, TerminatorKind};

fn end_calls_unset(bodies: &Bodies, flags: &[bool], end: &TerminatorKind) -> bool
    ensures { result ≡ end_calls_unset bodies.now flags.now end.now }
{
    let TerminatorKind::Call(_, callee, _, _, _) = end else {
        return false;
    };
    let Some(number) = bodies.callee_of(*callee) else {
        return false;
    };
    match flags.get(number as usize) {
        Some(flag) => !*flag,
        None => false,
    }
}

/// Whether some block of the body ends with a call of a function whose flag is not set.
fn calls_unset(bodies: &Bodies, flags: &[bool], body: &Body) -> bool
    ensures { result ≡ calls_unset bodies.now flags.now body.now }
{
    body.blocks
        .as_slice()
        .iter()
        .any(|entry| end_calls_unset(bodies, flags, &entry.1.end.kind))
}

/// Unsets the flag of a function whose body calls one whose flag is not set. Answers whether it did.
fn unset_one(flags: &mut Vec<bool>, bodies: &Bodies, function: usize, body: &Body) -> bool
    ensures { Unsets bodies.now flags.old.items flags.new.items function body.now result }
{
    if function < flags.len() && flags[function] && calls_unset(bodies, flags.as_slice(), body) {
        flags[function] = false;
        true
    } else {
        false
    }
}

/// One round over all functions. Answers whether a flag was unset.
fn unset_once(flags: &mut Vec<bool>, bodies: &Bodies) -> bool
    requires { length flags.old.items ≡ length bodies.now.bodies }
    ensures justified { (proved : List Bool) → AreJustified bodies.now proved flags.old.items → AreJustified bodies.now proved flags.new.items }
    ensures settled { result ≡ false → AreSettled bodies.now flags.new.items }
    ensures fewer { result ≡ true → set_count flags.new.items < set_count flags.old.items }
    ensures as_many { length flags.new.items ≡ length flags.old.items }
{
    let mut changed = false;
    let all = bodies.bodies.as_slice();
    for (function, body) in all.iter().enumerate() {
        if unset_one(flags, bodies, function, body) {
            changed = true;
        }
    }
    changed
}

/// The flags without those of the functions that may reach one whose flag is not set.
pub(crate) fn settled_flags(proved: Vec<bool>, bodies: &Bodies) -> Vec<bool>
    requires { length proved.items ≡ length bodies.now.bodies }
    ensures justified { AreJustified bodies.now proved.items result.items }
    ensures settled { AreSettled bodies.now result.items }
{
    let mut flags = proved;
    while unset_once(&mut flags, bodies) {}
    flags
}
