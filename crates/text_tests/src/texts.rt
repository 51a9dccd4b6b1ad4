use std::alloc::Global;
use std::test::Fail;
use text_core::name::{I32, OPTION, REPLACE};
use text_core::{Items, Name, Names, NoMemory, Text, line_of};

#[test]
fn names_stand_for_texts(rt: HostRuntime) -> Result<(), Fail> {
    let alloc = rt.alloc();
    let mut names = Names::new(alloc);
    let first = names.intern(alloc, "x")?;
    let second = names.intern(alloc, "Options")?;
    let again = names.intern(alloc, "x")?;
    let word = names.intern(alloc, "i32")?;
    assert!(rt; [first.0, second.0, again.0] == [27, 28, 27]);
    assert!(rt; word == I32);
    assert!(rt; names.text(Name(27)) == Some("x"));
    assert!(rt; names.text(Name(28)) == Some("Options"));
    Ok(())
}

/// What stands for a text before any is given, and what never does.
const TEXTS: [(Name, Option<&str>); 6] = [
    (I32, Some("i32")),
    (OPTION, Some("Option")),
    (REPLACE, Some("replace")),
    (Name(29), None),
    (Name(9223372036854775808), None),
    (Name(9223372036854775835), None),
];

#[test]
fn words_have_their_names(rt: HostRuntime) {
    let names = Names::new(rt.alloc());
    for (name, wanted) in TEXTS {
        assert!(rt; names.text(name) == wanted, "name {}", name.0);
    }
}

#[test]
fn fresh_names_are_numbered(rt: HostRuntime) {
    assert!(rt; Name::fresh(0).0 == 9223372036854775808);
    assert!(rt; Name::fresh(9223372036854775807).0 == 18446744073709551615);
}

/// Offsets of one text, with their lines.
const LINES: [(u32, u32); 6] = [(0, 1), (1, 1), (2, 2), (3, 3), (4, 3), (9, 3)];

#[test]
fn lines_are_counted_from_one(rt: HostRuntime) {
    for (offset, wanted) in LINES {
        assert!(rt; line_of(b"a\n\nb", offset) == wanted, "at {offset}");
    }
    assert!(rt; line_of(b"", 7) == 1);
    assert!(rt; line_of(b"\n", 1) == 2);
}

/// Whether a text of these bytes has them, and is the same as its copy.
fn is_copied(alloc: Global, bytes: &[u8]) -> Result<bool, NoMemory> {
    let text = Text::from_bytes(alloc, bytes)?;
    let copy = text.copy(alloc)?;
    Ok(text.bytes() == bytes && text.same(&copy))
}

/// Whether texts of these bytes are the same.
fn are_same(alloc: Global, one: &[u8], other: &[u8]) -> Result<bool, NoMemory> {
    let one = Text::from_bytes(alloc, one)?;
    let other = Text::from_bytes(alloc, other)?;
    Ok(one.same(&other))
}

#[test]
fn texts_are_compared_by_bytes(rt: HostRuntime) -> Result<(), Fail> {
    assert!(rt; is_copied(rt.alloc(), b"ab")?);
    assert!(rt; !are_same(rt.alloc(), b"ab", b"aB")?);
    Ok(())
}

#[test]
fn items_keep_their_order(rt: HostRuntime) -> Result<(), Fail> {
    let mut items = Items::new(rt.alloc());
    assert!(rt; items.is_empty());
    items.push(3u8)?;
    items.push(4)?;
    items.set(0, 7);
    assert!(rt; items.as_slice() == [7, 4].as_slice());
    assert!(rt; items.len() == 2);
    assert!(rt; items.get(1).copied() == Some(4));
    assert!(rt; items.get(2).is_none());
    Ok(())
}

#[test]
fn items_are_those_of_a_vec(rt: HostRuntime) -> Result<(), Fail> {
    let items = Items::from_slice(rt.alloc(), &[7, 4])?;
    let mut items = Items::from_vec(items.into_vec());
    assert!(rt; items.pop() == Some(4));
    assert!(rt; items.pop() == Some(7));
    assert!(rt; items.is_empty());
    assert!(rt; items.pop().is_none());
    Ok(())
}
