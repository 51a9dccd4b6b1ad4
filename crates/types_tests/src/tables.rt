use crate::build::{decl, table, types};
use logic_term::Instance;
use rs_types::apply;
use std::alloc::Global;
use std::test::Fail;
use text_core::{Code, Items, Name, NoMemory, PassError};

/// A type of a name that is there is E06 at its own name, and the table keeps what it had.
fn refuses_a_double(alloc: Global) -> Result<bool, PassError> {
    let mut table = table(alloc, &[&[b"u"], &[b"*a"]])?;
    let refused = match table.add(decl(alloc, 101, &[b""])?) {
        Err(PassError::Source(e)) => e.code == Code::E06 && e.span.start == 101,
        _ => false,
    };
    Ok(refused && table.decls().len() == 2)
}

fn finds_by_name(alloc: Global) -> Result<bool, PassError> {
    let mut table = table(alloc, &[&[b"u"], &[b"*a"]])?;
    let added = table.add(decl(alloc, 7, &[b"", b"0"])?)?;
    let first = table.find(Name(100)).is_some_and(|id| id.0 == 0);
    let second = table.find(Name(101)).is_some_and(|id| id.0 == 1);
    let last = table.find(Name(7)).is_some_and(|id| id.0 == 2);
    Ok(added.0 == 2 && first && second && last && table.find(Name(8)).is_none())
}

/// A type, types for parameters, and the type at them.
const APPLIED: [(&[u8], &[u8], &[u8]); 7] = [
    (b"u", b"u", b"u"),
    (b"0", b"*u", b"*u"),
    (b"1", b"u*u", b"*u"),
    (b"t01", b"u*u", b"tu*u"),
    (b"A*0", b"a", b"A*a"),
    (b"&t0A1", b"ub", b"&tuAb"),
    (b"b", b"u", b"b"),
];

fn at_types(alloc: Global, row: (&[u8], &[u8], &[u8])) -> Result<bool, NoMemory> {
    let mut given = types(alloc, row.1)?;
    given.reverse();
    let at = Instance {
        types: Items::from_vec(given),
    };
    let t = types(alloc, row.0)?.pop().ok_or(NoMemory)?;
    let wanted = types(alloc, row.2)?.pop().ok_or(NoMemory)?;
    Ok(apply(alloc, &at, &t)?.same(&wanted))
}

#[test]
fn names_of_types(rt: HostRuntime) {
    assert!(rt;
        refuses_a_double(rt.alloc()).unwrap_or(false),
        "a double name is taken"
    );
    assert!(rt;
        finds_by_name(rt.alloc()).unwrap_or(false),
        "a name is not found"
    );
}

#[test]
fn types_at_types(rt: HostRuntime) {
    for row in APPLIED {
        assert!(rt;
            at_types(rt.alloc(), row).unwrap_or(false),
            "a type at types is another"
        );
    }
}
