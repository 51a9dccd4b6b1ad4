//! Pages, byte for byte.
use creusot_pages::{Source, Verb, make_page};
use std::test::Fail;

const PROOFS: &[u8] = b"creusot-proofs 1\nproof 1 quo\nintro x y\nhyp 1.2\nend\n";

/// What is asked of a source, and the page.
const PAGES: [(Verb, &[u8], &str); 8] = [
    (Verb::Errors, b"fn f() -> i32 { 1 }\n", ""),
    (
        Verb::Errors,
        b"fn f(x: i32) -> i32 {\n\tx + y\n}\n",
        "f.rs:2:6: error E05: unknown name\n    \tx + y\n    \t    ^\n    hint: no variable, function or type of this name is in scope here\n",
    ),
    (
        Verb::Goals,
        b"fn quo(x: i32, y: i32) -> i32 { x / y }\n",
        "f.rs:1:35: division, obligation 1 of quo\n    fn quo(x: i32, y: i32) -> i32 { x / y }\n                                      ^\n    f.proofs:4: the proof stops here, at\n    x: i32\n    y: i32\n    |- !(y@ == 0)\n\n\
         f.rs:1:35: overflow, obligation 2 of quo\n    fn quo(x: i32, y: i32) -> i32 { x / y }\n                                      ^\n    no proof\n    x: i32\n    y: i32\n    |- !((x@ == -2147483648) && (y@ == -1))\n",
    ),
    (
        Verb::Goals,
        b"#[requires(n@ < 5)]\nfn inc(n: i32) -> i32 { n + 1 }\n",
        "f.rs:2:27: overflow, obligation 1 of inc\n    fn inc(n: i32) -> i32 { n + 1 }\n                              ^\n    no proof\n    n: i32\n    1.1: n@ < 5\n    |- (-2147483648 <= (n@ + 1)) && ((n@ + 1) <= 2147483647)\n",
    ),
    (
        Verb::Goals,
        b"#[derive(Clone, Copy)] struct P { x: i32, y: bool }\n#[requires(p.x@ < 5)]\nfn inc(p: P) -> i32 { p.x + 1 }\n",
        "f.rs:3:27: overflow, obligation 1 of inc\n    fn inc(p: P) -> i32 { p.x + 1 }\n                              ^\n    no proof\n    p: P\n    1.1: p.x@ < 5\n    |- (-2147483648 <= (p.x@ + 1)) && ((p.x@ + 1) <= 2147483647)\n",
    ),
    (
        Verb::Goals,
        b"#[ensures(result == t)]\nfn f(t: (u8, bool)) -> (u8, bool) { (1, t.1) }\n",
        "f.rs:1:11: ensures, obligation 1 of f\n    #[ensures(result == t)]\n              ^^^^^^^^^^^\n    no proof\n    t: (u8, bool)\n    |- (1, t.1) == t\n",
    ),
    (
        Verb::Goals,
        b"#[requires((forall<o: Option<(Int, bool)>> o == o) || n@ < 5)]\nfn inc(n: i32) -> i32 { n + 1 }\n",
        "f.rs:2:27: overflow, obligation 1 of inc\n    fn inc(n: i32) -> i32 { n + 1 }\n                              ^\n    no proof\n    n: i32\n    1.1: (forall<b1: Option<(Int, bool)>> (b1 == b1)) || (n@ < 5)\n    |- (-2147483648 <= (n@ + 1)) && ((n@ + 1) <= 2147483647)\n",
    ),
    (
        Verb::Skeleton,
        b"#[requires(n@ < 5)]\nfn inc(n: i32) -> i32 { n + 1 }\n",
        "creusot-proofs 1\n# f.rs:2:27: overflow\n#     n: i32\n#     1.1: n@ < 5\n#     |- (-2147483648 <= (n@ + 1)) && ((n@ + 1) <= 2147483647)\nproof 1 inc\nintro n\nend\n",
    ),
];

#[test]
fn pages_are_byte_for_byte(rt: HostRuntime) -> Result<(), Fail> {
    let proofs = Source {
        name: "f.proofs",
        bytes: PROOFS,
    };
    for (at, (verb, bytes, expected)) in PAGES.iter().enumerate() {
        let source = Source {
            name: "f.rs",
            bytes,
        };
        let page = make_page(rt.alloc(), *verb, source, proofs)?;
        assert!(rt; page.text.as_str() == *expected, "row {at}");
    }
    Ok(())
}
