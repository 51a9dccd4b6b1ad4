//! Functions over structs and tuples, verified as a reader's files are.
use super::tests::Call;
use std::test::Fail;

const POINTS: &[u8] = b"// Points that are copied, and pairs.
#[derive(Clone, Copy)]
struct Point {
    x: i32,
    y: i32,
}

#[derive(Clone, Copy)]
struct Segment {
    from: Point,
    to: Point,
}

#[requires(-1000000 < p.x@)]
#[requires(p.x@ < 1000000)]
#[ensures(result.x@ == p.x@ + 1)]
#[ensures(result.y == p.y)]
fn right(p: Point) -> Point {
    Point { x: p.x + 1, y: p.y }
}

#[requires(-1000000 < p.x@)]
#[requires(p.x@ < 999999)]
#[ensures(result.from == p)]
#[ensures(result.to.x@ == p.x@ + 2)]
fn two_right(p: Point) -> Segment {
    let to = right(right(p));
    Segment { from: p, to: to }
}

#[ensures(result.0 == pair.1 && result.1 == pair.0)]
fn swapped(pair: (i32, bool)) -> (bool, i32) {
    (pair.1, pair.0)
}
";

const PROOFS: &[u8] = b"creusot-proofs 1
proof 1 right
intro p
split
lin 1:goal 1:1.1
lin 1:goal 1:1.2
end
proof 2 right
intro p x
hyp 1.3
end
proof 3 right
intro p x
refl
end
proof 1 two_right
intro p
hyp 1.1
end
proof 2 two_right
intro p
lin 1:goal 1:1.2
end
# The first step ends where the second may begin.
proof 3 two_right
intro p q
lin 1:goal 1:1.1 1:-1.3
end
proof 4 two_right
intro p q
lin 1:goal 1:1.2 1:1.3
end
proof 5 two_right
intro p q r
refl
end
proof 6 two_right
intro p q r
antisym
lin 1:goal 1:1.3 1:1.5
lin 1:goal 1:-1.3 1:-1.5
end
proof 1 swapped
intro pair
split
refl
refl
end
";

const PRINTED: &[u8] = b"verified right
verified two_right
verified swapped
summary functions 3 verified 3 obligations 10 proved 10
";

/// A part is printed by its number.
const GOALS: &[u8] = b"obligation 1 overflow 346..347 line 19 right
(forall<v1: Point> (((-1000000) < v1.0@) ==> ((v1.0@ < 1000000) ==> (((-2147483648) <= (v1.0@ + 1)) && ((v1.0@ + 1) <= 2147483647)))))
obligation 2 ensures 245..266 line 16 right
(forall<v1: Point> (((-1000000) < v1.0@) ==> ((v1.0@ < 1000000) ==> (forall<v2: i32> ((v2@ == (v1.0@ + 1)) ==> (v2@ == (v1.0@ + 1)))))))
obligation 3 ensures 279..294 line 17 right
(forall<v1: Point> (((-1000000) < v1.0@) ==> ((v1.0@ < 1000000) ==> (forall<v2: i32> ((v2@ == (v1.0@ + 1)) ==> (v1.1 == v1.1))))))
obligation 1 requires 540..548 line 27 two_right
(forall<v1: Point> (((-1000000) < v1.0@) ==> ((v1.0@ < 999999) ==> ((-1000000) < v1.0@))))
obligation 2 requires 540..548 line 27 two_right
(forall<v1: Point> (((-1000000) < v1.0@) ==> ((v1.0@ < 999999) ==> (v1.0@ < 1000000))))
obligation 3 requires 534..549 line 27 two_right
(forall<v1: Point> (((-1000000) < v1.0@) ==> ((v1.0@ < 999999) ==> (forall<v2: Point> ((v2.0@ == (v1.0@ + 1)) ==> ((v2.1 == v1.1) ==> ((-1000000) < v2.0@)))))))
obligation 4 requires 534..549 line 27 two_right
(forall<v1: Point> (((-1000000) < v1.0@) ==> ((v1.0@ < 999999) ==> (forall<v2: Point> ((v2.0@ == (v1.0@ + 1)) ==> ((v2.1 == v1.1) ==> (v2.0@ < 1000000)))))))
obligation 5 ensures 429..445 line 24 two_right
(forall<v1: Point> (((-1000000) < v1.0@) ==> ((v1.0@ < 999999) ==> (forall<v2: Point> ((v2.0@ == (v1.0@ + 1)) ==> ((v2.1 == v1.1) ==> (forall<v3: Point> ((v3.0@ == (v2.0@ + 1)) ==> ((v3.1 == v2.1) ==> (v1 == v1))))))))))
obligation 6 ensures 458..482 line 25 two_right
(forall<v1: Point> (((-1000000) < v1.0@) ==> ((v1.0@ < 999999) ==> (forall<v2: Point> ((v2.0@ == (v1.0@ + 1)) ==> ((v2.1 == v1.1) ==> (forall<v3: Point> ((v3.0@ == (v2.0@ + 1)) ==> ((v3.1 == v2.1) ==> (v3.0@ == (v1.0@ + 2)))))))))))
obligation 1 ensures 596..636 line 31 swapped
(forall<v1: (i32, bool)> ((v1.1 == v1.1) && (v1.0 == v1.0)))
";

#[test]
fn functions_over_points_are_verified(rt: HostRuntime) -> Result<(), Fail> {
    let call = Call::of(POINTS, PROOFS);
    assert!(rt; call.gives(rt.alloc(), 0, PRINTED)?);
    Ok(())
}

#[test]
fn goals_over_points_are_listed(rt: HostRuntime) -> Result<(), Fail> {
    let call = Call {
        words: &["list", "s"],
        ..Call::of(POINTS, PROOFS)
    };
    assert!(rt; call.gives(rt.alloc(), 0, GOALS)?);
    Ok(())
}

const SUM: &[u8] = b"#[derive(Clone, Copy)]
struct Point {
    x: i32,
    y: i32,
}

#[ensures(result@ == p.x@ + p.y@)]
fn sum(p: Point) -> i64 {
    p.x as i64 + p.y as i64
}
";

const PROOFS_OF_SUM: &[u8] = b"creusot-proofs 1
proof 1 sum
intro p a b
range p.x
range p.y
split
lin 1:goal 1:-1.1 1:-1.2 1:2.1 1:3.1
lin 1:goal 1:1.1 1:1.2 1:2.2 1:3.2
end
proof 2 sum
intro p a b c
antisym
lin 1:goal 1:1.1 1:1.2 1:1.3
lin 1:goal 1:-1.1 1:-1.2 1:-1.3
end
";

/// No contract bounds the fields: their types do.
#[test]
fn fields_are_spoken_of_in_proofs(rt: HostRuntime) -> Result<(), Fail> {
    let call = Call::of(SUM, PROOFS_OF_SUM);
    let printed = b"verified sum\nsummary functions 1 verified 1 obligations 2 proved 2\n";
    assert!(rt; call.gives(rt.alloc(), 0, printed)?);
    Ok(())
}
