//! The programs of `data/`, but for those that other tests have, as the files are.
use super::tests::Call;
use std::test::Fail;

/// A source, its proofs, and what is printed of them.
type Example = (&'static [u8], &'static [u8], &'static [u8]);

const ABS_DIFF: Example = (
    b"// How far two numbers are apart.
#[ensures(a@ < b@ ==> result@ == b@ - a@)]
#[ensures(b@ <= a@ ==> result@ == a@ - b@)]
fn abs_diff(a: u32, b: u32) -> u32 {
    if a < b { b - a } else { a - b }
}
",
    b"creusot-proofs 1
# b - a
proof 1 abs_diff
intro a b
range a
range b
split
lin 1:goal 1:1.1
lin 1:goal 1:3.2 1:2.1
end
proof 2 abs_diff
intro a b d
hyp 1.2
end
# Here a < b, and b <= a is no case of it.
proof 3 abs_diff
intro a b d
lin 1:1.1 1:1.3
end
# a - b
proof 4 abs_diff
intro a b
range a
range b
split
lin 1:goal 1:1.1
lin 1:goal 1:2.2 1:3.1
end
proof 5 abs_diff
intro a b d
lin 1:1.1 1:1.3
end
proof 6 abs_diff
intro a b d
hyp 1.2
end
",
    b"verified abs_diff\nsummary functions 1 verified 1 obligations 6 proved 6\n",
);

const AT_LEAST_ONE: Example = (
    b"// A number, and one for none.
#[ensures(x@ == 0 ==> result@ == 1)]
#[ensures(1 <= x@ ==> result@ == x@)]
fn at_least_one(x: u32) -> u32 {
    match x {
        0 => 1,
        n => n,
    }
}
",
    b"creusot-proofs 1
proof 1 at_least_one
intro x
refl
end
# x is 0, and not past it.
proof 2 at_least_one
intro x
lin 1:1.1 1:1.2
end
# n is not 0.
proof 3 at_least_one
intro x
absurd 1.2 1.1
end
proof 4 at_least_one
intro x
refl
end
",
    b"verified at_least_one\nsummary functions 1 verified 1 obligations 4 proved 4\n",
);

const CLAMP: Example = (
    b"// A number moved to the nearest within bounds.
#[requires(low@ <= high@)]
#[ensures(low@ <= result@)]
#[ensures(result@ <= high@)]
#[ensures(x@ <= low@ ==> result@ <= low@)]
#[ensures(high@ <= x@ ==> high@ <= result@)]
#[ensures(low@ <= x@ ==> x@ <= high@ ==> result@ <= x@)]
#[ensures(low@ <= x@ ==> x@ <= high@ ==> x@ <= result@)]
fn clamp(x: i32, low: i32, high: i32) -> i32 {
    if x < low {
        low
    } else if high < x {
        high
    } else {
        x
    }
}
",
    b"creusot-proofs 1
# x is below both bounds.
proof 1 clamp
intro x l h
lin 1:goal
end
proof 2 clamp
intro x l h
hyp 1.1
end
proof 3 clamp
intro x l h
lin 1:goal
end
proof 4 clamp
intro x l h
lin 1:goal 1:1.3 1:1.2
end
proof 5 clamp
intro x l h
hyp 1.3
end
proof 6 clamp
intro x l h
lin 1:goal 1:1.2
end
# x is above both bounds.
proof 7 clamp
intro x l h
hyp 1.1
end
proof 8 clamp
intro x l h
lin 1:goal
end
proof 9 clamp
intro x l h
lin 1:goal 1:1.3 1:1.4
end
proof 10 clamp
intro x l h
lin 1:goal
end
proof 11 clamp
intro x l h
lin 1:goal 1:1.3
end
proof 12 clamp
intro x l h
hyp 1.5
end
# x is within.
proof 13 clamp
intro x l h
lin 1:goal 1:1.2
end
proof 14 clamp
intro x l h
lin 1:goal 1:1.3
end
proof 15 clamp
intro x l h
hyp 1.4
end
proof 16 clamp
intro x l h
hyp 1.4
end
proof 17 clamp
intro x l h
lin 1:goal
end
proof 18 clamp
intro x l h
lin 1:goal
end
",
    b"verified clamp\nsummary functions 1 verified 1 obligations 18 proved 18\n",
);

const CLIMB: Example = (
    b"// Counts up to a number, by a loop that is left by its answer.

#[requires(n@ >= 0)]
#[ensures(result@ == n@)]
fn climb(n: i32) -> i32 {
    let mut k: i32 = 0;
    #[invariant(k@ <= n@)]
    loop {
        if k >= n {
            return k;
        }
        k += 1;
    }
}

// The largest number with one digit that is below another one: larger ones are passed over, and no run comes to the macro.
#[requires(n@ > 0)]
#[ensures(result@ < n@)]
#[ensures(result@ <= 9)]
fn digit_below(n: u32) -> u32 {
    let mut k: u32 = n;
    #[invariant(k@ <= n@)]
    #[invariant(k@ > 0)]
    loop {
        k -= 1;
        if k > 9 {
            continue;
        }
        break;
    }
    if k >= n {
        unreachable!();
    }
    k
}
",
    b"creusot-proofs 1
proof 1 climb
intro n
hyp 1.1
end
proof 2 climb
intro n u k
antisym
hyp 1.2
hyp 1.3
end
proof 3 climb
intro n u k
range k
range n
split
lin 1:goal 1:2.1
lin 1:goal 1:1.3 1:3.2
end
proof 4 climb
intro n u k w
lin 1:goal 1:1.3 1:1.4
end
proof 1 digit_below
intro n
lin 1:goal
end
proof 2 digit_below
intro n
hyp 1.1
end
proof 3 digit_below
intro n k
range k
split
lin 1:goal 1:1.3
lin 1:goal 1:2.2
end
proof 4 digit_below
intro n k w
lin 1:goal 1:1.4 1:1.2
end
proof 5 digit_below
intro n k w
lin 1:goal 1:1.5
end
proof 6 digit_below
intro n k w
lin 1:1.2 1:1.4 1:1.6
end
proof 7 digit_below
intro n k w
lin 1:goal 1:1.6
end
proof 8 digit_below
intro n k w
lin 1:goal 1:1.5
end
",
    b"verified climb\nverified digit_below\nsummary functions 2 verified 2 obligations 12 proved 12\n",
);

const COUNTER: Example = (
    b"// A counter that stays at 100.
#[requires(c@ <= 100)]
#[ensures(result@ <= 100)]
#[ensures(result@ >= c@)]
fn next(c: u8) -> u8 {
    if c < 100 { c + 1 } else { c }
}

#[ensures(result@ <= 100)]
fn twice() -> u8 {
    let a = next(0);
    next(a)
}
",
    b"creusot-proofs 1
proof 1 next
intro c
range c
split
lin 1:goal 1:2.1
lin 1:goal 1:1.2
end
proof 2 next
intro c v
lin 1:goal 1:1.3 1:1.2
end
proof 3 next
intro c v
lin 1:goal 1:-1.3
end
proof 4 next
intro c
hyp 1.1
end
proof 5 next
intro c
lin 1:goal
end
proof 1 twice
lin 1:goal
end
proof 2 twice
intro r
hyp 1.1
end
proof 3 twice
intro r s
hyp 1.3
end
",
    b"verified next\nverified twice\nsummary functions 2 verified 2 obligations 8 proved 8\n",
);

const DOUBLE: Example = (
    b"#[requires(-1000 <= x@)]
#[requires(x@ <= 1000)]
#[ensures(result@ == x@ + x@)]
fn double(x: i32) -> i32 {
    x + x
}
",
    b"creusot-proofs 1
proof 1 double
intro x
split
lin 1:goal 2:1.1
lin 1:goal 2:1.2
end
proof 2 double
intro x sum
hyp 1.3
end
",
    b"verified double\nsummary functions 1 verified 1 obligations 2 proved 2\n",
);

const EVEN: Example = (
    b"// Twice a number, which is even.
#[requires(-1000 <= x@)]
#[requires(x@ <= 1000)]
#[ensures(exists<k: Int> result@ == 2 * k)]
fn twice(x: i32) -> i32 {
    x + x
}

// A number, or the bound where that is larger.
#[ensures(if x@ < low@ { result@ == low@ } else { result@ == x@ })]
fn at_least(x: i32, low: i32) -> i32 {
    if x < low { low } else { x }
}
",
    b"creusot-proofs 1
proof 1 twice
intro x
split
lin 1:goal 2:1.1
lin 1:goal 2:1.2
end
# The sum is twice x.
proof 2 twice
intro x sum
exists x@
antisym
lin 1:goal 1:1.3
lin 1:goal 1:-1.3
end
# The bound is larger, and then it is not.
proof 1 at_least
intro x low
cond 1.1
refl
end
proof 2 at_least
intro x low
cond 1.1
refl
end
",
    b"verified twice\nverified at_least\nsummary functions 2 verified 2 obligations 4 proved 4\n",
);

/// What `list` prints of it.
const EVEN_GOALS: &[u8] = b"obligation 1 overflow 159..160 line 6 twice
(forall<v1: i32> (((-1000) <= v1@) ==> ((v1@ <= 1000) ==> (((-2147483648) <= (v1@ + v1@)) && ((v1@ + v1@) <= 2147483647)))))
obligation 2 ensures 93..124 line 4 twice
(forall<v1: i32> (((-1000) <= v1@) ==> ((v1@ <= 1000) ==> (forall<v2: i32> ((v2@ == (v1@ + v1@)) ==> (exists<v3: Int> (v2@ == (2 * v3))))))))
obligation 1 ensures 224..279 line 10 at_least
(forall<v1: i32> (forall<v2: i32> ((v1@ < v2@) ==> (if (v1@ < v2@) { (v2@ == v2@) } else { (v2@ == v1@) }))))
obligation 2 ensures 224..279 line 10 at_least
(forall<v1: i32> (forall<v2: i32> ((!(v1@ < v2@)) ==> (if (v1@ < v2@) { (v1@ == v2@) } else { (v1@ == v1@) }))))
";

const GCD: Example = (
    b"// The greatest common divisor by subtraction; that both numbers stay positive is what is claimed.
#[requires(a@ > 0)]
#[requires(b@ > 0)]
#[ensures(result@ > 0)]
fn gcd(a: u32, b: u32) -> u32 {
    let mut x = a;
    let mut y = b;
    #[invariant(x@ > 0)]
    #[invariant(y@ > 0)]
    while x != y {
        if x < y {
            y -= x;
        } else if y < x {
            x -= y;
        }
    }
    x
}
",
    b"creusot-proofs 1
proof 1 gcd
intro a b
hyp 1.1
end
proof 2 gcd
intro a b
hyp 1.2
end
# y -= x
proof 3 gcd
intro a b x y
range x
range y
split
lin 1:goal 1:1.6
lin 1:goal 1:3.2 1:2.1
end
proof 4 gcd
intro a b x y v
hyp 1.3
end
proof 5 gcd
intro a b x y v
lin 1:goal 1:-1.7 1:1.6
end
# x -= y
proof 6 gcd
intro a b x y
range x
range y
split
lin 1:goal 1:1.7
lin 1:goal 1:2.2 1:3.1
end
proof 7 gcd
intro a b x y v
lin 1:goal 1:-1.8 1:1.7
end
proof 8 gcd
intro a b x y v
hyp 1.4
end
# Neither is less.
proof 9 gcd
intro a b x y
hyp 1.3
end
proof 10 gcd
intro a b x y
hyp 1.4
end
proof 11 gcd
intro a b x y
hyp 1.3
end
",
    b"verified gcd\nsummary functions 1 verified 1 obligations 11 proved 11\n",
);

const ISQRT: Example = (
    b"// The integer square root: takes the odd numbers away one after another.
#[ensures(result@ <= n@)]
fn isqrt(n: u32) -> u32 {
    let mut r: u32 = 0;
    let mut rest: u32 = n;
    let mut odd: u32 = 1;
    #[invariant(1 <= odd@)]
    #[invariant(odd@ <= r@ + r@ + 1)]
    #[invariant(rest@ + r@ <= n@)]
    while odd <= rest {
        rest -= odd;
        odd += 2;
        r += 1;
    }
    r
}
",
    b"creusot-proofs 1
# The invariants where the loop begins.
proof 1 isqrt
intro n
lin 1:goal
end
proof 2 isqrt
intro n
lin 1:goal
end
proof 3 isqrt
intro n
lin 1:goal
end
# rest -= odd
proof 4 isqrt
intro n r s o
range s
split
lin 1:goal 1:1.4
lin 1:goal 1:2.2 1:1.1
end
# odd += 2
proof 5 isqrt
intro n r s o v
range n
split
lin 1:goal 1:1.1
lin 3:goal 1:1.2 2:1.3 2:1.4 2:2.2
end
# r += 1
proof 6 isqrt
intro n r s o v w
range r
range n
split
lin 1:goal 1:2.1
lin 1:goal 1:1.3 1:3.2 1:1.4 1:1.1
end
# The invariants after a turn.
proof 7 isqrt
intro n r s o v w z
lin 1:goal 1:-1.6 1:1.1
end
proof 8 isqrt
intro n r s o v w z
lin 1:goal 1:1.6 2:-1.7 1:1.2
end
proof 9 isqrt
intro n r s o v w z
lin 1:goal 1:1.5 1:1.7 1:1.3 1:1.1
end
proof 10 isqrt
intro n r s o
range s
lin 1:goal 1:1.3 1:2.1
end
",
    b"verified isqrt\nsummary functions 1 verified 1 obligations 10 proved 10\n",
);

const MAX: Example = (
    b"// The larger of two numbers.
#[ensures(a@ <= result@)]
#[ensures(b@ <= result@)]
#[ensures(a@ <= b@ ==> result@ <= b@)]
#[ensures(b@ <= a@ ==> result@ <= a@)]
fn max(a: i32, b: i32) -> i32 {
    if a < b { b } else { a }
}
",
    b"creusot-proofs 1
# b is the larger one.
proof 1 max
intro a b
lin 1:goal 1:1.1
end
proof 2 max
intro a b
lin 1:goal
end
proof 3 max
intro a b
lin 1:goal
end
proof 4 max
intro a b
hyp 1.2
end
# a is at least as large.
proof 5 max
intro a b
lin 1:goal
end
proof 6 max
intro a b
lin 1:goal 1:1.1
end
proof 7 max
intro a b
hyp 1.2
end
proof 8 max
intro a b
lin 1:goal
end
",
    b"verified max\nsummary functions 1 verified 1 obligations 8 proved 8\n",
);

const MEAN: Example = (
    b"// The mean of two numbers, rounded down: in the wider type there is room for their sum.
#[ensures(result@ + result@ <= a@ + b@)]
#[ensures(a@ + b@ <= result@ + result@ + 1)]
fn mean(a: u8, b: u8) -> u16 {
    (a as u16 + b as u16) / 2
}
",
    b"creusot-proofs 1
# The sum has room.
proof 1 mean
intro a b v w
range a
range b
split
lin 1:goal 1:-1.1 1:-1.2 1:2.1 1:3.1
lin 1:goal 1:1.1 1:1.2 1:2.2 1:3.2
end
proof 2 mean
intro a b v w s
contra
lin 1:2.1
end
# The remainder is not negative.
proof 3 mean
intro a b v w s q
range s
div s@ ; 2
cut !(2 == 0)
contra
lin 1:5.1
mp 3.1 4.1
cut 0 <= s@ && !(2 == 0)
split
hyp 2.1
hyp 4.1
mp 3.2 8.1
lin 1:goal 2:1.4 1:-7.1 1:1.3 1:1.1 1:1.2 1:12.1
end
# The remainder is below 2.
proof 4 mean
intro a b v w s q
div s@ ; 2
cut !(2 == 0)
contra
lin 1:4.1
mp 2.1 3.1
cut 0 < 2
lin 1:goal
mp 2.4 7.1
cases 9.1
lin 1:goal 2:-1.4 1:6.1 1:-1.3 1:-1.1 1:-1.2 1:10.2
end
",
    b"verified mean\nsummary functions 1 verified 1 obligations 4 proved 4\n",
);

const EXAMPLES: [Example; 11] = [
    ABS_DIFF,
    AT_LEAST_ONE,
    CLAMP,
    CLIMB,
    COUNTER,
    DOUBLE,
    EVEN,
    GCD,
    ISQRT,
    MAX,
    MEAN,
];

#[test]
fn small_programs_are_verified(rt: HostRuntime) -> Result<(), Fail> {
    for (at, (source, proofs, printed)) in EXAMPLES.iter().enumerate() {
        let call = Call::of(source, proofs);
        assert!(rt; call.gives(rt.alloc(), 0, printed)?, "row {at}");
    }
    Ok(())
}

#[test]
fn goals_of_exists_and_if_are_listed(rt: HostRuntime) -> Result<(), Fail> {
    let call = Call {
        words: &["list", "s"],
        ..Call::of(EVEN.0, EVEN.1)
    };
    assert!(rt; call.gives(rt.alloc(), 0, EVEN_GOALS)?);
    Ok(())
}
