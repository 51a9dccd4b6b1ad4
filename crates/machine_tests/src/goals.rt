//! The goals of the samples, as they are printed.

/// `-2147483648 <= x@ + 1 && x@ + 1 <= 2147483647`
pub(crate) const IN_RANGE: &[u8] =
    b"(forall<v1: i32> ((v1@ < 100) ==> (((-2147483648) <= (v1@ + 1)) && ((v1@ + 1) <= 2147483647))))";

/// For each value that is `x@ + 1` that it is `x@ + 1`.
pub(crate) const ANSWERED: &[u8] =
    b"(forall<v1: i32> ((v1@ < 100) ==> (forall<v2: i32> ((v2@ == (v1@ + 1)) ==> (v2@ == (v1@ + 1))))))";

/// For each value of the wider type that is `x@` that it is `x@ + 1`.
pub(crate) const CAST: &[u8] =
    b"(forall<v1: u8> ((v1@ < 100) ==> (forall<v2: i16> ((v2@ == v1@) ==> (v2@ == (v1@ + 1))))))";

pub(crate) const NEVER: &[u8] = b"(forall<v1: i32> ((v1@ < 100) ==> false))";

pub(crate) const SMALL: &[u8] = b"(forall<v1: i32> ((v1@ < 100) ==> (v1@ < 100)))";

/// For each value that is `None` that this is the value.
pub(crate) const IS_NONE: &[u8] =
    b"(forall<v1: Option<i32>> ((v1 == Option::None) ==> (Option::None == v1)))";

/// For each value that is `Some` of a value that this is the value.
pub(crate) const IS_SOME: &[u8] =
    b"(forall<v1: Option<i32>> (forall<v2: i32> ((v1 == Option::Some(v2)) ==> (Option::Some(v2) == v1))))";

/// A box is what it holds.
pub(crate) const HELD: &[u8] = b"(forall<v1: i32> ((v1@ < 100) ==> (v1@ == (v1@ + 1))))";

pub(crate) const PAIR: &[u8] = b"(forall<v1: i32> ((v1, v1) == (v1, v1)))";

/// The second part of 1 and `x` is `x`.
pub(crate) const PART: &[u8] = b"(forall<v1: i32> ((v1@ < 100) ==> (v1@ == (v1@ + 1))))";

/// The second part of each pair is the first.
pub(crate) const PART_OF_PARAMETER: &[u8] = b"(forall<v1: (i32, i32)> (v1.1 == v1.0))";
