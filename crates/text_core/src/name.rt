ghost use Rattle.std.specs.Prelude.{◌≡◌, ◌+◌, ◌<◌, ◌^◌};

/// The name of a variable, a field, a type or a function. Tables of names give those below 2^63; `fresh` makes the
/// others.
#[derive(Clone, Copy, Debug, PartialEq, Eq)]
pub struct Name(pub u64);

/// The first of the names that no table gives.
pub(crate) const FIRST_FRESH: u64 = 1 << 63;

impl Name {
    /// A name that no table of names gives; different numbers give different names.
    pub fn fresh(k: u64) -> Name
        requires { k < 2 ^ 63 }
        ensures { result.0 ≡ 2 ^ 63 + k }
    {
        Name(FIRST_FRESH + k)
    }
}

/// The names that every table gives to the words of types, traits and library items, in the order of `words` in
/// specs/Names.antt.
pub const I8: Name = Name(0);

pub const I16: Name = Name(1);

pub const I32: Name = Name(2);

pub const I64: Name = Name(3);

pub const ISIZE: Name = Name(4);

pub const U8: Name = Name(5);

pub const U16: Name = Name(6);

pub const U32: Name = Name(7);

pub const U64: Name = Name(8);

pub const USIZE: Name = Name(9);

pub const BOOL: Name = Name(10);

pub const INT: Name = Name(11);

pub const BOX: Name = Name(12);

pub const NEW: Name = Name(13);

pub const OPTION: Name = Name(14);

pub const NONE: Name = Name(15);

pub const SOME: Name = Name(16);

pub const COPY: Name = Name(17);

pub const FN: Name = Name(18);

pub const FN_MUT: Name = Name(19);

pub const FN_ONCE: Name = Name(20);

pub const VIEW: Name = Name(21);

pub const VIEW_TY: Name = Name(22);

pub const VIEW_FN: Name = Name(23);

pub const MEM: Name = Name(24);

pub const SWAP: Name = Name(25);

pub const REPLACE: Name = Name(26);
