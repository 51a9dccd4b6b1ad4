ghost use Rattle.std.specs.Prelude.{◌≡◌};
ghost use Rattle.source_kinds.specs.Range.{lowest, highest, widens};

/// The machine's integer types; `Usize` and `Isize` have 64 bits.
#[derive(Clone, Copy, Debug, PartialEq, Eq)]
pub enum IntKind {
    I8,
    I16,
    I32,
    I64,
    Isize,
    U8,
    U16,
    U32,
    U64,
    Usize,
}

impl IntKind {
    /// The least integer of the type.
    pub fn lowest(self) -> i128
        ensures { result ≡ lowest self }
    {
        match self {
            IntKind::I8 => -128,
            IntKind::I16 => -32768,
            IntKind::I32 => -2147483648,
            IntKind::I64 | IntKind::Isize => -9223372036854775808,
            IntKind::U8 | IntKind::U16 | IntKind::U32 | IntKind::U64 | IntKind::Usize => 0,
        }
    }

    /// The greatest integer of the type.
    pub fn highest(self) -> i128
        ensures { result ≡ highest self }
    {
        match self {
            IntKind::I8 => 127,
            IntKind::I16 => 32767,
            IntKind::I32 => 2147483647,
            IntKind::I64 | IntKind::Isize => 9223372036854775807,
            IntKind::U8 => 255,
            IntKind::U16 => 65535,
            IntKind::U32 => 4294967295,
            IntKind::U64 | IntKind::Usize => 18446744073709551615,
        }
    }

    /// Whether each integer of the type is one of the other, so that a cast to it loses nothing.
    pub fn widens_to(self, other: IntKind) -> bool
        ensures { result ≡ widens self other }
    {
        other.lowest() <= self.lowest() && self.highest() <= other.highest()
    }
}

/// The operators of arithmetic.
#[derive(Clone, Copy, Debug, PartialEq, Eq)]
pub enum ArithOp {
    Add,
    Sub,
    Mul,
    Div,
    Rem,
}

/// The binary operators of program code.
#[derive(Clone, Copy)]
pub enum BinaryOp {
    Add,
    Sub,
    Mul,
    Div,
    Rem,
    Eq,
    Ne,
    Lt,
    Le,
    Gt,
    Ge,
}

/// The comparisons of terms.
#[derive(Clone, Copy, Debug, PartialEq, Eq)]
pub enum Comparison {
    Eq,
    Ne,
    Lt,
    Le,
    Gt,
    Ge,
}

/// The lazy operators of program code.
#[derive(Clone, Copy, Debug, PartialEq, Eq)]
pub enum LazyOp {
    /// `&&`
    And,
    /// `||`
    Or,
}
