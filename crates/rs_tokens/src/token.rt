use text_core::Span;

/// What stands in a token.
#[derive(Clone, Copy, Debug, PartialEq, Eq)]
pub enum TokenKind {
    /// An identifier: a word that is no keyword and not `_` alone.
    Ident,
    /// `_` alone.
    Underscore,
    /// `'` and an identifier, or `'static`.
    Lifetime,
    /// An integer in one of four bases, with an integer type as its end or without one.
    Int,
    /// A text between `"`.
    Str,
    /// `as`
    KwAs,
    /// `break`
    KwBreak,
    /// `const`
    KwConst,
    /// `continue`
    KwContinue,
    /// `crate`
    KwCrate,
    /// `else`
    KwElse,
    /// `enum`
    KwEnum,
    /// `extern`
    KwExtern,
    /// `false`
    KwFalse,
    /// `fn`
    KwFn,
    /// `for`
    KwFor,
    /// `if`
    KwIf,
    /// `impl`
    KwImpl,
    /// `in`
    KwIn,
    /// `let`
    KwLet,
    /// `loop`
    KwLoop,
    /// `match`
    KwMatch,
    /// `mod`
    KwMod,
    /// `move`
    KwMove,
    /// `mut`
    KwMut,
    /// `pub`
    KwPub,
    /// `ref`
    KwRef,
    /// `return`
    KwReturn,
    /// `self`
    KwSelf,
    /// `Self`
    KwSelfType,
    /// `static`
    KwStatic,
    /// `struct`
    KwStruct,
    /// `super`
    KwSuper,
    /// `trait`
    KwTrait,
    /// `true`
    KwTrue,
    /// `type`
    KwType,
    /// `unsafe`
    KwUnsafe,
    /// `use`
    KwUse,
    /// `where`
    KwWhere,
    /// `while`
    KwWhile,
    /// `async`
    KwAsync,
    /// `await`
    KwAwait,
    /// `dyn`
    KwDyn,
    /// `==>`
    Implies,
    /// `==`
    EqualEqual,
    /// `=>`
    FatArrow,
    /// `->`
    Arrow,
    /// `!=`
    NotEqual,
    /// `<=`
    AtMost,
    /// `>=`
    AtLeast,
    /// `&&`
    AndAnd,
    /// `||`
    OrOr,
    /// `+=`
    PlusEqual,
    /// `-=`
    MinusEqual,
    /// `*=`
    StarEqual,
    /// `/=`
    SlashEqual,
    /// `%=`
    PercentEqual,
    /// `::`
    PathSep,
    /// `..`
    DotDot,
    /// `(`
    OpenParen,
    /// `)`
    CloseParen,
    /// `[`
    OpenBracket,
    /// `]`
    CloseBracket,
    /// `{`
    OpenBrace,
    /// `}`
    CloseBrace,
    /// `<`
    Less,
    /// `>`
    Greater,
    /// `=`
    Equal,
    /// `+`
    Plus,
    /// `-`
    Minus,
    /// `*`
    Star,
    /// `/`
    Slash,
    /// `%`
    Percent,
    /// `!`
    Not,
    /// `&`
    And,
    /// `|`
    Or,
    /// `^`
    Caret,
    /// `@`
    At,
    /// `#`
    Pound,
    /// `,`
    Comma,
    /// `;`
    Semicolon,
    /// `:`
    Colon,
    /// `.`
    Dot,
    /// `?`
    Question,
}

/// A token and where it stands; its text is the part of the source in its span.
#[derive(Clone, Copy, Debug)]
pub struct Token {
    pub kind: TokenKind,
    pub span: Span,
}

/// The token at the front of a text, and how many bytes it has.
#[derive(Clone, Copy)]
pub struct Front {
    pub kind: TokenKind,
    pub len: usize,
}
