//! The kinds of tokens, by the numbers of their terminals. Made by `python3 tools/grammar.py` of tools/source.ebnf.

/// identifier
pub const IDENTIFIER: u8 = 0;
/// `_`
pub const UNDERSCORE: u8 = 1;
/// lifetime
pub const LIFETIME: u8 = 2;
/// integer
pub const INTEGER: u8 = 3;
/// string
pub const STRING_LITERAL: u8 = 4;
/// `as`
pub const KW_AS: u8 = 5;
/// `break`
pub const KW_BREAK: u8 = 6;
/// `const`
pub const KW_CONST: u8 = 7;
/// `continue`
pub const KW_CONTINUE: u8 = 8;
/// `crate`
pub const KW_CRATE: u8 = 9;
/// `else`
pub const KW_ELSE: u8 = 10;
/// `enum`
pub const KW_ENUM: u8 = 11;
/// `extern`
pub const KW_EXTERN: u8 = 12;
/// `false`
pub const KW_FALSE: u8 = 13;
/// `fn`
pub const KW_FN: u8 = 14;
/// `for`
pub const KW_FOR: u8 = 15;
/// `if`
pub const KW_IF: u8 = 16;
/// `impl`
pub const KW_IMPL: u8 = 17;
/// `in`
pub const KW_IN: u8 = 18;
/// `let`
pub const KW_LET: u8 = 19;
/// `loop`
pub const KW_LOOP: u8 = 20;
/// `match`
pub const KW_MATCH: u8 = 21;
/// `mod`
pub const KW_MOD: u8 = 22;
/// `move`
pub const KW_MOVE: u8 = 23;
/// `mut`
pub const KW_MUT: u8 = 24;
/// `pub`
pub const KW_PUB: u8 = 25;
/// `ref`
pub const KW_REF: u8 = 26;
/// `return`
pub const KW_RETURN: u8 = 27;
/// `self`
pub const KW_SELF_VALUE: u8 = 28;
/// `Self`
pub const KW_SELF_TYPE: u8 = 29;
/// `static`
pub const KW_STATIC: u8 = 30;
/// `struct`
pub const KW_STRUCT: u8 = 31;
/// `super`
pub const KW_SUPER: u8 = 32;
/// `trait`
pub const KW_TRAIT: u8 = 33;
/// `true`
pub const KW_TRUE: u8 = 34;
/// `type`
pub const KW_TYPE: u8 = 35;
/// `unsafe`
pub const KW_UNSAFE: u8 = 36;
/// `use`
pub const KW_USE: u8 = 37;
/// `where`
pub const KW_WHERE: u8 = 38;
/// `while`
pub const KW_WHILE: u8 = 39;
/// `async`
pub const KW_ASYNC: u8 = 40;
/// `await`
pub const KW_AWAIT: u8 = 41;
/// `dyn`
pub const KW_DYN: u8 = 42;
/// `==>`
pub const IMPLIES: u8 = 43;
/// `==`
pub const EQUAL_EQUAL: u8 = 44;
/// `=>`
pub const FAT_ARROW: u8 = 45;
/// `->`
pub const ARROW: u8 = 46;
/// `!=`
pub const NOT_EQUAL: u8 = 47;
/// `<=`
pub const AT_MOST: u8 = 48;
/// `>=`
pub const AT_LEAST: u8 = 49;
/// `&&`
pub const AND_AND: u8 = 50;
/// `||`
pub const OR_OR: u8 = 51;
/// `+=`
pub const PLUS_EQUAL: u8 = 52;
/// `-=`
pub const MINUS_EQUAL: u8 = 53;
/// `*=`
pub const STAR_EQUAL: u8 = 54;
/// `/=`
pub const SLASH_EQUAL: u8 = 55;
/// `%=`
pub const PERCENT_EQUAL: u8 = 56;
/// `::`
pub const PATH_SEP: u8 = 57;
/// `..`
pub const DOT_DOT: u8 = 58;
/// `(`
pub const OPEN_PAREN: u8 = 59;
/// `)`
pub const CLOSE_PAREN: u8 = 60;
/// `[`
pub const OPEN_BRACKET: u8 = 61;
/// `]`
pub const CLOSE_BRACKET: u8 = 62;
/// `{`
pub const OPEN_BRACE: u8 = 63;
/// `}`
pub const CLOSE_BRACE: u8 = 64;
/// `<`
pub const LESS: u8 = 65;
/// `>`
pub const GREATER: u8 = 66;
/// `=`
pub const EQUAL: u8 = 67;
/// `+`
pub const PLUS: u8 = 68;
/// `-`
pub const MINUS: u8 = 69;
/// `*`
pub const STAR: u8 = 70;
/// `/`
pub const SLASH: u8 = 71;
/// `%`
pub const PERCENT: u8 = 72;
/// `!`
pub const NOT: u8 = 73;
/// `&`
pub const AMPERSAND: u8 = 74;
/// `|`
pub const BAR: u8 = 75;
/// `^`
pub const CARET: u8 = 76;
/// `@`
pub const AT: u8 = 77;
/// `#`
pub const HASH: u8 = 78;
/// `,`
pub const COMMA: u8 = 79;
/// `;`
pub const SEMICOLON: u8 = 80;
/// `:`
pub const COLON: u8 = 81;
/// `.`
pub const DOT: u8 = 82;
/// `?`
pub const QUESTION: u8 = 83;
/// `creusot_contracts`
pub const WORD_CREUSOT_CONTRACTS: u8 = 84;
/// `std`
pub const WORD_STD: u8 = 85;
/// `requires`
pub const WORD_REQUIRES: u8 = 86;
/// `ensures`
pub const WORD_ENSURES: u8 = 87;
/// `invariant`
pub const WORD_INVARIANT: u8 = 88;
/// `variant`
pub const WORD_VARIANT: u8 = 89;
/// `logic`
pub const WORD_LOGIC: u8 = 90;
/// `law`
pub const WORD_LAW: u8 = 91;
/// `derive`
pub const WORD_DERIVE: u8 = 92;
/// `allow`
pub const WORD_ALLOW: u8 = 93;
/// `inline`
pub const WORD_INLINE: u8 = 94;
/// `must_use`
pub const WORD_MUST_USE: u8 = 95;
/// `doc`
pub const WORD_DOC: u8 = 96;
/// `pearlite`
pub const WORD_PEARLITE: u8 = 97;
/// `Fn`
pub const WORD_FN: u8 = 98;
/// `FnMut`
pub const WORD_FN_MUT: u8 = 99;
/// `FnOnce`
pub const WORD_FN_ONCE: u8 = 100;
/// `ViewTy`
pub const WORD_VIEW_TY: u8 = 101;
/// `panic`
pub const WORD_PANIC: u8 = 102;
/// `unreachable`
pub const WORD_UNREACHABLE: u8 = 103;
/// `proof_assert`
pub const WORD_PROOF_ASSERT: u8 = 104;
/// `snapshot`
pub const WORD_SNAPSHOT: u8 = 105;
/// `result`
pub const WORD_RESULT: u8 = 106;
/// `forall`
pub const WORD_FORALL: u8 = 107;
/// `exists`
pub const WORD_EXISTS: u8 = 108;
/// `MutRef`
pub const WORD_MUT_REF: u8 = 109;
/// `precondition`
pub const WORD_PRECONDITION: u8 = 110;
/// `postcondition`
pub const WORD_POSTCONDITION: u8 = 111;
/// `postcondition_mut`
pub const WORD_POSTCONDITION_MUT: u8 = 112;
/// `postcondition_once`
pub const WORD_POSTCONDITION_ONCE: u8 = 113;
/// `f32`
pub const WORD_F32: u8 = 114;
/// `f64`
pub const WORD_F64: u8 = 115;
/// `char`
pub const WORD_CHAR: u8 = 116;
/// `str`
pub const WORD_STR: u8 = 117;
/// `i128`
pub const WORD_I128: u8 = 118;
/// `u128`
pub const WORD_U128: u8 = 119;
/// `union`
pub const WORD_UNION: u8 = 120;
/// `box`
pub const WORD_BOX: u8 = 121;
/// `yield`
pub const WORD_YIELD: u8 = 122;
/// static lifetime
pub const STATIC_LIFETIME: u8 = 123;
