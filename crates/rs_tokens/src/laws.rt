//! What holds of the tokens of every text.
ghost use Rattle.std.specs.Prelude.{◌≡◌, ◌↔◌, true, ◌++◌, ℕ, List, [], Option, None, Some};
ghost use Rattle.text_core.specs.declared.span.Span.{Span};
ghost use Rattle.rs_tokens.specs.declared.token.Token.{Token};
ghost use Rattle.rs_tokens.specs.declared.token.TokenKind.{TokenKind};
ghost use Rattle.rs_tokens.specs.declared.token.TokenKind.TheVariants.{Ident};
ghost use Rattle.rs_tokens.specs.Tokens.{IsToken, refused_of, is_identifier};
ghost use Rattle.rs_tokens.specs.Reading.{Gives, Refuses, HasEnded, HasTokens, HasGiven, AreTokens};
ghost use Rattle.std.specs.Str.{IsUtf8};

/// A text is a token of at most one kind.
pub fn a_token_has_one_kind()
    ensures { (kind other : TokenKind) (text : List ℕ) → IsToken kind text → IsToken other text → kind ≡ other }
{}

/// The identifiers are the texts that are tokens of that kind and within its bound.
pub fn an_identifier_is_an_admitted_token()
    ensures { (text : List ℕ) → (is_identifier text ≡ true) ↔ (IsToken Ident text × (refused_of Ident text ≡ None)) }
{}

/// From each offset on there is at most one next token, and it excludes the end and a refusal.
pub fn a_next_token_is_the_only_answer()
    ensures token { (bytes : List ℕ) (at : ℕ) (one other : Token) → Gives bytes at one → Gives bytes at other → one ≡ other }
    ensures end { (bytes : List ℕ) (at : ℕ) (token : Token) → Gives bytes at token → HasEnded bytes at → ⊥ }
    ensures refusal { (bytes : List ℕ) (at : ℕ) (token : Token) (span : Span) → Gives bytes at token → Refuses bytes at span → ⊥ }
{}

/// From each offset on there is at most one refusal, and it excludes the end.
pub fn a_refusal_is_the_only_answer()
    ensures span { (bytes : List ℕ) (at : ℕ) (one other : Span) → Refuses bytes at one → Refuses bytes at other → one ≡ other }
    ensures end { (bytes : List ℕ) (at : ℕ) (span : Span) → HasEnded bytes at → Refuses bytes at span → ⊥ }
{}

/// From each offset on there is one list of tokens, and one end of it. So a lexer that is run until it gives no more
/// has given all tokens of the text, and the spans of the definition.
pub fn a_text_has_one_list_of_tokens()
    ensures { (bytes : List ℕ) (at : ℕ) (one other : List Token) (end last : Option Span) →
        HasTokens bytes at one end → HasTokens bytes at other last → (one ≡ other) × (end ≡ last) }
{}

/// What a lexer has given begins the tokens of the text, and what follows from where it stands goes on with them. A
/// lexer that has come to the end has given the tokens of the text; one that has come to a refusal, those before it.
pub fn a_lexer_gives_the_tokens_of_the_text()
    ensures begins { (bytes : List ℕ) (given later : List Token) (at : ℕ) (end : Option Span) →
        HasGiven bytes given at → HasTokens bytes at later end → HasTokens bytes 0 (given ++ later) end }
    ensures whole { (bytes : List ℕ) (given : List Token) (at : ℕ) →
        IsUtf8 bytes → HasGiven bytes given at → HasEnded bytes at → AreTokens bytes given }
    ensures refused { (bytes : List ℕ) (given : List Token) (at : ℕ) (span : Span) →
        HasGiven bytes given at → Refuses bytes at span → HasTokens bytes 0 given (Some span) }
{}
