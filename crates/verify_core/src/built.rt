//! The forms that are built, and the items of sources in which no other form stands.
ghost use Rattle.std.specs.Prelude.{◌≡◌, ◌+◌, ◌<◌, ◌≤◌, ◌^◌, List, length, IfOk, IfErr, OnOk};
ghost use Rattle.rs_syntax.specs.Parsed.{functions_among, most_functions};
ghost use Rattle.source_words.specs.Words.{Keeps, GivesNames, IsWordError};
ghost use Rattle.source_forms.specs.ItemForms.{first_unbuilt as first_unbuilt_of};
ghost use Rattle.source_trees.specs.declared.item.Item.{Item};
ghost use Rattle.verify_core.specs.Built.{is_built, SpellsBuilt, first_token, IsUnbuiltAt, IsSourceError, SpellsNoneBuilt};

use rs_tokens::Token;
use source_forms::{Form, first_unbuilt};
use source_trees::Item;
use source_words::tokens_of;
use std::alloc::Global;
use text_core::{Code, Items, Names, PassError, SourceError, Span};

/// The forms that are built. Whoever builds a form puts its word here.
pub(crate) const BUILT: [Form; 67] = [
    // ---- declared types
    Form::Struct,
    Form::Enum,
    Form::LifetimeParameter,
    Form::TypeParameter,
    Form::FieldType,
    Form::Derive,
    // ---- functions
    Form::Function,
    Form::NamedParameter,
    Form::BlockBody,
    Form::Requires,
    Form::Ensures,
    // ---- types and patterns
    Form::MachineType,
    Form::NamedType,
    Form::TupleType,
    // A type in terms alone: elsewhere `type_check` refuses it.
    Form::MathIntType,
    Form::LetMutable,
    Form::LetName,
    Form::Any,
    Form::MutablePattern,
    Form::IntegerPattern,
    Form::TruthPattern,
    // Where it names a constructor, `type_check` refuses the match, which is not flat.
    Form::NamePattern,
    // ---- terms
    Form::IntegerTerm,
    Form::TruthTerm,
    Form::Answer,
    Form::NameTerm,
    Form::NegativeTerm,
    Form::NotTerm,
    Form::ViewTerm,
    Form::FieldTerm,
    Form::PartTerm,
    Form::TupleTerm,
    Form::BinaryTerm,
    Form::IfTerm,
    Form::Forall,
    Form::Exists,
    // ---- loops
    Form::Invariant,
    Form::While,
    Form::WhileLet,
    Form::Loop,
    Form::Break,
    Form::Continue,
    // ---- what leaves
    Form::Return,
    Form::Panic,
    Form::Unreachable,
    // ---- expressions
    Form::Integer,
    Form::Truth,
    Form::Name,
    Form::Path,
    Form::Literal,
    Form::Tuple,
    Form::Field,
    Form::Part,
    Form::Block,
    Form::If,
    Form::IfLet,
    Form::Match,
    Form::Assign,
    Form::Update,
    Form::Lazy,
    Form::Binary,
    Form::Negative,
    Form::Not,
    // Its type is of any built form: `type_check` refuses what is no integer.
    Form::Cast,
    Form::Call,
    // A path is what makes a value: `type_check` refuses what else is called.
    Form::OtherCall,
    // The closure behind it is not built, and is what is refused.
    Form::ClosureInvariant,
];

/// Where the first form begins that is not built.
fn unbuilt_among(items: &[Item]) -> Option<u64>
    ensures { result ≡ first_unbuilt_of is_built items.now }
{
    first_unbuilt(items, &BUILT)
}

/// The first of the tokens that does not begin before the byte; else the end.
fn first_token(tokens: &[Token], end: u32, start: u64) -> Span
    ensures { result ≡ first_token tokens.now end start }
{
    for token in tokens {
        if start <= u64::from(token.span.start) {
            return token.span;
        }
    }
    Span { start: end, end }
}

/// The refusal of a form that begins at this byte.
fn refusal_at(alloc: Global, bytes: &[u8], start: u64) -> Result<SourceError, PassError>
    requires few { length bytes.now ≤ 2 ^ 20 }
    ensures ok { IfOk result (λ e. IsUnbuiltAt bytes.now start e) }
    ensures refused { IfErr result (λ e. IsWordError bytes.now e) }
{
    let tokens = tokens_of(alloc, bytes)?;
    let span = first_token(tokens.as_slice(), bytes.len() as u32, start);
    Ok(SourceError {
        code: Code::E20,
        span,
        other: None,
    })
}

/// The items of a source, where all forms in it are built (Rust Reference, "Items"). Identifiers that have no name yet are given one, in
/// order of first use.
///
/// Errors: `Source` by E01 to E04 and E20 where the source is none of the whole grammar, as `rs_syntax` refuses it, and by
/// E20 at the first token of the first form that is not built. `Limit` where there are more than 4,096 functions, those of traits
/// and impls among them. `NoMemory`.
pub(crate) fn built_items(
    alloc: Global,
    bytes: &[u8],
    names: &mut Names,
) -> Result<Items<Item>, PassError>
    requires few { length bytes.now ≤ 2 ^ 20 }
    requires room { length names.old + 2 ^ 20 < 2 ^ 32 }
    ensures ok { IfOk result (λ is. SpellsBuilt names.old bytes.now is) }
    ensures few { IfOk result (λ is. functions_among is ≤ most_functions) }
    ensures alone { IfOk result (λ is. (other : List Item) → SpellsBuilt names.old bytes.now other → other ≡ is) }
    ensures names { OnOk result (GivesNames names.old bytes.now names.new) }

    // A refusal, and that nothing is refused that is a source.
    ensures refused { IfErr result (λ e. IsSourceError names.old bytes.now e) }
    ensures rightly { IfErr result (λ e. SpellsNoneBuilt names.old bytes.now e) }

    ensures kept { Keeps names.old names.new }
{
    let items = rs_syntax::parse(alloc, bytes, names)?;
    match unbuilt_among(items.as_slice()) {
        None => Ok(items),
        Some(start) => Err(PassError::Source(refusal_at(alloc, bytes, start)?)),
    }
}
