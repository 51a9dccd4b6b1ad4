//! The forms of sources, one word for each.

/// A form of a source: a stage may build it apart from all others.
#[derive(Clone, Copy)]
pub enum Form {
    // ---- items
    Function,
    Struct,
    Enum,
    Trait,
    /// `impl S`
    Impl,
    /// `impl A for S`
    TraitImpl,
    TraitFunction,
    ImplFunction,
    /// `type ViewTy = T;`
    ViewType,

    // ---- what declarations have beside
    /// What stands between `<` and `>` behind the name of a function.
    TypeParameters,
    /// What stands behind `where` in a function.
    Conditions,
    /// A lifetime among the parameters of a declaration.
    LifetimeParameter,
    /// A type among the parameters of a declaration.
    TypeParameter,
    /// `'a: 'b` behind `where`
    LifetimeCondition,
    /// `T: A` behind `where`
    TypeCondition,
    /// `A` as a bound
    TraitBound,
    /// `Fn(S) -> T` as a bound
    CallBound,
    /// `x: T`
    NamedParameter,
    /// `self` as a parameter
    SelfParameter,
    /// `&self`
    SharedSelfParameter,
    /// `&mut self`
    MutableSelfParameter,

    // ---- bodies of functions
    BlockBody,
    TermBody,
    /// `;`
    NoBody,

    // ---- attributes before a function
    Requires,
    Ensures,
    FunctionInvariant,
    FunctionVariant,
    FunctionLogic,
    FunctionLaw,
    FunctionDerive,

    // ---- attributes before a loop
    LoopRequires,
    LoopEnsures,
    Invariant,
    Variant,
    LoopLogic,
    LoopLaw,
    LoopDerive,

    // ---- attributes before a closure
    ClosureRequires,
    ClosureEnsures,
    ClosureInvariant,
    ClosureVariant,
    ClosureLogic,
    ClosureLaw,
    ClosureDerive,

    // ---- attributes before an item that is no function
    ItemRequires,
    ItemEnsures,
    ItemInvariant,
    ItemVariant,
    ItemLogic,
    ItemLaw,
    Derive,

    // ---- types
    /// The name of a type of machine integers, or `bool`.
    MachineType,
    /// `Int`
    MathIntType,
    /// Any other name, or one with arguments.
    NamedType,
    TupleType,
    /// `&T`
    SharedReferenceType,
    /// `&mut T`
    MutableReferenceType,
    /// `Self`
    SelfType,
    /// `Self::ViewTy`
    SelfViewType,
    /// The type of a field of a struct or an enum, whatever its form is.
    FieldType,

    // ---- patterns of `let`, and patterns in them
    LetAny,
    LetMutable,
    LetInteger,
    LetTruth,
    LetTuple,
    LetName,
    LetPath,
    LetParts,
    LetFields,

    // ---- patterns elsewhere
    /// `_`
    Any,
    /// `mut x`
    MutablePattern,
    IntegerPattern,
    TruthPattern,
    TuplePattern,
    /// A name alone.
    NamePattern,
    PathPattern,
    /// A constructor with its parts in parentheses.
    PartsPattern,
    /// A constructor with its fields in braces.
    FieldsPattern,

    // ---- terms
    IntegerTerm,
    TruthTerm,
    /// `result`
    Answer,
    SelfTerm,
    /// A name alone.
    NameTerm,
    PathTerm,
    NegativeTerm,
    NotTerm,
    /// `*t`
    CurrentTerm,
    /// `^t`
    FinalTerm,
    /// `t@`
    ViewTerm,
    BinaryTerm,
    /// `MutRef(t, u)`
    MutRefTerm,
    FieldTerm,
    /// `t.0`
    PartTerm,
    MethodTerm,
    CallTerm,
    /// A struct literal.
    LiteralTerm,
    TupleTerm,
    IfTerm,
    MatchTerm,
    Forall,
    Exists,
    /// A predicate of closures.
    PredicateTerm,

    // ---- expressions
    Integer,
    Truth,
    SelfValue,
    /// A name alone.
    Name,
    Path,
    /// A struct literal.
    Literal,
    Tuple,
    Block,
    If,
    IfLet,
    Match,
    While,
    WhileLet,
    Loop,
    Closure,
    Return,
    Break,
    Continue,
    Panic,
    Unreachable,
    ProofAssert,
    Snapshot,
    Assign,
    Update,
    Lazy,
    Binary,
    Cast,
    Negative,
    Not,
    Deref,
    SharedBorrow,
    MutableBorrow,
    Field,
    /// `e.0`
    Part,
    Method,
    /// A call of a name alone.
    Call,
    /// A call of any other expression.
    OtherCall,
}

/// The forms of attributes where they stand.
#[derive(Clone, Copy)]
pub(crate) struct Promises {
    pub(crate) precondition: Form,
    pub(crate) postcondition: Form,
    pub(crate) invariant: Form,
    pub(crate) variant: Form,
    pub(crate) logic: Form,
    pub(crate) law: Form,
    pub(crate) derive: Form,
}

pub(crate) const BEFORE_FUNCTION: Promises = Promises {
    precondition: Form::Requires,
    postcondition: Form::Ensures,
    invariant: Form::FunctionInvariant,
    variant: Form::FunctionVariant,
    logic: Form::FunctionLogic,
    law: Form::FunctionLaw,
    derive: Form::FunctionDerive,
};

pub(crate) const BEFORE_LOOP: Promises = Promises {
    precondition: Form::LoopRequires,
    postcondition: Form::LoopEnsures,
    invariant: Form::Invariant,
    variant: Form::Variant,
    logic: Form::LoopLogic,
    law: Form::LoopLaw,
    derive: Form::LoopDerive,
};

pub(crate) const BEFORE_CLOSURE: Promises = Promises {
    precondition: Form::ClosureRequires,
    postcondition: Form::ClosureEnsures,
    invariant: Form::ClosureInvariant,
    variant: Form::ClosureVariant,
    logic: Form::ClosureLogic,
    law: Form::ClosureLaw,
    derive: Form::ClosureDerive,
};

pub(crate) const BEFORE_ITEM: Promises = Promises {
    precondition: Form::ItemRequires,
    postcondition: Form::ItemEnsures,
    invariant: Form::ItemInvariant,
    variant: Form::ItemVariant,
    logic: Form::ItemLogic,
    law: Form::ItemLaw,
    derive: Form::Derive,
};

/// The forms of patterns where they stand.
#[derive(Clone, Copy)]
pub(crate) struct Patterns {
    pub(crate) any: Form,
    pub(crate) mutable: Form,
    pub(crate) integer: Form,
    pub(crate) truth: Form,
    pub(crate) tuple: Form,
    pub(crate) name: Form,
    pub(crate) path: Form,
    pub(crate) parts: Form,
    pub(crate) fields: Form,
}

pub(crate) const IN_LET: Patterns = Patterns {
    any: Form::LetAny,
    mutable: Form::LetMutable,
    integer: Form::LetInteger,
    truth: Form::LetTruth,
    tuple: Form::LetTuple,
    name: Form::LetName,
    path: Form::LetPath,
    parts: Form::LetParts,
    fields: Form::LetFields,
};

pub(crate) const ELSEWHERE: Patterns = Patterns {
    any: Form::Any,
    mutable: Form::MutablePattern,
    integer: Form::IntegerPattern,
    truth: Form::TruthPattern,
    tuple: Form::TuplePattern,
    name: Form::NamePattern,
    path: Form::PathPattern,
    parts: Form::PartsPattern,
    fields: Form::FieldsPattern,
};
