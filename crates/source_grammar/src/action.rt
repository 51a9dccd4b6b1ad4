//! What is made of the parts of each line. Made by `python3 tools/grammar.py` of tools/source.ebnf.
ghost use Rattle.std.specs.Prelude.{◌≡◌};
ghost use Rattle.source_grammar.specs.Actions.{action_of, is_for_several};

/// The actions of types, patterns, paths and terms, each with its lines.
#[derive(Clone, Copy)]
pub enum ShapeAction {
    /// `NamedType = TypeName [ TypeArguments ]`
    /// `CastName = TypeName`
    NamedType,
    /// `ReferenceType = level( "&" [ lifetime ] [ "mut" ] AnyType )`
    /// `CastReference = level( "&" [ lifetime ] [ "mut" ] CastType )`
    ReferenceType,
    /// `TupleType = "(" list(AnyType) ")"`
    TupleType,
    /// `SelfType = "Self" [ "::" "ViewTy" ]`
    SelfType,
    /// `Wildcard = "_"`
    Wildcard,
    /// `MutPattern = "mut" Name`
    MutPattern,
    /// `IntegerPattern = [ "-" ] integer`
    IntegerPattern,
    /// `TruthPattern = Truth`
    TruthPattern,
    /// `TuplePattern = "(" list(Pattern) ")"`
    TuplePattern,
    /// `PathPattern = PatternPath [ PatternParts | PatternFields ]`
    PathPattern,
    /// `FieldPattern = Name [ ":" Pattern ]`
    FieldPattern,
    /// `PatternName = Name PathRest`
    /// `ExprPathName = ExprName AfterName PathRest`
    /// `TermPathName = TermName PathRest`
    /// `LogicPathName = LogicTermName PathRest`
    NamedPath,
    /// `Qualified = "<" AnyType "as" BoundName ">" "::" Name`
    QualifiedPath,
    /// `Term = TermOr [ level( "==>" Term ) ]`
    /// `HeadTerm = HeadTermOr [ level( "==>" HeadTerm ) ]`
    /// `LogicTerm = LogicTermOr [ level( "==>" Term ) ]`
    /// `TermOr = TermAnd chain( "||" TermAnd )`
    /// `HeadTermOr = HeadTermAnd chain( "||" HeadTermAnd )`
    /// `LogicTermOr = LogicTermAnd chain( "||" TermAnd )`
    /// `TermAnd = TermCmp chain( "&&" TermCmp )`
    /// `HeadTermAnd = HeadTermCmp chain( "&&" HeadTermCmp )`
    /// `LogicTermAnd = LogicTermCmp chain( "&&" TermCmp )`
    /// `TermCmp = TermSum [ ComparisonOperator TermSum ]`
    /// `HeadTermCmp = HeadTermSum [ ComparisonOperator HeadTermSum ]`
    /// `LogicTermCmp = LogicTermSum [ ComparisonOperator TermSum ]`
    /// `TermSum = TermProd chain( SumOperator TermProd )`
    /// `HeadTermSum = HeadTermProd chain( SumOperator HeadTermProd )`
    /// `LogicTermSum = LogicTermProd chain( SumOperator TermProd )`
    /// `TermProd = TermUnary chain( ProductOperator TermUnary )`
    /// `HeadTermProd = HeadTermUnary chain( ProductOperator HeadTermUnary )`
    /// `LogicTermProd = LogicTermUnary chain( ProductOperator TermUnary )`
    /// `TermPostfix = TermPrim chain( View | TermMember )`
    /// `HeadTermPostfix = HeadTermPrim chain( View | TermMember )`
    /// `LogicTermPostfix = LogicTermPrim chain( View | TermMember )`
    TermOperation,
    /// `PrefixTerm = level( TermPrefix TermUnary )`
    /// `HeadPrefixTerm = level( TermPrefix HeadTermUnary )`
    PrefixTerm,
    /// `View = "@"`
    View,
    /// `TermMember = "." ( Name [ TermArguments ] | integer )`
    TermMember,
    /// `Quantified = Quantifier "<" list(Binder) level( ">" Term )`
    /// `HeadQuantified = Quantifier "<" list(Binder) level( ">" HeadTerm )`
    Quantified,
    /// `Binder = Name ":" AnyType`
    Binder,
    /// `PathTerm = TermPath TermParts`
    /// `HeadPathTerm = TermPath [ TermArguments ]`
    /// `LogicPathTerm = LogicTermPath TermParts`
    PathTerm,
    /// `FieldTerm = Name ":" Term`
    FieldTerm,
    /// `IntegerTerm = integer`
    IntegerTerm,
    /// `TruthTerm = Truth`
    TruthTerm,
    /// `AnswerTerm = "result"`
    AnswerTerm,
    /// `SelfTerm = "self"`
    SelfTerm,
    /// `ParenTerm = "(" list(Term) ")"`
    ParenTerm,
    /// `IfTerm = level( "if" HeadTerm ) "{" Term "}" level( "else" "{" Term "}" )`
    IfTerm,
    /// `MatchTerm = level( "match" HeadTerm ) "{" list(TermArm) "}"`
    MatchTerm,
    /// `TermArm = Pattern "=>" Term`
    TermArm,
    /// `MutRefTerm = "MutRef" "(" Term "," Term ")"`
    MutRefTerm,
    /// `PredicateTerm = ClosurePredicate TermArguments`
    PredicateTerm,
}

/// The actions of items, statements and expressions, each with its lines.
#[derive(Clone, Copy)]
pub enum CodeAction {
    /// `Any = { AnyToken | "(" Any ")" | "[" Any "]" | "{" Any "}" }`
    Passed,
    /// `Item = AttributedItem`
    /// `FirstItem = "[" ItemAttribute`
    /// `PlainItem = UnmarkedItem`
    Item,
    /// `ClauseInput = ClauseWord "(" WholeTerm ")"`
    Clause,
    /// `DeriveInput = "derive" "(" list(Name) ")"`
    Derive,
    /// `ContractsUse = "use" ContractsRoot { UseToken | "(" Any ")" | "[" Any "]" | "{" Any "}" } ";"`
    Use,
    /// `ExternCrate = "extern" "crate" "creusot_contracts" ";"`
    ExternCrate,
    /// `Function = "fn" Name [ Generics ] Params [ "->" AnyType ] [ Where ]`
    Function,
    /// `Generics = "<" list(GenericParam) ">"`
    Generics,
    /// `LifetimeParam = lifetime [ ":" lifetime ]`
    LifetimeParam,
    /// `TypeParam = Name [ ":" Bounds ]`
    TypeParam,
    /// `Where = "where" WhereBounds`
    Where,
    /// `TypeCondition = Name ":" Bounds`
    TypeCondition,
    /// `LifetimeCondition = lifetime ":" lifetime`
    LifetimeCondition,
    /// `TraitBound = BoundName`
    TraitBound,
    /// `CallBound = ClosureTrait TypesInParens [ "->" AnyType ]`
    CallBound,
    /// `NamedParam = Name ":" AnyType`
    /// `ClosureParam = Name ":" AnyType`
    NamedParam,
    /// `MutNamedParam = Name ":" AnyType`
    MutNamedParam,
    /// `MutReceiver = "self"`
    MutReceiver,
    /// `ReceiverParam = "self"`
    ReceiverParam,
    /// `BorrowedParam = "&" [ lifetime ] [ "mut" ] "self"`
    BorrowedParam,
    /// `Struct = "struct" Name [ Generics ] ( NamedFields | TupleFields ";" | ";" )`
    Struct,
    /// `Field = [ "pub" ] Name ":" AnyType`
    /// `TypedField = Name ":" AnyType`
    Field,
    /// `TupleField = [ "pub" ] AnyType`
    TupleField,
    /// `Enum = "enum" Name [ Generics ] "{" list(Variant) "}"`
    Enum,
    /// `Variant = Name [ TypesInParens | TypedFields ]`
    Variant,
    /// `Trait = "trait" Name "{" { TraitItem } "}"`
    Trait,
    /// `TraitItem = TraitMethod`
    /// `ImplMethod = AttributedMethod`
    Method,
    /// `Impl = "impl" [ Generics ] ( ImplHead | UnnamedType | ReferenceType ) [ Where ] ImplBody`
    Impl,
    /// `ImplHead = TypeName [ "for" AnyType | TypeArguments ]`
    ImplHead,
    /// `ViewType = "type" "ViewTy" level( "=" AnyType ) ";"`
    ViewType,
    /// `Block = "{" Statements "}"`
    Block,
    /// `BlocklikeStatement = Blocklike [ ";" ]`
    /// `LoopStatement = Loop [ ";" ]`
    Blocklike,
    /// `Let = "let" Pattern [ ":" AnyType ] LetValue LetEnd`
    Let,
    /// `If = level( "if" Condition ) Block [ level( "else" ( Block | If ) ) ]`
    If,
    /// `Match = level( "match" HeadExpr ) "{" Arms "}"`
    Match,
    /// `While = level( "while" Condition ) Block`
    While,
    /// `Forever = "loop" Block`
    Forever,
    /// `LetCondition = "let" Pattern level( "=" HeadExpr )`
    LetCondition,
    /// `Expr = Or chain( AssignOperator Or ) [ level( "=" Expr ) ]`
    /// `HeadExpr = HeadOr chain( AssignOperator HeadOr ) [ level( "=" HeadExpr ) ]`
    /// `StatementExpr = StatementOr chain( AssignOperator Or ) [ level( "=" Expr ) ]`
    /// `ClosureExpr = ClosureOperation chain( AssignOperator Or ) [ level( "=" Expr ) ]`
    Assignment,
    /// `Or = And chain( "||" And )`
    /// `HeadOr = HeadAnd chain( "||" HeadAnd )`
    /// `StatementOr = StatementAnd chain( "||" And )`
    /// `And = Cmp chain( "&&" Cmp )`
    /// `HeadAnd = HeadCmp chain( "&&" HeadCmp )`
    /// `StatementAnd = StatementCmp chain( "&&" Cmp )`
    /// `Cmp = Sum [ ComparisonOperator Sum ]`
    /// `HeadCmp = HeadSum [ ComparisonOperator HeadSum ]`
    /// `StatementCmp = StatementSum [ ComparisonOperator Sum ]`
    /// `Sum = Prod chain( SumOperator Prod )`
    /// `HeadSum = HeadProd chain( SumOperator HeadProd )`
    /// `StatementSum = StatementProd chain( SumOperator Prod )`
    /// `Prod = Cast chain( ProductOperator Cast )`
    /// `HeadProd = HeadCast chain( ProductOperator HeadCast )`
    /// `StatementProd = StatementCast chain( ProductOperator Cast )`
    /// `Cast = Unary chain( "as" CastType )`
    /// `HeadCast = HeadUnary chain( "as" CastType )`
    /// `StatementCast = StatementUnary chain( "as" CastType )`
    /// `Postfix = Prim chain( PostfixOperation )`
    /// `HeadPostfix = HeadPrim chain( PostfixOperation )`
    /// `StatementPostfix = StatementPrim chain( PostfixOperation )`
    /// `ClosureOperation = Closure chain( PostfixOperation ) chain( "as" CastType ) chain( ProductOperator Cast ) chain( SumOperator Prod ) [ ComparisonOperator Sum ] chain( "&&" Cmp ) chain( "||" And )`
    Operation,
    /// `Prefix = level( ( "-" | "!" | "*" | "&" [ "mut" ] ) Unary )`
    /// `HeadPrefix = level( ( "-" | "!" | "*" | "&" [ "mut" ] ) HeadUnary )`
    Prefix,
    /// `Member = "." ( Name [ "::" TypeList ] [ Arguments ] | integer )`
    Member,
    /// `Arguments = "(" list(Expr) ")"`
    Arguments,
    /// `AttributedPrim = "#" AnyAttribute LoopOrClosure`
    /// `AttributedHeadPrim = "#" AnyAttribute LoopOrHeadClosure`
    Attributed,
    /// `Return = "return" [ level( Expr ) ]`
    /// `HeadReturn = "return" HeadReturnValue`
    Return,
    /// `IntegerExpr = integer`
    IntegerExpr,
    /// `TruthExpr = Truth`
    TruthExpr,
    /// `SelfExpr = "self"`
    SelfExpr,
    /// `ParenExpr = "(" list(Expr) ")"`
    ParenExpr,
    /// `Break = "break"`
    Break,
    /// `Continue = "continue"`
    Continue,
    /// `PanicCall = PanicWord "!" "(" [ string ] ")"`
    PanicCall,
    /// `GhostCall = AssertWord "!" "(" WholeTerm ")"`
    GhostCall,
    /// `PathExpr = ExprPath [ StructLiteral ]`
    /// `HeadPathExpr = ExprPath`
    PathExpr,
    /// `FieldExpr = Name [ ":" Expr ]`
    FieldExpr,
    /// `Closure = [ "move" ] ( level( "||" ClosureBody ) | "|" list(ClosureParam) level( "|" ClosureBody ) )`
    /// `HeadClosure = [ "move" ] ( level( "||" HeadClosureBody ) | "|" list(ClosureParam) level( "|" HeadClosureBody ) )`
    Closure,
}

/// What is made of the parts of a line.
#[derive(Clone, Copy)]
pub enum Action {
    /// Nothing: they stand among the parts of the line around.
    Keep,
    Shape(ShapeAction),
    Code(CodeAction),
}

/// The action of each line.
#[rattlefmt::skip]
const ACTIONS: [Action; 244] = [
    Action::Keep, Action::Keep, Action::Keep, Action::Code(CodeAction::Passed), Action::Code(CodeAction::Item), Action::Code(CodeAction::Item), Action::Code(CodeAction::Item), Action::Keep, Action::Keep, Action::Keep, Action::Keep, Action::Keep, Action::Keep, Action::Keep,
    Action::Keep, Action::Keep, Action::Keep, Action::Keep, Action::Keep, Action::Code(CodeAction::Clause), Action::Code(CodeAction::Derive), Action::Keep, Action::Code(CodeAction::Use), Action::Code(CodeAction::ExternCrate), Action::Code(CodeAction::Function), Action::Keep,
    Action::Keep, Action::Code(CodeAction::Generics), Action::Keep, Action::Code(CodeAction::LifetimeParam), Action::Code(CodeAction::TypeParam), Action::Code(CodeAction::Where), Action::Keep, Action::Keep, Action::Code(CodeAction::TypeCondition),
    Action::Code(CodeAction::LifetimeCondition), Action::Keep, Action::Keep, Action::Code(CodeAction::TraitBound), Action::Code(CodeAction::CallBound), Action::Keep, Action::Keep, Action::Code(CodeAction::NamedParam), Action::Keep, Action::Code(CodeAction::MutNamedParam),
    Action::Code(CodeAction::MutReceiver), Action::Code(CodeAction::ReceiverParam), Action::Code(CodeAction::BorrowedParam), Action::Code(CodeAction::Struct), Action::Keep, Action::Keep, Action::Code(CodeAction::Field), Action::Code(CodeAction::TupleField),
    Action::Code(CodeAction::Enum), Action::Code(CodeAction::Variant), Action::Keep, Action::Code(CodeAction::Field), Action::Code(CodeAction::Trait), Action::Code(CodeAction::Method), Action::Keep, Action::Code(CodeAction::Impl), Action::Code(CodeAction::ImplHead), Action::Keep,
    Action::Keep, Action::Keep, Action::Code(CodeAction::ViewType), Action::Code(CodeAction::Method), Action::Keep, Action::Keep, Action::Keep, Action::Keep, Action::Keep, Action::Keep, Action::Shape(ShapeAction::NamedType), Action::Keep, Action::Keep, Action::Keep,
    Action::Shape(ShapeAction::ReferenceType), Action::Keep, Action::Shape(ShapeAction::NamedType), Action::Shape(ShapeAction::ReferenceType), Action::Keep, Action::Shape(ShapeAction::TupleType), Action::Shape(ShapeAction::SelfType), Action::Keep, Action::Keep,
    Action::Shape(ShapeAction::Wildcard), Action::Shape(ShapeAction::MutPattern), Action::Shape(ShapeAction::IntegerPattern), Action::Shape(ShapeAction::TruthPattern), Action::Shape(ShapeAction::TuplePattern), Action::Shape(ShapeAction::PathPattern), Action::Keep, Action::Keep,
    Action::Keep, Action::Shape(ShapeAction::FieldPattern), Action::Keep, Action::Shape(ShapeAction::NamedPath), Action::Keep, Action::Keep, Action::Shape(ShapeAction::QualifiedPath), Action::Code(CodeAction::Block), Action::Keep, Action::Keep, Action::Keep,
    Action::Code(CodeAction::Blocklike), Action::Code(CodeAction::Blocklike), Action::Code(CodeAction::Let), Action::Keep, Action::Keep, Action::Keep, Action::Code(CodeAction::If), Action::Code(CodeAction::Match), Action::Keep, Action::Keep, Action::Keep,
    Action::Code(CodeAction::While), Action::Code(CodeAction::Forever), Action::Keep, Action::Code(CodeAction::LetCondition), Action::Code(CodeAction::Assignment), Action::Code(CodeAction::Assignment), Action::Code(CodeAction::Assignment), Action::Code(CodeAction::Operation),
    Action::Code(CodeAction::Operation), Action::Code(CodeAction::Operation), Action::Code(CodeAction::Operation), Action::Code(CodeAction::Operation), Action::Code(CodeAction::Operation), Action::Code(CodeAction::Operation), Action::Code(CodeAction::Operation),
    Action::Code(CodeAction::Operation), Action::Code(CodeAction::Operation), Action::Code(CodeAction::Operation), Action::Code(CodeAction::Operation), Action::Code(CodeAction::Operation), Action::Code(CodeAction::Operation), Action::Code(CodeAction::Operation),
    Action::Code(CodeAction::Operation), Action::Code(CodeAction::Operation), Action::Code(CodeAction::Operation), Action::Keep, Action::Keep, Action::Keep, Action::Code(CodeAction::Prefix), Action::Code(CodeAction::Prefix), Action::Code(CodeAction::Operation),
    Action::Code(CodeAction::Operation), Action::Code(CodeAction::Operation), Action::Keep, Action::Code(CodeAction::Member), Action::Code(CodeAction::Arguments), Action::Code(CodeAction::Assignment), Action::Code(CodeAction::Operation), Action::Keep, Action::Keep, Action::Keep,
    Action::Code(CodeAction::Attributed), Action::Keep, Action::Code(CodeAction::Attributed), Action::Keep, Action::Code(CodeAction::Return), Action::Code(CodeAction::Return), Action::Keep, Action::Keep, Action::Code(CodeAction::IntegerExpr), Action::Code(CodeAction::TruthExpr),
    Action::Code(CodeAction::SelfExpr), Action::Code(CodeAction::ParenExpr), Action::Code(CodeAction::Break), Action::Code(CodeAction::Continue), Action::Code(CodeAction::PanicCall), Action::Code(CodeAction::GhostCall), Action::Code(CodeAction::PathExpr),
    Action::Code(CodeAction::PathExpr), Action::Keep, Action::Shape(ShapeAction::NamedPath), Action::Keep, Action::Code(CodeAction::FieldExpr), Action::Code(CodeAction::Closure), Action::Code(CodeAction::Closure), Action::Code(CodeAction::NamedParam), Action::Keep, Action::Keep,
    Action::Keep, Action::Shape(ShapeAction::TermOperation), Action::Shape(ShapeAction::TermOperation), Action::Shape(ShapeAction::TermOperation), Action::Shape(ShapeAction::TermOperation), Action::Shape(ShapeAction::TermOperation), Action::Shape(ShapeAction::TermOperation),
    Action::Shape(ShapeAction::TermOperation), Action::Shape(ShapeAction::TermOperation), Action::Shape(ShapeAction::TermOperation), Action::Shape(ShapeAction::TermOperation), Action::Shape(ShapeAction::TermOperation), Action::Shape(ShapeAction::TermOperation),
    Action::Shape(ShapeAction::TermOperation), Action::Shape(ShapeAction::TermOperation), Action::Shape(ShapeAction::TermOperation), Action::Shape(ShapeAction::TermOperation), Action::Shape(ShapeAction::TermOperation), Action::Shape(ShapeAction::TermOperation), Action::Keep,
    Action::Keep, Action::Keep, Action::Shape(ShapeAction::PrefixTerm), Action::Shape(ShapeAction::PrefixTerm), Action::Shape(ShapeAction::TermOperation), Action::Shape(ShapeAction::TermOperation), Action::Shape(ShapeAction::TermOperation), Action::Shape(ShapeAction::View),
    Action::Shape(ShapeAction::TermMember), Action::Keep, Action::Keep, Action::Keep, Action::Keep, Action::Shape(ShapeAction::Quantified), Action::Shape(ShapeAction::Quantified), Action::Shape(ShapeAction::Binder), Action::Shape(ShapeAction::PathTerm),
    Action::Shape(ShapeAction::PathTerm), Action::Shape(ShapeAction::PathTerm), Action::Keep, Action::Keep, Action::Shape(ShapeAction::NamedPath), Action::Keep, Action::Shape(ShapeAction::NamedPath), Action::Keep, Action::Shape(ShapeAction::FieldTerm), Action::Keep,
    Action::Shape(ShapeAction::IntegerTerm), Action::Shape(ShapeAction::TruthTerm), Action::Shape(ShapeAction::AnswerTerm), Action::Shape(ShapeAction::SelfTerm), Action::Shape(ShapeAction::ParenTerm), Action::Shape(ShapeAction::IfTerm), Action::Shape(ShapeAction::MatchTerm),
    Action::Shape(ShapeAction::TermArm), Action::Shape(ShapeAction::MutRefTerm), Action::Shape(ShapeAction::PredicateTerm), Action::Keep, Action::Keep, Action::Keep,
];

/// Whether the line is kept where it has one part.
#[rattlefmt::skip]
const SEVERAL: [bool; 244] = [
    false, false, false, false, false, false, false, false, false, false, false, false, false, false, false, false, false, false, false, false, false, false, false, false, false, false, false, false, false, false, false, false, false, false, false, false, false, false, false,
    false, false, false, false, false, false, false, false, false, false, false, false, false, false, false, false, false, false, false, false, false, false, false, false, false, false, false, false, false, false, false, false, false, false, false, false, false, false, false,
    false, false, false, false, false, false, false, false, false, false, false, false, false, false, false, false, false, false, false, false, false, false, false, false, false, false, false, false, false, false, false, false, false, false, false, false, false, false, false,
    false, false, false, true, true, true, true, true, true, true, true, true, true, true, true, true, true, true, true, true, true, true, true, true, false, false, false, false, false, true, true, true, false, false, false, true, true, false, false, false, false, false, false,
    false, false, false, false, false, false, false, false, false, false, false, false, false, false, false, false, false, false, false, false, false, false, false, false, false, true, true, true, true, true, true, true, true, true, true, true, true, true, true, true, true, true,
    true, false, false, false, false, false, true, true, true, false, false, false, false, false, false, false, false, false, false, false, false, false, false, false, false, false, false, false, false, false, false, false, false, false, false, false, false, false, false, false,
    false, false,
];

/// The action of the nonterminal; those that are no lines are kept.
#[tactic(auto, unfolding(crate::specs::Actions::actions))]
pub fn action_of(nonterminal: u16) -> Action
    ensures { result ≡ action_of nonterminal }
{
    let nonterminal = nonterminal as usize;
    let actions: &[Action] = &ACTIONS;
    if nonterminal < actions.len() {
        actions[nonterminal]
    } else {
        Action::Keep
    }
}

/// Whether the nonterminal is kept where it has one part.
#[tactic(auto, unfolding(crate::specs::Actions::several))]
pub fn is_for_several(nonterminal: u16) -> bool
    ensures { result ≡ is_for_several nonterminal }
{
    let nonterminal = nonterminal as usize;
    let several: &[bool] = &SEVERAL;
    if nonterminal < several.len() {
        several[nonterminal]
    } else {
        false
    }
}
