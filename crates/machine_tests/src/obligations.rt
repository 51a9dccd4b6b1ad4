//! Obligations of one body of each shape, and how many there may be.
ghost use Rattle.std.specs.Prelude.{◌≡◌, ◌<◌, ◌∷◌, [], None, IfOk};
ghost use Rattle.mir_ir.specs.declared.terminator.TerminatorKind.TheVariants.{If};
ghost use Rattle.machine_tests.specs.Walked.{block_of, body_of, whole, straight, panicking, branching, switching, looping, calling, forking, IsForking, CanBeWalked};

use crate::goals::{
    ANSWERED, CAST, HELD, IN_RANGE, IS_NONE, IS_SOME, NEVER, PAIR, PART, PART_OF_PARAMETER, SMALL,
};
use goal_text::{Spelling, goal_text};
use logic_term::{
    AdtDecl, AdtId, CompoundTy, Contract, Ctor, FieldDecl, Label, Obligation, Term, Ty, TyNode,
    TyUnary, VariantDecl, VariantKind,
};
use mir_ir::{
    Block, Body, Callee, Contracts, FnId, Head, Initialised, Lit, Operand, Place, Proj, Resolves,
    Rvalue, Statement, StatementKind, Terminator, TerminatorKind,
};
use source_kinds::{ArithOp, BinaryOp, IntKind};
use std::alloc::Global;
use std::test::Fail;
use text_core::name::{NONE, OPTION, SOME};
use text_core::{
    Boxed, Cause, Items, Kind, LimitKind, Name, Names, NoMemory, PassError, Span, Text,
};
use wp_gen::{OBLIGATIONS, Walk, counted_obligations, obligations, room_after};

/// The parameter, and the answer, in contracts.
const X: Name = Name(50);

const ANSWER: Name = Name(51);

const PRE: Span = Span { start: 70, end: 71 };

const POST: Span = Span { start: 80, end: 81 };

const END: Span = Span { start: 90, end: 91 };

// ---- bodies

fn one<T: Drop>(alloc: Global, item: T) -> Result<Items<T>, NoMemory>
    ensures { IfOk result (λ items. items ≡ item ∷ []) }
{
    let mut items = Items::new(alloc);
    items.push(item)?;
    Ok(items)
}

fn block(
    head: Option<Head>,
    nest: Items<Label>,
    statements: Items<Statement>,
    kind: TerminatorKind,
) -> Block
    ensures { result ≡ block_of head nest statements kind }
{
    Block {
        head,
        nest,
        statements,
        end: Terminator { span: END, kind },
    }
}

/// A block outside all loops.
fn plain(alloc: Global, statements: Items<Statement>, kind: TerminatorKind) -> Block
    ensures { result ≡ block_of None [] statements kind }
{
    block(None, Items::new(alloc), statements, kind)
}

fn body(
    alloc: Global,
    locals: Items<Ty>,
    blocks: Items<(Label, Block)>,
) -> Result<Boxed<Body>, NoMemory>
    ensures { IfOk result (λ b. b ≡ body_of locals blocks) }
{
    let owner = Text::from_bytes(alloc, b"f")?;
    let names = Items::from_slice(alloc, &[Name(100), Name(101), Name(102)])?;
    let body = Body {
        id: 0,
        owner,
        types: Items::new(alloc),
        params: 1,
        locals,
        names,
        outlives: Items::new(alloc),
        calls: Items::new(alloc),
        entry: Label(0),
        blocks,
        span: END,
        types_at: Items::new(alloc),
    };
    Boxed::new(alloc, body)
}

fn straight(
    alloc: Global,
    locals: Items<Ty>,
    statements: Items<Statement>,
) -> Result<Boxed<Body>, NoMemory>
    ensures { IfOk result (λ b. b ≡ straight locals statements) }
{
    let only = plain(alloc, statements, TerminatorKind::Return);
    body(alloc, locals, one(alloc, (Label(0), only))?)
}

fn panicking(alloc: Global, locals: Items<Ty>, cause: Cause) -> Result<Boxed<Body>, NoMemory>
    ensures { IfOk result (λ b. b ≡ panicking locals cause) }
{
    let only = plain(alloc, Items::new(alloc), TerminatorKind::Panic(cause));
    body(alloc, locals, one(alloc, (Label(0), only))?)
}

fn branching(
    alloc: Global,
    locals: Items<Ty>,
    operand: Operand,
    yes: Items<Statement>,
    no: Items<Statement>,
) -> Result<Boxed<Body>, NoMemory>
    ensures { IfOk result (λ b. b ≡ branching locals operand yes no) }
{
    let branch = TerminatorKind::If(operand, Label(1), Label(2));
    let mut blocks = one(alloc, (Label(0), plain(alloc, Items::new(alloc), branch)))?;
    blocks.push((Label(1), plain(alloc, yes, TerminatorKind::Return)))?;
    blocks.push((Label(2), plain(alloc, no, TerminatorKind::Return)))?;
    body(alloc, locals, blocks)
}

/// A switch over the parameter, of two variants.
fn switching(
    alloc: Global,
    locals: Items<Ty>,
    first: Items<Statement>,
    second: Items<Statement>,
) -> Result<Boxed<Body>, NoMemory>
    ensures { IfOk result (λ b. b ≡ switching locals first second) }
{
    let place = Place {
        local: 1,
        path: Items::new(alloc),
    };
    let mut labels = one(alloc, Label(1))?;
    labels.push(Label(2))?;
    let switch = TerminatorKind::Switch(place, labels);
    let mut blocks = one(alloc, (Label(0), plain(alloc, Items::new(alloc), switch)))?;
    blocks.push((Label(1), plain(alloc, first, TerminatorKind::Return)))?;
    blocks.push((Label(2), plain(alloc, second, TerminatorKind::Return)))?;
    body(alloc, locals, blocks)
}

fn looping(
    alloc: Global,
    locals: Items<Ty>,
    head: Head,
    operand: Operand,
    statements: Items<Statement>,
) -> Result<Boxed<Body>, NoMemory>
    ensures { IfOk result (λ b. b ≡ looping locals head operand statements) }
{
    let enter = plain(alloc, Items::new(alloc), TerminatorKind::Goto(Label(1)));
    let test = TerminatorKind::If(operand, Label(2), Label(3));
    let again = TerminatorKind::Goto(Label(1));
    let at_head = block(Some(head), one(alloc, Label(1))?, Items::new(alloc), test);
    let step = block(None, one(alloc, Label(1))?, statements, again);
    let mut blocks = one(alloc, (Label(0), enter))?;
    blocks.push((Label(1), at_head))?;
    blocks.push((Label(2), step))?;
    blocks.push((
        Label(3),
        plain(alloc, Items::new(alloc), TerminatorKind::Return),
    ))?;
    body(alloc, locals, blocks)
}

fn calling(
    alloc: Global,
    answer: Ty,
    param: Ty,
    args: Items<Operand>,
) -> Result<Boxed<Body>, NoMemory>
    ensures { IfOk result (λ b. b ≡ calling answer (param ∷ []) args) }
{
    let place = Place {
        local: 0,
        path: Items::new(alloc),
    };
    let function = Callee::Function(FnId::Body(0));
    let call = TerminatorKind::Call(place, function, Items::new(alloc), args, Label(1));
    let mut blocks = one(alloc, (Label(0), plain(alloc, Items::new(alloc), call)))?;
    blocks.push((
        Label(1),
        plain(alloc, Items::new(alloc), TerminatorKind::Return),
    ))?;
    let mut locals = one(alloc, answer)?;
    locals.push(param)?;
    body(alloc, locals, blocks)
}

/// Both sides of a branch lead to the next block.
fn fork(alloc: Global, operand: Operand, next: Label) -> Block
    ensures { result ≡ block_of None [] [] (If operand next next) }
{
    let branch = TerminatorKind::If(operand, next, next);
    plain(alloc, Items::new(alloc), branch)
}

fn forking(
    alloc: Global,
    locals: Items<Ty>,
    first: Operand,
    second: Operand,
    third: Operand,
) -> Result<Boxed<Body>, NoMemory>
    ensures { IfOk result (λ b. b ≡ forking locals first second third) }
{
    let mut blocks = one(alloc, (Label(0), fork(alloc, first, Label(1))))?;
    blocks.push((Label(1), fork(alloc, second, Label(2))))?;
    blocks.push((Label(2), fork(alloc, third, Label(3))))?;
    blocks.push((
        Label(3),
        plain(alloc, Items::new(alloc), TerminatorKind::Return),
    ))?;
    body(alloc, locals, blocks)
}

// ---- statements

/// The answer and the parameter are integers of the kind, and local 2 is a truth value.
fn locals(alloc: Global, kind: IntKind) -> Result<Items<Ty>, NoMemory> {
    let mut types = one(alloc, Ty::int(kind))?;
    types.push(Ty::int(kind))?;
    types.push(Ty { node: TyNode::Bool })?;
    Ok(types)
}

fn copied(alloc: Global, local: u32) -> Operand {
    Operand::Copy(Place {
        local,
        path: Items::new(alloc),
    })
}

/// The answer gets the value, at byte `start`.
fn answer_gets(alloc: Global, start: u32, value: Rvalue) -> Result<Items<Statement>, NoMemory>
    requires { start < 80 }
{
    let place = Place {
        local: 0,
        path: Items::new(alloc),
    };
    let span = Span {
        start,
        end: start + 1,
    };
    let kind = StatementKind::Assign(place, value);
    one(alloc, Statement { span, kind })
}

/// `answer = x op 1`, where the operator stands at byte `start`.
fn answer_is(
    alloc: Global,
    start: u32,
    kind: IntKind,
    op: BinaryOp,
) -> Result<Items<Statement>, NoMemory>
    requires { start < 80 }
{
    let number = Operand::Const(Lit::Int(1, kind));
    answer_gets(alloc, start, Rvalue::Binary(op, copied(alloc, 1), number))
}

// ---- contracts

/// `name@`
fn number_of(alloc: Global, name: Name) -> Result<Term, NoMemory> {
    Term::model(alloc, Term::var(alloc, name)?)
}

/// `answer@ == x@ + 1`
fn is_next(alloc: Global) -> Result<Term, NoMemory> {
    let x = number_of(alloc, X)?;
    let next = Term::calculate(alloc, ArithOp::Add, x, Term::integer(alloc, 1)?)?;
    Term::equal(alloc, number_of(alloc, ANSWER)?, next)
}

/// `x@ < 100`
fn is_small(alloc: Global) -> Result<Term, NoMemory> {
    let number = number_of(alloc, X)?;
    Term::less(alloc, number, Term::integer(alloc, 100)?)
}

/// A contract of one parameter.
fn promise(
    alloc: Global,
    pre: Items<Term>,
    post: Items<Term>,
    spans: &[Span],
) -> Result<Boxed<Contract>, NoMemory> {
    let params = one(alloc, X)?;
    let spans = Items::from_slice(alloc, spans)?;
    let contract = Contract {
        params,
        answer: ANSWER,
        pre,
        post,
        variants: Items::new(alloc),
        spans,
    };
    Boxed::new(alloc, contract)
}

/// `requires x@ < 100`, `ensures result@ == x@ + 1`
fn contract(alloc: Global) -> Result<Boxed<Contract>, NoMemory> {
    let pre = one(alloc, is_small(alloc)?)?;
    let post = one(alloc, is_next(alloc)?)?;
    promise(alloc, pre, post, &[PRE, POST])
}

/// The contract of the one callee.
fn contracts(alloc: Global, callee: Contract) -> Result<Boxed<Contracts>, NoMemory>
    ensures { IfOk result (λ cs. cs.of ≡ callee ∷ []) }
{
    let of = one(alloc, callee)?;
    let contracts = Contracts {
        of,
        traits: Items::new(alloc),
        closures: Items::new(alloc),
        intrinsics: Items::new(alloc),
    };
    Boxed::new(alloc, contracts)
}

/// A contract that promises `true` so many times.
fn promising(alloc: Global, posts: u32) -> Result<Boxed<Contract>, NoMemory> {
    let mut post = Items::new(alloc);
    for _ in 0..posts {
        post.push(Term::truth(alloc, true)?)?;
    }
    promise(alloc, Items::new(alloc), post, &[POST])
}

// ---- the walk

fn nothing_gone(alloc: Global) -> Initialised {
    Initialised {
        gone: Items::new(alloc),
    }
}

/// A variant of one or no field, which is of the type's first parameter.
fn variant(alloc: Global, name: Name, fields: Items<FieldDecl>) -> VariantDecl {
    VariantDecl {
        name,
        kind: VariantKind::Numbered,
        fields,
    }
}

/// `enum Option<T> { None(), Some(T) }`, where the field has this name.
fn declared(alloc: Global, name: Name) -> Result<Vec<AdtDecl>, NoMemory> {
    let ty = Ty {
        node: TyNode::Param(0),
    };
    let field = FieldDecl {
        name,
        ty,
        span: END,
    };
    let mut variants = one(alloc, variant(alloc, NONE, Items::new(alloc)))?;
    variants.push(variant(alloc, SOME, one(alloc, field)?))?;
    let option = AdtDecl {
        name: OPTION,
        regions: 0,
        params: 1,
        variants,
        is_struct: false,
        copy: false,
        span: END,
    };
    let mut decls = Vec::new(alloc);
    decls.push(option)?;
    Ok(decls)
}

/// The obligations of the body with the contract, from 1 on; or counted from a number on by their caller.
fn owed(
    alloc: Global,
    body: &Body,
    promises: &Contract,
    counted: Option<u32>,
) -> Result<Vec<Obligation>, PassError>
    requires { CanBeWalked body.now }
{
    let contracts = contracts(alloc, contract(alloc)?.into_inner())?;
    let decls = declared(alloc, SOME)?;
    let walk = Walk {
        body,
        contracts: contracts.get(),
        contract: promises,
        init: &nothing_gone(alloc),
        resolves: &Resolves::none(alloc),
        decls: &decls,
    };
    match counted {
        None => obligations(alloc, &walk, 1),
        Some(first) => Ok(counted_obligations(alloc, &walk, first)?),
    }
}

/// The obligations of the body, of which the contract is that of its callee.
fn owed_by(alloc: Global, body: &Body) -> Result<Vec<Obligation>, PassError>
    requires { CanBeWalked body.now }
{
    owed(alloc, body, contract(alloc)?.get(), None)
}

// ---- a body of each shape

#[derive(Clone, Copy)]
enum Sample {
    /// `answer = x op 1` over the integers of the kind.
    Operation(IntKind, BinaryOp),
    /// `answer = x as T`, from integers of the first kind to those of the second.
    Cast(IntKind, IntKind),
    Panic,
    /// It adds on one side of a branch and divides on the other.
    Branch,
    /// It answers its parameter, an `Option<i32>`, on both sides of a switch.
    Switch,
    /// `answer = Box::new(x)`
    Box,
    /// `answer = (x, x)`
    Pair,
    /// `pair = (1, x)`, and then `answer = pair.1`
    Part,
    /// `answer = x.1`, where the parameter is a pair.
    PartOfParameter,
    /// It multiplies in a loop with one invariant.
    Loop,
    /// It answers what another function answers of x.
    Call,
}

fn of_operation(alloc: Global, kind: IntKind, op: BinaryOp) -> Result<Vec<Obligation>, PassError> {
    let statements = answer_is(alloc, 10, kind, op)?;
    let body = straight(alloc, locals(alloc, kind)?, statements)?;
    owed_by(alloc, body.get())
}

fn of_cast(alloc: Global, narrow: IntKind, wide: IntKind) -> Result<Vec<Obligation>, PassError> {
    let statements = answer_gets(alloc, 10, Rvalue::Widen(copied(alloc, 1), wide))?;
    let mut types = one(alloc, Ty::int(wide))?;
    types.push(Ty::int(narrow))?;
    let body = straight(alloc, types, statements)?;
    owed_by(alloc, body.get())
}

fn of_panic(alloc: Global) -> Result<Vec<Obligation>, PassError> {
    let types = locals(alloc, IntKind::I32)?;
    let body = panicking(alloc, types, Cause::Unreachable)?;
    owed_by(alloc, body.get())
}

fn of_branch(alloc: Global) -> Result<Vec<Obligation>, PassError> {
    let yes = answer_is(alloc, 10, IntKind::U8, BinaryOp::Add)?;
    let no = answer_is(alloc, 20, IntKind::U8, BinaryOp::Div)?;
    let types = locals(alloc, IntKind::U8)?;
    let body = branching(alloc, types, copied(alloc, 2), yes, no)?;
    owed_by(alloc, body.get())
}

/// A contract that promises that the answer is this.
fn answering(alloc: Global, wanted: Term) -> Result<Boxed<Contract>, NoMemory> {
    let answer = Term::var(alloc, ANSWER)?;
    let post = one(alloc, Term::equal(alloc, answer, wanted)?)?;
    promise(alloc, Items::new(alloc), post, &[POST])
}

/// `Option<i32>`
fn option(alloc: Global) -> Result<Ty, NoMemory> {
    let mut types = Vec::new(alloc);
    types.push(Ty::int(IntKind::I32))?;
    Ty::compound(alloc, CompoundTy::Adt(AdtId(0), Vec::new(alloc), types))
}

fn of_switch(alloc: Global) -> Result<Vec<Obligation>, PassError> {
    let mut types = one(alloc, option(alloc)?)?;
    types.push(option(alloc)?)?;
    let first = answer_gets(alloc, 10, Rvalue::Use(copied(alloc, 1)))?;
    let second = answer_gets(alloc, 20, Rvalue::Use(copied(alloc, 1)))?;
    let body = switching(alloc, types, first, second)?;
    let promises = answering(alloc, Term::var(alloc, X)?)?;
    owed(alloc, body.get(), promises.get(), None)
}

fn of_box(alloc: Global) -> Result<Vec<Obligation>, PassError> {
    let statements = answer_gets(alloc, 10, Rvalue::BoxNew(copied(alloc, 1)))?;
    let boxed = CompoundTy::Unary(TyUnary::Boxed, Ty::int(IntKind::I32));
    let mut types = one(alloc, Ty::compound(alloc, boxed)?)?;
    types.push(Ty::int(IntKind::I32))?;
    let body = straight(alloc, types, statements)?;
    owed_by(alloc, body.get())
}

/// `(i32, i32)`
fn pair(alloc: Global) -> Result<Ty, NoMemory> {
    let mut parts = Vec::new(alloc);
    parts.push(Ty::int(IntKind::I32))?;
    parts.push(Ty::int(IntKind::I32))?;
    Ok(Ty {
        node: TyNode::Tuple(parts),
    })
}

fn of_pair(alloc: Global) -> Result<Vec<Obligation>, PassError> {
    let mut operands = one(alloc, copied(alloc, 1))?;
    operands.push(copied(alloc, 1))?;
    let statements = answer_gets(alloc, 10, Rvalue::Make(Ctor::Tuple, operands))?;
    let mut types = one(alloc, pair(alloc)?)?;
    types.push(Ty::int(IntKind::I32))?;
    let body = straight(alloc, types, statements)?;
    let mut wanted = Vec::new(alloc);
    wanted.push(Term::var(alloc, X)?)?;
    wanted.push(Term::var(alloc, X)?)?;
    let promises = answering(alloc, Term::made(alloc, Ctor::Tuple, wanted)?)?;
    owed(alloc, body.get(), promises.get(), None)
}

/// The second part of the local.
fn second_of(alloc: Global, local: u32) -> Result<Rvalue, NoMemory> {
    let path = one(alloc, Proj::Field(1))?;
    Ok(Rvalue::Use(Operand::Copy(Place { local, path })))
}

/// Local 2 gets the pair of 1 and the parameter.
fn pair_made(alloc: Global) -> Result<Statement, NoMemory> {
    let place = Place {
        local: 2,
        path: Items::new(alloc),
    };
    let first = Operand::Const(Lit::Int(1, IntKind::I32));
    let mut operands = one(alloc, first)?;
    operands.push(copied(alloc, 1))?;
    let kind = StatementKind::Assign(place, Rvalue::Make(Ctor::Tuple, operands));
    Ok(Statement { span: END, kind })
}

fn of_part(alloc: Global) -> Result<Vec<Obligation>, PassError> {
    let mut statements = one(alloc, pair_made(alloc)?)?;
    let span = Span { start: 10, end: 11 };
    let place = Place {
        local: 0,
        path: Items::new(alloc),
    };
    let kind = StatementKind::Assign(place, second_of(alloc, 2)?);
    statements.push(Statement { span, kind })?;
    let mut types = one(alloc, Ty::int(IntKind::I32))?;
    types.push(Ty::int(IntKind::I32))?;
    types.push(pair(alloc)?)?;
    let body = straight(alloc, types, statements)?;
    owed_by(alloc, body.get())
}

fn of_part_of_parameter(alloc: Global) -> Result<Vec<Obligation>, PassError> {
    let statements = answer_gets(alloc, 10, second_of(alloc, 1)?)?;
    let mut types = one(alloc, Ty::int(IntKind::I32))?;
    types.push(pair(alloc)?)?;
    let body = straight(alloc, types, statements)?;
    let wanted = Term::field(alloc, Term::var(alloc, X)?, 0)?;
    let promises = answering(alloc, wanted)?;
    owed(alloc, body.get(), promises.get(), None)
}

/// One invariant, which is `true`.
fn head(alloc: Global) -> Result<Head, NoMemory> {
    let invariants = one(alloc, Term::truth(alloc, true)?)?;
    let spans = one(alloc, Span { start: 30, end: 31 })?;
    Ok(Head { invariants, spans })
}

fn of_loop(alloc: Global) -> Result<Vec<Obligation>, PassError> {
    let step = answer_is(alloc, 40, IntKind::I32, BinaryOp::Mul)?;
    let types = locals(alloc, IntKind::I32)?;
    let body = looping(alloc, types, head(alloc)?, copied(alloc, 2), step)?;
    owed_by(alloc, body.get())
}

fn of_call(alloc: Global) -> Result<Vec<Obligation>, PassError> {
    let args = one(alloc, copied(alloc, 1))?;
    let (answer, param) = (Ty::int(IntKind::I32), Ty::int(IntKind::I32));
    let body = calling(alloc, answer, param, args)?;
    owed_by(alloc, body.get())
}

fn made_of(alloc: Global, sample: Sample) -> Result<Vec<Obligation>, PassError> {
    match sample {
        Sample::Operation(kind, op) => of_operation(alloc, kind, op),
        Sample::Cast(narrow, wide) => of_cast(alloc, narrow, wide),
        Sample::Panic => of_panic(alloc),
        Sample::Branch => of_branch(alloc),
        Sample::Switch => of_switch(alloc),
        Sample::Box => of_box(alloc),
        Sample::Pair => of_pair(alloc),
        Sample::Part => of_part(alloc),
        Sample::PartOfParameter => of_part_of_parameter(alloc),
        Sample::Loop => of_loop(alloc),
        Sample::Call => of_call(alloc),
    }
}

/// A kind, the first byte, and the goal as text; where there is none, the goal is not looked at.
type Owed = (Kind, u32, &'static [u8]);

/// What is owed, in order.
const SAMPLES: [(Sample, &'static [Owed]); 13] = [
    (
        Sample::Operation(IntKind::I32, BinaryOp::Add),
        &[
            (Kind::Overflow, 10, IN_RANGE),
            (Kind::Ensures, 80, ANSWERED),
        ],
    ),
    (
        Sample::Operation(IntKind::I32, BinaryOp::Div),
        &[
            (Kind::Division, 10, b""),
            (Kind::Overflow, 10, b""),
            (Kind::Ensures, 80, b""),
        ],
    ),
    (
        Sample::Operation(IntKind::U32, BinaryOp::Rem),
        &[(Kind::Division, 10, b""), (Kind::Ensures, 80, b"")],
    ),
    (
        Sample::Cast(IntKind::U8, IntKind::I16),
        &[(Kind::Ensures, 80, CAST)],
    ),
    (Sample::Panic, &[(Kind::Unreachable, 90, NEVER)]),
    // The true side comes first.
    (
        Sample::Branch,
        &[
            (Kind::Overflow, 10, b""),
            (Kind::Ensures, 80, b""),
            (Kind::Division, 20, b""),
            (Kind::Ensures, 80, b""),
        ],
    ),
    (
        Sample::Switch,
        &[(Kind::Ensures, 80, IS_NONE), (Kind::Ensures, 80, IS_SOME)],
    ),
    (Sample::Box, &[(Kind::Ensures, 80, HELD)]),
    (Sample::Pair, &[(Kind::Ensures, 80, PAIR)]),
    (Sample::Part, &[(Kind::Ensures, 80, PART)]),
    (
        Sample::PartOfParameter,
        &[(Kind::Ensures, 80, PART_OF_PARAMETER)],
    ),
    (
        Sample::Loop,
        &[
            (Kind::InvEntry, 30, b""),
            (Kind::Overflow, 40, b""),
            (Kind::InvKept, 30, b""),
            (Kind::Ensures, 80, b""),
        ],
    ),
    (
        Sample::Call,
        &[(Kind::Requires, 90, SMALL), (Kind::Ensures, 80, b"")],
    ),
];

fn text_of(alloc: Global, made: &Obligation) -> Result<Vec<u8>, NoMemory> {
    let mut names = Names::new(alloc);
    let zero = names.intern(alloc, "0")?;
    let adts = declared(alloc, zero)?;
    let spelling = Spelling {
        adts: &adts,
        names: &names,
    };
    goal_text(alloc, &spelling, &made.goal.term(alloc)?)
}

/// Whether the goal has this text, if there is one.
fn has_goal(alloc: Global, made: &Obligation, wanted: &[u8]) -> Result<bool, NoMemory> {
    Ok(wanted.is_empty() || text_of(alloc, made)?.as_slice() == wanted)
}

/// Whether the obligation has this number, and this kind, first byte and goal.
fn is_owed(
    alloc: Global,
    made: &Obligation,
    number: usize,
    wanted: &Owed,
) -> Result<bool, NoMemory> {
    let (kind, start, goal) = *wanted;
    let fits = made.kind == kind && made.span.start == start && made.number as usize == number;
    Ok(fits && has_goal(alloc, made, goal)?)
}

/// Whether these are owed, in this order, numbered from 1.
fn are_owed(alloc: Global, made: &[Obligation], wanted: &[Owed]) -> Result<bool, NoMemory> {
    for i in 0..made.len().min(wanted.len()) {
        if !is_owed(alloc, &made[i], i + 1, &wanted[i])? {
            return Ok(false);
        }
    }
    Ok(made.len() == wanted.len())
}

#[test]
fn samples_of_all_shapes(rt: HostRuntime) -> Result<(), Fail> {
    for (at, (sample, wanted)) in SAMPLES.iter().enumerate() {
        let made = made_of(rt.alloc(), *sample)?;
        assert!(rt; are_owed(rt.alloc(), &made, *wanted)?, "row {at}");
    }
    Ok(())
}

// ---- limits

/// A body of eight paths, each with what its contract promises.
fn eight_paths(alloc: Global) -> Result<Boxed<Body>, NoMemory>
    ensures { IfOk result IsForking }
{
    let types = locals(alloc, IntKind::U8)?;
    let (first, second, third) = (copied(alloc, 2), copied(alloc, 2), copied(alloc, 2));
    forking(alloc, types, first, second, third)
}

/// The obligations of eight paths that promise so much each.
fn of_eight_paths(
    alloc: Global,
    posts: u32,
    counted: Option<u32>,
) -> Result<Vec<Obligation>, PassError> {
    let body = eight_paths(alloc)?;
    let promises = promising(alloc, posts)?;
    owed(alloc, body.get(), promises.get(), counted)
}

/// What is left of the room for obligations behind those of eight paths that promise so much each.
fn room_behind(alloc: Global, posts: u32) -> Result<Option<u32>, NoMemory> {
    let body = eight_paths(alloc)?;
    let contracts = contracts(alloc, contract(alloc)?.into_inner())?;
    let promises = promising(alloc, posts)?;
    let walk = Walk {
        body: body.get(),
        contracts: contracts.get(),
        contract: promises.get(),
        init: &nothing_gone(alloc),
        resolves: &Resolves::none(alloc),
        decls: &[],
    };
    Ok(room_after(&walk, OBLIGATIONS))
}

/// Whether a million obligations are allowed and this is what is said of more.
fn is_past_a_million(made: Result<Vec<Obligation>, PassError>) -> bool {
    match made {
        Err(PassError::Limit(limit)) => {
            matches!(limit.kind, LimitKind::Obligations)
                && limit.counted == 1_000_001
                && limit.bound == 1_000_000
        }
        _ => false,
    }
}

/// So many promises, and what is left behind them.
const ROOMS: [(u32, Option<u32>); 3] = [(124_999, Some(8)), (125_000, Some(0)), (125_001, None)];

#[test]
fn a_million_obligations_are_the_most(rt: HostRuntime) -> Result<(), Fail> {
    for (posts, room) in &ROOMS {
        assert!(rt; room_behind(rt.alloc(), *posts)? == *room, "{posts}");
    }
    assert!(rt; is_past_a_million(of_eight_paths(rt.alloc(), 125_001, None)));
    assert!(rt; of_eight_paths(rt.alloc(), 2, None).is_ok());
    Ok(())
}

#[test]
fn obligations_that_are_counted_by_their_caller(rt: HostRuntime) -> Result<(), Fail> {
    let made = of_eight_paths(rt.alloc(), 2, Some(1000))?;
    assert!(rt; made.len() == 16);
    for i in 0..made.len().min(16) {
        assert!(rt; made[i].kind == Kind::Ensures && made[i].number as usize == 1000 + i);
    }
    Ok(())
}
