ghost use Rattle.std.specs.Prelude.{◌≡◌, ◌<◌, [], ◌∷◌, IfOk};
ghost use Rattle.source_kinds.specs.Range.{fits};
ghost use Rattle.mir_ir.specs.WellFormed.{operation_ty, IsSigned, AreSound};
ghost use Rattle.mir_ir.specs.declared.place.Operand.TheVariants.{Copy};
ghost use Rattle.mir_machine.specs.Tree.{Int};
ghost use Rattle.mir_machine.specs.Step.{whole};
ghost use Rattle.machine_tests.specs.Run.{assigned, block_of, body_of, of_block, of_bodies, alone, sample, tests, negates, keeps, absolute_blocks, absolute, calling_blocks, calling, panicking, program, variant, option_decl, option_ty, option_of, answers, choosing_blocks, choosing_body, choosing};
ghost use Rattle.machine_tests.specs.Run.{pair_ty, pair, second_of, parting_body, TakesOne};

use logic_term::{
    AdtDecl, AdtId, CompoundTy, Ctor, FieldDecl, Instance, Label, Ty, TyNode, VariantDecl,
    VariantKind,
};
use mir_ir::{
    Block, Bodies, Body, Callee, FnId, Lit, Operand, Place, Proj, Rvalue, Statement, StatementKind,
    Terminator, TerminatorKind,
};
use mir_machine::{Args, Machine, NoIntrinsics, Outcome, Tree, TreeNode};
use source_kinds::{BinaryOp, IntKind};
use std::alloc::Global;
use std::test::Fail;
use text_core::{Boxed, Cause, Items, Name, NoMemory, Span, Text};

const SPAN: Span = Span { start: 24, end: 29 };

// ---- parts of bodies

fn place(alloc: Global, local: u32) -> Place
    ensures { result ≡ whole local }
{
    Place {
        local,
        path: Items::new(alloc),
    }
}

fn copied(alloc: Global, local: u32) -> Operand
    ensures { result ≡ Copy (whole local) }
{
    Operand::Copy(place(alloc, local))
}

fn assign(alloc: Global, local: u32, value: Rvalue) -> Statement
    ensures { result ≡ assigned local value }
{
    Statement {
        span: SPAN,
        kind: StatementKind::Assign(place(alloc, local), value),
    }
}

fn block(alloc: Global, statements: Items<Statement>, end: TerminatorKind) -> Block
    ensures { result ≡ block_of statements end }
{
    Block {
        head: None,
        nest: Items::new(alloc),
        statements,
        end: Terminator {
            span: SPAN,
            kind: end,
        },
    }
}

fn one<T: Drop>(alloc: Global, item: T) -> Result<Items<T>, NoMemory>
    ensures { IfOk result (λ items. items ≡ item ∷ []) }
{
    let mut items = Items::new(alloc);
    items.push(item)?;
    Ok(items)
}

fn returning(alloc: Global) -> Block
    ensures { result ≡ block_of [] TerminatorKind.Return }
{
    block(alloc, Items::new(alloc), TerminatorKind::Return)
}

/// The bodies, and nothing that is declared beside them.
fn of_bodies(alloc: Global, bodies: Items<Body>) -> Bodies
    ensures { result ≡ of_bodies bodies }
{
    Bodies {
        bodies,
        decls: Items::new(alloc),
        impls: Items::new(alloc),
        closures: Items::new(alloc),
    }
}

// ---- bodies of one statement

fn operation_ty(op: BinaryOp, kind: IntKind) -> Ty
    ensures { result ≡ operation_ty op kind }
{
    match op {
        BinaryOp::Add | BinaryOp::Sub | BinaryOp::Mul | BinaryOp::Div | BinaryOp::Rem => {
            Ty::int(kind)
        }
        _ => Ty { node: TyNode::Bool },
    }
}

/// The body of one parameter with this number, these types of locals, their names, and these blocks.
fn body(
    alloc: Global,
    id: u32,
    locals: Items<Ty>,
    names: &[Name],
    blocks: Items<(Label, Block)>,
) -> Result<Body, NoMemory>
    ensures { IfOk result (λ b. b ≡ body_of id locals names.now blocks) }
{
    let owner = Text::from_bytes(alloc, b"f")?;
    let names = Items::from_slice(alloc, names)?;
    Ok(Body {
        id,
        owner,
        types: Items::new(alloc),
        params: 1,
        locals,
        names,
        outlives: Items::new(alloc),
        calls: Items::new(alloc),
        entry: Label(0),
        blocks,
        span: SPAN,
        types_at: Items::new(alloc),
    })
}

/// The types of the answer and of the parameter.
fn two(alloc: Global, answer: Ty, param: Ty) -> Result<Items<Ty>, NoMemory>
    ensures { IfOk result (λ types. types ≡ answer ∷ param ∷ []) }
{
    let mut types = one(alloc, answer)?;
    types.push(param)?;
    Ok(types)
}

/// The program of one body of one block.
fn of_block(alloc: Global, answer: Ty, param: Ty, block: Block) -> Result<Boxed<Bodies>, NoMemory>
    ensures { IfOk result (λ p. p ≡ alone (of_block answer param block)) }
{
    let blocks = one(alloc, (Label(0), block))?;
    let locals = two(alloc, answer, param)?;
    let body = body(alloc, 0, locals, &[Name(100), Name(101)], blocks)?;
    Boxed::new(alloc, of_bodies(alloc, one(alloc, body)?))
}

/// `fn f(x: param) -> answer { value }`
fn sample(alloc: Global, answer: Ty, param: Ty, value: Rvalue) -> Result<Boxed<Bodies>, NoMemory>
    ensures { IfOk result (λ p. p ≡ alone (sample answer param value)) }
{
    let statements = one(alloc, assign(alloc, 0, value))?;
    let block = block(alloc, statements, TerminatorKind::Return);
    of_block(alloc, answer, param, block)
}

fn integer(z: i128) -> Tree
    ensures { result ≡ Int z }
{
    Tree {
        node: TreeNode::Int(z),
    }
}

/// A run of the call of body f at one argument.
fn start<'a>(
    alloc: Global,
    bodies: &'a Bodies,
    f: u32,
    value: Tree,
) -> Result<Machine<'a, NoIntrinsics>, NoMemory>
    requires sound { AreSound bodies.now }
    requires takes_one { TakesOne bodies.now f value }
{
    let args = Args {
        values: one(alloc, value)?,
        outside: Items::new(alloc),
    };
    let instance = Instance {
        types: Items::new(alloc),
    };
    Machine::new(alloc, bodies, FnId::Body(f), &instance, args, NoIntrinsics)
}

/// A body whose one block panics.
fn panicking(alloc: Global, cause: Cause) -> Result<Boxed<Bodies>, NoMemory>
    ensures { IfOk result (λ p. p ≡ alone (panicking cause)) }
{
    let panics = block(alloc, Items::new(alloc), TerminatorKind::Panic(cause));
    let (answer, param) = (Ty::int(IntKind::I32), Ty::int(IntKind::I32));
    of_block(alloc, answer, param, panics)
}

// ---- the absolute value, and a call of it

/// Whether the parameter is negative.
fn tests(alloc: Global) -> Result<Block, NoMemory>
    ensures { IfOk result (λ b. b ≡ tests) }
{
    let zero = Operand::Const(Lit::Int(0, IntKind::I32));
    let value = Rvalue::Binary(BinaryOp::Lt, copied(alloc, 1), zero);
    let branch = TerminatorKind::If(Operand::Move(place(alloc, 2)), Label(1), Label(2));
    Ok(block(alloc, one(alloc, assign(alloc, 2, value))?, branch))
}

fn negates(alloc: Global) -> Result<Block, NoMemory>
    ensures { IfOk result (λ b. b ≡ negates) }
{
    let mut statements = one(alloc, assign(alloc, 0, Rvalue::Neg(copied(alloc, 1))))?;
    let kind = StatementKind::Dead(1);
    statements.push(Statement { span: SPAN, kind })?;
    Ok(block(alloc, statements, TerminatorKind::Goto(Label(3))))
}

fn keeps(alloc: Global) -> Result<Block, NoMemory>
    ensures { IfOk result (λ b. b ≡ keeps) }
{
    let value = Rvalue::Use(Operand::Move(place(alloc, 1)));
    let statements = one(alloc, assign(alloc, 0, value))?;
    Ok(block(alloc, statements, TerminatorKind::Goto(Label(3))))
}

fn absolute_blocks(alloc: Global) -> Result<Items<(Label, Block)>, NoMemory>
    ensures { IfOk result (λ bs. bs ≡ absolute_blocks) }
{
    let mut blocks = one(alloc, (Label(0), tests(alloc)?))?;
    blocks.push((Label(1), negates(alloc)?))?;
    blocks.push((Label(2), keeps(alloc)?))?;
    blocks.push((Label(3), returning(alloc)))?;
    Ok(blocks)
}

fn absolute(alloc: Global) -> Result<Body, NoMemory>
    ensures { IfOk result (λ b. b ≡ absolute) }
{
    let mut locals = two(alloc, Ty::int(IntKind::I32), Ty::int(IntKind::I32))?;
    locals.push(Ty { node: TyNode::Bool })?;
    let blocks = absolute_blocks(alloc)?;
    let names = [Name(100), Name(101), Name(102)];
    body(alloc, 0, locals, &names, blocks)
}

fn calling_blocks(alloc: Global) -> Result<Items<(Label, Block)>, NoMemory>
    ensures { IfOk result (λ bs. bs ≡ calling_blocks) }
{
    let args = one(alloc, copied(alloc, 1))?;
    let function = Callee::Function(FnId::Body(0));
    let to = place(alloc, 0);
    let call = TerminatorKind::Call(to, function, Items::new(alloc), args, Label(1));
    let mut blocks = one(alloc, (Label(0), block(alloc, Items::new(alloc), call)))?;
    blocks.push((Label(1), returning(alloc)))?;
    Ok(blocks)
}

fn calling(alloc: Global) -> Result<Body, NoMemory>
    ensures { IfOk result (λ b. b ≡ calling) }
{
    let locals = two(alloc, Ty::int(IntKind::I32), Ty::int(IntKind::I32))?;
    let blocks = calling_blocks(alloc)?;
    body(alloc, 1, locals, &[Name(100), Name(101)], blocks)
}

fn program(alloc: Global) -> Result<Boxed<Bodies>, NoMemory>
    ensures { IfOk result (λ p. p ≡ program) }
{
    let mut bodies = one(alloc, absolute(alloc)?)?;
    bodies.push(calling(alloc)?)?;
    Boxed::new(alloc, of_bodies(alloc, bodies))
}

// ---- a switch

/// A variant of this name.
fn variant(name: Name, fields: Items<FieldDecl>) -> VariantDecl
    ensures { result ≡ variant name.0 fields }
{
    VariantDecl {
        name,
        kind: VariantKind::Numbered,
        fields,
    }
}

/// `enum Option<T> { None(), Some(T) }`
fn option_decl(alloc: Global) -> Result<AdtDecl, NoMemory>
    ensures { IfOk result (λ d. d ≡ option_decl) }
{
    let ty = Ty {
        node: TyNode::Param(0),
    };
    let field = FieldDecl {
        name: Name(203),
        ty,
        span: SPAN,
    };
    let mut variants = one(alloc, variant(Name(201), Items::new(alloc)))?;
    variants.push(variant(Name(202), one(alloc, field)?))?;
    Ok(AdtDecl {
        name: Name(200),
        regions: 0,
        params: 1,
        variants,
        is_struct: false,
        copy: false,
        span: SPAN,
    })
}

/// `Option<i32>`
fn option_ty(alloc: Global) -> Result<Ty, NoMemory>
    ensures { IfOk result (λ ty. ty ≡ option_ty) }
{
    let mut types = Vec::new(alloc);
    types.push(Ty::int(IntKind::I32))?;
    Ty::compound(alloc, CompoundTy::Adt(AdtId(0), Vec::new(alloc), types))
}

/// The answer is 10 or 11, of which each fits.
fn answers(alloc: Global, z: i128) -> Result<Block, NoMemory>
    ensures { IfOk result (λ b. b ≡ answers z) }
{
    let value = Rvalue::Use(Operand::Const(Lit::Int(z, IntKind::I32)));
    let statements = one(alloc, assign(alloc, 0, value))?;
    Ok(block(alloc, statements, TerminatorKind::Return))
}

fn choosing_blocks(alloc: Global, value: Rvalue) -> Result<Items<(Label, Block)>, NoMemory>
    ensures { IfOk result (λ bs. bs ≡ choosing_blocks value) }
{
    let mut labels = one(alloc, Label(1))?;
    labels.push(Label(2))?;
    let switch = TerminatorKind::Switch(place(alloc, 2), labels);
    let statements = one(alloc, assign(alloc, 2, value))?;
    let mut blocks = one(alloc, (Label(0), block(alloc, statements, switch)))?;
    blocks.push((Label(1), answers(alloc, 10)?))?;
    blocks.push((Label(2), answers(alloc, 11)?))?;
    Ok(blocks)
}

/// Which variant of an option the value is: 10 for `None`, and else 11.
fn choosing_body(alloc: Global, value: Rvalue) -> Result<Body, NoMemory>
    ensures { IfOk result (λ b. b ≡ choosing_body value) }
{
    let blocks = choosing_blocks(alloc, value)?;
    let mut locals = two(alloc, Ty::int(IntKind::I32), Ty::int(IntKind::I32))?;
    locals.push(option_ty(alloc)?)?;
    let names = [Name(100), Name(101), Name(102)];
    body(alloc, 0, locals, &names, blocks)
}

fn choosing(alloc: Global, value: Rvalue) -> Result<Boxed<Bodies>, NoMemory>
    ensures { IfOk result (λ p. p ≡ choosing value) }
{
    let bodies = one(alloc, choosing_body(alloc, value)?)?;
    let bodies = Bodies {
        bodies,
        decls: one(alloc, option_decl(alloc)?)?,
        impls: Items::new(alloc),
        closures: Items::new(alloc),
    };
    Boxed::new(alloc, bodies)
}

/// A variant of an option.
fn option_of(variant: u32, operands: Items<Operand>) -> Rvalue
    ensures { result ≡ option_of variant operands }
{
    Rvalue::Make(Ctor::Variant(AdtId(0), variant), operands)
}

// ---- a part of a pair

/// `(i32, i32)`
fn pair_ty(alloc: Global) -> Result<Ty, NoMemory>
    ensures { IfOk result (λ ty. ty ≡ pair_ty) }
{
    let mut parts = Vec::new(alloc);
    parts.push(Ty::int(IntKind::I32))?;
    parts.push(Ty::int(IntKind::I32))?;
    Ok(Ty {
        node: TyNode::Tuple(parts),
    })
}

/// `(3, x)`
fn pair(alloc: Global) -> Result<Rvalue, NoMemory>
    ensures { IfOk result (λ r. r ≡ pair) }
{
    let three = Operand::Const(Lit::Int(3, IntKind::I32));
    let mut operands = one(alloc, three)?;
    operands.push(copied(alloc, 1))?;
    Ok(Rvalue::Make(Ctor::Tuple, operands))
}

/// The second part of the local.
fn second_of(alloc: Global, local: u32) -> Result<Operand, NoMemory>
    ensures { IfOk result (λ o. o ≡ second_of local) }
{
    let path = one(alloc, Proj::Field(1))?;
    Ok(Operand::Copy(Place { local, path }))
}

/// `fn f(x: i32) -> i32 { let pair = (3, x); pair.1 }`
fn parting_body(alloc: Global) -> Result<Body, NoMemory>
    ensures { IfOk result (λ b. b ≡ parting_body) }
{
    let mut statements = one(alloc, assign(alloc, 2, pair(alloc)?))?;
    let part = Rvalue::Use(second_of(alloc, 2)?);
    statements.push(assign(alloc, 0, part))?;
    let block = block(alloc, statements, TerminatorKind::Return);
    let mut locals = two(alloc, Ty::int(IntKind::I32), Ty::int(IntKind::I32))?;
    locals.push(pair_ty(alloc)?)?;
    let names = [Name(100), Name(101), Name(102)];
    body(alloc, 0, locals, &names, one(alloc, (Label(0), block))?)
}

fn parting(alloc: Global) -> Result<Boxed<Bodies>, NoMemory>
    ensures { IfOk result (λ p. p ≡ alone parting_body) }
{
    let bodies = one(alloc, parting_body(alloc)?)?;
    Boxed::new(alloc, of_bodies(alloc, bodies))
}

// ---- runs

/// What a run has come to.
#[derive(Clone, Copy, PartialEq, Eq)]
enum Came {
    Integer(i128),
    Truth(bool),
    Unit,
    Panic(Cause),
    Nowhere,
}

fn answer_of(machine: &Machine<NoIntrinsics>) -> Came {
    if let Outcome::Panicked { cause, .. } = machine.outcome() {
        return Came::Panic(cause);
    }
    let Some(tree) = machine.result() else {
        return Came::Nowhere;
    };
    match &tree.node {
        TreeNode::Int(z) => Came::Integer(*z),
        TreeNode::Bool(b) => Came::Truth(*b),
        TreeNode::Made(Ctor::Tuple, parts) if parts.is_empty() => Came::Unit,
        _ => Came::Nowhere,
    }
}

/// What the run comes to in so many steps.
fn came_in(machine: &mut Machine<NoIntrinsics>, steps: u64) -> Result<Came, Fail> {
    machine.run(steps)?;
    Ok(answer_of(machine))
}

/// What the call of body f at one argument comes to in so many steps.
fn run_of(alloc: Global, bodies: &Bodies, f: u32, value: Tree, steps: u64) -> Result<Came, Fail>
    requires sound { AreSound bodies.now }
    requires takes_one { TakesOne bodies.now f value }
{
    let mut machine = start(alloc, bodies, f, value)?;
    came_in(&mut machine, steps)
}

fn is_of(kind: IntKind, z: i128) -> bool
    ensures { result ≡ fits kind z }
{
    kind.lowest() <= z && z <= kind.highest()
}

/// `x op n` over the integer type.
fn operation(alloc: Global, kind: IntKind, op: BinaryOp, x: i128, n: i128) -> Result<Came, Fail> {
    if !is_of(kind, x) || !is_of(kind, n) {
        return Ok(Came::Nowhere);
    }
    let number = Operand::Const(Lit::Int(n, kind));
    let value = Rvalue::Binary(op, copied(alloc, 1), number);
    let bodies = sample(alloc, operation_ty(op, kind), Ty::int(kind), value)?;
    run_of(alloc, bodies.get(), 0, integer(x), 7)
}

/// `-x` over a signed integer type.
fn negation(alloc: Global, kind: IntKind, x: i128) -> Result<Came, Fail>
    requires { IsSigned kind }
{
    if !is_of(kind, x) {
        return Ok(Came::Nowhere);
    }
    let value = Rvalue::Neg(copied(alloc, 1));
    let bodies = sample(alloc, Ty::int(kind), Ty::int(kind), value)?;
    run_of(alloc, bodies.get(), 0, integer(x), 7)
}

/// `x as T`, from one integer type to one that has each of its values.
fn widening(alloc: Global, narrow: IntKind, wide: IntKind, x: i128) -> Result<Came, Fail> {
    if !narrow.widens_to(wide) || !is_of(narrow, x) {
        return Ok(Came::Nowhere);
    }
    let value = Rvalue::Widen(copied(alloc, 1), wide);
    let bodies = sample(alloc, Ty::int(wide), Ty::int(narrow), value)?;
    run_of(alloc, bodies.get(), 0, integer(x), 7)
}

/// Which variant `None` is.
fn none_chosen(alloc: Global) -> Result<Came, Fail> {
    let bodies = choosing(alloc, option_of(0, Items::new(alloc)))?;
    run_of(alloc, bodies.get(), 0, integer(5), 99)
}

/// Which variant `Some` of the parameter is.
fn some_chosen(alloc: Global) -> Result<Came, Fail> {
    let operands = one(alloc, copied(alloc, 1))?;
    let bodies = choosing(alloc, option_of(1, operands))?;
    run_of(alloc, bodies.get(), 0, integer(5), 99)
}

/// What the second part of 3 and the parameter is.
fn second_part(alloc: Global) -> Result<Came, Fail> {
    let bodies = parting(alloc)?;
    run_of(alloc, bodies.get(), 0, integer(5), 7)
}

/// The number of the body that calls the absolute value, or of the absolute value itself.
fn number_of(calls: bool) -> u32
    ensures { result < 2 }
{
    if calls { 1 } else { 0 }
}

/// The absolute value of x, by a call of it or by itself.
fn absolute_of(alloc: Global, calls: bool, x: i32) -> Result<Came, Fail> {
    let f = number_of(calls);
    let bodies = program(alloc)?;
    run_of(alloc, bodies.get(), f, integer(x as i128), 99)
}

/// Whether the run panics for the cause at its first step, at its end's span, and runs no further.
fn panics_at_once(machine: &mut Machine<NoIntrinsics>, cause: Cause) -> Result<bool, Fail> {
    machine.step()?;
    let Outcome::Panicked { cause: came, span } = machine.outcome() else {
        return Ok(false);
    };
    Ok(came == cause && span.start == SPAN.start && machine.run(7)? == 0)
}

/// The same of a body whose one block panics for the cause.
fn a_body_panics(alloc: Global, cause: Cause) -> Result<bool, Fail> {
    let bodies = panicking(alloc, cause)?;
    let mut machine = start(alloc, bodies.get(), 0, integer(5))?;
    panics_at_once(&mut machine, cause)
}

// ---- tests

/// Whether the machine has so many calls that wait, and stands in this block of this function.
fn stands(machine: &Machine<NoIntrinsics>, waiting: usize, function: u32, label: u32) -> bool {
    let state = machine.state();
    state.behind.len() == waiting
        && state.running.function == function
        && state.running.label.0 == label
        && machine.result().is_none()
}

/// Whether a call of -41 is entered, goes to the block for negative numbers, and comes back with 41.
fn goes_step_by_step(machine: &mut Machine<NoIntrinsics>) -> Result<bool, Fail> {
    let begins = stands(machine, 1, 1, 0);
    machine.step()?;
    let enters = matches!(machine.outcome(), Outcome::Running) && stands(machine, 2, 0, 0);
    machine.run(2)?;
    let branches = stands(machine, 2, 0, 1);
    let ends = came_in(machine, 99)? == Came::Integer(41) && machine.state().behind.is_empty();
    Ok(begins && enters && branches && ends && machine.run(7)? == 0)
}

#[test]
fn calls_step_by_step(rt: HostRuntime) -> Result<(), Fail> {
    let bodies = program(rt.alloc())?;
    let mut machine = start(rt.alloc(), bodies.get(), 1, integer(-41))?;
    assert!(rt; goes_step_by_step(&mut machine)?);
    Ok(())
}

const OVERFLOW: Came = Came::Panic(Cause::Overflow);

const DIVISION: Came = Came::Panic(Cause::Division);

/// Operators with their operands, and what they come to.
const OPERATIONS: [(IntKind, BinaryOp, i128, i128, Came); 12] = [
    (IntKind::I8, BinaryOp::Add, 127, 1, OVERFLOW),
    (
        IntKind::U64,
        BinaryOp::Add,
        18446744073709551614,
        1,
        Came::Integer(18446744073709551615),
    ),
    (IntKind::U8, BinaryOp::Sub, 0, 1, OVERFLOW),
    (
        IntKind::I64,
        BinaryOp::Mul,
        -9223372036854775808,
        -1,
        OVERFLOW,
    ),
    (IntKind::I32, BinaryOp::Div, -2147483648, -1, OVERFLOW),
    (IntKind::I32, BinaryOp::Rem, -2147483648, -1, OVERFLOW),
    (IntKind::I16, BinaryOp::Div, 5, 0, DIVISION),
    (IntKind::Usize, BinaryOp::Rem, 5, 0, DIVISION),
    (IntKind::I32, BinaryOp::Div, -7, 2, Came::Integer(-3)),
    (IntKind::I32, BinaryOp::Rem, -7, 2, Came::Integer(-1)),
    (IntKind::Isize, BinaryOp::Lt, -1, 1, Came::Truth(true)),
    (
        IntKind::U32,
        BinaryOp::Ne,
        4294967295,
        4294967295,
        Came::Truth(false),
    ),
];

#[test]
fn operators_at_the_ends_of_types(rt: HostRuntime) -> Result<(), Fail> {
    for (at, (kind, op, x, n, wanted)) in OPERATIONS.iter().enumerate() {
        let came = operation(rt.alloc(), *kind, *op, *x, *n)?;
        assert!(rt; came == *wanted, "row {at}");
    }
    assert!(rt; negation(rt.alloc(), IntKind::I8, -128)? == OVERFLOW);
    assert!(rt; negation(rt.alloc(), IntKind::I8, 127)? == Came::Integer(-127));
    Ok(())
}

/// Integers that are cast, from a type to a wider one, and what they come to.
const CASTS: [(IntKind, IntKind, i128, Came); 4] = [
    (IntKind::U8, IntKind::I16, 255, Came::Integer(255)),
    (
        IntKind::I32,
        IntKind::I64,
        -2147483648,
        Came::Integer(-2147483648),
    ),
    (
        IntKind::Usize,
        IntKind::U64,
        18446744073709551615,
        Came::Integer(18446744073709551615),
    ),
    (IntKind::I8, IntKind::U64, 5, Came::Nowhere),
];

#[test]
fn casts_keep_the_integer(rt: HostRuntime) -> Result<(), Fail> {
    for (narrow, wide, x, wanted) in &CASTS {
        let came = widening(rt.alloc(), *narrow, *wide, *x)?;
        assert!(rt; came == *wanted, "{x}");
    }
    Ok(())
}

/// Bodies of the program with arguments, and what they come to.
const ABSOLUTES: [(bool, i32, Came); 3] = [
    (false, -7, Came::Integer(7)),
    (true, 7, Came::Integer(7)),
    (true, i32::MIN, OVERFLOW),
];

#[test]
fn branches_and_calls(rt: HostRuntime) -> Result<(), Fail> {
    for (calls, x, wanted) in &ABSOLUTES {
        let came = absolute_of(rt.alloc(), *calls, *x)?;
        assert!(rt; came == *wanted);
    }
    Ok(())
}

#[test]
fn a_panic_ends_the_run(rt: HostRuntime) -> Result<(), Fail> {
    assert!(rt; a_body_panics(rt.alloc(), Cause::Panic)?);
    assert!(rt; a_body_panics(rt.alloc(), Cause::Unreachable)?);
    Ok(())
}

/// What `!x` of `true` comes to.
fn inverse(alloc: Global) -> Result<Came, Fail> {
    let (answer, param) = (Ty { node: TyNode::Bool }, Ty { node: TyNode::Bool });
    let value = Rvalue::Not(copied(alloc, 1));
    let bodies = sample(alloc, answer, param, value)?;
    let truth = Tree {
        node: TreeNode::Bool(true),
    };
    run_of(alloc, bodies.get(), 0, truth, 7)
}

#[test]
fn inverts_a_truth(rt: HostRuntime) -> Result<(), Fail> {
    assert!(rt; inverse(rt.alloc())? == Came::Truth(false));
    Ok(())
}

/// What `()` comes to.
fn unit(alloc: Global) -> Result<Came, Fail> {
    let answer = Ty::unit(alloc);
    let value = Rvalue::Make(Ctor::Tuple, Items::new(alloc));
    let bodies = sample(alloc, answer, Ty::int(IntKind::I32), value)?;
    run_of(alloc, bodies.get(), 0, integer(5), 7)
}

#[test]
fn makes_the_unit(rt: HostRuntime) -> Result<(), Fail> {
    assert!(rt; unit(rt.alloc())? == Came::Unit);
    Ok(())
}

#[test]
fn switches_go_to_the_variant(rt: HostRuntime) -> Result<(), Fail> {
    assert!(rt; none_chosen(rt.alloc())? == Came::Integer(10));
    assert!(rt; some_chosen(rt.alloc())? == Came::Integer(11));
    Ok(())
}

#[test]
fn copies_a_part_of_a_pair(rt: HostRuntime) -> Result<(), Fail> {
    assert!(rt; second_part(rt.alloc())? == Came::Integer(5));
    Ok(())
}
