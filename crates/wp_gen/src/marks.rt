//! Marks of locals: what a loop writes, and what may be gone at its head, each found in one pass.
ghost use Rattle.std.specs.Prelude.{◌≡◌, ◌==◌, ◌&&◌, ◌++◌, length, false, IfOk};
ghost use Rattle.std.specs.List.{list_any};
ghost use Rattle.mir_ir.specs.Acts.{acts_of_operand, acts_of_operands, acts_of_rvalue, acts_of, acts_of_end, acts_along};
ghost use Rattle.prophecy_logic.specs.Loop.{is_in_loop, one_touches, statement_touches, block_writes, loop_writes, is_whole, is_gone};
ghost use Rattle.wp_gen.specs.Marks.{AreMarks, AddsMarks, AddsTouched};

use crate::head::among;
use logic_term::Label;
use mir_ir::{
    Block, Body, Initialised, Operand, Place, Point, Rvalue, Statement, StatementKind,
    TerminatorKind,
};
use std::alloc::Global;
use text_core::{Items, NoMemory};

/// No local is marked.
#[tactic(auto, using(crate::proofs::MarkLaws::last_false))]
fn no_marks(alloc: Global, count: usize) -> Result<Vec<bool>, NoMemory>
    ensures { IfOk result (λ v. AreMarks count (λ x. false) v.items) }
{
    let mut marks = Vec::with_capacity(alloc, count)?;
    for _ in 0..count {
        marks.push(false)?;
    }
    Ok(marks)
}

/// Marks the local.
fn mark(marks: &mut [bool], local: u32)
    ensures { AddsMarks (λ x. local == x) marks.old marks.new }
{
    let place = local as usize;
    if place >= marks.len() {
        return;
    }
    marks[place] = true;
}

// ---- what a loop writes

/// Marks the local that the operand moves out of.
fn mark_operand(marks: &mut [bool], operand: &Operand)
    ensures { AddsTouched (acts_of_operand operand.now) marks.old marks.new }
{
    match operand {
        Operand::Move(place) => mark(marks, place.local),
        Operand::Copy(_) => {}
        Operand::Const(_) => {}
    }
}

fn mark_operands(marks: &mut [bool], operands: &[Operand])
    ensures { AddsTouched (acts_of_operands operands.now) marks.old marks.new }
{
    for operand in operands {
        mark_operand(marks, operand);
    }
}

fn mark_rvalue(marks: &mut [bool], rvalue: &Rvalue)
    ensures { AddsTouched (acts_of_rvalue rvalue.now) marks.old marks.new }
{
    match rvalue {
        Rvalue::Use(operand) => mark_operand(marks, operand),
        Rvalue::Binary(_, left, right) => {
            mark_operand(marks, left);
            mark_operand(marks, right);
        }
        Rvalue::Neg(operand) => mark_operand(marks, operand),
        Rvalue::Not(operand) => mark_operand(marks, operand),
        Rvalue::Widen(operand, _) => mark_operand(marks, operand),
        Rvalue::Make(_, operands) => mark_operands(marks, operands.as_slice()),
        Rvalue::BoxNew(operand) => mark_operand(marks, operand),
    }
}

fn mark_statement(marks: &mut [bool], statement: &Statement)
    ensures { AddsTouched (acts_of statement.now.kind) marks.old marks.new }
{
    match &statement.kind {
        StatementKind::Assign(place, rvalue) => {
            mark_rvalue(marks, rvalue);
            mark(marks, place.local);
        }
        StatementKind::Dead(_) => {}
    }
}

fn mark_end(marks: &mut [bool], end: &TerminatorKind)
    ensures { AddsTouched (acts_of_end end.now ++ acts_along end.now) marks.old marks.new }
{
    match end {
        TerminatorKind::Call(place, _, _, args, _) => {
            mark_operands(marks, args.as_slice());
            mark(marks, place.local);
        }
        TerminatorKind::Goto(_) => {}
        TerminatorKind::Panic(_) => {}
        TerminatorKind::Switch(_, _) => {}
        TerminatorKind::If(condition, _, _) => mark_operand(marks, condition),
        // the answer is moved out of local 0
        TerminatorKind::Return => mark(marks, 0),
    }
}

fn mark_statements(marks: &mut [bool], statements: &[Statement])
    ensures { AddsMarks (λ x. list_any (λ st. statement_touches x st.kind) statements.now) marks.old marks.new }
{
    for statement in statements {
        mark_statement(marks, statement);
    }
}

fn mark_block(marks: &mut [bool], block: &Block)
    ensures { AddsMarks (λ x. block_writes x block.now) marks.old marks.new }
{
    mark_statements(marks, block.statements.as_slice());
    mark_end(marks, &block.end.kind);
}

/// Marks what the block writes, if it belongs to the loop of the head.
fn mark_if_inside(marks: &mut [bool], head: Label, block: &Block)
    ensures { AddsMarks (λ x. is_in_loop head block.now && block_writes x block.now) marks.old marks.new }
{
    if among(head, block.nest.as_slice()) {
        mark_block(marks, block);
    }
}

fn mark_loop(marks: &mut [bool], body: &Body, head: Label)
    ensures { AddsMarks (loop_writes body.now head) marks.old marks.new }
{
    for entry in body.blocks.as_slice() {
        mark_if_inside(marks, head, &entry.1);
    }
}

/// The locals that some block of the loop of the head writes or moves out of.
pub(crate) fn written_marks(alloc: Global, body: &Body, head: Label) -> Result<Vec<bool>, NoMemory>
    ensures { IfOk result (λ v. AreMarks (length body.now.locals) (loop_writes body.now head) v.items) }
{
    let mut marks = no_marks(alloc, body.locals.len())?;
    mark_loop(marks.as_mut_slice(), body, head);
    Ok(marks)
}

// ---- what may be gone

fn is_point(label: Label, point: Point) -> bool
    ensures { result ≡ (point.label.0 == label.0 && point.statement == 0) }
{
    point.label.0 == label.0 && point.statement == 0
}

/// Marks the local that the place is the whole of.
fn mark_whole(marks: &mut [bool], place: &Place)
    ensures { AddsMarks (λ x. is_whole x place.now) marks.old marks.new }
{
    if place.path.len() == 0 {
        mark(marks, place.local);
    }
}

fn mark_wholes(marks: &mut [bool], places: &[Place])
    ensures { AddsMarks (λ x. list_any (is_whole x) places.now) marks.old marks.new }
{
    for place in places {
        mark_whole(marks, place);
    }
}

/// Marks what may be gone at the point, if it is where the block of the label begins.
fn mark_if_here(marks: &mut [bool], label: Label, point: Point, places: &Items<Place>)
    ensures { AddsMarks (λ x. (point.label.0 == label.0 && point.statement == 0) && list_any (is_whole x) places.now) marks.old marks.new }
{
    if is_point(label, point) {
        mark_wholes(marks, places.as_slice());
    }
}

fn mark_gone(marks: &mut [bool], init: &Initialised, label: Label)
    ensures { AddsMarks (is_gone init.now label) marks.old marks.new }
{
    for entry in init.gone.as_slice() {
        mark_if_here(marks, label, entry.0, &entry.1);
    }
}

/// The locals that may be wholly gone where the block of the label begins.
pub(crate) fn gone_marks(
    alloc: Global,
    body: &Body,
    init: &Initialised,
    label: Label,
) -> Result<Vec<bool>, NoMemory>
    ensures { IfOk result (λ v. AreMarks (length body.now.locals) (is_gone init.now label) v.items) }
{
    let mut marks = no_marks(alloc, body.locals.len())?;
    mark_gone(marks.as_mut_slice(), init, label);
    Ok(marks)
}
