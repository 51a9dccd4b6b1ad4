//! The text of a body that is built so far.
ghost use Rattle.std.specs.Prelude.{◌≡◌, ◌+◌, ◌<◌, ◌≤◌, ◌∷◌, ◌++◌, [], None, length, map, IfOk, IfErr, OnOk};
ghost use Rattle.mir_build.specs.Text.{Puts, Makes, Turns, Leaves, Owns};
ghost use Rattle.mir_build.specs.Lowering.{whole, moved, ends, puts_at, puts, put_unit, constant, dies, at, entry_title};
ghost use Rattle.mir_build.specs.Numbered.{between, label};
ghost use Rattle.mir_build.specs.Built.{written, started, block_with, ended, around};
ghost use Rattle.mir_build.specs.declared.stop.Stop.TheVariants.{Blocks};
ghost use Rattle.mir_ir.specs.declared.terminator.TerminatorKind.TheVariants.{Goto};

use crate::around::{Around, nest};
use crate::stop::Stop;
use logic_term::{Ctor, Label, Ty};
use mir_ir::{
    Block, Head, Lit, Operand, Place, Point, Rvalue, Statement, StatementKind, Terminator,
    TerminatorKind,
};
use std::alloc::Global;
use std::mem;
use text_core::{Items, NoMemory, Span};

/// A block whose end is not known yet.
#[derive(Drop)]
pub(crate) struct OpenBlock {
    pub(crate) label: Label,
    pub(crate) nest: Items<Label>,
    pub(crate) head: Option<Head>,
    pub(crate) statements: Items<Statement>,
}

/// Where statements go.
#[derive(Drop)]
pub(crate) enum Front {
    Block(OpenBlock),
    /// Behind what leaves: what stands here is in no block.
    Nowhere,
}

/// The closed blocks and the open one; the types of the locals, by number; and what may be gone at the heads of loops.
#[derive(Drop)]
pub(crate) struct BodyText {
    pub(crate) blocks: Items<(Label, Block)>,
    pub(crate) front: Front,
    pub(crate) locals: Items<Ty>,
    pub(crate) gone: Items<(Point, Items<Place>)>,
}

impl OpenBlock {
    /// The block with its end.
    pub(crate) fn close(self, end: Terminator) -> (Label, Block)
        ensures { result ≡ block_with self end }
    {
        let OpenBlock {
            label,
            nest,
            head,
            statements,
        } = self;
        let block = Block {
            head,
            nest,
            statements,
            end,
        };
        (label, block)
    }
}

impl Front {
    /// Puts the open block, with its end, behind the others.
    fn close(self, end: Terminator, blocks: &mut Items<(Label, Block)>) -> Result<(), NoMemory>
        ensures { OnOk result (blocks.new ≡ blocks.old ++ ended self end) }
    {
        match self {
            Front::Block(block) => blocks.push(block.close(end)),
            Front::Nowhere => {
                drop(end);
                Ok(())
            }
        }
    }
}

impl BodyText {
    /// Nothing but these locals, and the first block, which is open.
    pub(crate) fn start(alloc: Global, entry: Label, locals: Items<Ty>) -> BodyText
        ensures { result ≡ started (entry_title entry) locals }
    {
        BodyText {
            blocks: Items::new(alloc),
            front: Front::Block(OpenBlock {
                label: entry,
                nest: Items::new(alloc),
                head: None,
                statements: Items::new(alloc),
            }),
            locals,
            gone: Items::new(alloc),
        }
    }

    pub(crate) fn put(&mut self, statement: Statement) -> Result<(), NoMemory>
        ensures { OnOk result (self.new ≡ written (Puts statement ∷ []) self.old) }
    {
        match &mut self.front {
            Front::Block(block) => block.statements.push(statement),
            Front::Nowhere => {
                drop(statement);
                Ok(())
            }
        }
    }

    /// A new local of the type.
    pub(crate) fn make(&mut self, ty: Ty) -> Result<u32, NoMemory>
        ensures number { IfOk result (λ n. n ≡ length self.old.locals) }
        ensures text { IfOk result (λ n. self.new ≡ written (Makes n ty ∷ []) self.old) }
    {
        let Ok(number) = u32::try_from(self.locals.len()) else {
            return Err(NoMemory);
        };
        self.locals.push(ty)?;
        Ok(number)
    }

    /// Closes the open block, and opens the next one.
    pub(crate) fn turn(
        &mut self,
        alloc: Global,
        end: Terminator,
        label: Label,
        nest: Items<Label>,
        head: Option<Head>,
    ) -> Result<(), NoMemory>
        ensures { OnOk result (self.new ≡ written (Turns end (record { label = label; nest = nest; head = head }) ∷ []) self.old) }
    {
        let next = OpenBlock {
            label,
            nest,
            head,
            statements: Items::new(alloc),
        };
        let done = mem::replace(&mut self.front, Front::Block(next));
        done.close(end, &mut self.blocks)
    }

    /// Closes the open block, and opens none.
    pub(crate) fn leave(&mut self, end: Terminator) -> Result<(), NoMemory>
        ensures { OnOk result (self.new ≡ written (Leaves end ∷ []) self.old) }
    {
        let done = mem::replace(&mut self.front, Front::Nowhere);
        done.close(end, &mut self.blocks)
    }

    /// At the head the locals from the first on hold nothing.
    pub(crate) fn own(&mut self, alloc: Global, head: Label, first: u32) -> Result<(), NoMemory>
        ensures { OnOk result (self.new ≡ written (Owns head (between first (length self.old.locals)) ∷ []) self.old) }
    {
        let places = places(alloc, first, self.locals.len())?;
        let point = Point {
            label: head,
            statement: 0,
        };
        self.gone.push((point, places))
    }
}

pub(crate) fn whole(alloc: Global, x: u32) -> Place
    ensures { result ≡ whole x }
{
    Place {
        local: x,
        path: Items::new(alloc),
    }
}

pub(crate) fn moved(alloc: Global, x: u32) -> Operand
    ensures { result ≡ moved x }
{
    Operand::Move(whole(alloc, x))
}

/// The locals from the first up to the last, which is none of them. Want of memory is answered too where a number would pass 32 bits.
fn places(alloc: Global, first: u32, last: usize) -> Result<Items<Place>, NoMemory>
    ensures { IfOk result (λ v. v ≡ map whole (between first last)) }
{
    let Ok(end) = u32::try_from(last) else {
        return Err(NoMemory);
    };
    let mut all = Items::new(alloc);
    for x in first..end {
        all.push(whole(alloc, x))?;
    }
    Ok(all)
}

/// The most blocks of a body.
pub(crate) const MOST_BLOCKS: u32 = 4096;

/// A body that is being lowered: its text so far, and the next label.
#[derive(Drop)]
pub(crate) struct Builder {
    pub(crate) text: BodyText,
    pub(crate) labels: u32,
}

impl Builder {
    /// The first of so many new labels.
    pub(crate) fn take_labels(&mut self, count: u32) -> Result<u32, Stop>
        ensures first { IfOk result (λ n. n ≡ self.old.labels) }
        ensures labels { OnOk result (self.new.labels ≡ self.old.labels + count) }
        ensures fits { OnOk result (self.old.labels + count ≤ 4096) }
        ensures most { OnOk result (self.new.labels ≤ 4096) }
        ensures limit { IfErr result (λ e. e ≡ Blocks → 4096 < self.old.labels + count) }
        ensures text { self.new.text ≡ self.old.text }
    {
        let first = self.labels;
        if count > MOST_BLOCKS || first > MOST_BLOCKS - count {
            return Err(Stop::Blocks);
        }
        self.labels = first + count;
        Ok(first)
    }

    /// A new local of the type.
    pub(crate) fn make(&mut self, alloc: Global, ty: &Ty) -> Result<u32, NoMemory>
        ensures number { IfOk result (λ n. n ≡ length self.old.text.locals) }
        ensures text { IfOk result (λ n. self.new.text ≡ written (Makes n ty.now ∷ []) self.old.text) }
        ensures locals { OnOk result (length self.new.text.locals ≡ length self.old.text.locals + 1) }
        ensures labels { self.new.labels ≡ self.old.labels }
    {
        let ty = ty.copy(alloc)?;
        self.text.make(ty)
    }

    /// Writes the value to the place.
    pub(crate) fn put_at(&mut self, span: Span, place: Place, value: Rvalue) -> Result<(), NoMemory>
        ensures text { OnOk result (self.new.text ≡ written (puts_at span place value ∷ []) self.old.text) }
        ensures locals { OnOk result (length self.new.text.locals ≡ length self.old.text.locals) }
        ensures labels { self.new.labels ≡ self.old.labels }
    {
        let kind = StatementKind::Assign(place, value);
        self.text.put(Statement { span, kind })
    }

    /// Writes the value to the local.
    pub(crate) fn put(
        &mut self,
        alloc: Global,
        span: Span,
        x: u32,
        value: Rvalue,
    ) -> Result<(), NoMemory>
        ensures text { OnOk result (self.new.text ≡ written (puts span x value ∷ []) self.old.text) }
        ensures locals { OnOk result (length self.new.text.locals ≡ length self.old.text.locals) }
        ensures labels { self.new.labels ≡ self.old.labels }
    {
        self.put_at(span, whole(alloc, x), value)
    }

    pub(crate) fn put_constant(
        &mut self,
        alloc: Global,
        span: Span,
        x: u32,
        value: Lit,
    ) -> Result<(), NoMemory>
        ensures text { OnOk result (self.new.text ≡ written (constant span x value ∷ []) self.old.text) }
        ensures locals { OnOk result (length self.new.text.locals ≡ length self.old.text.locals) }
        ensures labels { self.new.labels ≡ self.old.labels }
    {
        self.put(alloc, span, x, Rvalue::Use(Operand::Const(value)))
    }

    /// Writes the unit to the local.
    pub(crate) fn put_unit(&mut self, alloc: Global, span: Span, x: u32) -> Result<(), NoMemory>
        ensures text { OnOk result (self.new.text ≡ written (put_unit span x ∷ []) self.old.text) }
        ensures locals { OnOk result (length self.new.text.locals ≡ length self.old.text.locals) }
        ensures labels { self.new.labels ≡ self.old.labels }
    {
        self.put(alloc, span, x, Rvalue::Make(Ctor::Tuple, Items::new(alloc)))
    }

    /// The local holds nothing from here on.
    pub(crate) fn kill(&mut self, span: Span, x: u32) -> Result<(), NoMemory>
        ensures text { OnOk result (self.new.text ≡ written (dies span x ∷ []) self.old.text) }
        ensures locals { OnOk result (length self.new.text.locals ≡ length self.old.text.locals) }
        ensures labels { self.new.labels ≡ self.old.labels }
    {
        let kind = StatementKind::Dead(x);
        self.text.put(Statement { span, kind })
    }

    /// Closes the open block, and opens the one of the label, which is the head of no loop.
    pub(crate) fn turn(
        &mut self,
        alloc: Global,
        c: &Around<'_>,
        span: Span,
        kind: TerminatorKind,
        next: u32,
    ) -> Result<(), NoMemory>
        ensures text { OnOk result (self.new.text ≡ written (Turns (ends span kind) (at (around c.now) (label next)) ∷ []) self.old.text) }
        ensures locals { OnOk result (length self.new.text.locals ≡ length self.old.text.locals) }
        ensures labels { self.new.labels ≡ self.old.labels }
    {
        let nest = nest(alloc, c)?;
        let end = Terminator { span, kind };
        self.text.turn(alloc, end, Label(next), nest, None)
    }

    /// The same, by an edge that is always taken.
    pub(crate) fn go(
        &mut self,
        alloc: Global,
        c: &Around<'_>,
        span: Span,
        to: u32,
        next: u32,
    ) -> Result<(), NoMemory>
        ensures text { OnOk result (self.new.text ≡ written (Turns (ends span (Goto (label to))) (at (around c.now) (label next)) ∷ []) self.old.text) }
        ensures locals { OnOk result (length self.new.text.locals ≡ length self.old.text.locals) }
        ensures labels { self.new.labels ≡ self.old.labels }
    {
        self.turn(alloc, c, span, TerminatorKind::Goto(Label(to)), next)
    }

    /// Closes the open block, and opens none.
    pub(crate) fn leave(&mut self, span: Span, kind: TerminatorKind) -> Result<(), NoMemory>
        ensures text { OnOk result (self.new.text ≡ written (Leaves (ends span kind) ∷ []) self.old.text) }
        ensures locals { OnOk result (length self.new.text.locals ≡ length self.old.text.locals) }
        ensures labels { self.new.labels ≡ self.old.labels }
    {
        self.text.leave(Terminator { span, kind })
    }

    /// At the head the locals from the first on hold nothing.
    pub(crate) fn own(&mut self, alloc: Global, head: u32, first: u32) -> Result<(), NoMemory>
        ensures text { OnOk result (self.new.text ≡ written (Owns (label head) (between first (length self.old.text.locals)) ∷ []) self.old.text) }
        ensures locals { OnOk result (length self.new.text.locals ≡ length self.old.text.locals) }
        ensures labels { self.new.labels ≡ self.old.labels }
    {
        self.text.own(alloc, Label(head), first)
    }
}
