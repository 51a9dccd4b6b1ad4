use crate::closure::ClosureDecl;
use crate::place::Place;
use crate::statement::Statement;
use crate::terminator::{Callee, FnId, Terminator};
use logic_term::{AdtDecl, Bounds, Contract, Label, Region, Term, TraitId, Ty};
use std::alloc::Global;
use text_core::{Items, Name, Span, Text};

/// The head of a loop: the loop's invariants, over the names of the locals, and the span of each.
#[derive(Drop)]
pub struct Head {
    pub invariants: Items<Term>,
    pub spans: Items<Span>,
}

#[derive(Drop)]
pub struct Block {
    /// `Some` exactly where the block is the head of a loop.
    pub head: Option<Head>,
    /// The heads of the loops around the block, the outermost first. Where the block is a head, its own label is the last.
    pub nest: Items<Label>,
    pub statements: Items<Statement>,
    pub end: Terminator,
}

/// A place in the code of a body: a block, and the number of a statement in it, from 0. One past the last statement is the
/// block's end.
#[derive(Clone, Copy)]
pub struct Point {
    pub label: Label,
    pub statement: u32,
}

/// The types of what is called, over its type parameters and lifetimes.
#[derive(Drop)]
pub struct Signature {
    pub params: Items<Ty>,
    pub result: Ty,
    /// The declared bounds of lifetimes: the first outlives the second.
    pub outlives: Items<(Region, Region)>,
}

/// The code of a function. Local 0 is the answer; then come the parameters, then all others. There is one name for each
/// local.
#[derive(Drop)]
pub struct Body {
    /// Its place in the list of bodies.
    pub id: u32,
    /// The function, as the report spells it.
    pub owner: Text,
    /// The type parameters, with what each must meet.
    pub types: Items<(Name, Bounds)>,
    pub params: u32,
    pub locals: Items<Ty>,
    pub names: Items<Name>,
    /// The declared bounds of lifetimes: the first outlives the second.
    pub outlives: Items<(Region, Region)>,
    /// The types of what is called, for each block that ends in a call.
    pub calls: Items<(Label, Signature)>,
    pub entry: Label,
    /// The first block of a label counts.
    pub blocks: Items<(Label, Block)>,
    pub span: Span,
    /// Where the type of the answer is written, and then those of the parameters.
    pub types_at: Items<Span>,
}

impl Body {
    ghost use Rattle.std.specs.Prelude.{◌≡◌};
    ghost use Rattle.std.specs.Option.{option_copied};
    ghost use Rattle.mir_ir.specs.Body.{block_in};

    /// The block of a label; `None` exactly where the body has none.
    pub fn block(&self, label: Label) -> Option<&Block>
        ensures { option_copied result ≡ block_in self.now.blocks label }
    {
        for entry in self.blocks.as_slice() {
            if entry.0.0 == label.0 {
                return Some(&entry.1);
            }
        }
        None
    }
}

/// The methods of an impl of a trait for a type, in the order of the trait's.
#[derive(Drop)]
pub struct ImplBody {
    pub tr: TraitId,
    pub target: Ty,
    pub methods: Items<FnId>,
}

/// The bodies of a program, with what their types and calls are looked up in.
#[derive(Drop)]
pub struct Bodies {
    pub bodies: Items<Body>,
    /// The declared types.
    pub decls: Items<AdtDecl>,
    pub impls: Items<ImplBody>,
    /// The body of each closure, by the closure's number.
    pub closures: Items<FnId>,
}

impl Bodies {
    ghost use Rattle.std.specs.Prelude.{◌≡◌};
    ghost use Rattle.mir_ir.specs.Callees.{callee_of};

    /// The number of the body that a call runs; `None` exactly where the callee has none.
    pub fn callee_of(&self, callee: Callee) -> Option<u32>
        ensures { result ≡ callee_of self.now callee }
    {
        let Callee::Function(FnId::Body(number)) = callee;
        Some(number)
    }
}

/// The contracts of a program, by which calls are reasoned about.
#[derive(Drop)]
pub struct Contracts {
    /// One for each body.
    pub of: Items<Contract>,
    /// For each trait one for each of its methods.
    pub traits: Items<Items<Contract>>,
    /// The closures, each with its contract.
    pub closures: Items<ClosureDecl>,
    /// Those of library functions, by their numbers.
    pub intrinsics: Items<Contract>,
}

/// For points of a body, the places that may be gone there: those that were moved or never written on some way to the point.
#[derive(Drop)]
pub struct Initialised {
    pub gone: Items<(Point, Items<Place>)>,
}

/// The places whose references end with the values that they have: at the entry of a body, just before a point, and along an edge from
/// a point to another.
#[derive(Drop)]
pub struct Resolves {
    pub entry: Items<Place>,
    pub before: Items<(Point, Place)>,
    pub edges: Items<(Point, Point, Items<Place>)>,
}

impl Resolves {
    ghost use Rattle.std.specs.Prelude.{◌≡◌};
    ghost use Rattle.mir_ir.specs.Body.{no_resolves};

    /// No places, as in a body without references. Takes no memory.
    pub fn none(alloc: Global) -> Resolves
        ensures { result ≡ no_resolves }
    {
        Resolves {
            entry: Items::new(alloc),
            before: Items::new(alloc),
            edges: Items::new(alloc),
        }
    }
}
