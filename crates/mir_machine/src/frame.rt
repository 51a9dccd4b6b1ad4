use crate::tree::Tree;
use logic_term::{Label, Ty};
use std::marker::Model;

/// A call that runs. Contracts see the record of specs/Frame.antt.
#[derive(Drop)]
pub struct Frame {
    /// Its function's body.
    pub function: u32,
    /// Types for the function's type parameters.
    pub types: Vec<Ty>,
    /// Where it stands in its code: a block, and the number of a statement in it. One past the last statement it stands
    /// at the block's end.
    pub label: Label,
    pub statement: usize,
    /// A tree for each local.
    pub locals: Vec<Tree>,
}

impl Model for Frame {
    ghost use Rattle.mir_machine.specs.Frame.{Frame as Record};
    ghost use Rattle.mir_machine.specs.FrameCode.{coded_frame};
    ghost use Rattle.logic_term.specs.TyView.{tys_of};

    ghost Value = { Record (Unit {0}) };

    ghost coded = { coded_frame };

    ghost view = { λ f. record { function = f.function; types = tys_of f.types.items; label = f.label; statement = f.statement; locals = f.locals.items } };
}

/// The frames of a machine. Frame 0 is the outside, which holds trees and runs nothing. Contracts see the list of the
/// frames, the running one first.
#[derive(Drop)]
pub struct State {
    /// The last call that has not returned; the outside, where each has.
    pub running: Frame,
    /// The frames behind it, frame 0 first.
    pub behind: Vec<Frame>,
}

impl Model for State {
    ghost use Rattle.mir_machine.specs.Frame.{State as Frames};
    ghost use Rattle.mir_machine.specs.FrameCode.{coded_frame};
    ghost use Rattle.std.specs.Coded.{coded_list};
    ghost use Rattle.std.specs.Prelude.{◌∷◌, reverse};

    ghost Value = { Frames (Unit {0}) };

    ghost coded = { coded_list coded_frame };

    ghost view = { λ s. s.running ∷ reverse s.behind.items };
}
