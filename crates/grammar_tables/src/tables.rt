//! The tables of a grammar: the bodies of its alternatives, and the table of a predictive parser.
ghost use Rattle.std.specs.Prelude.{◌≡◌, ◌<◌};
ghost use Rattle.grammar_tables.specs.Tables.{prediction_at, column_of, body_at, lists_in, matches_at, mark_in};

use crate::symbol::{Mark, Symbol};

/// Where the body of an alternative stands among the symbols.
#[derive(Clone, Copy)]
pub struct BodyRange {
    pub from: u16,
    pub to: u16,
}

/// The tables of a grammar.
#[derive(Clone, Copy)]
pub struct Tables<'a> {
    /// The bodies of the alternatives, each with its last symbol first.
    pub symbols: &'a [Symbol],
    /// Where the body of each alternative of each nonterminal stands.
    pub bodies: &'a [BodyRange],
    /// For each nonterminal the number of its first alternative among all, and then how many there are.
    pub offsets: &'a [u16],
    /// For each nonterminal the alternative that each of 128 kinds predicts, or 255 where there is none; the last kind is
    /// the end of the text.
    pub predictions: &'a [u8],
    /// For each nonterminal a number above those of the nonterminals that begin its alternatives.
    pub depths: &'a [u8],
    /// For each class of kinds whether each of 128 kinds is in it. The first class is the terminal 128.
    pub members: &'a [bool],
    /// What counts at each nonterminal towards a limit.
    pub marks: &'a [Mark],
}

/// The column of a kind, or of the end of the text.
fn column(next: Option<u8>) -> u8
    ensures value { result ≡ column_of next }
    ensures bound { result < 128 }
{
    match next {
        None => 127,
        Some(kind) => { if kind < 126 { kind } else { 126 } }
    }
}

impl<'a> Tables<'a> {
    /// Whether the terminal stands for tokens of the kind.
    pub fn matches(&self, terminal: u8, kind: u8) -> bool
        ensures { result ≡ matches_at (lists_in self.now) terminal kind }
    {
        if terminal < 128 {
            kind == terminal
        } else if kind < 128 {
            let cell = (terminal as usize - 128) * 128 + kind as usize;
            cell < self.members.len() && self.members[cell]
        } else {
            false
        }
    }

    /// What counts at the nonterminal.
    #[tactic(auto, unfolding(crate::specs::Tables::mark_in))]
    pub fn mark(&self, nonterminal: u16) -> Mark
        ensures { result ≡ mark_in self.now nonterminal }
    {
        let nonterminal = nonterminal as usize;
        if nonterminal < self.marks.len() {
            self.marks[nonterminal]
        } else {
            Mark::Plain
        }
    }

    /// The alternative of the nonterminal that the next token predicts.
    pub fn predict(&self, nonterminal: u16, next: Option<u8>) -> Option<u8>
        ensures { result ≡ prediction_at (lists_in self.now) nonterminal (column_of next) }
    {
        let index = nonterminal as usize * 128 + column(next) as usize;
        if index < self.predictions.len() {
            let alternative = self.predictions[index];
            if alternative < 255 {
                Some(alternative)
            } else {
                None
            }
        } else {
            None
        }
    }

    /// The body of the alternative, its last symbol first.
    pub fn body(&self, nonterminal: u16, alternative: u8) -> &'a [Symbol]
        ensures { result.now ≡ body_at (lists_in self.now) nonterminal alternative }
    {
        let symbols = self.symbols;
        let offsets = self.offsets;
        let after = nonterminal as usize + 1;
        if after < offsets.len() {
            let index = offsets[nonterminal as usize] as usize + alternative as usize;
            if index < offsets[after] as usize && index < self.bodies.len() {
                let index = self.bodies[index];
                let from = index.from as usize;
                let to = index.to as usize;
                if from <= to && to <= symbols.len() {
                    &symbols[from..to]
                } else {
                    &symbols[..0]
                }
            } else {
                &symbols[..0]
            }
        } else {
            &symbols[..0]
        }
    }
}
