//! A table-driven predictive parser (Aho, Lam, Sethi, Ullman, "Compilers", 4.4.4).
ghost use Rattle.std.specs.Prelude.{◌≡◌, ◌≤◌, false, true, [], ◌∷◌, ◌++◌, map, length, drop, reverse, IfOk, IfErr};
ghost use Rattle.grammar_tables.specs.Tables.{grammar_in, depth_in, mark_in, lists_in, matches_at};
ghost use Rattle.grammar_tables.specs.Grammar.{next_kind, is_nonempty};
ghost use Rattle.grammar_tables.specs.LL1.{IsLL1};
ghost use Rattle.grammar_tables.specs.Limits.{is_past};
ghost use Rattle.grammar_tables.specs.Parses.{ended_with};
ghost use Rattle.grammar_tables.specs.Stack.{IsRefusedAt, IsReplaced, goal_entry, is_symbol, part_of};
ghost use Rattle.grammar_tables.specs.Answers.{EndsAt, StopsAt, StopsBefore, IsParsed, IsDerived, IsParseError, IsFrontError};

use crate::symbol::{Mark, Symbol};
use crate::tables::Tables;
use std::alloc::{AllocError, Global};

/// A symbol that is expected, with the levels around it and the operators of its chain before it.
#[derive(Clone, Copy)]
pub struct Expected {
    pub symbol: Symbol,
    pub levels: u8,
    pub operators: u16,
}

impl Expected {
    fn new(symbol: Symbol, levels: u8, operators: u16) -> Self
        ensures { result ≡ record { symbol = symbol; levels = levels; operators = operators } }
    {
        Self {
            symbol,
            levels,
            operators,
        }
    }
}

/// The longest front of a text that is derived.
#[derive(Drop)]
pub struct Front {
    /// The leftmost derivation: the alternatives in the order in which nonterminals are replaced by them.
    pub derivation: Vec<u8>,
    /// The number of its tokens.
    pub length: usize,
    /// The nonterminals that ended behind its last token, the latest last.
    pub ended: Vec<u16>,
}

/// Where a text is refused.
#[derive(Drop)]
pub struct Refusal {
    /// The position of the refused token, or the number of tokens where the text ends too early.
    pub position: usize,
    /// The symbols that are expected there, the next one last.
    pub expected: Vec<Expected>,
    /// The nonterminals that ended behind the token before, the latest last.
    pub ended: Vec<u16>,
}

/// Why a text is not parsed.
#[derive(Drop)]
pub enum ParseError {
    /// A token cannot continue.
    Refused(Refusal),
    /// The token at this position opens a level too many, or is an operator too many of its chain.
    PastLimit(usize),
    NoMemory,
}

const MOST_LEVELS: u8 = 64;

const MOST_OPERATORS: u16 = 256;

/// Whether an alternative of a nonterminal with this mark, with parts or without, is one level or one operator too many
/// where so many levels are around it and so many operators of its chain before it.
fn is_past(mark: Mark, parts: bool, levels: u8, operators: u16) -> bool
    ensures { result ≡ is_past mark parts levels operators }
{
    match mark {
        Mark::Plain => false,
        Mark::Level => parts && MOST_LEVELS <= levels,
        Mark::Chain => parts && MOST_OPERATORS <= operators,
    }
}

/// Whether the symbol is the nonterminal of that number.
fn is_same(symbol: Symbol, nonterminal: u16) -> bool
    ensures { result ≡ is_symbol nonterminal symbol }
{
    match symbol {
        Symbol::Terminal(_) => false,
        Symbol::Nonterminal(other) => other == nonterminal,
    }
}

/// A part of an alternative of the nonterminal, which has this mark, where `around` is expected.
fn part_of(around: Expected, nonterminal: u16, mark: Mark, symbol: Symbol) -> Expected
    requires { is_past mark true around.levels around.operators ≡ false }
    ensures { result ≡ part_of mark nonterminal around.levels around.operators symbol }
{
    let levels = around.levels;
    let operators = around.operators;
    match mark {
        Mark::Plain => Expected::new(symbol, levels, 0),
        Mark::Level => Expected::new(symbol, levels + 1, 0),
        Mark::Chain if is_same(symbol, nonterminal) => Expected::new(symbol, levels, operators + 1),
        Mark::Chain => Expected::new(symbol, levels, 0),
    }
}

/// The parts of an alternative of the nonterminal take its place. The last one comes first.
fn push_parts(
    expected: &mut Vec<Expected>,
    around: Expected,
    nonterminal: u16,
    mark: Mark,
    parts: &[Symbol],
) -> Result<(), AllocError>
    requires { is_past mark (is_nonempty parts.now) around.levels around.operators ≡ false }
    ensures { IfOk result (λ _. expected.new.items ≡ expected.old.items ++ map (part_of mark nonterminal around.levels around.operators) parts.now) }
{
    for symbol in parts {
        expected.push(part_of(around, nonterminal, mark, *symbol))?;
    }
    Ok(())
}

/// A run of the parser.
#[derive(Drop)]
struct Run {
    /// The alternatives so far.
    derivation: Vec<u8>,
    /// The nonterminals that ended behind the last token, the latest last.
    ended: Vec<u16>,
    /// The symbols that are expected, the next one last.
    expected: Vec<Expected>,
}

impl Run {
    /// At the start the goal is expected.
    fn start(alloc: Global, goal: u16, levels: u8) -> Result<Self, AllocError>
        ensures { IfOk result (λ run. (run.derivation.items ≡ []) × (run.ended.items ≡ []) × (run.expected.items ≡ goal_entry goal levels ∷ [])) }
    {
        let mut expected = Vec::new(alloc);
        expected.push(Expected::new(Symbol::Nonterminal(goal), levels, 0))?;
        Ok(Self {
            derivation: Vec::new(alloc),
            ended: Vec::new(alloc),
            expected,
        })
    }

    /// The nonterminal that was expected is replaced by this alternative. It ended, if the alternative has no parts.
    fn replace(
        &mut self,
        around: Expected,
        nonterminal: u16,
        mark: Mark,
        alternative: u8,
        parts: &[Symbol],
    ) -> Result<(), AllocError>
        requires { is_past mark (is_nonempty parts.now) around.levels around.operators ≡ false }
        ensures { IfOk result (λ _. IsReplaced self.old self.new around nonterminal mark alternative parts.now) }
    {
        self.derivation.push(alternative)?;
        if parts.is_empty() {
            self.ended.push(nonterminal)?;
        }
        push_parts(&mut self.expected, around, nonterminal, mark, parts)
    }

    /// The refusal at that position, where the symbol is expected, and then the others.
    fn refused(mut self, next: Expected, position: usize) -> ParseError
        ensures { IsRefusedAt self.expected.items self.ended.items next position result }
    {
        match self.expected.push(next) {
            Ok(()) => ParseError::Refused(Refusal {
                position,
                expected: self.expected,
                ended: self.ended,
            }),
            Err(_) => ParseError::NoMemory,
        }
    }
}

/// The kind of the token at that position, or `None` behind the last.
fn kind_at(kinds: &[u8], position: usize) -> Option<u8>
    requires { position ≤ length kinds.now }
    ensures { result ≡ next_kind (drop position kinds.now) }
{
    if position < kinds.len() {
        Some(kinds[position])
    } else {
        None
    }
}

/// The longest front of the tokens of these kinds that the nonterminal derives, with so many levels around it; or the first
/// token that cannot continue what stands before, or that passes a limit.
pub fn parse_front(
    alloc: Global,
    tables: &Tables,
    kinds: &[u8],
    goal: u16,
    levels: u8,
) -> Result<Front, ParseError>
    requires ll1 { IsLL1 (grammar_in tables.now) (depth_in tables.now) }
    requires shallow { levels ≤ 64 }
    ensures parsed { IfOk result (λ front. IsParsed (grammar_in tables.now) (mark_in tables.now) goal levels kinds.now front) }
    ensures refused { IfErr result (λ error. IsFrontError (grammar_in tables.now) (mark_in tables.now) goal levels kinds.now error) }

    // the moves up to there
    ensures ends { IfOk result (λ front. EndsAt (grammar_in tables.now) goal kinds.now front) }
    ensures stops { IfErr result (λ error. StopsAt (grammar_in tables.now) goal kinds.now error) }
{
    let Ok(mut run) = Run::start(alloc, goal, levels) else {
        return Err(ParseError::NoMemory);
    };
    let mut position = 0;
    while let Some(next) = run.expected.pop() {
        match next.symbol {
            Symbol::Terminal(terminal) => {
                if position < kinds.len() && tables.matches(terminal, kinds[position]) {
                    run.ended.clear();
                    position += 1;
                } else {
                    return Err(run.refused(next, position));
                }
            }
            Symbol::Nonterminal(nonterminal) => {
                let Some(alternative) = tables.predict(nonterminal, kind_at(kinds, position)) else {
                    return Err(run.refused(next, position));
                };
                let mark = tables.mark(nonterminal);
                let parts = tables.body(nonterminal, alternative);
                if is_past(mark, !parts.is_empty(), next.levels, next.operators) {
                    return Err(ParseError::PastLimit(position));
                }
                if run
                    .replace(next, nonterminal, mark, alternative, parts)
                    .is_err()
                {
                    return Err(ParseError::NoMemory);
                }
            }
        }
    }
    Ok(Front {
        derivation: run.derivation,
        length: position,
        ended: run.ended,
    })
}

/// The leftmost derivation of the tokens of these kinds from the nonterminal; or the first token that cannot continue, or
/// that passes a limit.
pub fn parse(alloc: Global, tables: &Tables, kinds: &[u8], goal: u16) -> Result<Vec<u8>, ParseError>
    requires { IsLL1 (grammar_in tables.now) (depth_in tables.now) }
    ensures parsed { IfOk result (λ derivation. IsDerived (grammar_in tables.now) (mark_in tables.now) goal 0 kinds.now derivation.items) }
    ensures refused { IfErr result (λ error. IsParseError (grammar_in tables.now) (mark_in tables.now) goal 0 kinds.now error) }
    ensures stops { IfErr result (λ error. StopsBefore (grammar_in tables.now) goal kinds.now error) }
{
    let front = parse_front(alloc, tables, kinds, goal, 0)?;
    if front.length < kinds.len() {
        Err(ParseError::Refused(Refusal {
            position: front.length,
            expected: Vec::new(alloc),
            ended: front.ended,
        }))
    } else {
        Ok(front.derivation)
    }
}
