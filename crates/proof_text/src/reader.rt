ghost use Rattle.std.specs.Prelude.{◌≡◌, ℕ, ◌+◌, ◌^◌, ◌<◌, ◌≤◌, ◌==◌, List, [], ◌∷◌, ◌++◌, length, map, codes, IfOk, OnOk, IsOk, IsErrOf, ◌⊎◌};
ghost use Rattle.std.specs.List.{slice_split};
ghost use Rattle.std.specs.Str.{bytes_eq};
ghost use Rattle.proof_text.specs.ProofTextWords.{Each};
ghost use Rattle.proof_text.specs.ProofTextLines.{SpellsStep, NamesTexts};
ghost use Rattle.proof_text.specs.ProofFileForm.{LinesName, IsFileOf, SpellsProofs, HasNamesOf, IsFirstBadLine};
ghost use Rattle.proof_text.specs.ProofTextFile.{ProofText, IsProofOf, State, start, is_proved, state_after, next_state, state_after_all, proofs_at_end, proofs_of_pieces};
ghost use Rattle.proof_text.specs.ProofTextFile.{Line as LineKind, heading, step as a_step, «end»};
ghost use Rattle.proof_text.specs.declared.proof.Proof.{Proof as OneProof};
ghost use Rattle.proof_text.specs.ProofTextReads.{Reads, ReadsLines, KeepsNames, GivesTexts, IsLineOf, IsStageOf, is_start, total_length};

use crate::fault::{Fault, ProofTextError};
use crate::line::{Line, read_line};
use crate::proof::{NumberedStep, Proof, ProofFile};
use crate::table::ProofTable;
use proof_kernel::Step;
use std::alloc::Global;
use text_core::{Items, Names, NoMemory, Text};

/// The first line.
const HEADER: &[u8] = b"creusot-proofs 1";

fn is_header(text: &[u8]) -> bool
    ensures { result ≡ bytes_eq text.now (codes "creusot-proofs 1") }
{
    text == HEADER
}

/// A proof of which the `end` has not come.
#[derive(Drop)]
pub(crate) struct OpenProof<'a> {
    number: u32,
    owner: &'a str,
    steps: Vec<NumberedStep>,
}

/// Where the file stands between two lines, with the proofs so far.
#[derive(Drop)]
pub(crate) enum Stage<'a> {
    Start,
    Between(ProofTable<'a>),
    Within(ProofTable<'a>, OpenProof<'a>),
}

/// Whether there is a proof of this obligation.
fn is_proved<'a>(number: u32, owner: &'a str, proofs: &ProofTable<'a>) -> bool
    ensures { (table : List (List ℕ)) (said : List ProofText) → Each (IsProofOf table) said proofs.now → result ≡ is_proved number owner.now said }
{
    proofs.has(number, owner)
}

/// Where the file stands after the head of a proof.
fn opened<'a>(
    alloc: Global,
    stage: Stage<'a>,
    number: u32,
    owner: &'a str,
) -> Result<Stage<'a>, Fault>
    ensures { (table : List (List ℕ)) (s : State) (n : ℕ) (text : List ℕ) → IsStageOf table s stage.entry → Reads (IsStageOf table) result (state_after s n text (heading number owner.now)) }
{
    match stage {
        Stage::Between(proofs) => {
            if is_proved(number, owner, &proofs) {
                return Err(Fault::Bad);
            }
            let steps = Vec::new(alloc);
            Ok(Stage::Within(
                proofs,
                OpenProof {
                    number,
                    owner,
                    steps,
                },
            ))
        }
        Stage::Start => Err(Fault::Bad),
        Stage::Within(_proofs, _opened) => Err(Fault::Bad),
    }
}

/// The proof with one more step.
fn with_more<'a>(opened: OpenProof<'a>, line: u32, step: Step) -> Result<OpenProof<'a>, Fault>
    ensures same { IfOk result (λ more. (more.number ≡ opened.entry.number) × (more.owner.now ≡ opened.entry.owner.now)) }
    ensures steps { IfOk result (λ more. more.steps.items ≡ opened.entry.steps.items ++ record { line = line; step = step } ∷ []) }
    ensures good { IsErrOf result Fault.Bad → ⊥ }
{
    let mut opened = opened;
    opened.steps.push(NumberedStep { line, step })?;
    Ok(opened)
}

/// The whole proof.
fn ended(alloc: Global, opened: OpenProof<'_>, end: u32) -> Result<Proof, Fault>
    ensures same { IfOk result (λ proof. (proof.number ≡ opened.entry.number) × (proof.owner ≡ opened.entry.owner.now) × (proof.steps ≡ opened.entry.steps.items) × (proof.«end» ≡ end)) }
    ensures good { IsErrOf result Fault.Bad → ⊥ }
{
    let owner = Text::from_bytes(alloc, opened.owner.as_bytes())?;
    let OpenProof {
        number,
        owner: _owner,
        steps,
    } = opened;
    let steps = Items::from_vec(steps);
    Ok(Proof {
        number,
        owner,
        steps,
        end,
    })
}

/// Where the file stands after a step.
fn with_step<'a>(stage: Stage<'a>, line: u32, step: Step) -> Result<Stage<'a>, Fault>
    ensures { (table : List (List ℕ)) (s : State) (text : List ℕ) → IsStageOf table s stage.entry → SpellsStep table text step → Reads (IsStageOf table) result (state_after s line text a_step) }
{
    match stage {
        Stage::Within(proofs, opened) => {
            let opened = with_more(opened, line, step)?;
            Ok(Stage::Within(proofs, opened))
        }
        Stage::Start => Err(Fault::Bad),
        Stage::Between(_proofs) => Err(Fault::Bad),
    }
}

/// Where the file stands after the end of a proof.
fn closed<'a>(alloc: Global, stage: Stage<'a>, line: u32) -> Result<Stage<'a>, Fault>
    ensures { (table : List (List ℕ)) (s : State) (text : List ℕ) → IsStageOf table s stage.entry → Reads (IsStageOf table) result (state_after s line text «end») }
{
    match stage {
        Stage::Within(proofs, opened) => {
            let owner = opened.owner;
            let proof = ended(alloc, opened, line)?;
            let more = proofs.with(proof, owner)?;
            Ok(Stage::Between(more))
        }
        Stage::Start => Err(Fault::Bad),
        Stage::Between(_proofs) => Err(Fault::Bad),
    }
}

/// Where the file stands after a line.
fn after<'a>(
    alloc: Global,
    stage: Stage<'a>,
    number: u32,
    line: Line<'a>,
) -> Result<Stage<'a>, Fault>
    ensures { (table : List (List ℕ)) (s : State) (text : List ℕ) (said : LineKind) → IsStageOf table s stage.entry → IsLineOf table text said line.entry → Reads (IsStageOf table) result (state_after s number text said) }
{
    match line {
        Line::Passed => Ok(stage),
        Line::Heading(number, owner) => opened(alloc, stage, number, owner),
        Line::Step(step) => with_step(stage, number, step),
        Line::End => closed(alloc, stage, number),
    }
}

fn is_start(stage: &Stage<'_>) -> bool
    ensures { result ≡ is_start stage.now }
{
    match stage {
        Stage::Start => true,
        Stage::Between(_) => false,
        Stage::Within(_, _) => false,
    }
}

/// Where the file stands after a line of this text.
fn next<'a>(
    alloc: Global,
    stage: Stage<'a>,
    number: u32,
    text: &'a [u8],
    names: &mut Names,
) -> Result<Stage<'a>, Fault>
    requires { length names.old + length text.now + 1 < 2 ^ 32 }
    ensures said { (s : State) → IsStageOf names.old s stage.entry → Reads (IsStageOf names.new) result (next_state s number text.now) }
    ensures table { OnOk result (GivesTexts (NamesTexts text.now) names.old names.new) }
    ensures kept { KeepsNames names.old names.new }
    ensures grown { length names.new ≤ length names.old + length text.now }
{
    if is_start(&stage) {
        if !is_header(text) {
            return Err(Fault::Bad);
        }
        return Ok(Stage::Between(ProofTable::new(alloc)));
    }
    let line = read_line(alloc, text, names)?;
    after(alloc, stage, number, line)
}

/// Where the file stands after these lines, which are its first.
fn after_lines<'a>(
    alloc: Global,
    lines: &[&'a [u8]],
    names: &mut Names,
) -> Result<Stage<'a>, ProofTextError>
    requires count { length lines.now + 1 < 2 ^ 32 }
    requires room { length names.old + total_length (map (λ line. line.now) lines.now) + 1 < 2 ^ 32 }
    ensures said { ReadsLines (IsStageOf names.new) result (state_after_all (map (λ line. line.now) lines.now) start 1) }
    ensures table { OnOk result (GivesTexts (LinesName (map (λ line. line.now) lines.now)) names.old names.new) }
    ensures kept { KeepsNames names.old names.new }
{
    let mut stage = Stage::Start;
    for (at, text) in lines.iter().enumerate() {
        let number = at as u32 + 1;
        match next(alloc, stage, number, *text, names) {
            Ok(next) => stage = next,
            Err(fault) => return Err(fault.at_line(number)),
        }
    }
    Ok(stage)
}

fn pieces(alloc: Global, bytes: &[u8]) -> Result<Vec<&[u8]>, NoMemory>
    ensures { IfOk result (λ pieces. map (λ piece. piece.now) pieces.items ≡ slice_split (λ b. b == 10) bytes.now) }
{
    Ok(bytes.split(|b| *b == b'\n').collect(alloc)?)
}

/// The file, where it may end so: nothing stands after the last line feed, and no proof is open.
fn at_end(stage: Stage<'_>, rest: &[u8], end: u32) -> Result<ProofFile, ProofTextError>
    ensures read { (table : List (List ℕ)) (s : State) → IsStageOf table s stage.entry → ReadsLines (λ said file. Each (IsProofOf table) said file.proofs) result (proofs_at_end end rest.now s) }
    ensures empty { OnOk result (rest.now ≡ []) }
{
    match stage {
        Stage::Between(proofs) => {
            if !rest.is_empty() {
                return Err(ProofTextError::BadLine(end));
            }
            let proofs = proofs.into_items();
            Ok(ProofFile { proofs })
        }
        Stage::Start => Err(ProofTextError::BadLine(end)),
        Stage::Within(_proofs, _opened) => Err(ProofTextError::BadLine(end)),
    }
}

/// What the pieces between line feeds spell.
fn read_pieces(
    alloc: Global,
    pieces: &[&[u8]],
    names: &mut Names,
) -> Result<ProofFile, ProofTextError>
    requires count { length pieces.now < 2 ^ 31 }
    requires room { length names.old + total_length (map (λ piece. piece.now) pieces.now) + 1 < 2 ^ 32 }
    ensures read { ReadsLines (λ said file. Each (IsProofOf names.new) said file.proofs) result (proofs_of_pieces (map (λ piece. piece.now) pieces.now)) }
    ensures table { OnOk result (GivesTexts (LinesName (map (λ piece. piece.now) pieces.now)) names.old names.new) }
    ensures kept { KeepsNames names.old names.new }
{
    let Some((rest, lines)) = pieces.split_last() else {
        return Err(ProofTextError::BadLine(1));
    };
    let stage = after_lines(alloc, lines, names)?;
    let end = lines.len() as u32 + 1;
    at_end(stage, *rest, end)
}

/// What the bytes spell: a file of proofs, version 1. `BadLine` is the first bad line. The table keeps the names that
/// it gave before, and gives the other texts of the file the next ones, in order of first use.
pub fn read_proofs(
    alloc: Global,
    bytes: &[u8],
    names: &mut Names,
) -> Result<ProofFile, ProofTextError>
    requires short { length bytes.now ≤ 2 ^ 26 }
    requires room { length names.old + 2 ^ 26 + 1 < 2 ^ 32 }
    ensures ok { IfOk result (λ file. SpellsProofs names.old bytes.now file) }
    ensures named { OnOk result (HasNamesOf names.old bytes.now names.new) }
    ensures bad { (n : ℕ) → IsErrOf result (ProofTextError.BadLine n) → IsFirstBadLine bytes.now n }
    ensures none { (n : ℕ) → IsErrOf result (ProofTextError.BadLine n) → (table : List (List ℕ)) (proofs : List OneProof) → IsFileOf table bytes.now proofs → ⊥ }
    ensures kept { KeepsNames names.old names.new }
    // And each answer comes where it is due, or memory was refused.
    ensures file_where_due { (table : List (List ℕ)) (proofs : List OneProof) → IsFileOf table bytes.now proofs → IsOk result ⊎ IsErrOf result ProofTextError.NoMemory }
    ensures line_where_due { (n : ℕ) → IsFirstBadLine bytes.now n → IsErrOf result (ProofTextError.BadLine n) ⊎ IsErrOf result ProofTextError.NoMemory }
{
    let pieces = pieces(alloc, bytes)?;
    read_pieces(alloc, &pieces, names)
}
