ghost use Rattle.std.specs.Prelude.{◌≡◌, ℕ, ◌+◌, ◌^◌, ◌<◌, ◌≤◌, ◌==◌, List, [], ◌∷◌, length, map, codes, IfOk, OnOk, IsErrOf, Some, Option, false, is_some};
ghost use Rattle.std.specs.List.{list_all, slice_split};
ghost use Rattle.std.specs.Option.{option_copied, option_map};
ghost use Rattle.text_core.specs.Names.{text_of};
ghost use Rattle.name_tables.specs.NameTables.{with_names};
ghost use Rattle.rs_tokens.specs.Tokens.{is_identifier};
ghost use Rattle.source_words.specs.Words.{GivesNames};
ghost use Rattle.term_texts.specs.TermTexts.{SpellsWholeTerm};
ghost use Rattle.proof_text.specs.ProofTextRules.{term_word, lists_behind};
ghost use Rattle.proof_text.specs.ProofTextLines.{words_of, multiples_of, multiples_in, SpellsParts, text_at, case_in, name_in_case, names_in_induct, texts_by, terms_behind, NamesInTerms, NamesInEach, NamesInTwo, NamesInRule, NamesOfParts};
ghost use Rattle.proof_text.specs.ProofTextFile.{is_plain_step, is_term, is_rule_rest, are_terms, are_all_terms, is_step};
ghost use Rattle.proof_text.specs.ProofTextWords.{Each, two_texts, texts_of, texts_in, label_and_texts, name_and_names};
ghost use Rattle.proof_text.specs.ProofTextReads.{Reads, KeepsNames, GivesTexts, IsByVariants, room_of, total_length};

use crate::fault::Fault;
use crate::lists::{name_and_names, name_lists, text_and_names};
use crate::rule_words::{TermLine, place, rewriting, rule_step, term_line};
use crate::texts::{named, one_name, split_text};
use crate::word::{at_semicolon, cut, label, label_and_text, multiple, two_texts};
use logic_term::Label2;
use proof_kernel::{HypothesisRule, Multiple, Step, TermRule};
use rs_tokens::is_identifier;
use source_trees::Pterm;
use std::alloc::Global;
use term_texts::{TermFault, read_whole_term};
use text_core::{Items, Name, Names, NoMemory};

/// The words of a line's rest.
fn words<'a>(alloc: Global, rest: Option<&'a str>) -> Result<Vec<&'a str>, NoMemory>
    ensures words { IfOk result (λ words. map (λ word. word.now) words.items ≡ words_of (option_copied rest.entry)) }
    ensures count { IfOk result (λ words. length words.items ≤ room_of (option_copied rest.entry)) }
{
    match rest {
        Some(rest) => split_text(alloc, rest, ' '),
        None => Ok(Vec::new(alloc)),
    }
}

fn are_identifiers(words: &[&str]) -> bool
    ensures { result ≡ list_all is_identifier (map (λ word. word.now) words.now) }
{
    words.iter().all(|word| is_identifier(*word))
}

fn multiples(alloc: Global, words: &[&str]) -> Result<Items<Multiple>, Fault>
    ensures { Reads (λ said read. said ≡ read) result (multiples_of (map (λ word. word.now) words.now)) }
{
    let mut read = Vec::new(alloc);
    for word in words {
        read.push(multiple(*word).ok_or(Fault::Bad)?)?;
    }
    Ok(Items::from_vec(read))
}

/// `M:REF ..`
fn lin(alloc: Global, rest: &str) -> Result<Items<Multiple>, Fault>
    ensures { Reads (λ said read. said ≡ read) result (multiples_in rest.now) }
{
    let words = split_text(alloc, rest, ' ')?;
    multiples(alloc, &words)
}

/// `NAME ..`
fn intro(alloc: Global, rest: Option<&str>, names: &mut Names) -> Result<Step, Fault>
    requires { length names.old + room_of (option_copied rest) < 2 ^ 32 }
    ensures said { IfOk result (λ step. SpellsParts names.new (codes "intro") (option_copied rest.entry) step) }
    ensures bad { IsErrOf result Fault.Bad → list_all is_identifier (words_of (option_copied rest.entry)) ≡ false }
    ensures table { OnOk result (names.new ≡ with_names names.old (words_of (option_copied rest.entry))) }
    ensures kept { KeepsNames names.old names.new }
    ensures grown { length names.new ≤ length names.old + room_of (option_copied rest.entry) }
{
    let words = words(alloc, rest)?;
    if !are_identifiers(&words) {
        return Err(Fault::Bad);
    }
    Ok(Step::Intro(named(alloc, &words, names)?))
}

/// The term that the whole text is.
fn whole_term(alloc: Global, text: &str, names: &mut Names) -> Result<Pterm, Fault>
    ensures said { IfOk result (λ t. SpellsWholeTerm names.new text.now t) }
    ensures bad { IsErrOf result Fault.Bad → is_term text.now ≡ false }
    ensures table { OnOk result (GivesNames names.old text.now names.new) }
    ensures kept { KeepsNames names.old names.new }
    ensures grown { length names.new ≤ length names.old + length text.now }
{
    match read_whole_term(alloc, text, names) {
        Ok(term) => Ok(term),
        Err(TermFault::NoTerm) => Err(Fault::Bad),
        Err(TermFault::NoMemory) => Err(Fault::NoMemory),
    }
}

/// A text before lists of names, where the rule may have them.
fn lists_behind(alloc: Global, rule: TermRule, rest: &str) -> Result<(&str, Vec<&str>), Fault>
    ensures { Reads (λ said found. (said.0 ≡ found.0.now) × (said.1 ≡ map (λ word. word.now) found.1.items)) result (lists_behind rule rest.now) }
{
    match rule {
        TermRule::On => text_and_names(alloc, rest),
        TermRule::Cut | TermRule::Range | TermRule::Witness | TermRule::Eta => Err(Fault::Bad),
    }
}

/// The step by the variants of the term's enum, with the names between bars.
fn by_variants(alloc: Global, text: &str, words: &[&str], names: &mut Names) -> Result<Step, Fault>
    requires { length names.old + length text.now + length words.now < 2 ^ 32 }
    ensures said { IfOk result (λ step. IsByVariants names.new text.now (map (λ word. word.now) words.now) step) }
    ensures bad { IsErrOf result Fault.Bad → is_term text.now ≡ false }
    ensures table { OnOk result (GivesTexts (NamesInRule (Some (text.now, map (λ word. word.now) words.now)) None) names.old names.new) }
    ensures kept { KeepsNames names.old names.new }
    ensures grown { length names.new ≤ length names.old + length text.now + length words.now }
{
    let term = whole_term(alloc, text, names)?;
    let lists = name_lists(alloc, words, names)?;
    Ok(Step::ByVariants(term, lists))
}

/// The step of a rule by the term that the rest of the line is, or by the variants of its enum where lists of names stand behind it.
fn on_term(alloc: Global, rule: TermRule, rest: &str, names: &mut Names) -> Result<Step, Fault>
    requires { length names.old + length rest.now < 2 ^ 32 }
    ensures said { IfOk result (λ step. SpellsParts names.new (term_word rule) (Some rest.now) step) }
    ensures bad { IsErrOf result Fault.Bad → is_rule_rest (lists_behind rule rest.now) (Some rest.now) ≡ false }
    ensures table { OnOk result (GivesTexts (NamesInRule (lists_behind rule rest.now) (Some rest.now)) names.old names.new) }
    ensures kept { KeepsNames names.old names.new }
    ensures grown { length names.new ≤ length names.old + length rest.now }
{
    match lists_behind(alloc, rule, rest) {
        Ok((text, words)) => by_variants(alloc, text, &words, names),
        Err(Fault::Bad) => {
            let term = whole_term(alloc, rest, names)?;
            Ok(Step::OnTerm(rule, term))
        }
        Err(Fault::NoMemory) => Err(Fault::NoMemory),
    }
}

/// `TERM ; TERM`
fn division(alloc: Global, rest: &str, names: &mut Names) -> Result<Step, Fault>
    ensures said { IfOk result (λ step. SpellsParts names.new (codes "div") (Some rest.now) step) }
    ensures bad { IsErrOf result Fault.Bad → are_terms (two_texts rest.now) ≡ false }
    ensures table { OnOk result (GivesTexts (NamesInTwo (two_texts rest.now)) names.old names.new) }
    ensures kept { KeepsNames names.old names.new }
    ensures grown { length names.new ≤ length names.old + length rest.now }
{
    let (first, second) = two_texts(rest).ok_or(Fault::Bad)?;
    let divided = whole_term(alloc, first, names)?;
    let divisor = whole_term(alloc, second, names)?;
    Ok(Step::Divide(divided, divisor))
}

/// The texts that the pieces between semicolons make.
fn texts_of<'a>(alloc: Global, pieces: &[&'a str]) -> Result<Vec<&'a str>, Fault>
    ensures { Reads (λ said texts. said ≡ map (λ text. text.now) texts.items) result (texts_of (map (λ piece. piece.now) pieces.now)) }
{
    let Some((first, others)) = pieces.split_first() else {
        return Err(Fault::Bad);
    };
    let mut texts = Vec::new(alloc);
    let mut last = *first;
    for piece in others {
        let (text, next) = at_semicolon(last, *piece).ok_or(Fault::Bad)?;
        texts.push(text)?;
        last = next;
    }
    texts.push(last)?;
    Ok(texts)
}

/// One text or more, with ` ; ` between.
#[tactic(auto, unfolding(crate::specs::ProofTextWords::texts_in))]
fn texts_in(alloc: Global, text: &str) -> Result<Vec<&str>, Fault>
    ensures { Reads (λ said texts. said ≡ map (λ text. text.now) texts.items) result (texts_in text.now) }
{
    let pieces = split_text(alloc, text, ';')?;
    texts_of(alloc, &pieces)
}

/// A label, and one text or more.
#[tactic(auto, unfolding(crate::specs::ProofTextWords::label_and_texts))]
fn label_and_texts(alloc: Global, rest: &str) -> Result<(Label2, Vec<&str>), Fault>
    ensures { Reads (λ said found. (said.0 ≡ found.0) × (said.1 ≡ map (λ text. text.now) found.1.items)) result (label_and_texts rest.now) }
{
    let (label, text) = label_and_text(rest).ok_or(Fault::Bad)?;
    let texts = texts_in(alloc, text)?;
    Ok((label, texts))
}

/// The terms of the texts.
fn terms(alloc: Global, texts: &[&str], names: &mut Names) -> Result<Items<Pterm>, Fault>
    ensures said { IfOk result (λ ts. Each (SpellsWholeTerm names.new) (map (λ text. text.now) texts.now) ts) }
    ensures bad { IsErrOf result Fault.Bad → list_all is_term (map (λ text. text.now) texts.now) ≡ false }
    ensures table { OnOk result (GivesTexts (NamesInEach (map (λ text. text.now) texts.now)) names.old names.new) }
    ensures kept { KeepsNames names.old names.new }
    ensures grown { length names.new ≤ length names.old + total_length (map (λ text. text.now) texts.now) }
{
    let mut terms = Vec::new(alloc);
    for text in texts {
        terms.push(whole_term(alloc, *text, names)?)?;
    }
    Ok(Items::from_vec(terms))
}

/// `LABEL TERM ; ..`
fn instance(alloc: Global, rest: &str, names: &mut Names) -> Result<Step, Fault>
    ensures said { IfOk result (λ step. SpellsParts names.new (codes "inst") (Some rest.now) step) }
    ensures bad { IsErrOf result Fault.Bad → are_all_terms (terms_behind (Some rest.now)) ≡ false }
    ensures table { OnOk result (GivesTexts (NamesInTerms (terms_behind (Some rest.now))) names.old names.new) }
    ensures kept { KeepsNames names.old names.new }
    ensures grown { length names.new ≤ length names.old + length rest.now }
{
    let (label, texts) = label_and_texts(alloc, rest)?;
    let terms = terms(alloc, &texts, names)?;
    Ok(Step::Instantiate(label, terms))
}

/// A label, alone or before a name.
fn case(rest: &str) -> Option<(Label2, Option<&str>)>
    ensures { option_map (λ found. (found.0, option_copied found.1)) result ≡ case_in rest.now }
{
    match cut(rest, ' ') {
        None => Some((label(rest)?, None)),
        Some((first, name)) => {
            let label = label(first)?;
            if is_identifier(name) {
                Some((label, Some(name)))
            } else {
                None
            }
        }
    }
}

/// `LABEL`, or `LABEL NAME`
#[tactic(auto, using(crate::proofs::RuleLaw::to_labels))]
fn cases(alloc: Global, rest: &str, names: &mut Names) -> Result<Step, Fault>
    requires { length names.old + 1 < 2 ^ 32 }
    ensures said { IfOk result (λ step. SpellsParts names.new (codes "cases") (Some rest.now) step) }
    ensures bad { IsErrOf result Fault.Bad → is_some (case_in rest.now) ≡ false }
    ensures table { OnOk result (names.new ≡ with_names names.old (name_in_case (case_in rest.now))) }
    ensures kept { KeepsNames names.old names.new }
    ensures grown { length names.new ≤ length names.old + 1 }
{
    let (label, name) = case(rest).ok_or(Fault::Bad)?;
    match name {
        None => Ok(Step::OnHypothesis(HypothesisRule::Cases, label)),
        Some(name) => Ok(Step::Unpack(label, one_name(alloc, name, names)?)),
    }
}

/// `NAME : NAME .. | ..`
fn induct(alloc: Global, rest: &str, names: &mut Names) -> Result<Step, Fault>
    requires { length names.old + length rest.now < 2 ^ 32 }
    ensures said { IfOk result (λ step. SpellsParts names.new (codes "induct") (Some rest.now) step) }
    ensures bad { IsErrOf result Fault.Bad → is_some (name_and_names rest.now) ≡ false }
    ensures table { OnOk result (names.new ≡ with_names names.old (names_in_induct (name_and_names rest.now))) }
    ensures kept { KeepsNames names.old names.new }
    ensures grown { length names.new ≤ length names.old + length rest.now }
{
    let (text, words) = name_and_names(alloc, rest)?;
    let name = one_name(alloc, text, names)?;
    let lists = name_lists(alloc, &words, names)?;
    Ok(Step::Induct(name, lists))
}

/// A step without a term, by the first word of its line and the rest.
#[tactic(auto, unfolding(crate::specs::ProofTextFile::is_plain_step, crate::specs::ProofTextLines::texts_by))]
fn plain_step(
    alloc: Global,
    head: &str,
    rest: Option<&str>,
    names: &mut Names,
) -> Result<Step, Fault>
    requires { length names.old + room_of (option_copied rest) < 2 ^ 32 }
    ensures said { IfOk result (λ step. SpellsParts names.new head.now (option_copied rest.entry) step) }
    ensures bad { IsErrOf result Fault.Bad → is_plain_step head.now (option_copied rest.entry) ≡ false }
    ensures table { OnOk result (names.new ≡ with_names names.old (texts_by head.now (option_copied rest.entry))) }
    ensures kept { KeepsNames names.old names.new }
    ensures grown { length names.new ≤ length names.old + room_of (option_copied rest.entry) }
{
    match head {
        "intro" => intro(alloc, rest, names),
        "hyp" => {
            let rest = rest.ok_or(Fault::Bad)?;
            Ok(Step::Hyp(label(rest).ok_or(Fault::Bad)?))
        }
        "split" => {
            if rest.is_some() {
                return Err(Fault::Bad);
            }
            Ok(Step::Split)
        }
        "lin" => Ok(Step::Lin(lin(alloc, rest.ok_or(Fault::Bad)?)?)),
        "rewrite" => {
            let rest = rest.ok_or(Fault::Bad)?;
            Ok(Step::Rewrite(rewriting(rest).ok_or(Fault::Bad)?))
        }
        "cond" => {
            let rest = rest.ok_or(Fault::Bad)?;
            let (label, target) = place(rest).ok_or(Fault::Bad)?;
            Ok(Step::Decide(label, target))
        }
        "cases" => cases(alloc, rest.ok_or(Fault::Bad)?, names),
        "induct" => induct(alloc, rest.ok_or(Fault::Bad)?, names),
        _ => rule_step(head, rest).ok_or(Fault::Bad),
    }
}

/// A step, by the first word of its line and the rest.
pub(crate) fn step(
    alloc: Global,
    head: &str,
    rest: Option<&str>,
    names: &mut Names,
) -> Result<Step, Fault>
    requires { length names.old + room_of (option_copied rest) < 2 ^ 32 }
    ensures said { IfOk result (λ step. SpellsParts names.new head.now (option_copied rest.entry) step) }
    ensures bad { IsErrOf result Fault.Bad → is_step head.now (option_copied rest.entry) ≡ false }
    ensures table { OnOk result (GivesTexts (NamesOfParts head.now (option_copied rest.entry)) names.old names.new) }
    ensures kept { KeepsNames names.old names.new }
    ensures grown { length names.new ≤ length names.old + room_of (option_copied rest.entry) }
{
    match term_line(head) {
        Some(TermLine::Rule(rule)) => on_term(alloc, rule, rest.ok_or(Fault::Bad)?, names),
        Some(TermLine::Division) => division(alloc, rest.ok_or(Fault::Bad)?, names),
        Some(TermLine::Instance) => instance(alloc, rest.ok_or(Fault::Bad)?, names),
        None => plain_step(alloc, head, rest, names),
    }
}
