ghost use Rattle.std.specs.Prelude.{◌≡◌, ◌≢◌, ℕ, ◌+◌, ◌<◌, ◌^◌, List, [], ◌∷◌, ◌++◌, ◌⊎◌, length, slice_get, map, IfOk, OnOk, OnErr, IfSome, IfNone};
ghost use Rattle.std.specs.Option.{option_copied};
ghost use Rattle.indexmap.specs.IndexSet.{index_set_len};
ghost use Rattle.text_core.specs.Names.{words, texts, text_of};

use crate::fault::NoMemory;
use crate::name::{
    BOOL, BOX, COPY, FIRST_FRESH, FN, FN_MUT, FN_ONCE, I8, I16, I32, I64, INT, ISIZE, MEM, NEW,
    NONE, Name, OPTION, REPLACE, SOME, SWAP, U8, U16, U32, U64, USIZE, VIEW, VIEW_FN, VIEW_TY,
};
use indexmap::IndexSet;
use std::alloc::Global;
use std::marker::Model;

/// The words of types, traits and library items, in the order of the names in `name`.
const WORDS: [&str; 27] = [
    "i8", "i16", "i32", "i64", "isize", "u8", "u16", "u32", "u64", "usize", "bool", "Int", "Box",
    "new", "Option", "None", "Some", "Copy", "Fn", "FnMut", "FnOnce", "View", "ViewTy", "view",
    "mem", "swap", "replace",
];

/// The place of the text in the list.
fn index_in(list: &[&str], text: &str) -> Option<usize>
    ensures found { IfSome result (λ at. slice_get (map (λ word. word.now) list.now) at ≡ Some text.now) }
    ensures absent { IfNone result ((k : ℕ) → slice_get (map (λ word. word.now) list.now) k ≢ Some text.now) }
{
    for (at, word) in list.iter().enumerate() {
        if text == *word {
            return Some(at);
        }
    }
    None
}

/// The text at this place of the list.
fn text_at(list: &[&'static str], at: usize) -> Option<&'static str>
    ensures { option_copied result ≡ slice_get (map (λ word. word.now) list.now) at }
{
    list.get(at).copied()
}

/// The place of the text among the words and, after them, the given texts.
fn place_of(given: &IndexSet<String>, text: &str) -> Option<usize>
    requires { index_set_len given.now < 2 ^ 32 }
    ensures found { IfSome result (λ at. slice_get (words ++ texts given.now) at ≡ Some text.now) }
    ensures within { IfSome result (λ at. at < 2 ^ 63) }
    ensures absent { IfNone result ((k : ℕ) → slice_get (words ++ texts given.now) k ≢ Some text.now) }
{
    if let Some(at) = index_in(&WORDS, text) {
        return Some(at);
    }
    let at = given.get_index_of(text)?;
    Some(WORDS.len() + at)
}

/// A table that gives each text one name. The words have names in every table.
#[derive(Drop)]
pub struct Names {
    given: IndexSet<String>,
}

impl Model for Names {
    ghost use Rattle.std.specs.Prelude.{List, ℕ, ◌++◌};
    ghost use Rattle.text_core.specs.Names.{words, texts, HaveOnePlace};

    // The texts that were given a name, beside the words, in order.
    ghost Value = { List (List ℕ) };

    ghost view = { λ names. texts names.given };

    ghost invariant = { λ names. HaveOnePlace (words ++ texts names.given) };
}

impl Names {
    /// Takes no memory.
    pub fn new(alloc: Global) -> Names
        ensures { result ≡ [] }
    {
        Names {
            given: IndexSet::new(alloc),
        }
    }

    /// The name of the text; the same for equal texts. For want of memory nothing changes.
    pub fn intern(&mut self, alloc: Global, text: &str) -> Result<Name, NoMemory>
        requires { length self.old < 2 ^ 32 }
        ensures named { IfOk result (λ name. text_of self.new name ≡ Some text.now) }
        ensures one { IfOk result (λ name. (other : Name) → text_of self.new other ≡ Some text.now → other ≡ name) }
        ensures grown { OnOk result ((self.new ≡ self.old) ⊎ (self.new ≡ self.old ++ text.now ∷ [])) }
        ensures kept { (name : Name) (t : List ℕ) → text_of self.old name ≡ Some t → text_of self.new name ≡ Some t }
        ensures err { OnErr result (self.new ≡ self.old) }
        ensures table { IfOk result (λ name. name.0 < 2 ^ 63) }
    {
        if let Some(at) = place_of(&self.given, text) {
            return Ok(Name(at as u64));
        }
        let (at, _) = self.given.insert_full(text.to_string(alloc)?)?;
        Ok(Name((WORDS.len() + at) as u64))
    }

    /// The text of the name; `None` exactly where the name is none of the words' and this table did not give it. Takes
    /// no memory.
    pub fn text(&self, name: Name) -> Option<&str>
        ensures { option_copied result ≡ text_of self.now name }
    {
        if name.0 >= FIRST_FRESH {
            return None;
        }
        let at = name.0 as usize;
        if at < WORDS.len() {
            return text_at(&WORDS, at);
        }
        let text = self.given.get_index(at - WORDS.len())?;
        Some(text.as_str())
    }
}

/// What holds in every table of names: a fresh name has no text.
pub fn fresh_has_no_text()
    ensures { (given : List (List ℕ)) (k : ℕ) → text_of given (record { 0 = 2 ^ 63 + k }) ≡ None }
{}

/// What holds in every table of names: the constants of `name` stand for the words, in order.
pub fn constants_have_words()
    ensures { (given : List (List ℕ)) → map (text_of given) (
        I8 ∷ I16 ∷ I32 ∷ I64 ∷ ISIZE ∷ U8 ∷ U16 ∷ U32 ∷ U64 ∷ USIZE ∷ BOOL ∷ INT ∷ BOX ∷ NEW ∷ OPTION ∷ NONE ∷ SOME
        ∷ COPY ∷ FN ∷ FN_MUT ∷ FN_ONCE ∷ VIEW ∷ VIEW_TY ∷ VIEW_FN ∷ MEM ∷ SWAP ∷ REPLACE ∷ []) ≡ map Some words }
{}
