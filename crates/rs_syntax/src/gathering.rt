//! What is gathered of the parts of a line. Parts stand last first, and are popped in their order.
ghost use Rattle.std.specs.Prelude.{◌≡◌, reverse, fold, IfOk};
ghost use Rattle.rs_syntax.specs.Gathered.{all_of, first_of};

use crate::part::{Part, Value};
use source_words::Word;
use std::alloc::Global;
use text_core::{Items, NoMemory};

/// A family of what parts are worth.
pub(crate) trait Family: Sized + Drop {
    ghost use Rattle.std.specs.Prelude.{Option};
    ghost use Rattle.rs_syntax.specs.declared.part.Value.{Value};

    ghost seen: { Value → Option Self };

    /// The value, where it is one of the family.
    fn seen(value: Value) -> Option<Self>
        ensures { result ≡ seen value };
}

/// All of the family among the parts, in order.
pub(crate) fn all_of<F: Family>(alloc: Global, parts: &mut Vec<Part>) -> Result<Items<F>, NoMemory>
    ensures { IfOk result (λ all. all ≡ all_of F.seen (reverse parts.old.items)) }
{
    let mut all = Items::new(alloc);
    while let Some(part) = parts.pop() {
        if let Some(one) = F::seen(part.value) {
            all.push(one)?;
        }
    }
    Ok(all)
}

/// The first of the family among the parts.
pub(crate) fn first_of<F: Family>(parts: &mut Vec<Part>) -> Option<F>
    ensures { result ≡ first_of F.seen (reverse parts.old.items) }
{
    while let Some(part) = parts.pop() {
        if let Some(one) = F::seen(part.value) {
            return Some(one);
        }
    }
    None
}

/// What the parts of a line are gathered into.
pub(crate) trait Gather: Sized + Drop {
    ghost use Rattle.std.specs.Prelude.{List};
    ghost use Rattle.source_words.specs.declared.word.Word.{Word};
    ghost use Rattle.rs_syntax.specs.declared.part.Part.{Part};

    ghost with: { List Word → Self → Part → Self };

    /// Adds one more part.
    fn add(&mut self, words: &[Word], part: Part) -> Result<(), NoMemory>
        ensures { IfOk result (λ _. self.new ≡ with words.now self.old part) };
}

/// All parts, from what there is without them.
pub(crate) fn gather_all<G: Gather>(
    words: &[Word],
    parts: &mut Vec<Part>,
    bare: G,
) -> Result<G, NoMemory>
    ensures { IfOk result (λ g. g ≡ fold (G.with words.now) bare (reverse parts.old.items)) }
{
    let mut gathered = bare;
    while let Some(part) = parts.pop() {
        gathered.add(words, part)?;
    }
    Ok(gathered)
}
