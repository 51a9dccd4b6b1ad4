//! The texts of a line, and their names.
ghost use Rattle.std.specs.Prelude.{◌≡◌, ℕ, ◌+◌, ◌^◌, ◌<◌, ◌≤◌, ◌==◌, List, [], ◌∷◌, length, map, IfOk, OnOk, Some};
ghost use Rattle.std.specs.List.{slice_split};
ghost use Rattle.text_core.specs.Names.{text_of};
ghost use Rattle.name_tables.specs.NameTables.{with_names};
ghost use Rattle.proof_text.specs.ProofTextLines.{text_at};
ghost use Rattle.proof_text.specs.ProofTextReads.{KeepsNames};

use std::alloc::Global;
use text_core::{Items, Name, Names, NoMemory};

/// What stands between such characters.
pub(crate) fn split_text(alloc: Global, text: &str, at: char) -> Result<Vec<&str>, NoMemory>
    requires { at < 128 }
    ensures words { IfOk result (λ words. map (λ word. word.now) words.items ≡ slice_split (λ b. b == at) text.now) }
    ensures count { IfOk result (λ words. length words.items ≤ length text.now + 1) }
{
    Ok(text.split(at).collect(alloc)?)
}

/// Names of the texts, in order.
pub(crate) fn named(
    alloc: Global,
    texts: &[&str],
    names: &mut Names,
) -> Result<Items<Name>, NoMemory>
    requires { length names.old + length texts.now < 2 ^ 32 }
    ensures named { IfOk result (λ given. map (text_of names.new) given ≡ map Some (map (λ text. text.now) texts.now)) }
    ensures table { OnOk result (names.new ≡ with_names names.old (map (λ text. text.now) texts.now)) }
    ensures kept { KeepsNames names.old names.new }
    ensures grown { length names.new ≤ length names.old + length texts.now }
{
    let mut given = Vec::new(alloc);
    for text in texts {
        given.push(names.intern(alloc, *text)?)?;
    }
    Ok(Items::from_vec(given))
}

/// The name of the text.
pub(crate) fn one_name(alloc: Global, text: &str, names: &mut Names) -> Result<Name, NoMemory>
    requires { length names.old + 1 < 2 ^ 32 }
    ensures named { IfOk result (λ name. text_at names.new name ≡ Some text.now) }
    ensures table { OnOk result (names.new ≡ with_names names.old (text.now ∷ [])) }
    ensures kept { KeepsNames names.old names.new }
    ensures grown { length names.new ≤ length names.old + 1 }
{
    names.intern(alloc, text)
}
