//! What holds of every source. A table of names is one in which no text stands twice.
ghost use Rattle.std.specs.Prelude.{◌≡◌, ◌≤◌, ℕ, ◌++◌, List};
ghost use Rattle.text_core.specs.declared.refusal.Limit.{Limit};
ghost use Rattle.text_core.specs.declared.refusal.SourceError.{SourceError};
ghost use Rattle.text_core.specs.Names.{words, HaveOnePlace};
ghost use Rattle.text_core.specs.declared.fault.PassError.TheVariants as P;
ghost use Rattle.source_trees.specs.declared.item.Item.{Item};
ghost use Rattle.rs_syntax.specs.Asked.{EachLineIsMade, EachPartIsThere, ItemsAreThere, WhatIsAskedIsFound};
ghost use Rattle.rs_syntax.specs.Parsed.{SpellsItems, functions_among, most_functions, IsParseError};

/// By each table of names a text spells at most one list of items, with all spans.
pub fn a_text_spells_one_list_of_items()
    ensures { (old : List (List ℕ)) (bytes : List ℕ) (one other : List Item) → HaveOnePlace (words ++ old) →
        SpellsItems old bytes one → SpellsItems old bytes other → one ≡ other }
{}

/// A text is refused with at most one code and span, or for one limit, and never for both.
pub fn a_source_has_one_refusal()
    ensures one { (old : List (List ℕ)) (bytes : List ℕ) (one other : SourceError) →
        IsParseError old bytes (P.Source one) → IsParseError old bytes (P.Source other) → one ≡ other }
    ensures limit { (old : List (List ℕ)) (bytes : List ℕ) (one other : Limit) →
        IsParseError old bytes (P.Limit one) → IsParseError old bytes (P.Limit other) → one ≡ other }
    ensures apart { (old : List (List ℕ)) (bytes : List ℕ) (error : SourceError) (limit : Limit) →
        IsParseError old bytes (P.Source error) → IsParseError old bytes (P.Limit limit) → ⊥ }
{}

/// No text is refused that spells items, unless there are too many functions.
pub fn a_text_of_items_is_not_refused()
    ensures error { (old : List (List ℕ)) (bytes : List ℕ) (items : List Item) (error : SourceError) →
        SpellsItems old bytes items → IsParseError old bytes (P.Source error) → ⊥ }
    ensures limit { (old : List (List ℕ)) (bytes : List ℕ) (items : List Item) (limit : Limit) → HaveOnePlace (words ++ old) →
        SpellsItems old bytes items → functions_among items ≤ most_functions → IsParseError old bytes (P.Limit limit) → ⊥ }
{}

/// In each line of a source of which something is made, the parts that its action asks for are there, in this order, and no
/// part of another family. What is made of it is of the family of its action, and never what stands for a part that is
/// missing. All parts of the whole are items, or stand around items.
pub fn each_part_is_there()
    ensures lines { EachPartIsThere }
    ensures made { EachLineIsMade }
    ensures source { ItemsAreThere }
    ensures found { WhatIsAskedIsFound }
{}
