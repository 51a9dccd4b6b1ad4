//! The syntax of sources: the trees of items, statements and expressions in all forms, and the parser that makes them.
#![tactic(auto)]

mod element;
mod found;
mod gathering;
mod laws;
mod make_attributed;
mod make_attributes;
mod make_blocks;
mod make_expressions;
mod make_fields;
mod make_functions;
mod make_generics;
mod make_items;
mod make_matches;
mod make_operators;
mod make_statements;
mod nodes;
mod parser;
mod part;
mod places;
mod trees;

pub use laws::{
    a_source_has_one_refusal, a_text_of_items_is_not_refused, a_text_spells_one_list_of_items,
    each_part_is_there,
};
pub use parser::parse;
pub use part::{Part, Suffix, Value};
