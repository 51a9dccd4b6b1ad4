//! Terms of contracts as they are written: their trees, and what makes them.
#![tactic(auto)]

mod cursor;
mod families;
mod laws;
mod make_operations;
mod make_patterns;
mod make_terms;
mod make_types;
mod meaning;
mod part;
mod parts;
mod reader;
mod shapes;
mod tokens;

pub use cursor::Cursor;
pub use laws::each_part_is_there;
pub use make_operations::unsigned;
pub use part::{Part, TermSuffix, Value};
pub use reader::parse_term;
pub use shapes::make_shape;
pub use tokens::{
    NOWHERE, is_at, is_before, number_of, segment_at, span_from, word_at, word_before,
};
