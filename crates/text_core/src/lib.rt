//! What every layer speaks of: places in a source, names, texts, codes of refusals, limits, and lists.
#![tactic(auto)]

mod boxed;
mod fault;
mod items;
mod line;
pub mod name;
mod names;
mod refusal;
mod span;
mod text;

pub use boxed::Boxed;
pub use fault::{NoMemory, PassError};
pub use items::Items;
pub use line::line_of;
pub use name::Name;
pub use names::{Names, constants_have_words, fresh_has_no_text};
pub use refusal::{Cause, Code, Kind, Limit, LimitKind, SourceError};
pub use span::Span;
pub use text::Text;
