//! The forms of sources, and the first form in a source that is not of a given set.
#![tactic(auto)]

/// The place in the first part that has one.
macro_rules! first_of {
    ($last:expr) => { $last };
    ($part:expr, $($rest:expr),+) => {
        match $part {
            Some(start) => Some(start),
            None => first_of!($($rest),+),
        }
    };
}

mod attributes;
mod expressions;
mod form;
mod items;
mod patterns;
mod place;
mod terms;
mod types;

pub use form::Form;
pub use items::first_unbuilt;
