//! Names for the variables of a goal: those of the function's parameters, and `v3`, `v4` and so on for others.
ghost use Rattle.std.specs.Prelude.{◌≡◌, ◌≤◌, ◌^◌, [], length};

use logic_term::Term;
use source_trees::{Function, Item, ItemNode, ParamNode};
use std::alloc::{AllocError, Global};
use text_core::{Items, Name, Names, NoMemory, PassError};

/// The most variables that are given names.
const MOST_NAMES: usize = 1 << 20;

/// The items of a source, with the table of their names.
#[derive(Drop)]
pub(crate) struct Words {
    names: Names,
    items: Items<Item>,
}

impl Words {
    /// The words of a source that is accepted.
    pub(crate) fn of(alloc: Global, bytes: &[u8]) -> Result<Words, PassError>
        requires { length bytes.now ≤ 2 ^ 20 }
    {
        let mut names = Names::new(alloc);
        let items = rs_syntax::parse(alloc, bytes, &mut names)?;
        Ok(Words { names, items })
    }

    /// The function of the name; `None` where there is none.
    fn function(&self, owner: &[u8]) -> Option<&Function> {
        for item in self.items.as_slice() {
            if let ItemNode::Function(function) = &item.node {
                if self.is_named(function.name.name, owner) {
                    return Some(function);
                }
            }
        }
        None
    }

    fn is_named(&self, name: Name, text: &[u8]) -> bool {
        match self.names.text(name) {
            Some(own) => own.as_bytes() == text,
            None => false,
        }
    }

    /// The text of the parameter of this place, from 0, of the function.
    fn parameter(&self, owner: &[u8], place: usize) -> Option<&str> {
        let function = self.function(owner)?;
        match &function.params.get(place)?.node {
            ParamNode::Named(_, segment, _) => self.names.text(segment.name),
            _ => None,
        }
    }

    /// A name for the variable of this place, from 0, among those that lead a goal of the function.
    pub(crate) fn variable(
        &self,
        alloc: Global,
        owner: &[u8],
        place: usize,
    ) -> Result<String, AllocError> {
        match self.parameter(owner, place) {
            Some(text) => text.to_string(alloc),
            None => format!(in alloc; "v{place}"),
        }
    }
}

/// How many quantifiers lead the goal, premises among them not counted; and whether anything leads it.
pub(crate) fn leads(goal: &Term) -> (usize, bool) {
    let mut count: usize = 0;
    let mut any = false;
    let mut t = goal;
    loop {
        if let Some((_, _, body)) = t.as_forall() {
            count = count.saturating_add(1);
            t = body;
        } else if let Some((_, conclusion)) = t.as_implication() {
            t = conclusion;
        } else {
            return (count, any);
        }
        any = true;
    }
}

/// Names for so many variables that lead a goal of the function, in a table of names; not for more than 1,048,576.
pub(crate) fn names_for(
    alloc: Global,
    words: &Words,
    owner: &[u8],
    count: usize,
    names: &mut Names,
) -> Result<Vec<Name>, NoMemory>
    requires { names.old ≡ [] }
{
    let mut given = Vec::new(alloc);
    for place in 0..count.min(MOST_NAMES) {
        let text = words.variable(alloc, owner, place)?;
        given.push(names.intern(alloc, text.as_str())?)?;
    }
    Ok(given)
}
