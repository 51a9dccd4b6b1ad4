ghost use Rattle.std.specs.Prelude.{◌≡◌};
ghost use Rattle.type_check.specs.Setting.{setting_of, within_loop};

use crate::heading::Heading;
use logic_term::Ty;
use rs_types::AdtTable;

/// What stands around the body of a function.
#[derive(Clone, Copy)]
pub(crate) struct Setting<'a> {
    /// The declared types.
    pub(crate) types: &'a AdtTable,
    /// The functions that it may call.
    pub(crate) headings: &'a [Heading],
    /// The type of its answer.
    pub(crate) answer: &'a Ty,
    /// Whether a loop is around, which `break` and `continue` are for.
    pub(crate) in_loop: bool,
}

impl<'a> Setting<'a> {
    /// The same, in a loop or in none.
    pub(crate) fn within(&self, in_loop: bool) -> Setting<'a>
        ensures { setting_of result ≡ within_loop in_loop (setting_of self.now) }
    {
        Setting {
            types: self.types,
            headings: self.headings,
            answer: self.answer,
            in_loop,
        }
    }
}
