//! Lists that grow where something is made.
ghost use Rattle.std.specs.Prelude.{◌≡◌, ◌++◌, [], OnOk};
ghost use Rattle.declared_types.specs.Answers.{with_some};

use std::alloc::AllocFailed;

/// Puts the item behind the others, if there is one.
pub(crate) fn push_some<T: Drop>(items: &mut Vec<T>, item: Option<T>) -> Result<(), AllocFailed<T>>
    ensures { OnOk result (items.new.items ≡ items.old.items ++ with_some item []) }
{
    match item {
        Some(item) => items.push(item),
        None => Ok(()),
    }
}
