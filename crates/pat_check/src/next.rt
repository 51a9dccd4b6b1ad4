ghost use Rattle.std.specs.Prelude.{IfOk, take};
ghost use Rattle.pat_check.specs.Findings.{IsNext};
ghost use Rattle.pat_check.specs.Rows.{AllFail};

use crate::finding::{counted, status};
use crate::finding_kind::{Finding, NextTest};
use crate::known::Known;
use logic_term::TypedPat;
use std::alloc::Global;
use text_core::NoMemory;

/// The first arm that is left, and what it tests first, where the arms before `from` are not left.
pub fn next<'a>(
    alloc: Global,
    arms: &'a [TypedPat],
    from: usize,
    known: &Known,
) -> Result<NextTest<'a>, NoMemory>
    requires passed { AllFail (take from arms.now) known.now }
    ensures { IfOk result (λ n. IsNext arms.now known.now n) }
{
    for i in from..arms.len() {
        match status(alloc, &arms[i], known)? {
            Finding::Fails => {}
            Finding::Sure => {
                let number = counted(i)?;
                return Ok(NextTest::Row(number, &arms[i]));
            }
            Finding::Asks(path, test) => {
                return Ok(NextTest::Test(i, path, test));
            }
        }
    }
    Ok(NextTest::NoRow)
}
