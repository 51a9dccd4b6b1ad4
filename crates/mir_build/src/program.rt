//! Lowering of programs.
ghost use Rattle.std.specs.Prelude.{IfOk, IfErr};
ghost use Rattle.type_check.specs.Checked.{AllGood};
ghost use Rattle.type_check.specs.WellTyped.{ProgramFits};
ghost use Rattle.mir_build.specs.Lowering.{IsLowered, HasMoreBlocks};
ghost use Rattle.mir_build.specs.Whole.{HaveFewBlocks, FailsFor};

use crate::contract::contract_of;
use crate::function::lower_function;
use crate::lowered::Lowered;
use logic_term::AdtDecl;
use mir_ir::{Bodies, Contracts};
use rs_types::CopyTypes;
use std::alloc::Global;
use text_core::{Items, Names, PassError};
use type_check::TypedProgram;

/// One body for each function of an accepted program, in order, with its contract and what may be gone in it, and the declared types of the
/// program.
///
/// # Errors
///
/// `Limit` where the body of a function would have more than 4,096 blocks. `NoMemory` where memory is refused, where a
/// number of a function, a local or a parameter would pass 32 bits, and where a function's name has no text in the table. The source
/// is never refused.
pub fn lower(
    alloc: Global,
    program: &TypedProgram,
    decls: Items<AdtDecl>,
    names: &Names,
) -> Result<Lowered, PassError>
    requires fits { ProgramFits decls program.now }
    requires good { AllGood program.now }
    ensures lowered { IfOk result (IsLowered names.now decls program.now) }
    ensures few { IfOk result (λ l. HaveFewBlocks l.bodies) }
    ensures limit { IfErr result (FailsFor (HasMoreBlocks program.now 4096)) }
{
    let mut bodies = Items::new(alloc);
    let mut contracts = Items::new(alloc);
    let mut gone = Items::new(alloc);
    let types = CopyTypes::of(alloc, decls.as_slice())?;
    let functions = program.functions.as_slice();
    for f in functions {
        let Ok(id) = u32::try_from(bodies.len()) else {
            return Err(PassError::NoMemory);
        };
        let (body, own) = lower_function(alloc, names, functions, &types, id, f)?;
        bodies.push(body)?;
        contracts.push(contract_of(alloc, f)?)?;
        gone.push(own)?;
    }
    Ok(Lowered {
        bodies: Bodies {
            bodies,
            decls,
            impls: Items::new(alloc),
            closures: Items::new(alloc),
        },
        contracts: Contracts {
            of: contracts,
            traits: Items::new(alloc),
            closures: Items::new(alloc),
            intrinsics: Items::new(alloc),
        },
        gone,
    })
}
