//! Which types are `Copy`.
ghost use Rattle.std.specs.Prelude.{◌≡◌, ◌↔◌, IfOk, IsTrue};
ghost use Rattle.rs_types.specs.Copied.{IsCopy};

use crate::copy_rows::{Assumed, CopyRow, copies, copy_rows};
use crate::copying::copy_decls;
use logic_term::{AdtDecl, Ty};
use std::alloc::Global;
use std::marker::Model;
use text_core::{Items, NoMemory};

/// Which types are `Copy`, for the declared types of a program. Contracts see their list.
#[derive(Drop)]
pub struct CopyTypes {
    decls: Items<AdtDecl>,
    rows: Vec<CopyRow>,
}

impl Model for CopyTypes {
    ghost use Rattle.std.specs.Prelude.{List};
    ghost use Rattle.logic_term.specs.declared.declaration.AdtDecl.{AdtDecl as Decl};
    ghost use Rattle.rs_types.specs.CopyRows.{Decide};

    ghost Value = { List Decl };

    ghost use Rattle.std.specs.Coded.{coded_list};
    ghost use Rattle.logic_term.specs.contracts.declaration.AdtDecl as decl;

    ghost coded = { coded_list decl.the_row.coded };

    ghost view = { λ types. types.decls };

    ghost invariant = { λ types. Decide types.decls types.rows.items };
}

impl CopyTypes {
    /// Those of these declared types, whether they are accepted or not.
    pub fn of(alloc: Global, decls: &[AdtDecl]) -> Result<CopyTypes, NoMemory>
        ensures { IfOk result (λ types. types ≡ decls.now) }
    {
        let rows = copy_rows(alloc, decls)?;
        let decls = copy_decls(alloc, decls)?;
        Ok(CopyTypes { decls, rows })
    }

    /// Whether the type is `Copy`. Takes no memory.
    pub fn is_copy(&self, t: &Ty) -> bool
        ensures { IsTrue result ↔ IsCopy self.now t.now }
    {
        copies(self.rows.as_slice(), Assumed::Nothing, t)
    }
}
