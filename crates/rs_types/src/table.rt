//! The table of the declared types.
ghost use Rattle.std.specs.Prelude.{◌≡◌, ◌∷◌, ◌++◌, [], ◌⊎◌, IfOk, IfErr, OnOk, OnErr, None, length, IsSome};
ghost use Rattle.std.specs.Option.{option_map};
ghost use Rattle.text_core.specs.declared.fault.PassError.TheVariants as errors;
ghost use Rattle.text_core.specs.declared.refusal.SourceError.{SourceError};
ghost use Rattle.rs_types.specs.Accepted.{AreAccepted, IsFirstRefusal};
ghost use Rattle.rs_types.specs.Checked.{AllPass, IsFirst};
ghost use Rattle.rs_types.specs.Table.{number_of, double_name};

use crate::checks::{Check, first_failing};
use crate::closing::first_refusal;
use crate::copying::copy_decls;
use logic_term::{AdtDecl, AdtId};
use std::alloc::Global;
use std::collections::HashMap;
use std::marker::Model;
use text_core::{Code, Items, Name, NoMemory, PassError, SourceError, Span};

/// The declared types of a program, each with a number, its place in the order in which they came. Contracts see their list.
#[derive(Drop)]
pub struct AdtTable {
    decls: Vec<AdtDecl>,
    ids: HashMap<u64, AdtId>,
}

impl Model for AdtTable {
    ghost use Rattle.std.specs.Prelude.{List};
    ghost use Rattle.logic_term.specs.declared.declaration.AdtDecl.{AdtDecl as Decl};
    ghost use Rattle.rs_types.specs.Checked.{AllPass, IsFirst};
    ghost use Rattle.rs_types.specs.Table.{HasNumbers};

    ghost Value = { List Decl };

    ghost use Rattle.std.specs.Coded.{coded_list};
    ghost use Rattle.logic_term.specs.contracts.declaration.AdtDecl as decl;

    ghost coded = { coded_list decl.the_row.coded };

    ghost view = { λ table. table.decls.items };

    ghost invariant = { λ table. HasNumbers table.decls.items table.ids };
}

/// E06 at the name.
fn double_name(span: Span) -> PassError
    ensures { result ≡ errors.Source (double_name span) }
{
    PassError::Source(SourceError {
        code: Code::E06,
        span,
        other: None,
    })
}

impl AdtTable {
    /// No types. Takes no memory.
    pub fn new(alloc: Global) -> AdtTable
        ensures { result ≡ [] }
    {
        AdtTable {
            decls: Vec::new(alloc),
            ids: HashMap::new(alloc),
        }
    }

    /// Adds a declared type behind the others and answers its number. E06 at its name, exactly where a type of that name is there; the
    /// table is then as before, and for want of memory too, as where there would be 2^32 types.
    #[tactic(auto, using(crate::proofs::Numbers::there, crate::proofs::Numbers::not_there, crate::proofs::Numbers::one_more, crate::proofs::Numbers::unchanged, crate::proofs::Numbers::without_last))]
    pub fn add(&mut self, decl: AdtDecl) -> Result<AdtId, PassError>
        ensures added { OnOk result (self.new ≡ self.old ++ decl ∷ []) }
        ensures id { IfOk result (λ id. id.0 ≡ length self.old) }
        ensures first { OnOk result (number_of decl.name.0 self.old ≡ None) }
        ensures refused { IfErr result (λ e. (e ≡ errors.NoMemory) ⊎ ((e ≡ errors.Source (double_name decl.span)) × IsSome (number_of decl.name.0 self.old))) }
        ensures kept { OnErr result (self.new ≡ self.old) }
    {
        if self.find(decl.name).is_some() {
            return Err(double_name(decl.span));
        }
        let id = AdtId(u32::try_from(self.decls.len()).map_err(|_| NoMemory)?);
        let name = decl.name.0;
        self.decls.push(decl)?;
        match self.ids.insert(name, id) {
            Ok(_) => Ok(id),
            Err(_) => {
                self.decls.pop();
                Err(PassError::NoMemory)
            }
        }
    }

    /// Adds a declared type behind the others and answers its number. Where a type of its name is there, the name means that one as before. For
    /// want of memory, and where there would be 2^32 types, the table is as before.
    #[tactic(auto, using(crate::proofs::Numbers::there, crate::proofs::Numbers::not_there, crate::proofs::Numbers::one_behind))]
    pub fn put(&mut self, decl: AdtDecl) -> Result<AdtId, NoMemory>
        ensures added { OnOk result (self.new ≡ self.old ++ decl ∷ []) }
        ensures id { IfOk result (λ id. id.0 ≡ length self.old) }
        ensures kept { OnErr result (self.new ≡ self.old) }
    {
        if self.find(decl.name).is_none() {
            return self.add(decl).map_err(|_| NoMemory);
        }
        let id = AdtId(u32::try_from(self.decls.len()).map_err(|_| NoMemory)?);
        self.decls.push(decl)?;
        Ok(id)
    }

    /// The number of the type of this name; `None` exactly where there is none. Takes no memory.
    pub fn find(&self, name: Name) -> Option<AdtId>
        ensures { option_map (λ id. id.0) result ≡ number_of name.0 self.now }
    {
        self.ids.get(&name.0).copied()
    }

    /// The declared types in the order of their numbers.
    pub fn decls(&self) -> &[AdtDecl]
        ensures { result.now ≡ self.now }
    {
        self.decls.as_slice()
    }

    /// The declared types in the order of their numbers, once more.
    pub fn copied(&self, alloc: Global) -> Result<Items<AdtDecl>, NoMemory>
        ensures { IfOk result (λ v. v ≡ self.now) }
    {
        copy_decls(alloc, self.decls.as_slice())
    }

    /// The declared types in the order of their numbers, in place of the table. Takes no memory.
    pub fn into_decls(self) -> Items<AdtDecl>
        ensures { result ≡ self }
    {
        let AdtTable { decls, ids: _ids } = self;
        Items::from_vec(decls)
    }

    /// Whether all declared types are accepted.
    ///
    /// # Errors
    ///
    /// What the first is refused for that is not: E09 at the first of its fields' types in which a reference stands in a reference, fields being
    /// written out at their type arguments; else E10 at its name, where an endless chain of fields without a box begins at it, or it has no
    /// value though its type arguments have.
    pub fn close(&self, alloc: Global) -> Result<(), PassError>
        ensures ok { OnOk result (AreAccepted self.now) }
        ensures refused { IfErr result (λ e. (e ≡ errors.NoMemory) ⊎ ((refusal : SourceError) × (e ≡ errors.Source refusal) × IsFirstRefusal self.now refusal)) }
    {
        match first_refusal(alloc, self.decls.as_slice())? {
            None => Ok(()),
            Some(error) => Err(PassError::Source(error)),
        }
    }

    /// Whether all of these hold of the declared types.
    ///
    /// # Errors
    ///
    /// What the first is refused for that does not hold.
    pub fn meets(&self, alloc: Global, checks: &[Check]) -> Result<(), PassError>
        ensures ok { OnOk result (AllPass self.now checks.now) }
        ensures refused { IfErr result (λ e. (e ≡ errors.NoMemory) ⊎ ((refusal : SourceError) × (e ≡ errors.Source refusal) × IsFirst self.now checks.now refusal)) }
    {
        match first_failing(alloc, self.decls.as_slice(), checks)? {
            None => Ok(()),
            Some(error) => Err(PassError::Source(error)),
        }
    }
}
