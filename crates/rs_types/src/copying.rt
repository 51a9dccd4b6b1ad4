//! Copies of declared types.
ghost use Rattle.std.specs.Prelude.{◌≡◌, IfOk};

use logic_term::{AdtDecl, FieldDecl, VariantDecl};
use std::alloc::Global;
use text_core::{Items, NoMemory};

fn copy_fields(alloc: Global, fields: &[FieldDecl]) -> Result<Items<FieldDecl>, NoMemory>
    ensures { IfOk result (λ v. v ≡ fields.now) }
{
    let mut all = Items::new(alloc);
    for field in fields {
        all.push(FieldDecl {
            name: field.name,
            ty: field.ty.copy(alloc)?,
            span: field.span,
        })?;
    }
    Ok(all)
}

fn copy_variants(alloc: Global, variants: &[VariantDecl]) -> Result<Items<VariantDecl>, NoMemory>
    ensures { IfOk result (λ v. v ≡ variants.now) }
{
    let mut all = Items::new(alloc);
    for variant in variants {
        all.push(VariantDecl {
            name: variant.name,
            kind: variant.kind,
            fields: copy_fields(alloc, variant.fields.as_slice())?,
        })?;
    }
    Ok(all)
}

/// The same declared types once more.
pub(crate) fn copy_decls(alloc: Global, decls: &[AdtDecl]) -> Result<Items<AdtDecl>, NoMemory>
    ensures { IfOk result (λ v. v ≡ decls.now) }
{
    let mut all = Items::new(alloc);
    for decl in decls {
        all.push(AdtDecl {
            name: decl.name,
            regions: decl.regions,
            params: decl.params,
            variants: copy_variants(alloc, decl.variants.as_slice())?,
            is_struct: decl.is_struct,
            copy: decl.copy,
            span: decl.span,
        })?;
    }
    Ok(all)
}
