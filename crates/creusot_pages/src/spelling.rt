//! What sequents are spelled by: the texts of variables, the declared types, and the sorts of variables.
use goal_text::{Spelling, sort_bytes};
use logic_term::{
    AdtDecl, AdtId, CompoundTy, FieldDecl, Sort, Term, TermForm, TermUnary, Ty, TyNode,
    VariantDecl, VariantKind,
};
use proof_kernel::Sequent;
use std::alloc::Global;
use text_core::{Name, Names, NoMemory};

/// The texts of the variables of a sequent, and what its source declares.
#[derive(Clone, Copy)]
pub(crate) struct Spelled<'a> {
    pub(crate) alloc: Global,
    pub(crate) variables: &'a Names,
    pub(crate) declared: Spelling<'a>,
    pub(crate) sequent: &'a Sequent,
}

/// A name that a quantifier binds around a term, with its sort.
#[derive(Drop)]
pub(crate) struct Bound {
    pub(crate) name: Name,
    pub(crate) sort: Sort,
}

/// The fields of the sort, where it is a struct.
fn struct_of<'a>(adts: &'a [AdtDecl], sort: &Sort) -> Option<&'a VariantDecl> {
    let TyNode::Compound(parts) = &sort.node else {
        return None;
    };
    let CompoundTy::Adt(id, _, _) = &**parts else {
        return None;
    };
    let decl = adts.get(id.0 as usize)?;
    if decl.is_struct {
        decl.variants.get(0)
    } else {
        None
    }
}

/// The type arguments of a declared type.
fn arguments_of(sort: &Sort) -> &[Ty] {
    match &sort.node {
        TyNode::Compound(parts) => match &**parts {
            CompoundTy::Adt(_, _, arguments) => arguments.as_slice(),
            _ => &[],
        },
        _ => &[],
    }
}

/// A copy of the sort; `None` of a type parameter.
fn known(alloc: Global, sort: &Sort) -> Result<Option<Sort>, NoMemory> {
    match &sort.node {
        TyNode::Param(_) => Ok(None),
        _ => Ok(Some(sort.copy(alloc)?)),
    }
}

/// The type of a field, at the type arguments, where it is known.
fn field_sort(alloc: Global, ty: &Ty, arguments: &[Ty]) -> Result<Option<Sort>, NoMemory> {
    match &ty.node {
        TyNode::Param(number) => match arguments.get(*number as usize) {
            Some(argument) => known(alloc, argument),
            None => Ok(None),
        },
        _ => known(alloc, ty),
    }
}

/// The sort of a part, where it is known.
fn part_sort(
    alloc: Global,
    adts: &[AdtDecl],
    sort: &Sort,
    number: u32,
) -> Result<Option<Sort>, NoMemory> {
    if let TyNode::Tuple(parts) = &sort.node {
        return match parts.get(number as usize) {
            Some(part) => known(alloc, part),
            None => Ok(None),
        };
    }
    let Some(variant) = struct_of(adts, sort) else {
        return Ok(None);
    };
    match variant.fields.get(number as usize) {
        Some(field) => field_sort(alloc, &field.ty, arguments_of(sort)),
        None => Ok(None),
    }
}

/// How many quantifiers there are up to the innermost that binds the name.
pub(crate) fn number_of(bound: &[Bound], name: Name) -> Option<usize> {
    for i in (0..bound.len()).rev() {
        if name.0 == bound[i].name.0 {
            return Some(i + 1);
        }
    }
    None
}

/// The sort of the variable, under what is bound around it, the innermost last.
fn sort_of_variable(
    spelled: &Spelled<'_>,
    bound: &[Bound],
    name: Name,
) -> Result<Option<Sort>, NoMemory> {
    for i in (0..bound.len()).rev() {
        if name.0 == bound[i].name.0 {
            return known(spelled.alloc, &bound[i].sort);
        }
    }
    match spelled.sequent.sort_of(name) {
        Some(sort) => known(spelled.alloc, sort),
        None => Ok(None),
    }
}

/// The sort of a variable, or of a part of one, where it is known.
#[cycle(sort_of)]
fn sort_of(spelled: &Spelled<'_>, bound: &[Bound], t: &Term) -> Result<Option<Sort>, NoMemory> {
    match t.form() {
        TermForm::Var(name) => sort_of_variable(spelled, bound, name),
        TermForm::Unary(TermUnary::Field(number), whole) => match sort_of(spelled, bound, whole)? {
            Some(sort) => part_sort(spelled.alloc, spelled.declared.adts, &sort, number),
            None => Ok(None),
        },
        _ => Ok(None),
    }
}

/// The name of a field, where it has one.
fn name_of_field(variant: &VariantDecl, place: usize) -> Option<Name> {
    let field: &FieldDecl = variant.fields.get(place)?;
    match variant.kind {
        VariantKind::Named => Some(field.name),
        VariantKind::Numbered | VariantKind::Unit => None,
    }
}

/// The name of the part of the term, where it is a field that has one.
pub(crate) fn field_of(
    spelled: &Spelled<'_>,
    bound: &[Bound],
    whole: &Term,
    number: u32,
) -> Result<Option<Name>, NoMemory> {
    let Some(sort) = sort_of(spelled, bound, whole)? else {
        return Ok(None);
    };
    match struct_of(spelled.declared.adts, &sort) {
        Some(variant) => Ok(name_of_field(variant, number as usize)),
        None => Ok(None),
    }
}

/// Those that are bound, and one more inside of them.
pub(crate) fn bound_inside(
    alloc: Global,
    bound: &[Bound],
    name: Name,
    sort: &Sort,
) -> Result<Vec<Bound>, NoMemory> {
    let mut inner = Vec::new(alloc);
    for around in bound {
        let sort = around.sort.copy(alloc)?;
        let name = around.name;
        inner.push(Bound { name, sort })?;
    }
    let sort = sort.copy(alloc)?;
    inner.push(Bound { name, sort })?;
    Ok(inner)
}

impl<'a> Spelled<'a> {
    /// The text of the variable; one without a text is `_`.
    pub(crate) fn variable(&self, name: Name) -> &'a str {
        self.variables.text(name).unwrap_or("_")
    }

    /// The text of a name of the source; one without a text is `_`.
    pub(crate) fn text(&self, name: Name) -> &'a str {
        self.declared.names.text(name).unwrap_or("_")
    }

    /// The text of the sort.
    pub(crate) fn sort(&self, sort: &Sort) -> Result<String, NoMemory> {
        let bytes = sort_bytes(self.alloc, &self.declared, sort)?;
        Ok(String::from_utf8_lossy(self.alloc, &bytes)?)
    }

    /// What makes a value of parts: the declared type and the variant, where they are declared.
    pub(crate) fn variant(&self, id: AdtId, number: u32) -> Option<(&'a AdtDecl, &'a VariantDecl)> {
        let decl = self.declared.adts.get(id.0 as usize)?;
        let variant = decl.variants.get(number as usize)?;
        Some((decl, variant))
    }

    /// Adds `Type` of a struct, and `Type::Variant` of another variant.
    pub(crate) fn push_path(
        &self,
        out: &mut String,
        decl: &AdtDecl,
        variant: &VariantDecl,
    ) -> Result<(), NoMemory> {
        out.push_str(self.text(decl.name))?;
        if !decl.is_struct {
            out.push_str("::")?;
            out.push_str(self.text(variant.name))?;
        }
        Ok(())
    }

    /// Adds `f: ` of a field that has a name.
    pub(crate) fn push_label(
        &self,
        out: &mut String,
        variant: &VariantDecl,
        place: usize,
    ) -> Result<(), NoMemory> {
        if let Some(name) = name_of_field(variant, place) {
            out.push_str(self.text(name))?;
            out.push_str(": ")?;
        }
        Ok(())
    }
}
