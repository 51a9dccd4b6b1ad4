//! The families of what parts of items are worth.
ghost use Rattle.std.specs.Prelude.{◌≡◌, drop, reverse};
ghost use Rattle.rs_syntax.specs.Gathered.{type_of, term_of, generic_of, bound_of, condition_of, field_of, method_of, item_of};

use crate::gathering::Family;
use crate::part::{Part, Value};
use source_trees::{Bound, Condition, Field, GenericParam, Item, Method, Pterm, TypeTree};

/// A value that nothing needs.
pub(crate) fn discard(value: Value) {
    drop(value);
}

/// Takes a part off that nothing needs.
pub(crate) fn skip(parts: &mut Vec<Part>)
    ensures { reverse parts.new.items ≡ drop 1 (reverse parts.old.items) }
{
    if let Some(part) = parts.pop() {
        discard(part.value);
    }
}

impl Value {
    /// The type, where it is one.
    pub(crate) fn into_type(self) -> Option<TypeTree>
        ensures { result ≡ type_of self }
    {
        match self {
            Value::Shape(shape) => shape.into_type(),
            _ => None,
        }
    }

    /// The term, where it is one.
    pub(crate) fn into_term(self) -> Option<Pterm>
        ensures { result ≡ term_of self }
    {
        match self {
            Value::Shape(shape) => shape.into_term(),
            _ => None,
        }
    }

    /// The parameter of a declaration, where it is one.
    pub(crate) fn into_generic(self) -> Option<GenericParam>
        ensures { result ≡ generic_of self }
    {
        match self {
            Value::GenericParam(param) => Some(param.into_inner()),
            _ => None,
        }
    }

    /// The bound, where it is one.
    pub(crate) fn into_bound(self) -> Option<Bound>
        ensures { result ≡ bound_of self }
    {
        match self {
            Value::Bound(bound) => Some(bound.into_inner()),
            _ => None,
        }
    }

    /// The condition, where it is one.
    pub(crate) fn into_condition(self) -> Option<Condition>
        ensures { result ≡ condition_of self }
    {
        match self {
            Value::WhereCondition(condition) => Some(condition.into_inner()),
            _ => None,
        }
    }

    /// The field, where it is one.
    pub(crate) fn into_field(self) -> Option<Field>
        ensures { result ≡ field_of self }
    {
        match self {
            Value::Field(field) => Some(field.into_inner()),
            _ => None,
        }
    }

    /// The method, where it is one.
    pub(crate) fn into_method(self) -> Option<Method>
        ensures { result ≡ method_of self }
    {
        match self {
            Value::Method(method) => Some(method.into_inner()),
            _ => None,
        }
    }

    /// The item, where it is one.
    pub(crate) fn into_item(self) -> Option<Item>
        ensures { result ≡ item_of self }
    {
        match self {
            Value::Item(item) => Some(item.into_inner()),
            _ => None,
        }
    }
}

impl Family for TypeTree {
    ghost seen = { type_of };

    fn seen(value: Value) -> Option<TypeTree> {
        value.into_type()
    }
}

impl Family for Pterm {
    ghost seen = { term_of };

    fn seen(value: Value) -> Option<Pterm> {
        value.into_term()
    }
}

impl Family for GenericParam {
    ghost seen = { generic_of };

    fn seen(value: Value) -> Option<GenericParam> {
        value.into_generic()
    }
}

impl Family for Bound {
    ghost seen = { bound_of };

    fn seen(value: Value) -> Option<Bound> {
        value.into_bound()
    }
}

impl Family for Condition {
    ghost seen = { condition_of };

    fn seen(value: Value) -> Option<Condition> {
        value.into_condition()
    }
}

impl Family for Field {
    ghost seen = { field_of };

    fn seen(value: Value) -> Option<Field> {
        value.into_field()
    }
}

impl Family for Method {
    ghost seen = { method_of };

    fn seen(value: Value) -> Option<Method> {
        value.into_method()
    }
}

impl Family for Item {
    ghost seen = { item_of };

    fn seen(value: Value) -> Option<Item> {
        value.into_item()
    }
}
