//! What parts add to the items that they belong to.
ghost use Rattle.std.specs.Prelude.{◌≡◌, IfOk};
ghost use Rattle.rs_syntax.specs.MakeFields.{struct_with_value, enum_with_value};
ghost use Rattle.rs_syntax.specs.MakeFunctions.{function_with_value, impl_with_value, is_type, shape_part};
ghost use Rattle.rs_syntax.specs.MakeItems.{item_with_value};

use crate::make_fields::{StructParts, set_enum_generics};
use crate::make_functions::{ImplParts, set_answer, set_conditions, set_generics};
use crate::make_items::ItemParts;
use crate::part::{Value, span_from};
use pearlite::{Part as ShapePart, Value as Shape};
use source_trees::{Body, Enum, Function, ImplItem, ItemNode};
use source_words::Word;
use text_core::NoMemory;

impl Value {
    /// Adds what it is to the struct.
    pub(crate) fn add_to_struct(self, so_far: &mut StructParts) -> Result<(), NoMemory>
        ensures { IfOk result (λ _. so_far.new ≡ struct_with_value so_far.old self) }
    {
        match self {
            Value::Generics(generics) => {
                so_far.set_generics(generics);
                Ok(())
            }
            Value::Field(field) => so_far.fields.push(field.into_inner()),
            _ => Ok(()),
        }
    }

    /// Adds what it is to the enum.
    pub(crate) fn add_to_enum(self, so_far: &mut Enum) -> Result<(), NoMemory>
        ensures { IfOk result (λ _. so_far.new ≡ enum_with_value so_far.old self) }
    {
        match self {
            Value::Generics(generics) => {
                set_enum_generics(so_far, generics);
                Ok(())
            }
            Value::Variant(variant) => so_far.variants.push(variant.into_inner()),
            _ => Ok(()),
        }
    }

    /// Adds what it is to the function. It has the tokens from the one place to before the other.
    pub(crate) fn add_to_function(
        self,
        words: &[Word],
        from: usize,
        to: usize,
        function: &mut Function,
    ) -> Result<(), NoMemory>
        ensures { IfOk result (λ _. function.new ≡ function_with_value words.now from to function.old self) }
    {
        match self {
            Value::Param(param) => function.params.push(param.into_inner()),
            Value::Generics(generics) => {
                set_generics(function, span_from(words, from, to), generics);
                Ok(())
            }
            Value::Where(conditions) => {
                set_conditions(function, span_from(words, from, to), conditions);
                Ok(())
            }
            Value::Shape(shape) => {
                set_answer(function, shape.into_type());
                Ok(())
            }
            _ => Ok(()),
        }
    }

    /// Whether it is a type.
    pub(crate) fn is_type(&self) -> bool
        ensures { result ≡ is_type self.now }
    {
        matches!(self, Value::Shape(Shape::Type(_)))
    }

    /// The part as one of a line of shapes, where it is one.
    pub(crate) fn into_shape_part(self, from: usize, to: usize) -> Option<ShapePart>
        ensures { result ≡ shape_part self from to }
    {
        match self {
            Value::Shape(value) => Some(ShapePart { value, from, to }),
            _ => None,
        }
    }

    /// Adds what it is to the impl.
    pub(crate) fn add_to_impl(self, so_far: &mut ImplParts) -> Result<(), NoMemory>
        ensures { IfOk result (λ _. so_far.new ≡ impl_with_value so_far.old self) }
    {
        match self {
            Value::Method(method) => so_far.items.push(ImplItem::Method(method.into_inner())),
            Value::ImplItem(item) => so_far.items.push(item.into_inner()),
            Value::ImplHead(of, target) => {
                so_far.set_head(of, target);
                Ok(())
            }
            Value::Shape(shape) => {
                so_far.set_target(shape.into_type());
                Ok(())
            }
            Value::Generics(generics) => {
                so_far.set_generics(generics);
                Ok(())
            }
            Value::Where(conditions) => {
                so_far.set_conditions(conditions);
                Ok(())
            }
            _ => Ok(()),
        }
    }

    /// Adds what it is to the item. It has the tokens from the one place to before the other.
    pub(crate) fn add_to_item(
        self,
        words: &[Word],
        from: usize,
        to: usize,
        item: &mut ItemParts,
    ) -> Result<(), NoMemory>
        ensures { IfOk result (λ _. item.new ≡ item_with_value words.now item.old from to self) }
    {
        match self {
            Value::Attribute(node) => item.add_attribute(words, from, to, node),
            Value::Shape(shape) => item.add_shape(words, from, to, shape),
            Value::Function(function) => {
                item.set_node(from, ItemNode::Function(function.into_inner()));
                Ok(())
            }
            Value::ItemNode(node) => {
                item.set_node(from, node.into_inner());
                Ok(())
            }
            Value::Expr(block) => {
                item.set_body(Body::Block(block));
                Ok(())
            }
            _ => Ok(()),
        }
    }
}
