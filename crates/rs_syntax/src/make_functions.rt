//! What the lines of functions, traits and impls make.
ghost use Rattle.std.specs.Prelude.{◌≡◌, reverse, Some, IfOk};
ghost use Rattle.pearlite.specs.Parts.{as_type};
ghost use Rattle.rs_syntax.specs.MakeFunctions.{with_answer, function_with, function_with_value, bare_function, function_made, trait_made};
ghost use Rattle.rs_syntax.specs.MakeFunctions.{before_shapes, shape_part, shape_parts, trait_head, type_head, begins_with_type, impl_head_made, view_type_made, with_target, impl_with, impl_with_value, impl_made};

use crate::gathering::{Gather, all_of, first_of, gather_all};
use crate::make_fields::node_value;
use crate::part::{Part, Value, segment_at, span_from};
use crate::places::segment_behind;
use pearlite::{Part as ShapePart, Value as Shape, make_shape};
use source_grammar::ShapeAction;
use source_trees::{
    Body, Condition, Function, GenericParam, Impl, ImplItem, ItemNode, Method, Segment, Trait,
    TypeTree,
};
use source_words::Word;
use std::alloc::Global;
use text_core::{Boxed, Items, NoMemory, Span};

pub(crate) fn set_generics(function: &mut Function, span: Span, generics: Items<GenericParam>)
    ensures { function.new ≡ record function.old { generics_span = Some span; generics = generics } }
{
    function.generics_span = Some(span);
    function.generics = generics;
}

pub(crate) fn set_conditions(function: &mut Function, span: Span, conditions: Items<Condition>)
    ensures { function.new ≡ record function.old { conditions_span = Some span; conditions = conditions } }
{
    function.conditions_span = Some(span);
    function.conditions = conditions;
}

/// The type behind `->`, where it is one.
pub(crate) fn set_answer(function: &mut Function, ty: Option<TypeTree>)
    ensures { function.new ≡ with_answer function.old ty }
{
    if let Some(ty) = ty {
        function.answer = Some(ty);
    }
}

impl Gather for Function {
    ghost with = { function_with };

    fn add(&mut self, words: &[Word], part: Part) -> Result<(), NoMemory> {
        let Part { value, from, to } = part;
        value.add_to_function(words, from, to, self)
    }
}

/// `fn` and the name alone.
fn bare_function(alloc: Global, words: &[Word], from: usize) -> Function
    ensures { result ≡ bare_function words.now from }
{
    Function {
        name: segment_behind(words, from, 1),
        generics_span: None,
        generics: Items::new(alloc),
        params: Items::new(alloc),
        answer: None,
        conditions_span: None,
        conditions: Items::new(alloc),
        body: Body::Missing,
    }
}

/// `fn f<'a, T>(x: S) -> T where T: A`
#[tactic(auto, unfolding(crate::specs::MakeFunctions::function_made))]
pub(crate) fn function(
    alloc: Global,
    words: &[Word],
    from: usize,
    parts: &mut Vec<Part>,
) -> Result<Value, NoMemory>
    ensures { IfOk result (λ v. v ≡ function_made words.now from (reverse parts.old.items)) }
{
    let function = gather_all(words, parts, bare_function(alloc, words, from))?;
    Ok(Value::Function(Boxed::new(alloc, function)?))
}

/// `trait A { .. }`
#[tactic(auto, unfolding(crate::specs::MakeFunctions::trait_made))]
pub(crate) fn trait_item(
    alloc: Global,
    words: &[Word],
    from: usize,
    parts: &mut Vec<Part>,
) -> Result<Value, NoMemory>
    ensures { IfOk result (λ v. v ≡ trait_made words.now from (reverse parts.old.items)) }
{
    let name = segment_behind(words, from, 1);
    let methods: Items<Method> = all_of(alloc, parts)?;
    node_value(alloc, ItemNode::Trait(Trait { name, methods }))
}

/// The parts that are shapes, the last one first.
pub(crate) fn shape_parts(alloc: Global, parts: &mut Vec<Part>) -> Result<Vec<ShapePart>, NoMemory>
    ensures { IfOk result (λ shapes. reverse shapes.items ≡ shape_parts (reverse parts.old.items)) }
{
    let mut shapes = Vec::new(alloc);
    while let Some(part) = parts.pop() {
        let Part { value, from, to } = part;
        if let Some(shape) = value.into_shape_part(from, to) {
            shapes.push(shape)?;
        }
    }
    shapes.reverse();
    Ok(shapes)
}

/// The name of a trait, `for` and a type.
fn trait_head(words: &[Word], from: usize, parts: &mut Vec<Part>) -> Value
    ensures { result ≡ trait_head words.now from (reverse parts.old.items) }
{
    match first_of::<TypeTree>(parts) {
        Some(ty) => Value::ImplHead(Some(segment_at(words, from)), ty),
        None => Value::Shape(Shape::Passed),
    }
}

/// The name of a type with its arguments.
fn type_head(
    alloc: Global,
    words: &[Word],
    from: usize,
    to: usize,
    parts: &mut Vec<Part>,
) -> Result<Value, NoMemory>
    ensures { IfOk result (λ v. v ≡ type_head words.now from to (reverse parts.old.items)) }
{
    let mut shapes = shape_parts(alloc, parts)?;
    let value = make_shape(alloc, words, ShapeAction::NamedType, from, to, &mut shapes)?;
    match value.into_type() {
        Some(ty) => Ok(Value::ImplHead(None, ty)),
        None => Ok(Value::Shape(Shape::Passed)),
    }
}

/// Whether the last part is a type. It stands first.
fn ends_with_type(parts: &[Part]) -> bool
    ensures { result ≡ begins_with_type parts.now }
{
    match parts.first() {
        Some(part) => part.value.is_type(),
        None => false,
    }
}

/// What stands before the items of an impl.
#[tactic(auto, unfolding(crate::specs::MakeFunctions::impl_head_made))]
pub(crate) fn impl_head(
    alloc: Global,
    words: &[Word],
    from: usize,
    to: usize,
    parts: &mut Vec<Part>,
) -> Result<Value, NoMemory>
    ensures { IfOk result (λ v. v ≡ impl_head_made words.now from to (reverse parts.old.items)) }
{
    if ends_with_type(parts) {
        Ok(trait_head(words, from, parts))
    } else {
        type_head(alloc, words, from, to, parts)
    }
}

/// `type ViewTy = T;`
#[tactic(auto, unfolding(crate::specs::MakeFunctions::view_type_made))]
pub(crate) fn view_type(
    alloc: Global,
    words: &[Word],
    from: usize,
    to: usize,
    parts: &mut Vec<Part>,
) -> Result<Value, NoMemory>
    ensures { IfOk result (λ v. v ≡ view_type_made words.now from to (reverse parts.old.items)) }
{
    match first_of::<TypeTree>(parts) {
        Some(ty) => {
            let name = segment_behind(words, from, 1);
            let item = ImplItem::ViewType(span_from(words, from, to), name, ty);
            Ok(Value::ImplItem(Boxed::new(alloc, item)?))
        }
        None => Ok(Value::Shape(Shape::Passed)),
    }
}

/// The type of an impl, and its trait if it has one.
#[derive(Drop)]
pub(crate) struct ImplOf {
    pub of: Option<Segment>,
    pub target: TypeTree,
}

/// The parts of an impl.
#[derive(Drop)]
pub(crate) struct ImplParts {
    pub generics: Items<GenericParam>,
    pub head: Option<ImplOf>,
    pub conditions: Items<Condition>,
    pub items: Items<ImplItem>,
}

impl ImplParts {
    pub(crate) fn set_generics(&mut self, generics: Items<GenericParam>)
        ensures { self.new ≡ record self.old { generics = generics } }
    {
        self.generics = generics;
    }

    pub(crate) fn set_head(&mut self, of: Option<Segment>, target: TypeTree)
        ensures { self.new ≡ record self.old { head = Some (record { of = of; target = target }) } }
    {
        self.head = Some(ImplOf { of, target });
    }

    /// The type of an impl of no trait, where it is one.
    pub(crate) fn set_target(&mut self, target: Option<TypeTree>)
        ensures { self.new ≡ with_target self.old target }
    {
        if let Some(target) = target {
            self.set_head(None, target);
        }
    }

    pub(crate) fn set_conditions(&mut self, conditions: Items<Condition>)
        ensures { self.new ≡ record self.old { conditions = conditions } }
    {
        self.conditions = conditions;
    }
}

impl Gather for ImplParts {
    ghost with = { impl_with };

    fn add(&mut self, words: &[Word], part: Part) -> Result<(), NoMemory> {
        part.value.add_to_impl(self)
    }
}

/// `impl<T> A for S { .. }`
#[tactic(auto, unfolding(crate::specs::MakeFunctions::impl_made))]
pub(crate) fn impl_item(
    alloc: Global,
    words: &[Word],
    parts: &mut Vec<Part>,
) -> Result<Value, NoMemory>
    ensures { IfOk result (λ v. v ≡ impl_made words.now (reverse parts.old.items)) }
{
    let bare = ImplParts {
        generics: Items::new(alloc),
        head: None,
        conditions: Items::new(alloc),
        items: Items::new(alloc),
    };
    let ImplParts {
        generics,
        head,
        conditions,
        items,
    } = gather_all(words, parts, bare)?;
    match head {
        Some(ImplOf { of, target }) => {
            let item = Impl {
                generics,
                of,
                target,
                conditions,
                items,
            };
            node_value(alloc, ItemNode::Impl(item))
        }
        None => Ok(Value::Shape(Shape::Passed)),
    }
}
