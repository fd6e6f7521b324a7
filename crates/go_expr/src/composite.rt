//! Composite literals. [Composite literals](https://go.dev/ref/spec#Composite_literals)
ghost use Rattle.std.specs.Prelude.{◌≡◌, List, [], ◌∷◌, ◌++◌, Err, IfOk, OnOk, is_some, map, position};
ghost use Rattle.std.specs.List.{flat_map, list_all, list_any};
ghost use Rattle.std.specs.Option.{option_map};
ghost use Rattle.std.specs.Str.{bytes_eq};
ghost use Rattle.go_types.specs.Views.{go_type};
ghost use Rattle.go_typed.specs.Trees.{Expr};
ghost use Rattle.go_typed.specs.Views.{as_expr, part_view};
ghost use Rattle.go_expr.specs.declared.error.RuleError.TheVariants.{Memory};
ghost use Rattle.go_expr.specs.Known.{Verdict, Fine};
ghost use Rattle.go_expr.specs.Rules.{checked, valued, least, are_distinct, keys, key_fault, any_keyed, all_keyed, is_counted, struct_faults, element_part, parts_by, field_slot, struct_slot, fine_list, array_parts, struct_parts, parts_of, slice_parts, literal_of, element_due, due_type, any_value, unwritten, untyped_literal, is_visible};
ghost use Rattle.go_expr.specs.Verdicts.{asked, asked_both, key_text};
ghost use Rattle.go_expr.specs.Views.{known_of, keyed_part, typed_field, fields_seen, slots_of, due_of, all_of, AnswersAt, Gathers, Gives};

use crate::error::{ExprError, RuleError};
use crate::fields::NamedFields;
use crate::gather::{Gathered, lesser, when};
use crate::known::Known;
use crate::node::{constant, elements as slice_elements, literal};
use crate::selector::{field_named, is_visible, value_at};
use crate::slice::slice_element;
use crate::value::assigned;
use go_ast::key::Key;
use go_const::constant::Const;
use go_scope::name_index::NameIndex;
use go_text::fault::FaultKind;
use go_text::place::Place;
use go_typed::expression::{TypedExpr, TypedPart};
use go_types::relations::underlying;
use go_types::types::{Basic, Field, GoType};
use std::alloc::{AllocError, Global};

/// An element of a literal that has a value.
#[derive(Drop)]
pub(crate) struct Element<'a> {
    /// Its key, if it has one.
    pub(crate) key: Option<&'a str>,
    /// Its value.
    pub(crate) value: TypedExpr,
}

/// The parts that elements are for.
#[derive(Drop)]
enum Slots<'a> {
    /// Elements of an array, all of one type.
    Elements(&'a GoType),
    /// Fields of a struct, by their names or in order.
    Fields(NamedFields<'a>),
    /// Fields of a struct, by their names alone.
    Named(NamedFields<'a>),
}

impl<'a> Slots<'a> {
    /// The number and the type of the part that the element of a number and a key is for.
    fn slot(&self, number: usize, key: Option<&str>) -> Option<(usize, &'a GoType)>
        ensures { option_map (λ s. (s.0, go_type s.1.now)) result ≡ slots_of self.now number (option_map (λ k. k.now) key.entry) }
    {
        match (self, key) {
            (Slots::Elements(of), _) => Some((number, *of)),
            (Slots::Fields(fields) | Slots::Named(fields), Some(name)) => match fields.named(name) {
                Some((number, field)) => Some((number, &field.of)),
                None => None,
            },
            (Slots::Fields(fields), None) => match fields.fields.get(number) {
                Some(field) => Some((number, &field.of)),
                None => None,
            },
            (Slots::Named(_), None) => None,
        }
    }
}

/// A value as the part of a number.
fn part(number: usize, given: Result<TypedExpr, RuleError>) -> Result<TypedPart, RuleError>
    ensures answer { (v : Verdict Expr) → Gives as_expr given v → Gives part_view result (checked (λ e. Fine (number, e)) v) }
    ensures memory { result ≡ Err Memory → given ≡ Err Memory }
{
    match given {
        Ok(value) => Ok(TypedPart { number, value }),
        Err(error) => Err(error),
    }
}

/// Adds the element of a number behind others, as the part that it is for, if it is for one.
fn add_element(
    alloc: Global,
    all: &mut Gathered<TypedPart>,
    slots: &Slots<'_>,
    number: usize,
    element: Element<'_>,
) -> Result<(), AllocError>
    ensures { OnOk result (Gathers part_view all.old all.new (element_part (slots_of slots.now) number (keyed_part element.entry))) }
{
    let Some(slot) = slots.slot(number, element.key) else {
        return Ok(());
    };
    let of = slot.1.copy()?;
    all.add(part(slot.0, assigned(alloc, of, element.value)))
}

/// Elements of a literal as the parts that they are for, unless there is a fault.
fn parts_by(
    alloc: Global,
    slots: &Slots<'_>,
    elements: Vec<Element<'_>>,
    fault: Option<FaultKind>,
) -> Result<Vec<TypedPart>, RuleError>
    ensures { (ks : List FaultKind) → fault ≡ least ks → Gives (all_of part_view) result (fine_list ks (parts_by (slots_of slots.now) (map keyed_part elements.entry.items))) }
{
    let mut all = Gathered::new(alloc, fault);
    let mut number = 0;
    for element in elements {
        add_element(alloc, &mut all, slots, number, element)?;
        number += 1;
    }
    all.finish()
}

/// Whether one of some elements has a key.
fn any_keyed(elements: &[Element<'_>]) -> bool
    ensures { result ≡ any_keyed (map keyed_part elements.now) }
{
    for element in elements {
        if element.key.is_some() {
            return true;
        }
    }
    false
}

/// Whether all of some elements have keys.
fn all_keyed(elements: &[Element<'_>]) -> bool
    ensures { result ≡ all_keyed (map keyed_part elements.now) }
{
    for element in elements {
        if element.key.is_none() {
            return false;
        }
    }
    true
}

/// Adds the key of an element to names, if it has one. Answers whether it stood there before. An
/// `Err` only where memory ran out.
fn add_key<'a>(names: &mut NameIndex<'a>, element: &Element<'a>) -> Result<bool, AllocError>
    ensures known { IfOk result (λ known. known ≡ list_any (λ x. is_some (position (bytes_eq x) names.old)) (keys (keyed_part element.now ∷ []))) }
    ensures added { OnOk result (names.new ≡ names.old ++ keys (keyed_part element.now ∷ [])) }
{
    match element.key {
        Some(key) => Ok(names.insert(key)?.is_some()),
        None => Ok(false),
    }
}

/// Whether the keys of elements differ. An `Err` only where memory ran out.
fn keys_differ(alloc: Global, elements: &[Element<'_>]) -> Result<bool, AllocError>
    ensures { IfOk result (λ differs. differs ≡ are_distinct (keys (map keyed_part elements.now))) }
{
    let mut names = NameIndex::new(alloc);
    for element in elements {
        if add_key(&mut names, element)? {
            return Ok(false);
        }
    }
    Ok(true)
}

/// What is wrong with a key: it is no field, or one that the package of a path doesn't see.
fn key_fault(path: &str, fields: &NamedFields<'_>, key: &str) -> Option<FaultKind>
    ensures { result ≡ least (key_fault path.now (fields_seen fields.now) key.now) }
{
    match fields.named(key) {
        None => Some(FaultKind::Undeclared),
        Some((_, field)) => when(!is_visible(path, field), FaultKind::Unexported),
    }
}

/// What is wrong with the key of an element, if it has one.
fn element_fault(path: &str, fields: &NamedFields<'_>, element: &Element<'_>) -> Option<FaultKind>
    ensures { result ≡ least (flat_map (key_fault path.now (fields_seen fields.now)) (keys (keyed_part element.now ∷ []))) }
{
    match element.key {
        Some(key) => key_fault(path, fields, key),
        None => None,
    }
}

/// The least of what is wrong with keys.
fn keys_fault(path: &str, fields: &NamedFields<'_>, elements: &[Element<'_>]) -> Option<FaultKind>
    ensures { result ≡ least (flat_map (key_fault path.now (fields_seen fields.now)) (keys (map keyed_part elements.now))) }
{
    let mut fault = None;
    for element in elements {
        fault = lesser(fault, element_fault(path, fields, element));
    }
    fault
}

/// Whether the package of a path sees all fields.
fn all_visible(path: &str, fields: &[Field]) -> bool
    ensures { result ≡ list_all (λ f. is_visible path.now f.0) (map typed_field fields.now) }
{
    for field in fields {
        if !is_visible(path, field) {
            return false;
        }
    }
    true
}

/// Whether all elements have keys, or they are as many as the fields.
fn is_counted(fields: &[Field], elements: &[Element<'_>]) -> bool
    ensures { result ≡ is_counted (map typed_field fields.now) (map keyed_part elements.now) }
{
    all_keyed(elements) || (!any_keyed(elements) && elements.len() == fields.len())
}

/// The least of what is wrong with the keys, the number and the order of a struct's elements. An
/// `Err` only where memory ran out.
#[tactic(auto, using(crate::proofs::Gathering::least_both))]
fn struct_fault(
    alloc: Global,
    path: &str,
    fields: &NamedFields<'_>,
    elements: &[Element<'_>],
) -> Result<Option<FaultKind>, AllocError>
    ensures { IfOk result (λ fault. fault ≡ least (struct_faults path.now (fields_seen fields.now) (map keyed_part elements.now))) }
{
    let keys = keys_fault(path, fields, elements);
    let differs = keys_differ(alloc, elements)?;
    let doubled = when(!differs, FaultKind::Redeclared);
    let count = when(!is_counted(fields.fields, elements), FaultKind::Count);
    let hidden = !all_keyed(elements) && !all_visible(path, fields.fields);
    let hidden = when(hidden, FaultKind::Unexported);
    let keyed = lesser(keys, doubled);
    let counted = lesser(keyed, count);
    Ok(lesser(counted, hidden))
}

/// The parts that elements of a struct are for: where they aren't counted right, those of keys
/// alone.
fn struct_slots<'a>(fields: NamedFields<'a>, elements: &[Element<'_>]) -> Slots<'a>
    ensures { slots_of result ≡ struct_slot (fields_seen fields.entry) (map keyed_part elements.now) }
{
    if is_counted(fields.fields, elements) {
        Slots::Fields(fields)
    } else {
        Slots::Named(fields)
    }
}

/// Fields for the keys of some elements.
fn fields_for<'a>(
    alloc: Global,
    fields: &'a [Field],
    elements: &[Element<'_>],
) -> Result<NamedFields<'a>, AllocError>
    ensures { IfOk result (λ all. all.fields.now ≡ fields.now) }
{
    if elements.len() > 8 {
        NamedFields::many(alloc, fields)
    } else {
        Ok(NamedFields::few(fields))
    }
}

/// The elements of a struct as its fields.
fn struct_parts(
    alloc: Global,
    path: &str,
    fields: &[Field],
    elements: Vec<Element<'_>>,
) -> Result<Vec<TypedPart>, RuleError>
    ensures { Gives (all_of part_view) result (struct_parts path.now (map typed_field fields.now) (map keyed_part elements.entry.items)) }
{
    let fields = fields_for(alloc, fields, &elements)?;
    let fault = struct_fault(alloc, path, &fields, &elements)?;
    let slots = struct_slots(fields, &elements);
    parts_by(alloc, &slots, elements, fault)
}

/// The elements of an array of a length as its elements.
fn array_parts(
    alloc: Global,
    length: u32,
    of: &GoType,
    elements: Vec<Element<'_>>,
) -> Result<Vec<TypedPart>, RuleError>
    ensures { Gives (all_of part_view) result (array_parts length (go_type of.now) (map keyed_part elements.entry.items)) }
{
    let keyed = when(any_keyed(&elements), FaultKind::LeftOut);
    let long = when((length as usize) < elements.len(), FaultKind::Index);
    parts_by(alloc, &Slots::Elements(of), elements, lesser(keyed, long))
}

/// The parts of a literal of a type.
fn parts_of(
    alloc: Global,
    path: &str,
    of: &GoType,
    elements: Vec<Element<'_>>,
) -> Result<Vec<TypedPart>, RuleError>
    ensures { Gives (all_of part_view) result (parts_of path.now (go_type of.now) (map keyed_part elements.entry.items)) }
{
    match underlying(of) {
        GoType::Array(length, of) => array_parts(alloc, *length, &of.of, elements),
        GoType::Struct(fields) => struct_parts(alloc, path, &fields.list, elements),
        _ => Err(RuleError::Broken(FaultKind::Mismatch)),
    }
}

/// The elements of a slice. `LeftOut` where one has a key.
fn slice_parts(
    alloc: Global,
    of: &GoType,
    elements: Vec<Element<'_>>,
) -> Result<Vec<TypedExpr>, RuleError>
    ensures { Gives (all_of as_expr) result (slice_parts (go_type of.now) (map keyed_part elements.entry.items)) }
{
    let mut all = Gathered::new(alloc, when(any_keyed(&elements), FaultKind::LeftOut));
    for element in elements {
        all.add(assigned(alloc, of.copy()?, element.value))?;
    }
    all.finish()
}

/// A literal of a type, in the package of a path. `Mismatch` where the type is no struct, array or
/// slice. Of an array or a slice: `LeftOut` where an element has a key; of an array `Index` where they are too many. Of a
/// struct: `Undeclared`, `Unexported` and `Redeclared` of keys, `Count` where not all elements have
/// one and they aren't one for each field, `Unexported` where one without keys has a field that
/// isn't seen. Of the elements `Assign` and `Range`.
pub(crate) fn literal_of(
    alloc: Global,
    path: &str,
    of: GoType,
    elements: Vec<Element<'_>>,
) -> Result<TypedExpr, RuleError>
    ensures { Gives as_expr result (literal_of path.now (go_type of) (map keyed_part elements.entry.items)) }
{
    if let Some(element) = slice_element(&of) {
        let elements = slice_parts(alloc, element, elements)?;
        return Ok(slice_elements(of, elements));
    }
    let parts = parts_of(alloc, path, &of, elements)?;
    Ok(literal(of, parts))
}

/// The text of a key, if there is one.
pub(crate) fn key_text(key: &Key) -> Option<&str>
    ensures { option_map (λ k. k.now) result ≡ key_text key.now }
{
    match key.name() {
        Some(name) => Some(name.text()),
        None => None,
    }
}

/// What is due of a literal that leaves out its type.
#[derive(Clone, Copy)]
pub(crate) enum Due<'a> {
    /// It takes this type.
    Taken(&'a GoType),
    /// It has to write its type; its elements are those of this one, if it is for a field.
    Written(Option<&'a GoType>),
    /// Nothing.
    Nothing,
}

/// The type of the field that the element of a number and a key is for.
fn field_type<'a>(fields: &'a [Field], number: usize, key: Option<&str>) -> Option<&'a GoType>
    ensures { option_map (λ t. go_type t.now) result ≡ option_map (λ p. p.1) (field_slot (map typed_field fields.now) number (option_map (λ k. k.now) key.entry)) }
{
    let Some(name) = key else {
        return Some(&fields.get(number)?.of);
    };
    let (_, field) = field_named(fields, name)?;
    Some(&field.of)
}

/// What is due of an element that leaves out its type, by the type of its literal, where that is
/// known, by its number and its key.
pub(crate) fn element_due<'a>(of: Option<&'a GoType>, number: usize, key: Option<&str>) -> Due<'a>
    ensures { due_of result ≡ element_due (option_map (λ t. go_type t.now) of.entry) number (option_map (λ k. k.now) key.entry) }
{
    let Some(of) = of else {
        return Due::Nothing;
    };
    match underlying(of) {
        GoType::Array(_, of) => Due::Taken(&of.of),
        GoType::Slice(of) => Due::Taken(&of.of),
        GoType::Struct(fields) => Due::Written(field_type(&fields.list, number, key)),
        _ => Due::Nothing,
    }
}

impl<'a> Due<'a> {
    /// The type that the elements are of, if there is one.
    pub(crate) fn of(self) -> Option<&'a GoType>
        ensures { option_map (λ t. go_type t.now) result ≡ due_type (due_of self.entry) }
    {
        match self {
            Due::Taken(of) => Some(of),
            Due::Written(of) => of,
            Due::Nothing => None,
        }
    }
}

/// What takes a value for which nothing is due takes any.
fn any_value() -> TypedExpr
    ensures { as_expr result ≡ any_value }
{
    constant(GoType::Basic(Basic::Bool), Const::Bool(true))
}

/// The least of what is wrong with a literal that has to write its type: that it doesn't, and what it
/// breaks as one of the type, if there is one. An `Err` only where memory ran out.
fn unwritten(
    alloc: Global,
    path: &str,
    of: Option<&GoType>,
    elements: Vec<Element<'_>>,
) -> Result<Option<FaultKind>, AllocError>
    ensures { IfOk result (λ kind. kind ≡ unwritten path.now (option_map (λ t. go_type t.now) of.entry) (map keyed_part elements.entry.items)) }
{
    let Some(of) = of else {
        return Ok(Some(FaultKind::Mismatch));
    };
    match literal_of(alloc, path, of.copy()?, elements) {
        Ok(_) => Ok(Some(FaultKind::Mismatch)),
        Err(RuleError::Broken(kind)) => Ok(lesser(Some(FaultKind::Mismatch), Some(kind))),
        Err(RuleError::Memory) => Err(AllocError),
    }
}

/// A literal at a place that leaves out its type, in the package of a path, where its elements are
/// known. Where nothing is due it is any value, since nothing takes it.
pub(crate) fn untyped_literal_at(
    alloc: Global,
    place: Place,
    path: &str,
    due: Due<'_>,
    elements: Option<Vec<Element<'_>>>,
) -> Result<Option<TypedExpr>, ExprError>
    ensures { AnswersAt as_expr result place (asked (untyped_literal path.now (due_of due.entry)) (option_map (all_of keyed_part) elements.entry)) }
{
    let Some(elements) = elements else {
        return Ok(None);
    };
    match due {
        Due::Taken(of) => match literal_of(alloc, path, of.copy()?, elements) {
            Ok(value) => Ok(Some(value)),
            Err(error) => Err(error.at(place)),
        },
        Due::Written(of) => match unwritten(alloc, path, of, elements)? {
            Some(kind) => Err(ExprError::Faulty(place, kind)),
            None => Ok(None),
        },
        Due::Nothing => Ok(Some(any_value())),
    }
}

/// A literal at a place, in the package of a path, where its type and its elements are known.
pub(crate) fn literal_at<'a>(
    alloc: Global,
    place: Place,
    path: &str,
    of: Option<GoType>,
    elements: Option<Vec<Element<'_>>>,
) -> Result<Option<Known<'a>>, ExprError>
    ensures { AnswersAt known_of result place (valued (asked_both (literal_of path.now) (option_map go_type of) (option_map (all_of keyed_part) elements.entry))) }
{
    let Some(of) = of else {
        return Ok(None);
    };
    let Some(elements) = elements else {
        return Ok(None);
    };
    value_at(place, literal_of(alloc, path, of, elements))
}
