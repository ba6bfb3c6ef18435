//! The truth of a filter for an event.

ghost use Rattle.std.specs.Prelude.{◌≡◌, option_map, Some};
ghost use Rattle.gr_event.specs.Get.{part_value, value_of};
ghost use Rattle.gr_filter.specs.Tree.{tree_of};
ghost use Rattle.gr_filter.specs.Truth.{operand_value, holds, holds_same, compare_values, compare_both, truth_between};
ghost use Rattle.gr_filter.specs.Truth.{truth_one_of, truth_like, truth_alone, truth_null, truth};

use crate::filter::Filter;
use crate::kleene::Kleene;
use crate::like::fits;
use crate::node::{Node, Operand, Sign};
use gr_event::{Event, Part};
use std::cmp::Ordering;

/// Whether the filter holds of the event; it matches where this is `True`. Takes no memory.
pub fn truth(filter: &Filter, event: &Event) -> Kleene
    ensures { result ≡ truth (tree_of filter.now) event.now }
{
    truth_of(filter.root(), event)
}

/// Whether the tree of a node holds of an event.
fn truth_of(node: &Node, event: &Event) -> Kleene
    ensures { result ≡ truth (tree_of node.now) event.now }
{
    match node {
        Node::Alone(operand) => alone(value(&*operand, &*event)),
        Node::Compare { left, sign, right } => {
            compare(*sign, value(&*left, &*event), value(&*right, &*event))
        }
        Node::Between {
            negated,
            operand,
            low,
            high,
        } => between(
            *negated,
            value(&*operand, &*event),
            value(&*low, &*event),
            value(&*high, &*event),
        ),
        Node::OneOf {
            negated,
            name,
            literals,
        } => one_of(event.get(name.as_slice()), event, literals.as_slice()).opposite_if(*negated),
        Node::Like {
            negated,
            name,
            pattern,
        } => like(event.get(name.as_slice()), pattern.as_slice()).opposite_if(*negated),
        Node::IsNull { negated, name } => null(*negated, event.get(name.as_slice())),
        Node::Not(node) => truth_of(node, event).opposite(),
        Node::And(left, right) => truth_of(left, event).least(truth_of(right, event)),
        Node::Or(left, right) => truth_of(left, event).greatest(truth_of(right, event)),
    }
}

/// The value of an operand, unless it is an absent name.
fn value<'a>(operand: &'a Operand, event: &'a Event) -> Option<Part<'a>>
    ensures { option_map part_value result ≡ operand_value operand.now event.now }
{
    match operand {
        Operand::Name(name) => event.get(name.as_slice()),
        Operand::Int(number) => Some(Part::Int(*number)),
        Operand::Text(text) => Some(Part::Text(text.as_slice())),
        Operand::Bool(holds) => Some(Part::Bool(*holds)),
    }
}

/// Whether a sign holds of integers in this order.
fn holds(sign: Sign, order: Ordering) -> bool
    ensures { result ≡ holds sign order }
{
    match sign {
        Sign::Equal => order.is_eq(),
        Sign::Differs => order.is_ne(),
        Sign::Less => order.is_lt(),
        Sign::AtMost => order.is_le(),
        Sign::Greater => order.is_gt(),
        Sign::AtLeast => order.is_ge(),
    }
}

/// Whether a sign holds of texts or truth values that are the same or not.
fn holds_same(sign: Sign, same: bool) -> bool
    ensures { result ≡ holds_same sign same }
{
    match sign {
        Sign::Equal => same,
        Sign::Differs => !same,
        Sign::Less | Sign::AtMost | Sign::Greater | Sign::AtLeast => false,
    }
}

/// Compares two values: false where their types differ.
fn compare_values(sign: Sign, left: Part, right: Part) -> Kleene
    ensures { result ≡ compare_values sign (part_value left.entry) (part_value right.entry) }
{
    match left {
        Part::Int(a) => match right {
            Part::Int(b) => Kleene::known(holds(sign, a.cmp(&b))),
            Part::Text(_) | Part::Bool(_) => Kleene::False,
        },
        Part::Text(a) => match right {
            Part::Text(b) => Kleene::known(holds_same(sign, a == b)),
            Part::Int(_) | Part::Bool(_) => Kleene::False,
        },
        Part::Bool(a) => match right {
            Part::Bool(b) => Kleene::known(holds_same(sign, a == b)),
            Part::Int(_) | Part::Text(_) => Kleene::False,
        },
    }
}

/// Compares two operands: unknown where one of them is an absent name.
fn compare(sign: Sign, left: Option<Part>, right: Option<Part>) -> Kleene
    ensures { result ≡ compare_both sign (option_map part_value left.entry) (option_map part_value right.entry) }
{
    match left {
        None => Kleene::Unknown,
        Some(a) => match right {
            None => Kleene::Unknown,
            Some(b) => compare_values(sign, a, b),
        },
    }
}

/// Whether the operand lies between two others, both included, or does not.
fn between(negated: bool, operand: Option<Part>, low: Option<Part>, high: Option<Part>) -> Kleene
    ensures { result
        ≡ truth_between negated (option_map part_value operand.entry) (option_map part_value low.entry)
        (option_map part_value high.entry) }
{
    if negated {
        compare(Sign::Less, operand, low).greatest(compare(Sign::Greater, operand, high))
    } else {
        compare(Sign::AtLeast, operand, low).least(compare(Sign::AtMost, operand, high))
    }
}

/// Whether the operand equals one of the literals.
fn one_of(operand: Option<Part>, event: &Event, literals: &[Operand]) -> Kleene
    ensures { result ≡ truth_one_of (option_map part_value operand.entry) event.now literals.now }
{
    match literals {
        [] => Kleene::False,
        [first, rest @ ..] => compare(Sign::Equal, operand, value(&*first, &*event)).greatest(
            one_of(operand, event, rest),
        ),
    }
}

/// Whether the operand is a text that the pattern fits.
fn like(operand: Option<Part>, pattern: &[u8]) -> Kleene
    ensures { result ≡ truth_like (option_map part_value operand.entry) pattern.now }
{
    match operand {
        None => Kleene::Unknown,
        Some(Part::Text(text)) => Kleene::known(fits(pattern, text)),
        Some(Part::Int(_) | Part::Bool(_)) => Kleene::False,
    }
}

/// Whether the operand is TRUE.
fn alone(operand: Option<Part>) -> Kleene
    ensures { result ≡ truth_alone (option_map part_value operand.entry) }
{
    match operand {
        None => Kleene::Unknown,
        Some(Part::Bool(holds)) => Kleene::known(holds),
        Some(Part::Int(_) | Part::Text(_)) => Kleene::False,
    }
}

/// Whether the operand is absent, or is not.
fn null(negated: bool, operand: Option<Part>) -> Kleene
    ensures { result ≡ truth_null negated (option_map part_value operand.entry) }
{
    Kleene::known(operand.is_none()).opposite_if(negated)
}
