//! What an event has to have before a filter can match it.

ghost use Rattle.std.specs.Prelude.{◌≡◌, option_map};
ghost use Rattle.gr_event.specs.Event.{same_value};
ghost use Rattle.gr_event.specs.Get.{part_value};
ghost use Rattle.gr_filter.specs.Tree.{tree_of};
ghost use Rattle.gr_match.specs.Needed.{Pair, pair_of, literal_value, equation, needed};

use gr_event::{Part, Value};
use gr_filter::{Node, Operand, Sign};

/// A name and the value that it is to have.
#[derive(Clone, Copy)]
pub(crate) struct NamedPart<'a> {
    /// The bytes of the name.
    pub(crate) name: &'a [u8],
    /// The value, as a reader sees it.
    pub(crate) part: Part<'a>,
}

/// The first `name = literal` among the parts that the outermost ANDs join.
pub(crate) fn needed(node: &Node) -> Option<NamedPart<'_>>
    ensures { option_map pair_of result ≡ needed (tree_of node.now) }
{
    match node {
        Node::Compare { left, sign, right } => equation(left, *sign, right),
        Node::And(left, right) => match needed(left) {
            Some(pair) => Some(pair),
            None => needed(right),
        },
        _ => None,
    }
}

/// The name and the value of `name = literal`.
fn equation<'a>(left: &'a Operand, sign: Sign, right: &'a Operand) -> Option<NamedPart<'a>>
    ensures { option_map pair_of result ≡ equation left.now sign right.now }
{
    match left {
        Operand::Name(name) => match sign {
            Sign::Equal => literal(right).map(|part| NamedPart {
                name: name.as_slice(),
                part,
            }),
            _ => None,
        },
        _ => None,
    }
}

/// The value of a literal; a name is none.
fn literal(operand: &Operand) -> Option<Part<'_>>
    ensures { option_map part_value result ≡ literal_value operand.now }
{
    match operand {
        Operand::Name(_) => None,
        Operand::Int(number) => Some(Part::Int(*number)),
        Operand::Text(text) => Some(Part::Text(text.as_slice())),
        Operand::Bool(holds) => Some(Part::Bool(*holds)),
    }
}

/// Whether the value that a reader sees is this one.
pub(crate) fn is_part(part: Part, value: &Value) -> bool
    ensures { result ≡ same_value (part_value part.entry) value.now }
{
    match part {
        Part::Int(a) => matches!(value, Value::Int(b) if a == *b),
        Part::Text(a) => match value {
            Value::Text(b) => a == b.as_slice(),
            Value::Int(_) | Value::Bool(_) => false,
        },
        Part::Bool(a) => matches!(value, Value::Bool(b) if a == *b),
    }
}
