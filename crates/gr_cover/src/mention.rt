//! The names that a filter speaks of.

ghost use Rattle.std.specs.Prelude.{◌≡◌, ◌++◌, ◌∷◌, [], IfOk, OnOk};
ghost use Rattle.gr_filter.specs.Tree.{tree_of};
ghost use Rattle.gr_cover.specs.Mentions.{literal_value, met, literals_met, compared, mentions, is_name, apart};
ghost use Rattle.gr_cover.specs.Mentions.{is_plain};

use gr_event::{Memory, Text, Value};
use gr_filter::{Node, Operand};
use std::alloc::Global;

/// A name of a filter, and the literal that it is compared with, if it is compared with one.
#[derive(Drop)]
pub(crate) struct Mention {
    /// The name that the filter says.
    pub(crate) name: Text,
    /// The literal on the other side of the comparison, if there is one.
    pub(crate) literal: Option<Value>,
}

/// Whether there is no LIKE and no comparison of two names.
pub(crate) fn is_plain(node: &Node) -> bool
    ensures { result ≡ is_plain (tree_of node.now) }
{
    match node {
        Node::Compare { left, right, .. } => apart(left, right),
        Node::Between {
            operand,
            low,
            high,
            ..
        } => apart(operand, low) && apart(operand, high),
        Node::Not(node) => is_plain(node),
        Node::And(left, right) => is_plain(left) && is_plain(right),
        Node::Or(left, right) => is_plain(left) && is_plain(right),
        Node::Like { .. } => false,
        Node::Alone(_) | Node::OneOf { .. } | Node::IsNull { .. } => true,
    }
}

/// Whether it is a name, and no literal.
fn is_name(operand: &Operand) -> bool
    ensures { result ≡ is_name operand.now }
{
    matches!(operand, Operand::Name(_))
}

/// Whether not both operands are names.
fn apart(left: &Operand, right: &Operand) -> bool
    ensures { result ≡ apart left.now right.now }
{
    !(is_name(left) && is_name(right))
}

/// Puts each name of the filter at the end, with each literal that it is compared with.
pub(crate) fn put_mentions(
    alloc: Global,
    found: &mut Vec<Mention>,
    node: &Node,
) -> Result<(), Memory>
    ensures { OnOk result (found.new.items ≡ found.old.items ++ mentions (tree_of node.now)) }
{
    match node {
        Node::Alone(operand) => put_met(alloc, found, operand, None),
        Node::Compare { left, right, .. } => put_compared(alloc, found, left, right),
        Node::Between {
            operand,
            low,
            high,
            ..
        } => {
            put_compared(alloc, found, operand, low)?;
            put_compared(alloc, found, operand, high)
        }
        Node::OneOf { name, literals, .. } => {
            put_literals(alloc, found, name, literals.as_slice())
        }
        Node::Like { name, .. } => put_mention(alloc, found, name, None),
        Node::IsNull { name, .. } => put_mention(alloc, found, name, None),
        Node::Not(node) => put_mentions(alloc, found, node),
        Node::And(left, right) => {
            put_mentions(alloc, found, left)?;
            put_mentions(alloc, found, right)
        }
        Node::Or(left, right) => {
            put_mentions(alloc, found, left)?;
            put_mentions(alloc, found, right)
        }
    }
}

/// Puts both operands of a comparison, where they are names.
fn put_compared(
    alloc: Global,
    found: &mut Vec<Mention>,
    left: &Operand,
    right: &Operand,
) -> Result<(), Memory>
    ensures { OnOk result (found.new.items ≡ found.old.items ++ compared left.now right.now) }
{
    let value = literal_value(alloc, right)?;
    put_met(alloc, found, left, value)?;
    let value = literal_value(alloc, left)?;
    put_met(alloc, found, right, value)
}

/// Puts an operand with a literal, where it is a name.
fn put_met(
    alloc: Global,
    found: &mut Vec<Mention>,
    operand: &Operand,
    literal: Option<Value>,
) -> Result<(), Memory>
    ensures { OnOk result (found.new.items ≡ found.old.items ++ met operand.now literal) }
{
    match operand {
        Operand::Name(name) => put_mention(alloc, found, name, literal),
        _ => Ok(()),
    }
}

/// Puts a name with each of the literals.
fn put_literals(
    alloc: Global,
    found: &mut Vec<Mention>,
    name: &Text,
    literals: &[Operand],
) -> Result<(), Memory>
    ensures { OnOk result (found.new.items ≡ found.old.items ++ literals_met name.now literals.now) }
{
    for literal in literals {
        let value = literal_value(alloc, literal)?;
        put_mention(alloc, found, name, value)?;
    }
    Ok(())
}

/// Puts a name with a literal or with none.
fn put_mention(
    alloc: Global,
    found: &mut Vec<Mention>,
    name: &Text,
    literal: Option<Value>,
) -> Result<(), Memory>
    ensures { OnOk result (found.new.items ≡ found.old.items ++ record { name = name.now; literal = literal } ∷ []) }
{
    let name = Text::from_slice(alloc, name.as_slice())?;
    found.push(Mention { name, literal })?;
    Ok(())
}

/// The value of a literal; a name is none.
fn literal_value(alloc: Global, operand: &Operand) -> Result<Option<Value>, Memory>
    ensures { IfOk result (λ v. v ≡ literal_value operand.now) }
{
    match operand {
        Operand::Name(_) => Ok(None),
        Operand::Int(number) => Ok(Some(Value::Int(*number))),
        Operand::Text(text) => Ok(Some(Value::Text(Text::from_slice(alloc, text.as_slice())?))),
        Operand::Bool(holds) => Ok(Some(Value::Bool(*holds))),
    }
}
