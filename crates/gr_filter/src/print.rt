//! The printed form of a filter.

ghost use Rattle.std.specs.Prelude.{◌≡◌, ◌++◌, ◌≤◌, Ok, length, IfOk, OnOk};
ghost use Rattle.gr_filter.specs.Grammar.{filter_text};
ghost use Rattle.gr_filter.specs.Tree.{tree_of, compare, between, one_of, like, is_null};
ghost use Rattle.gr_filter.specs.Written.{depth};
ghost use Rattle.gr_filter.specs.declared.parser.TheConstants.{LEVELS, MAX_FILTER_BYTES};
ghost use Rattle.gr_filter.specs.Print.{sign_text, doubled, quoted, operand_text, more_text, literals_text, not_text};
ghost use Rattle.gr_filter.specs.Print.{tree_text};

use crate::fault::Memory;
use crate::filter::Filter;
use crate::node::{Node, Operand, Sign};
use gr_event::Text;
use std::alloc::Global;

/// The filter's text, with all parentheses.
///
/// Where it has at most 4,096 bytes and nests at most 64 deep, it reads as the filter again.
pub fn text(alloc: Global, filter: &Filter) -> Result<Text, Memory>
    ensures text { IfOk result (λ t. t ≡ tree_text (tree_of filter.now)) }
    ensures reads_back { let tree = tree_of filter.now in
        IfOk result (λ t. length t ≤ MAX_FILTER_BYTES → depth tree ≤ LEVELS → filter_text t ≡ Ok tree) }
{
    let mut out = Text::new(alloc);
    put_node(alloc, &mut out, filter.root())?;
    Ok(out)
}

/// Puts the text of a node.
fn put_node(alloc: Global, out: &mut Text, node: &Node) -> Result<(), Memory>
    ensures { OnOk result (out.new ≡ out.old ++ tree_text (tree_of node.now)) }
{
    match node {
        Node::Alone(operand) => put_operand(alloc, out, operand),
        Node::Compare { left, sign, right } => put_compare(alloc, out, left, *sign, right),
        Node::Between {
            negated,
            operand,
            low,
            high,
        } => put_between(alloc, out, *negated, operand, low, high),
        Node::OneOf {
            negated,
            name,
            literals,
        } => put_one_of(alloc, out, *negated, name, literals.as_slice()),
        Node::Like {
            negated,
            name,
            pattern,
        } => put_like(out, *negated, name, pattern),
        Node::IsNull { negated, name } => put_null(out, *negated, name),
        Node::Not(node) => {
            out.append(b"(NOT ")?;
            put_node(alloc, out, node)?;
            out.append(b")")
        }
        Node::And(left, right) => {
            out.append(b"(")?;
            put_node(alloc, out, left)?;
            out.append(b" AND ")?;
            put_node(alloc, out, right)?;
            out.append(b")")
        }
        Node::Or(left, right) => {
            out.append(b"(")?;
            put_node(alloc, out, left)?;
            out.append(b" OR ")?;
            put_node(alloc, out, right)?;
            out.append(b")")
        }
    }
}

/// Puts two operands with a sign between them.
fn put_compare(
    alloc: Global,
    out: &mut Text,
    left: &Operand,
    sign: Sign,
    right: &Operand,
) -> Result<(), Memory>
    ensures { OnOk result (out.new ≡ out.old ++ tree_text (compare left.now sign right.now)) }
{
    put_operand(alloc, out, left)?;
    out.append(sign_text(sign))?;
    put_operand(alloc, out, right)
}

/// Puts an operand, BETWEEN and both ends.
fn put_between(
    alloc: Global,
    out: &mut Text,
    negated: bool,
    operand: &Operand,
    low: &Operand,
    high: &Operand,
) -> Result<(), Memory>
    ensures { OnOk result (out.new ≡ out.old ++ tree_text (between negated operand.now low.now high.now)) }
{
    put_operand(alloc, out, operand)?;
    out.append(not_text(negated))?;
    out.append(b" BETWEEN ")?;
    put_operand(alloc, out, low)?;
    out.append(b" AND ")?;
    put_operand(alloc, out, high)
}

/// Puts a name, IN and literals in parentheses.
fn put_one_of(
    alloc: Global,
    out: &mut Text,
    negated: bool,
    name: &Text,
    literals: &[Operand],
) -> Result<(), Memory>
    ensures { OnOk result (out.new ≡ out.old ++ tree_text (one_of negated name.now literals.now)) }
{
    out.append(name.as_slice())?;
    out.append(not_text(negated))?;
    out.append(b" IN (")?;
    put_literals(alloc, out, literals)?;
    out.append(b")")
}

/// Puts a name, LIKE and a pattern in quotes.
fn put_like(out: &mut Text, negated: bool, name: &Text, pattern: &Text) -> Result<(), Memory>
    ensures { OnOk result (out.new ≡ out.old ++ tree_text (like negated name.now pattern.now)) }
{
    out.append(name.as_slice())?;
    out.append(not_text(negated))?;
    out.append(b" LIKE ")?;
    put_quoted(out, pattern.as_slice())
}

/// Puts a name and IS NULL or IS NOT NULL.
fn put_null(out: &mut Text, negated: bool, name: &Text) -> Result<(), Memory>
    ensures { OnOk result (out.new ≡ out.old ++ tree_text (is_null negated name.now)) }
{
    out.append(name.as_slice())?;
    out.append(b" IS")?;
    out.append(not_text(negated))?;
    out.append(b" NULL")
}

/// A sign, with a space on both sides.
fn sign_text(sign: Sign) -> &'static [u8]
    ensures { result.now ≡ sign_text sign }
{
    match sign {
        Sign::Equal => b" = ",
        Sign::Differs => b" <> ",
        Sign::Less => b" < ",
        Sign::AtMost => b" <= ",
        Sign::Greater => b" > ",
        Sign::AtLeast => b" >= ",
    }
}

/// NOT with a space before it, or nothing.
fn not_text(negated: bool) -> &'static [u8]
    ensures { result.now ≡ not_text negated }
{
    if negated { b" NOT" } else { b"" }
}

/// Puts an operand: a name as it is, a number, a text in quotes, TRUE or FALSE.
fn put_operand(alloc: Global, out: &mut Text, operand: &Operand) -> Result<(), Memory>
    ensures { OnOk result (out.new ≡ out.old ++ operand_text operand.now) }
{
    match operand {
        Operand::Name(name) => out.append(name.as_slice()),
        Operand::Int(number) => {
            let digits = format!(in alloc; "{number}")?;
            out.append(digits.as_bytes())
        }
        Operand::Text(text) => put_quoted(out, text.as_slice()),
        Operand::Bool(true) => out.append(b"TRUE"),
        Operand::Bool(false) => out.append(b"FALSE"),
    }
}

/// Puts a text in quotes, with each quote of it doubled.
fn put_quoted(out: &mut Text, text: &[u8]) -> Result<(), Memory>
    ensures { OnOk result (out.new ≡ out.old ++ quoted text.now) }
{
    out.push(b'\'')?;
    put_doubled(out, text)?;
    out.push(b'\'')
}

/// Puts a text with each quote of it doubled.
fn put_doubled(out: &mut Text, text: &[u8]) -> Result<(), Memory>
    ensures { OnOk result (out.new ≡ out.old ++ doubled text.now) }
{
    for byte in text {
        if *byte == b'\'' {
            out.push(b'\'')?;
        }
        out.push(*byte)?;
    }
    Ok(())
}

/// Puts literals with commas between them.
fn put_literals(alloc: Global, out: &mut Text, literals: &[Operand]) -> Result<(), Memory>
    ensures { OnOk result (out.new ≡ out.old ++ literals_text literals.now) }
{
    match literals {
        [] => Ok(()),
        [first, rest @ ..] => {
            put_operand(alloc, out, first)?;
            put_more(alloc, out, rest)
        }
    }
}

/// Puts literals, with a comma before each.
fn put_more(alloc: Global, out: &mut Text, literals: &[Operand]) -> Result<(), Memory>
    ensures { OnOk result (out.new ≡ out.old ++ more_text literals.now) }
{
    match literals {
        [] => Ok(()),
        [first, rest @ ..] => {
            out.append(b", ")?;
            put_operand(alloc, out, first)?;
            put_more(alloc, out, rest)
        }
    }
}
