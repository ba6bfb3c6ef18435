//! Whether it is plain from two filters that the one covers the other. It takes no memory and little time, and sees
//! less than `gr_cover` does: that each part of the one, as outermost ANDs join them, follows from a part of the other.

ghost use Rattle.std.specs.Prelude.{◌≡◌, true};
ghost use Rattle.gr_cover.specs.Covering.{covered};
ghost use Rattle.gr_event.specs.declared.event.Event.{Event};
ghost use Rattle.gr_filter.specs.Tree.{tree_of, compare};
ghost use Rattle.gr_filter.specs.Truth.{operand_value};
ghost use Rattle.gr_edge.specs.Following.{Follows, integer_of};

use gr_filter::{Node, Operand, Sign};

/// Whether each part of the wide filter follows from a part of the narrow one.
#[tactic(auto, using(crate::proofs::Widening::both_wide))]
pub(crate) fn is_wider(wide: &Node, narrow: &Node) -> bool
    ensures { result ≡ true → covered (tree_of wide.now) (tree_of narrow.now) }
{
    match wide {
        Node::And(left, right) => is_wider(left, narrow) && is_wider(right, narrow),
        Node::Compare { left, sign, right } => follows(left, *sign, right, narrow),
        _ => false,
    }
}

/// Whether a comparison follows from a part of the narrow filter.
#[tactic(auto, using(crate::proofs::Widening::left_narrow, crate::proofs::Widening::right_narrow, crate::proofs::Widening::compared))]
fn follows(left: &Operand, sign: Sign, right: &Operand, narrow: &Node) -> bool
    ensures { result ≡ true → covered (compare left.now sign right.now) (tree_of narrow.now) }
{
    match narrow {
        Node::And(first, second) => {
            follows(left, sign, right, first) || follows(left, sign, right, second)
        }
        Node::Compare {
            left: name,
            sign: other,
            right: bound,
        } => is_same_name(left, name) && is_implied(sign, right, *other, bound),
        _ => false,
    }
}

/// Whether both are the same name.
fn is_same_name(a: &Operand, b: &Operand) -> bool
    ensures { result ≡ true → (e : Event) → operand_value a.now e ≡ operand_value b.now e }
{
    match a {
        Operand::Name(a) => match b {
            Operand::Name(b) => a.as_slice() == b.as_slice(),
            _ => false,
        },
        _ => false,
    }
}

/// Whether a value that stands so to the narrow literal stands so to the wide one.
fn is_implied(sign: Sign, wide: &Operand, other: Sign, narrow: &Operand) -> bool
    ensures { result ≡ true → Follows sign wide.now other narrow.now }
{
    match wide {
        Operand::Text(t) => match narrow {
            Operand::Text(u) => sign == other && t.as_slice() == u.as_slice(),
            _ => false,
        },
        Operand::Int(_) => are_implied(sign, wide, other, narrow),
        _ => false,
    }
}

/// The same of two integers.
fn are_implied(sign: Sign, wide: &Operand, other: Sign, narrow: &Operand) -> bool
    ensures { result ≡ true → Follows sign wide.now other narrow.now }
{
    match integer(wide) {
        Some(k) => match integer(narrow) {
            Some(n) => are_ordered(sign, k, other, n),
            None => false,
        },
        None => false,
    }
}

/// The integer that an operand is.
fn integer(operand: &Operand) -> Option<i64>
    ensures { result ≡ integer_of operand.now }
{
    match operand {
        Operand::Int(number) => Some(*number),
        _ => None,
    }
}

/// Whether an integer that stands so to `narrow` stands so to `wide`.
fn are_ordered(sign: Sign, wide: i64, other: Sign, narrow: i64) -> bool
    ensures { result ≡ true → Follows sign (Operand.Int wide) other (Operand.Int narrow) }
{
    if sign != other {
        return false;
    }
    match sign {
        Sign::Greater => wide <= narrow,
        Sign::AtLeast => wide <= narrow,
        Sign::Less => narrow <= wide,
        Sign::AtMost => narrow <= wide,
        Sign::Equal => wide == narrow,
        Sign::Differs => wide == narrow,
    }
}
