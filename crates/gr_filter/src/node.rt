//! The tree of a filter.

ghost use Rattle.std.specs.Prelude.{◌≡◌, ◌++◌, ◌∷◌, [], IfOk, OnOk, OnErr};
ghost use Rattle.gr_filter.specs.Tree.{tree_of, between, one_of, like};

use gr_event::Text;
use std::alloc::{AllocError, Global};
use std::marker::Model;

/// What is compared: a name of the event, or a literal.
#[derive(Drop)]
pub enum Operand {
    /// A name, which stands for its value in the event.
    Name(Text),
    /// An integer.
    Int(i64),
    /// A text, without its quotes.
    Text(Text),
    /// TRUE or FALSE.
    Bool(bool),
}

/// How two operands are compared.
#[derive(Clone, Copy, Debug, PartialEq, Eq)]
pub enum Sign {
    /// `=`
    Equal,
    /// `<>`
    Differs,
    /// `<`
    Less,
    /// `<=`
    AtMost,
    /// `>`
    Greater,
    /// `>=`
    AtLeast,
}

/// A list of operands, seen as it is.
#[derive(Drop)]
pub struct Operands {
    operands: Vec<Operand>,
}

impl Model for Operands {
    ghost use Rattle.std.specs.Prelude.{List};
    ghost use Rattle.gr_filter.specs.declared.node.Operand.{Operand as AnOperand};

    ghost Value = { List AnOperand };

    ghost view = { λ o. o.operands.items };
}

/// A node of a filter's tree.
#[derive(Drop)]
pub enum Node {
    /// A name, TRUE or FALSE alone.
    Alone(Operand),
    /// Two operands and a sign.
    Compare {
        /// What stands before the sign.
        left: Operand,
        /// How both are compared.
        sign: Sign,
        /// What stands behind the sign.
        right: Operand,
    },
    /// BETWEEN, with both ends.
    Between {
        /// Whether NOT stands before BETWEEN.
        negated: bool,
        /// What is to lie between both ends.
        operand: Operand,
        /// The lower end.
        low: Operand,
        /// The upper end.
        high: Operand,
    },
    /// IN, with its literals.
    OneOf {
        /// Whether NOT stands before IN.
        negated: bool,
        /// The name whose value is to be one of the literals.
        name: Text,
        /// The literals.
        literals: Operands,
    },
    /// LIKE, with its pattern.
    Like {
        /// Whether NOT stands before LIKE.
        negated: bool,
        /// The name whose value is to fit the pattern.
        name: Text,
        /// The pattern: `%` stands for any characters, `_` for one.
        pattern: Text,
    },
    /// IS NULL.
    IsNull {
        /// Whether NOT stands before NULL.
        negated: bool,
        /// The name that is to be absent.
        name: Text,
    },
    /// NOT.
    Not(Box<Node>),
    /// AND.
    And(Box<Node>, Box<Node>),
    /// OR.
    Or(Box<Node>, Box<Node>),
}

impl Operand {
    /// An equal operand.
    pub fn copy(&self, alloc: Global) -> Result<Operand, AllocError>
        ensures { IfOk result (λ o. o ≡ self.now) }
    {
        match self {
            Operand::Name(name) => Ok(Operand::Name(copy_text(alloc, name)?)),
            Operand::Int(number) => Ok(Operand::Int(*number)),
            Operand::Text(text) => Ok(Operand::Text(copy_text(alloc, text)?)),
            Operand::Bool(holds) => Ok(Operand::Bool(*holds)),
        }
    }
}

impl Operands {
    /// No operands. Takes no memory.
    pub fn new(alloc: Global) -> Operands
        ensures { result ≡ [] }
    {
        Operands {
            operands: Vec::new(alloc),
        }
    }

    /// Puts an operand at the end. At want of memory the list stays as it was.
    pub fn push(&mut self, operand: Operand) -> Result<(), AllocError>
        ensures ok { OnOk result (self.new ≡ self.old ++ operand ∷ []) }
        ensures err { OnErr result (self.new ≡ self.old) }
    {
        self.operands.push(operand)?;
        Ok(())
    }

    /// Its operands.
    pub fn as_slice(&self) -> &[Operand]
        ensures { result.now ≡ self.now }
    {
        &self.operands
    }

    /// An equal list.
    pub fn copy(&self, alloc: Global) -> Result<Operands, AllocError>
        ensures { IfOk result (λ o. o ≡ self.now) }
    {
        let mut copied = Operands::new(alloc);
        for operand in self.as_slice() {
            copied.push(operand.copy(alloc)?)?;
        }
        Ok(copied)
    }
}

/// An equal text.
pub(crate) fn copy_text(alloc: Global, text: &Text) -> Result<Text, AllocError>
    ensures { IfOk result (λ t. t ≡ text.now) }
{
    Text::from_slice(alloc, text.as_slice())
}

/// A node of BETWEEN with copies of its operands.
fn copy_between(
    alloc: Global,
    negated: bool,
    operand: &Operand,
    low: &Operand,
    high: &Operand,
) -> Result<Node, AllocError>
    ensures { IfOk result (λ n. tree_of n ≡ between negated operand.now low.now high.now) }
{
    Ok(Node::Between {
        negated,
        operand: operand.copy(alloc)?,
        low: low.copy(alloc)?,
        high: high.copy(alloc)?,
    })
}

/// A node of IN with copies of its name and its literals.
fn copy_one_of(
    alloc: Global,
    negated: bool,
    name: &Text,
    literals: &Operands,
) -> Result<Node, AllocError>
    ensures { IfOk result (λ n. tree_of n ≡ one_of negated name.now literals.now) }
{
    Ok(Node::OneOf {
        negated,
        name: copy_text(alloc, name)?,
        literals: literals.copy(alloc)?,
    })
}

/// A node of LIKE with copies of its name and its pattern.
fn copy_like(alloc: Global, negated: bool, name: &Text, pattern: &Text) -> Result<Node, AllocError>
    ensures { IfOk result (λ n. tree_of n ≡ like negated name.now pattern.now) }
{
    Ok(Node::Like {
        negated,
        name: copy_text(alloc, name)?,
        pattern: copy_text(alloc, pattern)?,
    })
}

impl Node {
    /// A node with an equal tree.
    pub fn copy(&self, alloc: Global) -> Result<Node, AllocError>
        ensures { IfOk result (λ n. tree_of n ≡ tree_of self.now) }
    {
        match self {
            Node::Alone(operand) => Ok(Node::Alone(operand.copy(alloc)?)),
            Node::Compare { left, sign, right } => Ok(Node::Compare {
                left: left.copy(alloc)?,
                sign: *sign,
                right: right.copy(alloc)?,
            }),
            Node::Between {
                negated,
                operand,
                low,
                high,
            } => copy_between(alloc, *negated, operand, low, high),
            Node::OneOf {
                negated,
                name,
                literals,
            } => copy_one_of(alloc, *negated, name, literals),
            Node::Like {
                negated,
                name,
                pattern,
            } => copy_like(alloc, *negated, name, pattern),
            Node::IsNull { negated, name } => Ok(Node::IsNull {
                negated: *negated,
                name: copy_text(alloc, name)?,
            }),
            Node::Not(node) => Ok(Node::Not(Box::new(alloc, node.copy(alloc)?)?)),
            Node::And(left, right) => {
                let left = Box::new(alloc, left.copy(alloc)?)?;
                Ok(Node::And(left, Box::new(alloc, right.copy(alloc)?)?))
            }
            Node::Or(left, right) => {
                let left = Box::new(alloc, left.copy(alloc)?)?;
                Ok(Node::Or(left, Box::new(alloc, right.copy(alloc)?)?))
            }
        }
    }
}
