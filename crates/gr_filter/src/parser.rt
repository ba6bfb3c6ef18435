//! Reading a filter.

ghost use Rattle.std.specs.Prelude.{◌≡◌, ◌≤◌, ◌++◌, ◌∷◌, [], Ok, IfOk, length, slice_range};
ghost use Rattle.gr_filter.specs.Gives.{Gives, as_it_is, as_tree};
ghost use Rattle.gr_filter.specs.Tree.{tree_of, both, either};
ghost use Rattle.gr_filter.specs.Grammar.{misfit, literal_at, operand_at, text_of, open_at, close_at, and_word_at};
ghost use Rattle.gr_filter.specs.Grammar.{null_at, pattern_at, between_at, literals_at, one_of_at, like_at};
ghost use Rattle.gr_filter.specs.Grammar.{null_test_at, alone_at, negated_at, tail_at, test_at, not_at, and_at, or_at};
ghost use Rattle.gr_filter.specs.Grammar.{filter_text};

use crate::fault::{FilterFault, Memory};
use crate::filter::Filter;
use crate::node::{Node, Operand, Operands};
use crate::token::{Lexeme, Token, next_token, put_undoubled};
use gr_event::Text;
use std::alloc::Global;

/// How many bytes the text of a filter has at most.
pub const MAX_FILTER_BYTES: usize = 4096;

/// How deep parentheses and NOT nest at most.
pub const LEVELS: u8 = 64;

/// The filter that a text is.
///
/// `TooLong` comes first, for more than 4,096 bytes; the other faults are the first in reading order,
/// each with its place.
#[tactic(auto, unfolding(crate::specs::Grammar::filter_text))]
pub fn parse(alloc: Global, text: &[u8]) -> Result<Filter, FilterFault>
    ensures { Gives tree_of result (filter_text text.now) }
{
    if text.len() > MAX_FILTER_BYTES {
        return Err(FilterFault::TooLong);
    }
    let (root, behind) = or_at(alloc, text, LEVELS, 0)?;
    let next = next_token(text, behind);
    match next.token {
        Token::End => Ok(Filter { root }),
        _ => Err(misfit(next)),
    }
}

/// The fault of a token that does not fit.
fn misfit(next: Lexeme) -> FilterFault
    ensures { result ≡ misfit next }
{
    match next.token {
        Token::Bad => FilterFault::BadToken { at: next.from },
        Token::Wide => FilterFault::NumberRange { at: next.from },
        _ => FilterFault::Expected { at: next.from },
    }
}

/// The name that a token is.
fn name_of(alloc: Global, bytes: &[u8], next: Lexeme) -> Result<Text, FilterFault>
    requires forward { next.from ≤ next.to }
    requires within { next.to ≤ length bytes.now }
    ensures { Gives as_it_is result (Ok (slice_range bytes.now next.from next.to)) }
{
    Ok(Text::from_slice(alloc, &bytes[next.from..next.to])?)
}

/// The text that a token stands for, without its quotes.
fn text_of(alloc: Global, bytes: &[u8], next: Lexeme) -> Result<Text, FilterFault>
    requires forward { next.from ≤ next.to }
    requires within { next.to ≤ length bytes.now }
    ensures { Gives as_it_is result (Ok (text_of bytes.now next)) }
{
    let mut text = Text::new(alloc);
    if let [_, inside @ .., _] = &bytes[next.from..next.to] {
        put_undoubled(&mut text, inside)?;
    }
    Ok(text)
}

/// The literal at a place, and the place behind it.
#[tactic(auto, unfolding(crate::specs::Grammar::literal_at))]
fn literal_at(alloc: Global, bytes: &[u8], at: usize) -> Result<(Operand, usize), FilterFault>
    requires few { length bytes.now ≤ MAX_FILTER_BYTES }
    requires inside { at ≤ length bytes.now }
    ensures gives { Gives as_it_is result (literal_at bytes.now at) }
    ensures within { IfOk result (λ r. r.1 ≤ length bytes.now) }
{
    let next = next_token(bytes, at);
    match next.token {
        Token::Integer(number) => Ok((Operand::Int(number), next.to)),
        Token::Text => Ok((Operand::Text(text_of(alloc, bytes, next)?), next.to)),
        Token::True => Ok((Operand::Bool(true), next.to)),
        Token::False => Ok((Operand::Bool(false), next.to)),
        _ => Err(misfit(next)),
    }
}

/// The name or literal at a place, and the place behind it.
#[tactic(auto, unfolding(crate::specs::Grammar::operand_at, crate::specs::Grammar::literal_at))]
fn operand_at(alloc: Global, bytes: &[u8], at: usize) -> Result<(Operand, usize), FilterFault>
    requires few { length bytes.now ≤ MAX_FILTER_BYTES }
    requires inside { at ≤ length bytes.now }
    ensures gives { Gives as_it_is result (operand_at bytes.now at) }
    ensures within { IfOk result (λ r. r.1 ≤ length bytes.now) }
{
    let next = next_token(bytes, at);
    match next.token {
        Token::Name => Ok((Operand::Name(name_of(alloc, bytes, next)?), next.to)),
        _ => literal_at(alloc, bytes, at),
    }
}

/// The place behind the opening parenthesis at a place.
#[tactic(auto, unfolding(crate::specs::Grammar::open_at))]
fn open_at(bytes: &[u8], at: usize) -> Result<usize, FilterFault>
    requires few { length bytes.now ≤ MAX_FILTER_BYTES }
    requires inside { at ≤ length bytes.now }
    ensures gives { result ≡ open_at bytes.now at }
    ensures within { IfOk result (λ r. r ≤ length bytes.now) }
{
    let next = next_token(bytes, at);
    match next.token {
        Token::Open => Ok(next.to),
        _ => Err(misfit(next)),
    }
}

/// The place behind the closing parenthesis at a place.
#[tactic(auto, unfolding(crate::specs::Grammar::close_at))]
fn close_at(bytes: &[u8], at: usize) -> Result<usize, FilterFault>
    requires few { length bytes.now ≤ MAX_FILTER_BYTES }
    requires inside { at ≤ length bytes.now }
    ensures gives { result ≡ close_at bytes.now at }
    ensures within { IfOk result (λ r. r ≤ length bytes.now) }
{
    let next = next_token(bytes, at);
    match next.token {
        Token::Close => Ok(next.to),
        _ => Err(misfit(next)),
    }
}

/// The place behind the word AND at a place.
#[tactic(auto, unfolding(crate::specs::Grammar::and_word_at))]
fn and_word_at(bytes: &[u8], at: usize) -> Result<usize, FilterFault>
    requires few { length bytes.now ≤ MAX_FILTER_BYTES }
    requires inside { at ≤ length bytes.now }
    ensures gives { result ≡ and_word_at bytes.now at }
    ensures within { IfOk result (λ r. r ≤ length bytes.now) }
{
    let next = next_token(bytes, at);
    match next.token {
        Token::And => Ok(next.to),
        _ => Err(misfit(next)),
    }
}

/// The place behind the word NULL at a place.
#[tactic(auto, unfolding(crate::specs::Grammar::null_at))]
fn null_at(bytes: &[u8], at: usize) -> Result<usize, FilterFault>
    requires few { length bytes.now ≤ MAX_FILTER_BYTES }
    requires inside { at ≤ length bytes.now }
    ensures gives { result ≡ null_at bytes.now at }
    ensures within { IfOk result (λ r. r ≤ length bytes.now) }
{
    let next = next_token(bytes, at);
    match next.token {
        Token::Null => Ok(next.to),
        _ => Err(misfit(next)),
    }
}

/// The text at a place, as a pattern, and the place behind it.
#[tactic(auto, unfolding(crate::specs::Grammar::pattern_at))]
fn pattern_at(alloc: Global, bytes: &[u8], at: usize) -> Result<(Text, usize), FilterFault>
    requires few { length bytes.now ≤ MAX_FILTER_BYTES }
    requires inside { at ≤ length bytes.now }
    ensures gives { Gives as_it_is result (pattern_at bytes.now at) }
    ensures within { IfOk result (λ r. r.1 ≤ length bytes.now) }
{
    let next = next_token(bytes, at);
    match next.token {
        Token::Text => Ok((text_of(alloc, bytes, next)?, next.to)),
        _ => Err(misfit(next)),
    }
}

/// BETWEEN behind its word.
#[tactic(auto, unfolding(crate::specs::Grammar::between_at))]
fn between_at(
    alloc: Global,
    bytes: &[u8],
    negated: bool,
    operand: Operand,
    at: usize,
) -> Result<(Node, usize), FilterFault>
    requires few { length bytes.now ≤ MAX_FILTER_BYTES }
    requires inside { at ≤ length bytes.now }
    ensures gives { Gives as_tree result (between_at bytes.now negated operand at) }
    ensures within { IfOk result (λ r. r.1 ≤ length bytes.now) }
{
    let (low, behind) = operand_at(alloc, bytes, at)?;
    let behind = and_word_at(bytes, behind)?;
    let (high, behind) = operand_at(alloc, bytes, behind)?;
    let node = Node::Between {
        negated,
        operand,
        low,
        high,
    };
    Ok((node, behind))
}

/// The literals of IN behind the first, with the closing parenthesis.
fn literals_at(
    alloc: Global,
    bytes: &[u8],
    first: Operand,
    at: usize,
) -> Result<(Operands, usize), FilterFault>
    requires few { length bytes.now ≤ MAX_FILTER_BYTES }
    requires inside { at ≤ length bytes.now }
    ensures gives { Gives as_it_is result (literals_at bytes.now (length bytes.now) (first ∷ []) at) }
    ensures within { IfOk result (λ r. r.1 ≤ length bytes.now) }
{
    let mut found = Operands::new(alloc);
    found.push(first)?;
    let mut behind = at;
    'literals: for _ in 0..bytes.len() {
        let next = next_token(bytes, behind);
        match next.token {
            Token::Comma => {
                let (literal, end) = literal_at(alloc, bytes, next.to)?;
                found.push(literal)?;
                behind = end;
            }
            _ => {
                let end = close_at(bytes, behind)?;
                return Ok((found, end));
            }
        }
    }
    let end = close_at(bytes, behind)?;
    Ok((found, end))
}

/// IN behind its word.
#[tactic(auto, unfolding(crate::specs::Grammar::one_of_at))]
fn one_of_at(
    alloc: Global,
    bytes: &[u8],
    negated: bool,
    name: Text,
    at: usize,
) -> Result<(Node, usize), FilterFault>
    requires few { length bytes.now ≤ MAX_FILTER_BYTES }
    requires inside { at ≤ length bytes.now }
    ensures gives { Gives as_tree result (one_of_at bytes.now negated name at) }
    ensures within { IfOk result (λ r. r.1 ≤ length bytes.now) }
{
    let behind = open_at(bytes, at)?;
    let (first, behind) = literal_at(alloc, bytes, behind)?;
    let (literals, behind) = literals_at(alloc, bytes, first, behind)?;
    let node = Node::OneOf {
        negated,
        name,
        literals,
    };
    Ok((node, behind))
}

/// LIKE behind its word.
#[tactic(auto, unfolding(crate::specs::Grammar::like_at))]
fn like_at(
    alloc: Global,
    bytes: &[u8],
    negated: bool,
    name: Text,
    at: usize,
) -> Result<(Node, usize), FilterFault>
    requires few { length bytes.now ≤ MAX_FILTER_BYTES }
    requires inside { at ≤ length bytes.now }
    ensures gives { Gives as_tree result (like_at bytes.now negated name at) }
    ensures within { IfOk result (λ r. r.1 ≤ length bytes.now) }
{
    let (pattern, behind) = pattern_at(alloc, bytes, at)?;
    let node = Node::Like {
        negated,
        name,
        pattern,
    };
    Ok((node, behind))
}

/// IS NULL and IS NOT NULL behind IS.
#[tactic(auto, unfolding(crate::specs::Grammar::null_test_at))]
fn null_test_at(bytes: &[u8], name: Text, at: usize) -> Result<(Node, usize), FilterFault>
    requires few { length bytes.now ≤ MAX_FILTER_BYTES }
    requires inside { at ≤ length bytes.now }
    ensures gives { Gives as_tree result (null_test_at bytes.now name at) }
    ensures within { IfOk result (λ r. r.1 ≤ length bytes.now) }
{
    let next = next_token(bytes, at);
    match next.token {
        Token::Not => {
            let behind = null_at(bytes, next.to)?;
            let negated = true;
            Ok((Node::IsNull { negated, name }, behind))
        }
        _ => {
            let behind = null_at(bytes, at)?;
            let negated = false;
            Ok((Node::IsNull { negated, name }, behind))
        }
    }
}

/// An operand without a tail.
fn alone_at(operand: Operand, behind: usize, next: Lexeme) -> Result<(Node, usize), FilterFault>
    ensures gives { Gives as_tree result (alone_at operand behind next) }
    ensures behind { IfOk result (λ r. r.1 ≡ behind) }
{
    match operand {
        Operand::Name(name) => Ok((Node::Alone(Operand::Name(name)), behind)),
        Operand::Bool(holds) => Ok((Node::Alone(Operand::Bool(holds)), behind)),
        Operand::Int(_) => Err(misfit(next)),
        Operand::Text(_) => Err(misfit(next)),
    }
}

/// BETWEEN, IN and LIKE behind a NOT.
#[tactic(auto, unfolding(crate::specs::Grammar::negated_at))]
fn negated_at(
    alloc: Global,
    bytes: &[u8],
    operand: Operand,
    no: Lexeme,
) -> Result<(Node, usize), FilterFault>
    requires few { length bytes.now ≤ MAX_FILTER_BYTES }
    requires inside { no.to ≤ length bytes.now }
    ensures gives { Gives as_tree result (negated_at bytes.now operand no) }
    ensures within { IfOk result (λ r. r.1 ≤ length bytes.now) }
{
    let next = next_token(bytes, no.to);
    match next.token {
        Token::Between => between_at(alloc, bytes, true, operand, next.to),
        Token::In => match operand {
            Operand::Name(name) => one_of_at(alloc, bytes, true, name, next.to),
            _ => Err(FilterFault::Expected { at: no.from }),
        },
        Token::Like => match operand {
            Operand::Name(name) => like_at(alloc, bytes, true, name, next.to),
            _ => Err(FilterFault::Expected { at: no.from }),
        },
        _ => Err(misfit(next)),
    }
}

/// The tail of a test behind its operand.
#[tactic(auto, unfolding(crate::specs::Grammar::tail_at))]
fn tail_at(
    alloc: Global,
    bytes: &[u8],
    operand: Operand,
    at: usize,
) -> Result<(Node, usize), FilterFault>
    requires few { length bytes.now ≤ MAX_FILTER_BYTES }
    requires inside { at ≤ length bytes.now }
    ensures gives { Gives as_tree result (tail_at bytes.now operand at) }
    ensures within { IfOk result (λ r. r.1 ≤ length bytes.now) }
{
    let next = next_token(bytes, at);
    match next.token {
        Token::Sign(sign) => {
            let (right, behind) = operand_at(alloc, bytes, next.to)?;
            let left = operand;
            Ok((Node::Compare { left, sign, right }, behind))
        }
        Token::Between => between_at(alloc, bytes, false, operand, next.to),
        Token::In => match operand {
            Operand::Name(name) => one_of_at(alloc, bytes, false, name, next.to),
            _ => Err(FilterFault::Expected { at: next.from }),
        },
        Token::Like => match operand {
            Operand::Name(name) => like_at(alloc, bytes, false, name, next.to),
            _ => Err(FilterFault::Expected { at: next.from }),
        },
        Token::Is => match operand {
            Operand::Name(name) => null_test_at(bytes, name, next.to),
            _ => Err(FilterFault::Expected { at: next.from }),
        },
        Token::Not => negated_at(alloc, bytes, operand, next),
        _ => alone_at(operand, at, next),
    }
}

/// The test at a place: an operand and what is said of it.
#[tactic(auto, unfolding(crate::specs::Grammar::test_at))]
fn test_at(alloc: Global, bytes: &[u8], at: usize) -> Result<(Node, usize), FilterFault>
    requires few { length bytes.now ≤ MAX_FILTER_BYTES }
    requires inside { at ≤ length bytes.now }
    ensures gives { Gives as_tree result (test_at bytes.now at) }
    ensures within { IfOk result (λ r. r.1 ≤ length bytes.now) }
{
    let (operand, behind) = operand_at(alloc, bytes, at)?;
    tail_at(alloc, bytes, operand, behind)
}

/// NOT, a filter in parentheses, or a test, with so many levels left.
#[cycle(parser)]
#[tactic(auto, unfolding(crate::specs::Grammar::not_at))]
fn not_at(alloc: Global, bytes: &[u8], levels: u8, at: usize) -> Result<(Node, usize), FilterFault>
    requires few { length bytes.now ≤ MAX_FILTER_BYTES }
    requires inside { at ≤ length bytes.now }
    ensures gives { Gives as_tree result (not_at bytes.now levels at) }
    ensures within { IfOk result (λ r. r.1 ≤ length bytes.now) }
{
    let next = next_token(bytes, at);
    match next.token {
        Token::Not => {
            if levels == 0 {
                return Err(FilterFault::TooDeep { at: next.from });
            }
            let (node, behind) = not_at(alloc, bytes, levels - 1, next.to)?;
            Ok((Node::Not(Box::new(alloc, node)?), behind))
        }
        Token::Open => {
            if levels == 0 {
                return Err(FilterFault::TooDeep { at: next.from });
            }
            let (node, behind) = or_at(alloc, bytes, levels - 1, next.to)?;
            let behind = close_at(bytes, behind)?;
            Ok((node, behind))
        }
        _ => test_at(alloc, bytes, at),
    }
}

/// Tests joined by AND, grouped from the left.
#[cycle(parser)]
#[tactic(auto, unfolding(crate::specs::Grammar::and_at, crate::specs::Grammar::and_more))]
fn and_at(alloc: Global, bytes: &[u8], levels: u8, at: usize) -> Result<(Node, usize), FilterFault>
    requires few { length bytes.now ≤ MAX_FILTER_BYTES }
    requires inside { at ≤ length bytes.now }
    ensures gives { Gives as_tree result (and_at bytes.now (not_at bytes.now levels) at) }
    ensures within { IfOk result (λ r. r.1 ≤ length bytes.now) }
{
    let (mut found, mut behind) = not_at(alloc, bytes, levels, at)?;
    'ands: for _ in 0..bytes.len() {
        let next = next_token(bytes, behind);
        match next.token {
            Token::And => {
                let (right, end) = not_at(alloc, bytes, levels, next.to)?;
                let joined = joined_by_and(alloc, found, right)?;
                found = joined;
                behind = end;
            }
            _ => return Ok((found, behind)),
        }
    }
    Ok((found, behind))
}

/// Parts joined by OR, grouped from the left.
#[cycle(parser)]
#[tactic(auto, unfolding(crate::specs::Grammar::or_at, crate::specs::Grammar::or_more))]
fn or_at(alloc: Global, bytes: &[u8], levels: u8, at: usize) -> Result<(Node, usize), FilterFault>
    requires few { length bytes.now ≤ MAX_FILTER_BYTES }
    requires inside { at ≤ length bytes.now }
    ensures gives { Gives as_tree result (or_at bytes.now (not_at bytes.now levels) at) }
    ensures within { IfOk result (λ r. r.1 ≤ length bytes.now) }
{
    let (mut found, mut behind) = and_at(alloc, bytes, levels, at)?;
    'ors: for _ in 0..bytes.len() {
        let next = next_token(bytes, behind);
        match next.token {
            Token::Or => {
                let (right, end) = and_at(alloc, bytes, levels, next.to)?;
                let joined = joined_by_or(alloc, found, right)?;
                found = joined;
                behind = end;
            }
            _ => return Ok((found, behind)),
        }
    }
    Ok((found, behind))
}

/// Two trees with AND between them.
fn joined_by_and(alloc: Global, left: Node, right: Node) -> Result<Node, Memory>
    ensures { IfOk result (λ n. tree_of n ≡ both (tree_of left) (tree_of right)) }
{
    let left = Box::new(alloc, left)?;
    let right = Box::new(alloc, right)?;
    Ok(Node::And(left, right))
}

/// Two trees with OR between them.
fn joined_by_or(alloc: Global, left: Node, right: Node) -> Result<Node, Memory>
    ensures { IfOk result (λ n. tree_of n ≡ either (tree_of left) (tree_of right)) }
{
    let left = Box::new(alloc, left)?;
    let right = Box::new(alloc, right)?;
    Ok(Node::Or(left, right))
}
