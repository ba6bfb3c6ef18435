//! The words of a command line that name brokers.

ghost use Rattle.std.specs.Prelude.{◌≡◌, map, IfOk};

use std::alloc::{AllocError, Global};
use std::marker::Model;

/// The words that name brokers, in their order, seen as their texts.
#[derive(Drop)]
pub struct BrokerWords<'a> {
    words: Vec<&'a str>,
}

impl<'a> Model for BrokerWords<'a> {
    ghost use Rattle.std.specs.Prelude.{List, ℕ, map};

    ghost Value = { List (List ℕ) };

    ghost view = { λ b. map (λ word. word.now) b.words.items };
}

impl<'a> BrokerWords<'a> {
    /// These words.
    pub(crate) fn from_slice(
        alloc: Global,
        words: &[&'a str],
    ) -> Result<BrokerWords<'a>, AllocError>
        ensures { IfOk result (λ b. b ≡ map (λ word. word.now) words.now) }
    {
        let words = Vec::from_slice(alloc, words)?;
        Ok(BrokerWords { words })
    }

    /// The words.
    pub(crate) fn as_slice(&self) -> &[&'a str]
        ensures { map (λ word. word.now) result.now ≡ self.now }
    {
        self.words.as_slice()
    }
}
