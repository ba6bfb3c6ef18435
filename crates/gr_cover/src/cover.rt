//! Whether one filter covers another.

ghost use Rattle.std.specs.Prelude.{◌≡◌, ◌↔◌, false, IfOk};
ghost use Rattle.gr_filter.specs.Tree.{tree_of};
ghost use Rattle.gr_filter.specs.Written.{IsWritten};
ghost use Rattle.gr_cover.specs.declared.cover.TheConstants.{MAX_PARTS};
ghost use Rattle.gr_cover.specs.Answer.{answer, is_plain_pair, IsCoveredPair, TellsApart};

use crate::attribute::{attributes, parts};
use crate::mention::{is_plain, put_mentions};
use crate::search::first_from;
use gr_event::{Event, Memory};
use gr_filter::Filter;
use std::alloc::Global;

/// How many candidates are tried at most.
pub const MAX_PARTS: u64 = 4_096;

/// What the limit is. The function does nothing: its contract is a law.
pub fn limit_of_parts()
    ensures { MAX_PARTS ≡ 4096 }
{}

/// Whether one filter matches every event that another matches.
#[derive(Drop)]
pub enum Cover {
    /// It does.
    Yes,
    /// It does not: the other matches this event, and it does not.
    No { event: Event },
    /// It was not looked into. `parts` is 0 exactly where a filter has LIKE or compares two names; otherwise it is how
    /// many candidates there are, up to 2^64 - 1, and more than are tried.
    Unknown { parts: u64 },
}

/// Whether `wide` matches every event that `narrow` matches.
///
/// Looked into are filters without LIKE and without comparisons of two names. For each name the values are tried that
/// tell its literals apart; `No` has the first event of these that `narrow` matches and `wide` does not. `Memory`,
/// where no memory was given.
pub fn covers(alloc: Global, wide: &Filter, narrow: &Filter) -> Result<Cover, Memory>
    ensures answer { IfOk result (λ c. c ≡ answer (tree_of wide.now) (tree_of narrow.now)) }
    ensures yes { IfOk result (λ c. (c ≡ Cover.Yes) ↔ IsCoveredPair (tree_of wide.now) (tree_of narrow.now)) }
    ensures no { IfOk result (λ c. TellsApart (tree_of wide.now) (tree_of narrow.now) c) }
    ensures other { IfOk result (λ c. (c ≡ Cover.Unknown 0) ↔ (is_plain_pair (tree_of wide.now) (tree_of narrow.now)
        ≡ false)) }
{
    decide(alloc, wide, narrow)
}

/// The answer, by the candidates alone.
fn decide(alloc: Global, wide: &Filter, narrow: &Filter) -> Result<Cover, Memory>
    ensures answer { IfOk result (λ c. c ≡ answer (tree_of wide.now) (tree_of narrow.now)) }
    ensures written { IsWritten (tree_of wide.now) × IsWritten (tree_of narrow.now) }
{
    let (wide_root, narrow_root) = (wide.root(), narrow.root());
    if !is_plain(wide_root) || !is_plain(narrow_root) {
        return Ok(Cover::Unknown { parts: 0 });
    }
    let mut mentions = Vec::new(alloc);
    put_mentions(alloc, &mut mentions, wide_root)?;
    put_mentions(alloc, &mut mentions, narrow_root)?;
    let attributes = attributes(alloc, &mentions)?;
    let parts = parts(&attributes);
    if parts > MAX_PARTS {
        return Ok(Cover::Unknown { parts });
    }
    match first_from(alloc, wide, narrow, &[], &attributes)? {
        Some(event) => Ok(Cover::No { event }),
        None => Ok(Cover::Yes),
    }
}
