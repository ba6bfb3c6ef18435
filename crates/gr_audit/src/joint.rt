//! The joint order of journals: which of their groups can go once all that can go before have gone.

ghost use Rattle.std.specs.Prelude.{◌≡◌, ◌<◌, ◌≤◌, ◌+◌, [], drop, length, get_or, set, map, None, IfOk, IfSome};
ghost use Rattle.std.specs.List.{AllByRecursion};
ghost use Rattle.gr_audit.specs.Joint.{lesser_line, stays};
ghost use Rattle.gr_audit.specs.Links.{IsBelow, links_in, ready_at, ready_from, with_offers, behind_offers, rests_of};
ghost use Rattle.gr_audit.specs.Links.{first_line, next_line_of};

use crate::keys::Keys;
use crate::mark::{Mark, MarkList};
use std::alloc::{AllocError, Global};

/// The least line of an arrival that stays where every group that can go has gone: of the journals whose marks these
/// are, with these datagrams. None where all groups have gone.
pub fn line_that_stays(
    alloc: Global,
    keys: &Keys,
    journals: &[MarkList],
) -> Result<Option<u32>, AllocError>
    requires { AllByRecursion (AllByRecursion (IsBelow (length keys.now))) journals.now }
    ensures { IfOk result (λ line. line ≡ stays (map (links_in keys.now) journals.now)) }
{
    let mut offered = vec![in alloc; false; keys.len()]?;
    let mut places = first_places(alloc, journals)?;
    'turns: loop {
        match first_ready(journals, &places, &offered) {
            Some(journal) => go(journals, journal, &mut places, &mut offered),
            None => return Ok(least_line(journals, &places)),
        }
    }
}

/// Where the first group of each journal begins.
fn first_places(alloc: Global, journals: &[MarkList]) -> Result<Vec<usize>, AllocError>
    ensures count { IfOk result (λ places. length places.items ≡ length journals.now) }
    ensures rests { IfOk result (λ places. rests_of journals.now places.items ≡ map behind_offers journals.now) }
{
    let mut places = Vec::new(alloc);
    'journals: for journal in journals {
        places.push(next_arrival(journal.as_slice(), 0))?;
    }
    Ok(places)
}

/// Where the next group begins from a place on, or where the marks end.
fn next_arrival(marks: &[Mark], from: usize) -> usize
    requires { from ≤ length marks.now }
    ensures rest { drop result marks.now ≡ behind_offers (drop from marks.now) }
    ensures within { result ≤ length marks.now }
{
    let mut place = from;
    'marks: while place < marks.len() {
        match marks[place] {
            Mark::Arrives { .. } => return place,
            Mark::Offers { .. } => place += 1,
        }
    }
    place
}

/// The first journal whose next group can go.
fn first_ready(journals: &[MarkList], places: &[usize], offered: &[bool]) -> Option<usize>
    requires count { length places.now ≡ length journals.now }
    requires numbered { AllByRecursion (AllByRecursion (IsBelow (length offered.now))) journals.now }
    ensures first { result ≡ ready_from 0 offered.now (rests_of journals.now places.now) }
    ensures within { IfSome result (λ k. k < length journals.now) }
{
    let mut journal = 0;
    'journals: while journal < journals.len() {
        if is_ready(journals[journal].as_slice(), places[journal], offered) {
            return Some(journal);
        }
        journal += 1;
    }
    None
}

/// Whether the group that begins at a place can go.
fn is_ready(marks: &[Mark], place: usize, offered: &[bool]) -> bool
    requires { AllByRecursion (IsBelow (length offered.now)) marks.now }
    ensures { result ≡ ready_at offered.now (drop place marks.now) }
{
    if place >= marks.len() {
        return false;
    }
    match marks[place] {
        Mark::Arrives { needs, .. } => match needs {
            None => true,
            Some(key) => offered[key as usize],
        },
        Mark::Offers { .. } => false,
    }
}

/// The next group of a journal goes: what it offers is offered from now on.
fn go(journals: &[MarkList], journal: usize, places: &mut Vec<usize>, offered: &mut Vec<bool>)
    requires count { length places.old.items ≡ length journals.now }
    requires within { journal < length journals.now }
    requires some { get_or places.old.items journal 0 < length (get_or journals.now journal []) }
    requires numbered { AllByRecursion (AllByRecursion (IsBelow (length offered.old.items))) journals.now }
    ensures rests { let rests = rests_of journals.now places.old.items in rests_of journals.now places.new.items
        ≡ set rests journal (behind_offers (drop 1 (get_or rests journal []))) }
    ensures offered { let rests = rests_of journals.now places.old.items in offered.new.items
        ≡ with_offers offered.old.items (drop 1 (get_or rests journal [])) }
    ensures count { length places.new.items ≡ length journals.now }
    ensures flags { length offered.new.items ≡ length offered.old.items }
{
    let marks = journals[journal].as_slice();
    let from = places[journal] + 1;
    offer(marks, from, offered);
    places[journal] = next_arrival(marks, from);
}

/// What is offered from a place on, up to the next group, is offered from now on.
fn offer(marks: &[Mark], from: usize, offered: &mut Vec<bool>)
    requires within { from ≤ length marks.now }
    requires numbered { AllByRecursion (IsBelow (length offered.old.items)) marks.now }
    ensures offered { offered.new.items ≡ with_offers offered.old.items (drop from marks.now) }
    ensures flags { length offered.new.items ≡ length offered.old.items }
{
    let mut place = from;
    'marks: while place < marks.len() {
        match marks[place] {
            Mark::Arrives { .. } => return,
            Mark::Offers { key } => offered[key as usize] = true,
        }
        place += 1;
    }
}

/// The least line among the next groups of the journals.
fn least_line(journals: &[MarkList], places: &[usize]) -> Option<u32>
    requires { length places.now ≡ length journals.now }
    ensures { result ≡ next_line_of (rests_of journals.now places.now) }
{
    let mut least = None;
    let mut journal = journals.len();
    'journals: while journal > 0 {
        journal -= 1;
        least = lesser(
            line_at(journals[journal].as_slice(), places[journal]),
            least,
        );
    }
    least
}

/// The line of the group that begins at a place.
fn line_at(marks: &[Mark], place: usize) -> Option<u32>
    ensures { result ≡ first_line (drop place marks.now) }
{
    if place >= marks.len() {
        return None;
    }
    match marks[place] {
        Mark::Arrives { line, .. } => Some(line),
        Mark::Offers { .. } => None,
    }
}

/// The lesser of two lines that may be there.
fn lesser(one: Option<u32>, other: Option<u32>) -> Option<u32>
    ensures { result ≡ lesser_line one other }
{
    match one {
        None => other,
        Some(line) => match other {
            None => Some(line),
            Some(least) => Some(line.min(least)),
        },
    }
}
