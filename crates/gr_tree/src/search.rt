//! The search for the places of nodes: it starts at the root and hangs each further node below one that is placed.

ghost use Rattle.std.specs.Prelude.{◌≡◌, ℕ, ◌+◌, ◌<◌, length, map, false, true, Some, None, replicate, IfOk, IfNone};
ghost use Rattle.std.specs.Prelude.{IfSome, OnSome, MatchOption, slice_index_or};
ghost use Rattle.std.specs.List.{position};
ghost use Rattle.gr_tree.specs.Walks.{IsWithin, IsRooted, HasOnlyPaths, is_tree, places_of};
ghost use Rattle.gr_tree.specs.Search.{is_placed, crosses, place_below, attached, IsShallow};

use crate::link::{Link, Place};
use std::alloc::Global;

/// Want of memory.
pub type Memory = std::alloc::AllocError;

/// The places of all nodes, seen from a root, or None exactly where the links make no tree of the nodes, whatever the
/// root.
///
/// Links make a tree where there is a node, there is one link fewer than nodes, and every node is reached from
/// node 0.
pub fn places(
    alloc: Global,
    nodes: u16,
    links: &[Link],
    root: u16,
) -> Result<Option<Vec<Place>>, Memory>
    requires root { root < nodes }
    requires links { IsWithin nodes links.now }
    ensures none { IfOk result (λ r. IfNone r (is_tree nodes links.now ≡ false)) }
    ensures tree { IfOk result (λ r. OnSome r (is_tree nodes links.now ≡ true)) }
    ensures places { IfOk result (λ r. IfSome r (λ p. p.items ≡ places_of nodes links.now root)) }
    ensures rooted { IfOk result (λ r. OnSome r (IsRooted nodes links.now root)) }
    ensures paths { IfOk result (λ r. OnSome r (HasOnlyPaths nodes links.now root)) }
{
    if links.len() + 1 != nodes as usize {
        return Ok(None);
    }
    let mut row = no_places(alloc, nodes)?;
    row[root as usize] = Some(Place { up: None, depth: 0 });
    let mut left = Vec::from_slice(alloc, links)?;
    'grow: while let Some(at) = crossing(&row, &left) {
        let link = left.remove(at);
        attach(&mut row, link);
    }
    all_placed(alloc, &row)
}

/// A row of so many nodes without a place.
fn no_places(alloc: Global, nodes: u16) -> Result<Vec<Option<Place>>, Memory>
    ensures { IfOk result (λ row. row.items ≡ replicate nodes None) }
{
    let mut row = Vec::new(alloc);
    for _node in 0..nodes {
        row.push(None)?;
    }
    Ok(row)
}

/// Whether a node is placed.
fn is_placed(row: &[Option<Place>], node: u16) -> bool
    ensures { result ≡ is_placed row.now node }
{
    match row.get(node as usize) {
        Some(place) => place.is_some(),
        None => false,
    }
}

/// Whether exactly one end of a link is placed.
fn crosses(row: &[Option<Place>], link: &Link) -> bool
    ensures { result ≡ crosses row.now link.now }
{
    let one = is_placed(row, link.one);
    let other = is_placed(row, link.other);
    (one && !other) || (other && !one)
}

/// The first link of which exactly one end is placed.
fn crossing(row: &[Option<Place>], left: &[Link]) -> Option<usize>
    ensures { result ≡ position (crosses row.now) left.now }
{
    left.iter().position(|link| crosses(row, link))
}

/// The place of a node that hangs below a placed one.
fn place_below(row: &[Option<Place>], up: u16) -> Option<Place>
    requires inside { up < length row.now }
    requires shallow { IsShallow row.now }
    ensures { result ≡ place_below row.now up }
{
    match row[up as usize] {
        Some(above) => Some(Place {
            up: Some(up),
            depth: above.depth + 1,
        }),
        None => None,
    }
}

/// Hangs the end that is not placed below the other.
fn attach(row: &mut [Option<Place>], link: Link)
    requires one { link.one < length row.old }
    requires other { link.other < length row.old }
    requires shallow { IsShallow row.old }
    ensures { row.new ≡ attached row.old link }
{
    if is_placed(row, link.one) {
        row[link.other as usize] = place_below(row, link.one);
    } else {
        row[link.one as usize] = place_below(row, link.other);
    }
}

/// The places of all nodes, if each is placed.
fn all_placed(alloc: Global, row: &[Option<Place>]) -> Result<Option<Vec<Place>>, Memory>
    ensures { IfOk result (λ r. MatchOption r ((b : ℕ) × (b < length row.now) × (is_placed row.now b ≡ false)) (λ p.
        map Some p.items ≡ row.now)) }
{
    let mut places = Vec::new(alloc);
    for place in row {
        match place {
            Some(place) => places.push(*place)?,
            None => return Ok(None),
        }
    }
    Ok(Some(places))
}
