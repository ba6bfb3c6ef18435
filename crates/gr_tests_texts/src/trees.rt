//! Trees of numbered nodes.

ghost use Rattle.std.specs.Prelude.{◌≡◌, ◌&&◌, nat_lt};
ghost use Rattle.std.specs.List.{list_all};

use crate::words::{put_counted, short_number};
use gr_tests_rows::{Page, Stop, parted};
use gr_tree::{Link, Place, places};
use std::alloc::Global;

/// Answers a row about trees, as `3 nodes from 2 by 0-1 2-1`.
pub fn answer(alloc: Global, row: &str, page: &mut Page) -> Result<(), Stop> {
    let words: Vec<&str> = row.split(' ').collect(alloc)?;
    put_tree(alloc, words.as_slice(), page)
}

/// Answers the words of a row.
fn put_tree(alloc: Global, words: &[&str], page: &mut Page) -> Result<(), Stop> {
    match words {
        [nodes, "nodes", "from", root, "by", words @ ..] => {
            let nodes = short_number(nodes)?;
            let root = short_number(root)?;
            put_places(alloc, nodes, root, &links(alloc, words)?, page)
        }
        _ => Err(Stop::NoRow),
    }
}

/// The links that words spell, each as `0-1`.
fn links(alloc: Global, words: &[&str]) -> Result<Vec<Link>, Stop> {
    let mut links = Vec::new(alloc);
    for word in words {
        links.push(link(word)?)?;
    }
    Ok(links)
}

/// The link that a word spells.
fn link(word: &str) -> Result<Link, Stop> {
    let (one, other) = parted(word, "-")?;
    Ok(Link {
        one: short_number(one)?,
        other: short_number(other)?,
    })
}

/// Whether each link joins two of so many nodes.
fn are_within(nodes: u16, links: &[Link]) -> bool
    ensures { result ≡ list_all (λ l. nat_lt l.one nodes && nat_lt l.other nodes) links.now }
{
    links
        .iter()
        .all(|link| link.one < nodes && link.other < nodes)
}

/// Prints where each node stands, seen from the root.
fn put_places(
    alloc: Global,
    nodes: u16,
    root: u16,
    links: &[Link],
    page: &mut Page,
) -> Result<(), Stop> {
    if root >= nodes || !are_within(nodes, links) {
        return Err(Stop::NoRow);
    }
    match places(alloc, nodes, links, root)? {
        Some(places) => put_all(&places, page),
        None => page.push_str("  no tree\n"),
    }
    Ok(())
}

/// Prints places.
fn put_all(places: &[Place], page: &mut Page) {
    for (node, place) in places.iter().enumerate() {
        put_counted("  ", node as u64, page);
        put_place(place, page);
    }
}

/// Prints a place.
fn put_place(place: &Place, page: &mut Page) {
    if let Some(up) = place.up {
        put_counted(" up ", u64::from(up), page);
    }
    put_counted(" depth ", u64::from(place.depth), page);
    page.push('\n');
}
