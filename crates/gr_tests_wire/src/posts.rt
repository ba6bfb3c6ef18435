//! Posts in memory, as scripts.

use crate::script::{
    NEXT, Script, cut_short, first_word, numbers, perform, put_quoted, two_numbers,
};
use gr_out::{Arrival, MemPost, Post, PostFault};
use gr_tests_rows::{Page, Stop, number};
use std::alloc::Global;

/// Answers a script of calls: `failing offers CALLS bindings CALLS ; comes quiet 1 ; bind 0 A here ; next 3 ; ..`.
pub fn calls(alloc: Global, row: &str, page: &mut Page) -> Result<(), Stop> {
    let Some((made, ops)) = row.split_once(NEXT) else {
        return Err(Stop::NoRow);
    };
    let mut post = post_of(alloc, made)?;
    perform(alloc, &mut post, ops, page)
}

/// A post with nothing in its script, with the numbers of the offers and bindings that are to fail.
fn post_of(alloc: Global, made: &str) -> Result<MemPost, Stop> {
    let Some(fails) = made.strip_prefix("failing offers ") else {
        return Err(Stop::NoRow);
    };
    let Some((offers, bindings)) = fails.split_once(" bindings ") else {
        return Err(Stop::NoRow);
    };
    let offers = numbers(alloc, offers)?;
    post_failing(alloc, &offers, bindings)
}

/// A post with nothing in its script, with the numbers of the offers that are to fail, and a list of the bindings.
pub fn post_failing(alloc: Global, offers: &[u64], bindings: &str) -> Result<MemPost, Stop> {
    let bindings = numbers(alloc, bindings)?;
    post_with(alloc, offers, &bindings)
}

/// A post with nothing in its script, with the numbers of the offers and bindings that are to fail.
fn post_with(alloc: Global, offers: &[u64], bindings: &[u64]) -> Result<MemPost, Stop> {
    Ok(MemPost::new(alloc, offers, bindings)?)
}

impl Script for MemPost {
    /// Makes a call of the post.
    fn op(&mut self, _: Global, op: &str, page: &mut Page) -> Result<(), Stop> {
        let Some((call, rest)) = op.split_once(' ') else {
            return Err(Stop::NoRow);
        };
        match call {
            "comes" => comes(self, rest, page),
            "bind" => bind(self, rest, page),
            "offer" => offer(self, rest, page),
            "next" => next(self, rest, page),
            "offered" => put_offered(self, rest, page),
            _ => Err(Stop::NoRow),
        }
    }
}

/// Puts at the end of the script what comes.
fn comes(post: &mut MemPost, rest: &str, page: &mut Page) -> Result<(), Stop> {
    cue(post, rest)?;
    page.push_str("in the script");
    Ok(())
}

/// Puts a cue at the end of the script.
fn cue(post: &mut MemPost, cue: &str) -> Result<(), Stop> {
    let (kind, rest) = first_word(cue);
    match kind {
        "quiet" => cue_quiet(post, rest),
        "pass" => cue_pass(post, rest),
        "raw" => cue_raw(post, rest),
        "failure" => Ok(post.fail()?),
        _ => Err(Stop::NoRow),
    }
}

/// Puts a silence up to a moment at the end of the script.
fn cue_quiet(post: &mut MemPost, moment: &str) -> Result<(), Stop> {
    let Ok(moment) = number(moment) else {
        return Err(Stop::NoRow);
    };
    Ok(post.quiet(moment)?)
}

/// Puts an offer that passes at the end of the script: `OFFER MOMENT`.
fn cue_pass(post: &mut MemPost, rest: &str) -> Result<(), Stop> {
    let Some((offer, moment)) = two_numbers(rest) else {
        return Err(Stop::NoRow);
    };
    Ok(post.pass(offer, moment)?)
}

/// Puts bytes for a broker at the end of the script: `BROKER TEXT MOMENT`.
fn cue_raw(post: &mut MemPost, rest: &str) -> Result<(), Stop> {
    let Some((at, rest)) = cut_short(rest) else {
        return Err(Stop::NoRow);
    };
    let Some((text, moment)) = rest.split_once(' ') else {
        return Err(Stop::NoRow);
    };
    let Ok(moment) = number(moment) else {
        return Err(Stop::NoRow);
    };
    Ok(post.raw(at, text.as_bytes(), moment)?)
}

/// Prints what a call without a result answers.
fn put_done(page: &mut Page, answer: Result<(), PostFault>) {
    match answer {
        Ok(()) => page.push_str("done"),
        Err(PostFault::Failed) => page.push_str("failed"),
        Err(PostFault::Memory) => page.tear(),
    }
}

/// Binds a broker to an address, `here` or `there`.
fn bind(post: &mut MemPost, rest: &str, page: &mut Page) -> Result<(), Stop> {
    let Some((broker, rest)) = cut_short(rest) else {
        return Err(Stop::NoRow);
    };
    let Some((address, place)) = rest.split_once(' ') else {
        return Err(Stop::NoRow);
    };
    put_done(page, post.bind(broker, address.as_bytes(), place == "here"));
    Ok(())
}

/// Offers bytes from a broker to another.
fn offer(post: &mut MemPost, rest: &str, page: &mut Page) -> Result<(), Stop> {
    let Some((from, rest)) = cut_short(rest) else {
        return Err(Stop::NoRow);
    };
    let Some((to, text)) = cut_short(rest) else {
        return Err(Stop::NoRow);
    };
    put_done(page, post.offer(from, to, text.as_bytes()));
    Ok(())
}

/// Takes what comes next into a piece of so many bytes.
fn next(post: &mut MemPost, most: &str, page: &mut Page) -> Result<(), Stop> {
    let Ok(most) = number(most) else {
        return Err(Stop::NoRow);
    };
    put_next(post, most, page);
    Ok(())
}

/// Takes what comes next into a piece of so many bytes, at most 64.
fn put_next(post: &mut MemPost, most: u64, page: &mut Page) {
    let mut piece = [0u8; 64];
    let room = most.min(64) as usize;
    match post.next(&mut piece[..room]) {
        Ok(Arrival::Datagram { at, len, moment }) => {
            write!(page, "at {moment} for broker {at} ");
            put_quoted(page, &piece[..len]);
        }
        Ok(Arrival::Quiet { moment }) => write!(page, "quiet until {moment}"),
        Ok(Arrival::Closed) => page.push_str("closed"),
        Err(PostFault::Failed) => page.push_str("failed"),
        Err(PostFault::Memory) => page.tear(),
    }
}

/// Prints the bytes of an offer that was made, counted from 1.
fn put_offered(post: &MemPost, count: &str, page: &mut Page) -> Result<(), Stop> {
    let Ok(count) = number(count) else {
        return Err(Stop::NoRow);
    };
    match post.offered(count) {
        Some(bytes) => put_quoted(page, bytes),
        None => page.push_str("none"),
    }
    Ok(())
}
