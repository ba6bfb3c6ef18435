//! Values of the three lattices, their order and their joins.

use crate::spelled::{Spelled, put_value, value};
use gr_curio::{Moment, Q3};
use gr_know::K;
use gr_tests_rows::{Page, Stop, number};
use gr_tick::is_bottom;
use std::alloc::Global;

impl Spelled for Moment {
    fn read(_alloc: Global, letter: char, text: &str) -> Result<Moment, Stop> {
        match letter {
            'n' => Ok(Moment::Never),
            'a' => Ok(Moment::At(number(text)?)),
            _ => Err(Stop::NoRow),
        }
    }

    fn name(&self) -> &'static str {
        match self {
            Moment::Never => "never",
            Moment::At(_) => "at",
        }
    }

    fn put_rest(&self, out: &mut Page) {
        match self {
            Moment::Never => {}
            Moment::At(moment) => write!(out, ":{moment}"),
        }
    }
}

/// Answers a row about one value of a lattice, or about two.
pub fn answer(alloc: Global, row: &str, out: &mut Page) -> Result<(), Stop> {
    let (values, words) = row.split_once(' ').ok_or(Stop::NoRow)?;
    match values {
        "Q3" => tell::<Q3>(alloc, words, out),
        "K" => tell::<K>(alloc, words, out),
        "Moment" => tell::<Moment>(alloc, words, out),
        _ => Err(Stop::NoRow),
    }
}

/// Tells of a value whether it is the least one, and of two their join and order.
fn tell<V: Spelled>(alloc: Global, words: &str, out: &mut Page) -> Result<(), Stop> {
    match words.split_once(' ') {
        None => tell_one(out, &value::<V>(alloc, words)?),
        Some((one, other)) => tell_two(alloc, one, &value::<V>(alloc, other)?, out)?,
    }
    Ok(())
}

/// Tells of a value whether it is the least one.
fn tell_one<V: Spelled>(out: &mut Page, value: &V) {
    write!(out, "  is_bottom {}", is_bottom(value));
    put_named(out, " bottom", &V::bottom());
    put_named(out, " share", &value.share());
    out.push('\n');
}

/// Prints a word and a value.
fn put_named<V: Spelled>(out: &mut Page, name: &str, value: &V) {
    out.push_str(name);
    out.push(' ');
    put_value(out, value);
}

/// Tells of two values their join and order.
fn tell_two<V: Spelled>(alloc: Global, word: &str, other: &V, out: &mut Page) -> Result<(), Stop> {
    let one: V = value(alloc, word)?;
    put_joins(out, &one, other);
    put_order(out, &one, other);
    Ok(())
}

/// Prints the join of two values, both ways round.
fn put_joins<V: Spelled>(out: &mut Page, one: &V, other: &V) {
    out.push(' ');
    put_named(out, " join", &one.share().join(other.share()));
    put_named(out, " turned", &other.share().join(one.share()));
    out.push('\n');
}

/// Prints whether the one value is at most the other and the same, both ways round.
fn put_order<V: Spelled>(out: &mut Page, one: &V, other: &V) {
    write!(out, "  at_most {}", one.at_most(other));
    write!(out, " turned {}", other.at_most(one));
    write!(out, "\n  same {}", one.same(other));
    write!(out, " turned {}\n", other.same(one));
}
