//! What is asked and acknowledged of a tick, as a row spells it: `N` for nothing, `C` for asked, `A` for acknowledged.

use crate::spelled::Spelled;
use gr_curio::Q3;
use gr_tests_rows::{Page, Stop};
use std::alloc::Global;

impl Spelled for Q3 {
    fn read(_alloc: Global, letter: char, _text: &str) -> Result<Q3, Stop> {
        match letter {
            'N' => Ok(Q3::N),
            'C' => Ok(Q3::C),
            'A' => Ok(Q3::A),
            _ => Err(Stop::NoRow),
        }
    }

    fn name(&self) -> &'static str {
        match self {
            Q3::N => "N",
            Q3::C => "C",
            Q3::A => "A",
        }
    }

    fn put_rest(&self, _out: &mut Page) {}
}
