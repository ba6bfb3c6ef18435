//! Marks of pairs: they tell most pairs that no bucket has from those that one has, at less cost than a look-up.

ghost use Rattle.std.specs.Prelude.{◌≡◌, ◌<◌, false, true};
ghost use Rattle.gr_event.specs.Get.{part_value};
ghost use Rattle.gr_match.specs.Needed.{Pair, pair_of};
ghost use Rattle.gr_match.specs.Marked.{mark_of, value_mark, is_marked};

use crate::pair::NamedPart;
use gr_event::Part;

/// The marks that are set, each a bit.
#[derive(Clone, Copy)]
pub(crate) struct Marks {
    /// Those of names.
    pub(crate) names: u64,
    /// Those of values.
    pub(crate) values: u64,
}

impl Marks {
    /// No marks.
    pub(crate) fn new() -> Marks
        ensures { (p : Pair) → is_marked result p ≡ false }
    {
        Marks {
            names: 0,
            values: 0,
        }
    }

    /// Sets the marks of a pair.
    pub(crate) fn add(&mut self, pair: NamedPart<'_>)
        ensures set { is_marked self.new (pair_of pair.entry) ≡ true }
        ensures kept { (p : Pair) → is_marked self.old p ≡ true → is_marked self.new p ≡ true }
    {
        self.names |= 1 << mark_of(pair.name);
        self.values |= 1 << value_mark(pair.part);
    }

    /// Whether the marks of a pair are set.
    #[inline(always)]
    pub(crate) fn has(&self, pair: NamedPart<'_>) -> bool
        ensures { result ≡ is_marked self.now (pair_of pair.entry) }
    {
        (self.names >> mark_of(pair.name)) & 1 == 1
            && (self.values >> value_mark(pair.part)) & 1 == 1
    }
}

/// The number of the mark of a name or a text, by its length and two of its bytes. Two may have the same.
#[inline(always)]
pub(crate) fn mark_of(bytes: &[u8]) -> usize
    ensures mark { result ≡ mark_of bytes.now }
    ensures within { result < 64 }
{
    match bytes {
        [] => 0,
        [_, ..] => {
            let length = bytes.len();
            let middle = usize::from(bytes[length / 2]);
            let last = usize::from(bytes[length - 1]);
            (length + 11 * middle + last) % 64
        }
    }
}

/// The number of the mark of a value.
#[inline(always)]
fn value_mark(part: Part<'_>) -> usize
    ensures mark { result ≡ value_mark (part_value part.entry) }
    ensures within { result < 64 }
{
    match part {
        Part::Int(number) => (number.cast_unsigned() % 64) as usize,
        Part::Text(text) => mark_of(text),
        Part::Bool(holds) => usize::from(holds),
    }
}
