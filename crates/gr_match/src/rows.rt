//! Rows of buckets: an event looks up the rows of its own pairs, and no others.

ghost use Rattle.std.specs.Prelude.{◌≡◌, ◌≤◌, ◌<◌, ◌^◌, ℕ, ◌++◌, [], Some, length, false, nat_eq, IfOk, OnOk, OnErr};
ghost use Rattle.std.specs.List.{flat_map};
ghost use Rattle.gr_match.specs.Needed.{pair_of};
ghost use Rattle.gr_match.specs.Index.{row_count, mixed, number_of, row_of, row_at, row_with, places_for, places_of};
ghost use Rattle.gr_match.specs.Index.{asked};

use crate::bucket::{Bucket, put};
use crate::marks::{Marks, mark_of};
use crate::pair::NamedPart;
use gr_event::{Event, Memory, Numbers, Part};
use std::alloc::Global;
use std::marker::Model;

/// How many rows there are, once there is a bucket.
const ROW_COUNT: u64 = 251;

/// Texts are mixed into numbers below this one.
const MIX_COUNT: u64 = 0x1_0000_0000;

/// The buckets of one row.
#[derive(Drop)]
pub(crate) struct Row {
    /// The buckets, one for each part.
    pub(crate) buckets: Vec<Bucket>,
}

impl Model for Row {
    ghost use Rattle.std.specs.Prelude.{List};
    ghost use Rattle.gr_match.specs.declared.bucket.Bucket.{Bucket};

    ghost Value = { List Bucket };

    ghost view = { λ r. r.buckets.items };
}

/// The rows of all buckets. Before the first bucket there are none, and no memory is taken.
#[derive(Drop)]
pub(crate) struct Rows {
    rows: Vec<Row>,
    /// The marks of the pairs of all buckets, and maybe others.
    marks: Marks,
}

impl Model for Rows {
    ghost use Rattle.std.specs.Prelude.{List};
    ghost use Rattle.gr_match.specs.declared.bucket.Bucket.{Bucket};

    ghost Value = { List (List Bucket) };

    ghost use Rattle.gr_match.specs.Index.{row_at};
    ghost use Rattle.gr_match.specs.Marked.{AreMarked};

    ghost view = { λ r. r.rows.items };

    ghost invariant = { λ r. AreMarked r.marks (row_at r.rows.items) };
}

impl Rows {
    /// No rows.
    pub(crate) fn new(alloc: Global) -> Rows
        ensures { result ≡ [] }
    {
        Rows {
            rows: Vec::new(alloc),
            marks: Marks::new(),
        }
    }

    /// Whether there are no rows.
    pub(crate) fn is_empty(&self) -> bool
        ensures { result ≡ nat_eq (length self.now) 0 }
    {
        self.rows.is_empty()
    }

    /// Puts a place into the bucket of its pair, in the row of the pair. At want of memory all stays as it was.
    pub(crate) fn put(
        &mut self,
        alloc: Global,
        pair: NamedPart<'_>,
        place: u16,
    ) -> Result<(), Memory>
        ensures ok { OnOk result ((i : ℕ) → row_at self.new i
            ≡ row_with (Some (pair_of pair.entry)) place (row_at self.old) i) }
        ensures err { OnErr result ((i : ℕ) → row_at self.new i ≡ row_at self.old i) }
    {
        self.marks.add(pair);
        put_in_row(alloc, &mut self.rows, pair, place)
    }

    /// Whether some bucket may be that of a pair. Where the answer is no, none is.
    #[inline(always)]
    pub(crate) fn may_have(&self, pair: NamedPart<'_>) -> bool
        ensures { result ≡ false → places_of (row_at self.now) (pair_of pair.entry) ≡ [] }
    {
        self.marks.has(pair)
    }

    /// The buckets of the row of a pair.
    pub(crate) fn row_for(&self, pair: NamedPart<'_>) -> &[Bucket]
        ensures { result.now ≡ row_at self.now (row_of (pair_of pair.entry)) }
    {
        match self.rows.get(row_of(pair)) {
            Some(row) => &row.buckets,
            None => &[],
        }
    }

    /// The buckets to ask for a pair: those of its row, or none where its marks tell that none is that of the pair.
    pub(crate) fn buckets_for(&self, pair: NamedPart<'_>) -> &[Bucket]
        ensures { flat_map (places_for (pair_of pair.entry)) result.now
            ≡ places_of (row_at self.now) (pair_of pair.entry) }
    {
        if self.may_have(pair) {
            self.row_for(pair)
        } else {
            &[]
        }
    }
}

/// Bytes mixed into a number.
fn mixed(start: u64, bytes: &[u8]) -> u64
    requires { start < 2 ^ 32 }
    ensures mixed { result ≡ mixed start bytes.now }
    ensures within { result < 2 ^ 32 }
{
    let mut number = start;
    for byte in bytes {
        number = (31 * number + u64::from(*byte)) % MIX_COUNT;
    }
    number
}

/// The number of a pair, which names its row.
fn number_of(pair: NamedPart<'_>) -> u64
    ensures { result ≡ number_of (pair_of pair.entry) }
{
    let mark = mark_of(pair.name) as u64;
    match pair.part {
        Part::Int(number) => mark + number.cast_unsigned() % ROW_COUNT,
        Part::Text(text) => mixed(mark, text),
        Part::Bool(holds) => mark + u64::from(holds),
    }
}

/// The row of a pair.
fn row_of(pair: NamedPart<'_>) -> usize
    ensures row { result ≡ row_of (pair_of pair.entry) }
    ensures within { result < 251 }
{
    (number_of(pair) % ROW_COUNT) as usize
}

/// Makes all rows, if there are none yet. At want of memory all stays as it was.
fn make_rows(alloc: Global, rows: &mut Vec<Row>) -> Result<(), Memory>
    ensures long { OnOk result (251 ≤ length rows.new.items) }
    ensures same { (i : ℕ) → row_at rows.new.items i ≡ row_at rows.old.items i }
{
    'blanks: while rows.len() < ROW_COUNT as usize {
        match rows.push(Row {
            buckets: Vec::new(alloc),
        }) {
            Ok(()) => {}
            Err(refused) => return Err(refused.into()),
        }
    }
    Ok(())
}

/// Puts a place into the bucket of its pair, in the row of the pair. At want of memory all stays as it was.
fn put_in_row(
    alloc: Global,
    rows: &mut Vec<Row>,
    pair: NamedPart<'_>,
    place: u16,
) -> Result<(), Memory>
    ensures ok { OnOk result ((i : ℕ) → row_at rows.new.items i
        ≡ row_with (Some (pair_of pair.entry)) place (row_at rows.old.items) i) }
    ensures err { OnErr result ((i : ℕ) → row_at rows.new.items i ≡ row_at rows.old.items i) }
{
    make_rows(alloc, rows)?;
    let row = row_of(pair);
    put(alloc, &mut rows[row].buckets, pair, place)
}
