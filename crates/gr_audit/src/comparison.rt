//! What a process tells, compared with a journal as it is told.

ghost use Rattle.std.specs.Prelude.{◌≡◌, ◌+◌, ◌<◌, ◌≤◌, ◌++◌, [], length, take, drop, Some, None};
ghost use Rattle.std.specs.Prelude.{IsSome, slice_index, IfOk, OnErr};
ghost use Rattle.gr_out.specs.Bytes.{with_more};
ghost use Rattle.gr_out.specs.Faults.{Counts};
ghost use Rattle.gr_audit.specs.Compared.{told_of, text_of, ends_in, wrong_in, IsOther};

use gr_out::{Failed, Sink};
use std::alloc::AllocError;
use std::marker::Model;

/// A sink that compares what it takes with a text. It keeps where the two part, and takes nothing behind that.
#[derive(Drop)]
pub struct Comparison<'a> {
    text: &'a [u8],
    /// So many bytes of the text were taken as they stand there.
    at: usize,
    /// The byte that was taken behind them, if it is another one.
    wrong: Option<u8>,
    faults: u64,
}

impl<'a> Model for Comparison<'a> {
    ghost use Rattle.std.specs.Prelude.{take, drop, length, ◌≤◌};
    ghost use Rattle.gr_audit.specs.Compared.{ComparedView, IsOther};

    ghost Value = { ComparedView };

    ghost view = { λ c. record {
      same = take c.at c.text.now;
      left = drop c.at c.text.now;
      wrong = c.wrong;
      faults = c.faults;
    } };

    ghost invariant = { λ c. (c.at ≤ length c.text.now) × IsOther c.wrong (drop c.at c.text.now) };
}

/// How many bytes two texts begin with that are the same.
fn same_len(text: &[u8], bytes: &[u8]) -> usize
    ensures within { result ≤ length text.now }
    ensures most { result ≤ length bytes.now }
    ensures same { take result text.now ≡ take result bytes.now }
    ensures next { result < length bytes.now → IsOther (Some (slice_index bytes.now result)) (drop result text.now) }
{
    let mut at = 0;
    'bytes: while at < text.len() && at < bytes.len() {
        if text[at] != bytes[at] {
            return at;
        }
        at += 1;
    }
    at
}

/// How many lines of a text end.
fn ends_in(text: &[u8]) -> usize
    ensures count { result ≡ ends_in text.now }
    ensures most { result ≤ length text.now }
{
    let mut ends = 0;
    'bytes: for byte in text {
        if *byte == b'\n' {
            ends += 1;
        }
    }
    ends
}

impl<'a> Comparison<'a> {
    /// A comparison with this text, of which nothing was told. Takes no memory.
    pub fn new(text: &'a [u8]) -> Comparison<'a>
        ensures { result ≡ record { same = []; left = text.now; wrong = None; faults = 0 } }
    {
        Comparison {
            text,
            at: 0,
            wrong: None,
            faults: 0,
        }
    }

    /// The line at which what was told and the text part, where the text begins with this line; None where they are the
    /// same. A line whose number has no room is answered by want of memory.
    pub fn wrong_line(&self, first: u32) -> Result<Option<u32>, AllocError>
        ensures line { IfOk result (λ line. line ≡ wrong_in first self.now) }
        ensures other { IsOther self.now.wrong self.now.left }
    {
        if self.wrong.is_some() {
            return self.line_here(first);
        }
        if self.at < self.text.len() {
            return self.line_here(first);
        }
        Ok(None)
    }

    /// The line of the text behind what was told.
    fn line_here(&self, first: u32) -> Result<Option<u32>, AllocError>
        ensures { IfOk result (λ line. line ≡ Some (first + ends_in self.now.same)) }
    {
        let line = u64::from(first) + ends_in(&self.text[..self.at]) as u64;
        match u32::try_from(line) {
            Ok(line) => Ok(Some(line)),
            Err(_) => Err(AllocError),
        }
    }
}

impl<'a> Sink for Comparison<'a> {
    ghost taken = { λ c. Some (told_of c) };

    ghost faults = { λ c. c.faults };

    /// Takes bytes up to the first that is another one, and that one too. Behind it each call fails.
    fn write(&mut self, bytes: &[u8]) -> Result<usize, Failed>
        ensures count { IfOk result (λ n. n ≤ length bytes.now) }
        ensures some { IfOk result (λ n. 0 < length bytes.now → 0 < n) }
        ensures bytes { IfOk result (λ n.
            Some (told_of self.new) ≡ with_more (Some (told_of self.old)) (take n bytes.now)) }
        ensures err { OnErr result (Some (told_of self.new) ≡ Some (told_of self.old)) }
        ensures cause { Counts self.old.faults self.new.faults result }
        ensures wrong { OnErr result (IsSome self.new.wrong) }
        ensures text { text_of self.new ≡ text_of self.old }
    {
        if self.wrong.is_some() {
            self.faults = self.faults.saturating_add(1);
            return Err(Failed);
        }
        let same = same_len(&self.text[self.at..], bytes);
        self.at += same;
        if same < bytes.len() {
            self.wrong = Some(bytes[same]);
            return Ok(same + 1);
        }
        Ok(same)
    }
}
