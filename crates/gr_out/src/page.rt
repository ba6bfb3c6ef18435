//! Text that is gathered in memory, so that a sink takes many lines in one call.

ghost use Rattle.std.specs.Prelude.{◌≡◌, ◌≢◌, ℕ, ◌<◌, ◌≤◌, ◌++◌, nat_le, [], length, Some, Err, IfOk, OnOk, OnErr};
ghost use Rattle.std.specs.Prelude.{IsOkUnless, IsErrOf};
ghost use Rattle.gr_out.specs.Bytes.{with_more};
ghost use Rattle.gr_out.specs.Faults.{Counts, Rose};
ghost use Rattle.gr_out.specs.Page.{PageView, TakesFront};

use crate::fault::{Failed, Memory, RunFault};
use crate::sink::Sink;
use crate::transfer::write_all;
use gr_event::Text;
use std::alloc::Global;
use std::marker::Model;

/// From how many bytes on a page is full.
pub const PAGE_BYTES: usize = 65_536;

/// Text that is still to be written. It grows where a line needs room; a call for which memory is refused is a fault,
/// and leaves it as it was.
#[derive(Drop)]
pub struct Page {
    /// What it holds. Who puts a line there looks whether the page is full then.
    pub held: Text,
    faults: u64,
}

impl Model for Page {
    ghost Value = { PageView };

    ghost view = { λ p. record { held = p.held; faults = p.faults } };
}

impl Page {
    /// An empty page, with its room. Its count of faults begins at 0.
    pub fn new(alloc: Global) -> Result<Page, Memory>
        ensures empty { IfOk result (λ p. p.held ≡ []) }
        ensures count { IfOk result (λ p. p.faults ≡ 0) }
    {
        Ok(Page {
            held: Text::from_vec(Vec::with_capacity(alloc, PAGE_BYTES)?),
            faults: 0,
        })
    }

    /// Whether it is time to write it.
    pub fn is_full(&self) -> bool
        ensures { result ≡ nat_le PAGE_BYTES (length self.now.held) }
    {
        self.held.len() >= PAGE_BYTES
    }

    /// Writes what the page holds, and leaves it empty. After `Write` the sink took a front of it, and the page still
    /// holds all of it. Never inlined, since most lines leave a page that is not full.
    #[inline(never)]
    pub fn flush<K: Sink>(&mut self, sink: &mut K) -> Result<(), RunFault>
        ensures taken { OnOk result (K.taken sink.new ≡ with_more (K.taken sink.old) self.old.held) }
        ensures emptied { OnOk result (self.new.held ≡ []) }
        ensures held { OnErr result (self.new.held ≡ self.old.held) }
        ensures count { self.new.faults ≡ self.old.faults }
        ensures front { OnErr result (TakesFront (K.taken sink.old) (K.taken sink.new) self.old.held) }
        ensures only { IsOkUnless result RunFault.Write }
        ensures write { IsErrOf result RunFault.Write → Rose (K.faults sink.old) (K.faults sink.new) }
        ensures same { result ≢ Err RunFault.Write → K.faults sink.new ≡ K.faults sink.old }
    {
        match write_all(sink, self.held.as_slice()) {
            Ok(()) => {
                self.held.truncate(0);
                Ok(())
            }
            Err(_) => Err(RunFault::Write),
        }
    }
}

impl Sink for Page {
    ghost taken = { λ p. Some p.held };

    ghost faults = { λ p. p.faults };

    /// Takes all of the bytes, or none where memory is refused.
    fn write(&mut self, bytes: &[u8]) -> Result<usize, Failed>
        ensures count { IfOk result (λ n. n ≡ length bytes.now) }
        ensures held { OnOk result (self.new.held ≡ self.old.held ++ bytes.now) }
        ensures err { OnErr result (self.new.held ≡ self.old.held) }
        ensures cause { Counts self.old.faults self.new.faults result }
    {
        match self.held.append(bytes) {
            Ok(()) => Ok(bytes.len()),
            Err(_) => {
                self.faults = self.faults.saturating_add(1);
                Err(Failed)
            }
        }
    }
}
