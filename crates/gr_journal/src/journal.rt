//! A process's journal, as it was read.

ghost use Rattle.std.specs.Prelude.{◌≡◌, ◌∷◌, ◌++◌, [], OnOk, OnErr};

use crate::arrival::CameList;
use gr_event::{Numbers, Text};
use std::alloc::{AllocError, Global};
use std::marker::Model;

/// A process's journal, as it was read.
#[derive(Drop)]
pub struct Journal {
    /// The number of its process line, where it begins.
    pub first: u32,
    /// The brokers that this line names, in its order.
    pub brokers: Numbers,
    /// Its lines, each in its one spelling and with its LF.
    pub text: Text,
    /// What came, with the lines.
    pub came: CameList,
}

/// Journals in the order of their lines, seen as a list.
#[derive(Drop)]
pub struct JournalList {
    journals: Vec<Journal>,
}

impl Model for JournalList {
    ghost use Rattle.std.specs.Prelude.{List};
    ghost use Rattle.gr_journal.specs.declared.journal.Journal.{Journal};

    ghost Value = { List Journal };

    ghost view = { λ l. l.journals.items };
}

impl JournalList {
    /// No journals. Takes no memory.
    pub(crate) fn new(alloc: Global) -> JournalList
        ensures { result ≡ [] }
    {
        JournalList {
            journals: Vec::new(alloc),
        }
    }

    /// One more journal at the end. At want of memory the list stays as it was.
    pub(crate) fn push(&mut self, journal: Journal) -> Result<(), AllocError>
        ensures ok { OnOk result (self.new ≡ self.old ++ journal ∷ []) }
        ensures err { OnErr result (self.new ≡ self.old) }
    {
        self.journals.push(journal)?;
        Ok(())
    }

    /// The journals.
    pub fn as_slice(&self) -> &[Journal]
        ensures { result.now ≡ self.now }
    {
        self.journals.as_slice()
    }
}
