//! What the groups of a journal are to the joint order.

ghost use Rattle.std.specs.Prelude.{◌≡◌, ◌∷◌, ◌++◌, [], OnOk, OnErr};
ghost use Rattle.gr_audit.specs.declared.mark.Mark.TheVariants as mark;

use std::alloc::{AllocError, Global};
use std::marker::Model;

/// What came to a process, or what it offered then; a datagram by its number.
#[derive(Clone, Copy)]
pub enum Mark {
    /// An arrival begins a group.
    Arrives {
        /// Its line.
        line: u32,
        /// The datagram that has to be offered before it.
        needs: Option<u32>,
    },
    /// The group offers a datagram.
    Offers {
        /// Its number.
        key: u32,
    },
}

/// The marks of a journal in their order, seen as a list.
#[derive(Drop)]
pub struct MarkList {
    marks: Vec<Mark>,
}

impl Model for MarkList {
    ghost use Rattle.std.specs.Prelude.{List};
    ghost use Rattle.gr_audit.specs.declared.mark.Mark.{Mark};

    ghost Value = { List Mark };

    ghost view = { λ l. l.marks.items };
}

impl MarkList {
    /// No marks. Takes no memory.
    pub fn new(alloc: Global) -> MarkList
        ensures { result ≡ [] }
    {
        MarkList {
            marks: Vec::new(alloc),
        }
    }

    /// A group more, that begins with the arrival of this line. At want of memory the list stays as it was.
    pub fn arrives(&mut self, line: u32, needs: Option<u32>) -> Result<(), AllocError>
        ensures ok { OnOk result (self.new ≡ self.old ++ mark.Arrives line needs ∷ []) }
        ensures err { OnErr result (self.new ≡ self.old) }
    {
        self.marks.push(Mark::Arrives { line, needs })?;
        Ok(())
    }

    /// An offer more of the last group. At want of memory the list stays as it was.
    pub fn offers(&mut self, key: u32) -> Result<(), AllocError>
        ensures ok { OnOk result (self.new ≡ self.old ++ mark.Offers key ∷ []) }
        ensures err { OnErr result (self.new ≡ self.old) }
    {
        self.marks.push(Mark::Offers { key })?;
        Ok(())
    }

    /// The marks.
    pub fn as_slice(&self) -> &[Mark]
        ensures { result.now ≡ self.now }
    {
        self.marks.as_slice()
    }
}
