//! What the first bytes of a frame say: they are read without the body.

ghost use Rattle.std.specs.Prelude.{◌≡◌, IsOk, IfOk};
ghost use Rattle.gr_frame.specs.Decode.{frame_decoded};
ghost use Rattle.gr_frame.specs.Peek.{kind_by_number, peeked};

use crate::field::number_of_two;

/// The place of the number of its kind in the bytes of a frame.
pub(crate) const KIND_AT: usize = 3;

/// The place of the number of the broker that is to get it.
pub(crate) const TO_AT: usize = 6;

/// The place of the number of its publisher.
pub(crate) const PUBLISHER_AT: usize = 8;

/// What a frame carries.
#[derive(Clone, Copy, Debug, PartialEq, Eq)]
pub enum Kind {
    /// What is known, with joins or without.
    Knowledge,
    /// What is asked for or acknowledged.
    Curiosity,
    /// A tick up to which all is to be asked for.
    Expect,
}

/// What a frame carries, to whom, and of which publisher it speaks.
#[derive(Clone, Copy, Debug, PartialEq, Eq)]
pub struct Peek {
    /// What it carries.
    pub kind: Kind,
    /// The broker that is to get it.
    pub to: u16,
    /// The publisher.
    pub publisher: u16,
}

impl Peek {
    /// What the first bytes of a frame say of it. The others are not looked at, and no memory is taken.
    pub fn of(bytes: &[u8]) -> Peek
        requires { IsOk (frame_decoded bytes.now) }
        ensures { IfOk (frame_decoded bytes.now) (λ f. result ≡ peeked f) }
    {
        Peek {
            kind: kind_by_number(bytes[KIND_AT]),
            to: number_of_two(&bytes[TO_AT..TO_AT + 2]),
            publisher: number_of_two(&bytes[PUBLISHER_AT..PUBLISHER_AT + 2]),
        }
    }
}

/// What a frame carries, by the number that stands in it.
fn kind_by_number(number: u8) -> Kind
    ensures { result ≡ kind_by_number number }
{
    match number {
        1 => Kind::Knowledge,
        2 => Kind::Curiosity,
        _ => Kind::Expect,
    }
}
