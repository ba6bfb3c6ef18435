//! The values of an event.

ghost use Rattle.std.specs.Prelude.{◌≡◌};
ghost use Rattle.gr_event.specs.Event.{same_value};
ghost use Rattle.gr_event.specs.Get.{part_value};

use crate::text::Text;

/// A value of an event.
#[derive(Drop)]
pub enum Value {
    /// A signed integer of 64 bits.
    Int(i64),
    /// A text of at most 1,024 bytes of UTF-8.
    Text(Text),
    /// A truth value.
    Bool(bool),
}

impl Value {
    /// The value as a reader sees it. Takes no memory.
    pub fn part(&self) -> Part<'_>
        ensures { part_value result ≡ self.now }
    {
        match self {
            Value::Int(number) => Part::Int(*number),
            Value::Text(text) => Part::Text(text.as_slice()),
            Value::Bool(holds) => Part::Bool(*holds),
        }
    }

    /// Whether both are the same value of one type.
    pub fn same(&self, other: &Value) -> bool
        ensures { result ≡ same_value self.now other.now }
    {
        match self {
            Value::Int(a) => matches!(other, Value::Int(b) if *a == *b),
            Value::Text(a) => match other {
                Value::Text(b) => a.same(b),
                Value::Int(_) | Value::Bool(_) => false,
            },
            Value::Bool(a) => matches!(other, Value::Bool(b) if *a == *b),
        }
    }
}

/// A value of an event as a reader sees it, a text as its bytes.
#[derive(Clone, Copy)]
pub enum Part<'a> {
    /// A signed integer of 64 bits.
    Int(i64),
    /// The bytes of a text, at most 1,024 of UTF-8.
    Text(&'a [u8]),
    /// A truth value.
    Bool(bool),
}
