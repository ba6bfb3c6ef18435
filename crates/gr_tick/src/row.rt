//! Values in a row, which is made from its first value to its last.
ghost use Rattle.std.specs.Prelude.{◌≡◌, ◌<◌, [], ◌∷◌, ◌++◌, length, slice_index_or, slice_set, OnOk, OnErr};
ghost use Rattle.gr_tick.specs.Listed.{IsAlone, listed};

use std::alloc::{AllocError, Global};
use std::marker::Model;
use std::mem;

/// How many values a row has room for when it gets its second one.
const FIRST_ROOM: usize = 4;

/// From how many values on a row that is full gets no more than twice the room.
const MANY: usize = 32;

/// Where the values of a row stand.
#[derive(Drop)]
enum Values<T> {
    None,
    Alone(T),
    Many(Vec<T>),
}

/// Values in a row, seen as their list. One alone stands in the row itself, and takes no memory.
#[derive(Drop)]
pub(crate) struct Row<T> {
    values: Values<T>,
}

impl<T> Model for Row<T> {
    ghost use Rattle.gr_tick.specs.Listed.{Listed, listed};

    ghost Value = { Listed T };

    ghost view = { λ r. listed r.values };
}

impl<T> Row<T> {
    /// No values. It takes no memory.
    pub(crate) fn new() -> Row<T>
        ensures { result.items ≡ [] }
    {
        Row {
            values: Values::None,
        }
    }

    /// How many values there are.
    pub(crate) fn len(&self) -> usize
        ensures { result ≡ length self.now.items }
    {
        match &self.values {
            Values::None => 0,
            Values::Alone(_) => 1,
            Values::Many(values) => values.len(),
        }
    }

    /// The value at place `i`, from 0.
    pub(crate) fn get(&self, i: usize) -> &T
        requires { i < length self.now.items }
        ensures { result.now ≡ slice_index_or self.now.items i result.now }
    {
        match &self.values {
            Values::None => unreachable!(),
            Values::Alone(value) => value,
            Values::Many(values) => &values[i],
        }
    }
}

impl<T: Drop> Row<T> {
    /// Puts a value at the end. It fails only where memory is refused; then the row is as it was. Inlined always, since
    /// most rows get one value.
    #[inline(always)]
    pub(crate) fn push(&mut self, alloc: Global, value: T) -> Result<(), AllocError>
        ensures ok { OnOk result (self.new.items ≡ self.old.items ++ value ∷ []) }
        ensures err { OnErr result (self.new ≡ self.old) }
    {
        match &mut self.values {
            Values::None => {
                self.values = Values::Alone(value);
                Ok(())
            }
            Values::Alone(_) => put_second(&mut self.values, alloc, value),
            Values::Many(values) => {
                if values.len() < values.capacity() {
                    values.push_reserved(value);
                    return Ok(());
                }
                push_growing(values, value)
            }
        }
    }

    /// Puts a value in the place of another.
    pub(crate) fn set(&mut self, i: usize, value: T)
        requires { i < length self.old.items }
        ensures { self.new.items ≡ slice_set self.old.items i value }
    {
        match &mut self.values {
            Values::None => unreachable!(),
            Values::Alone(only) => *only = value,
            Values::Many(values) => values[i] = value,
        }
    }
}

/// Puts a value behind those that have no room for it. They get four times the room where they are few, so that they are
/// seldom moved, and else twice the room, of which less may stay unused. It fails only where memory is refused; then they
/// are as they were.
#[cold]
#[inline(never)]
fn push_growing<T: Drop>(values: &mut Vec<T>, value: T) -> Result<(), AllocError>
    ensures ok { OnOk result (values.new.items ≡ values.old.items ++ value ∷ []) }
    ensures err { OnErr result (values.new.items ≡ values.old.items) }
{
    let len = values.len();
    let more = if len < MANY { 3 * len } else { len };
    values.reserve(more.max(1))?;
    values.push_reserved(value);
    Ok(())
}

/// Puts a second value behind the one that stands alone. It fails only where memory is refused; then all is as it was.
#[inline(never)]
fn put_second<T: Drop>(values: &mut Values<T>, alloc: Global, value: T) -> Result<(), AllocError>
    requires { IsAlone values.old }
    ensures ok { OnOk result ((listed values.new).items ≡ (listed values.old).items ++ value ∷ []) }
    ensures err { OnErr result (values.new ≡ values.old) }
{
    let mut both = Vec::with_capacity(alloc, FIRST_ROOM)?;
    let Values::Alone(first) = mem::replace(values, Values::None) else {
        unreachable!()
    };
    both.push_reserved(first);
    both.push_reserved(value);
    *values = Values::Many(both);
    Ok(())
}
