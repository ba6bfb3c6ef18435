//! Lists of bytes and of numbers with types of their own.

ghost use Rattle.std.specs.Prelude.{◌≡◌, ◌<◌, ◌++◌, ◌∷◌, [], bytes_eq, decimal, drop, length, set, take, IfOk, OnOk};
ghost use Rattle.std.specs.Prelude.{OnErr, option_to_list, IsNone};

use itoa::write_digits;
use std::alloc::{AllocError, Global};
use std::marker::Model;
use std::mem;

/// How many bytes are copied for a byte and a number behind it, which has at most 20 digits.
const NUMBER_ROOM: usize = 24;

/// A text, seen as its bytes.
#[derive(Drop)]
pub struct Text {
    bytes: Vec<u8>,
}

impl Model for Text {
    ghost use Rattle.std.specs.Prelude.{List, ℕ};

    ghost Value = { List ℕ };

    ghost view = { λ t. t.bytes.items };
}

impl Text {
    /// The empty text. Takes no memory.
    pub fn new(alloc: Global) -> Text
        ensures { result ≡ [] }
    {
        Text {
            bytes: Vec::new(alloc),
        }
    }

    /// A text of these bytes.
    pub fn from_slice(alloc: Global, bytes: &[u8]) -> Result<Text, AllocError>
        ensures { IfOk result (λ t. t ≡ bytes.now) }
    {
        let bytes = Vec::from_slice(alloc, bytes)?;
        Ok(Text { bytes })
    }

    /// The text that these bytes are. Takes no memory.
    pub fn from_vec(bytes: Vec<u8>) -> Text
        ensures { result ≡ bytes.items }
    {
        Text { bytes }
    }

    /// Whether memory that it has already holds so many bytes more.
    fn has_room(&self, count: usize) -> bool {
        count <= self.bytes.capacity().wrapping_sub(self.bytes.len())
    }

    /// Puts a byte at the end. At want of memory the text stays as it was.
    #[inline(always)]
    pub fn push(&mut self, byte: u8) -> Result<(), AllocError>
        ensures ok { OnOk result (self.new ≡ self.old ++ byte ∷ []) }
        ensures err { OnErr result (self.new ≡ self.old) }
    {
        if self.bytes.len() < self.bytes.capacity() {
            self.bytes.push_reserved(byte);
            return Ok(());
        }
        self.push_growing(byte)
    }

    /// The same, where the text has to grow.
    #[cold]
    #[inline(never)]
    fn push_growing(&mut self, byte: u8) -> Result<(), AllocError>
        ensures ok { OnOk result (self.new ≡ self.old ++ byte ∷ []) }
        ensures err { OnErr result (self.new ≡ self.old) }
    {
        self.bytes.push(byte)?;
        Ok(())
    }

    /// Puts bytes at the end. At want of memory the text stays as it was.
    ///
    /// Inlined always: most callers put a few bytes, and where these find room no call is left of it.
    #[inline(always)]
    pub fn append(&mut self, bytes: &[u8]) -> Result<(), AllocError>
        ensures ok { OnOk result (self.new ≡ self.old ++ bytes.now) }
        ensures err { OnErr result (self.new ≡ self.old) }
    {
        if self.has_room(bytes.len()) {
            return self.bytes.extend_from_slice(bytes);
        }
        self.append_growing(bytes)
    }

    /// The same, where the text has to grow.
    #[cold]
    #[inline(never)]
    fn append_growing(&mut self, bytes: &[u8]) -> Result<(), AllocError>
        ensures ok { OnOk result (self.new ≡ self.old ++ bytes.now) }
        ensures err { OnErr result (self.new ≡ self.old) }
    {
        self.bytes.extend_from_slice(bytes)
    }

    /// Puts a byte and bytes behind it at the end. At want of memory only the byte may stand there.
    ///
    /// Most words are short: up to three bytes are put by one copy together with the byte before them.
    pub fn append_word(&mut self, before: u8, word: &[u8]) -> Result<(), AllocError>
        ensures { OnOk result (self.new ≡ self.old ++ before ∷ word.now) }
    {
        if self.has_room(4) {
            match word {
                [a] => return self.append(&[before, *a]),
                [a, b] => return self.append(&[before, *a, *b]),
                [a, b, c] => return self.append(&[before, *a, *b, *c]),
                _ => {}
            }
        }
        self.append_long_word(before, word)
    }

    /// The same for words of any length. Never inlined, so that what is put of a short word can be.
    #[inline(never)]
    fn append_long_word(&mut self, before: u8, word: &[u8]) -> Result<(), AllocError>
        ensures { OnOk result (self.new ≡ self.old ++ before ∷ word.now) }
    {
        self.push(before)?;
        self.append(word)
    }

    /// Puts a byte and behind it a number in decimal at the end. At want of memory the text stays as it was.
    ///
    /// The same count of bytes is copied for each number, and what stands behind its digits is cut off: that costs less
    /// than a copy of just the digits.
    pub fn append_number(&mut self, before: u8, number: u64) -> Result<(), AllocError>
        ensures ok { OnOk result (self.new ≡ self.old ++ before ∷ decimal number) }
        ensures err { OnErr result (self.new ≡ self.old) }
    {
        if self.has_room(NUMBER_ROOM) {
            return self.put_number(before, number);
        }
        self.append_number_growing(before, number)
    }

    /// The same, where the text has to grow.
    #[cold]
    #[inline(never)]
    fn append_number_growing(&mut self, before: u8, number: u64) -> Result<(), AllocError>
        ensures ok { OnOk result (self.new ≡ self.old ++ before ∷ decimal number) }
        ensures err { OnErr result (self.new ≡ self.old) }
    {
        self.put_number(before, number)
    }

    /// The same, whether it has to grow or not.
    #[inline(always)]
    fn put_number(&mut self, before: u8, number: u64) -> Result<(), AllocError>
        ensures ok { OnOk result (self.new ≡ self.old ++ before ∷ decimal number) }
        ensures err { OnErr result (self.new ≡ self.old) }
    {
        let mut room = [0; 2 * NUMBER_ROOM];
        let start = write_digits(number, &mut room, NUMBER_ROOM) - 1;
        room[start] = before;
        let len = self.len();
        self.bytes
            .extend_from_slice(&room[start..start + NUMBER_ROOM])?;
        self.bytes.truncate(len + (NUMBER_ROOM - start));
        Ok(())
    }

    /// Takes its last byte off and answers it, or `None` where it has none. Takes no memory.
    pub fn pop(&mut self) -> Option<u8>
        ensures byte { self.old ≡ self.new ++ option_to_list result }
        ensures none { IsNone result → self.new ≡ [] }
    {
        self.bytes.pop()
    }

    /// Puts another byte in the place of one that it has. Places are counted from 0.
    pub fn set(&mut self, place: usize, byte: u8)
        requires { place < length self.old }
        ensures { self.new ≡ set self.old place byte }
    {
        self.bytes[place] = byte;
    }

    /// Takes its first byte off. Takes no memory.
    pub fn remove_first(&mut self)
        requires { 0 < length self.old }
        ensures { self.new ≡ drop 1 self.old }
    {
        self.bytes.remove(0);
    }

    /// Keeps so many of its first bytes.
    pub fn truncate(&mut self, len: usize)
        ensures { self.new ≡ take len self.old }
    {
        self.bytes.truncate(len);
    }

    /// The bytes that it is made of. Takes no memory.
    pub fn into_vec(self) -> Vec<u8>
        ensures { result.items ≡ self }
    {
        let Text { bytes } = self;
        bytes
    }

    /// Gives its bytes away and is empty. Takes no memory.
    pub(crate) fn take(&mut self) -> Vec<u8>
        ensures bytes { result.items ≡ self.old }
        ensures empty { self.new ≡ [] }
    {
        let alloc = *self.bytes.allocator();
        mem::replace(&mut self.bytes, Vec::new(alloc))
    }

    /// Its bytes.
    pub fn as_slice(&self) -> &[u8]
        ensures { result.now ≡ self.now }
    {
        &self.bytes
    }

    /// How many bytes it has.
    pub fn len(&self) -> usize
        ensures { result ≡ length self.now }
    {
        self.bytes.len()
    }

    /// Whether both have the same bytes.
    pub fn same(&self, other: &Text) -> bool
        ensures { result ≡ bytes_eq self.now other.now }
    {
        self.as_slice() == other.as_slice()
    }
}

/// A list of bytes, seen as it is.
#[derive(Drop)]
pub struct Bytes {
    bytes: Vec<u8>,
}

impl Model for Bytes {
    ghost use Rattle.std.specs.Prelude.{List, ℕ};

    ghost Value = { List ℕ };

    ghost view = { λ t. t.bytes.items };
}

impl Bytes {
    /// No bytes. Takes no memory.
    pub fn new(alloc: Global) -> Bytes
        ensures { result ≡ [] }
    {
        Bytes {
            bytes: Vec::new(alloc),
        }
    }

    /// A list of these bytes.
    pub fn from_slice(alloc: Global, bytes: &[u8]) -> Result<Bytes, AllocError>
        ensures { IfOk result (λ b. b ≡ bytes.now) }
    {
        let bytes = Vec::from_slice(alloc, bytes)?;
        Ok(Bytes { bytes })
    }

    /// The list that these bytes are. Takes no memory.
    pub fn from_vec(bytes: Vec<u8>) -> Bytes
        ensures { result ≡ bytes.items }
    {
        Bytes { bytes }
    }

    /// Puts a byte at the end. At want of memory the list stays as it was.
    pub fn push(&mut self, byte: u8) -> Result<(), AllocError>
        ensures ok { OnOk result (self.new ≡ self.old ++ byte ∷ []) }
        ensures err { OnErr result (self.new ≡ self.old) }
    {
        self.bytes.push(byte)?;
        Ok(())
    }

    /// Puts bytes at the end. At want of memory the list stays as it was.
    pub fn append(&mut self, bytes: &[u8]) -> Result<(), AllocError>
        ensures ok { OnOk result (self.new ≡ self.old ++ bytes.now) }
        ensures err { OnErr result (self.new ≡ self.old) }
    {
        self.bytes.extend_from_slice(bytes)
    }

    /// Its bytes.
    pub fn as_slice(&self) -> &[u8]
        ensures { result.now ≡ self.now }
    {
        &self.bytes
    }

    /// How many bytes it has.
    pub fn len(&self) -> usize
        ensures { result ≡ length self.now }
    {
        self.bytes.len()
    }
}

/// A list of numbers of brokers, publishers or subscribers, seen as it is.
#[derive(Drop)]
pub struct Numbers {
    numbers: Vec<u16>,
}

impl Model for Numbers {
    ghost use Rattle.std.specs.Prelude.{List, ℕ};

    ghost Value = { List ℕ };

    ghost view = { λ t. t.numbers.items };
}

impl Numbers {
    /// No numbers. Takes no memory.
    pub fn new(alloc: Global) -> Numbers
        ensures { result ≡ [] }
    {
        Numbers {
            numbers: Vec::new(alloc),
        }
    }

    /// A list of these numbers.
    pub fn from_slice(alloc: Global, numbers: &[u16]) -> Result<Numbers, AllocError>
        ensures { IfOk result (λ n. n ≡ numbers.now) }
    {
        let numbers = Vec::from_slice(alloc, numbers)?;
        Ok(Numbers { numbers })
    }

    /// Puts a number at the end. At want of memory the list stays as it was.
    pub fn push(&mut self, number: u16) -> Result<(), AllocError>
        ensures ok { OnOk result (self.new ≡ self.old ++ number ∷ []) }
        ensures err { OnErr result (self.new ≡ self.old) }
    {
        self.numbers.push(number)?;
        Ok(())
    }

    /// Its numbers.
    pub fn as_slice(&self) -> &[u16]
        ensures { result.now ≡ self.now }
    {
        &self.numbers
    }

    /// How many numbers it has.
    pub fn len(&self) -> usize
        ensures { result ≡ length self.now }
    {
        self.numbers.len()
    }
}
