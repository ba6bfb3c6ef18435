//! The words of a line, in one row: a text with a blank before each word.

ghost use Rattle.std.specs.Prelude.{◌≡◌, ◌++◌, [], ◌∷◌, drop, OnOk, IfOk};
ghost use Rattle.std.specs.Fmt.{decimal};
ghost use Rattle.std.specs.List.{flat_map};
ghost use Rattle.gr_event.specs.Json.{json_text};
ghost use Rattle.gr_model.specs.Text.{hex_pair};

use gr_event::{Event, Text};
use std::alloc::{AllocError, Global};

/// How many bytes a row has room for when it begins, which most lines never pass.
const FIRST_ROOM: usize = 256;

/// A row with no words, with room for most lines.
pub(crate) fn new_row(alloc: Global) -> Result<Text, AllocError>
    ensures { IfOk result (λ row. row ≡ []) }
{
    Ok(Text::from_vec(Vec::with_capacity(alloc, FIRST_ROOM)?))
}

/// Puts a word at the end of a row, a blank before it. Inlined always, since most words are literals.
#[inline(always)]
pub(crate) fn push_word(row: &mut Text, word: &[u8]) -> Result<(), AllocError>
    ensures { OnOk result (row.new ≡ row.old ++ 32 ∷ word.now) }
{
    row.push(b' ')?;
    row.append(word)
}

/// Puts a name at the end of a row, a blank before it.
pub(crate) fn push_name(row: &mut Text, name: &[u8]) -> Result<(), AllocError>
    ensures { OnOk result (row.new ≡ row.old ++ 32 ∷ name.now) }
{
    row.append_word(b' ', name)
}

/// Puts a number at the end of a row, in decimal, a blank before it.
pub(crate) fn push_number(row: &mut Text, number: u64) -> Result<(), AllocError>
    ensures { OnOk result (row.new ≡ row.old ++ 32 ∷ decimal number) }
{
    row.append_number(b' ', number)
}

/// Puts an event's JSON at the end of a row, a blank before it.
pub(crate) fn push_event(row: &mut Text, event: &Event) -> Result<(), AllocError>
    ensures { OnOk result (row.new ≡ row.old ++ 32 ∷ json_text event.now) }
{
    row.push(b' ')?;
    event.json_into(row)
}

/// Puts bytes at the end of a row, as two lower-case hexadecimal digits each, a blank before the first.
pub(crate) fn push_hex(row: &mut Text, bytes: &[u8]) -> Result<(), AllocError>
    ensures { OnOk result (row.new ≡ row.old ++ 32 ∷ flat_map hex_pair bytes.now) }
{
    row.push(b' ')?;
    append_hex(row, bytes)
}

/// A row without its first blank.
pub(crate) fn line_of(row: &Text) -> &[u8]
    ensures { result.now ≡ drop 1 row.now }
{
    match row.as_slice() {
        [] => &[],
        [_, line @ ..] => line,
    }
}

/// The hexadecimal digits.
const HEX_DIGITS: &[u8; 16] = b"0123456789abcdef";

/// Puts bytes at the end, as two lower-case hexadecimal digits each.
fn append_hex(text: &mut Text, bytes: &[u8]) -> Result<(), AllocError>
    ensures { OnOk result (text.new ≡ text.old ++ flat_map hex_pair bytes.now) }
{
    for byte in bytes {
        text.push(HEX_DIGITS[(*byte / 16) as usize])?;
        text.push(HEX_DIGITS[(*byte % 16) as usize])?;
    }
    Ok(())
}
