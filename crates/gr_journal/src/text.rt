//! The lines of a text, and the line `===` between a scenario and journals. Nothing here takes memory.

ghost use Rattle.std.specs.Prelude.{◌≡◌, ◌+◌, ◌<◌, ◌≤◌, ◌∷◌, length};
ghost use Rattle.gr_sched.specs.Text.{line_of};
ghost use Rattle.gr_journal.specs.Parts.{is_bar, scenario_part, journal_part, lines_of};

use gr_sched::text::{line_of, piece_len};

/// Whether the line that stands in a piece is exactly `===`.
fn is_bar(piece: &[u8]) -> bool
    ensures { result ≡ is_bar piece.now }
{
    line_of(piece) == b"===".as_slice()
}

/// What stands before the first line that is exactly `===`, and what stands behind it. Without one all is the first
/// part.
pub fn split(bytes: &[u8]) -> (&[u8], &[u8])
    ensures scenario { result.0.now ≡ scenario_part bytes.now }
    ensures journals { result.1.now ≡ journal_part bytes.now }
    ensures within { length result.0.now + length result.1.now ≤ length bytes.now }
{
    let mut start = 0;
    'pieces: while start < bytes.len() {
        let rest = &bytes[start..];
        let end = piece_len(rest);
        if is_bar(&rest[..end]) {
            return (&bytes[..start], &rest[end..]);
        }
        start += end;
    }
    (bytes, &bytes[bytes.len()..])
}

/// The first line of a text, and what stands behind its end.
pub(crate) fn next_line(text: &[u8]) -> (&[u8], &[u8])
    requires { 0 < length text.now }
    ensures lines { lines_of text.now ≡ result.0.now ∷ lines_of result.1.now }
    ensures shorter { length result.1.now < length text.now }
{
    let end = piece_len(text);
    (line_of(&text[..end]), &text[end..])
}
