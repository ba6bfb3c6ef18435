//! How a text fits a pattern.

ghost use Rattle.std.specs.Prelude.{◌≡◌};
ghost use Rattle.gr_filter.specs.Like.{continues, after_character, any_front, fits};
ghost use Rattle.gr_filter.specs.Reach.{reach, reach_of, any_later};

/// How far a pattern fits at the front of a text.
enum Front<'p, 't> {
    /// Not up to its first `%`.
    Differs,
    /// All of it, and this is left of the text.
    Whole(&'t [u8]),
    /// Up to a `%`, and this is left of both behind it.
    UpTo { pattern: &'p [u8], text: &'t [u8] },
}

/// Whether the text fits the pattern: `%` stands for any characters, none included, and `_` for one.
pub(crate) fn fits(pattern: &[u8], text: &[u8]) -> bool
    ensures { result ≡ fits pattern.now text.now }
{
    match front_of(pattern, text) {
        Front::Differs => false,
        Front::Whole(rest) => rest.is_empty(),
        Front::UpTo { pattern, text } => fits_from(pattern, text),
    }
}

/// Whether the text fits the pattern from some place on.
///
/// The first place where the pattern fits up to its next `%` serves, since behind a later place less of the text is
/// left. So no choice is ever taken back.
#[cycle(fits_from)]
fn fits_from(pattern: &[u8], text: &[u8]) -> bool
    ensures { result ≡ any_front (fits pattern.now) text.now }
{
    match front_of(pattern, text) {
        Front::UpTo {
            pattern: behind,
            text: rest,
        } => fits_from(behind, rest),
        Front::Whole(rest) => rest.is_empty() || fits_later(pattern, text),
        Front::Differs => fits_later(pattern, text),
    }
}

/// The same, from some place behind the first byte on.
#[cycle(fits_from)]
fn fits_later(pattern: &[u8], text: &[u8]) -> bool
    ensures { result ≡ any_later (fits pattern.now) text.now }
{
    match text {
        [] => false,
        [_, others @ ..] => fits_from(pattern, others),
    }
}

/// Fits the pattern up to its first `%`.
fn front_of<'p, 't>(pattern: &'p [u8], text: &'t [u8]) -> Front<'p, 't>
    ensures { reach_of result ≡ reach pattern.now text.now }
{
    let mut pattern = pattern;
    let mut text = text;
    'places: loop {
        match pattern {
            [] => return Front::Whole(text),
            [b'%', rest @ ..] => {
                return Front::UpTo {
                    pattern: rest,
                    text,
                };
            }
            [b'_', rest @ ..] => match text {
                [first, others @ ..] if !continues(*first) => {
                    pattern = rest;
                    text = after_character(others);
                }
                _ => return Front::Differs,
            },
            [byte, rest @ ..] => match text {
                [first, others @ ..] if byte == first => {
                    pattern = rest;
                    text = others;
                }
                _ => return Front::Differs,
            },
        }
    }
}

/// Whether a byte of UTF-8 does not begin a character.
fn continues(byte: u8) -> bool
    ensures { result ≡ continues byte }
{
    byte >= 128 && byte < 192
}

/// What is left behind the bytes that go on with a character.
fn after_character(text: &[u8]) -> &[u8]
    ensures { result.now ≡ after_character text.now }
{
    let mut left = text;
    'bytes: loop {
        match left {
            [first, rest @ ..] if continues(*first) => left = rest,
            _ => return left,
        }
    }
}
