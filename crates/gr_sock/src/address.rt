//! The text of an address.

ghost use Rattle.std.specs.Prelude.{◌≡◌, ◌==◌, ◌<◌, ◌≤◌, ◌*◌, length, true, IfSome};
ghost use Rattle.std.specs.List.{list_all, position};
ghost use Rattle.std.specs.Option.{option_map};

use std::fmt;
use std::fmt::{Display, Formatter};

/// An IPv4 address with a port.
#[derive(Clone, Copy, Debug, PartialEq, Eq)]
pub struct Address {
    /// The four numbers of the address, in the order of its text.
    pub host: [u8; 4],
    /// The port, not 0.
    pub port: u16,
}

/// As it is read, with no zeros before a number.
impl Display for Address {
    fn fmt<W: fmt::Write>(&self, f: &mut Formatter<W>) -> fmt::Result {
        let [a, b, c, d] = self.host;
        write!(f, "{a}.{b}.{c}.{d}:{}", self.port)
    }
}

ghost use Rattle.gr_sock.specs.Address.{is_digit, value_after, has_digits, number_in, octet_before, host_before_port};
ghost use Rattle.gr_sock.specs.Address.{address_of};

/// Whether each byte is a digit.
fn has_only_digits(text: &[u8]) -> bool
    ensures { result ≡ list_all is_digit text.now }
{
    text.iter().all(|byte| *byte >= b'0' && *byte <= b'9')
}

/// Whether bytes are 1 to `most` digits.
fn has_digits(most: usize, text: &[u8]) -> bool
    ensures { result ≡ has_digits most text.now }
{
    !text.is_empty() && text.len() <= most && has_only_digits(text)
}

/// The value of at most 5 digits.
fn value(digits: &[u8]) -> u32
    requires short { length digits.now ≤ 5 }
    requires digits { list_all is_digit digits.now ≡ true }
    ensures { result ≡ value_after 0 digits.now }
{
    let mut value = 0u32;
    for digit in digits {
        value = value * 10 + u32::from(*digit - b'0');
    }
    value
}

/// At most `most` digits as a number from `low` to `high`.
fn number_in(most: usize, low: u32, high: u32, text: &[u8]) -> Option<u32>
    requires { most ≤ 5 }
    ensures { result ≡ number_in most low high text.now }
{
    if !has_digits(most, text) {
        return None;
    }
    let number = value(text);
    if number < low || number > high {
        return None;
    }
    Some(number)
}

/// Where a mark stands first, if anywhere.
fn find(mark: u8, text: &[u8]) -> Option<usize>
    ensures first { result ≡ position (λ c. c == mark) text.now }
    ensures bound { IfSome result (λ at. at < length text.now) }
{
    text.iter().position(|byte| *byte == mark)
}

/// A number of 0 to 255 in 1 to 3 digits.
fn octet(text: &[u8]) -> Option<u8>
    ensures { result ≡ number_in 3 0 255 text.now }
{
    let number = number_in(3, 0, 255, text)?;
    Some(number as u8)
}

/// A number of 0 to 255 before a mark, and what follows the mark.
fn octet_before(mark: u8, text: &[u8]) -> Option<(u8, &[u8])>
    ensures { option_map (λ r. (r.0, r.1.now)) result ≡ octet_before mark text.now }
{
    let end = find(mark, text)?;
    let number = octet(&text[..end])?;
    Some((number, &text[end + 1..]))
}

/// The four numbers, and what follows them.
fn host_before_port(text: &[u8]) -> Option<([u8; 4], &[u8])>
    ensures { option_map (λ r. (r.0, r.1.now)) result ≡ host_before_port text.now }
{
    let (a, text) = octet_before(b'.', text)?;
    let (b, text) = octet_before(b'.', text)?;
    let (c, text) = octet_before(b'.', text)?;
    let (d, text) = octet_before(b':', text)?;
    Some(([a, b, c, d], text))
}

/// The address that a text names: four numbers of 0 to 255 in 1 to 3 digits, with dots between, a colon, and a port of
/// 1 to 65535 in 1 to 5 digits. Zeros may lead a number.
#[tactic(auto, unfolding(crate::specs::Address::address_of))]
pub(crate) fn address_of(text: &[u8]) -> Option<Address>
    ensures { result ≡ address_of text.now }
{
    let (host, port) = host_before_port(text)?;
    let port = number_in(5, 1, 65535, port)? as u16;
    Some(Address { host, port })
}
