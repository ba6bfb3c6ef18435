//! The pairs of an event where they stand in its form in bytes.

ghost use Rattle.std.specs.Prelude.{◌≡◌, ◌∷◌, ◌<◌, ℕ, List, Some, length, option_map, slice_get};
ghost use Rattle.gr_event.specs.declared.value.Value.{Value};
ghost use Rattle.gr_event.specs.declared.event.Event.{Event};
ghost use Rattle.gr_event.specs.Form.{Begin, Spell};
ghost use Rattle.gr_event.specs.Get.{part_value, value_of};

use crate::decode::{length_of, number_of};
use crate::value::Part;

/// The name and the value of the first pair, and the bytes behind it.
pub(crate) fn front(rest: &[u8]) -> (&[u8], Part<'_>, &[u8])
    requires { (p : List ℕ × Value) × (ps : Event) × Spell rest.now (p ∷ ps) }
    ensures shorter { length result.2.now < length rest.now }
    ensures front { (p : List ℕ × Value) (ps : Event) → Spell rest.now (p ∷ ps)
        → (result.0.now ≡ p.0) × (part_value result.1 ≡ p.1) × Spell result.2.now ps }
{
    let len = usize::from(rest[0]);
    let (name, behind) = rest[1..].split_at(len);
    let (part, others) = first_value(behind);
    (name, part, others)
}

/// The first value, and the bytes behind it.
fn first_value(bytes: &[u8]) -> (Part<'_>, &[u8])
    requires { (v : Value) × (more : List ℕ) × Begin bytes.now v more }
    ensures { (v : Value) (more : List ℕ) → Begin bytes.now v more
        → (part_value result.0 ≡ v) × (result.1.now ≡ more) }
{
    match bytes[0] {
        1 => {
            let (field, others) = bytes[1..].split_at(8);
            (Part::Int(number_of(field)), others)
        }
        2 => {
            let (field, behind) = bytes[1..].split_at(2);
            let (text, others) = behind.split_at(usize::from(length_of(field)));
            (Part::Text(text), others)
        }
        _ => (Part::Bool(bytes[1] == 1), &bytes[2..]),
    }
}

/// The value of a name among pairs.
pub(crate) fn find<'a>(rest: &'a [u8], name: &[u8]) -> Option<Part<'a>>
    requires { (ps : Event) × Spell rest.now ps }
    ensures { (ps : Event) → Spell rest.now ps → option_map part_value result ≡ value_of name.now ps }
{
    if rest.is_empty() {
        return None;
    }
    let (first, part, others) = front(rest);
    if first == name {
        return Some(part);
    }
    find(others, name)
}

/// The name and the value of the pair at a place.
pub(crate) fn nth(rest: &[u8], i: usize) -> (&[u8], Part<'_>)
    requires { (ps : Event) × Spell rest.now ps × (i < length ps) }
    ensures { (ps : Event) → Spell rest.now ps → slice_get ps i ≡ Some (result.0.now, part_value result.1) }
{
    let (name, part, others) = front(rest);
    if i == 0 {
        return (name, part);
    }
    nth(others, i - 1)
}
