//! Text is told to a comparison.

ghost use Rattle.std.specs.Prelude.{◌≡◌, ◌++◌, List, ℕ, true, false, IsSome};
ghost use Rattle.gr_audit.specs.Compared.{told_of, text_of};

use gr_audit::Comparison;
use gr_out::Sink;

/// Tells all of these bytes, or all up to the first that is another one than in the text of the comparison. Says
/// whether all were told.
pub(crate) fn tell(told: &mut Comparison<'_>, bytes: &[u8]) -> bool
    ensures whole { result ≡ true → told_of told.new ≡ told_of told.old ++ bytes.now }
    ensures cut { result ≡ false → (rest : List ℕ) × (told_of told.new ++ rest ≡ told_of told.old ++ bytes.now) }
    ensures wrong { result ≡ false → IsSome told.new.wrong }
    ensures text { text_of told.new ≡ text_of told.old }
{
    let mut at = 0;
    'bytes: while at < bytes.len() {
        match told.write(&bytes[at..]) {
            Ok(taken) => at += taken,
            Err(_) => return false,
        }
    }
    true
}
