//! Laws of the format: each is the contract of a function that does nothing.

ghost use Rattle.std.specs.Prelude.{◌≡◌, ◌^◌, ◌≤◌, ◌∷◌, ◌++◌, [], ℕ, List, Ok, length};
ghost use Rattle.gr_note.specs.declared.TheConstants.{MAX_NUMBER, VERSION, SUBMIT, NEXT, SPENT};
ghost use Rattle.gr_note.specs.declared.node.TheConstants.{FIRST_CLIENT};
ghost use Rattle.gr_note.specs.declared.note.Note.{Note};
ghost use Rattle.gr_note.specs.Bytes.{letters, note_bytes, note_size};
ghost use Rattle.gr_note.specs.Decode.{note_decoded};
ghost use Rattle.gr_note.specs.Limits.{IsNote};

/// The spelling of a note decodes to it.
pub fn spelled_decodes()
    ensures { (n : Note) → IsNote n → note_decoded (note_bytes n) ≡ Ok n }
{}

/// Bytes that decode to a note are its spelling, so a note has one spelling alone.
pub fn decodes_its_spelling(bytes: &[u8])
    ensures { (n : Note) → note_decoded bytes.now ≡ Ok n → bytes.now ≡ note_bytes n }
{
    let _ = bytes;
}

/// No spelling of a note is a proper prefix of another.
pub fn spells_no_prefix()
    ensures { (n m : Note) (rest : List ℕ) → IsNote n → IsNote m → note_bytes m ≡ note_bytes n ++ rest → rest ≡ [] }
{}

/// The letters, the version, the kinds, the greatest number, how many bytes a note has, and the first client's node.
pub fn constants_of_notes()
    ensures letters { letters ≡ 71 ∷ (80 ∷ []) }
    ensures version { VERSION ≡ 1 }
    ensures submit { SUBMIT ≡ 1 }
    ensures next { NEXT ≡ 2 }
    ensures spent { SPENT ≡ 3 }
    ensures greatest { MAX_NUMBER ≡ 2 ^ 62 }
    ensures sizes { (n : Note) → length (note_bytes n) ≡ note_size n }
    ensures longest { (n : Note) → IsNote n → note_size n ≤ 8208 }
    ensures first_client { FIRST_CLIENT ≡ 64 }
{}
