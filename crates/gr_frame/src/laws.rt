//! Laws of the format: each is the contract of a function that does nothing.

ghost use Rattle.std.specs.Prelude.{◌≡◌, ◌≢◌, ◌↔◌, ◌≤◌, ◌∷◌, ◌++◌, [], ℕ, List, Ok, length};
ghost use Rattle.std.specs.List.{AllByRecursion};
ghost use Rattle.gr_tick.specs.declared.run.Run.{Run};
ghost use Rattle.gr_know.specs.declared.values.K.{K};
ghost use Rattle.gr_curio.specs.declared.values.Q3.{Q3};
ghost use Rattle.gr_event.specs.Joins.{Joins};
ghost use Rattle.gr_frame.specs.declared.Frame.{Frame};
ghost use Rattle.gr_frame.specs.declared.Head.{Head};
ghost use Rattle.gr_frame.specs.Bytes.{frame_bytes, head_bytes, know_head, head_size, cut_frames};
ghost use Rattle.gr_frame.specs.Bytes.{known_run_size, wanted_run_size};
ghost use Rattle.gr_frame.specs.Cut.{parts_of, joined};
ghost use Rattle.gr_frame.specs.Decode.{frame_decoded};
ghost use Rattle.gr_frame.specs.Limits.{IsFrame, IsWhole};
ghost use Rattle.gr_frame.specs.declared.TheConstants.{MAX_FRAME_BYTES, HEAD_BYTES};

/// Reading gives a frame exactly where the bytes spell it.
pub fn decodes_what_is_spelled(bytes: &[u8])
    ensures { (f : Frame) → (frame_decoded bytes.now ≡ Ok f) ↔ IsFrame bytes.now f }
{
    let _ = bytes;
}

/// Bytes spell one frame alone, and a frame has one spelling.
pub fn bytes_spell_one_frame()
    ensures frame { (bytes : List ℕ) (f g : Frame) → IsFrame bytes f → IsFrame bytes g → f ≡ g }
    ensures spelling { (a b : List ℕ) (f : Frame) → IsFrame a f → IsFrame b f → a ≡ b }
{}

/// No spelling of a frame is a proper prefix of another.
pub fn spells_no_prefix()
    ensures { (bytes rest : List ℕ) (f g : Frame) → IsFrame bytes f → IsFrame (bytes ++ rest) g → rest ≡ [] }
{}

/// The frames of a frame all have its head, and the runs of its piece one after another, whatever its joins.
pub fn cut_loses_nothing()
    ensures heads { (f : Frame) → AllByRecursion (λ p. p.head ≡ f.head) (parts_of f) }
    ensures known { (js : Joins) (rs : List (Run K)) → joined (cut_frames (head_size js) known_run_size rs) ≡ rs }
    ensures wanted { (rs : List (Run Q3)) → joined (cut_frames HEAD_BYTES wanted_run_size rs) ≡ rs }
{}

/// A frame without joins has version 1 and no list.
pub fn no_joins_no_list()
    ensures { (h : Head) (n : ℕ) → know_head h n [] ≡ head_bytes 1 1 h n }
{}

/// Only a frame that is too long is cut, and none of its parts is cut again: a part is written as its one spelling.
pub fn one_frame_is_not_cut()
    ensures whole { (bytes : List ℕ) (f : Frame) → IsFrame bytes f → parts_of f ≡ f ∷ [] }
    ensures parts { (f : Frame) → IsWhole f → AllByRecursion (λ p. parts_of p ≡ p ∷ []) (parts_of f) }
{}

/// How many bytes a frame has at most.
pub fn limit_of_frames()
    ensures { MAX_FRAME_BYTES ≡ 16384 }
{}
